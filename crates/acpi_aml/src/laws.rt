//! Laws about the definitions that the contracts use. Each function is a law: it does nothing, and its `ensures` states the law.

ghost use Rattle.acpi_aml.specs.Laws.{BuildersMakePackages, RawIsScope, NamesOfObjectsMean, RegionsMean};
ghost use Rattle.acpi_aml.specs.Laws.{FieldsMean, AllStatementsMean, CallsMean, TemplatesMean, NumbersMean};
ghost use Rattle.acpi_aml.specs.Laws.{ConstantsMean, TextsMean, NamesMean, PathsMean, BuildersMean};
ghost use Rattle.acpi_aml.specs.Laws.{NameTextsMean, PathsAreNames};
ghost use Rattle.acpi_aml.specs.Laws.{VarPackagesMean, BuffersMean, BufferTermsMean, UuidMeans, EisaNameMeans};

pub use crate::derived::equal_values_are_the_same;
use crate::eisa::EISAName;
use crate::uuid::Uuid;

/// A builder to which elements were added writes the package of these elements.
pub fn builders_make_packages()
    ensures { BuildersMakePackages }
{}

/// The scope of children's bytes is the scope of these children.
pub fn raw_is_scope()
    ensures { RawIsScope }
{}

/// Scopes, devices, methods, power resources, names, mutexes, `Acquire` and `Release` spell their terms.
pub fn named_objects_mean()
    ensures { NamesOfObjectsMean }
{}

/// Operation regions in every address space spell their terms.
pub fn regions_mean()
    ensures { RegionsMean }
{}

/// Fields with every access type, lock rule and update rule spell their terms.
pub fn fields_mean()
    ensures { FieldsMean }
{}

/// Branches, loops, packages, arguments and local variables spell their terms.
pub fn statements_mean()
    ensures { AllStatementsMean }
{}

/// A call with the stated number of arguments spells the call.
pub fn calls_mean()
    ensures { CallsMean }
{}

/// A resource template spells the buffer of its descriptors and the end tag.
pub fn templates_mean()
    ensures { TemplatesMean }
{}

/// Every UUID spells the buffer of its 16 bytes.
pub fn uuid_means(uuid: &Uuid)
    ensures { UuidMeans uuid.now }
{
    let _ = &uuid.bytes;
}

/// Every EISA id spells its number.
pub fn eisa_name_means(id: &EISAName)
    ensures { EisaNameMeans id.now }
{
    let _ = &id.value;
}

/// A number spells the term of this number, in the width that is written.
pub fn numbers_mean()
    ensures { NumbersMean }
{}

/// Each constant spells its term.
pub fn constants_mean()
    ensures { ConstantsMean }
{}

/// A string of the standard spells its text.
pub fn texts_mean()
    ensures { TextsMean }
{}

/// A path or a field's name spells a call without arguments.
pub fn names_mean()
    ensures { NamesMean }
{}

/// The path of a text of standard segments spells a call without arguments.
pub fn paths_mean()
    ensures { PathsMean }
{}

/// The name of a text of standard segments, or of none after `\` or `^`, is a name of the standard.
pub fn name_texts_mean()
    ensures { NameTextsMean }
{}

/// A text that doesn't begin with `^`, and isn't `\` alone, has the same name as path.
pub fn paths_are_names()
    ensures { PathsAreNames }
{}

/// A builder spells the package of the terms that its bytes spell.
pub fn builders_mean()
    ensures { BuildersMean }
{}

/// A variable package spells the terms that its contents spell.
pub fn var_packages_mean()
    ensures { VarPackagesMean }
{}

/// A buffer of bytes spells their number and the bytes.
pub fn buffers_mean()
    ensures { BuffersMean }
{}

/// A buffer whose content an object writes spells the first term of that content, and the bytes after this term.
pub fn buffer_terms_mean()
    ensures { BufferTermsMean }
{}
