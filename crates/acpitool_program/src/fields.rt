//! The fields of a table, a pointer or a control structure.

ghost use Rattle.std.specs.Prelude.{map, IfOk};
ghost use Rattle.acpi_forms.specs.File.{file_names};
ghost use Rattle.acpi_forms.specs.Named.{IsNamed};
ghost use Rattle.acpi_rules.specs.Field.{seen};
ghost use Rattle.acpitool_program.specs.Fields.{AreFields};

use acpi_forms::file::{file_form, file_walk};
use acpi_rules::field::Field;
use acpi_rules::table::fields_of;
use acpi_text::form::TableForm;
use std::alloc::{AllocError, Global};

// Returns the fields of bytes, by their form.
fn by_form<'a>(
    alloc: Global,
    form: &TableForm,
    bytes: &'a [u8],
) -> Result<Vec<Field<'a>>, AllocError>
    ensures { IsNamed form.now (file_names bytes.now) → IfOk result (λ fields. AreFields bytes.now (map seen fields.items)) }
{
    let fields = fields_of(alloc, form, file_walk(bytes), bytes)?;
    Ok(fields)
}

/// Returns the fields of bytes, in the order of their offsets. The only error is that memory ran out.
pub fn fields_in(alloc: Global, bytes: &[u8]) -> Result<Vec<Field<'_>>, AllocError>
    ensures { IfOk result (λ fields. AreFields bytes.now (map seen fields.items)) }
{
    by_form(alloc, &file_form(bytes), bytes)
}
