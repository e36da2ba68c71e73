//! Named objects.

ghost use Rattle.std.specs.Prelude.{[], ◌∷◌};
ghost use Rattle.acpi_base.specs.Object.{whole, Builds};
ghost use Rattle.acpi_term.specs.Tree.{def_name};
ghost use Rattle.acpi_term.specs.Row.{row};

use crate::path::Path;
use crate::written::Written;
use acpi_base::error::R;
use acpi_base::object::Aml;
use acpi_term::row::bare_on;
use std::alloc::Global;

/// An object with a name, or the name of a field alone (ACPI 6.5, 20.2.5.1, DefName).
pub type Name = Written<DefName>;

pub struct DefName;

impl Name {
    /// The object is borrowed for the call. The error is the object's.
    pub fn new(path: Path, inner: &dyn Aml) -> R<Name>
        ensures { Builds result (row (def_name path) (object inner.now ∷ [])) }
    {
        let mut before = path.bytes;
        before.insert(0, 0x08)?;
        let bytes = bare_on(before, &[inner])?;
        Ok(Written::of(bytes))
    }

    /// The bytes of a text, without a check: the name of a field, as an operand of an operator.
    pub fn new_field_name(alloc: Global, text: &str) -> R<Name>
        ensures { Builds result (whole text.now) }
    {
        let bytes = Vec::from_slice(alloc, text.as_bytes())?;
        Ok(Written::of(bytes))
    }
}
