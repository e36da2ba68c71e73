//! The value of a table in contracts.

ghost use Rattle.std.specs.Prelude.{◌≡◌};
ghost use Rattle.std.specs.Borrow.{ftrue};
ghost use Rattle.acpi_core.specs.Listing.{Listing, with_structure};
ghost use Rattle.acpi_core.specs.Flat.{new_listing};

use crate::form::Form;
use std::marker::Model;

/// The table that the bytes stand for. It takes no memory at run time.
#[derive(Drop)]
pub struct Listed {
    pub ghost table: { Listing },
}

impl Model for Listed {
    ghost also_owns = { λ _. ftrue };
}

impl Listed {
    /// A table without structures.
    pub fn new(_form: &Form, _before: &[u8], _after: &[u8]) -> Listed
        ensures { result.table ≡ new_listing _form.now _before.now _after.now }
    {
        Listed {}
    }

    /// The table with one more structure.
    pub fn with(_before: &Listed, _structure: &[u8]) -> Listed
        ensures { result.table ≡ with_structure _before.now.table _structure.now }
    {
        Listed {}
    }
}
