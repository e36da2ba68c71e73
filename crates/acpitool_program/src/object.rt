//! The bytes of a file as an object of JSON.

ghost use Rattle.std.specs.Prelude.{IfOk, IfErr};
ghost use Rattle.acpi_forms.specs.File.{file_names};
ghost use Rattle.acpi_forms.specs.Named.{IsNamed};
ghost use Rattle.acpitool_program.specs.Object.{IsByForm, IsObject};
ghost use Rattle.acpitool_program.specs.Text.{IsTextFault};

use crate::fault::Fault;
use crate::text::check_kind;
use acpi_forms::file::{file_form, file_walk};
use acpi_json::table::table_object;
use acpi_text::form::TableForm;
use std::alloc::{AllocError, Global};

// Returns the object of bytes, by their form.
fn by_form(alloc: Global, name: &str, form: &TableForm, bytes: &[u8]) -> Result<Vec<u8>, AllocError>
    ensures { IsNamed form.now (file_names bytes.now) → IfOk result (λ object. IsByForm name.now bytes.now object.items) }
{
    let object = table_object(alloc, name, form, file_walk(bytes), bytes)?;
    Ok(object)
}

/// Returns the object of a table, a pointer or a control structure in a file of this name. An error says what is wrong with the
/// bytes, and where.
pub fn object_of(alloc: Global, name: &str, bytes: &[u8]) -> Result<Vec<u8>, Fault>
    ensures ok { IfOk result (λ object. IsObject name.now bytes.now object.items) }
    ensures err { IfErr result (IsTextFault bytes.now) }
{
    check_kind(bytes)?;
    Ok(by_form(alloc, name, &file_form(bytes), bytes)?)
}
