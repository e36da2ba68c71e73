//! The texts of tables and records, by their forms.

ghost use Rattle.std.specs.Prelude.{◌≡◌, None, IfOk, IfErr, string_bytes};
ghost use Rattle.acpi_base.specs.Bytes.{field_at};
ghost use Rattle.acpi_base.specs.declared.error.Error.TheVariants.{Memory};
ghost use Rattle.acpi_forms.specs.File.{IsFileText};
ghost use Rattle.acpi_forms.specs.Layout.{names_in, walk_in};
ghost use Rattle.acpi_forms.specs.Named.{Named, IsNamed, rsdp_names, facs_names};
ghost use Rattle.acpi_forms.specs.Shows.{IsTextOf};
ghost use Rattle.acpi_text.specs.Reading.{bytes_of};

use crate::file::{file_form, file_walk};
use crate::form::{facs_form, rsdp_form};
use crate::layout::{form_in, walk_in};
use acpi_base::error::R;
use acpi_base::walk::Walk;
use acpi_read::pieces::signature_number;
use acpi_read::table::Table;
use acpi_text::form::TableForm;
use acpi_text::table::show_by;
use std::alloc::{AllocError, Global};

// Returns the text of bytes by a form.
fn shown_by(
    alloc: Global,
    form: &TableForm,
    walk: Option<Walk>,
    bytes: &[u8],
) -> Result<String, AllocError>
    ensures text { (names : Named) → IsNamed form.now names
        → IfOk result (λ text. IsTextOf names walk bytes.now (string_bytes text)) }
    ensures bytes { IfOk result (λ text. bytes_of (string_bytes text) ≡ bytes.now) }
{
    let text = show_by(alloc, form, walk, bytes)?;
    Ok(text)
}

// Returns the same with the errors of this library, of which Memory is the only one.
fn text_by(alloc: Global, form: &TableForm, walk: Option<Walk>, bytes: &[u8]) -> R<String>
    ensures text { (names : Named) → IsNamed form.now names
        → IfOk result (λ text. IsTextOf names walk bytes.now (string_bytes text)) }
    ensures bytes { IfOk result (λ text. bytes_of (string_bytes text) ≡ bytes.now) }
    ensures err { IfErr result (λ e. e ≡ Memory) }
{
    Ok(shown_by(alloc, form, walk, bytes)?)
}

/// Returns the text of a table: its name, a line for each field and each structure, and all other bytes in lines of sixteen.
/// The text determines the table. The only error is Memory.
pub fn show(alloc: Global, table: &Table) -> R<String>
    ensures text { IfOk result (λ text. IsTextOf (names_in (field_at 0 4 table.now) table.now)
        (walk_in (field_at 0 4 table.now) table.now) table.now (string_bytes text)) }
    ensures bytes { IfOk result (λ text. bytes_of (string_bytes text) ≡ table.now) }
    ensures err { IfErr result (λ e. e ≡ Memory) }
{
    let signature = signature_number(table);
    let bytes = table.bytes();
    text_by(
        alloc,
        &form_in(signature, bytes),
        walk_in(signature, bytes),
        bytes,
    )
}

/// Returns the text of a Root System Description Pointer (ACPI 6.5, 5.2.5.3): its 36 bytes, or the first 20 of an older revision.
/// The only error is Memory.
pub fn show_rsdp(alloc: Global, bytes: &[u8]) -> R<String>
    ensures text { IfOk result (λ text. IsTextOf rsdp_names None bytes.now (string_bytes text)) }
    ensures bytes { IfOk result (λ text. bytes_of (string_bytes text) ≡ bytes.now) }
    ensures err { IfErr result (λ e. e ≡ Memory) }
{
    text_by(alloc, &rsdp_form(), None, bytes)
}

/// Returns the text of a Firmware ACPI Control Structure (ACPI 6.5, 5.2.10). The only error is Memory.
pub fn show_facs(alloc: Global, bytes: &[u8]) -> R<String>
    ensures text { IfOk result (λ text. IsTextOf facs_names None bytes.now (string_bytes text)) }
    ensures bytes { IfOk result (λ text. bytes_of (string_bytes text) ≡ bytes.now) }
    ensures err { IfErr result (λ e. e ≡ Memory) }
{
    text_by(alloc, &facs_form(), None, bytes)
}

/// Returns the text of what a file contains, by its signature: a table, or one of the tables without a standard header. The text
/// determines the bytes.
pub fn show_file(alloc: Global, bytes: &[u8]) -> Result<String, AllocError>
    ensures text { IfOk result (λ text. IsFileText bytes.now (string_bytes text)) }
    ensures bytes { IfOk result (λ text. bytes_of (string_bytes text) ≡ bytes.now) }
{
    shown_by(alloc, &file_form(bytes), file_walk(bytes), bytes)
}
