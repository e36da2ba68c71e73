//! The signature that the writer of a text probably meant.

ghost use Rattle.std.specs.Prelude.{◌≡◌, ◌++◌, IfOk, OnOk, string_bytes};
ghost use Rattle.acpitool_program.specs.Hint.{meant_for, meant_in_parts, meant_in, question, hint};
ghost use Rattle.acpi_make.specs.Meaning.{parts_of};

use acpi_forms::known::{is_known, meant};
use acpi_make::fault::{MakeError, Wanted};
use acpi_make::read::read_text;
use acpi_make::signature::signature_of;
use acpi_read::report::push_shown;
use std::alloc::{AllocError, Global};

// Returns the signature that is meant by one that isn't known, which is given as a number.
fn meant_for(signature: Option<u32>) -> Option<[u8; 4]>
    ensures { result ≡ meant_for signature }
{
    let name = signature?.to_le_bytes();
    if is_known(&name) { None } else { meant(&name) }
}

// Returns the signature that is meant by that of a text.
fn meant_in_parts(alloc: Global, text: &[u8]) -> Result<Option<[u8; 4]>, AllocError>
    ensures { IfOk result (λ found. found ≡ meant_in_parts (parts_of text.now)) }
{
    match read_text(alloc, text) {
        Ok(items) => Ok(meant_for(signature_of(&items))),
        Err(MakeError::Memory) => Err(AllocError),
        Err(MakeError::Fault(_)) => Ok(None),
    }
}

/// Returns the signature that is meant by that of a text, if a line of the text is that of no field: `APIC` for `MADT` and
/// `apic`. The only error is that memory ran out.
pub fn meant_in(alloc: Global, wanted: Wanted, text: &[u8]) -> Result<Option<[u8; 4]>, AllocError>
    ensures { IfOk result (λ found. found ≡ meant_in wanted text.now) }
{
    match wanted {
        Wanted::FieldOf => meant_in_parts(alloc, text),
        _ => Ok(None),
    }
}

// Adds the question whether a signature was meant.
fn push_question(signature: &[u8; 4], text: &mut String) -> Result<(), AllocError>
    ensures { OnOk result (string_bytes text.new ≡ string_bytes text.old ++ question signature.now) }
{
    text.push_str("; did you mean the signature \"")?;
    push_shown(signature, text)?;
    text.push_str("\"?")?;
    Ok(())
}

/// Adds the signature that was probably meant, if there is one.
pub fn push_hint(signature: &Option<[u8; 4]>, text: &mut String) -> Result<(), AllocError>
    ensures { OnOk result (string_bytes text.new ≡ string_bytes text.old ++ hint signature.now) }
{
    match signature {
        Some(signature) => push_question(signature, text),
        None => Ok(()),
    }
}
