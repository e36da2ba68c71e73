//! The text of a file's bytes.

ghost use Rattle.std.specs.Prelude.{◌≡◌, true, false, [], string_bytes, IfOk, IfErr, OnOk};
ghost use Rattle.acpitool_program.specs.Offsets.{without_offsets};
ghost use Rattle.acpi_forms.specs.Kind.{kind_of};
ghost use Rattle.acpitool_program.specs.Text.{IsKind, IsText, IsTextAs, IsTextFault};

use crate::check::check_as;
use crate::fault::Fault;
use crate::offsets::without_offsets;
use acpi_forms::kind::kind_of;
use acpi_forms::show::show_file;
use std::alloc::{AllocError, Global};

/// Returns Ok if bytes are what their signature says: a table, an RSDP, a FACS or an S3PT; or, without a signature, a CDAT. An
/// error says what is wrong with the bytes, and where.
pub fn check_kind(bytes: &[u8]) -> Result<(), Fault>
    ensures ok { OnOk result (IsKind (kind_of bytes.now) bytes.now) }
    ensures err { IfErr result (IsTextFault bytes.now) }
{
    let kind = kind_of(bytes);
    match check_as(kind, bytes) {
        Ok(()) => Ok(()),
        Err(error) => Err(Fault::in_file(kind, error, bytes)),
    }
}

/// Returns the text of a table, a pointer or a control structure. An error says what is wrong with the bytes, and where.
pub fn text_of(alloc: Global, bytes: &[u8]) -> Result<String, Fault>
    ensures ok { IfOk result (λ text. IsText bytes.now (string_bytes text)) }
    ensures err { IfErr result (IsTextFault bytes.now) }
{
    check_kind(bytes)?;
    Ok(show_file(alloc, bytes)?)
}

/// Returns a text as bytes, with or without the offsets of its lines.
pub fn as_asked(alloc: Global, bare: bool, text: String) -> Result<Vec<u8>, AllocError>
    ensures whole { IfOk result (λ made. bare ≡ false → made.items ≡ string_bytes text) }
    ensures bare { IfOk result (λ made. bare ≡ true → made.items ≡ without_offsets [] (string_bytes text)) }
{
    if bare {
        return without_offsets(alloc, text.as_bytes());
    }
    Ok(text.into_bytes())
}

/// Returns the text of a table, a pointer or a control structure, with or without the offsets of its lines. An error says what is
/// wrong with the bytes, and where.
pub fn text_as(alloc: Global, bare: bool, bytes: &[u8]) -> Result<Vec<u8>, Fault>
    ensures ok { IfOk result (λ text. IsTextAs bare bytes.now text.items) }
    ensures err { IfErr result (IsTextFault bytes.now) }
{
    let text = text_of(alloc, bytes)?;
    Ok(as_asked(alloc, bare, text)?)
}
