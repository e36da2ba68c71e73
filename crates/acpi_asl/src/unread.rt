//! Bytes of a definition block that can't be read. A function whose name begins with `push` adds to a text.

ghost use Rattle.std.specs.Prelude.{◌≡◌, ◌++◌, codes, OnOk, string_bytes};
ghost use Rattle.std.specs.Fmt.{decimal};
ghost use Rattle.acpi_term.specs.ReadError.{message_of, offset_of};
ghost use Rattle.acpi_asl.specs.Unread.{lead_text, unread_text};

use crate::block::BODY;
use crate::number::push_decimal;
use crate::place::push_line;
use crate::row::push_bytes;
use acpi_term::read_error::ReadError;
use std::alloc::AllocError;

// Adds the beginning of the comment with a place.
fn push_place(place: usize, text: &mut String) -> Result<(), AllocError>
    ensures { OnOk result (string_bytes text.new ≡ string_bytes text.old
        ++ (codes "/*= not read, at " ++ decimal place ++ codes ": ")) }
{
    text.push_str("/*= not read, at ")?;
    push_decimal(place as u64, text)?;
    text.push_str(": ")?;
    Ok(())
}

// Adds the beginning of the comment, with the place of a fault that has one.
fn push_lead(offset: Option<usize>, text: &mut String) -> Result<(), AllocError>
    ensures { OnOk result (string_bytes text.new ≡ string_bytes text.old ++ lead_text offset) }
{
    let Some(offset) = offset else {
        return text.push_str("/*= not read, ");
    };
    // No block has so many bytes.
    let Some(place) = BODY.checked_add(offset) else {
        return Err(AllocError);
    };
    push_place(place, text)
}

#[tactic(auto, using(acpi_read::proofs::Texts::after_two))]
fn push_cause(error: ReadError, text: &mut String) -> Result<(), AllocError>
    ensures { OnOk result (string_bytes text.new ≡ string_bytes text.old
        ++ (lead_text (offset_of error) ++ message_of error)) }
{
    push_lead(error.offset(), text)?;
    text.push_str(error.message())
}

/// Adds a comment in place of terms that can't be read: why, and their bytes.
#[tactic(auto, using(acpi_read::proofs::Texts::after_four))]
#[inline(never)]
pub fn push_unread(
    error: ReadError,
    bytes: &[u8],
    depth: usize,
    text: &mut String,
) -> Result<(), AllocError>
    ensures { OnOk result (string_bytes text.new ≡ string_bytes text.old ++ unread_text error bytes.now depth) }
{
    // No memory has room for an indentation of this depth.
    let Some(inner) = depth.checked_add(1) else {
        return Err(AllocError);
    };
    push_cause(error, text)?;
    push_bytes(inner, bytes, text)?;
    push_line(depth, text)?;
    text.push_str("*/")
}
