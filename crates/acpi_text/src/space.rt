//! The beginning of a line. A function whose name begins with `push` adds to a text.

ghost use Rattle.std.specs.Prelude.{◌≡◌, ◌+◌, ◌*◌, ◌==◌, ◌&&◌, [], ◌∷◌, ◌++◌, not, OnOk, string_bytes};
ghost use Rattle.acpi_text.specs.Label.{prints, is_label, label};
ghost use Rattle.acpi_text.specs.Line.{spaces, margin, padded};

use crate::offset::push_offset;
use std::alloc::AllocError;

/// The column of the colon before a line's numbers.
const COLUMN: usize = 40;

// As many spaces as there are before the column, and the colon.
const SPACES: &str = "                                        :";

/// Adds two spaces for each level.
#[inline(always)]
pub fn push_level(depth: u8, text: &mut String) -> Result<(), AllocError>
    ensures { OnOk result (string_bytes text.new ≡ string_bytes text.old ++ spaces (2 * depth)) }
{
    let mut left = depth;
    'levels: while left > 0 {
        text.push_str("  ")?;
        left -= 1;
    }
    Ok(())
}

/// Returns whether a byte is a character of ASCII that prints.
pub fn prints(byte: u8) -> bool
    ensures { result ≡ prints byte }
{
    (0x20..=0x7e).contains(&byte)
}

// Returns whether a byte prints and isn't a colon.
fn is_label_byte(byte: u8) -> bool
    ensures { result ≡ (prints byte && not (byte == 58)) }
{
    prints(byte) && byte != b':'
}

// Returns whether all bytes print and none is a colon.
fn is_label(name: &[u8]) -> bool
    ensures { result ≡ is_label name.now }
{
    let mut fits = true;
    'bytes: for byte in name {
        fits &= is_label_byte(*byte);
    }
    fits
}

/// Adds a name, or a question mark if the name can't stand in a line.
pub fn push_label(name: &str, text: &mut String) -> Result<(), AllocError>
    ensures { OnOk result (string_bytes text.new ≡ string_bytes text.old ++ label name.now) }
{
    text.push_str(if is_label(name.as_bytes()) { name } else { "?" })
}

/// Adds the offset and the name of a line.
#[inline(always)]
pub fn push_margin(
    depth: u8,
    offset: usize,
    name: &str,
    text: &mut String,
) -> Result<(), AllocError>
    ensures { OnOk result (string_bytes text.new ≡ string_bytes text.old ++ margin depth offset name.now) }
{
    push_level(depth, text)?;
    push_offset(offset, text)?;
    push_label(name, text)?;
    Ok(())
}

/// Adds the offset and the name of a line, spaces up to the column of the colon, and the colon.
#[inline(always)]
pub fn push_padded(
    depth: u8,
    offset: usize,
    name: &str,
    text: &mut String,
) -> Result<(), AllocError>
    ensures { OnOk result (string_bytes text.new
        ≡ string_bytes text.old ++ (padded 40 (margin depth offset name.now) ++ 58 ∷ [])) }
{
    let start = text.len();
    push_margin(depth, offset, name, text)?;
    let left = COLUMN.saturating_sub(text.len() - start);
    text.push_str(&SPACES[COLUMN - left..])?;
    Ok(())
}
