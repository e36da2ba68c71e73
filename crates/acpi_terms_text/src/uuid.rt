//! The texts of UUIDs (ACPI 6.5, 19.6.142). A function whose name begins with `push` adds to a text.

ghost use Rattle.std.specs.Prelude.{◌≡◌, ◌++◌, ◌∷◌, [], OnOk, string_bytes};
ghost use Rattle.acpi_read.specs.Lines.{hex_bytes};
ghost use Rattle.acpi_terms_text.specs.Uuid.{uuid_text};

use acpi_read::report::words::push_hex;
use std::alloc::AllocError;

// Adds the digits of bytes, and `-` after them.
fn push_group(bytes: &[u8], text: &mut String) -> Result<(), AllocError>
    ensures { OnOk result (string_bytes text.new ≡ string_bytes text.old ++ (hex_bytes bytes.now ++ (0x2d ∷ []))) }
{
    push_hex(bytes, text)?;
    text.push('-')
}

/// Adds the text of a UUID in a buffer of 16 bytes.
pub fn push_uuid(bytes: &[u8], text: &mut String) -> Result<(), AllocError>
    ensures { OnOk result (string_bytes text.new ≡ string_bytes text.old ++ uuid_text bytes.now) }
{
    let [d, c, b, a, f, e, h, g, i, j, node @ ..] = bytes else {
        return Ok(());
    };
    push_group(&[*a, *b, *c, *d], text)?;
    push_group(&[*e, *f], text)?;
    push_group(&[*g, *h], text)?;
    push_group(&[*i, *j], text)?;
    push_hex(node, text)?;
    Ok(())
}
