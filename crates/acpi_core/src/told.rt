//! Lengths and offsets that a structure contains in its fields.

ghost use Rattle.std.specs.Prelude.{◌≡◌, ◌^◌, ◌≤◌, IfOk, IfErr};

use acpi_base::error::{Error, R};

/// A length or an offset as a field of two bytes. The error is `FieldWidth` if it doesn't fit.
pub fn told_size(size: usize) -> R<u16>
    ensures ok { IfOk result (λ told. told ≡ size) }
    ensures err { IfErr result (λ e. (e ≡ Error.FieldWidth) × (2 ^ 16 ≤ size)) }
{
    if size > 0xffff {
        return Err(Error::FieldWidth);
    }
    Ok(size as u16)
}
