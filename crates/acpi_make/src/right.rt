//! The right numbers of a table in their fields.

ghost use Rattle.std.specs.Prelude.{◌≡◌, ◌+◌, ◌≤◌, true};
ghost use Rattle.acpi_make.specs.Right.{has_field, with_number, with_numbers};

use crate::extent::Own;
use acpi_base::patch::write_at;

// Returns whether the field of a number is within this many bytes.
fn has_field(own: &Own, size: usize) -> bool
    ensures is { result ≡ has_field own.now size }
    ensures few { result ≡ true → own.now.width ≤ 8 }
    ensures within { result ≡ true → own.now.offset + own.now.width ≤ size }
{
    own.width <= 8 && own.offset <= size && own.width <= size.saturating_sub(own.offset)
}

// Writes a number into its field, if the field is there.
fn set_number(own: &Own, bytes: &mut [u8])
    ensures { bytes.new ≡ with_number own.now bytes.old }
{
    if has_field(own, bytes.len()) {
        write_at(bytes, own.offset, &own.number.to_le_bytes()[..own.width]);
    }
}

/// Writes numbers into their fields, if the fields are there.
pub fn set_numbers(owns: &[Own], bytes: &mut [u8])
    ensures { bytes.new ≡ with_numbers owns.now bytes.old }
{
    'owns: for own in owns {
        set_number(own, bytes);
    }
}
