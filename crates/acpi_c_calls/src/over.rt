//! Numbers and zeros over bytes.

ghost use Rattle.std.specs.Prelude.{◌≡◌, ◌≤◌, ◌+◌, length};
ghost use Rattle.acpi_base.specs.Bytes.{le, put, zeros};
ghost use Rattle.acpi_base.specs.Walk.{place_width};
ghost use Rattle.acpi_c_calls.specs.Over.{placed, fits_at, next_count};

use acpi_base::patch::write_at;
use acpi_base::walk::Place;
use acpi_make::draft::fits;
use acpi_text::part::number_at;

/// Writes the lowest `width` bytes of a number over those at an offset, lowest first.
pub(crate) fn put_number(bytes: &mut [u8], at: usize, width: usize, number: u64)
    requires narrow { width ≤ 8 }
    requires within { at + width ≤ length bytes.old }
    ensures { bytes.new ≡ put at (le width number) bytes.old }
{
    write_at(bytes, at, &number.to_le_bytes()[..width]);
}

/// Writes zeros over bytes.
pub(crate) fn clear(bytes: &mut [u8])
    ensures { bytes.new ≡ zeros (length bytes.old) }
{
    'bytes: for i in 0..bytes.len() {
        bytes[i] = 0;
    }
}

// Returns how many bytes a field has, or 0 if there is none.
fn width_of(place: Place) -> usize
    ensures is { result ≡ place_width place }
    ensures few { result ≤ 8 }
{
    match place {
        Place::Nowhere => 0,
        Place::Byte(_) => 1,
        Place::Word(_) => 2,
        Place::DWord(_) => 4,
    }
}

/// Writes a number over the field at a place, if there is a field and the bytes have it.
pub(crate) fn place_number(bytes: &mut [u8], place: Place, number: usize)
    ensures { bytes.new ≡ placed place number bytes.old }
{
    let width = width_of(place);
    if width > 0 && place.end() <= bytes.len() {
        put_number(bytes, place.offset(), width, number as u64);
    }
}

/// Returns whether a number fits the field at a place, if there is a field.
pub(crate) fn fits_at(place: Place, number: usize) -> bool
    ensures { result ≡ fits_at place number }
{
    let width = width_of(place);
    width == 0 || fits(width, number)
}

/// Returns the number that follows the one in a field, if it fits.
pub(crate) fn next_count(place: Place, bytes: &[u8]) -> Option<usize>
    ensures { result ≡ next_count place bytes.now }
{
    let Some(next) = number_at(place, bytes).checked_add(1) else {
        return None;
    };
    if fits_at(place, next) {
        Some(next)
    } else {
        None
    }
}
