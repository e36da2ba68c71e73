//! Words of faults, and the version.

ghost use Rattle.std.specs.Prelude.{◌≡◌, Some, None, Ok, Err};
ghost use Rattle.acpi_c_calls.specs.Results.{Gives, GivesAnywhere};
ghost use Rattle.acpi_c_calls.specs.Names.{version, IsName, IsNoName};

use crate::fault::{Fault, words_of};
use crate::give::{put, refuse};
use crate::refused::Refused;

// Writes the words of a number, or returns that it has none.
fn write_words(number: u32, out: &mut [u8], size: &mut usize, place: &mut u64) -> u32
    ensures { Gives (IsName number) (IsNoName number) out.old out.new result place.new size.new }
{
    match words_of(number) {
        Some(words) => put(words.as_bytes(), out, size, place),
        None => refuse(Refused::anywhere(Fault::UnknownNumber), out, size, place),
    }
}

/// Writes the words of a number to `out`: those of its fault, or `fine` of 0. `size` is the number of their bytes. Returns 0,
/// or the number of a fault: `UnknownNumber` if no fault has the number, and `Buffer` if `out` has space for fewer bytes. Then
/// nothing is written to `out`. It takes no memory.
pub fn fault_name(number: u32, out: &mut [u8], size: &mut usize) -> u32
    ensures { GivesAnywhere (IsName number) (IsNoName number) out.old out.new result size.new }
{
    let mut place = 0;
    write_words(number, out, size, &mut place)
}

/// The version of these calls. It grows when one of them changes, or a fault.
pub fn version() -> u32
    ensures { result ≡ version }
{
    9
}
