//! Outcomes, as numbers and in the caller's buffers.

ghost use Rattle.std.specs.Prelude.{◌≡◌, Ok, Err};
ghost use Rattle.acpi_c_calls.specs.Results.{seen, IsResult, IsGiven};
ghost use Rattle.acpi_c_calls.specs.Fault.{number_of};

use crate::fault::Fault;
use crate::refused::Refused;

// Returns the number of an outcome, and sets its place.
pub(crate) fn result_of(outcome: Result<(), Refused>, place: &mut u64) -> u32
    ensures { IsResult outcome result place.new }
{
    match outcome {
        Ok(()) => {
            *place = 0;
            0
        }
        Err(refused) => {
            *place = refused.place;
            refused.fault.number()
        }
    }
}

// Writes what was found to the front of a buffer, if there is space.
pub(crate) fn put<T: Copy>(found: &[T], out: &mut [T], size: &mut usize, place: &mut u64) -> u32
    ensures { IsGiven (Ok found.now) out.old out.new result place.new size.new }
{
    *place = 0;
    *size = found.len();
    if found.len() > out.len() {
        return Fault::Buffer.number();
    }
    out[..found.len()].copy_from_slice(found);
    0
}

// Returns the number of a refusal, sets its place, and leaves a buffer unchanged.
pub(crate) fn refuse<T>(refused: Refused, _out: &mut [T], size: &mut usize, place: &mut u64) -> u32
    ensures { IsGiven (Err refused) _out.old _out.new result place.new size.new }
{
    *place = refused.place;
    *size = 0;
    refused.fault.number()
}

// Writes what was found to the front of a buffer, or returns the number of the refusal.
pub(crate) fn give<T: Copy + Drop>(
    found: Result<Vec<T>, Refused>,
    out: &mut [T],
    size: &mut usize,
    place: &mut u64,
) -> u32
    ensures { IsGiven (seen (λ found. found.items) found) out.old out.new result place.new size.new }
{
    match found {
        Ok(found) => put(&found, out, size, place),
        Err(refused) => refuse(refused, out, size, place),
    }
}
