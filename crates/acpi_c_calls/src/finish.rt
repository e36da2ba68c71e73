//! Writers that begin and end.

ghost use Rattle.std.specs.Prelude.{◌≡◌};
ghost use Rattle.acpi_c_calls.specs.Finish.{begun, Nulls, Finishes};

use crate::fault::Fault;
use crate::state::State;

/// The state of a writer that has no bytes.
pub fn begin(state: &mut State) -> u32
    ensures state { state.new ≡ begun }
    ensures fine { result ≡ 0 }
{
    *state = State {
        size: 0,
        depth: 0,
        marks: [0; 32],
        kinds: [0; 32],
        fault: 0,
    };
    0
}

/// Keeps the fault `Null` if there was none before, and returns the first fault.
pub fn null(state: &mut State) -> u32
    ensures { Nulls state.old state.new result }
{
    if state.fault == 0 {
        state.fault = Fault::Null.number();
    }
    state.fault
}

/// Returns 0 if no call had a fault and no object is open, and `size` is the number of the bytes that are written. Otherwise it
/// returns the first fault, or `StillOpen`. Then `size` is 0, and `place` is how many bytes were written before the fault.
pub fn finish(state: &State, size: &mut usize, place: &mut u64) -> u32
    ensures { Finishes state.now result size.new place.new }
{
    let number = if state.fault == 0 && state.depth != 0 {
        Fault::StillOpen.number()
    } else {
        state.fault
    };
    if number == 0 {
        *size = state.size;
        *place = 0;
    } else {
        *size = 0;
        *place = state.size as u64;
    }
    number
}
