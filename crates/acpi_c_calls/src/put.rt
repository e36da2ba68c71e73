//! Bytes at the end of a writer's.

ghost use Rattle.std.specs.Prelude.{◌≡◌, ◌≤◌, ◌+◌, ◌++◌, length, nat_le, false, Err};
ghost use Rattle.acpi_base.specs.Bytes.{put};
ghost use Rattle.acpi_c_calls.specs.Writer.{IsDone, adds, adds_bytes, piece_of};

use crate::fault::Fault;
use crate::held::hold;
use crate::state::State;
use acpi_base::object::Aml;
use acpi_base::patch::write_at;

// Keeps a fault as the writer's first one, and returns its number.
pub(crate) fn fail(_bytes: &mut [u8], state: &mut State, fault: Fault) -> u32
    ensures { IsDone (Err fault) _bytes.old state.old _bytes.new state.new result }
{
    state.fault = fault.number();
    fault.number()
}

// Writes three lists of bytes over those at an offset.
#[tactic(auto, using(crate::proofs::Joins::put_three))]
pub(crate) fn write_three(
    bytes: &mut [u8],
    offset: usize,
    first: &[u8],
    second: &[u8],
    third: &[u8],
)
    requires { offset + (length first.now + (length second.now + length third.now)) ≤ length bytes.old }
    ensures { bytes.new ≡ put offset (first.now ++ (second.now ++ third.now)) bytes.old }
{
    write_at(bytes, offset, first);
    write_at(bytes, offset + first.len(), second);
    write_at(bytes, offset + first.len() + second.len(), third);
}

// Whether there is space for three lists of bytes after those that are written.
pub(crate) fn have_space(
    bytes: &[u8],
    state: &State,
    first: &[u8],
    second: &[u8],
    third: &[u8],
) -> bool
    ensures { result ≡ nat_le (state.now.size + (length first.now + (length second.now + length third.now))) (length bytes.now) }
{
    let Some(size) = first.len().checked_add(second.len() + third.len()) else {
        return false;
    };
    state.size <= bytes.len() && size <= bytes.len() - state.size
}

// Writes bytes that lie in three places after those that are written, if there is space.
pub(crate) fn put(
    bytes: &mut [u8],
    state: &mut State,
    first: &[u8],
    second: &[u8],
    third: &[u8],
) -> u32
    ensures { IsDone (adds_bytes (first.now ++ (second.now ++ third.now)) bytes.old state.old)
        bytes.old state.old bytes.new state.new result }
{
    if !have_space(bytes, state, first, second, third) {
        return fail(bytes, state, Fault::Buffer);
    }
    write_three(bytes, state.size, first, second, third);
    state.size += first.len() + (second.len() + third.len());
    0
}

// Writes an object's bytes after those that are written. It has at most 1024, and takes no memory.
pub(crate) fn put_object<T: Aml>(bytes: &mut [u8], state: &mut State, value: &T) -> u32
    requires few { length (T.object value.now).front ≤ 1024 }
    requires dry { (T.object value.now).wants_memory ≡ false }
    ensures { IsDone (adds (piece_of (T.object value.now)) bytes.old state.old)
        bytes.old state.old bytes.new state.new result }
{
    match hold(value) {
        Ok(held) => put(bytes, state, held.bytes(), &[], &[]),
        Err(fault) => fail(bytes, state, fault),
    }
}
