//! Objects that are closed: they get their PkgLength, which counts the bytes after it.

ghost use Rattle.std.specs.Prelude.{◌≡◌, ◌≤◌, ◌<◌, ◌^◌, ◌+◌, ◌-◌, ◌++◌, length, take, drop};
ghost use Rattle.acpi_base.specs.Bytes.{put};
ghost use Rattle.acpi_base.specs.Number.{number};
ghost use Rattle.acpi_c_calls.specs.Writer.{IsDone, Writes, size_before, tag_after, content_from, closes, closes_at};
ghost use Rattle.acpi_c_calls.specs.Writer.{closes_inside};

use crate::fault::Fault;
use crate::held::{Held, fault_of, hold};
use crate::put::fail;
use crate::state::{DEPTH, State};
use acpi_base::patch::write_at;
use acpi_term::row::frame_length;

// Moves up the bytes between `at` and `end`, and writes two lists of bytes before them and one after them.
#[tactic(auto, using(crate::proofs::Closings::surrounded))]
fn surround(bytes: &mut [u8], at: usize, end: usize, first: &[u8], second: &[u8], last: &[u8])
    requires order { at ≤ end }
    requires room { end + (length first.now + length second.now) + length last.now ≤ length bytes.old }
    ensures { bytes.new ≡ put at (first.now ++ (second.now ++ (take (end - at) (drop at bytes.old) ++ last.now))) bytes.old }
{
    let to = at + (first.len() + second.len());
    bytes.copy_within(at..end, to);
    write_at(bytes, to + (end - at), last);
    write_at(bytes, at + first.len(), second);
    write_at(bytes, at, first);
}

// A number in its shortest form.
fn number(value: u64) -> Held
    ensures { result ≡ number value }
{
    match hold(&value) {
        Ok(held) => held,
        Err(_) => Held::new(),
    }
}

// What closing an object of this kind adds before a content of this size.
fn size_before(kind: u32, size: usize) -> Held
    requires { size < 2 ^ 63 }
    ensures { result ≡ size_before kind size }
{
    match kind {
        0 => Held::new(),
        1 => number(size as u64),
        _ => number(size as u64 + 2),
    }
}

// What closing an object of this kind adds after its content.
fn tag_after(kind: u32) -> &'static [u8]
    ensures { result.now ≡ tag_after kind }
{
    match kind {
        0 | 1 => &[],
        _ => &[0x79, 0x00],
    }
}

// Puts the content from `start` on, with these bytes before and after it, into a frame.
fn close_frame(
    bytes: &mut [u8],
    state: &mut State,
    start: usize,
    before: &[u8],
    after: &[u8],
) -> u32
    requires open { 1 ≤ state.old.depth }
    requires order { start ≤ state.old.size }
    requires within { state.old.size ≤ length bytes.old }
    requires few { length before.now + length after.now ≤ 2048 }
    ensures { IsDone (closes_inside start (before.now ++ (content_from start bytes.old state.old ++ after.now))
        bytes.old state.old) bytes.old state.old bytes.new state.new result }
{
    let end = state.size;
    let size = before.len() + ((end - start) + after.len());
    match frame_length(size) {
        Ok(found) => {
            let length = found.0;
            let used = found.1;
            if used + size > bytes.len() - start {
                return fail(bytes, state, Fault::Buffer);
            }
            surround(bytes, start, end, &length[..used], before, after);
            state.size = start + (used + size);
            state.depth -= 1;
            0
        }
        Err(error) => fail(bytes, state, fault_of(error)),
    }
}

// Closes an object whose PkgLength goes to `start`.
fn close_at(bytes: &mut [u8], state: &mut State, start: usize, kind: u32) -> u32
    requires open { 1 ≤ state.old.depth }
    ensures { IsDone (closes_at start kind bytes.old state.old) bytes.old state.old bytes.new state.new result }
{
    if start > state.size || state.size > bytes.len() {
        return fail(bytes, state, Fault::WriterState);
    }
    let before = size_before(kind, state.size - start);
    close_frame(bytes, state, start, before.bytes(), tag_after(kind))
}

/// Closes the object that was opened last and is still open. Its PkgLength has the least width (ACPI 6.5, 20.2.4). A buffer gets
/// the number of its bytes before them, and resource descriptors get the end tag after them, too. The fault is `NoneOpen` if no
/// object is open, `ObjectLength` if the PkgLength would reach 2^28, and `Buffer` if there is too little space.
pub fn close(bytes: &mut [u8], state: &mut State) -> u32
    ensures { Writes closes bytes.old state.old bytes.new state.new result }
{
    if state.fault != 0 {
        return state.fault;
    }
    if state.depth == 0 {
        return fail(bytes, state, Fault::NoneOpen);
    }
    if state.depth > DEPTH {
        return fail(bytes, state, Fault::WriterState);
    }
    let last = state.depth - 1;
    let (start, kind) = (state.marks[last], state.kinds[last]);
    close_at(bytes, state, start, kind)
}
