//! Fields that a writer sets in a table.

ghost use Rattle.std.specs.Prelude.{◌≡◌, ◌≤◌, ◌-◌, length};
ghost use Rattle.acpi_base.specs.Bytes.{le};
ghost use Rattle.acpi_c_calls.specs.Add.{in_table, piece_from};
ghost use Rattle.acpi_c_calls.specs.Seek.{IsWithin};
ghost use Rattle.acpi_c_calls.specs.Set.{parts_from, structure_parts, sought_from, sets_found, sets, sets_bytes_found};
ghost use Rattle.acpi_c_calls.specs.Set.{sets_bytes};
ghost use Rattle.acpi_c_calls.specs.Set.{overwrites, adds_number};
ghost use Rattle.acpi_c_calls.specs.Writer.{IsDone, Writes, adds_bytes};

use crate::fault::Fault;
use crate::over::put_number;
use crate::put::{fail, put};
use crate::seek::{Sought, seek_parts};
use crate::state::State;
use acpi_base::patch::write_at;
use acpi_base::walk::Walk;
use acpi_make::draft::fits;
use acpi_text::form::{Part, TableForm};
use acpi_text::part::number_at;
use acpi_text::piece::{find_form, parts_of};

fn structure_parts(walk: Option<Walk>, form: &TableForm, piece: &[u8]) -> &'static [Part]
    ensures { result.now ≡ structure_parts walk form.now piece.now }
{
    match walk {
        Some(walk) => parts_of(find_form(number_at(walk.kind, piece), form)),
        None => &[],
    }
}

// Returns the parts of the structure at an offset, which has these bytes. At 0 they are those of the table itself.
fn parts_from(offset: usize, form: &TableForm, walk: Option<Walk>, piece: &[u8]) -> &'static [Part]
    ensures { result.now ≡ parts_from offset form.now walk piece.now }
{
    if offset == 0 {
        form.parts
    } else {
        structure_parts(walk, form, piece)
    }
}

// Seeks the first field with a name of the structure that begins at an offset.
fn sought_from(
    bytes: &[u8],
    state: &State,
    form: &TableForm,
    walk: Option<Walk>,
    offset: usize,
    name: &[u8],
) -> Sought
    requires order { offset ≤ state.now.size }
    requires within { state.now.size ≤ length bytes.now }
    ensures is { result ≡ sought_from offset name.now form.now walk bytes.now state.now }
    ensures within { IsWithin (state.now.size - offset) result }
{
    let piece = &bytes[offset..state.size];
    let parts = parts_from(offset, form, walk, piece);
    seek_parts(name, state.size - offset, piece, parts)
}

// Sets the field that was found to a number.
fn set_found(bytes: &mut [u8], state: &mut State, offset: usize, sought: Sought, value: u64) -> u32
    requires order { offset ≤ state.old.size }
    requires within { state.old.size ≤ length bytes.old }
    requires inside { IsWithin (state.old.size - offset) sought }
    ensures { IsDone (sets_found offset value sought bytes.old state.old) bytes.old state.old bytes.new state.new result }
{
    let Sought::Found(at, width) = sought else {
        return fail(bytes, state, Fault::WantsFieldOf);
    };
    if width > 8 || !fits(width, value as usize) {
        return fail(bytes, state, Fault::WantsNumber);
    }
    put_number(bytes, offset + at, width, value);
    0
}

/// Sets the first field with a name of the structure at an offset, in a table of a form and a walk.
pub(crate) fn set_in(
    bytes: &mut [u8],
    state: &mut State,
    form: &TableForm,
    walk: Option<Walk>,
    offset: usize,
    name: &[u8],
    value: u64,
) -> u32
    ensures { Writes (in_table (sets offset name.now value form.now walk)) bytes.old state.old bytes.new state.new result }
{
    if state.fault != 0 {
        return state.fault;
    }
    if state.size < 36 || state.size > bytes.len() {
        return fail(bytes, state, Fault::ShortHeader);
    }
    if offset > state.size {
        return fail(bytes, state, Fault::Outside);
    }
    let sought = sought_from(bytes, state, form, walk, offset, name);
    set_found(bytes, state, offset, sought, value)
}

// Writes bytes over the field that was found.
fn set_bytes_found(
    bytes: &mut [u8],
    state: &mut State,
    offset: usize,
    sought: Sought,
    content: &[u8],
) -> u32
    requires order { offset ≤ state.old.size }
    requires within { state.old.size ≤ length bytes.old }
    requires inside { IsWithin (state.old.size - offset) sought }
    ensures { IsDone (sets_bytes_found offset content.now sought bytes.old state.old)
        bytes.old state.old bytes.new state.new result }
{
    let Sought::Found(at, width) = sought else {
        return fail(bytes, state, Fault::WantsFieldOf);
    };
    if content.len() != width {
        return fail(bytes, state, Fault::WantsWidth);
    }
    write_at(bytes, offset + at, content);
    0
}

/// Writes as many bytes as it has over the first field with a name of the structure at an offset, in a table of a form and a
/// walk.
pub(crate) fn set_bytes_in(
    bytes: &mut [u8],
    state: &mut State,
    form: &TableForm,
    walk: Option<Walk>,
    offset: usize,
    name: &[u8],
    content: &[u8],
) -> u32
    ensures { Writes (in_table (sets_bytes offset name.now content.now form.now walk))
        bytes.old state.old bytes.new state.new result }
{
    if state.fault != 0 {
        return state.fault;
    }
    if state.size < 36 || state.size > bytes.len() {
        return fail(bytes, state, Fault::ShortHeader);
    }
    if offset > state.size {
        return fail(bytes, state, Fault::Outside);
    }
    let sought = sought_from(bytes, state, form, walk, offset, name);
    set_bytes_found(bytes, state, offset, sought, content)
}

/// Writes bytes over those that are written at an offset. The fault is `Outside` if fewer are written there.
pub fn overwrite(bytes: &mut [u8], state: &mut State, offset: usize, content: &[u8]) -> u32
    ensures { Writes (overwrites offset content.now) bytes.old state.old bytes.new state.new result }
{
    if state.fault != 0 {
        return state.fault;
    }
    if state.size > bytes.len() || offset > state.size || content.len() > state.size - offset {
        return fail(bytes, state, Fault::Outside);
    }
    write_at(bytes, offset, content);
    0
}

// Writes the lowest `width` bytes of a number, lowest first, after those that are written.
fn put_low(bytes: &mut [u8], state: &mut State, width: usize, value: u64) -> u32
    requires { width ≤ 8 }
    ensures { IsDone (adds_bytes (le width value) bytes.old state.old) bytes.old state.old bytes.new state.new result }
{
    put(bytes, state, &value.to_le_bytes()[..width], &[], &[])
}

/// Writes a number of at most 8 bytes, lowest first, after those that are written. The fault is `WantsNumber` if it doesn't fit
/// `width` bytes, or `width` is more than 8.
pub fn add_number(bytes: &mut [u8], state: &mut State, width: usize, value: u64) -> u32
    ensures { Writes (adds_number width value) bytes.old state.old bytes.new state.new result }
{
    if state.fault != 0 {
        return state.fault;
    }
    if width > 8 || !fits(width, value as usize) {
        return fail(bytes, state, Fault::WantsNumber);
    }
    put_low(bytes, state, width, value)
}
