//! Structures and fields that a writer adds to a table.

ghost use Rattle.std.specs.Prelude.{◌≡◌, ◌≤◌, ◌+◌, ◌-◌, length, take, drop};
ghost use Rattle.acpi_base.specs.Bytes.{put, zeros};
ghost use Rattle.acpi_c_calls.specs.Over.{placed, next_count};
ghost use Rattle.acpi_c_calls.specs.Add.{in_table, told_place, fresh, pointed, adds_counted, adds_form, adds_structure};
ghost use Rattle.acpi_c_calls.specs.Add.{adds_fields};
ghost use Rattle.acpi_c_calls.specs.Add.{ends_structure, ends_by, is_size, is_piece, adds_piece_by, adds_piece};
ghost use Rattle.acpi_c_calls.specs.Writer.{IsDone, Writes, adds_bytes};

use crate::fault::Fault;
use crate::over::{clear, fits_at, next_count, place_number};
use crate::put::fail;
use crate::seek::fixed_end;
use crate::state::State;
use acpi_base::patch::write_at;
use acpi_base::walk::{Place, Sizes, Walk};
use acpi_text::form::{StructureForm, TableForm};
use acpi_text::part::number_at;
use acpi_text::piece::find_form;

// Returns the field of a structure that contains its length.
fn told_place(sizes: Sizes) -> Place
    ensures { result ≡ told_place sizes }
{
    match sizes {
        Sizes::ToldAt(place) => place,
        Sizes::EachOf(_) | Sizes::ByType(_, _) => Place::Nowhere,
    }
}

// Makes bytes into a structure of a type, whose fields are zero.
fn begin_piece(piece: &mut [u8], walk: &Walk, kind: usize)
    ensures { piece.new ≡ fresh walk.now kind (length piece.old) }
{
    let size = piece.len();
    clear(piece);
    place_number(piece, walk.kind, kind);
    place_number(piece, told_place(walk.sizes), size);
}

// Makes the bytes at an offset into a structure of a type and of a size.
fn begin_at(bytes: &mut [u8], walk: &Walk, kind: usize, start: usize, size: usize)
    requires { start + size ≤ length bytes.old }
    ensures { bytes.new ≡ put start (fresh walk.now kind size) bytes.old }
{
    begin_piece(&mut bytes[start..start + size], walk, kind);
}

// Sets how many structures a table has, and the offset of the first, unless it has one.
fn count_structure(bytes: &mut [u8], walk: &Walk, start: usize, count: usize)
    ensures { bytes.new ≡ placed walk.now.count count (pointed walk.now start bytes.old) }
{
    if number_at(walk.first, bytes) == 0 {
        place_number(bytes, walk.first, start);
    }
    place_number(bytes, walk.count, count);
}

// Adds a structure of a type and of a size.
fn add_piece(bytes: &mut [u8], state: &mut State, walk: &Walk, kind: usize, size: usize) -> u32
    requires { state.old.size + size ≤ length bytes.old }
    ensures { IsDone (adds_counted walk.now kind size (next_count walk.now.count bytes.old) bytes.old state.old)
        bytes.old state.old bytes.new state.new result }
{
    let Some(count) = next_count(walk.count, bytes) else {
        return fail(bytes, state, Fault::Count);
    };
    if !fits_at(told_place(walk.sizes), size) {
        return fail(bytes, state, Fault::Structure);
    }
    begin_at(bytes, walk, kind, state.size, size);
    count_structure(bytes, walk, state.size, count);
    state.size += size;
    0
}

// Adds a structure of a form.
fn add_form(bytes: &mut [u8], state: &mut State, walk: &Walk, form: Option<StructureForm>) -> u32
    requires { state.old.size ≤ length bytes.old }
    ensures { IsDone (adds_form walk.now form bytes.old state.old) bytes.old state.old bytes.new state.new result }
{
    let Some(form) = form else {
        return fail(bytes, state, Fault::WantsStructure);
    };
    match fixed_end(bytes.len() - state.size, &[], form.parts) {
        Some(size) => add_piece(bytes, state, walk, form.number, size),
        None => fail(bytes, state, Fault::Buffer),
    }
}

/// Adds a structure of a type to a table of a form and a walk. All its fields are zero, but its type and its length. `offset` is
/// where it begins, or 0 with a fault.
pub(crate) fn add_to(
    bytes: &mut [u8],
    state: &mut State,
    form: &TableForm,
    walk: Option<Walk>,
    kind: usize,
) -> u32
    ensures { Writes (in_table (adds_structure kind form.now walk)) bytes.old state.old bytes.new state.new result }
{
    if state.fault != 0 {
        return state.fault;
    }
    if state.size < 36 || state.size > bytes.len() {
        return fail(bytes, state, Fault::ShortHeader);
    }
    let Some(walk) = walk else {
        return fail(bytes, state, Fault::WantsStructure);
    };
    if state.size < walk.start {
        return fail(bytes, state, Fault::WantsWhole);
    }
    add_form(bytes, state, &walk, find_form(kind, form))
}

// Returns whether a length is this.
fn is_size(found: Option<usize>, size: usize) -> bool
    ensures { result ≡ is_size found size }
{
    match found {
        Some(found) => found == size,
        None => false,
    }
}

// Returns whether bytes are one structure.
fn is_piece(sizes: Sizes, piece: &[u8]) -> bool
    ensures { result ≡ is_piece sizes piece.now }
{
    match sizes {
        Sizes::EachOf(size) => piece.len() == usize::from(size),
        Sizes::ToldAt(place) => place.end() <= piece.len() && place.number(piece) == piece.len(),
        Sizes::ByType(kind, types) => is_size(types.size(kind, piece), piece.len()),
    }
}

// Adds a structure of these bytes by a walk.
fn add_piece_by(bytes: &mut [u8], state: &mut State, walk: &Walk, piece: &[u8]) -> u32
    requires { state.old.size ≤ length bytes.old }
    ensures { IsDone (adds_piece_by walk.now piece.now bytes.old state.old) bytes.old state.old bytes.new state.new result }
{
    if !is_piece(walk.sizes, piece) {
        return fail(bytes, state, Fault::Structure);
    }
    let Some(count) = next_count(walk.count, bytes) else {
        return fail(bytes, state, Fault::Count);
    };
    if piece.len() > bytes.len() - state.size {
        return fail(bytes, state, Fault::Buffer);
    }
    write_at(bytes, state.size, piece);
    count_structure(bytes, walk, state.size, count);
    state.size += piece.len();
    0
}

/// Adds a structure of these bytes to a table of a walk.
pub(crate) fn add_piece_to(
    bytes: &mut [u8],
    state: &mut State,
    walk: Option<Walk>,
    piece: &[u8],
) -> u32
    ensures { Writes (in_table (adds_piece piece.now walk)) bytes.old state.old bytes.new state.new result }
{
    if state.fault != 0 {
        return state.fault;
    }
    if state.size < 36 || state.size > bytes.len() {
        return fail(bytes, state, Fault::ShortHeader);
    }
    let Some(walk) = walk else {
        return fail(bytes, state, Fault::WantsStructure);
    };
    if state.size < walk.start {
        return fail(bytes, state, Fault::WantsWhole);
    }
    add_piece_by(bytes, state, &walk, piece)
}

// Writes zeros over the bytes at an offset.
fn clear_at(bytes: &mut [u8], start: usize, count: usize)
    requires { start + count ≤ length bytes.old }
    ensures { bytes.new ≡ put start (zeros count) bytes.old }
{
    clear(&mut bytes[start..start + count]);
}

// Writes zeros after the bytes that are written, if there is space.
fn put_zeros(bytes: &mut [u8], state: &mut State, count: usize) -> u32
    requires { state.old.size ≤ length bytes.old }
    ensures { IsDone (adds_bytes (zeros count) bytes.old state.old) bytes.old state.old bytes.new state.new result }
{
    if count > bytes.len() - state.size {
        return fail(bytes, state, Fault::Buffer);
    }
    clear_at(bytes, state.size, count);
    state.size += count;
    0
}

/// Adds the fields of a table that aren't written yet, up to its first list. All are zero.
pub(crate) fn add_fields_to(
    bytes: &mut [u8],
    state: &mut State,
    form: &TableForm,
    walk: Option<Walk>,
) -> u32
    ensures { Writes (in_table (adds_fields form.now walk)) bytes.old state.old bytes.new state.new result }
{
    if state.fault != 0 {
        return state.fault;
    }
    if state.size < 36 || state.size > bytes.len() {
        return fail(bytes, state, Fault::ShortHeader);
    }
    match fixed_end(bytes.len(), &bytes[..state.size], form.parts) {
        Some(end) => put_zeros(bytes, state, end.saturating_sub(state.size)),
        None => fail(bytes, state, Fault::Buffer),
    }
}

// Sets the number in a field of the structure that stands between two offsets.
fn place_within(bytes: &mut [u8], from: usize, to: usize, place: Place, number: usize)
    requires order { from ≤ to }
    requires within { to ≤ length bytes.old }
    ensures { bytes.new ≡ put from (placed place number (take (to - from) (drop from bytes.old))) bytes.old }
{
    place_number(&mut bytes[from..to], place, number);
}

// Sets the length of the structure at an offset.
fn end_by(bytes: &mut [u8], state: &mut State, told: Place, offset: usize) -> u32
    requires order { offset ≤ state.old.size }
    requires within { state.old.size ≤ length bytes.old }
    ensures { IsDone (ends_by told offset bytes.old state.old) bytes.old state.old bytes.new state.new result }
{
    let size = state.size - offset;
    if !fits_at(told, size) {
        return fail(bytes, state, Fault::Structure);
    }
    place_within(bytes, offset, state.size, told, size);
    0
}

/// Ends the structure at an offset of a table of a form and a walk: its length is the number of the bytes from there on.
pub(crate) fn end_in(
    bytes: &mut [u8],
    state: &mut State,
    form: &TableForm,
    walk: Option<Walk>,
    offset: usize,
) -> u32
    ensures { Writes (in_table (ends_structure offset form.now walk)) bytes.old state.old bytes.new state.new result }
{
    if state.fault != 0 {
        return state.fault;
    }
    if state.size < 36 || state.size > bytes.len() {
        return fail(bytes, state, Fault::ShortHeader);
    }
    let Some(walk) = walk else {
        return fail(bytes, state, Fault::WantsStructure);
    };
    if offset > state.size {
        return fail(bytes, state, Fault::Outside);
    }
    end_by(bytes, state, told_place(walk.sizes), offset)
}
