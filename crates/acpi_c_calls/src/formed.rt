//! Calls that go by the form of the table that is written. It is that of the table's signature: of the bytes of a table that is
//! being written, not all fields are there that would show another layout.

ghost use Rattle.std.specs.Prelude.{◌≡◌, ◌==◌, if◌then◌else◌};
ghost use Rattle.acpi_c_calls.specs.Add.{adds_structure, adds_piece, adds_fields, ends_structure};
ghost use Rattle.acpi_c_calls.specs.Formed.{signature_in, WritesBy, WritesByWalk};
ghost use Rattle.acpi_c_calls.specs.Set.{sets, sets_bytes};

use crate::add::{add_fields_to, add_piece_to, add_to, end_in};
use crate::set::{set_bytes_in, set_in};
use crate::state::State;
use acpi_base::further_walk::table_walk_of;
use acpi_forms::form::form_of;
use acpi_read::bytes::dword_at;

// Returns the signature at the front of bytes, lowest byte first, or 0 if there are too few.
fn signature_in(bytes: &[u8]) -> u32
    ensures { result ≡ signature_in bytes.now }
{
    if bytes.len() < 4 {
        return 0;
    }
    dword_at(bytes, 0)
}

/// Adds a structure of a type to a table, after the table's own fields: the fields that the structure has before its first list.
/// All are zero, but its type and its length. The table gets their number, and the offset of the first structure, if it has
/// fields for these. A table whose structures have no types takes the type 0. `offset` is where the structure begins, or 0 with
/// a fault.
///
/// The fault is `ShortHeader` if the header isn't written, `WantsStructure` if the table has no structures or none of this type,
/// `WantsWhole` if the table's own fields aren't written, `Buffer` if there is too little space, `Count` if the number of
/// structures doesn't fit its field, and `Structure` if the length doesn't.
pub fn add_structure(bytes: &mut [u8], state: &mut State, kind: u32, offset: &mut usize) -> u32
    ensures call { WritesBy (λ form walk. adds_structure kind form walk) bytes.old state.old bytes.new state.new result }
    ensures offset { offset.new ≡ (if result == 0 then state.old.size else 0) }
{
    let signature = signature_in(bytes);
    let form = form_of(signature);
    let walk = table_walk_of(signature);
    let start = state.size;
    let number = add_to(bytes, state, &form, walk, kind as usize);
    *offset = if number == 0 { start } else { 0 };
    number
}

/// Adds a structure as its bytes to a table, after the table's own fields. The table gets the number of its structures, and the
/// offset of the first, if it has fields for these. `offset` is where the structure begins, or 0 with a fault.
///
/// The fault is `ShortHeader` if the header isn't written, `WantsStructure` if the table has no structures, `WantsWhole` if the
/// table's own fields aren't written, `Structure` if the bytes aren't as long as their length field or their type says, `Count`
/// if the number of structures doesn't fit its field, and `Buffer` if there is too little space.
pub fn add_structure_bytes(
    bytes: &mut [u8],
    state: &mut State,
    content: &[u8],
    offset: &mut usize,
) -> u32
    ensures call { WritesByWalk (λ walk. adds_piece content.now walk) bytes.old state.old bytes.new state.new result }
    ensures offset { offset.new ≡ (if result == 0 then state.old.size else 0) }
{
    let walk = table_walk_of(signature_in(bytes));
    let start = state.size;
    let number = add_piece_to(bytes, state, walk, content);
    *offset = if number == 0 { start } else { 0 };
    number
}

/// Adds the fields of a table that aren't written yet, up to its first list or its first structure. All are zero. The fault is
/// `ShortHeader` if the header isn't written, and `Buffer` if there is too little space.
pub fn add_fields(bytes: &mut [u8], state: &mut State) -> u32
    ensures { WritesBy (λ form walk. adds_fields form walk) bytes.old state.old bytes.new state.new result }
{
    let signature = signature_in(bytes);
    let form = form_of(signature);
    let walk = table_walk_of(signature);
    add_fields_to(bytes, state, &form, walk)
}

/// Ends the structure at an offset, to which bytes were added: its length is the number of the bytes from there on. A structure
/// without a length stays as it is. The fault is `ShortHeader` if the header isn't written, `WantsStructure` if the table has no
/// structures, `Outside` if nothing is written at the offset, and `Structure` if the length doesn't fit its field.
pub fn end_structure(bytes: &mut [u8], state: &mut State, offset: usize) -> u32
    ensures { WritesBy (λ form walk. ends_structure offset form walk) bytes.old state.old bytes.new state.new result }
{
    let signature = signature_in(bytes);
    let form = form_of(signature);
    let walk = table_walk_of(signature);
    end_in(bytes, state, &form, walk, offset)
}

/// Sets a field to a number: the first with this name of the structure at an offset, or of the table itself at 0. Fields in
/// lists, and those after the first list, aren't sought. The fault is `ShortHeader` if the header isn't written, `Outside` if
/// nothing is written at the offset, `WantsFieldOf` if there is no such field, and `WantsNumber` if the number doesn't fit it, or
/// it has more than 8 bytes.
pub fn set_number(
    bytes: &mut [u8],
    state: &mut State,
    offset: usize,
    name: &[u8],
    value: u64,
) -> u32
    ensures { WritesBy (λ form walk. sets offset name.now value form walk) bytes.old state.old bytes.new state.new result }
{
    let signature = signature_in(bytes);
    let form = form_of(signature);
    let walk = table_walk_of(signature);
    set_in(bytes, state, &form, walk, offset, name, value)
}

/// Sets such a field to bytes. The fault is `WantsWidth` if the field has another number of bytes, and as above otherwise.
pub fn set_bytes(
    bytes: &mut [u8],
    state: &mut State,
    offset: usize,
    name: &[u8],
    content: &[u8],
) -> u32
    ensures { WritesBy (λ form walk. sets_bytes offset name.now content.now form walk)
        bytes.old state.old bytes.new state.new result }
{
    let signature = signature_in(bytes);
    let form = form_of(signature);
    let walk = table_walk_of(signature);
    set_bytes_in(bytes, state, &form, walk, offset, name, content)
}
