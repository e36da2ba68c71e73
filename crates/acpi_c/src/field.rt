//! Structures of a table that a writer writes, and their fields.

ghost use Rattle.std.specs.Prelude.{◌≡◌, ◌==◌, if◌then◌else◌};
ghost use Rattle.acpi_c_calls.specs.Add.{adds_structure, adds_piece, adds_fields, ends_structure};
ghost use Rattle.acpi_c_calls.specs.Formed.{WritesBy, WritesByWalk};
ghost use Rattle.acpi_c_calls.specs.Set.{sets, sets_bytes, overwrites, adds_number};
ghost use Rattle.acpi_c_calls.specs.Writer.{Writes};

use acpi_c_calls::formed::{
    add_fields, add_structure, add_structure_bytes, end_structure, set_bytes, set_number,
};
use acpi_c_calls::set::{add_number, overwrite};
use acpi_c_calls::state::State;

/// Adds the fields of a table that aren't written yet.
#[unsafe(no_mangle)]
pub extern "C" fn hyssop_export_add_fields(bytes: &mut [u8], state: &mut State) -> u32
    ensures { WritesBy (λ form walk. adds_fields form walk) bytes.old state.old bytes.new state.new result }
{
    add_fields(bytes, state)
}

/// Adds a structure of a type to a table.
#[unsafe(no_mangle)]
pub extern "C" fn hyssop_export_add_structure(
    bytes: &mut [u8],
    state: &mut State,
    kind: u32,
    offset: &mut usize,
) -> u32
    ensures call { WritesBy (λ form walk. adds_structure kind form walk) bytes.old state.old bytes.new state.new result }
    ensures offset { offset.new ≡ (if result == 0 then state.old.size else 0) }
{
    add_structure(bytes, state, kind, offset)
}

/// Adds a structure as its bytes to a table.
#[unsafe(no_mangle)]
pub extern "C" fn hyssop_export_add_structure_bytes(
    bytes: &mut [u8],
    state: &mut State,
    content: &[u8],
    offset: &mut usize,
) -> u32
    ensures call { WritesByWalk (λ walk. adds_piece content.now walk) bytes.old state.old bytes.new state.new result }
    ensures offset { offset.new ≡ (if result == 0 then state.old.size else 0) }
{
    add_structure_bytes(bytes, state, content, offset)
}

/// Ends a structure to which bytes were added.
#[unsafe(no_mangle)]
pub extern "C" fn hyssop_export_end_structure(
    bytes: &mut [u8],
    state: &mut State,
    offset: usize,
) -> u32
    ensures { WritesBy (λ form walk. ends_structure offset form walk) bytes.old state.old bytes.new state.new result }
{
    end_structure(bytes, state, offset)
}

/// Sets a field to a number.
#[unsafe(no_mangle)]
pub extern "C" fn hyssop_export_set_number(
    bytes: &mut [u8],
    state: &mut State,
    offset: usize,
    name: &[u8],
    value: u64,
) -> u32
    ensures { WritesBy (λ form walk. sets offset name.now value form walk) bytes.old state.old bytes.new state.new result }
{
    set_number(bytes, state, offset, name, value)
}

/// Sets a field to bytes.
#[unsafe(no_mangle)]
pub extern "C" fn hyssop_export_set_bytes(
    bytes: &mut [u8],
    state: &mut State,
    offset: usize,
    name: &[u8],
    content: &[u8],
) -> u32
    ensures { WritesBy (λ form walk. sets_bytes offset name.now content.now form walk)
        bytes.old state.old bytes.new state.new result }
{
    set_bytes(bytes, state, offset, name, content)
}

/// Writes bytes over those that are written at an offset.
#[unsafe(no_mangle)]
pub extern "C" fn hyssop_export_overwrite(
    bytes: &mut [u8],
    state: &mut State,
    offset: usize,
    content: &[u8],
) -> u32
    ensures { Writes (overwrites offset content.now) bytes.old state.old bytes.new state.new result }
{
    overwrite(bytes, state, offset, content)
}

/// Writes a number of at most 8 bytes.
#[unsafe(no_mangle)]
pub extern "C" fn hyssop_export_add_number(
    bytes: &mut [u8],
    state: &mut State,
    width: usize,
    value: u64,
) -> u32
    ensures { Writes (adds_number width value) bytes.old state.old bytes.new state.new result }
{
    add_number(bytes, state, width, value)
}
