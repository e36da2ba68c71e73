//! Objects that a writer writes whole.

ghost use Rattle.std.specs.Prelude.{[], ◌∷◌};
ghost use Rattle.acpi_base.specs.Number.{number};
ghost use Rattle.acpi_term.specs.PathText.{path_of};
ghost use Rattle.acpi_term.specs.Row.{row};
ghost use Rattle.acpi_term.specs.Tree.{def_name, arg, local};
ghost use Rattle.acpi_term.specs.Tree.{def_op_region, def_mutex, def_acquire, def_release, def_external, op};
ghost use Rattle.acpi_term.specs.declared.op.Op.TheVariants.{Alias, Event};
ghost use Rattle.acpi_c_calls.specs.Field.{unit_piece, gap_piece};
ghost use Rattle.acpi_c_calls.specs.Results.{Gives};
ghost use Rattle.acpi_c_calls.specs.Leaf.{string_piece, eisa_piece, uuid_piece, operator_piece};
ghost use Rattle.acpi_c_calls.specs.Writer.{Writes, adds, adds_bytes, adds_named, piece_of};

use acpi_c_calls::field::{field_gap, field_unit};
use acpi_c_calls::leaf::{
    argument, bytes as plain_bytes, eisa_id, integer, local, name, operator, path, string, uuid,
};
use acpi_c_calls::named::{acquire, alias, event, external, mutex, region, release};
use acpi_c_calls::state::State;

/// Gives a name to the object that follows.
#[unsafe(no_mangle)]
pub extern "C" fn hyssop_export_name(bytes: &mut [u8], state: &mut State, path: &[u8]) -> u32
    ensures { Writes (adds_named (λ name. def_name name) (piece_of (path_of path.now)))
        bytes.old state.old bytes.new state.new result }
{
    name(bytes, state, path)
}

/// Writes a name for the next bits of the open field.
#[unsafe(no_mangle)]
pub extern "C" fn hyssop_export_field_unit(
    bytes: &mut [u8],
    state: &mut State,
    name: &[u8],
    bits: u32,
) -> u32
    ensures { Writes (adds (unit_piece name.now bits)) bytes.old state.old bytes.new state.new result }
{
    field_unit(bytes, state, name, bits)
}

/// Leaves out the next bits of the open field.
#[unsafe(no_mangle)]
pub extern "C" fn hyssop_export_field_gap(bytes: &mut [u8], state: &mut State, bits: u32) -> u32
    ensures { Writes (adds (gap_piece bits)) bytes.old state.old bytes.new state.new result }
{
    field_gap(bytes, state, bits)
}

/// Writes the beginning of a region.
#[unsafe(no_mangle)]
pub extern "C" fn hyssop_export_region(
    bytes: &mut [u8],
    state: &mut State,
    path: &[u8],
    space: u8,
) -> u32
    ensures { Writes (adds_named (λ name. def_op_region name space) (piece_of (path_of path.now)))
        bytes.old state.old bytes.new state.new result }
{
    region(bytes, state, path, space)
}

/// Writes a mutex.
#[unsafe(no_mangle)]
pub extern "C" fn hyssop_export_mutex(
    bytes: &mut [u8],
    state: &mut State,
    path: &[u8],
    sync_level: u8,
) -> u32
    ensures { Writes (adds_named (λ name. def_mutex name sync_level) (piece_of (path_of path.now)))
        bytes.old state.old bytes.new state.new result }
{
    mutex(bytes, state, path, sync_level)
}

/// Acquires a mutex.
#[unsafe(no_mangle)]
pub extern "C" fn hyssop_export_acquire(
    bytes: &mut [u8],
    state: &mut State,
    mutex: &[u8],
    timeout: u16,
) -> u32
    ensures { Writes (adds_named (λ name. def_acquire name timeout) (piece_of (path_of mutex.now)))
        bytes.old state.old bytes.new state.new result }
{
    acquire(bytes, state, mutex, timeout)
}

/// Releases a mutex.
#[unsafe(no_mangle)]
pub extern "C" fn hyssop_export_release(bytes: &mut [u8], state: &mut State, mutex: &[u8]) -> u32
    ensures { Writes (adds_named (λ name. def_release name) (piece_of (path_of mutex.now)))
        bytes.old state.old bytes.new state.new result }
{
    release(bytes, state, mutex)
}

/// Writes an event.
#[unsafe(no_mangle)]
pub extern "C" fn hyssop_export_event(bytes: &mut [u8], state: &mut State, path: &[u8]) -> u32
    ensures { Writes (adds (piece_of (row (op Event) (path_of path.now ∷ []))))
        bytes.old state.old bytes.new state.new result }
{
    event(bytes, state, path)
}

/// Gives an object a second name.
#[unsafe(no_mangle)]
pub extern "C" fn hyssop_export_alias(
    bytes: &mut [u8],
    state: &mut State,
    source: &[u8],
    name: &[u8],
) -> u32
    ensures { Writes (adds (piece_of (row (op Alias) (path_of source.now ∷ path_of name.now ∷ []))))
        bytes.old state.old bytes.new state.new result }
{
    alias(bytes, state, source, name)
}

/// Declares an object of another block.
#[unsafe(no_mangle)]
pub extern "C" fn hyssop_export_external(
    bytes: &mut [u8],
    state: &mut State,
    path: &[u8],
    kind: u8,
    arguments: u8,
) -> u32
    ensures { Writes (adds_named (λ name. def_external name kind arguments) (piece_of (path_of path.now)))
        bytes.old state.old bytes.new state.new result }
{
    external(bytes, state, path, kind, arguments)
}

/// Writes a name.
#[unsafe(no_mangle)]
pub extern "C" fn hyssop_export_path(bytes: &mut [u8], state: &mut State, name: &[u8]) -> u32
    ensures { Writes (adds (piece_of (path_of name.now))) bytes.old state.old bytes.new state.new result }
{
    path(bytes, state, name)
}

/// Writes a number.
#[unsafe(no_mangle)]
pub extern "C" fn hyssop_export_integer(bytes: &mut [u8], state: &mut State, value: u64) -> u32
    ensures { Writes (adds_bytes (number value)) bytes.old state.old bytes.new state.new result }
{
    integer(bytes, state, value)
}

/// Writes a string of ASCII.
#[unsafe(no_mangle)]
pub extern "C" fn hyssop_export_string(bytes: &mut [u8], state: &mut State, text: &[u8]) -> u32
    ensures { Writes (adds (string_piece text.now)) bytes.old state.old bytes.new state.new result }
{
    string(bytes, state, text)
}

/// Writes an EISA id.
#[unsafe(no_mangle)]
pub extern "C" fn hyssop_export_eisa_id(bytes: &mut [u8], state: &mut State, id: &[u8]) -> u32
    ensures { Writes (adds (eisa_piece id.now)) bytes.old state.old bytes.new state.new result }
{
    eisa_id(bytes, state, id)
}

/// Writes a UUID, of 36 characters, as a buffer.
#[unsafe(no_mangle)]
pub extern "C" fn hyssop_export_uuid(bytes: &mut [u8], state: &mut State, text: &[u8]) -> u32
    ensures { Writes (adds (uuid_piece text.now)) bytes.old state.old bytes.new state.new result }
{
    uuid(bytes, state, text)
}

/// Writes an argument of the method.
#[unsafe(no_mangle)]
pub extern "C" fn hyssop_export_argument(bytes: &mut [u8], state: &mut State, number: u8) -> u32
    ensures { Writes (adds (piece_of (row (arg number) []))) bytes.old state.old bytes.new state.new result }
{
    argument(bytes, state, number)
}

/// Writes a local variable of the method.
#[unsafe(no_mangle)]
pub extern "C" fn hyssop_export_local(bytes: &mut [u8], state: &mut State, number: u8) -> u32
    ensures { Writes (adds (piece_of (row (local number) []))) bytes.old state.old bytes.new state.new result }
{
    local(bytes, state, number)
}

/// Writes an operator.
#[unsafe(no_mangle)]
pub extern "C" fn hyssop_export_operator(bytes: &mut [u8], state: &mut State, code: u32) -> u32
    ensures { Writes (adds (operator_piece code)) bytes.old state.old bytes.new state.new result }
{
    operator(bytes, state, code)
}

/// Writes bytes as they are.
#[unsafe(no_mangle)]
pub extern "C" fn hyssop_export_bytes(bytes: &mut [u8], state: &mut State, content: &[u8]) -> u32
    ensures { Writes (adds_bytes content.now) bytes.old state.old bytes.new state.new result }
{
    plain_bytes(bytes, state, content)
}
