//! A writer, and objects that it opens and closes.

ghost use Rattle.std.specs.Prelude.{◌≡◌, []};
ghost use Rattle.acpi_term.specs.PathText.{path_of};
ghost use Rattle.acpi_term.specs.Tree.{def_scope, def_device, def_thermal_zone, def_power_res, def_method, def_package};
ghost use Rattle.acpi_term.specs.Tree.{def_if, def_else, def_while, def_buffer, def_processor, def_field};
ghost use Rattle.acpi_term.specs.Tree.{def_index_field, def_var_package};
ghost use Rattle.acpi_c_calls.specs.Field.{lock_rule, opens_field, opens_index_field};
ghost use Rattle.acpi_c_calls.specs.Finish.{begun, Nulls};
ghost use Rattle.acpi_c_calls.specs.Writer.{Writes, opens_named, opens_row, closes, piece_of};

use acpi_c_calls::close::close;
use acpi_c_calls::field::{open_field, open_index_field};
use acpi_c_calls::finish::{begin, null};
use acpi_c_calls::open::{
    open_buffer, open_device, open_else, open_if, open_method, open_package, open_power_resource,
    open_processor, open_resources, open_scope, open_sized_buffer, open_thermal_zone,
    open_var_package, open_while,
};
use acpi_c_calls::state::State;

/// Begins a writer.
#[unsafe(no_mangle)]
pub extern "C" fn hyssop_export_begin(state: &mut State) -> u32
    ensures state { state.new ≡ begun }
    ensures fine { result ≡ 0 }
{
    begin(state)
}

/// Keeps the fault of a NULL.
#[unsafe(no_mangle)]
pub extern "C" fn hyssop_export_null(state: &mut State) -> u32
    ensures { Nulls state.old state.new result }
{
    null(state)
}

/// Opens a scope.
#[unsafe(no_mangle)]
pub extern "C" fn hyssop_export_open_scope(bytes: &mut [u8], state: &mut State, path: &[u8]) -> u32
    ensures { Writes (opens_named (λ name. def_scope name) (piece_of (path_of path.now)))
        bytes.old state.old bytes.new state.new result }
{
    open_scope(bytes, state, path)
}

/// Opens a device.
#[unsafe(no_mangle)]
pub extern "C" fn hyssop_export_open_device(bytes: &mut [u8], state: &mut State, path: &[u8]) -> u32
    ensures { Writes (opens_named (λ name. def_device name) (piece_of (path_of path.now)))
        bytes.old state.old bytes.new state.new result }
{
    open_device(bytes, state, path)
}

/// Opens a thermal zone.
#[unsafe(no_mangle)]
pub extern "C" fn hyssop_export_open_thermal_zone(
    bytes: &mut [u8],
    state: &mut State,
    path: &[u8],
) -> u32
    ensures { Writes (opens_named (λ name. def_thermal_zone name) (piece_of (path_of path.now)))
        bytes.old state.old bytes.new state.new result }
{
    open_thermal_zone(bytes, state, path)
}

/// Opens a power resource.
#[unsafe(no_mangle)]
pub extern "C" fn hyssop_export_open_power_resource(
    bytes: &mut [u8],
    state: &mut State,
    path: &[u8],
    level: u8,
    order: u16,
) -> u32
    ensures { Writes (opens_named (λ name. def_power_res name level order) (piece_of (path_of path.now)))
        bytes.old state.old bytes.new state.new result }
{
    open_power_resource(bytes, state, path, level, order)
}

/// Opens a processor.
#[unsafe(no_mangle)]
pub extern "C" fn hyssop_export_open_processor(
    bytes: &mut [u8],
    state: &mut State,
    path: &[u8],
    id: u8,
    address: u32,
    size: u8,
) -> u32
    ensures { Writes (opens_named (λ name. def_processor name id address size) (piece_of (path_of path.now)))
        bytes.old state.old bytes.new state.new result }
{
    open_processor(bytes, state, path, id, address, size)
}

/// Opens a method of 0 to 7 arguments.
#[unsafe(no_mangle)]
pub extern "C" fn hyssop_export_open_method(
    bytes: &mut [u8],
    state: &mut State,
    path: &[u8],
    arguments: u8,
    serialized: bool,
) -> u32
    ensures { Writes (opens_named (λ name. def_method name arguments serialized) (piece_of (path_of path.now)))
        bytes.old state.old bytes.new state.new result }
{
    open_method(bytes, state, path, arguments, serialized)
}

/// Opens a package.
#[unsafe(no_mangle)]
pub extern "C" fn hyssop_export_open_package(
    bytes: &mut [u8],
    state: &mut State,
    elements: u8,
) -> u32
    ensures { Writes (opens_row 0 def_package elements) bytes.old state.old bytes.new state.new result }
{
    open_package(bytes, state, elements)
}

/// Opens statements.
#[unsafe(no_mangle)]
pub extern "C" fn hyssop_export_open_if(bytes: &mut [u8], state: &mut State) -> u32
    ensures { Writes (opens_row 0 def_if 0) bytes.old state.old bytes.new state.new result }
{
    open_if(bytes, state)
}

/// Opens the statements.
#[unsafe(no_mangle)]
pub extern "C" fn hyssop_export_open_else(bytes: &mut [u8], state: &mut State) -> u32
    ensures { Writes (opens_row 0 def_else 0) bytes.old state.old bytes.new state.new result }
{
    open_else(bytes, state)
}

/// Opens a loop.
#[unsafe(no_mangle)]
pub extern "C" fn hyssop_export_open_while(bytes: &mut [u8], state: &mut State) -> u32
    ensures { Writes (opens_row 0 def_while 0) bytes.old state.old bytes.new state.new result }
{
    open_while(bytes, state)
}

/// Opens a buffer.
#[unsafe(no_mangle)]
pub extern "C" fn hyssop_export_open_buffer(bytes: &mut [u8], state: &mut State) -> u32
    ensures { Writes (opens_row 1 (def_buffer []) 0) bytes.old state.old bytes.new state.new result }
{
    open_buffer(bytes, state)
}

/// Opens a buffer whose size is a term.
#[unsafe(no_mangle)]
pub extern "C" fn hyssop_export_open_sized_buffer(bytes: &mut [u8], state: &mut State) -> u32
    ensures { Writes (opens_row 0 (def_buffer []) 0) bytes.old state.old bytes.new state.new result }
{
    open_sized_buffer(bytes, state)
}

/// Opens a package whose number of elements is a term.
#[unsafe(no_mangle)]
pub extern "C" fn hyssop_export_open_var_package(bytes: &mut [u8], state: &mut State) -> u32
    ensures { Writes (opens_row 0 def_var_package 0) bytes.old state.old bytes.new state.new result }
{
    open_var_package(bytes, state)
}

/// Opens a buffer of resource descriptors.
#[unsafe(no_mangle)]
pub extern "C" fn hyssop_export_open_resources(bytes: &mut [u8], state: &mut State) -> u32
    ensures { Writes (opens_row 2 (def_buffer []) 0) bytes.old state.old bytes.new state.new result }
{
    open_resources(bytes, state)
}

/// Opens a field of a region.
#[unsafe(no_mangle)]
pub extern "C" fn hyssop_export_open_field(
    bytes: &mut [u8],
    state: &mut State,
    region: &[u8],
    access: u32,
    lock: bool,
    update: u32,
) -> u32
    ensures { Writes (opens_field access update (λ name. def_field name access (lock_rule lock) update [])
        (piece_of (path_of region.now))) bytes.old state.old bytes.new state.new result }
{
    open_field(bytes, state, region, access, lock, update)
}

/// Opens a field that is reached by an index.
#[unsafe(no_mangle)]
pub extern "C" fn hyssop_export_open_index_field(
    bytes: &mut [u8],
    state: &mut State,
    index_name: &[u8],
    data_name: &[u8],
    access: u32,
    lock: bool,
    update: u32,
) -> u32
    ensures { Writes (opens_index_field access update
        (λ index name. def_index_field index name access (lock_rule lock) update [])
        (piece_of (path_of index_name.now)) (piece_of (path_of data_name.now))) bytes.old state.old bytes.new state.new result }
{
    open_index_field(bytes, state, index_name, data_name, access, lock, update)
}

/// Closes the object that was opened last.
#[unsafe(no_mangle)]
pub extern "C" fn hyssop_export_close(bytes: &mut [u8], state: &mut State) -> u32
    ensures { Writes closes bytes.old state.old bytes.new state.new result }
{
    close(bytes, state)
}
