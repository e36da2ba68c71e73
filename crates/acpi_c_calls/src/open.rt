//! Objects that are opened: their content follows until they are closed.

ghost use Rattle.std.specs.Prelude.{◌++◌, []};
ghost use Rattle.acpi_term.specs.PathText.{path_of};
ghost use Rattle.acpi_term.specs.Tree.{def_scope, def_device, def_thermal_zone, def_power_res, def_processor, def_method};
ghost use Rattle.acpi_term.specs.Tree.{def_if, def_else, def_while, def_buffer, def_package, def_var_package};
ghost use Rattle.acpi_c_calls.specs.Writer.{IsDone, Writes, opens, opens_row, opens_named, piece_of};

use crate::fault::Fault;
use crate::held::Held;
use crate::path::hold_path;
use crate::put::{fail, have_space, write_three};
use crate::state::{DEPTH, State};

// Writes an opcode and the bytes after it, and keeps the place between them.
pub(crate) fn open(
    bytes: &mut [u8],
    state: &mut State,
    kind: u32,
    code: &[u8],
    first: &[u8],
    last: &[u8],
) -> u32
    ensures { IsDone (opens kind code.now (first.now ++ last.now) bytes.old state.old)
        bytes.old state.old bytes.new state.new result }
{
    if state.depth >= DEPTH {
        return fail(bytes, state, Fault::TooManyOpen);
    }
    if !have_space(bytes, state, code, first, last) {
        return fail(bytes, state, Fault::Buffer);
    }
    write_three(bytes, state.size, code, first, last);
    state.marks[state.depth] = state.size + code.len();
    state.kinds[state.depth] = kind;
    state.size += code.len() + (first.len() + last.len());
    state.depth += 1;
    0
}

/// Opens a scope: objects below a name (ACPI 6.5, 20.2.5.1, DefScope).
pub fn open_scope(bytes: &mut [u8], state: &mut State, path: &[u8]) -> u32
    ensures { Writes (opens_named (λ name. def_scope name) (piece_of (path_of path.now)))
        bytes.old state.old bytes.new state.new result }
{
    if state.fault != 0 {
        return state.fault;
    }
    match hold_path(path) {
        Ok(name) => open(bytes, state, 0, &[0x10], name.bytes(), &[]),
        Err(fault) => fail(bytes, state, fault),
    }
}

/// Opens a device (ACPI 6.5, 20.2.5.2, DefDevice).
pub fn open_device(bytes: &mut [u8], state: &mut State, path: &[u8]) -> u32
    ensures { Writes (opens_named (λ name. def_device name) (piece_of (path_of path.now)))
        bytes.old state.old bytes.new state.new result }
{
    if state.fault != 0 {
        return state.fault;
    }
    match hold_path(path) {
        Ok(name) => open(bytes, state, 0, &[0x5b, 0x82], name.bytes(), &[]),
        Err(fault) => fail(bytes, state, fault),
    }
}

/// Opens a thermal zone (ACPI 6.5, 20.2.5.2, DefThermalZone).
pub fn open_thermal_zone(bytes: &mut [u8], state: &mut State, path: &[u8]) -> u32
    ensures { Writes (opens_named (λ name. def_thermal_zone name) (piece_of (path_of path.now)))
        bytes.old state.old bytes.new state.new result }
{
    if state.fault != 0 {
        return state.fault;
    }
    match hold_path(path) {
        Ok(name) => open(bytes, state, 0, &[0x5b, 0x85], name.bytes(), &[]),
        Err(fault) => fail(bytes, state, fault),
    }
}

/// Opens a power resource (ACPI 6.5, 20.2.5.2, DefPowerRes). `level` is the deepest sleep level in which it has to stay on, and
/// `order` its place in the order of power resources.
pub fn open_power_resource(
    bytes: &mut [u8],
    state: &mut State,
    path: &[u8],
    level: u8,
    order: u16,
) -> u32
    ensures { Writes (opens_named (λ name. def_power_res name level order) (piece_of (path_of path.now)))
        bytes.old state.old bytes.new state.new result }
{
    if state.fault != 0 {
        return state.fault;
    }
    let [low, high] = order.to_le_bytes();
    match hold_path(path) {
        Ok(name) => open(
            bytes,
            state,
            0,
            &[0x5b, 0x84],
            name.bytes(),
            &[level, low, high],
        ),
        Err(fault) => fail(bytes, state, fault),
    }
}

/// Opens a processor (ACPI 6.5, 20.2.5.2, DefProcessor): its id in the MADT, and the address and the length of its register
/// block. The standard has a device with the id ACPI0007 in place of it.
pub fn open_processor(
    bytes: &mut [u8],
    state: &mut State,
    path: &[u8],
    id: u8,
    address: u32,
    size: u8,
) -> u32
    ensures { Writes (opens_named (λ name. def_processor name id address size) (piece_of (path_of path.now)))
        bytes.old state.old bytes.new state.new result }
{
    if state.fault != 0 {
        return state.fault;
    }
    let [a, b, c, d] = address.to_le_bytes();
    match hold_path(path) {
        Ok(name) => open(
            bytes,
            state,
            0,
            &[0x5b, 0x83],
            name.bytes(),
            &[id, a, b, c, d, size],
        ),
        Err(fault) => fail(bytes, state, fault),
    }
}

/// Opens a control method (ACPI 6.5, 20.2.5.2, DefMethod). `arguments` is their number. The fault is `MethodArgs` past 7.
pub fn open_method(
    bytes: &mut [u8],
    state: &mut State,
    path: &[u8],
    arguments: u8,
    serialized: bool,
) -> u32
    ensures { Writes (opens_named (λ name. def_method name arguments serialized) (piece_of (path_of path.now)))
        bytes.old state.old bytes.new state.new result }
{
    if state.fault != 0 {
        return state.fault;
    }
    match hold_path(path) {
        Ok(name) => open_flagged(bytes, state, name, arguments, serialized),
        Err(fault) => fail(bytes, state, fault),
    }
}

// Opens a method of this name.
fn open_flagged(
    bytes: &mut [u8],
    state: &mut State,
    name: Held,
    arguments: u8,
    serialized: bool,
) -> u32
    ensures { IsDone (opens_row 0 (def_method name arguments serialized) 0 bytes.old state.old)
        bytes.old state.old bytes.new state.new result }
{
    if arguments > 7 {
        return fail(bytes, state, Fault::MethodArgs);
    }
    let flags = if serialized { arguments + 8 } else { arguments };
    open(bytes, state, 0, &[0x14], name.bytes(), &[flags])
}

/// Opens a package of this number of elements (ACPI 6.5, 20.2.5.4, DefPackage). At most this many follow.
pub fn open_package(bytes: &mut [u8], state: &mut State, elements: u8) -> u32
    ensures { Writes (opens_row 0 def_package elements) bytes.old state.old bytes.new state.new result }
{
    if state.fault != 0 {
        return state.fault;
    }
    open(bytes, state, 0, &[0x12], &[elements], &[])
}

/// Opens a package whose number of elements is the first object that follows, before the elements (ACPI 6.5, 20.2.5.4,
/// DefVarPackage).
pub fn open_var_package(bytes: &mut [u8], state: &mut State) -> u32
    ensures { Writes (opens_row 0 def_var_package 0) bytes.old state.old bytes.new state.new result }
{
    if state.fault != 0 {
        return state.fault;
    }
    open(bytes, state, 0, &[0x13], &[], &[])
}

/// Opens statements that are run if a predicate is true, which is the first object (ACPI 6.5, 20.2.5.3, DefIfElse).
pub fn open_if(bytes: &mut [u8], state: &mut State) -> u32
    ensures { Writes (opens_row 0 def_if 0) bytes.old state.old bytes.new state.new result }
{
    if state.fault != 0 {
        return state.fault;
    }
    open(bytes, state, 0, &[0xa0], &[], &[])
}

/// Opens statements that are run if the predicate of the `If` before is false (ACPI 6.5, 20.2.5.3, DefElse).
pub fn open_else(bytes: &mut [u8], state: &mut State) -> u32
    ensures { Writes (opens_row 0 def_else 0) bytes.old state.old bytes.new state.new result }
{
    if state.fault != 0 {
        return state.fault;
    }
    open(bytes, state, 0, &[0xa1], &[], &[])
}

/// Opens statements that are run as long as a predicate is true, which is the first object (ACPI 6.5, 20.2.5.3, DefWhile).
pub fn open_while(bytes: &mut [u8], state: &mut State) -> u32
    ensures { Writes (opens_row 0 def_while 0) bytes.old state.old bytes.new state.new result }
{
    if state.fault != 0 {
        return state.fault;
    }
    open(bytes, state, 0, &[0xa2], &[], &[])
}

/// Opens a buffer, whose bytes follow (ACPI 6.5, 20.2.5.4, DefBuffer). It gets their number when it is closed.
pub fn open_buffer(bytes: &mut [u8], state: &mut State) -> u32
    ensures { Writes (opens_row 1 (def_buffer []) 0) bytes.old state.old bytes.new state.new result }
{
    if state.fault != 0 {
        return state.fault;
    }
    open(bytes, state, 1, &[0x11], &[], &[])
}

/// Opens a buffer of resource descriptors, which follow (ACPI 6.5, 6.4). It gets the end tag and the number of its bytes when it
/// is closed.
pub fn open_resources(bytes: &mut [u8], state: &mut State) -> u32
    ensures { Writes (opens_row 2 (def_buffer []) 0) bytes.old state.old bytes.new state.new result }
{
    if state.fault != 0 {
        return state.fault;
    }
    open(bytes, state, 2, &[0x11], &[], &[])
}

/// Opens a buffer whose size is the first object that follows, before its bytes (ACPI 6.5, 20.2.5.4, DefBuffer). Nothing is added
/// when it is closed.
pub fn open_sized_buffer(bytes: &mut [u8], state: &mut State) -> u32
    ensures { Writes (opens_row 0 (def_buffer []) 0) bytes.old state.old bytes.new state.new result }
{
    if state.fault != 0 {
        return state.fault;
    }
    open(bytes, state, 0, &[0x11], &[], &[])
}
