//! Objects that have a name and no content: regions, mutexes, events, and names of other objects.

ghost use Rattle.std.specs.Prelude.{[], ◌∷◌};
ghost use Rattle.acpi_term.specs.PathText.{path_of};
ghost use Rattle.acpi_term.specs.Row.{row};
ghost use Rattle.acpi_term.specs.Tree.{def_op_region, def_mutex, def_acquire, def_release, def_external, op};
ghost use Rattle.acpi_term.specs.declared.op.Op.TheVariants.{Alias, Event};
ghost use Rattle.acpi_c_calls.specs.Writer.{Writes, adds, adds_named, piece_of};

use crate::path::hold_path;
use crate::put::{fail, put};
use crate::state::State;

/// Writes the beginning of a region of an address space (ACPI 6.5, 20.2.5.2, DefOpRegion). Its offset and its length in bytes
/// follow, which are two numbers or other terms. The faults are those of `path`.
pub fn region(bytes: &mut [u8], state: &mut State, path: &[u8], space: u8) -> u32
    ensures { Writes (adds_named (λ name. def_op_region name space) (piece_of (path_of path.now)))
        bytes.old state.old bytes.new state.new result }
{
    if state.fault != 0 {
        return state.fault;
    }
    match hold_path(path) {
        Ok(name) => put(bytes, state, &[0x5b, 0x80], name.bytes(), &[space]),
        Err(fault) => fail(bytes, state, fault),
    }
}

/// Writes a mutex and its sync level (ACPI 6.5, 20.2.5.2, DefMutex). The faults are those of `path`.
pub fn mutex(bytes: &mut [u8], state: &mut State, path: &[u8], sync_level: u8) -> u32
    ensures { Writes (adds_named (λ name. def_mutex name sync_level) (piece_of (path_of path.now)))
        bytes.old state.old bytes.new state.new result }
{
    if state.fault != 0 {
        return state.fault;
    }
    match hold_path(path) {
        Ok(name) => put(bytes, state, &[0x5b, 0x01], name.bytes(), &[sync_level]),
        Err(fault) => fail(bytes, state, fault),
    }
}

/// Acquires a mutex, with a timeout in milliseconds; 0xffff waits without a limit (ACPI 6.5, 20.2.5.4, DefAcquire). The faults
/// are those of `path`.
pub fn acquire(bytes: &mut [u8], state: &mut State, mutex: &[u8], timeout: u16) -> u32
    ensures { Writes (adds_named (λ name. def_acquire name timeout) (piece_of (path_of mutex.now)))
        bytes.old state.old bytes.new state.new result }
{
    if state.fault != 0 {
        return state.fault;
    }
    match hold_path(mutex) {
        Ok(name) => put(
            bytes,
            state,
            &[0x5b, 0x23],
            name.bytes(),
            &timeout.to_le_bytes(),
        ),
        Err(fault) => fail(bytes, state, fault),
    }
}

/// Releases a mutex (ACPI 6.5, 20.2.5.3, DefRelease). The faults are those of `path`.
pub fn release(bytes: &mut [u8], state: &mut State, mutex: &[u8]) -> u32
    ensures { Writes (adds_named (λ name. def_release name) (piece_of (path_of mutex.now)))
        bytes.old state.old bytes.new state.new result }
{
    if state.fault != 0 {
        return state.fault;
    }
    match hold_path(mutex) {
        Ok(name) => put(bytes, state, &[], &[0x5b, 0x27], name.bytes()),
        Err(fault) => fail(bytes, state, fault),
    }
}

/// Declares an object of another block (ACPI 6.5, 20.2.5.2, DefExternal): its type (19.6.45), and the number of arguments if it
/// is a method. The faults are those of `path`.
pub fn external(bytes: &mut [u8], state: &mut State, path: &[u8], kind: u8, arguments: u8) -> u32
    ensures { Writes (adds_named (λ name. def_external name kind arguments) (piece_of (path_of path.now)))
        bytes.old state.old bytes.new state.new result }
{
    if state.fault != 0 {
        return state.fault;
    }
    match hold_path(path) {
        Ok(name) => put(bytes, state, &[0x15], name.bytes(), &[kind, arguments]),
        Err(fault) => fail(bytes, state, fault),
    }
}

/// Writes an event (ACPI 6.5, 20.2.5.2, DefEvent). The faults are those of `path`.
#[tactic(auto, using(crate::proofs::Operators::of_name, crate::proofs::Operators::of_no_name))]
pub fn event(bytes: &mut [u8], state: &mut State, path: &[u8]) -> u32
    ensures { Writes (adds (piece_of (row (op Event) (path_of path.now ∷ []))))
        bytes.old state.old bytes.new state.new result }
{
    if state.fault != 0 {
        return state.fault;
    }
    match hold_path(path) {
        Ok(name) => put(bytes, state, &[], &[0x5b, 0x02], name.bytes()),
        Err(fault) => fail(bytes, state, fault),
    }
}

/// Gives an object a second name (ACPI 6.5, 20.2.5.1, DefAlias): its name, and then the new one. The faults are those of `path`
/// of the first, and then of the second.
#[tactic(auto, using(crate::proofs::Operators::of_names, crate::proofs::Operators::of_no_first, crate::proofs::Operators::of_no_second))]
pub fn alias(bytes: &mut [u8], state: &mut State, source: &[u8], name: &[u8]) -> u32
    ensures { Writes (adds (piece_of (row (op Alias) (path_of source.now ∷ path_of name.now ∷ []))))
        bytes.old state.old bytes.new state.new result }
{
    if state.fault != 0 {
        return state.fault;
    }
    match hold_path(source) {
        Ok(source) => match hold_path(name) {
            Ok(name) => put(bytes, state, &[0x06], source.bytes(), name.bytes()),
            Err(fault) => fail(bytes, state, fault),
        },
        Err(fault) => fail(bytes, state, fault),
    }
}
