//! Fields of operation regions, and their entries (ACPI 6.5, 20.2.5.2).

ghost use Rattle.std.specs.Prelude.{◌≡◌, ◌≤◌, ◌^◌, ◌++◌, [], length, nat_lt, true, false, if◌then◌else◌};
ghost use Rattle.std.specs.Prelude.{IfSome, IfNone, Some, None, Ok};
ghost use Rattle.acpi_base.specs.declared.error.Error.TheVariants.{PkgLength};
ghost use Rattle.acpi_term.specs.Length.{length_bytes, least_width};
ghost use Rattle.acpi_term.specs.PathText.{path_of};
ghost use Rattle.acpi_term.specs.Row.{field_flags};
ghost use Rattle.acpi_term.specs.Tree.{def_field, def_index_field};
ghost use Rattle.acpi_c_calls.specs.Field.{lock_rule, are_flags, opens_field, opens_index_field, unit_piece, gap_piece};
ghost use Rattle.acpi_c_calls.specs.Writer.{IsDone, Writes, adds, or_fault, piece_of};

use crate::fault::Fault;
use crate::held::{Held, fault_of};
use crate::open::open;
use crate::path::hold_path;
use crate::put::{fail, put};
use crate::state::State;
use acpi_term::row::field_length;

// The flags of a field, if its access type and its update rule are values of the standard.
fn flags_of(access: u32, lock: bool, update: u32) -> Option<u8>
    ensures is { IfSome result (λ flags. flags ≡ field_flags access (lock_rule lock) update) }
    ensures some { IfSome result (λ flags. are_flags access update ≡ true) }
    ensures none { IfNone result (are_flags access update ≡ false) }
{
    if access > 5 || update > 2 {
        return None;
    }
    let flags = access as u8 + 32 * update as u8;
    Some(if lock { flags + 16 } else { flags })
}

// Opens a field of the region with this name.
fn open_flagged(
    bytes: &mut [u8],
    state: &mut State,
    name: Held,
    access: u32,
    lock: bool,
    update: u32,
) -> u32
    ensures { IsDone (opens_field access update (λ name. def_field name access (lock_rule lock) update []) (Ok name)
        bytes.old state.old) bytes.old state.old bytes.new state.new result }
{
    match flags_of(access, lock, update) {
        Some(flags) => open(bytes, state, 0, &[0x5b, 0x81], name.bytes(), &[flags]),
        None => fail(bytes, state, Fault::Flags),
    }
}

/// Opens a field of a region, whose entries follow (ACPI 6.5, 20.2.5.2, DefField). `access` is from 0 to 5: any, byte, word,
/// dword, qword, buffer. `update` is from 0 to 2: preserve, write as ones, write as zeroes. The faults are those of the region's
/// path, and then `Flags` for another access type or update rule.
pub fn open_field(
    bytes: &mut [u8],
    state: &mut State,
    region: &[u8],
    access: u32,
    lock: bool,
    update: u32,
) -> u32
    ensures { Writes (opens_field access update (λ name. def_field name access (lock_rule lock) update [])
        (piece_of (path_of region.now))) bytes.old state.old bytes.new state.new result }
{
    if state.fault != 0 {
        return state.fault;
    }
    match hold_path(region) {
        Ok(name) => open_flagged(bytes, state, name, access, lock, update),
        Err(fault) => fail(bytes, state, fault),
    }
}

// Opens a field that is reached by an index, with the name of the index and that of the data.
#[tactic(auto, using(crate::proofs::Paths::flag_held))]
fn open_indexed(
    bytes: &mut [u8],
    state: &mut State,
    index: Held,
    name: Held,
    access: u32,
    lock: bool,
    update: u32,
) -> u32
    requires { length name ≤ 1023 }
    ensures { IsDone (opens_index_field access update (λ index name. def_index_field index name access (lock_rule lock) update [])
        (Ok index) (Ok name) bytes.old state.old) bytes.old state.old bytes.new state.new result }
{
    let Some(flags) = flags_of(access, lock, update) else {
        return fail(bytes, state, Fault::Flags);
    };
    let mut last = name;
    last.add(&[flags]);
    open(bytes, state, 0, &[0x5b, 0x86], index.bytes(), last.bytes())
}

/// Opens a field that is reached by an index, whose entries follow (ACPI 6.5, 20.2.5.2, DefIndexField): the field to which an
/// index is written, and that of the data. The faults are those of both paths, and then `Flags`.
#[tactic(auto, using(crate::proofs::Paths::path_few))]
pub fn open_index_field(
    bytes: &mut [u8],
    state: &mut State,
    index_name: &[u8],
    data_name: &[u8],
    access: u32,
    lock: bool,
    update: u32,
) -> u32
    ensures { Writes (opens_index_field access update
        (λ index name. def_index_field index name access (lock_rule lock) update [])
        (piece_of (path_of index_name.now)) (piece_of (path_of data_name.now))) bytes.old state.old bytes.new state.new result }
{
    if state.fault != 0 {
        return state.fault;
    }
    match hold_path(index_name) {
        Ok(index) => match hold_path(data_name) {
            Ok(name) => open_indexed(bytes, state, index, name, access, lock, update),
            Err(fault) => fail(bytes, state, fault),
        },
        Err(fault) => fail(bytes, state, fault),
    }
}

// Writes bytes and a number of bits, which are an entry of a field.
fn put_bits(bytes: &mut [u8], state: &mut State, before: &[u8], bits: u32) -> u32
    ensures { IsDone (adds (or_fault (before.now ++ length_bytes (least_width bits) bits)
        (if nat_lt bits (2 ^ 28) then None else Some PkgLength)) bytes.old state.old)
        bytes.old state.old bytes.new state.new result }
{
    match field_length(bits as usize) {
        Ok(found) => {
            let length = found.0;
            let used = found.1;
            put(bytes, state, &[], before, &length[..used])
        }
        Err(error) => fail(bytes, state, fault_of(error)),
    }
}

/// Writes a name for the next bits of the open field (ACPI 6.5, 20.2.5.2, NamedField). The fault is `NamePart` if the name
/// doesn't have four bytes, and `ObjectLength` from 2^28 bits on.
pub fn field_unit(bytes: &mut [u8], state: &mut State, name: &[u8], bits: u32) -> u32
    ensures { Writes (adds (unit_piece name.now bits)) bytes.old state.old bytes.new state.new result }
{
    if state.fault != 0 {
        return state.fault;
    }
    if name.len() != 4 {
        return fail(bytes, state, Fault::NamePart);
    }
    put_bits(bytes, state, name, bits)
}

/// Leaves out the next bits of the open field (ACPI 6.5, 20.2.5.2, ReservedField). The fault is `ObjectLength` from 2^28 bits on.
pub fn field_gap(bytes: &mut [u8], state: &mut State, bits: u32) -> u32
    ensures { Writes (adds (gap_piece bits)) bytes.old state.old bytes.new state.new result }
{
    if state.fault != 0 {
        return state.fault;
    }
    put_bits(bytes, state, &[0x00], bits)
}
