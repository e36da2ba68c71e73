//! Objects that contain no others, and bytes.

ghost use Rattle.std.specs.Prelude.{◌≡◌, [], Ok, Err};
ghost use Rattle.acpi_base.specs.Number.{number};
ghost use Rattle.acpi_term.specs.PathText.{path_of};
ghost use Rattle.acpi_term.specs.Row.{row};
ghost use Rattle.acpi_term.specs.Tree.{def_name, arg, local};
ghost use Rattle.acpi_c_calls.specs.Leaf.{is_ascii, string_piece, eisa_piece, uuid_piece, operator_of, operator_piece};
ghost use Rattle.acpi_c_calls.specs.Writer.{Writes, adds, adds_bytes, adds_named, piece_of};

use crate::fault::Fault;
use crate::path::hold_path;
use crate::put::{fail, put, put_object};
use crate::state::State;
use acpi_aml::eisa::EISAName;
use acpi_aml::method::{Arg, Local};
use acpi_aml::uuid::Uuid;
use acpi_term::op::Op;

/// Writes a number in its shortest form (ACPI 6.5, 20.2.3, ComputationalData).
pub fn integer(bytes: &mut [u8], state: &mut State, value: u64) -> u32
    ensures { Writes (adds_bytes (number value)) bytes.old state.old bytes.new state.new result }
{
    if state.fault != 0 {
        return state.fault;
    }
    put_object(bytes, state, &value)
}

/// Writes bytes as they are.
pub fn bytes(bytes: &mut [u8], state: &mut State, content: &[u8]) -> u32
    ensures { Writes (adds_bytes content.now) bytes.old state.old bytes.new state.new result }
{
    if state.fault != 0 {
        return state.fault;
    }
    put(bytes, state, content, &[], &[])
}

/// Writes a path of names, as an operand or as a call of a method (ACPI 6.5, 20.2.2, NameString). The fault is `NamePart` if a
/// part isn't four bytes long, and `PathParts` if there are more than 255.
pub fn path(bytes: &mut [u8], state: &mut State, name: &[u8]) -> u32
    ensures { Writes (adds (piece_of (path_of name.now))) bytes.old state.old bytes.new state.new result }
{
    if state.fault != 0 {
        return state.fault;
    }
    match hold_path(name) {
        Ok(held) => put(bytes, state, held.bytes(), &[], &[]),
        Err(fault) => fail(bytes, state, fault),
    }
}

/// Writes the beginning of an object with a name, which follows (ACPI 6.5, 20.2.5.1, DefName). The faults are those of `path`.
pub fn name(bytes: &mut [u8], state: &mut State, path: &[u8]) -> u32
    ensures { Writes (adds_named (λ name. def_name name) (piece_of (path_of path.now)))
        bytes.old state.old bytes.new state.new result }
{
    if state.fault != 0 {
        return state.fault;
    }
    match hold_path(path) {
        Ok(name) => put(bytes, state, &[0x08], name.bytes(), &[]),
        Err(fault) => fail(bytes, state, fault),
    }
}

/// Writes an argument of the method, by its number (ACPI 6.5, 20.2.6.1). The fault is `ArgNumber` if it is more than 6.
pub fn argument(bytes: &mut [u8], state: &mut State, number: u8) -> u32
    ensures { Writes (adds (piece_of (row (arg number) []))) bytes.old state.old bytes.new state.new result }
{
    if state.fault != 0 {
        return state.fault;
    }
    put_object(bytes, state, &Arg(number))
}

/// Writes a local variable of the method, by its number (ACPI 6.5, 20.2.6.2). The fault is `LocalNumber` if it is more than 7.
pub fn local(bytes: &mut [u8], state: &mut State, number: u8) -> u32
    ensures { Writes (adds (piece_of (row (local number) []))) bytes.old state.old bytes.new state.new result }
{
    if state.fault != 0 {
        return state.fault;
    }
    put_object(bytes, state, &Local(number))
}

// Whether each byte is one of ASCII.
fn is_ascii(bytes: &[u8]) -> bool
    ensures { result ≡ is_ascii bytes.now }
{
    'bytes: for byte in bytes {
        if *byte >= 0x80 {
            return false;
        }
    }
    true
}

/// Writes a string (ACPI 6.5, 20.2.3, String). The fault is `Text` if a byte isn't one of ASCII.
pub fn string(bytes: &mut [u8], state: &mut State, text: &[u8]) -> u32
    ensures { Writes (adds (string_piece text.now)) bytes.old state.old bytes.new state.new result }
{
    if state.fault != 0 {
        return state.fault;
    }
    if !is_ascii(text) {
        return fail(bytes, state, Fault::Text);
    }
    put(bytes, state, &[0x0d], text, &[0x00])
}

/// Writes an EISA id as a number (ACPI 6.5, 19.3.4): three letters and four hexadecimal digits. The fault is `EisaText` for any
/// other text.
#[tactic(auto, using(crate::proofs::Pieces::number_few, crate::proofs::Pieces::is_text, crate::proofs::Pieces::is_no_text))]
pub fn eisa_id(bytes: &mut [u8], state: &mut State, id: &[u8]) -> u32
    ensures { Writes (adds (eisa_piece id.now)) bytes.old state.old bytes.new state.new result }
{
    if state.fault != 0 {
        return state.fault;
    }
    let Ok(text) = std::str::from_utf8(id) else {
        return fail(bytes, state, Fault::EisaText);
    };
    match EISAName::new(text) {
        Ok(id) => put_object(bytes, state, &id),
        Err(_) => fail(bytes, state, Fault::EisaText),
    }
}

/// Writes a UUID as a buffer of 16 bytes (ACPI 6.5, 19.6.142): 8, 4, 4, 4 and 12 hexadecimal digits between dashes. The fault is
/// `UuidText` for any other text.
#[tactic(auto, using(crate::proofs::Pieces::uuid_few, crate::proofs::Pieces::uuid_dry, crate::proofs::Pieces::is_text, crate::proofs::Pieces::is_no_text))]
pub fn uuid(bytes: &mut [u8], state: &mut State, text: &[u8]) -> u32
    ensures { Writes (adds (uuid_piece text.now)) bytes.old state.old bytes.new state.new result }
{
    if state.fault != 0 {
        return state.fault;
    }
    let Ok(text) = std::str::from_utf8(text) else {
        return fail(bytes, state, Fault::UuidText);
    };
    match Uuid::new(text) {
        Ok(uuid) => put_object(bytes, state, &uuid),
        Err(_) => fail(bytes, state, Fault::UuidText),
    }
}

// The operator with this opcode, whose second byte is the lower one of two.
fn operator_of(code: u32) -> Option<Op>
    ensures { result ≡ operator_of code }
{
    match code {
        0..=0xff => Op::from_code(&[code as u8]),
        0x5b00..=0x5bff => Op::from_code(&[0x5b, (code % 256) as u8]),
        _ => None,
    }
}

/// Writes an operator (ACPI 6.5, 20.2.5 and 20.3), whose operands follow. `code` is its opcode, with the byte after 5B in the
/// lower byte. The fault is `UnknownChoice` if no operator has this opcode.
pub fn operator(bytes: &mut [u8], state: &mut State, code: u32) -> u32
    ensures { Writes (adds (operator_piece code)) bytes.old state.old bytes.new state.new result }
{
    if state.fault != 0 {
        return state.fault;
    }
    match operator_of(code) {
        Some(operator) => put(bytes, state, operator.code(), &[], &[]),
        None => fail(bytes, state, Fault::UnknownChoice),
    }
}
