//! Terms.

use crate::name_string::NameString;
use crate::op::Op;
use crate::read_error::ReadError;

/// The reader reads terms that are nested at most this deep.
pub const MAX_DEPTH: usize = 255;

/// An entry of a field (ACPI 6.5, 20.2.5.2). The width of a number of bits is in how many bytes it is written, 1 to 4.
#[derive(Debug, Drop, PartialEq)]
pub enum TermEntry {
    /// The name's segment, the bits and the width.
    Named([u8; 4], u32, u8),
    /// The bits and the width.
    Reserved(u32, u8),
    /// AccessField, which says how the fields after it are accessed: AccessType and AccessAttrib. Only the language of the
    /// standard has it and the entries below.
    AccessAs(u8, u8),
    /// ExtendedAccessField: AccessType, ExtendedAccessAttrib and AccessLength.
    ExtendedAccessAs(u8, u8, u8),
    /// ConnectField with the name of the connection that the fields after it use.
    Connection(NameString),
    /// ConnectField with a buffer, whose size is a number. The number of bytes after the size may differ from the size.
    ConnectionBuffer {
        width: u8,
        size: u64,
        size_width: u8,
        bytes: Vec<u8>,
    },
}

/// The two names of an IndexField or a BankField (ACPI 6.5, 20.2.5.2).
#[derive(Debug, Drop, PartialEq)]
pub struct FieldNames {
    /// The register that has the data, or the region.
    pub name: NameString,
    /// The register to which the index or the bank is written.
    pub selector: NameString,
}

/// A term (ACPI 6.5, 20.2.3 and 20.2.5). The width of a term with a frame is the width of its PkgLength, from 1 to 4 bytes.
/// A term takes 48 bytes: its numbers come before its name, and what is larger is in a box.
#[derive(Debug, Drop, PartialEq)]
pub enum Term {
    /// The width is 0 for the bytes 00 and 01; otherwise it is the number of bytes after the prefix.
    Number {
        value: u64,
        width: u8,
    },
    Ones,
    Text(String),
    Local(u8),
    Arg(u8),
    /// A name, with its arguments if it has any.
    Call {
        name: NameString,
        args: Vec<Term>,
    },
    Scope {
        width: u8,
        name: NameString,
        body: Vec<Term>,
    },
    Device {
        width: u8,
        name: NameString,
        body: Vec<Term>,
    },
    Method {
        width: u8,
        args: u8,
        serialized: bool,
        name: NameString,
        body: Vec<Term>,
    },
    PowerResource {
        width: u8,
        level: u8,
        order: u16,
        name: NameString,
        body: Vec<Term>,
    },
    Field {
        width: u8,
        access: u8,
        lock: u8,
        update: u8,
        name: NameString,
        entries: Vec<TermEntry>,
    },
    OpRegion {
        name: NameString,
        space: u8,
        offset: Box<Term>,
        length: Box<Term>,
    },
    Name {
        name: NameString,
        value: Box<Term>,
    },
    Mutex {
        name: NameString,
        level: u8,
    },
    Acquire {
        name: NameString,
        timeout: u16,
    },
    Release {
        name: NameString,
    },
    /// The number of bytes after the size may differ from the size.
    Buffer {
        width: u8,
        size: Box<Term>,
        bytes: Vec<u8>,
    },
    Package {
        width: u8,
        elements: Vec<Term>,
    },
    VarPackage {
        width: u8,
        count: Box<Term>,
        elements: Vec<Term>,
    },
    If {
        width: u8,
        predicate: Box<Term>,
        body: Vec<Term>,
    },
    While {
        width: u8,
        predicate: Box<Term>,
        body: Vec<Term>,
    },
    Else {
        width: u8,
        body: Vec<Term>,
    },
    Op {
        op: Op,
        operands: Vec<Term>,
    },
    /// A name that another block defines: its object type, and how many arguments it takes. Only the language of the standard has
    /// it and the terms below.
    External {
        name: NameString,
        kind: u8,
        args: u8,
    },
    /// A method with a synchronization level, from 1 to 15.
    LeveledMethod {
        width: u8,
        args: u8,
        serialized: bool,
        level: u8,
        name: NameString,
        body: Vec<Term>,
    },
    /// The address and the length are those of the processor's registers.
    Processor {
        width: u8,
        id: u8,
        size: u8,
        address: u32,
        name: NameString,
        body: Vec<Term>,
    },
    ThermalZone {
        width: u8,
        name: NameString,
        body: Vec<Term>,
    },
    /// A package with room for more elements than it has.
    RoomyPackage {
        width: u8,
        room: u8,
        elements: Vec<Term>,
    },
    /// A field of a register. What is written to the selector is the index.
    IndexField {
        width: u8,
        access: u8,
        lock: u8,
        update: u8,
        names: Box<FieldNames>,
        entries: Vec<TermEntry>,
    },
    /// A field of a region. The `value` in the selector is the bank.
    BankField {
        width: u8,
        access: u8,
        lock: u8,
        update: u8,
        names: Box<FieldNames>,
        value: Box<Term>,
        entries: Vec<TermEntry>,
    },
    /// The type, the code and the argument are what the firmware's maker chose.
    Fatal {
        kind: u8,
        code: u32,
        argument: Box<Term>,
    },
    /// A test of a Match: how elements are compared with the operand, from 0 to 5 (MTR, MEQ, MLE, MLT, MGE and MGT).
    MatchTest {
        code: u8,
        operand: Box<Term>,
    },
    /// The timeout of an Acquire of an object that isn't a name, in milliseconds.
    Timeout(u16),
    /// Bytes that are no term: those from a term that can't be read up to the end of the list that it is in. Only a reader that
    /// goes on after faults makes it, and no bytes spell it. The error is that of reading the term.
    Unread {
        error: ReadError,
        bytes: Vec<u8>,
    },
}
