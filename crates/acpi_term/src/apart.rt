//! Terms taken apart into their kind, width and children.

ghost use Rattle.std.specs.Prelude.{◌≡◌, ℕ};
ghost use Rattle.std.specs.Option.{option_map};
ghost use Rattle.acpi_term.specs.Row.{code_of, layout};
ghost use Rattle.acpi_term.specs.View.{head_of, IsApart};

use crate::name_string::NameString;
use crate::op::Op;
use crate::read_error::ReadError;
use crate::term::{Term, TermEntry};
use std::slice::from_ref;

/// What a term is, without its width and its children. The parts are borrowed.
#[derive(Clone, Copy)]
pub enum Kind<'a> {
    Number(u64),
    Ones,
    Text(&'a str),
    Local(u8),
    Arg(u8),
    Call(&'a NameString),
    Scope(&'a NameString),
    Device(&'a NameString),
    /// Name, number of arguments, whether serialized.
    Method(&'a NameString, u8, bool),
    /// Name, system level, resource order.
    PowerResource(&'a NameString, u8, u16),
    /// Name, access type, lock rule, update rule, entries.
    Field(&'a NameString, u8, u8, u8, &'a [TermEntry]),
    /// Name, address space.
    OpRegion(&'a NameString, u8),
    Name(&'a NameString),
    Mutex(&'a NameString, u8),
    Acquire(&'a NameString, u16),
    Release(&'a NameString),
    /// The bytes after the size.
    Buffer(&'a [u8]),
    Package,
    VarPackage,
    If,
    While,
    Else,
    Op(Op),
    /// Name, object type, number of arguments.
    External(&'a NameString, u8, u8),
    /// Name, number of arguments, whether serialized, synchronization level.
    LeveledMethod(&'a NameString, u8, bool, u8),
    /// Name, id, address and length of its registers.
    Processor(&'a NameString, u8, u32, u8),
    ThermalZone(&'a NameString),
    /// The number of elements for which it has room.
    RoomyPackage(u8),
    /// Name of the index, name of the data, access type, lock rule, update rule, entries.
    IndexField(&'a NameString, &'a NameString, u8, u8, u8, &'a [TermEntry]),
    /// Name of the region, name of the bank's field, access type, lock rule, update rule, entries.
    BankField(&'a NameString, &'a NameString, u8, u8, u8, &'a [TermEntry]),
    /// Type, code.
    Fatal(u8, u32),
    /// How elements are compared.
    MatchTest(u8),
    /// Milliseconds.
    Timeout(u16),
    /// Why the bytes are no term, and the bytes.
    Unread(ReadError, &'a [u8]),
}

/// The parts of a term. Its children are those of the first list and then those of the second.
#[derive(Clone, Copy)]
pub struct Parts<'a> {
    pub kind: Kind<'a>,
    /// The width, or 0 if the term has none.
    pub width: u8,
    pub first: &'a [Term],
    pub others: &'a [Term],
}

/// Takes a term apart.
#[inline(always)]
pub fn parts_of(term: &Term) -> Parts<'_>
    ensures { IsApart term.now (head_of result.kind) result.width result.first.now result.others.now }
{
    match term {
        Term::Number { value, width } => apart(Kind::Number(*value), *width, &[], &[]),
        Term::Ones => apart(Kind::Ones, 0, &[], &[]),
        Term::Text(text) => apart(Kind::Text(text), 0, &[], &[]),
        Term::Local(n) => apart(Kind::Local(*n), 0, &[], &[]),
        Term::Arg(n) => apart(Kind::Arg(*n), 0, &[], &[]),
        Term::Call { name, args } => apart(Kind::Call(name), 0, args, &[]),
        Term::Scope { width, name, body } => apart(Kind::Scope(name), *width, body, &[]),
        Term::Device { width, name, body } => apart(Kind::Device(name), *width, body, &[]),
        Term::Method {
            width,
            args,
            serialized,
            name,
            body,
        } => apart(Kind::Method(name, *args, *serialized), *width, body, &[]),
        Term::PowerResource {
            width,
            level,
            order,
            name,
            body,
        } => apart(Kind::PowerResource(name, *level, *order), *width, body, &[]),
        Term::Field {
            width,
            access,
            lock,
            update,
            name,
            entries,
        } => apart(
            Kind::Field(name, *access, *lock, *update, entries),
            *width,
            &[],
            &[],
        ),
        Term::OpRegion {
            name,
            space,
            offset,
            length,
        } => apart(
            Kind::OpRegion(name, *space),
            0,
            from_ref(offset),
            from_ref(length),
        ),
        Term::Name { name, value } => apart(Kind::Name(name), 0, from_ref(value), &[]),
        Term::Mutex { name, level } => apart(Kind::Mutex(name, *level), 0, &[], &[]),
        Term::Acquire { name, timeout } => apart(Kind::Acquire(name, *timeout), 0, &[], &[]),
        Term::Release { name } => apart(Kind::Release(name), 0, &[], &[]),
        Term::Buffer { width, size, bytes } => apart(
            Kind::Buffer(bytes),
            *width,
            from_ref(size),
            &[],
        ),
        Term::Package { width, elements } => apart(Kind::Package, *width, elements, &[]),
        Term::VarPackage {
            width,
            count,
            elements,
        } => apart(Kind::VarPackage, *width, from_ref(count), elements),
        Term::If {
            width,
            predicate,
            body,
        } => apart(Kind::If, *width, from_ref(predicate), body),
        Term::While {
            width,
            predicate,
            body,
        } => apart(Kind::While, *width, from_ref(predicate), body),
        Term::Else { width, body } => apart(Kind::Else, *width, body, &[]),
        Term::Op { op, operands } => apart(Kind::Op(*op), 0, operands, &[]),
        Term::External { name, kind, args } => apart(
            Kind::External(name, *kind, *args),
            0,
            &[],
            &[],
        ),
        Term::LeveledMethod {
            width,
            args,
            serialized,
            level,
            name,
            body,
        } => apart(
            Kind::LeveledMethod(name, *args, *serialized, *level),
            *width,
            body,
            &[],
        ),
        Term::Processor {
            width,
            id,
            size,
            address,
            name,
            body,
        } => apart(
            Kind::Processor(name, *id, *address, *size),
            *width,
            body,
            &[],
        ),
        Term::ThermalZone { width, name, body } => apart(
            Kind::ThermalZone(name),
            *width,
            body,
            &[],
        ),
        Term::RoomyPackage {
            width,
            room,
            elements,
        } => apart(Kind::RoomyPackage(*room), *width, elements, &[]),
        Term::IndexField {
            width,
            access,
            lock,
            update,
            names,
            entries,
        } => apart(
            Kind::IndexField(
                &names.selector,
                &names.name,
                *access,
                *lock,
                *update,
                entries,
            ),
            *width,
            &[],
            &[],
        ),
        Term::BankField {
            width,
            access,
            lock,
            update,
            names,
            value,
            entries,
        } => apart(
            Kind::BankField(
                &names.name,
                &names.selector,
                *access,
                *lock,
                *update,
                entries,
            ),
            *width,
            from_ref(value),
            &[],
        ),
        Term::Fatal {
            kind,
            code,
            argument,
        } => apart(Kind::Fatal(*kind, *code), 0, from_ref(argument), &[]),
        Term::MatchTest { code, operand } => apart(
            Kind::MatchTest(*code),
            0,
            from_ref(operand),
            &[],
        ),
        Term::Timeout(milliseconds) => apart(Kind::Timeout(*milliseconds), 0, &[], &[]),
        Term::Unread { error, bytes } => apart(Kind::Unread(*error, bytes), 0, &[], &[]),
    }
}

#[inline(always)]
fn apart<'a>(kind: Kind<'a>, width: u8, first: &'a [Term], others: &'a [Term]) -> Parts<'a>
    ensures kind { result.kind ≡ kind.entry }
    ensures width { result.width ≡ width }
    ensures first { result.first.now ≡ first.now }
    ensures others { result.others.now ≡ others.now }
{
    Parts {
        kind,
        width,
        first,
        others,
    }
}

/// The opcode of a term with a frame.
#[inline(always)]
pub fn frame_code(kind: Kind<'_>) -> Option<&'static [u8]>
    ensures { (w n : ℕ) → option_map (λ code. code.now) result ≡ code_of (layout (head_of kind.entry) w n) }
{
    match kind {
        Kind::Scope(_) => Some(&[0x10]),
        Kind::Device(_) => Some(&[0x5b, 0x82]),
        Kind::Method(..) => Some(&[0x14]),
        Kind::PowerResource(..) => Some(&[0x5b, 0x84]),
        Kind::Field(..) => Some(&[0x5b, 0x81]),
        Kind::Buffer(_) => Some(&[0x11]),
        Kind::Package => Some(&[0x12]),
        Kind::VarPackage => Some(&[0x13]),
        Kind::If => Some(&[0xa0]),
        Kind::While => Some(&[0xa2]),
        Kind::Else => Some(&[0xa1]),
        Kind::LeveledMethod(..) => Some(&[0x14]),
        Kind::Processor(..) => Some(&[0x5b, 0x83]),
        Kind::ThermalZone(_) => Some(&[0x5b, 0x85]),
        Kind::RoomyPackage(_) => Some(&[0x12]),
        Kind::IndexField(..) => Some(&[0x5b, 0x86]),
        Kind::BankField(..) => Some(&[0x5b, 0x87]),
        Kind::Number(_) | Kind::Ones | Kind::Text(_) | Kind::Local(_) | Kind::Arg(_) => None,
        Kind::Call(_) | Kind::OpRegion(..) | Kind::Name(_) | Kind::Mutex(..) => None,
        Kind::Acquire(..) | Kind::Release(_) | Kind::Op(_) | Kind::External(..) => None,
        Kind::Fatal(..) | Kind::MatchTest(_) | Kind::Timeout(_) | Kind::Unread(..) => None,
    }
}
