//! The heads of terms: the bytes before their children (ACPI 6.5, 20.2.3 and 20.2.5).

ghost use Rattle.std.specs.Prelude.{◌≡◌, ◌≤◌, ◌/◌, ◌%◌, nat_le, length, IfOk, Ok};
ghost use Rattle.acpi_term.specs.Arity.{arity_in, grammar_by};
ghost use Rattle.acpi_term.specs.Operator.{op_of};
ghost use Rattle.acpi_term.specs.Spelling.{inner, arguments};
ghost use Rattle.acpi_term.specs.Tree.{def_leveled_method, term, number, def_var_package, def_if, def_while, def_else};
ghost use Rattle.acpi_term.specs.View.{views, view};
ghost use Rattle.acpi_term.specs.Reading.{follows, number_at, string_at, named_at, define_after, mutex_after};
ghost use Rattle.acpi_term.specs.Reading.{region_after, acquire_after, release_after, framed_at, scope_inside};
ghost use Rattle.acpi_term.specs.Reading.{device_inside, method_inside, power_inside, field_inside, plain_at};
ghost use Rattle.acpi_term.specs.Reading.{thermal_inside, processor_inside, index_flags, index_inside, bank_inside};
ghost use Rattle.acpi_term.specs.Reading.{external_after};
ghost use Rattle.acpi_term.specs.Reading.{further, fills};
ghost use Rattle.acpi_term.specs.Reading.{fatal_at, test_at, timeout_at, head_at, named_or_operator_at};
ghost use Rattle.acpi_term.specs.declared.op.Op.TheVariants.{Acquire, Release};
ghost use Rattle.acpi_term.specs.Reading.{package_at, buffer_at, operator_at, extended_at, local_at, opcode_at, open_at};
ghost use Rattle.acpi_read.specs.Cause.{Gives};
ghost use Rattle.acpi_read.specs.TermStart.{seen, block_head, block_width, first_head, first_width, LiesWithin, IsAlone};

use crate::terms::cause::Cause;
use crate::terms::field::entries;
use crate::terms::frame::{frame, number};
use crate::terms::name::{begins_name, name, names_first};
use crate::terms::text::text;
use acpi_term::language::Language;
use acpi_term::mode::Mode;
use acpi_term::name_string::{Arities, NameString, arguments};
use acpi_term::op::Op;
use acpi_term::term::{FieldNames, Term};
use std::alloc::Global;

/// A term whose children are all of a frame, without its children: the width of its length, and its own values.
#[derive(Drop)]
pub enum Block {
    Scope(u8, NameString),
    Device(u8, NameString),
    Method(u8, NameString, u8, bool),
    PowerResource(u8, NameString, u8, u16),
    Else(u8),
    /// Name, number of arguments, whether serialized, synchronization level.
    LeveledMethod(u8, NameString, u8, bool, u8),
    /// Name, id, address and length of its registers.
    Processor(u8, NameString, u8, u32, u8),
    ThermalZone(u8, NameString),
}

/// The same for a term whose first child is kept apart from the others.
#[derive(Clone, Copy)]
pub enum FirstAndBlock {
    VarPackage(u8),
    If(u8),
    While(u8),
}

impl Block {
    /// The term with these children.
    pub fn with(self, children: Vec<Term>) -> Term
        ensures { view result ≡ (block_head self, block_width self, views children.items) }
    {
        match self {
            Block::Scope(width, name) => Term::Scope {
                width,
                name,
                body: children,
            },
            Block::Device(width, name) => Term::Device {
                width,
                name,
                body: children,
            },
            Block::Method(width, name, args, serialized) => Term::Method {
                width,
                name,
                args,
                serialized,
                body: children,
            },
            Block::PowerResource(width, name, level, order) => Term::PowerResource {
                width,
                name,
                level,
                order,
                body: children,
            },
            Block::Else(width) => Term::Else {
                width,
                body: children,
            },
            Block::LeveledMethod(width, name, args, serialized, level) => Term::LeveledMethod {
                width,
                name,
                args,
                serialized,
                level,
                body: children,
            },
            Block::Processor(width, name, id, address, size) => Term::Processor {
                width,
                name,
                id,
                address,
                size,
                body: children,
            },
            Block::ThermalZone(width, name) => Term::ThermalZone {
                width,
                name,
                body: children,
            },
        }
    }
}

impl FirstAndBlock {
    /// The place of the first child.
    pub fn mode(self) -> Mode
        ensures { (l : Language) → result ≡ inner l (first_head self) }
    {
        match self {
            FirstAndBlock::VarPackage(_) => Mode::Count,
            FirstAndBlock::If(_) | FirstAndBlock::While(_) => Mode::Term,
        }
    }

    /// The term with these children.
    pub fn with(self, first: Box<Term>, others: Vec<Term>) -> Term
        ensures { view result
            ≡ (
              first_head self,
              first_width self,
              term (view first.value).0 (view first.value).1 (view first.value).2 (views others.items),
            ) }
    {
        match self {
            FirstAndBlock::VarPackage(width) => Term::VarPackage {
                width,
                count: first,
                elements: others,
            },
            FirstAndBlock::If(width) => Term::If {
                width,
                predicate: first,
                body: others,
            },
            FirstAndBlock::While(width) => Term::While {
                width,
                predicate: first,
                body: others,
            },
        }
    }
}

/// A BankField before its value: the width of its length, the region, and the register that chooses the bank.
#[derive(Drop)]
pub struct BankStart {
    pub width: u8,
    pub name: NameString,
    pub bank: NameString,
}

/// The head of a term, and the bytes from which its children are read.
#[derive(Drop)]
pub enum TermStart<'a> {
    /// A term without children, and the bytes after it.
    Leaf(Term, &'a [u8]),
    /// A name, the number of its arguments, and the bytes after it.
    Call(NameString, u8, &'a [u8]),
    /// An operator, and the bytes after it.
    Operator(Op, &'a [u8]),
    /// A region's name and space, and the bytes after these.
    Region(NameString, u8, &'a [u8]),
    /// The name of a value, and the bytes after it.
    Define(NameString, &'a [u8]),
    /// A Fatal's type and code, and the bytes after these.
    Fatal(u8, u32, &'a [u8]),
    /// A MatchOpcode, and the bytes after it.
    Test(u8, &'a [u8]),
    /// A frame, the content after its own values, and the bytes after the frame.
    Block(Block, &'a [u8], &'a [u8]),
    FirstAndBlock(FirstAndBlock, &'a [u8], &'a [u8]),
    /// The width, the number of elements, the content after it, and the bytes after the frame.
    Package(u8, u8, &'a [u8], &'a [u8]),
    /// The width, the number of elements for which there is room, the content after it, and the bytes after the frame.
    Rooms(u8, u8, &'a [u8], &'a [u8]),
    /// The width, the content, and the bytes after the frame.
    Buffer(u8, &'a [u8], &'a [u8]),
    /// A BankField, the content after its names, and the bytes after the frame.
    Bank(BankStart, &'a [u8], &'a [u8]),
}

/// A number that is its opcode alone.
fn small_number(byte: u8, rest: &[u8]) -> TermStart<'_>
    ensures gives { seen result ≡ follows (number byte) 0 0 rest.now }
    ensures alone { IsAlone result }
{
    TermStart::Leaf(
        Term::Number {
            value: u64::from(byte),
            width: 0,
        },
        rest,
    )
}

fn wide_number(width: u8, bytes: &[u8]) -> Result<TermStart<'_>, Cause>
    requires { width ≤ 8 }
    ensures gives { Gives seen result (number_at width bytes.now) }
    ensures alone { IfOk result IsAlone }
{
    let (value, rest) = number(width, bytes)?;
    Ok(TermStart::Leaf(Term::Number { value, width }, rest))
}

fn string(alloc: Global, bytes: &[u8]) -> Result<TermStart<'_>, Cause>
    ensures gives { Gives seen result (string_at bytes.now) }
    ensures alone { IfOk result IsAlone }
{
    let (text, rest) = text(alloc, bytes)?;
    Ok(TermStart::Leaf(Term::Text(text), rest))
}

fn define(language: Language, alloc: Global, bytes: &[u8]) -> Result<TermStart<'_>, Cause>
    ensures gives { Gives seen result (named_at language define_after bytes.now) }
    ensures alone { IfOk result IsAlone }
{
    let (name, rest) = name(language, alloc, bytes)?;
    Ok(TermStart::Define(name, rest))
}

fn mutex(language: Language, alloc: Global, bytes: &[u8]) -> Result<TermStart<'_>, Cause>
    ensures gives { Gives seen result (named_at language mutex_after bytes.now) }
    ensures alone { IfOk result IsAlone }
{
    let (name, rest) = name(language, alloc, bytes)?;
    let Some((level, rest)) = rest.split_first() else {
        return Err(Cause::Truncated);
    };
    let level = *level;
    Ok(TermStart::Leaf(Term::Mutex { name, level }, rest))
}

fn acquire(language: Language, alloc: Global, bytes: &[u8]) -> Result<TermStart<'_>, Cause>
    ensures gives { Gives seen result (named_or_operator_at language acquire_after Acquire bytes.now) }
    ensures alone { IfOk result IsAlone }
{
    if language.is_standard() && !names_first(bytes) {
        return Ok(TermStart::Operator(Op::Acquire, bytes));
    }
    let (name, rest) = name(language, alloc, bytes)?;
    let (timeout, rest) = number(2, rest)?;
    let timeout = timeout as u16;
    Ok(TermStart::Leaf(Term::Acquire { name, timeout }, rest))
}

fn release(language: Language, alloc: Global, bytes: &[u8]) -> Result<TermStart<'_>, Cause>
    ensures gives { Gives seen result (named_or_operator_at language release_after Release bytes.now) }
    ensures alone { IfOk result IsAlone }
{
    if language.is_standard() && !names_first(bytes) {
        return Ok(TermStart::Operator(Op::Release, bytes));
    }
    let (name, rest) = name(language, alloc, bytes)?;
    Ok(TermStart::Leaf(Term::Release { name }, rest))
}

fn region(language: Language, alloc: Global, bytes: &[u8]) -> Result<TermStart<'_>, Cause>
    ensures gives { Gives seen result (named_at language region_after bytes.now) }
    ensures alone { IfOk result IsAlone }
{
    let (name, rest) = name(language, alloc, bytes)?;
    let Some((space, rest)) = rest.split_first() else {
        return Err(Cause::Truncated);
    };
    Ok(TermStart::Region(name, *space, rest))
}

fn scope(language: Language, alloc: Global, bytes: &[u8]) -> Result<TermStart<'_>, Cause>
    ensures gives { Gives seen result (framed_at language scope_inside bytes.now) }
    ensures alone { IfOk result IsAlone }
{
    let (width, content, after) = frame(bytes)?;
    let (name, inside) = name(language, alloc, content)?;
    Ok(TermStart::Block(Block::Scope(width, name), inside, after))
}

fn device(language: Language, alloc: Global, bytes: &[u8]) -> Result<TermStart<'_>, Cause>
    ensures gives { Gives seen result (framed_at language device_inside bytes.now) }
    ensures alone { IfOk result IsAlone }
{
    let (width, content, after) = frame(bytes)?;
    let (name, inside) = name(language, alloc, content)?;
    Ok(TermStart::Block(Block::Device(width, name), inside, after))
}

fn method(language: Language, alloc: Global, bytes: &[u8]) -> Result<TermStart<'_>, Cause>
    ensures gives { Gives seen result (framed_at language (method_inside language) bytes.now) }
    ensures alone { IfOk result IsAlone }
{
    let (width, content, after) = frame(bytes)?;
    let (name, inside) = name(language, alloc, content)?;
    let Some((flags, inside)) = inside.split_first() else {
        return Err(Cause::Truncated);
    };
    let flags = *flags;
    if flags >= 16 {
        return leveled(language, width, name, flags, inside, after);
    }
    Ok(TermStart::Block(
        Block::Method(width, name, flags % 8, flags >= 8),
        inside,
        after,
    ))
}

// A method with a synchronization level.
fn leveled<'a>(
    language: Language,
    width: u8,
    name: NameString,
    flags: u8,
    inside: &'a [u8],
    after: &'a [u8],
) -> Result<TermStart<'a>, Cause>
    ensures gives { Gives seen result (further language
        (Ok (fills (def_leveled_method name (flags % 8) (nat_le 8 (flags % 16)) (flags / 16)) width inside.now after.now))) }
    ensures alone { IfOk result IsAlone }
{
    if !language.is_standard() {
        return Err(Cause::Flags);
    }
    Ok(TermStart::Block(
        Block::LeveledMethod(width, name, flags % 8, flags % 16 >= 8, flags / 16),
        inside,
        after,
    ))
}

fn external(language: Language, alloc: Global, bytes: &[u8]) -> Result<TermStart<'_>, Cause>
    ensures gives { Gives seen result (further language (named_at language external_after bytes.now)) }
    ensures alone { IfOk result IsAlone }
{
    if !language.is_standard() {
        return Err(Cause::Opcode);
    }
    let (name, rest) = name(language, alloc, bytes)?;
    let [kind, args, rest @ ..] = rest else {
        return Err(Cause::Truncated);
    };
    let (kind, args) = (*kind, *args);
    Ok(TermStart::Leaf(Term::External { name, kind, args }, rest))
}

fn fatal(language: Language, bytes: &[u8]) -> Result<TermStart<'_>, Cause>
    ensures gives { Gives seen result (further language (fatal_at bytes.now)) }
    ensures alone { IfOk result IsAlone }
{
    if !language.is_standard() {
        return Err(Cause::Opcode);
    }
    let Some((kind, rest)) = bytes.split_first() else {
        return Err(Cause::Truncated);
    };
    let (code, rest) = number(4, rest)?;
    Ok(TermStart::Fatal(*kind, code as u32, rest))
}

fn test(language: Language, bytes: &[u8]) -> Result<TermStart<'_>, Cause>
    ensures gives { Gives seen result (test_at language bytes.now) }
    ensures alone { IfOk result IsAlone }
{
    let Some((code, rest)) = bytes.split_first() else {
        return Err(Cause::Truncated);
    };
    if !language.is_standard() {
        return Err(Cause::Opcode);
    }
    if *code > 5 {
        return Err(Cause::Opcode);
    }
    Ok(TermStart::Test(*code, rest))
}

fn thermal_zone(language: Language, alloc: Global, bytes: &[u8]) -> Result<TermStart<'_>, Cause>
    ensures gives { Gives seen result (further language (framed_at language thermal_inside bytes.now)) }
    ensures alone { IfOk result IsAlone }
{
    if !language.is_standard() {
        return Err(Cause::Opcode);
    }
    let (width, content, after) = frame(bytes)?;
    let (name, inside) = name(language, alloc, content)?;
    Ok(TermStart::Block(Block::ThermalZone(width, name), inside, after))
}

fn registers<'a>(
    width: u8,
    name: NameString,
    bytes: &'a [u8],
    after: &'a [u8],
) -> Result<TermStart<'a>, Cause>
    ensures gives { Gives seen result (processor_inside width name bytes.now after.now) }
    ensures alone { IfOk result IsAlone }
{
    let Some((id, rest)) = bytes.split_first() else {
        return Err(Cause::Truncated);
    };
    let (address, rest) = number(4, rest)?;
    let Some((size, inside)) = rest.split_first() else {
        return Err(Cause::Truncated);
    };
    Ok(TermStart::Block(
        Block::Processor(width, name, *id, address as u32, *size),
        inside,
        after,
    ))
}

fn processor(language: Language, alloc: Global, bytes: &[u8]) -> Result<TermStart<'_>, Cause>
    ensures gives { Gives seen result (further language (framed_at language processor_inside bytes.now)) }
    ensures alone { IfOk result IsAlone }
{
    if !language.is_standard() {
        return Err(Cause::Opcode);
    }
    let (width, content, after) = frame(bytes)?;
    let (name, inside) = name(language, alloc, content)?;
    registers(width, name, inside, after)
}

fn power_resource(language: Language, alloc: Global, bytes: &[u8]) -> Result<TermStart<'_>, Cause>
    ensures gives { Gives seen result (framed_at language power_inside bytes.now) }
    ensures alone { IfOk result IsAlone }
{
    let (width, content, after) = frame(bytes)?;
    let (name, inside) = name(language, alloc, content)?;
    let Some((level, inside)) = inside.split_first() else {
        return Err(Cause::Truncated);
    };
    let (order, inside) = number(2, inside)?;
    Ok(TermStart::Block(
        Block::PowerResource(width, name, *level, order as u16),
        inside,
        after,
    ))
}

fn flagged<'a>(
    language: Language,
    alloc: Global,
    width: u8,
    name: NameString,
    bytes: &[u8],
    after: &'a [u8],
) -> Result<TermStart<'a>, Cause>
    ensures gives { Gives seen result (field_inside language width name bytes.now after.now) }
    ensures alone { IfOk result IsAlone }
{
    let Some((flags, rest)) = bytes.split_first() else {
        return Err(Cause::Truncated);
    };
    let flags = *flags;
    if flags % 16 >= 6 {
        return Err(Cause::Flags);
    }
    if flags >= 96 {
        return Err(Cause::Flags);
    }
    let entries = entries(language, alloc, rest)?;
    Ok(TermStart::Leaf(
        Term::Field {
            width,
            name,
            access: flags % 16,
            lock: flags / 16 % 2,
            update: flags / 32,
            entries,
        },
        after,
    ))
}

fn field(language: Language, alloc: Global, bytes: &[u8]) -> Result<TermStart<'_>, Cause>
    ensures gives { Gives seen result (framed_at language (field_inside language) bytes.now) }
    ensures alone { IfOk result IsAlone }
{
    let (width, content, after) = frame(bytes)?;
    let (name, inside) = name(language, alloc, content)?;
    flagged(language, alloc, width, name, inside, after)
}

fn indexed<'a>(
    language: Language,
    alloc: Global,
    width: u8,
    index: NameString,
    name: NameString,
    bytes: &[u8],
    after: &'a [u8],
) -> Result<TermStart<'a>, Cause>
    ensures gives { Gives seen result (index_flags language width index name bytes.now after.now) }
    ensures alone { IfOk result IsAlone }
{
    let Some((flags, rest)) = bytes.split_first() else {
        return Err(Cause::Truncated);
    };
    let flags = *flags;
    if flags % 16 >= 6 {
        return Err(Cause::Flags);
    }
    if flags >= 96 {
        return Err(Cause::Flags);
    }
    let entries = entries(language, alloc, rest)?;
    let names = FieldNames {
        name,
        selector: index,
    };
    Ok(TermStart::Leaf(
        Term::IndexField {
            width,
            access: flags % 16,
            lock: flags / 16 % 2,
            update: flags / 32,
            names: Box::new(alloc, names)?,
            entries,
        },
        after,
    ))
}

fn index_field(language: Language, alloc: Global, bytes: &[u8]) -> Result<TermStart<'_>, Cause>
    ensures gives { Gives seen result (further language (framed_at language (index_inside language) bytes.now)) }
    ensures alone { IfOk result IsAlone }
{
    if !language.is_standard() {
        return Err(Cause::Opcode);
    }
    let (width, content, after) = frame(bytes)?;
    let (index, rest) = name(language, alloc, content)?;
    let (name, inside) = name(language, alloc, rest)?;
    indexed(language, alloc, width, index, name, inside, after)
}

fn bank_field(language: Language, alloc: Global, bytes: &[u8]) -> Result<TermStart<'_>, Cause>
    ensures gives { Gives seen result (further language (framed_at language (bank_inside language) bytes.now)) }
    ensures alone { IfOk result IsAlone }
{
    if !language.is_standard() {
        return Err(Cause::Opcode);
    }
    let (width, content, after) = frame(bytes)?;
    let (region, rest) = name(language, alloc, content)?;
    let (bank, inside) = name(language, alloc, rest)?;
    let start = BankStart {
        width,
        name: region,
        bank,
    };
    Ok(TermStart::Bank(start, inside, after))
}

fn otherwise(bytes: &[u8]) -> Result<TermStart<'_>, Cause>
    ensures gives { Gives seen result (plain_at def_else bytes.now) }
    ensures alone { IfOk result IsAlone }
{
    let (width, content, after) = frame(bytes)?;
    Ok(TermStart::Block(Block::Else(width), content, after))
}

fn branch(bytes: &[u8]) -> Result<TermStart<'_>, Cause>
    ensures gives { Gives seen result (plain_at def_if bytes.now) }
    ensures alone { IfOk result IsAlone }
{
    let (width, content, after) = frame(bytes)?;
    Ok(TermStart::FirstAndBlock(FirstAndBlock::If(width), content, after))
}

fn repetition(bytes: &[u8]) -> Result<TermStart<'_>, Cause>
    ensures gives { Gives seen result (plain_at def_while bytes.now) }
    ensures alone { IfOk result IsAlone }
{
    let (width, content, after) = frame(bytes)?;
    Ok(TermStart::FirstAndBlock(FirstAndBlock::While(width), content, after))
}

fn var_package(bytes: &[u8]) -> Result<TermStart<'_>, Cause>
    ensures gives { Gives seen result (plain_at def_var_package bytes.now) }
    ensures alone { IfOk result IsAlone }
{
    let (width, content, after) = frame(bytes)?;
    Ok(TermStart::FirstAndBlock(FirstAndBlock::VarPackage(width), content, after))
}

fn package(language: Language, bytes: &[u8]) -> Result<TermStart<'_>, Cause>
    ensures gives { Gives seen result (package_at language bytes.now) }
    ensures alone { IfOk result IsAlone }
{
    let (width, content, after) = frame(bytes)?;
    let Some((count, inside)) = content.split_first() else {
        return Err(Cause::Truncated);
    };
    if language.is_standard() {
        return Ok(TermStart::Rooms(width, *count, inside, after));
    }
    Ok(TermStart::Package(width, *count, inside, after))
}

fn buffer(bytes: &[u8]) -> Result<TermStart<'_>, Cause>
    ensures gives { Gives seen result (buffer_at bytes.now) }
    ensures alone { IfOk result IsAlone }
{
    let (width, content, after) = frame(bytes)?;
    Ok(TermStart::Buffer(width, content, after))
}

fn operator<'a>(language: Language, code: &[u8], rest: &'a [u8]) -> Result<TermStart<'a>, Cause>
    ensures gives { Gives seen result (operator_at language (op_of code.now) rest.now) }
    ensures alone { IfOk result IsAlone }
{
    match Op::from_code(code) {
        Some(op) if language.has(op.language()) => Ok(TermStart::Operator(op, rest)),
        _ => Err(Cause::Opcode),
    }
}

/// Reads the head of a term after the byte 5B.
fn extended(language: Language, alloc: Global, bytes: &[u8]) -> Result<TermStart<'_>, Cause>
    ensures gives { Gives seen result (extended_at language bytes.now) }
    ensures alone { IfOk result IsAlone }
{
    let Some((byte, rest)) = bytes.split_first() else {
        return Err(Cause::Truncated);
    };
    match *byte {
        0x01 => mutex(language, alloc, rest),
        0x23 => acquire(language, alloc, rest),
        0x27 => release(language, alloc, rest),
        0x32 => fatal(language, rest),
        0x80 => region(language, alloc, rest),
        0x81 => field(language, alloc, rest),
        0x82 => device(language, alloc, rest),
        0x83 => processor(language, alloc, rest),
        0x84 => power_resource(language, alloc, rest),
        0x85 => thermal_zone(language, alloc, rest),
        0x86 => index_field(language, alloc, rest),
        0x87 => bank_field(language, alloc, rest),
        byte => operator(language, &[0x5b, byte], rest),
    }
}

fn local_or_operator(language: Language, byte: u8, rest: &[u8]) -> Result<TermStart<'_>, Cause>
    ensures gives { Gives seen result (local_at language byte rest.now) }
    ensures alone { IfOk result IsAlone }
{
    if byte >= 0x60 && byte <= 0x67 {
        return Ok(TermStart::Leaf(Term::Local(byte - 0x60), rest));
    }
    if byte >= 0x68 && byte <= 0x6e {
        return Ok(TermStart::Leaf(Term::Arg(byte - 0x68), rest));
    }
    operator(language, &[byte], rest)
}

fn opcode(language: Language, alloc: Global, byte: u8, rest: &[u8]) -> Result<TermStart<'_>, Cause>
    ensures gives { Gives seen result (opcode_at language byte rest.now) }
    ensures alone { IfOk result IsAlone }
{
    match byte {
        0x00 | 0x01 => Ok(small_number(byte, rest)),
        0x08 => define(language, alloc, rest),
        0x0a => wide_number(1, rest),
        0x0b => wide_number(2, rest),
        0x0c => wide_number(4, rest),
        0x0d => string(alloc, rest),
        0x0e => wide_number(8, rest),
        0x10 => scope(language, alloc, rest),
        0x11 => buffer(rest),
        0x12 => package(language, rest),
        0x13 => var_package(rest),
        0x14 => method(language, alloc, rest),
        0x15 => external(language, alloc, rest),
        0x5b => extended(language, alloc, rest),
        0xa0 => branch(rest),
        0xa1 => otherwise(rest),
        0xa2 => repetition(rest),
        0xff => Ok(TermStart::Leaf(Term::Ones, rest)),
        _ => local_or_operator(language, byte, rest),
    }
}

// Reads the timeout of an Acquire.
fn timeout(language: Language, bytes: &[u8]) -> Result<TermStart<'_>, Cause>
    ensures gives { Gives seen result (timeout_at language bytes.now) }
    ensures alone { IfOk result IsAlone }
{
    if !language.is_standard() {
        return Err(Cause::Opcode);
    }
    let (milliseconds, rest) = number(2, bytes)?;
    Ok(TermStart::Leaf(Term::Timeout(milliseconds as u16), rest))
}

// Reads the head of a term where neither a test of a Match nor a timeout stands.
#[tactic(auto, unfolding(acpi_term::specs::Reading::head_at))]
fn open_head<'a>(
    language: Language,
    arities: &Arities,
    mode: Mode,
    bytes: &'a [u8],
) -> Result<TermStart<'a>, Cause>
    ensures gives { Gives seen result (head_at (grammar_by language arities.now) mode bytes.now) }
    ensures alone { IfOk result IsAlone }
{
    let alloc = arities.allocator();
    let Some((byte, rest)) = bytes.split_first() else {
        return Err(Cause::Truncated);
    };
    if !begins_name(language, *byte) {
        return opcode(language, alloc, *byte, rest);
    }
    let (name, rest) = name(language, alloc, bytes)?;
    let count = arguments(language, arities, mode, name.as_bytes());
    Ok(TermStart::Call(name, count, rest))
}

#[tactic(auto, unfolding(acpi_term::specs::Reading::open_at))]
fn open_placed<'a>(
    language: Language,
    arities: &Arities,
    mode: Mode,
    bytes: &'a [u8],
) -> Result<TermStart<'a>, Cause>
    ensures gives { Gives seen result (open_at (grammar_by language arities.now) mode bytes.now) }
    ensures alone { IfOk result IsAlone }
{
    if mode.is_test(language) {
        return test(language, bytes);
    }
    if mode.is_timeout(language) {
        return timeout(language, bytes);
    }
    open_head(language, arities, mode, bytes)
}

/// Reads the head of the term at the front. Its children are read from bytes within the given ones.
pub fn open<'a>(
    language: Language,
    arities: &Arities,
    mode: Mode,
    bytes: &'a [u8],
) -> Result<TermStart<'a>, Cause>
    ensures gives { Gives seen result (open_at (grammar_by language arities.now) mode bytes.now) }
    ensures alone { IfOk result IsAlone }
    ensures within { IfOk result (λ opened. LiesWithin (length bytes.now) (seen opened)) }
{
    open_placed(language, arities, mode, bytes)
}
