//! The starts of terms: what their words, names and numbers say without the terms inside (ACPI 6.5, 19.2).

use crate::argument::{below, byte_at, dword_at, keyword_at, name_at, word_at, wrong};
use crate::constant::{
    alone, buffer, bytes_of, constant, eisa, number_term, template_term, text_term, uuid,
};
use crate::declaration::{Rules, acquire, external, field, index_field, mutex, release, rules_at};
use crate::entry::{Entries, read_entries};
use crate::fault::{AslError, Why, fault};
use crate::name::name;
use crate::node::{Node, list_of};
use crate::operand::check_operands;
use crate::sized::{Sized, SizedList, frame, plus};
use crate::word::{byte_of, is_keyword, is_name, operator, operators};
use acpi_asl::word::Keyword;
use acpi_term::name_string::NameString;
use acpi_term::op::Op;
use acpi_term::term::{FieldNames, Term};
use std::alloc::Global;

/// What the terms of a text are made with.
#[derive(Drop)]
pub struct Context {
    pub alloc: Global,
    operators: Vec<Op>,
}

impl Context {
    /// All operators are looked for.
    pub fn new(alloc: Global) -> Result<Context, AslError> {
        let operators = operators(alloc)?;
        Ok(Context { alloc, operators })
    }
}

/// A term whose list has statements, without them.
#[derive(Drop)]
pub enum Block {
    Scope(NameString),
    Device(NameString),
    ThermalZone(NameString),
    /// Name, number of arguments, whether serialized.
    Method(NameString, u8, bool),
    /// Name, number of arguments, whether serialized, synchronization level.
    LeveledMethod(NameString, u8, bool, u8),
    /// Name, id, address and length of its registers.
    Processor(NameString, u8, u32, u8),
    /// Name, system level and resource order.
    PowerResource(NameString, u8, u16),
    Else,
}

/// A term with one term inside, without it.
#[derive(Drop)]
pub enum Single {
    Name(NameString),
    /// Type and code.
    Fatal(u8, u32),
    /// The bytes after the size.
    Buffer(Vec<u8>),
    BankField(FieldNames, Rules, Entries),
}

/// A term with one term inside before those of its list, without any of them.
#[derive(Clone, Copy)]
pub enum FirstAndList {
    If,
    While,
    VarPackage,
}

/// A term without the terms inside, and the nodes of those that are arguments.
#[derive(Drop)]
pub enum Start<'a, 'b> {
    /// A term with no terms inside.
    Whole(Sized),
    Block(Block),
    Single(Single, &'b Node<'a>),
    /// A region's name and space, its offset and its length.
    Region(NameString, u8, &'b Node<'a>, &'b Node<'a>),
    FirstAndList(FirstAndList, &'b Node<'a>),
    /// The number of elements for which a package has room.
    Package(u8),
    /// Its operands are arguments.
    Operator(Op),
    /// Its arguments are terms.
    Call(NameString),
}

// ---- terms with statements

fn is_serialized(node: &Node<'_>) -> Result<bool, AslError> {
    if node.is_alone() && node.is(b"Serialized") {
        return Ok(true);
    }
    if node.is_alone() && node.is(b"NotSerialized") {
        return Ok(false);
    }
    Err(fault(node.at, Why::Keyword))
}

// The name of a term that has no other arguments.
fn only_name(alloc: Global, node: &Node<'_>) -> Result<NameString, AslError> {
    let [name] = list_of(&node.arguments) else {
        return Err(wrong(node));
    };
    name_at(alloc, name)
}

fn scope(alloc: Global, node: &Node<'_>) -> Result<Block, AslError> {
    Ok(Block::Scope(only_name(alloc, node)?))
}

fn device(alloc: Global, node: &Node<'_>) -> Result<Block, AslError> {
    Ok(Block::Device(only_name(alloc, node)?))
}

fn thermal_zone(alloc: Global, node: &Node<'_>) -> Result<Block, AslError> {
    Ok(Block::ThermalZone(only_name(alloc, node)?))
}

fn method(alloc: Global, node: &Node<'_>) -> Result<Block, AslError> {
    let (name, args, serialized, level) = match list_of(&node.arguments) {
        [name, args, serialized] => (name, args, serialized, None),
        [name, args, serialized, level] => (name, args, serialized, Some(level)),
        _ => return Err(wrong(node)),
    };
    let args = below(args, 8)?;
    let serialized = is_serialized(serialized)?;
    let name = name_at(alloc, name)?;
    match level {
        None => Ok(Block::Method(name, args, serialized)),
        Some(level) => {
            let level = below(level, 16)?;
            Ok(Block::LeveledMethod(name, args, serialized, level))
        }
    }
}

fn processor(alloc: Global, node: &Node<'_>) -> Result<Block, AslError> {
    let [name, id, address, length] = list_of(&node.arguments) else {
        return Err(wrong(node));
    };
    let id = byte_at(id)?;
    let address = dword_at(address)?;
    let length = byte_at(length)?;
    Ok(Block::Processor(name_at(alloc, name)?, id, address, length))
}

fn power_resource(alloc: Global, node: &Node<'_>) -> Result<Block, AslError> {
    let [name, level, order] = list_of(&node.arguments) else {
        return Err(wrong(node));
    };
    let level = byte_at(level)?;
    let order = word_at(order)?;
    Ok(Block::PowerResource(name_at(alloc, name)?, level, order))
}

fn otherwise(node: &Node<'_>) -> Result<Block, AslError> {
    if node.arguments.is_some() {
        return Err(wrong(node));
    }
    Ok(Block::Else)
}

impl Block {
    // How many bytes the opcode has, and how many stand between the length and the statements.
    fn own(&self) -> (usize, usize) {
        match self {
            Block::Scope(name) => (1, plus(name, 0)),
            Block::Device(name) | Block::ThermalZone(name) => (2, plus(name, 0)),
            Block::Method(name, ..) | Block::LeveledMethod(name, ..) => (1, plus(name, 1)),
            Block::Processor(name, ..) => (2, plus(name, 6)),
            Block::PowerResource(name, ..) => (2, plus(name, 3)),
            Block::Else => (1, 0),
        }
    }

    // The term with a length of this width.
    fn framed(self, width: u8, body: Vec<Term>) -> Term {
        match self {
            Block::Scope(name) => Term::Scope { width, name, body },
            Block::Device(name) => Term::Device { width, name, body },
            Block::ThermalZone(name) => Term::ThermalZone { width, name, body },
            Block::Method(name, args, serialized) => Term::Method {
                width,
                args,
                serialized,
                name,
                body,
            },
            Block::LeveledMethod(name, args, serialized, level) => Term::LeveledMethod {
                width,
                args,
                serialized,
                level,
                name,
                body,
            },
            Block::Processor(name, id, address, size) => Term::Processor {
                width,
                id,
                size,
                address,
                name,
                body,
            },
            Block::PowerResource(name, level, order) => Term::PowerResource {
                width,
                level,
                order,
                name,
                body,
            },
            Block::Else => Term::Else { width, body },
        }
    }

    /// The term of a node with these statements.
    pub fn with(self, node: &Node<'_>, body: SizedList) -> Result<Sized, AslError> {
        let (code, before) = self.own();
        let (width, size) = frame(node, code, body.size.saturating_add(before))?;
        let term = self.framed(width, body.terms);
        Ok(Sized { term, size })
    }
}

// ---- terms with one term inside

fn bank_field<'a, 'b>(alloc: Global, node: &'b Node<'a>) -> Result<Start<'a, 'b>, AslError> {
    let [name, bank, value, access, lock, update] = list_of(&node.arguments) else {
        return Err(wrong(node));
    };
    let rules = rules_at(access, lock, update)?;
    let name = name_at(alloc, name)?;
    let selector = name_at(alloc, bank)?;
    let names = FieldNames { name, selector };
    let entries = read_entries(alloc, list_of(&node.body))?;
    Ok(Start::Single(Single::BankField(names, rules, entries), value))
}

fn named<'a, 'b>(alloc: Global, node: &'b Node<'a>) -> Result<Start<'a, 'b>, AslError> {
    let [name, value] = list_of(&node.arguments) else {
        return Err(wrong(node));
    };
    Ok(Start::Single(Single::Name(name_at(alloc, name)?), value))
}

fn fatal<'a, 'b>(node: &'b Node<'a>) -> Result<Start<'a, 'b>, AslError> {
    let [kind, code, argument] = list_of(&node.arguments) else {
        return Err(wrong(node));
    };
    let kind = byte_at(kind)?;
    let code = dword_at(code)?;
    Ok(Start::Single(Single::Fatal(kind, code), argument))
}

fn sized_buffer<'a, 'b>(alloc: Global, node: &'b Node<'a>) -> Result<Start<'a, 'b>, AslError> {
    let [size] = list_of(&node.arguments) else {
        return Err(wrong(node));
    };
    let bytes = bytes_of(alloc, list_of(&node.body))?;
    Ok(Start::Single(Single::Buffer(bytes), size))
}

fn banked(
    alloc: Global,
    node: &Node<'_>,
    names: FieldNames,
    rules: Rules,
    entries: Entries,
    value: Sized,
) -> Result<Sized, AslError> {
    let named = plus(&names.name, plus(&names.selector, 1));
    let content = named
        .saturating_add(value.size)
        .saturating_add(entries.size);
    let (width, size) = frame(node, 2, content)?;
    let term = Term::BankField {
        width,
        access: rules.access,
        lock: rules.lock,
        update: rules.update,
        names: Box::new(alloc, names)?,
        value: Box::new(alloc, value.term)?,
        entries: entries.entries,
    };
    Ok(Sized { term, size })
}

impl Single {
    /// The term of a node with this term inside.
    pub fn with(self, alloc: Global, node: &Node<'_>, inner: Sized) -> Result<Sized, AslError> {
        match self {
            Single::Name(name) => {
                let size = plus(&name, 1).saturating_add(inner.size);
                let value = Box::new(alloc, inner.term)?;
                let term = Term::Name { name, value };
                Ok(Sized { term, size })
            }
            Single::Fatal(kind, code) => {
                let size = inner.size.saturating_add(7);
                let argument = Box::new(alloc, inner.term)?;
                let term = Term::Fatal {
                    kind,
                    code,
                    argument,
                };
                Ok(Sized { term, size })
            }
            Single::Buffer(bytes) => buffer(node, inner, bytes),
            Single::BankField(names, rules, entries) => {
                banked(alloc, node, names, rules, entries, inner)
            }
        }
    }
}

// ---- other terms with terms inside

fn region<'a, 'b>(alloc: Global, node: &'b Node<'a>) -> Result<Start<'a, 'b>, AslError> {
    let [name, space, offset, length] = list_of(&node.arguments) else {
        return Err(wrong(node));
    };
    let space = keyword_at(Keyword::RegionSpace, space)?;
    Ok(Start::Region(name_at(alloc, name)?, space, offset, length))
}

/// The term of a region with its offset and its length (ACPI 6.5, 19.6.100).
pub fn region_with(
    alloc: Global,
    name: NameString,
    space: u8,
    offset: Sized,
    length: Sized,
) -> Result<Sized, AslError> {
    let size = plus(&name, 3)
        .saturating_add(offset.size)
        .saturating_add(length.size);
    let offset = Box::new(alloc, offset.term)?;
    let length = Box::new(alloc, length.term)?;
    let term = Term::OpRegion {
        name,
        space,
        offset,
        length,
    };
    Ok(Sized { term, size })
}

fn first_and_list<'a, 'b>(
    kind: FirstAndList,
    node: &'b Node<'a>,
) -> Result<Start<'a, 'b>, AslError> {
    let [first] = list_of(&node.arguments) else {
        return Err(wrong(node));
    };
    Ok(Start::FirstAndList(kind, first))
}

fn package<'a, 'b>(node: &'b Node<'a>) -> Result<Start<'a, 'b>, AslError> {
    let [count] = list_of(&node.arguments) else {
        return Err(wrong(node));
    };
    match byte_of(count) {
        Some(room) if !node.is_var_package() => Ok(Start::Package(room)),
        _ => Ok(Start::FirstAndList(FirstAndList::VarPackage, count)),
    }
}

impl FirstAndList {
    /// The term of a node with this first term and this list.
    pub fn with(
        self,
        alloc: Global,
        node: &Node<'_>,
        first: Sized,
        list: SizedList,
    ) -> Result<Sized, AslError> {
        let (width, size) = frame(node, 1, first.size.saturating_add(list.size))?;
        let first = Box::new(alloc, first.term)?;
        let list = list.terms;
        let term = match self {
            FirstAndList::If => Term::If {
                width,
                predicate: first,
                body: list,
            },
            FirstAndList::While => Term::While {
                width,
                predicate: first,
                body: list,
            },
            FirstAndList::VarPackage => Term::VarPackage {
                width,
                count: first,
                elements: list,
            },
        };
        Ok(Sized { term, size })
    }
}

/// The term of a package with room for this many elements (ACPI 6.5, 19.6.101).
pub fn package_with(node: &Node<'_>, room: u8, elements: SizedList) -> Result<Sized, AslError> {
    let (width, size) = frame(node, 1, elements.size.saturating_add(1))?;
    let count = elements.terms.len();
    let elements = elements.terms;
    if count == usize::from(room) {
        let term = Term::Package { width, elements };
        return Ok(Sized { term, size });
    }
    if count > usize::from(room) {
        return Err(fault(node.at, Why::Elements));
    }
    let term = Term::RoomyPackage {
        width,
        room,
        elements,
    };
    Ok(Sized { term, size })
}

// ---- operators and calls

fn operator_start<'a, 'b>(op: Op, node: &'b Node<'a>) -> Result<Start<'a, 'b>, AslError> {
    check_operands(op, node)?;
    Ok(Start::Operator(op))
}

/// The term of an operator with its operands and targets.
pub fn operator_with(op: Op, operands: SizedList) -> Sized {
    let size = operands.size.saturating_add(op.code().len());
    let operands = operands.terms;
    Sized {
        term: Term::Op { op, operands },
        size,
    }
}

// Whether the first argument is a name.
fn names_first(node: &Node<'_>) -> bool {
    match list_of(&node.arguments) {
        [first, ..] => is_name(first.word),
        [] => false,
    }
}

// An Acquire of a name, or of another object.
fn acquire_start<'a, 'b>(alloc: Global, node: &'b Node<'a>) -> Result<Start<'a, 'b>, AslError> {
    if names_first(node) {
        return Ok(Start::Whole(acquire(alloc, node)?));
    }
    operator_start(Op::Acquire, node)
}

// A Release of a name, or of another object.
fn release_start<'a, 'b>(alloc: Global, node: &'b Node<'a>) -> Result<Start<'a, 'b>, AslError> {
    if names_first(node) {
        return Ok(Start::Whole(release(alloc, node)?));
    }
    operator_start(Op::Release, node)
}

fn call<'a, 'b>(alloc: Global, node: &'b Node<'a>) -> Result<Start<'a, 'b>, AslError> {
    if node.body.is_some() {
        return Err(wrong(node));
    }
    Ok(Start::Call(name(alloc, node.at, node.word)?))
}

/// The term of a call with its arguments.
pub fn call_with(name: NameString, args: SizedList) -> Sized {
    let size = plus(&name, args.size);
    let args = args.terms;
    Sized {
        term: Term::Call { name, args },
        size,
    }
}

// ---- all of them

// A term whose word begins a list of statements.
#[derive(Clone, Copy)]
enum BlockKind {
    Scope,
    Device,
    ThermalZone,
    Method,
    Processor,
    PowerResource,
    Else,
}

// A term with no terms inside.
#[derive(Clone, Copy)]
enum WholeKind {
    Field,
    IndexField,
    External,
    Mutex,
    Template,
    Uuid,
    EisaId,
}

// A term that begins with a word of its own and is no operator.
#[derive(Clone, Copy)]
enum Kind {
    Block(BlockKind),
    Whole(WholeKind),
    FirstAndList(FirstAndList),
    Name,
    Region,
    BankField,
    Acquire,
    Release,
    Fatal,
    Package,
    Buffer,
}

const KINDS: [(&str, Kind); 24] = [
    ("Scope", Kind::Block(BlockKind::Scope)),
    ("Device", Kind::Block(BlockKind::Device)),
    ("ThermalZone", Kind::Block(BlockKind::ThermalZone)),
    ("Method", Kind::Block(BlockKind::Method)),
    ("Processor", Kind::Block(BlockKind::Processor)),
    ("PowerResource", Kind::Block(BlockKind::PowerResource)),
    ("Else", Kind::Block(BlockKind::Else)),
    ("If", Kind::FirstAndList(FirstAndList::If)),
    ("While", Kind::FirstAndList(FirstAndList::While)),
    ("Name", Kind::Name),
    ("OperationRegion", Kind::Region),
    ("Field", Kind::Whole(WholeKind::Field)),
    ("IndexField", Kind::Whole(WholeKind::IndexField)),
    ("BankField", Kind::BankField),
    ("External", Kind::Whole(WholeKind::External)),
    ("Mutex", Kind::Whole(WholeKind::Mutex)),
    ("Acquire", Kind::Acquire),
    ("Release", Kind::Release),
    ("Fatal", Kind::Fatal),
    ("Package", Kind::Package),
    ("Buffer", Kind::Buffer),
    ("ResourceTemplate", Kind::Whole(WholeKind::Template)),
    ("ToUUID", Kind::Whole(WholeKind::Uuid)),
    ("EisaId", Kind::Whole(WholeKind::EisaId)),
];

fn kind_of(word: &[u8]) -> Option<Kind> {
    'kinds: for (known, kind) in &KINDS {
        if known.as_bytes() == word {
            return Some(*kind);
        }
    }
    None
}

fn block_of(alloc: Global, kind: BlockKind, node: &Node<'_>) -> Result<Block, AslError> {
    match kind {
        BlockKind::Scope => scope(alloc, node),
        BlockKind::Device => device(alloc, node),
        BlockKind::ThermalZone => thermal_zone(alloc, node),
        BlockKind::Method => method(alloc, node),
        BlockKind::Processor => processor(alloc, node),
        BlockKind::PowerResource => power_resource(alloc, node),
        BlockKind::Else => otherwise(node),
    }
}

fn block_start<'a, 'b>(
    alloc: Global,
    kind: BlockKind,
    node: &'b Node<'a>,
) -> Result<Start<'a, 'b>, AslError> {
    Ok(Start::Block(block_of(alloc, kind, node)?))
}

fn whole_of(alloc: Global, kind: WholeKind, node: &Node<'_>) -> Result<Sized, AslError> {
    match kind {
        WholeKind::Field => field(alloc, node),
        WholeKind::IndexField => index_field(alloc, node),
        WholeKind::External => external(alloc, node),
        WholeKind::Mutex => mutex(alloc, node),
        WholeKind::Template => template_term(alloc, node),
        WholeKind::Uuid => uuid(alloc, node),
        WholeKind::EisaId => eisa(alloc, node),
    }
}

fn whole_start<'a, 'b>(
    alloc: Global,
    kind: WholeKind,
    node: &'b Node<'a>,
) -> Result<Start<'a, 'b>, AslError> {
    Ok(Start::Whole(whole_of(alloc, kind, node)?))
}

fn start_by<'a, 'b>(
    alloc: Global,
    kind: Kind,
    node: &'b Node<'a>,
) -> Result<Start<'a, 'b>, AslError> {
    match kind {
        Kind::Block(kind) => block_start(alloc, kind, node),
        Kind::Whole(kind) => whole_start(alloc, kind, node),
        Kind::FirstAndList(kind) => first_and_list(kind, node),
        Kind::Name => named(alloc, node),
        Kind::Region => region(alloc, node),
        Kind::BankField => bank_field(alloc, node),
        Kind::Acquire => acquire_start(alloc, node),
        Kind::Release => release_start(alloc, node),
        Kind::Fatal => fatal(node),
        Kind::Package => package(node),
        Kind::Buffer => sized_buffer(alloc, node),
    }
}

fn keyword_start<'a, 'b>(context: &Context, node: &'b Node<'a>) -> Result<Start<'a, 'b>, AslError> {
    if let Some(kind) = kind_of(node.word) {
        return start_by(context.alloc, kind, node);
    }
    match operator(&context.operators, node.word) {
        Some(op) => operator_start(op, node),
        None => Err(fault(node.at, Why::Word)),
    }
}

// A string, a number, or a constant, a local object or an argument.
fn simple(alloc: Global, node: &Node<'_>) -> Result<Option<Sized>, AslError> {
    if let Some(term) = constant(node) {
        return Ok(Some(alone(node, term)?));
    }
    match node.word.first() {
        Some(b'"') => Ok(Some(text_term(alloc, node)?)),
        Some(b'0'..=b'9') => Ok(Some(number_term(node)?)),
        _ => Ok(None),
    }
}

/// The start of the term of a node.
pub fn start_of<'a, 'b>(context: &Context, node: &'b Node<'a>) -> Result<Start<'a, 'b>, AslError> {
    if !node.has_known_note() {
        return Err(fault(node.note_at(), Why::Note));
    }
    if node.is_absent() {
        return Err(fault(node.at, Why::Unexpected));
    }
    if node.word.is_empty() {
        return Err(wrong(node));
    }
    if let Some(sized) = simple(context.alloc, node)? {
        return Ok(Start::Whole(sized));
    }
    if is_keyword(node.word) {
        return keyword_start(context, node);
    }
    call(context.alloc, node)
}
