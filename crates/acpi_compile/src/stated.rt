//! How many arguments the calls of a text have.

use crate::builder::MAX_LISTS;
use crate::fault::AslError;
use crate::name::name;
use crate::node::{Node, list_of};
use crate::word::{is_among, is_keyword, is_name};
use acpi_term::name_string::{Arities, NameString};
use std::alloc::{AllocError, Global};

/// The last segment of a name, as it is written.
pub fn last(word: &[u8]) -> &[u8] {
    let mut rest = word;
    'segments: for part in word.split(|c| *c == b'.' || *c == b'^' || *c == b'\\') {
        rest = part;
    }
    rest
}

// What the statements of a text declare.
#[derive(Drop)]
struct Declared<'a> {
    // The last segments of methods, and of external objects whose type is known.
    segments: Vec<&'a [u8]>,
    // The names of which the block has no object.
    absent: Vec<&'a [u8]>,
}

// Adds what a statement declares. An external object without a type may be a method of any number of arguments.
fn push_own<'a>(node: &Node<'a>, declared: &mut Declared<'a>) -> Result<(), AllocError> {
    match list_of(&node.arguments) {
        [name, ..] if node.is_for_compilers() => declared.absent.push(name.word)?,
        [_, kind, ..] if node.is(b"External") && kind.is(b"UnknownObj") => {}
        [name, ..] if node.is(b"Method") || node.is(b"External") => {
            declared.segments.push(last(name.word))?
        }
        _ => {}
    }
    Ok(())
}

// Adds what statements declare, also within them to a depth.
#[cycle(declared)]
fn push_declared<'a>(
    depth: usize,
    nodes: &[Node<'a>],
    declared: &mut Declared<'a>,
) -> Result<(), AllocError> {
    let Some(depth) = depth.checked_sub(1) else {
        return Ok(());
    };
    'nodes: for node in nodes {
        push_own(node, declared)?;
        push_declared(depth, list_of(&node.body), declared)?;
    }
    Ok(())
}

// Whether a node is a call with arguments of a method that isn't declared.
fn is_stated(declared: &Declared<'_>, node: &Node<'_>) -> bool {
    !list_of(&node.arguments).is_empty()
        && !is_keyword(node.word)
        && (is_among(node.word, &declared.absent) || !is_among(last(node.word), &declared.segments))
}

// Adds the numbers of arguments of calls, also within them to a depth.
#[cycle(called)]
fn add_called(
    alloc: Global,
    depth: usize,
    declared: &Declared<'_>,
    nodes: &[Node<'_>],
    called: &mut Arities,
) -> Result<(), AslError> {
    let Some(depth) = depth.checked_sub(1) else {
        return Ok(());
    };
    'nodes: for node in nodes {
        // The macros of descriptors, such as `IRQ`, may be names elsewhere.
        if node.is(b"ResourceTemplate") || node.is(b"Connection") {
            continue;
        }
        if is_stated(declared, node) {
            let name = name(alloc, node.at, node.word)?;
            let count = list_of(&node.arguments).len();
            called.add(name, count.min(7) as u8)?;
        }
        add_called(alloc, depth, declared, list_of(&node.arguments), called)?;
        add_called(alloc, depth, declared, list_of(&node.body), called)?;
    }
    Ok(())
}

/// The numbers of arguments of the methods that a text calls and doesn't declare.
pub fn stated(alloc: Global, nodes: &[Node<'_>]) -> Result<Arities, AslError> {
    let mut declared = Declared {
        segments: Vec::new(alloc),
        absent: Vec::new(alloc),
    };
    push_declared(MAX_LISTS, nodes, &mut declared)?;
    let mut called = none(alloc)?;
    add_called(alloc, MAX_LISTS, &declared, nodes, &mut called)?;
    Ok(called)
}

// Which argument is the name of the object that a statement makes.
#[derive(Clone, Copy)]
enum Made {
    // The statement makes none.
    Absent,
    First,
    Last,
}

// Statements whose first argument is that name.
const MAKING_FIRST: [&[u8]; 11] = [
    b"DataTableRegion",
    b"Device",
    b"Event",
    b"External",
    b"Method",
    b"Mutex",
    b"Name",
    b"OperationRegion",
    b"PowerResource",
    b"Processor",
    b"ThermalZone",
];

// Statements whose last argument is that name.
const MAKING_LAST: [&[u8]; 7] = [
    b"Alias",
    b"CreateBitField",
    b"CreateByteField",
    b"CreateDWordField",
    b"CreateField",
    b"CreateQWordField",
    b"CreateWordField",
];

fn made_at(word: &[u8]) -> Made {
    if is_among(word, &MAKING_FIRST) {
        return Made::First;
    }
    if is_among(word, &MAKING_LAST) {
        return Made::Last;
    }
    Made::Absent
}

// The name of an object that is made is no use of it. Returns the other arguments of a node.
fn used<'a, 'b>(node: &'b Node<'a>) -> &'b [Node<'a>] {
    match (made_at(node.word), list_of(&node.arguments)) {
        (Made::First, [_, others @ ..]) => others,
        (Made::Last, [others @ .., _]) => others,
        (_, arguments) => arguments,
    }
}

/// The name of the object that a node makes, where it stands.
pub fn node_made<'a, 'b>(node: &'b Node<'a>) -> Option<&'b Node<'a>> {
    match (made_at(node.word), list_of(&node.arguments)) {
        (Made::First, [name, ..]) => Some(name),
        (Made::Last, [.., name]) => Some(name),
        _ => None,
    }
}

/// The name of the object that a node makes.
pub fn name_made<'a>(node: &Node<'a>) -> Option<&'a [u8]> {
    match node_made(node) {
        Some(name) => Some(name.word),
        None => None,
    }
}

// The segment before the last of a name, if it has one.
fn outer_segment(word: &[u8]) -> &[u8] {
    let end = word.len().saturating_sub(last(word).len());
    match word.get(..end) {
        Some([around @ .., b'.']) => last(around),
        _ => &[],
    }
}

// The place of the name by which a node makes an object in a scope with this last segment.
fn made_in(from: usize, segment: &[u8], node: &Node<'_>) -> Option<usize> {
    let name = node_made(node)?;
    if from <= name.at && outer_segment(name.word) == segment {
        Some(name.at)
    } else {
        None
    }
}

/// Whether the braces of a node have the entries of a field, whose names are made there.
pub fn has_entries(node: &Node<'_>) -> bool {
    is_among(node.word, &[b"BankField", b"Field", b"IndexField"])
}

/// The place of the first use, from a place on, of an object with this last segment. An object that is made by a path uses the
/// scope in which it is made. Lists are looked through to a depth.
#[cycle(uses)]
pub fn first_use(depth: usize, from: usize, segment: &[u8], nodes: &[Node<'_>]) -> Option<usize> {
    let depth = depth.checked_sub(1)?;
    'nodes: for node in nodes {
        if let Some(at) = use_in(depth, from, segment, node) {
            return Some(at);
        }
    }
    None
}

// The same in a node.
#[cycle(uses)]
fn use_in(depth: usize, from: usize, segment: &[u8], node: &Node<'_>) -> Option<usize> {
    if from <= node.at && is_name(node.word) && last(node.word) == segment {
        return Some(node.at);
    }
    if let Some(at) = made_in(from, segment, node) {
        return Some(at);
    }
    if let Some(at) = first_use(depth, from, segment, used(node)) {
        return Some(at);
    }
    let body = list_of(&node.body);
    if !has_entries(node) {
        return first_use(depth, from, segment, body);
    }
    'entries: for entry in body {
        if let Some(at) = first_use(depth, from, segment, list_of(&entry.arguments)) {
            return Some(at);
        }
    }
    None
}

// No numbers.
fn none(alloc: Global) -> Result<Arities, AslError> {
    let counts: Vec<(NameString, u8)> = Vec::new(alloc);
    match Arities::new(counts) {
        Ok(arities) => Ok(arities),
        Err(_) => Err(AslError::Memory),
    }
}
