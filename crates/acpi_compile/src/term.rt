//! The terms of a text (ACPI 6.5, 19.2).

use crate::fault::{AslError, Why, fault};
use crate::node::{Node, list_of};
use crate::operand::{Operand, operand_at, test_with};
use crate::sized::{Sized, SizedList, frame_at};
use crate::start::{
    Context, FirstAndList, Start, call_with, operator_with, package_with, region_with, start_of,
};
use acpi_term::name_string::NameString;
use acpi_term::op::Op;
use acpi_term::term::Term;
use std::alloc::Global;

#[cycle(term)]
fn region(
    context: &Context,
    depth: usize,
    name: NameString,
    space: u8,
    offset: &Node<'_>,
    length: &Node<'_>,
) -> Result<Sized, AslError> {
    let offset = term(context, depth, offset)?;
    let length = term(context, depth, length)?;
    region_with(context.alloc, name, space, offset, length)
}

#[cycle(term)]
fn first_and_list(
    context: &Context,
    depth: usize,
    kind: FirstAndList,
    first: &Node<'_>,
    node: &Node<'_>,
) -> Result<Sized, AslError> {
    let first = term(context, depth, first)?;
    let nodes = list_of(&node.body);
    let list = match kind {
        FirstAndList::VarPackage => terms(context, depth, nodes)?,
        FirstAndList::If | FirstAndList::While => statements(context, depth, nodes)?,
    };
    kind.with(context.alloc, node, first, list)
}

// The operands of an operator.
#[cycle(term)]
fn operands(
    context: &Context,
    depth: usize,
    op: Op,
    node: &Node<'_>,
) -> Result<SizedList, AslError> {
    let alloc = context.alloc;
    let mut list = SizedList::new(alloc);
    'operands: for i in 0..usize::from(op.operands()) {
        let sized = match operand_at(op, node, i)? {
            Operand::Whole(sized) => sized,
            Operand::Term(node) => term(context, depth, node)?,
            Operand::Test(code, node) => test_with(alloc, code, term(context, depth, node)?)?,
        };
        list.add(sized)?;
    }
    Ok(list)
}

// The term of a node with this start.
#[cycle(term)]
fn finish(
    context: &Context,
    depth: usize,
    start: Start<'_, '_>,
    node: &Node<'_>,
) -> Result<Sized, AslError> {
    match start {
        Start::Whole(sized) => Ok(sized),
        Start::Block(block) => block.with(node, statements(context, depth, list_of(&node.body))?),
        Start::Single(single, inner) => {
            single.with(context.alloc, node, term(context, depth, inner)?)
        }
        Start::Region(name, space, offset, length) => {
            region(context, depth, name, space, offset, length)
        }
        Start::FirstAndList(kind, first) => first_and_list(context, depth, kind, first, node),
        Start::Package(room) => {
            package_with(node, room, terms(context, depth, list_of(&node.body))?)
        }
        Start::Operator(op) => Ok(operator_with(op, operands(context, depth, op, node)?)),
        Start::Call(name) => {
            let args = terms(context, depth, list_of(&node.arguments))?;
            Ok(call_with(name, args))
        }
    }
}

/// The term of a node.
#[cycle(term)]
fn term(context: &Context, depth: usize, node: &Node<'_>) -> Result<Sized, AslError> {
    let Some(depth) = depth.checked_sub(1) else {
        return Err(fault(node.at, Why::TooDeep));
    };
    let start = start_of(context, node)?;
    finish(context, depth, start, node)
}

#[cycle(term)]
fn terms(context: &Context, depth: usize, nodes: &[Node<'_>]) -> Result<SizedList, AslError> {
    let mut list = SizedList::new(context.alloc);
    'nodes: for node in nodes {
        list.add(term(context, depth, node)?)?;
    }
    Ok(list)
}

// ---- statements

// External statements of one block, and the width of its PkgLength if it is stated at a place.
#[derive(Drop)]
struct Externals {
    list: SizedList,
    at: usize,
    length: Option<u8>,
}

impl Externals {
    // A block without statements.
    fn new(alloc: Global) -> Externals {
        Externals {
            list: SizedList::new(alloc),
            at: 0,
            length: None,
        }
    }

    // A block that begins with the statement of this node.
    fn at(alloc: Global, node: &Node<'_>) -> Externals {
        Externals {
            list: SizedList::new(alloc),
            at: node.start(),
            length: node.length(),
        }
    }
}

// Adds the block in which a compiler has External statements, if there are any: `If (Zero)` (ACPI 6.5, 19.6.45).
fn flush(alloc: Global, block: Externals, list: &mut SizedList) -> Result<(), AslError> {
    let externals = block.list;
    if externals.terms.is_empty() {
        return Ok(());
    }
    let (width, size) = frame_at(block.at, block.length, 1, externals.size.saturating_add(1))?;
    let zero = Term::Number { value: 0, width: 0 };
    list.add(Sized {
        term: Term::If {
            width,
            predicate: Box::new(alloc, zero)?,
            body: externals.terms,
        },
        size,
    })
}

/// The terms of statements.
#[cycle(term)]
pub fn statements(
    context: &Context,
    depth: usize,
    nodes: &[Node<'_>],
) -> Result<SizedList, AslError> {
    let alloc = context.alloc;
    let mut list = SizedList::new(alloc);
    let mut externals = Externals::new(alloc);
    'nodes: for node in nodes {
        if node.is_for_compilers() {
            continue;
        }
        let sized = term(context, depth, node)?;
        let in_block = node.is(b"External") && !node.stands_alone();
        if !in_block {
            let block = std::mem::replace(&mut externals, Externals::new(alloc));
            flush(alloc, block, &mut list)?;
            list.add(sized)?;
            continue;
        }
        // The notes on a block stand before its first statement.
        if node.length().is_some() || node.begins_block() {
            let block = std::mem::replace(&mut externals, Externals::at(alloc, node));
            flush(alloc, block, &mut list)?;
        }
        externals.list.add(sized)?;
    }
    flush(alloc, externals, &mut list)?;
    Ok(list)
}
