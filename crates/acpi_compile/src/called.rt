//! Calls with another number of arguments than their methods take.

use crate::builder::MAX_LISTS;
use crate::fault::{AslError, AslFault, Why, fault};
use crate::name::name;
use crate::node::{Node, list_of};
use crate::number::decimal;
use crate::stated::{has_entries, last, name_made};
use crate::word::{is_among, is_name};
use acpi_term::name_string::{Arities, without_parents};
use std::alloc::{AllocError, Global};

// ---- how many arguments the objects of a text take

// How many arguments the object takes that a statement makes, if the statement says it.
fn count_of(node: &Node<'_>) -> Option<usize> {
    match list_of(&node.arguments) {
        _ if node.is(b"Alias") => None,
        [_, kind, ..] if node.is(b"External") && kind.is(b"UnknownObj") => None,
        [_, _, _, types] if node.is(b"External") => Some(list_of(&types.body).len()),
        [_, count, ..] if node.is(b"Method") => match decimal(count.word) {
            Some(count) => Some(count as usize),
            None => None,
        },
        _ => Some(0),
    }
}

// The last segment of an object's name, and how many arguments it takes, if that is known.
type Counted<'a> = (&'a [u8], Option<usize>);

// Adds the fields among entries.
fn push_fields<'a>(entries: &[Node<'a>], counted: &mut Vec<Counted<'a>>) -> Result<(), AllocError> {
    'entries: for entry in entries {
        if is_name(entry.word) {
            counted.push((entry.word, Some(0)))?;
        }
    }
    Ok(())
}

// Adds the objects that statements make, also within them to a depth.
#[cycle(counted)]
fn push_counted<'a>(
    depth: usize,
    nodes: &[Node<'a>],
    counted: &mut Vec<Counted<'a>>,
) -> Result<(), AllocError> {
    let Some(depth) = depth.checked_sub(1) else {
        return Ok(());
    };
    'nodes: for node in nodes {
        if let Some(name) = name_made(node) {
            counted.push((last(name), count_of(node)))?;
        }
        if has_entries(node) {
            push_fields(list_of(&node.body), counted)?;
        } else {
            push_counted(depth, list_of(&node.body), counted)?;
        }
    }
    Ok(())
}

// How many arguments the objects take whose names have this last segment, if there are any, and all take as many.
fn count_in(segment: &[u8], counted: &[Counted<'_>]) -> Option<usize> {
    let mut found = None;
    'objects: for (other, count) in counted {
        if *other != segment {
            continue;
        }
        match (found, *count) {
            (None, Some(count)) => found = Some(count),
            (Some(first), Some(count)) if first == count => {}
            _ => return None,
        }
    }
    found
}

// ---- calls

// Where a call is looked for that is wrong.
#[derive(Drop)]
struct Search<'a, 'b> {
    alloc: Global,
    // The numbers that the text states by its calls.
    called: &'b Arities,
    counted: Vec<Counted<'a>>,
    // The place at or before which the statement of the call begins, and that before which the call does.
    statement: usize,
    call: usize,
}

// Where nodes stand.
#[derive(Clone, Copy)]
struct Spot {
    // The place of the statement around them, unless they are statements.
    statement: Option<usize>,
    // Whether a name is a call.
    calls: bool,
}

// Terms with names among their arguments that may be those of methods that aren't called, or keywords.
const NAMING: [&[u8]; 11] = [
    b"Alias",
    b"CondRefOf",
    b"CopyObject",
    b"Event",
    b"External",
    b"Load",
    b"Match",
    b"Method",
    b"ObjectType",
    b"OperationRegion",
    b"RefOf",
];

impl Search<'_, '_> {
    // The number that the calls of a name state.
    fn stated(&self, node: &Node<'_>) -> Result<Option<usize>, AslError> {
        let name = match name(self.alloc, node.at, node.word) {
            Ok(name) => name,
            Err(AslError::Memory) => return Err(AslError::Memory),
            Err(_) => return Ok(None),
        };
        let bytes = name.as_bytes();
        if self.called.states(bytes) || self.called.states(without_parents(bytes)) {
            Ok(Some(usize::from(self.called.count_above(bytes))))
        } else {
            Ok(None)
        }
    }

    // Refuses a call with another number of arguments.
    fn check(&self, node: &Node<'_>) -> Result<(), AslError> {
        if !is_name(node.word) || node.at >= self.call {
            return Ok(());
        }
        let takes = match self.stated(node)? {
            Some(count) => Some(count),
            None => count_in(last(node.word), &self.counted),
        };
        let found = list_of(&node.arguments).len();
        match takes {
            Some(takes) if takes != found => Err(fault(node.at, Why::Takes(takes, found))),
            _ => Ok(()),
        }
    }
}

// Refuses such a call in nodes, to a depth.
#[cycle(calls)]
fn check_all(
    search: &Search<'_, '_>,
    depth: usize,
    spot: Spot,
    nodes: &[Node<'_>],
) -> Result<(), AslError> {
    let Some(depth) = depth.checked_sub(1) else {
        return Ok(());
    };
    'nodes: for node in nodes {
        check_in(search, depth, spot, node)?;
    }
    Ok(())
}

// The same in a node.
#[cycle(calls)]
fn check_in(
    search: &Search<'_, '_>,
    depth: usize,
    spot: Spot,
    node: &Node<'_>,
) -> Result<(), AslError> {
    let statement = spot.statement.unwrap_or(node.start());
    // The macros of descriptors, such as `IRQ`, may be names elsewhere.
    if statement > search.statement || node.is(b"ResourceTemplate") {
        return Ok(());
    }
    if spot.calls {
        search.check(node)?;
    }
    let arguments = Spot {
        statement: Some(statement),
        calls: !is_among(node.word, &NAMING),
    };
    check_all(search, depth, arguments, list_of(&node.arguments))?;
    if has_entries(node) {
        return Ok(());
    }
    let body = if node.is(b"Package") {
        Spot {
            statement: Some(statement),
            calls: false,
        }
    } else {
        Spot {
            statement: None,
            calls: true,
        }
    };
    check_all(search, depth, body, list_of(&node.body))
}

// Refuses a call with another number of arguments, in a statement up to a place, and before another place.
fn check_calls(
    alloc: Global,
    called: &Arities,
    statement: usize,
    call: usize,
    nodes: &[Node<'_>],
) -> Result<(), AslError> {
    let mut counted = Vec::new(alloc);
    // The operating system has this method (ACPI 6.5, 5.7.2).
    counted.push((b"_OSI".as_slice(), Some(1)))?;
    push_counted(MAX_LISTS, nodes, &mut counted)?;
    let search = Search {
        alloc,
        called,
        counted,
        statement,
        call,
    };
    let spot = Spot {
        statement: None,
        calls: true,
    };
    check_all(&search, MAX_LISTS, spot, nodes)
}

/// The fault of a text whose block has another ASL, or that of a call before with another number of arguments. From such a call
/// on, and from the beginning of its statement on, the ASL may be another.
pub fn fault_or_call(
    alloc: Global,
    called: &Arities,
    error: AslError,
    nodes: &[Node<'_>],
) -> AslError {
    let (statement, call) = match &error {
        AslError::Memory => return AslError::Memory,
        AslError::Fault(
            AslFault {
                at,
                why: Why::Undeclared(_),
            },
        ) => (*at, *at),
        AslError::Fault(AslFault { at, .. }) => (*at, usize::MAX),
    };
    match check_calls(alloc, called, statement, call, nodes) {
        Ok(()) => error,
        Err(fault) => fault,
    }
}
