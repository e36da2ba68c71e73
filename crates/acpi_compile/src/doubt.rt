//! What compilers refuse in a text although it is the ASL of a block. Such a text probably has a mistake.

use crate::builder::MAX_LISTS;
use crate::fault::{AslFault, Why};
use crate::node::{Node, list_of};
use crate::number::{decimal, hex};
use crate::stated::{has_entries, last, node_made};
use crate::word::{argument_of, byte_of, is_among, is_name, local_of, operator, operators};
use acpi_asl::place::targets;
use acpi_base::slice::from_offset;
use acpi_term::op::Op;
use std::alloc::{AllocError, Global};
use std::collections::BTreeMap;

// The greatest sync level of a mutex (ACPI 6.5, 19.6.88).
const MAX_LEVEL: u8 = 15;

// What stands around a node.
#[derive(Clone, Copy)]
struct Surroundings<'a> {
    // The path of the scope, without the backslash. Its segments have four characters.
    scope: &'a [u8],
    // Whether a While of the same method is around it.
    is_in_loop: bool,
    // Whether an If, an Else or a While is around it, so that it may not run.
    is_conditional: bool,
    // How many arguments the method has. There are none outside of methods.
    arguments: usize,
}

// ---- paths

// The path of a scope's outer scope.
fn outer(scope: &[u8]) -> &[u8] {
    let mut end = 0;
    'characters: for (i, c) in scope.iter().enumerate() {
        if *c == b'.' {
            end = i;
        }
    }
    scope.get(..end).unwrap_or(&[])
}

// Adds a segment to a path. Its last underscores may be left out (ACPI 6.5, 19.2.2).
fn push_segment(segment: &[u8], path: &mut Vec<u8>) -> Result<(), AllocError> {
    if !path.is_empty() {
        path.push(b'.')?;
    }
    path.extend_from_slice(segment)?;
    'underscores: for _ in segment.len()..4 {
        path.push(b'_')?;
    }
    Ok(())
}

// The path of a name in a scope (ACPI 6.5, 5.3).
fn path_of(alloc: Global, scope: &[u8], name: &[u8]) -> Result<Vec<u8>, AllocError> {
    let (mut around, mut rest) = (scope, name);
    if name.starts_with(b"\\") {
        (around, rest) = (&[], from_offset(1, name));
    }
    'parents: for c in name {
        if *c != b'^' {
            break;
        }
        around = outer(around);
        rest = from_offset(1, rest);
    }
    let mut path = Vec::from_slice(alloc, around)?;
    'segments: for segment in rest.split(|c| *c == b'.') {
        if !segment.is_empty() {
            push_segment(segment, &mut path)?;
        }
    }
    Ok(path)
}

// Whether a name has more `^` than the scope has segments.
fn is_above_root(scope: &[u8], name: &[u8]) -> bool {
    let mut around = scope;
    'parents: for c in name {
        if *c != b'^' {
            break;
        }
        if around.is_empty() {
            return true;
        }
        around = outer(around);
    }
    false
}

// ---- what nodes are

// Statements that are the scopes of those in their braces.
const SCOPES: [&[u8]; 6] = [
    b"Device",
    b"Method",
    b"PowerResource",
    b"Processor",
    b"Scope",
    b"ThermalZone",
];

// Statements of which those in their braces may not run.
const CONDITIONAL: [&[u8]; 3] = [b"Else", b"If", b"While"];

// The name of the object that a statement makes. An External makes none.
fn object_made<'a, 'b>(node: &'b Node<'a>) -> Option<&'b Node<'a>> {
    if node.is(b"External") {
        return None;
    }
    node_made(node)
}

// How many arguments a Method has.
fn argument_count(node: &Node<'_>) -> usize {
    match list_of(&node.arguments) {
        [_, count, ..] => decimal(count.word).unwrap_or(0) as usize,
        _ => 0,
    }
}

// Operators whose first operand is the name of an object, a local object, or another reference, although it may not be left out.
const REFERRING: [&[u8]; 13] = [
    b"Acquire",
    b"CondRefOf",
    b"Decrement",
    b"Increment",
    b"Notify",
    b"ObjectType",
    b"RefOf",
    b"Release",
    b"Reset",
    b"Signal",
    b"SizeOf",
    b"Unload",
    b"Wait",
];

// Whether an operand is such a reference. The second operand of a CopyObject and of a Store is one.
fn is_reference(word: &[u8], i: usize) -> bool {
    match i {
        0 => is_among(word, &REFERRING),
        1 => is_among(word, &[b"CopyObject", b"Store"]),
        _ => false,
    }
}

// Whether a term may be a reference (SuperName in ACPI 6.5, 19.2.3). A method may return one.
fn may_refer(word: &[u8]) -> bool {
    is_among(word, &[b"Debug", b"DerefOf", b"Index", b"RefOf"])
        || is_name(word)
        || argument_of(word).is_some()
        || local_of(word).is_some()
}

// Terms without a value, so that they are no operands.
const VALUELESS: [&[u8]; 13] = [
    b"Break",
    b"BreakPoint",
    b"Continue",
    b"Fatal",
    b"Noop",
    b"Notify",
    b"Release",
    b"Reset",
    b"Return",
    b"Signal",
    b"Sleep",
    b"Stall",
    b"Unload",
];

// Whether the arguments of a term that is no operator have values: a call, or a statement with a predicate.
fn takes_values(word: &[u8]) -> bool {
    is_name(word) || is_among(word, &[b"If", b"While"])
}

// Operators that can't be elements of a package (PackageElement in ACPI 6.5, 19.2.5).
const NO_ELEMENTS: [&[u8]; 11] = [
    b"Acquire",
    b"CondRefOf",
    b"CopyObject",
    b"Debug",
    b"DerefOf",
    b"ObjectType",
    b"RefOf",
    b"SizeOf",
    b"Store",
    b"Timer",
    b"Wait",
];

// Whether a term can't be an element of a package.
fn is_no_element(node: &Node<'_>) -> bool {
    let word = node.word;
    is_among(word, &NO_ELEMENTS)
        || is_among(word, &VALUELESS)
        || argument_of(word).is_some()
        || local_of(word).is_some()
        || is_name(word) && !node.is_alone()
}

// A number without lists.
fn value_of(node: &Node<'_>) -> Option<u64> {
    if node.is(b"Zero") {
        return Some(0);
    }
    if node.is(b"One") {
        return Some(1);
    }
    Some(hex(node.word)?.value)
}

// ---- what is looked for

// What was found so far.
#[derive(Drop)]
struct Search {
    alloc: Global,
    operators: Vec<Op>,
    // The paths of the objects of the system, and of those that the text makes or declares, with those around these.
    known: BTreeMap<Vec<u8>, ()>,
    // How many arguments methods take, by their paths. Two methods of one path may take different numbers.
    counts: BTreeMap<Vec<u8>, Option<usize>>,
    // Whether there may be others: a block that isn't the DSDT adds to what other blocks make, and needs no External for that.
    has_others: bool,
    // The paths of objects, up to a place.
    objects: BTreeMap<Vec<u8>, ()>,
    doubts: Vec<AslFault>,
}

impl Search {
    fn doubt(&mut self, at: usize, why: Why) -> Result<(), AllocError> {
        self.doubts.push(AslFault { at, why })?;
        Ok(())
    }

    // Notes the objects that a system has before a block is loaded (ACPI 6.5, 5.3.1 and 5.7). Compilers let a block make the
    // scopes `\_GPE`, `\_PR` and `\_SI`.
    fn system(&mut self) -> Result<(), AllocError> {
        let names: [&[u8]; 6] = [b"_GL_", b"_OSI", b"_OS_", b"_REV", b"_SB_", b"_TZ_"];
        'names: for name in &names {
            self.objects.insert(Vec::from_slice(self.alloc, name)?, ())?;
            self.known.insert(Vec::from_slice(self.alloc, name)?, ())?;
        }
        let scopes: [&[u8]; 3] = [b"_GPE", b"_PR_", b"_SI_"];
        'scopes: for name in &scopes {
            self.known.insert(Vec::from_slice(self.alloc, name)?, ())?;
        }
        Ok(())
    }

    // Notes the object that a statement makes or declares. The objects around a declared one are there, too.
    fn note(&mut self, scope: &[u8], node: &Node<'_>) -> Result<(), AllocError> {
        let Some(name) = node_made(node) else {
            return Ok(());
        };
        let path = path_of(self.alloc, scope, name.word)?;
        if node.is(b"Method") {
            self.count(Vec::from_slice(self.alloc, &path)?, argument_count(node))?;
        }
        if node.is(b"External") {
            'characters: for (i, c) in path.iter().enumerate() {
                if *c == b'.' {
                    let around = path.get(..i).unwrap_or(&[]);
                    self.known.insert(Vec::from_slice(self.alloc, around)?, ())?;
                }
            }
        }
        self.known.insert(path, ())?;
        Ok(())
    }

    // Notes how many arguments a method takes.
    fn count(&mut self, path: Vec<u8>, count: usize) -> Result<(), AllocError> {
        let known = match self.counts.get(&path) {
            Some(other) if *other != Some(count) => None,
            _ => Some(count),
        };
        self.counts.insert(path, known)?;
        Ok(())
    }

    // How many arguments the method takes that a call in a scope calls. A name of one segment is looked for in the scopes around,
    // too (ACPI 6.5, 5.3).
    fn takes(&self, scope: &[u8], name: &[u8]) -> Result<Option<usize>, AllocError> {
        let mut around = scope;
        'scopes: for _ in 0..MAX_LISTS {
            let path = path_of(self.alloc, around, name)?;
            if let Some(count) = self.counts.get(&path) {
                return Ok(*count);
            }
            if around.is_empty() || last(name) != name || self.known.contains_key(&path) {
                break;
            }
            around = outer(around);
        }
        Ok(None)
    }

    // The path of a scope. A Scope of one segment may be an object of a scope around (ACPI 6.5, 5.3).
    fn scope_of(&self, around: &[u8], node: &Node<'_>, name: &[u8]) -> Result<Vec<u8>, AllocError> {
        let path = path_of(self.alloc, around, name)?;
        if !node.is(b"Scope") || last(name) != name || self.known.contains_key(&path) {
            return Ok(path);
        }
        let mut scope = around;
        'scopes: for _ in around {
            if scope.is_empty() {
                break;
            }
            scope = outer(scope);
            let above = path_of(self.alloc, scope, name)?;
            if self.known.contains_key(&above) {
                return Ok(above);
            }
        }
        Ok(path)
    }

    // Notes an object that is made in a scope. A scope has one object of a name (ACPI 6.5, 5.3).
    fn object(&mut self, around: Surroundings<'_>, name: &Node<'_>) -> Result<(), AllocError> {
        if around.is_conditional {
            return Ok(());
        }
        let path = path_of(self.alloc, around.scope, name.word)?;
        match self.objects.insert(path, ())? {
            Some(()) => self.doubt(name.at, Why::Twice),
            None => Ok(()),
        }
    }

    // The object around one that is made is there (ACPI 6.5, 5.3). That of a name of one segment is the scope itself.
    fn check_parent(
        &mut self,
        around: Surroundings<'_>,
        name: &Node<'_>,
    ) -> Result<(), AllocError> {
        if last(name.word) == name.word {
            return Ok(());
        }
        let path = path_of(self.alloc, around.scope, name.word)?;
        let parent = Vec::from_slice(self.alloc, outer(&path))?;
        let is_there = parent.is_empty() || self.has_others || self.known.contains_key(&parent);
        if is_above_root(around.scope, name.word) || !is_there {
            return self.doubt(name.at, Why::Parent);
        }
        Ok(())
    }

    // Notes the fields among entries.
    fn entries(
        &mut self,
        around: Surroundings<'_>,
        entries: &[Node<'_>],
    ) -> Result<(), AllocError> {
        'entries: for entry in entries {
            if is_name(entry.word) {
                self.object(around, entry)?;
            }
        }
        Ok(())
    }

    // A Break or a Continue is in a While (ACPI 6.5, 19.6.8 and 19.6.16).
    fn check_loop(&mut self, around: Surroundings<'_>, node: &Node<'_>) -> Result<(), AllocError> {
        if is_among(node.word, &[b"Break", b"Continue"]) && !around.is_in_loop {
            return self.doubt(node.at, Why::Loop);
        }
        Ok(())
    }

    // A method has the argument (ACPI 6.5, 19.6.84).
    fn check_argument(
        &mut self,
        around: Surroundings<'_>,
        node: &Node<'_>,
    ) -> Result<(), AllocError> {
        match argument_of(node.word) {
            Some(n) if usize::from(n) >= around.arguments => self.doubt(node.at, Why::NoArgument),
            _ => Ok(()),
        }
    }

    // A call has as many arguments as its method takes (ACPI 6.5, 19.2.3).
    fn check_call(&mut self, around: Surroundings<'_>, node: &Node<'_>) -> Result<(), AllocError> {
        if !is_name(node.word) || node.arguments.is_none() {
            return Ok(());
        }
        let count = list_of(&node.arguments).len();
        match self.takes(around.scope, node.word)? {
            Some(takes) if takes != count => self.doubt(node.at, Why::Takes(takes, count)),
            _ => Ok(()),
        }
    }

    // A statement that is a name calls it, with parentheses (ACPI 6.5, 19.2.3).
    fn check_statement(&mut self, node: &Node<'_>) -> Result<(), AllocError> {
        if is_name(node.word) && node.is_alone() {
            return self.doubt(node.at, Why::Call);
        }
        Ok(())
    }

    fn check_level(&mut self, node: &Node<'_>) -> Result<(), AllocError> {
        match list_of(&node.arguments) {
            [_, level] if node.is(b"Mutex") => match byte_of(level) {
                Some(number) if number > MAX_LEVEL => self.doubt(level.at, Why::Level),
                _ => Ok(()),
            },
            _ => Ok(()),
        }
    }

    // The bytes of a buffer are no more than its size. Compilers make a larger buffer of such a text (ACPI 6.5, 19.6.10).
    fn check_size(&mut self, node: &Node<'_>) -> Result<(), AllocError> {
        match list_of(&node.arguments) {
            [size] if node.is(b"Buffer") => match value_of(size) {
                Some(number) if number < list_of(&node.body).len() as u64 => {
                    self.doubt(size.at, Why::Bytes)
                }
                _ => Ok(()),
            },
            _ => Ok(()),
        }
    }

    // The elements of a package are data or names (ACPI 6.5, 19.6.101).
    fn check_elements(&mut self, node: &Node<'_>) -> Result<(), AllocError> {
        if !node.is(b"Package") {
            return Ok(());
        }
        'elements: for element in list_of(&node.body) {
            if is_no_element(element) {
                self.doubt(element.at, Why::Element)?;
            }
        }
        Ok(())
    }

    // An operand has a value, and a target is a reference (ACPI 6.5, 19.2.5).
    fn check_operands(&mut self, node: &Node<'_>) -> Result<(), AllocError> {
        let Some(op) = operator(&self.operators, node.word) else {
            return self.check_values(node);
        };
        let end = usize::from(op.operands());
        let first_target = end.saturating_sub(targets(op));
        'operands: for (i, operand) in list_of(&node.arguments).iter().enumerate() {
            let is_target = first_target <= i && i < end;
            let is_left_out = is_target && (operand.word.is_empty() || operand.is(b"Zero"));
            let refers = is_target || is_reference(node.word, i);
            if is_among(operand.word, &VALUELESS) {
                self.doubt(operand.at, Why::Value)?;
            } else if refers && !is_left_out && !may_refer(operand.word) {
                self.doubt(operand.at, Why::Reference)?;
            }
        }
        Ok(())
    }

    // The same of the arguments of a call, and of a predicate.
    fn check_values(&mut self, node: &Node<'_>) -> Result<(), AllocError> {
        if !takes_values(node.word) {
            return Ok(());
        }
        'arguments: for argument in list_of(&node.arguments) {
            if is_among(argument.word, &VALUELESS) {
                self.doubt(argument.at, Why::Value)?;
            }
        }
        Ok(())
    }

    // An Else follows an If (ACPI 6.5, 19.6.38).
    fn check_else(&mut self, before: &[u8], node: &Node<'_>) -> Result<(), AllocError> {
        if node.is(b"Else") && before != b"If".as_slice() {
            return self.doubt(node.at, Why::Else);
        }
        Ok(())
    }

    // What a node itself has, and its object.
    fn check(&mut self, around: Surroundings<'_>, node: &Node<'_>) -> Result<(), AllocError> {
        self.check_loop(around, node)?;
        self.check_argument(around, node)?;
        self.check_call(around, node)?;
        self.check_level(node)?;
        self.check_size(node)?;
        self.check_elements(node)?;
        self.check_operands(node)?;
        let Some(name) = object_made(node) else {
            return Ok(());
        };
        self.check_parent(around, name)?;
        self.object(around, name)
    }
}

// ---- through the text

// Notes the objects that statements make or declare, also within them to a depth.
#[cycle(known)]
fn note_all(
    search: &mut Search,
    depth: usize,
    scope: &[u8],
    nodes: &[Node<'_>],
) -> Result<(), AllocError> {
    let Some(depth) = depth.checked_sub(1) else {
        return Ok(());
    };
    'nodes: for node in nodes {
        search.note(scope, node)?;
        match list_of(&node.arguments) {
            [name, ..] if is_among(node.word, &SCOPES) => {
                let inside = search.scope_of(scope, node, name.word)?;
                note_all(search, depth, &inside, list_of(&node.body))?;
            }
            _ => note_all(search, depth, scope, list_of(&node.body))?,
        }
    }
    Ok(())
}

// Looks at nodes, which are statements or not, and within them to a depth.
#[cycle(doubts)]
fn look_at_all(
    search: &mut Search,
    depth: usize,
    around: Surroundings<'_>,
    are_statements: bool,
    nodes: &[Node<'_>],
) -> Result<(), AllocError> {
    let Some(depth) = depth.checked_sub(1) else {
        return Ok(());
    };
    let mut before: &[u8] = &[];
    'nodes: for node in nodes {
        search.check_else(before, node)?;
        if are_statements {
            search.check_statement(node)?;
        }
        look_at(search, depth, around, node)?;
        before = node.word;
    }
    Ok(())
}

// The same for a node. The words in a resource template are those of its macros.
#[cycle(doubts)]
fn look_at(
    search: &mut Search,
    depth: usize,
    around: Surroundings<'_>,
    node: &Node<'_>,
) -> Result<(), AllocError> {
    if node.is(b"ResourceTemplate") {
        return Ok(());
    }
    search.check(around, node)?;
    look_at_all(search, depth, around, false, list_of(&node.arguments))?;
    let body = list_of(&node.body);
    match list_of(&node.arguments) {
        [name, ..] if is_among(node.word, &SCOPES) => {
            let scope = search.scope_of(around.scope, node, name.word)?;
            let inside = Surroundings {
                scope: &scope,
                is_in_loop: false,
                is_conditional: around.is_conditional,
                arguments: if node.is(b"Method") {
                    argument_count(node)
                } else {
                    around.arguments
                },
            };
            look_at_all(search, depth, inside, true, body)
        }
        _ if is_among(node.word, &CONDITIONAL) => {
            let inside = Surroundings {
                is_in_loop: around.is_in_loop || node.is(b"While"),
                is_conditional: true,
                ..around
            };
            look_at_all(search, depth, inside, true, body)
        }
        _ if has_entries(node) => search.entries(around, body),
        _ => look_at_all(search, depth, around, false, body),
    }
}

/// What compilers refuse in the statements of a text. The DSDT is the only block that adds to no other.
pub fn doubts(
    alloc: Global,
    is_dsdt: bool,
    nodes: &[Node<'_>],
) -> Result<Vec<AslFault>, AllocError> {
    let mut search = Search {
        alloc,
        operators: operators(alloc)?,
        known: BTreeMap::new(alloc),
        counts: BTreeMap::new(alloc),
        has_others: !is_dsdt,
        objects: BTreeMap::new(alloc),
        doubts: Vec::new(alloc),
    };
    search.system()?;
    note_all(&mut search, MAX_LISTS, &[], nodes)?;
    let around = Surroundings {
        scope: &[],
        is_in_loop: false,
        is_conditional: false,
        arguments: 0,
    };
    look_at_all(&mut search, MAX_LISTS, around, true, nodes)?;
    Ok(search.doubts)
}
