//! Terms by the calls of a block: each object is begun, filled and ended. Operands are objects.

use crate::cause::cause_of;
use crate::fields::{are_bits, elements_of, entries_of, rules};
use crate::found::Found;
use crate::names::path_text;
use crate::numbers::region_space;
use crate::objects::{UNWRITTEN, object_of, push_objects};
use crate::spelt::{Spelt, children_of, operands, spelling_of};
use acpi_base::object::Aml;
use acpi_build::block::Block;
use acpi_build::error::BuildError;
use acpi_term::apart::{Kind, Parts, parts_of};
use acpi_term::name_string::NameString;
use acpi_term::op::Op;
use acpi_term::term::{Term, TermEntry};
use std::alloc::Global;

// Begins an object whose name is a text.
fn begin_named(block: &mut Block, kind: Kind<'_>, path: &str) {
    match kind {
        Kind::Scope(_) => block.scope(path),
        Kind::Device(_) => block.device(path),
        Kind::ThermalZone(_) => block.thermal_zone(path),
        Kind::Processor(_, id, address, size) => block.processor(path, id, address, size),
        Kind::PowerResource(_, level, order) => block.power_resource(path, level, order),
        Kind::Method(_, args, serialized) => block.method(path, args, serialized),
        Kind::LeveledMethod(_, args, serialized, level) => {
            block.leveled_method(path, args, serialized, level);
        }
        _ => {}
    }
}

// Begins an object that has a list, and returns whether a term is one.
fn begin(alloc: Global, block: &mut Block, kind: Kind<'_>) -> Result<bool, BuildError> {
    match kind {
        Kind::Scope(name) | Kind::Device(name) | Kind::ThermalZone(name) => {
            begin_named(block, kind, path_text(alloc, name)?.as_str());
        }
        Kind::Processor(name, ..) | Kind::PowerResource(name, ..) | Kind::Method(name, ..) => {
            begin_named(block, kind, path_text(alloc, name)?.as_str());
        }
        Kind::LeveledMethod(name, ..) => {
            begin_named(block, kind, path_text(alloc, name)?.as_str());
        }
        Kind::Package => block.package(),
        Kind::RoomyPackage(room) => block.package_with_room(room),
        Kind::Else => block.otherwise(),
        _ => return Ok(false),
    }
    Ok(true)
}

// Begins an object that has a predicate, and returns whether a term is one.
fn begin_test(
    alloc: Global,
    block: &mut Block,
    kind: Kind<'_>,
    first: &[Term],
) -> Result<bool, BuildError> {
    let [predicate] = first else {
        return Ok(false);
    };
    let mut found = Found::new(alloc);
    match kind {
        Kind::If => block.if_true(&object_of(alloc, predicate, &mut found)?),
        Kind::While => block.while_true(&object_of(alloc, predicate, &mut found)?),
        _ => return Ok(false),
    }
    Ok(true)
}

// Adds a package with a name, and with room if it has any for more elements.
fn add_named_package(
    alloc: Global,
    block: &mut Block,
    path: &str,
    room: Option<u8>,
    elements: &[Term],
) -> Result<(), BuildError> {
    let mut objects = Vec::new(alloc);
    push_objects(alloc, elements, &mut objects, &mut Found::new(alloc))?;
    match room {
        Some(room) => block.named_package_with_room(path, room),
        None => block.named_package(path),
    }
    for object in &objects {
        block.add(object);
    }
    block.end();
    Ok(())
}

// Adds an object with a name.
fn add_name(
    alloc: Global,
    block: &mut Block,
    name: &NameString,
    value: &Term,
) -> Result<(), BuildError> {
    let path = path_text(alloc, name)?;
    match (value, cause_of(alloc, value, parts_of(value))?) {
        (Term::Package { elements, .. }, None) => {
            return add_named_package(alloc, block, path.as_str(), None, elements);
        }
        (Term::RoomyPackage { room, elements, .. }, None) => {
            return add_named_package(alloc, block, path.as_str(), Some(*room), elements);
        }
        _ => {}
    }
    let value = object_of(alloc, value, &mut Found::new(alloc))?;
    block.name(path.as_str(), &value);
    Ok(())
}

// Adds a call with its arguments.
fn add_call(
    alloc: Global,
    block: &mut Block,
    name: &NameString,
    args: &[Spelt],
) -> Result<(), BuildError> {
    let path = path_text(alloc, name)?;
    let args = operands!(alloc, args);
    block.call(path.as_str(), &args);
    Ok(())
}

// Adds an operator with its operands.
fn add_operator(
    alloc: Global,
    block: &mut Block,
    op: Op,
    children: &[Spelt],
) -> Result<(), BuildError> {
    match (op, children) {
        (Op::Return, [value]) => block.returns(value),
        _ => block.operate(op, &operands!(alloc, children)),
    }
    Ok(())
}

// Adds a region.
fn add_region(
    alloc: Global,
    block: &mut Block,
    name: &NameString,
    space: u8,
    children: &[Spelt],
) -> Result<(), BuildError> {
    let path = path_text(alloc, name)?;
    match (region_space(space), children) {
        (Some(space), [offset, length]) => block.region(path.as_str(), space, offset, length),
        _ => return Err(UNWRITTEN),
    }
    Ok(())
}

// Adds a field.
fn add_field(
    alloc: Global,
    block: &mut Block,
    name: &NameString,
    numbers: (u8, u8, u8),
    entries: &[TermEntry],
) -> Result<(), BuildError> {
    let path = path_text(alloc, name)?;
    let (access, lock, update) = rules(numbers)?;
    if are_bits(entries) {
        let entries = entries_of(alloc, entries)?;
        block.field(path.as_str(), access, lock, update, &entries);
    } else {
        let elements = elements_of(alloc, entries)?;
        block.field_list(path.as_str(), access, lock, update, elements);
    }
    Ok(())
}

// Adds what has a name, but no list, and returns whether a term is that.
fn add_named(
    alloc: Global,
    block: &mut Block,
    kind: Kind<'_>,
    children: &[Spelt],
) -> Result<bool, BuildError> {
    match kind {
        Kind::Call(name) => add_call(alloc, block, name, children)?,
        Kind::External(name, kind, args) => {
            block.external(path_text(alloc, name)?.as_str(), kind, args);
        }
        Kind::OpRegion(name, space) => add_region(alloc, block, name, space, children)?,
        Kind::Field(name, access, lock, update, entries) => {
            add_field(alloc, block, name, (access, lock, update), entries)?;
        }
        Kind::Mutex(name, level) => block.mutex(path_text(alloc, name)?.as_str(), level),
        Kind::Acquire(name, timeout) => block.acquire(path_text(alloc, name)?.as_str(), timeout),
        Kind::Release(name) => block.release(path_text(alloc, name)?.as_str()),
        _ => return Ok(false),
    }
    Ok(true)
}

// Adds a term by one call.
fn add_whole(
    alloc: Global,
    block: &mut Block,
    term: &Term,
    parts: Parts<'_>,
) -> Result<(), BuildError> {
    if let (Kind::Name(name), [value]) = (parts.kind, parts.first) {
        return add_name(alloc, block, name, value);
    }
    let mut found = Found::new(alloc);
    let mut children = Vec::new(alloc);
    push_objects(alloc, parts.first, &mut children, &mut found)?;
    push_objects(alloc, parts.others, &mut children, &mut found)?;
    if add_named(alloc, block, parts.kind, &children)? {
        return Ok(());
    }
    match parts.kind {
        Kind::Op(op) => add_operator(alloc, block, op, &children)?,
        _ => block.add(&object_of(alloc, term, &mut found)?),
    }
    Ok(())
}

// Adds the bytes of a term that no constructor writes. The bytes of its children have to be those of a block.
fn take_over(
    alloc: Global,
    block: &mut Block,
    term: &Term,
    inside: Block,
) -> Result<(), BuildError> {
    if inside.finish()? != children_of(alloc, parts_of(term))? {
        return Err(UNWRITTEN);
    }
    block.add(&spelling_of(alloc, term)?);
    Ok(())
}

// Adds a term.
#[cycle(calls)]
fn add(alloc: Global, block: &mut Block, term: &Term) -> Result<(), BuildError> {
    let parts = parts_of(term);
    if cause_of(alloc, term, parts)?.is_some() {
        let mut inside = Block::new(alloc);
        add_all(alloc, &mut inside, parts.first)?;
        add_all(alloc, &mut inside, parts.others)?;
        return take_over(alloc, block, term, inside);
    }
    let begun = begin(alloc, block, parts.kind)?;
    if begun {
        add_all(alloc, block, parts.first)?;
    }
    if begun || begin_test(alloc, block, parts.kind, parts.first)? {
        add_all(alloc, block, parts.others)?;
        block.end();
        return Ok(());
    }
    add_whole(alloc, block, term, parts)
}

/// Adds terms.
#[cycle(calls)]
pub fn add_all(alloc: Global, block: &mut Block, terms: &[Term]) -> Result<(), BuildError> {
    for term in terms {
        add(alloc, block, term)?;
    }
    Ok(())
}
