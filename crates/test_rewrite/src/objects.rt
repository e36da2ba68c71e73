//! Terms as objects: each by the constructor of its head, over the objects of its children.

use crate::cause::cause_of;
use crate::fields::{bank_field, field, index_field};
use crate::found::Found;
use crate::names::{path_of, path_text, raw_text};
use crate::numbers::{comparison, region_space};
use crate::operators::{operation, opposite};
use crate::spelt::{Spelt, children_of, made, operands, spelling_of, written};
use acpi_aml::buffer::{BufferData, BufferTerm};
use acpi_aml::control::{Else, If, While};
use acpi_aml::method::{Arg, Local, Method, MethodCall};
use acpi_aml::mutex::{Acquire, Mutex, Release};
use acpi_aml::name::Name;
use acpi_aml::package::{Package, VarPackageTerm};
use acpi_aml::region::OpRegion;
use acpi_aml::scope::{Device, PowerResource, Scope};
use acpi_base::constant::{ONE, ONES, ZERO};
use acpi_base::error::Error;
use acpi_base::object::Aml;
use acpi_build::block::Block;
use acpi_build::error::BuildError;
use acpi_ops::method::LeveledMethod;
use acpi_ops::package::RoomyPackage;
use acpi_ops::search::MatchTest;
use acpi_ops::statement::Fatal;
use acpi_term::apart::{Kind, Parts, parts_of};
use acpi_term::name_string::NameString;
use acpi_term::op::Op;
use acpi_term::term::Term;
use std::alloc::Global;

/// The error of a term for which `cause_of` has a cause, or with another number of children than its head has.
pub const UNWRITTEN: BuildError = BuildError::Operands;

// Writes a number.
fn number(alloc: Global, value: u64) -> Result<Spelt, BuildError> {
    match value {
        0 => written(alloc, &ZERO),
        1 => written(alloc, &ONE),
        _ => written(alloc, &value),
    }
}

// Writes a call with its arguments, or a name.
fn call(alloc: Global, name: &NameString, children: &[Spelt]) -> Result<Spelt, BuildError> {
    if children.is_empty() && name.as_bytes().len() == 4 {
        let text = raw_text(name)?;
        return made(alloc, Name::new_field_name(alloc, text));
    }
    let path = path_of(alloc, name)?;
    if children.is_empty() {
        return written(alloc, &path);
    }
    made(alloc, MethodCall::new(path, operands!(alloc, children)))
}

// Writes a term with a name and any children.
fn named_frame(
    alloc: Global,
    kind: Kind<'_>,
    name: &NameString,
    children: &[Spelt],
) -> Result<Spelt, BuildError> {
    let path = path_of(alloc, name)?;
    let children = operands!(alloc, children);
    match kind {
        Kind::Scope(_) => made(alloc, Scope::new(path, children)),
        Kind::Device(_) => made(alloc, Device::new(path, children)),
        Kind::Method(_, args, serialized) => {
            made(alloc, Method::new(path, args, serialized, children))
        }
        Kind::LeveledMethod(_, args, serialized, level) => made(
            alloc,
            LeveledMethod::new(path, args, serialized, level, children),
        ),
        Kind::PowerResource(_, level, order) => {
            made(alloc, PowerResource::new(path, level, order, children))
        }
        _ => Err(UNWRITTEN),
    }
}

// Writes a processor or a thermal zone, for which blocks alone have calls.
fn block_frame(
    alloc: Global,
    kind: Kind<'_>,
    name: &NameString,
    children: &[Spelt],
) -> Result<Spelt, BuildError> {
    let text = path_text(alloc, name)?;
    let mut block = Block::new(alloc);
    match kind {
        Kind::Processor(_, id, address, size) => block.processor(text.as_str(), id, address, size),
        _ => block.thermal_zone(text.as_str()),
    }
    for child in children {
        block.add(child);
    }
    block.end();
    let bytes = block.finish()?;
    Ok(Spelt(bytes))
}

// Writes the declaration of an object of another block, for which blocks alone have a call.
fn external(alloc: Global, name: &NameString, kind: u8, args: u8) -> Result<Spelt, BuildError> {
    let text = path_text(alloc, name)?;
    let mut block = Block::new(alloc);
    block.external(text.as_str(), kind, args);
    let bytes = block.finish()?;
    Ok(Spelt(bytes))
}

// Writes a term with a predicate.
fn tested(alloc: Global, kind: Kind<'_>, children: &[Spelt]) -> Result<Spelt, BuildError> {
    let [predicate, body @ ..] = children else {
        return Err(UNWRITTEN);
    };
    let body = operands!(alloc, body);
    match kind {
        Kind::If => made(alloc, If::new(predicate, body)),
        _ => made(alloc, While::new(predicate, body)),
    }
}

// Returns all bytes of objects.
fn joined(alloc: Global, objects: &[Spelt], after: &[u8]) -> Result<Spelt, BuildError> {
    let mut bytes = Vec::new(alloc);
    for object in objects {
        bytes.extend_from_slice(&object.0)?;
    }
    bytes.extend_from_slice(after)?;
    Ok(Spelt(bytes))
}

// Writes a buffer: its size is the number of its bytes, or any other term.
fn buffer(alloc: Global, bytes: &[u8], children: &[Spelt]) -> Result<Spelt, BuildError> {
    let size = written(alloc, &bytes.len())?;
    if let [other] = children {
        if other.0 == size.0 {
            return made(alloc, BufferData::new(Vec::from_slice(alloc, bytes)?));
        }
    }
    let content = joined(alloc, children, bytes)?;
    made(alloc, BufferTerm::new(alloc, &content))
}

// Writes a list with the number of its elements as a term.
fn var_package(alloc: Global, children: &[Spelt]) -> Result<Spelt, BuildError> {
    let content = joined(alloc, children, &[])?;
    made(alloc, VarPackageTerm::new(alloc, &content))
}

// Writes an object with a name.
fn define(alloc: Global, name: &NameString, children: &[Spelt]) -> Result<Spelt, BuildError> {
    let [value] = children else {
        return Err(UNWRITTEN);
    };
    let path = path_of(alloc, name)?;
    made(alloc, Name::new(path, value))
}

// Writes a region.
fn region(
    alloc: Global,
    name: &NameString,
    space: u8,
    children: &[Spelt],
) -> Result<Spelt, BuildError> {
    let ([offset, length], Some(space)) = (children, region_space(space)) else {
        return Err(UNWRITTEN);
    };
    let path = path_of(alloc, name)?;
    made(alloc, OpRegion::new(path, space, offset, length))
}

// Writes what concerns a mutex.
fn mutex(alloc: Global, kind: Kind<'_>, name: &NameString) -> Result<Spelt, BuildError> {
    let path = path_of(alloc, name)?;
    match kind {
        Kind::Mutex(_, level) => written(alloc, &Mutex::new(path, level)),
        Kind::Acquire(_, timeout) => written(alloc, &Acquire::new(path, timeout)),
        _ => written(alloc, &Release::new(path)),
    }
}

// Writes a term with one operand and numbers of its own.
fn over_one(alloc: Global, kind: Kind<'_>, children: &[Spelt]) -> Result<Spelt, BuildError> {
    let [operand] = children else {
        return Err(UNWRITTEN);
    };
    match kind {
        Kind::Fatal(kind, code) => made(alloc, Fatal::new(alloc, kind, code, operand)),
        Kind::MatchTest(code) => match comparison(code) {
            Some(comparison) => made(alloc, MatchTest::new(alloc, comparison, operand)),
            None => Err(UNWRITTEN),
        },
        _ => Err(UNWRITTEN),
    }
}

// Writes a term that has a list, but no name.
fn listed(alloc: Global, kind: Kind<'_>, children: &[Spelt]) -> Result<Spelt, BuildError> {
    match kind {
        Kind::Buffer(bytes) => buffer(alloc, bytes, children),
        Kind::Package => made(alloc, Package::new(operands!(alloc, children))),
        Kind::RoomyPackage(room) => made(
            alloc,
            RoomyPackage::new(room, operands!(alloc, children)),
        ),
        Kind::VarPackage => var_package(alloc, children),
        Kind::If | Kind::While => tested(alloc, kind, children),
        Kind::Else => made(alloc, Else::new(operands!(alloc, children))),
        Kind::Fatal(..) | Kind::MatchTest(_) => over_one(alloc, kind, children),
        _ => Err(UNWRITTEN),
    }
}

// Writes a field.
fn any_field(alloc: Global, kind: Kind<'_>, children: &[Spelt]) -> Result<Spelt, BuildError> {
    match kind {
        Kind::Field(name, access, lock, update, entries) => {
            field(alloc, name, (access, lock, update), entries)
        }
        Kind::IndexField(index, name, access, lock, update, entries) => {
            index_field(alloc, index, name, (access, lock, update), entries)
        }
        Kind::BankField(name, bank, access, lock, update, entries) => bank_field(
            alloc,
            name,
            bank,
            children,
            (access, lock, update),
            entries,
        ),
        _ => Err(UNWRITTEN),
    }
}

// Writes a term that has a name.
fn named(alloc: Global, kind: Kind<'_>, children: &[Spelt]) -> Result<Spelt, BuildError> {
    match kind {
        Kind::Call(name) => call(alloc, name, children),
        Kind::Scope(name) | Kind::Device(name) => named_frame(alloc, kind, name, children),
        Kind::Method(name, ..) | Kind::LeveledMethod(name, ..) => {
            named_frame(alloc, kind, name, children)
        }
        Kind::PowerResource(name, ..) => named_frame(alloc, kind, name, children),
        Kind::Processor(name, ..) | Kind::ThermalZone(name) => {
            block_frame(alloc, kind, name, children)
        }
        Kind::OpRegion(name, space) => region(alloc, name, space, children),
        Kind::Name(name) => define(alloc, name, children),
        Kind::Mutex(name, _) | Kind::Acquire(name, _) | Kind::Release(name) => {
            mutex(alloc, kind, name)
        }
        Kind::External(name, kind, args) => external(alloc, name, kind, args),
        _ => any_field(alloc, kind, children),
    }
}

// Writes a term by the constructor of its head.
fn by_constructor(alloc: Global, kind: Kind<'_>, children: &[Spelt]) -> Result<Spelt, BuildError> {
    match kind {
        Kind::Number(value) => number(alloc, value),
        Kind::Ones => written(alloc, &ONES),
        Kind::Text(text) => written(alloc, &text),
        Kind::Local(n) => written(alloc, &Local(n)),
        Kind::Arg(n) => written(alloc, &Arg(n)),
        Kind::Op(op) => operation(alloc, op, children),
        Kind::Buffer(_) | Kind::Package | Kind::RoomyPackage(_) | Kind::VarPackage => {
            listed(alloc, kind, children)
        }
        Kind::If | Kind::While | Kind::Else => listed(alloc, kind, children),
        Kind::Fatal(..) | Kind::MatchTest(_) => listed(alloc, kind, children),
        _ => named(alloc, kind, children),
    }
}

// Writes the opposite of a comparison by its own constructor, if a term is one.
fn by_opposite(alloc: Global, parts: Parts<'_>) -> Result<Option<Spelt>, BuildError> {
    let (Kind::Op(Op::LNot), [Term::Op { op, operands }]) = (parts.kind, parts.first) else {
        return Ok(None);
    };
    let [a, b] = operands.as_slice() else {
        return Ok(None);
    };
    opposite(alloc, *op, &spelling_of(alloc, a)?, &spelling_of(alloc, b)?)
}

// Returns the bytes of a term that no constructor writes. The bytes of its children have to be those that were written.
fn taken_over(alloc: Global, term: &Term, children: &[Spelt]) -> Result<Spelt, BuildError> {
    if joined(alloc, children, &[])?.0 == children_of(alloc, parts_of(term))? {
        spelling_of(alloc, term)
    } else {
        Err(UNWRITTEN)
    }
}

// Writes a term over the objects of its children. What no constructor writes are its bytes.
fn over(
    alloc: Global,
    term: &Term,
    children: &[Spelt],
    found: &mut Found,
) -> Result<Spelt, BuildError> {
    let parts = parts_of(term);
    if let Some(cause) = cause_of(alloc, term, parts)? {
        found.add_cause(cause)?;
        return taken_over(alloc, term, children);
    }
    found.add_head(parts.kind)?;
    match by_opposite(alloc, parts)? {
        Some(object) => Ok(object),
        None => by_constructor(alloc, parts.kind, children),
    }
}

/// Writes a term by the constructors of its head and of those of all terms within it.
#[cycle(objects)]
pub fn object_of(alloc: Global, term: &Term, found: &mut Found) -> Result<Spelt, BuildError> {
    let parts = parts_of(term);
    let mut children = Vec::new(alloc);
    push_objects(alloc, parts.first, &mut children, found)?;
    push_objects(alloc, parts.others, &mut children, found)?;
    over(alloc, term, &children, found)
}

/// Adds the objects of terms.
#[cycle(objects)]
pub fn push_objects(
    alloc: Global,
    terms: &[Term],
    objects: &mut Vec<Spelt>,
    found: &mut Found,
) -> Result<(), BuildError> {
    for term in terms {
        let object = object_of(alloc, term, found)?;
        objects.push(object)?;
    }
    Ok(())
}
