//! Operators, each by its type of `acpi_ops`, or by a call of a block if it has none.

use crate::spelt::{Spelt, made, operands, written};
use acpi_base::object::Aml;
use acpi_build::block::Block;
use acpi_build::error::BuildError;
use acpi_ops::arithmetic::{
    Add, Decrement, Increment, Mod, Multiply, ShiftLeft, ShiftRight, Subtract,
};
use acpi_ops::bitwise::{And, Nand, Nor, Or, Xor};
use acpi_ops::comparison::{
    Equal, GreaterEqual, GreaterThan, LAnd, LOr, LessEqual, LessThan, NotEqual,
};
use acpi_ops::objects::{
    Concat, ConcatRes, DeRefOf, Index, Mid, ObjectType, SizeOf, ToBuffer, ToInteger, ToString,
};
use acpi_ops::search::Match;
use acpi_ops::statement::{
    Break, CreateDWordField, CreateField, CreateQWordField, Notify, Return, Store,
};
use acpi_term::op::Op;
use std::alloc::Global;

// Writes an operator by a call of a block.
fn by_call(alloc: Global, op: Op, children: &[Spelt]) -> Result<Spelt, BuildError> {
    let operands = operands!(alloc, children);
    let mut block = Block::new(alloc);
    block.operate(op, &operands);
    let bytes = block.finish()?;
    Ok(Spelt(bytes))
}

// Writes an operator of one operand.
fn single(alloc: Global, op: Op, children: &[Spelt], a: &Spelt) -> Result<Spelt, BuildError> {
    match op {
        Op::Increment => made(alloc, Increment::new(alloc, a)),
        Op::Decrement => made(alloc, Decrement::new(alloc, a)),
        Op::ObjectType => made(alloc, ObjectType::new(alloc, a)),
        Op::SizeOf => made(alloc, SizeOf::new(alloc, a)),
        Op::Return => made(alloc, Return::new(alloc, a)),
        Op::DeRefOf => made(alloc, DeRefOf::new(alloc, a)),
        _ => by_call(alloc, op, children),
    }
}

// Writes an operator of two operands, of which the second may be a target.
fn pair(
    alloc: Global,
    op: Op,
    children: &[Spelt],
    a: &Spelt,
    b: &Spelt,
) -> Result<Spelt, BuildError> {
    match op {
        Op::LEqual => made(alloc, Equal::new(alloc, a, b)),
        Op::LLess => made(alloc, LessThan::new(alloc, a, b)),
        Op::LGreater => made(alloc, GreaterThan::new(alloc, a, b)),
        Op::LAnd => made(alloc, LAnd::new(alloc, a, b)),
        Op::LOr => made(alloc, LOr::new(alloc, a, b)),
        Op::Notify => made(alloc, Notify::new(alloc, a, b)),
        Op::ToBuffer => made(alloc, ToBuffer::new(alloc, b, a)),
        Op::ToInteger => made(alloc, ToInteger::new(alloc, b, a)),
        Op::Store => made(alloc, Store::new(alloc, b, a)),
        _ => by_call(alloc, op, children),
    }
}

// Writes an operator of numbers with two operands and a target.
fn computed(
    alloc: Global,
    op: Op,
    children: &[Spelt],
    a: &Spelt,
    b: &Spelt,
    target: &Spelt,
) -> Result<Spelt, BuildError> {
    match op {
        Op::Add => made(alloc, Add::new(alloc, target, a, b)),
        Op::Subtract => made(alloc, Subtract::new(alloc, target, a, b)),
        Op::Multiply => made(alloc, Multiply::new(alloc, target, a, b)),
        Op::Mod => made(alloc, Mod::new(alloc, target, a, b)),
        Op::ShiftLeft => made(alloc, ShiftLeft::new(alloc, target, a, b)),
        Op::ShiftRight => made(alloc, ShiftRight::new(alloc, target, a, b)),
        Op::And => made(alloc, And::new(alloc, target, a, b)),
        Op::Nand => made(alloc, Nand::new(alloc, target, a, b)),
        Op::Or => made(alloc, Or::new(alloc, target, a, b)),
        Op::Nor => made(alloc, Nor::new(alloc, target, a, b)),
        Op::Xor => made(alloc, Xor::new(alloc, target, a, b)),
        _ => by_call(alloc, op, children),
    }
}

// Writes any operator with two operands and a target.
fn targeted(
    alloc: Global,
    op: Op,
    children: &[Spelt],
    a: &Spelt,
    b: &Spelt,
    target: &Spelt,
) -> Result<Spelt, BuildError> {
    match op {
        Op::Concat => made(alloc, Concat::new(alloc, target, a, b)),
        Op::ConcatRes => made(alloc, ConcatRes::new(alloc, target, a, b)),
        Op::Index => made(alloc, Index::new(alloc, target, a, b)),
        Op::ToString => made(alloc, ToString::new(alloc, target, a, b)),
        Op::CreateDWordField => made(alloc, CreateDWordField::new(alloc, target, a, b)),
        Op::CreateQWordField => made(alloc, CreateQWordField::new(alloc, target, a, b)),
        _ => computed(alloc, op, children, a, b, target),
    }
}

// Writes an operator of four operands.
fn four(
    alloc: Global,
    op: Op,
    children: &[Spelt],
    a: &Spelt,
    b: &Spelt,
    c: &Spelt,
    d: &Spelt,
) -> Result<Spelt, BuildError> {
    match op {
        Op::Mid => made(alloc, Mid::new(alloc, a, b, c, d)),
        Op::CreateField => made(alloc, CreateField::new(alloc, d, a, b, c)),
        Op::Match => made(alloc, Match::new(alloc, a, b, c, d)),
        _ => by_call(alloc, op, children),
    }
}

/// Writes an operator with its operands.
pub fn operation(alloc: Global, op: Op, children: &[Spelt]) -> Result<Spelt, BuildError> {
    match children {
        [] if op == Op::Break => written(alloc, &Break::new()),
        [a] => single(alloc, op, children, a),
        [a, b] => pair(alloc, op, children, a, b),
        [a, b, c] => targeted(alloc, op, children, a, b, c),
        [a, b, c, d] => four(alloc, op, children, a, b, c, d),
        _ => by_call(alloc, op, children),
    }
}

/// Writes the opposite of a comparison with its operands, if there is a constructor for it.
pub fn opposite(alloc: Global, op: Op, a: &Spelt, b: &Spelt) -> Result<Option<Spelt>, BuildError> {
    let object = match op {
        Op::LEqual => made(alloc, NotEqual::new(alloc, a, b))?,
        Op::LLess => made(alloc, GreaterEqual::new(alloc, a, b))?,
        Op::LGreater => made(alloc, LessEqual::new(alloc, a, b))?,
        _ => return Ok(None),
    };
    Ok(Some(object))
}
