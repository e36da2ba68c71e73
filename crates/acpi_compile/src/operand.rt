//! The operands and targets of operators (ACPI 6.5, 19.6).

use crate::argument::{keyword_at, word_at, wrong};
use crate::fault::{AslError, Why, fault};
use crate::node::{Node, list_of};
use crate::sized::{Sized, number};
use acpi_asl::place::targets;
use acpi_asl::word::Keyword;
use acpi_term::op::Op;
use acpi_term::term::Term;
use std::alloc::Global;

/// An operand of an operator, without the terms inside.
#[derive(Drop)]
pub enum Operand<'a, 'b> {
    /// No node has it.
    Whole(Sized),
    Term(&'b Node<'a>),
    /// A test of a Match: how elements are compared, and with which operand.
    Test(u8, &'b Node<'a>),
}

// The fault of an operator with another number of operands.
fn takes(op: Op, node: &Node<'_>) -> AslError {
    let found = list_of(&node.arguments).len();
    fault(node.at, Why::Takes(usize::from(op.operands()), found))
}

// Whether a target is left out, with its comma or without it.
fn is_left_out(target: Option<&Node<'_>>) -> bool {
    match target {
        Some(node) => node.is_absent() && node.has_known_note(),
        None => true,
    }
}

// How many arguments an operator has at most. A Match has two for each of its tests.
fn most_arguments(op: Op) -> usize {
    match op {
        Op::Match => 6,
        _ => usize::from(op.operands()),
    }
}

/// Refuses a list in braces after an operator, and more arguments than it has.
pub fn check_operands(op: Op, node: &Node<'_>) -> Result<(), AslError> {
    if list_of(&node.arguments).len() > most_arguments(op) {
        return Err(match op {
            Op::Match | Op::Acquire => wrong(node),
            _ => takes(op, node),
        });
    }
    if node.body.is_some() {
        return Err(wrong(node));
    }
    Ok(())
}

fn test<'a, 'b>(keyword: &'b Node<'a>, operand: &'b Node<'a>) -> Result<Operand<'a, 'b>, AslError> {
    let code = keyword_at(Keyword::MatchOperator, keyword)?;
    Ok(Operand::Test(code, operand))
}

// An object, two tests of a keyword and an operand each, and an index.
fn match_operand<'a, 'b>(node: &'b Node<'a>, i: usize) -> Result<Operand<'a, 'b>, AslError> {
    let [object, first, a, second, b, index] = list_of(&node.arguments) else {
        return Err(wrong(node));
    };
    match i {
        0 => Ok(Operand::Term(object)),
        1 => test(first, a),
        2 => test(second, b),
        _ => Ok(Operand::Term(index)),
    }
}

// The object of an Acquire that isn't a name, and the timeout.
fn acquire_operand<'a, 'b>(node: &'b Node<'a>, i: usize) -> Result<Operand<'a, 'b>, AslError> {
    let [object, timeout] = list_of(&node.arguments) else {
        return Err(wrong(node));
    };
    if i == 0 {
        return Ok(Operand::Term(object));
    }
    let term = Term::Timeout(word_at(timeout)?);
    Ok(Operand::Whole(Sized { term, size: 2 }))
}

/// An operand of an operator by its number. A target that is left out is a NullName, whose byte is that of Zero.
pub fn operand_at<'a, 'b>(
    op: Op,
    node: &'b Node<'a>,
    i: usize,
) -> Result<Operand<'a, 'b>, AslError> {
    match op {
        Op::Match => return match_operand(node, i),
        Op::Acquire => return acquire_operand(node, i),
        _ => {}
    }
    let first_target = usize::from(op.operands()).saturating_sub(targets(op));
    match list_of(&node.arguments).get(i) {
        operand if i >= first_target && is_left_out(operand) => Ok(Operand::Whole(number(0, 0))),
        Some(operand) => Ok(Operand::Term(operand)),
        None => Err(takes(op, node)),
    }
}

/// A test of a Match with its operand.
pub fn test_with(alloc: Global, code: u8, operand: Sized) -> Result<Sized, AslError> {
    let size = operand.size.saturating_add(1);
    let operand = Box::new(alloc, operand.term)?;
    let term = Term::MatchTest { code, operand };
    Ok(Sized { term, size })
}
