//! The search of a package.

ghost use Rattle.std.specs.Prelude.{[], ◌∷◌};
ghost use Rattle.acpi_base.specs.Object.{Builds};
ghost use Rattle.acpi_term.specs.declared.op.Op.TheVariants as ops;
ghost use Rattle.acpi_term.specs.Tree.{op, match_test};
ghost use Rattle.acpi_term.specs.Row.{row};
ghost use Rattle.acpi_ops.specs.Search.{comparison_number};

use crate::operator::Operation;
use acpi_base::error::R;
use acpi_base::object::Aml;
use acpi_term::op::Op;
use acpi_term::row::bare;
use std::alloc::Global;

/// How a test of a search compares an element with an operand (ACPI 6.5, 20.2.5.4, MatchOpcode).
#[derive(Clone, Copy, Debug, PartialEq)]
pub enum Comparison {
    /// Every element passes the test (MTR).
    Always = 0,
    Equal = 1,
    LessOrEqual = 2,
    Less = 3,
    GreaterOrEqual = 4,
    Greater = 5,
}

/// A test of a search: a comparison, and the operand with which elements are compared (ACPI 6.5, 20.2.5.4, DefMatch).
pub type MatchTest = Operation<Compared, MatchOp>;

/// A comparison and one operand.
pub struct Compared;

/// The operator of `Match`.
pub struct MatchOp;

impl Operation<Compared, MatchOp> {
    /// The operand is borrowed for the call. The error is the operand's.
    pub fn new(
        alloc: Global,
        comparison: Comparison,
        operand: &dyn Aml,
    ) -> R<Operation<Compared, MatchOp>>
        ensures { Builds result (row (match_test (comparison_number comparison)) (object operand.now ∷ [])) }
    {
        let bytes = bare(alloc, &[comparison as u8], &[operand])?;
        Ok(Operation::of(bytes))
    }
}

/// The index of the first element of a package that passes two tests, or Ones (ACPI 6.5, 20.2.5.4, DefMatch).
pub type Match = Operation<Tested, MatchOp>;

/// The package, two tests, and the index of the first element that is compared.
pub struct Tested;

impl Operation<Tested, MatchOp> {
    /// Written in the order of the arguments; each test is a `MatchTest`. The error is the first one in that order.
    pub fn new(
        alloc: Global,
        searched: &dyn Aml,
        first: &dyn Aml,
        second: &dyn Aml,
        start: &dyn Aml,
    ) -> R<Operation<Tested, MatchOp>>
        ensures { Builds result (row (op ops.Match) (object searched.now ∷ object first.now ∷ object second.now
            ∷ object start.now ∷ [])) }
    {
        let bytes = bare(alloc, Op::Match.code(), &[searched, first, second, start])?;
        Ok(Operation::of(bytes))
    }
}
