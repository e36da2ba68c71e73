//! Comparisons, their opposites, and logical connectives.

ghost use Rattle.std.specs.Prelude.{refl};
ghost use Rattle.acpi_term.specs.declared.op.Op.TheVariants as ops;

use crate::operator::{Negated, Operation, Operator, Pair};
use acpi_term::op::Op;

/// Whether the left operand equals the right one (ACPI 6.5, 20.2.5.4).
pub type Equal = Operation<Pair, EqualOp>;

/// The operator of `Equal`.
pub struct EqualOp;

impl Operator<2> for EqualOp {
    ghost OPERATOR = { ops.LEqual };

    const OPERATOR: Op = Op::LEqual;

    ghost takes = { refl };
}

/// Whether the left operand is less than the right one (ACPI 6.5, 20.2.5.4).
pub type LessThan = Operation<Pair, LessThanOp>;

/// The operator of `LessThan`.
pub struct LessThanOp;

impl Operator<2> for LessThanOp {
    ghost OPERATOR = { ops.LLess };

    const OPERATOR: Op = Op::LLess;

    ghost takes = { refl };
}

/// Whether the left operand is greater than the right one (ACPI 6.5, 20.2.5.4).
pub type GreaterThan = Operation<Pair, GreaterThanOp>;

/// The operator of `GreaterThan`.
pub struct GreaterThanOp;

impl Operator<2> for GreaterThanOp {
    ghost OPERATOR = { ops.LGreater };

    const OPERATOR: Op = Op::LGreater;

    ghost takes = { refl };
}

/// Whether the operands differ: the opposite of `Equal` (ACPI 6.5, 20.2.5.4).
pub type NotEqual = Operation<Negated, EqualOp>;

/// Whether the left operand isn't less than the right one: the opposite of `LessThan` (ACPI 6.5, 20.2.5.4).
pub type GreaterEqual = Operation<Negated, LessThanOp>;

/// Whether the left operand isn't greater than the right one: the opposite of `GreaterThan` (ACPI 6.5, 20.2.5.4).
pub type LessEqual = Operation<Negated, GreaterThanOp>;

/// Whether both operands are true (ACPI 6.5, 20.2.5.4).
pub type LAnd = Operation<Pair, LAndOp>;

/// The operator of `LAnd`.
pub struct LAndOp;

impl Operator<2> for LAndOp {
    ghost OPERATOR = { ops.LAnd };

    const OPERATOR: Op = Op::LAnd;

    ghost takes = { refl };
}

/// Whether at least one operand is true (ACPI 6.5, 20.2.5.4).
pub type LOr = Operation<Pair, LOrOp>;

/// The operator of `LOr`.
pub struct LOrOp;

impl Operator<2> for LOrOp {
    ghost OPERATOR = { ops.LOr };

    const OPERATOR: Op = Op::LOr;

    ghost takes = { refl };
}
