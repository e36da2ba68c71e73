//! Bitwise operators, whose result is stored in a target.

ghost use Rattle.std.specs.Prelude.{refl};
ghost use Rattle.acpi_term.specs.declared.op.Op.TheVariants as ops;

use crate::operator::{Operation, Operator, Targeted};
use acpi_term::op::Op;

/// The bits that are set in both operands (ACPI 6.5, 20.2.5.4).
pub type And = Operation<Targeted, AndOp>;

/// The operator of `And`.
pub struct AndOp;

impl Operator<3> for AndOp {
    ghost OPERATOR = { ops.And };

    const OPERATOR: Op = Op::And;

    ghost takes = { refl };
}

/// The bits that aren't set in both operands (ACPI 6.5, 20.2.5.4).
pub type Nand = Operation<Targeted, NandOp>;

/// The operator of `Nand`.
pub struct NandOp;

impl Operator<3> for NandOp {
    ghost OPERATOR = { ops.Nand };

    const OPERATOR: Op = Op::Nand;

    ghost takes = { refl };
}

/// The bits that are set in at least one operand (ACPI 6.5, 20.2.5.4).
pub type Or = Operation<Targeted, OrOp>;

/// The operator of `Or`.
pub struct OrOp;

impl Operator<3> for OrOp {
    ghost OPERATOR = { ops.Or };

    const OPERATOR: Op = Op::Or;

    ghost takes = { refl };
}

/// The bits that are set in no operand (ACPI 6.5, 20.2.5.4).
pub type Nor = Operation<Targeted, NorOp>;

/// The operator of `Nor`.
pub struct NorOp;

impl Operator<3> for NorOp {
    ghost OPERATOR = { ops.Nor };

    const OPERATOR: Op = Op::Nor;

    ghost takes = { refl };
}

/// The bits that are set in exactly one operand (ACPI 6.5, 20.2.5.4).
pub type Xor = Operation<Targeted, XorOp>;

/// The operator of `Xor`.
pub struct XorOp;

impl Operator<3> for XorOp {
    ghost OPERATOR = { ops.Xor };

    const OPERATOR: Op = Op::Xor;

    ghost takes = { refl };
}
