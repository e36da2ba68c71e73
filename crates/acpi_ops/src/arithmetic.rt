//! Arithmetic and shifts, whose result is stored in a target.

ghost use Rattle.std.specs.Prelude.{refl};
ghost use Rattle.acpi_term.specs.declared.op.Op.TheVariants as ops;

use crate::operator::{Operation, Operator, Single, Targeted};
use acpi_term::op::Op;

/// The sum of two operands (ACPI 6.5, 20.2.5.4).
pub type Add = Operation<Targeted, AddOp>;

/// The operator of `Add`.
pub struct AddOp;

impl Operator<3> for AddOp {
    ghost OPERATOR = { ops.Add };

    const OPERATOR: Op = Op::Add;

    ghost takes = { refl };
}

/// The first operand minus the second (ACPI 6.5, 20.2.5.4).
pub type Subtract = Operation<Targeted, SubtractOp>;

/// The operator of `Subtract`.
pub struct SubtractOp;

impl Operator<3> for SubtractOp {
    ghost OPERATOR = { ops.Subtract };

    const OPERATOR: Op = Op::Subtract;

    ghost takes = { refl };
}

/// The product of two operands (ACPI 6.5, 20.2.5.4).
pub type Multiply = Operation<Targeted, MultiplyOp>;

/// The operator of `Multiply`.
pub struct MultiplyOp;

impl Operator<3> for MultiplyOp {
    ghost OPERATOR = { ops.Multiply };

    const OPERATOR: Op = Op::Multiply;

    ghost takes = { refl };
}

/// The remainder of the first operand divided by the second (ACPI 6.5, 20.2.5.4).
pub type Mod = Operation<Targeted, ModOp>;

/// The operator of `Mod`.
pub struct ModOp;

impl Operator<3> for ModOp {
    ghost OPERATOR = { ops.Mod };

    const OPERATOR: Op = Op::Mod;

    ghost takes = { refl };
}

/// The first operand, shifted left by the second (ACPI 6.5, 20.2.5.4).
pub type ShiftLeft = Operation<Targeted, ShiftLeftOp>;

/// The operator of `ShiftLeft`.
pub struct ShiftLeftOp;

impl Operator<3> for ShiftLeftOp {
    ghost OPERATOR = { ops.ShiftLeft };

    const OPERATOR: Op = Op::ShiftLeft;

    ghost takes = { refl };
}

/// The first operand, shifted right by the second (ACPI 6.5, 20.2.5.4).
pub type ShiftRight = Operation<Targeted, ShiftRightOp>;

/// The operator of `ShiftRight`.
pub struct ShiftRightOp;

impl Operator<3> for ShiftRightOp {
    ghost OPERATOR = { ops.ShiftRight };

    const OPERATOR: Op = Op::ShiftRight;

    ghost takes = { refl };
}

/// Adds one to its operand (ACPI 6.5, 20.2.5.4).
pub type Increment = Operation<Single, IncrementOp>;

/// The operator of `Increment`.
pub struct IncrementOp;

impl Operator<1> for IncrementOp {
    ghost OPERATOR = { ops.Increment };

    const OPERATOR: Op = Op::Increment;

    ghost takes = { refl };
}

/// Subtracts one from its operand (ACPI 6.5, 20.2.5.4).
pub type Decrement = Operation<Single, DecrementOp>;

/// The operator of `Decrement`.
pub struct DecrementOp;

impl Operator<1> for DecrementOp {
    ghost OPERATOR = { ops.Decrement };

    const OPERATOR: Op = Op::Decrement;

    ghost takes = { refl };
}
