//! Operators on strings, buffers, packages and references.

ghost use Rattle.std.specs.Prelude.{refl};
ghost use Rattle.acpi_term.specs.declared.op.Op.TheVariants as ops;

use crate::operator::{Operation, Operator, Part, Put, Single, Targeted};
use acpi_term::op::Op;

/// The concatenation of two operands, stored in a target (ACPI 6.5, 20.2.5.4).
pub type Concat = Operation<Targeted, ConcatOp>;

/// The operator of `Concat`.
pub struct ConcatOp;

impl Operator<3> for ConcatOp {
    ghost OPERATOR = { ops.Concat };

    const OPERATOR: Op = Op::Concat;

    ghost takes = { refl };
}

/// The concatenation of two resource templates, stored in a target (ACPI 6.5, 20.2.5.4).
pub type ConcatRes = Operation<Targeted, ConcatResOp>;

/// The operator of `ConcatRes`.
pub struct ConcatResOp;

impl Operator<3> for ConcatResOp {
    ghost OPERATOR = { ops.ConcatRes };

    const OPERATOR: Op = Op::ConcatRes;

    ghost takes = { refl };
}

/// A reference to an element, stored in a target (ACPI 6.5, 20.2.5.4).
pub type Index = Operation<Targeted, IndexOp>;

/// The operator of `Index`.
pub struct IndexOp;

impl Operator<3> for IndexOp {
    ghost OPERATOR = { ops.Index };

    const OPERATOR: Op = Op::Index;

    ghost takes = { refl };
}

/// The bytes of a buffer as a string of a given length, stored in a target (ACPI 6.5, 20.2.5.4).
pub type ToString = Operation<Targeted, ToStringOp>;

/// The operator of `ToString`.
pub struct ToStringOp;

impl Operator<3> for ToStringOp {
    ghost OPERATOR = { ops.ToString };

    const OPERATOR: Op = Op::ToString;

    ghost takes = { refl };
}

/// A part of a string or buffer, stored in a target (ACPI 6.5, 20.2.5.4).
pub type Mid = Operation<Part, MidOp>;

/// The operator of `Mid`.
pub struct MidOp;

impl Operator<4> for MidOp {
    ghost OPERATOR = { ops.Mid };

    const OPERATOR: Op = Op::Mid;

    ghost takes = { refl };
}

/// An operand converted to a buffer, stored in a target (ACPI 6.5, 20.2.5.4).
pub type ToBuffer = Operation<Put, ToBufferOp>;

/// The operator of `ToBuffer`.
pub struct ToBufferOp;

impl Operator<2> for ToBufferOp {
    ghost OPERATOR = { ops.ToBuffer };

    const OPERATOR: Op = Op::ToBuffer;

    ghost takes = { refl };
}

/// An operand converted to a number, stored in a target (ACPI 6.5, 20.2.5.4).
pub type ToInteger = Operation<Put, ToIntegerOp>;

/// The operator of `ToInteger`.
pub struct ToIntegerOp;

impl Operator<2> for ToIntegerOp {
    ghost OPERATOR = { ops.ToInteger };

    const OPERATOR: Op = Op::ToInteger;

    ghost takes = { refl };
}

/// The number of an object's type (ACPI 6.5, 20.2.5.4).
pub type ObjectType = Operation<Single, ObjectTypeOp>;

/// The operator of `ObjectType`.
pub struct ObjectTypeOp;

impl Operator<1> for ObjectTypeOp {
    ghost OPERATOR = { ops.ObjectType };

    const OPERATOR: Op = Op::ObjectType;

    ghost takes = { refl };
}

/// The size of a string, buffer or package (ACPI 6.5, 20.2.5.4).
pub type SizeOf = Operation<Single, SizeOfOp>;

/// The operator of `SizeOf`.
pub struct SizeOfOp;

impl Operator<1> for SizeOfOp {
    ghost OPERATOR = { ops.SizeOf };

    const OPERATOR: Op = Op::SizeOf;

    ghost takes = { refl };
}

/// The object that a reference refers to (ACPI 6.5, 20.2.5.4).
pub type DeRefOf = Operation<Single, DeRefOfOp>;

/// The operator of `DeRefOf`.
pub struct DeRefOfOp;

impl Operator<1> for DeRefOfOp {
    ghost OPERATOR = { ops.DeRefOf };

    const OPERATOR: Op = Op::DeRefOf;

    ghost takes = { refl };
}
