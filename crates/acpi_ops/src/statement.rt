//! Statements and fields of buffers.

ghost use Rattle.std.specs.Prelude.{[], ◌∷◌, refl};
ghost use Rattle.acpi_base.specs.Object.{whole_ends_well, Builds};
ghost use Rattle.acpi_term.specs.declared.op.Op.TheVariants as ops;
ghost use Rattle.acpi_term.specs.Tree.{op, def_fatal};
ghost use Rattle.acpi_term.specs.Operator.{opcode};
ghost use Rattle.acpi_term.specs.Row.{row};

use crate::operator::{Bits, Operation, Operator, Pair, Put, Single, Targeted};
use acpi_base::error::R;
use acpi_base::object::Aml;
use acpi_base::sink::AmlSink;
use acpi_term::op::Op;
use acpi_term::row::bare;
use std::alloc::Global;

/// Stores a value in the object that the first argument names (ACPI 6.5, 20.2.5.4).
pub type Store = Operation<Put, StoreOp>;

/// The operator of `Store`.
pub struct StoreOp;

impl Operator<2> for StoreOp {
    ghost OPERATOR = { ops.Store };

    const OPERATOR: Op = Op::Store;

    ghost takes = { refl };
}

/// Notifies a device of an event: the device, and the number of the event (ACPI 6.5, 20.2.5.3).
pub type Notify = Operation<Pair, NotifyOp>;

/// The operator of `Notify`.
pub struct NotifyOp;

impl Operator<2> for NotifyOp {
    ghost OPERATOR = { ops.Notify };

    const OPERATOR: Op = Op::Notify;

    ghost takes = { refl };
}

/// Returns a value from a method (ACPI 6.5, 20.2.5.3).
pub type Return = Operation<Single, ReturnOp>;

/// The operator of `Return`.
pub struct ReturnOp;

impl Operator<1> for ReturnOp {
    ghost OPERATOR = { ops.Return };

    const OPERATOR: Op = Op::Return;

    ghost takes = { refl };
}

/// A field of 32 bits in a buffer: its name, the buffer, and the index of its first byte (ACPI 6.5, 20.2.5.2).
pub type CreateDWordField = Operation<Targeted, CreateDWordFieldOp>;

/// The operator of `CreateDWordField`.
pub struct CreateDWordFieldOp;

impl Operator<3> for CreateDWordFieldOp {
    ghost OPERATOR = { ops.CreateDWordField };

    const OPERATOR: Op = Op::CreateDWordField;

    ghost takes = { refl };
}

/// A field of 64 bits in a buffer: its name, the buffer, and the index of its first byte (ACPI 6.5, 20.2.5.2).
pub type CreateQWordField = Operation<Targeted, CreateQWordFieldOp>;

/// The operator of `CreateQWordField`.
pub struct CreateQWordFieldOp;

impl Operator<3> for CreateQWordFieldOp {
    ghost OPERATOR = { ops.CreateQWordField };

    const OPERATOR: Op = Op::CreateQWordField;

    ghost takes = { refl };
}

/// A field of any number of bits in a buffer (ACPI 6.5, 20.2.5.2).
pub type CreateField = Operation<Bits, CreateFieldOp>;

/// The operator of `CreateField`.
pub struct CreateFieldOp;

impl Operator<4> for CreateFieldOp {
    ghost OPERATOR = { ops.CreateField };

    const OPERATOR: Op = Op::CreateField;

    ghost takes = { refl };
}

/// Ends the innermost loop (ACPI 6.5, 20.2.5.3).
#[derive(Drop)]
pub struct Break {}

impl Break {
    /// The statement. It has no operands.
    pub fn new() -> Break {
        Break {}
    }
}

impl Aml for Break {
    ghost object = { λ _. row (op ops.Break) [] };

    ghost ends_well = { λ _. whole_ends_well (opcode ops.Break) };

    fn to_aml_bytes(&self, sink: &mut dyn AmlSink) -> R<()> {
        sink.vec(Op::Break.code())
    }
}

/// Tells the operating system of a fatal error (ACPI 6.5, 20.2.5.3, DefFatal).
pub type Fatal = Operation<Stop, FatalOp>;

/// The type of an error, its code, and an argument.
pub struct Stop;

/// The operator of `Fatal`.
pub struct FatalOp;

impl Operation<Stop, FatalOp> {
    /// The type and the code are those of the vendor. The argument is borrowed for the call. The error is the argument's.
    pub fn new(
        alloc: Global,
        kind: u8,
        code: u32,
        argument: &dyn Aml,
    ) -> R<Operation<Stop, FatalOp>>
        ensures { Builds result (row (def_fatal kind code) (object argument.now ∷ [])) }
    {
        let [a, b, c, d] = code.to_le_bytes();
        let bytes = bare(alloc, &[0x5b, 0x32, kind, a, b, c, d], &[argument])?;
        Ok(Operation::of(bytes))
    }
}
