//! Operators, by their shape: the number of their operands, and the order in which these are written.

ghost use Rattle.std.specs.Prelude.{◌≡◌, ℕ, List, [], ◌∷◌, map};
ghost use Rattle.acpi_base.specs.Object.{whole, whole_ends_well, Builds};
ghost use Rattle.acpi_term.specs.declared.op.Op.{Op};
ghost use Rattle.acpi_term.specs.declared.op.Op.TheVariants.{LNot};
ghost use Rattle.acpi_term.specs.Tree.{op};
ghost use Rattle.acpi_term.specs.Operator.{IsKnown};
ghost use Rattle.acpi_term.specs.Row.{row};

use acpi_base::buffer::append_all;
use acpi_base::error::R;
use acpi_base::object::Aml;
use acpi_base::sink::AmlSink;
use acpi_term::op::Op;
use acpi_term::row::{bare, with_room};
use std::alloc::Global;
use std::marker::{Model, PhantomData};

/// An operator of `N` operands, with its target (ACPI 6.5, 20.2.5).
pub trait Operator<const N: usize> {
    ghost OPERATOR: { Op };

    /// The operator, whose opcode is written. It is one of this library, and its number of operands is `N`.
    const OPERATOR: Op;

    ghost takes: { IsKnown OPERATOR N };
}

/// An opcode, and operands in the order of a shape.
#[derive(Drop)]
pub struct Operation<Shape, O> {
    bytes: Vec<u8>,
    shape: PhantomData<Shape>,
    operator: PhantomData<O>,
}

impl<Shape, O> Model for Operation<Shape, O> {
    ghost Value = { List ℕ };

    ghost view = { λ o. o.bytes.items };
}

impl<Shape, O> Aml for Operation<Shape, O> {
    ghost object = { λ o. whole o };

    ghost ends_well = { λ o. whole_ends_well o };

    #[tactic(auto, using(acpi_base::proofs::Objects::refused_by_sink))]
    fn to_aml_bytes(&self, sink: &mut dyn AmlSink) -> R<()> {
        sink.vec(&self.bytes)
    }
}

impl<Shape, O> Operation<Shape, O> {
    // An operation of these bytes.
    pub(crate) fn of(bytes: Vec<u8>) -> Operation<Shape, O>
        ensures { result ≡ bytes.items }
    {
        Operation {
            bytes,
            shape: PhantomData,
            operator: PhantomData,
        }
    }

    fn over(alloc: Global, operator: Op, operands: &[&dyn Aml]) -> R<Operation<Shape, O>>
        ensures { Builds result (row (op operator) (map (λ a. object a.now) operands.now)) }
    {
        let bytes = bare(alloc, operator.code(), operands)?;
        Ok(Operation::of(bytes))
    }
}

/// One operand.
pub struct Single;

impl<O: Operator<1>> Operation<Single, O> {
    /// The operand is borrowed for the call. The error is the operand's.
    pub fn new(alloc: Global, a: &dyn Aml) -> R<Operation<Single, O>>
        ensures { Builds result (row (op O.OPERATOR) (object a.now ∷ [])) }
    {
        Operation::over(alloc, O::OPERATOR, &[a])
    }
}

/// Two operands, in the order of the arguments.
pub struct Pair;

impl<O: Operator<2>> Operation<Pair, O> {
    /// Written in the order `left`, `right`. The error is the first one in that order.
    pub fn new(alloc: Global, left: &dyn Aml, right: &dyn Aml) -> R<Operation<Pair, O>>
        ensures { Builds result (row (op O.OPERATOR) (object left.now ∷ object right.now ∷ [])) }
    {
        Operation::over(alloc, O::OPERATOR, &[left, right])
    }
}

/// One operand, and then a target.
pub struct Put;

impl<O: Operator<2>> Operation<Put, O> {
    /// Written in the order `a`, `target`. The error is the first one in that order.
    pub fn new(alloc: Global, target: &dyn Aml, a: &dyn Aml) -> R<Operation<Put, O>>
        ensures { Builds result (row (op O.OPERATOR) (object a.now ∷ object target.now ∷ [])) }
    {
        Operation::over(alloc, O::OPERATOR, &[a, target])
    }
}

/// Two operands, and then a target.
pub struct Targeted;

impl<O: Operator<3>> Operation<Targeted, O> {
    /// Written in the order `a`, `b`, `target`. The error is the first one in that order.
    pub fn new(
        alloc: Global,
        target: &dyn Aml,
        a: &dyn Aml,
        b: &dyn Aml,
    ) -> R<Operation<Targeted, O>>
        ensures { Builds result (row (op O.OPERATOR) (object a.now ∷ object b.now ∷ object target.now ∷ [])) }
    {
        Operation::over(alloc, O::OPERATOR, &[a, b, target])
    }
}

/// A part of an object: the object, the index of the part, its length, and the target.
pub struct Part;

impl<O: Operator<4>> Operation<Part, O> {
    /// Written in the order `source`, `index`, `length`, `result_to`. The error is the first one in that order.
    pub fn new(
        alloc: Global,
        source: &dyn Aml,
        index: &dyn Aml,
        length: &dyn Aml,
        result_to: &dyn Aml,
    ) -> R<Operation<Part, O>>
        ensures { Builds result (row (op O.OPERATOR) (object source.now ∷ object index.now ∷ object length.now
            ∷ object result_to.now ∷ [])) }
    {
        Operation::over(alloc, O::OPERATOR, &[source, index, length, result_to])
    }
}

/// A field of a buffer: the buffer, the index of the first bit, the number of bits, and the field's name.
pub struct Bits;

impl<O: Operator<4>> Operation<Bits, O> {
    /// Written in the order `source`, `bit_index`, `bit_num`, `name`. The error is the first one in that order.
    pub fn new(
        alloc: Global,
        name: &dyn Aml,
        source: &dyn Aml,
        bit_index: &dyn Aml,
        bit_num: &dyn Aml,
    ) -> R<Operation<Bits, O>>
        ensures { Builds result (row (op O.OPERATOR) (object source.now ∷ object bit_index.now ∷ object bit_num.now
            ∷ object name.now ∷ [])) }
    {
        Operation::over(alloc, O::OPERATOR, &[source, bit_index, bit_num, name])
    }
}

/// The negation of an operator of two operands.
pub struct Negated;

impl<O: Operator<2>> Operation<Negated, O> {
    /// Written as both opcodes, and then `left` and `right`. The error is the first one in that order.
    pub fn new(alloc: Global, left: &dyn Aml, right: &dyn Aml) -> R<Operation<Negated, O>>
        ensures { Builds result (row (op LNot) (row (op O.OPERATOR) (object left.now ∷ object right.now ∷ []) ∷ [])) }
    {
        let mut bytes = with_room(alloc, Op::LNot.code())?;
        bytes.extend_from_slice(O::OPERATOR.code())?;
        append_all(&[left, right], &mut bytes)?;
        Ok(Operation::of(bytes))
    }
}
