//! Every operator, as its bytes.

use acpi_ops::operator::{Bits, Negated, Operation, Operator, Pair, Part, Put, Single, Targeted};
use acpi_tables::aml::{
    Add, And, Concat, ConcatRes, CreateDWordField, CreateField, CreateQWordField, DeRefOf,
    Decrement, Equal, GreaterEqual, GreaterThan, Increment, Index, LAnd, LOr, LessEqual, LessThan,
    Local, Mid, Mod, Multiply, Nand, Nor, NotEqual, Notify, ObjectType, Or, Path, Return,
    ShiftLeft, ShiftRight, SizeOf, Store, Subtract, ToBuffer, ToInteger, ToString, Xor,
};
use acpi_tables::{Aml, R};
use std::alloc::Global;
use test_support::bytes_of;

/// An operator over one number. Its target, or the right one of two operands, is a local variable.
trait Made: Sized {
    fn made(alloc: Global, operand: &u32) -> R<Self>;
}

impl<O: Operator<1>> Made for Operation<Single, O> {
    fn made(alloc: Global, operand: &u32) -> R<Self> {
        Operation::<Single, O>::new(alloc, operand)
    }
}

impl<O: Operator<2>> Made for Operation<Pair, O> {
    fn made(alloc: Global, operand: &u32) -> R<Self> {
        Operation::<Pair, O>::new(alloc, operand, &Local(1))
    }
}

impl<O: Operator<2>> Made for Operation<Negated, O> {
    fn made(alloc: Global, operand: &u32) -> R<Self> {
        Operation::<Negated, O>::new(alloc, operand, &Local(1))
    }
}

impl<O: Operator<2>> Made for Operation<Put, O> {
    fn made(alloc: Global, operand: &u32) -> R<Self> {
        Operation::<Put, O>::new(alloc, &Local(1), operand)
    }
}

impl<O: Operator<3>> Made for Operation<Targeted, O> {
    fn made(alloc: Global, operand: &u32) -> R<Self> {
        Operation::<Targeted, O>::new(alloc, &Local(1), operand, operand)
    }
}

impl<O: Operator<4>> Made for Operation<Part, O> {
    fn made(alloc: Global, operand: &u32) -> R<Self> {
        Operation::<Part, O>::new(alloc, operand, operand, operand, &Local(1))
    }
}

impl<O: Operator<4>> Made for Operation<Bits, O> {
    fn made(alloc: Global, operand: &u32) -> R<Self> {
        let name = Path::new(alloc, "FLD0")?;
        Operation::<Bits, O>::new(alloc, &name, operand, operand, operand)
    }
}

fn bytes<T: Made + Aml + Drop>(alloc: Global, operand: &u32) -> R<Vec<u8>> {
    bytes_of(alloc, T::made(alloc, operand))
}

pub const OPERATORS: u8 = 37;

pub fn operator(alloc: Global, operand: &u32, which: u8) -> R<Vec<u8>> {
    match which {
        0 => bytes::<Add>(alloc, operand),
        1 => bytes::<And>(alloc, operand),
        2 => bytes::<Concat>(alloc, operand),
        3 => bytes::<ConcatRes>(alloc, operand),
        4 => bytes::<CreateDWordField>(alloc, operand),
        5 => bytes::<CreateField>(alloc, operand),
        6 => bytes::<CreateQWordField>(alloc, operand),
        7 => bytes::<DeRefOf>(alloc, operand),
        8 => bytes::<Decrement>(alloc, operand),
        9 => bytes::<Equal>(alloc, operand),
        10 => bytes::<GreaterEqual>(alloc, operand),
        11 => bytes::<GreaterThan>(alloc, operand),
        12 => bytes::<Increment>(alloc, operand),
        13 => bytes::<Index>(alloc, operand),
        14 => bytes::<LAnd>(alloc, operand),
        15 => bytes::<LOr>(alloc, operand),
        16 => bytes::<LessEqual>(alloc, operand),
        17 => bytes::<LessThan>(alloc, operand),
        18 => bytes::<Mid>(alloc, operand),
        19 => bytes::<Mod>(alloc, operand),
        20 => bytes::<Multiply>(alloc, operand),
        21 => bytes::<Nand>(alloc, operand),
        22 => bytes::<Nor>(alloc, operand),
        23 => bytes::<NotEqual>(alloc, operand),
        24 => bytes::<Notify>(alloc, operand),
        25 => bytes::<ObjectType>(alloc, operand),
        26 => bytes::<Or>(alloc, operand),
        27 => bytes::<Return>(alloc, operand),
        28 => bytes::<ShiftLeft>(alloc, operand),
        29 => bytes::<ShiftRight>(alloc, operand),
        30 => bytes::<SizeOf>(alloc, operand),
        31 => bytes::<Store>(alloc, operand),
        32 => bytes::<Subtract>(alloc, operand),
        33 => bytes::<ToBuffer>(alloc, operand),
        34 => bytes::<ToInteger>(alloc, operand),
        35 => bytes::<ToString>(alloc, operand),
        _ => bytes::<Xor>(alloc, operand),
    }
}
