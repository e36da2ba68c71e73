//! The bytes of every operator.

use acpi_tables::aml::{
    Add, And, Arg, Break, Concat, ConcatRes, CreateDWordField, CreateField, CreateQWordField,
    DeRefOf, Decrement, Equal, GreaterEqual, GreaterThan, Increment, Index, LAnd, LOr, LessEqual,
    LessThan, Local, Mid, Mod, Multiply, Nand, Nor, NotEqual, Notify, ONE, ObjectType, Or, Return,
    ShiftLeft, ShiftRight, SizeOf, Store, Subtract, ToBuffer, ToInteger, ToString, While, Xor,
};
use acpi_tables::{Aml, R};
use std::alloc::Global;
use std::test::Fail;
use test_support::makes;

const TO: Local = Local(7);

const A: Local = Local(0);

const B: Arg = Arg(0);

fn targeted<T: Aml + Drop>(alloc: Global, made: R<T>, code: u8) -> Result<(), Fail> {
    makes(alloc, made, &[code, 0x60, 0x68, 0x67])
}

fn put<T: Aml + Drop>(alloc: Global, made: R<T>, code: u8) -> Result<(), Fail> {
    makes(alloc, made, &[code, 0x60, 0x67])
}

fn pair<T: Aml + Drop>(alloc: Global, made: R<T>, code: u8) -> Result<(), Fail> {
    makes(alloc, made, &[code, 0x60, 0x68])
}

fn opposite<T: Aml + Drop>(alloc: Global, made: R<T>, code: u8) -> Result<(), Fail> {
    makes(alloc, made, &[0x92, code, 0x60, 0x68])
}

fn single<T: Aml + Drop>(alloc: Global, made: R<T>, code: u8) -> Result<(), Fail> {
    makes(alloc, made, &[code, 0x60])
}

#[test]
fn sums(rt: HostRuntime) -> Result<(), Fail> {
    let alloc = rt.alloc();
    targeted(alloc, Add::new(alloc, &TO, &A, &B), 0x72)?;
    targeted(alloc, Subtract::new(alloc, &TO, &A, &B), 0x74)?;
    targeted(alloc, Multiply::new(alloc, &TO, &A, &B), 0x77)?;
    targeted(alloc, Mod::new(alloc, &TO, &A, &B), 0x85)?;
    targeted(alloc, ShiftLeft::new(alloc, &TO, &A, &B), 0x79)?;
    targeted(alloc, ShiftRight::new(alloc, &TO, &A, &B), 0x7a)
}

#[test]
fn bits(rt: HostRuntime) -> Result<(), Fail> {
    let alloc = rt.alloc();
    targeted(alloc, And::new(alloc, &TO, &A, &B), 0x7b)?;
    targeted(alloc, Nand::new(alloc, &TO, &A, &B), 0x7c)?;
    targeted(alloc, Or::new(alloc, &TO, &A, &B), 0x7d)?;
    targeted(alloc, Nor::new(alloc, &TO, &A, &B), 0x7e)?;
    targeted(alloc, Xor::new(alloc, &TO, &A, &B), 0x7f)
}

#[test]
fn joins_and_fields(rt: HostRuntime) -> Result<(), Fail> {
    let alloc = rt.alloc();
    targeted(alloc, Concat::new(alloc, &TO, &A, &B), 0x73)?;
    targeted(alloc, ConcatRes::new(alloc, &TO, &A, &B), 0x84)?;
    targeted(alloc, Index::new(alloc, &TO, &A, &B), 0x88)?;
    targeted(alloc, ToString::new(alloc, &TO, &A, &B), 0x9c)?;
    targeted(alloc, CreateDWordField::new(alloc, &TO, &A, &B), 0x8a)?;
    targeted(alloc, CreateQWordField::new(alloc, &TO, &A, &B), 0x8f)
}

#[test]
fn values_put(rt: HostRuntime) -> Result<(), Fail> {
    let alloc = rt.alloc();
    put(alloc, Store::new(alloc, &TO, &A), 0x70)?;
    put(alloc, ToBuffer::new(alloc, &TO, &A), 0x96)?;
    put(alloc, ToInteger::new(alloc, &TO, &A), 0x99)
}

#[test]
fn comparisons(rt: HostRuntime) -> Result<(), Fail> {
    let alloc = rt.alloc();
    pair(alloc, Equal::new(alloc, &A, &B), 0x93)?;
    pair(alloc, LessThan::new(alloc, &A, &B), 0x95)?;
    pair(alloc, GreaterThan::new(alloc, &A, &B), 0x94)?;
    pair(alloc, LAnd::new(alloc, &A, &B), 0x90)?;
    pair(alloc, LOr::new(alloc, &A, &B), 0x91)?;
    pair(alloc, Notify::new(alloc, &A, &B), 0x86)?;
    makes(alloc, LAnd::new(alloc, &B, &ONE), &[0x90, 0x68, 0x01])
}

#[test]
fn opposites(rt: HostRuntime) -> Result<(), Fail> {
    let alloc = rt.alloc();
    opposite(alloc, NotEqual::new(alloc, &A, &B), 0x93)?;
    opposite(alloc, GreaterEqual::new(alloc, &A, &B), 0x95)?;
    opposite(alloc, LessEqual::new(alloc, &A, &B), 0x94)
}

#[test]
fn values_of_one(rt: HostRuntime) -> Result<(), Fail> {
    let alloc = rt.alloc();
    single(alloc, ObjectType::new(alloc, &A), 0x8e)?;
    single(alloc, SizeOf::new(alloc, &A), 0x87)?;
    single(alloc, DeRefOf::new(alloc, &A), 0x83)?;
    single(alloc, Return::new(alloc, &A), 0xa4)?;
    single(alloc, Increment::new(alloc, &A), 0x75)?;
    single(alloc, Decrement::new(alloc, &A), 0x76)
}

#[test]
fn of_four(rt: HostRuntime) -> Result<(), Fail> {
    let alloc = rt.alloc();
    makes(
        alloc,
        Mid::new(alloc, &Local(0), &Local(1), &Local(2), &Local(3)),
        &[0x9e, 0x60, 0x61, 0x62, 0x63],
    )?;
    makes(
        alloc,
        CreateField::new(alloc, &Local(7), &Local(0), &Local(1), &Local(2)),
        &[0x5b, 0x13, 0x60, 0x61, 0x62, 0x67],
    )
}

#[test]
fn breaks(rt: HostRuntime) -> Result<(), Fail> {
    let alloc = rt.alloc();
    makes(alloc, Ok(Break::new()), &[0xa5])?;
    let end = Break::new();
    let body: Vec<&dyn Aml> = vec![in alloc; &end as &dyn Aml]?;
    makes(alloc, While::new(&ONE, body), &[0xa2, 0x03, 0x01, 0xa5])
}
