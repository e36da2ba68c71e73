//! The errors of blocks.

use crate::blocks::{builds, fails};
use acpi_build::block::Block;
use acpi_build::eisa_id::EisaId;
use acpi_build::error::BuildError;
use acpi_tables::Error;
use acpi_tables::aml::{
    Arg, FieldAccessType, FieldEntry, FieldLockRule, FieldUpdateRule, Local, ONE, ZERO,
};
use acpi_term::op::Op;
use std::alloc::Global;
use std::test::Fail;
use test_support::agree;
use test_support::broken::Broken;

fn is_object(block: Block, wanted: Error) -> Result<(), Fail> {
    fails(block, BuildError::Object(wanted))
}

// The first error stays, and nothing after it counts.
#[test]
fn first_error(rt: HostRuntime) -> Result<(), Fail> {
    let mut block = Block::new(rt.alloc());
    block.device("COM");
    block.add(&Arg(7));
    block.end();
    block.end();
    block.end();
    is_object(block, Error::NamePart)
}

#[test]
fn values(rt: HostRuntime) -> Result<(), Fail> {
    let mut block = Block::new(rt.alloc());
    block.name("_HID", &EisaId("PNP0A0"));
    is_object(block, Error::EisaText)?;
    let mut block = Block::new(rt.alloc());
    block.add(&Local(8));
    is_object(block, Error::LocalNumber)?;
    let mut block = Block::new(rt.alloc());
    block.returns(&Broken {});
    is_object(block, Error::Sink(9))
}

#[test]
fn methods(rt: HostRuntime) -> Result<(), Fail> {
    let mut block = Block::new(rt.alloc());
    block.method("MTHD", 8, false);
    is_object(block, Error::MethodArgs)?;
    let mut block = Block::new(rt.alloc());
    block.method("MTH", 8, false);
    is_object(block, Error::NamePart)
}

// The text of a path of one part more than there may be.
fn long_path(alloc: Global) -> Result<String, Fail> {
    let mut text = String::from_str(alloc, "_SB_")?;
    for _ in 0..255 {
        text.push_str(".ABCD")?;
    }
    Ok(text)
}

#[test]
fn paths(rt: HostRuntime) -> Result<(), Fail> {
    let text = long_path(rt.alloc())?;
    let mut block = Block::new(rt.alloc());
    block.call(&text, &[]);
    is_object(block, Error::PathParts)?;
    let mut block = Block::new(rt.alloc());
    block.resources("");
    is_object(block, Error::NamePart)
}

#[test]
fn long_fields(rt: HostRuntime) -> Result<(), Fail> {
    let mut block = Block::new(rt.alloc());
    block.field(
        "PRST",
        FieldAccessType::Any,
        FieldLockRule::NoLock,
        FieldUpdateRule::Preserve,
        &[FieldEntry::Reserved(0x1000_0000)],
    );
    is_object(block, Error::PkgLength)
}

#[test]
fn operands(rt: HostRuntime) -> Result<(), Fail> {
    let mut block = Block::new(rt.alloc());
    block.operate(Op::Store, &[&ONE]);
    fails(block, BuildError::Operands)?;
    let mut block = Block::new(rt.alloc());
    block.operate(Op::Break, &[&ONE]);
    fails(block, BuildError::Operands)
}

#[test]
fn ends(rt: HostRuntime) -> Result<(), Fail> {
    let mut block = Block::new(rt.alloc());
    block.end();
    fails(block, BuildError::NoneOpen)?;
    let mut block = Block::new(rt.alloc());
    block.scope("_SB_");
    fails(block, BuildError::StillOpen)?;
    let mut block = Block::new(rt.alloc());
    block.scope("_SB_");
    block.end();
    block.end();
    fails(block, BuildError::NoneOpen)
}

// Adds this many zeros to a package.
fn package_of(alloc: Global, count: usize) -> Block {
    let mut block = Block::new(alloc);
    block.package();
    for _ in 0..count {
        block.add(&ZERO);
    }
    block
}

#[test]
fn full_packages(rt: HostRuntime) -> Result<(), Fail> {
    let alloc = rt.alloc();
    let mut block = package_of(alloc, 255);
    block.end();
    let mut wanted = Vec::from_slice(alloc, b"\x12\x42\x10\xff")?;
    wanted.resize(259, 0)?;
    builds(block, &wanted)?;
    is_object(package_of(alloc, 256), Error::PackageElements)?;
    let mut block = package_of(alloc, 255);
    block.package();
    block.end();
    is_object(block, Error::PackageElements)
}

#[test]
fn texts(rt: HostRuntime) -> Result<(), Fail> {
    for (error, text) in [
        (
            BuildError::Object(Error::NamePart),
            "a part of a path doesn't have four bytes",
        ),
        (
            BuildError::Operands,
            "an operator has another number of operands",
        ),
        (BuildError::NoneOpen, "no object is open"),
        (BuildError::StillOpen, "an object is still open"),
    ] {
        agree(&format!(in rt.alloc(); "{error}")?, text)?;
    }
    Ok(())
}
