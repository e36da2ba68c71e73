//! Each call of a block.

use acpi_build::block::Block;
use acpi_build::eisa_id::EisaId;
use acpi_build::error::BuildError;
use acpi_tables::aml::{
    FieldAccessType, FieldEntry, FieldLockRule, FieldUpdateRule, IO, ONE, OpRegionSpace, ZERO,
};
use acpi_term::op::Op;
use std::test::Fail;
use test_support::same;

/// The block's bytes.
pub fn bytes_of(block: Block) -> Result<Vec<u8>, Fail> {
    match block.finish() {
        Ok(bytes) => Ok(bytes),
        Err(error) => Err(Fail::new(format_args!("{error:?}"))),
    }
}

/// Fails unless a block has these bytes.
pub fn builds(block: Block, wanted: &[u8]) -> Result<(), Fail> {
    same(&bytes_of(block)?, wanted)
}

/// Fails unless a block has this error.
pub fn fails(block: Block, wanted: BuildError) -> Result<(), Fail> {
    match block.finish() {
        Ok(_) => Err(Fail::new("no error")),
        Err(error) if error == wanted => Ok(()),
        Err(error) => Err(Fail::new(format_args!("{error:?}, not {wanted:?}"))),
    }
}

#[test]
fn nothing(rt: HostRuntime) -> Result<(), Fail> {
    builds(Block::new(rt.alloc()), b"")
}

// Objects that aren't opened.
#[test]
fn single_objects(rt: HostRuntime) -> Result<(), Fail> {
    let mut block = Block::new(rt.alloc());
    block.add(&0x1234u16);
    block.name("_UID", &ONE);
    block.name("\\_SB_.X___", &"AB");
    block.name("_HID", &EisaId("PNP0A08"));
    block.call("\\_SB_.LNKA", &[]);
    block.call("MTHD", &[&ZERO, &"C"]);
    block.operate(Op::Store, &[&ONE, &ZERO]);
    block.operate(Op::Sleep, &[&0x10u8]);
    block.returns(&15u8);
    block.external("_SB_.PCI0.MTHD", 8, 2);
    builds(
        block,
        b"\x0b\x34\x12\x08_UID\x01\x08\x5c\x2e_SB_X___\x0dAB\0\x08_HID\x0c\x41\xd0\x0a\x08\x5c\x2e_SB_LNKA\
        MTHD\0\x0dC\0\x70\x01\0\x5b\x22\x0a\x10\xa4\x0a\x0f\x15\x2f\x03_SB_PCI0MTHD\x08\x02",
    )
}

// Regions, their fields, and mutexes.
#[test]
fn regions(rt: HostRuntime) -> Result<(), Fail> {
    let mut block = Block::new(rt.alloc());
    block.region("PRST", OpRegionSpace::SystemIO, &0x0cd8u16, &12u8);
    block.field(
        "PRST",
        FieldAccessType::DWord,
        FieldLockRule::Lock,
        FieldUpdateRule::WriteAsOnes,
        &[FieldEntry::Named(*b"PEN_", 1), FieldEntry::Reserved(7)],
    );
    block.mutex("CPLK", 2);
    block.acquire("CPLK", 0xfffe);
    block.release("CPLK");
    builds(
        block,
        b"\x5b\x80PRST\x01\x0b\xd8\x0c\x0a\x0c\x5b\x81\x0dPRST\x33PEN_\x01\0\x07\x5b\x01CPLK\x02\x5b\x23CPLK\xfe\xff\
        \x5b\x27CPLK",
    )
}

// Each object that is opened, with a zero in it.
#[test]
fn opened_objects(rt: HostRuntime) -> Result<(), Fail> {
    let mut block = Block::new(rt.alloc());
    block.scope("\\_SB_");
    block.add(&ZERO);
    block.end();
    block.device("COM1");
    block.add(&ZERO);
    block.end();
    block.thermal_zone("TZ00");
    block.add(&ZERO);
    block.end();
    block.processor("\\_PR_.C000", 3, 0x0403_0201, 6);
    block.add(&ZERO);
    block.end();
    block.power_resource("PWR0", 5, 0x0201);
    block.add(&ZERO);
    block.end();
    block.method("MTH0", 7, true);
    block.add(&ZERO);
    block.end();
    block.method("MTH1", 0, false);
    block.end();
    builds(
        block,
        b"\x10\x07\x5c_SB_\0\x5b\x82\x06COM1\0\x5b\x85\x06TZ00\0\x5b\x83\x12\x5c\x2e_PR_C000\x03\x01\x02\x03\x04\x06\0\
        \x5b\x84\x09PWR0\x05\x01\x02\0\x14\x07MTH0\x0f\0\x14\x06MTH1\0",
    )
}

#[test]
fn statements(rt: HostRuntime) -> Result<(), Fail> {
    let mut block = Block::new(rt.alloc());
    block.if_true(&ONE);
    block.returns(&ZERO);
    block.end();
    block.otherwise();
    block.returns(&ONE);
    block.end();
    block.while_true(&ONE);
    block.operate(Op::Break, &[]);
    block.end();
    builds(block, b"\xa0\x04\x01\xa4\0\xa1\x03\xa4\x01\xa2\x03\x01\xa5")
}

// A package counts what is added to it: objects, names, calls, operators, and packages within it.
#[test]
fn packages(rt: HostRuntime) -> Result<(), Fail> {
    let mut block = Block::new(rt.alloc());
    block.package();
    block.end();
    block.named_package("_PRT");
    block.package();
    block.add(&0xffffu16);
    block.add(&ZERO);
    block.call("LNKA", &[]);
    block.add(&ZERO);
    block.end();
    block.add(&ONE);
    block.end();
    builds(
        block,
        b"\x12\x02\0\x08_PRT\x12\x0f\x02\x12\x0b\x04\x0b\xff\xff\0LNKA\0\x01",
    )
}

// Resource descriptors, with the size of the buffer and the end tag (ACPI 6.5, 6.4.2.9).
#[test]
fn resources(rt: HostRuntime) -> Result<(), Fail> {
    let mut block = Block::new(rt.alloc());
    block.resources("_CRS");
    block.end();
    block.resources("_PRS");
    block.add(&IO::new(0x3f8, 0x3f8, 0, 8));
    block.end();
    builds(
        block,
        b"\x08_CRS\x11\x05\x0a\x02\x79\0\x08_PRS\x11\x0d\x0a\x0a\x47\x01\xf8\x03\xf8\x03\0\x08\x79\0",
    )
}

// What is opened in an opened object counts in the lengths around it.
#[test]
fn nested(rt: HostRuntime) -> Result<(), Fail> {
    let mut block = Block::new(rt.alloc());
    block.scope("_SB_");
    block.device("PCI0");
    block.method("_STA", 0, false);
    block.if_true(&ONE);
    block.returns(&15u8);
    block.end();
    block.returns(&ZERO);
    block.end();
    block.name("_UID", &ZERO);
    block.end();
    block.end();
    block.add(&ONE);
    builds(
        block,
        b"\x10\x21_SB_\x5b\x82\x1aPCI0\x14\x0e_STA\0\xa0\x05\x01\xa4\x0a\x0f\xa4\0\x08_UID\0\x01",
    )
}
