//! Operation regions and their fields, byte for byte.

use acpi_tables::aml::{
    Field, FieldAccessType, FieldEntry, FieldLockRule, FieldUpdateRule, OpRegion, OpRegionSpace,
    Path,
};
use acpi_tables::{Error, R};
use std::alloc::Global;
use std::test::Fail;
use test_support::{equal, makes, refuses, same, written};

fn path(alloc: Global, text: &str) -> R<Path> {
    Path::new(alloc, text)
}

fn region(alloc: Global, space: OpRegionSpace) -> R<OpRegion> {
    OpRegion::new(path(alloc, "PRST")?, space, &0xcd8u16, &12u8)
}

#[test]
fn regions(rt: HostRuntime) -> Result<(), Fail> {
    let alloc = rt.alloc();
    for (space, number) in [
        (OpRegionSpace::SystemMemory, 0),
        (OpRegionSpace::SystemIO, 1),
        (OpRegionSpace::PCIConfig, 2),
        (OpRegionSpace::EmbeddedControl, 3),
        (OpRegionSpace::SMBus, 4),
        (OpRegionSpace::SystemCMOS, 5),
        (OpRegionSpace::PciBarTarget, 6),
        (OpRegionSpace::IPMI, 7),
        (OpRegionSpace::GeneralPurposeIO, 8),
        (OpRegionSpace::GenericSerialBus, 9),
    ] {
        let mut wanted = *b"\x5b\x80PRST\xff\x0b\xd8\x0c\x0a\x0c";
        equal(&(space as u8), &number)?;
        wanted[6] = number;
        makes(alloc, region(alloc, space), &wanted)?;
    }
    Ok(())
}

// An access type and the two rules.
type Kind = (FieldAccessType, FieldLockRule, FieldUpdateRule);

fn field(alloc: Global, name: &str, kind: Kind, entries: &[FieldEntry]) -> R<Field> {
    let (access, lock, update) = kind;
    let entries = Vec::from_slice(alloc, entries)?;
    Field::new(path(alloc, name)?, access, lock, update, entries)
}

const BYTES: Kind = (
    FieldAccessType::Byte,
    FieldLockRule::NoLock,
    FieldUpdateRule::WriteAsZeroes,
);

#[test]
fn fields(rt: HostRuntime) -> Result<(), Fail> {
    let entries = [FieldEntry::Reserved(32), FieldEntry::Named(*b"CPEN", 1)];
    makes(
        rt.alloc(),
        field(rt.alloc(), "PRST", BYTES, &entries),
        b"\x5b\x81\x0dPRST\x41\x00\x20CPEN\x01",
    )
}

#[test]
fn a_field_of_seven_entries(rt: HostRuntime) -> Result<(), Fail> {
    let kind = (
        FieldAccessType::Word,
        FieldLockRule::NoLock,
        FieldUpdateRule::WriteAsOnes,
    );
    let entries = [
        FieldEntry::Named(*b"MODE", 3),
        FieldEntry::Reserved(5),
        FieldEntry::Named(*b"BUSY", 1),
        FieldEntry::Named(*b"RATE", 7),
        FieldEntry::Named(*b"PAGE", 16),
        FieldEntry::Reserved(32),
        FieldEntry::Named(*b"SIZE", 48),
    ];
    makes(
        rt.alloc(),
        field(rt.alloc(), "REGS", kind, &entries),
        b"\x5b\x81\x23REGS\x22MODE\x03\x00\x05BUSY\x01RATE\x07PAGE\x10\x00\x20SIZE\x30",
    )
}

#[test]
fn a_field_of_three_entries(rt: HostRuntime) -> Result<(), Fail> {
    let kind = (
        FieldAccessType::DWord,
        FieldLockRule::Lock,
        FieldUpdateRule::Preserve,
    );
    let entries = [
        FieldEntry::Named(*b"LOW_", 20),
        FieldEntry::Reserved(12),
        FieldEntry::Named(*b"HIGH", 31),
    ];
    makes(
        rt.alloc(),
        field(rt.alloc(), "REGS", kind, &entries),
        b"\x5b\x81\x12REGS\x13LOW_\x14\x00\x0cHIGH\x1f",
    )
}

// Fails unless a field of an access type of this number has the flags of each rule, and these are the numbers of the rules.
fn flags(alloc: Global, access: FieldAccessType, number: u8) -> Result<(), Fail> {
    for (lock, locked) in [(FieldLockRule::NoLock, 0u8), (FieldLockRule::Lock, 1)] {
        for (update, rule) in [
            (FieldUpdateRule::Preserve, 0u8),
            (FieldUpdateRule::WriteAsOnes, 1),
            (FieldUpdateRule::WriteAsZeroes, 2),
        ] {
            equal(&[lock as u8, update as u8], &[locked, rule])?;
            let mut wanted = *b"\x5b\x81\x06PRST\xff";
            wanted[7] = number | (locked << 4) | (rule << 5);
            let field = field(alloc, "PRST", (access, lock, update), &[]);
            makes(alloc, field, &wanted)?;
        }
    }
    Ok(())
}

#[test]
fn field_flags(rt: HostRuntime) -> Result<(), Fail> {
    for (access, number) in [
        (FieldAccessType::Any, 0),
        (FieldAccessType::Byte, 1),
        (FieldAccessType::Word, 2),
        (FieldAccessType::DWord, 3),
        (FieldAccessType::QWord, 4),
        (FieldAccessType::Buffer, 5),
    ] {
        equal(&(access as u8), &number)?;
        flags(rt.alloc(), access, number)?;
    }
    Ok(())
}

fn reserved(alloc: Global, bits: usize) -> R<Field> {
    field(alloc, "PRST", BYTES, &[FieldEntry::Reserved(bits)])
}

// Fails unless a field of this many reserved bits has these bytes after its flags.
fn reserves(alloc: Global, bits: usize, end: &[u8]) -> Result<(), Fail> {
    let field = reserved(alloc, bits)?;
    let bytes = written(alloc, &field)?;
    same(bytes.get(8..).unwrap_or(&[]), end)
}

#[test]
fn field_lengths(rt: HostRuntime) -> Result<(), Fail> {
    let alloc = rt.alloc();
    let ends: [(usize, &[u8]); 8] = [
        (62, &[0x00, 0x3e]),
        (63, &[0x00, 0x4f, 0x03]),
        (0x234, &[0x00, 0x44, 0x23]),
        (4093, &[0x00, 0x4d, 0xff]),
        (4094, &[0x00, 0x8e, 0xff, 0x00]),
        (0x2_3456, &[0x00, 0x86, 0x45, 0x23]),
        (0x123_4567, &[0x00, 0xc7, 0x56, 0x34, 0x12]),
        (0xfff_ffff, &[0x00, 0xcf, 0xff, 0xff, 0xff]),
    ];
    for (bits, end) in ends {
        reserves(alloc, bits, end)?;
    }
    refuses(reserved(alloc, 0x1000_0000), Error::PkgLength)
}
