//! Terms that the language of the standard alone has: their constructors and calls.

use crate::blocks::{builds, fails};
use acpi_build::block::Block;
use acpi_build::error::BuildError;
use acpi_tables::aml::{
    BankFieldList, BufferData, FieldAccessType, FieldElement, FieldList, FieldLockRule,
    FieldUpdateRule, IndexFieldList, LeveledMethod, ONE, Path, RoomyPackage, ZERO,
};
use acpi_tables::{Aml, Error};
use std::alloc::Global;
use std::test::Fail;
use test_support::{makes, refuses};

// Names of texts (ACPI 6.5, 20.2.2, NameString).
#[test]
fn names(rt: HostRuntime) -> Result<(), Fail> {
    let alloc = rt.alloc();
    for (text, wanted) in [
        ("\\", &b"\x5c\0"[..]),
        ("^", b"\x5e\0"),
        ("^^^^", b"\x5e\x5e\x5e\x5e\0"),
        ("^ABCD", b"\x5eABCD"),
        ("^^ABCD.EFGH", b"\x5e\x5e\x2eABCDEFGH"),
        ("ABCD", b"ABCD"),
        ("\\ABCD.EFGH", b"\x5c\x2eABCDEFGH"),
        ("ABCD.EFGH.IJKL", b"\x2f\x03ABCDEFGHIJKL"),
    ] {
        makes(alloc, Path::name_string(alloc, text), wanted)?;
    }
    for text in [
        "",
        "ABC",
        "ABCDE",
        "^ABC",
        "^.ABCD",
        "ABCD^",
        "\\ABCD.",
        "^^ABCD.EF",
    ] {
        refuses(Path::name_string(alloc, text), Error::NamePart)?;
    }
    Ok(())
}

// The path of a text is still that of the port.
#[test]
fn paths(rt: HostRuntime) -> Result<(), Fail> {
    for text in ["\\", "^", "^ABCD", "^^ABCD.EFGH"] {
        refuses(Path::new(rt.alloc(), text), Error::NamePart)?;
    }
    Ok(())
}

// The text of a name of this many segments, and its bytes.
fn long_name(alloc: Global, count: u8) -> Result<(String, Vec<u8>), Fail> {
    let mut text = String::from_str(alloc, "^ABCD")?;
    let mut bytes = Vec::from_slice(alloc, &[0x5e, 0x2f, count, b'A', b'B', b'C', b'D'])?;
    for _ in 1..count {
        text.push_str(".ABCD")?;
        bytes.extend_from_slice(b"ABCD")?;
    }
    Ok((text, bytes))
}

#[test]
fn long_names(rt: HostRuntime) -> Result<(), Fail> {
    let alloc = rt.alloc();
    let (mut text, bytes) = long_name(alloc, 255)?;
    makes(alloc, Path::name_string(alloc, &text), &bytes)?;
    text.push_str(".ABCD")?;
    refuses(Path::name_string(alloc, &text), Error::PathParts)?;
    text.push_str(".ABC")?;
    refuses(Path::name_string(alloc, &text), Error::NamePart)
}

// Packages with room (ACPI 6.5, 20.2.5.4, DefPackage).
#[test]
fn packages(rt: HostRuntime) -> Result<(), Fail> {
    let alloc = rt.alloc();
    makes(
        alloc,
        RoomyPackage::new(0x80, Vec::new(alloc)),
        b"\x12\x02\x80",
    )?;
    makes(
        alloc,
        RoomyPackage::new(4, vec![in alloc; &ZERO as &dyn Aml, &ONE]?),
        b"\x12\x04\x04\0\x01",
    )?;
    makes(
        alloc,
        RoomyPackage::new(2, vec![in alloc; &ZERO as &dyn Aml, &ONE]?),
        b"\x12\x04\x02\0\x01",
    )?;
    refuses(
        RoomyPackage::new(1, vec![in alloc; &ZERO as &dyn Aml, &ONE]?),
        Error::PackageElements,
    )
}

// Adds this many zeros to a package with room for 255.
fn package_of(alloc: Global, count: usize) -> Block {
    let mut block = Block::new(alloc);
    block.package_with_room(255);
    for _ in 0..count {
        block.add(&ZERO);
    }
    block.end();
    block
}

#[test]
fn full_packages(rt: HostRuntime) -> Result<(), Fail> {
    let alloc = rt.alloc();
    builds(package_of(alloc, 0), b"\x12\x02\xff")?;
    let mut wanted = Vec::from_slice(alloc, b"\x12\x42\x10\xff")?;
    wanted.resize(259, 0)?;
    builds(package_of(alloc, 255), &wanted)?;
    fails(
        package_of(alloc, 256),
        BuildError::Object(Error::PackageElements),
    )
}

// Methods with each level (ACPI 6.5, 20.2.5.2, MethodFlags).
#[test]
fn methods(rt: HostRuntime) -> Result<(), Fail> {
    let alloc = rt.alloc();
    for level in 0..16 {
        let path = Path::new(alloc, "MTHD")?;
        makes(
            alloc,
            LeveledMethod::new(path, 2, true, level, Vec::new(alloc)),
            &[0x14, 0x06, b'M', b'T', b'H', b'D', 0x0a + 0x10 * level],
        )?;
    }
    let path = Path::new(alloc, "MTHD")?;
    refuses(
        LeveledMethod::new(path, 8, true, 16, Vec::new(alloc)),
        Error::FieldWidth,
    )?;
    let path = Path::new(alloc, "MTHD")?;
    refuses(
        LeveledMethod::new(path, 8, false, 15, Vec::new(alloc)),
        Error::MethodArgs,
    )
}

// Each element of a list of fields (ACPI 6.5, 20.2.5.2, FieldElement).
#[test]
fn fields(rt: HostRuntime) -> Result<(), Fail> {
    let alloc = rt.alloc();
    let mut elements = Vec::new(alloc);
    elements.push(FieldElement::Connection(Path::new(alloc, "\\_SB_.BUS0")?))?;
    elements.push(FieldElement::AccessAs(5, 8))?;
    elements.push(FieldElement::Named(*b"FLD0", 8))?;
    elements.push(FieldElement::ExtendedAccessAs(5, 0x0b, 16))?;
    elements.push(FieldElement::Reserved(8))?;
    let descriptor = BufferData::new(Vec::from_slice(alloc, &[0x8e, 0x01])?)?;
    elements.push(FieldElement::ConnectionBuffer(descriptor))?;
    makes(
        alloc,
        FieldList::new(
            &Path::new(alloc, "REG0")?,
            FieldAccessType::Buffer,
            FieldLockRule::NoLock,
            FieldUpdateRule::Preserve,
            elements,
        ),
        b"\x5b\x81\x26REG0\x05\x02\x5c\x2e_SB_BUS0\x01\x05\x08FLD0\x08\x03\x05\x0b\x10\0\x08\x02\x11\x05\x0a\x02\x8e\x01",
    )
}

#[test]
fn fields_of_fields(rt: HostRuntime) -> Result<(), Fail> {
    let alloc = rt.alloc();
    let mut elements = Vec::new(alloc);
    elements.push(FieldElement::AccessAs(1, 2))?;
    elements.push(FieldElement::Named(*b"IDX0", 8))?;
    makes(
        alloc,
        IndexFieldList::new(
            &Path::new(alloc, "INDX")?,
            &Path::new(alloc, "DATA")?,
            FieldAccessType::Byte,
            FieldLockRule::Lock,
            FieldUpdateRule::WriteAsOnes,
            elements,
        ),
        b"\x5b\x86\x12INDXDATA\x31\x01\x01\x02IDX0\x08",
    )?;
    let mut elements = Vec::new(alloc);
    elements.push(FieldElement::Connection(Path::new(alloc, "BUS0")?))?;
    makes(
        alloc,
        BankFieldList::new(
            &Path::new(alloc, "REG1")?,
            &Path::new(alloc, "BANK")?,
            &ONE,
            FieldAccessType::Byte,
            FieldLockRule::NoLock,
            FieldUpdateRule::WriteAsZeroes,
            elements,
        ),
        b"\x5b\x87\x10REG1BANK\x01\x41\x02BUS0",
    )
}

#[test]
fn long_fields(rt: HostRuntime) -> Result<(), Fail> {
    let alloc = rt.alloc();
    let mut elements = Vec::new(alloc);
    elements.push(FieldElement::Reserved(0x1000_0000))?;
    refuses(
        FieldList::new(
            &Path::new(alloc, "REG0")?,
            FieldAccessType::Any,
            FieldLockRule::NoLock,
            FieldUpdateRule::Preserve,
            elements,
        ),
        Error::PkgLength,
    )
}

// The same by calls of a block, with names after `^` and the root alone.
#[test]
fn calls(rt: HostRuntime) -> Result<(), Fail> {
    let mut block = Block::new(rt.alloc());
    block.scope("\\");
    block.add(&ZERO);
    block.end();
    block.name("^^PCI0", &ONE);
    block.call("^", &[]);
    block.leveled_method("MTHD", 2, true, 15);
    block.end();
    block.named_package_with_room("PAK0", 2);
    block.add(&ZERO);
    block.add(&ONE);
    block.end();
    let mut elements = Vec::new(rt.alloc());
    elements.push(FieldElement::AccessAs(0, 1))?;
    block.field_list(
        "^REG0",
        FieldAccessType::Any,
        FieldLockRule::NoLock,
        FieldUpdateRule::Preserve,
        elements,
    );
    builds(
        block,
        b"\x10\x04\x5c\0\0\x08\x5e\x5ePCI0\x01\x5e\0\x14\x06MTHD\xfa\x08PAK0\x12\x04\x02\0\x01\
        \x5b\x81\x0a\x5eREG0\0\x01\0\x01",
    )
}

#[test]
fn refused_calls(rt: HostRuntime) -> Result<(), Fail> {
    let mut block = Block::new(rt.alloc());
    block.leveled_method("MTHD", 8, true, 16);
    fails(block, BuildError::Object(Error::FieldWidth))?;
    let mut block = Block::new(rt.alloc());
    block.leveled_method("MTHD", 8, true, 15);
    fails(block, BuildError::Object(Error::MethodArgs))?;
    let mut block = Block::new(rt.alloc());
    block.leveled_method("^MTH", 8, true, 16);
    fails(block, BuildError::Object(Error::NamePart))?;
    let mut block = Block::new(rt.alloc());
    block.package_with_room(1);
    block.add(&ZERO);
    block.package();
    block.end();
    fails(block, BuildError::Object(Error::PackageElements))
}
