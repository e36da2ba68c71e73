//! Named and framed objects, byte for byte.

use super::make::{device, method, named, scope};
use acpi_tables::aml::{
    Acquire, Add, AmlStr, AmlString, Arg, CreateField, Else, If, LessThan, Local, MethodCall,
    Mutex, Name, NotEqual, ONE, Path, PowerResource, Release, Return, Scope, While, ZERO,
};
use acpi_tables::{Aml, Error, R};
use std::alloc::Global;
use std::test::Fail;
use test_support::{equal, makes, refuses, same, writes, written};

fn path(alloc: Global, text: &str) -> R<Path> {
    Path::new(alloc, text)
}

fn none(alloc: Global) -> Vec<&'static dyn Aml> {
    Vec::new(alloc)
}

#[test]
fn texts_of_no_path(rt: HostRuntime) -> Result<(), Fail> {
    for text in [
        "",
        "\\",
        "ABC",
        "ABCDE",
        "ABCD.",
        ".ABCD",
        ".ABC",
        "ABC.",
        "ABCD..EFG",
        "ABCD.EFG.",
        "AB.D",
        "A.CD",
        "ABC.DEFG",
        "ABCD..EFGH",
        "ABCDEFGHI",
        "ABCD.EF.H",
        "ABCD\\EFGH",
    ] {
        refuses(path(rt.alloc(), text), Error::NamePart)?;
    }
    Ok(())
}

#[test]
fn paths(rt: HostRuntime) -> Result<(), Fail> {
    let alloc = rt.alloc();
    let rows: [(&str, &[u8]); 4] = [
        ("\\_SB_.COM1", b"\x5c\x2e_SB_COM1"),
        ("\\_SB_", b"\x5c_SB_"),
        ("_SB_.PCI0.COM1", b"\x2f\x03_SB_PCI0COM1"),
        ("FLD0", b"FLD0"),
    ];
    for (text, wanted) in rows {
        makes(alloc, path(alloc, text), wanted)?;
    }
    makes(alloc, Name::new_field_name(alloc, "FLD0"), b"FLD0")
}

// A path with `more` parts after its first.
fn long_path(alloc: Global, more: usize) -> R<Path> {
    let mut text = String::from_str(alloc, "_SB_")?;
    for _ in 0..more {
        text.push_str(".ABCD")?;
    }
    path(alloc, &text)
}

#[test]
fn long_paths(rt: HostRuntime) -> Result<(), Fail> {
    let alloc = rt.alloc();
    let mut wanted = Vec::from_slice(alloc, b"\x2f\xff_SB_")?;
    wanted.extend_from_slice(&b"ABCD".as_slice().repeat(alloc, 254)?)?;
    equal(&wanted.len(), &1022)?;
    makes(alloc, long_path(alloc, 254), &wanted)?;
    refuses(long_path(alloc, 255), Error::PathParts)
}

#[test]
fn strings(rt: HostRuntime) -> Result<(), Fail> {
    let alloc = rt.alloc();
    let mut text: AmlString = String::new(alloc);
    writes(alloc, &text, &[0x0d, 0x00])?;
    text.push_str("ACPI")?;
    writes(alloc, &text, b"\x0dACPI\0")
}

#[test]
fn borrowed_strings(rt: HostRuntime) -> Result<(), Fail> {
    let text: AmlStr = "ab";
    let mut bytes = Vec::new(rt.alloc());
    text.to_aml_bytes(&mut bytes)?;
    same(&bytes, b"\x0dab\0")
}

#[test]
fn methods(rt: HostRuntime) -> Result<(), Fail> {
    let alloc = rt.alloc();
    let answer = Return::new(alloc, &15u8)?;
    let method = method(alloc, ("_STA", 0, false), &[&answer]);
    makes(alloc, method, b"\x14\x09_STA\x00\xa4\x0a\x0f")
}

#[test]
fn arguments_of_methods(rt: HostRuntime) -> Result<(), Fail> {
    let alloc = rt.alloc();
    let serialized = method(alloc, ("_STA", 7, true), &[]);
    makes(alloc, serialized, b"\x14\x06_STA\x0f")?;
    let eight = method(alloc, ("_STA", 8, false), &[]);
    refuses(eight, Error::MethodArgs)
}

#[test]
fn calls(rt: HostRuntime) -> Result<(), Fail> {
    let alloc = rt.alloc();
    let five = 5u8;
    let args: Vec<&dyn Aml> = vec![in alloc; &ONE as &dyn Aml, &five]?;
    makes(
        alloc,
        MethodCall::new(path(alloc, "MTHD")?, args),
        b"MTHD\x01\x0a\x05",
    )
}

#[test]
fn variables(rt: HostRuntime) -> Result<(), Fail> {
    let alloc = rt.alloc();
    for (number, code) in [
        (0, 0x60),
        (1, 0x61),
        (2, 0x62),
        (3, 0x63),
        (4, 0x64),
        (5, 0x65),
        (6, 0x66),
        (7, 0x67),
    ] {
        writes(alloc, &Local(number), &[code])?;
    }
    for (number, code) in [
        (0, 0x68),
        (1, 0x69),
        (2, 0x6a),
        (3, 0x6b),
        (4, 0x6c),
        (5, 0x6d),
        (6, 0x6e),
    ] {
        writes(alloc, &Arg(number), &[code])?;
    }
    refuses(written(alloc, &Local(8)), Error::LocalNumber)?;
    refuses(written(alloc, &Arg(7)), Error::ArgNumber)
}

fn hid(alloc: Global) -> R<Name> {
    named(alloc, "_HID", &1u8)
}

#[test]
fn names(rt: HostRuntime) -> Result<(), Fail> {
    let alloc = rt.alloc();
    makes(alloc, hid(alloc), b"\x08_HID\x01")?;
    makes(
        alloc,
        named(alloc, "_SB_.PCI3._ADR", &0x1234u16),
        b"\x08\x2f\x03_SB_PCI3_ADR\x0b\x34\x12",
    )
}

#[test]
fn devices(rt: HostRuntime) -> Result<(), Fail> {
    let alloc = rt.alloc();
    let device = device(alloc, "COM1", &[&hid(alloc)?]);
    makes(alloc, device, b"\x5b\x82\x0bCOM1\x08_HID\x01")
}

#[test]
fn scopes(rt: HostRuntime) -> Result<(), Fail> {
    let alloc = rt.alloc();
    let scope = scope(alloc, "_SB_", &[&hid(alloc)?]);
    makes(alloc, scope, b"\x10\x0b_SB_\x08_HID\x01")
}

#[test]
fn a_scope_of_bytes(rt: HostRuntime) -> Result<(), Fail> {
    let alloc = rt.alloc();
    let inside = written(alloc, &hid(alloc)?)?;
    let raw = Scope::raw(path(alloc, "_SB_")?, inside)?;
    same(&raw, b"\x10\x0b_SB_\x08_HID\x01")
}

fn power(alloc: Global, level: u8, order: u16) -> R<PowerResource> {
    PowerResource::new(path(alloc, "PRSC")?, level, order, none(alloc))
}

#[test]
fn power_resources(rt: HostRuntime) -> Result<(), Fail> {
    let alloc = rt.alloc();
    makes(alloc, power(alloc, 0, 0), b"\x5b\x84\x08PRSC\0\0\0")?;
    makes(
        alloc,
        power(alloc, 5, 0x1234),
        b"\x5b\x84\x08PRSC\x05\x34\x12",
    )
}

#[test]
fn branches(rt: HostRuntime) -> Result<(), Fail> {
    let alloc = rt.alloc();
    let differs = NotEqual::new(alloc, &Arg(0), &ZERO)?;
    let answer = Return::new(alloc, &ONE)?;
    let body: Vec<&dyn Aml> = vec![in alloc; &answer as &dyn Aml]?;
    makes(
        alloc,
        If::new(&differs, body),
        &[0xa0, 0x07, 0x92, 0x93, 0x68, 0x00, 0xa4, 0x01],
    )?;
    makes(alloc, Else::new(none(alloc)), &[0xa1, 0x01])
}

// A loop that counts up to five.
fn counting(alloc: Global) -> R<While> {
    let below = LessThan::new(alloc, &Local(0), &5u8)?;
    let next = Add::new(alloc, &Local(0), &Local(0), &ONE)?;
    While::new(&below, vec![in alloc; &next as &dyn Aml]?)
}

#[test]
fn loops(rt: HostRuntime) -> Result<(), Fail> {
    let wanted = [0xa2, 0x09, 0x95, 0x60, 0x0a, 0x05, 0x72, 0x60, 0x01, 0x60];
    makes(rt.alloc(), counting(rt.alloc()), &wanted)
}

fn acquired(alloc: Global, timeout: u16) -> R<Acquire> {
    Ok(Acquire::new(path(alloc, "MUTX")?, timeout))
}

#[test]
fn mutexes(rt: HostRuntime) -> Result<(), Fail> {
    let alloc = rt.alloc();
    writes(
        alloc,
        &Mutex::new(path(alloc, "MUTX")?, 3),
        b"\x5b\x01MUTX\x03",
    )?;
    makes(alloc, acquired(alloc, 0xffff), b"\x5b\x23MUTX\xff\xff")?;
    makes(alloc, acquired(alloc, 0x1234), b"\x5b\x23MUTX\x34\x12")?;
    writes(alloc, &Release::new(path(alloc, "MUTX")?), b"\x5b\x27MUTX")
}

#[test]
fn buffer_fields(rt: HostRuntime) -> Result<(), Fail> {
    let alloc = rt.alloc();
    let name = Name::new_field_name(alloc, "FLD0")?;
    let field = CreateField::new(alloc, &name, &Arg(0), &0u8, &8u8);
    makes(alloc, field, b"\x5b\x13\x68\x00\x0a\x08FLD0")
}
