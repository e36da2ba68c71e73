//! XSDT and MCFG.

use acpi_tables::mcfg::MCFG;
use acpi_tables::xsdt::XSDT;
use std::alloc::Global;
use std::test::Fail;
use test_support::table::many;
use test_support::{OEM, OEM_REVISION, OEM_TABLE, writes};

fn is_xsdt(alloc: Global, table: &mut XSDT) -> Result<(), Fail> {
    writes(
        alloc,
        table,
        b"XSDT\x24\0\0\0\x01\x4cFOOBARCAFEDEAD\xef\xbe\xad\xdeRVAT\0\0\0\x01",
    )?;
    table.add_entry(0x1000)?;
    writes(
        alloc,
        table,
        b"XSDT\x2c\0\0\0\x01\x34FOOBARCAFEDEAD\xef\xbe\xad\xdeRVAT\0\0\0\x01\0\x10\0\0\0\0\0\0",
    )?;
    table.add_entry(0x8877_6655_4433_2211)?;
    writes(
        alloc,
        table,
        b"XSDT\x34\0\0\0\x01\xc8FOOBARCAFEDEAD\xef\xbe\xad\xdeRVAT\0\0\0\x01\0\x10\0\0\0\0\0\0\x11\x22\x33\x44\x55\x66\x77\x88",
    )
}

fn empty(alloc: Global) -> XSDT {
    XSDT::new(alloc, OEM, OEM_TABLE, OEM_REVISION)
}

#[test]
fn xsdt(rt: HostRuntime) -> Result<(), Fail> {
    is_xsdt(rt.alloc(), &mut empty(rt.alloc()))
}

// Adds an entry several times. Fails unless a table has it this many times then.
fn has(alloc: Global, table: &mut XSDT, more: u32, count: u32) -> Result<(), Fail> {
    for _ in 0..more {
        table.add_entry(0xfedc_ba98_7654_3210)?;
    }
    let entry = b"\x10\x32\x54\x76\x98\xba\xdc\xfe";
    many(alloc, table, b"XSDT", 1, &[], entry, count)
}

fn takes_many(alloc: Global, table: &mut XSDT) -> Result<(), Fail> {
    has(alloc, table, 256, 256)?;
    has(alloc, table, 7_936, 8_192)
}

#[test]
fn many_entries(rt: HostRuntime) -> Result<(), Fail> {
    takes_many(rt.alloc(), &mut empty(rt.alloc()))
}

// Different entries. The length and the sum are right after each.
fn takes(alloc: Global, table: &mut XSDT, entries: &mut Vec<u8>) -> Result<(), Fail> {
    for i in 0..128u64 {
        table.add_entry(42 * i)?;
        entries.extend_from_slice(&(42 * i).to_le_bytes())?;
        many(alloc, table, b"XSDT", 1, &[], entries, 1)?;
    }
    Ok(())
}

#[test]
fn each_entry(rt: HostRuntime) -> Result<(), Fail> {
    takes(
        rt.alloc(),
        &mut empty(rt.alloc()),
        &mut Vec::new(rt.alloc()),
    )
}

fn is_mcfg(alloc: Global, table: &mut MCFG) -> Result<(), Fail> {
    writes(
        alloc,
        table,
        b"MCFG\x2c\0\0\0\x01\x6aFOOBARCAFEDEAD\xef\xbe\xad\xdeRVAT\0\0\0\x01\0\0\0\0\0\0\0\0",
    )?;
    table.add_ecam(0x0807_0605_0403_0201, 0x0a09, 0x0b, 0x0c)?;
    writes(
        alloc,
        table,
        b"MCFG\x3c\0\0\0\x01\x0cFOOBARCAFEDEAD\xef\xbe\xad\xdeRVAT\0\0\0\x01\
            \0\0\0\0\0\0\0\0\
            \x01\x02\x03\x04\x05\x06\x07\x08\x09\x0a\x0b\x0c\0\0\0\0",
    )
}

fn no_spaces(alloc: Global) -> MCFG {
    MCFG::new(alloc, OEM, OEM_TABLE, OEM_REVISION)
}

#[test]
fn mcfg(rt: HostRuntime) -> Result<(), Fail> {
    is_mcfg(rt.alloc(), &mut no_spaces(rt.alloc()))
}

fn takes_spaces(alloc: Global, table: &mut MCFG) -> Result<(), Fail> {
    for _ in 0..4_096u16 {
        table.add_ecam(u64::MAX, u16::MAX, u8::MAX, u8::MAX)?;
    }
    let entry = b"\xff\xff\xff\xff\xff\xff\xff\xff\xff\xff\xff\xff\0\0\0\0";
    many(alloc, table, b"MCFG", 1, &[0; 8], entry, 4_096)
}

#[test]
fn many_spaces(rt: HostRuntime) -> Result<(), Fail> {
    takes_spaces(rt.alloc(), &mut no_spaces(rt.alloc()))
}
