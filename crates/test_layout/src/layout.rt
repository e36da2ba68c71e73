//! Images of tables at their addresses.

use crate::found::{finds, sample};
use acpi_tables::facs::FACS;
use acpi_tables::fadt::FADTBuilder;
use acpi_tables::layout::{Image, lay};
use acpi_tables::mcfg::MCFG;
use acpi_tables::read::Table;
use acpi_tables::rhct::IsaStringNode;
use acpi_tables::sdt::Sdt;
use acpi_tables::{Aml, Error, R};
use std::alloc::Global;
use std::test::Fail;
use test_support::broken::Broken;
use test_support::{OEM, OEM_REVISION, OEM_TABLE, equal, refuses, same, writes};

pub(crate) fn fadt() -> FADTBuilder {
    FADTBuilder::new(OEM, OEM_TABLE, OEM_REVISION)
}

pub(crate) fn dsdt(alloc: Global, length: u32) -> R<Sdt> {
    Sdt::new(alloc, *b"DSDT", length, 2, OEM, OEM_TABLE, OEM_REVISION)
}

pub(crate) fn mcfg(alloc: Global) -> R<MCFG> {
    let mut table = MCFG::new(alloc, OEM, OEM_TABLE, OEM_REVISION);
    table.add_ecam(0xb000_0000, 0, 0, 0xff)?;
    Ok(table)
}

pub(crate) fn ssdt(alloc: Global, length: u32) -> R<Sdt> {
    Sdt::new(alloc, *b"SSDT", length, 2, OEM, OEM_TABLE, OEM_REVISION)
}

// An image at a multiple of 64.
fn image_of(units: u64, sdt: &Sdt, tables: Vec<&dyn Aml>) -> R<Image> {
    let base = units % 0x0400_0000_0000_0000 * 64;
    lay(
        base,
        OEM,
        OEM_TABLE,
        OEM_REVISION,
        sdt,
        &FACS::new(),
        fadt(),
        tables,
    )
}

pub(crate) fn image(alloc: Global, units: u64, sdt: &Sdt, tables: &[&dyn Aml]) -> R<Image> {
    image_of(units, sdt, Vec::from_slice(alloc, tables)?)
}

// All bytes are zero but these at their offsets.
pub(crate) fn holds(
    alloc: Global,
    bytes: &[u8],
    size: usize,
    parts: &[(usize, &[u8])],
) -> Result<(), Fail> {
    let mut wanted = Vec::new(alloc);
    wanted.resize(size, 0)?;
    for (at, part) in parts {
        if *at > wanted.len() || part.len() > wanted.len() - *at {
            return Err(Fail::new(format_args!("no room at {at}")));
        }
        wanted[*at..*at + part.len()].copy_from_slice(*part);
    }
    same(bytes, &wanted)
}

// An image has its RSDP at this address, and its bytes are zero but these at their offsets.
pub(crate) fn is(
    alloc: Global,
    image: Image,
    rsdp: u64,
    size: usize,
    parts: &[(usize, &[u8])],
) -> Result<(), Fail> {
    equal(&image.rsdp, &rsdp)?;
    holds(alloc, &image.bytes, size, parts)
}

// The FACS without its zeros at the end, a DSDT of 36 bytes, an FADT up to its DSDT's address.
pub(crate) const SHARED: [u8; 33] =
    *b"FACS\x40\0\0\0\0\0\0\0\0\0\0\0\0\0\0\0\0\0\0\0\0\0\0\0\0\0\0\0\x01";

pub(crate) const EMPTY_DSDT: [u8; 36] =
    *b"DSDT\x24\0\0\0\x02_FOOBARCAFEDEAD\xef\xbe\xad\xdeRVAT\0\0\0\x01";

const FIXED: [u8; 36] = *b"FACP\x14\x01\0\0\x06\x1aFOOBARCAFEDEAD\xef\xbe\xad\xdeRVAT\0\0\0\x01";

const POINTERS: [u8; 17] = *b"\x05\0\x10\0\0\0\0\0\0\x40\x10\0\0\0\0\0\0";

fn without_tables(alloc: Global) -> R<Image> {
    image(alloc, 0x40, &dsdt(alloc, 36)?, &[])
}

#[test]
fn no_tables(rt: HostRuntime) -> Result<(), Fail> {
    is(
        rt.alloc(),
        without_tables(rt.alloc())?,
        0x11b0,
        468,
        &[
            (0, &SHARED),
            (64, &EMPTY_DSDT),
            (104, &FIXED),
            (235, &POINTERS),
            (
                384,
                b"XSDT\x2c\0\0\0\x01\xccFOOBARCAFEDEAD\xef\xbe\xad\xdeRVAT\0\0\0\x01\x68\x10\0\0\0\0\0\0",
            ),
            (
                432,
                b"RSD PTR \x26FOOBAR\x02\0\0\0\0\x24\0\0\0\x80\x11\0\0\0\0\0\0\x4b\0\0\0",
            ),
        ],
    )
}

#[test]
fn one_table(rt: HostRuntime) -> Result<(), Fail> {
    is(
        rt.alloc(),
        sample(rt.alloc())?,
        0x1200,
        548,
        &[
            (0, &SHARED),
            (64, &EMPTY_DSDT),
            (0x68, &FIXED),
            (235, &POINTERS),
            (
                0x180,
                b"MCFG\x3c\0\0\0\x01\xabFOOBARCAFEDEAD\xef\xbe\xad\xdeRVAT\0\0\0\x01\
                    \0\0\0\0\0\0\0\0\
                    \0\0\0\xb0\0\0\0\0\0\0\0\xff\0\0\0\0",
            ),
            (
                0x1c0,
                b"XSDT\x34\0\0\0\x01\x33FOOBARCAFEDEAD\xef\xbe\xad\xdeRVAT\0\0\0\x01\x68\x10\0\0\0\0\0\0\x80\x11\0\0\0\0\0\0",
            ),
            (
                0x200,
                b"RSD PTR \x26FOOBAR\x02\0\0\0\0\x24\0\0\0\xc0\x11\0\0\0\0\0\0\x0b\0\0\0",
            ),
        ],
    )
}

// The number in this many bytes at an offset, lowest first.
pub(crate) fn number(bytes: &[u8], offset: u64, width: u64) -> u64 {
    let mut value = 0u64;
    for i in 0..width {
        let place = offset.wrapping_add(width).wrapping_sub(i).wrapping_sub(1);
        let byte = match bytes.get(place as usize) {
            Some(byte) => *byte,
            None => 0,
        };
        value = value.wrapping_mul(256).wrapping_add(byte as u64);
    }
    value
}

// This many bytes at an offset, or none.
fn part(bytes: &[u8], offset: u64, size: u64) -> &[u8] {
    let at = offset as usize;
    bytes.get(at..at.wrapping_add(size as usize)).unwrap_or(&[])
}

// The signature and the bytes of the table at an offset, as long as its length field says.
fn table_at(bytes: &[u8], offset: u64) -> Result<([u8; 4], &[u8]), Fail> {
    let size = number(bytes, offset.wrapping_add(4), 4);
    let table = Table::check(part(bytes, offset, size))?;
    Ok((table.signature(), table.bytes()))
}

// There are at most this many bytes between two offsets, all zero. The second offset is a multiple of the number after it.
fn gap(bytes: &[u8], from: u64, to: u64, most: u64) -> Result<(), Fail> {
    equal(&(to & most, to.wrapping_sub(from) <= most), &(0, true))?;
    for offset in from..to {
        equal(&number(bytes, offset, 1), &0)?;
    }
    Ok(())
}

// The offset of the XSDT, which the RSDP at the end has.
fn listed(bytes: &[u8], base: u64, rsdp: u64) -> Result<u64, Fail> {
    let place = rsdp.wrapping_sub(base);
    equal(&(bytes.len() as u64), &place.wrapping_add(36))?;
    same(part(bytes, place, 8), b"RSD PTR ")?;
    Ok(number(bytes, place.wrapping_add(24), 8).wrapping_sub(base))
}

// The FADT at an offset points to the FACS at the start and to this DSDT, which ends before it. Returns the FADT's end.
fn points(bytes: &[u8], base: u64, offset: u64, sdt: &Sdt) -> Result<u64, Fail> {
    let (signature, fadt) = table_at(bytes, offset)?;
    equal(&signature, b"FACP")?;
    equal(&number(fadt, 36, 8), &0)?;
    equal(&number(fadt, 132, 8), &base)?;
    equal(&number(fadt, 140, 8), &base.wrapping_add(64))?;
    same(part(bytes, 0, 8), b"FACS\x40\0\0\0")?;
    let (_, contents) = table_at(bytes, 64)?;
    same(contents, sdt.as_slice())?;
    gap(bytes, 64u64.wrapping_add(sdt.len() as u64), offset, 7)?;
    Ok(offset.wrapping_add(276))
}

// This table stands at an offset, with zeros before it. Returns its end.
fn stands_at(
    alloc: Global,
    bytes: &[u8],
    before: u64,
    offset: u64,
    wanted: &dyn Aml,
) -> Result<u64, Fail> {
    let (_, table) = table_at(bytes, offset)?;
    writes(alloc, wanted, table)?;
    let _ = pieces(alloc, table)?;
    gap(bytes, before, offset, 7)?;
    Ok(offset.wrapping_add(table.len() as u64))
}

// The number of pieces of a table.
fn pieces(alloc: Global, table: &[u8]) -> Result<usize, Fail> {
    Ok(Table::check(table)?.pieces(alloc)?.len())
}

// At the entries of an XSDT are the FADT and these tables, in order. Returns the end of the last.
fn stand(
    alloc: Global,
    (bytes, base): (&[u8], u64),
    xsdt: &[u8],
    sdt: &Sdt,
    tables: &[&dyn Aml],
) -> Result<u64, Fail> {
    let fadt = number(xsdt, 36, 8).wrapping_sub(base);
    let mut end = points(bytes, base, fadt, sdt)?;
    let mut entry = 44u64;
    for wanted in tables {
        let offset = number(xsdt, entry, 8).wrapping_sub(base);
        end = stands_at(alloc, bytes, end, offset, *wanted)?;
        entry = entry.wrapping_add(8);
    }
    Ok(end)
}

// From the RSDP on all tables are found, in order and whole, and between them are zeros.
fn follows(
    alloc: Global,
    base: u64,
    image: &Image,
    sdt: &Sdt,
    tables: &[&dyn Aml],
) -> Result<(), Fail> {
    let bytes = image.bytes.as_slice();
    let listed = listed(bytes, base, image.rsdp)?;
    let (signature, xsdt) = table_at(bytes, listed)?;
    equal(&signature, b"XSDT")?;
    equal(&pieces(alloc, xsdt)?, &tables.len().wrapping_add(1))?;
    let end = stand(alloc, (bytes, base), xsdt, sdt, tables)?;
    gap(bytes, end, listed, 7)?;
    let end = listed.wrapping_add(xsdt.len() as u64);
    gap(bytes, end, image.rsdp.wrapping_sub(base), 15)?;
    finds(
        alloc,
        (bytes, base, image.rsdp),
        tables.len().wrapping_add(5),
    )
}

// The image of these tables at a multiple of 64, all of which are found in it.
fn laid(alloc: Global, units: u64, sdt: &Sdt, tables: &[&dyn Aml]) -> Result<Image, Fail> {
    let made = image(alloc, units, sdt, tables)?;
    follows(alloc, units.wrapping_mul(64), &made, sdt, tables)?;
    Ok(made)
}

// A DSDT of 36 bytes and an SSDT of 37, both longer by a number, between two MCFGs.
fn lays_three(alloc: Global, units: u64, more: u32) -> Result<(), Fail> {
    let mcfg = mcfg(alloc)?;
    let other = ssdt(alloc, more.wrapping_add(37))?;
    let sdt = dsdt(alloc, more.wrapping_add(36))?;
    laid(alloc, units, &sdt, &[&mcfg, &other, &mcfg])?;
    Ok(())
}

#[test]
fn pointers(rt: HostRuntime) -> Result<(), Fail> {
    // 0, 0x1000, 0x1c00_0000, above 32 bits, the last 32 KiB
    for units in [0, 0x40, 0x0070_0000, 0x0400_0001, 0x03ff_ffff_ffff_fe00] {
        for more in 0..17u32 {
            lays_three(rt.alloc(), units, more)?;
        }
    }
    Ok(())
}

// An image with 200 times the same table.
fn laid_often(alloc: Global, table: &dyn Aml) -> Result<Image, Fail> {
    let tables = vec![in alloc; table; 200]?;
    laid(alloc, 0x40, &dsdt(alloc, 1001)?, &tables)
}

// Fails unless an image has its RSDP at this address, and this many bytes.
fn ends(image: Image, rsdp: u64, size: usize) -> Result<(), Fail> {
    equal(&(image.rsdp, image.bytes.len()), &(rsdp, size))
}

// 64 and 1,001 bytes, the FADT at 1,072, tables of 64 bytes from 1,352 on, entries for 201, the RSDP at 15,808.
#[test]
fn many_tables(rt: HostRuntime) -> Result<(), Fail> {
    let mcfg = mcfg(rt.alloc())?;
    ends(laid_often(rt.alloc(), &mcfg)?, 0x4dc0, 15_844)
}

// The image of an FADT to which the caller gave addresses.
fn pointed(alloc: Global, sdt: &Sdt) -> R<Image> {
    let fadt = fadt().firmware_ctrl_32(0x0403_0201).dsdt_32(0x0807_0605);
    lay(
        0x1000,
        OEM,
        OEM_TABLE,
        OEM_REVISION,
        sdt,
        &FACS::new(),
        fadt.acpi_enable(),
        Vec::new(alloc),
    )
}

// All tables are found in such an image, and ACPI_ENABLE of its FADT is 1.
fn is_pointed(alloc: Global, image: Image, sdt: &Sdt) -> Result<(), Fail> {
    follows(alloc, 0x1000, &image, sdt, &[])?;
    equal(&number(&image.bytes, 156, 2), &1)
}

#[test]
fn pointers_of_the_caller(rt: HostRuntime) -> Result<(), Fail> {
    let sdt = dsdt(rt.alloc(), 36)?;
    is_pointed(rt.alloc(), pointed(rt.alloc(), &sdt)?, &sdt)
}

// 468 bytes fit into the last 512.
#[test]
fn the_end_of_memory(rt: HostRuntime) -> Result<(), Fail> {
    let sdt = dsdt(rt.alloc(), 36)?;
    let made = laid(rt.alloc(), 0x03ff_ffff_ffff_fff8, &sdt, &[])?;
    ends(made, 0xffff_ffff_ffff_ffb0, 468)
}

// 468 bytes don't fit into the last 448.
#[test]
fn past_the_end_of_memory(rt: HostRuntime) -> Result<(), Fail> {
    let sdt = dsdt(rt.alloc(), 36)?;
    for units in 0x03ff_ffff_ffff_fff9..0x0400_0000_0000_0000u64 {
        refuses(image(rt.alloc(), units, &sdt, &[]), Error::FieldWidth)?;
    }
    Ok(())
}

// An image at the last 512 bytes, with a DSDT of this length.
fn at_the_end(alloc: Global, length: u32) -> R<Image> {
    image(alloc, 0x03ff_ffff_ffff_fff8, &dsdt(alloc, length)?, &[])
}

// 500 bytes fit into the last 512, and 516 don't.
#[test]
fn the_longest_image_at_the_end(rt: HostRuntime) -> Result<(), Fail> {
    ends(at_the_end(rt.alloc(), 68)?, 0xffff_ffff_ffff_ffd0, 500)?;
    refuses(at_the_end(rt.alloc(), 84), Error::FieldWidth)
}

// Fails unless an image of these tables is refused.
fn refused(alloc: Global, units: u64, tables: Vec<&dyn Aml>, wanted: Error) -> Result<(), Fail> {
    let sdt = dsdt(alloc, 36)?;
    refuses(image_of(units, &sdt, tables), wanted)
}

#[test]
fn broken_tables(rt: HostRuntime) -> Result<(), Fail> {
    let mcfg = mcfg(rt.alloc())?;
    let broken = Broken {};
    for units in [0, 0x40, 0x03ff_ffff_ffff_ffff] {
        let alone = vec![in rt.alloc(); &broken as &dyn Aml]?;
        refused(rt.alloc(), units, alone, Error::Sink(9))?;
        let between = vec![in rt.alloc(); &mcfg as &dyn Aml, &broken, &mcfg]?;
        refused(rt.alloc(), units, between, Error::Sink(9))?;
    }
    Ok(())
}

const LETTERS: [u8; 65_526] = [b'a'; 65_526];

// Of two refusals the first is told.
#[test]
fn the_first_refusal(rt: HostRuntime) -> Result<(), Fail> {
    let mcfg = mcfg(rt.alloc())?;
    let broken = Broken {};
    let long = IsaStringNode::new(str::from_utf8(&LETTERS)?);
    let tables = vec![in rt.alloc(); &mcfg as &dyn Aml, &long, &broken]?;
    refused(rt.alloc(), 0x40, tables, Error::FieldWidth)?;
    let tables = vec![in rt.alloc(); &mcfg as &dyn Aml, &broken, &long]?;
    refused(rt.alloc(), 0x40, tables, Error::Sink(9))
}
