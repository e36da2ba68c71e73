//! Checksums, numbers, constants and tables, byte for byte.

mod large;
mod registers;
mod values;

use acpi_tables::aml::{ONE, ONES, ZERO};
use acpi_tables::sdt::Sdt;
use acpi_tables::{AmlSink, Checksum, Error, R, u8sum};
use std::alloc::Global;
use std::test::Fail;
use test_support::{OEM, OEM_REVISION, OEM_TABLE, all, equal, refuses, same, writes};

fn adds_up(checksum: &mut Checksum) -> Result<(), Fail> {
    equal(&checksum.value(), &0)?;
    checksum.add(1);
    equal(&checksum.value(), &255)?;
    checksum.add(1);
    equal(&checksum.value(), &254)?;
    checksum.add(255);
    checksum.add(1);
    equal(&checksum.value(), &254)?;
    checksum.append(&[255]);
    equal(&checksum.value(), &255)?;
    checksum.append(&[128, 128]);
    equal(&checksum.value(), &255)?;
    checksum.add(1);
    equal(&checksum.value(), &254)?;
    equal(&checksum.raw_value(), &2)
}

fn takes_off(checksum: &mut Checksum) -> Result<(), Fail> {
    checksum.delete(&[1, 255]);
    checksum.sub(2);
    equal(&checksum.raw_value(), &0)?;
    checksum.append(b"abc");
    checksum.delete(b"c");
    equal(&checksum.raw_value(), &0xc3)?;
    checksum.delete(&[0xc0, 0x10]);
    equal(&checksum.raw_value(), &0xf3)
}

#[test]
fn checksums(_: HostRuntime) -> Result<(), Fail> {
    let mut checksum = Checksum::default();
    adds_up(&mut checksum)?;
    takes_off(&mut checksum)
}

#[test]
fn constants(rt: HostRuntime) -> Result<(), Fail> {
    equal(&u8sum(&ONES)?, &0xff)?;
    all(
        rt.alloc(),
        &[(&ZERO, &[0x00]), (&ONE, &[0x01]), (&ONES, &[0xff])],
    )
}

// The bytes that a sink gets from `byte`, `word`, `dword` and `qword`, and two more.
const WIDE: [u8; 17] = [
    0x12, 0x56, 0x34, 0xde, 0xbc, 0x9a, 0x78, 8, 7, 6, 5, 4, 3, 2, 1, 0xaa, 0xbb,
];

fn give(sink: &mut dyn AmlSink) -> R<()> {
    sink.byte(0x12)?;
    sink.word(0x3456)?;
    sink.dword(0x789a_bcde)?;
    sink.qword(0x0102_0304_0506_0708)?;
    sink.vec(&[0xaa, 0xbb])
}

#[test]
fn wide_writes(rt: HostRuntime) -> Result<(), Fail> {
    let mut bytes = Vec::new(rt.alloc());
    give(&mut bytes)?;
    same(&bytes, &WIDE)
}

pub(super) fn dsdt(alloc: Global) -> R<Sdt> {
    Sdt::new(alloc, *b"DSDT", 36, 2, OEM, OEM_TABLE, OEM_REVISION)
}

// Fails unless the table has this length, checksum and content, and otherwise the header of `dsdt`.
fn whole_is(table: &Sdt, len: u8, checksum: u8, contents: &[u8]) -> Result<(), Fail> {
    let mut header = *b"DSDT\0\0\0\0\x02\0FOOBARCAFEDEAD\xef\xbe\xad\xdeRVAT\0\0\0\x01";
    header[4] = len;
    header[9] = checksum;
    equal(&table.len(), &contents.len().wrapping_add(36))?;
    same(table.as_slice().get(..36).unwrap_or(&[]), &header)?;
    same(table.as_slice().get(36..).unwrap_or(&[]), contents)
}

fn takes_bytes(alloc: Global, table: &mut Sdt) -> Result<(), Fail> {
    equal(&table.is_empty(), &false)?;
    whole_is(table, 36, 0x5f, &[])?;
    table.append_slice(&[])?;
    whole_is(table, 36, 0x5f, &[])?;
    table.update_checksum();
    whole_is(table, 36, 0x5f, &[])?;
    writes(alloc, table, table.as_slice())?;
    table.append_slice(&[0x12, 0x04, 0x02, 0x00, 0x01])?;
    whole_is(table, 41, 0x41, &[0x12, 0x04, 0x02, 0x00, 0x01])?;
    table.update_checksum();
    whole_is(table, 41, 0x41, &[0x12, 0x04, 0x02, 0x00, 0x01])
}

#[test]
fn tables(rt: HostRuntime) -> Result<(), Fail> {
    takes_bytes(rt.alloc(), &mut dsdt(rt.alloc())?)
}

fn of_length(alloc: Global, length: u32) -> R<Sdt> {
    Sdt::new(alloc, *b"DSDT", length, 2, *b"FOOBAR", *b"CAFEDEAD", 1)
}

#[test]
fn short_tables(rt: HostRuntime) -> Result<(), Fail> {
    refuses(of_length(rt.alloc(), 35), Error::ShortTable)?;
    let long = of_length(rt.alloc(), 40)?;
    equal(&long.len(), &40)?;
    let end = long.as_slice().get(32..).unwrap_or(&[]);
    same(end, &[0, 0, 0, 1, 0, 0, 0, 0])
}

fn takes_values(table: &mut Sdt) -> Result<(), Fail> {
    table.append(0x1234u16)?;
    whole_is(table, 38, 0x17, &[0x34, 0x12])?;
    if table.len() != 38 {
        return Err(Fail::new("another length"));
    }
    table.write_u8(36, 0);
    whole_is(table, 38, 0x4b, &[0x00, 0x12])?;
    table.append([0u8; 0])?;
    whole_is(table, 38, 0x4b, &[0x00, 0x12])
}

#[test]
fn values_at_the_end_and_at_offsets(rt: HostRuntime) -> Result<(), Fail> {
    takes_values(&mut dsdt(rt.alloc())?)
}

// Writes over the checksum, and then over the length.
fn takes_a_length(table: &mut Sdt) -> Result<(), Fail> {
    if table.len() != 36 {
        return Err(Fail::new("another length"));
    }
    table.write_u8(9, 0xff);
    whole_is(table, 36, 0x5f, &[])?;
    if table.len() != 36 {
        return Err(Fail::new("another length"));
    }
    table.write_u32(4, 1000);
    equal(&table.len(), &36)?;
    let start = table.as_slice().get(..10).unwrap_or(&[]);
    same(start, b"DSDT\xe8\x03\0\0\x02\x98")?;
    table.byte(0xaa)?;
    whole_is(table, 37, 0xb4, &[0xaa])
}

#[test]
fn a_length_that_the_caller_wrote(rt: HostRuntime) -> Result<(), Fail> {
    takes_a_length(&mut dsdt(rt.alloc())?)
}

#[test]
fn a_table_as_a_sink(rt: HostRuntime) -> Result<(), Fail> {
    let mut table = dsdt(rt.alloc())?;
    give(&mut table)?;
    whole_is(&table, 53, 0x7d, &WIDE)
}
