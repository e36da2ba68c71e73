//! Tables that are written field by field.

use acpi_build::table::TableBuilder;
use acpi_tables::sdt::Sdt;
use acpi_tables::{Error, R};
use std::alloc::Global;
use std::test::Fail;
use test_support::{OEM, OEM_REVISION, OEM_TABLE, refuses, same};

fn table(alloc: Global, length: u32) -> R<Sdt> {
    Sdt::new(alloc, *b"WAET", length, 1, OEM, OEM_TABLE, OEM_REVISION)
}

// Each width, lowest byte first, after a header of 36 bytes. The length is 53, and all bytes sum to zero.
#[test]
fn fields(rt: HostRuntime) -> Result<(), Fail> {
    let mut builder = TableBuilder::new(table(rt.alloc(), 36));
    builder.byte(1);
    builder.word(0x0302);
    builder.dword(0x0706_0504);
    builder.qword(0x0f0e_0d0c_0b0a_0908);
    builder.bytes(b"\x10\x11");
    let table = builder.finish()?;
    same(
        table.as_slice(),
        b"WAET\x35\0\0\0\x01\xb4FOOBARCAFEDEAD\xef\xbe\xad\xdeRVAT\0\0\0\x01\x01\x02\x03\x04\x05\x06\x07\x08\x09\x0a\x0b\
        \x0c\x0d\x0e\x0f\x10\x11",
    )
}

// The error of the table stays.
#[test]
fn short_tables(rt: HostRuntime) -> Result<(), Fail> {
    let mut builder = TableBuilder::new(table(rt.alloc(), 35));
    builder.byte(1);
    refuses(builder.finish(), Error::ShortTable)
}
