//! RSDT and FPDT, whose structures are addresses.

use crate::tables::is;
use acpi_tables::fpdt::FPDT;
use acpi_tables::rsdt::RSDT;
use std::alloc::Global;
use std::test::Fail;
use test_support::{OEM, OEM_REVISION, OEM_TABLE, equal};

// The addresses stand after the header, of four bytes each, lowest byte first.
fn takes_addresses(alloc: Global, rsdt: &mut RSDT) -> Result<(), Fail> {
    for address in [0x0403_0201, 0xffff_ffff, 0] {
        rsdt.add_entry(address)?;
    }
    equal(&(rsdt.len(), rsdt.count()), &(48, 3))?;
    let body = b"\x01\x02\x03\x04\xff\xff\xff\xff\0\0\0\0";
    is(alloc, rsdt, b"RSDT", 1, &[body])
}

#[test]
fn rsdt(rt: HostRuntime) -> Result<(), Fail> {
    let mut rsdt = RSDT::new(rt.alloc(), OEM, OEM_TABLE, OEM_REVISION);
    is(rt.alloc(), &rsdt, b"RSDT", 1, &[])?;
    takes_addresses(rt.alloc(), &mut rsdt)
}

fn takes_pointers(alloc: Global, fpdt: &mut FPDT) -> Result<(), Fail> {
    fpdt.add_boot_pointer(0x0807_0605_0403_0201)?;
    fpdt.add_s3_pointer(0x1817_1615_1413_1211)?;
    equal(&(fpdt.len(), fpdt.count()), &(68, 2))?;
    let body = b"\0\0\x10\x01\0\0\0\0\x01\x02\x03\x04\x05\x06\x07\x08\
        \x01\0\x10\x01\0\0\0\0\x11\x12\x13\x14\x15\x16\x17\x18";
    is(alloc, fpdt, b"FPDT", 1, &[body])
}

#[test]
fn fpdt(rt: HostRuntime) -> Result<(), Fail> {
    let mut fpdt = FPDT::new(rt.alloc(), OEM, OEM_TABLE, OEM_REVISION);
    takes_pointers(rt.alloc(), &mut fpdt)
}
