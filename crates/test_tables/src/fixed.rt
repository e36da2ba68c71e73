//! Layouts byte for byte, with checksums that were worked out by hand.

mod fadt;
mod pc;
mod qemu;
mod serial;
mod tpm;

use acpi_tables::bert::BERT;
use acpi_tables::facs::FACS;
use acpi_tables::rsdp::Rsdp;
use acpi_tables::spcr::SPCR;
use acpi_tables::{Aml, u8sum};
use std::alloc::Global;
use std::test::Fail;
use test_support::{OEM, OEM_REVISION, OEM_TABLE, equal, writes};

// Fails unless a table is these bytes, which sum to zero.
fn sums(alloc: Global, table: &dyn Aml, wanted: &[u8]) -> Result<(), Fail> {
    writes(alloc, table, wanted)?;
    equal(&u8sum(table)?, &0)
}

#[test]
fn rsdp(rt: HostRuntime) -> Result<(), Fail> {
    let alloc = rt.alloc();
    let rsdp = Rsdp::new(*b"CHYPER", 0xdead_beef);
    let wanted = b"RSD PTR \x14CHYPER\x02\0\0\0\0\x24\0\0\0\xef\xbe\xad\xde\0\0\0\0\xa4\0\0\0";
    sums(alloc, &rsdp, wanted)?;
    equal(&Rsdp::len(), &36)?;
    let numbered = Rsdp {
        signature: [1, 2, 3, 4, 5, 6, 7, 8],
        checksum: 9,
        oem_id: [10, 11, 12, 13, 14, 15],
        revision: 16,
        length: 0x1413_1211,
        xsdt_addr: 0x1c1b_1a19_1817_1615,
        extended_checksum: 0x1d,
    };
    let wanted = b"\x01\x02\x03\x04\x05\x06\x07\x08\x09\x0a\x0b\x0c\x0d\x0e\x0f\x10\
            \0\0\0\0\x11\x12\x13\x14\x15\x16\x17\x18\x19\x1a\x1b\x1c\x1d\0\0\0";
    writes(alloc, &numbered, wanted)
}

#[test]
fn facs(rt: HostRuntime) -> Result<(), Fail> {
    let alloc = rt.alloc();
    let first = b"FACS\x40\0\0\0\0\0\0\0\0\0\0\0\
            \0\0\0\0\0\0\0\0\0\0\0\0\0\0\0\0\
            \x01\0\0\0\0\0\0\0\0\0\0\0\0\0\0\0\
            \0\0\0\0\0\0\0\0\0\0\0\0\0\0\0\0";
    writes(alloc, &FACS::new(), first)?;
    equal(&FACS::len(), &64)?;
    let numbered = FACS {
        signature: [1, 2, 3, 4],
        length: 0x0807_0605,
        hardware_signature: 0x0c0b_0a09,
        waking: 0x100f_0e0d,
        lock: 0x1413_1211,
        flags: 0x1817_1615,
        x_waking: 0x201f_1e1d_1c1b_1a19,
        version: 0x21,
        ospm_flags: 0x2524_2322,
    };
    let wanted = b"\x01\x02\x03\x04\x05\x06\x07\x08\x09\x0a\x0b\x0c\x0d\x0e\x0f\x10\
            \x11\x12\x13\x14\x15\x16\x17\x18\x19\x1a\x1b\x1c\x1d\x1e\x1f\x20\
            \x21\0\0\0\x22\x23\x24\x25\0\0\0\0\0\0\0\0\
            \0\0\0\0\0\0\0\0\0\0\0\0\0\0\0\0";
    writes(alloc, &numbered, wanted)
}

#[test]
fn bert(rt: HostRuntime) -> Result<(), Fail> {
    let bert = BERT::new(
        OEM,
        OEM_TABLE,
        OEM_REVISION,
        0x1020_3040,
        0x5060_7080_90a0_b0c0,
    );
    let wanted =
        b"BERT\x30\0\0\0\x01\x76FOOBARCAFEDEAD\xef\xbe\xad\xdeRVAT\0\0\0\x01\x40\x30\x20\x10\xc0\xb0\xa0\x90\x80\x70\x60\x50";
    sums(rt.alloc(), &bert, wanted)
}

#[test]
fn spcr(rt: HostRuntime) -> Result<(), Fail> {
    let spcr = SPCR::sbi(OEM, OEM_TABLE, OEM_REVISION);
    let wanted = b"SPCR\x5a\0\0\0\x04\x85FOOBARCAFEDEAD\xef\xbe\xad\xdeRVAT\0\0\0\x01\
            \x15\0\0\0\0\0\0\0\0\0\0\0\0\0\0\0\
            \0\0\0\0\0\0\0\0\0\0\0\0\xff\xff\xff\xff\
            \0\0\0\0\0\0\0\0\0\0\0\0\0\0\0\0\x02\0\x58\0.\0";
    sums(rt.alloc(), &spcr, wanted)
}
