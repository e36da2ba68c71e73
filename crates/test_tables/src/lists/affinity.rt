//! SRAT and its structures.

use acpi_base::error::Error;
use acpi_base::object::Aml;
use acpi_tables::srat::{GenericInitiator, Handle, MemoryAffinity, RintcAffinity, SRAT};
use std::alloc::Global;
use std::test::Fail;
use test_support::table::many;
use test_support::{OEM, OEM_REVISION, OEM_TABLE, all, equal, refuses, writes};

// The fields after the header.
const FIXED: [u8; 12] = [1, 0, 0, 0, 0, 0, 0, 0, 0, 0, 0, 0];

fn table(alloc: Global) -> SRAT {
    SRAT::new(alloc, OEM, OEM_TABLE, OEM_REVISION)
}

fn is_srat(alloc: Global, table: &mut SRAT) -> Result<(), Fail> {
    writes(
        alloc,
        table,
        b"SRAT\x30\0\0\0\x01\x48FOOBARCAFEDEAD\xef\xbe\xad\xdeRVAT\0\0\0\x01\x01\0\0\0\0\0\0\0\0\0\0\0",
    )?;
    let memory = MemoryAffinity::new(0x0403_0201, 0x1817_1615_1413_1211, 0x2827_2625_2423_2221);
    table.add_memory_affinity(memory.enabled().hotpluggable().nonvolatile())?;
    writes(
        alloc,
        table,
        b"SRAT\x58\0\0\0\x01\x1eFOOBARCAFEDEAD\xef\xbe\xad\xdeRVAT\0\0\0\x01\
            \x01\0\0\0\0\0\0\0\0\0\0\0\
            \x01\x28\x01\x02\x03\x04\0\0\x11\x12\x13\x14\x15\x16\x17\x18\
            \x21\x22\x23\x24\x25\x26\x27\x28\0\0\0\0\x07\0\0\0\0\0\0\0\0\0\0\0",
    )
}

#[test]
fn srat(rt: HostRuntime) -> Result<(), Fail> {
    is_srat(rt.alloc(), &mut table(rt.alloc()))
}

fn memory() -> MemoryAffinity {
    MemoryAffinity::new(0, 0, 0)
}

#[test]
fn memory_flags(rt: HostRuntime) -> Result<(), Fail> {
    for (memory, flags) in [
        (memory(), 0),
        (memory().enabled(), 1),
        (memory().hotpluggable(), 2),
        (memory().nonvolatile(), 4),
        (memory().enabled().enabled(), 1),
        (memory().enabled().hotpluggable(), 3),
        (memory().hotpluggable().enabled(), 3),
        (memory().hotpluggable().hotpluggable(), 2),
        (memory().nonvolatile().enabled(), 5),
        (memory().nonvolatile().hotpluggable(), 6),
        (memory().nonvolatile().nonvolatile(), 4),
    ] {
        let mut wanted = [0; 40];
        wanted[0] = 1;
        wanted[1] = 40;
        wanted[28] = flags;
        writes(rt.alloc(), &memory, &wanted)?;
    }
    Ok(())
}

fn initiator() -> GenericInitiator {
    GenericInitiator::new(0x0403_0201, Handle::new_acpi(*b"ABCDEFGH", *b"ijkl"))
}

// Initiators and harts with each of their fields, and flags that are set twice and together.
#[test]
fn initiators_and_harts(rt: HostRuntime) -> Result<(), Fail> {
    let acpi = Handle::new_acpi(*b"ABCDEFGH", *b"ijkl");
    let pci = Handle::new_pci(0x2211, 0x33, 31, 7);
    let architectural = GenericInitiator::new(9, Handle::new_pci(0, 0, 1, 0)).architectural();
    let rintc = RintcAffinity::new([0x42, 0x37, 0x58, 0xde], 0xde58_3742);
    all(
        rt.alloc(),
        &[
            (&acpi, b"ABCDEFGHijkl\0\0\0\0"),
            (
                &initiator(),
                b"\x05\x20\0\0\x01\x02\x03\x04ABCDEFGHijkl\0\0\0\0\0\0\0\0\0\0\0\0",
            ),
            (
                &initiator().enabled().enabled(),
                b"\x05\x20\0\0\x01\x02\x03\x04ABCDEFGHijkl\0\0\0\0\x01\0\0\0\0\0\0\0",
            ),
            (
                &initiator().architectural().architectural(),
                b"\x05\x20\0\0\x01\x02\x03\x04ABCDEFGHijkl\0\0\0\0\x02\0\0\0\0\0\0\0",
            ),
            (
                &initiator().enabled().architectural(),
                b"\x05\x20\0\0\x01\x02\x03\x04ABCDEFGHijkl\0\0\0\0\x03\0\0\0\0\0\0\0",
            ),
            (
                &initiator().architectural().enabled(),
                b"\x05\x20\0\0\x01\x02\x03\x04ABCDEFGHijkl\0\0\0\0\x03\0\0\0\0\0\0\0",
            ),
            (&pci, b"\x11\x22\x33\xff\0\0\0\0\0\0\0\0\0\0\0\0"),
            (
                &GenericInitiator::new(9, pci).enabled(),
                b"\x05\x20\0\x01\x09\0\0\0\x11\x22\x33\xff\0\0\0\0\0\0\0\0\0\0\0\0\x01\0\0\0\0\0\0\0",
            ),
            (
                &architectural,
                b"\x05\x20\0\x01\x09\0\0\0\0\0\0\x08\0\0\0\0\0\0\0\0\0\0\0\0\x02\0\0\0\0\0\0\0",
            ),
            (
                &rintc,
                b"\x07\x14\0\0\0\0\0\0\x42\x37\x58\xde\0\0\0\0\x42\x37\x58\xde",
            ),
            (
                &rintc.enabled(),
                b"\x07\x14\0\0\0\0\0\0\x42\x37\x58\xde\x01\0\0\0\x42\x37\x58\xde",
            ),
            (
                &rintc.enabled().enabled(),
                b"\x07\x14\0\0\0\0\0\0\x42\x37\x58\xde\x01\0\0\0\x42\x37\x58\xde",
            ),
            (
                &rintc.proximity_domain(0x0403_0201),
                b"\x07\x14\0\0\x01\x02\x03\x04\x42\x37\x58\xde\0\0\0\0\x42\x37\x58\xde",
            ),
        ],
    )
}

// A structure of each kind.
const EACH: [u8; 124] = *b"\x01\x28\x01\x02\x03\x04\0\0\x11\x12\0\0\0\0\0\0\
        \x21\x22\0\0\0\0\0\0\0\0\0\0\x01\0\0\0\0\0\0\0\0\0\0\0\
        \x05\x20\0\0\x11\x12\x13\x14ABCDEFGHijkl\0\0\0\0\x03\0\0\0\0\0\0\0\
        \x05\x20\0\x01\x21\x22\x23\x24\x31\x32\x33\x1c\0\0\0\0\0\0\0\0\0\0\0\0\0\0\0\0\0\0\0\0\
        \x07\x14\0\0\0\0\0\0\x01\x02\x03\x04\x01\0\0\0\x11\x12\x13\x14";

// Fails unless a table has these structures alone.
fn has(alloc: Global, table: &SRAT, structures: &[u8]) -> Result<(), Fail> {
    many(alloc, table, b"SRAT", 1, &FIXED, structures, 1)
}

// Fails unless a table has one structure of each kind, after each addition.
fn takes_each_kind(alloc: Global, table: &mut SRAT) -> Result<(), Fail> {
    table.add_memory_affinity(MemoryAffinity::new(0x0403_0201, 0x1211, 0x2221).enabled())?;
    has(alloc, table, &EACH[..40])?;
    let acpi = GenericInitiator::new(0x1413_1211, Handle::new_acpi(*b"ABCDEFGH", *b"ijkl"));
    table.add_generic_initiator(acpi.enabled().architectural())?;
    has(alloc, table, &EACH[..72])?;
    let pci = GenericInitiator::new(0x2423_2221, Handle::new_pci(0x3231, 0x33, 3, 4));
    table.add_generic_initiator(pci)?;
    has(alloc, table, &EACH[..104])?;
    table.add_rintc_affinity(RintcAffinity::new([1, 2, 3, 4], 0x1413_1211).enabled())?;
    has(alloc, table, &EACH)
}

#[test]
fn each_kind(rt: HostRuntime) -> Result<(), Fail> {
    takes_each_kind(rt.alloc(), &mut table(rt.alloc()))
}

// Fails unless an object refuses its address, and writes nothing.
fn refuses_its_address(alloc: Global, aml: &dyn Aml) -> Result<(), Fail> {
    let mut bytes = Vec::new(alloc);
    refuses(aml.to_aml_bytes(&mut bytes), Error::PciAddress)?;
    equal(&bytes.len(), &0)
}

// The table is unchanged.
fn refuses_addresses(alloc: Global, table: &mut SRAT) -> Result<(), Fail> {
    for (device, function) in [(32, 0), (0, 8), (255, 255)] {
        let handle = Handle::Pci {
            segment: 1,
            bus: 2,
            device,
            function,
        };
        let initiator = GenericInitiator::new(0, handle);
        refuses_its_address(alloc, &handle)?;
        refuses_its_address(alloc, &initiator)?;
        refuses(table.add_generic_initiator(initiator), Error::PciAddress)?;
    }
    has(alloc, table, &[])
}

fn takes_an_address(alloc: Global, table: &mut SRAT) -> Result<(), Fail> {
    refuses_addresses(alloc, table)?;
    table.add_generic_initiator(GenericInitiator::new(0, Handle::new_acpi([0; 8], [0; 4])))?;
    let initiator = b"\x05\x20\0\0\0\0\0\0\0\0\0\0\0\0\0\0\0\0\0\0\0\0\0\0\0\0\0\0\0\0\0\0";
    has(alloc, table, initiator)
}

#[test]
fn addresses_out_of_range(rt: HostRuntime) -> Result<(), Fail> {
    takes_an_address(rt.alloc(), &mut table(rt.alloc()))
}

fn takes_many(alloc: Global, table: &mut SRAT) -> Result<(), Fail> {
    for _ in 0..3_300u16 {
        table.add_rintc_affinity(RintcAffinity::new([1, 2, 3, 4], 5).enabled())?;
    }
    let rintc = b"\x07\x14\0\0\0\0\0\0\x01\x02\x03\x04\x01\0\0\0\x05\0\0\0";
    many(alloc, table, b"SRAT", 1, &FIXED, rintc, 3_300)
}

#[test]
fn many_affinities(rt: HostRuntime) -> Result<(), Fail> {
    takes_many(rt.alloc(), &mut table(rt.alloc()))
}
