//! Processors and interrupt translation services in SRAT.

use acpi_tables::srat::{
    GicItsAffinity, GiccAffinity, ProcessorLocalApicAffinity, ProcessorLocalX2ApicAffinity, SRAT,
};
use std::alloc::Global;
use std::test::Fail;
use test_support::table::many;
use test_support::{OEM, OEM_REVISION, OEM_TABLE, all, writes};

// Structures with each of their fields, and flags that are set twice.
#[test]
fn structures(rt: HostRuntime) -> Result<(), Fail> {
    let local = ProcessorLocalApicAffinity::new(0x0403_0201, 5);
    let full = local.clock_domain(0x1413_1211).local_sapic_eid(6).enabled();
    let wide = ProcessorLocalX2ApicAffinity::new(0x0403_0201, 0x1413_1211);
    let gic = GiccAffinity::new(0x0403_0201, 0x1413_1211);
    all(
        rt.alloc(),
        &[
            (&local, b"\0\x10\x01\x05\0\0\0\0\0\x02\x03\x04\0\0\0\0"),
            (
                &local.enabled(),
                b"\0\x10\x01\x05\x01\0\0\0\0\x02\x03\x04\0\0\0\0",
            ),
            (
                &local.enabled().enabled(),
                b"\0\x10\x01\x05\x01\0\0\0\0\x02\x03\x04\0\0\0\0",
            ),
            (
                &local.local_sapic_eid(6),
                b"\0\x10\x01\x05\0\0\0\0\x06\x02\x03\x04\0\0\0\0",
            ),
            (
                &local.clock_domain(0x1413_1211),
                b"\0\x10\x01\x05\0\0\0\0\0\x02\x03\x04\x11\x12\x13\x14",
            ),
            (
                &full,
                b"\0\x10\x01\x05\x01\0\0\0\x06\x02\x03\x04\x11\x12\x13\x14",
            ),
            (
                &full.clock_domain(u32::MAX).local_sapic_eid(u8::MAX),
                b"\0\x10\x01\x05\x01\0\0\0\xff\x02\x03\x04\xff\xff\xff\xff",
            ),
            (
                &wide,
                b"\x02\x18\0\0\x01\x02\x03\x04\x11\x12\x13\x14\0\0\0\0\0\0\0\0\0\0\0\0",
            ),
            (
                &wide.enabled(),
                b"\x02\x18\0\0\x01\x02\x03\x04\x11\x12\x13\x14\x01\0\0\0\0\0\0\0\0\0\0\0",
            ),
            (
                &wide.enabled().clock_domain(0x2423_2221).enabled(),
                b"\x02\x18\0\0\x01\x02\x03\x04\x11\x12\x13\x14\x01\0\0\0\x21\x22\x23\x24\0\0\0\0",
            ),
            (
                &ProcessorLocalX2ApicAffinity::new(u32::MAX, u32::MAX).clock_domain(u32::MAX),
                b"\x02\x18\0\0\xff\xff\xff\xff\xff\xff\xff\xff\0\0\0\0\xff\xff\xff\xff\0\0\0\0",
            ),
            (
                &gic,
                b"\x03\x12\x01\x02\x03\x04\x11\x12\x13\x14\0\0\0\0\0\0\0\0",
            ),
            (
                &gic.enabled(),
                b"\x03\x12\x01\x02\x03\x04\x11\x12\x13\x14\x01\0\0\0\0\0\0\0",
            ),
            (
                &gic.enabled().clock_domain(0x2423_2221).enabled(),
                b"\x03\x12\x01\x02\x03\x04\x11\x12\x13\x14\x01\0\0\0\x21\x22\x23\x24",
            ),
            (
                &GiccAffinity::new(u32::MAX, u32::MAX).clock_domain(u32::MAX),
                b"\x03\x12\xff\xff\xff\xff\xff\xff\xff\xff\0\0\0\0\xff\xff\xff\xff",
            ),
            (
                &GicItsAffinity::new(0x0403_0201, 0x1413_1211),
                b"\x04\x0c\x01\x02\x03\x04\0\0\x11\x12\x13\x14",
            ),
            (
                &GicItsAffinity::new(u32::MAX, u32::MAX),
                b"\x04\x0c\xff\xff\xff\xff\0\0\xff\xff\xff\xff",
            ),
        ],
    )
}

// The bits 7 to 0 of a proximity domain at offset 2, and the bits 31 to 8 at offset 9.
#[test]
fn domains_in_two_places(rt: HostRuntime) -> Result<(), Fail> {
    for (domain, low, high) in [
        (0, 0, [0, 0, 0]),
        (1, 1, [0, 0, 0]),
        (0xff, 0xff, [0, 0, 0]),
        (0x100, 0, [1, 0, 0]),
        (0x1_0000, 0, [0, 1, 0]),
        (0x100_0000, 0, [0, 0, 1]),
        (0xffff_ff00, 0, [0xff, 0xff, 0xff]),
        (u32::MAX, 0xff, [0xff, 0xff, 0xff]),
    ] {
        let [middle, upper, top] = high;
        let wanted = [
            0, 16, low, 0xff, 0, 0, 0, 0, 0, middle, upper, top, 0, 0, 0, 0,
        ];
        let processor = ProcessorLocalApicAffinity::new(domain, 0xff);
        writes(rt.alloc(), &processor, &wanted)?;
    }
    Ok(())
}

// A structure of each kind.
const EACH: [u8; 70] = *b"\0\x10\x01\x02\x01\0\0\0\0\0\0\0\0\0\0\0\
        \x02\x18\0\0\x03\0\0\0\x04\0\0\0\0\0\0\0\0\0\0\0\0\0\0\0\
        \x03\x12\x05\0\0\0\x06\0\0\0\0\0\0\0\0\0\0\0\
        \x04\x0c\x07\0\0\0\0\0\x08\0\0\0";

// Fails unless a table has these structures alone.
fn has(alloc: Global, table: &SRAT, structures: &[u8]) -> Result<(), Fail> {
    let fixed = [1, 0, 0, 0, 0, 0, 0, 0, 0, 0, 0, 0];
    many(alloc, table, b"SRAT", 1, &fixed, structures, 1)
}

// Fails unless a table has one structure of each kind, after each addition.
fn takes_each_kind(alloc: Global, table: &mut SRAT) -> Result<(), Fail> {
    table.add_processor_local_apic_affinity(ProcessorLocalApicAffinity::new(1, 2).enabled())?;
    has(alloc, table, &EACH[..16])?;
    table.add_processor_local_x2apic_affinity(ProcessorLocalX2ApicAffinity::new(3, 4))?;
    has(alloc, table, &EACH[..40])?;
    table.add_gicc_affinity(GiccAffinity::new(5, 6))?;
    has(alloc, table, &EACH[..58])?;
    table.add_gic_its_affinity(GicItsAffinity::new(7, 8))?;
    has(alloc, table, &EACH)
}

#[test]
fn each_kind(rt: HostRuntime) -> Result<(), Fail> {
    let mut table = SRAT::new(rt.alloc(), OEM, OEM_TABLE, OEM_REVISION);
    takes_each_kind(rt.alloc(), &mut table)
}
