//! RIMT and its devices.

use acpi_base::error::R;
use acpi_tables::rimt::{
    IdMapping, InterruptWire, Iommu, IommuOffset, PciDevice, PcieRootComplex, Platform, RIMT,
};
use std::alloc::Global;
use std::test::Fail;
use test_support::{OEM, OEM_REVISION, OEM_TABLE, all, makes, writes};

// An IOMMU of zeros without wires.
const PLAIN_IOMMU: [u8; 32] =
    *b"\0\x01\x20\0\0\0\0\0\0\0\0\0\0\0\0\0\0\0\0\0\0\0\0\0\0\0\0\0\0\0\x20\0";

pub(crate) fn table(alloc: Global) -> RIMT {
    RIMT::new(alloc, OEM, OEM_TABLE, OEM_REVISION)
}

fn four_wires(alloc: Global) -> R<Vec<InterruptWire>> {
    let mut wires = Vec::new(alloc);
    for (number, level, high) in [
        (1, true, false),
        (2, false, true),
        (3, true, true),
        (4, false, false),
    ] {
        wires.push(InterruptWire::new(u32::from(number), level, high, number))?;
    }
    Ok(wires)
}

fn two_mappings(alloc: Global, iommu: IommuOffset) -> R<Vec<IdMapping>> {
    let first = IdMapping::new(1, 2, 10, iommu, true, true, false);
    let second = IdMapping::new(2, 3, 5, iommu, false, false, true);
    Ok(vec![in alloc; first, second]?)
}

// This many equal wires.
pub(crate) fn wires(alloc: Global, count: u16) -> R<Vec<InterruptWire>> {
    let mut wires = Vec::new(alloc);
    for _ in 0..count {
        wires.push(InterruptWire::new(0x0403_0201, false, true, 0x0605))?;
    }
    Ok(wires)
}

fn add_plain_iommu(table: &mut RIMT) -> R<IommuOffset> {
    table.add_iommu(Iommu::new(0, None, None, None, None))
}

// The offset of the first device of a table.
fn first_offset(alloc: Global) -> R<IommuOffset> {
    add_plain_iommu(&mut table(alloc))
}

fn mapping(iommu: IommuOffset) -> IdMapping {
    let (source, target, count) = (0x0403_0201, 0x0807_0605, 0x0c0b_0a09);
    IdMapping::new(source, target, count, iommu, false, true, false)
}

// This many equal mappings to the first device of a table.
pub(crate) fn mappings(alloc: Global, count: u16) -> R<Vec<IdMapping>> {
    let iommu = first_offset(alloc)?;
    let mut mappings = Vec::new(alloc);
    for _ in 0..count {
        mappings.push(mapping(iommu))?;
    }
    Ok(mappings)
}

// A name of this many letters.
pub(crate) fn name(alloc: Global, count: u32) -> R<String> {
    let mut name = String::new(alloc);
    for _ in 0..count {
        name.push('n')?;
    }
    Ok(name)
}

#[test]
fn a_table_without_devices(rt: HostRuntime) -> Result<(), Fail> {
    writes(
        rt.alloc(),
        &table(rt.alloc()),
        b"RIMT\x30\0\0\0\x01\x17FOOBARCAFEDEAD\xef\xbe\xad\xdeRVAT\0\0\0\x01\0\0\0\0\x30\0\0\0\0\0\0\0",
    )
}

// Adds an IOMMU with four wires, and returns two mappings to it.
fn add_iommu(
    alloc: Global,
    table: &mut RIMT,
    base: Option<u64>,
    device: Option<PciDevice>,
) -> R<Vec<IdMapping>> {
    let wires = four_wires(alloc)?;
    let offset = table.add_iommu(Iommu::new(1, base, device, Some(15), Some(wires)))?;
    two_mappings(alloc, offset)
}

fn add_root_complex(alloc: Global, table: &mut RIMT) -> R<()> {
    let mappings = add_iommu(alloc, table, None, Some(PciDevice::new(5, 6, 7, 7)))?;
    table.add_pcie_root_complex(PcieRootComplex::new(1, 1, true, true, Some(mappings)))
}

#[test]
fn a_root_complex(rt: HostRuntime) -> Result<(), Fail> {
    let mut table = table(rt.alloc());
    add_root_complex(rt.alloc(), &mut table)?;
    writes(
        rt.alloc(),
        &table,
        b"RIMT\xa8\0\0\0\x01\xf2FOOBARCAFEDEAD\xef\xbe\xad\xdeRVAT\0\0\0\x01\
            \x02\0\0\0\x30\0\0\0\0\0\0\0\
            \0\x01\x40\0\x01\0\0\0\0\0\0\0\0\0\0\0\
            \x03\0\0\0\x05\0\x3f\x06\x0f\0\0\0\x04\0\x20\0\
            \x01\0\0\0\x01\0\x01\0\x02\0\0\0\x02\0\x02\0\
            \x03\0\0\0\x03\0\x03\0\x04\0\0\0\0\0\x04\0\
            \x01\x01\x38\0\x01\0\x01\0\x03\0\0\0\x10\0\x02\0\
            \x01\0\0\0\x02\0\0\0\x0a\0\0\0\x30\0\0\0\
            \x03\0\0\0\x02\0\0\0\x03\0\0\0\x05\0\0\0\x30\0\0\0\x04\0\0\0",
    )
}

fn add_platform(alloc: Global, table: &mut RIMT) -> R<()> {
    let name = String::from_str(alloc, "FULL.PATH.TO.DEVICE")?;
    let mappings = add_iommu(alloc, table, Some(0x1000), None)?;
    table.add_platform(Platform::new(1, name, Some(mappings)))
}

#[test]
fn a_platform_device(rt: HostRuntime) -> Result<(), Fail> {
    let mut table = table(rt.alloc());
    add_platform(rt.alloc(), &mut table)?;
    writes(
        rt.alloc(),
        &table,
        b"RIMT\xb8\0\0\0\x01\xc3FOOBARCAFEDEAD\xef\xbe\xad\xdeRVAT\0\0\0\x01\
            \x02\0\0\0\x30\0\0\0\0\0\0\0\
            \0\x01\x40\0\x01\0\0\0\0\x10\0\0\0\0\0\0\
            \x02\0\0\0\0\0\0\0\x0f\0\0\0\x04\0\x20\0\
            \x01\0\0\0\x01\0\x01\0\x02\0\0\0\x02\0\x02\0\
            \x03\0\0\0\x03\0\x03\0\x04\0\0\0\0\0\x04\0\
            \x02\x01\x48\0\x01\0\0\0\x20\0\x02\0FULL\
            .PATH.TO.DEVICE\0\
            \x01\0\0\0\x02\0\0\0\x0a\0\0\0\x30\0\0\0\
            \x03\0\0\0\x02\0\0\0\x03\0\0\0\x05\0\0\0\x30\0\0\0\x04\0\0\0",
    )
}

#[test]
#[rattlefmt::skip]
fn wires_and_mappings(rt: HostRuntime) -> Result<(), Fail> {
    let to = first_offset(rt.alloc())?;
    all(rt.alloc(), &[
        (&InterruptWire::new(u32::MAX, true, true, u16::MAX), b"\xff\xff\xff\xff\x03\0\xff\xff"),
        (&InterruptWire::new(0, false, false, 0), b"\0\0\0\0\0\0\0\0"),
        (&InterruptWire::new(0x0403_0201, true, false, 0x0605), b"\x01\x02\x03\x04\x01\0\x05\x06"),
        (&InterruptWire::new(0x0403_0201, false, true, 0x0605), b"\x01\x02\x03\x04\x02\0\x05\x06"),
        (&IdMapping::new(0, 0, 0, to, false, false, false), b"\0\0\0\0\0\0\0\0\0\0\0\0\x30\0\0\0\0\0\0\0"),
        (&IdMapping::new(0, 0, 0, to, true, false, false), b"\0\0\0\0\0\0\0\0\0\0\0\0\x30\0\0\0\x01\0\0\0"),
        (&IdMapping::new(0, 0, 0, to, false, true, false), b"\0\0\0\0\0\0\0\0\0\0\0\0\x30\0\0\0\x02\0\0\0"),
        (&IdMapping::new(0, 0, 0, to, false, false, true), b"\0\0\0\0\0\0\0\0\0\0\0\0\x30\0\0\0\x04\0\0\0"),
        (&IdMapping::new(0, 0, 0, to, true, false, true), b"\0\0\0\0\0\0\0\0\0\0\0\0\x30\0\0\0\x05\0\0\0"),
        (&IdMapping::new(0, 0, 0, to, false, true, true), b"\0\0\0\0\0\0\0\0\0\0\0\0\x30\0\0\0\x06\0\0\0"),
        (&IdMapping::new(u32::MAX, u32::MAX, u32::MAX, to, true, true, true),
            b"\xff\xff\xff\xff\xff\xff\xff\xff\xff\xff\xff\xff\x30\0\0\0\x07\0\0\0"),
    ])
}

#[test]
#[rattlefmt::skip]
fn iommus_without_wires(rt: HostRuntime) -> Result<(), Fail> {
    let empty = Some(Vec::new(rt.alloc()));
    let zero = Some(PciDevice::new(0, 0, 0, 0));
    let (base, device) = (Some(0x2827_2625_2423_2221), Some(PciDevice::new(0x1211, 0x13, 0x14, 5)));
    all(rt.alloc(), &[
        (&Iommu::new(0, None, None, None, None), &PLAIN_IOMMU),
        (&Iommu::new(0, Some(0), None, None, empty), &PLAIN_IOMMU),
        (&Iommu::new(0, None, zero, None, None), b"\0\x01\x20\0\0\0\0\0\0\0\0\0\0\0\0\0\x01\0\0\0\0\0\0\0\0\0\0\0\0\0\x20\0"),
        (&Iommu::new(0, None, None, Some(0), None), b"\0\x01\x20\0\0\0\0\0\0\0\0\0\0\0\0\0\x02\0\0\0\0\0\0\0\0\0\0\0\0\0\x20\0"),
        (&Iommu::new(0x0201, base, device, Some(0x3433_3231), None),
            b"\0\x01\x20\0\x01\x02\0\0\x21\x22\x23\x24\x25\x26\x27\x28\x03\0\0\0\x11\x12\xa5\x13\x31\x32\x33\x34\0\0\x20\0"),
    ])
}

#[test]
fn the_highest_iommu(rt: HostRuntime) -> Result<(), Fail> {
    let device = Some(PciDevice::new(u16::MAX, 0xff, 31, 7));
    let wires = Some(wires(rt.alloc(), 1)?);
    writes(
        rt.alloc(),
        &Iommu::new(u16::MAX, Some(u64::MAX), device, Some(u32::MAX), wires),
        b"\0\x01\x28\0\xff\xff\0\0\xff\xff\xff\xff\xff\xff\xff\xff\
            \x03\0\0\0\xff\xff\xff\xff\xff\xff\xff\xff\x01\0\x20\0\x01\x02\x03\x04\x02\0\x05\x06",
    )
}

// Fails unless root complexes without mappings have these flags, at offset 8.
fn flagged(alloc: Global, ats: bool, pri: bool, flags: u8) -> Result<(), Fail> {
    let mut wanted = *b"\x01\x01\x10\0\x01\x02\x03\x04\0\0\0\0\x10\0\0\0";
    wanted[8] = flags;
    let empty = Some(Vec::new(alloc));
    all(
        alloc,
        &[
            (
                &PcieRootComplex::new(0x0201, 0x0403, ats, pri, None),
                &wanted,
            ),
            (
                &PcieRootComplex::new(0x0201, 0x0403, ats, pri, empty),
                &wanted,
            ),
        ],
    )
}

#[test]
fn flags_of_root_complexes(rt: HostRuntime) -> Result<(), Fail> {
    flagged(rt.alloc(), false, false, 0)?;
    flagged(rt.alloc(), true, false, 1)?;
    flagged(rt.alloc(), false, true, 2)?;
    flagged(rt.alloc(), true, true, 3)
}

#[test]
fn the_highest_root_complex(rt: HostRuntime) -> Result<(), Fail> {
    let mappings = Some(mappings(rt.alloc(), 1)?);
    writes(
        rt.alloc(),
        &PcieRootComplex::new(u16::MAX, u16::MAX, true, true, mappings),
        b"\x01\x01\x24\0\xff\xff\xff\xff\x03\0\0\0\x10\0\x01\0\
            \x01\x02\x03\x04\x05\x06\x07\x08\x09\x0a\x0b\x0c\x30\0\0\0\x02\0\0\0",
    )
}

// A platform device of this id with a name of this many letters, and with this many mappings.
pub(crate) fn mapped(alloc: Global, id: u16, letters: u32, count: u16) -> R<Platform> {
    let mappings = mappings(alloc, count)?;
    Ok(Platform::new(id, name(alloc, letters)?, Some(mappings)))
}

#[test]
fn platform_devices(rt: HostRuntime) -> Result<(), Fail> {
    writes(
        rt.alloc(),
        &Platform::new(0x0201, String::new(rt.alloc()), None),
        b"\x02\x01\x0d\0\x01\x02\0\0\x0d\0\0\0\0",
    )?;
    makes(
        rt.alloc(),
        mapped(rt.alloc(), u16::MAX, 3, 0),
        b"\x02\x01\x10\0\xff\xff\0\0\x10\0\0\0nnn\0",
    )?;
    makes(
        rt.alloc(),
        mapped(rt.alloc(), 0, 1, 1),
        b"\x02\x01\x22\0\0\0\0\0\x0e\0\x01\0n\0\x01\x02\x03\x04\x05\x06\x07\x08\x09\x0a\x0b\x0c\x30\0\0\0\x02\0\0\0",
    )
}

// Fails unless a mapping refers to this offset.
fn refers(alloc: Global, iommu: IommuOffset, offset: u8) -> Result<(), Fail> {
    let mut wanted = [0; 20];
    wanted[12] = offset;
    let made = IdMapping::new(0, 0, 0, iommu, false, false, false);
    writes(alloc, &made, &wanted)
}

// Adds an IOMMU of 64 bytes and a platform device of 13.
fn add_first(alloc: Global, table: &mut RIMT) -> Result<(), Fail> {
    let wires = four_wires(alloc)?;
    let first = table.add_iommu(Iommu::new(1, None, None, None, Some(wires)))?;
    refers(alloc, first, 48)?;
    Ok(table.add_platform(Platform::new(2, String::new(alloc), None))?)
}

// Adds two IOMMUs of 32 bytes after these.
fn offsets_are_told(alloc: Global, table: &mut RIMT) -> Result<(), Fail> {
    add_first(alloc, table)?;
    refers(alloc, add_plain_iommu(table)?, 125)?;
    refers(alloc, add_plain_iommu(table)?, 157)
}

#[test]
fn later_offsets(rt: HostRuntime) -> Result<(), Fail> {
    offsets_are_told(rt.alloc(), &mut table(rt.alloc()))
}
