//! IVRS, its blocks, and how many entries they have at most.

use crate::short::{starve, starve_made};
use acpi_tables::ivrs::{
    AcpiDevice, DeviceEntry, ExtendedIvhd, ExtendedType, IVRS, Iommu, IvInfo, Ivhd, Ivmd,
    Peripherals,
};
use acpi_tables::{Error, R};
use std::alloc::Global;
use std::test::Fail;
use test_support::{OEM, OEM_REVISION, OEM_TABLE, refuses};

fn memory() -> Ivmd {
    Ivmd::new(Peripherals::One(1), 2, 3)
}

fn ivrs(alloc: Global) -> R<IVRS> {
    let info = IvInfo::new(0, 40, 0);
    let mut ivrs = IVRS::new(alloc, OEM, OEM_TABLE, OEM_REVISION, info);
    ivrs.add_ivmd(memory())?;
    Ok(ivrs)
}

const IOMMU: Iommu = Iommu {
    flags: 1,
    device: 2,
    capability: 3,
    base: 4,
    segment: 5,
    info: 6,
};

fn unit(alloc: Global) -> R<Ivhd> {
    let mut unit = Ivhd::new(alloc, IOMMU, 7);
    unit.add_entry(DeviceEntry::All(1))?;
    Ok(unit)
}

fn extended(alloc: Global) -> ExtendedIvhd {
    ExtendedIvhd::new(alloc, ExtendedType::AcpiDevices, IOMMU, 7, 8, 9)
}

// A device whose unique ID has this many letters.
fn named(alloc: Global, letters: usize) -> R<AcpiDevice> {
    let uid = "n".repeat(alloc, letters)?;
    AcpiDevice::of_text(alloc, 1, 2, *b"AMDI0020", *b"AMDI0021", uid.as_str())
}

fn with_device(alloc: Global, device: &AcpiDevice) -> R<ExtendedIvhd> {
    let mut unit = extended(alloc);
    unit.add_acpi_device(device)?;
    Ok(unit)
}

// The first entry has 4 bytes, and that of the device 277: 22 and its unique ID.
#[test]
fn blocks(rt: HostRuntime) -> Result<(), Fail> {
    let alloc = rt.alloc();
    starve_made(alloc, 80, ivrs(alloc))?;
    starve(alloc, 32, &memory())?;
    starve_made(alloc, 28, unit(alloc))?;
    starve_made(alloc, 317, with_device(alloc, &named(alloc, 255)?))
}

#[test]
fn the_longest_unique_id(rt: HostRuntime) -> Result<(), Fail> {
    refuses(named(rt.alloc(), 256), Error::FieldWidth)
}

// Adds entries of 65,484 bytes.
fn fill(unit: &mut ExtendedIvhd) -> R<()> {
    for _ in 0..8185u16 {
        unit.add_entry(DeviceEntry::Alias(1, 2, 3))?;
    }
    unit.add_entry(DeviceEntry::All(4))
}

fn ends(unit: &mut ExtendedIvhd, device: &AcpiDevice) -> Result<(), Fail> {
    refuses(unit.add_acpi_device(device), Error::FieldWidth)?;
    unit.add_entry(DeviceEntry::Alias(1, 2, 3))?;
    refuses(unit.add_entry(DeviceEntry::All(4)), Error::FieldWidth)
}

// An extended block has room for 65,495 bytes of entries. Those of `fill` leave 11, and an entry of 8 leaves 3.
#[test]
fn the_most_entries(rt: HostRuntime) -> Result<(), Fail> {
    let mut unit = extended(rt.alloc());
    fill(&mut unit)?;
    ends(&mut unit, &named(rt.alloc(), 1)?)
}
