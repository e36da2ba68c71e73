//! IVRS, its blocks and their device entries.

use crate::tables::is;
use acpi_base::error::{Error, R};
use acpi_tables::ivrs::{
    AcpiDevice, DeviceEntry, ExtendedIvhd, ExtendedType, IVRS, Iommu, IvInfo, Ivhd, Ivmd,
    Peripherals, SpecialDevice,
};
use std::alloc::Global;
use std::test::Fail;
use test_support::table::joined;
use test_support::{OEM, OEM_REVISION, OEM_TABLE, all, equal, refuses, writes};

const QEMU: &[u8] = b"\0\x28\0\0\0\0\0\0\0\0\0\0\
    \x10\xd1\x38\0\x10\0\x40\0\0\0\xd8\xfe\0\0\0\0\0\0\0\0\x44\0\0\0\
    \x02\0\0\0\x02\x08\0\0\x02\x10\0\0\x02\xf8\0\0\x02\xfa\0\0\x02\xfb\0\0\
    \x48\0\0\0\0\xa0\0\x01";

fn qemu_unit(alloc: Global) -> R<Ivhd> {
    let iommu = Iommu {
        flags: 0xd1,
        device: 0x10,
        capability: 0x40,
        base: 0xfed8_0000,
        segment: 0,
        info: 0,
    };
    let mut unit = Ivhd::new(alloc, iommu, 0x44);
    for device in [0, 8, 0x10, 0xf8, 0xfa, 0xfb] {
        unit.add_entry(DeviceEntry::Select(device, 0))?;
    }
    unit.add_entry(DeviceEntry::Special(0, 0, 0xa0, SpecialDevice::IoApic))?;
    Ok(unit)
}

fn becomes_qemus(alloc: Global, ivrs: &mut IVRS) -> Result<(), Fail> {
    ivrs.add_ivhd(qemu_unit(alloc)?)?;
    equal(&(ivrs.len(), ivrs.count()), &(104, 1))?;
    is(alloc, ivrs, b"IVRS", 1, &[QEMU])
}

// The table that QEMU 7.2 writes for a Q35 with an AMD IOMMU.
#[test]
fn of_qemu(rt: HostRuntime) -> Result<(), Fail> {
    let info = IvInfo::new(0, 40, 0);
    let mut ivrs = IVRS::of_revision(rt.alloc(), 1, OEM, OEM_TABLE, OEM_REVISION, info);
    becomes_qemus(rt.alloc(), &mut ivrs)
}

fn has_info(alloc: Global, info: IvInfo, bytes: &[u8]) -> Result<(), Fail> {
    let ivrs = IVRS::new(alloc, OEM, OEM_TABLE, OEM_REVISION, info);
    is(alloc, &ivrs, b"IVRS", 2, &[bytes, &[0; 8]])
}

#[test]
fn infos(rt: HostRuntime) -> Result<(), Fail> {
    for (info, bytes) in &[
        (IvInfo::new(0, 0, 0), [0, 0, 0, 0]),
        (IvInfo::new(7, 0, 0), [0xe0, 0, 0, 0]),
        (IvInfo::new(0, 127, 0), [0, 0x7f, 0, 0]),
        (IvInfo::new(0, 0, 127), [0, 0x80, 0x3f, 0]),
        (IvInfo::new(0, 0, 0).extended_features(), [1, 0, 0, 0]),
        (IvInfo::new(0, 0, 0).dma_remapping(), [2, 0, 0, 0]),
        (IvInfo::new(0, 0, 0).ats_reserved(), [0, 0, 0x40, 0]),
        (
            IvInfo::new(2, 48, 64)
                .ats_reserved()
                .extended_features()
                .ats_reserved(),
            [0x41, 0x30, 0x60, 0],
        ),
    ] {
        has_info(rt.alloc(), *info, bytes)?;
    }
    Ok(())
}

const BASE: u64 = 0x1817_1615_1413_1211;

const SIZE: u64 = 0x2827_2625_2423_2221;

const IOMMU: Iommu = Iommu {
    flags: 0x3f,
    device: 0x0201,
    capability: 0x0403,
    base: BASE,
    segment: 0x0605,
    info: 0x0807,
};

const ENTRIES: &[u8] = b"\x01\0\0\x41\x02\x01\x02\x42\x03\x03\x04\x43\x04\x05\x06\0\
    \x42\x07\x08\x44\0\x09\x0a\0\x43\x0b\x0c\x45\0\x0d\x0e\0\
    \x46\x0f\x10\x46\x01\x02\x03\x80\x47\x11\x12\x47\x04\x05\x06\x07\
    \x48\0\0\x48\x0b\x13\x14\x01\x48\0\0\x49\x0c\x15\x16\x02";

const EACH_ENTRY: [DeviceEntry; 10] = [
    DeviceEntry::All(0x41),
    DeviceEntry::Select(0x0201, 0x42),
    DeviceEntry::RangeStart(0x0403, 0x43),
    DeviceEntry::RangeEnd(0x0605),
    DeviceEntry::Alias(0x0807, 0x44, 0x0a09),
    DeviceEntry::AliasRangeStart(0x0c0b, 0x45, 0x0e0d),
    DeviceEntry::Extended(0x100f, 0x46, 0x8003_0201),
    DeviceEntry::ExtendedRangeStart(0x1211, 0x47, 0x0706_0504),
    DeviceEntry::Special(0x48, 0x0b, 0x1413, SpecialDevice::IoApic),
    DeviceEntry::Special(0x49, 0x0c, 0x1615, SpecialDevice::Hpet),
];

fn ivhd(alloc: Global) -> R<Ivhd> {
    let mut unit = Ivhd::new(alloc, IOMMU, 0x0c0b_0a09);
    for entry in &EACH_ENTRY {
        unit.add_entry(*entry)?;
    }
    Ok(unit)
}

const HID: [u8; 8] = *b"AMDI0020";

const CID: [u8; 8] = [0; 8];

// Adds a device without a unique ID, one whose ID is a number, and one whose ID is a text.
fn add_devices(alloc: Global, unit: &mut ExtendedIvhd) -> R<()> {
    unit.add_acpi_device(&AcpiDevice::new(alloc, 0x0201, 0x4a, HID, CID))?;
    unit.add_acpi_device(&AcpiDevice::of_number(alloc, 0x0403, 0x4b, HID, CID, BASE)?)?;
    unit.add_acpi_device(&AcpiDevice::of_text(alloc, 0x0605, 0x4c, HID, CID, "U0")?)
}

const ACPI_DEVICES: &[u8] = b"\xf0\x01\x02\x4aAMDI0020\0\0\0\0\0\0\0\0\0\0\
    \xf0\x03\x04\x4bAMDI0020\0\0\0\0\0\0\0\0\x01\x08\x11\x12\x13\x14\x15\x16\x17\x18\
    \xf0\x05\x06\x4cAMDI0020\0\0\0\0\0\0\0\0\x02\x02U0";

fn extended(alloc: Global, kind: ExtendedType) -> R<ExtendedIvhd> {
    let mut unit = ExtendedIvhd::new(alloc, kind, IOMMU, 0x0c0b_0a09, SIZE, BASE);
    add_devices(alloc, &mut unit)?;
    unit.add_entry(DeviceEntry::All(0))?;
    Ok(unit)
}

const AFTER_LENGTH: &[u8] =
    b"\0\x01\x02\x03\x04\x11\x12\x13\x14\x15\x16\x17\x18\x05\x06\x07\x08\x09\x0a\x0b\x0c";

const FEATURES: &[u8] = b"\x21\x22\x23\x24\x25\x26\x27\x28\x11\x12\x13\x14\x15\x16\x17\x18";

// Fails unless an extended block has this type. It has 40 bytes, 76 of three devices, and 4 of another entry.
fn is_of_type(alloc: Global, kind: ExtendedType, number: u8) -> Result<(), Fail> {
    let front = [number, 0x3f, 0x78];
    let parts: [&[u8]; 5] = [&front, AFTER_LENGTH, FEATURES, ACPI_DEVICES, b"\x01\0\0\0"];
    writes(alloc, &extended(alloc, kind)?, &joined(alloc, &parts)?)
}

#[test]
fn blocks(rt: HostRuntime) -> Result<(), Fail> {
    let alloc = rt.alloc();
    let parts: [&[u8]; 3] = [b"\x10\x3f\x58", AFTER_LENGTH, ENTRIES];
    writes(alloc, &ivhd(alloc)?, &joined(alloc, &parts)?)?;
    is_of_type(alloc, ExtendedType::Functions, 0x11)?;
    is_of_type(alloc, ExtendedType::AcpiDevices, 0x40)?;
    let each = Ivmd::new(Peripherals::Range(0x0201, 0x0403), BASE, SIZE);
    all(
        alloc,
        &[
            (
                &Ivmd::new(Peripherals::All, BASE, SIZE).unity().unity(),
                b"\x20\x01\x20\0\0\0\0\0\0\0\0\0\0\0\0\0\x11\x12\x13\x14\x15\x16\x17\x18\
                    \x21\x22\x23\x24\x25\x26\x27\x28",
            ),
            (
                &Ivmd::new(Peripherals::One(0x0201), SIZE, BASE).readable(),
                b"\x21\x02\x20\0\x01\x02\0\0\0\0\0\0\0\0\0\0\x21\x22\x23\x24\x25\x26\x27\x28\
                    \x11\x12\x13\x14\x15\x16\x17\x18",
            ),
            (
                &each.writable().segment(0x0605),
                b"\x22\x04\x20\0\x01\x02\x03\x04\x05\x06\0\0\0\0\0\0\x11\x12\x13\x14\x15\x16\x17\x18\
                    \x21\x22\x23\x24\x25\x26\x27\x28",
            ),
            (
                &each.unity().readable().writable().excluded(),
                b"\x22\x0f\x20\0\x01\x02\x03\x04\0\0\0\0\0\0\0\0\x11\x12\x13\x14\x15\x16\x17\x18\
                    \x21\x22\x23\x24\x25\x26\x27\x28",
            ),
        ],
    )
}

fn fill(unit: &mut Ivhd) -> R<()> {
    for _ in 0..8188u16 {
        unit.add_entry(DeviceEntry::Alias(0, 0, 0))?;
    }
    unit.add_entry(DeviceEntry::All(0))
}

fn takes_no_more(unit: &mut Ivhd, device: &AcpiDevice) -> Result<(), Fail> {
    refuses(unit.add_entry(DeviceEntry::All(0)), Error::FieldWidth)?;
    refuses(unit.add_acpi_device(device), Error::FieldWidth)
}

// A block has room for 65,511 bytes of entries: these have 65,508.
#[test]
fn the_most_entries(rt: HostRuntime) -> Result<(), Fail> {
    let mut unit = Ivhd::new(rt.alloc(), IOMMU, 0);
    fill(&mut unit)?;
    takes_no_more(&mut unit, &AcpiDevice::new(rt.alloc(), 0, 0, HID, CID))
}

// A block with one of each kind, in the order of the calls.
fn takes_blocks(alloc: Global, ivrs: &mut IVRS) -> Result<(), Fail> {
    ivrs.add_extended_ivhd(ExtendedIvhd::new(alloc, ExtendedType::Functions, IOMMU, 0, 0, 0))?;
    ivrs.add_ivmd(Ivmd::new(Peripherals::All, 0, 0))?;
    equal(&(ivrs.len(), ivrs.count()), &(120, 2))?;
    let first = b"\x11\x3f\x28\0\x01\x02\x03\x04\x11\x12\x13\x14\x15\x16\x17\x18\x05\x06\x07\x08";
    is(
        alloc,
        ivrs,
        b"IVRS",
        2,
        &[&[0; 12], first, &[0; 20], b"\x20\0\x20", &[0; 29]],
    )
}

#[test]
fn a_table(rt: HostRuntime) -> Result<(), Fail> {
    let info = IvInfo::new(0, 0, 0);
    let mut ivrs = IVRS::new(rt.alloc(), OEM, OEM_TABLE, OEM_REVISION, info);
    takes_blocks(rt.alloc(), &mut ivrs)
}
