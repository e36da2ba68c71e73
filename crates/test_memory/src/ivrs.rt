//! IVRS and its blocks.

use crate::trial::Grows;
use acpi_tables::R;
use acpi_tables::ivrs::{
    AcpiDevice, DeviceEntry, ExtendedIvhd, ExtendedType, IVRS, Iommu, IvInfo, Ivhd, Ivmd,
    Peripherals,
};
use std::alloc::Global;
use test_support::{OEM, OEM_REVISION, OEM_TABLE};

const IOMMU: Iommu = Iommu {
    flags: 1,
    device: 2,
    capability: 0x40,
    base: 0xfed8_0000,
    segment: 0,
    info: 3,
};

const HID: [u8; 8] = *b"AMDI0020";

fn add_unit(table: &mut IVRS, alloc: Global, device: &AcpiDevice) -> R<()> {
    let mut unit = Ivhd::new(alloc, IOMMU, 4);
    unit.add_entry(DeviceEntry::All(0))?;
    unit.add_acpi_device(device)?;
    table.add_ivhd(unit)
}

fn add_extended_unit(table: &mut IVRS, alloc: Global, device: &AcpiDevice) -> R<()> {
    let mut unit = ExtendedIvhd::new(alloc, ExtendedType::AcpiDevices, IOMMU, 4, 5, 6);
    unit.add_entry(DeviceEntry::All(0))?;
    unit.add_acpi_device(device)?;
    table.add_extended_ivhd(unit)
}

// Adds the unit of a device whose unique ID is a number.
fn add_numbered(table: &mut IVRS, alloc: Global) -> R<()> {
    let device = AcpiDevice::of_number(alloc, 1, 2, HID, HID, 3)?;
    add_unit(table, alloc, &device)
}

// Adds that of a device whose unique ID is a text.
fn add_named(table: &mut IVRS, alloc: Global) -> R<()> {
    let device = AcpiDevice::of_text(alloc, 1, 2, HID, HID, "\\_SB.DEV0")?;
    add_extended_unit(table, alloc, &device)
}

impl Grows for IVRS {
    const WAYS: u8 = 3;

    fn empty(alloc: Global) -> R<IVRS> {
        let info = IvInfo::new(0, 40, 0);
        Ok(IVRS::new(alloc, OEM, OEM_TABLE, OEM_REVISION, info))
    }

    fn grow(&mut self, alloc: Global, way: u8) -> R<()> {
        match way {
            0 => add_numbered(self, alloc),
            1 => add_named(self, alloc),
            _ => self.add_ivmd(Ivmd::new(Peripherals::One(1), 0x1000, 0x2000)),
        }
    }
}
