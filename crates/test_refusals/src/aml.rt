//! Objects of AML, and tables whose contents are the caller's.

use crate::short::starve_all;
use acpi_tables::aml::{Device, EISAName, IO, Interrupt, Name, Path, ResourceTemplate};
use acpi_tables::sdt::{Sdt, append_object};
use acpi_tables::{Aml, R};
use std::alloc::Global;
use std::test::Fail;
use test_support::{OEM, OEM_REVISION, OEM_TABLE};

// The interrupt and the ports of a serial port.
fn resources(alloc: Global) -> R<ResourceTemplate> {
    let interrupt = Interrupt::new(true, true, false, false, 4);
    let ports = IO::new(0x3f8, 0x3f8, 0, 8);
    ResourceTemplate::new(vec![in alloc; &interrupt as &dyn Aml, &ports]?)
}

fn settings(alloc: Global) -> R<Name> {
    let resources = resources(alloc)?;
    Name::new(Path::new(alloc, "_CRS")?, &resources)
}

fn id(alloc: Global) -> R<Name> {
    Name::new(Path::new(alloc, "_HID")?, &EISAName::new("PNP0501")?)
}

fn device_of(alloc: Global, id: &Name, settings: &Name) -> R<Device> {
    let path = Path::new(alloc, "_SB_.COM1")?;
    Device::new(path, vec![in alloc; id as &dyn Aml, settings]?)
}

// A serial port.
fn device(alloc: Global) -> R<Device> {
    let id = id(alloc)?;
    device_of(alloc, &id, &settings(alloc)?)
}

fn block(alloc: Global, device: &Device) -> R<Sdt> {
    let mut table = Sdt::new(alloc, *b"DSDT", 36, 2, OEM, OEM_TABLE, OEM_REVISION)?;
    append_object(device, &mut table)?;
    Ok(table)
}

#[test]
fn definition_block(rt: HostRuntime) -> Result<(), Fail> {
    let alloc = rt.alloc();
    let device = device(alloc)?;
    let table = block(alloc, &device)?;
    starve_all(alloc, &[(5, &0x0403_0201u32), (50, &device), (86, &table)])
}
