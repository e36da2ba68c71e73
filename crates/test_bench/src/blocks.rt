//! Definition blocks of many devices.

use crate::fault::Fault;
use acpi_tables::aml::{
    Device, EISAName, IO, Interrupt, Method, Name, Path, ResourceTemplate, Return,
};
use acpi_tables::sdt::{Sdt, append_object};
use acpi_tables::{Aml, R};
use std::alloc::Global;
use test_support::{OEM, OEM_REVISION, OEM_TABLE};

// The names of devices, which are used in turn.
const NAMES: [&str; 4] = ["COM1", "COM2", "COM3", "COM4"];

// An interrupt and eight I/O ports.
fn resources(alloc: Global) -> R<ResourceTemplate> {
    let interrupt = Interrupt::new(true, true, false, false, 4);
    let ports = IO::new(0x3f8, 0x3f8, 0, 8);
    ResourceTemplate::new(vec![in alloc; &ports as &dyn Aml, &interrupt]?)
}

// A method that returns that the device is present.
fn status(alloc: Global) -> R<Method> {
    let answer = Return::new(alloc, &15u8)?;
    Method::new(
        Path::new(alloc, "_STA")?,
        0,
        false,
        vec![in alloc; &answer as &dyn Aml]?,
    )
}

// The serial port with this number. It has 63 bytes from number 256 on.
fn device(alloc: Global, number: u32) -> R<Device> {
    let name = NAMES[number as usize % NAMES.len()];
    let number = (number % 4096) as u16;
    let id = Name::new(Path::new(alloc, "_HID")?, &EISAName::new("PNP0501")?)?;
    let unique = Name::new(Path::new(alloc, "_UID")?, &number)?;
    let current = Name::new(Path::new(alloc, "_CRS")?, &resources(alloc)?)?;
    let status = status(alloc)?;
    Device::new(
        Path::new(alloc, name)?,
        vec![in alloc; &id as &dyn Aml, &unique, &current, &status]?,
    )
}

/// This many devices, in order.
pub fn devices(alloc: Global, count: u32) -> R<Vec<u8>> {
    let mut bytes = Vec::new(alloc);
    for number in 0..count {
        device(alloc, number)?.to_aml_bytes(&mut bytes)?;
    }
    Ok(bytes)
}

/// The number of bytes of these devices.
pub fn bytecode(alloc: Global, count: u32) -> Result<usize, Fault> {
    Ok(devices(alloc, count)?.len())
}

/// A definition block (ACPI 6.5, 5.2.11.1) of this many devices.
pub fn block(alloc: Global, count: u32) -> R<Sdt> {
    let mut table = Sdt::new(alloc, *b"DSDT", 36, 2, OEM, OEM_TABLE, OEM_REVISION)?;
    for number in 0..count {
        append_object(&device(alloc, number)?, &mut table)?;
    }
    Ok(table)
}
