//! The namespace: the root bridge of PCI, a serial port, the processors, and the state that switches the machine off.

use crate::machine::{
    DEVICE_MEMORY, DEVICE_MEMORY_END, LAST_BUS, PROCESSORS, SERIAL_INTERRUPT, SERIAL_PORTS,
};
use crate::table::definition_block;
use acpi_build::block::Block;
use acpi_build::eisa_id::EisaId;
use acpi_build::error::BuildError;
use acpi_tables::aml::{AddressSpace, AddressSpaceCacheable, IO, Interrupt, ZERO};
use acpi_tables::sdt::Sdt;
use std::alloc::{AllocError, Global};

// The bridge passes on bus numbers, all ports but its own eight, and the memory for devices.
fn bridge_resources(block: &mut Block) {
    block.resources("_CRS");
    block.add(&AddressSpace::new_bus_number(0u16, u16::from(LAST_BUS)));
    block.add(&IO::new(0xcf8, 0xcf8, 1, 8));
    block.add(&AddressSpace::new_io(0u16, 0xcf7, None));
    block.add(&AddressSpace::new_io(0xd00u16, 0xffff, None));
    block.add(&AddressSpace::new_memory(
        AddressSpaceCacheable::NotCacheable,
        true,
        DEVICE_MEMORY,
        DEVICE_MEMORY_END,
        None,
    ));
    block.end();
}

// The root bridge of PCI Express. Its compatible id is that of a bridge of PCI (ACPI 6.5, 6.5.5 and 6.5.6).
fn root_bridge(block: &mut Block) {
    block.device("_SB_.PCI0");
    block.name("_HID", &EisaId("PNP0A08"));
    block.name("_CID", &EisaId("PNP0A03"));
    block.name("_SEG", &ZERO);
    block.name("_UID", &ZERO);
    bridge_resources(block);
    block.end();
}

// The serial port has an interrupt and eight ports. Its method returns 15: it is present, enabled, shown and works.
fn serial_port(block: &mut Block) {
    block.device("_SB_.COM1");
    block.name("_HID", &EisaId("PNP0501"));
    block.resources("_CRS");
    block.add(&Interrupt::new(true, true, false, false, SERIAL_INTERRUPT));
    block.add(&IO::new(SERIAL_PORTS, SERIAL_PORTS, 0, 8));
    block.end();
    block.method("_STA", 0, false);
    block.returns(&15u8);
    block.end();
    block.end();
}

/// Adds the processors from 0 on: each is a device whose name has three digits. Its id is that of its interrupt controller in the
/// MADT.
pub fn add_processors(alloc: Global, block: &mut Block, count: u8) -> Result<(), AllocError> {
    for number in 0..count {
        let path = format!(in alloc; "_SB_.C{number:03}")?;
        block.device(path.as_str());
        block.name("_HID", &"ACPI0007");
        block.name("_UID", &number);
        block.end();
    }
    Ok(())
}

// The values that switch the machine off (ACPI 6.5, 7.4.2.6).
fn soft_off(block: &mut Block) {
    block.named_package("\\_S5_");
    block.add(&ZERO);
    block.add(&ZERO);
    block.add(&ZERO);
    block.add(&ZERO);
    block.end();
}

/// A definition block (ACPI 6.5, 5.2.11.1) that holds the namespace.
pub fn namespace_block(alloc: Global) -> Result<Sdt, BuildError> {
    let mut block = Block::new(alloc);
    root_bridge(&mut block);
    serial_port(&mut block);
    add_processors(alloc, &mut block, PROCESSORS)?;
    soft_off(&mut block);
    definition_block(alloc, block)
}
