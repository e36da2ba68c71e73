//! The namespace of an Arm machine: the root bridge of PCI, the PL011 and the processors.

use crate::arm::virt::{
    DEVICE_MEMORY, DEVICE_MEMORY_END, DEVICE_PORTS, LAST_BUS, PROCESSORS, SERIAL_BYTES,
    SERIAL_INTERRUPT, SERIAL_PORT,
};
use crate::namespace::add_processors;
use crate::table::definition_block;
use acpi_build::block::Block;
use acpi_build::eisa_id::EisaId;
use acpi_build::error::BuildError;
use acpi_tables::aml::{AddressSpace, AddressSpaceCacheable, Interrupt, Memory32Fixed, ONE, ZERO};
use acpi_tables::sdt::Sdt;
use std::alloc::Global;

// The bridge passes on bus numbers, the memory for devices, and all ports, which are in memory.
fn bridge_resources(block: &mut Block) {
    block.resources("_CRS");
    block.add(&AddressSpace::new_bus_number(0u16, u16::from(LAST_BUS)));
    block.add(&AddressSpace::new_memory(
        AddressSpaceCacheable::NotCacheable,
        true,
        DEVICE_MEMORY,
        DEVICE_MEMORY_END,
        None,
    ));
    block.add(&AddressSpace::new_io(0u32, 0xffff, Some(DEVICE_PORTS)));
    block.end();
}

// The root bridge of PCI Express. Its accesses are coherent (ACPI 6.5, 6.2.17).
fn root_bridge(block: &mut Block) {
    block.device("_SB_.PCI0");
    block.name("_HID", &EisaId("PNP0A08"));
    block.name("_CID", &EisaId("PNP0A03"));
    block.name("_SEG", &ZERO);
    block.name("_UID", &ZERO);
    block.name("_CCA", &ONE);
    bridge_resources(block);
    block.end();
}

// The PL011: its registers, and its interrupt, which is triggered by level.
fn serial_port(block: &mut Block) {
    block.device("_SB_.COM0");
    block.name("_HID", &"ARMH0011");
    block.name("_UID", &ZERO);
    block.resources("_CRS");
    block.add(&Memory32Fixed::new(true, SERIAL_PORT, SERIAL_BYTES));
    block.add(&Interrupt::new(true, false, false, false, SERIAL_INTERRUPT));
    block.end();
    block.end();
}

/// A definition block (ACPI 6.5, 5.2.11.1) that holds the namespace.
pub fn namespace_block(alloc: Global) -> Result<Sdt, BuildError> {
    let mut block = Block::new(alloc);
    root_bridge(&mut block);
    serial_port(&mut block);
    add_processors(alloc, &mut block, PROCESSORS)?;
    definition_block(alloc, block)
}
