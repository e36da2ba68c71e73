//! Interrupt controllers, configuration space, and the domains of processors and memory.

use crate::machine::{
    CONFIGURATION_SPACE, IO_APIC, LAST_BUS, LOCAL_APIC, MEMORY_OF_A_DOMAIN, PROCESSORS, SCI,
};
use crate::oem::{OEM_ID, OEM_REVISION, OEM_TABLE_ID};
use acpi_tables::madt::{
    self, InterruptSourceOverride, IoApic, LocalInterruptController, MADT, Polarity,
    ProcessorLocalApic, TriggerMode,
};
use acpi_tables::mcfg::MCFG;
use acpi_tables::srat::{MemoryAffinity, ProcessorLocalApicAffinity, SRAT};
use acpi_tables::{Aml, R};
use std::alloc::Global;

/// The interrupt controllers: a local APIC for each processor, and an I/O APIC for devices. The timer's interrupt is 0, and it
/// comes to input 2 of the I/O APIC. ACPI's own interrupt is active high and triggered by level.
pub fn interrupt_controllers(alloc: Global) -> R<MADT> {
    let local = LocalInterruptController::Address(LOCAL_APIC);
    let mut table = MADT::new(alloc, OEM_ID, OEM_TABLE_ID, OEM_REVISION, local);
    for processor in 0..PROCESSORS {
        let status = madt::EnabledStatus::Enabled;
        table.add_structure(ProcessorLocalApic::new(processor, processor, status))?;
    }
    // Devices of several types, as a monitor has them in a list.
    let mut devices: Vec<Box<dyn Aml + Drop>> = Vec::new(alloc);
    devices.push(Box::new(alloc, IoApic::new(0, IO_APIC, 0))?)?;
    devices.push(Box::new(alloc, InterruptSourceOverride::new(0, 2))?)?;
    let sci = InterruptSourceOverride::new(SCI, u32::from(SCI))
        .polarity(Polarity::ActiveHigh)
        .trigger_mode(TriggerMode::Level);
    devices.push(Box::new(alloc, sci)?)?;
    for device in &devices {
        table.add_borrowed_structure(&**device)?;
    }
    Ok(table)
}

/// The configuration space of all buses of PCI.
pub fn configuration_space(alloc: Global) -> R<MCFG> {
    let mut table = MCFG::new(alloc, OEM_ID, OEM_TABLE_ID, OEM_REVISION);
    table.add_ecam(CONFIGURATION_SPACE, 0, 0, LAST_BUS)?;
    Ok(table)
}

/// The processors and the memory of two domains. Each domain has the processor of its number. The second domain's memory begins
/// where that of the first ends.
pub fn affinities(alloc: Global) -> R<SRAT> {
    let mut table = SRAT::new(alloc, OEM_ID, OEM_TABLE_ID, OEM_REVISION);
    for processor in 0..PROCESSORS {
        let affinity = ProcessorLocalApicAffinity::new(u32::from(processor), processor);
        table.add_processor_local_apic_affinity(affinity.enabled())?;
    }
    let (first, second) = (0, MEMORY_OF_A_DOMAIN);
    table.add_memory_affinity(MemoryAffinity::new(0, first, MEMORY_OF_A_DOMAIN).enabled())?;
    table.add_memory_affinity(MemoryAffinity::new(1, second, MEMORY_OF_A_DOMAIN).enabled())?;
    Ok(table)
}
