//! The tables of an Arm machine: interrupt controllers, timers, the console, and the ways of interrupts and of device addresses.

use crate::arm::virt::{
    CONFIGURATION_SPACE, DISTRIBUTOR, LAST_BUS, MAINTENANCE_INTERRUPT, PERFORMANCE_INTERRUPT,
    PROCESSORS, REDISTRIBUTOR_BYTES, REDISTRIBUTORS, SERIAL_BYTES, SERIAL_INTERRUPT, SERIAL_NAME,
    SERIAL_PORT, SMMU, SMMU_ERRORS, SMMU_EVENTS, SMMU_PAGE_REQUESTS, SMMU_SYNCHRONIZATION,
    TIMER_EL2, TIMER_NON_SECURE, TIMER_SECURE, TIMER_VIRTUAL, TRANSLATION_SERVICE,
    TRANSLATION_SERVICE_ID,
};
use crate::oem::{OEM_ID, OEM_REVISION, OEM_TABLE_ID};
use acpi_tables::dbg2::{DBG2, DebugDevice, DebugPort};
use acpi_tables::fadt::FADTBuilder;
use acpi_tables::gas::{AccessSize, AddressSpace, GAS};
use acpi_tables::gtdt::{GTDT, Timer, Timers};
use acpi_tables::iort::{
    IORT, IdMapping, ItsGroup, MemoryAccess, Output, RootComplex, SmmuV3, SmmuV3Model,
};
use acpi_tables::madt::{
    EnabledStatus, GicIts, GicVersion, Gicc, Gicd, Gicr, LocalInterruptController, MADT, Trigger,
};
use acpi_tables::mcfg::MCFG;
use acpi_tables::sdt::Sdt;
use acpi_tables::spcr::{BaudRate, InterfaceType, InterruptController, SPCR};
use acpi_tables::{Aml, R};
use std::alloc::Global;

/// The fields of the FADT (ACPI 6.5, 5.2.9): the machine has no fixed hardware, and firmware offers PSCI by `HVC`.
pub fn no_fixed_hardware() -> FADTBuilder {
    let mut fields = FADTBuilder::new(OEM_ID, OEM_TABLE_ID, OEM_REVISION);
    // PSCI_COMPLIANT and PSCI_USE_HVC (5.2.9.4).
    fields.arm_boot_arch = 3;
    fields
}

/// The interrupt controllers: the GIC's distributor, an interface for each processor, the redistributors, and the interrupt
/// translation service.
pub fn interrupt_controllers(alloc: Global) -> R<MADT> {
    let local = LocalInterruptController::Address(0);
    let mut table = MADT::new(alloc, OEM_ID, OEM_TABLE_ID, OEM_REVISION, local);
    table.add_structure(Gicd::new(0, DISTRIBUTOR, GicVersion::GICv3))?;
    for processor in 0..PROCESSORS {
        let number = u32::from(processor);
        table.add_structure(
            Gicc::new(EnabledStatus::Enabled)
                .cpu_interface_number(number)
                .acpi_processor_uid(number)
                .performance_interrupt(PERFORMANCE_INTERRUPT, Trigger::Level)
                .maintenance_interrupt(MAINTENANCE_INTERRUPT, Trigger::Level)
                .mpidr(u64::from(number)),
        )?;
    }
    table.add_structure(Gicr::new(REDISTRIBUTORS, REDISTRIBUTOR_BYTES))?;
    table.add_structure(GicIts::new(TRANSLATION_SERVICE_ID, TRANSLATION_SERVICE))?;
    Ok(table)
}

/// The timers of a processor. They are triggered by level, and the non-secure one of EL1 is always on.
pub fn timers(alloc: Global) -> GTDT {
    let timers = Timers::new(
        Timer::new(TIMER_NON_SECURE).always_on(),
        Timer::new(TIMER_VIRTUAL),
    )
    .secure_el1(Timer::new(TIMER_SECURE))
    .el2(Timer::new(TIMER_EL2));
    GTDT::new(alloc, OEM_ID, OEM_TABLE_ID, OEM_REVISION, timers)
}

// The registers of the PL011.
fn serial_registers() -> GAS {
    let address = u64::from(SERIAL_PORT);
    GAS::new(
        AddressSpace::SystemMemory,
        32,
        0,
        AccessSize::DwordAccess,
        address,
    )
}

/// The console: the PL011. It is an `Sdt` with the table's bytes: a vector of borrowed tables takes no type with a lifetime.
pub fn console(alloc: Global) -> R<Sdt> {
    let (kind, registers) = (InterfaceType::ArmPl011, serial_registers());
    let port = SPCR::new(OEM_ID, OEM_TABLE_ID, OEM_REVISION, kind, registers)
        .gsi(InterruptController::ArmGic, SERIAL_INTERRUPT)
        .baud_rate(BaudRate::Baud115200);
    let mut bytes = Vec::new(alloc);
    port.to_aml_bytes(&mut bytes)?;
    let mut table = Sdt::new(alloc, *b"SPCR", 36, 4, OEM_ID, OEM_TABLE_ID, OEM_REVISION)?;
    table.append_slice(bytes.get(36..).unwrap_or(&[]))?;
    Ok(table)
}

// The PL011 as a port for debuggers, by its full name.
fn debug_port(alloc: Global) -> R<DebugDevice> {
    let port = DebugPort::Serial(InterfaceType::ArmPl011);
    let device = DebugDevice::new(alloc, port).register(serial_registers(), SERIAL_BYTES)?;
    Ok(device.namespace_string(String::from_str(alloc, SERIAL_NAME)?))
}

/// The port for debuggers: the PL011, too.
pub fn debug_ports(alloc: Global) -> R<DBG2> {
    let mut table = DBG2::new(alloc, OEM_ID, OEM_TABLE_ID, OEM_REVISION);
    table.add_device(debug_port(alloc)?)?;
    Ok(table)
}

/// The configuration space of all buses of PCI.
pub fn configuration_space(alloc: Global) -> R<MCFG> {
    let mut table = MCFG::new(alloc, OEM_ID, OEM_TABLE_ID, OEM_REVISION);
    table.add_ecam(CONFIGURATION_SPACE, 0, 0, LAST_BUS)?;
    Ok(table)
}

// Adds the interrupt translation service.
fn add_service(alloc: Global, table: &mut IORT) -> R<Output> {
    let mut services = ItsGroup::new(alloc);
    services.add_its(TRANSLATION_SERVICE_ID)?;
    Ok(Output::ItsGroup(table.add_its_group(services)?))
}

// Adds the SMMU. It passes interrupts on to the interrupt translation service.
fn add_smmu(alloc: Global, table: &mut IORT, service: Output) -> R<Output> {
    let mut smmu = SmmuV3::new(alloc, SmmuV3Model::Generic, SMMU)
        .cohacc_override()
        .event_gsiv(SMMU_EVENTS)
        .pri_gsiv(SMMU_PAGE_REQUESTS)
        .gerr_gsiv(SMMU_ERRORS)
        .sync_gsiv(SMMU_SYNCHRONIZATION);
    smmu.add_mapping(IdMapping::new(0, 0xffff, 0, service))?;
    Ok(Output::SmmuV3(table.add_smmu_v3(smmu)?))
}

// The root complex. Its accesses are coherent, and go through the SMMU.
fn root_complex(alloc: Global, smmu: Output) -> R<RootComplex> {
    let access = MemoryAccess::new()
        .cache_coherent()
        .coherent_path()
        .cacheable_attributes();
    let mut root_complex = RootComplex::new(alloc, 0)
        .memory_access(access)
        .address_size_limit(64);
    root_complex.add_mapping(IdMapping::new(0, 0xffff, 0, smmu))?;
    Ok(root_complex)
}

/// The way of a PCI device's accesses: from the root complex through the SMMU. Its interrupts go on to the interrupt translation
/// service. Each of the 65,536 ids stays the same.
pub fn remapping(alloc: Global) -> R<IORT> {
    let mut table = IORT::new(alloc, OEM_ID, OEM_TABLE_ID, OEM_REVISION);
    let service = add_service(alloc, &mut table)?;
    let smmu = add_smmu(alloc, &mut table, service)?;
    let _ = table.add_root_complex(root_complex(alloc, smmu)?)?;
    Ok(table)
}
