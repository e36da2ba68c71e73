//! Tables that are lists, and their structures.

use crate::short::{starve_all, starve_made};
use acpi_tables::R;
use acpi_tables::cedt::{
    CEDT, CxlFixedMemory, CxlHostBridge, CxlVersion, InterleaveArithmetic, InterleaveGranularity,
    InterleaveWays, PortAssociation, ProtocolType, XorInterleaveMath,
};
use acpi_tables::madt::{
    APLIC, EnabledStatus, GicIts, GicMsi, GicVersion, Gicc, Gicd, Gicr, HartStatus, IMSIC,
    InterruptSourceOverride, IoApic, LocalApicAddressOverride, LocalApicNmi,
    LocalInterruptController, LocalX2ApicNmi, MADT, NmiSource, PLIC, ProcessorLocalApic,
    ProcessorLocalX2Apic, RINTC,
};
use acpi_tables::mcfg::MCFG;
use acpi_tables::srat::{
    GenericInitiator, GicItsAffinity, GiccAffinity, Handle, MemoryAffinity,
    ProcessorLocalApicAffinity, ProcessorLocalX2ApicAffinity, RintcAffinity, SRAT,
};
use acpi_tables::xsdt::XSDT;
use std::alloc::Global;
use std::test::Fail;
use test_support::{OEM, OEM_REVISION, OEM_TABLE};

fn xsdt(alloc: Global) -> R<XSDT> {
    let mut xsdt = XSDT::new(alloc, OEM, OEM_TABLE, OEM_REVISION);
    xsdt.add_entry(0x0807_0605_0403_0201)?;
    Ok(xsdt)
}

fn mcfg(alloc: Global) -> R<MCFG> {
    let mut mcfg = MCFG::new(alloc, OEM, OEM_TABLE, OEM_REVISION);
    mcfg.add_ecam(0x0807_0605_0403_0201, 0x0a09, 0x0b, 0x0c)?;
    Ok(mcfg)
}

fn madt(alloc: Global) -> R<MADT> {
    let local = LocalInterruptController::Address(0x0403_0201);
    let mut madt = MADT::new(alloc, OEM, OEM_TABLE, OEM_REVISION, local);
    madt.add_structure(ProcessorLocalApic::new(1, 2, EnabledStatus::Enabled))?;
    Ok(madt)
}

fn srat(alloc: Global) -> R<SRAT> {
    let mut srat = SRAT::new(alloc, OEM, OEM_TABLE, OEM_REVISION);
    srat.add_rintc_affinity(RintcAffinity::new(*b"uid.", 1))?;
    Ok(srat)
}

fn cedt(alloc: Global) -> R<CEDT> {
    let mut cedt = CEDT::new(alloc, OEM, OEM_TABLE, OEM_REVISION);
    cedt.add_host_bridge(CxlHostBridge::new(1, CxlVersion::Cxl2, 2))?;
    Ok(cedt)
}

#[test]
fn tables(rt: HostRuntime) -> Result<(), Fail> {
    let alloc = rt.alloc();
    starve_made(alloc, 44, xsdt(alloc))?;
    starve_made(alloc, 60, mcfg(alloc))?;
    starve_made(alloc, 52, madt(alloc))?;
    starve_made(alloc, 68, srat(alloc))?;
    starve_made(alloc, 68, cedt(alloc))
}

#[test]
fn interrupt_controllers(rt: HostRuntime) -> Result<(), Fail> {
    let alloc = rt.alloc();
    starve_all(
        alloc,
        &[
            (8, &ProcessorLocalApic::new(1, 2, EnabledStatus::Enabled)),
            (12, &IoApic::new(1, 0x0605_0403, 0x0a09_0807)),
            (82, &Gicc::new(EnabledStatus::Enabled)),
            (24, &Gicd::new(1, 2, GicVersion::GICv3)),
            (24, &GicMsi::new()),
            (16, &Gicr::new(1, 2)),
            (20, &GicIts::new(1, 2)),
            (36, &RINTC::new(HartStatus::Enabled, 1, 2, 3, 4, 5)),
            (16, &IMSIC::new(1, 2, 3, 4, 5, 6)),
            (36, &APLIC::new(1, *b"hardware", 2, 3, 4, 5, 6)),
            (36, &PLIC::new(1, *b"hardware", 2, 3, 4, 5, 6)),
        ],
    )
}

#[test]
fn interrupts_and_processors(rt: HostRuntime) -> Result<(), Fail> {
    starve_all(
        rt.alloc(),
        &[
            (10, &InterruptSourceOverride::new(1, 2)),
            (8, &NmiSource::new(1)),
            (6, &LocalApicNmi::new(1, 2)),
            (12, &LocalX2ApicNmi::new(1, 2)),
            (12, &LocalApicAddressOverride::new(1)),
            (16, &ProcessorLocalX2Apic::new(1, 2, EnabledStatus::Enabled)),
            (80, &Gicc::new(EnabledStatus::Enabled).earlier()),
            (16, &ProcessorLocalApicAffinity::new(1, 2)),
            (24, &ProcessorLocalX2ApicAffinity::new(1, 2)),
            (18, &GiccAffinity::new(1, 2)),
            (12, &GicItsAffinity::new(1, 2)),
        ],
    )
}

#[test]
fn affinities(rt: HostRuntime) -> Result<(), Fail> {
    let alloc = rt.alloc();
    let acpi = Handle::new_acpi(*b"ABCDEFGH", *b"ijkl");
    let pci = Handle::new_pci(0x0201, 3, 4, 5);
    starve_all(
        alloc,
        &[
            (40, &MemoryAffinity::new(1, 2, 3)),
            (16, &acpi),
            (16, &pci),
            (32, &GenericInitiator::new(1, acpi)),
            (32, &GenericInitiator::new(1, pci)),
            (20, &RintcAffinity::new(*b"uid.", 1)),
        ],
    )
}

fn window(alloc: Global) -> R<CxlFixedMemory> {
    let mut window = CxlFixedMemory::new(
        alloc,
        1,
        2,
        InterleaveArithmetic::ModuloXor,
        InterleaveGranularity::Granularity16kb,
        InterleaveWays::Ways2,
        3,
    );
    window.add_target(*b"abcd")?;
    window.add_target(*b"efgh")?;
    Ok(window)
}

fn maps(alloc: Global) -> R<XorInterleaveMath> {
    let mut maps = XorInterleaveMath::new(alloc, InterleaveGranularity::Granularity512b);
    maps.add_xormap(0x0807_0605_0403_0201)?;
    Ok(maps)
}

#[test]
fn cxl(rt: HostRuntime) -> Result<(), Fail> {
    let alloc = rt.alloc();
    starve_made(alloc, 44, window(alloc))?;
    starve_made(alloc, 16, maps(alloc))?;
    starve_all(
        alloc,
        &[
            (32, &CxlHostBridge::new(1, CxlVersion::Cxl2, 2)),
            (
                17,
                &PortAssociation::new(1, 2, 3, 4, ProtocolType::CxlMem, 5),
            ),
        ],
    )
}
