//! GTDT, DBG2 and IORT, and their structures.

use crate::short::{starve, starve_all, starve_made};
use acpi_tables::R;
use acpi_tables::dbg2::{DBG2, DebugDevice, DebugPort};
use acpi_tables::gas::GAS;
use acpi_tables::gtdt::{EarlierGTDT, GTDT, GenericWatchdog, GtBlock, GtBlockTimer, Timer, Timers};
use acpi_tables::iort::{
    AccessAttributes, EarlierRootComplex, IORT, IdMapping, ItsGroup, ItsGroupHandle, MemoryRange,
    Monitored, NamedComponent, Output, Pmcg, ReservedMemory, RootComplex, Smmu, SmmuInterrupt,
    SmmuModel, SmmuV3, SmmuV3Handle, SmmuV3Model,
};
use std::alloc::Global;
use std::test::Fail;
use test_support::{OEM, OEM_REVISION, OEM_TABLE};

fn block(alloc: Global) -> R<GtBlock> {
    GtBlock::new(alloc, 1, GtBlockTimer::new(2, 3))
}

fn timers() -> Timers {
    Timers::new(Timer::new(30), Timer::new(27))
}

// The table has 192 bytes: 104, a block of one timer of 60, and a watchdog of 28.
fn made_gtdt(alloc: Global) -> R<GTDT> {
    let mut gtdt = GTDT::new(alloc, OEM, OEM_TABLE, OEM_REVISION, timers());
    gtdt.add_gt_block(block(alloc)?)?;
    gtdt.add_generic_watchdog(GenericWatchdog::new(4, 5, 6))?;
    Ok(gtdt)
}

#[test]
fn gtdt(rt: HostRuntime) -> Result<(), Fail> {
    let alloc = rt.alloc();
    starve_all(
        alloc,
        &[
            (40, &GtBlockTimer::new(2, 3)),
            (28, &GenericWatchdog::new(4, 5, 6)),
            (
                96,
                &EarlierGTDT::new(OEM, OEM_TABLE, OEM_REVISION, timers()),
            ),
        ],
    )?;
    starve_made(alloc, 60, block(alloc))?;
    starve_made(alloc, 192, made_gtdt(alloc))
}

// A device has 52 bytes: 22, a register of 16, a name of 10 and its zero, and three bytes of OEM data.
fn device(alloc: Global) -> R<DebugDevice> {
    let name = String::from_str(alloc, "\\_SB_.COM1")?;
    let oem_data = Vec::from_slice(alloc, &[7, 8, 9])?;
    let device = DebugDevice::new(alloc, DebugPort::Net(0x8086));
    let device = device.register(GAS::default(), 4)?;
    Ok(device.namespace_string(name).oem_data(oem_data))
}

fn made_dbg2(alloc: Global) -> R<DBG2> {
    let mut dbg2 = DBG2::new(alloc, OEM, OEM_TABLE, OEM_REVISION);
    dbg2.add_device(device(alloc)?)?;
    Ok(dbg2)
}

#[test]
fn dbg2(rt: HostRuntime) -> Result<(), Fail> {
    let alloc = rt.alloc();
    starve_made(alloc, 52, device(alloc))?;
    starve_made(alloc, 96, made_dbg2(alloc))
}

fn empty_iort(alloc: Global) -> IORT {
    IORT::new(alloc, OEM, OEM_TABLE, OEM_REVISION)
}

fn group(alloc: Global) -> R<ItsGroup> {
    let mut group = ItsGroup::new(alloc);
    group.add_its(1)?;
    Ok(group)
}

fn mapping(group: ItsGroupHandle) -> IdMapping {
    IdMapping::new(1, 2, 3, Output::ItsGroup(group))
}

fn component(alloc: Global, group: ItsGroupHandle) -> R<NamedComponent> {
    let mut component = NamedComponent::new(alloc, String::from_str(alloc, "\\_SB_.DEV0")?);
    component.add_mapping(mapping(group))?;
    Ok(component)
}

fn complex(alloc: Global, group: ItsGroupHandle) -> R<RootComplex> {
    let mut complex = RootComplex::new(alloc, 4);
    complex.add_mapping(mapping(group))?;
    Ok(complex)
}

// The form of node revision 3 has four bytes less.
fn earlier_complex(alloc: Global, group: ItsGroupHandle) -> R<EarlierRootComplex> {
    Ok(complex(alloc, group)?.earlier())
}

fn smmu(alloc: Global, group: ItsGroupHandle) -> R<Smmu> {
    let interrupt = SmmuInterrupt::new(5);
    let mut smmu = Smmu::new(alloc, SmmuModel::GenericV2, 6, 7, interrupt);
    smmu.add_context_interrupt(interrupt)?;
    smmu.add_pmu_interrupt(interrupt)?;
    smmu.add_mapping(mapping(group))?;
    Ok(smmu)
}

fn smmu_v3(alloc: Global, group: ItsGroupHandle) -> R<SmmuV3> {
    let mut smmu = SmmuV3::new(alloc, SmmuV3Model::Generic, 8);
    smmu.add_mapping(mapping(group))?;
    Ok(smmu)
}

fn counters(alloc: Global, group: ItsGroupHandle, node: SmmuV3Handle) -> R<Pmcg> {
    let mut counters = Pmcg::new(alloc, 9, Monitored::SmmuV3(node));
    counters.add_mapping(mapping(group))?;
    Ok(counters)
}

fn memory(alloc: Global, group: ItsGroupHandle) -> R<ReservedMemory> {
    let mut memory = ReservedMemory::new(alloc, AccessAttributes::DeviceGRE);
    memory.add_range(MemoryRange::new(0x1_0000, 0x2_0000))?;
    memory.add_mapping(mapping(group))?;
    Ok(memory)
}

// Adds a group and an SMMU, and returns their handles.
fn add_both(alloc: Global, iort: &mut IORT) -> R<(ItsGroupHandle, SmmuV3Handle)> {
    let group = iort.add_its_group(group(alloc)?)?;
    let node = iort.add_smmu_v3(smmu_v3(alloc, group)?)?;
    Ok((group, node))
}

// The table has 160 bytes: 48, a group of one service of 24, and an SMMU with one mapping of 88.
fn made_iort(alloc: Global) -> R<IORT> {
    let mut iort = empty_iort(alloc);
    add_both(alloc, &mut iort)?;
    Ok(iort)
}

#[test]
fn iort(rt: HostRuntime) -> Result<(), Fail> {
    let alloc = rt.alloc();
    starve_made(alloc, 24, group(alloc))?;
    starve_made(alloc, 160, made_iort(alloc))
}

// Without its mapping the device has 40 bytes: 29, its name of 10, and a zero.
#[test]
fn iort_devices(rt: HostRuntime) -> Result<(), Fail> {
    let alloc = rt.alloc();
    let group = empty_iort(alloc).add_its_group(group(alloc)?)?;
    starve(alloc, 20, &mapping(group))?;
    starve_made(alloc, 60, component(alloc, group))?;
    starve_made(alloc, 60, complex(alloc, group))?;
    starve_made(alloc, 56, earlier_complex(alloc, group))
}

#[test]
fn iort_smmus(rt: HostRuntime) -> Result<(), Fail> {
    let alloc = rt.alloc();
    let group = empty_iort(alloc).add_its_group(group(alloc)?)?;
    starve(alloc, 8, &SmmuInterrupt::new(5))?;
    starve_made(alloc, 112, smmu(alloc, group))?;
    starve_made(alloc, 88, smmu_v3(alloc, group))
}

#[test]
fn iort_memory(rt: HostRuntime) -> Result<(), Fail> {
    let alloc = rt.alloc();
    let (group, node) = add_both(alloc, &mut empty_iort(alloc))?;
    starve(alloc, 20, &MemoryRange::new(0x1_0000, 0x2_0000))?;
    starve_made(alloc, 60, counters(alloc, group, node))?;
    starve_made(alloc, 68, memory(alloc, group))
}
