//! The tables of Arm machines, and those of their structures that grow by themselves.

use crate::trial::{Grows, done};
use acpi_tables::R;
use acpi_tables::dbg2::{DBG2, DebugDevice, DebugPort};
use acpi_tables::gas::GAS;
use acpi_tables::gtdt::{GTDT, GenericWatchdog, GtBlock, GtBlockTimer, Timer, Timers};
use acpi_tables::iort::{
    AccessAttributes, IORT, IdMapping, ItsGroup, ItsGroupHandle, MemoryRange, Monitored,
    NamedComponent, Output, Pmcg, ReservedMemory, RootComplex, Smmu, SmmuInterrupt, SmmuModel,
    SmmuV3, SmmuV3Handle, SmmuV3Model,
};
use std::alloc::Global;
use test_support::{OEM, OEM_REVISION, OEM_TABLE};

impl Grows for GtBlock {
    const WAYS: u8 = 1;

    fn empty(alloc: Global) -> R<GtBlock> {
        GtBlock::new(alloc, 1, GtBlockTimer::new(2, 3))
    }

    fn grow(&mut self, _alloc: Global, _way: u8) -> R<()> {
        self.add_timer(GtBlockTimer::new(4, 5))
    }
}

impl Grows for GTDT {
    const WAYS: u8 = 2;

    fn empty(alloc: Global) -> R<GTDT> {
        let timers = Timers::new(Timer::new(30), Timer::new(27));
        Ok(GTDT::new(alloc, OEM, OEM_TABLE, OEM_REVISION, timers))
    }

    fn grow(&mut self, alloc: Global, way: u8) -> R<()> {
        match way {
            0 => self.add_gt_block(GtBlock::empty(alloc)?),
            _ => self.add_generic_watchdog(GenericWatchdog::new(1, 2, 3)),
        }
    }
}

// One register has room inside the value. The second asks for memory.
fn device(alloc: Global) -> R<DebugDevice> {
    let mut device = DebugDevice::new(alloc, DebugPort::Net(1));
    for _ in 0..2u8 {
        device = device.register(GAS::default(), 4)?;
    }
    Ok(device)
}

impl Grows for DBG2 {
    const WAYS: u8 = 1;

    fn empty(alloc: Global) -> R<DBG2> {
        Ok(DBG2::new(alloc, OEM, OEM_TABLE, OEM_REVISION))
    }

    fn grow(&mut self, alloc: Global, _way: u8) -> R<()> {
        self.add_device(device(alloc)?)
    }
}

fn iort(alloc: Global) -> IORT {
    IORT::new(alloc, OEM, OEM_TABLE, OEM_REVISION)
}

fn group(alloc: Global) -> R<ItsGroupHandle> {
    iort(alloc).add_its_group(ItsGroup::new(alloc))
}

fn smmu_v3(alloc: Global) -> SmmuV3 {
    SmmuV3::new(alloc, SmmuV3Model::Generic, 1)
}

fn node(alloc: Global) -> R<SmmuV3Handle> {
    iort(alloc).add_smmu_v3(smmu_v3(alloc))
}

fn mapping(alloc: Global) -> R<IdMapping> {
    Ok(IdMapping::new(1, 2, 3, Output::ItsGroup(group(alloc)?)))
}

impl Grows for ItsGroup {
    const WAYS: u8 = 1;

    fn empty(alloc: Global) -> R<ItsGroup> {
        Ok(ItsGroup::new(alloc))
    }

    fn grow(&mut self, _alloc: Global, _way: u8) -> R<()> {
        self.add_its(1)
    }
}

fn component(alloc: Global) -> R<NamedComponent> {
    let name = String::from_str(alloc, "\\_SB_.DEV0")?;
    Ok(NamedComponent::new(alloc, name))
}

impl Grows for NamedComponent {
    const WAYS: u8 = 1;

    fn empty(alloc: Global) -> R<NamedComponent> {
        component(alloc)
    }

    fn grow(&mut self, alloc: Global, _way: u8) -> R<()> {
        self.add_mapping(mapping(alloc)?)
    }
}

impl Grows for RootComplex {
    const WAYS: u8 = 1;

    fn empty(alloc: Global) -> R<RootComplex> {
        Ok(RootComplex::new(alloc, 1))
    }

    fn grow(&mut self, alloc: Global, _way: u8) -> R<()> {
        self.add_mapping(mapping(alloc)?)
    }
}

fn smmu(alloc: Global) -> Smmu {
    Smmu::new(alloc, SmmuModel::GenericV2, 2, 3, SmmuInterrupt::new(1))
}

impl Grows for Smmu {
    const WAYS: u8 = 3;

    fn empty(alloc: Global) -> R<Smmu> {
        Ok(smmu(alloc))
    }

    fn grow(&mut self, alloc: Global, way: u8) -> R<()> {
        match way {
            0 => self.add_context_interrupt(SmmuInterrupt::new(4)),
            1 => self.add_pmu_interrupt(SmmuInterrupt::new(5)),
            _ => self.add_mapping(mapping(alloc)?),
        }
    }
}

impl Grows for SmmuV3 {
    const WAYS: u8 = 1;

    fn empty(alloc: Global) -> R<SmmuV3> {
        Ok(smmu_v3(alloc))
    }

    fn grow(&mut self, alloc: Global, _way: u8) -> R<()> {
        self.add_mapping(mapping(alloc)?)
    }
}

fn memory(alloc: Global) -> ReservedMemory {
    ReservedMemory::new(alloc, AccessAttributes::DeviceGRE)
}

impl Grows for ReservedMemory {
    const WAYS: u8 = 2;

    fn empty(alloc: Global) -> R<ReservedMemory> {
        Ok(memory(alloc))
    }

    fn grow(&mut self, alloc: Global, way: u8) -> R<()> {
        match way {
            0 => self.add_range(MemoryRange::new(1, 2)),
            _ => self.add_mapping(mapping(alloc)?),
        }
    }
}

// A counter group has one mapping at most.
fn counters(alloc: Global) -> R<Pmcg> {
    let mut counters = Pmcg::new(alloc, 1, Monitored::SmmuV3(node(alloc)?));
    counters.add_mapping(mapping(alloc)?)?;
    Ok(counters)
}

fn add_component(table: &mut IORT, alloc: Global) -> R<()> {
    done(table.add_named_component(component(alloc)?))
}

fn add_counters(table: &mut IORT, alloc: Global) -> R<()> {
    table.add_pmcg(counters(alloc)?)
}

impl Grows for IORT {
    const WAYS: u8 = 8;

    fn empty(alloc: Global) -> R<IORT> {
        Ok(iort(alloc))
    }

    fn grow(&mut self, alloc: Global, way: u8) -> R<()> {
        match way {
            0 => done(self.add_its_group(ItsGroup::new(alloc))),
            1 => add_component(self, alloc),
            2 => done(self.add_root_complex(RootComplex::new(alloc, 1))),
            3 => done(self.add_smmu(smmu(alloc))),
            4 => done(self.add_smmu_v3(smmu_v3(alloc))),
            5 => add_counters(self, alloc),
            6 => self.add_reserved_memory(memory(alloc)),
            _ => done(self.add_earlier_root_complex(RootComplex::new(alloc, 1).earlier())),
        }
    }
}
