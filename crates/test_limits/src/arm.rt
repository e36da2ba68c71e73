//! The tables of Arm machines.

use crate::filling::Fills;
use acpi_tables::R;
use acpi_tables::dbg2::{DBG2, DebugDevice, DebugPort};
use acpi_tables::gtdt::{GTDT, GenericWatchdog, Timer, Timers};
use acpi_tables::iort::{IORT, SmmuV3, SmmuV3Model};
use std::alloc::Global;
use test_support::{OEM, OEM_REVISION, OEM_TABLE};

impl Fills for GTDT {
    const UNIT: &'static str = "structures";

    fn empty(alloc: Global) -> R<GTDT> {
        let timers = Timers::new(Timer::new(30), Timer::new(27));
        Ok(GTDT::new(alloc, OEM, OEM_TABLE, OEM_REVISION, timers))
    }

    fn grow(&mut self, _alloc: Global, number: u32) -> R<()> {
        self.add_generic_watchdog(GenericWatchdog::new(1, 2, number))
    }
}

impl Fills for DBG2 {
    const UNIT: &'static str = "structures";

    fn empty(alloc: Global) -> R<DBG2> {
        Ok(DBG2::new(alloc, OEM, OEM_TABLE, OEM_REVISION))
    }

    fn grow(&mut self, alloc: Global, _number: u32) -> R<()> {
        self.add_device(DebugDevice::new(alloc, DebugPort::Net(1)))
    }
}

impl Fills for IORT {
    const UNIT: &'static str = "structures";

    fn empty(alloc: Global) -> R<IORT> {
        Ok(IORT::new(alloc, OEM, OEM_TABLE, OEM_REVISION))
    }

    fn grow(&mut self, alloc: Global, number: u32) -> R<()> {
        let smmu = SmmuV3::new(alloc, SmmuV3Model::Generic, u64::from(number));
        drop(self.add_smmu_v3(smmu)?);
        Ok(())
    }
}
