//! Tables of structures that don't refer to each other.

use crate::filling::Fills;
use crate::sdt::{size_of, sized};
use acpi_tables::R;
use acpi_tables::aml::ZERO;
use acpi_tables::cedt::{CEDT, CxlHostBridge, CxlVersion};
use acpi_tables::gas::GAS;
use acpi_tables::hest::HEST;
use acpi_tables::madt::{LocalInterruptController, MADT};
use acpi_tables::mcfg::MCFG;
use acpi_tables::rqsc::{ControllerType, QoSController, RQSC};
use acpi_tables::srat::{MemoryAffinity, SRAT};
use acpi_tables::xsdt::XSDT;
use std::alloc::Global;
use test_support::{OEM, OEM_REVISION, OEM_TABLE};

impl Fills for XSDT {
    const UNIT: &'static str = "structures";

    fn empty(alloc: Global) -> R<XSDT> {
        Ok(XSDT::new(alloc, OEM, OEM_TABLE, OEM_REVISION))
    }

    fn grow(&mut self, _alloc: Global, number: u32) -> R<()> {
        self.add_entry(u64::from(number))
    }
}

impl Fills for MCFG {
    const UNIT: &'static str = "structures";

    fn empty(alloc: Global) -> R<MCFG> {
        Ok(MCFG::new(alloc, OEM, OEM_TABLE, OEM_REVISION))
    }

    fn grow(&mut self, _alloc: Global, number: u32) -> R<()> {
        self.add_ecam(u64::from(number), 0, 0, 255)
    }
}

impl Fills for MADT {
    const UNIT: &'static str = "structures";

    fn empty(alloc: Global) -> R<MADT> {
        let local = LocalInterruptController::Riscv;
        Ok(MADT::new(alloc, OEM, OEM_TABLE, OEM_REVISION, local))
    }

    fn grow(&mut self, alloc: Global, number: u32) -> R<()> {
        match number {
            0..=3 => self.add_structure(sized(alloc, size_of(number, 44))?),
            _ => self.add_structure(ZERO),
        }
    }
}

impl Fills for SRAT {
    const UNIT: &'static str = "structures";

    fn empty(alloc: Global) -> R<SRAT> {
        Ok(SRAT::new(alloc, OEM, OEM_TABLE, OEM_REVISION))
    }

    fn grow(&mut self, _alloc: Global, number: u32) -> R<()> {
        self.add_memory_affinity(MemoryAffinity::new(number, 0, 0x1000))
    }
}

impl Fills for CEDT {
    const UNIT: &'static str = "structures";

    fn empty(alloc: Global) -> R<CEDT> {
        Ok(CEDT::new(alloc, OEM, OEM_TABLE, OEM_REVISION))
    }

    fn grow(&mut self, _alloc: Global, number: u32) -> R<()> {
        self.add_host_bridge(CxlHostBridge::new(number, CxlVersion::Cxl2, 0x1000))
    }
}

impl Fills for HEST {
    const UNIT: &'static str = "structures";

    fn empty(alloc: Global) -> R<HEST> {
        Ok(HEST::new(alloc, OEM, OEM_TABLE, OEM_REVISION))
    }

    fn grow(&mut self, alloc: Global, number: u32) -> R<()> {
        match number {
            0..=3 => self.add_structure(sized(alloc, size_of(number, 40))?),
            _ => self.add_structure(ZERO),
        }
    }
}

impl Fills for RQSC {
    const UNIT: &'static str = "structures";

    fn empty(alloc: Global) -> R<RQSC> {
        Ok(RQSC::new(alloc, OEM, OEM_TABLE, OEM_REVISION))
    }

    fn grow(&mut self, alloc: Global, number: u32) -> R<()> {
        let register = GAS::default();
        let controller = QoSController::new(
            alloc,
            ControllerType::Capacity,
            register,
            number,
            0,
            0,
        );
        self.add_controller(controller)
    }
}
