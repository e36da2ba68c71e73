//! Tables of one list.

use crate::trial::Grows;
use acpi_tables::madt::{EnabledStatus, IMSIC, LocalInterruptController, MADT, ProcessorLocalApic};
use acpi_tables::mcfg::MCFG;
use acpi_tables::srat::{
    GenericInitiator, GicItsAffinity, GiccAffinity, Handle, MemoryAffinity,
    ProcessorLocalApicAffinity, ProcessorLocalX2ApicAffinity, RintcAffinity, SRAT,
};
use acpi_tables::xsdt::XSDT;
use acpi_tables::{Error, R};
use std::alloc::Global;
use test_support::{OEM, OEM_REVISION, OEM_TABLE};

impl Grows for XSDT {
    const WAYS: u8 = 1;

    fn empty(alloc: Global) -> R<XSDT> {
        Ok(XSDT::new(alloc, OEM, OEM_TABLE, OEM_REVISION))
    }

    fn grow(&mut self, _alloc: Global, _way: u8) -> R<()> {
        self.add_entry(0x1234)
    }
}

impl Grows for MCFG {
    const WAYS: u8 = 1;

    fn empty(alloc: Global) -> R<MCFG> {
        Ok(MCFG::new(alloc, OEM, OEM_TABLE, OEM_REVISION))
    }

    fn grow(&mut self, _alloc: Global, _way: u8) -> R<()> {
        self.add_ecam(0xb000_0000, 0, 0, 255)
    }
}

// It takes one IMSIC, and returns an error for a second.
impl Grows for MADT {
    const WAYS: u8 = 3;

    fn empty(alloc: Global) -> R<MADT> {
        let local = LocalInterruptController::Address(0xfee0_0000);
        Ok(MADT::new(alloc, OEM, OEM_TABLE, OEM_REVISION, local))
    }

    fn grow(&mut self, _alloc: Global, way: u8) -> R<()> {
        match way {
            0 => self.add_structure(ProcessorLocalApic::new(1, 2, EnabledStatus::Enabled)),
            1 => match self.add_imsic(IMSIC::new(0x0201, 0x0403, 5, 6, 7, 8)) {
                Err(Error::ImsicSet) => Ok(()),
                other => other,
            },
            _ => {
                let processor = ProcessorLocalApic::new(1, 2, EnabledStatus::Enabled);
                self.add_borrowed_structure(&processor)
            }
        }
    }
}

// Adds a processor or an interrupt translation service.
fn add_processor(table: &mut SRAT, way: u8) -> R<()> {
    match way {
        0 => table.add_processor_local_apic_affinity(ProcessorLocalApicAffinity::new(1, 2)),
        1 => table.add_processor_local_x2apic_affinity(ProcessorLocalX2ApicAffinity::new(1, 2)),
        2 => table.add_gicc_affinity(GiccAffinity::new(1, 2)),
        3 => table.add_rintc_affinity(RintcAffinity::new(*b"abcd", 7)),
        _ => table.add_gic_its_affinity(GicItsAffinity::new(1, 2)),
    }
}

impl Grows for SRAT {
    const WAYS: u8 = 7;

    fn empty(alloc: Global) -> R<SRAT> {
        Ok(SRAT::new(alloc, OEM, OEM_TABLE, OEM_REVISION))
    }

    fn grow(&mut self, _alloc: Global, way: u8) -> R<()> {
        match way {
            5 => self.add_memory_affinity(MemoryAffinity::new(1, 0x1_0000_0000, 0x4000_0000)),
            6 => self.add_generic_initiator(GenericInitiator::new(2, Handle::new_pci(3, 4, 5, 6))),
            _ => add_processor(self, way),
        }
    }
}
