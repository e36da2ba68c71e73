//! Tables of nodes that refer to each other.

use crate::filling::Fills;
use acpi_tables::R;
use acpi_tables::pptt::{PPTT, ProcessorNode};
use acpi_tables::rhct::{RHCT, VirtualAddressScheme};
use acpi_tables::rimt::{Iommu, RIMT};
use acpi_tables::viot::{VIOT, VirtIoMmioIommu};
use std::alloc::Global;
use test_support::{OEM, OEM_REVISION, OEM_TABLE};

impl Fills for PPTT {
    const UNIT: &'static str = "structures";

    fn empty(alloc: Global) -> R<PPTT> {
        Ok(PPTT::new(alloc, OEM, OEM_TABLE, OEM_REVISION))
    }

    fn grow(&mut self, alloc: Global, number: u32) -> R<()> {
        drop(self.add_processor(ProcessorNode::new(alloc, None, number))?);
        Ok(())
    }
}

impl Fills for RHCT {
    const UNIT: &'static str = "structures";

    fn empty(alloc: Global) -> R<RHCT> {
        Ok(RHCT::new(alloc, OEM, OEM_TABLE, OEM_REVISION, 1000))
    }

    fn grow(&mut self, _alloc: Global, _number: u32) -> R<()> {
        self.add_mmu_node(VirtualAddressScheme::Sv39)
    }
}

impl Fills for VIOT {
    const UNIT: &'static str = "structures";

    fn empty(alloc: Global) -> R<VIOT> {
        Ok(VIOT::new(alloc, OEM, OEM_TABLE, OEM_REVISION))
    }

    fn grow(&mut self, _alloc: Global, number: u32) -> R<()> {
        drop(self.add_virtio_mmio_iommu(VirtIoMmioIommu::new(u64::from(number)))?);
        Ok(())
    }
}

impl Fills for RIMT {
    const UNIT: &'static str = "structures";

    fn empty(alloc: Global) -> R<RIMT> {
        Ok(RIMT::new(alloc, OEM, OEM_TABLE, OEM_REVISION))
    }

    fn grow(&mut self, _alloc: Global, number: u32) -> R<()> {
        drop(self.add_iommu(Iommu::new(1, Some(u64::from(number)), None, None, None))?);
        Ok(())
    }
}
