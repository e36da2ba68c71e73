//! Tables of nodes that refer to each other. A handle is an offset, so one of another table of the same kind can be used as well.

use crate::trial::{Grows, done};
use acpi_tables::R;
use acpi_tables::pptt::{CacheHandle, CacheNodeBuilder, PPTT, ProcessorNode};
use acpi_tables::rhct::{CmoNode, HartInfoNode, RHCT, VirtualAddressScheme};
use acpi_tables::rimt::{
    IdMapping, InterruptWire, Iommu, IommuOffset, PcieRootComplex, Platform, RIMT,
};
use acpi_tables::viot::{
    MmioEndpoint, PciDevice, PciRange, TranslationHandle, VIOT, VirtIoMmioIommu, VirtIoPciIommu,
};
use std::alloc::Global;
use test_support::{OEM, OEM_REVISION, OEM_TABLE};

fn pptt(alloc: Global) -> PPTT {
    PPTT::new(alloc, OEM, OEM_TABLE, OEM_REVISION)
}

fn cache(alloc: Global) -> R<CacheHandle> {
    pptt(alloc).add_cache(CacheNodeBuilder::default().to_node())
}

// Four offsets have room inside the value. The fifth asks for memory.
fn processor(alloc: Global) -> R<ProcessorNode> {
    let cache = cache(alloc)?;
    let mut processor = ProcessorNode::new(alloc, None, 1);
    for _ in 0..5u8 {
        processor = processor.add_cache(&cache)?;
    }
    Ok(processor)
}

fn add_processor(table: &mut PPTT, alloc: Global) -> R<()> {
    done(table.add_processor(processor(alloc)?))
}

impl Grows for PPTT {
    const WAYS: u8 = 2;

    fn empty(alloc: Global) -> R<PPTT> {
        Ok(pptt(alloc))
    }

    fn grow(&mut self, alloc: Global, way: u8) -> R<()> {
        match way {
            0 => done(self.add_cache(CacheNodeBuilder::default().size(0x8000).to_node())),
            _ => add_processor(self, alloc),
        }
    }
}

fn rhct(alloc: Global) -> RHCT {
    RHCT::new(alloc, OEM, OEM_TABLE, OEM_REVISION, 1000)
}

fn hart_info(alloc: Global) -> R<HartInfoNode> {
    let string = rhct(alloc).add_isa_string("rv64")?;
    let cmo = rhct(alloc).add_cmo(CmoNode::new(1, 2, 3))?;
    let mut hart = HartInfoNode::new(alloc, 1, &string)?;
    for _ in 0..4u8 {
        hart = hart.with_cmo(&cmo)?;
    }
    Ok(hart)
}

fn add_hart(table: &mut RHCT, alloc: Global) -> R<()> {
    table.add_hart_info(hart_info(alloc)?)
}

impl Grows for RHCT {
    const WAYS: u8 = 4;

    fn empty(alloc: Global) -> R<RHCT> {
        Ok(rhct(alloc))
    }

    fn grow(&mut self, alloc: Global, way: u8) -> R<()> {
        match way {
            0 => done(self.add_isa_string("rv64imafdc")),
            1 => done(self.add_cmo(CmoNode::new(1, 2, 3))),
            2 => self.add_mmu_node(VirtualAddressScheme::Sv39),
            _ => add_hart(self, alloc),
        }
    }
}

fn viot(alloc: Global) -> VIOT {
    VIOT::new(alloc, OEM, OEM_TABLE, OEM_REVISION)
}

fn translation(alloc: Global) -> R<TranslationHandle> {
    viot(alloc).add_virtio_mmio_iommu(VirtIoMmioIommu::new(0x1000))
}

fn range(alloc: Global) -> R<PciRange> {
    let (first, last) = (PciDevice::new(1, 2, 3, 4), PciDevice::new(1, 2, 5, 6));
    Ok(PciRange::new(first, last, &translation(alloc)?))
}

fn add_endpoint(table: &mut VIOT, alloc: Global) -> R<()> {
    table.add_mmio_endpoint(MmioEndpoint::new(1, 2, &translation(alloc)?))
}

fn add_range(table: &mut VIOT, alloc: Global) -> R<()> {
    table.add_pci_range(range(alloc)?)
}

impl Grows for VIOT {
    const WAYS: u8 = 4;

    fn empty(alloc: Global) -> R<VIOT> {
        Ok(viot(alloc))
    }

    fn grow(&mut self, alloc: Global, way: u8) -> R<()> {
        match way {
            0 => done(self.add_virtio_pci_iommu(VirtIoPciIommu::new(PciDevice::new(1, 2, 3, 4)))),
            1 => done(self.add_virtio_mmio_iommu(VirtIoMmioIommu::new(0x1000))),
            2 => add_endpoint(self, alloc),
            _ => add_range(self, alloc),
        }
    }
}

fn rimt(alloc: Global) -> RIMT {
    RIMT::new(alloc, OEM, OEM_TABLE, OEM_REVISION)
}

fn iommu(alloc: Global) -> R<Iommu> {
    let wires = vec![in alloc; InterruptWire::new(1, true, false, 2)]?;
    Ok(Iommu::new(1, Some(0x1000), None, Some(15), Some(wires)))
}

fn offset(alloc: Global) -> R<IommuOffset> {
    rimt(alloc).add_iommu(iommu(alloc)?)
}

fn mappings(alloc: Global) -> R<Vec<IdMapping>> {
    let iommu = offset(alloc)?;
    Ok(vec![in alloc; IdMapping::new(1, 2, 3, iommu, true, false, true)]?)
}

fn platform(alloc: Global) -> R<Platform> {
    let name = String::from_str(alloc, "\\_SB_.DEV0")?;
    Ok(Platform::new(1, name, Some(mappings(alloc)?)))
}

fn add_iommu(table: &mut RIMT, alloc: Global) -> R<()> {
    done(table.add_iommu(iommu(alloc)?))
}

fn add_root_complex(table: &mut RIMT, alloc: Global) -> R<()> {
    let mappings = mappings(alloc)?;
    table.add_pcie_root_complex(PcieRootComplex::new(1, 2, true, true, Some(mappings)))
}

fn add_platform(table: &mut RIMT, alloc: Global) -> R<()> {
    table.add_platform(platform(alloc)?)
}

impl Grows for RIMT {
    const WAYS: u8 = 3;

    fn empty(alloc: Global) -> R<RIMT> {
        Ok(rimt(alloc))
    }

    fn grow(&mut self, alloc: Global, way: u8) -> R<()> {
        match way {
            0 => add_iommu(self, alloc),
            1 => add_root_complex(self, alloc),
            _ => add_platform(self, alloc),
        }
    }
}
