//! Tables of nodes, and their nodes.

use crate::short::{starve, starve_all, starve_made};
use acpi_tables::R;
use acpi_tables::pptt::{CacheNode, CacheNodeBuilder, PPTT, ProcessorNode};
use acpi_tables::rhct::{
    CmoNode, HartInfoNode, IsaStringNode, MmuNode, RHCT, VirtualAddressScheme,
};
use acpi_tables::rimt::{
    IdMapping, InterruptWire, Iommu, IommuOffset, PciDevice, PcieRootComplex, Platform, RIMT,
};
use acpi_tables::viot::{
    MmioEndpoint, PciRange, TranslationHandle, VIOT, VirtIoMmioIommu, VirtIoPciIommu,
};
use std::alloc::Global;
use std::test::Fail;
use test_support::{OEM, OEM_REVISION, OEM_TABLE};

fn cache() -> CacheNode {
    CacheNodeBuilder::default()
        .size(0x8000)
        .line_size(64)
        .to_node()
}

// Adds a cache, and makes a processor that refers to it.
fn processor(alloc: Global, pptt: &mut PPTT) -> R<ProcessorNode> {
    let cache = pptt.add_cache(cache())?;
    let node = ProcessorNode::new(alloc, None, 5).valid();
    node.add_cache(&cache)
}

fn empty_pptt(alloc: Global) -> PPTT {
    PPTT::new(alloc, OEM, OEM_TABLE, OEM_REVISION)
}

fn made_pptt(alloc: Global) -> R<PPTT> {
    let mut pptt = empty_pptt(alloc);
    let processor = processor(alloc, &mut pptt)?;
    pptt.add_processor(processor)?;
    Ok(pptt)
}

#[test]
fn pptt(rt: HostRuntime) -> Result<(), Fail> {
    let alloc = rt.alloc();
    starve(alloc, 28, &cache())?;
    starve_made(alloc, 24, processor(alloc, &mut empty_pptt(alloc)))?;
    starve_made(alloc, 88, made_pptt(alloc))
}

// Adds a string, block sizes and a scheme, and makes a hart that refers to them.
fn hart(alloc: Global, rhct: &mut RHCT) -> R<HartInfoNode> {
    let string = rhct.add_isa_string("rv64i")?;
    let blocks = rhct.add_cmo(CmoNode::new(4, 5, 6))?;
    rhct.add_mmu_node(VirtualAddressScheme::Sv57)?;
    HartInfoNode::new(alloc, 7, &string)?.with_cmo(&blocks)
}

fn empty_rhct(alloc: Global) -> RHCT {
    RHCT::new(alloc, OEM, OEM_TABLE, OEM_REVISION, 1)
}

fn made_rhct(alloc: Global) -> R<RHCT> {
    let mut rhct = empty_rhct(alloc);
    let hart = hart(alloc, &mut rhct)?;
    rhct.add_hart_info(hart)?;
    Ok(rhct)
}

#[test]
fn rhct(rt: HostRuntime) -> Result<(), Fail> {
    let alloc = rt.alloc();
    starve(alloc, 14, &IsaStringNode::new("rv64i"))?;
    starve_all(
        alloc,
        &[
            (10, &CmoNode::new(4, 5, 6)),
            (8, &MmuNode::new(VirtualAddressScheme::Sv57)),
        ],
    )?;
    starve_made(alloc, 20, hart(alloc, &mut empty_rhct(alloc)))?;
    starve_made(alloc, 108, made_rhct(alloc))
}

fn empty_viot(alloc: Global) -> VIOT {
    VIOT::new(alloc, OEM, OEM_TABLE, OEM_REVISION)
}

fn add_iommu(viot: &mut VIOT) -> R<TranslationHandle> {
    viot.add_virtio_mmio_iommu(VirtIoMmioIommu::new(1))
}

fn made_viot(alloc: Global) -> R<VIOT> {
    let mut viot = empty_viot(alloc);
    let handle = add_iommu(&mut viot)?;
    viot.add_mmio_endpoint(MmioEndpoint::new(2, 3, &handle))?;
    Ok(viot)
}

#[test]
fn viot(rt: HostRuntime) -> Result<(), Fail> {
    let alloc = rt.alloc();
    starve_made(alloc, 88, made_viot(alloc))?;
    let handle = add_iommu(&mut empty_viot(alloc))?;
    let device = |function| PciDevice::new(1, 2, 3, function);
    starve_all(
        alloc,
        &[
            (16, &VirtIoMmioIommu::new(1)),
            (16, &VirtIoPciIommu::new(device(4))),
            (24, &PciRange::new(device(4), device(5), &handle)),
            (24, &MmioEndpoint::new(2, 3, &handle)),
        ],
    )
}

fn iommu(alloc: Global) -> R<Iommu> {
    let wires = vec![in alloc;
        InterruptWire::new(1, true, false, 1),
        InterruptWire::new(2, false, true, 2),
        InterruptWire::new(3, true, true, 3),
        InterruptWire::new(4, false, false, 4),
    ]?;
    let device = PciDevice::new(5, 6, 7, 7);
    Ok(Iommu::new(1, None, Some(device), Some(15), Some(wires)))
}

fn empty_rimt(alloc: Global) -> RIMT {
    RIMT::new(alloc, OEM, OEM_TABLE, OEM_REVISION)
}

fn mapping(iommu: IommuOffset) -> IdMapping {
    IdMapping::new(1, 2, 10, iommu, true, true, false)
}

// Adds an IOMMU, and makes two mappings to it.
fn mappings(alloc: Global, rimt: &mut RIMT) -> R<Vec<IdMapping>> {
    let offset = rimt.add_iommu(iommu(alloc)?)?;
    let second = IdMapping::new(2, 3, 5, offset, false, false, true);
    Ok(vec![in alloc; mapping(offset), second]?)
}

fn complex(alloc: Global, rimt: &mut RIMT) -> R<PcieRootComplex> {
    let mappings = mappings(alloc, rimt)?;
    Ok(PcieRootComplex::new(1, 1, true, true, Some(mappings)))
}

fn platform(alloc: Global, rimt: &mut RIMT) -> R<Platform> {
    let name = String::from_str(alloc, "\\_SB_.UART")?;
    let mappings = mappings(alloc, rimt)?;
    Ok(Platform::new(1, name, Some(mappings)))
}

// The table has 168 bytes: 48, an IOMMU of 64 and a root complex of 56.
fn made_rimt(alloc: Global) -> R<RIMT> {
    let mut rimt = empty_rimt(alloc);
    let complex = complex(alloc, &mut rimt)?;
    rimt.add_pcie_root_complex(complex)?;
    Ok(rimt)
}

#[test]
fn rimt(rt: HostRuntime) -> Result<(), Fail> {
    let alloc = rt.alloc();
    let offset = empty_rimt(alloc).add_iommu(iommu(alloc)?)?;
    starve_all(
        alloc,
        &[
            (8, &InterruptWire::new(1, true, false, 1)),
            (20, &mapping(offset)),
        ],
    )?;
    starve_made(alloc, 64, iommu(alloc))?;
    starve_made(alloc, 56, complex(alloc, &mut empty_rimt(alloc)))?;
    starve_made(alloc, 63, platform(alloc, &mut empty_rimt(alloc)))?;
    starve_made(alloc, 168, made_rimt(alloc))
}
