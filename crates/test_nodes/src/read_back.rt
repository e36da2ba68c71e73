//! Tables of no structure, of one and of 256, read back into the structures that were added.

use acpi_base::buffer::append;
use acpi_tables::pptt::{CacheNode, CacheNodeBuilder, PPTT};
use acpi_tables::rhct::{CmoNode, RHCT};
use acpi_tables::rimt::{Iommu, RIMT};
use acpi_tables::viot::{VIOT, VirtIoMmioIommu};
use std::alloc::Global;
use std::test::Fail;
use test_support::table::{is_sized, reads_back};
use test_support::{OEM, OEM_REVISION, OEM_TABLE};

fn cache(n: u16) -> CacheNode {
    CacheNodeBuilder::default().id(u32::from(n)).to_node()
}

fn caches_are_read(alloc: Global, table: &mut PPTT, count: u16) -> Result<(), Fail> {
    let mut added = Vec::new(alloc);
    for n in 0..count {
        append(&cache(n), &mut added)?;
        table.add_cache(cache(n))?;
    }
    is_sized((table.len(), table.count()), 36, 28, count)?;
    reads_back(alloc, table, 36, 28, &added)
}

#[test]
fn pptt(rt: HostRuntime) -> Result<(), Fail> {
    let alloc = rt.alloc();
    for count in [0, 1, 256] {
        let mut table = PPTT::new(alloc, OEM, OEM_TABLE, OEM_REVISION);
        caches_are_read(alloc, &mut table, count)?;
    }
    Ok(())
}

fn block_sizes_are_read(alloc: Global, table: &mut RHCT, count: u16) -> Result<(), Fail> {
    let mut added = Vec::new(alloc);
    for n in 0..count {
        append(&CmoNode::new((n & 0xff) as u8, 2, 3), &mut added)?;
        table.add_cmo(CmoNode::new((n & 0xff) as u8, 2, 3))?;
    }
    is_sized((table.len(), table.count()), 56, 10, count)?;
    reads_back(alloc, table, 56, 10, &added)
}

#[test]
fn rhct(rt: HostRuntime) -> Result<(), Fail> {
    let alloc = rt.alloc();
    for count in [0, 1, 256] {
        let mut table = RHCT::new(alloc, OEM, OEM_TABLE, OEM_REVISION, 1);
        block_sizes_are_read(alloc, &mut table, count)?;
    }
    Ok(())
}

fn mmio_iommus_are_read(alloc: Global, table: &mut VIOT, count: u16) -> Result<(), Fail> {
    let mut added = Vec::new(alloc);
    for n in 0..count {
        append(&VirtIoMmioIommu::new(u64::from(n)), &mut added)?;
        table.add_virtio_mmio_iommu(VirtIoMmioIommu::new(u64::from(n)))?;
    }
    is_sized((table.len(), table.count()), 48, 16, count)?;
    reads_back(alloc, table, 48, 16, &added)
}

#[test]
fn viot(rt: HostRuntime) -> Result<(), Fail> {
    let alloc = rt.alloc();
    for count in [0, 1, 256] {
        let mut table = VIOT::new(alloc, OEM, OEM_TABLE, OEM_REVISION);
        mmio_iommus_are_read(alloc, &mut table, count)?;
    }
    Ok(())
}

fn iommus_are_read(alloc: Global, table: &mut RIMT, count: u16) -> Result<(), Fail> {
    let mut added = Vec::new(alloc);
    for n in 0..count {
        append(&Iommu::new(n, None, None, None, None), &mut added)?;
        table.add_iommu(Iommu::new(n, None, None, None, None))?;
    }
    is_sized((table.len(), table.count()), 48, 32, count)?;
    reads_back(alloc, table, 48, 32, &added)
}

#[test]
fn rimt(rt: HostRuntime) -> Result<(), Fail> {
    let alloc = rt.alloc();
    for count in [0, 1, 256] {
        let mut table = RIMT::new(alloc, OEM, OEM_TABLE, OEM_REVISION);
        iommus_are_read(alloc, &mut table, count)?;
    }
    Ok(())
}
