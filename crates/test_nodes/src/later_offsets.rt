//! Offsets past 65,535, and numbers of nodes past 65,535.

use crate::pptt::{cache, with_caches};
use crate::rhct::hart;
use acpi_base::error::R;
use acpi_base::object::Aml;
use acpi_tables::pptt::{CacheHandle, PPTT, ProcessorHandle, ProcessorNode};
use acpi_tables::rhct::{CmoNode, RHCT, VirtualAddressScheme};
use acpi_tables::rimt::{IdMapping, Iommu, PcieRootComplex, RIMT};
use std::alloc::Global;
use std::test::Fail;
use test_support::table::{many, stands};
use test_support::{OEM, OEM_REVISION, OEM_TABLE};

// This many equal nodes, and these nodes after them.
fn nodes(alloc: Global, node: &[u8], count: u32, last: &[u8]) -> R<Vec<u8>> {
    let mut bytes = Vec::new(alloc);
    for _ in 0..count {
        bytes.extend_from_slice(node)?;
    }
    bytes.extend_from_slice(last)?;
    Ok(bytes)
}

// Fails unless a table begins with these bytes, and is its header, fixed fields, this many equal nodes, and these after them.
fn holds(
    alloc: Global,
    table: &dyn Aml,
    head: &[u8; 9],
    fixed: &[u8],
    (node, count): (&[u8], u32),
    last: &[u8],
) -> Result<(), Fail> {
    stands(alloc, table, 0, head)?;
    let signature = [head[0], head[1], head[2], head[3]];
    let wanted = nodes(alloc, node, count, last)?;
    many(alloc, table, &signature, head[8], fixed, &wanted, 1)
}

// Adds 7,001 equal caches, and returns the handle of the last.
fn add_caches(table: &mut PPTT) -> R<CacheHandle> {
    let node = cache().id(0x0403_0201).to_node();
    for _ in 0..7000u16 {
        table.add_cache(node)?;
    }
    table.add_cache(node)
}

fn add_core(alloc: Global, table: &mut PPTT) -> R<ProcessorHandle> {
    let shared = add_caches(table)?;
    let own = table.add_cache(cache().next_level(&shared).to_node())?;
    let package = with_caches(ProcessorNode::new(alloc, None, 5), &[shared])?;
    let package = table.add_processor(package)?;
    let core = ProcessorNode::new(alloc, Some(&package), 6);
    table.add_processor(with_caches(core, &[own, shared])?)
}

// The last of 7,001 caches is at 36 + 28 * 7,000, which is 0x2fdc4. The nodes after it are at 0x2fde0, 0x2fdfc and 0x2fe14.
#[test]
fn pptt(rt: HostRuntime) -> Result<(), Fail> {
    let alloc = rt.alloc();
    let mut table = PPTT::new(alloc, OEM, OEM_TABLE, OEM_REVISION);
    add_core(alloc, &mut table)?;
    let cache = b"\x01\x1c\0\0\x80\0\0\0\0\0\0\0\0\0\0\0\0\0\0\0\0\0\0\0\x01\x02\x03\x04";
    let last = b"\x01\x1c\0\0\0\0\0\0\xc4\xfd\x02\0\0\0\0\0\0\0\0\0\0\0\0\0\0\0\0\0\
\0\x18\0\0\0\0\0\0\0\0\0\0\x05\0\0\0\x01\0\0\0\xc4\xfd\x02\0\
\0\x1c\0\0\0\0\0\0\xfc\xfd\x02\0\x06\0\0\0\x02\0\0\0\xe0\xfd\x02\0\xc4\xfd\x02\0";
    let head = b"PPTT\x30\xfe\x02\0\x03";
    holds(alloc, &table, head, &[], (cache, 7001), last)
}

fn add_hart(alloc: Global, table: &mut RHCT) -> R<()> {
    for _ in 0..66_047u32 {
        table.add_mmu_node(VirtualAddressScheme::Sv57)?;
    }
    let string = table.add_isa_string("abc")?;
    let first = table.add_cmo(CmoNode::new(1, 2, 3))?;
    let second = table.add_cmo(CmoNode::new(4, 5, 6))?;
    table.add_hart_info(hart(alloc, 0x0403_0201, &string, &[second, first])?)
}

// 66,047 nodes end at 56 + 8 * 66,047, which is 0x81030. The nodes after the string there are at 0x8103c, 0x81046 and 0x81050.
#[test]
fn rhct(rt: HostRuntime) -> Result<(), Fail> {
    let alloc = rt.alloc();
    let mut table = RHCT::new(alloc, OEM, OEM_TABLE, OEM_REVISION, 1);
    add_hart(alloc, &mut table)?;
    let last = b"\0\0\x0c\0\x01\0\x04\0abc\0\
\x01\0\x0a\0\x01\0\0\x01\x02\x03\
\x01\0\x0a\0\x01\0\0\x04\x05\x06\
\xff\xff\x18\0\x01\0\x03\0\x01\x02\x03\x04\x30\x10\x08\0\x46\x10\x08\0\x3c\x10\x08\0";
    let head = b"RHCT\x68\x10\x08\0\x01";
    let fixed = b"\0\0\0\0\x01\0\0\0\0\0\0\0\x03\x02\x01\0\x38\0\0\0";
    let scheme = b"\x02\0\x08\0\x01\0\0\x02";
    holds(alloc, &table, head, fixed, (scheme, 66_047), last)
}

fn add_root_complexes(alloc: Global, table: &mut RIMT) -> R<()> {
    for _ in 0..66_048u32 {
        table.add_pcie_root_complex(PcieRootComplex::new(0x0201, 0x0403, false, true, None))?;
    }
    let first = table.add_iommu(Iommu::new(7, None, None, None, None))?;
    let second = table.add_iommu(Iommu::new(8, None, None, None, None))?;
    let upper = IdMapping::new(1, 2, 3, second, true, false, true);
    let lower = IdMapping::new(4, 5, 6, first, false, true, true);
    let mappings = vec![in alloc; upper, lower]?;
    table.add_pcie_root_complex(PcieRootComplex::new(9, 10, false, false, Some(mappings)))
}

// 66,048 root complexes end at 48 + 16 * 66,048, which is 0x102030. The devices after the IOMMU there are at 0x102050 and
// 0x102070.
#[test]
fn rimt(rt: HostRuntime) -> Result<(), Fail> {
    let alloc = rt.alloc();
    let mut table = RIMT::new(alloc, OEM, OEM_TABLE, OEM_REVISION);
    add_root_complexes(alloc, &mut table)?;
    let last = b"\0\x01\x20\0\x07\0\0\0\0\0\0\0\0\0\0\0\0\0\0\0\0\0\0\0\0\0\0\0\0\0\x20\0\
\0\x01\x20\0\x08\0\0\0\0\0\0\0\0\0\0\0\0\0\0\0\0\0\0\0\0\0\0\0\0\0\x20\0\
\x01\x01\x38\0\x09\0\x0a\0\0\0\0\0\x10\0\x02\0\
\x01\0\0\0\x02\0\0\0\x03\0\0\0\x50\x20\x10\0\x05\0\0\0\
\x04\0\0\0\x05\0\0\0\x06\0\0\0\x30\x20\x10\0\x06\0\0\0";
    let complex = b"\x01\x01\x10\0\x01\x02\x03\x04\x02\0\0\0\x10\0\0\0";
    let head = b"RIMT\xa8\x20\x10\0\x01";
    let fixed = b"\x03\x02\x01\0\x30\0\0\0\0\0\0\0";
    holds(alloc, &table, head, fixed, (complex, 66_048), last)
}
