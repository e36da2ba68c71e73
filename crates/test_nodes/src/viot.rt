//! VIOT and its nodes.

use acpi_base::error::{Error, R};
use acpi_tables::viot::{
    MmioEndpoint, PciDevice, PciRange, TranslationHandle, VIOT, VirtIoMmioIommu, VirtIoPciIommu,
};
use std::alloc::Global;
use std::test::Fail;
use test_support::table::{many, stands};
use test_support::{OEM, OEM_REVISION, OEM_TABLE, all, equal, refuses, writes};

// A virtual IOMMU at address 0.
const MMIO_IOMMU: [u8; 16] = *b"\x04\0\x10\0\0\0\0\0\0\0\0\0\0\0\0\0";

fn table(alloc: Global) -> VIOT {
    VIOT::new(alloc, OEM, OEM_TABLE, OEM_REVISION)
}

fn range(handle: &TranslationHandle) -> PciRange {
    let first = PciDevice::new(0x0201, 3, 4, 5);
    PciRange::new(first, PciDevice::new(0x0807, 0xff, 31, 7), handle)
}

// Adds a virtual IOMMU at address 0.
fn add_iommu(table: &mut VIOT) -> R<TranslationHandle> {
    table.add_virtio_mmio_iommu(VirtIoMmioIommu::new(0))
}

// The handle of the first node of a table.
fn first_handle(alloc: Global) -> R<TranslationHandle> {
    add_iommu(&mut table(alloc))
}

fn offsets_are_told(table: &mut VIOT) -> Result<(), Fail> {
    let first = add_iommu(table)?;
    let second = add_iommu(table)?;
    let copy = second;
    let offsets = [first.offset(), second.offset(), copy.offset()];
    equal(&offsets, &[48, 64, 64])
}

// The offsets of handles and of their copies.
#[test]
fn offsets(rt: HostRuntime) -> Result<(), Fail> {
    offsets_are_told(&mut table(rt.alloc()))
}

#[test]
fn a_table_without_nodes(rt: HostRuntime) -> Result<(), Fail> {
    writes(
        rt.alloc(),
        &table(rt.alloc()),
        b"VIOT\x30\0\0\0\x01\x11FOOBARCAFEDEAD\xef\xbe\xad\xdeRVAT\0\0\0\x01\0\0\x30\0\0\0\0\0\0\0\0\0",
    )
}

fn add_each_kind(table: &mut VIOT) -> R<()> {
    let device = PciDevice::new(0x0201, 0xfe, 30, 6);
    let first = table.add_virtio_pci_iommu(VirtIoPciIommu::new(device))?;
    table.add_pci_range(range(&first))?;
    let second = table.add_virtio_mmio_iommu(VirtIoMmioIommu::new(0x1817_1615_1413_1211))?;
    table.add_mmio_endpoint(MmioEndpoint::new(0x0403_0201, 0x2827_2625_2423_2221, &second))?;
    table.add_pci_range(range(&second))
}

#[test]
fn a_node_of_each_kind(rt: HostRuntime) -> Result<(), Fail> {
    let mut table = table(rt.alloc());
    add_each_kind(&mut table)?;
    writes(
        rt.alloc(),
        &table,
        b"VIOT\x98\0\0\0\x01\xc8FOOBARCAFEDEAD\xef\xbe\xad\xdeRVAT\0\0\0\x01\
            \x05\0\x30\0\0\0\0\0\0\0\0\0\
            \x03\0\x10\0\x01\x02\xf6\xfe\0\0\0\0\0\0\0\0\
            \x01\0\x18\0\x25\x03\0\0\x01\x02\x07\x08\x25\x03\xff\xff\x30\0\0\0\0\0\0\0\
            \x04\0\x10\0\0\0\0\0\x11\x12\x13\x14\x15\x16\x17\x18\
            \x02\0\x18\0\x01\x02\x03\x04\x21\x22\x23\x24\x25\x26\x27\x28\x58\0\0\0\0\0\0\0\
            \x01\0\x18\0\x25\x03\0\0\x01\x02\x07\x08\x25\x03\xff\xff\x58\0\0\0\0\0\0\0",
    )
}

#[test]
#[rattlefmt::skip]
fn nodes(rt: HostRuntime) -> Result<(), Fail> {
    let handle = first_handle(rt.alloc())?;
    all(rt.alloc(), &[
        (&VirtIoPciIommu::new(PciDevice::new(0, 0, 0, 0)), b"\x03\0\x10\0\0\0\0\0\0\0\0\0\0\0\0\0"),
        (&VirtIoPciIommu::new(PciDevice::new(0xffff, 0xff, 31, 7)), b"\x03\0\x10\0\xff\xff\xff\xff\0\0\0\0\0\0\0\0"),
        (&VirtIoPciIommu::new(PciDevice::new(0, 0, 0, 7)), b"\x03\0\x10\0\0\0\x07\0\0\0\0\0\0\0\0\0"),
        (&VirtIoPciIommu::new(PciDevice::new(0, 0, 1, 0)), b"\x03\0\x10\0\0\0\x08\0\0\0\0\0\0\0\0\0"),
        (&VirtIoPciIommu::new(PciDevice::new(0, 0, 31, 0)), b"\x03\0\x10\0\0\0\xf8\0\0\0\0\0\0\0\0\0"),
        (&VirtIoMmioIommu::new(0), &MMIO_IOMMU),
        (&VirtIoMmioIommu::new(u64::MAX), b"\x04\0\x10\0\0\0\0\0\xff\xff\xff\xff\xff\xff\xff\xff"),
        (&MmioEndpoint::new(u32::MAX, u64::MAX, &handle),
            b"\x02\0\x18\0\xff\xff\xff\xff\xff\xff\xff\xff\xff\xff\xff\xff\x30\0\0\0\0\0\0\0"),
        (&MmioEndpoint::new(0, 0, &handle), b"\x02\0\x18\0\0\0\0\0\0\0\0\0\0\0\0\0\x30\0\0\0\0\0\0\0"),
        // from the highest device to the lowest
        (&PciRange::new(PciDevice::new(0xffff, 0xff, 31, 7), PciDevice::new(0, 0, 0, 0), &handle),
            b"\x01\0\x18\0\xff\xff\0\0\xff\xff\0\0\xff\xff\0\0\x30\0\0\0\0\0\0\0"),
        (&range(&handle), b"\x01\0\x18\0\x25\x03\0\0\x01\x02\x07\x08\x25\x03\xff\xff\x30\0\0\0\0\0\0\0"),
    ])
}

// Fills a table with 4,092 IOMMUs, and fails unless an endpoint has the offset of each.
fn fill(alloc: Global, table: &mut VIOT) -> Result<(), Fail> {
    let mut wanted = *b"\x02\0\x18\0\0\0\0\0\0\0\0\0\0\0\0\0\0\0\0\0\0\0\0\0";
    for i in 0..4092u16 {
        let handle = add_iommu(table)?;
        wanted[16..18].copy_from_slice(&(48 + 16 * i).to_le_bytes());
        writes(alloc, &MmioEndpoint::new(0, 0, &handle), &wanted)?;
    }
    Ok(())
}

fn is_full(alloc: Global, table: &VIOT) -> Result<(), Fail> {
    stands(
        alloc,
        table,
        0,
        b"VIOT\xf0\xff\0\0\x01\x97FOOBARCAFEDEAD\xef\xbe\xad\xdeRVAT\0\0\0\x01\xfc\x0f\x30\0\0\0\0\0\0\0\0\0",
    )?;
    let fixed = b"\xfc\x0f\x30\0\0\0\0\0\0\0\0\0";
    many(alloc, table, b"VIOT", 1, fixed, &MMIO_IOMMU, 4092)
}

// Fails unless a table refuses a node of each kind.
fn refuses_all(table: &mut VIOT, handle: TranslationHandle) -> Result<(), Fail> {
    refuses(add_iommu(table), Error::FieldWidth)?;
    let iommu = VirtIoPciIommu::new(PciDevice::new(0, 0, 0, 0));
    refuses(table.add_virtio_pci_iommu(iommu), Error::FieldWidth)?;
    refuses(table.add_pci_range(range(&handle)), Error::FieldWidth)?;
    let endpoint = MmioEndpoint::new(0, 0, &handle);
    refuses(table.add_mmio_endpoint(endpoint), Error::FieldWidth)
}

fn becomes_full(alloc: Global, table: &mut VIOT, handle: TranslationHandle) -> Result<(), Fail> {
    fill(alloc, table)?;
    is_full(alloc, table)?;
    refuses_all(table, handle)?;
    is_full(alloc, table)
}

#[test]
fn a_full_table(rt: HostRuntime) -> Result<(), Fail> {
    let handle = first_handle(rt.alloc())?;
    becomes_full(rt.alloc(), &mut table(rt.alloc()), handle)
}

// Adds an IOMMU and 2,727 endpoints, which take 65,512 bytes.
fn add_endpoints(table: &mut VIOT) -> R<TranslationHandle> {
    let handle = add_iommu(table)?;
    for _ in 0..2727u16 {
        table.add_mmio_endpoint(MmioEndpoint::new(0, 0, &handle))?;
    }
    Ok(handle)
}

fn has_endpoints(alloc: Global, table: &VIOT) -> Result<(), Fail> {
    let endpoint = b"\x02\0\x18\0\0\0\0\0\0\0\0\0\0\0\0\0\x30\0\0\0\0\0\0\0";
    // the fixed fields, and the IOMMU
    let fixed = b"\xa8\x0a\x30\0\0\0\0\0\0\0\0\0\
\x04\0\x10\0\0\0\0\0\0\0\0\0\0\0\0\0";
    many(alloc, table, b"VIOT", 1, fixed, endpoint, 2727)
}

// A node of 24 bytes would make such a table 65,536 bytes long, and is refused.
fn takes_endpoints(alloc: Global, table: &mut VIOT) -> Result<(), Fail> {
    let handle = add_endpoints(table)?;
    has_endpoints(alloc, table)?;
    let endpoint = MmioEndpoint::new(0, 0, &handle);
    refuses(table.add_mmio_endpoint(endpoint), Error::FieldWidth)?;
    has_endpoints(alloc, table)
}

// One of 16 makes it 65,528 bytes long, and another is refused.
fn add_last(alloc: Global, table: &mut VIOT) -> Result<TranslationHandle, Fail> {
    takes_endpoints(alloc, table)?;
    let last = add_iommu(table)?;
    refuses(add_iommu(table), Error::FieldWidth)?;
    Ok(last)
}

#[test]
fn the_last_offset(rt: HostRuntime) -> Result<(), Fail> {
    let last = add_last(rt.alloc(), &mut table(rt.alloc()))?;
    all(
        rt.alloc(),
        &[
            (
                &MmioEndpoint::new(0, 0, &last),
                b"\x02\0\x18\0\0\0\0\0\0\0\0\0\0\0\0\0\xe8\xff\0\0\0\0\0\0",
            ),
            (
                &range(&last),
                b"\x01\0\x18\0\x25\x03\0\0\x01\x02\x07\x08\x25\x03\xff\xff\xe8\xff\0\0\0\0\0\0",
            ),
        ],
    )
}
