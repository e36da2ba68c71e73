//! Tables of nodes that refer to each other.

ghost use Rattle.std.specs.Prelude.{◌≡◌, ◌+◌, length, IfOk};

use crate::growing::Growing;
use acpi_tables::R;
use acpi_tables::pptt::{CacheNodeBuilder, PPTT, ProcessorNode};
use acpi_tables::rhct::{CmoNode, HartInfoNode, RHCT};
use acpi_tables::rimt::{InterruptWire, Iommu, RIMT};
use acpi_tables::viot::{PciDevice, PciRange, VIOT, VirtIoMmioIommu};
use std::alloc::Global;
use test_support::{OEM, OEM_REVISION, OEM_TABLE};

/// Caches of 28 bytes, and processors of 24 bytes with such a cache each.
impl Growing for PPTT {
    ghost structures = { λ t. length t.table.table.structures };

    ghost each = { 2 };

    fn empty(alloc: Global) -> PPTT {
        PPTT::new(alloc, OEM, OEM_TABLE, OEM_REVISION)
    }

    fn grow(&mut self, alloc: Global, number: u32) -> R<()> {
        let cache = CacheNodeBuilder::default()
            .size(0x8000)
            .line_size(64)
            .id(number);
        let cache = self.add_cache(cache.to_node())?;
        let processor = ProcessorNode::new(alloc, None, number).valid().leaf();
        drop(self.add_processor(processor.add_cache(&cache)?)?);
        Ok(())
    }
}

/// IOMMUs of 48 bytes, with two interrupt wires each.
impl Growing for RIMT {
    ghost structures = { λ t. length t.table.table.structures };

    ghost each = { 1 };

    fn empty(alloc: Global) -> RIMT {
        RIMT::new(alloc, OEM, OEM_TABLE, OEM_REVISION)
    }

    fn grow(&mut self, alloc: Global, number: u32) -> R<()> {
        let first = InterruptWire::new(1, true, true, 0);
        let second = InterruptWire::new(2, true, true, 0);
        let wires = vec![in alloc; first, second]?;
        let base = u64::from(number) << 12;
        drop(self.add_iommu(Iommu::new(
            (number % 65_536) as u16,
            Some(base),
            None,
            Some(0),
            Some(wires),
        ))?);
        Ok(())
    }
}

/// A RHCT of an ISA string, a CMO node, and this many harts of 20 bytes.
pub fn harts(alloc: Global, count: u32) -> R<RHCT>
    ensures { IfOk result (λ t. length t.table.table.structures ≡ count + 2) }
{
    let mut table = RHCT::new(alloc, OEM, OEM_TABLE, OEM_REVISION, 10_000_000);
    let string = table.add_isa_string("rv64imafdch_zicsr")?;
    let blocks = table.add_cmo(CmoNode::new(6, 6, 6))?;
    'fill: for number in 0..count {
        let hart = HartInfoNode::new(alloc, number, &string)?;
        table.add_hart_info(hart.with_cmo(&blocks)?)?;
    }
    Ok(table)
}

/// A VIOT of an IOMMU, and this many ranges of 24 bytes.
pub fn ranges(alloc: Global, count: u32) -> R<VIOT>
    ensures { IfOk result (λ t. length t.table.table.structures ≡ count + 1) }
{
    let mut table = VIOT::new(alloc, OEM, OEM_TABLE, OEM_REVISION);
    let iommu = table.add_virtio_mmio_iommu(VirtIoMmioIommu::new(0x1000_0000))?;
    'fill: for number in 0..count {
        let bus = (number % 256) as u8;
        let (first, last) = (PciDevice::new(1, bus, 0, 0), PciDevice::new(1, bus, 31, 7));
        table.add_pci_range(PciRange::new(first, last, &iommu))?;
    }
    Ok(table)
}
