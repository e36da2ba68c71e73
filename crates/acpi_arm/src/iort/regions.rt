//! Memory that is reserved for devices.

ghost use Rattle.std.specs.Prelude.{◌≡◌, ◌+◌, length, bit_or};
ghost use Rattle.acpi_base.specs.Fields.{AreRowsOf};
ghost use Rattle.acpi_base.specs.Object.{whole, whole_ends_well};
ghost use Rattle.acpi_core.specs.Entries.{with_entry};
ghost use Rattle.acpi_core.specs.Structure.{structure_of, structure_ends_well};
ghost use Rattle.acpi_arm.specs.Iort.{Pushes, mapping_bytes};
ghost use Rattle.acpi_arm.specs.IortNodes.{attributes_number, memory_range, range_fields, range_bytes, reserved_memory};
ghost use Rattle.acpi_arm.specs.IortNodes.{reserved_memory_size, reserved_memory_head_fields, reserved_memory_head};
ghost use Rattle.acpi_arm.specs.IortNodes.{reserved_memory_bytes};
ghost use Rattle.acpi_arm.specs.declared.iort.regions.ReservedMemory.{ReservedMemory};

use crate::iort::mapping::IdMapping;
use crate::offsets::offset_if;
use acpi_base::error::R;
use acpi_base::object::Aml;
use acpi_base::parts::write_parts;
use acpi_base::row::{Bits, Record, Row, Word, record_of_numbers, write_record};
use acpi_base::sink::AmlSink;
use acpi_core::entries::Entries;
use acpi_core::told::told_size;
use std::alloc::Global;

/// The attributes with which reserved memory is mapped (bits 2 to 9 at offset 16).
#[derive(Clone, Copy, Debug)]
pub enum AccessAttributes {
    DeviceNGnRnE = 0,
    DeviceNGnRE = 1,
    DeviceNGRE = 2,
    DeviceGRE = 3,
    /// Normal memory, inner and outer non-cacheable.
    NormalNonCacheable = 4,
    /// Normal memory, inner and outer write-back cacheable, inner shareable.
    NormalWriteBack = 5,
}

impl AccessAttributes {
    fn number(self) -> u32
        ensures { result ≡ attributes_number self }
    {
        self as u32
    }
}

/// A range of memory: 20 bytes.
#[derive(Clone, Copy, Debug)]
pub struct MemoryRange {
    base: u64,
    size: u64,
}

impl MemoryRange {
    /// The range that begins at a physical address (offset 0) and has this many bytes (offset 8). Both are multiples of 64 KiB.
    pub fn new(base: u64, size: u64) -> MemoryRange
        ensures { result ≡ memory_range base size }
    {
        MemoryRange { base, size }
    }
}

/// The rows of a Memory Range Descriptor.
pub const MEMORY_RANGE: [Row; 3] = [
    Row::Hex("Physical Range Offset", 8),
    Row::Number("Physical Range Length", 8),
    Row::Reserved(4),
];

impl Record<20> for MemoryRange {
    ghost fields = { range_fields };

    fn rows() -> &'static [Row] {
        &MEMORY_RANGE
    }

    fn bytes(&self) -> [u8; 20] {
        record_of_numbers(&MEMORY_RANGE, &[self.base, self.size, 0])
    }
}

impl Aml for MemoryRange {
    ghost object = { λ r. whole (range_bytes r) };

    ghost ends_well = { λ r. whole_ends_well (range_bytes r) };

    fn to_aml_bytes(&self, sink: &mut dyn AmlSink) -> R<()> {
        write_record(self, sink)
    }
}

// Flags of reserved memory.
const REMAPPING_PERMITTED: u32 = 1;

const PRIVILEGED: u32 = 1 << 1;

/// Memory that is reserved for devices: 28 bytes, 20 for each range, and 20 for each mapping. Writing it returns `FieldWidth` if
/// it would have more than 65,535 bytes.
#[derive(Drop)]
pub struct ReservedMemory {
    pub(crate) identifier: u32,
    flags: u32,
    ranges: Entries<20, 3275>,
    mappings: Entries<20, 3275>,
}

impl ReservedMemory {
    /// Memory that is mapped with these attributes (offset 16), without ranges. Its identifier is 0 until it is added to a table.
    pub fn new(alloc: Global, attributes: AccessAttributes) -> ReservedMemory
        ensures { result ≡ reserved_memory attributes }
    {
        ReservedMemory {
            identifier: 0,
            flags: 4 * attributes.number(),
            ranges: Entries::new(alloc),
            mappings: Entries::new(alloc),
        }
    }

    /// Sets flag 1 (offset 16): the ranges may be mapped to other addresses.
    pub fn remapping_permitted(mut self) -> ReservedMemory
        ensures { result ≡ record self { flags = bit_or self.flags 1 } }
    {
        self.flags |= REMAPPING_PERMITTED;
        self
    }

    /// Sets flag 2 (offset 16): accesses have to be privileged.
    pub fn privileged(mut self) -> ReservedMemory
        ensures { result ≡ record self { flags = bit_or self.flags 2 } }
    {
        self.flags |= PRIVILEGED;
        self
    }

    /// The number of ranges (offset 20): at most 3,275.
    pub fn range_count(&self) -> usize
        ensures { result ≡ self.now.ranges.count }
    {
        self.ranges.len()
    }

    /// Adds a range. The error is `FieldWidth` at range number 3,276. After an error the node is unchanged.
    pub fn add_range(&mut self, range: MemoryRange) -> R<()>
        ensures { Pushes result self.old (record self.old { ranges = with_entry self.old.ranges (range_bytes range) }) self.new
            self.old.ranges.count 3275 }
    {
        self.ranges.push(range.bytes())
    }

    /// The number of mappings (offset 8): at most 3,275.
    pub fn mapping_count(&self) -> usize
        ensures { result ≡ self.now.mappings.count }
    {
        self.mappings.len()
    }

    /// Adds a mapping of a device's id at its SMMU. The error is `FieldWidth` at mapping number 3,276. After an error the node is
    /// unchanged.
    pub fn add_mapping(&mut self, mapping: IdMapping) -> R<()>
        ensures { Pushes result self.old
            (record self.old { mappings = with_entry self.old.mappings (mapping_bytes mapping) }) self.new
            self.old.mappings.count 3275 }
    {
        self.mappings.push(mapping.bytes())
    }

    // The bytes of the node before its ranges.
    fn head(&self, mappings_start: u16, size: u16) -> [u8; 28]
        requires start { mappings_start ≡ 28 + length self.now.ranges.bytes }
        requires size { size ≡ reserved_memory_size self.now }
        ensures { result ≡ reserved_memory_head self.now }
    {
        let (mappings, ranges) = (self.mappings.len(), self.ranges.len());
        record_of_numbers(
            &RESERVED_MEMORY,
            &[
                6,
                u64::from(size),
                3,
                u64::from(self.identifier),
                mappings as u64,
                u64::from(offset_if(mappings, mappings_start)),
                u64::from(self.flags),
                ranges as u64,
                u64::from(offset_if(ranges, 28)),
            ],
        )
    }
}

/// The rows of an RMR node before its ranges.
pub const RESERVED_MEMORY: [Row; 9] = [
    Row::Preset("Type", 1, 6),
    Row::Number("Length", 2),
    Row::Preset("Revision", 1, 3),
    Row::Hex("Identifier", 4),
    Row::Number("Number of ID Mappings", 4),
    Row::Number("Reference to ID Array", 4),
    Row::Flags(
        "Flags",
        4,
        &[
            Bits::Flag(0x1, "Remapping Permitted"),
            Bits::Flag(0x2, "Privileged Access"),
            Bits::OneOf(
                0x3fc,
                &[
                    Word(0x0, "Device-nGnRnE"),
                    Word(0x4, "Device-nGnRE"),
                    Word(0x8, "Device-nGRE"),
                    Word(0xc, "Device-GRE"),
                    Word(0x10, "Normal Inner Non-cacheable Outer Non-cacheable"),
                    Word(
                        0x14,
                        "Normal Inner Write-back Outer Write-back Inner Shareable",
                    ),
                ],
            ),
        ],
    ),
    Row::Number("Number of Memory Range Descriptors", 4),
    Row::Number("Reference to Memory Range Descriptors", 4),
];

/// The rows of the fields before a node's ranges, in order.
pub fn reserved_memory_rows() -> &'static [Row]
    ensures { (m : ReservedMemory) → AreRowsOf result.now (reserved_memory_head_fields m) }
{
    &RESERVED_MEMORY
}

impl Aml for ReservedMemory {
    ghost object = { λ m. structure_of (reserved_memory_bytes m) };

    ghost ends_well = { λ m. structure_ends_well (reserved_memory_bytes m) };

    fn to_aml_bytes(&self, sink: &mut dyn AmlSink) -> R<()> {
        let ranges = self.ranges.as_slice();
        let mappings = self.mappings.as_slice();
        let size = told_size(28 + ranges.len() + mappings.len())?;
        let head = self.head(28 + ranges.len() as u16, size);
        write_parts(sink, &[&head, ranges, mappings])
    }
}
