//! What the nodes of IORT share: mappings of ids to other nodes, and how a device accesses memory.

ghost use Rattle.std.specs.Prelude.{◌≡◌, bit_or};
ghost use Rattle.acpi_base.specs.Object.{whole, whole_ends_well};
ghost use Rattle.acpi_arm.specs.Iort.{output_offset, id_mapping, mapping_fields, mapping_bytes, memory_access};

use crate::iort::{ItsGroupHandle, SmmuHandle, SmmuV3Handle};
use acpi_base::error::R;
use acpi_base::object::Aml;
use acpi_base::row::{Bits, Record, Row, record_of_numbers, write_record};
use acpi_base::sink::AmlSink;

/// The node to which ids go.
#[derive(Clone, Copy, Debug)]
pub enum Output {
    ItsGroup(ItsGroupHandle),
    Smmu(SmmuHandle),
    SmmuV3(SmmuV3Handle),
}

impl Output {
    // The node's offset in the table.
    fn offset(&self) -> u32
        ensures { result ≡ output_offset self.now }
    {
        match self {
            Output::ItsGroup(handle) => handle.offset(),
            Output::Smmu(handle) => handle.offset(),
            Output::SmmuV3(handle) => handle.offset(),
        }
    }
}

// A flag of a mapping.
const SINGLE_MAPPING: u32 = 1;

/// A range of ids, mapped to ids at another node: 20 bytes.
#[derive(Clone, Copy, Debug)]
pub struct IdMapping {
    input_base: u32,
    more_ids: u32,
    output_base: u32,
    output: u32,
    flags: u32,
}

impl IdMapping {
    /// Maps the ids from `input_base` on (offset 0) to those from `output_base` on (offset 8) at a node, whose offset in the
    /// table is at 12. The range has `more_ids` ids after the first (offset 4: the number of ids less 1).
    pub fn new(input_base: u32, more_ids: u32, output_base: u32, output: Output) -> IdMapping
        ensures { result ≡ id_mapping input_base more_ids output_base output }
    {
        IdMapping {
            input_base,
            more_ids,
            output_base,
            output: output.offset(),
            flags: 0,
        }
    }

    /// Sets flag 1 (offset 16): the node has one id only, `output_base`, and the input base isn't used.
    pub fn single(mut self) -> IdMapping
        ensures { result ≡ record self { flags = bit_or self.flags 1 } }
    {
        self.flags |= SINGLE_MAPPING;
        self
    }
}

/// The rows of an ID mapping.
pub const ID_MAPPING: [Row; 5] = [
    Row::Hex("Input Base", 4),
    Row::Number("Number of IDs", 4),
    Row::Hex("Output Base", 4),
    Row::Reference("Output Reference", 4),
    Row::Flags("Flags", 4, &[Bits::Flag(0x1, "Single Mapping")]),
];

impl Record<20> for IdMapping {
    ghost fields = { mapping_fields };

    fn rows() -> &'static [Row] {
        &ID_MAPPING
    }

    fn bytes(&self) -> [u8; 20] {
        record_of_numbers(
            &ID_MAPPING,
            &[
                u64::from(self.input_base),
                u64::from(self.more_ids),
                u64::from(self.output_base),
                u64::from(self.output),
                u64::from(self.flags),
            ],
        )
    }
}

impl Aml for IdMapping {
    ghost object = { λ m. whole (mapping_bytes m) };

    ghost ends_well = { λ m. whole_ends_well (mapping_bytes m) };

    fn to_aml_bytes(&self, sink: &mut dyn AmlSink) -> R<()> {
        write_record(self, sink)
    }
}

// Allocation hints, and flags of memory accesses.
const TRANSIENT: u8 = 1;

const WRITE_ALLOCATE: u8 = 1 << 1;

const READ_ALLOCATE: u8 = 1 << 2;

const HINTS_OVERRIDE: u8 = 1 << 3;

const COHERENT_PATH: u8 = 1;

const CACHEABLE_ATTRIBUTES: u8 = 1 << 1;

/// How a device accesses memory: 8 bytes. The offsets here are those in these bytes.
#[derive(Clone, Copy, Debug)]
pub struct MemoryAccess {
    pub(crate) cache_coherent: u32,
    pub(crate) hints: u8,
    pub(crate) flags: u8,
}

impl MemoryAccess {
    /// Accesses that aren't coherent, without hints and flags.
    pub fn new() -> MemoryAccess
        ensures { result ≡ memory_access }
    {
        MemoryAccess {
            cache_coherent: 0,
            hints: 0,
            flags: 0,
        }
    }

    /// Sets the cache coherent attribute (CCA, offset 0) to 1: the device is fully coherent.
    pub fn cache_coherent(mut self) -> MemoryAccess
        ensures { result ≡ record self { cache_coherent = 1 } }
    {
        self.cache_coherent = 1;
        self
    }

    /// Sets hint 1 (offset 4): the allocation is transient.
    pub fn transient(mut self) -> MemoryAccess
        ensures { result ≡ record self { hints = bit_or self.hints 1 } }
    {
        self.hints |= TRANSIENT;
        self
    }

    /// Sets hint 2 (offset 4): writes allocate.
    pub fn write_allocate(mut self) -> MemoryAccess
        ensures { result ≡ record self { hints = bit_or self.hints 2 } }
    {
        self.hints |= WRITE_ALLOCATE;
        self
    }

    /// Sets hint 4 (offset 4): reads allocate.
    pub fn read_allocate(mut self) -> MemoryAccess
        ensures { result ≡ record self { hints = bit_or self.hints 4 } }
    {
        self.hints |= READ_ALLOCATE;
        self
    }

    /// Sets hint 8 (offset 4): the other hints override those of the device.
    pub fn hints_override(mut self) -> MemoryAccess
        ensures { result ≡ record self { hints = bit_or self.hints 8 } }
    {
        self.hints |= HINTS_OVERRIDE;
        self
    }

    /// Sets flag 1 (CPM, offset 7): the path from the device to memory is coherent.
    pub fn coherent_path(mut self) -> MemoryAccess
        ensures { result ≡ record self { flags = bit_or self.flags 1 } }
    {
        self.flags |= COHERENT_PATH;
        self
    }

    /// Sets flag 2 (DACS, offset 7): the device's memory attributes are cacheable and inner shareable.
    pub fn cacheable_attributes(mut self) -> MemoryAccess
        ensures { result ≡ record self { flags = bit_or self.flags 2 } }
    {
        self.flags |= CACHEABLE_ATTRIBUTES;
        self
    }
}

/// The hints of a Memory Access Properties structure.
pub(crate) const HINTS: [Bits; 4] = [
    Bits::Flag(0x1, "Transient"),
    Bits::Flag(0x2, "Write Allocate"),
    Bits::Flag(0x4, "Read Allocate"),
    Bits::Flag(0x8, "Allocation Hints Override"),
];

/// Its flags. CANWBS is there since DEN0049E.f.
pub(crate) const ACCESS_FLAGS: [Bits; 3] = [
    Bits::Flag(0x1, "Coherent Path to Memory"),
    Bits::Flag(0x2, "Device Attributes Cacheable and Inner Shareable"),
    Bits::Flag(0x4, "CANWBS"),
];
