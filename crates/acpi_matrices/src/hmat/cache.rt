//! Memory side caches.

ghost use Rattle.std.specs.Prelude.{◌≡◌, ◌≢◌, ◌+◌, ◌<◌, ◌++◌, OnOk, OnErr, IfErr};
ghost use Rattle.acpi_base.specs.Bytes.{le};
ghost use Rattle.acpi_base.specs.Fields.{AreRowsOf};
ghost use Rattle.acpi_base.specs.Object.{whole, whole_ends_well};
ghost use Rattle.acpi_matrices.specs.Cache.{SideCache, cache, cache_head_fields, cache_head, cache_bytes};

use acpi_base::error::{Error, R};
use acpi_base::object::Aml;
use acpi_base::parts::write_parts;
use acpi_base::row::{Bits, Row, Word, record_of_numbers};
use acpi_base::sink::AmlSink;
use acpi_core::entries::Entries;
use std::alloc::Global;
use std::marker::Model;

/// A number of cache levels, or the level of a cache (attribute bits 0 to 3 and 4 to 7).
#[derive(Clone, Copy, Debug, PartialEq)]
pub enum CacheLevel {
    None = 0,
    One = 1,
    Two = 2,
    Three = 3,
}

/// The associativity of a cache (attribute bits 8 to 11).
#[derive(Clone, Copy, Debug, PartialEq)]
pub enum Associativity {
    None = 0,
    DirectMapped = 1,
    Complex = 2,
}

/// The write policy of a cache (attribute bits 12 to 15).
#[derive(Clone, Copy, Debug, PartialEq)]
pub enum WritePolicy {
    None = 0,
    Writeback = 1,
    Writethrough = 2,
}

/// A memory side cache (Memory Side Cache Information Structure, ACPI 6.5, 5.2.28.5): 32 bytes, and 2 for each SMBIOS handle.
#[derive(Drop)]
pub struct MemorySideCache {
    domain: u32,
    cache_size: u64,
    attributes: u32,
    handles: Entries<2, 65_535>,
}

impl Model for MemorySideCache {
    ghost use Rattle.acpi_matrices.specs.Cache.{SideCache};

    ghost Value = { SideCache };

    ghost view = { λ c. record {
      domain = c.domain;
      cache_size = c.cache_size;
      attributes = c.attributes;
      count = c.handles.count;
      handles = c.handles.bytes;
    } };
}

impl MemorySideCache {
    /// The cache of a memory's proximity domain. Its size and the size of its lines are in bytes. It has no SMBIOS handles.
    pub fn new(
        alloc: Global,
        proximity_domain: u32,
        cache_size: u64,
        total_cache_levels: CacheLevel,
        this_cache_level: CacheLevel,
        associativity: Associativity,
        write_policy: WritePolicy,
        cacheline_size: u16,
    ) -> MemorySideCache
        ensures { result ≡ cache proximity_domain cache_size
            total_cache_levels this_cache_level associativity write_policy cacheline_size }
    {
        let attributes = total_cache_levels as u32
            + 16 * (this_cache_level as u32)
            + 256 * (associativity as u32)
            + 4096 * (write_policy as u32)
            + 65_536 * u32::from(cacheline_size);
        MemorySideCache {
            domain: proximity_domain,
            cache_size,
            attributes,
            handles: Entries::new(alloc),
        }
    }

    /// The number of SMBIOS handles: at most 65,535.
    pub fn handle_count(&self) -> usize
        ensures { result ≡ self.now.count }
    {
        self.handles.len()
    }

    /// Adds the handle of an SMBIOS structure. The error is `FieldWidth` at the 65,536th handle. After an error the cache is
    /// unchanged.
    pub fn add_smbios_handle(&mut self, handle: u16) -> R<()>
        ensures ok { OnOk result (self.new ≡ record self.old {
          count = self.old.count + 1;
          handles = self.old.handles ++ le 2 handle;
        }) }
        ensures room { OnOk result (self.old.count < 65535) }
        ensures err { OnErr result (self.new ≡ self.old) }
        ensures cause { IfErr result (λ e. e ≢ Error.Memory → (e ≡ Error.FieldWidth) × (self.old.count ≡ 65535)) }
    {
        self.handles.push(handle.to_le_bytes())
    }

    // The bytes of the structure before its handles.
    fn head(&self) -> [u8; 32]
        ensures { result ≡ cache_head self.now }
    {
        record_of_numbers(
            &SIDE_CACHE,
            &[
                2,
                0,
                32 + self.handles.as_slice().len() as u64,
                u64::from(self.domain),
                0,
                self.cache_size,
                u64::from(self.attributes),
                0,
                self.handles.len() as u64,
            ],
        )
    }
}

/// The rows of a Memory Side Cache Information Structure before its handles.
pub const SIDE_CACHE: [Row; 9] = [
    Row::Preset("Type", 2, 2),
    Row::Reserved(2),
    Row::Number("Length", 4),
    Row::Number("Proximity Domain for the Memory", 4),
    Row::Reserved(4),
    Row::Number("Memory Side Cache Size", 8),
    Row::Flags(
        "Cache Attributes",
        4,
        &[
            Bits::Number(0xf, 0x1, "Total Cache Levels"),
            Bits::Number(0xf0, 0x10, "Cache Level"),
            Bits::OneOf(
                0xf00,
                &[
                    Word(0x0, "Cache Associativity None"),
                    Word(0x100, "Direct Mapped"),
                    Word(0x200, "Complex Cache Indexing"),
                ],
            ),
            Bits::OneOf(
                0xf000,
                &[
                    Word(0x0, "Write Policy None"),
                    Word(0x1000, "Write Back"),
                    Word(0x2000, "Write Through"),
                ],
            ),
            Bits::Number(0xffff0000, 0x10000, "Cache Line Size"),
        ],
    ),
    Row::Reserved(2),
    Row::Number("Number of SMBIOS Handles", 2),
];

/// The rows of a cache's fields before its handles, in order.
pub fn side_cache_rows() -> &'static [Row]
    ensures { (c : SideCache) → AreRowsOf result.now (cache_head_fields c) }
{
    &SIDE_CACHE
}

impl Aml for MemorySideCache {
    ghost object = { λ c. whole (cache_bytes c) };

    ghost ends_well = { λ c. whole_ends_well (cache_bytes c) };

    fn to_aml_bytes(&self, sink: &mut dyn AmlSink) -> R<()> {
        write_parts(sink, &[&self.head(), self.handles.as_slice()])
    }
}
