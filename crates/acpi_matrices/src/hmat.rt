//! HMAT: the latency and bandwidth of memory, by initiator.

ghost use Rattle.std.specs.Prelude.{◌≡◌, ℕ, true, length};
ghost use Rattle.acpi_base.specs.Object.{whole, whole_ends_well};
ghost use Rattle.acpi_base.specs.Walk.{hmat_walk};
ghost use Rattle.acpi_base.specs.declared.oem.Oem.{Oem};
ghost use Rattle.acpi_core.specs.Addition.{Adds};
ghost use Rattle.acpi_core.specs.Calls.{IsAfterItsCalls};
ghost use Rattle.acpi_core.specs.Listing.{bytes_of, length_limit};
ghost use Rattle.acpi_core.specs.Walk.{IsWalked, Keeps};
ghost use Rattle.acpi_matrices.specs.Hmat.{hmat, hmat_of, proximity_bytes};
ghost use Rattle.acpi_matrices.specs.Locality.{locality_bytes, CellsAreSet, NewCellsAreUnreachable};
ghost use Rattle.acpi_matrices.specs.Cache.{cache_bytes};
ghost use Rattle.acpi_matrices.specs.Hmat.{proximity, proximity_fields};

mod cache;
mod locality;

use acpi_base::error::R;
use acpi_base::object::Aml;
use acpi_base::oem::Oem;
use acpi_base::row::{Bits, Record, Row, Value, record_of, write_record};
use acpi_base::sink::AmlSink;
use acpi_core::form::Form;
use acpi_core::kind::Kind;
use acpi_core::table::Table;
use acpi_core::walked::{Walked, is_walked};
pub use cache::{Associativity, CacheLevel, MemorySideCache, SIDE_CACHE, WritePolicy};
pub use locality::{
    DataType, LocalityType, MinTransferSize, SYSTEM_LOCALITY, SystemLocality, cells_stand,
};
use std::alloc::Global;

/// The Heterogeneous Memory Attribute Table (ACPI 6.5, 5.2.28). Its structures begin at offset 40, and each contains its length
/// at offset 4. Its revision is 1, in which latencies and bandwidths have other units than in revision 2.
#[derive(Drop)]
pub struct HMAT {
    table: Walked<HmatKind, 40>,
}

/// The kind of HMAT.
pub struct HmatKind;

impl Kind for HmatKind {
    ghost walk = { hmat_walk };

    ghost ported = { true };

    ghost limit = { length_limit };

    ghost closed = { true };
}

impl Aml for HMAT {
    ghost object = { λ t. whole (bytes_of t.table.table) };

    ghost ends_well = { λ t. whole_ends_well (bytes_of t.table.table) };

    fn to_aml_bytes(&self, sink: &mut dyn AmlSink) -> R<()> {
        self.table.to_aml_bytes(sink)
    }
}

impl HMAT {
    /// A table without structures.
    pub fn new(alloc: Global, oem_id: [u8; 6], oem_table_id: [u8; 8], oem_revision: u32) -> HMAT
        ensures { result.table.table ≡ hmat (record { id = oem_id; table_id = oem_table_id; revision = oem_revision }) }
    {
        HMAT::of_revision(alloc, 1, oem_id, oem_table_id, oem_revision)
    }

    /// A table of a revision without structures. In revision 2 (ACPI 6.3 and later) the units of latencies and bandwidths are
    /// picoseconds and MB/s (5.2.28.4). The caller's entries and base units have to be those of the revision.
    pub fn of_revision(
        alloc: Global,
        revision: u8,
        oem_id: [u8; 6],
        oem_table_id: [u8; 8],
        oem_revision: u32,
    ) -> HMAT
        ensures { result.table.table
            ≡ hmat_of revision (record { id = oem_id; table_id = oem_table_id; revision = oem_revision }) }
    {
        let oem = Oem::new(oem_id, oem_table_id, oem_revision);
        let form = Form::new(*b"HMAT", revision, oem, 0);
        HMAT {
            table: Walked::of(Table::new(alloc, form, &[0; 4], &[])),
        }
    }

    /// Adds the initiator of a memory's proximity domain. The error is `FieldWidth` if the length would reach 2^32.
    pub fn add_memory_proximity(&mut self, domain: MemoryProximityDomain) -> R<()>
        ensures { Adds result self.old.table (whole (proximity_bytes domain)) self.new.table }
    {
        self.table.add_record(&domain)
    }

    /// Adds a matrix of latencies or bandwidths. The error is `FieldWidth` if the length would reach 2^32.
    pub fn add_system_locality(&mut self, locality: SystemLocality) -> R<()>
        ensures { Adds result self.old.table (whole (locality_bytes locality)) self.new.table }
    {
        self.table.add_object(&locality)
    }

    /// Adds a memory side cache. The error is `FieldWidth` if the length would reach 2^32.
    pub fn add_memory_side_cache(&mut self, cache: MemorySideCache) -> R<()>
        ensures { Adds result self.old.table (whole (cache_bytes cache)) self.new.table }
    {
        self.table.add_object(&cache)
    }

    /// The number of bytes of the table.
    pub fn len(&self) -> usize
        ensures { result ≡ length (bytes_of self.now.table.table) }
    {
        self.table.len()
    }

    /// The number of structures.
    pub fn count(&self) -> u32
        ensures { result ≡ length self.now.table.table.structures }
    {
        self.table.count()
    }
}

/// A law: after any calls the table is correct. Its structures, in order, are the one list that the walk finds.
pub fn hmat_is_walked(table: &HMAT)
    ensures keeps { Keeps true hmat_walk length_limit true table.now.table.table }
    ensures walked { IsWalked true hmat_walk table.now.table.table }
    ensures calls { (revision : ℕ) (oem : Oem) → IsAfterItsCalls true hmat_walk (hmat_of revision oem) table.now.table }
{
    is_walked(&table.table)
}

/// A law: setting a cell of a system locality gives it the new value and changes no other cell. Cells are the entries and the
/// domains of initiators and targets.
pub fn cells_are_set()
    ensures { CellsAreSet }
{}

/// A law: in a new system locality each domain is 0 and each entry is 0xffff.
pub fn new_cells_are_unreachable()
    ensures { NewCellsAreUnreachable }
{}

// The flag of a proximity domain (ACPI 6.5, 5.2.28.3, offset 8) that says that the initiator's domain is valid.
const INITIATOR_VALID: u16 = 1;

/// The initiator's domain that is attached to a memory's domain (Memory Proximity Domain Attributes Structure, ACPI 6.5,
/// 5.2.28.3): 40 bytes. Flag 1 says that the initiator's domain is valid.
#[derive(Clone, Copy, Debug)]
pub struct MemoryProximityDomain {
    flags: u16,
    initiator: u32,
    memory: u32,
}

impl MemoryProximityDomain {
    /// The proximity domains of the initiator and of the memory, and flag 1 (offset 8).
    pub fn new(
        proximity_domain_initiator: u32,
        proximity_domain_memory: u32,
    ) -> MemoryProximityDomain
        ensures { result ≡ proximity proximity_domain_initiator proximity_domain_memory }
    {
        MemoryProximityDomain {
            flags: INITIATOR_VALID,
            initiator: proximity_domain_initiator,
            memory: proximity_domain_memory,
        }
    }

    /// Clears flag 1 (offset 8): no initiator is attached to the memory, or it isn't known. Readers ignore the initiator's
    /// domain then, which keeps its number.
    pub fn without_initiator(mut self) -> MemoryProximityDomain
        ensures { result ≡ record self { flags = 0 } }
    {
        self.flags = 0;
        self
    }
}

/// The rows of a Memory Proximity Domain Attributes Structure.
pub const MEMORY_PROXIMITY_DOMAIN: [Row; 8] = [
    Row::Preset("Type", 2, 0),
    Row::Reserved(2),
    Row::Preset("Length", 4, 40),
    Row::Flags("Flags", 2, &[Bits::Flag(0x1, "Attached Initiator Valid")]),
    Row::Reserved(2),
    Row::Number("Proximity Domain for the Attached Initiator", 4),
    Row::Number("Proximity Domain for the Memory", 4),
    Row::Reserved(20),
];

impl Record<40> for MemoryProximityDomain {
    ghost fields = { proximity_fields };

    fn rows() -> &'static [Row] {
        &MEMORY_PROXIMITY_DOMAIN
    }

    fn bytes(&self) -> [u8; 40] {
        record_of(
            &MEMORY_PROXIMITY_DOMAIN,
            &[
                Value::Number(0),
                Value::Number(0),
                Value::Number(40),
                Value::Number(u64::from(self.flags)),
                Value::Number(0),
                Value::Number(u64::from(self.initiator)),
                Value::Number(u64::from(self.memory)),
                Value::Bytes(&[0; 20]),
            ],
        )
    }
}

impl Aml for MemoryProximityDomain {
    ghost object = { λ m. whole (proximity_bytes m) };

    ghost ends_well = { λ m. whole_ends_well (proximity_bytes m) };

    fn to_aml_bytes(&self, sink: &mut dyn AmlSink) -> R<()> {
        write_record(self, sink)
    }
}
