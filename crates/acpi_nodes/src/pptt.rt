//! PPTT: the hierarchy of processors and their caches.

ghost use Rattle.std.specs.Prelude.{◌≡◌, ◌≢◌, ℕ, ◌<◌, true, bit_or, IsNone, IfSome, OnOk, IfOk, IfErr, length};
ghost use Rattle.acpi_base.specs.Fields.{AreRowsOf};
ghost use Rattle.acpi_base.specs.Object.{whole, whole_ends_well};
ghost use Rattle.acpi_base.specs.Walk.{pptt_walk};
ghost use Rattle.acpi_base.specs.declared.oem.Oem.{Oem};
ghost use Rattle.acpi_core.specs.Addition.{AddsAt};
ghost use Rattle.acpi_core.specs.Calls.{IsAfterItsCalls};
ghost use Rattle.acpi_core.specs.Listing.{bytes_of, length_limit};
ghost use Rattle.acpi_core.specs.Walk.{IsWalked, Keeps};
ghost use Rattle.acpi_nodes.specs.Resources.{with_resource};
ghost use Rattle.acpi_nodes.specs.Pptt.{pptt, pptt_of, processor, processor_head_fields, processor_head, processor_bytes};
ghost use Rattle.acpi_nodes.specs.Pptt.{allocation_number, type_number, policy_number, cache_of, cache_bytes};
ghost use Rattle.acpi_nodes.specs.Pptt.{NodesTellKinds, NodesStand, ReferencesAreRead};
ghost use Rattle.acpi_nodes.specs.declared.pptt.ProcessorNode.{ProcessorNode};
ghost use Rattle.acpi_nodes.specs.Pptt.{cache_fields};

use crate::handle::Handle;
use acpi_base::error::{Error, R};
use acpi_base::object::Aml;
use acpi_base::oem::Oem;
use acpi_base::parts::write_parts;
use acpi_base::row::{Bits, Record, Row, Word, record_of_numbers, write_record};
use acpi_base::sink::AmlSink;
use acpi_core::entries::Entries;
use acpi_core::form::Form;
use acpi_core::kind::Kind;
use acpi_core::table::Table;
use acpi_core::walked::{Walked, is_walked};
use std::alloc::Global;

/// The Processor Properties Topology Table (ACPI 6.5, 5.2.30). Its nodes begin at offset 36.
#[derive(Drop)]
pub struct PPTT {
    table: Walked<PpttKind, 36>,
}

/// The kind of PPTT.
pub struct PpttKind;

impl Kind for PpttKind {
    ghost walk = { pptt_walk };

    ghost ported = { true };

    ghost limit = { length_limit };

    ghost closed = { true };
}

impl Aml for PPTT {
    ghost object = { λ t. whole (bytes_of t.table.table) };

    ghost ends_well = { λ t. whole_ends_well (bytes_of t.table.table) };

    fn to_aml_bytes(&self, sink: &mut dyn AmlSink) -> R<()> {
        self.table.to_aml_bytes(sink)
    }
}

impl PPTT {
    /// A table without nodes.
    pub fn new(alloc: Global, oem_id: [u8; 6], oem_table_id: [u8; 8], oem_revision: u32) -> PPTT
        ensures { result.table.table ≡ pptt (record { id = oem_id; table_id = oem_table_id; revision = oem_revision }) }
    {
        PPTT::of_revision(alloc, 3, oem_id, oem_table_id, oem_revision)
    }

    /// A table of a revision without nodes. Revision 1 is that of ACPI 6.2, 2 that of ACPI 6.3, and 3 that of ACPI 6.4 and later,
    /// in which a cache has its id at the end. The node of a cache has that field in every revision.
    pub fn of_revision(
        alloc: Global,
        revision: u8,
        oem_id: [u8; 6],
        oem_table_id: [u8; 8],
        oem_revision: u32,
    ) -> PPTT
        ensures { result.table.table
            ≡ pptt_of revision (record { id = oem_id; table_id = oem_table_id; revision = oem_revision }) }
    {
        let oem = Oem::new(oem_id, oem_table_id, oem_revision);
        let form = Form::new(*b"PPTT", revision, oem, 0);
        PPTT {
            table: Walked::of(Table::new(alloc, form, &[], &[])),
        }
    }

    /// Adds a processor or a group of processors, and returns its handle. The error is `FieldWidth` if the length would reach
    /// 2^32.
    pub fn add_processor(&mut self, node: ProcessorNode) -> R<ProcessorHandle>
        ensures { AddsAt result self.old.table (whole (processor_bytes node)) self.new.table }
    {
        Ok(Handle::at(self.table.add_object_at(&node)?))
    }

    /// Adds a cache and returns its handle. The error is `FieldWidth` if the length would reach 2^32.
    pub fn add_cache(&mut self, node: CacheNode) -> R<CacheHandle>
        ensures { AddsAt result self.old.table (whole (cache_bytes node)) self.new.table }
    {
        Ok(Handle::at(self.table.add_record_at(&node)?))
    }

    /// The number of bytes of the table.
    pub fn len(&self) -> usize
        ensures { result ≡ length (bytes_of self.now.table.table) }
    {
        self.table.len()
    }

    /// The number of nodes.
    pub fn count(&self) -> u32
        ensures { result ≡ length self.now.table.table.structures }
    {
        self.table.count()
    }
}

/// A law: after any calls the table is correct. Its nodes, in order, are the one list that the walk finds.
pub fn pptt_is_walked(table: &PPTT)
    ensures keeps { Keeps true pptt_walk length_limit true table.now.table.table }
    ensures walked { IsWalked true pptt_walk table.now.table.table }
    ensures calls { (revision : ℕ) (oem : Oem) → IsAfterItsCalls true pptt_walk (pptt_of revision oem) table.now.table }
    ensures nodes { NodesStand table.now.table.table }
{
    is_walked(&table.table)
}

/// A law: each node begins with its type, for all values of its fields.
pub fn pptt_nodes_tell_kinds()
    ensures { NodesTellKinds }
{}

/// A law: the bytes of a node contain each of its references to other nodes.
pub fn pptt_references_are_read()
    ensures { ReferencesAreRead }
{}

/// The handle of a processor's node.
pub type ProcessorHandle = Handle<ProcessorNode>;

/// The handle of a cache's node.
pub type CacheHandle = Handle<CacheNode>;

/// The offsets of a processor's private caches (offset 20). There are at most 58, because the node's length has one byte.
pub type Resources = Entries<4, 58>;

/// Flags of a processor (offset 4).
const PHYSICAL: u32 = 1;

const VALID: u32 = 2;

const THREAD: u32 = 4;

const LEAF: u32 = 8;

const IDENTICAL: u32 = 16;

/// A processor or a group of processors (ACPI 6.5, 5.2.30.1): 20 bytes, and 4 for each of its private caches, of which there are
/// at most 58. Its fields are public, and are written with the values that they have.
#[derive(Debug, Drop)]
pub struct ProcessorNode {
    pub flags: u32,
    /// The offset of the parent node, or 0 for a root.
    pub parent: u32,
    /// The `_UID` of the processor, or of the group's container. The flags say whether it is valid.
    pub acpi_processor_id: u32,
    resources: Resources,
}

impl ProcessorNode {
    /// A node without flags and caches. It has a parent in the same table, or is a root.
    pub fn new(
        alloc: Global,
        parent: Option<&ProcessorHandle>,
        acpi_processor_id: u32,
    ) -> ProcessorNode
        ensures root { IsNone parent.entry → result ≡ processor 0 acpi_processor_id }
        ensures below { IfSome parent.entry (λ h. result ≡ processor h.now acpi_processor_id) }
    {
        let parent = match parent {
            Some(handle) => handle.offset(),
            None => 0,
        };
        ProcessorNode {
            flags: 0,
            parent,
            acpi_processor_id,
            resources: Resources::new(alloc),
        }
    }

    /// The number of its private caches: at most 58.
    pub fn resource_count(&self) -> usize
        ensures { result ≡ self.now.resources.count }
    {
        self.resources.len()
    }

    /// Adds a private cache, which is the nearest of its kind. The error is `FieldWidth` at the 59th cache, and drops the node:
    /// check `resource_count` before the call.
    pub fn add_cache(mut self, cache: &CacheHandle) -> R<ProcessorNode>
        ensures ok { IfOk result (λ p. p ≡ record self { resources = with_resource self.resources cache.now }) }
        ensures room { OnOk result (self.resources.count < 58) }
        ensures err { IfErr result (λ e. e ≢ Error.Memory → (e ≡ Error.FieldWidth) × (self.resources.count ≡ 58)) }
    {
        self.resources.push(cache.offset().to_le_bytes())?;
        Ok(self)
    }

    /// Sets flag 1: the node is the boundary of a physical package.
    pub fn physical(mut self) -> ProcessorNode
        ensures { result ≡ record self { flags = bit_or self.flags 1 } }
    {
        self.flags |= PHYSICAL;
        self
    }

    /// Sets flag 2: the ACPI processor id is valid.
    pub fn valid(mut self) -> ProcessorNode
        ensures { result ≡ record self { flags = bit_or self.flags 2 } }
    {
        self.flags |= VALID;
        self
    }

    /// Sets flag 4: the processor is a thread.
    pub fn thread(mut self) -> ProcessorNode
        ensures { result ≡ record self { flags = bit_or self.flags 4 } }
    {
        self.flags |= THREAD;
        self
    }

    /// Sets flag 8: the node is a leaf.
    pub fn leaf(mut self) -> ProcessorNode
        ensures { result ≡ record self { flags = bit_or self.flags 8 } }
    {
        self.flags |= LEAF;
        self
    }

    /// Sets flag 16: all processors below have the same implementation.
    pub fn identical(mut self) -> ProcessorNode
        ensures { result ≡ record self { flags = bit_or self.flags 16 } }
    {
        self.flags |= IDENTICAL;
        self
    }

    // The bytes of the node before its caches.
    fn head(&self) -> [u8; 20]
        ensures { result ≡ processor_head self.now }
    {
        record_of_numbers(
            &PROCESSOR_NODE,
            &[
                0,
                20 + self.resources.as_slice().len() as u64,
                0,
                u64::from(self.flags),
                u64::from(self.parent),
                u64::from(self.acpi_processor_id),
                self.resources.len() as u64,
            ],
        )
    }
}

/// The rows of a Processor Hierarchy Node Structure before its private resources.
pub const PROCESSOR_NODE: [Row; 7] = [
    Row::Preset("Type", 1, 0),
    Row::Number("Length", 1),
    Row::Reserved(2),
    Row::Flags(
        "Flags",
        4,
        &[
            Bits::Flag(0x1, "Physical package"),
            Bits::Flag(0x2, "ACPI Processor ID valid"),
            Bits::Flag(0x4, "Processor is a Thread"),
            Bits::Flag(0x8, "Node is a Leaf"),
            Bits::Flag(0x10, "Identical Implementation"),
        ],
    ),
    Row::Reference("Parent", 4),
    Row::Hex("ACPI Processor ID", 4),
    Row::Number("Number of private resources", 4),
];

/// The rows of the fields before a processor's caches, in order.
pub fn processor_rows() -> &'static [Row]
    ensures { (p : ProcessorNode) → AreRowsOf result.now (processor_head_fields p) }
{
    &PROCESSOR_NODE
}

impl Aml for ProcessorNode {
    ghost object = { λ p. whole (processor_bytes p) };

    ghost ends_well = { λ p. whole_ends_well (processor_bytes p) };

    fn to_aml_bytes(&self, sink: &mut dyn AmlSink) -> R<()> {
        write_parts(sink, &[&self.head(), self.resources.as_slice()])
    }
}

/// The accesses that allocate a line of a cache (offset 21, bits 0 and 1).
#[derive(Copy, Clone, Debug, PartialEq)]
pub enum AllocationType {
    Read = 0,
    Write = 1,
    Both = 2,
}

/// The type of a cache's contents (offset 21, bits 2 and 3).
#[derive(Copy, Clone, Debug, PartialEq)]
pub enum CacheType {
    Data = 0,
    Instruction = 4,
    Unified = 8,
}

/// The write policy of a cache (offset 21, bit 4).
#[derive(Copy, Clone, Debug, PartialEq)]
pub enum WritePolicy {
    Writeback = 0,
    Writethrough = 16,
}

/// Flags of a cache (offset 4), which say which of its fields are valid.
const SIZE: u32 = 1;

const SETS: u32 = 2;

const ASSOCIATIVITY: u32 = 4;

const ALLOCATION: u32 = 8;

const TYPE: u32 = 16;

const POLICY: u32 = 32;

const LINE_SIZE: u32 = 64;

const ID: u32 = 128;

/// A builder for the node of a cache. Every field is zero at first. Each call sets a field and its valid flag; `next_level` has
/// no flag.
#[derive(Default, Drop)]
pub struct CacheNodeBuilder {
    flags: u32,
    next_level: u32,
    size: u32,
    sets: u32,
    associativity: u8,
    attributes: u8,
    line_size: u16,
    id: u32,
}

impl CacheNodeBuilder {
    /// Sets the next level of cache, in the same table (offset 8). The last level has 0 there.
    pub fn next_level(mut self, cache: &CacheHandle) -> CacheNodeBuilder
        ensures { result ≡ record self { next_level = cache.now } }
    {
        self.next_level = cache.offset();
        self
    }

    /// Sets the size in bytes (offset 12, flag 1).
    pub fn size(mut self, size: u32) -> CacheNodeBuilder
        ensures { result ≡ record self { flags = bit_or self.flags 1; size = size } }
    {
        self.flags |= SIZE;
        self.size = size;
        self
    }

    /// Sets the number of sets (offset 16, flag 2).
    pub fn sets(mut self, sets: u32) -> CacheNodeBuilder
        ensures { result ≡ record self { flags = bit_or self.flags 2; sets = sets } }
    {
        self.flags |= SETS;
        self.sets = sets;
        self
    }

    /// Sets the number of ways (offset 20, flag 4).
    pub fn associativity(mut self, associativity: u8) -> CacheNodeBuilder
        ensures { result ≡ record self { flags = bit_or self.flags 4; associativity = associativity } }
    {
        self.flags |= ASSOCIATIVITY;
        self.associativity = associativity;
        self
    }

    /// Sets the allocation type (offset 21, flag 8). It is joined by or to the attributes that are set already.
    pub fn allocation_type(mut self, allocation: AllocationType) -> CacheNodeBuilder
        ensures { result ≡ record self {
          flags = bit_or self.flags 8;
          attributes = bit_or self.attributes (allocation_number allocation);
        } }
    {
        self.flags |= ALLOCATION;
        self.attributes |= allocation as u8;
        self
    }

    /// Sets the type of the contents (offset 21, flag 16). It is joined by or to the attributes that are set already.
    pub fn cache_type(mut self, kind: CacheType) -> CacheNodeBuilder
        ensures { result ≡ record self {
          flags = bit_or self.flags 16;
          attributes = bit_or self.attributes (type_number kind);
        } }
    {
        self.flags |= TYPE;
        self.attributes |= kind as u8;
        self
    }

    /// Sets the write policy (offset 21, flag 32). It is joined by or to the attributes that are set already.
    pub fn write_policy(mut self, policy: WritePolicy) -> CacheNodeBuilder
        ensures { result ≡ record self {
          flags = bit_or self.flags 32;
          attributes = bit_or self.attributes (policy_number policy);
        } }
    {
        self.flags |= POLICY;
        self.attributes |= policy as u8;
        self
    }

    /// Sets the size of a line in bytes (offset 22, flag 64).
    pub fn line_size(mut self, line_size: u16) -> CacheNodeBuilder
        ensures { result ≡ record self { flags = bit_or self.flags 64; line_size = line_size } }
    {
        self.flags |= LINE_SIZE;
        self.line_size = line_size;
        self
    }

    /// Sets the cache's id, which is unique in the table (offset 24, flag 128).
    pub fn id(mut self, id: u32) -> CacheNodeBuilder
        ensures { result ≡ record self { flags = bit_or self.flags 128; id = id } }
    {
        self.flags |= ID;
        self.id = id;
        self
    }

    /// The finished node.
    pub fn to_node(self) -> CacheNode
        ensures { result ≡ cache_of self }
    {
        CacheNode {
            flags: self.flags,
            next_level: self.next_level,
            size: self.size,
            sets: self.sets,
            associativity: self.associativity,
            attributes: self.attributes,
            line_size: self.line_size,
            id: self.id,
        }
    }
}

/// A cache (ACPI 6.5, 5.2.30.2): 28 bytes.
#[derive(Copy, Clone, Debug)]
pub struct CacheNode {
    flags: u32,
    next_level: u32,
    size: u32,
    sets: u32,
    associativity: u8,
    attributes: u8,
    line_size: u16,
    id: u32,
}

impl CacheNode {
    /// The size in bytes.
    pub fn len() -> usize
        ensures { result ≡ 28 }
    {
        28
    }
}

/// The rows of a Cache Type Structure.
pub const CACHE_NODE: [Row; 11] = [
    Row::Preset("Type", 1, 1),
    Row::Preset("Length", 1, 28),
    Row::Reserved(2),
    Row::Flags(
        "Flags",
        4,
        &[
            Bits::Flag(0x1, "Size valid"),
            Bits::Flag(0x2, "Number of sets valid"),
            Bits::Flag(0x4, "Associativity valid"),
            Bits::Flag(0x8, "Allocation type valid"),
            Bits::Flag(0x10, "Cache type valid"),
            Bits::Flag(0x20, "Write policy valid"),
            Bits::Flag(0x40, "Line size valid"),
            Bits::Flag(0x80, "Cache ID valid"),
        ],
    ),
    Row::Reference("Next Level of Cache", 4),
    Row::Number("Size", 4),
    Row::Number("Number of sets", 4),
    Row::Number("Associativity", 1),
    Row::Flags(
        "Attributes",
        1,
        &[
            Bits::OneOf(
                0x3,
                &[
                    Word(0x0, "Read Allocate"),
                    Word(0x1, "Write Allocate"),
                    Word(0x2, "Read and Write Allocate"),
                    Word(0x3, "Read and Write Allocate"),
                ],
            ),
            Bits::OneOf(
                0xc,
                &[
                    Word(0x0, "Data"),
                    Word(0x4, "Instruction"),
                    Word(0x8, "Unified"),
                    Word(0xc, "Unified"),
                ],
            ),
            Bits::OneOf(
                0x10,
                &[Word(0x0, "Write Back"), Word(0x10, "Write Through")],
            ),
        ],
    ),
    Row::Number("Line size", 2),
    Row::Hex("Cache ID", 4),
];

impl Record<28> for CacheNode {
    ghost fields = { cache_fields };

    fn rows() -> &'static [Row] {
        &CACHE_NODE
    }

    fn bytes(&self) -> [u8; 28] {
        record_of_numbers(
            &CACHE_NODE,
            &[
                1,
                28,
                0,
                u64::from(self.flags),
                u64::from(self.next_level),
                u64::from(self.size),
                u64::from(self.sets),
                u64::from(self.associativity),
                u64::from(self.attributes),
                u64::from(self.line_size),
                u64::from(self.id),
            ],
        )
    }
}

impl Aml for CacheNode {
    ghost object = { λ c. whole (cache_bytes c) };

    ghost ends_well = { λ c. whole_ends_well (cache_bytes c) };

    fn to_aml_bytes(&self, sink: &mut dyn AmlSink) -> R<()> {
        write_record(self, sink)
    }
}
