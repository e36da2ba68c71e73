//! RHCT: the capabilities of RISC-V harts.

ghost use Rattle.std.specs.Prelude.{◌≡◌, ◌≢◌, ◌<◌, ℕ, true, OnOk, IfOk, IfErr, length};
ghost use Rattle.acpi_base.specs.Fields.{AreRowsOf};
ghost use Rattle.acpi_base.specs.Object.{whole, whole_ends_well};
ghost use Rattle.acpi_base.specs.Walk.{rhct_walk};
ghost use Rattle.acpi_base.specs.declared.oem.Oem.{Oem};
ghost use Rattle.acpi_core.specs.Addition.{Adds, AddsAt};
ghost use Rattle.acpi_core.specs.Calls.{IsAfterItsCalls};
ghost use Rattle.acpi_core.specs.Listing.{bytes_of, length_limit};
ghost use Rattle.acpi_core.specs.Walk.{IsWalked, Keeps};
ghost use Rattle.acpi_nodes.specs.Hart.{hart_info, with_offset, hart_info_head_fields, hart_info_head, hart_info_bytes};
ghost use Rattle.acpi_nodes.specs.Rhct.{rhct, rhct_fields, isa_string_end, isa_string_head_fields, isa_string_head};
ghost use Rattle.acpi_nodes.specs.Rhct.{isa_string_object, isa_string_ends_well, cmo, cmo_bytes, mmu, mmu_bytes};
ghost use Rattle.acpi_nodes.specs.Rhct.{NodesTellKinds, NodesStand, ReferencesAreRead};
ghost use Rattle.acpi_nodes.specs.declared.rhct.HartInfoNode.{HartInfoNode};
ghost use Rattle.acpi_nodes.specs.Rhct.{cmo_fields, mmu_fields};

use crate::handle::Handle;
use acpi_base::error::{Error, R};
use acpi_base::object::Aml;
use acpi_base::oem::Oem;
use acpi_base::parts::write_parts;
use acpi_base::row::{Bits, Record, Row, Word, record_of_numbers, write_record};
use acpi_base::sink::AmlSink;
use acpi_core::entries::Entries;
use acpi_core::form::Form;
use acpi_core::kind::Kind;
use acpi_core::table::Table;
use acpi_core::walked::{Walked, is_walked};
use std::alloc::Global;

/// The RISC-V Hart Capabilities Table (this project's profile). The number of nodes is at offset 48. The nodes begin at offset
/// 56, which the field at offset 52 contains.
#[derive(Drop)]
pub struct RHCT {
    table: Walked<RhctKind, 56>,
}

/// The kind of RHCT.
pub struct RhctKind;

impl Kind for RhctKind {
    ghost walk = { rhct_walk };

    ghost ported = { true };

    ghost limit = { length_limit };

    ghost closed = { true };
}

impl Aml for RHCT {
    ghost object = { λ t. whole (bytes_of t.table.table) };

    ghost ends_well = { λ t. whole_ends_well (bytes_of t.table.table) };

    fn to_aml_bytes(&self, sink: &mut dyn AmlSink) -> R<()> {
        self.table.to_aml_bytes(sink)
    }
}

/// The rows of an RHCT between its header and the number of its nodes.
pub const RHCT_FIXED: [Row; 2] = [
    Row::Flags(
        "Flags",
        4,
        &[Bits::Flag(0x1, "Timer cannot wake the processor")],
    ),
    Row::Number("Time Base Frequency", 8),
];

/// The rows of the fields between the header and the number of nodes, in order.
pub fn rhct_rows() -> &'static [Row]
    ensures { (timebase_frequency : ℕ) → AreRowsOf result.now (rhct_fields timebase_frequency) }
{
    &RHCT_FIXED
}

impl RHCT {
    /// A table without nodes. The argument is the frequency of the harts' time counter in hertz (offset 40).
    pub fn new(
        alloc: Global,
        oem_id: [u8; 6],
        oem_table_id: [u8; 8],
        oem_revision: u32,
        timebase_frequency: u64,
    ) -> RHCT
        ensures { result.table.table ≡
            rhct (record { id = oem_id; table_id = oem_table_id; revision = oem_revision }) timebase_frequency }
    {
        let oem = Oem::new(oem_id, oem_table_id, oem_revision);
        let form = Form::new(*b"RHCT", 1, oem, 4);
        let before: [u8; 12] = record_of_numbers(&RHCT_FIXED, &[0, timebase_frequency]);
        RHCT {
            table: Walked::of(Table::new(alloc, form, &before, &[56, 0, 0, 0])),
        }
    }

    /// Adds an ISA string and returns its handle. The error is `FieldWidth` if the text has more than 65,525 bytes, or the length
    /// would reach 2^32.
    pub fn add_isa_string(&mut self, string: &str) -> R<IsaStringHandle>
        ensures { AddsAt result self.old.table (isa_string_object string.now) self.new.table }
    {
        Ok(Handle::at(self.table.add_object_at(&IsaString { text: string })?))
    }

    /// Adds the block sizes of cache management operations, and returns the handle. The error is `FieldWidth` if the length would
    /// reach 2^32.
    pub fn add_cmo(&mut self, cmo: CmoNode) -> R<CmoHandle>
        ensures { AddsAt result self.old.table (whole (cmo_bytes cmo)) self.new.table }
    {
        Ok(Handle::at(self.table.add_record_at(&cmo)?))
    }

    /// Adds an address translation scheme. The error is `FieldWidth` if the length would reach 2^32.
    pub fn add_mmu_node(&mut self, scheme: VirtualAddressScheme) -> R<()>
        ensures { Adds result self.old.table (whole (mmu_bytes (mmu scheme))) self.new.table }
    {
        self.table.add_record(&MmuNode::new(scheme))
    }

    /// Adds a hart with the nodes that describe it. The error is `FieldWidth` if the length would reach 2^32.
    pub fn add_hart_info(&mut self, hart_info: HartInfoNode) -> R<()>
        ensures { Adds result self.old.table (whole (hart_info_bytes hart_info)) self.new.table }
    {
        self.table.add_object(&hart_info)
    }

    /// The number of bytes of the table.
    pub fn len(&self) -> usize
        ensures { result ≡ length (bytes_of self.now.table.table) }
    {
        self.table.len()
    }

    /// The number of nodes.
    pub fn count(&self) -> u32
        ensures { result ≡ length self.now.table.table.structures }
    {
        self.table.count()
    }
}

/// A law: after any calls the table is correct. Its nodes, in order, are the one list that the walk finds.
pub fn rhct_is_walked(table: &RHCT)
    ensures keeps { Keeps true rhct_walk length_limit true table.now.table.table }
    ensures walked { IsWalked true rhct_walk table.now.table.table }
    ensures calls { (oem : Oem) (timebase_frequency : ℕ)
        → IsAfterItsCalls true rhct_walk (rhct oem timebase_frequency) table.now.table }
    ensures nodes { NodesStand table.now.table.table }
{
    is_walked(&table.table)
}

/// A law: each node begins with its type, for all values of its fields.
pub fn rhct_nodes_tell_kinds()
    ensures { NodesTellKinds }
{}

/// A law: the bytes of a node contain each of its references to other nodes.
pub fn rhct_references_are_read()
    ensures { ReferencesAreRead }
{}

/// The handle of an ISA string's node.
pub type IsaStringHandle = Handle<IsaStringNode>;

/// The handle of a CMO node.
pub type CmoHandle = Handle<CmoNode>;

/// The ISA string of a hart (this project's profile, ISA string node): 8 bytes, the text and a NUL, and one more byte if the
/// length would be odd. Writing it returns `FieldWidth` if the text has more than 65,525 bytes.
#[derive(Drop)]
pub struct IsaStringNode {
    string: &'static str,
}

impl IsaStringNode {
    /// The node of a text, which isn't checked.
    pub fn new(string: &'static str) -> IsaStringNode
        ensures { result.string.now ≡ string.now }
    {
        IsaStringNode { string }
    }
}

impl Aml for IsaStringNode {
    ghost object = { λ i. isa_string_object i.string.now };

    ghost ends_well = { λ i. isa_string_ends_well i.string.now };

    fn to_aml_bytes(&self, sink: &mut dyn AmlSink) -> R<()> {
        IsaString { text: self.string }.to_aml_bytes(sink)
    }
}

// The same for a text that is borrowed while it is written.
#[derive(Drop)]
struct IsaString<'a> {
    text: &'a str,
}

impl<'a> Aml for IsaString<'a> {
    ghost object = { λ i. isa_string_object i.text.now };

    ghost ends_well = { λ i. isa_string_ends_well i.text.now };

    fn to_aml_bytes(&self, sink: &mut dyn AmlSink) -> R<()> {
        let text = self.text.as_bytes();
        if text.len() > 65525 {
            return Err(Error::FieldWidth);
        }
        let head = isa_string_head(text.len());
        write_parts(sink, &[&head, text, &[0, 0][..isa_string_end(text.len())]])
    }
}

// The number of zeros after a text.
fn isa_string_end(text: usize) -> usize
    requires { text < 65526 }
    ensures { result ≡ isa_string_end text }
{
    1 + (text + 1) % 2
}

// The bytes of a node before its text.
fn isa_string_head(text: usize) -> [u8; 8]
    requires { text < 65526 }
    ensures { result ≡ isa_string_head text }
{
    record_of_numbers(
        &ISA_STRING,
        &[
            0,
            (8 + text + isa_string_end(text)) as u64,
            1,
            (text + 1) as u64,
        ],
    )
}

/// The rows of an ISA string node before its string.
pub const ISA_STRING: [Row; 4] = [
    Row::Preset("Type", 2, 0),
    Row::Number("Length", 2),
    Row::Preset("Revision", 2, 1),
    Row::Number("ISA string length", 2),
];

/// The rows of the fields before a text, in order.
pub fn isa_string_rows() -> &'static [Row]
    ensures { (text : ℕ) → AreRowsOf result.now (isa_string_head_fields text) }
{
    &ISA_STRING
}

/// The block sizes of a hart's cache management operations (this project's profile, CMO node): 10 bytes.
#[derive(Drop)]
pub struct CmoNode {
    cbom: u8,
    cbop: u8,
    cboz: u8,
}

impl CmoNode {
    /// The exponents of the block sizes: 2^n bytes for cache management, for prefetch and for zeroing.
    pub fn new(
        cbom_block_size_pow2: u8,
        cbop_block_size_pow2: u8,
        cboz_block_size_pow2: u8,
    ) -> CmoNode
        ensures { result ≡ cmo cbom_block_size_pow2 cbop_block_size_pow2 cboz_block_size_pow2 }
    {
        CmoNode {
            cbom: cbom_block_size_pow2,
            cbop: cbop_block_size_pow2,
            cboz: cboz_block_size_pow2,
        }
    }
}

/// The rows of a CMO node.
pub const CMO: [Row; 7] = [
    Row::Preset("Type", 2, 1),
    Row::Preset("Length", 2, 10),
    Row::Preset("Revision", 2, 1),
    Row::Reserved(1),
    Row::Number("CBOM Block Size", 1),
    Row::Number("CBOP Block Size", 1),
    Row::Number("CBOZ Block Size", 1),
];

impl Record<10> for CmoNode {
    ghost fields = { cmo_fields };

    fn rows() -> &'static [Row] {
        &CMO
    }

    fn bytes(&self) -> [u8; 10] {
        record_of_numbers(
            &CMO,
            &[
                1,
                10,
                1,
                0,
                u64::from(self.cbom),
                u64::from(self.cbop),
                u64::from(self.cboz),
            ],
        )
    }
}

impl Aml for CmoNode {
    ghost object = { λ c. whole (cmo_bytes c) };

    ghost ends_well = { λ c. whole_ends_well (cmo_bytes c) };

    fn to_aml_bytes(&self, sink: &mut dyn AmlSink) -> R<()> {
        write_record(self, sink)
    }
}

/// The address translation scheme of a hart (offset 7).
#[derive(Clone, Copy, Debug, PartialEq)]
pub enum VirtualAddressScheme {
    Sv39 = 0,
    Sv48 = 1,
    Sv57 = 2,
}

/// The address translation scheme of a hart (this project's profile, MMU node): 8 bytes.
#[derive(Drop)]
pub struct MmuNode {
    scheme: u8,
}

impl MmuNode {
    /// The node of this scheme.
    pub fn new(scheme: VirtualAddressScheme) -> MmuNode
        ensures { result ≡ mmu scheme }
    {
        MmuNode {
            scheme: scheme as u8,
        }
    }
}

/// The rows of an MMU node.
pub const MMU: [Row; 5] = [
    Row::Preset("Type", 2, 2),
    Row::Preset("Length", 2, 8),
    Row::Preset("Revision", 2, 1),
    Row::Reserved(1),
    Row::OneOf(
        "MMU Type",
        1,
        &[Word(0, "Sv39"), Word(1, "Sv48"), Word(2, "Sv57")],
    ),
];

impl Record<8> for MmuNode {
    ghost fields = { mmu_fields };

    fn rows() -> &'static [Row] {
        &MMU
    }

    fn bytes(&self) -> [u8; 8] {
        record_of_numbers(&MMU, &[2, 8, 1, 0, u64::from(self.scheme)])
    }
}

impl Aml for MmuNode {
    ghost object = { λ m. whole (mmu_bytes m) };

    ghost ends_well = { λ m. whole_ends_well (mmu_bytes m) };

    fn to_aml_bytes(&self, sink: &mut dyn AmlSink) -> R<()> {
        write_record(self, sink)
    }
}

/// A hart and the nodes that describe it (this project's profile, Hart Info node): 12 bytes, and 4 for the offset of each node.
/// There are at most 16,380 offsets.
#[derive(Drop)]
pub struct HartInfoNode {
    uid: u32,
    offsets: Entries<4, 16380>,
}

impl HartInfoNode {
    /// The hart with this `_UID` and this ISA string.
    pub fn new(alloc: Global, processor_uid: u32, handle: &IsaStringHandle) -> R<HartInfoNode>
        ensures ok { IfOk result (λ h. h ≡ hart_info processor_uid handle.now) }
        ensures err { IfErr result (λ e. e ≡ Error.Memory) }
    {
        let mut offsets = Entries::new(alloc);
        offsets.push(handle.offset().to_le_bytes())?;
        Ok(HartInfoNode {
            uid: processor_uid,
            offsets,
        })
    }

    /// The number of offsets, with the one of the ISA string: at most 16,380.
    pub fn offset_count(&self) -> usize
        ensures { result ≡ self.now.offsets.count }
    {
        self.offsets.len()
    }

    /// Adds a CMO node after the earlier ones. The error is `FieldWidth` at offset number 16,381, and drops the node: check
    /// `offset_count` before the call.
    pub fn with_cmo(mut self, cmo: &CmoHandle) -> R<HartInfoNode>
        ensures ok { IfOk result (λ h. h ≡ with_offset self cmo.now) }
        ensures room { OnOk result (self.offsets.count < 16380) }
        ensures err { IfErr result (λ e. e ≢ Error.Memory → (e ≡ Error.FieldWidth) × (self.offsets.count ≡ 16380)) }
    {
        self.offsets.push(cmo.offset().to_le_bytes())?;
        Ok(self)
    }

    // The bytes of the node before its offsets.
    fn head(&self) -> [u8; 12]
        ensures { result ≡ hart_info_head self.now }
    {
        record_of_numbers(
            &HART_INFO,
            &[
                65535,
                12 + self.offsets.as_slice().len() as u64,
                1,
                self.offsets.len() as u64,
                u64::from(self.uid),
            ],
        )
    }
}

/// The rows of a hart info node before its offsets.
pub const HART_INFO: [Row; 5] = [
    Row::Preset("Type", 2, 65535),
    Row::Number("Length", 2),
    Row::Preset("Revision", 2, 1),
    Row::Number("Number of offsets", 2),
    Row::Hex("ACPI Processor UID", 4),
];

/// The rows of the fields before a hart's offsets, in order.
pub fn hart_info_rows() -> &'static [Row]
    ensures { (h : HartInfoNode) → AreRowsOf result.now (hart_info_head_fields h) }
{
    &HART_INFO
}

impl Aml for HartInfoNode {
    ghost object = { λ h. whole (hart_info_bytes h) };

    ghost ends_well = { λ h. whole_ends_well (hart_info_bytes h) };

    fn to_aml_bytes(&self, sink: &mut dyn AmlSink) -> R<()> {
        write_parts(sink, &[&self.head(), self.offsets.as_slice()])
    }
}
