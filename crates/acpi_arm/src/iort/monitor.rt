//! Performance monitors of SMMUs and of other nodes.

ghost use Rattle.std.specs.Prelude.{◌≡◌};
ghost use Rattle.acpi_base.specs.Fields.{AreRowsOf};
ghost use Rattle.acpi_base.specs.Object.{whole, whole_ends_well};
ghost use Rattle.acpi_core.specs.Entries.{with_entry};
ghost use Rattle.acpi_arm.specs.Iort.{Pushes, mapping_bytes};
ghost use Rattle.acpi_arm.specs.IortNodes.{monitored_offset, pmcg, pmcg_head_fields, pmcg_head, pmcg_bytes};
ghost use Rattle.acpi_arm.specs.declared.iort.monitor.Pmcg.{Pmcg};

use crate::iort::mapping::IdMapping;
use crate::iort::{NamedComponentHandle, RootComplexHandle, SmmuHandle, SmmuV3Handle};
use crate::offsets::offset_if;
use acpi_base::error::R;
use acpi_base::object::Aml;
use acpi_base::parts::write_parts;
use acpi_base::row::{Record, Row, record_of_numbers};
use acpi_base::sink::AmlSink;
use acpi_core::entries::Entries;
use std::alloc::Global;

/// The node whose events are counted.
#[derive(Clone, Copy, Debug)]
pub enum Monitored {
    Smmu(SmmuHandle),
    SmmuV3(SmmuV3Handle),
    RootComplex(RootComplexHandle),
    NamedComponent(NamedComponentHandle),
}

impl Monitored {
    // The node's offset in the table.
    fn offset(&self) -> u32
        ensures { result ≡ monitored_offset self.now }
    {
        match self {
            Monitored::Smmu(handle) => handle.offset(),
            Monitored::SmmuV3(handle) => handle.offset(),
            Monitored::RootComplex(handle) => handle.offset(),
            Monitored::NamedComponent(handle) => handle.offset(),
        }
    }
}

/// A performance monitoring counter group: 40 bytes, and 20 for a mapping.
#[derive(Drop)]
pub struct Pmcg {
    pub(crate) identifier: u32,
    page_0: u64,
    overflow_gsiv: u32,
    node: u32,
    page_1: u64,
    mappings: Entries<20, 1>,
}

impl Pmcg {
    /// The group whose registers of page 0 begin at a physical address (offset 16). It counts events of a node, whose offset in
    /// the table is at 28. Its identifier is 0 until it is added to a table, and so are its other fields.
    pub fn new(alloc: Global, page_0: u64, node: Monitored) -> Pmcg
        ensures { result ≡ pmcg page_0 node }
    {
        Pmcg {
            identifier: 0,
            page_0,
            overflow_gsiv: 0,
            node: node.offset(),
            page_1: 0,
            mappings: Entries::new(alloc),
        }
    }

    /// Sets the global system interrupt vector of an overflow (offset 24).
    pub fn overflow_gsiv(mut self, gsiv: u32) -> Pmcg
        ensures { result ≡ record self { overflow_gsiv = gsiv } }
    {
        self.overflow_gsiv = gsiv;
        self
    }

    /// Sets the physical address of the registers of page 1 (offset 32).
    pub fn page_1(mut self, address: u64) -> Pmcg
        ensures { result ≡ record self { page_1 = address } }
    {
        self.page_1 = address;
        self
    }

    /// The number of mappings (offset 8): at most 1.
    pub fn mapping_count(&self) -> usize
        ensures { result ≡ self.now.mappings.count }
    {
        self.mappings.len()
    }

    /// Adds the mapping of the group's interrupt. The error is `FieldWidth` at the second mapping. After an error the group is
    /// unchanged.
    pub fn add_mapping(&mut self, mapping: IdMapping) -> R<()>
        ensures { Pushes result self.old
            (record self.old { mappings = with_entry self.old.mappings (mapping_bytes mapping) }) self.new
            self.old.mappings.count 1 }
    {
        self.mappings.push(mapping.bytes())
    }

    // The bytes of the node before its mapping.
    fn head(&self) -> [u8; 40]
        ensures { result ≡ pmcg_head self.now }
    {
        let mappings = self.mappings.len();
        record_of_numbers(
            &PMCG,
            &[
                5,
                40 + self.mappings.as_slice().len() as u64,
                2,
                u64::from(self.identifier),
                mappings as u64,
                u64::from(offset_if(mappings, 40)),
                self.page_0,
                u64::from(self.overflow_gsiv),
                u64::from(self.node),
                self.page_1,
            ],
        )
    }
}

/// The rows of a PMCG node before its mapping.
pub const PMCG: [Row; 10] = [
    Row::Preset("Type", 1, 5),
    Row::Number("Length", 2),
    Row::Preset("Revision", 1, 2),
    Row::Hex("Identifier", 4),
    Row::Number("Number of ID Mappings", 4),
    Row::Number("Reference to ID Array", 4),
    Row::Hex("Page 0 Base Address", 8),
    Row::Number("Overflow Interrupt GSIV", 4),
    Row::Reference("Node Reference", 4),
    Row::Hex("Page 1 Base Address", 8),
];

/// The rows of the fields before a group's mapping, in order.
pub fn pmcg_rows() -> &'static [Row]
    ensures { (p : Pmcg) → AreRowsOf result.now (pmcg_head_fields p) }
{
    &PMCG
}

impl Aml for Pmcg {
    ghost object = { λ p. whole (pmcg_bytes p) };

    ghost ends_well = { λ p. whole_ends_well (pmcg_bytes p) };

    fn to_aml_bytes(&self, sink: &mut dyn AmlSink) -> R<()> {
        write_parts(sink, &[&self.head(), self.mappings.as_slice()])
    }
}
