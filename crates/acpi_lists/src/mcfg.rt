//! MCFG: the memory mapped configuration space of PCI.

ghost use Rattle.std.specs.Prelude.{◌≡◌, true, length};
ghost use Rattle.acpi_base.specs.Object.{whole, whole_ends_well};
ghost use Rattle.acpi_base.specs.Walk.{mcfg_walk};
ghost use Rattle.acpi_base.specs.declared.oem.Oem.{Oem};
ghost use Rattle.acpi_core.specs.Addition.{Adds};
ghost use Rattle.acpi_core.specs.Calls.{IsAfterItsCalls};
ghost use Rattle.acpi_core.specs.Listing.{bytes_of, length_limit};
ghost use Rattle.acpi_core.specs.Walk.{IsWalked, Keeps};
ghost use Rattle.acpi_lists.specs.Mcfg.{mcfg, ecam_bytes, ecam_fields};

use acpi_base::error::R;
use acpi_base::object::Aml;
use acpi_base::oem::Oem;
use acpi_base::row::{Record, Row, record_of_numbers};
use acpi_base::sink::AmlSink;
use acpi_core::form::Form;
use acpi_core::kind::Kind;
use acpi_core::table::Table;
use acpi_core::walked::{Walked, is_walked};
use std::alloc::Global;

/// The table of memory mapped configuration spaces of PCI (PCI Firmware Specification 3.3, 4.1.2). Its entries have 16 bytes each
/// and begin at offset 44.
#[derive(Drop)]
pub struct MCFG {
    table: Walked<McfgKind, 44>,
}

/// The kind of MCFG.
pub struct McfgKind;

impl Kind for McfgKind {
    ghost walk = { mcfg_walk };

    ghost ported = { true };

    ghost limit = { length_limit };

    ghost closed = { true };
}

impl Aml for MCFG {
    ghost object = { λ t. whole (bytes_of t.table.table) };

    ghost ends_well = { λ t. whole_ends_well (bytes_of t.table.table) };

    fn to_aml_bytes(&self, sink: &mut dyn AmlSink) -> R<()> {
        self.table.to_aml_bytes(sink)
    }
}

impl MCFG {
    /// A table without entries.
    pub fn new(alloc: Global, oem_id: [u8; 6], oem_table_id: [u8; 8], oem_revision: u32) -> MCFG
        ensures { result.table.table ≡ mcfg (record { id = oem_id; table_id = oem_table_id; revision = oem_revision }) }
    {
        let oem = Oem::new(oem_id, oem_table_id, oem_revision);
        let form = Form::new(*b"MCFG", 1, oem, 0);
        MCFG {
            table: Walked::of(Table::new(alloc, form, &[0; 8], &[])),
        }
    }

    /// Adds the configuration space of the buses `start_bus` to `end_bus` of a segment group, at a physical address. The error is
    /// `FieldWidth` if the length would reach 2^32.
    pub fn add_ecam(&mut self, base_addr: u64, segment: u16, start_bus: u8, end_bus: u8) -> R<()>
        ensures { Adds result self.old.table (whole (ecam_bytes base_addr segment start_bus end_bus)) self.new.table }
    {
        self.table.add_record(&Ecam {
            base_addr,
            segment,
            start_bus,
            end_bus,
        })
    }

    /// The number of bytes of the table.
    pub fn len(&self) -> usize
        ensures { result ≡ length (bytes_of self.now.table.table) }
    {
        self.table.len()
    }

    /// The number of entries.
    pub fn count(&self) -> u32
        ensures { result ≡ length self.now.table.table.structures }
    {
        self.table.count()
    }
}

/// A law: after any calls the table is correct. Its entries, in order, are the one list that the walk finds.
pub fn mcfg_is_walked(table: &MCFG)
    ensures keeps { Keeps true mcfg_walk length_limit true table.now.table.table }
    ensures walked { IsWalked true mcfg_walk table.now.table.table }
    ensures calls { (oem : Oem) → IsAfterItsCalls true mcfg_walk (mcfg oem) table.now.table }
{
    is_walked(&table.table)
}

/// An entry: the configuration space of a range of buses of a segment group.
#[derive(Drop)]
pub struct Ecam {
    base_addr: u64,
    segment: u16,
    start_bus: u8,
    end_bus: u8,
}

/// The rows of an entry of MCFG.
pub const ECAM: [Row; 5] = [
    Row::Hex("Base Address", 8),
    Row::Number("PCI Segment Group Number", 2),
    Row::Number("Start Bus Number", 1),
    Row::Number("End Bus Number", 1),
    Row::Reserved(4),
];

impl Record<16> for Ecam {
    ghost fields = { ecam_fields };

    fn rows() -> &'static [Row] {
        &ECAM
    }

    fn bytes(&self) -> [u8; 16] {
        record_of_numbers(
            &ECAM,
            &[
                self.base_addr,
                u64::from(self.segment),
                u64::from(self.start_bus),
                u64::from(self.end_bus),
                0,
            ],
        )
    }
}
