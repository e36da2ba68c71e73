//! RSDT: the addresses of the other tables.

ghost use Rattle.std.specs.Prelude.{◌≡◌, false, true, length};
ghost use Rattle.acpi_base.specs.Bytes.{le};
ghost use Rattle.acpi_base.specs.Object.{whole, whole_ends_well};
ghost use Rattle.acpi_base.specs.FurtherWalk.{rsdt_walk};
ghost use Rattle.acpi_base.specs.declared.oem.Oem.{Oem};
ghost use Rattle.acpi_core.specs.Calls.{IsAfterItsCalls};
ghost use Rattle.acpi_core.specs.Listing.{bytes_of, length_limit};
ghost use Rattle.acpi_core.specs.Walk.{IsWalked, Keeps};
ghost use Rattle.acpi_core.specs.Addition.{Adds};
ghost use Rattle.acpi_pc.specs.Rsdt.{rsdt, entry_fields};

use acpi_base::error::R;
use acpi_base::object::Aml;
use acpi_base::oem::Oem;
use acpi_base::row::{Record, Row};
use acpi_base::sink::AmlSink;
use acpi_core::form::Form;
use acpi_core::kind::Kind;
use acpi_core::table::Table;
use acpi_core::walked::{Walked, is_walked};
use std::alloc::Global;

/// The Root System Description Table (ACPI 6.5, 5.2.7), revision 1. Its entries are the physical addresses of the other tables
/// below 4 GiB, and begin at offset 36.
#[derive(Drop)]
pub struct RSDT {
    table: Walked<RsdtKind, 36>,
}

/// The kind of RSDT.
pub struct RsdtKind;

impl Kind for RsdtKind {
    ghost walk = { rsdt_walk };

    ghost ported = { false };

    ghost limit = { length_limit };

    ghost closed = { true };
}

impl Aml for RSDT {
    ghost object = { λ t. whole (bytes_of t.table.table) };

    ghost ends_well = { λ t. whole_ends_well (bytes_of t.table.table) };

    fn to_aml_bytes(&self, sink: &mut dyn AmlSink) -> R<()> {
        self.table.to_aml_bytes(sink)
    }
}

impl RSDT {
    /// A table without entries.
    pub fn new(alloc: Global, oem_id: [u8; 6], oem_table_id: [u8; 8], oem_revision: u32) -> RSDT
        ensures { result.table.table ≡ rsdt (record { id = oem_id; table_id = oem_table_id; revision = oem_revision }) }
    {
        let oem = Oem::new(oem_id, oem_table_id, oem_revision);
        let form = Form::new(*b"RSDT", 1, oem, 0);
        RSDT {
            table: Walked::of(Table::new(alloc, form, &[], &[])),
        }
    }

    /// Adds the physical address of a table. The error is `FieldWidth` if the length would reach 2^32.
    pub fn add_entry(&mut self, entry: u32) -> R<()>
        ensures { Adds result self.old.table (whole (le 4 entry)) self.new.table }
    {
        self.table.add_record(&Entry { address: entry })
    }

    /// The number of bytes of the table.
    pub fn len(&self) -> usize
        ensures { result ≡ length (bytes_of self.now.table.table) }
    {
        self.table.len()
    }

    /// The number of entries.
    pub fn count(&self) -> u32
        ensures { result ≡ length self.now.table.table.structures }
    {
        self.table.count()
    }
}

/// A law: after any calls the table is correct. Its entries, in order, are the one list that the walk finds.
pub fn rsdt_is_walked(table: &RSDT)
    ensures keeps { Keeps false rsdt_walk length_limit true table.now.table.table }
    ensures walked { IsWalked false rsdt_walk table.now.table.table }
    ensures calls { (oem : Oem) → IsAfterItsCalls false rsdt_walk (rsdt oem) table.now.table }
{
    is_walked(&table.table)
}

/// An entry: the physical address of a table.
#[derive(Drop)]
pub struct Entry {
    address: u32,
}

/// The rows of an entry of an RSDT.
pub const RSDT_ENTRY: [Row; 1] = [Row::Hex("Entry", 4)];

impl Record<4> for Entry {
    ghost fields = { entry_fields };

    fn rows() -> &'static [Row] {
        &RSDT_ENTRY
    }

    fn bytes(&self) -> [u8; 4] {
        self.address.to_le_bytes()
    }
}
