//! FPDT: where the times of the firmware's work are.

ghost use Rattle.std.specs.Prelude.{◌≡◌, false, true, length};
ghost use Rattle.acpi_base.specs.Object.{whole, whole_ends_well};
ghost use Rattle.acpi_base.specs.FurtherWalk.{fpdt_walk};
ghost use Rattle.acpi_base.specs.declared.oem.Oem.{Oem};
ghost use Rattle.acpi_core.specs.Calls.{IsAfterItsCalls};
ghost use Rattle.acpi_core.specs.Listing.{bytes_of, length_limit};
ghost use Rattle.acpi_core.specs.Walk.{IsWalked, Keeps};
ghost use Rattle.acpi_core.specs.Addition.{Adds};
ghost use Rattle.acpi_pc.specs.Fpdt.{fpdt, boot_fields, boot_bytes, s3_fields, s3_bytes};

use acpi_base::error::R;
use acpi_base::object::Aml;
use acpi_base::oem::Oem;
use acpi_base::row::{Record, Row, record_of_numbers};
use acpi_base::sink::AmlSink;
use acpi_core::form::Form;
use acpi_core::kind::Kind;
use acpi_core::table::Table;
use acpi_core::walked::{Walked, is_walked};
use std::alloc::Global;

/// The Firmware Performance Data Table (ACPI 6.5, 5.2.24), revision 1. Its records begin at offset 36. Each contains its type in
/// two bytes at offset 0, and its length in bytes at offset 2.
#[derive(Drop)]
pub struct FPDT {
    table: Walked<FpdtKind, 36>,
}

/// The kind of FPDT.
pub struct FpdtKind;

impl Kind for FpdtKind {
    ghost walk = { fpdt_walk };

    ghost ported = { false };

    ghost limit = { length_limit };

    ghost closed = { true };
}

impl Aml for FPDT {
    ghost object = { λ t. whole (bytes_of t.table.table) };

    ghost ends_well = { λ t. whole_ends_well (bytes_of t.table.table) };

    fn to_aml_bytes(&self, sink: &mut dyn AmlSink) -> R<()> {
        self.table.to_aml_bytes(sink)
    }
}

impl FPDT {
    /// A table without records.
    pub fn new(alloc: Global, oem_id: [u8; 6], oem_table_id: [u8; 8], oem_revision: u32) -> FPDT
        ensures { result.table.table ≡ fpdt (record { id = oem_id; table_id = oem_table_id; revision = oem_revision }) }
    {
        let oem = Oem::new(oem_id, oem_table_id, oem_revision);
        let form = Form::new(*b"FPDT", 1, oem, 0);
        FPDT {
            table: Walked::of(Table::new(alloc, form, &[], &[])),
        }
    }

    /// Adds the record of a Firmware Basic Boot Performance Table (type 0): its physical address (offset 8). The error is
    /// `FieldWidth` if the length would reach 2^32.
    pub fn add_boot_pointer(&mut self, address: u64) -> R<()>
        ensures { Adds result self.old.table (whole (boot_bytes address)) self.new.table }
    {
        self.table.add_record(&BootPointer { address })
    }

    /// Adds the record of an S3 Performance Table (type 1): its physical address (offset 8). The error is `FieldWidth` if the
    /// length would reach 2^32.
    pub fn add_s3_pointer(&mut self, address: u64) -> R<()>
        ensures { Adds result self.old.table (whole (s3_bytes address)) self.new.table }
    {
        self.table.add_record(&S3Pointer { address })
    }

    /// The number of bytes of the table.
    pub fn len(&self) -> usize
        ensures { result ≡ length (bytes_of self.now.table.table) }
    {
        self.table.len()
    }

    /// The number of records.
    pub fn count(&self) -> u32
        ensures { result ≡ length self.now.table.table.structures }
    {
        self.table.count()
    }
}

/// A law: after any calls the table is correct. Its records, in order, are the one list that the walk finds.
pub fn fpdt_is_walked(table: &FPDT)
    ensures keeps { Keeps false fpdt_walk length_limit true table.now.table.table }
    ensures walked { IsWalked false fpdt_walk table.now.table.table }
    ensures calls { (oem : Oem) → IsAfterItsCalls false fpdt_walk (fpdt oem) table.now.table }
{
    is_walked(&table.table)
}

/// The record of a Firmware Basic Boot Performance Table.
#[derive(Drop)]
pub struct BootPointer {
    address: u64,
}

/// Its rows.
pub const BOOT_POINTER: [Row; 5] = [
    Row::Preset("Performance Record Type", 2, 0),
    Row::Preset("Record Length", 1, 16),
    Row::Preset("Revision", 1, 1),
    Row::Reserved(4),
    Row::Hex("FBPT Pointer", 8),
];

impl Record<16> for BootPointer {
    ghost fields = { boot_fields };

    fn rows() -> &'static [Row] {
        &BOOT_POINTER
    }

    fn bytes(&self) -> [u8; 16] {
        record_of_numbers(&BOOT_POINTER, &[0, 16, 1, 0, self.address])
    }
}

/// The record of an S3 Performance Table.
#[derive(Drop)]
pub struct S3Pointer {
    address: u64,
}

/// Its rows.
pub const S3_POINTER: [Row; 5] = [
    Row::Preset("Performance Record Type", 2, 1),
    Row::Preset("Record Length", 1, 16),
    Row::Preset("Revision", 1, 1),
    Row::Reserved(4),
    Row::Hex("S3PT Pointer", 8),
];

impl Record<16> for S3Pointer {
    ghost fields = { s3_fields };

    fn rows() -> &'static [Row] {
        &S3_POINTER
    }

    fn bytes(&self) -> [u8; 16] {
        record_of_numbers(&S3_POINTER, &[1, 16, 1, 0, self.address])
    }
}
