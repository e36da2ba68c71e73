//! NFIT: the persistent memory of a machine.

ghost use Rattle.std.specs.Prelude.{◌≡◌, false, true, length};
ghost use Rattle.acpi_base.specs.Fields.{AreRowsOf};
ghost use Rattle.acpi_base.specs.FurtherWalk.{nfit_walk};
ghost use Rattle.acpi_base.specs.Object.{whole, whole_ends_well};
ghost use Rattle.acpi_base.specs.declared.oem.Oem.{Oem};
ghost use Rattle.acpi_core.specs.Addition.{Adds};
ghost use Rattle.acpi_core.specs.Calls.{IsAfterItsCalls};
ghost use Rattle.acpi_core.specs.Listing.{bytes_of, length_limit};
ghost use Rattle.acpi_core.specs.Walk.{IsWalked, Keeps};
ghost use Rattle.acpi_pc.specs.Nfit.{nfit, nfit_fields, spa_bytes, mapping_bytes, control_bytes, window_bytes};
ghost use Rattle.acpi_pc.specs.NfitLists.{interleave_bytes, smbios_bytes, flush_bytes, capabilities_bytes};
ghost use Rattle.acpi_pc.specs.NfitLaws.{StructuresTellKinds, ListsAreRead};

mod lists;
mod platform;
mod ranges;
mod regions;

use acpi_base::error::R;
use acpi_base::object::Aml;
use acpi_base::oem::Oem;
use acpi_base::row::Row;
use acpi_base::sink::AmlSink;
use acpi_core::form::Form;
use acpi_core::kind::Kind;
use acpi_core::table::Table;
use acpi_core::walked::{Walked, is_walked};
pub use lists::{FLUSH_HINT, FlushHint, INTERLEAVE, Interleave, flush_hint_rows, interleave_rows};
pub use platform::{
    CAPABILITIES, Capabilities, SMBIOS_INFORMATION, SmbiosInformation, smbios_rows,
};
pub use ranges::{RangeType, SPA_RANGE, SpaRange, spa_range_rows};
pub use regions::{
    BlockWindows, CONTROL_REGION, ControlRegion, DATA_WINDOW, DataWindow, REGION_MAPPING,
    RegionMapping,
};
use std::alloc::Global;

/// The NVDIMM Firmware Interface Table (ACPI 6.5, 5.2.26), revision 1. Its structures begin at offset 40. Each contains its type
/// at offset 0 and its length in bytes at offset 2, each in two bytes.
#[derive(Drop)]
pub struct NFIT {
    table: Walked<NfitKind, 40>,
}

/// The kind of NFIT.
pub struct NfitKind;

impl Kind for NfitKind {
    ghost walk = { nfit_walk };

    ghost ported = { false };

    ghost limit = { length_limit };

    ghost closed = { true };
}

impl Aml for NFIT {
    ghost object = { λ t. whole (bytes_of t.table.table) };

    ghost ends_well = { λ t. whole_ends_well (bytes_of t.table.table) };

    fn to_aml_bytes(&self, sink: &mut dyn AmlSink) -> R<()> {
        self.table.to_aml_bytes(sink)
    }
}

impl NFIT {
    /// A table without structures.
    pub fn new(alloc: Global, oem_id: [u8; 6], oem_table_id: [u8; 8], oem_revision: u32) -> NFIT
        ensures { result.table.table ≡ nfit (record { id = oem_id; table_id = oem_table_id; revision = oem_revision }) }
    {
        let oem = Oem::new(oem_id, oem_table_id, oem_revision);
        let form = Form::new(*b"NFIT", 1, oem, 0);
        NFIT {
            table: Walked::of(Table::new(alloc, form, &[0; 4], &[])),
        }
    }

    /// Adds a range of physical addresses. The error is `FieldWidth` if the table's length would reach 2^32.
    pub fn add_spa_range(&mut self, range: SpaRange) -> R<()>
        ensures { Adds result self.old.table (whole (spa_bytes range)) self.new.table }
    {
        self.table.add_object(&range)
    }

    /// Adds a part of a module that is in a range. The error is `FieldWidth` if the table's length would reach 2^32.
    pub fn add_region_mapping(&mut self, mapping: RegionMapping) -> R<()>
        ensures { Adds result self.old.table (whole (mapping_bytes mapping)) self.new.table }
    {
        self.table.add_record(&mapping)
    }

    /// Adds a pattern in which modules are interleaved. The error is `FieldWidth` if the table's length would reach 2^32.
    pub fn add_interleave(&mut self, interleave: Interleave) -> R<()>
        ensures { Adds result self.old.table (whole (interleave_bytes interleave)) self.new.table }
    {
        self.table.add_object(&interleave)
    }

    /// Adds SMBIOS structures. The error is `FieldWidth` if the table's length would reach 2^32.
    pub fn add_smbios_information(&mut self, information: SmbiosInformation) -> R<()>
        ensures { Adds result self.old.table (whole (smbios_bytes information)) self.new.table }
    {
        self.table.add_object(&information)
    }

    /// Adds the identity of modules and their block control windows. The error is `FieldWidth` if the table's length would reach
    /// 2^32.
    pub fn add_control_region(&mut self, region: ControlRegion) -> R<()>
        ensures { Adds result self.old.table (whole (control_bytes region)) self.new.table }
    {
        self.table.add_record(&region)
    }

    /// Adds block data windows. The error is `FieldWidth` if the table's length would reach 2^32.
    pub fn add_data_window(&mut self, window: DataWindow) -> R<()>
        ensures { Adds result self.old.table (whole (window_bytes window)) self.new.table }
    {
        self.table.add_record(&window)
    }

    /// Adds the flush hint addresses of a module. The error is `FieldWidth` if the table's length would reach 2^32.
    pub fn add_flush_hint(&mut self, hint: FlushHint) -> R<()>
        ensures { Adds result self.old.table (whole (flush_bytes hint)) self.new.table }
    {
        self.table.add_object(&hint)
    }

    /// Adds the capabilities of the platform. The error is `FieldWidth` if the table's length would reach 2^32.
    pub fn add_capabilities(&mut self, capabilities: Capabilities) -> R<()>
        ensures { Adds result self.old.table (whole (capabilities_bytes capabilities)) self.new.table }
    {
        self.table.add_record(&capabilities)
    }

    /// The number of bytes of the table.
    pub fn len(&self) -> usize
        ensures { result ≡ length (bytes_of self.now.table.table) }
    {
        self.table.len()
    }

    /// The number of structures.
    pub fn count(&self) -> u32
        ensures { result ≡ length self.now.table.table.structures }
    {
        self.table.count()
    }
}

/// The rows of an NFIT after its header.
pub const NFIT_FIXED: [Row; 1] = [Row::Reserved(4)];

/// The rows of the fields between the header and the first structure, in order.
pub fn nfit_rows() -> &'static [Row]
    ensures { AreRowsOf result.now nfit_fields }
{
    &NFIT_FIXED
}

/// A law: after any calls the table is correct. Its structures, in order, are the one list that the walk finds.
pub fn nfit_is_walked(table: &NFIT)
    ensures keeps { Keeps false nfit_walk length_limit true table.now.table.table }
    ensures walked { IsWalked false nfit_walk table.now.table.table }
    ensures calls { (oem : Oem) → IsAfterItsCalls false nfit_walk (nfit oem) table.now.table }
{
    is_walked(&table.table)
}

/// A law: each structure begins with its type, for all values of its fields.
pub fn nfit_structures_tell_kinds()
    ensures { StructuresTellKinds }
{}

/// A law: the bytes of a structure contain the number of entries of its list, and have the list after its own fields.
pub fn nfit_lists_are_read()
    ensures { ListsAreRead }
{}
