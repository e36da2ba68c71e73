//! IVRS: the IOMMUs of AMD.

ghost use Rattle.std.specs.Prelude.{◌≡◌, ℕ, false, true, length};
ghost use Rattle.acpi_base.specs.Fields.{AreRowsOf};
ghost use Rattle.acpi_base.specs.FurtherWalk.{ivrs_walk};
ghost use Rattle.acpi_base.specs.Object.{whole, whole_ends_well};
ghost use Rattle.acpi_base.specs.declared.oem.Oem.{Oem};
ghost use Rattle.acpi_core.specs.Addition.{Adds};
ghost use Rattle.acpi_core.specs.Calls.{IsAfterItsCalls};
ghost use Rattle.acpi_core.specs.Listing.{bytes_of, length_limit};
ghost use Rattle.acpi_core.specs.Walk.{IsWalked, Keeps};
ghost use Rattle.acpi_pc.specs.Ivrs.{ivrs_of, ivrs_fields, ivhd_bytes, extended_ivhd_bytes, ivmd_bytes};
ghost use Rattle.acpi_pc.specs.IvrsLaws.{BlocksTellKinds, EntriesAreRead};
ghost use Rattle.acpi_pc.specs.declared.ivrs.info.IvInfo.{IvInfo};

mod acpi_device;
mod entries;
mod info;
mod memory;
mod units;

use acpi_base::error::R;
use acpi_base::object::Aml;
use acpi_base::oem::Oem;
use acpi_base::row::{Bits, Row, record_of_numbers};
use acpi_base::sink::AmlSink;
use acpi_core::form::Form;
use acpi_core::kind::Kind;
use acpi_core::table::Table;
use acpi_core::walked::{Walked, is_walked};
pub use acpi_device::{ACPI_DEVICE, AcpiDevice, acpi_device_rows};
pub use entries::{
    DeviceEntry, EXTENDED, OF_ALIAS, OF_DEVICE, SPECIAL_DEVICE, SpecialDevice, alias_rows,
    device_rows, extended_rows, special_rows,
};
pub use info::IvInfo;
pub use memory::{IVMD, Ivmd, Peripherals};
use std::alloc::Global;
pub use units::{
    EXTENDED_IVHD, ExtendedIvhd, ExtendedType, IVHD, Iommu, Ivhd, extended_ivhd_rows, ivhd_rows,
};

/// The I/O Virtualization Reporting Structure (AMD 48882, AMD I/O Virtualization Technology Specification 3.07, 5.2). Its blocks
/// begin at offset 48. Each contains its type at offset 0, in one byte, and its length in bytes at offset 2, in two.
#[derive(Drop)]
pub struct IVRS {
    table: Walked<IvrsKind, 48>,
}

/// The kind of IVRS.
pub struct IvrsKind;

impl Kind for IvrsKind {
    ghost walk = { ivrs_walk };

    ghost ported = { false };

    ghost limit = { length_limit };

    ghost closed = { true };
}

impl Aml for IVRS {
    ghost object = { λ t. whole (bytes_of t.table.table) };

    ghost ends_well = { λ t. whole_ends_well (bytes_of t.table.table) };

    fn to_aml_bytes(&self, sink: &mut dyn AmlSink) -> R<()> {
        self.table.to_aml_bytes(sink)
    }
}

impl IVRS {
    /// A table of revision 2, which may have blocks of each type, without blocks.
    pub fn new(
        alloc: Global,
        oem_id: [u8; 6],
        oem_table_id: [u8; 8],
        oem_revision: u32,
        info: IvInfo,
    ) -> IVRS
        ensures { result.table.table
            ≡ ivrs_of 2 (record { id = oem_id; table_id = oem_table_id; revision = oem_revision }) info }
    {
        IVRS::of_revision(alloc, 2, oem_id, oem_table_id, oem_revision, info)
    }

    /// A table of a revision without blocks. In revision 1 the only IVHD is that of type 10h.
    pub fn of_revision(
        alloc: Global,
        revision: u8,
        oem_id: [u8; 6],
        oem_table_id: [u8; 8],
        oem_revision: u32,
        info: IvInfo,
    ) -> IVRS
        ensures { result.table.table
            ≡ ivrs_of revision (record { id = oem_id; table_id = oem_table_id; revision = oem_revision }) info }
    {
        let oem = Oem::new(oem_id, oem_table_id, oem_revision);
        let form = Form::new(*b"IVRS", revision, oem, 0);
        let before: [u8; 12] = record_of_numbers(&IVRS_FIXED, &[u64::from(info.number), 0]);
        IVRS {
            table: Walked::of(Table::new(alloc, form, &before, &[])),
        }
    }

    /// Adds an IOMMU as a block of type 10h. The error is `FieldWidth` if the table's length would reach 2^32.
    pub fn add_ivhd(&mut self, unit: Ivhd) -> R<()>
        ensures { Adds result self.old.table (whole (ivhd_bytes unit)) self.new.table }
    {
        self.table.add_object(&unit)
    }

    /// Adds an IOMMU as a block of type 11h or 40h. The error is `FieldWidth` if the table's length would reach 2^32.
    pub fn add_extended_ivhd(&mut self, unit: ExtendedIvhd) -> R<()>
        ensures { Adds result self.old.table (whole (extended_ivhd_bytes unit)) self.new.table }
    {
        self.table.add_object(&unit)
    }

    /// Adds a region of memory. The error is `FieldWidth` if the table's length would reach 2^32.
    pub fn add_ivmd(&mut self, memory: Ivmd) -> R<()>
        ensures { Adds result self.old.table (whole (ivmd_bytes memory)) self.new.table }
    {
        self.table.add_record(&memory)
    }

    /// The number of bytes of the table.
    pub fn len(&self) -> usize
        ensures { result ≡ length (bytes_of self.now.table.table) }
    {
        self.table.len()
    }

    /// The number of blocks.
    pub fn count(&self) -> u32
        ensures { result ≡ length self.now.table.table.structures }
    {
        self.table.count()
    }
}

/// The rows of an IVRS after its header.
pub const IVRS_FIXED: [Row; 2] = [
    Row::Flags(
        "IVinfo",
        4,
        &[
            Bits::Flag(0x1, "EFRSup"),
            Bits::Flag(0x2, "DmaRemapSup"),
            Bits::Number(0xe0, 0x20, "GVASize"),
            Bits::Number(0x7f00, 0x100, "PASize"),
            Bits::Number(0x3f_8000, 0x8000, "VASize"),
            Bits::Flag(0x40_0000, "HtAtsResv"),
        ],
    ),
    Row::Reserved(8),
];

/// The rows of the fields between the header and the first block, in order.
pub fn ivrs_rows() -> &'static [Row]
    ensures { (info : IvInfo) → AreRowsOf result.now (ivrs_fields info) }
{
    &IVRS_FIXED
}

/// A law: after any calls the table is correct. Its blocks, in order, are the one list that the walk finds.
pub fn ivrs_is_walked(table: &IVRS)
    ensures keeps { Keeps false ivrs_walk length_limit true table.now.table.table }
    ensures walked { IsWalked false ivrs_walk table.now.table.table }
    ensures calls { (revision : ℕ) (oem : Oem) (info : IvInfo)
        → IsAfterItsCalls false ivrs_walk (ivrs_of revision oem info) table.now.table }
{
    is_walked(&table.table)
}

/// A law: each block begins with its type, for all values of its fields.
pub fn ivrs_blocks_tell_kinds()
    ensures { BlocksTellKinds }
{}

/// A law: the bytes of an IOMMU have its entries after its own fields, and each entry has the length of its type.
pub fn ivrs_entries_are_read()
    ensures { EntriesAreRead }
{}
