//! PCCT: the channels by which an operating system speaks with controllers of a platform.

ghost use Rattle.std.specs.Prelude.{◌≡◌, ℕ, false, true, length};
ghost use Rattle.acpi_base.specs.Fields.{AreRowsOf};
ghost use Rattle.acpi_base.specs.FurtherWalk.{pcct_walk};
ghost use Rattle.acpi_base.specs.Object.{whole, whole_ends_well};
ghost use Rattle.acpi_base.specs.declared.oem.Oem.{Oem};
ghost use Rattle.acpi_core.specs.Addition.{Adds};
ghost use Rattle.acpi_core.specs.Calls.{IsAfterItsCalls};
ghost use Rattle.acpi_core.specs.Listing.{bytes_of, length_limit};
ghost use Rattle.acpi_core.specs.Walk.{IsWalked, Keeps};
ghost use Rattle.acpi_pc.specs.Pcct.{pcct, pcct_fields, generic_bytes, reduced_bytes, acknowledged_bytes, extended_bytes};
ghost use Rattle.acpi_pc.specs.Pcct.{registers_bytes};
ghost use Rattle.acpi_pc.specs.PcctLaws.{SubspacesTellKinds};

mod channel;
mod extended;
mod subspaces;

use acpi_base::error::R;
use acpi_base::object::Aml;
use acpi_base::oem::Oem;
use acpi_base::row::{Bits, Row, record_of_numbers};
use acpi_base::sink::AmlSink;
use acpi_core::form::Form;
use acpi_core::kind::Kind;
use acpi_core::table::Table;
use acpi_core::walked::{Walked, is_walked};
pub use channel::{Channel, Doorbell, Interrupt};
pub use extended::{
    EXTENDED_SUBSPACE, ExtendedChannel, ExtendedSubspace, Masked, REGISTERS_SUBSPACE,
    RegisterChannel, RegistersSubspace, Role,
};
use std::alloc::Global;
pub use subspaces::{
    ACKNOWLEDGED_SUBSPACE, AcknowledgedSubspace, GENERIC_SUBSPACE, GenericSubspace,
    REDUCED_SUBSPACE, ReducedSubspace,
};

/// The flag of a table that says that channels can interrupt the processors.
pub const PLATFORM_INTERRUPT: u32 = 1;

/// The Platform Communications Channel Table (ACPI 6.5, 14.1), revision 2. Its subspaces begin at offset 48. Each contains its
/// type at offset 0 and its length in bytes at offset 1.
#[derive(Drop)]
pub struct PCCT {
    table: Walked<PcctKind, 48>,
}

/// The kind of PCCT.
pub struct PcctKind;

impl Kind for PcctKind {
    ghost walk = { pcct_walk };

    ghost ported = { false };

    ghost limit = { length_limit };

    ghost closed = { true };
}

impl Aml for PCCT {
    ghost object = { λ t. whole (bytes_of t.table.table) };

    ghost ends_well = { λ t. whole_ends_well (bytes_of t.table.table) };

    fn to_aml_bytes(&self, sink: &mut dyn AmlSink) -> R<()> {
        self.table.to_aml_bytes(sink)
    }
}

impl PCCT {
    /// A table without subspaces. The flags (offset 36) are `PLATFORM_INTERRUPT`, or 0.
    pub fn new(
        alloc: Global,
        oem_id: [u8; 6],
        oem_table_id: [u8; 8],
        oem_revision: u32,
        flags: u32,
    ) -> PCCT
        ensures { result.table.table
            ≡ pcct (record { id = oem_id; table_id = oem_table_id; revision = oem_revision }) flags }
    {
        let oem = Oem::new(oem_id, oem_table_id, oem_revision);
        let form = Form::new(*b"PCCT", 2, oem, 0);
        let before: [u8; 12] = record_of_numbers(&PCCT_FIXED, &[u64::from(flags), 0]);
        PCCT {
            table: Walked::of(Table::new(alloc, form, &before, &[])),
        }
    }

    /// Adds a channel without an interrupt (type 0). The error is `FieldWidth` if the table's length would reach 2^32.
    pub fn add_generic(&mut self, subspace: GenericSubspace) -> R<()>
        ensures { Adds result self.old.table (whole (generic_bytes subspace)) self.new.table }
    {
        self.table.add_record(&subspace)
    }

    /// Adds a channel with an interrupt (type 1). The error is `FieldWidth` if the table's length would reach 2^32.
    pub fn add_reduced(&mut self, subspace: ReducedSubspace) -> R<()>
        ensures { Adds result self.old.table (whole (reduced_bytes subspace)) self.new.table }
    {
        self.table.add_record(&subspace)
    }

    /// Adds a channel with an interrupt that is acknowledged (type 2). The error is `FieldWidth` if the table's length would
    /// reach 2^32.
    pub fn add_acknowledged(&mut self, subspace: AcknowledgedSubspace) -> R<()>
        ensures { Adds result self.old.table (whole (acknowledged_bytes subspace)) self.new.table }
    {
        self.table.add_record(&subspace)
    }

    /// Adds an extended channel (type 3 or 4). The error is `FieldWidth` if the table's length would reach 2^32.
    pub fn add_extended(&mut self, subspace: ExtendedSubspace) -> R<()>
        ensures { Adds result self.old.table (whole (extended_bytes subspace)) self.new.table }
    {
        self.table.add_record(&subspace)
    }

    /// Adds a channel of registers (type 5). The error is `FieldWidth` if the table's length would reach 2^32.
    pub fn add_registers(&mut self, subspace: RegistersSubspace) -> R<()>
        ensures { Adds result self.old.table (whole (registers_bytes subspace)) self.new.table }
    {
        self.table.add_record(&subspace)
    }

    /// The number of bytes of the table.
    pub fn len(&self) -> usize
        ensures { result ≡ length (bytes_of self.now.table.table) }
    {
        self.table.len()
    }

    /// The number of subspaces.
    pub fn count(&self) -> u32
        ensures { result ≡ length self.now.table.table.structures }
    {
        self.table.count()
    }
}

/// The rows of a PCCT after its header.
pub const PCCT_FIXED: [Row; 2] = [
    Row::Flags("Flags", 4, &[Bits::Flag(0x1, "Platform Interrupt")]),
    Row::Reserved(8),
];

/// The rows of the fields between the header and the first subspace, in order.
pub fn pcct_rows() -> &'static [Row]
    ensures { (flags : ℕ) → AreRowsOf result.now (pcct_fields flags) }
{
    &PCCT_FIXED
}

/// A law: after any calls the table is correct. Its subspaces, in order, are the one list that the walk finds.
pub fn pcct_is_walked(table: &PCCT)
    ensures keeps { Keeps false pcct_walk length_limit true table.now.table.table }
    ensures walked { IsWalked false pcct_walk table.now.table.table }
    ensures calls { (oem : Oem) (flags : ℕ) → IsAfterItsCalls false pcct_walk (pcct oem flags) table.now.table }
{
    is_walked(&table.table)
}

/// A law: each subspace begins with its type and its length, for all values of its fields.
pub fn pcct_subspaces_tell_kinds()
    ensures { SubspacesTellKinds }
{}
