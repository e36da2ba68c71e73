//! MADT: the interrupt controllers of a machine.

ghost use Rattle.acpi_core.specs.Flat.{number_up_to};
ghost use Rattle.std.specs.Prelude.{◌≡◌, ℕ, false, true, length};
ghost use Rattle.acpi_base.specs.Fields.{AreRowsOf};
ghost use Rattle.acpi_base.specs.Object.{whole, whole_ends_well};
ghost use Rattle.acpi_base.specs.Table.{IsTrueTable};
ghost use Rattle.acpi_base.specs.Walk.{madt_walk, ArePieces};
ghost use Rattle.acpi_base.specs.declared.oem.Oem.{Oem};
ghost use Rattle.acpi_core.specs.Addition.{Adds};
ghost use Rattle.acpi_core.specs.Calls.{IsAfterItsCalls};
ghost use Rattle.acpi_core.specs.Listing.{bytes_of, length_limit};
ghost use Rattle.acpi_core.specs.Walk.{IsWalked, Keeps};
ghost use Rattle.acpi_lists.specs.Madt.{controller_address, madt_fields_of, madt, madt_of, AddsImsic, StructuresTellTheirLength};
ghost use Rattle.acpi_lists.specs.MadtRiscv.{imsic_bytes};
ghost use Rattle.acpi_lists.specs.declared.madt.LocalInterruptController.{LocalInterruptController};

mod arm;
mod interrupts;
mod local_apics;
mod riscv;
mod x86;

use acpi_base::error::{Error, R};
use acpi_base::object::Aml;
use acpi_base::oem::Oem;
use acpi_base::row::{Bits, Row, record_of_numbers};
use acpi_base::sink::AmlSink;
use acpi_core::form::Form;
use acpi_core::kind::Kind;
use acpi_core::table::Table;
use acpi_core::walked::{Walked, is_walked};
pub use arm::{
    EARLIER_GICC, EarlierGicc, GIC_ITS, GIC_MSI, GICC, GICD, GICR, GicIts, GicMsi, GicVersion,
    Gicc, Gicd, Gicr, Trigger,
};
pub use interrupts::{
    INTERRUPT_SOURCE_OVERRIDE, InterruptSourceOverride, LOCAL_APIC_NMI, LOCAL_X2APIC_NMI,
    LocalApicNmi, LocalX2ApicNmi, NMI_SOURCE, NmiSource, Polarity, TriggerMode,
};
pub use local_apics::{
    LOCAL_APIC_ADDRESS_OVERRIDE, LocalApicAddressOverride, PROCESSOR_LOCAL_X2APIC,
    ProcessorLocalX2Apic,
};
pub use riscv::{
    APLIC, APLIC_ROWS, HartStatus, IMSIC, IMSIC_ROWS, PLIC, PLIC_ROWS, RINTC, RINTC_ROWS,
};
use std::alloc::Global;
pub use x86::{IO_APIC, IoApic, PROCESSOR_LOCAL_APIC, ProcessorLocalApic};

/// The address of the local interrupt controllers (ACPI 6.5, 5.2.12, offset 36): a physical address, or 0 on RISC-V, whose local
/// controllers aren't in memory.
#[derive(Clone, Copy, Debug, PartialEq)]
pub enum LocalInterruptController {
    Riscv,
    Address(u32),
}

impl LocalInterruptController {
    fn address(self) -> u32
        ensures { result ≡ controller_address self }
    {
        match self {
            LocalInterruptController::Riscv => 0,
            LocalInterruptController::Address(address) => address,
        }
    }
}

/// Whether a processor is enabled, or can be brought online later (ACPI 6.5, 5.2.12.2, 5.2.12.12 and 5.2.12.14).
#[derive(Clone, Copy, Debug, PartialEq)]
pub enum EnabledStatus {
    Disabled = 0,
    Enabled = 1,
    DisabledOnlineCapable = 2,
}

/// The flag of `MADT::of_revision` that says that the machine has two 8259 controllers (ACPI 6.5, 5.2.12).
pub const PCAT_COMPAT: u32 = 1;

/// The Multiple APIC Description Table (ACPI 6.5, 5.2.12). Its structures begin at offset 44. Each contains its type at offset 0
/// and its length in bytes at offset 1.
#[derive(Drop)]
pub struct MADT {
    table: Walked<MadtKind, 44>,
    has_imsic: bool,
}

/// The kind of MADT. A caller may add structures of other types.
pub struct MadtKind;

impl Kind for MadtKind {
    ghost walk = { madt_walk };

    ghost ported = { true };

    ghost limit = { length_limit };

    ghost closed = { false };
}

impl Aml for MADT {
    ghost object = { λ t. whole (bytes_of t.table.table) };

    ghost ends_well = { λ t. whole_ends_well (bytes_of t.table.table) };

    fn to_aml_bytes(&self, sink: &mut dyn AmlSink) -> R<()> {
        self.table.to_aml_bytes(sink)
    }
}

impl MADT {
    /// A table without structures. Its flags (offset 40) are 0: it doesn't say that the machine has two 8259 controllers
    /// (PCAT_COMPAT).
    pub fn new(
        alloc: Global,
        oem_id: [u8; 6],
        oem_table_id: [u8; 8],
        oem_revision: u32,
        int: LocalInterruptController,
    ) -> MADT
        ensures table { result.table.table
            ≡ madt (record { id = oem_id; table_id = oem_table_id; revision = oem_revision }) int }
        ensures imsic { result.has_imsic ≡ false }
    {
        MADT::of_revision(alloc, 1, oem_id, oem_table_id, oem_revision, int, 0)
    }

    /// A table of a revision without structures, and with flags (offset 40): `PCAT_COMPAT` if the machine has two 8259
    /// controllers. Revision 5 is that of ACPI 6.3, and 6 that of ACPI 6.5.
    pub fn of_revision(
        alloc: Global,
        revision: u8,
        oem_id: [u8; 6],
        oem_table_id: [u8; 8],
        oem_revision: u32,
        int: LocalInterruptController,
        flags: u32,
    ) -> MADT
        ensures table { result.table.table
            ≡ madt_of revision (record { id = oem_id; table_id = oem_table_id; revision = oem_revision }) int flags }
        ensures imsic { result.has_imsic ≡ false }
    {
        let oem = Oem::new(oem_id, oem_table_id, oem_revision);
        let form = Form::new(*b"APIC", revision, oem, 0);
        let before: [u8; 8] = record_of_numbers(
            &MADT_FIXED,
            &[u64::from(int.address()), u64::from(flags)],
        );
        MADT {
            table: Walked::of(Table::new(alloc, form, &before, &[])),
            has_imsic: false,
        }
    }

    /// Adds a structure with the bytes that it writes. The error is the structure's own, or `FieldWidth` if the length would
    /// reach 2^32.
    pub fn add_structure<T: Aml + Drop>(&mut self, structure: T) -> R<()>
        ensures adds { Adds result self.old.table (T.object structure) self.new.table }
        ensures imsic { self.new.has_imsic ≡ self.old.has_imsic }
    {
        self.table.add_object(&structure)
    }

    /// Adds the structure of the incoming MSI controllers, of which a table has one. The error is `ImsicSet` at the second call,
    /// or `FieldWidth` if the length would reach 2^32. An `IMSIC` that `add_structure` added doesn't count.
    pub fn add_imsic(&mut self, imsic: IMSIC) -> R<()>
        ensures { AddsImsic result self.old (imsic_bytes imsic) self.new }
    {
        if self.has_imsic {
            return Err(Error::ImsicSet);
        }
        self.add_structure(imsic)?;
        self.has_imsic = true;
        Ok(())
    }

    /// Adds a borrowed structure as `add_structure` does. It is for structures in a list of boxes.
    pub fn add_borrowed_structure(&mut self, structure: &dyn Aml) -> R<()>
        ensures adds { Adds result self.old.table (object structure.now) self.new.table }
        ensures imsic { self.new.has_imsic ≡ self.old.has_imsic }
    {
        self.table.add_borrowed(structure)
    }

    /// The number of bytes of the table.
    pub fn len(&self) -> usize
        ensures { result ≡ length (bytes_of self.now.table.table) }
    {
        self.table.len()
    }

    /// The number of structures, or 2^32 - 1 if there are more. Only structures without bytes can be so numerous.
    pub fn count(&self) -> u32
        ensures { result ≡ number_up_to (length self.now.table.table.structures) }
    {
        self.table.count()
    }
}

/// The rows of a MADT between its header and its structures.
pub const MADT_FIXED: [Row; 2] = [
    Row::Hex("Local Interrupt Controller Address", 4),
    Row::Flags("Flags", 4, &[Bits::Flag(0x1, "PCAT_COMPAT")]),
];

/// The rows of the table's fixed fields, in order.
pub fn madt_rows() -> &'static [Row]
    ensures { (controller : LocalInterruptController) (bits : ℕ) → AreRowsOf result.now (madt_fields_of controller bits) }
{
    &MADT_FIXED
}

/// A law: after any calls the table is correct. If each structure contains its length at offset 1, the structures, in order,
/// are the one list that the walk finds.
pub fn madt_is_walked(table: &MADT)
    ensures is_true { IsTrueTable (bytes_of table.now.table.table) }
    ensures keeps { Keeps true madt_walk length_limit false table.now.table.table }
    ensures walked { ArePieces madt_walk.sizes table.now.table.table.structures → IsWalked true madt_walk table.now.table.table }
    ensures calls { ArePieces madt_walk.sizes table.now.table.table.structures
        → (revision : ℕ) (oem : Oem) (controller : LocalInterruptController) (bits : ℕ)
        → IsAfterItsCalls true madt_walk (madt_of revision oem controller bits) table.now.table }
{
    is_walked(&table.table)
}

/// A law: each structure of this module contains its length at offset 1, for all values of its fields.
pub fn madt_structures_are_pieces()
    ensures { StructuresTellTheirLength }
{}
