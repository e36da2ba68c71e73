//! DMAR: the DMA remapping units of Intel.

ghost use Rattle.std.specs.Prelude.{◌≡◌, ℕ, false, true, length};
ghost use Rattle.acpi_base.specs.Fields.{AreRowsOf};
ghost use Rattle.acpi_base.specs.FurtherWalk.{dmar_walk};
ghost use Rattle.acpi_base.specs.Object.{whole, whole_ends_well};
ghost use Rattle.acpi_base.specs.declared.oem.Oem.{Oem};
ghost use Rattle.acpi_core.specs.Addition.{Adds};
ghost use Rattle.acpi_core.specs.Calls.{IsAfterItsCalls};
ghost use Rattle.acpi_core.specs.Listing.{bytes_of, length_limit};
ghost use Rattle.acpi_core.specs.Walk.{IsWalked, Keeps};
ghost use Rattle.acpi_pc.specs.Dmar.{dmar, dmar_fields, drhd_bytes, rmrr_bytes, atsr_bytes, rhsa_bytes, andd_bytes, satc_bytes};
ghost use Rattle.acpi_pc.specs.Dmar.{sidp_bytes};
ghost use Rattle.acpi_pc.specs.DmarLaws.{StructuresTellKinds, ScopesAreRead};

mod devices;
mod scope;
mod scoped;

use acpi_base::error::R;
use acpi_base::object::Aml;
use acpi_base::oem::Oem;
use acpi_base::row::{Bits, Row, Value, record_of};
use acpi_base::sink::AmlSink;
use acpi_core::form::Form;
use acpi_core::kind::Kind;
use acpi_core::table::Table;
use acpi_core::walked::{Walked, is_walked};
pub use devices::{ANDD, Andd, RHSA, Rhsa, andd_rows};
pub use scope::{DEVICE_SCOPE, DeviceScope, SCOPE_PATH, ScopeType, scope_rows};
pub use scoped::{
    ATSR, Atsr, DRHD, Drhd, RMRR, Rmrr, SATC, SIDP, Satc, Sidp, atsr_rows, drhd_rows, rmrr_rows,
    satc_rows, sidp_rows,
};
use std::alloc::Global;

/// The flag of a table that says that interrupts can be remapped.
pub const INTR_REMAP: u8 = 1;

/// The flag that asks system software not to enable x2APIC mode.
pub const X2APIC_OPT_OUT: u8 = 2;

/// The flag that says that firmware protects memory from DMA, and expects system software to do the same.
pub const DMA_CTRL_PLATFORM_OPT_IN: u8 = 4;

/// The DMA Remapping Reporting Table (Intel Virtualization Technology for Directed I/O 4.1, 8.1), revision 1. Its structures
/// begin at offset 48. Each contains its type at offset 0 and its length in bytes at offset 2, each in two bytes.
#[derive(Drop)]
pub struct DMAR {
    table: Walked<DmarKind, 48>,
}

/// The kind of DMAR.
pub struct DmarKind;

impl Kind for DmarKind {
    ghost walk = { dmar_walk };

    ghost ported = { false };

    ghost limit = { length_limit };

    ghost closed = { true };
}

impl Aml for DMAR {
    ghost object = { λ t. whole (bytes_of t.table.table) };

    ghost ends_well = { λ t. whole_ends_well (bytes_of t.table.table) };

    fn to_aml_bytes(&self, sink: &mut dyn AmlSink) -> R<()> {
        self.table.to_aml_bytes(sink)
    }
}

impl DMAR {
    /// A table without structures. DMA addresses have one bit more than `host_address_width` (offset 36). The flags (offset 37)
    /// are those of `INTR_REMAP`, `X2APIC_OPT_OUT` and `DMA_CTRL_PLATFORM_OPT_IN`.
    pub fn new(
        alloc: Global,
        oem_id: [u8; 6],
        oem_table_id: [u8; 8],
        oem_revision: u32,
        host_address_width: u8,
        flags: u8,
    ) -> DMAR
        ensures { result.table.table
            ≡ dmar (record { id = oem_id; table_id = oem_table_id; revision = oem_revision }) host_address_width flags }
    {
        let oem = Oem::new(oem_id, oem_table_id, oem_revision);
        let form = Form::new(*b"DMAR", 1, oem, 0);
        let before: [u8; 12] = record_of(
            &DMAR_FIXED,
            &[
                Value::Number(u64::from(host_address_width)),
                Value::Number(u64::from(flags)),
                Value::Bytes(&[0; 10]),
            ],
        );
        DMAR {
            table: Walked::of(Table::new(alloc, form, &before, &[])),
        }
    }

    /// Adds a remapping unit. The error is `FieldWidth` if the table's length would reach 2^32.
    pub fn add_drhd(&mut self, unit: Drhd) -> R<()>
        ensures { Adds result self.old.table (whole (drhd_bytes unit)) self.new.table }
    {
        self.table.add_object(&unit)
    }

    /// Adds a reserved memory region. The error is `FieldWidth` if the table's length would reach 2^32.
    pub fn add_rmrr(&mut self, region: Rmrr) -> R<()>
        ensures { Adds result self.old.table (whole (rmrr_bytes region)) self.new.table }
    {
        self.table.add_object(&region)
    }

    /// Adds the root ports that support address translation services. The error is `FieldWidth` if the table's length would reach
    /// 2^32.
    pub fn add_atsr(&mut self, ports: Atsr) -> R<()>
        ensures { Adds result self.old.table (whole (atsr_bytes ports)) self.new.table }
    {
        self.table.add_object(&ports)
    }

    /// Adds the proximity domain of a remapping unit. The error is `FieldWidth` if the table's length would reach 2^32.
    pub fn add_rhsa(&mut self, affinity: Rhsa) -> R<()>
        ensures { Adds result self.old.table (whole (rhsa_bytes affinity)) self.new.table }
    {
        self.table.add_record(&affinity)
    }

    /// Adds a device of the namespace. The error is `FieldWidth` if the table's length would reach 2^32.
    pub fn add_andd(&mut self, device: Andd) -> R<()>
        ensures { Adds result self.old.table (whole (andd_bytes device)) self.new.table }
    {
        self.table.add_object(&device)
    }

    /// Adds the integrated devices that have an address translation cache. The error is `FieldWidth` if the table's length would
    /// reach 2^32.
    pub fn add_satc(&mut self, devices: Satc) -> R<()>
        ensures { Adds result self.old.table (whole (satc_bytes devices)) self.new.table }
    {
        self.table.add_object(&devices)
    }

    /// Adds the integrated devices whose scopes have flags of their own. The error is `FieldWidth` if the table's length would
    /// reach 2^32.
    pub fn add_sidp(&mut self, devices: Sidp) -> R<()>
        ensures { Adds result self.old.table (whole (sidp_bytes devices)) self.new.table }
    {
        self.table.add_object(&devices)
    }

    /// The number of bytes of the table.
    pub fn len(&self) -> usize
        ensures { result ≡ length (bytes_of self.now.table.table) }
    {
        self.table.len()
    }

    /// The number of structures.
    pub fn count(&self) -> u32
        ensures { result ≡ length self.now.table.table.structures }
    {
        self.table.count()
    }
}

/// The rows of a DMAR after its header.
pub const DMAR_FIXED: [Row; 3] = [
    Row::Number("Host Address Width", 1),
    Row::Flags(
        "Flags",
        1,
        &[
            Bits::Flag(0x1, "INTR_REMAP"),
            Bits::Flag(0x2, "X2APIC_OPT_OUT"),
            Bits::Flag(0x4, "DMA_CTRL_PLATFORM_OPT_IN_FLAG"),
        ],
    ),
    Row::Reserved(10),
];

/// The rows of the fields between the header and the first structure, in order.
pub fn dmar_rows() -> &'static [Row]
    ensures { (width flags : ℕ) → AreRowsOf result.now (dmar_fields width flags) }
{
    &DMAR_FIXED
}

/// A law: after any calls the table is correct. Its structures, in order, are the one list that the walk finds.
pub fn dmar_is_walked(table: &DMAR)
    ensures keeps { Keeps false dmar_walk length_limit true table.now.table.table }
    ensures walked { IsWalked false dmar_walk table.now.table.table }
    ensures calls { (oem : Oem) (width flags : ℕ) → IsAfterItsCalls false dmar_walk (dmar oem width flags) table.now.table }
{
    is_walked(&table.table)
}

/// A law: each structure begins with its type, for all values of its fields.
pub fn dmar_structures_tell_kinds()
    ensures { StructuresTellKinds }
{}

/// A law: the bytes of a structure contain its scopes after its own fields, and each scope contains its length.
pub fn dmar_scopes_are_read()
    ensures { ScopesAreRead }
{}
