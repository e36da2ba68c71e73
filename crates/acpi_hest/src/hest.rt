//! HEST: the sources of hardware errors.

ghost use Rattle.std.specs.Prelude.{◌≡◌, ℕ, false, true, length};
ghost use Rattle.acpi_base.specs.Object.{whole, whole_ends_well};
ghost use Rattle.acpi_base.specs.Table.{IsTrueTable};
ghost use Rattle.acpi_base.specs.Walk.{hest_walk, ArePieces};
ghost use Rattle.acpi_base.specs.declared.oem.Oem.{Oem};
ghost use Rattle.acpi_core.specs.Addition.{Adds};
ghost use Rattle.acpi_core.specs.Calls.{IsAfterItsCalls};
ghost use Rattle.acpi_core.specs.Listing.{bytes_of, length_limit};
ghost use Rattle.acpi_core.specs.Walk.{IsWalked, Keeps};
ghost use Rattle.acpi_hest.specs.Hest.{hest, hest_of};
ghost use Rattle.acpi_hest.specs.Laws.{AreSources};

mod aer;
mod error_data;
mod generic;
mod notification;
mod status;
mod tail;

use acpi_base::error::R;
use acpi_base::object::Aml;
use acpi_base::oem::Oem;
use acpi_base::sink::AmlSink;
use acpi_core::form::Form;
use acpi_core::kind::Kind;
use acpi_core::table::Table;
use acpi_core::walked::{Walked, is_walked};
pub use aer::{
    AER, AER_BRIDGE, AER_DEVICE, AER_ROOT_PORT, Aer, AerBridge, AerDevice, AerRootPort,
    FirmwareFirst, PciDevice, PcieAerBridge, PcieAerDevice, PcieAerRootPort, aer_rows,
};
pub use error_data::{ERROR_DATA, GenericErrorData, error_data_rows};
pub use generic::{
    ACKNOWLEDGED, Acknowledged, EnabledStatus, GENERIC, Generic, GenericHardwareSource,
    GenericHardwareSourceV2, UNACKNOWLEDGED, Unacknowledged, generic_rows,
};
pub use notification::{NOTIFICATION, NotificationStructure, NotificationType};
pub use status::{ERROR_STATUS, ErrorSeverity, GenericErrorStatus};
use std::alloc::Global;
pub use tail::Tail;

/// The Hardware Error Source Table (ACPI 6.5, 18.3.2). The number of error sources is at offset 36, and they begin at offset 40.
/// Each contains its type at offset 0.
#[derive(Drop)]
pub struct HEST {
    table: Walked<HestKind, 40>,
}

/// The kind of HEST. A caller may add sources of other types.
pub struct HestKind;

impl Kind for HestKind {
    ghost walk = { hest_walk };

    ghost ported = { true };

    ghost limit = { length_limit };

    ghost closed = { false };
}

impl Aml for HEST {
    ghost object = { λ t. whole (bytes_of t.table.table) };

    ghost ends_well = { λ t. whole_ends_well (bytes_of t.table.table) };

    fn to_aml_bytes(&self, sink: &mut dyn AmlSink) -> R<()> {
        self.table.to_aml_bytes(sink)
    }
}

impl HEST {
    /// A table without error sources.
    pub fn new(alloc: Global, oem_id: [u8; 6], oem_table_id: [u8; 8], oem_revision: u32) -> HEST
        ensures { result.table.table ≡ hest (record { id = oem_id; table_id = oem_table_id; revision = oem_revision }) }
    {
        HEST::of_revision(alloc, 1, oem_id, oem_table_id, oem_revision)
    }

    /// A table of a revision without error sources. Revision 2 is that of ACPI 6.5.
    pub fn of_revision(
        alloc: Global,
        revision: u8,
        oem_id: [u8; 6],
        oem_table_id: [u8; 8],
        oem_revision: u32,
    ) -> HEST
        ensures { result.table.table
            ≡ hest_of revision (record { id = oem_id; table_id = oem_table_id; revision = oem_revision }) }
    {
        let oem = Oem::new(oem_id, oem_table_id, oem_revision);
        let form = Form::new(*b"HEST", revision, oem, 4);
        HEST {
            table: Walked::of(Table::new(alloc, form, &[], &[])),
        }
    }

    /// Adds an error source with the bytes that it writes. The error is the source's own, or `FieldWidth` if the length would
    /// reach 2^32.
    pub fn add_structure<T: Aml + Drop>(&mut self, structure: T) -> R<()>
        ensures { Adds result self.old.table (T.object structure) self.new.table }
    {
        self.table.add_object(&structure)
    }

    /// Adds a borrowed error source as `add_structure` does. It is for sources in a list of boxes.
    pub fn add_borrowed_structure(&mut self, structure: &dyn Aml) -> R<()>
        ensures { Adds result self.old.table (object structure.now) self.new.table }
    {
        self.table.add_borrowed(structure)
    }

    /// The number of bytes of the table.
    pub fn len(&self) -> usize
        ensures { result ≡ length (bytes_of self.now.table.table) }
    {
        self.table.len()
    }

    /// The number of error sources.
    pub fn count(&self) -> u32
        ensures { result ≡ length self.now.table.table.structures }
    {
        self.table.count()
    }
}

/// A law: after any calls the table is correct. If each source has the size of its type, the sources, in order, are the one
/// list that the walk finds.
pub fn hest_is_walked(table: &HEST)
    ensures is_true { IsTrueTable (bytes_of table.now.table.table) }
    ensures keeps { Keeps true hest_walk length_limit false table.now.table.table }
    ensures walked { ArePieces hest_walk.sizes table.now.table.table.structures → IsWalked true hest_walk table.now.table.table }
    ensures calls { ArePieces hest_walk.sizes table.now.table.table.structures → (revision : ℕ) (oem : Oem)
        → IsAfterItsCalls true hest_walk (hest_of revision oem) table.now.table }
{
    is_walked(&table.table)
}

/// A law: each source of this module contains its type and has the size of this type, for all values of its fields.
pub fn hest_sources_are_pieces()
    ensures root_port { AreSources 6 ⟦<PcieAerRootPort as Aml>⟧.object }
    ensures device { AreSources 7 ⟦<PcieAerDevice as Aml>⟧.object }
    ensures bridge { AreSources 8 ⟦<PcieAerBridge as Aml>⟧.object }
    ensures hardware { AreSources 9 ⟦<GenericHardwareSource as Aml>⟧.object }
    ensures hardware_2 { AreSources 10 ⟦<GenericHardwareSourceV2 as Aml>⟧.object }
{}
