//! IORT: how the ids of devices reach SMMUs and interrupt translation services.

ghost use Rattle.std.specs.Prelude.{◌≡◌, ℕ, false, true, length};
ghost use Rattle.acpi_base.specs.Object.{whole, whole_ends_well};
ghost use Rattle.acpi_base.specs.FurtherWalk.{iort_walk};
ghost use Rattle.acpi_base.specs.declared.oem.Oem.{Oem};
ghost use Rattle.acpi_core.specs.Addition.{Adds, AddsAt};
ghost use Rattle.acpi_core.specs.Calls.{IsAfterItsCalls};
ghost use Rattle.acpi_core.specs.Listing.{bytes_of, length_limit};
ghost use Rattle.acpi_core.specs.Structure.{structure_of};
ghost use Rattle.acpi_core.specs.Walk.{IsWalked, Keeps};
ghost use Rattle.acpi_arm.specs.Iort.{iort, iort_of};
ghost use Rattle.acpi_arm.specs.IortLaws.{NodesTellKinds, NodesStand, IdentifiersAreRead, ReferencesAreRead};
ghost use Rattle.acpi_arm.specs.IortNodes.{its_group_bytes, component_bytes, root_complex_bytes, pmcg_bytes};
ghost use Rattle.acpi_arm.specs.IortNodes.{earlier_root_complex, earlier_root_complex_bytes};
ghost use Rattle.acpi_arm.specs.IortNodes.{reserved_memory_bytes};
ghost use Rattle.acpi_arm.specs.IortSmmus.{smmu_bytes, smmu_v3_bytes};
ghost use Rattle.acpi_arm.specs.Lists.{ListsAreRead};

mod components;
mod its;
mod mapping;
mod monitor;
mod regions;
mod smmus;

use crate::handle::Handle;
use acpi_base::error::R;
use acpi_base::object::Aml;
use acpi_base::oem::Oem;
use acpi_base::sink::AmlSink;
use acpi_core::form::Form;
use acpi_core::kind::Kind;
use acpi_core::table::Table;
use acpi_core::walked::{Walked, is_walked};
pub use components::{
    EARLIER_ROOT_COMPLEX, EarlierRootComplex, NAMED_COMPONENT, NamedComponent, ROOT_COMPLEX,
    ROOT_COMPLEX_PASID, RootComplex, earlier_root_complex_rows, named_component_rows,
    root_complex_rows,
};
pub use its::{ITS_GROUP, ItsGroup, its_group_rows};
pub use mapping::{ID_MAPPING, IdMapping, MemoryAccess, Output};
pub use monitor::{Monitored, PMCG, Pmcg, pmcg_rows};
pub use regions::{
    AccessAttributes, MEMORY_RANGE, MemoryRange, RESERVED_MEMORY, ReservedMemory,
    reserved_memory_rows,
};
pub use smmus::{
    Httu, SMMU, SMMU_INTERRUPT, SMMU_V3, Smmu, SmmuInterrupt, SmmuModel, SmmuV3, SmmuV3Model,
    smmu_rows, smmu_v3_rows,
};
use std::alloc::Global;

/// The I/O Remapping Table (Arm DEN0049E.d), revision 5. The number of nodes is at offset 36, in four bytes, and they begin at
/// offset 48. Each node has its index as its identifier.
#[derive(Drop)]
pub struct IORT {
    table: Walked<IortKind, 48>,
}

/// The kind of IORT.
pub struct IortKind;

impl Kind for IortKind {
    ghost walk = { iort_walk };

    ghost ported = { false };

    ghost limit = { length_limit };

    ghost closed = { true };
}

impl Aml for IORT {
    ghost object = { λ t. whole (bytes_of t.table.table) };

    ghost ends_well = { λ t. whole_ends_well (bytes_of t.table.table) };

    fn to_aml_bytes(&self, sink: &mut dyn AmlSink) -> R<()> {
        self.table.to_aml_bytes(sink)
    }
}

/// The handle of an ITS group. In contracts a handle is the node's offset.
pub type ItsGroupHandle = Handle<ItsGroup>;

/// The handle of a named component.
pub type NamedComponentHandle = Handle<NamedComponent>;

/// The handle of a root complex.
pub type RootComplexHandle = Handle<RootComplex>;

/// The handle of an SMMUv1 or SMMUv2.
pub type SmmuHandle = Handle<Smmu>;

/// The handle of an SMMUv3.
pub type SmmuV3Handle = Handle<SmmuV3>;

impl IORT {
    /// A table without nodes.
    pub fn new(alloc: Global, oem_id: [u8; 6], oem_table_id: [u8; 8], oem_revision: u32) -> IORT
        ensures { result.table.table ≡ iort (record { id = oem_id; table_id = oem_table_id; revision = oem_revision }) }
    {
        IORT::of_revision(alloc, 5, oem_id, oem_table_id, oem_revision)
    }

    /// A table of a revision without nodes. Revision 3 is that of DEN0049E.b. Nodes have revisions of their own, which this
    /// doesn't change.
    pub fn of_revision(
        alloc: Global,
        revision: u8,
        oem_id: [u8; 6],
        oem_table_id: [u8; 8],
        oem_revision: u32,
    ) -> IORT
        ensures { result.table.table
            ≡ iort_of revision (record { id = oem_id; table_id = oem_table_id; revision = oem_revision }) }
    {
        let oem = Oem::new(oem_id, oem_table_id, oem_revision);
        let form = Form::new(*b"IORT", revision, oem, 4);
        IORT {
            table: Walked::of(Table::new(alloc, form, &[], &[48, 0, 0, 0, 0, 0, 0, 0])),
        }
    }

    /// Adds an ITS group, and returns its handle. The error is `FieldWidth` if the table's length would reach 2^32.
    pub fn add_its_group(&mut self, mut group: ItsGroup) -> R<ItsGroupHandle>
        ensures { AddsAt result self.old.table
            (whole (its_group_bytes (record group { identifier = length self.old.table.table.structures }))) self.new.table }
    {
        group.identifier = self.table.count();
        Ok(Handle::at(self.table.add_object_at(&group)?))
    }

    /// Adds a device of the namespace, and returns its handle. The error is `FieldWidth` if the node would have more than 65,535
    /// bytes, or the table's length would reach 2^32.
    #[tactic(auto, using(crate::proofs::Iorts::component_piece))]
    pub fn add_named_component(&mut self, mut component: NamedComponent) -> R<NamedComponentHandle>
        ensures { AddsAt result self.old.table
            (structure_of (component_bytes (record component { identifier = length self.old.table.table.structures })))
            self.new.table }
    {
        component.identifier = self.table.count();
        Ok(Handle::at(self.table.add_object_at(&component)?))
    }

    /// Adds a root complex, and returns its handle. The error is `FieldWidth` if the table's length would reach 2^32.
    pub fn add_root_complex(&mut self, mut root_complex: RootComplex) -> R<RootComplexHandle>
        ensures { AddsAt result self.old.table
            (whole (root_complex_bytes (record root_complex { identifier = length self.old.table.table.structures })))
            self.new.table }
    {
        root_complex.identifier = self.table.count();
        Ok(Handle::at(self.table.add_object_at(&root_complex)?))
    }

    /// Adds a root complex in the form of node revision 3, and returns its handle. The error is `FieldWidth` if the table's
    /// length would reach 2^32.
    pub fn add_earlier_root_complex(&mut self, mut node: EarlierRootComplex) -> R<RootComplexHandle>
        ensures { AddsAt result self.old.table
            (whole (earlier_root_complex_bytes
            (earlier_root_complex (length self.old.table.table.structures) node.root_complex))) self.new.table }
    {
        node.root_complex.identifier = self.table.count();
        Ok(Handle::at(self.table.add_object_at(&node)?))
    }

    /// Adds an SMMUv1 or SMMUv2, and returns its handle. The error is `FieldWidth` if the node would have more than 65,535 bytes,
    /// or the table's length would reach 2^32.
    #[tactic(auto, using(crate::proofs::Iorts::smmu_piece))]
    pub fn add_smmu(&mut self, mut smmu: Smmu) -> R<SmmuHandle>
        ensures { AddsAt result self.old.table
            (structure_of (smmu_bytes (record smmu { identifier = length self.old.table.table.structures }))) self.new.table }
    {
        smmu.identifier = self.table.count();
        Ok(Handle::at(self.table.add_object_at(&smmu)?))
    }

    /// Adds an SMMUv3, and returns its handle. The error is `FieldWidth` if the table's length would reach 2^32.
    pub fn add_smmu_v3(&mut self, mut smmu: SmmuV3) -> R<SmmuV3Handle>
        ensures { AddsAt result self.old.table
            (whole (smmu_v3_bytes (record smmu { identifier = length self.old.table.table.structures }))) self.new.table }
    {
        smmu.identifier = self.table.count();
        Ok(Handle::at(self.table.add_object_at(&smmu)?))
    }

    /// Adds a performance monitoring counter group. The error is `FieldWidth` if the table's length would
    /// reach 2^32.
    pub fn add_pmcg(&mut self, mut group: Pmcg) -> R<()>
        ensures { Adds result self.old.table
            (whole (pmcg_bytes (record group { identifier = length self.old.table.table.structures }))) self.new.table }
    {
        group.identifier = self.table.count();
        self.table.add_object(&group)
    }

    /// Adds memory that is reserved for devices. The error is `FieldWidth` if the node would have more than 65,535 bytes, or the
    /// table's length would reach 2^32.
    #[tactic(auto, using(crate::proofs::Iorts::reserved_memory_piece))]
    pub fn add_reserved_memory(&mut self, mut memory: ReservedMemory) -> R<()>
        ensures { Adds result self.old.table
            (structure_of (reserved_memory_bytes (record memory { identifier = length self.old.table.table.structures })))
            self.new.table }
    {
        memory.identifier = self.table.count();
        self.table.add_object(&memory)
    }

    /// The number of bytes of the table.
    pub fn len(&self) -> usize
        ensures { result ≡ length (bytes_of self.now.table.table) }
    {
        self.table.len()
    }

    /// The number of nodes.
    pub fn count(&self) -> u32
        ensures { result ≡ length self.now.table.table.structures }
    {
        self.table.count()
    }
}

/// A law: after any calls the table is correct. Its nodes, in order, are the one list that the walk finds.
pub fn iort_is_walked(table: &IORT)
    ensures keeps { Keeps false iort_walk length_limit true table.now.table.table }
    ensures walked { IsWalked false iort_walk table.now.table.table }
    ensures calls { (revision : ℕ) (oem : Oem) → IsAfterItsCalls false iort_walk (iort_of revision oem) table.now.table }
    ensures nodes { NodesStand table.now.table.table }
{
    is_walked(&table.table)
}

/// A law: each node begins with its type, for all values of its fields.
pub fn iort_nodes_tell_kinds()
    ensures { NodesTellKinds }
{}

/// A law: the bytes of a node contain its identifier.
pub fn iort_identifiers_are_read()
    ensures { IdentifiersAreRead }
{}

/// A law: the bytes of a node contain the number of entries of each of its lists and the list's offset, and have the list there.
pub fn iort_lists_are_read()
    ensures { ListsAreRead }
{}

/// A law: the bytes of a mapping and of a performance monitoring counter group contain the reference to another node.
pub fn iort_references_are_read()
    ensures { ReferencesAreRead }
{}
