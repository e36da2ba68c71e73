//! VIOT: virtual IOMMUs, and the devices that use them.

ghost use Rattle.std.specs.Prelude.{◌≡◌, ℕ, true, length};
ghost use Rattle.acpi_base.specs.Object.{whole, whole_ends_well};
ghost use Rattle.acpi_base.specs.Walk.{viot_walk};
ghost use Rattle.acpi_base.specs.declared.oem.Oem.{Oem};
ghost use Rattle.acpi_core.specs.Addition.{Adds, AddsAt};
ghost use Rattle.acpi_core.specs.Calls.{IsAfterItsCalls};
ghost use Rattle.acpi_core.specs.Listing.{field_limit, bytes_of};
ghost use Rattle.acpi_core.specs.Walk.{IsWalked, Keeps};
ghost use Rattle.acpi_nodes.specs.Viot.{viot, viot_of, pci_range, pci_range_bytes, mmio_endpoint, mmio_endpoint_bytes};
ghost use Rattle.acpi_nodes.specs.Viot.{NodesTellKinds, NodesStand, ReferencesAreRead};
ghost use Rattle.acpi_nodes.specs.Viot.{virtio_pci_iommu, virtio_pci_iommu_bytes, virtio_mmio_iommu, virtio_mmio_iommu_bytes};
ghost use Rattle.acpi_nodes.specs.Viot.{pci_range_fields, mmio_endpoint_fields, virtio_pci_iommu_fields};
ghost use Rattle.acpi_nodes.specs.Viot.{virtio_mmio_iommu_fields};

pub use crate::pci::PciDevice;
use acpi_base::error::R;
use acpi_base::object::Aml;
use acpi_base::oem::Oem;
use acpi_base::pci::BDF;
use acpi_base::row::{Record, Row, record_of_numbers, write_record};
use acpi_base::sink::AmlSink;
use acpi_core::form::Form;
use acpi_core::kind::Kind;
use acpi_core::table::Table;
use acpi_core::walked::{Walked, is_walked};
use std::alloc::Global;
use std::marker::Model;

/// The Virtual I/O Translation Table (ACPI 6.5, 5.2.32). The number of nodes is at offset 36, in two bytes, and they begin at
/// offset 48. A reference to a node has two bytes, so the table has at most 65,535 bytes.
#[derive(Drop)]
pub struct VIOT {
    table: Walked<ViotKind, 48>,
}

/// The kind of VIOT.
pub struct ViotKind;

// The limit of the table's length: each offset in it fits two bytes.
const OFFSET_LIMIT: usize = 1 << (8 * 2);

impl Kind for ViotKind {
    ghost walk = { viot_walk };

    ghost ported = { true };

    ghost limit = { field_limit 2 };

    ghost closed = { true };
}

impl Aml for VIOT {
    ghost object = { λ t. whole (bytes_of t.table.table) };

    ghost ends_well = { λ t. whole_ends_well (bytes_of t.table.table) };

    fn to_aml_bytes(&self, sink: &mut dyn AmlSink) -> R<()> {
        self.table.to_aml_bytes(sink)
    }
}

impl VIOT {
    /// A table without nodes.
    pub fn new(alloc: Global, oem_id: [u8; 6], oem_table_id: [u8; 8], oem_revision: u32) -> VIOT
        ensures { result.table.table ≡ viot (record { id = oem_id; table_id = oem_table_id; revision = oem_revision }) }
    {
        VIOT::of_revision(alloc, 1, oem_id, oem_table_id, oem_revision)
    }

    /// A table of a revision without nodes.
    pub fn of_revision(
        alloc: Global,
        revision: u8,
        oem_id: [u8; 6],
        oem_table_id: [u8; 8],
        oem_revision: u32,
    ) -> VIOT
        ensures { result.table.table
            ≡ viot_of revision (record { id = oem_id; table_id = oem_table_id; revision = oem_revision }) }
    {
        let oem = Oem::new(oem_id, oem_table_id, oem_revision);
        let form = Form {
            limit: OFFSET_LIMIT,
            ..Form::new(*b"VIOT", revision, oem, 2)
        };
        VIOT {
            table: Walked::of(Table::new(alloc, form, &[], &[48, 0, 0, 0, 0, 0, 0, 0, 0, 0])),
        }
    }

    /// Adds a range of PCI functions. The error is `FieldWidth` if the table would have more than 65,535 bytes.
    pub fn add_pci_range(&mut self, range: PciRange) -> R<()>
        ensures { Adds result self.old.table (whole (pci_range_bytes range)) self.new.table }
    {
        self.table.add_record(&range)
    }

    /// Adds an endpoint at an address. The error is `FieldWidth` if the table would have more than 65,535 bytes.
    pub fn add_mmio_endpoint(&mut self, endpoint: MmioEndpoint) -> R<()>
        ensures { Adds result self.old.table (whole (mmio_endpoint_bytes endpoint)) self.new.table }
    {
        self.table.add_record(&endpoint)
    }

    /// Adds a virtual IOMMU that is a PCI device, and returns its handle. The error is `FieldWidth` if the table would have more
    /// than 65,535 bytes.
    pub fn add_virtio_pci_iommu(&mut self, iommu: VirtIoPciIommu) -> R<TranslationHandle>
        ensures { AddsAt result self.old.table (whole (virtio_pci_iommu_bytes iommu)) self.new.table }
    {
        let offset = self.table.add_record_at(&iommu)?;
        Ok(TranslationHandle {
            offset: offset as u16,
        })
    }

    /// Adds a virtual IOMMU at an address, and returns its handle. The error is `FieldWidth` if the table would have more than
    /// 65,535 bytes.
    pub fn add_virtio_mmio_iommu(&mut self, iommu: VirtIoMmioIommu) -> R<TranslationHandle>
        ensures { AddsAt result self.old.table (whole (virtio_mmio_iommu_bytes iommu)) self.new.table }
    {
        let offset = self.table.add_record_at(&iommu)?;
        Ok(TranslationHandle {
            offset: offset as u16,
        })
    }

    /// The number of bytes of the table.
    pub fn len(&self) -> usize
        ensures { result ≡ length (bytes_of self.now.table.table) }
    {
        self.table.len()
    }

    /// The number of nodes.
    pub fn count(&self) -> u32
        ensures { result ≡ length self.now.table.table.structures }
    {
        self.table.count()
    }
}

/// A law: after any calls the table is correct. Its nodes, in order, are the one list that the walk finds.
pub fn viot_is_walked(table: &VIOT)
    ensures keeps { Keeps true viot_walk (field_limit 2) true table.now.table.table }
    ensures walked { IsWalked true viot_walk table.now.table.table }
    ensures calls { (revision : ℕ) (oem : Oem) → IsAfterItsCalls true viot_walk (viot_of revision oem) table.now.table }
    ensures nodes { NodesStand table.now.table.table }
{
    is_walked(&table.table)
}

/// A law: each node begins with its type, for all values of its fields.
pub fn viot_nodes_tell_kinds()
    ensures { NodesTellKinds }
{}

/// A law: the bytes of a node contain each of its references to other nodes.
pub fn viot_references_are_read()
    ensures { ReferencesAreRead }
{}

/// The handle of a virtual IOMMU. In contracts it is the node's offset.
#[derive(Clone, Copy, Debug)]
pub struct TranslationHandle {
    offset: u16,
}

impl Model for TranslationHandle {
    ghost use Rattle.std.specs.Prelude.{ℕ};

    ghost Value = { ℕ };

    ghost view = { λ h. h.offset };

    ghost inverse = { λ n. record { offset = n } };
}

impl TranslationHandle {
    /// The offset in bytes from the first byte of the table.
    pub fn offset(&self) -> u32
        ensures { result ≡ self.now }
    {
        u32::from(self.offset)
    }
}

/// A range of PCI functions that use an IOMMU (ACPI 6.5, 5.2.32, PCI Range Node Structure): 24 bytes.
#[derive(Drop)]
pub struct PciRange {
    first: PciDevice,
    last: PciDevice,
    output: u16,
}

impl PciRange {
    /// The functions from `first` to `last`. Their endpoint ids begin at the bus, device and function of the first.
    pub fn new(
        first: PciDevice,
        last: PciDevice,
        translation_handle: &TranslationHandle,
    ) -> PciRange
        ensures { result ≡ pci_range first last translation_handle.now }
    {
        PciRange {
            first,
            last,
            output: translation_handle.offset,
        }
    }
}

/// The rows of a PCI range node.
pub const PCI_RANGE: [Row; 10] = [
    Row::Preset("Type", 1, 1),
    Row::Reserved(1),
    Row::Preset("Length", 2, 24),
    Row::Hex("Endpoint Start", 4),
    Row::Number("PCI Segment Start", 2),
    Row::Number("PCI Segment End", 2),
    Row::Flags("PCI BDF Start", 2, &BDF),
    Row::Flags("PCI BDF End", 2, &BDF),
    Row::Reference("Output Node", 2),
    Row::Reserved(6),
];

impl Record<24> for PciRange {
    ghost fields = { pci_range_fields };

    fn rows() -> &'static [Row] {
        &PCI_RANGE
    }

    fn bytes(&self) -> [u8; 24] {
        record_of_numbers(
            &PCI_RANGE,
            &[
                1,
                0,
                24,
                u64::from(self.first.bdf),
                u64::from(self.first.segment),
                u64::from(self.last.segment),
                u64::from(self.first.bdf),
                u64::from(self.last.bdf),
                u64::from(self.output),
                0,
            ],
        )
    }
}

impl Aml for PciRange {
    ghost object = { λ r. whole (pci_range_bytes r) };

    ghost ends_well = { λ r. whole_ends_well (pci_range_bytes r) };

    fn to_aml_bytes(&self, sink: &mut dyn AmlSink) -> R<()> {
        write_record(self, sink)
    }
}

/// An endpoint at an address that uses an IOMMU (ACPI 6.5, 5.2.32, Single MMIO Endpoint Node Structure): 24 bytes.
#[derive(Drop)]
pub struct MmioEndpoint {
    endpoint: u32,
    base: u64,
    output: u16,
}

impl MmioEndpoint {
    /// The endpoint with this id, whose registers are at a physical address.
    pub fn new(
        endpoint_id: u32,
        base_addr: u64,
        translation_handle: &TranslationHandle,
    ) -> MmioEndpoint
        ensures { result ≡ mmio_endpoint endpoint_id base_addr translation_handle.now }
    {
        MmioEndpoint {
            endpoint: endpoint_id,
            base: base_addr,
            output: translation_handle.offset,
        }
    }
}

/// The rows of a single MMIO endpoint node.
pub const MMIO_ENDPOINT: [Row; 7] = [
    Row::Preset("Type", 1, 2),
    Row::Reserved(1),
    Row::Preset("Length", 2, 24),
    Row::Hex("Endpoint ID", 4),
    Row::Hex("Base Address", 8),
    Row::Reference("Output Node", 2),
    Row::Reserved(6),
];

impl Record<24> for MmioEndpoint {
    ghost fields = { mmio_endpoint_fields };

    fn rows() -> &'static [Row] {
        &MMIO_ENDPOINT
    }

    fn bytes(&self) -> [u8; 24] {
        record_of_numbers(
            &MMIO_ENDPOINT,
            &[
                2,
                0,
                24,
                u64::from(self.endpoint),
                self.base,
                u64::from(self.output),
                0,
            ],
        )
    }
}

impl Aml for MmioEndpoint {
    ghost object = { λ e. whole (mmio_endpoint_bytes e) };

    ghost ends_well = { λ e. whole_ends_well (mmio_endpoint_bytes e) };

    fn to_aml_bytes(&self, sink: &mut dyn AmlSink) -> R<()> {
        write_record(self, sink)
    }
}

/// A virtual IOMMU that is a PCI device (ACPI 6.5, 5.2.32, virtio-iommu based on virtio-pci Node Structure): 16 bytes.
#[derive(Drop)]
pub struct VirtIoPciIommu {
    device: PciDevice,
}

impl VirtIoPciIommu {
    /// The IOMMU that is this PCI function.
    pub fn new(device: PciDevice) -> VirtIoPciIommu
        ensures { result ≡ virtio_pci_iommu device }
    {
        VirtIoPciIommu { device }
    }
}

/// The rows of a virtio-iommu based on virtio-pci node.
pub const VIRTIO_PCI_IOMMU: [Row; 6] = [
    Row::Preset("Type", 1, 3),
    Row::Reserved(1),
    Row::Preset("Length", 2, 16),
    Row::Number("PCI Segment", 2),
    Row::Flags("PCI BDF Number", 2, &BDF),
    Row::Reserved(8),
];

impl Record<16> for VirtIoPciIommu {
    ghost fields = { virtio_pci_iommu_fields };

    fn rows() -> &'static [Row] {
        &VIRTIO_PCI_IOMMU
    }

    fn bytes(&self) -> [u8; 16] {
        record_of_numbers(
            &VIRTIO_PCI_IOMMU,
            &[
                3,
                0,
                16,
                u64::from(self.device.segment),
                u64::from(self.device.bdf),
                0,
            ],
        )
    }
}

impl Aml for VirtIoPciIommu {
    ghost object = { λ i. whole (virtio_pci_iommu_bytes i) };

    ghost ends_well = { λ i. whole_ends_well (virtio_pci_iommu_bytes i) };

    fn to_aml_bytes(&self, sink: &mut dyn AmlSink) -> R<()> {
        write_record(self, sink)
    }
}

/// A virtual IOMMU at an address (ACPI 6.5, 5.2.32, virtio-iommu based on virtio-mmio Node Structure): 16 bytes.
#[derive(Drop)]
pub struct VirtIoMmioIommu {
    base: u64,
}

impl VirtIoMmioIommu {
    /// The IOMMU whose registers begin at a physical address.
    pub fn new(base_addr: u64) -> VirtIoMmioIommu
        ensures { result ≡ virtio_mmio_iommu base_addr }
    {
        VirtIoMmioIommu { base: base_addr }
    }
}

/// The rows of a virtio-iommu based on virtio-mmio node.
pub const VIRTIO_MMIO_IOMMU: [Row; 5] = [
    Row::Preset("Type", 1, 4),
    Row::Reserved(1),
    Row::Preset("Length", 2, 16),
    Row::Reserved(4),
    Row::Hex("Base Address", 8),
];

impl Record<16> for VirtIoMmioIommu {
    ghost fields = { virtio_mmio_iommu_fields };

    fn rows() -> &'static [Row] {
        &VIRTIO_MMIO_IOMMU
    }

    fn bytes(&self) -> [u8; 16] {
        record_of_numbers(&VIRTIO_MMIO_IOMMU, &[4, 0, 16, 0, self.base])
    }
}

impl Aml for VirtIoMmioIommu {
    ghost object = { λ i. whole (virtio_mmio_iommu_bytes i) };

    ghost ends_well = { λ i. whole_ends_well (virtio_mmio_iommu_bytes i) };

    fn to_aml_bytes(&self, sink: &mut dyn AmlSink) -> R<()> {
        write_record(self, sink)
    }
}
