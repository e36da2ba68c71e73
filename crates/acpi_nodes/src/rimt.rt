//! RIMT: the IOMMUs of a RISC-V machine, and the devices that use them.

ghost use Rattle.std.specs.Prelude.{◌≡◌, ◌+◌, ◌*◌, ◌≤◌, true, length};
ghost use Rattle.acpi_base.specs.Fields.{AreRowsOf};
ghost use Rattle.acpi_base.specs.Object.{whole, whole_ends_well};
ghost use Rattle.acpi_base.specs.Walk.{rimt_walk};
ghost use Rattle.acpi_base.specs.declared.oem.Oem.{Oem};
ghost use Rattle.acpi_core.specs.Addition.{Adds, AddsAt};
ghost use Rattle.acpi_core.specs.Calls.{IsAfterItsCalls};
ghost use Rattle.acpi_core.specs.Listing.{bytes_of, length_limit};
ghost use Rattle.acpi_core.specs.Structure.{structure_of, structure_ends_well};
ghost use Rattle.acpi_core.specs.Walk.{IsWalked, Keeps};
ghost use Rattle.acpi_nodes.specs.Entries.{entries_of};
ghost use Rattle.acpi_nodes.specs.Rimt.{rimt, bit, interrupt_wire, wire_bytes, id_mapping, mapping_bytes};
ghost use Rattle.acpi_nodes.specs.Rimt.{DevicesTellKinds, DevicesStand, ReferencesAreRead};
ghost use Rattle.acpi_nodes.specs.Rimt.{iommu, iommu_head_fields, iommu_head, iommu_bytes};
ghost use Rattle.acpi_nodes.specs.Rimt.{root_complex, root_complex_head_fields, root_complex_head, root_complex_bytes};
ghost use Rattle.acpi_nodes.specs.Rimt.{platform, mappings_at, platform_head_fields, platform_head, platform_bytes};
ghost use Rattle.acpi_nodes.specs.declared.rimt.Iommu.{Iommu};
ghost use Rattle.acpi_nodes.specs.declared.rimt.PcieRootComplex.{PcieRootComplex};
ghost use Rattle.acpi_nodes.specs.declared.rimt.Platform.{Platform};
ghost use Rattle.acpi_nodes.specs.Rimt.{wire_fields, mapping_fields};

use crate::entries::{entries_of, write_with_entries};
use crate::handle::Handle;
pub use crate::pci::PciDevice;
use acpi_base::error::R;
use acpi_base::object::Aml;
use acpi_base::oem::Oem;
use acpi_base::pci::BDF;
use acpi_base::row::{Bits, Record, Row, Word, record_of_numbers, write_record};
use acpi_base::sink::AmlSink;
use acpi_core::form::Form;
use acpi_core::kind::Kind;
use acpi_core::table::Table;
use acpi_core::told::told_size;
use acpi_core::walked::{Walked, is_walked};
use std::alloc::Global;

/// The RISC-V I/O Mapping Table (this project's profile). The number of devices is at offset 36, in four bytes, and they begin at
/// offset 48.
#[derive(Drop)]
pub struct RIMT {
    table: Walked<RimtKind, 48>,
}

/// The kind of RIMT.
pub struct RimtKind;

impl Kind for RimtKind {
    ghost walk = { rimt_walk };

    ghost ported = { true };

    ghost limit = { length_limit };

    ghost closed = { true };
}

impl Aml for RIMT {
    ghost object = { λ t. whole (bytes_of t.table.table) };

    ghost ends_well = { λ t. whole_ends_well (bytes_of t.table.table) };

    fn to_aml_bytes(&self, sink: &mut dyn AmlSink) -> R<()> {
        self.table.to_aml_bytes(sink)
    }
}

impl RIMT {
    /// A table without devices.
    pub fn new(alloc: Global, oem_id: [u8; 6], oem_table_id: [u8; 8], oem_revision: u32) -> RIMT
        ensures { result.table.table ≡ rimt (record { id = oem_id; table_id = oem_table_id; revision = oem_revision }) }
    {
        let oem = Oem::new(oem_id, oem_table_id, oem_revision);
        let form = Form::new(*b"RIMT", 1, oem, 4);
        RIMT {
            table: Walked::of(Table::new(alloc, form, &[], &[48, 0, 0, 0, 0, 0, 0, 0])),
        }
    }

    /// Adds an IOMMU, and returns its handle. The error is `FieldWidth` if the IOMMU would have more than 65,535 bytes, or the
    /// table's length would reach 2^32.
    #[tactic(auto, using(crate::proofs::Rimts::iommu_piece))]
    pub fn add_iommu(&mut self, iommu: Iommu) -> R<IommuOffset>
        ensures { AddsAt result self.old.table (structure_of (iommu_bytes iommu)) self.new.table }
    {
        Ok(Handle::at(self.table.add_object_at(&iommu)?))
    }

    /// Adds a root complex. The error is `FieldWidth` if the root complex would have more than 65,535 bytes, or the table's
    /// length would reach 2^32.
    #[tactic(auto, using(crate::proofs::Rimts::root_complex_piece))]
    pub fn add_pcie_root_complex(&mut self, root_complex: PcieRootComplex) -> R<()>
        ensures { Adds result self.old.table (structure_of (root_complex_bytes root_complex)) self.new.table }
    {
        self.table.add_object(&root_complex)
    }

    /// Adds a platform device. The error is `FieldWidth` if the device would have more than 65,535 bytes, or the table's length
    /// would reach 2^32.
    #[tactic(auto, using(crate::proofs::Rimts::platform_piece))]
    pub fn add_platform(&mut self, platform: Platform) -> R<()>
        ensures { Adds result self.old.table (structure_of (platform_bytes platform)) self.new.table }
    {
        self.table.add_object(&platform)
    }

    /// The number of bytes of the table.
    pub fn len(&self) -> usize
        ensures { result ≡ length (bytes_of self.now.table.table) }
    {
        self.table.len()
    }

    /// The number of devices.
    pub fn count(&self) -> u32
        ensures { result ≡ length self.now.table.table.structures }
    {
        self.table.count()
    }
}

/// A law: after any calls the table is correct. Its devices, in order, are the one list that the walk finds.
pub fn rimt_is_walked(table: &RIMT)
    ensures keeps { Keeps true rimt_walk length_limit true table.now.table.table }
    ensures walked { IsWalked true rimt_walk table.now.table.table }
    ensures calls { (oem : Oem) → IsAfterItsCalls true rimt_walk (rimt oem) table.now.table }
    ensures nodes { DevicesStand table.now.table.table }
{
    is_walked(&table.table)
}

/// A law: each device begins with its type, for all values of its fields.
pub fn rimt_devices_tell_kinds()
    ensures { DevicesTellKinds }
{}

/// A law: the bytes of a device contain each of its references to an IOMMU.
pub fn rimt_references_are_read()
    ensures { ReferencesAreRead }
{}

/// The handle of an IOMMU. In contracts it is the IOMMU's offset.
pub type IommuOffset = Handle<Iommu>;

// The value of a flag if it is set, and 0 otherwise.
fn bit(set: bool, value: u16) -> u16
    ensures value { result ≡ bit set value }
    ensures small { result ≤ value }
{
    if set { value } else { 0 }
}

/// A wired interrupt of an IOMMU: 8 bytes.
#[derive(Drop)]
pub struct InterruptWire {
    number: u32,
    level_trig: bool,
    polarity_high: bool,
    aplic_id: u16,
}

impl InterruptWire {
    /// The interrupt with this number (offset 0) at the APLIC with this id (offset 6). Flag 1 (offset 4) says that it is level
    /// triggered, and flag 2 that it is active high.
    pub fn new(num: u32, level_trig: bool, polarity_high: bool, aplic_id: u16) -> InterruptWire
        ensures { result ≡ interrupt_wire num level_trig polarity_high aplic_id }
    {
        InterruptWire {
            number: num,
            level_trig,
            polarity_high,
            aplic_id,
        }
    }
}

/// The rows of an interrupt wire.
pub const INTERRUPT_WIRE: [Row; 3] = [
    Row::Number("Interrupt Number", 4),
    Row::Flags(
        "Flags",
        2,
        &[
            Bits::OneOf(
                0x1,
                &[Word(0x0, "Edge Triggered"), Word(0x1, "Level Triggered")],
            ),
            Bits::OneOf(0x2, &[Word(0x0, "Active Low"), Word(0x2, "Active High")]),
        ],
    ),
    Row::Hex("APLIC ID", 2),
];

impl Record<8> for InterruptWire {
    ghost fields = { wire_fields };

    fn rows() -> &'static [Row] {
        &INTERRUPT_WIRE
    }

    fn bytes(&self) -> [u8; 8] {
        record_of_numbers(
            &INTERRUPT_WIRE,
            &[
                u64::from(self.number),
                u64::from(bit(self.level_trig, 1) + bit(self.polarity_high, 2)),
                u64::from(self.aplic_id),
            ],
        )
    }
}

impl Aml for InterruptWire {
    ghost object = { λ w. whole (wire_bytes w) };

    ghost ends_well = { λ w. whole_ends_well (wire_bytes w) };

    fn to_aml_bytes(&self, sink: &mut dyn AmlSink) -> R<()> {
        write_record(self, sink)
    }
}

/// An IOMMU: 32 bytes, and 8 for each interrupt wire. Writing it returns `FieldWidth` if it would have more than 65,535 bytes.
#[derive(Drop)]
pub struct Iommu {
    id: u16,
    base: Option<u64>,
    device: Option<PciDevice>,
    domain: Option<u32>,
    wires: Option<Vec<InterruptWire>>,
}

impl Iommu {
    /// An IOMMU, by these values, where a value that is `None` is written as zeros:
    ///
    /// - its id (offset 4), and the physical address of its registers (offset 8),
    /// - the PCI function that it is (its segment at offset 20, bus, device and function at 22; flag 1 at offset 16),
    /// - its proximity domain (offset 24; flag 2 at offset 16),
    /// - its interrupt wires, whose number is at offset 28.
    pub fn new(
        id: u16,
        base_addr: Option<u64>,
        pci_device: Option<PciDevice>,
        proximity_domain: Option<u32>,
        int_wires: Option<Vec<InterruptWire>>,
    ) -> Iommu
        ensures { result ≡ iommu id base_addr pci_device proximity_domain int_wires }
    {
        Iommu {
            id,
            base: base_addr,
            device: pci_device,
            domain: proximity_domain,
            wires: int_wires,
        }
    }

    // The bytes of the IOMMU before its interrupt wires.
    fn head(&self, size: u16, wires: u16) -> [u8; 32]
        requires size { size ≡ 32 + 8 * length (entries_of self.now.wires) }
        requires count { wires ≡ length (entries_of self.now.wires) }
        ensures { result ≡ iommu_head self.now }
    {
        let (segment, bdf) = match &self.device {
            Some(device) => (device.segment, device.bdf),
            None => (0, 0),
        };
        let flags = bit(self.device.is_some(), 1) + bit(self.domain.is_some(), 2);
        record_of_numbers(
            &IOMMU,
            &[
                0,
                1,
                u64::from(size),
                u64::from(self.id),
                0,
                self.base.unwrap_or(0),
                u64::from(flags),
                u64::from(segment),
                u64::from(bdf),
                u64::from(self.domain.unwrap_or(0)),
                u64::from(wires),
                32,
            ],
        )
    }
}

/// The rows of a RISC-V IOMMU node before its wires.
pub const IOMMU: [Row; 12] = [
    Row::Preset("Type", 1, 0),
    Row::Preset("Revision", 1, 1),
    Row::Number("Length", 2),
    Row::Hex("ID", 2),
    Row::Preset("Model", 2, 0),
    Row::Hex("Base Address", 8),
    Row::Flags(
        "Flags",
        4,
        &[
            Bits::Flag(0x1, "PCI Device"),
            Bits::Flag(0x2, "Proximity Domain Valid"),
        ],
    ),
    Row::Number("PCI Segment", 2),
    Row::Flags("PCI BDF", 2, &BDF),
    Row::Number("Proximity Domain", 4),
    Row::Number("Number of Interrupt Wires", 2),
    Row::Preset("Offset of Interrupt Wires", 2, 32),
];

/// The rows of the fields before an IOMMU's interrupt wires, in order.
pub fn iommu_rows() -> &'static [Row]
    ensures { (i : Iommu) → AreRowsOf result.now (iommu_head_fields i) }
{
    &IOMMU
}

impl Aml for Iommu {
    ghost object = { λ i. structure_of (iommu_bytes i) };

    ghost ends_well = { λ i. structure_ends_well (iommu_bytes i) };

    fn to_aml_bytes(&self, sink: &mut dyn AmlSink) -> R<()> {
        let wires = entries_of(&self.wires);
        let size = told_size(32 + 8 * wires.len())?;
        write_with_entries(sink, &[&self.head(size, wires.len() as u16)], wires)
    }
}

/// A range of device ids, mapped to ids at an IOMMU: 20 bytes.
#[derive(Drop)]
pub struct IdMapping {
    src_id: u32,
    dst_id: u32,
    num_ids: u32,
    iommu: IommuOffset,
    ats: bool,
    pri: bool,
    rciep: bool,
}

impl IdMapping {
    /// Maps `num_ids` ids (offset 8), from `src_id` on (offset 0), to the ids from `dst_id` on (offset 4) at an IOMMU, whose
    /// offset is at 12. Flags at offset 16: 1 allows address translation services, 2 allows page requests, and 4 says that the
    /// devices are integrated endpoints of the root complex.
    pub fn new(
        src_id: u32,
        dst_id: u32,
        num_ids: u32,
        dst_iommu_offset: IommuOffset,
        ats: bool,
        pri: bool,
        rciep: bool,
    ) -> IdMapping
        ensures { result ≡ id_mapping src_id dst_id num_ids dst_iommu_offset ats pri rciep }
    {
        IdMapping {
            src_id,
            dst_id,
            num_ids,
            iommu: dst_iommu_offset,
            ats,
            pri,
            rciep,
        }
    }
}

/// The rows of an ID mapping.
pub const ID_MAPPING: [Row; 5] = [
    Row::Hex("Source ID Base", 4),
    Row::Hex("Destination ID Base", 4),
    Row::Number("Number of IDs", 4),
    Row::Reference("Destination IOMMU Offset", 4),
    Row::Flags(
        "Flags",
        4,
        &[
            Bits::Flag(0x1, "ATS Required"),
            Bits::Flag(0x2, "PRI Required"),
            Bits::Flag(0x4, "RCiEP"),
        ],
    ),
];

impl Record<20> for IdMapping {
    ghost fields = { mapping_fields };

    fn rows() -> &'static [Row] {
        &ID_MAPPING
    }

    fn bytes(&self) -> [u8; 20] {
        let flags = bit(self.ats, 1) + bit(self.pri, 2) + bit(self.rciep, 4);
        record_of_numbers(
            &ID_MAPPING,
            &[
                u64::from(self.src_id),
                u64::from(self.dst_id),
                u64::from(self.num_ids),
                u64::from(self.iommu.offset()),
                u64::from(flags),
            ],
        )
    }
}

impl Aml for IdMapping {
    ghost object = { λ m. whole (mapping_bytes m) };

    ghost ends_well = { λ m. whole_ends_well (mapping_bytes m) };

    fn to_aml_bytes(&self, sink: &mut dyn AmlSink) -> R<()> {
        write_record(self, sink)
    }
}

/// A root complex of PCI Express: 16 bytes, and 20 for each mapping. Writing it returns `FieldWidth` if it would have more than
/// 65,535 bytes.
#[derive(Drop)]
pub struct PcieRootComplex {
    id: u16,
    segment: u16,
    ats: bool,
    pri: bool,
    mappings: Option<Vec<IdMapping>>,
}

impl PcieRootComplex {
    /// The root complex with this id (offset 4) in this PCI segment (offset 6). Flags at offset 8: 1 says that it supports
    /// address translation services, and 2 page requests. The number of its id mappings is at offset 14.
    pub fn new(
        id: u16,
        pci_segment: u16,
        ats: bool,
        pri: bool,
        id_mappings: Option<Vec<IdMapping>>,
    ) -> PcieRootComplex
        ensures { result ≡ root_complex id pci_segment ats pri id_mappings }
    {
        PcieRootComplex {
            id,
            segment: pci_segment,
            ats,
            pri,
            mappings: id_mappings,
        }
    }

    // The bytes of the root complex before its mappings.
    fn head(&self, size: u16, mappings: u16) -> [u8; 16]
        requires size { size ≡ 16 + 20 * length (entries_of self.now.mappings) }
        requires count { mappings ≡ length (entries_of self.now.mappings) }
        ensures { result ≡ root_complex_head self.now }
    {
        let flags = bit(self.ats, 1) + bit(self.pri, 2);
        record_of_numbers(
            &ROOT_COMPLEX,
            &[
                1,
                1,
                u64::from(size),
                u64::from(self.id),
                u64::from(self.segment),
                u64::from(flags),
                16,
                u64::from(mappings),
            ],
        )
    }
}

/// The rows of a PCIe root complex node before its mappings.
pub const ROOT_COMPLEX: [Row; 8] = [
    Row::Preset("Type", 1, 1),
    Row::Preset("Revision", 1, 1),
    Row::Number("Length", 2),
    Row::Hex("ID", 2),
    Row::Number("PCI Segment", 2),
    Row::Flags(
        "Flags",
        4,
        &[
            Bits::Flag(0x1, "ATS Supported"),
            Bits::Flag(0x2, "PRI Supported"),
        ],
    ),
    Row::Preset("Offset of Mappings", 2, 16),
    Row::Number("Number of Mappings", 2),
];

/// The rows of the fields before a root complex's mappings, in order.
pub fn root_complex_rows() -> &'static [Row]
    ensures { (c : PcieRootComplex) → AreRowsOf result.now (root_complex_head_fields c) }
{
    &ROOT_COMPLEX
}

impl Aml for PcieRootComplex {
    ghost object = { λ c. structure_of (root_complex_bytes c) };

    ghost ends_well = { λ c. structure_ends_well (root_complex_bytes c) };

    fn to_aml_bytes(&self, sink: &mut dyn AmlSink) -> R<()> {
        let mappings = entries_of(&self.mappings);
        let size = told_size(16 + 20 * mappings.len())?;
        write_with_entries(sink, &[&self.head(size, mappings.len() as u16)], mappings)
    }
}

/// A platform device: 13 bytes and its name, and 20 for each mapping. Writing it returns `FieldWidth` if it would have more than
/// 65,535 bytes.
#[derive(Drop)]
pub struct Platform {
    id: u16,
    name: String,
    mappings: Option<Vec<IdMapping>>,
}

impl Platform {
    /// The device with this id (offset 4) and this full name in the namespace (offset 12, with a zero after it). The offset of
    /// its id mappings is at offset 8, and their number at 10.
    pub fn new(id: u16, name: String, id_mappings: Option<Vec<IdMapping>>) -> Platform
        ensures { result ≡ platform id name id_mappings }
    {
        Platform {
            id,
            name,
            mappings: id_mappings,
        }
    }

    // The bytes of the device before its name.
    fn head(&self, size: u16, start: u16, mappings: u16) -> [u8; 12]
        requires size { size ≡ mappings_at self.now + 20 * length (entries_of self.now.mappings) }
        requires start { start ≡ mappings_at self.now }
        requires count { mappings ≡ length (entries_of self.now.mappings) }
        ensures { result ≡ platform_head self.now }
    {
        record_of_numbers(
            &PLATFORM,
            &[
                2,
                1,
                u64::from(size),
                u64::from(self.id),
                0,
                u64::from(start),
                u64::from(mappings),
            ],
        )
    }
}

/// The rows of a platform device node before its name.
pub const PLATFORM: [Row; 7] = [
    Row::Preset("Type", 1, 2),
    Row::Preset("Revision", 1, 1),
    Row::Number("Length", 2),
    Row::Hex("ID", 2),
    Row::Reserved(2),
    Row::Number("Offset of Mappings", 2),
    Row::Number("Number of Mappings", 2),
];

/// The rows of the fields before a device's name, in order.
pub fn platform_rows() -> &'static [Row]
    ensures { (p : Platform) → AreRowsOf result.now (platform_head_fields p) }
{
    &PLATFORM
}

impl Aml for Platform {
    ghost object = { λ p. structure_of (platform_bytes p) };

    ghost ends_well = { λ p. structure_ends_well (platform_bytes p) };

    fn to_aml_bytes(&self, sink: &mut dyn AmlSink) -> R<()> {
        let name = self.name.as_bytes();
        let mappings = entries_of(&self.mappings);
        let start = told_size(13 + name.len())?;
        let size = told_size(usize::from(start) + 20 * mappings.len())?;
        let head = self.head(size, start, mappings.len() as u16);
        write_with_entries(sink, &[&head, name, &[0]], mappings)
    }
}
