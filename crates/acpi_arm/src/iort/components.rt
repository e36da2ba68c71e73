//! Devices of the namespace, and PCI root complexes.

ghost use Rattle.std.specs.Prelude.{◌≡◌, ◌≤◌, ◌<◌, ◌*◌, length, string_bytes, bit_or};
ghost use Rattle.acpi_base.specs.Fields.{AreRowsOf};
ghost use Rattle.acpi_base.specs.Object.{whole, whole_ends_well};
ghost use Rattle.acpi_core.specs.Entries.{with_entry};
ghost use Rattle.acpi_core.specs.Structure.{structure_of, structure_ends_well};
ghost use Rattle.acpi_arm.specs.Iort.{Pushes, mapping_bytes};
ghost use Rattle.acpi_arm.specs.IortNodes.{named_component, name_end, component_start, component_size};
ghost use Rattle.acpi_arm.specs.IortNodes.{component_head_fields, component_head, component_bytes};
ghost use Rattle.acpi_arm.specs.IortNodes.{root_complex, root_complex_head_fields, root_complex_head, root_complex_bytes};
ghost use Rattle.acpi_arm.specs.IortNodes.{earlier_root_complex_head_fields, earlier_root_complex_head};
ghost use Rattle.acpi_arm.specs.IortNodes.{earlier_root_complex_bytes};
ghost use Rattle.acpi_arm.specs.declared.iort.components.EarlierRootComplex.{EarlierRootComplex};
ghost use Rattle.acpi_arm.specs.declared.iort.components.NamedComponent.{NamedComponent};
ghost use Rattle.acpi_arm.specs.declared.iort.components.RootComplex.{RootComplex};

use crate::iort::mapping::{ACCESS_FLAGS, HINTS, IdMapping, MemoryAccess};
use crate::offsets::offset_if;
use acpi_base::error::R;
use acpi_base::object::Aml;
use acpi_base::parts::write_parts;
use acpi_base::row::{Bits, Record, Row, Word, record_of_numbers};
use acpi_base::sink::AmlSink;
use acpi_core::entries::Entries;
use acpi_core::told::told_size;
use std::alloc::Global;

// A flag of a named component.
const STALL_SUPPORTED: u32 = 1;

/// A device of the namespace: 29 bytes, its name with a zero and zeros up to a multiple of 4 bytes, and 20 for each mapping.
/// Writing it returns `FieldWidth` if it would have more than 65,535 bytes.
#[derive(Drop)]
pub struct NamedComponent {
    pub(crate) identifier: u32,
    flags: u32,
    substream_width: u8,
    access: MemoryAccess,
    address_size_limit: u8,
    name: String,
    mappings: Entries<20, 3275>,
}

impl NamedComponent {
    /// The device with this full name in the namespace (offset 29). Its identifier is 0 until it is added to a table, and so are
    /// its other fields.
    pub fn new(alloc: Global, name: String) -> NamedComponent
        ensures { result ≡ named_component name }
    {
        NamedComponent {
            identifier: 0,
            flags: 0,
            substream_width: 0,
            access: MemoryAccess::new(),
            address_size_limit: 0,
            name,
            mappings: Entries::new(alloc),
        }
    }

    /// Sets node flag 1 (offset 16): the device supports stalled transactions.
    pub fn stall_supported(mut self) -> NamedComponent
        ensures { result ≡ record self { flags = bit_or self.flags 1 } }
    {
        self.flags |= STALL_SUPPORTED;
        self
    }

    /// Sets the number of bits of a substream id (bits 1 to 5 at offset 16). The caller proves that it is below 32.
    pub fn substream_width(mut self, bits: u8) -> NamedComponent
        requires bits { bits < 32 }
        ensures { result ≡ record self { substream_width = bits } }
    {
        self.substream_width = bits;
        self
    }

    /// Sets how the device accesses memory (offset 20).
    pub fn memory_access(mut self, access: MemoryAccess) -> NamedComponent
        ensures { result ≡ record self { access = access } }
    {
        self.access = access;
        self
    }

    /// Sets the number of bits of an address that the device can access (offset 28).
    pub fn address_size_limit(mut self, bits: u8) -> NamedComponent
        ensures { result ≡ record self { address_size_limit = bits } }
    {
        self.address_size_limit = bits;
        self
    }

    /// The number of mappings (offset 8): at most 3,275.
    pub fn mapping_count(&self) -> usize
        ensures { result ≡ self.now.mappings.count }
    {
        self.mappings.len()
    }

    /// Adds a mapping of the device's ids. The error is `FieldWidth` at mapping number 3,276. After an error the device is
    /// unchanged.
    pub fn add_mapping(&mut self, mapping: IdMapping) -> R<()>
        ensures { Pushes result self.old
            (record self.old { mappings = with_entry self.old.mappings (mapping_bytes mapping) }) self.new
            self.old.mappings.count 3275 }
    {
        self.mappings.push(mapping.bytes())
    }

    // The bytes of the node before its name.
    fn head(&self, start: u16, size: u16) -> [u8; 29]
        requires start { start ≡ component_start self.now }
        requires size { size ≡ component_size self.now }
        ensures { result ≡ component_head self.now }
    {
        let mappings = self.mappings.len();
        record_of_numbers(
            &NAMED_COMPONENT,
            &[
                1,
                u64::from(size),
                4,
                u64::from(self.identifier),
                mappings as u64,
                u64::from(offset_if(mappings, start)),
                u64::from(self.flags | 2 * u32::from(self.substream_width)),
                u64::from(self.access.cache_coherent),
                u64::from(self.access.hints),
                0,
                u64::from(self.access.flags),
                u64::from(self.address_size_limit),
            ],
        )
    }
}

// The number of zeros after a name of this many bytes.
fn name_end(size: usize) -> usize
    ensures is { result ≡ name_end size }
    ensures few { result ≤ 4 }
{
    4 - (size % 4 + 1) % 4
}

// The words of Cache Coherent Attribute.
const COHERENT: [Word; 2] = [Word(0, "Not Coherent"), Word(1, "Fully Coherent")];

/// The rows of a named component node before its name.
pub const NAMED_COMPONENT: [Row; 12] = [
    Row::Preset("Type", 1, 1),
    Row::Number("Length", 2),
    Row::Preset("Revision", 1, 4),
    Row::Hex("Identifier", 4),
    Row::Number("Number of ID Mappings", 4),
    Row::Number("Reference to ID Array", 4),
    Row::Flags(
        "Node Flags",
        4,
        &[
            Bits::Flag(0x1, "Stall Supported"),
            Bits::Number(0x3e, 0x2, "Substream Width"),
        ],
    ),
    Row::OneOf("Cache Coherent Attribute", 4, &COHERENT),
    Row::Flags("Allocation Hints", 1, &HINTS),
    Row::Reserved(2),
    Row::Flags("Memory Access Flags", 1, &ACCESS_FLAGS),
    Row::Number("Device Memory Address Size Limit", 1),
];

/// The rows of the fields before a component's name, in order.
pub fn named_component_rows() -> &'static [Row]
    ensures { (c : NamedComponent) → AreRowsOf result.now (component_head_fields c) }
{
    &NAMED_COMPONENT
}

impl Aml for NamedComponent {
    ghost object = { λ c. structure_of (component_bytes c) };

    ghost ends_well = { λ c. structure_ends_well (component_bytes c) };

    fn to_aml_bytes(&self, sink: &mut dyn AmlSink) -> R<()> {
        let name = self.name.as_bytes();
        let mappings = self.mappings.as_slice();
        let zeros = name_end(name.len());
        let start = told_size(29 + name.len() + zeros)?;
        let size = told_size(usize::from(start) + mappings.len())?;
        let head = self.head(start, size);
        write_parts(sink, &[&head, name, &[0; 4][..zeros], mappings])
    }
}

// Flags of the ATS attribute of a root complex.
const ATS_SUPPORTED: u32 = 1;

const PRI_SUPPORTED: u32 = 1 << 1;

const PASID_FORWARDING: u32 = 1 << 2;

// A flag of a root complex.
const PASID_SUPPORTED: u32 = 1;

/// A PCI root complex: 40 bytes, and 20 for each mapping.
#[derive(Drop)]
pub struct RootComplex {
    pub(crate) identifier: u32,
    access: MemoryAccess,
    ats_attribute: u32,
    segment: u32,
    address_size_limit: u8,
    max_pasid_width: u8,
    flags: u32,
    mappings: Entries<20, 3274>,
}

impl RootComplex {
    /// The root complex of a PCI segment (offset 28), whose number MCFG has. Its identifier is 0 until it is added to a table,
    /// and so are its other fields.
    pub fn new(alloc: Global, segment: u32) -> RootComplex
        ensures { result ≡ root_complex segment }
    {
        RootComplex {
            identifier: 0,
            access: MemoryAccess::new(),
            ats_attribute: 0,
            segment,
            address_size_limit: 0,
            max_pasid_width: 0,
            flags: 0,
            mappings: Entries::new(alloc),
        }
    }

    /// Sets how the devices below it access memory (offset 16).
    pub fn memory_access(mut self, access: MemoryAccess) -> RootComplex
        ensures { result ≡ record self { access = access } }
    {
        self.access = access;
        self
    }

    /// Sets flag 1 of the ATS attribute (offset 24): it supports address translation services.
    pub fn ats_supported(mut self) -> RootComplex
        ensures { result ≡ record self { ats_attribute = bit_or self.ats_attribute 1 } }
    {
        self.ats_attribute |= ATS_SUPPORTED;
        self
    }

    /// Sets flag 2 of the ATS attribute (offset 24): it supports page requests.
    pub fn pri_supported(mut self) -> RootComplex
        ensures { result ≡ record self { ats_attribute = bit_or self.ats_attribute 2 } }
    {
        self.ats_attribute |= PRI_SUPPORTED;
        self
    }

    /// Sets flag 4 of the ATS attribute (offset 24): it forwards PASIDs of translated transactions to the SMMU.
    pub fn pasid_forwarding(mut self) -> RootComplex
        ensures { result ≡ record self { ats_attribute = bit_or self.ats_attribute 4 } }
    {
        self.ats_attribute |= PASID_FORWARDING;
        self
    }

    /// Sets the number of bits of an address that it can access (offset 32).
    pub fn address_size_limit(mut self, bits: u8) -> RootComplex
        ensures { result ≡ record self { address_size_limit = bits } }
    {
        self.address_size_limit = bits;
        self
    }

    /// Sets the greatest number of bits of a PASID (bits 0 to 4 at offset 33), and flag 1 (offset 36): it supports PASIDs. The
    /// caller proves that the number is below 32.
    pub fn pasid_supported(mut self, bits: u8) -> RootComplex
        requires bits { bits < 32 }
        ensures { result ≡ record self { max_pasid_width = bits; flags = bit_or self.flags 1 } }
    {
        self.max_pasid_width = bits;
        self.flags |= PASID_SUPPORTED;
        self
    }

    /// The number of mappings (offset 8): at most 3,274.
    pub fn mapping_count(&self) -> usize
        ensures { result ≡ self.now.mappings.count }
    {
        self.mappings.len()
    }

    /// Adds a mapping of requester ids. The error is `FieldWidth` at mapping number 3,275. After an error the root complex is
    /// unchanged.
    pub fn add_mapping(&mut self, mapping: IdMapping) -> R<()>
        ensures { Pushes result self.old
            (record self.old { mappings = with_entry self.old.mappings (mapping_bytes mapping) }) self.new
            self.old.mappings.count 3274 }
    {
        self.mappings.push(mapping.bytes())
    }

    /// The same root complex in the form of node revision 3 (DEN0049E.b), which has nothing about PASIDs: 36 bytes before its
    /// mappings.
    pub fn earlier(self) -> EarlierRootComplex
        ensures { result ≡ record { root_complex = self } }
    {
        EarlierRootComplex { root_complex: self }
    }

    // The bytes of the node before its mappings.
    fn head(&self) -> [u8; 40]
        ensures { result ≡ root_complex_head self.now }
    {
        let mappings = self.mappings.len();
        record_of_numbers(
            &ROOT_COMPLEX,
            &[
                2,
                40 + self.mappings.as_slice().len() as u64,
                4,
                u64::from(self.identifier),
                mappings as u64,
                u64::from(offset_if(mappings, 40)),
                u64::from(self.access.cache_coherent),
                u64::from(self.access.hints),
                0,
                u64::from(self.access.flags),
                u64::from(self.ats_attribute),
                u64::from(self.segment),
                u64::from(self.address_size_limit),
                u64::from(self.max_pasid_width),
                0,
                u64::from(self.flags),
            ],
        )
    }
}

const ATS_ATTRIBUTE: [Bits; 3] = [
    Bits::Flag(0x1, "ATS Supported"),
    Bits::Flag(0x2, "PRI Supported"),
    Bits::Flag(0x4, "PASID Forwarding Supported"),
];

const PASID_CAPABILITIES: [Bits; 1] = [Bits::Number(0x1f, 0x1, "Max PASID Width")];

const ROOT_COMPLEX_FLAGS: [Bits; 1] = [Bits::Flag(0x1, "PASID Supported")];

/// The last rows of a root complex node before its mappings: from offset 33 on. Nodes of a revision below 4 don't have them.
pub const ROOT_COMPLEX_PASID: [Row; 3] = [
    Row::Flags("PASID Capabilities", 2, &PASID_CAPABILITIES),
    Row::Reserved(1),
    Row::Flags("Flags", 4, &ROOT_COMPLEX_FLAGS),
];

/// The rows of a root complex node before its mappings.
pub const ROOT_COMPLEX: [Row; 16] = [
    Row::Preset("Type", 1, 2),
    Row::Number("Length", 2),
    Row::Preset("Revision", 1, 4),
    Row::Hex("Identifier", 4),
    Row::Number("Number of ID Mappings", 4),
    Row::Number("Reference to ID Array", 4),
    Row::OneOf("Cache Coherent Attribute", 4, &COHERENT),
    Row::Flags("Allocation Hints", 1, &HINTS),
    Row::Reserved(2),
    Row::Flags("Memory Access Flags", 1, &ACCESS_FLAGS),
    Row::Flags("ATS Attribute", 4, &ATS_ATTRIBUTE),
    Row::Number("PCI Segment Number", 4),
    Row::Number("Memory Address Size Limit", 1),
    Row::Flags("PASID Capabilities", 2, &PASID_CAPABILITIES),
    Row::Reserved(1),
    Row::Flags("Flags", 4, &ROOT_COMPLEX_FLAGS),
];

/// The rows of the fields before a root complex's mappings, in order.
pub fn root_complex_rows() -> &'static [Row]
    ensures { (c : RootComplex) → AreRowsOf result.now (root_complex_head_fields c) }
{
    &ROOT_COMPLEX
}

impl Aml for RootComplex {
    ghost object = { λ c. whole (root_complex_bytes c) };

    ghost ends_well = { λ c. whole_ends_well (root_complex_bytes c) };

    fn to_aml_bytes(&self, sink: &mut dyn AmlSink) -> R<()> {
        write_parts(sink, &[&self.head(), self.mappings.as_slice()])
    }
}

/// A PCI root complex in the form of node revision 3 (DEN0049E.b), which `RootComplex::earlier` makes: 36 bytes, and 20 for each
/// mapping.
#[derive(Drop)]
pub struct EarlierRootComplex {
    pub(crate) root_complex: RootComplex,
}

impl EarlierRootComplex {
    // The bytes of the node before its mappings.
    fn head(&self) -> [u8; 36]
        ensures { result ≡ earlier_root_complex_head self.now }
    {
        let node = &self.root_complex;
        let mappings = node.mappings.len();
        record_of_numbers(
            &EARLIER_ROOT_COMPLEX,
            &[
                2,
                36 + node.mappings.as_slice().len() as u64,
                3,
                u64::from(node.identifier),
                mappings as u64,
                u64::from(offset_if(mappings, 36)),
                u64::from(node.access.cache_coherent),
                u64::from(node.access.hints),
                0,
                u64::from(node.access.flags),
                u64::from(node.ats_attribute),
                u64::from(node.segment),
                u64::from(node.address_size_limit),
                0,
            ],
        )
    }
}

/// The rows of a root complex node of revision 3 before its mappings.
pub const EARLIER_ROOT_COMPLEX: [Row; 14] = [
    Row::Preset("Type", 1, 2),
    Row::Number("Length", 2),
    Row::Preset("Revision", 1, 3),
    Row::Hex("Identifier", 4),
    Row::Number("Number of ID Mappings", 4),
    Row::Number("Reference to ID Array", 4),
    Row::OneOf("Cache Coherent Attribute", 4, &COHERENT),
    Row::Flags("Allocation Hints", 1, &HINTS),
    Row::Reserved(2),
    Row::Flags("Memory Access Flags", 1, &ACCESS_FLAGS),
    Row::Flags("ATS Attribute", 4, &ATS_ATTRIBUTE),
    Row::Number("PCI Segment Number", 4),
    Row::Number("Memory Address Size Limit", 1),
    Row::Reserved(3),
];

/// The rows of the fields before the mappings of a root complex of node revision 3, in order.
pub fn earlier_root_complex_rows() -> &'static [Row]
    ensures { (c : EarlierRootComplex) → AreRowsOf result.now (earlier_root_complex_head_fields c) }
{
    &EARLIER_ROOT_COMPLEX
}

impl Aml for EarlierRootComplex {
    ghost object = { λ c. whole (earlier_root_complex_bytes c) };

    ghost ends_well = { λ c. whole_ends_well (earlier_root_complex_bytes c) };

    fn to_aml_bytes(&self, sink: &mut dyn AmlSink) -> R<()> {
        write_parts(sink, &[&self.head(), self.root_complex.mappings.as_slice()])
    }
}
