//! Resources that a controller allocates.

ghost use Rattle.std.specs.Prelude.{◌≡◌, ◌++◌, length, IfOk, OnOk, IfErr};
ghost use Rattle.acpi_base.specs.Fields.{AreRowsOf};
ghost use Rattle.acpi_base.specs.Object.{whole, whole_ends_well};
ghost use Rattle.acpi_base.specs.Sink.{Took, Refused};
ghost use Rattle.acpi_core.specs.Structure.{structure_of, structure_ends_well};
ghost use Rattle.acpi_hest.specs.Resource.{cache_resource, cache_bytes, memory_resource, memory_bytes};
ghost use Rattle.acpi_hest.specs.Resource.{acpi_resource, acpi_bytes, pci_resource, pci_bytes};
ghost use Rattle.acpi_hest.specs.Resource.{id_number, payload, id_bytes, same_id};
ghost use Rattle.acpi_hest.specs.Resource.{resource, resource_head_fields, resource_head, resource_bytes, SameResource};
ghost use Rattle.acpi_hest.specs.declared.rqsc.resource.ResourceStructure.{ResourceStructure};
ghost use Rattle.acpi_hest.specs.Resource.{cache_fields, memory_fields, acpi_fields, pci_fields};

use crate::parts::{write_behind, write_record_behind};
use acpi_base::error::{Error, R};
use acpi_base::object::Aml;
use acpi_base::row::{Bits, Record, Row, Word, record_of_numbers, write_record};
use acpi_base::sink::AmlSink;

/// The type of a resource (offset 0).
#[derive(Copy, Clone, Debug)]
pub enum ResourceType {
    Cache = 0,
    Memory = 1,
}

/// A cache in PPTT, by its cache id: 12 bytes.
#[derive(Drop, Clone, Debug)]
pub struct CacheResource {
    cache_id: u32,
}

impl CacheResource {
    /// The cache whose structure in PPTT has this id.
    pub fn new(cache_id: u32) -> CacheResource
        ensures { result ≡ cache_resource cache_id }
    {
        CacheResource { cache_id }
    }
}

/// The rows of the ID of a cache.
pub const CACHE_RESOURCE: [Row; 2] = [Row::Hex("Cache ID", 4), Row::Reserved(8)];

impl Record<12> for CacheResource {
    ghost fields = { cache_fields };

    fn rows() -> &'static [Row] {
        &CACHE_RESOURCE
    }

    fn bytes(&self) -> [u8; 12] {
        record_of_numbers(&CACHE_RESOURCE, &[u64::from(self.cache_id), 0])
    }
}

impl Aml for CacheResource {
    ghost object = { λ r. whole (cache_bytes r) };

    ghost ends_well = { λ r. whole_ends_well (cache_bytes r) };

    fn to_aml_bytes(&self, sink: &mut dyn AmlSink) -> R<()> {
        write_record(self, sink)
    }
}

/// The memory of a proximity domain in SRAT: 20 bytes.
#[derive(Drop, Clone, Debug)]
pub struct MemoryAffinityStructureResource {
    proximity_domain: u32,
    raw_bandwidth_per_block: u64,
}

impl MemoryAffinityStructureResource {
    /// The memory of a domain, or 0 if there is no SRAT, and the bytes a second of one bandwidth block.
    pub fn new(
        proximity_domain: u32,
        raw_bandwidth_per_block: u64,
    ) -> MemoryAffinityStructureResource
        ensures { result ≡ memory_resource proximity_domain raw_bandwidth_per_block }
    {
        MemoryAffinityStructureResource {
            proximity_domain,
            raw_bandwidth_per_block,
        }
    }
}

/// The rows of the ID of a range of memory.
pub const MEMORY_RESOURCE: [Row; 3] = [
    Row::Number("Proximity Domain", 4),
    Row::Reserved(8),
    Row::Number("Raw Bandwidth per Block", 8),
];

impl Record<20> for MemoryAffinityStructureResource {
    ghost fields = { memory_fields };

    fn rows() -> &'static [Row] {
        &MEMORY_RESOURCE
    }

    fn bytes(&self) -> [u8; 20] {
        record_of_numbers(
            &MEMORY_RESOURCE,
            &[
                u64::from(self.proximity_domain),
                0,
                self.raw_bandwidth_per_block,
            ],
        )
    }
}

impl Aml for MemoryAffinityStructureResource {
    ghost object = { λ r. whole (memory_bytes r) };

    ghost ends_well = { λ r. whole_ends_well (memory_bytes r) };

    fn to_aml_bytes(&self, sink: &mut dyn AmlSink) -> R<()> {
        write_record(self, sink)
    }
}

/// A device of the ACPI namespace: 12 bytes.
#[derive(Drop, Clone, Debug)]
pub struct ACPIDeviceResource {
    acpi_hardware_id: u64,
    acpi_unique_id: u32,
}

impl ACPIDeviceResource {
    /// The device with this `_HID` and `_UID`.
    pub fn new(acpi_hardware_id: u64, acpi_unique_id: u32) -> ACPIDeviceResource
        ensures { result ≡ acpi_resource acpi_hardware_id acpi_unique_id }
    {
        ACPIDeviceResource {
            acpi_hardware_id,
            acpi_unique_id,
        }
    }
}

/// The rows of the ID of an ACPI device.
pub const ACPI_DEVICE_RESOURCE: [Row; 2] = [
    Row::Hex("ACPI Hardware ID", 8),
    Row::Hex("ACPI Unique ID", 4),
];

impl Record<12> for ACPIDeviceResource {
    ghost fields = { acpi_fields };

    fn rows() -> &'static [Row] {
        &ACPI_DEVICE_RESOURCE
    }

    fn bytes(&self) -> [u8; 12] {
        record_of_numbers(
            &ACPI_DEVICE_RESOURCE,
            &[self.acpi_hardware_id, u64::from(self.acpi_unique_id)],
        )
    }
}

impl Aml for ACPIDeviceResource {
    ghost object = { λ r. whole (acpi_bytes r) };

    ghost ends_well = { λ r. whole_ends_well (acpi_bytes r) };

    fn to_aml_bytes(&self, sink: &mut dyn AmlSink) -> R<()> {
        write_record(self, sink)
    }
}

/// A PCI function: 12 bytes.
#[derive(Drop, Clone, Debug)]
pub struct PCIDeviceResource {
    bdf: u32,
}

impl PCIDeviceResource {
    /// A PCI function, whose segment, bus, device and function are joined as the platform defines it.
    pub fn new(bdf: u32) -> PCIDeviceResource
        ensures { result ≡ pci_resource bdf }
    {
        PCIDeviceResource { bdf }
    }
}

/// The rows of the ID of a PCI device.
pub const PCI_DEVICE_RESOURCE: [Row; 2] = [
    Row::Flags(
        "Segment and BDF",
        4,
        &[
            Bits::Number(0xffff0000, 0x10000, "Segment"),
            Bits::Number(0xff00, 0x100, "Bus"),
            Bits::Number(0xf8, 0x8, "Device"),
            Bits::Number(0x7, 0x1, "Function"),
        ],
    ),
    Row::Reserved(8),
];

impl Record<12> for PCIDeviceResource {
    ghost fields = { pci_fields };

    fn rows() -> &'static [Row] {
        &PCI_DEVICE_RESOURCE
    }

    fn bytes(&self) -> [u8; 12] {
        record_of_numbers(&PCI_DEVICE_RESOURCE, &[u64::from(self.bdf), 0])
    }
}

impl Aml for PCIDeviceResource {
    ghost object = { λ r. whole (pci_bytes r) };

    ghost ends_well = { λ r. whole_ends_well (pci_bytes r) };

    fn to_aml_bytes(&self, sink: &mut dyn AmlSink) -> R<()> {
        write_record(self, sink)
    }
}

/// The id of a resource. A vendor's id has its own type, two ids, and bytes after these.
#[derive(Drop, Debug)]
pub enum ResourceID {
    Cache(CacheResource),
    MemoryAffinityStructure(MemoryAffinityStructureResource),
    ACPIDevice(ACPIDeviceResource),
    PCIDevice(PCIDeviceResource),
    VendorSpecific(u8, Vec<u8>),
}

impl ResourceID {
    /// The number of the id's type: 0 to 3 in the order of the variants, or the vendor's number.
    pub fn resource_id_type(&self) -> u8
        ensures { result ≡ id_number self.now }
    {
        match self {
            ResourceID::Cache(_) => 0,
            ResourceID::MemoryAffinityStructure(_) => 1,
            ResourceID::ACPIDevice(_) => 2,
            ResourceID::PCIDevice(_) => 3,
            ResourceID::VendorSpecific(kind, _) => *kind,
        }
    }

    /// The number of bytes of the id, with the byte of its type.
    pub fn len(&self) -> usize
        ensures { result ≡ length (id_bytes self.now) }
    {
        match self {
            ResourceID::Cache(_) => 13,
            ResourceID::MemoryAffinityStructure(_) => 21,
            ResourceID::ACPIDevice(_) => 13,
            ResourceID::PCIDevice(_) => 13,
            ResourceID::VendorSpecific(_, bytes) => 1 + bytes.len(),
        }
    }

    /// An id with the same value. The bytes of a vendor's id are in memory of the same allocator. The only error is `Memory`.
    pub fn clone(&self) -> R<ResourceID>
        ensures ok { IfOk result (λ id. same_id id self.now) }
        ensures err { IfErr result (λ e. e ≡ Error.Memory) }
    {
        match self {
            ResourceID::Cache(cache) => Ok(ResourceID::Cache(cache.clone()?)),
            ResourceID::MemoryAffinityStructure(memory) => {
                Ok(ResourceID::MemoryAffinityStructure(memory.clone()?))
            }
            ResourceID::ACPIDevice(device) => Ok(ResourceID::ACPIDevice(device.clone()?)),
            ResourceID::PCIDevice(device) => Ok(ResourceID::PCIDevice(device.clone()?)),
            ResourceID::VendorSpecific(kind, bytes) => Ok(ResourceID::VendorSpecific(
                *kind,
                bytes.to_vec(*bytes.allocator())?,
            )),
        }
    }

    // Writes a list of bytes to a sink, and then those of the id.
    fn write_behind(&self, head: &[u8], sink: &mut dyn AmlSink) -> R<()>
        ensures ok { OnOk result (Took (meaning sink.old) (head.now ++ payload self.now) (meaning sink.new)) }
        ensures err { IfErr result (λ e. Refused e (meaning sink.old) (head.now ++ payload self.now) (meaning sink.new)) }
    {
        match self {
            ResourceID::Cache(cache) => write_record_behind(head, cache, sink),
            ResourceID::MemoryAffinityStructure(memory) => write_record_behind(head, memory, sink),
            ResourceID::ACPIDevice(device) => write_record_behind(head, device, sink),
            ResourceID::PCIDevice(device) => write_record_behind(head, device, sink),
            ResourceID::VendorSpecific(_, bytes) => write_behind(head, bytes, sink),
        }
    }
}

impl Aml for ResourceID {
    ghost object = { λ id. whole (id_bytes id) };

    ghost ends_well = { λ id. whole_ends_well (id_bytes id) };

    fn to_aml_bytes(&self, sink: &mut dyn AmlSink) -> R<()> {
        self.write_behind(&[self.resource_id_type()], sink)
    }
}

/// A resource that a controller allocates: 7 bytes, and those of its id. Writing it returns `FieldWidth` if it has more than
/// 65,535 bytes.
#[derive(Drop, Debug)]
pub struct ResourceStructure {
    kind: ResourceType,
    flags: u16,
    id: ResourceID,
}

impl ResourceStructure {
    /// A resource with the flags of its type (offset 4).
    pub fn new(
        resource_type: ResourceType,
        resource_flags: u16,
        resource_id: ResourceID,
    ) -> ResourceStructure
        ensures { result ≡ resource resource_type resource_flags resource_id }
    {
        ResourceStructure {
            kind: resource_type,
            flags: resource_flags,
            id: resource_id,
        }
    }

    /// The number of bytes of the resource, even if it has too many to be written.
    pub fn len(&self) -> usize
        ensures { result ≡ length (resource_bytes self.now) }
    {
        7 + self.id.len()
    }

    /// A resource with the same value, whose id `ResourceID::clone` makes.
    pub fn clone(&self) -> R<ResourceStructure>
        ensures ok { IfOk result (λ r. SameResource r self.now) }
        ensures err { IfErr result (λ e. e ≡ Error.Memory) }
    {
        Ok(ResourceStructure {
            kind: self.kind,
            flags: self.flags,
            id: self.id.clone()?,
        })
    }

    // The bytes of the resource before its id.
    fn head(&self, size: u16) -> [u8; 8]
        requires { size ≡ length (resource_bytes self.now) }
        ensures { result ≡ resource_head self.now }
    {
        record_of_numbers(
            &RESOURCE,
            &[
                self.kind as u64,
                0,
                u64::from(size),
                u64::from(self.flags),
                0,
                u64::from(self.id.resource_id_type()),
            ],
        )
    }
}

/// The rows of a resource before its ID.
pub const RESOURCE: [Row; 6] = [
    Row::OneOf("Resource Type", 1, &[Word(0, "Cache"), Word(1, "Memory")]),
    Row::Reserved(1),
    Row::Number("Length", 2),
    Row::Hex("Resource Flags", 2),
    Row::Reserved(1),
    Row::OneOf(
        "Resource ID Type",
        1,
        &[
            Word(0, "Cache"),
            Word(1, "Memory Affinity Structure"),
            Word(2, "ACPI Device"),
            Word(3, "PCI Device"),
        ],
    ),
];

/// The rows of a resource's fields before its id, in order.
pub fn resource_rows() -> &'static [Row]
    ensures { (r : ResourceStructure) → AreRowsOf result.now (resource_head_fields r) }
{
    &RESOURCE
}

impl Aml for ResourceStructure {
    ghost object = { λ r. structure_of (resource_bytes r) };

    ghost ends_well = { λ r. structure_ends_well (resource_bytes r) };

    fn to_aml_bytes(&self, sink: &mut dyn AmlSink) -> R<()> {
        let size = self.len();
        if size > 0xffff {
            return Err(Error::FieldWidth);
        }
        self.id.write_behind(&self.head(size as u16), sink)
    }
}
