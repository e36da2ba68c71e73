//! RQSC, its controllers and their resources.

use acpi_base::buffer::append;
use acpi_base::error::{Error, R};
use acpi_base::object::Aml;
use acpi_tables::gas::{AccessSize, AddressSpace, GAS};
use acpi_tables::rqsc::{
    ACPIDeviceResource, CacheResource, ControllerType, MemoryAffinityStructureResource,
    PCIDeviceResource, QoSController, RQSC, ResourceID, ResourceStructure, ResourceType,
};
use std::alloc::Global;
use std::test::Fail;
use test_support::table::many;
use test_support::{OEM, OEM_REVISION, OEM_TABLE, all, equal, makes, refuses, writes};

fn table(alloc: Global) -> RQSC {
    RQSC::new(alloc, OEM, OEM_TABLE, OEM_REVISION)
}

fn controller(alloc: Global) -> QoSController {
    let register = GAS::new(
        AddressSpace::SystemIo,
        0x40,
        3,
        AccessSize::QwordAccess,
        0x1122_3344_5566_7788,
    );
    QoSController::new(
        alloc,
        ControllerType::Bandwidth,
        register,
        0x0102_0304,
        0x0506_0708,
        0x090a,
    )
}

// That controller.
const CONTROLLER: [u8; 28] =
    *b"\x01\0\x1c\0\x01\x40\x03\x04\x88\x77\x66\x55\x44\x33\x22\x11\x04\x03\x02\x01\x08\x07\x06\x05\x0a\x09\0\0";

// Adds a controller several times. Fails unless a table has it alone, by this number and these fields.
fn takes(
    alloc: Global,
    rqsc: &mut RQSC,
    more: u16,
    count: u32,
    fields: &[u8; 4],
) -> Result<(), Fail> {
    for _ in 0..more {
        rqsc.add_controller(controller(alloc))?;
    }
    many(alloc, rqsc, b"RQSC", 1, fields, &CONTROLLER, count)
}

fn takes_many(alloc: Global, rqsc: &mut RQSC) -> Result<(), Fail> {
    writes(
        alloc,
        rqsc,
        b"RQSC\x28\0\0\0\x01\x52FOOBARCAFEDEAD\xef\xbe\xad\xdeRVAT\0\0\0\x01\0\0\0\0",
    )?;
    takes(alloc, rqsc, 256, 256, &[0, 1, 0, 0])?;
    takes(alloc, rqsc, 2_085, 2_341, &[0x25, 9, 0, 0])
}

#[test]
fn controllers(rt: HostRuntime) -> Result<(), Fail> {
    takes_many(rt.alloc(), &mut table(rt.alloc()))
}

#[test]
fn capacity(rt: HostRuntime) -> Result<(), Fail> {
    let alloc = rt.alloc();
    let kind = ControllerType::Capacity;
    let made = QoSController::new(alloc, kind, GAS::default(), 0, u32::MAX, 1);
    writes(
        alloc,
        &made,
        b"\0\0\x1c\0\0\0\0\0\0\0\0\0\0\0\0\0\0\0\0\0\xff\xff\xff\xff\x01\0\0\0",
    )
}

#[test]
fn payloads(rt: HostRuntime) -> Result<(), Fail> {
    let alloc = rt.alloc();
    let cache = CacheResource::new(0x0c0d_0e0f);
    let memory = MemoryAffinityStructureResource::new(0x1213_1415, 0x1617_1819_1a1b_1c1d);
    let acpi = ACPIDeviceResource::new(0x2021_2223_2425_2627, 0x2829_2a2b);
    let pci = PCIDeviceResource::new(0x2c2d_2e2f);
    all(
        alloc,
        &[
            (&cache, b"\x0f\x0e\x0d\x0c\0\0\0\0\0\0\0\0"),
            (&cache.clone()?, b"\x0f\x0e\x0d\x0c\0\0\0\0\0\0\0\0"),
            (
                &memory,
                b"\x15\x14\x13\x12\0\0\0\0\0\0\0\0\x1d\x1c\x1b\x1a\x19\x18\x17\x16",
            ),
            (&acpi, b"\x27\x26\x25\x24\x23\x22\x21\x20\x2b\x2a\x29\x28"),
            (&pci, b"\x2f\x2e\x2d\x2c\0\0\0\0\0\0\0\0"),
        ],
    )
}

fn cache() -> ResourceID {
    ResourceID::Cache(CacheResource::new(0x0c0d_0e0f))
}

fn memory() -> ResourceID {
    let memory = MemoryAffinityStructureResource::new(0x1213_1415, 0x1617_1819_1a1b_1c1d);
    ResourceID::MemoryAffinityStructure(memory)
}

fn acpi() -> ResourceID {
    ResourceID::ACPIDevice(ACPIDeviceResource::new(0x2021_2223_2425_2627, 0x2829_2a2b))
}

fn pci() -> ResourceID {
    ResourceID::PCIDevice(PCIDeviceResource::new(0x2c2d_2e2f))
}

fn vendors_id(alloc: Global, number: u8, bytes: &[u8]) -> R<ResourceID> {
    let bytes = bytes.to_vec(alloc)?;
    Ok(ResourceID::VendorSpecific(number, bytes))
}

// Fails unless an id has this number, and it and its clone write these bytes.
fn is_borrowed_id(alloc: Global, id: &ResourceID, number: u8, wanted: &[u8]) -> Result<(), Fail> {
    equal(&id.resource_id_type(), &number)?;
    equal(&id.len(), &wanted.len())?;
    writes(alloc, id, wanted)?;
    makes(alloc, id.clone(), wanted)
}

fn is_id(alloc: Global, id: ResourceID, number: u8, wanted: &[u8]) -> Result<(), Fail> {
    is_borrowed_id(alloc, &id, number, wanted)
}

#[test]
fn ids(rt: HostRuntime) -> Result<(), Fail> {
    let alloc = rt.alloc();
    is_id(alloc, cache(), 0, b"\0\x0f\x0e\x0d\x0c\0\0\0\0\0\0\0\0")?;
    let wanted = b"\x01\x15\x14\x13\x12\0\0\0\0\0\0\0\0\x1d\x1c\x1b\x1a\x19\x18\x17\x16";
    is_id(alloc, memory(), 1, wanted)?;
    let wanted = b"\x02\x27\x26\x25\x24\x23\x22\x21\x20\x2b\x2a\x29\x28";
    is_id(alloc, acpi(), 2, wanted)?;
    is_id(alloc, pci(), 3, b"\x03\x2f\x2e\x2d\x2c\0\0\0\0\0\0\0\0")
}

#[test]
fn ids_of_vendors(rt: HostRuntime) -> Result<(), Fail> {
    let alloc = rt.alloc();
    let empty = ResourceID::VendorSpecific(0x80, Vec::new(alloc));
    is_id(alloc, empty, 0x80, b"\x80")?;
    let id = vendors_id(alloc, 0xff, b"\x31\x32\x33")?;
    is_id(alloc, id, 0xff, b"\xff\x31\x32\x33")
}

fn caches() -> ResourceStructure {
    ResourceStructure::new(ResourceType::Cache, 0x1011, cache())
}

// The bytes of that resource.
const CACHES: [u8; 20] = *b"\0\0\x14\0\x11\x10\0\0\x0f\x0e\x0d\x0c\0\0\0\0\0\0\0\0";

// A vendor's resource with these bytes.
fn vendors(alloc: Global, bytes: &[u8]) -> R<ResourceStructure> {
    let id = vendors_id(alloc, 0x80, bytes)?;
    Ok(ResourceStructure::new(ResourceType::Memory, 0x1213, id))
}

// Fails unless a resource and its clone write these bytes.
fn is_resource(alloc: Global, made: &ResourceStructure, wanted: &[u8]) -> Result<(), Fail> {
    equal(&made.len(), &wanted.len())?;
    writes(alloc, made, wanted)?;
    makes(alloc, made.clone(), wanted)
}

#[test]
fn resources(rt: HostRuntime) -> Result<(), Fail> {
    is_resource(rt.alloc(), &caches(), &CACHES)?;
    let made = vendors(rt.alloc(), b"\x31\x32\x33")?;
    is_resource(rt.alloc(), &made, b"\x01\0\x0b\0\x13\x12\0\x80\x31\x32\x33")
}

// Adds these two resources.
fn add_two(alloc: Global, made: &mut QoSController) -> R<()> {
    made.add_resource(caches())?;
    made.add_resource(vendors(alloc, b"\x31\x32\x33")?)
}

// The bytes of a controller with these resources.
const SHARED: [u8; 59] =
    *b"\x01\0\x3b\0\x01\x40\x03\x04\x88\x77\x66\x55\x44\x33\x22\x11\x04\x03\x02\x01\x08\x07\x06\x05\x0a\x09\x02\0\
        \0\0\x14\0\x11\x10\0\0\x0f\x0e\x0d\x0c\0\0\0\0\0\0\0\0\
        \x01\0\x0b\0\x13\x12\0\x80\x31\x32\x33";

// Fails unless a controller and its clone have these resources.
fn is_shared(alloc: Global, made: &QoSController) -> Result<(), Fail> {
    equal(&(made.len(), made.resource_count()), &(59, 2))?;
    writes(alloc, made, &SHARED)?;
    let clone = made.clone()?;
    equal(&(clone.len(), clone.resource_count()), &(59, 2))?;
    writes(alloc, &clone, &SHARED)
}

fn takes_two(alloc: Global, made: &mut QoSController) -> Result<(), Fail> {
    equal(&(made.len(), made.resource_count()), &(28, 0))?;
    add_two(alloc, made)?;
    is_shared(alloc, made)
}

#[test]
fn a_controller_of_two_resources(rt: HostRuntime) -> Result<(), Fail> {
    takes_two(rt.alloc(), &mut controller(rt.alloc()))
}

// Adds a controller. Fails unless a table has these fields and controllers then.
fn adds(
    alloc: Global,
    rqsc: &mut RQSC,
    made: QoSController,
    fields: &[u8; 4],
    all: &[u8],
) -> Result<(), Fail> {
    rqsc.add_controller(made)?;
    many(alloc, rqsc, b"RQSC", 1, fields, all, 1)
}

// Adds 258 resources of a vendor, which have no bytes.
fn add_many(alloc: Global, made: &mut QoSController) -> R<()> {
    for _ in 0..258u16 {
        made.add_resource(vendors(alloc, &[])?)?;
    }
    Ok(())
}

// The bytes of a controller with these resources.
fn bytes_of_many(alloc: Global) -> R<Vec<u8>> {
    let mut bytes = Vec::from_slice(
        alloc,
        b"\x01\0\x2c\x08\x01\x40\x03\x04\x88\x77\x66\x55\x44\x33\x22\x11\x04\x03\x02\x01\x08\x07\x06\x05\x0a\x09\x02\x01",
    )?;
    for _ in 0..258u16 {
        bytes.extend_from_slice(b"\x01\0\x08\0\x13\x12\0\x80")?;
    }
    Ok(bytes)
}

fn takes_many_resources(alloc: Global, made: &mut QoSController) -> Result<(), Fail> {
    add_many(alloc, made)?;
    writes(alloc, made, &bytes_of_many(alloc)?)
}

#[test]
fn many_resources(rt: HostRuntime) -> Result<(), Fail> {
    takes_many_resources(rt.alloc(), &mut controller(rt.alloc()))
}

// Adds a resource of each kind.
fn add_each_kind(alloc: Global, made: &mut QoSController) -> R<()> {
    made.add_resource(ResourceStructure::new(ResourceType::Memory, 0x0201, memory()))?;
    made.add_resource(ResourceStructure::new(ResourceType::Cache, 0x0403, cache()))?;
    made.add_resource(ResourceStructure::new(ResourceType::Memory, 0x0605, acpi()))?;
    made.add_resource(ResourceStructure::new(ResourceType::Memory, 0x0807, pci()))?;
    let id = vendors_id(alloc, 0x80, b"\x31\x32\x33")?;
    made.add_resource(ResourceStructure::new(ResourceType::Cache, 0x0a09, id))
}

// An empty controller, and one with a resource of each kind.
const TWO: [u8; 155] =
    *b"\x01\0\x1c\0\x01\x40\x03\x04\x88\x77\x66\x55\x44\x33\x22\x11\x04\x03\x02\x01\x08\x07\x06\x05\x0a\x09\0\0\
        \x01\0\x7f\0\x01\x40\x03\x04\x88\x77\x66\x55\x44\x33\x22\x11\x04\x03\x02\x01\x08\x07\x06\x05\x0a\x09\x05\0\
        \x01\0\x1c\0\x01\x02\0\x01\x15\x14\x13\x12\0\0\0\0\0\0\0\0\x1d\x1c\x1b\x1a\x19\x18\x17\x16\
        \0\0\x14\0\x03\x04\0\0\x0f\x0e\x0d\x0c\0\0\0\0\0\0\0\0\
        \x01\0\x14\0\x05\x06\0\x02\x27\x26\x25\x24\x23\x22\x21\x20\x2b\x2a\x29\x28\
        \x01\0\x14\0\x07\x08\0\x03\x2f\x2e\x2d\x2c\0\0\0\0\0\0\0\0\
        \0\0\x0b\0\x09\x0a\0\x80\x31\x32\x33";

fn takes_each_kind(alloc: Global, rqsc: &mut RQSC) -> Result<(), Fail> {
    adds(alloc, rqsc, controller(alloc), &[1, 0, 0, 0], &CONTROLLER)?;
    let mut full = controller(alloc);
    add_each_kind(alloc, &mut full)?;
    adds(alloc, rqsc, full, &[2, 0, 0, 0], &TWO)
}

#[test]
fn each_kind(rt: HostRuntime) -> Result<(), Fail> {
    takes_each_kind(rt.alloc(), &mut table(rt.alloc()))
}

// Fails unless an object writes these bytes, and then the byte 0x5a this many times.
fn ends_in(alloc: Global, made: &dyn Aml, first: &[u8], size: usize) -> Result<(), Fail> {
    let mut wanted = Vec::from_slice(alloc, first)?;
    wanted.extend_from_slice(&vec![in alloc; 0x5a; size]?)?;
    writes(alloc, made, &wanted)
}

// Fails unless a controller refuses a resource of this many bytes, and keeps its length.
fn has_no_room(alloc: Global, full: &mut QoSController, bytes: &[u8]) -> Result<(), Fail> {
    let size = full.len();
    let longer = vendors(alloc, bytes)?;
    refuses(full.add_resource(longer), Error::FieldWidth)?;
    equal(&full.len(), &size)
}

// Fails unless a controller takes resources of at most 65,507 bytes together.
fn is_filled(alloc: Global, full: &mut QoSController) -> Result<(), Fail> {
    has_no_room(alloc, full, &[0x5a; 65_500])?;
    writes(alloc, full, &CONTROLLER)?;
    full.add_resource(vendors(alloc, &[0x5a; 65_499])?)?;
    let first =
        b"\x01\0\xff\xff\x01\x40\x03\x04\x88\x77\x66\x55\x44\x33\x22\x11\x04\x03\x02\x01\x08\x07\x06\x05\x0a\x09\x01\0\
            \x01\0\xe3\xff\x13\x12\0\x80";
    ends_in(alloc, full, first, 65_499)?;
    equal(&full.len(), &65_535)?;
    has_no_room(alloc, full, &[])
}

#[test]
fn longest_controller(rt: HostRuntime) -> Result<(), Fail> {
    is_filled(rt.alloc(), &mut controller(rt.alloc()))
}

fn is_longest(alloc: Global, longest: &ResourceStructure) -> Result<(), Fail> {
    equal(&longest.len(), &65_535)?;
    ends_in(alloc, longest, b"\x01\0\xff\xff\x13\x12\0\x80", 65_527)
}

#[test]
fn longest_resource(rt: HostRuntime) -> Result<(), Fail> {
    let longest = vendors(rt.alloc(), &[0x5a; 65_527])?;
    is_longest(rt.alloc(), &longest)
}

fn is_too_long(alloc: Global, longer: &ResourceStructure) -> Result<(), Fail> {
    equal(&longer.len(), &65_536)?;
    let mut bytes = Vec::new(alloc);
    refuses(append(longer, &mut bytes), Error::FieldWidth)?;
    equal(&bytes.len(), &0)
}

#[test]
fn a_resource_that_is_too_long(rt: HostRuntime) -> Result<(), Fail> {
    let longer = vendors(rt.alloc(), &[0x5a; 65_528])?;
    is_too_long(rt.alloc(), &longer)
}
