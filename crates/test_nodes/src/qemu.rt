//! HMAT, SLIT, VIOT, PPTT, GTDT, IORT and DBG2 of the machines of QEMU 7.2, but for the maker in their headers.

use crate::matrices::localities::{Value, takes};
use crate::tables::is;
use acpi_base::error::R;
use acpi_tables::dbg2::{DBG2, DebugDevice, DebugPort};
use acpi_tables::gas::{AccessSize, AddressSpace, GAS};
use acpi_tables::gtdt::{EarlierGTDT, Timer, Timers};
use acpi_tables::hmat::{
    Associativity, CacheLevel, DataType, HMAT, LocalityType, MemoryProximityDomain,
    MemorySideCache, MinTransferSize, SystemLocality, WritePolicy,
};
use acpi_tables::iort::{
    IORT, IdMapping, ItsGroup, ItsGroupHandle, MemoryAccess, Output, RootComplex,
};
use acpi_tables::pptt::{PPTT, ProcessorHandle, ProcessorNode};
use acpi_tables::slit::SLIT;
use acpi_tables::spcr::InterfaceType;
use acpi_tables::viot::{PciDevice, PciRange, VIOT, VirtIoPciIommu};
use std::alloc::Global;
use std::test::Fail;
use test_support::{OEM, OEM_REVISION, OEM_TABLE};

const HMAT_OF_PC: &[u8] = b"\0\0\0\0\
    \0\0\0\0\x28\0\0\0\x01\0\0\0\0\0\0\0\0\0\0\0\0\0\0\0\0\0\0\0\0\0\0\0\0\0\0\0\0\0\0\0\
    \0\0\0\0\x28\0\0\0\x01\0\0\0\0\0\0\0\x01\0\0\0\0\0\0\0\0\0\0\0\0\0\0\0\0\0\0\0\0\0\0\0\
    \x01\0\0\0\x30\0\0\0\0\0\0\0\x01\0\0\0\x02\0\0\0\0\0\0\0\xe8\x03\0\0\0\0\0\0\
    \0\0\0\0\0\0\0\0\x01\0\0\0\x01\0\xfe\xff\
    \x01\0\0\0\x30\0\0\0\0\x03\0\0\x01\0\0\0\x02\0\0\0\0\0\0\0\x01\0\0\0\0\0\0\0\
    \0\0\0\0\0\0\0\0\x01\0\0\0\xfe\xff\xff\x7f\
    \x02\0\0\0\x20\0\0\0\0\0\0\0\0\0\0\0\0\x28\0\0\0\0\0\0\x11\x11\x08\0\0\0\0\0\
    \x02\0\0\0\x20\0\0\0\x01\0\0\0\0\0\0\0\0\x28\0\0\0\0\0\0\x11\x11\x08\0\0\0\0\0";

// The distances of one initiator and two targets.
const LATENCIES: [Value; 3] = [
    Value::Target(1, 1),
    Value::Entry(0, 0, 1),
    Value::Entry(0, 1, 0xfffe),
];

const BANDWIDTHS: [Value; 3] = [
    Value::Target(1, 1),
    Value::Entry(0, 0, 0xfffe),
    Value::Entry(0, 1, 0x7fff),
];

fn add_domains(hmat: &mut HMAT, domains: &[MemoryProximityDomain]) -> R<()> {
    for domain in domains {
        hmat.add_memory_proximity(*domain)?;
    }
    Ok(())
}

// Adds a matrix of this many initiators and targets with these values.
fn add_matrix(
    alloc: Global,
    hmat: &mut HMAT,
    (data, unit): (DataType, u64),
    (initiators, targets): (usize, usize),
    values: &[Value],
) -> Result<(), Fail> {
    let (kind, size) = (LocalityType::Memory, MinTransferSize::SizeByteAligned);
    let mut matrix = SystemLocality::new(alloc, kind, data, size, unit, initiators, targets)?;
    takes(&mut matrix, values, &[])?;
    Ok(hmat.add_system_locality(matrix)?)
}

fn add_cache(alloc: Global, hmat: &mut HMAT, domain: u32) -> R<()> {
    let (level, mapped) = (CacheLevel::One, Associativity::DirectMapped);
    let policy = WritePolicy::Writeback;
    let cache = MemorySideCache::new(alloc, domain, 0x2800, level, level, mapped, policy, 8);
    hmat.add_memory_side_cache(cache)
}

fn becomes_pcs(alloc: Global, hmat: &mut HMAT) -> Result<(), Fail> {
    add_domains(
        hmat,
        &[
            MemoryProximityDomain::new(0, 0),
            MemoryProximityDomain::new(0, 1),
        ],
    )?;
    add_matrix(
        alloc,
        hmat,
        (DataType::AccessLatency, 1000),
        (1, 2),
        &LATENCIES,
    )?;
    add_matrix(
        alloc,
        hmat,
        (DataType::AccessBandwidth, 1),
        (1, 2),
        &BANDWIDTHS,
    )?;
    add_cache(alloc, hmat, 0)?;
    add_cache(alloc, hmat, 1)?;
    is(alloc, hmat, b"HMAT", 2, &[HMAT_OF_PC])
}

fn hmat(alloc: Global) -> HMAT {
    HMAT::of_revision(alloc, 2, OEM, OEM_TABLE, OEM_REVISION)
}

#[test]
fn attributes(rt: HostRuntime) -> Result<(), Fail> {
    becomes_pcs(rt.alloc(), &mut hmat(rt.alloc()))
}

// The table of `virt`, which is also that of a Q35 whose third domain has no initiator.
const HMAT_OF_VIRT: &[u8] = b"\0\0\0\0\
    \0\0\0\0\x28\0\0\0\x01\0\0\0\0\0\0\0\0\0\0\0\0\0\0\0\0\0\0\0\0\0\0\0\0\0\0\0\0\0\0\0\
    \0\0\0\0\x28\0\0\0\x01\0\0\0\x01\0\0\0\x01\0\0\0\0\0\0\0\0\0\0\0\0\0\0\0\0\0\0\0\0\0\0\0\
    \0\0\0\0\x28\0\0\0\0\0\0\0\x80\0\0\0\x02\0\0\0\0\0\0\0\0\0\0\0\0\0\0\0\0\0\0\0\0\0\0\0\
    \x01\0\0\0\x40\0\0\0\0\0\0\0\x02\0\0\0\x03\0\0\0\0\0\0\0\x10\x27\0\0\0\0\0\0\
    \0\0\0\0\x01\0\0\0\0\0\0\0\x01\0\0\0\x02\0\0\0\x01\0\x02\0\x03\0\x02\0\x01\0\x03\0\
    \x01\0\0\0\x40\0\0\0\0\x03\0\0\x02\0\0\0\x03\0\0\0\0\0\0\0\x01\0\0\0\0\0\0\0\
    \0\0\0\0\x01\0\0\0\0\0\0\0\x01\0\0\0\x02\0\0\0\x0a\0\x05\0\x01\0\x05\0\x0a\0\x01\0";

// The distances of two initiators and three targets.
const WIDE_LATENCIES: [Value; 9] = [
    Value::Initiator(1, 1),
    Value::Target(1, 1),
    Value::Target(2, 2),
    Value::Entry(0, 0, 1),
    Value::Entry(0, 1, 2),
    Value::Entry(0, 2, 3),
    Value::Entry(1, 0, 2),
    Value::Entry(1, 1, 1),
    Value::Entry(1, 2, 3),
];

const WIDE_BANDWIDTHS: [Value; 9] = [
    Value::Initiator(1, 1),
    Value::Target(1, 1),
    Value::Target(2, 2),
    Value::Entry(0, 0, 10),
    Value::Entry(0, 1, 5),
    Value::Entry(0, 2, 1),
    Value::Entry(1, 0, 5),
    Value::Entry(1, 1, 10),
    Value::Entry(1, 2, 1),
];

// The memory of the last domain has no initiator, whose number is 128 then.
fn becomes_virts(alloc: Global, hmat: &mut HMAT) -> Result<(), Fail> {
    add_domains(
        hmat,
        &[
            MemoryProximityDomain::new(0, 0),
            MemoryProximityDomain::new(1, 1),
            MemoryProximityDomain::new(128, 2).without_initiator(),
        ],
    )?;
    add_matrix(
        alloc,
        hmat,
        (DataType::AccessLatency, 10_000),
        (2, 3),
        &WIDE_LATENCIES,
    )?;
    add_matrix(
        alloc,
        hmat,
        (DataType::AccessBandwidth, 1),
        (2, 3),
        &WIDE_BANDWIDTHS,
    )?;
    is(alloc, hmat, b"HMAT", 2, &[HMAT_OF_VIRT])
}

#[test]
fn attributes_of_virt(rt: HostRuntime) -> Result<(), Fail> {
    becomes_virts(rt.alloc(), &mut hmat(rt.alloc()))
}

#[test]
fn distances(rt: HostRuntime) -> Result<(), Fail> {
    let mut slit = SLIT::new(rt.alloc(), OEM, OEM_TABLE, OEM_REVISION, 2)?;
    slit.set_distance(0, 1, 21)?;
    let wanted = b"\x02\0\0\0\0\0\0\0\x0a\x15\x15\x0a";
    is(rt.alloc(), &slit, b"SLIT", 1, &[wanted])
}

// Adds an IOMMU at function 0 of a device on bus 0, for all functions of some buses.
fn add_translation(viot: &mut VIOT, device: u8, buses: &[u8]) -> R<()> {
    let function = PciDevice::new(0, 0, device % 32, 0);
    let iommu = viot.add_virtio_pci_iommu(VirtIoPciIommu::new(function))?;
    for bus in buses {
        let (first, last) = (
            PciDevice::new(0, *bus, 0, 0),
            PciDevice::new(0, *bus, 31, 7),
        );
        viot.add_pci_range(PciRange::new(first, last, &iommu))?;
    }
    Ok(())
}

fn translates(alloc: Global, device: u8, buses: &[u8], wanted: &[u8]) -> Result<(), Fail> {
    let mut viot = VIOT::of_revision(alloc, 0, OEM, OEM_TABLE, OEM_REVISION);
    add_translation(&mut viot, device, buses)?;
    is(alloc, &viot, b"VIOT", 0, &[wanted])
}

// A Q35 with an IOMMU for two of its root buses, and `virt` with one.
#[test]
fn translation(rt: HostRuntime) -> Result<(), Fail> {
    let of_q35 = b"\x03\0\x30\0\0\0\0\0\0\0\0\0\
        \x03\0\x10\0\0\0\x10\0\0\0\0\0\0\0\0\0\
        \x01\0\x18\0\0\x10\0\0\0\0\0\0\0\x10\xff\x10\x30\0\0\0\0\0\0\0\
        \x01\0\x18\0\0\x30\0\0\0\0\0\0\0\x30\xff\x30\x30\0\0\0\0\0\0\0";
    translates(rt.alloc(), 2, &[0x10, 0x30], of_q35)?;
    let of_virt = b"\x02\0\x30\0\0\0\0\0\0\0\0\0\
        \x03\0\x10\0\0\0\x08\0\0\0\0\0\0\0\0\0\
        \x01\0\x18\0\0\0\0\0\0\0\0\0\0\0\xff\0\x30\0\0\0\0\0\0\0";
    translates(rt.alloc(), 1, &[0], of_virt)
}

// The PL011 of `virt`.
fn debug_port(alloc: Global) -> R<DebugDevice> {
    let (space, access) = (AddressSpace::SystemMemory, AccessSize::ByteAccess);
    let registers = GAS::new(space, 8, 0, access, 0x900_0000);
    let port = DebugPort::Serial(InterfaceType::ArmPl011);
    let device = DebugDevice::new(alloc, port).register(registers, 0x1000)?;
    Ok(device.namespace_string(String::from_str(alloc, "COM0")?))
}

#[test]
fn debug_ports(rt: HostRuntime) -> Result<(), Fail> {
    let mut dbg2 = DBG2::new(rt.alloc(), OEM, OEM_TABLE, OEM_REVISION);
    dbg2.add_device(debug_port(rt.alloc())?)?;
    let wanted = b"\x2c\0\0\0\x01\0\0\0\
        \0\x2b\0\x01\x05\0\x26\0\0\0\0\0\0\x80\x03\0\0\0\x16\0\x22\0\
        \0\x08\0\x01\0\0\0\x09\0\0\0\0\0\x10\0\0COM0\0";
    is(rt.alloc(), &dbg2, b"DBG2", 0, &[wanted])
}

const ONE_PROCESSOR: &[u8] = b"\0\x14\0\0\x01\0\0\0\0\0\0\0\0\0\0\0\0\0\0\0\
    \0\x14\0\0\0\0\0\0\x24\0\0\0\0\0\0\0\0\0\0\0\
    \0\x14\0\0\x0a\0\0\0\x38\0\0\0\0\0\0\0\0\0\0\0";

const FOUR_PROCESSORS: &[u8] = b"\0\x14\0\0\x01\0\0\0\0\0\0\0\0\0\0\0\0\0\0\0\
    \0\x14\0\0\0\0\0\0\x24\0\0\0\0\0\0\0\0\0\0\0\
    \0\x14\0\0\x0a\0\0\0\x38\0\0\0\0\0\0\0\0\0\0\0\
    \0\x14\0\0\x0a\0\0\0\x38\0\0\0\x01\0\0\0\0\0\0\0\
    \0\x14\0\0\x01\0\0\0\0\0\0\0\x01\0\0\0\0\0\0\0\
    \0\x14\0\0\0\0\0\0\x74\0\0\0\0\0\0\0\0\0\0\0\
    \0\x14\0\0\x0a\0\0\0\x88\0\0\0\x02\0\0\0\0\0\0\0\
    \0\x14\0\0\x0a\0\0\0\x88\0\0\0\x03\0\0\0\0\0\0\0";

// Adds a package of `virt` with a cluster, and returns the cluster's handle.
fn add_cluster(alloc: Global, pptt: &mut PPTT, package: u32) -> R<ProcessorHandle> {
    let socket = pptt.add_processor(ProcessorNode::new(alloc, None, package).physical())?;
    pptt.add_processor(ProcessorNode::new(alloc, Some(&socket), 0))
}

// Adds this many processors from a number on.
fn add_processors(alloc: Global, pptt: &mut PPTT, package: u32, first: u32, end: u32) -> R<()> {
    let cluster = add_cluster(alloc, pptt, package)?;
    for number in first..end {
        let node = ProcessorNode::new(alloc, Some(&cluster), number);
        pptt.add_processor(node.valid().leaf())?;
    }
    Ok(())
}

// Fails unless packages, each with processors from a number to another, are these nodes.
fn is_topology(alloc: Global, packages: &[(u32, u32, u32)], wanted: &[u8]) -> Result<(), Fail> {
    let mut pptt = PPTT::of_revision(alloc, 2, OEM, OEM_TABLE, OEM_REVISION);
    for (package, first, end) in packages {
        add_processors(alloc, &mut pptt, *package, *first, *end)?;
    }
    is(alloc, &pptt, b"PPTT", 2, &[wanted])
}

// `virt` with one processor, and with four in two packages.
#[test]
fn topologies(rt: HostRuntime) -> Result<(), Fail> {
    is_topology(rt.alloc(), &[(0, 0, 1)], ONE_PROCESSOR)?;
    is_topology(rt.alloc(), &[(0, 0, 2), (1, 2, 4)], FOUR_PROCESSORS)
}

#[test]
fn timers_of_virt(rt: HostRuntime) -> Result<(), Fail> {
    let timers = Timers::new(Timer::new(0x1e).always_on(), Timer::new(0x1b))
        .secure_el1(Timer::new(0x1d))
        .el2(Timer::new(0x1a));
    let wanted = b"\xff\xff\xff\xff\xff\xff\xff\xff\0\0\0\0\x1d\0\0\0\0\0\0\0\
        \x1e\0\0\0\x04\0\0\0\x1b\0\0\0\0\0\0\0\x1a\0\0\0\
        \0\0\0\0\xff\xff\xff\xff\xff\xff\xff\xff\0\0\0\0\0\0\0\0";
    let gtdt = EarlierGTDT::new(OEM, OEM_TABLE, OEM_REVISION, timers);
    is(rt.alloc(), &gtdt, b"GTDT", 2, &[wanted])
}

fn add_its(alloc: Global, iort: &mut IORT) -> R<ItsGroupHandle> {
    let mut group = ItsGroup::new(alloc);
    group.add_its(0)?;
    iort.add_its_group(group)
}

// Adds the root complex of `virt`, all of whose ids go to its ITS.
fn add_bridge(alloc: Global, iort: &mut IORT, its: ItsGroupHandle) -> R<()> {
    let access = MemoryAccess::new().cache_coherent().coherent_path();
    let mut bridge = RootComplex::new(alloc, 0)
        .memory_access(access.cacheable_attributes())
        .address_size_limit(0x40);
    bridge.add_mapping(IdMapping::new(0, 0xffff, 0, Output::ItsGroup(its)))?;
    iort.add_earlier_root_complex(bridge.earlier())?;
    Ok(())
}

fn becomes_routes(alloc: Global, iort: &mut IORT) -> Result<(), Fail> {
    let its = add_its(alloc, iort)?;
    add_bridge(alloc, iort, its)?;
    let wanted = b"\x02\0\0\0\x30\0\0\0\0\0\0\0\
        \0\x18\0\x01\0\0\0\0\0\0\0\0\0\0\0\0\x01\0\0\0\0\0\0\0\
        \x02\x38\0\x03\x01\0\0\0\x01\0\0\0\x24\0\0\0\x01\0\0\0\0\0\0\x03\0\0\0\0\0\0\0\0\x40\0\0\0\
        \0\0\0\0\xff\xff\0\0\0\0\0\0\x30\0\0\0\0\0\0\0";
    is(alloc, iort, b"IORT", 3, &[wanted])
}

#[test]
fn routes(rt: HostRuntime) -> Result<(), Fail> {
    let mut iort = IORT::of_revision(rt.alloc(), 3, OEM, OEM_TABLE, OEM_REVISION);
    becomes_routes(rt.alloc(), &mut iort)
}
