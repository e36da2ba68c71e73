//! HMAT and its structures.

use acpi_base::buffer::append;
use acpi_tables::hmat::{
    DataType, HMAT, LocalityType, MemoryProximityDomain, MinTransferSize, SystemLocality,
};
use acpi_tables::{Error, R};
use std::alloc::Global;
use std::test::Fail;
use test_support::table::{is_sized, many, reads_back};
use test_support::{OEM, OEM_REVISION, OEM_TABLE, equal, makes, refuses, writes};

pub(crate) fn table(alloc: Global) -> HMAT {
    HMAT::new(alloc, OEM, OEM_TABLE, OEM_REVISION)
}

pub(crate) fn locality(alloc: Global, initiators: usize, targets: usize) -> R<SystemLocality> {
    SystemLocality::new(
        alloc,
        LocalityType::ThirdLevelCache,
        DataType::WriteBandwidth,
        MinTransferSize::Size64k,
        0x0807_0605_0403_0201,
        initiators,
        targets,
    )
}

#[test]
fn no_structures(rt: HostRuntime) -> Result<(), Fail> {
    writes(
        rt.alloc(),
        &table(rt.alloc()),
        b"HMAT\x28\0\0\0\x01\x61FOOBARCAFEDEAD\xef\xbe\xad\xdeRVAT\0\0\0\x01\0\0\0\0",
    )
}

// Fails unless a table has these structures this many times.
pub(crate) fn holds(alloc: Global, hmat: HMAT, structures: &[u8], times: u32) -> Result<(), Fail> {
    many(alloc, &hmat, b"HMAT", 1, &[0; 4], structures, times)
}

pub(crate) fn proximity() -> MemoryProximityDomain {
    MemoryProximityDomain::new(0x0403_0201, 0x1413_1211)
}

pub(crate) const PROXIMITY: &[u8] =
    b"\0\0\0\0\x28\0\0\0\x01\0\0\0\x01\x02\x03\x04\x11\x12\x13\x14\0\0\0\0\0\0\0\0\0\0\0\0\0\0\0\0\0\0\0\0";

#[test]
fn a_proximity(rt: HostRuntime) -> Result<(), Fail> {
    writes(rt.alloc(), &proximity(), PROXIMITY)
}

// The first sizes past 2^32 - 1 bytes, and some that don't fit a machine word.
#[test]
fn too_large(rt: HostRuntime) -> Result<(), Fail> {
    let alloc = rt.alloc();
    let all = [
        // 32 + 4 * 1,073,741,816 is 2^32
        (1_073_741_816, 0),
        (0, 1_073_741_816),
        (1_073_741_824, 0),
        (0, 1_073_741_824),
        // 32 + 8 * 46,340 + 2 * 46,340 * 46,340 is 4,295,161,952
        (46_340, 46_340),
        (65_536, 65_536),
        (0x1_0000_0000, 0x1_0000_0000),
        (0x8000_0000_0000_0000, 2),
        (usize::MAX, 0),
        (0, usize::MAX),
        (usize::MAX, usize::MAX),
    ];
    for (initiators, targets) in all {
        refuses(locality(alloc, initiators, targets), Error::Matrix)?;
    }
    Ok(())
}

fn flagged(alloc: Global, kind: LocalityType) -> R<SystemLocality> {
    SystemLocality::new(
        alloc,
        kind,
        DataType::AccessLatency,
        MinTransferSize::SizeByteAligned,
        0,
        0,
        0,
    )
}

fn flags(alloc: Global, made: &SystemLocality, number: u8) -> Result<(), Fail> {
    let mut wanted = *b"\x01\0\0\0\x20\0\0\0\0\0\0\0\0\0\0\0\0\0\0\0\0\0\0\0\0\0\0\0\0\0\0\0";
    wanted[8] = number;
    writes(alloc, made, &wanted)
}

// Fails unless setting both flags of a locality of this type, and the first one twice, makes these flags. The number of the type
// is that without flags.
fn sets_flags(
    alloc: Global,
    made: &mut SystemLocality,
    kind: LocalityType,
    [none, first, both]: [u8; 3],
) -> Result<(), Fail> {
    equal(&(kind as u32), &u32::from(none))?;
    flags(alloc, made, none)?;
    made.non_sequential_transfers();
    flags(alloc, made, first)?;
    made.minimum_transfer_size_required();
    flags(alloc, made, both)?;
    made.non_sequential_transfers();
    flags(alloc, made, both)
}

// Fails unless setting the second flag alone, and twice, makes these flags.
fn sets_second(alloc: Global, made: &mut SystemLocality, second: u8) -> Result<(), Fail> {
    made.minimum_transfer_size_required();
    flags(alloc, made, second)?;
    made.minimum_transfer_size_required();
    flags(alloc, made, second)
}

#[test]
fn locality_types_and_flags(rt: HostRuntime) -> Result<(), Fail> {
    for (kind, numbers, second) in [
        (LocalityType::Memory, [0, 0x20, 0x30], 0x10),
        (LocalityType::FirstLevelCache, [1, 0x21, 0x31], 0x11),
        (LocalityType::SecondLevelCache, [2, 0x22, 0x32], 0x12),
        (LocalityType::ThirdLevelCache, [3, 0x23, 0x33], 0x13),
    ] {
        sets_flags(rt.alloc(), &mut flagged(rt.alloc(), kind)?, kind, numbers)?;
        sets_second(rt.alloc(), &mut flagged(rt.alloc(), kind)?, second)?;
    }
    Ok(())
}

fn typed(alloc: Global, data_type: DataType) -> R<SystemLocality> {
    let (kind, size) = (LocalityType::Memory, MinTransferSize::Size64b);
    SystemLocality::new(alloc, kind, data_type, size, 1, 0, 0)
}

#[test]
fn data_types(rt: HostRuntime) -> Result<(), Fail> {
    for (data_type, number) in [
        (DataType::AccessLatency, 0),
        (DataType::ReadLatency, 1),
        (DataType::WriteLatency, 2),
        (DataType::AccessBandwidth, 3),
        (DataType::ReadBandwidth, 4),
        (DataType::WriteBandwidth, 5),
    ] {
        let mut wanted =
            *b"\x01\0\0\0\x20\0\0\0\0\0\x01\0\0\0\0\0\0\0\0\0\0\0\0\0\x01\0\0\0\0\0\0\0";
        wanted[9] = number;
        equal(&(data_type as u32), &u32::from(number))?;
        makes(rt.alloc(), typed(rt.alloc(), data_type), &wanted)?;
    }
    Ok(())
}

fn transferred(alloc: Global, size: MinTransferSize) -> R<SystemLocality> {
    let (kind, data_type) = (LocalityType::FirstLevelCache, DataType::ReadLatency);
    SystemLocality::new(alloc, kind, data_type, size, 0, 0, 0)
}

#[test]
fn transfer_sizes(rt: HostRuntime) -> Result<(), Fail> {
    for (size, number) in [
        (MinTransferSize::SizeByteAligned, 0),
        (MinTransferSize::Size64b, 1),
        (MinTransferSize::Size128b, 2),
        (MinTransferSize::Size256b, 3),
        (MinTransferSize::Size512b, 4),
        (MinTransferSize::Size1k, 5),
        (MinTransferSize::Size2k, 6),
        (MinTransferSize::Size4k, 7),
        (MinTransferSize::Size8k, 8),
        (MinTransferSize::Size16k, 9),
        (MinTransferSize::Size32k, 10),
        (MinTransferSize::Size64k, 11),
    ] {
        let mut wanted =
            *b"\x01\0\0\0\x20\0\0\0\x01\x01\0\0\0\0\0\0\0\0\0\0\0\0\0\0\0\0\0\0\0\0\0\0";
        wanted[10] = number;
        equal(&(size as u32), &u32::from(number))?;
        makes(rt.alloc(), transferred(rt.alloc(), size), &wanted)?;
    }
    Ok(())
}

fn one_by_one(alloc: Global) -> R<SystemLocality> {
    let mut made = locality(alloc, 1, 1)?;
    made.set_entry_value(0, 0, 0x0201)?;
    Ok(made)
}

#[test]
fn many_localities(rt: HostRuntime) -> Result<(), Fail> {
    let mut hmat = table(rt.alloc());
    for _ in 0..256u16 {
        hmat.add_system_locality(one_by_one(rt.alloc())?)?;
    }
    let one =
        b"\x01\0\0\0\x2a\0\0\0\x03\x05\x0b\0\x01\0\0\0\x01\0\0\0\0\0\0\0\x01\x02\x03\x04\x05\x06\x07\x08\0\0\0\0\0\0\0\0\x01\x02";
    holds(rt.alloc(), hmat, one, 256)
}

fn proximities_are_read(alloc: Global, hmat: &mut HMAT, count: u16) -> Result<(), Fail> {
    let mut added = Vec::new(alloc);
    for n in 0..count {
        let domain = MemoryProximityDomain::new(u32::from(n), 2);
        append(&domain, &mut added)?;
        hmat.add_memory_proximity(domain)?;
    }
    is_sized((hmat.len(), hmat.count()), 40, 40, count)?;
    reads_back(alloc, hmat, 40, 40, &added)
}

// Tables of no structure, of one and of 256, read back into the structures that were added.
#[test]
fn read_back(rt: HostRuntime) -> Result<(), Fail> {
    for count in [0, 1, 256u16] {
        proximities_are_read(rt.alloc(), &mut table(rt.alloc()), count)?;
    }
    Ok(())
}
