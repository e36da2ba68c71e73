//! CEDT and its structures.

use acpi_base::error::{Error, R};
use acpi_base::object::Aml;
use acpi_tables::cedt::{
    CEDT, CxlFixedMemory, CxlHostBridge, CxlVersion, InterleaveArithmetic, InterleaveGranularity,
    InterleaveWays, PortAssociation, ProtocolType, WindowRestrictions, XorInterleaveMath,
};
use std::alloc::Global;
use std::test::Fail;
use test_support::table::{many, table as table_of};
use test_support::{OEM, OEM_REVISION, OEM_TABLE, all, equal, refuses, writes};

fn table(alloc: Global) -> CEDT {
    CEDT::new(alloc, OEM, OEM_TABLE, OEM_REVISION)
}

fn is_cedt(alloc: Global, table: &mut CEDT) -> Result<(), Fail> {
    writes(
        alloc,
        table,
        b"CEDT\x24\0\0\0\x01\x6fFOOBARCAFEDEAD\xef\xbe\xad\xdeRVAT\0\0\0\x01",
    )?;
    table.add_host_bridge(CxlHostBridge::new(0xcdef, CxlVersion::Cxl2, 0x8_1234_5678))?;
    writes(
        alloc,
        table,
        b"CEDT\x44\0\0\0\x01\x55FOOBARCAFEDEAD\xef\xbe\xad\xdeRVAT\0\0\0\x01\
            \0\0\x20\0\xef\xcd\0\0\x01\0\0\0\0\0\0\0\
            \x78\x56\x34\x12\x08\0\0\0\0\0\x01\0\0\0\0\0",
    )
}

#[test]
fn cedt(rt: HostRuntime) -> Result<(), Fail> {
    is_cedt(rt.alloc(), &mut table(rt.alloc()))
}

#[test]
fn bridges_and_ports(rt: HostRuntime) -> Result<(), Fail> {
    let memory = PortAssociation::new(
        0x100,
        0xfe,
        0x1f,
        7,
        ProtocolType::CxlMem,
        0x1234_5678_90ab_cdef,
    );
    all(
        rt.alloc(),
        &[
            (
                &CxlHostBridge::new(0x0403_0201, CxlVersion::Cxl1_1, 0x1817_1615_1413_1211),
                b"\0\0\x20\0\x01\x02\x03\x04\0\0\0\0\0\0\0\0\x11\x12\x13\x14\x15\x16\x17\x18\0\x20\0\0\0\0\0\0",
            ),
            (
                &memory,
                b"\x03\0\x11\0\0\x01\xff\xfe\x01\xef\xcd\xab\x90\x78\x56\x34\x12",
            ),
            (
                &PortAssociation::new(0x0201, 3, 4, 5, ProtocolType::CxlIo, 6),
                b"\x03\0\x11\0\x01\x02\x25\x03\0\x06\0\0\0\0\0\0\0",
            ),
        ],
    )
}

fn window(
    alloc: Global,
    granularity: InterleaveGranularity,
    ways: InterleaveWays,
) -> CxlFixedMemory {
    CxlFixedMemory::new(
        alloc,
        0x0807_0605_0403_0201,
        0x1817_1615_1413_1211,
        InterleaveArithmetic::ModuloXor,
        granularity,
        ways,
        0x2221,
    )
}

fn one_way(alloc: Global, granularity: InterleaveGranularity) -> CxlFixedMemory {
    window(alloc, granularity, InterleaveWays::Ways1)
}

fn two_ways(alloc: Global, granularity: InterleaveGranularity) -> CxlFixedMemory {
    window(alloc, granularity, InterleaveWays::Ways2)
}

// Fails unless a window can't be written for the number of its targets, and writes nothing.
fn lacks_targets(alloc: Global, window: &CxlFixedMemory) -> Result<(), Fail> {
    let mut bytes = Vec::new(alloc);
    refuses(window.to_aml_bytes(&mut bytes), Error::Targets)?;
    equal(&bytes.len(), &0)
}

// Fails unless a window of two ways is written with two targets alone.
fn takes_two_targets(alloc: Global, two: &mut CxlFixedMemory) -> Result<(), Fail> {
    equal(&two.target_count(), &0)?;
    two.add_target(*b"abcd")?;
    equal(&two.target_count(), &1)?;
    lacks_targets(alloc, two)?;
    two.add_target(*b"efgh")?;
    writes(
        alloc,
        two,
        b"\x01\0\x2c\0\0\0\0\0\x01\x02\x03\x04\x05\x06\x07\x08\
            \x11\x12\x13\x14\x15\x16\x17\x18\x01\x01\0\0\x06\0\0\0\
            \x16\0\x21\x22abcdefgh",
    )?;
    two.add_target(*b"ijkl")?;
    lacks_targets(alloc, two)
}

// Fails unless a table refuses a window for the number of its targets.
fn refuses_window(table: &mut CEDT, window: CxlFixedMemory) -> Result<(), Fail> {
    refuses(table.add_fixed_memory(window), Error::Targets)
}

// Fails unless a table without structures refuses a window, and is unchanged.
fn is_not_added(alloc: Global, table: &mut CEDT, window: CxlFixedMemory) -> Result<(), Fail> {
    refuses_window(table, window)?;
    many(alloc, table, b"CEDT", 1, &[], &[], 0)
}

#[test]
fn windows(rt: HostRuntime) -> Result<(), Fail> {
    let alloc = rt.alloc();
    let mut two = two_ways(alloc, InterleaveGranularity::Granularity16kb)
        .cxl_type_3_memory()
        .volatile()
        .fixed_configuration();
    takes_two_targets(alloc, &mut two)?;
    is_not_added(alloc, &mut table(alloc), two)
}

// Fails unless a table refuses a window with one target of two, and is unchanged.
fn refuses_one_target(alloc: Global, table: &mut CEDT) -> Result<(), Fail> {
    table.add_host_bridge(CxlHostBridge::new(7, CxlVersion::Cxl2, 0x1000_0000))?;
    let mut one = two_ways(alloc, InterleaveGranularity::Granularity256b);
    one.add_target(*b"abcd")?;
    refuses_window(table, one)?;
    let bridge = b"\0\0\x20\0\x07\0\0\0\x01\0\0\0\0\0\0\0\0\0\0\x10\0\0\0\0\0\0\x01\0\0\0\0\0";
    many(alloc, table, b"CEDT", 1, &[], bridge, 1)
}

#[test]
fn one_target_of_two(rt: HostRuntime) -> Result<(), Fail> {
    refuses_one_target(rt.alloc(), &mut table(rt.alloc()))
}

// A window at the address 0 without bytes, for these ways.
fn of_ways(alloc: Global, ways: InterleaveWays) -> CxlFixedMemory {
    let arithmetic = InterleaveArithmetic::Modulo;
    let granularity = InterleaveGranularity::Granularity256b;
    CxlFixedMemory::new(alloc, 0, 0, arithmetic, granularity, ways, 0)
}

// The bytes of that window with this number for its ways, and with this many targets.
fn bytes_of_ways(alloc: Global, number: u8, count: u8) -> R<Vec<u8>> {
    let mut head = [0; 36];
    head[0] = 1;
    head[2] = count.wrapping_mul(4).wrapping_add(36);
    head[24] = number;
    let mut bytes = Vec::from_slice(alloc, &head)?;
    for _ in 0..count {
        bytes.extend_from_slice(&[1, 2, 3, 4])?;
    }
    Ok(bytes)
}

// Fails unless a window is written with this many targets, but with no lower number and not with one more.
fn takes(alloc: Global, made: &mut CxlFixedMemory, number: u8, count: u8) -> Result<(), Fail> {
    for _ in 0..count {
        lacks_targets(alloc, made)?;
        made.add_target([1, 2, 3, 4])?;
    }
    writes(alloc, made, &bytes_of_ways(alloc, number, count)?)?;
    made.add_target([0; 4])?;
    lacks_targets(alloc, made)
}

#[test]
fn ways(rt: HostRuntime) -> Result<(), Fail> {
    for (ways, number, count) in [
        (InterleaveWays::Ways1, 0, 1),
        (InterleaveWays::Ways2, 1, 2),
        (InterleaveWays::Ways4, 2, 4),
        (InterleaveWays::Ways8, 3, 8),
        (InterleaveWays::Ways16, 4, 16),
        (InterleaveWays::Ways3, 8, 3),
        (InterleaveWays::Ways6, 9, 6),
        (InterleaveWays::Ways12, 10, 12),
    ] {
        equal(&(ways as u8), &number)?;
        takes(rt.alloc(), &mut of_ways(rt.alloc(), ways), number, count)?;
    }
    Ok(())
}

// Such a window with a target: its granularity is 256 bytes, and it has no restriction.
const ONE_WAY: [u8; 40] = *b"\x01\0\x28\0\0\0\0\0\x01\x02\x03\x04\x05\x06\x07\x08\
        \x11\x12\x13\x14\x15\x16\x17\x18\0\x01\0\0\0\0\0\0\0\0\x21\x22\x09\x08\x07\x06";

// Fails unless a window with a target has this number for its granularity.
fn has_granularity(alloc: Global, window: &mut CxlFixedMemory, number: u8) -> Result<(), Fail> {
    window.add_target([9, 8, 7, 6])?;
    let mut wanted = ONE_WAY;
    wanted[28] = number;
    writes(alloc, window, &wanted)
}

#[test]
fn granularities(rt: HostRuntime) -> Result<(), Fail> {
    let alloc = rt.alloc();
    for (granularity, number) in [
        (InterleaveGranularity::Granularity256b, 0),
        (InterleaveGranularity::Granularity512b, 1),
        (InterleaveGranularity::Granularity1kb, 2),
        (InterleaveGranularity::Granularity2kb, 3),
        (InterleaveGranularity::Granularity4kb, 4),
        (InterleaveGranularity::Granularity8kb, 5),
        (InterleaveGranularity::Granularity16kb, 6),
    ] {
        equal(&(granularity as u8), &number)?;
        has_granularity(alloc, &mut one_way(alloc, granularity), number)?;
        writes(
            alloc,
            &XorInterleaveMath::new(alloc, granularity),
            &[2, 0, 8, 0, 0, 0, number, 0],
        )?;
    }
    Ok(())
}

fn restricted(window: CxlFixedMemory, restriction: WindowRestrictions) -> CxlFixedMemory {
    match restriction {
        WindowRestrictions::CxlType2Memory => window.cxl_type_2_memory(),
        WindowRestrictions::CxlType3Memory => window.cxl_type_3_memory(),
        WindowRestrictions::Volatile => window.volatile(),
        WindowRestrictions::Persistent => window.persistent(),
        WindowRestrictions::FixedConfiguration => window.fixed_configuration(),
    }
}

// Fails unless a window with these restrictions, one after the other, has this number for them.
fn has_restrictions(alloc: Global, all: &[WindowRestrictions], number: u8) -> Result<(), Fail> {
    let mut made = one_target(alloc)?;
    for restriction in all {
        made = restricted(made, *restriction);
    }
    let mut wanted = ONE_WAY;
    wanted[32] = number;
    writes(alloc, &made, &wanted)
}

const TYPE_2: WindowRestrictions = WindowRestrictions::CxlType2Memory;

const TYPE_3: WindowRestrictions = WindowRestrictions::CxlType3Memory;

const VOLATILE: WindowRestrictions = WindowRestrictions::Volatile;

const PERSISTENT: WindowRestrictions = WindowRestrictions::Persistent;

const FIXED: WindowRestrictions = WindowRestrictions::FixedConfiguration;

const RESTRICTIONS: [(&[WindowRestrictions], u8); 22] = [
    (&[TYPE_2], 1),
    (&[TYPE_3], 2),
    (&[VOLATILE], 4),
    (&[PERSISTENT], 8),
    (&[FIXED], 16),
    (&[TYPE_2, TYPE_2], 1),
    (&[TYPE_2, TYPE_3], 3),
    (&[TYPE_2, VOLATILE], 5),
    (&[TYPE_3, TYPE_2], 3),
    (&[TYPE_3, TYPE_3], 2),
    (&[TYPE_3, VOLATILE], 6),
    (&[TYPE_3, FIXED], 18),
    (&[VOLATILE, TYPE_2], 5),
    (&[VOLATILE, TYPE_3], 6),
    (&[VOLATILE, VOLATILE], 4),
    (&[VOLATILE, PERSISTENT], 12),
    (&[PERSISTENT, VOLATILE], 12),
    (&[PERSISTENT, PERSISTENT], 8),
    (&[PERSISTENT, FIXED], 24),
    (&[FIXED, TYPE_2], 17),
    (&[FIXED, PERSISTENT], 24),
    (&[FIXED, FIXED], 16),
];

#[test]
fn restrictions(rt: HostRuntime) -> Result<(), Fail> {
    for (restrictions, number) in RESTRICTIONS {
        has_restrictions(rt.alloc(), restrictions, number)?;
    }
    Ok(())
}

fn no_maps(alloc: Global) -> XorInterleaveMath {
    XorInterleaveMath::new(alloc, InterleaveGranularity::Granularity512b)
}

fn has_one_map(alloc: Global, math: &mut XorInterleaveMath) -> Result<(), Fail> {
    equal(&math.map_count(), &0)?;
    math.add_xormap(0x0807_0605_0403_0201)?;
    equal(&math.map_count(), &1)?;
    writes(
        alloc,
        math,
        b"\x02\0\x10\0\0\0\x01\x01\x01\x02\x03\x04\x05\x06\x07\x08",
    )
}

#[test]
fn one_map(rt: HostRuntime) -> Result<(), Fail> {
    has_one_map(rt.alloc(), &mut no_maps(rt.alloc()))
}

// Adds as many maps as there can be.
fn add_most_maps(math: &mut XorInterleaveMath) -> R<()> {
    math.add_xormap(0x0807_0605_0403_0201)?;
    for _ in 1..255u16 {
        math.add_xormap(u64::MAX)?;
    }
    Ok(())
}

// Their bytes.
fn bytes_of_most_maps(alloc: Global) -> R<Vec<u8>> {
    let first = b"\x02\0\0\x08\0\0\x01\xff\x01\x02\x03\x04\x05\x06\x07\x08";
    let mut bytes = Vec::from_slice(alloc, first)?;
    bytes.extend_from_slice(&[0xff; 2032])?;
    Ok(bytes)
}

fn has_most_maps(alloc: Global, math: &mut XorInterleaveMath) -> Result<(), Fail> {
    add_most_maps(math)?;
    refuses(math.add_xormap(0), Error::FieldWidth)?;
    equal(&math.map_count(), &255)?;
    writes(alloc, math, &bytes_of_most_maps(alloc)?)
}

// Fails unless a table has these maps alone.
fn takes_most_maps(alloc: Global, table: &mut CEDT, math: XorInterleaveMath) -> Result<(), Fail> {
    table.add_xor_interleave_math(math)?;
    let maps = bytes_of_most_maps(alloc)?;
    many(alloc, table, b"CEDT", 1, &[], &maps, 1)
}

#[test]
fn the_most_maps(rt: HostRuntime) -> Result<(), Fail> {
    let alloc = rt.alloc();
    let mut math = no_maps(alloc);
    has_most_maps(alloc, &mut math)?;
    takes_most_maps(alloc, &mut table(alloc), math)
}

fn takes_ports(alloc: Global, table: &mut CEDT) -> Result<(), Fail> {
    for _ in 0..3_900u16 {
        table.add_port_association(PortAssociation::new(1, 2, 3, 4, ProtocolType::CxlIo, 5))?;
    }
    let port = b"\x03\0\x11\0\x01\0\x1c\x02\0\x05\0\0\0\0\0\0\0";
    many(alloc, table, b"CEDT", 1, &[], port, 3_900)
}

#[test]
fn many_ports(rt: HostRuntime) -> Result<(), Fail> {
    takes_ports(rt.alloc(), &mut table(rt.alloc()))
}

fn one_target(alloc: Global) -> R<CxlFixedMemory> {
    let mut window = one_way(alloc, InterleaveGranularity::Granularity256b);
    window.add_target([9, 8, 7, 6])?;
    Ok(window)
}

const CXL_OF_QEMU: &[u8] =
    b"\0\0\x20\0\xde\0\0\0\x01\0\0\0\0\0\0\0\0\0\0\0\x01\0\0\0\0\0\x01\0\0\0\0\0\
    \0\0\x20\0\x0c\0\0\0\x01\0\0\0\0\0\0\0\0\0\x01\0\x01\0\0\0\0\0\x01\0\0\0\0\0\
    \x01\0\x28\0\0\0\0\0\0\0\0\x10\x01\0\0\0\0\0\0\0\x01\0\0\0\0\0\0\0\x05\0\0\0\x0f\0\0\0\x0c\0\0\0\
    \x01\0\x2c\0\0\0\0\0\0\0\0\x10\x02\0\0\0\0\0\0\0\x01\0\0\0\x01\0\0\0\x05\0\0\0\x0f\0\0\0\x0c\0\0\0\xde\0\0\0";

// A window of 4 GiB for these host bridges.
fn window_of(alloc: Global, base: u64, ways: InterleaveWays, uids: &[u8]) -> R<CxlFixedMemory> {
    let granularity = InterleaveGranularity::Granularity8kb;
    let modulo = InterleaveArithmetic::Modulo;
    let mut window = CxlFixedMemory::new(alloc, base, 0x1_0000_0000, modulo, granularity, ways, 0)
        .cxl_type_2_memory()
        .cxl_type_3_memory()
        .volatile()
        .persistent();
    for uid in uids {
        window.add_target([*uid, 0, 0, 0])?;
    }
    Ok(window)
}

// The table that QEMU 7.2 writes for a Q35 with two CXL host bridges, but for its maker.
#[test]
fn of_qemu(rt: HostRuntime) -> Result<(), Fail> {
    let alloc = rt.alloc();
    let mut cedt = table(alloc);
    cedt.add_host_bridge(CxlHostBridge::new(0xde, CxlVersion::Cxl2, 0x1_0000_0000))?;
    cedt.add_host_bridge(CxlHostBridge::new(0xc, CxlVersion::Cxl2, 0x1_0001_0000))?;
    cedt.add_fixed_memory(window_of(alloc, 0x1_1000_0000, InterleaveWays::Ways1, &[0xc])?)?;
    cedt.add_fixed_memory(window_of(alloc, 0x2_1000_0000, InterleaveWays::Ways2, &[0xc, 0xde])?)?;
    writes(alloc, &cedt, &table_of(alloc, b"CEDT", 1, &[CXL_OF_QEMU])?)
}
