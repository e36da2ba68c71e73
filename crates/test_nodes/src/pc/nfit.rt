//! NFIT and its structures.

use crate::tables::is;
use acpi_base::error::{Error, R};
use acpi_base::patch::write_at;
use acpi_tables::nfit::{
    BlockWindows, Capabilities, ControlRegion, DataWindow, FlushHint, Interleave, NFIT, RangeType,
    RegionMapping, SmbiosInformation, SpaRange,
};
use std::alloc::Global;
use std::test::Fail;
use test_support::{OEM, OEM_REVISION, OEM_TABLE, all, equal, refuses, sized, writes};

// The range of addresses of a module of 128 MiB, in a PC of QEMU 7.2 and in its Arm machine `virt`.
const PC_RANGE: &[u8] = b"\0\0\x38\0\x04\0\x03\0\0\0\0\0\x02\0\0\0\
    \x79\xd3\xf0\x66\xf3\xb4\x74\x40\xac\x43\x0d\x33\x18\xb7\x8c\xdb\
    \0\0\0\x08\x01\0\0\0\0\0\0\x08\0\0\0\0\x08\x80\0\0\0\0\0\0";

const VIRT_RANGE: &[u8] = b"\0\0\x38\0\x04\0\x03\0\0\0\0\0\x01\0\0\0\
    \x79\xd3\xf0\x66\xf3\xb4\x74\x40\xac\x43\x0d\x33\x18\xb7\x8c\xdb\
    \0\0\0\x88\0\0\0\0\0\0\0\x08\0\0\0\0\x08\x80\0\0\0\0\0\0";

// The module's mapping and its control region.
const MODULE: &[u8] = b"\x01\0\x30\0\x02\0\0\0\0\0\0\0\x04\0\x05\0\0\0\0\x08\0\0\0\0\
    \0\0\0\0\0\0\0\0\0\0\0\0\0\0\0\0\0\0\x01\0\0\0\0\0\
    \x04\0\x50\0\x05\0\x86\x80\x01\0\x01\0\0\0\0\0\0\0\0\0\0\0\0\0\x57\x34\x12\0\x01\x03\0\0\
    \0\0\0\0\0\0\0\0\0\0\0\0\0\0\0\0\0\0\0\0\0\0\0\0\
    \0\0\0\0\0\0\0\0\0\0\0\0\0\0\0\0\0\0\0\0\0\0\0\0";

const CAPABILITIES: &[u8] = b"\x07\0\x10\0\x01\0\0\0\x03\0\0\0\0\0\0\0";

fn add_module(nfit: &mut NFIT, base: u64, domain: u32) -> R<()> {
    let range = SpaRange::new(4, RangeType::Persistent, base, 0x800_0000, 0x8008);
    nfit.add_spa_range(range.hot_add_only().proximity_domain(domain))?;
    nfit.add_region_mapping(RegionMapping::new(2, 4, 5, 0x800_0000))?;
    nfit.add_control_region(ControlRegion::new(5, 0x8086, 1, 1, 0x12_3457, 0x301))
}

// The bytes before the structures.
const FIXED: &[u8] = b"\0\0\0\0";

fn takes_module(
    alloc: Global,
    nfit: &mut NFIT,
    base: u64,
    domain: u32,
    range: &[u8],
) -> Result<(), Fail> {
    is(alloc, nfit, b"NFIT", 1, &[FIXED])?;
    add_module(nfit, base, domain)?;
    is(alloc, nfit, b"NFIT", 1, &[FIXED, range, MODULE])?;
    nfit.add_capabilities(Capabilities::new(1).cache_flush().controller_flush())?;
    equal(&(nfit.len(), nfit.count()), &(240, 4))?;
    is(
        alloc,
        nfit,
        b"NFIT",
        1,
        &[FIXED, range, MODULE, CAPABILITIES],
    )
}

// The tables that QEMU 7.2 writes for a PC and for `virt`. That of `virt` has no capabilities.
#[test]
fn of_qemu(rt: HostRuntime) -> Result<(), Fail> {
    for (base, domain, range) in [(0x1_0800_0000, 2, PC_RANGE), (0x8800_0000, 1, VIRT_RANGE)] {
        let mut nfit = NFIT::new(rt.alloc(), OEM, OEM_TABLE, OEM_REVISION);
        takes_module(rt.alloc(), &mut nfit, base, domain, range)?;
    }
    Ok(())
}

// Fails unless a range of a type has this GUID.
fn is_of_type(alloc: Global, kind: RangeType, guid: [u8; 16]) -> Result<(), Fail> {
    let mut wanted = [0; 56];
    wanted[2] = 56;
    write_at(&mut wanted, 16, &guid);
    writes(alloc, &SpaRange::new(0, kind, 0, 0, 0), &wanted)
}

#[test]
fn types_of_ranges(rt: HostRuntime) -> Result<(), Fail> {
    for (kind, guid) in &[
        // 7305944f-fdda-44e3-b16c-3f22d252e5d0
        (
            RangeType::Volatile,
            *b"\x4f\x94\x05\x73\xda\xfd\xe3\x44\xb1\x6c\x3f\x22\xd2\x52\xe5\xd0",
        ),
        // 66f0d379-b4f3-4074-ac43-0d3318b78cdb
        (
            RangeType::Persistent,
            *b"\x79\xd3\xf0\x66\xf3\xb4\x74\x40\xac\x43\x0d\x33\x18\xb7\x8c\xdb",
        ),
        // 92f701f6-13b4-405d-910b-299367e8234c
        (
            RangeType::ControlRegion,
            *b"\xf6\x01\xf7\x92\xb4\x13\x5d\x40\x91\x0b\x29\x93\x67\xe8\x23\x4c",
        ),
        // 91af0530-5d86-470e-a6b0-0a2db9408249
        (
            RangeType::DataWindow,
            *b"\x30\x05\xaf\x91\x86\x5d\x0e\x47\xa6\xb0\x0a\x2d\xb9\x40\x82\x49",
        ),
        // 77ab535a-45fc-624b-5560-f7b281d1f96e
        (
            RangeType::VolatileDisk,
            *b"\x5a\x53\xab\x77\xfc\x45\x4b\x62\x55\x60\xf7\xb2\x81\xd1\xf9\x6e",
        ),
        // 3d5abd30-4175-87ce-6d64-d2ade523c4bb
        (
            RangeType::VolatileCd,
            *b"\x30\xbd\x5a\x3d\x75\x41\xce\x87\x6d\x64\xd2\xad\xe5\x23\xc4\xbb",
        ),
        // 5cea02c9-4d07-69d3-269f-4496fbe096f9
        (
            RangeType::PersistentDisk,
            *b"\xc9\x02\xea\x5c\x07\x4d\xd3\x69\x26\x9f\x44\x96\xfb\xe0\x96\xf9",
        ),
        // 08018188-42cd-bb48-100f-5387d53ded3d
        (
            RangeType::PersistentCd,
            *b"\x88\x81\x01\x08\xcd\x42\x48\xbb\x10\x0f\x53\x87\xd5\x3d\xed\x3d",
        ),
        (
            RangeType::Vendor(*b"0123456789abcdef"),
            *b"0123456789abcdef",
        ),
    ] {
        is_of_type(rt.alloc(), *kind, *guid)?;
    }
    Ok(())
}

const BASE: u64 = 0x1817_1615_1413_1211;

const SIZE: u64 = 0x2827_2625_2423_2221;

const LAST: u64 = 0x3837_3635_3433_3231;

fn control_region() -> ControlRegion {
    ControlRegion::new(0x0201, 0x0403, 0x0605, 0x0807, 0x0c0b_0a09, 0x0e0d)
}

// Each record with all of its setters.
#[test]
fn records(rt: HostRuntime) -> Result<(), Fail> {
    let range = SpaRange::new(
        0x0201,
        RangeType::Vendor(*b"0123456789abcdef"),
        BASE,
        SIZE,
        LAST,
    );
    let windows = BlockWindows {
        count: 0x0201,
        size: BASE,
        command: (SIZE, LAST),
        status: (LAST, BASE),
    };
    let all_windows = control_region()
        .subsystem(0x1211, 0x1413, 0x1615)
        .manufactured(0x17, 0x1918)
        .windows(windows)
        .buffered();
    all(
        rt.alloc(),
        &[
            (
                &range.location_cookie(0x4847_4645_4443_4241).hot_add_only(),
                b"\0\0\x40\0\x01\x02\x05\0\0\0\0\0\0\0\0\x000123456789abcdef\
                    \x11\x12\x13\x14\x15\x16\x17\x18\x21\x22\x23\x24\x25\x26\x27\x28\
                    \x31\x32\x33\x34\x35\x36\x37\x38\x41\x42\x43\x44\x45\x46\x47\x48",
            ),
            (
                &range.proximity_domain(0x0403_0201),
                b"\0\0\x38\0\x01\x02\x02\0\0\0\0\0\x01\x02\x03\x040123456789abcdef\
                    \x11\x12\x13\x14\x15\x16\x17\x18\x21\x22\x23\x24\x25\x26\x27\x28\
                    \x31\x32\x33\x34\x35\x36\x37\x38",
            ),
            (
                &RegionMapping::new(0x0403_0201, 0x0605, 0x0807, BASE)
                    .ids(0x0a09, 0x0c0b)
                    .place(SIZE, LAST)
                    .interleaved(0x0e0d, 0x100f)
                    .state(0x7f),
                b"\x01\0\x30\0\x01\x02\x03\x04\x09\x0a\x0b\x0c\x05\x06\x07\x08\
                    \x11\x12\x13\x14\x15\x16\x17\x18\x21\x22\x23\x24\x25\x26\x27\x28\
                    \x31\x32\x33\x34\x35\x36\x37\x38\x0d\x0e\x0f\x10\x7f\0\0\0",
            ),
            (
                &all_windows,
                b"\x04\0\x50\0\x01\x02\x03\x04\x05\x06\x07\x08\x11\x12\x13\x14\x15\x16\x01\x17\x18\x19\0\0\
                    \x09\x0a\x0b\x0c\x0d\x0e\x01\x02\x11\x12\x13\x14\x15\x16\x17\x18\
                    \x21\x22\x23\x24\x25\x26\x27\x28\x31\x32\x33\x34\x35\x36\x37\x38\
                    \x31\x32\x33\x34\x35\x36\x37\x38\x11\x12\x13\x14\x15\x16\x17\x18\x01\0\0\0\0\0\0\0",
            ),
            (
                &DataWindow::new(0x0201, 0x0403, BASE, SIZE, LAST, BASE),
                b"\x05\0\x28\0\x01\x02\x03\x04\x11\x12\x13\x14\x15\x16\x17\x18\
                    \x21\x22\x23\x24\x25\x26\x27\x28\x31\x32\x33\x34\x35\x36\x37\x38\
                    \x11\x12\x13\x14\x15\x16\x17\x18",
            ),
            (
                &Capabilities::new(2)
                    .cache_flush()
                    .controller_flush()
                    .mirroring(),
                b"\x07\0\x10\0\x02\0\0\0\x07\0\0\0\0\0\0\0",
            ),
        ],
    )
}

// A pattern of this many lines.
fn interleave(alloc: Global, lines: u32) -> R<Interleave> {
    let mut interleave = Interleave::new(alloc, 0x0201, 0x1817_1615);
    for line in 0..lines {
        interleave.add_line(line.wrapping_add(0x0403_0201))?;
    }
    Ok(interleave)
}

// A hint of this many addresses.
fn hint(alloc: Global, addresses: u64) -> R<FlushHint> {
    let mut hint = FlushHint::new(alloc, 0x0403_0201);
    for address in 0..addresses {
        hint.add_address(address.wrapping_add(BASE))?;
    }
    Ok(hint)
}

fn add_lists(alloc: Global, nfit: &mut NFIT) -> R<()> {
    nfit.add_interleave(interleave(alloc, 2)?)?;
    nfit.add_smbios_information(SmbiosInformation::new(alloc, b"\x11\x03\x01")?)?;
    nfit.add_data_window(DataWindow::new(0, 0, 0, 0, 0, 0))?;
    nfit.add_flush_hint(hint(alloc, 2)?)
}

const LISTS: &[u8] = b"\0\0\0\0\
    \x02\0\x18\0\x01\x02\0\0\x02\0\0\0\x15\x16\x17\x18\x01\x02\x03\x04\x02\x02\x03\x04\
    \x03\0\x0b\0\0\0\0\0\x11\x03\x01\
    \x05\0\x28\0\0\0\0\0\0\0\0\0\0\0\0\0\0\0\0\0\0\0\0\0\0\0\0\0\0\0\0\0\0\0\0\0\0\0\0\0\
    \x06\0\x20\0\x01\x02\x03\x04\x02\0\0\0\0\0\0\0\
    \x11\x12\x13\x14\x15\x16\x17\x18\x12\x12\x13\x14\x15\x16\x17\x18";

fn takes_lists(alloc: Global, nfit: &mut NFIT) -> Result<(), Fail> {
    add_lists(alloc, nfit)?;
    is(alloc, nfit, b"NFIT", 1, &[LISTS])
}

#[test]
fn structures_with_lists(rt: HostRuntime) -> Result<(), Fail> {
    let mut nfit = NFIT::new(rt.alloc(), OEM, OEM_TABLE, OEM_REVISION);
    takes_lists(rt.alloc(), &mut nfit)
}

fn takes_no_line(interleave: &mut Interleave) -> Result<(), Fail> {
    refuses(interleave.add_line(0), Error::FieldWidth)?;
    equal(&interleave.line_count(), &16_379)
}

fn takes_no_address(hint: &mut FlushHint) -> Result<(), Fail> {
    refuses(hint.add_address(0), Error::FieldWidth)?;
    equal(&hint.address_count(), &8_189)
}

#[test]
fn the_longest_lists(rt: HostRuntime) -> Result<(), Fail> {
    takes_no_line(&mut interleave(rt.alloc(), 16_379)?)?;
    takes_no_address(&mut hint(rt.alloc(), 8_189)?)
}

// Information of this many bytes.
fn information(alloc: Global, size: usize) -> R<SmbiosInformation> {
    SmbiosInformation::new(alloc, &vec![in alloc; 0xa5; size]?)
}

#[test]
fn the_longest_information(rt: HostRuntime) -> Result<(), Fail> {
    sized(rt.alloc(), &information(rt.alloc(), 65_527)?, 65_535)?;
    refuses(information(rt.alloc(), 65_528), Error::FieldWidth)
}
