//! SLIT.

use acpi_tables::read::Table;
use acpi_tables::slit::{SLIT, UNREACHABLE_LOCALITY};
use acpi_tables::{Error, R};
use std::alloc::Global;
use std::test::Fail;
use test_support::table::{many, stands};
use test_support::{OEM, OEM_REVISION, OEM_TABLE, equal, refuses, writes, written};

fn table(alloc: Global, localities: u32) -> R<SLIT> {
    SLIT::new(alloc, OEM, OEM_TABLE, OEM_REVISION, localities)
}

// Sets these distances, and fails unless others are refused.
fn takes(
    slit: &mut SLIT,
    distances: &[(usize, usize, u8)],
    outside: &[(usize, usize)],
) -> Result<(), Fail> {
    for (from, to, distance) in distances {
        slit.set_distance(*from, *to, *distance)?;
    }
    for (from, to) in outside {
        refuses(slit.set_distance(*from, *to, 20), Error::Index)?;
    }
    Ok(())
}

// Fails unless a table has these bytes after it took distances and refused others.
fn becomes(
    alloc: Global,
    mut slit: SLIT,
    distances: &[(usize, usize, u8)],
    outside: &[(usize, usize)],
    wanted: &[u8],
) -> Result<(), Fail> {
    takes(&mut slit, distances, outside)?;
    writes(alloc, &slit, wanted)
}

// A number of localities, distances that are set, places that are refused, and the bytes then.
type Localities = (
    u32,
    &'static [(usize, usize, u8)],
    &'static [(usize, usize)],
    &'static [u8],
);

// Two localities, whose first distance is 20.
const TWO: &[u8] =
    b"SLIT\x30\0\0\0\x01\x13FOOBARCAFEDEAD\xef\xbe\xad\xdeRVAT\0\0\0\x01\x02\0\0\0\0\0\0\0\x14\x0a\x0a\x0a";

// The bytes of two localities are the same before and after the refusals. Each distance is at both places, and the last that was
// set is there.
#[rattlefmt::skip]
const TABLES: [Localities; 6] = [
    (0, &[], &[(0, 0)],
        b"SLIT\x2c\0\0\0\x01\x4bFOOBARCAFEDEAD\xef\xbe\xad\xdeRVAT\0\0\0\x01\0\0\0\0\0\0\0\0"),
    (1, &[(0, 0, 11)], &[(1, 0), (0, 1)],
        b"SLIT\x2d\0\0\0\x01\x3eFOOBARCAFEDEAD\xef\xbe\xad\xdeRVAT\0\0\0\x01\x01\0\0\0\0\0\0\0\x0b"),
    (2, &[], &[],
        b"SLIT\x30\0\0\0\x01\x1dFOOBARCAFEDEAD\xef\xbe\xad\xdeRVAT\0\0\0\x01\x02\0\0\0\0\0\0\0\x0a\x0a\x0a\x0a"),
    (2, &[(0, 0, 20)], &[], TWO),
    (2, &[(0, 0, 20)], &[(0, 2), (2, 0), (2, 2), (0, usize::MAX), (usize::MAX, 1)], TWO),
    (3, &[(0, 1, 99), (1, 0, 21), (0, 2, 31), (2, 1, UNREACHABLE_LOCALITY), (1, 1, 98), (1, 1, 11), (2, 2, 12)], &[],
        b"SLIT\x35\0\0\0\x01\xb8FOOBARCAFEDEAD\xef\xbe\xad\xdeRVAT\0\0\0\x01\
            \x03\0\0\0\0\0\0\0\
            \x0a\x15\x1f\x15\x0b\xff\x1f\xff\x0c"),
];

#[test]
fn few_localities(rt: HostRuntime) -> Result<(), Fail> {
    for (localities, distances, outside, wanted) in &TABLES {
        let slit = table(rt.alloc(), *localities)?;
        becomes(rt.alloc(), slit, *distances, *outside, *wanted)?;
    }
    Ok(())
}

// The numbers of bytes and of localities, also past 255.
#[test]
fn sizes(rt: HostRuntime) -> Result<(), Fail> {
    for (localities, size) in [(0, 44), (1, 45), (3, 53), (257, 66_093)] {
        let slit = table(rt.alloc(), localities)?;
        equal(&(slit.localities(), slit.len()), &(localities, size))?;
    }
    Ok(())
}

#[test]
fn too_many_localities(rt: HostRuntime) -> Result<(), Fail> {
    for localities in [65_536, 65_537, u32::MAX] {
        refuses(table(rt.alloc(), localities), Error::Matrix)?;
    }
    Ok(())
}

// 300 localities have 90,000 cells, in a table of 90,044 bytes.
#[test]
fn many_localities(rt: HostRuntime) -> Result<(), Fail> {
    let slit = table(rt.alloc(), 300)?;
    let fixed = b"\x2c\x01\0\0\0\0\0\0";
    many(rt.alloc(), &slit, b"SLIT", 1, fixed, b"\x0a", 90_000)
}

fn far_distances(alloc: Global) -> Result<SLIT, Fail> {
    let mut slit = table(alloc, 300)?;
    let distances = [(299, 0, 200), (17, 256, 201), (299, 299, 202)];
    takes(&mut slit, &distances, &[])?;
    Ok(slit)
}

// Fails unless the distances stand in both their places, and nowhere else.
fn has_far_distances(bytes: &[u8]) -> Result<(), Fail> {
    equal(&bytes.len(), &90_044)?;
    // 44 + 299; 44 + 300 * 299; 44 + 17 + 300 * 256; 44 + 256 + 300 * 17; 44 + 299 + 300 * 299
    for (at, distance) in [
        (343, 200),
        (89_744, 200),
        (76_861, 201),
        (5_400, 201),
        (90_043, 202),
    ] {
        equal(&bytes.get(at), &Some(&distance))?;
    }
    let mut changed = 0u32;
    for byte in bytes {
        if *byte >= 200 && *byte <= 202 {
            changed = changed.wrapping_add(1);
        }
    }
    equal(&changed, &5)
}

// Fails unless these bytes are read as such a table.
fn is_read(bytes: &[u8]) -> Result<(), Fail> {
    let checked = Table::check(bytes)?;
    equal(&checked.signature(), b"SLIT")?;
    equal(&checked.revision(), &1)
}

fn far_bytes(alloc: Global) -> Result<Vec<u8>, Fail> {
    let slit = far_distances(alloc)?;
    stands(alloc, &slit, 0, b"SLIT\xbc\x5f\x01\0\x01")?;
    Ok(written(alloc, &slit)?)
}

#[test]
fn distances_of_many_localities(rt: HostRuntime) -> Result<(), Fail> {
    let bytes = far_bytes(rt.alloc())?;
    has_far_distances(&bytes)?;
    is_read(&bytes)
}
