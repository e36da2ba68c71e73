//! Memory side caches.

use crate::matrices::hmat::table;
use acpi_tables::hmat::{Associativity, CacheLevel, HMAT, MemorySideCache, WritePolicy};
use acpi_tables::{Error, R};
use std::alloc::Global;
use std::test::Fail;
use test_support::table::many;
use test_support::{equal, refuses, writes};

fn side_cache(alloc: Global) -> MemorySideCache {
    MemorySideCache::new(
        alloc,
        0x1234_5678,
        0x90ab_cdef_1234_5678,
        CacheLevel::Three,
        CacheLevel::Two,
        Associativity::DirectMapped,
        WritePolicy::Writeback,
        64,
    )
}

// A cache with these handles.
fn with_handles(mut cache: MemorySideCache, handles: &[u16]) -> R<MemorySideCache> {
    for handle in handles {
        cache.add_smbios_handle(*handle)?;
    }
    Ok(cache)
}

// Fails unless a cache has this many handles and these bytes.
fn has(alloc: Global, cache: &MemorySideCache, count: usize, wanted: &[u8]) -> Result<(), Fail> {
    equal(&cache.handle_count(), &count)?;
    writes(alloc, cache, wanted)
}

#[test]
fn a_side_cache(rt: HostRuntime) -> Result<(), Fail> {
    has(
        rt.alloc(),
        &side_cache(rt.alloc()),
        0,
        b"\x02\0\0\0\x20\0\0\0\x78\x56\x34\x12\0\0\0\0\x78\x56\x34\x12\xef\xcd\xab\x90\x23\x11\x40\0\0\0\0\0",
    )
}

// Fails unless this cache has this many handles and these bytes, and stands in a table.
fn stands(
    alloc: Global,
    hmat: &mut HMAT,
    cache: MemorySideCache,
    count: usize,
    wanted: &[u8],
) -> Result<(), Fail> {
    has(alloc, &cache, count, wanted)?;
    hmat.add_memory_side_cache(cache)?;
    many(alloc, hmat, b"HMAT", 1, &[0; 4], wanted, 1)
}

#[test]
fn two_handles(rt: HostRuntime) -> Result<(), Fail> {
    stands(
        rt.alloc(),
        &mut table(rt.alloc()),
        with_handles(side_cache(rt.alloc()), &[0x0201, 0x0403])?,
        2,
        b"\x02\0\0\0\x24\0\0\0\x78\x56\x34\x12\0\0\0\0\x78\x56\x34\x12\xef\xcd\xab\x90\x23\x11\x40\0\0\0\x02\0\x01\x02\x03\x04",
    )
}

fn attributes(alloc: Global, cache: MemorySideCache, wanted: [u8; 4]) -> Result<(), Fail> {
    let mut bytes = *b"\x02\0\0\0\x20\0\0\0\0\0\0\0\0\0\0\0\0\0\0\0\0\0\0\0\0\0\0\0\0\0\0\0";
    bytes[24..28].copy_from_slice(&wanted);
    writes(alloc, &cache, &bytes)
}

// The numbers of the enums are compared alone, too.
#[test]
#[rattlefmt::skip]
fn cache_attributes(rt: HostRuntime) -> Result<(), Fail> {
    let all = [
        (CacheLevel::None, CacheLevel::Three, Associativity::Complex, WritePolicy::None, 0, [0, 3, 2, 0], *b"\x30\x02\0\0"),
        (CacheLevel::One, CacheLevel::None, Associativity::None, WritePolicy::Writethrough, 0xffff, [1, 0, 0, 2],
            *b"\x01\x20\xff\xff"),
        (CacheLevel::Two, CacheLevel::One, Associativity::DirectMapped, WritePolicy::Writeback, 0x0201, [2, 1, 1, 1],
            *b"\x12\x11\x01\x02"),
        (CacheLevel::Three, CacheLevel::Two, Associativity::Complex, WritePolicy::Writethrough, 1, [3, 2, 2, 2],
            *b"\x23\x22\x01\0"),
    ];
    for (total, this, spread, policy, line, numbers, wanted) in all {
        equal(&[total as u32, this as u32, spread as u32, policy as u32], &numbers)?;
        let cache = MemorySideCache::new(rt.alloc(), 0, 0, total, this, spread, policy, line);
        attributes(rt.alloc(), cache, wanted)?;
    }
    Ok(())
}

fn all_handles(alloc: Global) -> R<Vec<u16>> {
    let mut handles = Vec::new(alloc);
    for handle in 0..65_535u16 {
        handles.push(handle)?;
    }
    Ok(handles)
}

fn full_cache(alloc: Global) -> R<MemorySideCache> {
    let cache = MemorySideCache::new(
        alloc,
        0,
        0,
        CacheLevel::None,
        CacheLevel::None,
        Associativity::None,
        WritePolicy::None,
        0,
    );
    with_handles(cache, &all_handles(alloc)?)
}

// The bytes of a cache of 65,535 handles: 32 + 2 * 65,535, which is 0x2001e.
fn most_handles(alloc: Global) -> R<Vec<u8>> {
    let head = b"\x02\0\0\0\x1e\0\x02\0\0\0\0\0\0\0\0\0\0\0\0\0\0\0\0\0\0\0\0\0\0\0\xff\xff";
    let mut wanted = Vec::from_slice(alloc, head)?;
    for handle in 0..65_535u16 {
        wanted.extend_from_slice(&handle.to_le_bytes())?;
    }
    Ok(wanted)
}

// A cache with these bytes refuses another handle, and then stands in a table.
fn refuses_another(alloc: Global, hmat: &mut HMAT, wanted: &[u8]) -> Result<(), Fail> {
    let mut cache = full_cache(alloc)?;
    has(alloc, &cache, 65_535, wanted)?;
    refuses(cache.add_smbios_handle(7), Error::FieldWidth)?;
    stands(alloc, hmat, cache, 65_535, wanted)
}

#[test]
fn the_most_handles(rt: HostRuntime) -> Result<(), Fail> {
    let wanted = most_handles(rt.alloc())?;
    refuses_another(rt.alloc(), &mut table(rt.alloc()), &wanted)
}
