//! SLIT, and HMAT and its structures.

use crate::short::{starve, starve_made};
use acpi_tables::R;
use acpi_tables::hmat::{
    Associativity, CacheLevel, DataType, HMAT, LocalityType, MemoryProximityDomain,
    MemorySideCache, MinTransferSize, SystemLocality, WritePolicy,
};
use acpi_tables::slit::SLIT;
use std::alloc::Global;
use std::test::Fail;
use test_support::{OEM, OEM_REVISION, OEM_TABLE};

fn slit(alloc: Global) -> R<SLIT> {
    let mut slit = SLIT::new(alloc, OEM, OEM_TABLE, OEM_REVISION, 3)?;
    slit.set_distance(0, 2, 31)?;
    Ok(slit)
}

#[test]
fn distances(rt: HostRuntime) -> Result<(), Fail> {
    starve_made(rt.alloc(), 53, slit(rt.alloc()))
}

fn hmat(alloc: Global) -> R<HMAT> {
    let mut hmat = HMAT::new(alloc, OEM, OEM_TABLE, OEM_REVISION);
    hmat.add_memory_proximity(MemoryProximityDomain::new(1, 2))?;
    Ok(hmat)
}

fn locality(alloc: Global) -> R<SystemLocality> {
    let mut locality = SystemLocality::new(
        alloc,
        LocalityType::Memory,
        DataType::AccessLatency,
        MinTransferSize::Size256b,
        1,
        3,
        2,
    )?;
    locality.set_entry_value(2, 1, 0x0201)?;
    Ok(locality)
}

fn side_cache(alloc: Global) -> R<MemorySideCache> {
    let mut cache = MemorySideCache::new(
        alloc,
        1,
        2,
        CacheLevel::Three,
        CacheLevel::Two,
        Associativity::DirectMapped,
        WritePolicy::Writeback,
        64,
    );
    cache.add_smbios_handle(0x0201)?;
    Ok(cache)
}

#[test]
fn attributes(rt: HostRuntime) -> Result<(), Fail> {
    let alloc = rt.alloc();
    starve_made(alloc, 80, hmat(alloc))?;
    starve(alloc, 40, &MemoryProximityDomain::new(1, 2))?;
    starve_made(alloc, 64, locality(alloc))?;
    starve_made(alloc, 34, side_cache(alloc))
}
