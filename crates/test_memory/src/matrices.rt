//! HMAT, its structures, and SLIT.

use crate::trial::Grows;
use acpi_tables::R;
use acpi_tables::hmat::{
    Associativity, CacheLevel, DataType, HMAT, LocalityType, MemoryProximityDomain,
    MemorySideCache, MinTransferSize, SystemLocality, WritePolicy,
};
use acpi_tables::slit::SLIT;
use std::alloc::Global;
use test_support::{OEM, OEM_REVISION, OEM_TABLE};

pub fn latencies(alloc: Global) -> R<SystemLocality> {
    let size = MinTransferSize::SizeByteAligned;
    let data = DataType::AccessLatency;
    SystemLocality::new(alloc, LocalityType::Memory, data, size, 1000, 3, 2)
}

pub fn distances(alloc: Global) -> R<SLIT> {
    SLIT::new(alloc, OEM, OEM_TABLE, OEM_REVISION, 3)
}

impl Grows for MemorySideCache {
    const WAYS: u8 = 1;

    // Eight handles have room inside the value. With these six, the third call of `grow` asks for memory.
    fn empty(alloc: Global) -> R<MemorySideCache> {
        let (total, level) = (CacheLevel::One, CacheLevel::One);
        let (ways, policy) = (Associativity::DirectMapped, WritePolicy::Writeback);
        let mut cache = MemorySideCache::new(alloc, 1, 0x1000, total, level, ways, policy, 64);
        for _ in 0..6u8 {
            cache.add_smbios_handle(0x1112)?;
        }
        Ok(cache)
    }

    fn grow(&mut self, _alloc: Global, _way: u8) -> R<()> {
        self.add_smbios_handle(0x1112)
    }
}

fn cache(alloc: Global) -> R<MemorySideCache> {
    let mut cache = MemorySideCache::empty(alloc)?;
    cache.add_smbios_handle(0x1112)?;
    Ok(cache)
}

impl Grows for HMAT {
    const WAYS: u8 = 3;

    fn empty(alloc: Global) -> R<HMAT> {
        Ok(HMAT::new(alloc, OEM, OEM_TABLE, OEM_REVISION))
    }

    fn grow(&mut self, alloc: Global, way: u8) -> R<()> {
        match way {
            0 => self.add_memory_proximity(MemoryProximityDomain::new(1, 2)),
            1 => self.add_system_locality(latencies(alloc)?),
            _ => self.add_memory_side_cache(cache(alloc)?),
        }
    }
}
