//! HMAT, and the matrices of SLIT and SystemLocality, whose size is given to `new`.

use crate::fault::Fault;
use crate::filling::{Fills, Full, GIB, written};
use acpi_tables::hmat::{
    Associativity, CacheLevel, DataType, HMAT, LocalityType, MemorySideCache, MinTransferSize,
    SystemLocality, WritePolicy,
};
use acpi_tables::read::Table;
use acpi_tables::slit::SLIT;
use acpi_tables::{Error, R};
use std::alloc::Global;
use test_support::{OEM, OEM_REVISION, OEM_TABLE};

// The most localities of a SLIT. There is one byte for each pair of them.
const LOCALITIES: u32 = 65_535;

// The most targets of a structure without initiators, which has 32 bytes and four for each target.
const TARGETS: u32 = 1_073_741_815;

// A structure without initiators and with this many targets. It has 32 bytes and four for each target.
fn latencies(alloc: Global, targets: usize) -> R<SystemLocality> {
    let size = MinTransferSize::SizeByteAligned;
    let data = DataType::AccessLatency;
    SystemLocality::new(alloc, LocalityType::Memory, data, size, 1000, 0, targets)
}

// A structure of 32 bytes and two for each handle.
fn side_cache(alloc: Global) -> MemorySideCache {
    let (total, level) = (CacheLevel::One, CacheLevel::One);
    let (ways, policy) = (Associativity::DirectMapped, WritePolicy::Writeback);
    MemorySideCache::new(alloc, 1, 0x1000, total, level, ways, policy, 64)
}

impl Fills for HMAT {
    const UNIT: &'static str = "structures";

    fn empty(alloc: Global) -> R<HMAT> {
        Ok(HMAT::new(alloc, OEM, OEM_TABLE, OEM_REVISION))
    }

    // The table has 40 bytes, and each structure an even number of them. Three structures of 2^30 bytes, one of 2^30 - 76 and
    // one of 34 end two bytes below 2^32.
    fn grow(&mut self, alloc: Global, number: u32) -> R<()> {
        match number {
            0..=2 => self.add_system_locality(latencies(alloc, (GIB - 32) / 4)?),
            3 => self.add_system_locality(latencies(alloc, (GIB - 76 - 32) / 4)?),
            4 => {
                let mut cache = side_cache(alloc);
                cache.add_smbios_handle(0x1112)?;
                self.add_memory_side_cache(cache)
            }
            _ => self.add_memory_side_cache(side_cache(alloc)),
        }
    }
}

// Fails unless a matrix with one more row or column returns `Matrix`.
fn refused<T: Drop>(made: R<T>) -> Result<(), Fault> {
    match made {
        Err(Error::Matrix) => Ok(()),
        Err(other) => Err(Fault::Built(other)),
        Ok(_) => Err(Fault::Unlimited),
    }
}

fn distances(alloc: Global, localities: u32) -> R<SLIT> {
    SLIT::new(alloc, OEM, OEM_TABLE, OEM_REVISION, localities)
}

/// The SLIT with the most localities.
pub fn slit(alloc: Global) -> Result<Full, Fault> {
    refused(distances(alloc, LOCALITIES + 1))?;
    let mut table = distances(alloc, LOCALITIES)?;
    table.set_distance(65_534, 65_533, 20)?;
    let bytes = written(alloc, &table)?;
    Table::check(&bytes)?;
    Ok(Full {
        unit: "localities",
        count: LOCALITIES,
        bytes: bytes.len(),
    })
}

/// The SystemLocality with the most targets.
pub fn system_locality(alloc: Global) -> Result<Full, Fault> {
    refused(latencies(alloc, TARGETS as usize + 1))?;
    let structure = latencies(alloc, TARGETS as usize)?;
    let bytes = written(alloc, &structure)?;
    let Ok(size) = u32::try_from(bytes.len()) else {
        return Err(Fault::Length);
    };
    if bytes.get(4..8).unwrap_or(&[]) != size.to_le_bytes().as_slice() {
        return Err(Fault::Length);
    }
    Ok(Full {
        unit: "targets",
        count: TARGETS,
        bytes: bytes.len(),
    })
}
