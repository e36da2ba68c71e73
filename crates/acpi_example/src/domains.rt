//! How far the memory of two domains is from the processors of each.

ghost use Rattle.std.specs.Prelude.{◌≡◌, length, IfOk};
ghost use Rattle.acpi_matrices.specs.Slit.{distance};

use crate::oem::{OEM_ID, OEM_REVISION, OEM_TABLE_ID};
use acpi_tables::R;
use acpi_tables::hmat::{
    DataType, HMAT, LocalityType, MemoryProximityDomain, MinTransferSize, SystemLocality,
};
use acpi_tables::slit::SLIT;
use std::alloc::Global;

/// The distances of two domains: 10 to a domain's own memory, and 20 to the other's.
pub fn distances(alloc: Global) -> R<SLIT>
    ensures { IfOk result (λ slit. (distance slit.table 0 1 ≡ 20) × (distance slit.table 1 0 ≡ 20)) }
{
    let mut table = SLIT::new(alloc, OEM_ID, OEM_TABLE_ID, OEM_REVISION, 2)?;
    table.set_distance(0, 1, 20)?;
    Ok(table)
}

// A matrix of the two domains: `near` is the entry for a processor's own domain, and `far` the one for the other domain.
fn matrix(alloc: Global, data: DataType, unit: u64, near: u16, far: u16) -> R<SystemLocality> {
    let mut matrix = SystemLocality::new(
        alloc,
        LocalityType::Memory,
        data,
        MinTransferSize::SizeByteAligned,
        unit,
        2,
        2,
    )?;
    for domain in 0..2u8 {
        let (own, other) = (usize::from(domain), usize::from(1 - domain));
        matrix.set_initiator_value(own, u32::from(domain))?;
        matrix.set_target_value(own, u32::from(domain))?;
        matrix.set_entry_value(own, own, near)?;
        matrix.set_entry_value(own, other, far)?;
    }
    Ok(matrix)
}

/// The latencies of an access, 80 and 160 nanoseconds, and the bandwidths, 40,000 and 20,000 megabytes a second.
pub fn attributes(alloc: Global) -> R<HMAT>
    ensures { IfOk result (λ hmat. length hmat.table.table.structures ≡ 4) }
{
    let mut table = HMAT::new(alloc, OEM_ID, OEM_TABLE_ID, OEM_REVISION);
    'domains: for domain in 0..2u32 {
        table.add_memory_proximity(MemoryProximityDomain::new(domain, domain))?;
    }
    table.add_system_locality(matrix(alloc, DataType::AccessLatency, 1000, 80, 160)?)?;
    table.add_system_locality(matrix(alloc, DataType::AccessBandwidth, 1000, 40, 20)?)?;
    Ok(table)
}
