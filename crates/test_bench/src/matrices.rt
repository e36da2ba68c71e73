//! Tables that contain matrices, whose cells are set one by one.

ghost use Rattle.std.specs.Prelude.{◌≡◌, length, IfOk};

use acpi_tables::R;
use acpi_tables::hmat::{DataType, HMAT, LocalityType, MinTransferSize, SystemLocality};
use acpi_tables::slit::SLIT;
use std::alloc::Global;
use test_support::{OEM, OEM_REVISION, OEM_TABLE};

/// A table of this many localities. The distance of each pair is set once, and differs from that of neighbouring pairs.
pub fn slit(alloc: Global, localities: u32) -> R<SLIT>
    ensures { IfOk result (λ slit. slit.table.localities ≡ localities) }
{
    let mut table = SLIT::new(alloc, OEM, OEM_TABLE, OEM_REVISION, localities)?;
    let mut distance = 0u8;
    'rows: for a in 0..localities {
        'cells: for b in 0..=a {
            table.set_distance(a as usize, b as usize, distance)?;
            distance = distance.wrapping_mul(5).wrapping_add(1);
        }
    }
    Ok(table)
}

// A matrix of this many initiators and targets. The latency of each pair differs from that of neighbouring pairs.
fn latencies(alloc: Global, side: u32) -> R<SystemLocality> {
    let side = side as usize;
    let mut matrix = SystemLocality::new(
        alloc,
        LocalityType::Memory,
        DataType::AccessLatency,
        MinTransferSize::SizeByteAligned,
        1000,
        side,
        side,
    )?;
    let mut latency = 0u16;
    for initiator in 0..side {
        for target in 0..side {
            matrix.set_entry_value(initiator, target, latency)?;
            latency = latency.wrapping_mul(25_173).wrapping_add(13_849);
        }
    }
    Ok(matrix)
}

/// A HMAT of one such matrix.
pub fn hmat(alloc: Global, side: u32) -> R<HMAT>
    ensures { IfOk result (λ hmat. length hmat.table.table.structures ≡ 1) }
{
    let mut table = HMAT::new(alloc, OEM, OEM_TABLE, OEM_REVISION);
    table.add_system_locality(latencies(alloc, side)?)?;
    Ok(table)
}
