//! Tables of no structure, of one and of 256, read back into the structures that were added.

use acpi_base::buffer::append;
use acpi_base::error::R;
use acpi_tables::dbg2::{DBG2, DebugDevice, DebugPort};
use acpi_tables::gtdt::{GTDT, GenericWatchdog, Timer, Timers};
use acpi_tables::iort::{IORT, SmmuV3, SmmuV3Model};
use std::alloc::Global;
use std::test::Fail;
use test_support::table::{is_sized, reads_back};
use test_support::{OEM, OEM_REVISION, OEM_TABLE};

// Adds watchdogs to a table, and their bytes to those that were added.
fn add_watchdogs(table: &mut GTDT, added: &mut Vec<u8>, count: u16) -> R<()> {
    for n in 0..count {
        let watchdog = GenericWatchdog::new(0, 0, u32::from(n));
        append(&watchdog, added)?;
        table.add_generic_watchdog(watchdog)?;
    }
    Ok(())
}

fn reads_watchdogs(
    alloc: Global,
    table: &mut GTDT,
    added: &mut Vec<u8>,
    count: u16,
) -> Result<(), Fail> {
    add_watchdogs(table, added, count)?;
    is_sized((table.len(), table.count()), 104, 28, count)?;
    reads_back(alloc, table, 104, 28, added)
}

fn gtdt_of(alloc: Global, count: u16) -> Result<(), Fail> {
    let timers = Timers::new(Timer::new(30), Timer::new(27));
    let mut table = GTDT::new(alloc, OEM, OEM_TABLE, OEM_REVISION, timers);
    reads_watchdogs(alloc, &mut table, &mut Vec::new(alloc), count)
}

fn add_device(table: &mut DBG2, added: &mut Vec<u8>, device: DebugDevice) -> R<()> {
    append(&device, added)?;
    table.add_device(device)
}

fn reads_devices(
    alloc: Global,
    table: &mut DBG2,
    added: &mut Vec<u8>,
    count: u16,
) -> Result<(), Fail> {
    for n in 0..count {
        add_device(table, added, DebugDevice::new(alloc, DebugPort::Net(n)))?;
    }
    is_sized((table.len(), table.count()), 44, 24, count)?;
    reads_back(alloc, table, 44, 24, added)
}

fn dbg2_of(alloc: Global, count: u16) -> Result<(), Fail> {
    let mut table = DBG2::new(alloc, OEM, OEM_TABLE, OEM_REVISION);
    reads_devices(alloc, &mut table, &mut Vec::new(alloc), count)
}

// The identifier of a node, at offset 4, is its index.
fn add_nodes(alloc: Global, table: &mut IORT, added: &mut Vec<u8>, count: u16) -> R<()> {
    for n in 0..count {
        let [low, high] = n.to_le_bytes();
        added.extend_from_slice(&[4, 68, 0, 4, low, high, 0, 0])?;
        added.extend_from_slice(&[0; 60])?;
        let _ = table.add_smmu_v3(SmmuV3::new(alloc, SmmuV3Model::Generic, 0))?;
    }
    Ok(())
}

fn reads_nodes(
    alloc: Global,
    table: &mut IORT,
    added: &mut Vec<u8>,
    count: u16,
) -> Result<(), Fail> {
    add_nodes(alloc, table, added, count)?;
    is_sized((table.len(), table.count()), 48, 68, count)?;
    reads_back(alloc, table, 48, 68, added)
}

fn iort_of(alloc: Global, count: u16) -> Result<(), Fail> {
    let mut table = IORT::new(alloc, OEM, OEM_TABLE, OEM_REVISION);
    reads_nodes(alloc, &mut table, &mut Vec::new(alloc), count)
}

#[test]
fn each(rt: HostRuntime) -> Result<(), Fail> {
    let alloc = rt.alloc();
    for count in [0, 1, 256] {
        gtdt_of(alloc, count)?;
        dbg2_of(alloc, count)?;
        iort_of(alloc, count)?;
    }
    Ok(())
}
