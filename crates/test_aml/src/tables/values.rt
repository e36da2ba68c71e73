//! Values that are written into a table, each at another offset.

use super::{dsdt, whole_is};
use acpi_tables::R;
use acpi_tables::sdt::{GenericAddress, Sdt};
use std::alloc::Global;
use std::test::Fail;

// A byte, numbers of 2, 4 and 8 bytes and three bytes, and then a register of 64 bits in memory.
const VALUES: [u8; 30] = [
    0x11, 0x22, 0x21, 0x34, 0x33, 0x32, 0x31, 0x48, 0x47, 0x46, 0x45, 0x44, 0x43, 0x42, 0x41, 0x51,
    0x52, 0x53, 0x00, 0x40, 0x00, 0x04, 0x68, 0x67, 0x66, 0x65, 0x64, 0x63, 0x62, 0x61,
];

fn add_values(table: &mut Sdt) -> R<()> {
    table.append(0x11u8)?;
    table.append(0x2122u16)?;
    table.append(0x3132_3334u32)?;
    table.append(0x4142_4344_4546_4748u64)?;
    table.append([0x51u8, 0x52, 0x53])?;
    table.append(GenericAddress::mmio_address::<u64>(0x6162_6364_6566_6768))
}

#[test]
fn added(rt: HostRuntime) -> Result<(), Fail> {
    let mut table = dsdt(rt.alloc())?;
    add_values(&mut table)?;
    whole_is(&table, 66, 0xa1, &VALUES)
}

// The empty block, and 34 zeros after it.
fn zeros(alloc: Global) -> R<Sdt> {
    let mut table = dsdt(alloc)?;
    table.append([0u8; 34])?;
    Ok(table)
}

fn write_values(table: &mut Sdt) -> Result<(), Fail> {
    if table.len() != 70 {
        return Err(Fail::new("another length"));
    }
    table.write(36, 0x11u8);
    if table.len() != 70 {
        return Err(Fail::new("another length"));
    }
    table.write(37, 0x2122u16);
    if table.len() != 70 {
        return Err(Fail::new("another length"));
    }
    table.write(39, 0x3132_3334u32);
    if table.len() != 70 {
        return Err(Fail::new("another length"));
    }
    table.write(43, 0x4142_4344_4546_4748u64);
    if table.len() != 70 {
        return Err(Fail::new("another length"));
    }
    table.write(51, [0x51u8, 0x52, 0x53]);
    if table.len() != 70 {
        return Err(Fail::new("another length"));
    }
    let register = GenericAddress::mmio_address::<u64>(0x6162_6364_6566_6768);
    table.write(54, register);
    Ok(())
}

#[test]
fn written_over(rt: HostRuntime) -> Result<(), Fail> {
    let mut table = zeros(rt.alloc())?;
    write_values(&mut table)?;
    let mut contents = [0u8; 34];
    contents[..30].copy_from_slice(&VALUES);
    whole_is(&table, 70, 0x9d, &contents)
}

fn write_by_width(table: &mut Sdt) -> Result<(), Fail> {
    if table.len() != 70 {
        return Err(Fail::new("another length"));
    }
    table.write_u8(36, 0x11);
    if table.len() != 70 {
        return Err(Fail::new("another length"));
    }
    table.write_u16(37, 0x2122);
    if table.len() != 70 {
        return Err(Fail::new("another length"));
    }
    table.write_u32(39, 0x3132_3334);
    if table.len() != 70 {
        return Err(Fail::new("another length"));
    }
    table.write_u64(43, 0x4142_4344_4546_4748);
    if table.len() != 70 {
        return Err(Fail::new("another length"));
    }
    table.write_bytes(51, &[0x51, 0x52, 0x53]);
    Ok(())
}

#[test]
fn written_over_by_width(rt: HostRuntime) -> Result<(), Fail> {
    let mut table = zeros(rt.alloc())?;
    write_by_width(&mut table)?;
    let mut contents = [0u8; 34];
    contents[..18].copy_from_slice(&VALUES[..18]);
    whole_is(&table, 70, 0x05, &contents)
}
