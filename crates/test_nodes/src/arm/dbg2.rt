//! DBG2 and its devices.

use acpi_base::error::{Error, R};
use acpi_tables::dbg2::{DBG2, DebugDevice, DebugPort};
use acpi_tables::gas::{AccessSize, AddressSpace, GAS};
use acpi_tables::spcr::InterfaceType;
use std::alloc::Global;
use std::test::Fail;
use test_support::table::all_stand;
use test_support::{OEM, OEM_REVISION, OEM_TABLE, equal, refuses, sized, writes};

// Fails unless a device without lists has these bytes of its port: the first of the type, at offset 12, and those of the
// subtype, at offset 14.
fn is_of_port(alloc: Global, device: DebugDevice, [kind, low, high]: [u8; 3]) -> Result<(), Fail> {
    let wanted = [
        0, 0x18, 0, 0, 2, 0, 0x16, 0, 0, 0, 0, 0, kind, 0x80, low, high, 0, 0, 0x16, 0, 0x16, 0,
        b'.', 0,
    ];
    writes(alloc, &device, &wanted)
}

#[test]
fn ports(rt: HostRuntime) -> Result<(), Fail> {
    let alloc = rt.alloc();
    for (port, numbers) in &[
        (DebugPort::Serial(InterfaceType::Uart16550), [0, 0, 0]),
        (DebugPort::Serial(InterfaceType::ArmPl011), [0, 3, 0]),
        (DebugPort::Serial(InterfaceType::ArmSbsa32Bit), [0, 13, 0]),
        (DebugPort::Serial(InterfaceType::ArmSbsa), [0, 14, 0]),
        (DebugPort::Serial(InterfaceType::ArmDcc), [0, 15, 0]),
        (
            DebugPort::Serial(InterfaceType::Uart16550WithGas),
            [0, 18, 0],
        ),
        (DebugPort::Serial(InterfaceType::RiscvSbi), [0, 21, 0]),
        (DebugPort::Ieee1394, [1, 0, 0]),
        (DebugPort::UsbXhci, [2, 0, 0]),
        (DebugPort::UsbEhci, [2, 1, 0]),
        (DebugPort::Net(0x8086), [3, 0x86, 0x80]),
    ] {
        is_of_port(alloc, DebugDevice::new(alloc, *port), *numbers)?;
    }
    Ok(())
}

// A register of 32 bits in memory.
fn memory() -> GAS {
    let size = AccessSize::DwordAccess;
    GAS::new(
        AddressSpace::SystemMemory,
        32,
        1,
        size,
        0x0807_0605_0403_0201,
    )
}

// A register of 8 bits in I/O space.
fn port() -> GAS {
    GAS::new(AddressSpace::SystemIo, 8, 0, AccessSize::ByteAccess, 0x3f8)
}

fn two_registers(alloc: Global) -> R<DebugDevice> {
    DebugDevice::new(alloc, DebugPort::Serial(InterfaceType::ArmPl011))
        .register(memory(), 0x1413_1211)?
        .register(port(), 8)
}

fn full_device(alloc: Global) -> R<DebugDevice> {
    let device = two_registers(alloc)?.namespace_string(String::from_str(alloc, "\\_SB.COM1")?);
    Ok(device.oem_data(Vec::from_slice(alloc, b"\xa0\xa1\xa2")?))
}

const FULL_DEVICE: &[u8] = b"\0\x43\0\x02\x0a\0\x36\0\x03\0\x40\0\0\x80\x03\0\0\0\x16\0\x2e\0\
    \0\x20\x01\x03\x01\x02\x03\x04\x05\x06\x07\x08\x01\x08\0\x01\xf8\x03\0\0\0\0\0\0\
    \x11\x12\x13\x14\x08\0\0\0\\_SB.COM1\0\xa0\xa1\xa2";

#[test]
fn a_device_with_all_lists(rt: HostRuntime) -> Result<(), Fail> {
    let device = full_device(rt.alloc())?;
    equal(&device.register_count(), &2)?;
    writes(rt.alloc(), &device, FULL_DEVICE)
}

fn table(alloc: Global) -> DBG2 {
    DBG2::new(alloc, OEM, OEM_TABLE, OEM_REVISION)
}

fn takes_two_devices(alloc: Global, table: &mut DBG2) -> Result<(), Fail> {
    table.add_device(full_device(alloc)?)?;
    table.add_device(DebugDevice::new(alloc, DebugPort::UsbXhci))?;
    equal(&(table.len(), table.count()), &(135, 2))?;
    all_stand(
        alloc,
        table,
        &[
            (36, b"\x2c\0\0\0\x02\0\0\0"),
            (44, FULL_DEVICE),
            (
                111,
                b"\0\x18\0\0\x02\0\x16\0\0\0\0\0\x02\x80\0\0\0\0\x16\0\x16\0.\0",
            ),
        ],
    )
}

#[test]
fn a_table_of_two_devices(rt: HostRuntime) -> Result<(), Fail> {
    takes_two_devices(rt.alloc(), &mut table(rt.alloc()))
}

#[test]
fn a_table_without_devices(rt: HostRuntime) -> Result<(), Fail> {
    all_stand(
        rt.alloc(),
        &table(rt.alloc()),
        &[(0, b"DBG2\x2c\0\0\0\0"), (36, b"\x2c\0\0\0\0\0\0\0")],
    )
}

fn registers(alloc: Global, count: u16) -> R<DebugDevice> {
    let mut device = DebugDevice::new(alloc, DebugPort::Ieee1394);
    for _ in 0..count {
        device = device.register(GAS::default(), 0)?;
    }
    Ok(device)
}

fn name(alloc: Global, size: usize) -> R<String> {
    let mut text = String::new(alloc);
    for _ in 0..size {
        text.push('n')?;
    }
    Ok(text)
}

// A device with this many registers, with a name and OEM data of these numbers of bytes.
fn device(alloc: Global, (count, length, size): (u16, usize, usize)) -> R<DebugDevice> {
    let device = registers(alloc, count)?.namespace_string(name(alloc, length)?);
    Ok(device.oem_data(vec![in alloc; 0xa5; size]?))
}

// Fails unless a device has this size, and a table takes it.
fn stands(alloc: Global, table: &mut DBG2, device: DebugDevice, size: usize) -> Result<(), Fail> {
    sized(alloc, &device, size)?;
    table.add_device(device)?;
    equal(&table.count(), &1)
}

fn takes(alloc: Global, parts: (u16, usize, usize), size: usize) -> Result<(), Fail> {
    let device = device(alloc, parts)?;
    stands(alloc, &mut table(alloc), device, size)
}

fn is_refused(table: &mut DBG2, device: DebugDevice) -> Result<(), Fail> {
    refuses(table.add_device(device), Error::FieldWidth)?;
    equal(&table.count(), &0)
}

fn is_too_long(alloc: Global, parts: (u16, usize, usize)) -> Result<(), Fail> {
    let device = device(alloc, parts)?;
    is_refused(&mut table(alloc), device)
}

// Devices of at most 65,535 bytes.
#[test]
fn the_longest_devices(rt: HostRuntime) -> Result<(), Fail> {
    for (parts, size) in [
        ((255, 0, 0), 4103),
        ((0, 65_512, 0), 65_535),
        ((0, 0, 65_512), 65_535),
        ((255, 61_432, 0), 65_535),
        ((1, 65_490, 6), 65_535),
    ] {
        takes(rt.alloc(), parts, size)?;
    }
    for parts in [
        (0, 65_513, 0),
        (0, 0, 65_513),
        (255, 61_432, 1),
        (1, 65_490, 7),
        (1, 70_000, 0),
    ] {
        is_too_long(rt.alloc(), parts)?;
    }
    Ok(())
}

#[test]
fn the_most_registers(rt: HostRuntime) -> Result<(), Fail> {
    let full = registers(rt.alloc(), 255)?;
    equal(&full.register_count(), &255)?;
    refuses(full.register(GAS::default(), 0), Error::FieldWidth)
}
