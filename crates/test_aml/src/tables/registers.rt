//! Addresses of registers: each space, each access size and each width.

use super::dsdt;
use acpi_tables::R;
use acpi_tables::gas::{AccessSize, AddressSpace, GAS};
use acpi_tables::sdt::GenericAddress;
use std::alloc::Global;
use std::test::Fail;
use test_support::{equal, same, writes};

#[test]
fn spaces_and_access_sizes(rt: HostRuntime) -> Result<(), Fail> {
    for (space, number) in [
        (AddressSpace::SystemMemory, 0),
        (AddressSpace::SystemIo, 1),
        (AddressSpace::PciConfigSpace, 2),
        (AddressSpace::EmbeddedController, 3),
        (AddressSpace::Smbus, 4),
        (AddressSpace::SystemCmos, 5),
        (AddressSpace::PciBarTarget, 6),
        (AddressSpace::Ipmi, 7),
        (AddressSpace::GeneralPursposeIo, 8),
        (AddressSpace::GenericSerialBus, 9),
        (AddressSpace::PlatformCommunicationsChannel, 10),
        (AddressSpace::PlatformRuntimeMechanism, 11),
        (AddressSpace::FunctionalFixedHardware, 0x7f),
    ] {
        let register = GAS::new(
            space,
            0x20,
            0x03,
            AccessSize::ByteAccess,
            0x0807_0605_0403_0201,
        );
        equal(&(space as u8), &number)?;
        let wanted = [number, 0x20, 0x03, 1, 1, 2, 3, 4, 5, 6, 7, 8];
        writes(rt.alloc(), &register, &wanted)?;
    }
    for (size, number) in [
        (AccessSize::Undefined, 0),
        (AccessSize::ByteAccess, 1),
        (AccessSize::WordAccess, 2),
        (AccessSize::DwordAccess, 3),
        (AccessSize::QwordAccess, 4),
    ] {
        let register = GAS::new(AddressSpace::SystemIo, 0x10, 0, size, 0x3f8);
        equal(&(size as u8), &number)?;
        let wanted = [1, 0x10, 0, number, 0xf8, 3, 0, 0, 0, 0, 0, 0];
        writes(rt.alloc(), &register, &wanted)?;
    }
    let register = GAS::new_pci_config(16, AccessSize::WordAccess, 31, 7, 0x40);
    let wanted = [2, 0x10, 0, 2, 0x40, 0, 7, 0, 0x1f, 0, 0, 0];
    equal(&GAS::len(), &12)?;
    writes(rt.alloc(), &register, &wanted)?;
    writes(rt.alloc(), &GAS::default(), &[0; 12])
}

// The bytes of a register in a table.
fn in_table(alloc: Global, register: GenericAddress) -> R<Vec<u8>> {
    let mut table = dsdt(alloc)?;
    table.append(register)?;
    let mut bytes = Vec::new(alloc);
    bytes.extend_from_slice(table.as_slice().get(36..).unwrap_or(&[]))?;
    Ok(bytes)
}

#[test]
fn in_tables(rt: HostRuntime) -> Result<(), Fail> {
    let offset = GenericAddress {
        address_space_id: 1,
        register_bit_width: 8,
        register_bit_offset: 3,
        access_size: 2,
        address: 0x1817_1615_1413_1211,
    };
    for (register, wanted) in [
        (
            GenericAddress::io_port_address::<u8>(0x3f8),
            b"\x01\x08\0\x01\xf8\x03\0\0\0\0\0\0",
        ),
        (
            GenericAddress::io_port_address::<u16>(0x3f8),
            b"\x01\x10\0\x02\xf8\x03\0\0\0\0\0\0",
        ),
        (
            GenericAddress::io_port_address::<u32>(0x3f8),
            b"\x01\x20\0\x03\xf8\x03\0\0\0\0\0\0",
        ),
        (
            GenericAddress::io_port_address::<u64>(0x3f8),
            b"\x01\x40\0\x04\xf8\x03\0\0\0\0\0\0",
        ),
        (
            GenericAddress::mmio_address::<u8>(0x3f8),
            b"\0\x08\0\x01\xf8\x03\0\0\0\0\0\0",
        ),
        (
            GenericAddress::mmio_address::<u16>(0x3f8),
            b"\0\x10\0\x02\xf8\x03\0\0\0\0\0\0",
        ),
        (
            GenericAddress::mmio_address::<u32>(0x3f8),
            b"\0\x20\0\x03\xf8\x03\0\0\0\0\0\0",
        ),
        (
            GenericAddress::mmio_address::<u64>(0x3f8),
            b"\0\x40\0\x04\xf8\x03\0\0\0\0\0\0",
        ),
        (offset, b"\x01\x08\x03\x02\x11\x12\x13\x14\x15\x16\x17\x18"),
    ] {
        same(&in_table(rt.alloc(), register)?, wanted)?;
    }
    Ok(())
}
