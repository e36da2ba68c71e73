//! HEST and its error sources.

mod error_data;

use acpi_tables::gas::{AccessSize, AddressSpace, GAS};
use acpi_tables::hest::{
    EnabledStatus, ErrorSeverity, FirmwareFirst, GenericErrorStatus, GenericHardwareSource,
    GenericHardwareSourceV2, HEST, NotificationStructure, NotificationType, PciDevice,
    PcieAerBridge, PcieAerDevice, PcieAerRootPort,
};
use acpi_tables::{Aml, Error};
use std::alloc::Global;
use std::test::Fail;
use test_support::broken::Broken;
use test_support::table::{many, stands};
use test_support::{OEM, OEM_REVISION, OEM_TABLE, all, equal, refuses, writes};

fn table(alloc: Global) -> HEST {
    HEST::new(alloc, OEM, OEM_TABLE, OEM_REVISION)
}

// The source of all root ports.
const ROOT_PORTS: [u8; 48] =
    *b"\x06\0\0\0\0\0\x02\0\0\0\0\0\0\0\0\0\0\0\0\0\0\0\0\0\0\0\0\0\0\0\0\0\0\0\0\0\0\0\0\0\0\0\0\0\0\0\0\0";

// Adds the source of all root ports several times. Fails unless a table has it alone, by this number and these fields.
fn takes(
    alloc: Global,
    hest: &mut HEST,
    more: u16,
    count: u32,
    fields: &[u8; 4],
) -> Result<(), Fail> {
    for _ in 0..more {
        hest.add_structure(PcieAerRootPort::new_global())?;
    }
    many(alloc, hest, b"HEST", 1, fields, &ROOT_PORTS, count)
}

fn takes_many(alloc: Global, hest: &mut HEST) -> Result<(), Fail> {
    writes(
        alloc,
        hest,
        b"HEST\x28\0\0\0\x01\x57FOOBARCAFEDEAD\xef\xbe\xad\xdeRVAT\0\0\0\x01\0\0\0\0",
    )?;
    takes(alloc, hest, 256, 256, &[0, 1, 0, 0])?;
    stands(alloc, hest, 0, b"HEST\x28\x30\0\0\x01\x26")?;
    takes(alloc, hest, 1_110, 1_366, &[0x56, 5, 0, 0])
}

#[test]
fn sources(rt: HostRuntime) -> Result<(), Fail> {
    takes_many(rt.alloc(), &mut table(rt.alloc()))
}

// A table of revision 2.
#[test]
fn revision_2(rt: HostRuntime) -> Result<(), Fail> {
    let table = HEST::of_revision(rt.alloc(), 2, OEM, OEM_TABLE, OEM_REVISION);
    writes(
        rt.alloc(),
        &table,
        b"HEST\x28\0\0\0\x02\x56FOOBARCAFEDEAD\xef\xbe\xad\xdeRVAT\0\0\0\x01\0\0\0\0",
    )
}

// Adds a source, and fails unless the table is its header, its count and the bytes of all sources so far.
fn adds<T: Aml + Drop>(
    alloc: Global,
    hest: &mut HEST,
    source: T,
    bytes: &[u8],
    all: &mut Vec<u8>,
    count: u8,
) -> Result<(), Fail> {
    hest.add_structure(source)?;
    all.extend_from_slice(bytes)?;
    many(alloc, hest, b"HEST", 1, &[count, 0, 0, 0], all, 1)
}

const DEVICES: [u8; 44] =
    *b"\x07\0\0\0\0\0\x02\0\0\0\0\0\0\0\0\0\0\0\0\0\0\0\0\0\0\0\0\0\0\0\0\0\0\0\0\0\0\0\0\0\0\0\0\0";

const BRIDGES: [u8; 56] =
    *b"\x08\0\0\0\0\0\x02\0\0\0\0\0\0\0\0\0\0\0\0\0\0\0\0\0\0\0\0\0\0\0\0\0\0\0\0\0\0\0\0\0\0\0\0\0\0\0\0\0\0\0\0\0\0\0\0\0";

fn adds_each_kind(alloc: Global, hest: &mut HEST, all: &mut Vec<u8>) -> Result<(), Fail> {
    let ports = PcieAerRootPort::new_global();
    adds(alloc, hest, ports, &ROOT_PORTS, all, 1)?;
    let devices = PcieAerDevice::new_global();
    adds(alloc, hest, devices, &DEVICES, all, 2)?;
    let bridges = PcieAerBridge::new_global();
    adds(alloc, hest, bridges, &BRIDGES, all, 3)?;
    let first = GenericHardwareSource::new(0x0302, EnabledStatus::Enabled);
    let mut bytes = [0; 64];
    bytes[..8].copy_from_slice(b"\x09\0\x02\x03\xff\xff\0\x01");
    adds(alloc, hest, first, &bytes, all, 4)?;
    let second = GenericHardwareSourceV2::new(0x0504, EnabledStatus::Disabled);
    let mut bytes = [0; 92];
    bytes[..8].copy_from_slice(b"\x0a\0\x04\x05\xff\xff\0\0");
    adds(alloc, hest, second, &bytes, all, 5)?;
    stands(alloc, hest, 4, b"\x58\x01\0\0")
}

#[test]
fn each_kind(rt: HostRuntime) -> Result<(), Fail> {
    let mut hest = table(rt.alloc());
    adds_each_kind(rt.alloc(), &mut hest, &mut Vec::new(rt.alloc()))
}

fn notification() -> NotificationStructure {
    NotificationStructure::new(NotificationType::Sci)
        .conf_write_en(0x0302)
        .poll_interval_ms(0x0706_0504)
        .vector(0x0b0a_0908)
        .polling_threshold_value(0x0f0e_0d0c)
        .polling_threshold_window_ms(0x1312_1110)
        .error_threshold_value(0x1716_1514)
        .error_threshold_window_ms(0x1b1a_1918)
}

#[test]
fn notifications(rt: HostRuntime) -> Result<(), Fail> {
    let alloc = rt.alloc();
    writes(
        alloc,
        &notification(),
        b"\x03\x1c\x02\x03\x04\x05\x06\x07\x08\x09\x0a\x0b\x0c\x0d\x0e\x0f\x10\x11\x12\x13\x14\x15\x16\x17\x18\x19\x1a\x1b",
    )?;
    let mut wanted = [0; 28];
    wanted[1] = 28;
    for (kind, number) in [
        (NotificationType::default(), 0),
        (NotificationType::Polled, 0),
        (NotificationType::ExternalIrq, 1),
        (NotificationType::LocalIrq, 2),
        (NotificationType::Sci, 3),
        (NotificationType::Nmi, 4),
        (NotificationType::Cmci, 5),
        (NotificationType::Mce, 6),
        (NotificationType::GpioSignal, 7),
        (NotificationType::Armv8Sea, 8),
        (NotificationType::Armv8Sei, 9),
        (NotificationType::ExternalGsiv, 10),
        (NotificationType::SoftwareException, 11),
        (NotificationType::RiscvSupervisorSoftwareEvent, 12),
        (NotificationType::RiscvLowPriorityRasInterrupt, 13),
        (NotificationType::RiscvHighPriorityRasInterrupt, 14),
        (NotificationType::RiscvHardwareErrorException, 15),
    ] {
        equal(&(kind as u8), &number)?;
        wanted[0] = number;
        writes(alloc, &NotificationStructure::new(kind), &wanted)?;
    }
    Ok(())
}

const STATUS: GAS = GAS {
    address_space_id: AddressSpace::SystemIo,
    register_bit_width: 8,
    register_bit_offset: 3,
    access_size: AccessSize::WordAccess,
    address: 0x0807_0605_0403_0201,
};

const ACKNOWLEDGEMENT: GAS = GAS {
    address_space_id: AddressSpace::SystemMemory,
    register_bit_width: 64,
    register_bit_offset: 5,
    access_size: AccessSize::QwordAccess,
    address: 0x1817_1615_1413_1211,
};

// Sources with each of their fields, and hardware sources that are disabled and have no others.
#[test]
fn fields_of_sources(rt: HostRuntime) -> Result<(), Fail> {
    let port = PcieAerRootPort::new_root_port(FirmwareFirst::Enabled, PciDevice::new(0xfe, 31, 7))
        .source_id(0x0302)
        .enabled(EnabledStatus::Enabled)
        .num_records(0x0b0a_0908)
        .max_sections(0x0f0e_0d0c)
        .device_control(0x1918)
        .uncorrectable_error_mask(0x1f1e_1d1c)
        .uncorrectable_error_severity(0x2322_2120)
        .correctable_error_mask(0x2726_2524)
        .aer_cap_ctrl(0x2b2a_2928)
        .root_error_command(0x2f2e_2d2c);
    let device = PcieAerDevice::new_root_port(FirmwareFirst::Disabled, PciDevice::new(0xfe, 31, 7))
        .num_records(0x0b0a_0908)
        .max_sections(0x0f0e_0d0c)
        .device_control(0x1918)
        .uncorrectable_error_mask(0x1f1e_1d1c)
        .uncorrectable_error_severity(0x2322_2120)
        .correctable_error_mask(0x2726_2524)
        .aer_cap_ctrl(0x2b2a_2928);
    let bridge = PcieAerBridge::new_bridge(FirmwareFirst::Enabled, PciDevice::new(0xfe, 31, 7))
        .num_records(0x0b0a_0908)
        .max_sections(0x0f0e_0d0c)
        .device_control(0x1918)
        .uncorrectable_error_mask(0x1f1e_1d1c)
        .uncorrectable_error_severity(0x2322_2120)
        .correctable_error_mask(0x2726_2524)
        .aer_cap_ctrl(0x2b2a_2928)
        .secondary_uncorrectable_error_mask(0x2f2e_2d2c)
        .secondary_uncorrectable_error_severity(0x3332_3130)
        .secondary_aer_cap_ctrl(0x3736_3534);
    let first = GenericHardwareSource::new(0x0302, EnabledStatus::Enabled)
        .num_records(0x0b0a_0908)
        .max_sections(0x0f0e_0d0c)
        .max_raw_length(0x1312_1110)
        .error_status_address(STATUS)
        .notification(notification())
        .error_status_block_len(0x3f3e_3d3c);
    let second = GenericHardwareSourceV2::new(0x0302, EnabledStatus::Enabled)
        .num_records(0x0b0a_0908)
        .max_sections(0x0f0e_0d0c)
        .max_raw_length(0x1312_1110)
        .error_status_address(STATUS)
        .notification(notification())
        .error_status_block_len(0x3f3e_3d3c)
        .read_ack_register(ACKNOWLEDGEMENT)
        .read_ack_preserve(0x5352_5150_4f4e_4d4c)
        .read_ack_write(0x5b5a_5958_5756_5554);
    all(
        rt.alloc(),
        &[
            (
                &port,
                b"\x06\0\x02\x03\0\0\x01\x01\x08\x09\x0a\x0b\x0c\x0d\x0e\x0f\
                    \xfe\0\0\0\x1f\0\x07\0\x18\x19\0\0\x1c\x1d\x1e\x1f\
                    \x20\x21\x22\x23\x24\x25\x26\x27\x28\x29\x2a\x2b\x2c\x2d\x2e\x2f",
            ),
            (
                &device,
                b"\x07\0\0\0\0\0\0\0\x08\x09\x0a\x0b\x0c\x0d\x0e\x0f\
                    \xfe\0\0\0\x1f\0\x07\0\x18\x19\0\0\x1c\x1d\x1e\x1f\
                    \x20\x21\x22\x23\x24\x25\x26\x27\x28\x29\x2a\x2b",
            ),
            (
                &bridge,
                b"\x08\0\0\0\0\0\x01\0\x08\x09\x0a\x0b\x0c\x0d\x0e\x0f\
                    \xfe\0\0\0\x1f\0\x07\0\x18\x19\0\0\x1c\x1d\x1e\x1f\
                    \x20\x21\x22\x23\x24\x25\x26\x27\x28\x29\x2a\x2b\x2c\x2d\x2e\x2f\
                    \x30\x31\x32\x33\x34\x35\x36\x37",
            ),
            (
                &GenericHardwareSource::new(0, EnabledStatus::Disabled),
                b"\x09\0\0\0\xff\xff\0\0\0\0\0\0\0\0\0\0\0\0\0\0\0\0\0\0\0\0\0\0\0\0\0\0\
                    \0\0\0\0\0\0\0\0\0\0\0\0\0\0\0\0\0\0\0\0\0\0\0\0\0\0\0\0\0\0\0\0",
            ),
            (
                &first,
                b"\x09\0\x02\x03\xff\xff\0\x01\x08\x09\x0a\x0b\x0c\x0d\x0e\x0f\
                    \x10\x11\x12\x13\x01\x08\x03\x02\x01\x02\x03\x04\x05\x06\x07\x08\
                    \x03\x1c\x02\x03\x04\x05\x06\x07\x08\x09\x0a\x0b\x0c\x0d\x0e\x0f\
                    \x10\x11\x12\x13\x14\x15\x16\x17\x18\x19\x1a\x1b\x3c\x3d\x3e\x3f",
            ),
            (
                &GenericHardwareSourceV2::new(0, EnabledStatus::Disabled),
                b"\x0a\0\0\0\xff\xff\0\0\0\0\0\0\0\0\0\0\0\0\0\0\0\0\0\0\0\0\0\0\0\0\0\0\
                    \0\0\0\0\0\0\0\0\0\0\0\0\0\0\0\0\0\0\0\0\0\0\0\0\0\0\0\0\0\0\0\0\
                    \0\0\0\0\0\0\0\0\0\0\0\0\0\0\0\0\0\0\0\0\0\0\0\0\0\0\0\0",
            ),
            (
                &second,
                b"\x0a\0\x02\x03\xff\xff\0\x01\x08\x09\x0a\x0b\x0c\x0d\x0e\x0f\
                    \x10\x11\x12\x13\x01\x08\x03\x02\x01\x02\x03\x04\x05\x06\x07\x08\
                    \x03\x1c\x02\x03\x04\x05\x06\x07\x08\x09\x0a\x0b\x0c\x0d\x0e\x0f\
                    \x10\x11\x12\x13\x14\x15\x16\x17\x18\x19\x1a\x1b\x3c\x3d\x3e\x3f\
                    \0\x40\x05\x04\x11\x12\x13\x14\x15\x16\x17\x18LMNO\
                    PQRSTUVWXYZ\x5b",
            ),
        ],
    )
}

#[test]
fn statuses(rt: HostRuntime) -> Result<(), Fail> {
    let alloc = rt.alloc();
    let mut wanted = [0; 20];
    for (correctable, uncorrectable, status) in [
        (0, 0, 0),
        (1, 0, 2),
        (0, 1, 1),
        (1, 1, 3),
        (2, 0, 8),
        (0, 2, 4),
        (1, u32::MAX, 6),
        (u32::MAX, 1, 9),
        (3, 5, 12),
    ] {
        wanted[0] = status;
        let block = GenericErrorStatus::new(correctable, uncorrectable, ErrorSeverity::Recoverable);
        writes(alloc, &block, &wanted)?;
    }
    wanted[0] = 0;
    for (severity, number) in [
        (ErrorSeverity::Recoverable, 0),
        (ErrorSeverity::Fatal, 1),
        (ErrorSeverity::Correctable, 2),
        (ErrorSeverity::None, 3),
        (ErrorSeverity::default(), 3),
    ] {
        equal(&(severity as u8), &number)?;
        wanted[16] = number;
        writes(alloc, &GenericErrorStatus::new(0, 0, severity), &wanted)?;
    }
    Ok(())
}

// Fails unless a table refuses a source, and is unchanged.
fn is_unchanged(alloc: Global, hest: &mut HEST) -> Result<(), Fail> {
    takes(alloc, hest, 1, 1, &[1, 0, 0, 0])?;
    refuses(hest.add_structure(Broken {}), Error::Sink(9))?;
    takes(alloc, hest, 0, 1, &[1, 0, 0, 0])
}

#[test]
fn a_source_that_refuses(rt: HostRuntime) -> Result<(), Fail> {
    is_unchanged(rt.alloc(), &mut table(rt.alloc()))
}
