//! The fixed hardware of ACPI, and the sources of errors.

ghost use Rattle.std.specs.Prelude.{◌+◌, ◌≤◌, ◌^◌};

use crate::machine::{
    BOOT_ERRORS, BYTES_FROM_BASE, CONTROL_PORTS, ERROR_PAGE, ERROR_STATUS, EVENT_PORTS,
    GENERAL_EVENT_BYTES, GENERAL_EVENT_PORTS, SCI, TIMER_PORTS,
};
use crate::oem::{OEM_ID, OEM_REVISION, OEM_TABLE_ID};
use acpi_tables::R;
use acpi_tables::bert::BERT;
use acpi_tables::fadt::{FADTBuilder, Flags};
use acpi_tables::gas::{AccessSize, AddressSpace, GAS};
use acpi_tables::hest::{
    self, GenericHardwareSource, HEST, NotificationStructure, NotificationType, PcieAerRootPort,
};
use std::alloc::Global;

// The address of a register of `bits` bits, whose first I/O port is `first`.
fn ports(first: u32, bits: u8, access: AccessSize) -> GAS {
    GAS::new(AddressSpace::SystemIo, bits, 0, access, u64::from(first))
}

/// The fields of the FADT (ACPI 6.5, 5.2.9). Its pointers are set when the tables are laid.
pub fn fixed_hardware() -> FADTBuilder {
    let mut fields = FADTBuilder::new(OEM_ID, OEM_TABLE_ID, OEM_REVISION);
    fields.sci_int = u16::from(SCI);
    fields.pm1a_evt_blk = EVENT_PORTS;
    fields.pm1_evt_len = 4;
    fields.x_pm1a_evt_blk = ports(EVENT_PORTS, 32, AccessSize::WordAccess);
    fields.pm1a_cnt_blk = CONTROL_PORTS;
    fields.pm1_cnt_len = 2;
    fields.x_pm1a_cnt_blk = ports(CONTROL_PORTS, 16, AccessSize::WordAccess);
    fields.pm_tmr_blk = TIMER_PORTS;
    fields.pm_tmr_len = 4;
    fields.x_pm_tmr_blk = ports(TIMER_PORTS, 32, AccessSize::DwordAccess);
    fields.x_gpe0_blk = ports(
        GENERAL_EVENT_PORTS,
        8 * GENERAL_EVENT_BYTES,
        AccessSize::ByteAccess,
    );
    fields
        .gpe_info(GENERAL_EVENT_PORTS, 0, GENERAL_EVENT_BYTES, 0, 0)
        .flag(Flags::Wbinvd)
        .flag(Flags::ProcC1)
        .flag(Flags::PwrButton)
        .flag(Flags::SlpButton)
        .flag(Flags::TmrValExt)
}

/// The sources of errors: the root ports of PCI Express, and firmware, which writes to a page of memory that is polled.
pub fn error_sources(alloc: Global, base: u64) -> R<HEST>
    requires { base + BYTES_FROM_BASE ≤ 2 ^ 64 }
{
    let mut table = HEST::new(alloc, OEM_ID, OEM_TABLE_ID, OEM_REVISION);
    let ports = PcieAerRootPort::new_global().enabled(hest::EnabledStatus::Enabled);
    table.add_structure(ports)?;
    let polled = NotificationStructure::new(NotificationType::Polled).poll_interval_ms(1000);
    let status = GAS::new(
        AddressSpace::SystemMemory,
        64,
        0,
        AccessSize::QwordAccess,
        base + ERROR_STATUS,
    );
    table.add_structure(
        GenericHardwareSource::new(1, hest::EnabledStatus::Enabled)
            .num_records(1)
            .max_sections(1)
            .max_raw_length(0x1000)
            .error_status_address(status)
            .notification(polled)
            .error_status_block_len(ERROR_PAGE),
    )?;
    Ok(table)
}

/// The page to which firmware writes the errors of the boot before. It has none.
pub fn boot_errors(base: u64) -> BERT
    requires { base + BYTES_FROM_BASE ≤ 2 ^ 64 }
{
    BERT::new(
        OEM_ID,
        OEM_TABLE_ID,
        OEM_REVISION,
        ERROR_PAGE,
        base + BOOT_ERRORS,
    )
}
