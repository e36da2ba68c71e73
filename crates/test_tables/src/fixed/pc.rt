//! HPET, WAET, BGRT and WSMT: their bytes, and what each setter sets.

use super::sums;
use acpi_tables::bgrt::{BGRT, Orientation};
use acpi_tables::gas::{AccessSize, AddressSpace, GAS};
use acpi_tables::hpet::{EventTimerBlockId, HPET, PageProtection};
use acpi_tables::waet::WAET;
use acpi_tables::wsmt::WSMT;
use std::test::Fail;
use test_support::table::patched;
use test_support::{OEM, OEM_REVISION, OEM_TABLE};

// A block of three timers of the vendor 8086, without registers.
const TIMERS: [u8; 56] = *b"HPET\x38\0\0\0\x01\x41FOOBARCAFEDEAD\xef\xbe\xad\xdeRVAT\0\0\0\x01\
        \x01\x02\x86\x80\0\0\0\0\0\0\0\0\0\0\0\0\0\0\0\0";

fn timers(id: EventTimerBlockId) -> HPET {
    HPET::new(OEM, OEM_TABLE, OEM_REVISION, id, GAS::default())
}

#[test]
fn hpet(rt: HostRuntime) -> Result<(), Fail> {
    let id = EventTimerBlockId::new(1, 3, 0x8086);
    sums(rt.alloc(), &timers(id), &TIMERS)?;
    let registers = GAS::new(
        AddressSpace::SystemIo,
        8,
        3,
        AccessSize::WordAccess,
        0x0807_0605_0403_0201,
    );
    let id = id.wide_counter().legacy_replacement();
    let all = HPET::new(OEM, OEM_TABLE, OEM_REVISION, id, registers)
        .number(9)
        .minimum_tick(0x0b0a)
        .page_protection(PageProtection::Page64Kb)
        .oem_attributes(12);
    let wanted = b"HPET\x38\0\0\0\x01\x8fFOOBARCAFEDEAD\xef\xbe\xad\xdeRVAT\0\0\0\x01\
            \x01\xa2\x86\x80\x01\x08\x03\x02\x01\x02\x03\x04\x05\x06\x07\x08\x09\x0a\x0b\xc2";
    sums(rt.alloc(), &all, wanted)
}

// Each part of an id is in its bits.
#[test]
fn block_ids(rt: HostRuntime) -> Result<(), Fail> {
    let least = EventTimerBlockId::new(0, 1, 0);
    for (id, bytes) in [
        (least, [0, 0, 0, 0]),
        (EventTimerBlockId::new(0xff, 1, 0), [0xff, 0, 0, 0]),
        (EventTimerBlockId::new(0, 2, 0), [0, 0x01, 0, 0]),
        (EventTimerBlockId::new(0, 32, 0), [0, 0x1f, 0, 0]),
        (EventTimerBlockId::new(0, 1, 0x1234), [0, 0, 0x34, 0x12]),
        (EventTimerBlockId::new(0, 1, 0xffff), [0, 0, 0xff, 0xff]),
        (least.wide_counter(), [0, 0x20, 0, 0]),
        (least.legacy_replacement(), [0, 0x80, 0, 0]),
        (
            least.wide_counter().wide_counter().legacy_replacement(),
            [0, 0xa0, 0, 0],
        ),
        (
            EventTimerBlockId::new(0xff, 32, 0xffff)
                .legacy_replacement()
                .legacy_replacement()
                .wide_counter(),
            [0xff, 0xbf, 0xff, 0xff],
        ),
    ] {
        patched(rt.alloc(), &timers(id), &TIMERS, &[(36, &bytes)])?;
    }
    Ok(())
}

#[test]
fn hpet_setters(rt: HostRuntime) -> Result<(), Fail> {
    let block = timers(EventTimerBlockId::new(1, 3, 0x8086));
    let wide = block.page_protection(PageProtection::Page64Kb);
    let rows: [(HPET, usize, &[u8]); 9] = [
        (block.number(0xff), 52, &[0xff]),
        (block.minimum_tick(0x0201), 53, &[1, 2]),
        (block.page_protection(PageProtection::Page4Kb), 55, &[1]),
        (wide, 55, &[2]),
        (wide.page_protection(PageProtection::Page4Kb), 55, &[1]),
        (wide.page_protection(PageProtection::NoGuarantee), 55, &[0]),
        (block.oem_attributes(15), 55, &[0xf0]),
        (wide.oem_attributes(15).oem_attributes(1), 55, &[0x12]),
        (block.number(7).minimum_tick(8).number(9), 52, &[9, 8]),
    ];
    for (table, offset, bytes) in rows {
        patched(rt.alloc(), &table, &TIMERS, &[(offset, bytes)])?;
    }
    Ok(())
}

const DEVICES: [u8; 40] =
    *b"WAET\x28\0\0\0\x01\x5aFOOBARCAFEDEAD\xef\xbe\xad\xdeRVAT\0\0\0\x01\0\0\0\0";

#[test]
fn waet(rt: HostRuntime) -> Result<(), Fail> {
    let none = WAET::new(OEM, OEM_TABLE, OEM_REVISION);
    sums(rt.alloc(), &none, &DEVICES)?;
    for (table, flags) in [
        (none.rtc_good(), 1),
        (none.pm_timer_good(), 2),
        (none.rtc_good().pm_timer_good().rtc_good(), 3),
        (none.pm_timer_good().rtc_good().pm_timer_good(), 3),
    ] {
        patched(rt.alloc(), &table, &DEVICES, &[(36, &[flags])])?;
    }
    Ok(())
}

const PICTURE: [u8; 56] = *b"BGRT\x38\0\0\0\x01\x93FOOBARCAFEDEAD\xef\xbe\xad\xdeRVAT\0\0\0\x01\
        \x01\0\0\0\x11\x22\x33\x44\x55\x66\x77\x88\xa1\xa2\xa3\xa4\xb1\xb2\xb3\xb4";

#[test]
fn bgrt(rt: HostRuntime) -> Result<(), Fail> {
    let picture = BGRT::new(
        OEM,
        OEM_TABLE,
        OEM_REVISION,
        0x8877_6655_4433_2211,
        0xa4a3_a2a1,
        0xb4b3_b2b1,
    );
    sums(rt.alloc(), &picture, &PICTURE)?;
    let turned = picture.orientation(Orientation::Degrees270).displayed();
    for (table, status) in [
        (picture.displayed(), 1),
        (picture.orientation(Orientation::Degrees90), 2),
        (picture.orientation(Orientation::Degrees180), 4),
        (picture.orientation(Orientation::Degrees270), 6),
        (turned, 7),
        (turned.orientation(Orientation::Degrees90).displayed(), 3),
        (turned.orientation(Orientation::Upright), 1),
    ] {
        patched(rt.alloc(), &table, &PICTURE, &[(38, &[status])])?;
    }
    Ok(())
}

const FIRMWARE: [u8; 40] =
    *b"WSMT\x28\0\0\0\x01\x40FOOBARCAFEDEAD\xef\xbe\xad\xdeRVAT\0\0\0\x01\0\0\0\0";

#[test]
fn wsmt(rt: HostRuntime) -> Result<(), Fail> {
    let none = WSMT::new(OEM, OEM_TABLE, OEM_REVISION);
    sums(rt.alloc(), &none, &FIRMWARE)?;
    let resources = none.system_resource_protection();
    for (table, flags) in [
        (none.fixed_comm_buffers(), 1),
        (none.nested_ptr_protection(), 3),
        (none.fixed_comm_buffers().nested_ptr_protection(), 3),
        (resources, 4),
        (resources.fixed_comm_buffers().fixed_comm_buffers(), 5),
        (resources.nested_ptr_protection(), 7),
    ] {
        patched(rt.alloc(), &table, &FIRMWARE, &[(36, &[flags])])?;
    }
    Ok(())
}
