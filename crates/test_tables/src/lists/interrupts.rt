//! Interrupts and local x2APICs of x86 in MADT.

use acpi_tables::Aml;
use acpi_tables::madt::{
    EnabledStatus, InterruptSourceOverride, LocalApicAddressOverride, LocalApicNmi,
    LocalInterruptController, LocalX2ApicNmi, MADT, NmiSource, Polarity, ProcessorLocalX2Apic,
    TriggerMode,
};
use std::alloc::Global;
use std::test::Fail;
use test_support::table::many;
use test_support::{OEM, OEM_REVISION, OEM_TABLE, all, equal, writes};

#[test]
fn of_the_bus(rt: HostRuntime) -> Result<(), Fail> {
    all(
        rt.alloc(),
        &[
            (
                &InterruptSourceOverride::new(9, 0x0403_0201),
                b"\x02\x0a\0\x09\x01\x02\x03\x04\0\0",
            ),
            (
                &InterruptSourceOverride::new(u8::MAX, u32::MAX),
                b"\x02\x0a\0\xff\xff\xff\xff\xff\0\0",
            ),
            (
                &NmiSource::new(0x0403_0201),
                b"\x03\x08\0\0\x01\x02\x03\x04",
            ),
            (&NmiSource::new(u32::MAX), b"\x03\x08\0\0\xff\xff\xff\xff"),
            (&LocalApicNmi::new(1, 2), b"\x04\x06\x01\0\0\x02"),
            (
                &LocalApicNmi::new(u8::MAX, u8::MAX),
                b"\x04\x06\xff\0\0\xff",
            ),
            (&LocalApicNmi::of_all_processors(1), b"\x04\x06\xff\0\0\x01"),
            (
                &LocalX2ApicNmi::new(0x0403_0201, 5),
                b"\x0a\x0c\0\0\x01\x02\x03\x04\x05\0\0\0",
            ),
            (
                &LocalX2ApicNmi::new(u32::MAX, u8::MAX),
                b"\x0a\x0c\0\0\xff\xff\xff\xff\xff\0\0\0",
            ),
            (
                &LocalX2ApicNmi::of_all_processors(1),
                b"\x0a\x0c\0\0\xff\xff\xff\xff\x01\0\0\0",
            ),
        ],
    )
}

// The flags of each polarity and each trigger mode.
const FLAGS: [(Polarity, TriggerMode, u8); 9] = [
    (Polarity::OfBus, TriggerMode::OfBus, 0x00),
    (Polarity::ActiveHigh, TriggerMode::OfBus, 0x01),
    (Polarity::ActiveLow, TriggerMode::OfBus, 0x03),
    (Polarity::OfBus, TriggerMode::Edge, 0x04),
    (Polarity::ActiveHigh, TriggerMode::Edge, 0x05),
    (Polarity::ActiveLow, TriggerMode::Edge, 0x07),
    (Polarity::OfBus, TriggerMode::Level, 0x0c),
    (Polarity::ActiveHigh, TriggerMode::Level, 0x0d),
    (Polarity::ActiveLow, TriggerMode::Level, 0x0f),
];

// Of several settings the last one is written.
#[test]
fn flags(rt: HostRuntime) -> Result<(), Fail> {
    for (polarity, mode, flags) in FLAGS {
        let source = InterruptSourceOverride::new(1, 2);
        let low = source
            .polarity(Polarity::ActiveLow)
            .trigger_mode(TriggerMode::Level);
        let wanted = [2, 10, 0, 1, 2, 0, 0, 0, flags, 0];
        all(
            rt.alloc(),
            &[
                (&source.polarity(polarity).trigger_mode(mode), &wanted),
                (&low.polarity(polarity).trigger_mode(mode), &wanted),
                (
                    &NmiSource::new(1).polarity(polarity).trigger_mode(mode),
                    &[3, 8, flags, 0, 1, 0, 0, 0],
                ),
                (
                    &LocalApicNmi::new(1, 2)
                        .trigger_mode(mode)
                        .polarity(polarity),
                    &[4, 6, 1, flags, 0, 2],
                ),
                (
                    &LocalX2ApicNmi::new(1, 2)
                        .trigger_mode(mode)
                        .polarity(polarity),
                    &[10, 12, flags, 0, 1, 0, 0, 0, 2, 0, 0, 0],
                ),
            ],
        )?;
    }
    Ok(())
}

#[test]
fn local_apics(rt: HostRuntime) -> Result<(), Fail> {
    let alloc = rt.alloc();
    writes(
        alloc,
        &LocalApicAddressOverride::new(0x0807_0605_0403_0201),
        b"\x05\x0c\0\0\x01\x02\x03\x04\x05\x06\x07\x08",
    )?;
    for (status, flags) in [
        (EnabledStatus::Disabled, 0),
        (EnabledStatus::Enabled, 1),
        (EnabledStatus::DisabledOnlineCapable, 2),
    ] {
        equal(&(status as u8), &flags)?;
        let processor = ProcessorLocalX2Apic::new(0x0403_0201, 0x1413_1211, status);
        let wanted = [
            9, 16, 0, 0, 0x11, 0x12, 0x13, 0x14, flags, 0, 0, 0, 1, 2, 3, 4,
        ];
        writes(alloc, &processor, &wanted)?;
    }
    Ok(())
}

// Fails unless a table is its header, its fixed fields and these structures.
fn has(alloc: Global, madt: &MADT, structures: &[u8]) -> Result<(), Fail> {
    let fixed = [1, 2, 3, 4, 0, 0, 0, 0];
    many(alloc, madt, b"APIC", 1, &fixed, structures, 1)
}

// A structure of each kind, and another one of the first kind.
const EACH: [u8; 74] = *b"\x02\x0a\0\x01\x02\0\0\0\0\0\
        \x03\x08\0\0\x01\0\0\0\
        \x04\x06\x01\0\0\x02\
        \x05\x0c\0\0\x01\0\0\0\0\0\0\0\
        \x09\x10\0\0\x02\0\0\0\x01\0\0\0\x01\0\0\0\
        \x0a\x0c\0\0\x01\0\0\0\x02\0\0\0\
        \x02\x0a\0\x01\x02\0\0\0\0\0";

// Fails unless a table has one structure of each kind, after each addition. The last one isn't only borrowed.
fn takes_each_kind(alloc: Global, madt: &mut MADT) -> Result<(), Fail> {
    let rows: [(&dyn Aml, usize); 6] = [
        (&InterruptSourceOverride::new(1, 2), 10),
        (&NmiSource::new(1), 18),
        (&LocalApicNmi::new(1, 2), 24),
        (&LocalApicAddressOverride::new(1), 36),
        (&ProcessorLocalX2Apic::new(1, 2, EnabledStatus::Enabled), 52),
        (&LocalX2ApicNmi::new(1, 2), 64),
    ];
    for (structure, end) in rows {
        madt.add_borrowed_structure(structure)?;
        has(alloc, madt, EACH.get(..end).unwrap_or(&[]))?;
    }
    madt.add_structure(InterruptSourceOverride::new(1, 2))?;
    has(alloc, madt, &EACH)
}

#[test]
fn each_kind(rt: HostRuntime) -> Result<(), Fail> {
    let local = LocalInterruptController::Address(0x0403_0201);
    let mut madt = MADT::new(rt.alloc(), OEM, OEM_TABLE, OEM_REVISION, local);
    takes_each_kind(rt.alloc(), &mut madt)
}
