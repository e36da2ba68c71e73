//! Cameras, clocks and resources that another device provides, byte for byte, and the limits of lengths.

use acpi_tables::aml::{
    AddressSpace, AddressSpaceCacheable, AddressSpaceFrom, ClockInput, ClockInputFrom, ClockScale,
    ClockSettings, Csi2Bus, Csi2Phy, Csi2Settings, InterruptFlags, InterruptsFrom,
};
use acpi_tables::{Error, R};
use std::alloc::Global;
use std::test::Fail;
use test_support::{makes, refuses, sized, writes};

// ---- cameras (ACPI 6.5, 6.4.3.8.2.4)

const NO_CAMERA: Csi2Settings = Csi2Settings {
    device_initiated: false,
    consumer: false,
    phy: Csi2Phy::CPhy,
    local_port: 0,
    remote_port: 0,
};

// Fails unless a camera has these bytes at offset 4, the remote port, at 6, the flags, and at 7, those of the bus.
fn is_camera(
    alloc: Global,
    settings: Csi2Settings,
    remote: u8,
    flags: u8,
    specific: u8,
) -> Result<(), Fail> {
    makes(
        alloc,
        Csi2Bus::new(alloc, settings, "", &[]),
        &[
            0x8e, 0x0a, 0x00, 0x01, remote, 0x04, flags, specific, 0x00, 0x01, 0x00, 0x00, 0x00,
        ],
    )
}

#[test]
fn cameras(rt: HostRuntime) -> Result<(), Fail> {
    let alloc = rt.alloc();
    is_camera(alloc, NO_CAMERA, 0x00, 0x00, 0x00)?;
    let device_initiated = Csi2Settings {
        device_initiated: true,
        ..NO_CAMERA
    };
    is_camera(alloc, device_initiated, 0x00, 0x01, 0x00)?;
    let consumer = Csi2Settings {
        consumer: true,
        ..NO_CAMERA
    };
    is_camera(alloc, consumer, 0x00, 0x02, 0x00)?;
    let d_phy = Csi2Settings {
        phy: Csi2Phy::DPhy,
        ..NO_CAMERA
    };
    is_camera(alloc, d_phy, 0x00, 0x00, 0x01)?;
    let local = Csi2Settings {
        local_port: 63,
        ..NO_CAMERA
    };
    is_camera(alloc, local, 0x00, 0x00, 0xfc)?;
    let remote = Csi2Settings {
        remote_port: 0xff,
        ..NO_CAMERA
    };
    is_camera(alloc, remote, 0xff, 0x00, 0x00)?;
    let all = Csi2Settings {
        device_initiated: true,
        consumer: true,
        phy: Csi2Phy::DPhy,
        local_port: 2,
        remote_port: 3,
    };
    makes(
        alloc,
        Csi2Bus::new(alloc, all, "C0", &[0xaa, 0xbb]),
        &[
            0x8e, 0x0e, 0x00, 0x01, 0x03, 0x04, 0x03, 0x09, 0x00, 0x01, 0x02, 0x00, 0xaa, 0xbb,
            0x43, 0x30, 0x00,
        ],
    )
}

fn camera(alloc: Global, vendor: usize) -> R<Csi2Bus> {
    let vendor = vec![in alloc; 0xaau8; vendor]?;
    Csi2Bus::new(alloc, NO_CAMERA, "C", &vendor)
}

#[test]
fn limits_of_cameras(rt: HostRuntime) -> Result<(), Fail> {
    let alloc = rt.alloc();
    let port = Csi2Settings {
        local_port: 64,
        ..NO_CAMERA
    };
    refuses(Csi2Bus::new(alloc, port, "", &[]), Error::FieldWidth)?;
    // The length counts all but the first three bytes: 9 to the data, the data, the name and its zero.
    sized(alloc, &camera(alloc, 65_524)?, 65_538)?;
    refuses(camera(alloc, 65_525), Error::FieldWidth)
}

// ---- clocks (ACPI 6.5, 6.4.3.14)

fn settings(variable: bool, scale: ClockScale) -> ClockSettings {
    ClockSettings {
        variable,
        scale,
        numerator: 0x0102_0304,
        divisor: 0x0506,
    }
}

#[test]
fn clocks(rt: HostRuntime) -> Result<(), Fail> {
    let alloc = rt.alloc();
    for (variable, scale, flags) in [
        (false, ClockScale::Hertz, 0x00),
        (true, ClockScale::Hertz, 0x01),
        (false, ClockScale::Kilohertz, 0x02),
        (true, ClockScale::Kilohertz, 0x03),
        (false, ClockScale::Megahertz, 0x04),
        (true, ClockScale::Megahertz, 0x05),
    ] {
        writes(
            alloc,
            &ClockInput::new(settings(variable, scale)),
            &[
                0x93, 0x09, 0x00, 0x01, flags, 0x00, 0x06, 0x05, 0x04, 0x03, 0x02, 0x01,
            ],
        )?;
    }
    let clock = settings(true, ClockScale::Megahertz);
    makes(
        alloc,
        ClockInputFrom::new(alloc, clock, 7, "CLK"),
        &[
            0x93, 0x0e, 0x00, 0x01, 0x05, 0x00, 0x06, 0x05, 0x04, 0x03, 0x02, 0x01, 0x07, 0x43,
            0x4c, 0x4b, 0x00,
        ],
    )
}

// A text of this many letters.
fn text(alloc: Global, size: usize) -> R<String> {
    let mut text = String::new(alloc);
    for _ in 0..size {
        text.push('A')?;
    }
    Ok(text)
}

fn clock(alloc: Global, size: usize) -> R<ClockInputFrom> {
    let source = text(alloc, size)?;
    ClockInputFrom::new(alloc, settings(false, ClockScale::Hertz), 0, &source)
}

#[test]
fn limits_of_clocks(rt: HostRuntime) -> Result<(), Fail> {
    let alloc = rt.alloc();
    sized(alloc, &clock(alloc, 65_524)?, 65_538)?;
    refuses(clock(alloc, 65_525), Error::FieldWidth)
}

// ---- interrupts (ACPI 6.5, 6.4.3.6)

const SHARED: InterruptFlags = InterruptFlags {
    consumer: true,
    edge_triggered: true,
    active_low: true,
    shared: true,
    wake: false,
};

#[test]
fn interrupts(rt: HostRuntime) -> Result<(), Fail> {
    let alloc = rt.alloc();
    // The bytes of iasl.
    makes(
        alloc,
        InterruptsFrom::new(alloc, SHARED, &[5, 0x1234_5678], 2, "\\_SB.X"),
        &[
            0x89, 0x12, 0x00, 0x0f, 0x02, 0x05, 0x00, 0x00, 0x00, 0x78, 0x56, 0x34, 0x12, 0x02,
            0x5c, 0x5f, 0x53, 0x42, 0x2e, 0x58, 0x00,
        ],
    )
}

fn interrupt(alloc: Global, numbers: usize, size: usize) -> R<InterruptsFrom> {
    let numbers = vec![in alloc; 9u32; numbers]?;
    let source = text(alloc, size)?;
    InterruptsFrom::new(alloc, SHARED, &numbers, 0, &source)
}

#[test]
fn limits_of_interrupts(rt: HostRuntime) -> Result<(), Fail> {
    let alloc = rt.alloc();
    refuses(interrupt(alloc, 0, 1), Error::FieldWidth)?;
    sized(alloc, &interrupt(alloc, 255, 1)?, 1_028)?;
    refuses(interrupt(alloc, 256, 1), Error::FieldWidth)?;
    // The length counts the flags, the number of interrupts, these, the index, the name and its zero.
    sized(alloc, &interrupt(alloc, 1, 65_527)?, 65_538)?;
    refuses(interrupt(alloc, 1, 65_528), Error::FieldWidth)
}

// ---- address spaces (ACPI 6.5, 6.4.3.5)

const MEMORY: AddressSpaceCacheable = AddressSpaceCacheable::Cacheable;

// The bytes of iasl.
#[test]
fn spaces(rt: HostRuntime) -> Result<(), Fail> {
    let alloc = rt.alloc();
    let buses = AddressSpace::new_bus_number(0x00u16, 0xff);
    makes(
        alloc,
        AddressSpaceFrom::new(alloc, buses, 3, "\\_SB.X"),
        &[
            0x88, 0x15, 0x00, 0x02, 0x0c, 0x00, 0x00, 0x00, 0x00, 0x00, 0xff, 0x00, 0x00, 0x00,
            0x00, 0x01, 0x03, 0x5c, 0x5f, 0x53, 0x42, 0x2e, 0x58, 0x00,
        ],
    )?;
    let range = AddressSpace::new_memory(MEMORY, true, 0x1000_0000u32, 0x1fff_ffff, None);
    makes(
        alloc,
        AddressSpaceFrom::new(alloc, range, 4, "AB"),
        &[
            0x87, 0x1b, 0x00, 0x00, 0x0c, 0x03, 0x00, 0x00, 0x00, 0x00, 0x00, 0x00, 0x00, 0x10,
            0xff, 0xff, 0xff, 0x1f, 0x00, 0x00, 0x00, 0x00, 0x00, 0x00, 0x00, 0x10, 0x04, 0x41,
            0x42, 0x00,
        ],
    )?;
    let range = AddressSpace::new_memory(MEMORY, true, 0x1000_0000u64, 0x1fff_ffff, None);
    makes(
        alloc,
        AddressSpaceFrom::new(alloc, range, 5, "A"),
        &[
            0x8a, 0x2e, 0x00, 0x00, 0x0c, 0x03, 0x00, 0x00, 0x00, 0x00, 0x00, 0x00, 0x00, 0x00,
            0x00, 0x00, 0x00, 0x10, 0x00, 0x00, 0x00, 0x00, 0xff, 0xff, 0xff, 0x1f, 0x00, 0x00,
            0x00, 0x00, 0x00, 0x00, 0x00, 0x00, 0x00, 0x00, 0x00, 0x00, 0x00, 0x00, 0x00, 0x10,
            0x00, 0x00, 0x00, 0x00, 0x05, 0x41, 0x00,
        ],
    )
}

fn words(alloc: Global, size: usize) -> R<AddressSpaceFrom> {
    let source = text(alloc, size)?;
    AddressSpaceFrom::new(alloc, AddressSpace::new_io(1u16, 1, None), 0, &source)
}

fn double_words(alloc: Global, size: usize) -> R<AddressSpaceFrom> {
    let source = text(alloc, size)?;
    AddressSpaceFrom::new(alloc, AddressSpace::new_io(1u32, 1, None), 0, &source)
}

fn quad_words(alloc: Global, size: usize) -> R<AddressSpaceFrom> {
    let source = text(alloc, size)?;
    AddressSpaceFrom::new(alloc, AddressSpace::new_io(1u64, 1, None), 0, &source)
}

// The length counts all but the first three bytes.
#[test]
fn limits_of_spaces(rt: HostRuntime) -> Result<(), Fail> {
    let alloc = rt.alloc();
    sized(alloc, &words(alloc, 65_520)?, 65_538)?;
    refuses(words(alloc, 65_521), Error::FieldWidth)?;
    sized(alloc, &double_words(alloc, 65_510)?, 65_538)?;
    refuses(double_words(alloc, 65_511), Error::FieldWidth)?;
    sized(alloc, &quad_words(alloc, 65_490)?, 65_538)?;
    refuses(quad_words(alloc, 65_491), Error::FieldWidth)
}

// The error of the range comes before that of the length.
#[test]
fn errors_of_spaces(rt: HostRuntime) -> Result<(), Fail> {
    let alloc = rt.alloc();
    let source = text(alloc, 65_521)?;
    refuses(
        AddressSpaceFrom::new(alloc, AddressSpace::new_io(2u16, 1, None), 0, &source),
        Error::AddressRange,
    )
}
