//! Functions, configurations and groups of pins, byte for byte, and the limits of lengths.

use acpi_tables::aml::{
    PinConfig, PinConfiguration, PinFunction, PinGroup, PinGroupConfiguration, PinGroupFunction,
    PinSetting, PinUse,
};
use acpi_tables::{Error, R};
use std::alloc::Global;
use std::test::Fail;
use test_support::{makes, refuses, sized};

const NO_USE: PinUse = PinUse {
    shared: false,
    consumer: false,
};

const ALL_USES: PinUse = PinUse {
    shared: true,
    consumer: true,
};

#[test]
fn functions(rt: HostRuntime) -> Result<(), Fail> {
    let alloc = rt.alloc();
    makes(
        alloc,
        PinFunction::new(alloc, false, PinConfig::Default, 0, &[], "", &[]),
        &[
            0x8d, 0x10, 0x00, 0x01, 0x00, 0x00, 0x00, 0x00, 0x00, 0x12, 0x00, 0x00, 0x12, 0x00,
            0x13, 0x00, 0x00, 0x00, 0x00,
        ],
    )?;
    makes(
        alloc,
        PinFunction::new(
            alloc,
            true,
            PinConfig::PullNone,
            0x0102,
            &[0x0304, 5],
            "GP",
            &[0xaa],
        ),
        &[
            0x8d, 0x17, 0x00, 0x01, 0x01, 0x00, 0x03, 0x02, 0x01, 0x12, 0x00, 0x00, 0x16, 0x00,
            0x19, 0x00, 0x01, 0x00, 0x04, 0x03, 0x05, 0x00, 0x47, 0x50, 0x00, 0xaa,
        ],
    )
}

// Fails unless a configuration of no pins has these flags, and its type this number.
fn is_configuration(
    alloc: Global,
    pin_use: PinUse,
    setting: PinSetting,
    flags: u8,
    number: u8,
) -> Result<(), Fail> {
    makes(
        alloc,
        PinConfiguration::new(alloc, pin_use, setting, 0x0403_0201, &[], "", &[]),
        &[
            0x8f, 0x12, 0x00, 0x01, flags, 0x00, number, 0x01, 0x02, 0x03, 0x04, 0x14, 0x00, 0x00,
            0x14, 0x00, 0x15, 0x00, 0x00, 0x00, 0x00,
        ],
    )
}

#[test]
fn configurations(rt: HostRuntime) -> Result<(), Fail> {
    let shared = PinUse {
        shared: true,
        ..NO_USE
    };
    let consumer = PinUse {
        consumer: true,
        ..NO_USE
    };
    for (pin_use, setting, flags, number) in [
        (NO_USE, PinSetting::Default, 0x00, 0x00),
        (shared, PinSetting::BiasPullUp, 0x01, 0x01),
        (consumer, PinSetting::BiasPullDown, 0x02, 0x02),
        (ALL_USES, PinSetting::BiasDefault, 0x03, 0x03),
        (NO_USE, PinSetting::BiasDisable, 0x00, 0x04),
        (NO_USE, PinSetting::BiasHighImpedance, 0x00, 0x05),
        (NO_USE, PinSetting::BiasBusHold, 0x00, 0x06),
        (NO_USE, PinSetting::DriveOpenDrain, 0x00, 0x07),
        (NO_USE, PinSetting::DriveOpenSource, 0x00, 0x08),
        (NO_USE, PinSetting::DrivePushPull, 0x00, 0x09),
        (NO_USE, PinSetting::DriveStrength, 0x00, 0x0a),
        (NO_USE, PinSetting::SlewRate, 0x00, 0x0b),
        (NO_USE, PinSetting::InputDebounce, 0x00, 0x0c),
        (NO_USE, PinSetting::InputSchmittTrigger, 0x00, 0x0d),
        (NO_USE, PinSetting::Other(0x80), 0x00, 0x80),
        (NO_USE, PinSetting::Other(0xff), 0x00, 0xff),
    ] {
        is_configuration(rt.alloc(), pin_use, setting, flags, number)?;
    }
    Ok(())
}

#[test]
fn groups(rt: HostRuntime) -> Result<(), Fail> {
    let alloc = rt.alloc();
    makes(
        alloc,
        PinConfiguration::new(
            alloc,
            ALL_USES,
            PinSetting::SlewRate,
            u32::MAX,
            &[0x0102, 0xffff],
            "G",
            &[0xaa, 0xbb],
        ),
        &[
            0x8f, 0x19, 0x00, 0x01, 0x03, 0x00, 0x0b, 0xff, 0xff, 0xff, 0xff, 0x14, 0x00, 0x00,
            0x18, 0x00, 0x1a, 0x00, 0x02, 0x00, 0x02, 0x01, 0xff, 0xff, 0x47, 0x00, 0xaa, 0xbb,
        ],
    )?;
    makes(
        alloc,
        PinGroup::new(alloc, false, &[], "", &[]),
        &[
            0x90, 0x0c, 0x00, 0x01, 0x00, 0x00, 0x0e, 0x00, 0x0e, 0x00, 0x0f, 0x00, 0x00, 0x00,
            0x00,
        ],
    )?;
    makes(
        alloc,
        PinGroup::new(alloc, true, &[0x0102], "ab", &[0xaa]),
        &[
            0x90, 0x11, 0x00, 0x01, 0x01, 0x00, 0x0e, 0x00, 0x10, 0x00, 0x13, 0x00, 0x01, 0x00,
            0x02, 0x01, 0x61, 0x62, 0x00, 0xaa,
        ],
    )?;
    makes(
        alloc,
        PinGroupFunction::new(alloc, ALL_USES, 0x0102, "G", "ab", &[0xaa]),
        &[
            0x91, 0x14, 0x00, 0x01, 0x03, 0x00, 0x02, 0x01, 0x00, 0x11, 0x00, 0x13, 0x00, 0x16,
            0x00, 0x01, 0x00, 0x47, 0x00, 0x61, 0x62, 0x00, 0xaa,
        ],
    )?;
    makes(
        alloc,
        PinGroupConfiguration::new(
            alloc,
            NO_USE,
            PinSetting::InputDebounce,
            0x0403_0201,
            "GP",
            "a",
            &[],
        ),
        &[
            0x92, 0x16, 0x00, 0x01, 0x00, 0x00, 0x0c, 0x01, 0x02, 0x03, 0x04, 0x00, 0x14, 0x00,
            0x17, 0x00, 0x19, 0x00, 0x00, 0x00, 0x47, 0x50, 0x00, 0x61, 0x00,
        ],
    )
}

fn function_of(alloc: Global, pins: usize, source: &str, vendor: usize) -> R<PinFunction> {
    let pins = vec![in alloc; 0u16; pins]?;
    let vendor = vec![in alloc; 0u8; vendor]?;
    PinFunction::new(alloc, false, PinConfig::Default, 0, &pins, source, &vendor)
}

fn configuration_of(alloc: Global, pins: usize, vendor: usize) -> R<PinConfiguration> {
    let pins = vec![in alloc; 0u16; pins]?;
    let vendor = vec![in alloc; 0u8; vendor]?;
    PinConfiguration::new(alloc, NO_USE, PinSetting::Default, 0, &pins, "", &vendor)
}

fn group_of(alloc: Global, pins: usize, vendor: usize) -> R<PinGroup> {
    let pins = vec![in alloc; 0u16; pins]?;
    let vendor = vec![in alloc; 0u8; vendor]?;
    PinGroup::new(alloc, false, &pins, "", &vendor)
}

// The offset of the vendor's data is at most 65,535, and the length leaves out three bytes of all.
#[test]
fn most_pins(rt: HostRuntime) -> Result<(), Fail> {
    let alloc = rt.alloc();
    sized(alloc, &function_of(alloc, 32_758, "", 3)?, 65_538)?;
    sized(alloc, &configuration_of(alloc, 32_757, 3)?, 65_538)?;
    sized(alloc, &group_of(alloc, 32_760, 3)?, 65_538)?;
    for (pins, source, vendor) in [
        (32_758, "", 4),
        (32_758, "A", 0),
        (32_759, "", 0),
        (65_536, "", 0),
        (0, "", 65_520),
    ] {
        refuses(function_of(alloc, pins, source, vendor), Error::FieldWidth)?;
    }
    for (pins, vendor) in [(32_757, 4), (32_758, 0), (0, 65_518)] {
        refuses(configuration_of(alloc, pins, vendor), Error::FieldWidth)?;
    }
    for (pins, vendor) in [(32_760, 4), (32_761, 0), (0, 65_524)] {
        refuses(group_of(alloc, pins, vendor), Error::FieldWidth)?;
    }
    Ok(())
}

// The same of groups, without pins.
#[test]
fn longest_groups(rt: HostRuntime) -> Result<(), Fail> {
    let alloc = rt.alloc();
    let vendor = vec![in alloc; 0u8; 65_519]?;
    let function = PinGroupFunction::new(alloc, NO_USE, 0, "", "", &vendor)?;
    sized(alloc, &function, 65_538)?;
    refuses(
        PinGroupFunction::new(alloc, NO_USE, 0, "A", "", &vendor),
        Error::FieldWidth,
    )?;
    refuses(
        PinGroupFunction::new(alloc, NO_USE, 0, "", "A", &vendor),
        Error::FieldWidth,
    )?;
    refuses(
        PinGroupConfiguration::new(alloc, NO_USE, PinSetting::Default, 0, "", "", &vendor),
        Error::FieldWidth,
    )?;
    let shorter = vec![in alloc; 0u8; 65_516]?;
    let configuration = PinGroupConfiguration::new(
        alloc,
        NO_USE,
        PinSetting::Default,
        0,
        "",
        "",
        &shorter,
    )?;
    sized(alloc, &configuration, 65_538)
}
