//! Resource descriptors of any length, byte for byte: each flag alone, and the limits of lengths.

use super::descriptors::{ALL_FLAGS, NO_FLAGS};
use acpi_tables::aml::{
    DataBits, FlowControl, GpioInt, GpioIntSettings, GpioIo, GpioIoSettings, GpioPolarity,
    I2cSerialBus, I2cSettings, Interrupts, IoRestriction, Parity, PinConfig, SerialFlags,
    SpiSerialBus, SpiSettings, StopBits, UartSerialBus, UartSettings, VendorLong, VendorShort,
};
use acpi_tables::{Error, R};
use std::alloc::Global;
use std::test::Fail;
use test_support::{equal, makes, refuses, sized};

#[test]
fn vendors(rt: HostRuntime) -> Result<(), Fail> {
    let alloc = rt.alloc();
    makes(alloc, VendorShort::new(alloc, &[]), &[0x70])?;
    makes(alloc, VendorShort::new(alloc, &[0xab]), &[0x71, 0xab])?;
    makes(
        alloc,
        VendorShort::new(alloc, &[1, 2, 3, 4, 5, 6, 7]),
        &[0x77, 1, 2, 3, 4, 5, 6, 7],
    )?;
    refuses(
        VendorShort::new(alloc, &[1, 2, 3, 4, 5, 6, 7, 8]),
        Error::FieldWidth,
    )?;
    makes(alloc, VendorLong::new(alloc, &[]), &[0x84, 0x00, 0x00])?;
    makes(
        alloc,
        VendorLong::new(alloc, &[1, 2]),
        &[0x84, 0x02, 0x00, 1, 2],
    )
}

// Fails unless a descriptor of this many bytes of a vendor begins with its length, lowest byte first.
fn has_length(alloc: Global, size: usize, low: u8, high: u8) -> Result<(), Fail> {
    let content = vec![in alloc; 0xabu8; size]?;
    let mut wanted = Vec::from_slice(alloc, &[0x84, low, high])?;
    wanted.extend_from_slice(&content)?;
    makes(alloc, VendorLong::new(alloc, &content), &wanted)
}

#[test]
fn long_vendors(rt: HostRuntime) -> Result<(), Fail> {
    let alloc = rt.alloc();
    has_length(alloc, 0xff, 0xff, 0x00)?;
    has_length(alloc, 0x100, 0x00, 0x01)?;
    has_length(alloc, 0xffff, 0xff, 0xff)?;
    let long = vec![in alloc; 0xabu8; 0x1_0000]?;
    refuses(VendorLong::new(alloc, &long), Error::FieldWidth)
}

#[test]
fn several_interrupts(rt: HostRuntime) -> Result<(), Fail> {
    let alloc = rt.alloc();
    refuses(Interrupts::new(alloc, ALL_FLAGS, &[]), Error::FieldWidth)?;
    makes(
        alloc,
        Interrupts::new(alloc, NO_FLAGS, &[0x0403_0201]),
        &[0x89, 0x06, 0x00, 0x00, 0x01, 0x01, 0x02, 0x03, 0x04],
    )?;
    makes(
        alloc,
        Interrupts::new(alloc, ALL_FLAGS, &[0, u32::MAX, 5]),
        &[
            0x89, 0x0e, 0x00, 0x1f, 0x03, 0x00, 0x00, 0x00, 0x00, 0xff, 0xff, 0xff, 0xff, 0x05,
            0x00, 0x00, 0x00,
        ],
    )
}

#[test]
fn most_interrupts(rt: HostRuntime) -> Result<(), Fail> {
    let alloc = rt.alloc();
    let most = vec![in alloc; 0u32; 255]?;
    let mut wanted = Vec::from_slice(alloc, &[0x89, 0xfe, 0x03, 0x00, 0xff])?;
    wanted.extend_from_slice(&[0; 1020])?;
    makes(alloc, Interrupts::new(alloc, NO_FLAGS, &most), &wanted)?;
    let more = vec![in alloc; 0u32; 256]?;
    refuses(Interrupts::new(alloc, NO_FLAGS, &more), Error::FieldWidth)
}

const NO_INTERRUPT: GpioIntSettings = GpioIntSettings {
    consumer: false,
    edge_triggered: false,
    polarity: GpioPolarity::ActiveHigh,
    shared: false,
    wake: false,
    pin_config: PinConfig::Default,
    debounce_timeout: 0,
};

// Fails unless an interrupt connection without pins and names has this consumer, these flags and this pin configuration, and
// its words have their numbers.
fn has_flags(alloc: Global, settings: GpioIntSettings, wanted: [u8; 3]) -> Result<(), Fail> {
    let [consumer, flags, config] = wanted;
    let words = [settings.polarity as u8, settings.pin_config as u8];
    equal(&words, &[(flags >> 1) & 3, config])?;
    makes(
        alloc,
        GpioInt::new(alloc, settings, &[], "", &[]),
        &[
            0x8c, 0x15, 0x00, 0x01, 0x00, consumer, 0x00, flags, 0x00, config, 0x00, 0x00, 0x00,
            0x00, 0x17, 0x00, 0x00, 0x17, 0x00, 0x18, 0x00, 0x00, 0x00, 0x00,
        ],
    )
}

#[test]
fn flags_of_interrupting_pins(rt: HostRuntime) -> Result<(), Fail> {
    let alloc = rt.alloc();
    let none = NO_INTERRUPT;
    for (settings, wanted) in [
        (none, [0, 0x00, 0]),
        (
            GpioIntSettings {
                consumer: true,
                ..none
            },
            [1, 0x00, 0],
        ),
        (
            GpioIntSettings {
                edge_triggered: true,
                ..none
            },
            [0, 0x01, 0],
        ),
        (
            GpioIntSettings {
                polarity: GpioPolarity::ActiveLow,
                ..none
            },
            [0, 0x02, 0],
        ),
        (
            GpioIntSettings {
                polarity: GpioPolarity::ActiveBoth,
                ..none
            },
            [0, 0x04, 0],
        ),
        (
            GpioIntSettings {
                shared: true,
                ..none
            },
            [0, 0x08, 0],
        ),
        (GpioIntSettings { wake: true, ..none }, [0, 0x10, 0]),
        (
            GpioIntSettings {
                pin_config: PinConfig::PullUp,
                ..none
            },
            [0, 0x00, 1],
        ),
        (
            GpioIntSettings {
                pin_config: PinConfig::PullDown,
                ..none
            },
            [0, 0x00, 2],
        ),
        (
            GpioIntSettings {
                pin_config: PinConfig::PullNone,
                ..none
            },
            [0, 0x00, 3],
        ),
    ] {
        has_flags(alloc, settings, wanted)?;
    }
    Ok(())
}

const NO_PORT: GpioIoSettings = GpioIoSettings {
    consumer: false,
    shared: false,
    restriction: IoRestriction::InputAndOutput,
    pin_config: PinConfig::Default,
    debounce_timeout: 0,
    drive_strength: 0,
};

// Fails unless an I/O connection without pins and names has this consumer and these flags, and its restriction has its number.
fn has_io_flags(alloc: Global, settings: GpioIoSettings, wanted: [u8; 2]) -> Result<(), Fail> {
    let [consumer, flags] = wanted;
    equal(&(settings.restriction as u8), &(flags & 3))?;
    makes(
        alloc,
        GpioIo::new(alloc, settings, &[], "", &[]),
        &[
            0x8c, 0x15, 0x00, 0x01, 0x01, consumer, 0x00, flags, 0x00, 0x00, 0x00, 0x00, 0x00,
            0x00, 0x17, 0x00, 0x00, 0x17, 0x00, 0x18, 0x00, 0x00, 0x00, 0x00,
        ],
    )
}

#[test]
fn flags_of_pins(rt: HostRuntime) -> Result<(), Fail> {
    let alloc = rt.alloc();
    let none = NO_PORT;
    for (settings, wanted) in [
        (none, [0, 0x00]),
        (
            GpioIoSettings {
                consumer: true,
                ..none
            },
            [1, 0x00],
        ),
        (
            GpioIoSettings {
                shared: true,
                ..none
            },
            [0, 0x08],
        ),
        (
            GpioIoSettings {
                restriction: IoRestriction::InputOnly,
                ..none
            },
            [0, 0x01],
        ),
        (
            GpioIoSettings {
                restriction: IoRestriction::OutputOnly,
                ..none
            },
            [0, 0x02],
        ),
        (
            GpioIoSettings {
                restriction: IoRestriction::InputAndOutputPreserved,
                ..none
            },
            [0, 0x03],
        ),
    ] {
        has_io_flags(alloc, settings, wanted)?;
    }
    Ok(())
}

#[test]
fn pins_with_names(rt: HostRuntime) -> Result<(), Fail> {
    let alloc = rt.alloc();
    let interrupt = GpioIntSettings {
        consumer: true,
        edge_triggered: true,
        polarity: GpioPolarity::ActiveLow,
        shared: true,
        wake: true,
        pin_config: PinConfig::PullUp,
        debounce_timeout: 0x0102,
    };
    makes(
        alloc,
        GpioInt::new(alloc, interrupt, &[0x0304], "GP", &[0xaa, 0xbb]),
        &[
            0x8c, 0x1b, 0x00, 0x01, 0x00, 0x01, 0x00, 0x1b, 0x00, 0x01, 0x00, 0x00, 0x02, 0x01,
            0x17, 0x00, 0x00, 0x19, 0x00, 0x1c, 0x00, 0x02, 0x00, 0x04, 0x03, 0x47, 0x50, 0x00,
            0xaa, 0xbb,
        ],
    )?;
    let io = GpioIoSettings {
        consumer: true,
        shared: true,
        restriction: IoRestriction::OutputOnly,
        pin_config: PinConfig::PullDown,
        debounce_timeout: 0x0304,
        drive_strength: 0x0102,
    };
    makes(
        alloc,
        GpioIo::new(alloc, io, &[0, 0x0506, u16::MAX], "A", &[]),
        &[
            0x8c, 0x1c, 0x00, 0x01, 0x01, 0x01, 0x00, 0x0a, 0x00, 0x02, 0x02, 0x01, 0x04, 0x03,
            0x17, 0x00, 0x00, 0x1d, 0x00, 0x1f, 0x00, 0x00, 0x00, 0x00, 0x00, 0x06, 0x05, 0xff,
            0xff, 0x41, 0x00,
        ],
    )
}

// A connection to this many pins of a controller, with this many bytes of a vendor.
fn pins_of(alloc: Global, pins: usize, source: &str, vendor: usize) -> R<GpioInt> {
    let pins = vec![in alloc; 0u16; pins]?;
    let vendor = vec![in alloc; 0u8; vendor]?;
    GpioInt::new(alloc, NO_INTERRUPT, &pins, source, &vendor)
}

// The last offset is 24 bytes, those of the pins and those of the name, and the length leaves out three bytes of all.
#[test]
fn longest_pins(rt: HostRuntime) -> Result<(), Fail> {
    let alloc = rt.alloc();
    for (pins, source, vendor) in [(0, "", 65_514), (32_755, "A", 3), (32_755, "", 4)] {
        sized(alloc, &pins_of(alloc, pins, source, vendor)?, 65_538)?;
    }
    for (pins, source, vendor) in [
        (0, "", 65_515),
        (0, "", 65_536),
        (32_755, "", 5),
        (32_755, "A", 4),
        (32_755, "AB", 0),
        (32_756, "", 0),
        (65_536, "", 0),
    ] {
        refuses(pins_of(alloc, pins, source, vendor), Error::FieldWidth)?;
    }
    Ok(())
}

const NO_SERIAL: SerialFlags = SerialFlags {
    device_initiated: false,
    consumer: false,
    shared: false,
};

// Fails unless a connection to an I2C bus without a name has these flags.
fn has_i2c_flags(
    alloc: Global,
    general: SerialFlags,
    ten: bool,
    wanted: [u8; 2],
) -> Result<(), Fail> {
    let settings = I2cSettings {
        address: 0,
        ten_bit_address: ten,
        speed: 0,
    };
    let [flags, specific] = wanted;
    makes(
        alloc,
        I2cSerialBus::new(alloc, settings, general, "", &[]),
        &[
            0x8e, 0x10, 0x00, 0x02, 0x00, 0x01, flags, specific, 0x00, 0x01, 0x06, 0x00, 0x00,
            0x00, 0x00, 0x00, 0x00, 0x00, 0x00,
        ],
    )
}

#[test]
fn i2c_flags(rt: HostRuntime) -> Result<(), Fail> {
    let alloc = rt.alloc();
    let none = NO_SERIAL;
    for (general, ten, wanted) in [
        (none, false, [0x00, 0x00]),
        (none, true, [0x00, 0x01]),
        (
            SerialFlags {
                device_initiated: true,
                ..none
            },
            false,
            [0x01, 0x00],
        ),
        (
            SerialFlags {
                consumer: true,
                ..none
            },
            false,
            [0x02, 0x00],
        ),
        (
            SerialFlags {
                shared: true,
                ..none
            },
            false,
            [0x04, 0x00],
        ),
    ] {
        has_i2c_flags(alloc, general, ten, wanted)?;
    }
    Ok(())
}

const ALL_SERIAL: SerialFlags = SerialFlags {
    device_initiated: true,
    consumer: true,
    shared: true,
};

#[test]
fn i2c_with_names(rt: HostRuntime) -> Result<(), Fail> {
    let alloc = rt.alloc();
    let settings = I2cSettings {
        address: 0x0155,
        ten_bit_address: true,
        speed: 0x0403_0201,
    };
    makes(
        alloc,
        I2cSerialBus::new(alloc, settings, ALL_SERIAL, "I2", &[0xaa]),
        &[
            0x8e, 0x13, 0x00, 0x02, 0x00, 0x01, 0x07, 0x01, 0x00, 0x01, 0x07, 0x00, 0x01, 0x02,
            0x03, 0x04, 0x55, 0x01, 0xaa, 0x49, 0x32, 0x00,
        ],
    )
}

// A connection to an I2C bus of a controller, with this many bytes of a vendor.
fn i2c_of(alloc: Global, source: &str, vendor: usize) -> R<I2cSerialBus> {
    let settings = I2cSettings {
        address: 0,
        ten_bit_address: false,
        speed: 0,
    };
    let vendor = vec![in alloc; 0u8; vendor]?;
    I2cSerialBus::new(alloc, settings, NO_SERIAL, source, &vendor)
}

#[test]
fn longest_i2c(rt: HostRuntime) -> Result<(), Fail> {
    let alloc = rt.alloc();
    for (source, vendor) in [("", 65_519), ("A", 65_518)] {
        sized(alloc, &i2c_of(alloc, source, vendor)?, 65_538)?;
    }
    for (source, vendor) in [("", 65_520), ("A", 65_519), ("", 65_536)] {
        refuses(i2c_of(alloc, source, vendor), Error::FieldWidth)?;
    }
    Ok(())
}

const NO_SPI: SpiSettings = SpiSettings {
    device: 0,
    selected_high: false,
    three_wires: false,
    data_bits: 0,
    speed: 0,
    clock_starts_high: false,
    second_phase: false,
};

// Fails unless a connection to an SPI bus without a name has these flags, this phase and this polarity.
fn has_spi(alloc: Global, settings: SpiSettings, wanted: [u8; 3]) -> Result<(), Fail> {
    let [specific, phase, polarity] = wanted;
    makes(
        alloc,
        SpiSerialBus::new(alloc, settings, NO_SERIAL, "", &[]),
        &[
            0x8e, 0x13, 0x00, 0x02, 0x00, 0x02, 0x00, specific, 0x00, 0x01, 0x09, 0x00, 0x00, 0x00,
            0x00, 0x00, 0x00, phase, polarity, 0x00, 0x00, 0x00,
        ],
    )
}

#[test]
fn spi_flags(rt: HostRuntime) -> Result<(), Fail> {
    let alloc = rt.alloc();
    let none = NO_SPI;
    for (settings, wanted) in [
        (none, [0x00, 0, 0]),
        (
            SpiSettings {
                three_wires: true,
                ..none
            },
            [0x01, 0, 0],
        ),
        (
            SpiSettings {
                selected_high: true,
                ..none
            },
            [0x02, 0, 0],
        ),
        (
            SpiSettings {
                second_phase: true,
                ..none
            },
            [0x00, 1, 0],
        ),
        (
            SpiSettings {
                clock_starts_high: true,
                ..none
            },
            [0x00, 0, 1],
        ),
    ] {
        has_spi(alloc, settings, wanted)?;
    }
    Ok(())
}

#[test]
fn spi_with_names(rt: HostRuntime) -> Result<(), Fail> {
    let alloc = rt.alloc();
    let settings = SpiSettings {
        device: 0x0605,
        selected_high: true,
        three_wires: true,
        data_bits: 0xff,
        speed: 0x0403_0201,
        clock_starts_high: true,
        second_phase: true,
    };
    makes(
        alloc,
        SpiSerialBus::new(alloc, settings, ALL_SERIAL, "S", &[0xaa, 0xbb]),
        &[
            0x8e, 0x16, 0x00, 0x02, 0x00, 0x02, 0x07, 0x03, 0x00, 0x01, 0x0b, 0x00, 0x01, 0x02,
            0x03, 0x04, 0xff, 0x01, 0x01, 0x05, 0x06, 0xaa, 0xbb, 0x53, 0x00,
        ],
    )
}

const NO_UART: UartSettings = UartSettings {
    baud_rate: 0,
    data_bits: DataBits::Five,
    stop_bits: StopBits::Zero,
    parity: Parity::Absent,
    flow_control: FlowControl::Absent,
    big_endian: false,
    lines: 0,
    receive_fifo: 0,
    transmit_fifo: 0,
};

// Fails unless a connection to a UART without a name has these flags, this parity and these lines, and its words have their
// numbers.
fn has_uart(alloc: Global, settings: UartSettings, wanted: [u8; 3]) -> Result<(), Fail> {
    let [specific, parity, lines] = wanted;
    let words = [
        settings.flow_control as u8,
        settings.stop_bits as u8,
        settings.data_bits as u8,
        settings.parity as u8,
    ];
    let (flow, stop, data) = (specific & 3, (specific >> 2) & 3, (specific >> 4) & 7);
    equal(&words, &[flow, stop, data, parity])?;
    makes(
        alloc,
        UartSerialBus::new(alloc, settings, NO_SERIAL, "", &[]),
        &[
            0x8e, 0x14, 0x00, 0x02, 0x00, 0x03, 0x00, specific, 0x00, 0x01, 0x0a, 0x00, 0x00, 0x00,
            0x00, 0x00, 0x00, 0x00, 0x00, 0x00, parity, lines, 0x00,
        ],
    )
}

#[test]
#[rattlefmt::skip]
fn uart_flags(rt: HostRuntime) -> Result<(), Fail> {
    let alloc = rt.alloc();
    let none = NO_UART;
    for (settings, wanted) in [
        (none, [0x00, 0, 0x00]),
        (UartSettings { flow_control: FlowControl::Hardware, ..none }, [0x01, 0, 0x00]),
        (UartSettings { flow_control: FlowControl::XonXoff, ..none }, [0x02, 0, 0x00]),
        (UartSettings { stop_bits: StopBits::One, ..none }, [0x04, 0, 0x00]),
        (UartSettings { stop_bits: StopBits::OneAndHalf, ..none }, [0x08, 0, 0x00]),
        (UartSettings { stop_bits: StopBits::Two, ..none }, [0x0c, 0, 0x00]),
        (UartSettings { data_bits: DataBits::Six, ..none }, [0x10, 0, 0x00]),
        (UartSettings { data_bits: DataBits::Seven, ..none }, [0x20, 0, 0x00]),
        (UartSettings { data_bits: DataBits::Eight, ..none }, [0x30, 0, 0x00]),
        (UartSettings { data_bits: DataBits::Nine, ..none }, [0x40, 0, 0x00]),
        (UartSettings { big_endian: true, ..none }, [0x80, 0, 0x00]),
        (UartSettings { parity: Parity::Even, ..none }, [0x00, 1, 0x00]),
        (UartSettings { parity: Parity::Odd, ..none }, [0x00, 2, 0x00]),
        (UartSettings { parity: Parity::Mark, ..none }, [0x00, 3, 0x00]),
        (UartSettings { parity: Parity::Space, ..none }, [0x00, 4, 0x00]),
        (UartSettings { lines: 0x84, ..none }, [0x00, 0, 0x84]),
    ] {
        has_uart(alloc, settings, wanted)?;
    }
    Ok(())
}

#[test]
fn uart_with_names(rt: HostRuntime) -> Result<(), Fail> {
    let alloc = rt.alloc();
    let settings = UartSettings {
        baud_rate: 0x0403_0201,
        data_bits: DataBits::Eight,
        stop_bits: StopBits::One,
        parity: Parity::Odd,
        flow_control: FlowControl::Hardware,
        big_endian: true,
        lines: 0xc0,
        receive_fifo: 0x0605,
        transmit_fifo: 0x0807,
    };
    makes(
        alloc,
        UartSerialBus::new(alloc, settings, ALL_SERIAL, "U0", &[0xaa]),
        &[
            0x8e, 0x17, 0x00, 0x02, 0x00, 0x03, 0x07, 0xb5, 0x00, 0x01, 0x0b, 0x00, 0x01, 0x02,
            0x03, 0x04, 0x05, 0x06, 0x07, 0x08, 0x02, 0xc0, 0xaa, 0x55, 0x30, 0x00,
        ],
    )
}
