//! Resource descriptors of any length, each as its bytes.

use acpi_tables::R;
use acpi_tables::aml::{
    AddressSpace, AddressSpaceFrom, ClockInputFrom, ClockScale, ClockSettings, Csi2Bus, Csi2Phy,
    Csi2Settings, DataBits, FlowControl, GpioInt, GpioIntSettings, GpioIo, GpioIoSettings,
    GpioPolarity, I2cSerialBus, I2cSettings, InterruptFlags, Interrupts, InterruptsFrom,
    IoRestriction, Parity, PinConfig, PinConfiguration, PinFunction, PinGroup,
    PinGroupConfiguration, PinGroupFunction, PinSetting, PinUse, SerialFlags, SpiSerialBus,
    SpiSettings, StopBits, UartSerialBus, UartSettings, VendorLong, VendorShort,
};
use std::alloc::Global;
use test_support::bytes_of;

const WAKING: InterruptFlags = InterruptFlags {
    consumer: true,
    edge_triggered: false,
    active_low: true,
    shared: false,
    wake: true,
};

const INTERRUPTING: GpioIntSettings = GpioIntSettings {
    consumer: true,
    edge_triggered: true,
    polarity: GpioPolarity::ActiveBoth,
    shared: true,
    wake: true,
    pin_config: PinConfig::PullUp,
    debounce_timeout: 0x1234,
};

const DRIVEN: GpioIoSettings = GpioIoSettings {
    consumer: false,
    shared: true,
    restriction: IoRestriction::OutputOnly,
    pin_config: PinConfig::PullNone,
    debounce_timeout: 0x1234,
    drive_strength: 0x5678,
};

const CONSUMED: SerialFlags = SerialFlags {
    device_initiated: false,
    consumer: true,
    shared: false,
};

const SENSOR: I2cSettings = I2cSettings {
    address: 0x50,
    ten_bit_address: true,
    speed: 400_000,
};

const FLASH: SpiSettings = SpiSettings {
    device: 0x1234,
    selected_high: true,
    three_wires: true,
    data_bits: 16,
    speed: 25_000_000,
    clock_starts_high: true,
    second_phase: true,
};

const MODEM: UartSettings = UartSettings {
    baud_rate: 115_200,
    data_bits: DataBits::Eight,
    stop_bits: StopBits::Two,
    parity: Parity::Odd,
    flow_control: FlowControl::XonXoff,
    big_endian: true,
    lines: 0xc4,
    receive_fifo: 32,
    transmit_fifo: 64,
};

const CONTROLLER: &str = "\\_SB.GPI0";

const USED: PinUse = PinUse {
    shared: true,
    consumer: true,
};

const CAMERA: Csi2Settings = Csi2Settings {
    device_initiated: false,
    consumer: true,
    phy: Csi2Phy::DPhy,
    local_port: 2,
    remote_port: 3,
};

const CLOCK: ClockSettings = ClockSettings {
    variable: true,
    scale: ClockScale::Megahertz,
    numerator: 25,
    divisor: 2,
};

pub const DESCRIPTORS: u8 = 17;

/// Descriptors whose number of bytes depends on what is in them.
pub fn descriptor(alloc: Global, which: u8) -> R<Vec<u8>> {
    match which {
        0 => bytes_of(alloc, Interrupts::new(alloc, WAKING, &[5, 0x1234_5678, 9])),
        1 => bytes_of(alloc, VendorShort::new(alloc, &[1, 2, 3])),
        2 => bytes_of(alloc, VendorLong::new(alloc, &[1, 2, 3, 4, 5, 6, 7, 8, 9])),
        3 => bytes_of(
            alloc,
            GpioInt::new(alloc, INTERRUPTING, &[0x102], "\\_SB.GPI0", &[]),
        ),
        4 => bytes_of(alloc, GpioIo::new(alloc, DRIVEN, &[7], "\\_SB.GPI1", &[])),
        5 => bytes_of(
            alloc,
            I2cSerialBus::new(alloc, SENSOR, CONSUMED, "\\_SB.I2C0", &[0x11]),
        ),
        6 => bytes_of(
            alloc,
            SpiSerialBus::new(alloc, FLASH, CONSUMED, "\\_SB.SPI0", &[]),
        ),
        7 => bytes_of(
            alloc,
            UartSerialBus::new(alloc, MODEM, CONSUMED, "\\_SB.UAR0", &[]),
        ),
        8 => bytes_of(alloc, Csi2Bus::new(alloc, CAMERA, "\\_SB.CSI0", &[])),
        9 => bytes_of(alloc, ClockInputFrom::new(alloc, CLOCK, 1, "\\_SB.CLK0")),
        10 => bytes_of(
            alloc,
            InterruptsFrom::new(alloc, WAKING, &[5, 9], 1, "\\_SB.LNKA"),
        ),
        11 => bytes_of(
            alloc,
            AddressSpaceFrom::new(alloc, AddressSpace::new_io(1u32, 2, None), 1, "\\_SB.PCI0"),
        ),
        _ => pins(alloc, which),
    }
}

fn pins(alloc: Global, which: u8) -> R<Vec<u8>> {
    match which {
        12 => bytes_of(
            alloc,
            PinFunction::new(alloc, true, PinConfig::PullUp, 1, &[0x102], CONTROLLER, &[]),
        ),
        13 => bytes_of(
            alloc,
            PinConfiguration::new(
                alloc,
                USED,
                PinSetting::DriveStrength,
                5,
                &[0x102],
                CONTROLLER,
                &[],
            ),
        ),
        14 => bytes_of(alloc, PinGroup::new(alloc, false, &[7], "A", &[])),
        15 => bytes_of(
            alloc,
            PinGroupFunction::new(alloc, USED, 3, CONTROLLER, "A", &[]),
        ),
        _ => bytes_of(
            alloc,
            PinGroupConfiguration::new(alloc, USED, PinSetting::SlewRate, 5, CONTROLLER, "A", &[]),
        ),
    }
}
