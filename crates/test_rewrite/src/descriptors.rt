//! A block with each descriptor of resources, written by the constructors of `acpi_ops`. It is the block that a compiler made of
//! `data/descriptors.asl`.

use crate::spelt::{Spelt, made};
use acpi_base::gas::{AccessSize, AddressSpace as Space, GAS};
use acpi_build::block::Block;
use acpi_build::error::BuildError;
use acpi_ops::address_space::{AddressSpace, AddressSpaceCacheable, AddressSpaceFrom, FixedEnd};
use acpi_ops::descriptor::{IO, Interrupt, InterruptFlags, Memory32Fixed, Register};
use acpi_ops::gpio::{
    GpioInt, GpioIntSettings, GpioIo, GpioIoSettings, GpioPolarity, IoRestriction, PinConfig,
};
use acpi_ops::interrupts::{Interrupts, InterruptsFrom};
use acpi_ops::memory::{Memory24, Memory32};
use acpi_ops::pins::{
    PinConfiguration, PinFunction, PinGroup, PinGroupConfiguration, PinGroupFunction, PinSetting,
    PinUse,
};
use acpi_ops::serial::{
    DataBits, FlowControl, I2cSerialBus, I2cSettings, Parity, SerialFlags, SpiSerialBus,
    SpiSettings, StopBits, UartSerialBus, UartSettings,
};
use acpi_ops::small::{
    Dma, DmaSpeed, DmaTransfer, DmaWidth, EndDependentFn, FixedDma, FixedIo, Irq, IrqNoFlags,
    Priority, StartDependentFn, StartDependentFnNoPri,
};
use acpi_ops::vendor::{VendorLong, VendorShort};
use std::alloc::Global;

// Small descriptors, but for those of ports, sets of resources and vendors.
fn add_channels(block: &mut Block) {
    block.add(&Irq::new(0x8008, true, true, true, true));
    block.add(&Irq::new(0x0001, false, false, false, false));
    block.add(&IrqNoFlags::new(0x0202));
    block.add(&Dma::new(DmaSpeed::Compatibility, true, DmaTransfer::Transfer8, 0x04));
    block.add(&Dma::new(DmaSpeed::TypeF, false, DmaTransfer::Transfer16, 0x81));
    block.add(&Dma::new(DmaSpeed::TypeA, false, DmaTransfer::Transfer8And16, 0x02));
    block.add(&Dma::new(DmaSpeed::TypeB, true, DmaTransfer::Transfer16, 0x08));
}

// Sets of resources.
fn add_sets(block: &mut Block) {
    block.add(&StartDependentFn::new(Priority::Good, Priority::SubOptimal));
    block.add(&IO::new(0x03f8, 0x0400, 8, 7));
    block.add(&StartDependentFn::new(Priority::Acceptable, Priority::Good));
    block.add(&IO::new_decode_10(0x02f8, 0x02f8, 1, 8));
    block.add(&EndDependentFn::new());
    block.add(&StartDependentFnNoPri::new());
    block.add(&FixedIo::new(0x0070, 2));
    block.add(&EndDependentFn::new());
}

// The buffer of small descriptors.
fn add_small(alloc: Global, block: &mut Block) -> Result<(), BuildError> {
    let vendor = made(alloc, VendorShort::new(alloc, &[1, 2, 3]))?;
    block.resources("SMAL");
    add_channels(block);
    add_sets(block);
    block.add(&FixedDma::new(0x1234, 5, DmaWidth::Width32));
    block.add(&FixedDma::new(1, 2, DmaWidth::Width256));
    block.add(&vendor);
    block.end();
    Ok(())
}

// The buffer of memory, vendors' data and registers.
fn add_long(alloc: Global, block: &mut Block) -> Result<(), BuildError> {
    let content = [0x0a, 0x0b, 0x0c, 0x0d, 0x0e, 0x0f, 0x10, 0x11, 0x12];
    let vendor = made(alloc, VendorLong::new(alloc, &content))?;
    block.resources("LONG");
    block.add(&Memory24::new(false, 0x10, 0x20, 0x100, 8));
    block.add(&Memory24::new(true, 0x1010, 0x2020, 0x200, 0x1008));
    block.add(&Memory32::new(true, 0x1000_0000, 0x2000_0000, 0x1000, 0x10_0000));
    block.add(&Memory32Fixed::new(false, 0xfed0_0000, 0x400));
    block.add(&Memory32Fixed::new(true, 0xe000_0000, 0x1000_0000));
    block.add(&vendor);
    block.add(&Register::new(GAS::new(Space::SystemIo, 8, 0, AccessSize::ByteAccess, 0x1234)));
    block.add(&Register::new(GAS::new(
        Space::FunctionalFixedHardware,
        0x40,
        4,
        AccessSize::QwordAccess,
        0x8000_0000_0000_0010,
    )));
    block.end();
    Ok(())
}

// Fixed ranges of addresses.
fn add_fixed_spaces(block: &mut Block) {
    let none = AddressSpaceCacheable::NotCacheable;
    block.add(&AddressSpace::new_bus_number(1u16, 0xff));
    block.add(&AddressSpace::new_io(0x0d00u16, 0xffff, Some(0x10)));
    block.add(&AddressSpace::new_io(0u32, 0xcf7, None).subtractive());
    block.add(&AddressSpace::new_memory(none, false, 0xc000_0000u32, 0xfebf_ffff, None));
}

// Ranges that may move or grow.
fn add_loose_spaces(block: &mut Block) {
    block.add(&AddressSpace::new_memory(
        AddressSpaceCacheable::WriteCombining,
        true,
        0x8000_0000u32,
        0xbfff_ffff,
        None,
    )
    .movable(0x1_0000, 0xfff));
    block.add(&AddressSpace::new_memory(
        AddressSpaceCacheable::Cacheable,
        true,
        0x8_0000_0000u64,
        0xf_ffff_ffff,
        None,
    )
    .resizable(FixedEnd::Min, 0xf_ffff));
    block.add(&AddressSpace::new_memory(
        AddressSpaceCacheable::PreFetchable,
        false,
        0x10_0000_0000u64,
        0x1f_ffff_ffff,
        None,
    )
    .resizable(FixedEnd::Max, 0xf_ffff));
}

// The buffer of ranges of addresses.
fn add_spaces(alloc: Global, block: &mut Block) -> Result<(), BuildError> {
    let range = AddressSpace::new_memory(
        AddressSpaceCacheable::Cacheable,
        true,
        0xd000_0000u32,
        0xd000_ffff,
        None,
    );
    let from = made(alloc, AddressSpaceFrom::new(alloc, range, 3, "\\_SB.PCI0"))?;
    block.resources("SPAC");
    add_fixed_spaces(block);
    add_loose_spaces(block);
    block.add(&AddressSpace::new_io(0x1000u64, 0x1fff, Some(0x1_0000_0000)));
    block.add(&from);
    block.end();
    Ok(())
}

// Flags of an interrupt that isn't the first.
fn level(consumer: bool, wake: bool) -> InterruptFlags {
    InterruptFlags {
        consumer,
        edge_triggered: false,
        active_low: true,
        shared: true,
        wake,
    }
}

// The buffer of interrupts.
fn add_interrupts(alloc: Global, block: &mut Block) -> Result<(), BuildError> {
    let flags = level(true, false);
    let several = made(alloc, Interrupts::new(alloc, flags, &[0x10, 0x11, 0x12]))?;
    let from = made(
        alloc,
        InterruptsFrom::new(alloc, flags, &[5], 2, "\\_SB.LNKA"),
    )?;
    block.resources("INTR");
    block.add(&Interrupt::new(true, true, false, false, 0x21));
    block.add(&Interrupt::of_flags(level(false, true), 0x102));
    block.add(&several);
    block.add(&from);
    block.end();
    Ok(())
}

// The name of the controller of pins.
const PINS: &str = "\\_SB.GPI0";

// Interrupts of pins.
fn gpio_interrupts(alloc: Global) -> Result<[Spelt; 2], BuildError> {
    let shared = GpioIntSettings {
        consumer: true,
        edge_triggered: true,
        polarity: GpioPolarity::ActiveBoth,
        shared: true,
        wake: true,
        pin_config: PinConfig::PullUp,
        debounce_timeout: 0x1234,
    };
    let exclusive = GpioIntSettings {
        consumer: false,
        edge_triggered: false,
        polarity: GpioPolarity::ActiveLow,
        shared: false,
        wake: false,
        pin_config: PinConfig::PullNone,
        debounce_timeout: 0,
    };
    let first = made(alloc, GpioInt::new(alloc, shared, &[0x203], PINS, &[]))?;
    let second = made(
        alloc,
        GpioInt::new(alloc, exclusive, &[4], PINS, &[0x0a, 0x0b]),
    )?;
    Ok([first, second])
}

// Inputs and outputs of pins.
fn gpio_connections(alloc: Global) -> Result<[Spelt; 2], BuildError> {
    let shared = GpioIoSettings {
        consumer: true,
        shared: true,
        restriction: IoRestriction::OutputOnly,
        pin_config: PinConfig::PullDown,
        debounce_timeout: 5,
        drive_strength: 0x678,
    };
    let exclusive = GpioIoSettings {
        consumer: true,
        shared: false,
        restriction: IoRestriction::InputAndOutputPreserved,
        pin_config: PinConfig::Default,
        debounce_timeout: 0,
        drive_strength: 0,
    };
    let first = made(alloc, GpioIo::new(alloc, shared, &[9], PINS, &[]))?;
    let second = made(
        alloc,
        GpioIo::new(alloc, exclusive, &[0x0a, 0x0b], PINS, &[0x0c]),
    )?;
    Ok([first, second])
}

// How a device uses pins.
fn pin_use(shared: bool, consumer: bool) -> PinUse {
    PinUse { shared, consumer }
}

// Functions and settings of pins.
fn pin_settings(alloc: Global) -> Result<[Spelt; 3], BuildError> {
    let function = made(
        alloc,
        PinFunction::new(alloc, true, PinConfig::PullUp, 0x102, &[3], PINS, &[1, 2]),
    )?;
    let down = PinSetting::BiasPullDown;
    let first = made(
        alloc,
        PinConfiguration::new(
            alloc,
            pin_use(false, true),
            down,
            10_000,
            &[4, 5],
            PINS,
            &[],
        ),
    )?;
    let other = PinSetting::Other(0x80);
    let second = made(
        alloc,
        PinConfiguration::new(alloc, pin_use(true, false), other, 1, &[6], PINS, &[7]),
    )?;
    Ok([function, first, second])
}

// Groups of pins.
fn pin_groups(alloc: Global) -> Result<[Spelt; 3], BuildError> {
    let group = made(alloc, PinGroup::new(alloc, false, &[7, 8], "GRP0", &[8]))?;
    let function = made(
        alloc,
        PinGroupFunction::new(alloc, pin_use(true, true), 0x304, PINS, "GRP0", &[9, 0x0a]),
    )?;
    let setting = PinSetting::SlewRate;
    let configuration = made(
        alloc,
        PinGroupConfiguration::new(alloc, pin_use(false, true), setting, 50, PINS, "GRP0", &[]),
    )?;
    Ok([group, function, configuration])
}

// Adds descriptors.
fn add_each(block: &mut Block, descriptors: &[Spelt]) {
    for descriptor in descriptors {
        block.add(descriptor);
    }
}

// The buffer of pins.
fn add_pins(alloc: Global, block: &mut Block) -> Result<(), BuildError> {
    block.resources("PINS");
    add_each(block, &gpio_interrupts(alloc)?);
    add_each(block, &gpio_connections(alloc)?);
    add_each(block, &pin_settings(alloc)?);
    add_each(block, &pin_groups(alloc)?);
    block.end();
    Ok(())
}

// The flags of a connection.
fn serial_flags(device_initiated: bool, consumer: bool, shared: bool) -> SerialFlags {
    SerialFlags {
        device_initiated,
        consumer,
        shared,
    }
}

// Connections of I2C.
fn i2c_connections(alloc: Global) -> Result<[Spelt; 2], BuildError> {
    let fast = I2cSettings {
        address: 0x50,
        ten_bit_address: false,
        speed: 400_000,
    };
    let slow = I2cSettings {
        address: 0x250,
        ten_bit_address: true,
        speed: 100_000,
    };
    let flags = serial_flags(false, true, false);
    let first = made(
        alloc,
        I2cSerialBus::new(alloc, fast, flags, "\\_SB.I2C0", &[]),
    )?;
    let flags = serial_flags(true, true, true);
    let second = made(
        alloc,
        I2cSerialBus::new(alloc, slow, flags, "\\_SB.I2C0", &[1, 2]),
    )?;
    Ok([first, second])
}

// A connection of SPI.
fn spi_connection(alloc: Global) -> Result<Spelt, BuildError> {
    let settings = SpiSettings {
        device: 1,
        selected_high: true,
        three_wires: true,
        data_bits: 16,
        speed: 10_000_000,
        clock_starts_high: true,
        second_phase: true,
    };
    let flags = serial_flags(false, true, false);
    made(
        alloc,
        SpiSerialBus::new(alloc, settings, flags, "\\_SB.SPI0", &[]),
    )
}

// Connections of a UART.
fn uart_connections(alloc: Global) -> Result<[Spelt; 2], BuildError> {
    let plain = UartSettings {
        baud_rate: 115_200,
        data_bits: DataBits::Eight,
        stop_bits: StopBits::One,
        parity: Parity::Absent,
        flow_control: FlowControl::Hardware,
        big_endian: false,
        lines: 0xc0,
        receive_fifo: 0x20,
        transmit_fifo: 0x10,
    };
    let other = UartSettings {
        baud_rate: 9_600,
        data_bits: DataBits::Nine,
        stop_bits: StopBits::OneAndHalf,
        parity: Parity::Space,
        flow_control: FlowControl::XonXoff,
        big_endian: true,
        lines: 0xfc,
        receive_fifo: 1,
        transmit_fifo: 2,
    };
    let flags = serial_flags(false, true, false);
    let first = made(
        alloc,
        UartSerialBus::new(alloc, plain, flags, "\\_SB.URT0", &[]),
    )?;
    let flags = serial_flags(false, false, true);
    let second = made(
        alloc,
        UartSerialBus::new(alloc, other, flags, "\\_SB.URT0", &[3]),
    )?;
    Ok([first, second])
}

// The buffer of connections.
fn add_buses(alloc: Global, block: &mut Block) -> Result<(), BuildError> {
    let spi = spi_connection(alloc)?;
    block.resources("BUSS");
    add_each(block, &i2c_connections(alloc)?);
    block.add(&spi);
    add_each(block, &uart_connections(alloc)?);
    block.end();
    Ok(())
}

/// Returns the terms of the block.
pub fn all_descriptors(alloc: Global) -> Result<Vec<u8>, BuildError> {
    let mut block = Block::new(alloc);
    add_small(alloc, &mut block)?;
    add_long(alloc, &mut block)?;
    add_spaces(alloc, &mut block)?;
    add_interrupts(alloc, &mut block)?;
    add_pins(alloc, &mut block)?;
    add_buses(alloc, &mut block)?;
    block.finish()
}
