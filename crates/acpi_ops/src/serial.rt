//! Connections to serial buses.

ghost use Rattle.std.specs.Prelude.{◌≡◌, ◌+◌, ℕ, true, length};
ghost use Rattle.acpi_base.specs.Fields.{AreRowsOf, fields_joined};
ghost use Rattle.acpi_base.specs.Object.{Builds};
ghost use Rattle.acpi_ops.specs.Serial.{general_flags, serial_head_fields, serial_fits, serial};
ghost use Rattle.acpi_ops.specs.Serial.{i2c, i2c_fields, spi, spi_bus, spi_fields, uart, uart_bus, uart_fields};
ghost use Rattle.acpi_ops.specs.declared.serial.Bus.{Bus as SerialBus};
ghost use Rattle.acpi_ops.specs.declared.serial.I2cSettings.{I2cSettings};
ghost use Rattle.acpi_ops.specs.declared.serial.SpiSettings.{SpiSettings};
ghost use Rattle.acpi_ops.specs.declared.serial.UartSettings.{UartSettings};

use crate::descriptor::bit;
use crate::variable::VariableDescriptor;
use acpi_base::error::{Error, R};
use acpi_base::row::{Bits, Row, Word, record_of_numbers};
use std::alloc::Global;

// ---- what the buses share

/// The flags of a connection to a serial bus (ACPI 6.5, 6.4.3.8.2, General Flags), from bit 0 on in this order.
#[derive(Copy, Clone, Debug, PartialEq)]
pub struct SerialFlags {
    /// The device begins transfers, and not the controller (Slave Mode).
    pub device_initiated: bool,
    /// The device uses the connection, and doesn't provide it for others.
    pub consumer: bool,
    pub shared: bool,
}

/// A bus's number, and its flags.
#[derive(Copy, Clone)]
struct Bus {
    bus: u8,
    general: SerialFlags,
    specific: u16,
}

#[tactic(auto, using(crate::proofs::Built::built))]
fn connection<Kind, const N: usize>(
    alloc: Global,
    bus: Bus,
    own: [u8; N],
    source: &str,
    vendor: &[u8],
) -> R<VariableDescriptor<Kind>>
    ensures { Builds result (serial bus own.entry vendor.now source.now) }
{
    if !fits(own.len(), vendor.len(), source.len()) {
        return Err(Error::FieldWidth);
    }
    let head = head(bus, own.len(), vendor.len(), source.len());
    VariableDescriptor::of(alloc, &[&head, &own, vendor, source.as_bytes(), &[0]])
}

// Whether the length fits its field.
fn fits(own: usize, vendor: usize, source: usize) -> bool
    ensures { result ≡ serial_fits own vendor source }
{
    own <= 0xffff && vendor <= 0xffff && source <= 0xffff && 10 + own + vendor + source <= 0xffff
}

// The descriptor before the data of its bus.
fn head(bus: Bus, own: usize, vendor: usize, source: usize) -> [u8; 12]
    requires { serial_fits own vendor source ≡ true }
    ensures { result ≡ fields_joined (serial_head_fields bus (own + vendor) source) }
{
    let size = (own + vendor) as u64;
    record_of_numbers(
        &SERIAL_HEAD,
        &[
            0x8e,
            10 + size + source as u64,
            2,
            0,
            u64::from(bus.bus),
            u64::from(general_flags(bus.general)),
            u64::from(bus.specific),
            1,
            size,
        ],
    )
}

fn general_flags(flags: SerialFlags) -> u8
    ensures { result ≡ general_flags flags }
{
    bit(flags.device_initiated, 0x01) + bit(flags.consumer, 0x02) + bit(flags.shared, 0x04)
}

const SERIAL_HEAD: [Row; 9] = [
    Row::Preset("Serial Bus Connection Descriptor", 1, 0x8e),
    Row::Number("Length", 2),
    Row::Preset("Revision ID", 1, 2),
    Row::Preset("Resource Source Index", 1, 0),
    Row::OneOf(
        "Serial Bus Type",
        1,
        &[Word(1, "I2C"), Word(2, "SPI"), Word(3, "UART")],
    ),
    Row::Flags(
        "General Flags",
        1,
        &[
            Bits::OneOf(
                0x01,
                &[
                    Word(0x00, "Controller Initiated"),
                    Word(0x01, "Device Initiated"),
                ],
            ),
            Bits::OneOf(0x02, &[Word(0x00, "Producer"), Word(0x02, "Consumer")]),
            Bits::OneOf(0x04, &[Word(0x00, "Exclusive"), Word(0x04, "Shared")]),
        ],
    ),
    Row::Hex("Type Specific Flags", 2),
    Row::Preset("Type Specific Revision ID", 1, 1),
    Row::Number("Type Data Length", 2),
];

/// The rows of the fields of a descriptor of a connection to a serial bus, before the data of the bus, in order.
pub fn serial_head_rows() -> &'static [Row]
    ensures { (bus : SerialBus) (size source : ℕ) → AreRowsOf result.now (serial_head_fields bus size source) }
{
    &SERIAL_HEAD
}

// ---- I2C

/// What a connection to an I2C bus states (ACPI 6.5, 6.4.3.8.2.1). The speed is in hertz.
#[derive(Copy, Clone, Debug, PartialEq)]
pub struct I2cSettings {
    pub address: u16,
    pub ten_bit_address: bool,
    pub speed: u32,
}

/// A connection to an I2C bus (ACPI 6.5, 6.4.3.8.2.1, I2C Serial Bus Connection Descriptor).
pub type I2cSerialBus = VariableDescriptor<I2cKind>;

/// The kind of `I2cSerialBus`.
pub struct I2cKind;

impl VariableDescriptor<I2cKind> {
    /// The speed is at offset 12 of the descriptor, and the address at 16. The data of the vendor is at 18. The name of the
    /// controller `source` and a zero follow. The error is `FieldWidth` if the length exceeds 65,535.
    pub fn new(
        alloc: Global,
        settings: I2cSettings,
        flags: SerialFlags,
        source: &str,
        vendor: &[u8],
    ) -> R<VariableDescriptor<I2cKind>>
        ensures { Builds result (i2c settings flags vendor.now source.now) }
    {
        let bus = Bus {
            bus: 1,
            general: flags,
            specific: u16::from(bit(settings.ten_bit_address, 0x01)),
        };
        connection(alloc, bus, i2c_data(settings), source, vendor)
    }
}

fn i2c_data(settings: I2cSettings) -> [u8; 6]
    ensures { result ≡ fields_joined (i2c_fields settings) }
{
    record_of_numbers(
        &I2C,
        &[u64::from(settings.speed), u64::from(settings.address)],
    )
}

const I2C: [Row; 2] = [
    Row::Number("Connection Speed", 4),
    Row::Hex("Slave Address", 2),
];

/// The rows of the fields of the data of an I2C bus, in order.
pub fn i2c_rows() -> &'static [Row]
    ensures { (settings : I2cSettings) → AreRowsOf result.now (i2c_fields settings) }
{
    &I2C
}

// ---- SPI

/// What a connection to an SPI bus states (ACPI 6.5, 6.4.3.8.2.2). The speed is in hertz.
#[derive(Copy, Clone, Debug, PartialEq)]
pub struct SpiSettings {
    pub device: u16,
    /// The device is selected while its line is high.
    pub selected_high: bool,
    pub three_wires: bool,
    /// The number of bits of a transfer.
    pub data_bits: u8,
    pub speed: u32,
    pub clock_starts_high: bool,
    /// Data is taken at the second phase of the clock.
    pub second_phase: bool,
}

/// A connection to an SPI bus (ACPI 6.5, 6.4.3.8.2.2, SPI Serial Bus Connection Descriptor).
pub type SpiSerialBus = VariableDescriptor<SpiKind>;

/// The kind of `SpiSerialBus`.
pub struct SpiKind;

impl VariableDescriptor<SpiKind> {
    /// The speed is at offset 12 of the descriptor, the number of bits at 16, the phase at 17, the polarity of the clock at 18,
    /// and the number of the device at 19. The data of the vendor is at 21. The name of the controller `source` and a zero
    /// follow. The error is `FieldWidth` if the length exceeds 65,535.
    pub fn new(
        alloc: Global,
        settings: SpiSettings,
        flags: SerialFlags,
        source: &str,
        vendor: &[u8],
    ) -> R<VariableDescriptor<SpiKind>>
        ensures { Builds result (spi settings flags vendor.now source.now) }
    {
        let bus = spi_bus(settings, flags);
        connection(alloc, bus, spi_data(settings), source, vendor)
    }
}

fn spi_bus(settings: SpiSettings, flags: SerialFlags) -> Bus
    ensures { result ≡ spi_bus settings flags }
{
    let specific = bit(settings.three_wires, 0x01) + bit(settings.selected_high, 0x02);
    Bus {
        bus: 2,
        general: flags,
        specific: u16::from(specific),
    }
}

fn spi_data(settings: SpiSettings) -> [u8; 9]
    ensures { result ≡ fields_joined (spi_fields settings) }
{
    record_of_numbers(
        &SPI,
        &[
            u64::from(settings.speed),
            u64::from(settings.data_bits),
            u64::from(bit(settings.second_phase, 1)),
            u64::from(bit(settings.clock_starts_high, 1)),
            u64::from(settings.device),
        ],
    )
}

const SPI: [Row; 5] = [
    Row::Number("Connection Speed", 4),
    Row::Number("Data Bit Length", 1),
    Row::OneOf(
        "Phase",
        1,
        &[Word(0, "First Phase"), Word(1, "Second Phase")],
    ),
    Row::OneOf(
        "Polarity",
        1,
        &[Word(0, "Start Low"), Word(1, "Start High")],
    ),
    Row::Hex("Device Selection", 2),
];

/// The rows of the fields of the data of an SPI bus, in order.
pub fn spi_rows() -> &'static [Row]
    ensures { (settings : SpiSettings) → AreRowsOf result.now (spi_fields settings) }
{
    &SPI
}

// ---- UART

/// The number of bits of a character (ACPI 6.5, 6.4.3.8.2.3, Bits per byte).
#[derive(Copy, Clone, Debug, PartialEq)]
pub enum DataBits {
    Five = 0,
    Six = 1,
    Seven = 2,
    Eight = 3,
    Nine = 4,
}

/// The number of stop bits (ACPI 6.5, 6.4.3.8.2.3, Stop Bits).
#[derive(Copy, Clone, Debug, PartialEq)]
pub enum StopBits {
    Zero = 0,
    One = 1,
    OneAndHalf = 2,
    Two = 3,
}

/// How a UART stops its peer (ACPI 6.5, 6.4.3.8.2.3, Flow Control).
#[derive(Copy, Clone, Debug, PartialEq)]
pub enum FlowControl {
    Absent = 0,
    Hardware = 1,
    XonXoff = 2,
}

/// The parity bit of a character (ACPI 6.5, 6.4.3.8.2.3, Parity).
#[derive(Copy, Clone, Debug, PartialEq)]
pub enum Parity {
    Absent = 0,
    Even = 1,
    Odd = 2,
    Mark = 3,
    Space = 4,
}

/// What a connection to a UART states (ACPI 6.5, 6.4.3.8.2.3). The rate is in bits a second, and the sizes of FIFOs in bytes.
/// `lines` has a bit for each line that is used: RTS at bit 7, CTS at 6, DTR at 5, DSR at 4, RI at 3 and DCD at 2.
#[derive(Copy, Clone, Debug, PartialEq)]
pub struct UartSettings {
    pub baud_rate: u32,
    pub data_bits: DataBits,
    pub stop_bits: StopBits,
    pub parity: Parity,
    pub flow_control: FlowControl,
    pub big_endian: bool,
    pub lines: u8,
    pub receive_fifo: u16,
    pub transmit_fifo: u16,
}

/// A connection to a UART (ACPI 6.5, 6.4.3.8.2.3, UART Serial Bus Connection Descriptor).
pub type UartSerialBus = VariableDescriptor<UartKind>;

/// The kind of `UartSerialBus`.
pub struct UartKind;

impl VariableDescriptor<UartKind> {
    /// The rate is at offset 12 of the descriptor, the sizes of the FIFOs at 16 and 18, the parity at 20, and the lines at 21.
    /// The data of the vendor is at 22. The name of the controller `source` and a zero follow. The error is `FieldWidth` if the
    /// length exceeds 65,535.
    pub fn new(
        alloc: Global,
        settings: UartSettings,
        flags: SerialFlags,
        source: &str,
        vendor: &[u8],
    ) -> R<VariableDescriptor<UartKind>>
        ensures { Builds result (uart settings flags vendor.now source.now) }
    {
        let bus = uart_bus(settings, flags);
        connection(alloc, bus, uart_data(settings), source, vendor)
    }
}

fn uart_bus(settings: UartSettings, flags: SerialFlags) -> Bus
    ensures { result ≡ uart_bus settings flags }
{
    let specific = settings.flow_control as u8
        + 4 * (settings.stop_bits as u8)
        + 16 * (settings.data_bits as u8)
        + bit(settings.big_endian, 0x80);
    Bus {
        bus: 3,
        general: flags,
        specific: u16::from(specific),
    }
}

fn uart_data(settings: UartSettings) -> [u8; 10]
    ensures { result ≡ fields_joined (uart_fields settings) }
{
    record_of_numbers(
        &UART,
        &[
            u64::from(settings.baud_rate),
            u64::from(settings.receive_fifo),
            u64::from(settings.transmit_fifo),
            settings.parity as u64,
            u64::from(settings.lines),
        ],
    )
}

const UART: [Row; 5] = [
    Row::Number("Default Baud Rate", 4),
    Row::Number("Rx FIFO", 2),
    Row::Number("Tx FIFO", 2),
    Row::OneOf(
        "Parity",
        1,
        &[
            Word(0, "None"),
            Word(1, "Even"),
            Word(2, "Odd"),
            Word(3, "Mark"),
            Word(4, "Space"),
        ],
    ),
    Row::Flags(
        "Serial Lines Enabled",
        1,
        &[
            Bits::Flag(0x80, "Request To Send"),
            Bits::Flag(0x40, "Clear To Send"),
            Bits::Flag(0x20, "Data Terminal Ready"),
            Bits::Flag(0x10, "Data Set Ready"),
            Bits::Flag(0x08, "Ring Indicator"),
            Bits::Flag(0x04, "Data Carrier Detect"),
        ],
    ),
];

/// The rows of the fields of the data of a UART, in order.
pub fn uart_rows() -> &'static [Row]
    ensures { (settings : UartSettings) → AreRowsOf result.now (uart_fields settings) }
{
    &UART
}
