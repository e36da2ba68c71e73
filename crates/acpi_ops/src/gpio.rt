//! Connections to GPIO pins.

ghost use Rattle.std.specs.Prelude.{◌≡◌, ◌*◌, ℕ, true};
ghost use Rattle.acpi_base.specs.Fields.{AreRowsOf, fields_joined};
ghost use Rattle.acpi_base.specs.Object.{Builds};
ghost use Rattle.acpi_ops.specs.Gpio.{of_interrupt, of_io, gpio_head_fields, gpio};
ghost use Rattle.acpi_ops.specs.Parts.{parts_fit};
ghost use Rattle.acpi_ops.specs.declared.gpio.Settings.{Settings as GpioSettings};

use crate::descriptor::bit;
use crate::parts::{pins_bytes, pins_fit};
use crate::variable::VariableDescriptor;
use acpi_base::error::{Error, R};
use acpi_base::row::{Bits, Row, Word, record_of_numbers};
use std::alloc::Global;

/// When a pin interrupts (ACPI 6.5, 6.4.3.8.1, Interrupt Polarity).
#[derive(Copy, Clone, Debug, PartialEq)]
pub enum GpioPolarity {
    ActiveHigh = 0,
    ActiveLow = 1,
    ActiveBoth = 2,
}

/// What pins may be used for (ACPI 6.5, 6.4.3.8.1, IO Restriction).
#[derive(Copy, Clone, Debug, PartialEq)]
pub enum IoRestriction {
    InputAndOutput = 0,
    InputOnly = 1,
    OutputOnly = 2,
    /// Both, and the pins stay as they are when nothing uses them.
    InputAndOutputPreserved = 3,
}

/// The pull resistor of pins (ACPI 6.5, 6.4.3.8.1, Pin Configuration).
#[derive(Copy, Clone, Debug, PartialEq)]
pub enum PinConfig {
    Default = 0,
    PullUp = 1,
    PullDown = 2,
    PullNone = 3,
}

/// What a connection to pins that interrupt states. The timeout is in hundredths of a millisecond.
#[derive(Copy, Clone, Debug, PartialEq)]
pub struct GpioIntSettings {
    pub consumer: bool,
    pub edge_triggered: bool,
    pub polarity: GpioPolarity,
    pub shared: bool,
    pub wake: bool,
    pub pin_config: PinConfig,
    pub debounce_timeout: u16,
}

/// What a connection to pins for input and output states. The timeout is in hundredths of a millisecond, and the strength in
/// hundredths of a milliampere.
#[derive(Copy, Clone, Debug, PartialEq)]
pub struct GpioIoSettings {
    pub consumer: bool,
    pub shared: bool,
    pub restriction: IoRestriction,
    pub pin_config: PinConfig,
    pub debounce_timeout: u16,
    pub drive_strength: u16,
}

/// What both connections state.
#[derive(Copy, Clone)]
struct Settings {
    connection: u8,
    consumer: bool,
    flags: u16,
    pin_config: PinConfig,
    drive_strength: u16,
    debounce_timeout: u16,
}

/// A connection to pins that interrupt (ACPI 6.5, 6.4.3.8.1, GPIO Connection Descriptor of type 0).
pub type GpioInt = VariableDescriptor<GpioIntKind>;

/// The kind of `GpioInt`.
pub struct GpioIntKind;

impl VariableDescriptor<GpioIntKind> {
    /// The flags at offset 7 of the descriptor are edge triggered at bit 0, the polarity at 1, shared at 3, and whether the pins
    /// can wake the system at 4. The pins are at 23, two bytes each. The name of their controller `source` and a zero follow, and
    /// then the data of the vendor. The error is `FieldWidth` if the offset of the vendor's data or the length exceeds 65,535.
    pub fn new(
        alloc: Global,
        settings: GpioIntSettings,
        pins: &[u16],
        source: &str,
        vendor: &[u8],
    ) -> R<VariableDescriptor<GpioIntKind>>
        ensures { Builds result (gpio (of_interrupt settings) pins.now source.now vendor.now) }
    {
        connection(alloc, of_interrupt(settings), pins, source, vendor)
    }
}

/// A connection to pins for input and output (ACPI 6.5, 6.4.3.8.1, GPIO Connection Descriptor of type 1).
pub type GpioIo = VariableDescriptor<GpioIoKind>;

/// The kind of `GpioIo`.
pub struct GpioIoKind;

impl VariableDescriptor<GpioIoKind> {
    /// The flags at offset 7 of the descriptor are the restriction at bit 0, and shared at 3. The pins are at 23, two bytes each.
    /// The name of their controller `source` and a zero follow, and then the data of the vendor. The error is `FieldWidth` if the
    /// offset of the vendor's data or the length exceeds 65,535.
    pub fn new(
        alloc: Global,
        settings: GpioIoSettings,
        pins: &[u16],
        source: &str,
        vendor: &[u8],
    ) -> R<VariableDescriptor<GpioIoKind>>
        ensures { Builds result (gpio (of_io settings) pins.now source.now vendor.now) }
    {
        connection(alloc, of_io(settings), pins, source, vendor)
    }
}

fn of_interrupt(settings: GpioIntSettings) -> Settings
    ensures { result ≡ of_interrupt settings }
{
    let flags = bit(settings.edge_triggered, 0x01)
        + 2 * (settings.polarity as u8)
        + bit(settings.shared, 0x08)
        + bit(settings.wake, 0x10);
    Settings {
        connection: 0,
        consumer: settings.consumer,
        flags: u16::from(flags),
        pin_config: settings.pin_config,
        drive_strength: 0,
        debounce_timeout: settings.debounce_timeout,
    }
}

fn of_io(settings: GpioIoSettings) -> Settings
    ensures { result ≡ of_io settings }
{
    let flags = settings.restriction as u8 + bit(settings.shared, 0x08);
    Settings {
        connection: 1,
        consumer: settings.consumer,
        flags: u16::from(flags),
        pin_config: settings.pin_config,
        drive_strength: settings.drive_strength,
        debounce_timeout: settings.debounce_timeout,
    }
}

#[tactic(auto, using(crate::proofs::Built::built))]
fn connection<Kind>(
    alloc: Global,
    settings: Settings,
    pins: &[u16],
    source: &str,
    vendor: &[u8],
) -> R<VariableDescriptor<Kind>>
    ensures { Builds result (gpio settings pins.now source.now vendor.now) }
{
    let (pin_count, source_size) = (pins.len(), source.len());
    if !pins_fit(23, pin_count, source_size, vendor.len()) {
        return Err(Error::FieldWidth);
    }
    let list = pins_bytes(alloc, pins)?;
    let head = head(&settings, pin_count, source_size, vendor.len());
    VariableDescriptor::of(alloc, &[&head, &list, source.as_bytes(), &[0], vendor])
}

// The descriptor before its pins.
fn head(settings: &Settings, pins: usize, source: usize, vendor: usize) -> [u8; 23]
    requires { parts_fit 23 (2 * pins) source vendor ≡ true }
    ensures { result ≡ fields_joined (gpio_head_fields settings.now pins source vendor) }
{
    let source_at = 23 + 2 * pins as u64;
    let vendor_at = source_at + source as u64 + 1;
    record_of_numbers(
        &GPIO_HEAD,
        &[
            0x8c,
            vendor_at + vendor as u64 - 3,
            1,
            u64::from(settings.connection),
            u64::from(bit(settings.consumer, 1)),
            u64::from(settings.flags),
            settings.pin_config as u64,
            u64::from(settings.drive_strength),
            u64::from(settings.debounce_timeout),
            23,
            0,
            source_at,
            vendor_at,
            vendor as u64,
        ],
    )
}

/// The numbers of pull resistors.
pub(crate) const PIN_CONFIGS: [Word; 4] = [
    Word(0, "Default"),
    Word(1, "Pull-up"),
    Word(2, "Pull-down"),
    Word(3, "No Pull"),
];

const GPIO_HEAD: [Row; 14] = [
    Row::Preset("GPIO Connection Descriptor", 1, 0x8c),
    Row::Number("Length", 2),
    Row::Preset("Revision ID", 1, 1),
    Row::OneOf(
        "GPIO Connection Type",
        1,
        &[Word(0, "Interrupt Connection"), Word(1, "IO Connection")],
    ),
    Row::Flags(
        "General Flags",
        2,
        &[Bits::OneOf(0x1, &[Word(0x0, "Producer"), Word(0x1, "Consumer")])],
    ),
    Row::Hex("Interrupt and IO Flags", 2),
    Row::OneOf("Pin Configuration", 1, &PIN_CONFIGS),
    Row::Number("Output Drive Strength", 2),
    Row::Number("Debounce Timeout", 2),
    Row::Preset("Pin Table Offset", 2, 23),
    Row::Preset("Resource Source Index", 1, 0),
    Row::Number("Resource Source Name Offset", 2),
    Row::Number("Vendor Data Offset", 2),
    Row::Number("Vendor Data Length", 2),
];

/// The rows of the fields of a descriptor of a connection to pins, before the pins, in order.
pub fn gpio_head_rows() -> &'static [Row]
    ensures { (settings : GpioSettings) (pins source vendor : ℕ)
        → AreRowsOf result.now (gpio_head_fields settings pins source vendor) }
{
    &GPIO_HEAD
}
