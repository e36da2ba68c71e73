//! Functions, configurations and groups of pins.

ghost use Rattle.std.specs.Prelude.{◌≡◌, ◌+◌, ◌*◌, ℕ, Bool, true};
ghost use Rattle.acpi_base.specs.Fields.{AreRowsOf, fields_joined};
ghost use Rattle.acpi_base.specs.Object.{Builds};
ghost use Rattle.acpi_ops.specs.Parts.{parts_fit};
ghost use Rattle.acpi_ops.specs.Pins.{setting_number, use_flags, function_fields, function, configuration_fields, configuration};
ghost use Rattle.acpi_ops.specs.Pins.{group_fields, group, group_function_fields, group_function};
ghost use Rattle.acpi_ops.specs.Pins.{group_configuration_fields, group_configuration};
ghost use Rattle.acpi_ops.specs.declared.gpio.PinConfig.{PinConfig as PullConfig};
ghost use Rattle.acpi_ops.specs.declared.pins.PinSetting.{PinSetting as SomeSetting};
ghost use Rattle.acpi_ops.specs.declared.pins.PinUse.{PinUse as SomeUse};

use crate::descriptor::bit;
use crate::gpio::{PIN_CONFIGS, PinConfig};
use crate::parts::{parts_fit, pins_bytes, pins_fit};
use crate::variable::VariableDescriptor;
use acpi_base::error::{Error, R};
use acpi_base::row::{Bits, Row, Word, record_of_numbers};
use std::alloc::Global;

/// What is set of pins (ACPI 6.5, 6.4.3.10, Pin Configuration Type).
#[derive(Copy, Clone, Debug, PartialEq)]
pub enum PinSetting {
    Default,
    BiasPullUp,
    BiasPullDown,
    BiasDefault,
    BiasDisable,
    BiasHighImpedance,
    BiasBusHold,
    DriveOpenDrain,
    DriveOpenSource,
    DrivePushPull,
    DriveStrength,
    SlewRate,
    InputDebounce,
    InputSchmittTrigger,
    /// The number of another type. Those of vendors are from 0x80 on.
    Other(u8),
}

impl PinSetting {
    fn number(self) -> u8
        ensures { result ≡ setting_number self }
    {
        match self {
            PinSetting::Default => 0x00,
            PinSetting::BiasPullUp => 0x01,
            PinSetting::BiasPullDown => 0x02,
            PinSetting::BiasDefault => 0x03,
            PinSetting::BiasDisable => 0x04,
            PinSetting::BiasHighImpedance => 0x05,
            PinSetting::BiasBusHold => 0x06,
            PinSetting::DriveOpenDrain => 0x07,
            PinSetting::DriveOpenSource => 0x08,
            PinSetting::DrivePushPull => 0x09,
            PinSetting::DriveStrength => 0x0a,
            PinSetting::SlewRate => 0x0b,
            PinSetting::InputDebounce => 0x0c,
            PinSetting::InputSchmittTrigger => 0x0d,
            PinSetting::Other(number) => number,
        }
    }
}

/// How a device uses pins (ACPI 6.5, 6.4.3.10, Flags), from bit 0 on in this order.
#[derive(Copy, Clone, Debug, PartialEq)]
pub struct PinUse {
    pub shared: bool,
    /// The device uses the pins, and doesn't provide them for others.
    pub consumer: bool,
}

impl PinUse {
    fn flags(self) -> u8
        ensures { result ≡ use_flags self }
    {
        bit(self.shared, 0x01) + bit(self.consumer, 0x02)
    }
}

const SETTINGS: [Word; 14] = [
    Word(0x00, "Default"),
    Word(0x01, "Bias Pull-up"),
    Word(0x02, "Bias Pull-down"),
    Word(0x03, "Bias Default"),
    Word(0x04, "Bias Disable"),
    Word(0x05, "Bias High Impedance"),
    Word(0x06, "Bias Bus Hold"),
    Word(0x07, "Drive Open Drain"),
    Word(0x08, "Drive Open Source"),
    Word(0x09, "Drive Push Pull"),
    Word(0x0a, "Drive Strength"),
    Word(0x0b, "Slew Rate"),
    Word(0x0c, "Input Debounce"),
    Word(0x0d, "Input Schmitt Trigger"),
];

const USE_BITS: [Bits; 2] = [
    Bits::OneOf(0x1, &[Word(0x0, "Exclusive"), Word(0x1, "Shared")]),
    Bits::OneOf(0x2, &[Word(0x0, "Producer"), Word(0x2, "Consumer")]),
];

// ---- functions

/// The function of pins (ACPI 6.5, 6.4.3.9, Pin Function Descriptor).
pub type PinFunction = VariableDescriptor<PinFunctionKind>;

/// The kind of `PinFunction`.
pub struct PinFunctionKind;

impl VariableDescriptor<PinFunctionKind> {
    /// Whether the pins are shared is at offset 4 of the descriptor, the pull resistor at 6, and the number of the function at 7.
    /// The pins are at 18, two bytes each. The name of their controller `source` and a zero follow, and then the data of the
    /// vendor. The error is `FieldWidth` if the offset of the vendor's data or the length exceeds 65,535.
    #[tactic(auto, using(crate::proofs::Built::built))]
    pub fn new(
        alloc: Global,
        shared: bool,
        config: PinConfig,
        number: u16,
        pins: &[u16],
        source: &str,
        vendor: &[u8],
    ) -> R<VariableDescriptor<PinFunctionKind>>
        ensures { Builds result (function shared config number pins.now source.now vendor.now) }
    {
        let (count, size) = (pins.len(), source.len());
        if !pins_fit(18, count, size, vendor.len()) {
            return Err(Error::FieldWidth);
        }
        let list = pins_bytes(alloc, pins)?;
        let head = function_head(shared, config, number, count, size, vendor.len());
        VariableDescriptor::of(alloc, &[&head, &list, source.as_bytes(), &[0], vendor])
    }
}

// The descriptor before its pins.
fn function_head(
    shared: bool,
    config: PinConfig,
    number: u16,
    pins: usize,
    source: usize,
    vendor: usize,
) -> [u8; 18]
    requires { parts_fit 18 (2 * pins) source vendor ≡ true }
    ensures { result ≡ fields_joined (function_fields shared config number pins source vendor) }
{
    let source_at = 18 + 2 * pins as u64;
    let vendor_at = source_at + source as u64 + 1;
    record_of_numbers(
        &FUNCTION_HEAD,
        &[
            0x8d,
            vendor_at + vendor as u64 - 3,
            1,
            u64::from(bit(shared, 0x01)),
            config as u64,
            u64::from(number),
            18,
            0,
            source_at,
            vendor_at,
            vendor as u64,
        ],
    )
}

const FUNCTION_HEAD: [Row; 11] = [
    Row::Preset("Pin Function Descriptor", 1, 0x8d),
    Row::Number("Length", 2),
    Row::Preset("Revision ID", 1, 1),
    Row::Flags(
        "Flags",
        2,
        &[Bits::OneOf(0x1, &[Word(0x0, "Exclusive"), Word(0x1, "Shared")])],
    ),
    Row::OneOf("Pin Pull Configuration", 1, &PIN_CONFIGS),
    Row::Number("Function Number", 2),
    Row::Preset("Pin Table Offset", 2, 18),
    Row::Preset("Resource Source Index", 1, 0),
    Row::Number("Resource Source Name Offset", 2),
    Row::Number("Vendor Data Offset", 2),
    Row::Number("Vendor Data Length", 2),
];

/// The rows of the fields of a descriptor of a function, before the pins, in order.
pub fn function_head_rows() -> &'static [Row]
    ensures { (shared : Bool) (config : PullConfig) (number pins source vendor : ℕ)
        → AreRowsOf result.now (function_fields shared config number pins source vendor) }
{
    &FUNCTION_HEAD
}

// ---- configurations

/// The configuration of pins (ACPI 6.5, 6.4.3.10, Pin Configuration Descriptor).
pub type PinConfiguration = VariableDescriptor<PinConfigurationKind>;

/// The kind of `PinConfiguration`.
pub struct PinConfigurationKind;

impl VariableDescriptor<PinConfigurationKind> {
    /// The flags are at offset 4 of the descriptor, the type of the configuration at 6, and its value at 7. The pins are at 20,
    /// two bytes each. The name of their controller `source` and a zero follow, and then the data of the vendor. The error is
    /// `FieldWidth` if the offset of the vendor's data or the length exceeds 65,535.
    #[tactic(auto, using(crate::proofs::Built::built))]
    pub fn new(
        alloc: Global,
        pin_use: PinUse,
        setting: PinSetting,
        value: u32,
        pins: &[u16],
        source: &str,
        vendor: &[u8],
    ) -> R<VariableDescriptor<PinConfigurationKind>>
        ensures { Builds result (configuration pin_use setting value pins.now source.now vendor.now) }
    {
        let (count, size) = (pins.len(), source.len());
        if !pins_fit(20, count, size, vendor.len()) {
            return Err(Error::FieldWidth);
        }
        let list = pins_bytes(alloc, pins)?;
        let head = configuration_head(pin_use, setting, value, count, size, vendor.len());
        VariableDescriptor::of(alloc, &[&head, &list, source.as_bytes(), &[0], vendor])
    }
}

// The descriptor before its pins.
fn configuration_head(
    pin_use: PinUse,
    setting: PinSetting,
    value: u32,
    pins: usize,
    source: usize,
    vendor: usize,
) -> [u8; 20]
    requires { parts_fit 20 (2 * pins) source vendor ≡ true }
    ensures { result ≡ fields_joined (configuration_fields pin_use setting value pins source vendor) }
{
    let source_at = 20 + 2 * pins as u64;
    let vendor_at = source_at + source as u64 + 1;
    record_of_numbers(
        &CONFIGURATION_HEAD,
        &[
            0x8f,
            vendor_at + vendor as u64 - 3,
            1,
            u64::from(pin_use.flags()),
            u64::from(setting.number()),
            u64::from(value),
            20,
            0,
            source_at,
            vendor_at,
            vendor as u64,
        ],
    )
}

const CONFIGURATION_HEAD: [Row; 11] = [
    Row::Preset("Pin Configuration Descriptor", 1, 0x8f),
    Row::Number("Length", 2),
    Row::Preset("Revision ID", 1, 1),
    Row::Flags("Flags", 2, &USE_BITS),
    Row::OneOf("Pin Configuration Type", 1, &SETTINGS),
    Row::Number("Pin Configuration Value", 4),
    Row::Preset("Pin Table Offset", 2, 20),
    Row::Preset("Resource Source Index", 1, 0),
    Row::Number("Resource Source Name Offset", 2),
    Row::Number("Vendor Data Offset", 2),
    Row::Number("Vendor Data Length", 2),
];

/// The rows of the fields of a descriptor of a configuration, before the pins, in order.
pub fn configuration_head_rows() -> &'static [Row]
    ensures { (u : SomeUse) (setting : SomeSetting) (value pins source vendor : ℕ)
        → AreRowsOf result.now (configuration_fields u setting value pins source vendor) }
{
    &CONFIGURATION_HEAD
}

// ---- groups

/// A group of pins (ACPI 6.5, 6.4.3.11, Pin Group Descriptor).
pub type PinGroup = VariableDescriptor<PinGroupKind>;

/// The kind of `PinGroup`.
pub struct PinGroupKind;

impl VariableDescriptor<PinGroupKind> {
    /// Whether the device uses the pins is at offset 4 of the descriptor. The pins are at 14, two bytes each. The group's `label`
    /// and a zero follow, and then the data of the vendor. The error is `FieldWidth` if the offset of the vendor's data or the
    /// length exceeds 65,535.
    #[tactic(auto, using(crate::proofs::Built::built))]
    pub fn new(
        alloc: Global,
        consumer: bool,
        pins: &[u16],
        label: &str,
        vendor: &[u8],
    ) -> R<VariableDescriptor<PinGroupKind>>
        ensures { Builds result (group consumer pins.now label.now vendor.now) }
    {
        let (count, size) = (pins.len(), label.len());
        if !pins_fit(14, count, size, vendor.len()) {
            return Err(Error::FieldWidth);
        }
        let list = pins_bytes(alloc, pins)?;
        let head = group_head(consumer, count, size, vendor.len());
        VariableDescriptor::of(alloc, &[&head, &list, label.as_bytes(), &[0], vendor])
    }
}

// The descriptor before its pins.
fn group_head(consumer: bool, pins: usize, label: usize, vendor: usize) -> [u8; 14]
    requires { parts_fit 14 (2 * pins) label vendor ≡ true }
    ensures { result ≡ fields_joined (group_fields consumer pins label vendor) }
{
    let label_at = 14 + 2 * pins as u64;
    let vendor_at = label_at + label as u64 + 1;
    record_of_numbers(
        &GROUP_HEAD,
        &[
            0x90,
            vendor_at + vendor as u64 - 3,
            1,
            u64::from(bit(consumer, 0x01)),
            14,
            label_at,
            vendor_at,
            vendor as u64,
        ],
    )
}

const GROUP_HEAD: [Row; 8] = [
    Row::Preset("Pin Group Descriptor", 1, 0x90),
    Row::Number("Length", 2),
    Row::Preset("Revision ID", 1, 1),
    Row::Flags(
        "Flags",
        2,
        &[Bits::OneOf(0x1, &[Word(0x0, "Producer"), Word(0x1, "Consumer")])],
    ),
    Row::Preset("Pin Table Offset", 2, 14),
    Row::Number("Resource Source Label Offset", 2),
    Row::Number("Vendor Data Offset", 2),
    Row::Number("Vendor Data Length", 2),
];

/// The rows of the fields of a descriptor of a group, before the pins, in order.
pub fn group_head_rows() -> &'static [Row]
    ensures { (consumer : Bool) (pins label vendor : ℕ) → AreRowsOf result.now (group_fields consumer pins label vendor) }
{
    &GROUP_HEAD
}

/// The function of a group of pins (ACPI 6.5, 6.4.3.12, Pin Group Function Descriptor).
pub type PinGroupFunction = VariableDescriptor<PinGroupFunctionKind>;

/// The kind of `PinGroupFunction`.
pub struct PinGroupFunctionKind;

impl VariableDescriptor<PinGroupFunctionKind> {
    /// The flags are at offset 4 of the descriptor, and the number of the function at 6. The name of the group's controller
    /// `source` and a zero are at 17. The group's `label` and a zero follow, and then the data of the vendor. The error is
    /// `FieldWidth` if the offset of the vendor's data or the length exceeds 65,535.
    #[tactic(auto, using(crate::proofs::Built::built))]
    pub fn new<'a>(
        alloc: Global,
        pin_use: PinUse,
        number: u16,
        source: &'a str,
        label: &'a str,
        vendor: &'a [u8],
    ) -> R<VariableDescriptor<PinGroupFunctionKind>>
        ensures { Builds result (group_function pin_use number source.now label.now vendor.now) }
    {
        let (source_size, size) = (source.len(), label.len());
        if source_size > 0xffff || !parts_fit(17, source_size + 1, size, vendor.len()) {
            return Err(Error::FieldWidth);
        }
        let head = group_function_head(pin_use, number, source_size, size, vendor.len());
        let (source, label) = (source.as_bytes(), label.as_bytes());
        VariableDescriptor::of(alloc, &[&head, source, &[0], label, &[0], vendor])
    }
}

// The descriptor before its names.
fn group_function_head(
    pin_use: PinUse,
    number: u16,
    source: usize,
    label: usize,
    vendor: usize,
) -> [u8; 17]
    requires { parts_fit 17 (source + 1) label vendor ≡ true }
    ensures { result ≡ fields_joined (group_function_fields pin_use number source label vendor) }
{
    let label_at = 17 + source as u64 + 1;
    let vendor_at = label_at + label as u64 + 1;
    record_of_numbers(
        &GROUP_FUNCTION_HEAD,
        &[
            0x91,
            vendor_at + vendor as u64 - 3,
            1,
            u64::from(pin_use.flags()),
            u64::from(number),
            0,
            17,
            label_at,
            vendor_at,
            vendor as u64,
        ],
    )
}

const GROUP_FUNCTION_HEAD: [Row; 10] = [
    Row::Preset("Pin Group Function Descriptor", 1, 0x91),
    Row::Number("Length", 2),
    Row::Preset("Revision ID", 1, 1),
    Row::Flags("Flags", 2, &USE_BITS),
    Row::Number("Function Number", 2),
    Row::Preset("Resource Source Index", 1, 0),
    Row::Preset("Resource Source Name Offset", 2, 17),
    Row::Number("Resource Source Label Offset", 2),
    Row::Number("Vendor Data Offset", 2),
    Row::Number("Vendor Data Length", 2),
];

/// The rows of the fields of a descriptor of a group's function, before the names, in order.
pub fn group_function_head_rows() -> &'static [Row]
    ensures { (u : SomeUse) (number source label vendor : ℕ)
        → AreRowsOf result.now (group_function_fields u number source label vendor) }
{
    &GROUP_FUNCTION_HEAD
}

/// The configuration of a group of pins (ACPI 6.5, 6.4.3.13, Pin Group Configuration Descriptor).
pub type PinGroupConfiguration = VariableDescriptor<PinGroupConfigurationKind>;

/// The kind of `PinGroupConfiguration`.
pub struct PinGroupConfigurationKind;

impl VariableDescriptor<PinGroupConfigurationKind> {
    /// The flags are at offset 4 of the descriptor, the type of the configuration at 6, and its value at 7. The name of the
    /// group's controller `source` and a zero are at 20. The group's `label` and a zero follow, and then the data of the vendor.
    /// The error is `FieldWidth` if the offset of the vendor's data or the length exceeds 65,535.
    #[tactic(auto, using(crate::proofs::Built::built))]
    pub fn new<'a>(
        alloc: Global,
        pin_use: PinUse,
        setting: PinSetting,
        value: u32,
        source: &'a str,
        label: &'a str,
        vendor: &'a [u8],
    ) -> R<VariableDescriptor<PinGroupConfigurationKind>>
        ensures { Builds result (group_configuration pin_use setting value source.now label.now vendor.now) }
    {
        let (source_size, size) = (source.len(), label.len());
        if source_size > 0xffff || !parts_fit(20, source_size + 1, size, vendor.len()) {
            return Err(Error::FieldWidth);
        }
        let head = group_configuration_head(
            pin_use,
            setting,
            value,
            source_size,
            size,
            vendor.len(),
        );
        let (source, label) = (source.as_bytes(), label.as_bytes());
        VariableDescriptor::of(alloc, &[&head, source, &[0], label, &[0], vendor])
    }
}

// The descriptor before its names.
fn group_configuration_head(
    pin_use: PinUse,
    setting: PinSetting,
    value: u32,
    source: usize,
    label: usize,
    vendor: usize,
) -> [u8; 20]
    requires { parts_fit 20 (source + 1) label vendor ≡ true }
    ensures { result ≡ fields_joined (group_configuration_fields pin_use setting value source label vendor) }
{
    let label_at = 20 + source as u64 + 1;
    let vendor_at = label_at + label as u64 + 1;
    record_of_numbers(
        &GROUP_CONFIGURATION_HEAD,
        &[
            0x92,
            vendor_at + vendor as u64 - 3,
            1,
            u64::from(pin_use.flags()),
            u64::from(setting.number()),
            u64::from(value),
            0,
            20,
            label_at,
            vendor_at,
            vendor as u64,
        ],
    )
}

const GROUP_CONFIGURATION_HEAD: [Row; 11] = [
    Row::Preset("Pin Group Configuration Descriptor", 1, 0x92),
    Row::Number("Length", 2),
    Row::Preset("Revision ID", 1, 1),
    Row::Flags("Flags", 2, &USE_BITS),
    Row::OneOf("Pin Configuration Type", 1, &SETTINGS),
    Row::Number("Pin Configuration Value", 4),
    Row::Preset("Resource Source Index", 1, 0),
    Row::Preset("Resource Source Name Offset", 2, 20),
    Row::Number("Resource Source Label Offset", 2),
    Row::Number("Vendor Data Offset", 2),
    Row::Number("Vendor Data Length", 2),
];

/// The rows of the fields of a descriptor of a group's configuration, before the names, in order.
pub fn group_configuration_head_rows() -> &'static [Row]
    ensures { (u : SomeUse) (setting : SomeSetting) (value source label vendor : ℕ)
        → AreRowsOf result.now (group_configuration_fields u setting value source label vendor) }
{
    &GROUP_CONFIGURATION_HEAD
}
