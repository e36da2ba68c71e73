//! Clock inputs.

ghost use Rattle.std.specs.Prelude.{◌≡◌, ◌+◌, ◌≤◌, ℕ};
ghost use Rattle.acpi_base.specs.Fields.{AreRowsOf, fields_joined};
ghost use Rattle.acpi_base.specs.Object.{Builds};
ghost use Rattle.acpi_ops.specs.Clock.{clock_flags, clock_fields, clock_bytes, clock_from};
ghost use Rattle.acpi_ops.specs.declared.clock.ClockSettings.{ClockSettings as SomeSettings};

use crate::descriptor::{Descriptor, bit};
use crate::variable::VariableDescriptor;
use acpi_base::error::{Error, R};
use acpi_base::row::{Bits, Row, Word, record_of_numbers};
use std::alloc::Global;

/// The unit of a clock's frequency (ACPI 6.5, 6.4.3.14, Scale).
#[derive(Copy, Clone, Debug, PartialEq)]
pub enum ClockScale {
    Hertz = 0,
    Kilohertz = 1,
    Megahertz = 2,
}

/// What a clock input states (ACPI 6.5, 6.4.3.14). The frequency is the numerator divided by the divisor, in the unit.
#[derive(Copy, Clone, Debug, PartialEq)]
pub struct ClockSettings {
    /// The frequency can change.
    pub variable: bool,
    pub scale: ClockScale,
    pub numerator: u32,
    pub divisor: u16,
}

impl ClockSettings {
    fn flags(self) -> u8
        ensures { result ≡ clock_flags self }
    {
        bit(self.variable, 0x1) + 2 * (self.scale as u8)
    }
}

/// A clock input of a device (ACPI 6.5, 6.4.3.14, Clock Input Resource Descriptor).
pub type ClockInput = Descriptor<ClockInputKind, 12>;

/// The kind of `ClockInput`.
pub struct ClockInputKind;

impl Descriptor<ClockInputKind, 12> {
    /// The flags are at offset 4 of the descriptor, the divisor of the frequency at 6, and its numerator at 8.
    pub fn new(settings: ClockSettings) -> Descriptor<ClockInputKind, 12>
        ensures { result ≡ clock_bytes settings }
    {
        Descriptor::of(
            &CLOCK_INPUT,
            &[
                0x93,
                9,
                1,
                u64::from(settings.flags()),
                u64::from(settings.divisor),
                u64::from(settings.numerator),
            ],
        )
    }
}

/// A clock input that another device provides (ACPI 6.5, 6.4.3.14, Clock Input Resource Descriptor).
pub type ClockInputFrom = VariableDescriptor<ClockInputFromKind>;

/// The kind of `ClockInputFrom`.
pub struct ClockInputFromKind;

impl VariableDescriptor<ClockInputFromKind> {
    /// The offsets are those of `ClockInput`. The index of the clock at its provider is at 12. The provider's name `source` and a
    /// zero follow. The error is `FieldWidth` if the length exceeds 65,535.
    #[tactic(auto, using(crate::proofs::Built::built))]
    pub fn new(
        alloc: Global,
        settings: ClockSettings,
        index: u8,
        source: &str,
    ) -> R<VariableDescriptor<ClockInputFromKind>>
        ensures { Builds result (clock_from settings index source.now) }
    {
        if source.len() > 65_524 {
            return Err(Error::FieldWidth);
        }
        let head = head(settings, 2 + source.len());
        VariableDescriptor::of(alloc, &[&head, &[index], source.as_bytes(), &[0]])
    }
}

// The descriptor before its resource source.
fn head(settings: ClockSettings, more: usize) -> [u8; 12]
    requires { 9 + more ≤ 65535 }
    ensures { result ≡ fields_joined (clock_fields settings more) }
{
    record_of_numbers(
        &CLOCK_INPUT,
        &[
            0x93,
            9 + more as u64,
            1,
            u64::from(settings.flags()),
            u64::from(settings.divisor),
            u64::from(settings.numerator),
        ],
    )
}

const CLOCK_INPUT: [Row; 6] = [
    Row::Preset("Clock Input Descriptor", 1, 0x93),
    Row::Number("Length", 2),
    Row::Preset("Revision ID", 1, 1),
    Row::Flags(
        "Flags",
        2,
        &[
            Bits::OneOf(0x1, &[Word(0x0, "Fixed"), Word(0x1, "Variable")]),
            Bits::OneOf(0x6, &[Word(0x0, "Hz"), Word(0x2, "kHz"), Word(0x4, "MHz")]),
        ],
    ),
    Row::Number("Frequency Divisor", 2),
    Row::Number("Frequency Numerator", 4),
];

/// The rows of the fields of a descriptor of a clock input, before a resource source, in order.
pub fn clock_input_rows() -> &'static [Row]
    ensures { (settings : SomeSettings) (more : ℕ) → AreRowsOf result.now (clock_fields settings more) }
{
    &CLOCK_INPUT
}
