//! EISA ids.

ghost use Rattle.std.specs.Prelude.{◌≡◌, ◌<◌, ◌≤◌, ◌^◌, ℕ, IfOk, IfErr, Some, None};
ghost use Rattle.acpi_base.specs.Number.{number};
ghost use Rattle.acpi_base.specs.Object.{whole, whole_ends_well};
ghost use Rattle.acpi_aml.specs.Eisa.{packed, eisa_value};

use crate::hex::byte_of_digits;
use acpi_base::error::{Error, R};
use acpi_base::object::Aml;
use acpi_base::sink::AmlSink;
use std::marker::Model;

/// A device's EISA id, which has three letters for its maker and four digits, as a number of 32 bits (ACPI 6.5, 19.3.4).
#[derive(Drop)]
pub struct EISAName {
    pub(crate) value: u32,
}

impl Model for EISAName {
    ghost Value = { ℕ };

    ghost view = { λ e. e.value };

    ghost invariant = { λ e. e.value < 2 ^ 32 };
}

impl Aml for EISAName {
    ghost object = { λ e. whole (number e) };

    ghost ends_well = { λ e. whole_ends_well (number e) };

    fn to_aml_bytes(&self, sink: &mut dyn AmlSink) -> R<()> {
        self.value.to_aml_bytes(sink)
    }
}

impl EISAName {
    /// The id of a text: three letters from `A` to `Z` and four hexadecimal digits. The digits may be upper or lower case. The
    /// error is `EisaText` for any other text.
    pub fn new(name: &str) -> R<EISAName>
        ensures ok { IfOk result (λ e. eisa_value name.now ≡ Some e) }
        ensures range { IfOk result (λ e. e < 2 ^ 32) }
        ensures err { IfErr result (λ e. (e ≡ Error.EisaText) × (eisa_value name.now ≡ None)) }
    {
        match eisa(name.as_bytes()) {
            Some(value) => Ok(EISAName { value }),
            None => Err(Error::EisaText),
        }
    }
}

fn eisa(text: &[u8]) -> Option<u32>
    ensures { result ≡ eisa_value text.now }
{
    let [a, b, c, d, e, f, g] = text else {
        return None;
    };
    if !(a.is_ascii_uppercase() && b.is_ascii_uppercase() && c.is_ascii_uppercase()) {
        return None;
    }
    let high = byte_of_digits(*d, *e)?;
    let low = byte_of_digits(*f, *g)?;
    Some(packed(*a, *b, *c, high, low).swap_bytes())
}

// Three letters at bits 26, 21 and 16, and two bytes below.
fn packed(a: u8, b: u8, c: u8, high: u8, low: u8) -> u32
    requires a { (0x40 ≤ a) × (a ≤ 0x5a) }
    requires b { (0x40 ≤ b) × (b ≤ 0x5a) }
    requires c { (0x40 ≤ c) × (c ≤ 0x5a) }
    ensures { result ≡ packed a b c high low }
{
    u32::from(a - 64) * 0x400_0000
        + u32::from(b - 64) * 0x20_0000
        + u32::from(c - 64) * 0x1_0000
        + u32::from(high) * 0x100
        + u32::from(low)
}
