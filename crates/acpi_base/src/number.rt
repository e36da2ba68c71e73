//! Numbers of AML (ACPI 6.5, 20.2.3, ComputationalData).

ghost use Rattle.acpi_base.specs.Object.{whole, whole_ends_well};
ghost use Rattle.acpi_base.specs.Number.{number};

use crate::error::R;
use crate::object::Aml;
use crate::sink::AmlSink;

pub type Byte = u8;

pub type Word = u16;

pub type DWord = u32;

pub type QWord = u64;

pub type Usize = usize;

/// The shortest form. It depends on the value alone, and not on the type.
impl Aml for u8 {
    ghost object = { λ value. whole (number value) };

    ghost ends_well = { λ value. whole_ends_well (number value) };

    fn to_aml_bytes(&self, sink: &mut dyn AmlSink) -> R<()> {
        match *self {
            0 | 1 => sink.byte(*self),
            value => sink.vec(&[0x0a, value]),
        }
    }
}

/// The shortest form. It depends on the value alone, and not on the type.
impl Aml for u16 {
    ghost object = { λ value. whole (number value) };

    ghost ends_well = { λ value. whole_ends_well (number value) };

    fn to_aml_bytes(&self, sink: &mut dyn AmlSink) -> R<()> {
        if let Ok(byte) = u8::try_from(*self) {
            return byte.to_aml_bytes(sink);
        }
        let [a, b] = self.to_le_bytes();
        sink.vec(&[0x0b, a, b])
    }
}

/// The shortest form. It depends on the value alone, and not on the type.
impl Aml for u32 {
    ghost object = { λ value. whole (number value) };

    ghost ends_well = { λ value. whole_ends_well (number value) };

    fn to_aml_bytes(&self, sink: &mut dyn AmlSink) -> R<()> {
        if let Ok(word) = u16::try_from(*self) {
            return word.to_aml_bytes(sink);
        }
        let [a, b, c, d] = self.to_le_bytes();
        sink.vec(&[0x0c, a, b, c, d])
    }
}

/// The shortest form. It depends on the value alone, and not on the type.
impl Aml for u64 {
    ghost object = { λ value. whole (number value) };

    ghost ends_well = { λ value. whole_ends_well (number value) };

    fn to_aml_bytes(&self, sink: &mut dyn AmlSink) -> R<()> {
        if let Ok(dword) = u32::try_from(*self) {
            return dword.to_aml_bytes(sink);
        }
        let [a, b, c, d, e, f, g, h] = self.to_le_bytes();
        sink.vec(&[0x0e, a, b, c, d, e, f, g, h])
    }
}

/// The shortest form. It depends on the value alone, and not on the type.
impl Aml for usize {
    ghost object = { λ value. whole (number value) };

    ghost ends_well = { λ value. whole_ends_well (number value) };

    fn to_aml_bytes(&self, sink: &mut dyn AmlSink) -> R<()> {
        (*self as u64).to_aml_bytes(sink)
    }
}
