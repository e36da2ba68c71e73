//! Strings of AML (ACPI 6.5, 20.2.3, String).

ghost use Rattle.std.specs.Prelude.{string_bytes, OnOk, IfErr};
ghost use Rattle.acpi_base.specs.Object.{whole, whole_ends_well, Wrote, WriteRefused};
ghost use Rattle.acpi_base.specs.Text.{text};

use crate::error::R;
use crate::object::Aml;
use crate::parts::write_parts;
use crate::sink::AmlSink;

pub type AmlStr = &'static str;

pub type AmlString = String;

/// A string: StringPrefix, its bytes and a zero. A string of the standard has bytes from 01 to 7F only.
impl Aml for &str {
    ghost object = { λ s. whole (text s.now) };

    ghost ends_well = { λ s. whole_ends_well (text s.now) };

    fn to_aml_bytes(&self, sink: &mut dyn AmlSink) -> R<()> {
        write_text(self, sink)
    }
}

/// A string: StringPrefix, its bytes and a zero.
impl Aml for String {
    ghost object = { λ s. whole (text (string_bytes s)) };

    ghost ends_well = { λ s. whole_ends_well (text (string_bytes s)) };

    fn to_aml_bytes(&self, sink: &mut dyn AmlSink) -> R<()> {
        write_text(self.as_str(), sink)
    }
}

// Writes StringPrefix, the bytes of a text, and a zero.
fn write_text(s: &str, sink: &mut dyn AmlSink) -> R<()>
    ensures ok { OnOk result (Wrote (whole (text s.now)) (meaning sink.old) (meaning sink.new)) }
    ensures err { IfErr result (λ e. WriteRefused e (whole (text s.now)) (meaning sink.old) (meaning sink.new)) }
{
    write_parts(sink, &[&[0x0d], s.as_bytes(), &[0]])
}
