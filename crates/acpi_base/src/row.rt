//! Records whose fields are described by data.

ghost use Rattle.std.specs.Prelude.{◌≡◌, ◌≤◌, ◌<◌, ◌+◌, ◌^◌, List, length, IsTrue, OnOk, IfErr};
ghost use Rattle.acpi_base.specs.Bytes.{le, put};
ghost use Rattle.acpi_base.specs.Fields.{NamedField, fields_joined, row_name, row_width, AreRowsOf};
ghost use Rattle.acpi_base.specs.Fields.{numbers_joined, are_numbers, value_in, values_joined, Fits, AllFit};
ghost use Rattle.acpi_base.specs.Look.{look_of, row_look};
ghost use Rattle.acpi_base.specs.Object.{whole, Wrote, WriteRefused};

use crate::error::R;
use crate::patch::write_at;
use crate::sink::AmlSink;

/// A number with its name in the standard.
#[derive(Clone, Copy, Debug)]
pub struct Word(pub u64, pub &'static str);

/// Bits of a number that have a meaning of their own. Their mask has a one for each of these bits.
#[derive(Clone, Copy, Debug)]
pub enum Bits {
    /// A flag: its mask, and its name in the standard.
    Flag(u64, &'static str),
    /// Bits that stand for one of several things: their mask, and the words. The number of a word has these bits in their places,
    /// and zeros in all others.
    OneOf(u64, &'static [Word]),
    /// Bits that are a number of their own: their mask, the lowest bit of the mask, and the name in the standard.
    Number(u64, u64, &'static str),
}

/// A field of a record: its name in the standard, its width in bytes, and what its value is.
#[derive(Clone, Copy, Debug)]
pub enum Row {
    /// A number that counts or measures, lowest byte first (ACPI 6.5, 5.2).
    Number(&'static str, usize),
    /// A number that is an address, an id or a mask.
    Hex(&'static str, usize),
    /// A number that has one right value, as the type of a structure or its revision.
    Preset(&'static str, usize, u64),
    /// A number that is the offset of another structure.
    Reference(&'static str, usize),
    /// A number whose bits have meanings of their own.
    Flags(&'static str, usize, &'static [Bits]),
    /// A number that stands for one of several things. The words give the number and the name of each.
    OneOf(&'static str, usize, &'static [Word]),
    /// Bytes in their order.
    Bytes(&'static str, usize),
    /// Characters of ASCII, with zeros after them up to the width.
    Text(&'static str, usize),
    /// A universally unique id: 16 bytes.
    Uuid(&'static str),
    /// The address of a register: 12 bytes (ACPI 6.5, 5.2.3.2).
    Register(&'static str),
    /// Reserved bytes, which are zero.
    Reserved(usize),
}

/// What the value of a field is.
#[derive(Clone, Copy, Debug)]
pub enum Look {
    Number,
    Hex,
    Preset(u64),
    Reference,
    Flags(&'static [Bits]),
    OneOf(&'static [Word]),
    Bytes,
    Text,
    Uuid,
    Register,
    Reserved,
}

impl Row {
    /// The field's name in the standard.
    pub fn name(&self) -> &'static str
        ensures { result.now ≡ row_name self.now }
    {
        match *self {
            Row::Number(name, _)
            | Row::Hex(name, _)
            | Row::Preset(name, _, _)
            | Row::Reference(name, _)
            | Row::Flags(name, _, _)
            | Row::OneOf(name, _, _)
            | Row::Bytes(name, _)
            | Row::Text(name, _)
            | Row::Uuid(name)
            | Row::Register(name) => name,
            Row::Reserved(_) => "Reserved",
        }
    }

    /// The field's width in bytes.
    pub fn width(&self) -> usize
        ensures { result ≡ row_width self.now }
    {
        match *self {
            Row::Number(_, width)
            | Row::Hex(_, width)
            | Row::Preset(_, width, _)
            | Row::Reference(_, width)
            | Row::Flags(_, width, _)
            | Row::OneOf(_, width, _)
            | Row::Bytes(_, width)
            | Row::Text(_, width)
            | Row::Reserved(width) => width,
            Row::Uuid(_) => 16,
            Row::Register(_) => 12,
        }
    }

    /// What the field's value is.
    pub fn look(&self) -> Look
        ensures { look_of result ≡ row_look self.now }
    {
        match *self {
            Row::Number(_, _) => Look::Number,
            Row::Hex(_, _) => Look::Hex,
            Row::Preset(_, _, value) => Look::Preset(value),
            Row::Reference(_, _) => Look::Reference,
            Row::Flags(_, _, bits) => Look::Flags(bits),
            Row::OneOf(_, _, words) => Look::OneOf(words),
            Row::Bytes(_, _) => Look::Bytes,
            Row::Text(_, _) => Look::Text,
            Row::Uuid(_) => Look::Uuid,
            Row::Register(_) => Look::Register,
            Row::Reserved(_) => Look::Reserved,
        }
    }
}

/// A record of `N` bytes, with one row for each field.
pub trait Record<const N: usize> {
    ghost fields: { Self → List NamedField };

    /// The names and widths of the record's fields, and what their values are, in order.
    fn rows() -> &'static [Row]
        ensures { (record_value : Self) → AreRowsOf result.now (fields record_value) };

    /// The record's bytes.
    fn bytes(&self) -> [u8; N]
        ensures { result ≡ fields_joined (fields self.now) };
}

/// Writes a record's bytes to a sink.
pub fn write_record<const N: usize, T: Record<N>>(value: &T, sink: &mut dyn AmlSink) -> R<()>
    requires size { N < 2 ^ 63 }
    ensures ok { OnOk result (Wrote (whole (fields_joined (T.fields value.now))) (meaning sink.old) (meaning sink.new)) }
    ensures err { IfErr result
        (λ e. WriteRefused e (whole (fields_joined (T.fields value.now))) (meaning sink.old) (meaning sink.new)) }
{
    sink.vec(&value.bytes())
}

/// The bytes of a record of numbers. Each number has the width of its row, lowest byte first.
#[inline(always)]
pub fn record_of_numbers<const N: usize>(rows: &[Row], numbers: &[u64]) -> [u8; N]
    requires count { length rows.now ≡ length numbers.now }
    requires numbers { IsTrue (are_numbers rows.now) }
    requires size { length (numbers_joined rows.now numbers.now) ≡ N }
    ensures { result ≡ numbers_joined rows.now numbers.now }
{
    let mut bytes = [0; N];
    let mut at = 0;
    for i in 0..rows.len() {
        let width = rows[i].width();
        write_number(&mut bytes, at, width, numbers[i]);
        at += width;
    }
    bytes
}

/// The value of a record's field: a number, or bytes.
#[derive(Clone, Copy)]
pub enum Value<'a> {
    Number(u64),
    Bytes(&'a [u8]),
}

/// The bytes of a record of numbers and bytes. Each value has the width of its row.
pub fn record_of<const N: usize>(rows: &[Row], values: &[Value]) -> [u8; N]
    requires count { length rows.now ≡ length values.now }
    requires fit { AllFit rows.now values.now }
    requires size { length (values_joined rows.now values.now) ≡ N }
    ensures { result ≡ values_joined rows.now values.now }
{
    let mut bytes = [0; N];
    let mut at = 0;
    for i in 0..rows.len() {
        let width = rows[i].width();
        write_value(&mut bytes, at, width, values[i]);
        at += width;
    }
    bytes
}

// Writes the lowest `width` bytes of a number at an offset, lowest first.
fn write_number(bytes: &mut [u8], at: usize, width: usize, number: u64)
    requires narrow { width ≤ 8 }
    requires within { at + width ≤ length bytes.old }
    ensures { bytes.new ≡ put at (le width number) bytes.old }
{
    write_at(bytes, at, &number.to_le_bytes()[..width]);
}

fn write_value(bytes: &mut [u8], at: usize, width: usize, value: Value)
    requires fits { Fits width value }
    requires within { at + width ≤ length bytes.old }
    ensures { bytes.new ≡ put at (value_in width value.entry) bytes.old }
{
    match value {
        Value::Number(number) => write_number(bytes, at, width, number),
        Value::Bytes(field) => write_at(bytes, at, field),
    }
}
