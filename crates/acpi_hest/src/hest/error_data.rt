//! Entries of error status blocks. Each entry describes one error.

ghost use Rattle.std.specs.Prelude.{◌≡◌, ◌≤◌, ◌^◌, ◌⊎◌, ◌++◌, ◌∷◌, [], length, map, min, None, OnOk, OnErr, IfOk, IfErr};
ghost use Rattle.acpi_base.specs.Fields.{AreRowsOf};
ghost use Rattle.acpi_base.specs.Object.{all_of, Wrote, WriteRefused, IsOwnRefusal};
ghost use Rattle.acpi_hest.specs.Counter.{counter_of, most_of_64_bits};
ghost use Rattle.acpi_hest.specs.ErrorData.{IsNewErrorData, ErrorHead, error_head_fields, error_data_head, error_data_object};

use crate::counter::Counter;
use crate::hest::status::{ErrorSeverity, SEVERITIES};
use acpi_base::error::{Error, R};
use acpi_base::object::Aml;
use acpi_base::row::{Bits, Row, Value, record_of};
use acpi_base::sink::AmlSink;
use std::alloc::Global;

/// A Generic Error Data Entry (ACPI 6.5, 18.3.2.7.1): 58 bytes, and then its data. Its section type has two bytes here. The
/// caller sets its length field.
#[derive(Drop)]
pub struct GenericErrorData {
    /// The type of section of the data (offset 0).
    pub section_type: u16,
    /// The severity of the error (offset 2).
    pub severity: ErrorSeverity,
    /// The revision of the entry's format (offset 6).
    pub revision: u16,
    /// Bits that say which of the id, the text and the time are valid (offset 8).
    pub validation: u8,
    /// Flags of the section (offset 9).
    pub flags: u8,
    /// The number of bytes of the data (offset 10).
    pub error_data_length: u32,
    /// The id of the field replaceable unit (offset 14).
    pub fru_id: [u8; 16],
    /// The name of the field replaceable unit (offset 30).
    pub fru_text: [u8; 20],
    /// The time of the error (offset 50).
    pub timestamp: [u8; 8],
    objects: Vec<Box<dyn Aml + Drop>>,
}

impl GenericErrorData {
    /// An entry without data. Every field except the severity is zero.
    pub fn new(alloc: Global, severity: ErrorSeverity) -> GenericErrorData
        ensures { IsNewErrorData severity result }
    {
        GenericErrorData {
            section_type: 0,
            severity,
            revision: 0,
            validation: 0,
            flags: 0,
            error_data_length: 0,
            fru_id: [0; 16],
            fru_text: [0; 20],
            timestamp: [0; 8],
            objects: Vec::new(alloc),
        }
    }

    /// Adds an object to the data, after the earlier ones. The only error is `Memory`; the entry is unchanged then.
    pub fn add_data(&mut self, part: Box<dyn Aml + Drop>) -> R<()>
        ensures ok { OnOk result (self.new.objects.items ≡ self.old.objects.items ++ part ∷ []) }
        ensures err { OnErr result (self.new.objects.items ≡ self.old.objects.items) }
        ensures head { error_data_head self.new ≡ error_data_head self.old }
        ensures cause { IfErr result (λ e. e ≡ Error.Memory) }
    {
        self.objects.push(part)?;
        Ok(())
    }

    /// Writes the entry and then the objects of its data. The error is that of the first object that fails. The sink has taken
    /// everything before this error.
    pub fn to_aml_bytes(&self, sink: &mut dyn AmlSink) -> R<()>
        ensures ok { OnOk result (Wrote (error_data_object self.now (map (λ part. object part) self.now.objects.items))
            (meaning sink.old) (meaning sink.new)) }
        ensures err { IfErr result (λ e. WriteRefused e (error_data_object self.now (map (λ part. object part)
            self.now.objects.items)) (meaning sink.old) (meaning sink.new)) }
    {
        sink.vec(&self.head())?;
        write_all(&self.objects, sink)
    }

    /// The number of bytes of the data, which is the value for `error_data_length`. The error is that of the first object that
    /// fails, or `FieldWidth` if the number doesn't fit four bytes. It takes no memory: each object is written into a counter.
    pub fn data_size(&self) -> R<u32>
        ensures size { IfOk result (λ n. n ≡ length (all_of (map (λ part. object part) self.now.objects.items)).front) }
        ensures whole { OnOk result ((all_of (map (λ part. object part) self.now.objects.items)).end ≡ None) }
        ensures err { IfErr result (λ e. IsOwnRefusal e (all_of (map (λ part. object part) self.now.objects.items))
            ⊎ ((e ≡ Error.FieldWidth) × (2 ^ 32 ≤ length (all_of (map (λ part. object part) self.now.objects.items)).front))) }
    {
        let size = count_all(&self.objects)?;
        if size > 0xffff_ffff {
            return Err(Error::FieldWidth);
        }
        Ok(size as u32)
    }

    // The bytes of the entry before its data.
    fn head(&self) -> [u8; 58]
        ensures { result ≡ error_data_head self.now }
    {
        record_of(
            &ERROR_DATA,
            &[
                Value::Number(u64::from(self.section_type)),
                Value::Number(self.severity as u64),
                Value::Number(u64::from(self.revision)),
                Value::Number(u64::from(self.validation)),
                Value::Number(u64::from(self.flags)),
                Value::Number(u64::from(self.error_data_length)),
                Value::Bytes(&self.fru_id),
                Value::Bytes(&self.fru_text),
                Value::Bytes(&self.timestamp),
            ],
        )
    }
}

/// The rows of a Generic Error Data Entry before its data.
pub const ERROR_DATA: [Row; 9] = [
    Row::Hex("Section Type", 2),
    Row::OneOf("Error Severity", 4, &SEVERITIES),
    Row::Hex("Revision", 2),
    Row::Flags(
        "Validation Bits",
        1,
        &[
            Bits::Flag(0x1, "FRU Id Valid"),
            Bits::Flag(0x2, "FRU Text Valid"),
            Bits::Flag(0x4, "Timestamp Valid"),
        ],
    ),
    Row::Flags(
        "Flags",
        1,
        &[
            Bits::Flag(0x1, "Primary"),
            Bits::Flag(0x2, "Containment Warning"),
            Bits::Flag(0x4, "Reset"),
            Bits::Flag(0x8, "Error Threshold Exceeded"),
            Bits::Flag(0x10, "Resource Not Accessible"),
            Bits::Flag(0x20, "Latent Error"),
            Bits::Flag(0x40, "Propagated"),
            Bits::Flag(0x80, "Overflow"),
        ],
    ),
    Row::Number("Error Data Length", 4),
    Row::Uuid("FRU Id"),
    Row::Text("FRU Text", 20),
    Row::Bytes("Timestamp", 8),
];

/// The rows of an entry's fields before its data, in order.
pub fn error_data_rows() -> &'static [Row]
    ensures { (head : ErrorHead) → AreRowsOf result.now (error_head_fields head) }
{
    &ERROR_DATA
}

// Writes boxed objects into a counter.
fn write_into_counter(parts: &Vec<Box<dyn Aml + Drop>>, counter: &mut Counter) -> R<()>
    ensures ok { OnOk result (Wrote (all_of (map (λ part. object part) parts.now.items)) (counter_of counter.old)
        (counter_of counter.new)) }
    ensures err { IfErr result (λ e. WriteRefused e (all_of (map (λ part. object part) parts.now.items))
        (counter_of counter.old) (counter_of counter.new)) }
{
    write_all(parts, counter)
}

// The number of bytes that boxed objects write, up to 2^64 - 1.
fn count_all(parts: &Vec<Box<dyn Aml + Drop>>) -> R<u64>
    ensures count { IfOk result (λ n.
        n ≡ min (length (all_of (map (λ part. object part) parts.now.items)).front) most_of_64_bits) }
    ensures whole { OnOk result ((all_of (map (λ part. object part) parts.now.items)).end ≡ None) }
    ensures err { IfErr result (λ e. IsOwnRefusal e (all_of (map (λ part. object part) parts.now.items))) }
{
    let mut counter = Counter::default();
    write_into_counter(parts, &mut counter)?;
    Ok(counter.count())
}

// Writes boxed objects, in order.
fn write_all(parts: &Vec<Box<dyn Aml + Drop>>, sink: &mut dyn AmlSink) -> R<()>
    ensures ok { OnOk result (Wrote (all_of (map (λ part. object part) parts.now.items)) (meaning sink.old) (meaning sink.new)) }
    ensures err { IfErr result (λ e. WriteRefused e (all_of (map (λ part. object part) parts.now.items))
        (meaning sink.old) (meaning sink.new)) }
{
    for part in parts {
        write_one(part, sink)?;
    }
    Ok(())
}

fn write_one(part: &Box<dyn Aml + Drop>, sink: &mut dyn AmlSink) -> R<()>
    ensures ok { OnOk result (Wrote (object part.now) (meaning sink.old) (meaning sink.new)) }
    ensures err { IfErr result (λ e. WriteRefused e (object part.now) (meaning sink.old) (meaning sink.new)) }
{
    part.to_aml_bytes(sink)
}
