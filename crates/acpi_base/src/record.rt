//! Records: fields of known widths, one after another.

ghost use Rattle.std.specs.Prelude.{◌≡◌, ◌≤◌, ◌+◌, length};
ghost use Rattle.acpi_base.specs.Bytes.{put};
ghost use Rattle.acpi_base.specs.Record.{field_bytes, fields_bytes};

use crate::patch::write_at;

/// One field of a record: a number of a given width in bytes, lowest byte first (ACPI 6.5, 5.2), or bytes in their order.
#[derive(Clone, Copy)]
pub enum Field<'a> {
    Byte(u8),
    Word(u16),
    DWord(u32),
    QWord(u64),
    Bytes(&'a [u8]),
}

/// The bytes of a record.
pub fn record<const N: usize>(fields: &[Field]) -> [u8; N]
    requires { length (fields_bytes fields.now) ≡ N }
    ensures { result ≡ fields_bytes fields.now }
{
    let mut bytes = [0; N];
    let mut at = 0;
    for field in fields {
        at = write_field(&mut bytes, at, *field);
    }
    bytes
}

// Writes a field at an offset, and returns the offset after it.
fn write_field(bytes: &mut [u8], at: usize, field: Field) -> usize
    requires { at + length (field_bytes field) ≤ length bytes.old }
    ensures bytes { bytes.new ≡ put at (field_bytes field.entry) bytes.old }
    ensures at { result ≡ at + length (field_bytes field.entry) }
{
    match field {
        Field::Byte(value) => {
            write_at(bytes, at, &[value]);
            at + 1
        }
        Field::Word(value) => {
            write_at(bytes, at, &value.to_le_bytes());
            at + 2
        }
        Field::DWord(value) => {
            write_at(bytes, at, &value.to_le_bytes());
            at + 4
        }
        Field::QWord(value) => {
            write_at(bytes, at, &value.to_le_bytes());
            at + 8
        }
        Field::Bytes(value) => {
            write_at(bytes, at, value);
            at + value.len()
        }
    }
}
