//! UUIDs.

ghost use Rattle.std.specs.Prelude.{◌≡◌, ℕ, List, IfOk, IfErr, Some, None};
ghost use Rattle.acpi_term.specs.Template.{buffer_of_bytes};
ghost use Rattle.acpi_aml.specs.EndsWell.{bytes_end_well};
ghost use Rattle.acpi_aml.specs.Uuid.{IsUuid, is_grouped, uuid_bytes};

use crate::hex::bytes_of_digits;
use acpi_base::error::{Error, R};
use acpi_base::object::Aml;
use acpi_base::record::{Field, record};
use acpi_base::sink::AmlSink;
use std::marker::Model;

/// A UUID, which is written as a buffer of 16 bytes (ACPI 6.5, 19.6.142).
#[derive(Drop)]
pub struct Uuid {
    pub(crate) bytes: [u8; 16],
}

impl Model for Uuid {
    ghost Value = { List ℕ };

    ghost view = { λ u. u.bytes };

    ghost invariant = { λ u. IsUuid u.bytes };
}

impl Aml for Uuid {
    ghost object = { λ u. buffer_of_bytes u };

    ghost ends_well = { λ u. bytes_end_well u };

    fn to_aml_bytes(&self, sink: &mut dyn AmlSink) -> R<()> {
        let bytes = record::<20>(&[
            Field::Bytes(&[0x11, 0x13, 0x0a, 0x10]),
            Field::Bytes(&self.bytes),
        ]);
        sink.vec(&bytes)
    }
}

impl Uuid {
    /// The UUID of a text: groups of 8, 4, 4, 4 and 12 hexadecimal digits in upper or lower case, with `-` between them. The
    /// error is `UuidText` for any other text. The first three groups are numbers, which are written lowest byte first.
    pub fn new(name: &str) -> R<Uuid>
        ensures ok { IfOk result (λ u. uuid_bytes name.now ≡ Some u) }
        ensures uuid { IfOk result (λ u. IsUuid u) }
        ensures err { IfErr result (λ e. (e ≡ Error.UuidText) × (uuid_bytes name.now ≡ None)) }
    {
        match read_groups(name.as_bytes()) {
            Some(bytes) => Ok(Uuid { bytes }),
            None => Err(Error::UuidText),
        }
    }
}

fn read_groups(text: &[u8]) -> Option<[u8; 16]>
    ensures { result ≡ uuid_bytes text.now }
{
    if !is_grouped(text) {
        return None;
    }
    let mut a = bytes_of_digits::<4>(&text[0..8])?;
    let mut b = bytes_of_digits::<2>(&text[9..13])?;
    let mut c = bytes_of_digits::<2>(&text[14..18])?;
    let d = bytes_of_digits::<2>(&text[19..23])?;
    let e = bytes_of_digits::<6>(&text[24..36])?;
    a.reverse();
    b.reverse();
    c.reverse();
    Some(record(&[
        Field::Bytes(&a),
        Field::Bytes(&b),
        Field::Bytes(&c),
        Field::Bytes(&d),
        Field::Bytes(&e),
    ]))
}

fn is_grouped(text: &[u8]) -> bool
    ensures { result ≡ is_grouped text.now }
{
    text.len() == 36 && text[8] == b'-' && text[13] == b'-' && text[18] == b'-' && text[23] == b'-'
}
