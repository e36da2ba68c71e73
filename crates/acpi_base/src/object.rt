//! Objects, which write themselves as bytes.

ghost use Rattle.std.specs.Prelude.{◌≡◌, ◌≢◌, OnOk, IfErr, IfOk, sum, ◌%◌, None, Some};
ghost use Rattle.acpi_base.specs.declared.error.Error.TheVariants.{Memory};
ghost use Rattle.acpi_base.specs.Checksum.{checksum_of};
ghost use Rattle.acpi_base.specs.Object.{Object, Wrote, WriteRefused, IsOwnRefusal};

use crate::checksum::Checksum;
use crate::error::R;
use crate::sink::AmlSink;

/// An object of AML or a table, which can write itself into any sink.
pub trait Aml {
    ghost object: { Self → Object };

    /// Writes the object's bytes to the sink, and then returns the object's own error if it has one. After an error the sink has
    /// taken a prefix of the bytes.
    fn to_aml_bytes(&self, sink: &mut dyn AmlSink) -> R<()>
        ensures ok { OnOk result (Wrote (object self.now) (meaning sink.old) (meaning sink.new)) }
        ensures err { IfErr result (λ e. WriteRefused e (object self.now) (meaning sink.old) (meaning sink.new)) };

    ghost ends_well: { (x : Self) → (object x).end ≢ Some Memory };
}

/// Writes an object into a checksum, which takes all bytes and no memory.
fn write_into_checksum(aml: &dyn Aml, checksum: &mut Checksum) -> R<()>
    ensures ok { OnOk result (Wrote (object aml.now) (checksum_of checksum.old) (checksum_of checksum.new)) }
    ensures err { IfErr result (λ e. WriteRefused e (object aml.now) (checksum_of checksum.old) (checksum_of checksum.new)) }
{
    aml.to_aml_bytes(checksum)
}

/// The sum of an object's bytes modulo 256. Its errors are those of the object. It takes memory only if the object does.
pub fn u8sum(aml: &dyn Aml) -> R<u8>
    ensures sum { IfOk result (λ s. s ≡ sum (object aml.now).front % 256) }
    ensures whole { OnOk result ((object aml.now).end ≡ None) }
    ensures err { IfErr result (λ e. IsOwnRefusal e (object aml.now)) }
{
    let mut checksum = Checksum::default();
    write_into_checksum(aml, &mut checksum)?;
    Ok(checksum.raw_value())
}
