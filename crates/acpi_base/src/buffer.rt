//! Vectors as sinks, and objects written at a vector's end.

ghost use Rattle.std.specs.Prelude.{◌≡◌, ◌++◌, [], ◌∷◌, length, take, map, OnOk, OnErr, IfErr};
ghost use Rattle.acpi_base.specs.Buffer.{buffer_of, buffer_takes};
ghost use Rattle.acpi_base.specs.Object.{all_of, Appended, Wrote, WriteRefused, IsOwnEnd};

use crate::error::R;
use crate::object::Aml;
use crate::sink::AmlSink;

/// A vector takes all bytes, at its end. Its only error is `Memory`.
impl AmlSink for Vec<u8> {
    ghost meaning = { buffer_of };

    ghost takes_nothing = { λ v. buffer_takes v [] };

    ghost takes_beginning = { λ v a _ _. buffer_takes v a };

    #[tactic(auto, unfolding(crate::specs::Buffer::buffer_of))]
    fn byte(&mut self, byte: u8) -> R<()> {
        self.push(byte)?;
        Ok(())
    }

    #[tactic(auto, unfolding(crate::specs::Buffer::buffer_of))]
    fn vec(&mut self, v: &[u8]) -> R<()> {
        self.extend_from_slice(v)?;
        Ok(())
    }
}

fn write_into(aml: &dyn Aml, bytes: &mut Vec<u8>) -> R<()>
    ensures ok { OnOk result (Wrote (object aml.now) (buffer_of bytes.old) (buffer_of bytes.new)) }
    ensures err { IfErr result (λ e. WriteRefused e (object aml.now) (buffer_of bytes.old) (buffer_of bytes.new)) }
{
    aml.to_aml_bytes(bytes)
}

/// Writes an object at the end of a vector. After an error the vector may end with a prefix of the object's bytes.
pub fn append(aml: &dyn Aml, bytes: &mut Vec<u8>) -> R<()>
    ensures ok { OnOk result (Appended (object aml.now) bytes.old.items bytes.new.items) }
    ensures err { IfErr result (λ e. IsOwnEnd e (object aml.now)) }
    ensures kept { OnErr result (take (length bytes.old.items) bytes.new.items ≡ bytes.old.items) }
{
    write_into(aml, bytes)
}

fn write_value<T: Aml>(value: &T, bytes: &mut Vec<u8>) -> R<()>
    ensures ok { OnOk result (Wrote (T.object value.now) (buffer_of bytes.old) (buffer_of bytes.new)) }
    ensures err { IfErr result (λ e. WriteRefused e (T.object value.now) (buffer_of bytes.old) (buffer_of bytes.new)) }
{
    value.to_aml_bytes(bytes)
}

/// Writes an object of a known type at the end of a vector, as `append` does.
pub fn append_value<T: Aml>(value: &T, bytes: &mut Vec<u8>) -> R<()>
    ensures ok { OnOk result (Appended (T.object value.now) bytes.old.items bytes.new.items) }
    ensures err { IfErr result (λ e. IsOwnEnd e (T.object value.now)) }
    ensures kept { OnErr result (take (length bytes.old.items) bytes.new.items ≡ bytes.old.items) }
{
    write_value(value, bytes)
}

/// Writes objects at the end of a vector, in order.
pub fn append_all(children: &[&dyn Aml], bytes: &mut Vec<u8>) -> R<()>
    ensures ok { OnOk result (Appended (all_of (map (λ child. object child.now) children.now)) bytes.old.items bytes.new.items) }
    ensures err { IfErr result (λ e. IsOwnEnd e (all_of (map (λ child. object child.now) children.now))) }
{
    for child in children {
        append(*child, bytes)?;
    }
    Ok(())
}

/// Writes an object, and then the other objects, at the end of a vector.
pub fn append_before(first: &dyn Aml, rest: &[&dyn Aml], bytes: &mut Vec<u8>) -> R<()>
    ensures ok { OnOk result (Appended (all_of (object first.now
        ∷ map (λ child. object child.now) rest.now)) bytes.old.items bytes.new.items) }
    ensures err { IfErr result (λ e. IsOwnEnd e (all_of (object first.now ∷ map (λ child. object child.now) rest.now))) }
{
    append(first, bytes)?;
    append_all(rest, bytes)?;
    Ok(())
}
