//! Objects that write the bytes of a structure.

ghost use Rattle.std.specs.Prelude.{◌≡◌, length, take, OnOk, OnErr, IfErr};
ghost use Rattle.acpi_base.specs.Object.{Object, Appended, IsOwnEnd};

use acpi_base::buffer::{append, append_value};
use acpi_base::error::R;
use acpi_base::object::Aml;

/// An object that a table takes as a structure: a value of a known type, or a borrowed object of any type.
pub trait Structure {
    ghost writes: { Self → Object };

    /// Writes the structure at the end of a vector. After an error the vector may end with a prefix of its bytes.
    fn append_to(&self, bytes: &mut Vec<u8>) -> R<()>
        ensures ok { OnOk result (Appended (writes self.now) bytes.old.items bytes.new.items) }
        ensures err { IfErr result (λ e. IsOwnEnd e (writes self.now)) }
        ensures kept { OnErr result (take (length bytes.old.items) bytes.new.items ≡ bytes.old.items) };
}

/// A value of a known type.
#[derive(Drop)]
pub struct Known<'a, T: Aml>(pub &'a T);

impl<'a, T: Aml> Structure for Known<'a, T> {
    ghost writes = { λ s. T.object s.0.now };

    fn append_to(&self, bytes: &mut Vec<u8>) -> R<()> {
        append_value(self.0, bytes)
    }
}

impl Structure for &dyn Aml {
    ghost writes = { λ s. (Aml-dyn s.now).object s.now.1 };

    fn append_to(&self, bytes: &mut Vec<u8>) -> R<()> {
        append(*self, bytes)
    }
}
