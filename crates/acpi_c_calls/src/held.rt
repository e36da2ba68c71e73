//! Bytes of an object, held until they are written into the caller's buffer.

ghost use Rattle.std.specs.Prelude.{◌≡◌, ◌≤◌, ◌+◌, ◌++◌, [], length, take, false, OnOk, IfErr};
ghost use Rattle.acpi_base.specs.Object.{Wrote, WriteRefused};
ghost use Rattle.acpi_c_calls.specs.Held.{held_of, held_takes};
ghost use Rattle.acpi_c_calls.specs.Writer.{fault_of_error, piece_of};

use crate::fault::Fault;
use acpi_base::error::{Error, R};
use acpi_base::object::Aml;
use acpi_base::patch::write_at;
use acpi_base::sink::AmlSink;
use std::marker::Model;

/// The first 1024 bytes that it is given: a path of 255 parts has 1023. It is a sink that takes no memory.
#[derive(Drop)]
pub(crate) struct Held {
    bytes: [u8; 1024],
    size: usize,
}

impl Model for Held {
    ghost use Rattle.std.specs.Prelude.{ℕ, List, ◌≤◌, take};

    ghost Value = { List ℕ };

    ghost view = { λ h. take h.size h.bytes };

    ghost invariant = { λ h. h.size ≤ 1024 };
}

impl AmlSink for Held {
    ghost meaning = { held_of };

    ghost takes_nothing = { λ h. held_takes h [] };

    ghost takes_beginning = { λ h a _ _. held_takes h a };

    #[tactic(auto, using(crate::proofs::Helds::held_after))]
    fn byte(&mut self, byte: u8) -> R<()> {
        self.add(&[byte]);
        Ok(())
    }

    #[tactic(auto, using(crate::proofs::Helds::held_after))]
    fn vec(&mut self, v: &[u8]) -> R<()> {
        self.add(v);
        Ok(())
    }
}

// Writes the first of these bytes over those from `size` on, as many as there is space for, and returns where they end.
#[tactic(auto, using(crate::proofs::Helds::added_all, crate::proofs::Helds::added_some))]
fn add_to(bytes: &mut [u8], size: usize, v: &[u8]) -> usize
    requires { size ≤ length bytes.old }
    ensures within { result ≤ length bytes.new }
    ensures is { take result bytes.new ≡ take (length bytes.old) (take size bytes.old ++ v.now) }
    ensures same { length bytes.new ≡ length bytes.old }
{
    let room = bytes.len() - size;
    if v.len() <= room {
        write_at(bytes, size, v);
        return size + v.len();
    }
    let (kept, _) = v.split_at(room);
    write_at(bytes, size, kept);
    bytes.len()
}

impl Held {
    /// No bytes.
    pub(crate) fn new() -> Held
        ensures { result ≡ [] }
    {
        Held {
            bytes: [0; 1024],
            size: 0,
        }
    }

    /// Adds bytes, as many as there is space for.
    pub(crate) fn add(&mut self, v: &[u8])
        ensures { self.new ≡ take 1024 (self.old ++ v.now) }
    {
        self.size = add_to(&mut self.bytes, self.size, v);
    }

    /// The bytes.
    pub(crate) fn bytes(&self) -> &[u8]
        ensures bytes { result.now ≡ self.now }
        ensures few { length self.now ≤ 1024 }
    {
        &self.bytes[..self.size]
    }
}

// The fault of an error of an object.
pub(crate) fn fault_of(error: Error) -> Fault
    ensures { result ≡ fault_of_error error }
{
    match error {
        Error::Memory => Fault::Memory,
        Error::NamePart => Fault::NamePart,
        Error::PathParts => Fault::PathParts,
        Error::EisaText => Fault::EisaText,
        Error::UuidText => Fault::UuidText,
        Error::ArgNumber => Fault::ArgNumber,
        Error::LocalNumber => Fault::LocalNumber,
        Error::MethodArgs => Fault::MethodArgs,
        Error::PkgLength => Fault::ObjectLength,
        Error::AddressRange => Fault::AddressRange,
        _ => Fault::WriterState,
    }
}

fn write_into<T: Aml>(value: &T, held: &mut Held) -> R<()>
    ensures ok { OnOk result (Wrote (T.object value.now) (held_of held.old) (held_of held.new)) }
    ensures err { IfErr result (λ e. WriteRefused e (T.object value.now) (held_of held.old) (held_of held.new)) }
{
    value.to_aml_bytes(held)
}

// Holds the bytes of an object, or returns the fault of its error. The object is no longer than what is held, and takes no
// memory.
pub(crate) fn hold<T: Aml>(value: &T) -> Result<Held, Fault>
    requires few { length (T.object value.now).front ≤ 1024 }
    requires dry { (T.object value.now).wants_memory ≡ false }
    ensures { result ≡ piece_of (T.object value.now) }
{
    let mut held = Held::new();
    match write_into(value, &mut held) {
        Ok(()) => {
            let _few = held.bytes();
            Ok(held)
        }
        Err(error) => Err(fault_of(error)),
    }
}
