//! The variable part at the end of a structure.

ghost use Rattle.std.specs.Prelude.{◌≡◌, ◌+◌, ◌≤◌, ◌++◌, [], length};
ghost use Rattle.acpi_pc.specs.Grown.{Grows};

use acpi_base::error::{Error, R};
use std::alloc::Global;
use std::marker::Model;

/// At most `MOST` bytes, with which a structure ends: a list of structures of different sizes, or a name.
#[derive(Debug, Drop)]
pub struct Tail<const MOST: usize> {
    bytes: Vec<u8>,
}

impl<const MOST: usize> Model for Tail<MOST> {
    ghost use Rattle.std.specs.Prelude.{ℕ, ◌≤◌, List, length};

    ghost Value = { List ℕ };

    ghost view = { λ t. t.bytes.items };

    ghost invariant = { λ t. length t.bytes.items ≤ MOST };
}

impl<const MOST: usize> Tail<MOST> {
    /// No bytes.
    pub fn new(alloc: Global) -> Tail<MOST>
        ensures { result ≡ [] }
    {
        Tail {
            bytes: Vec::new(alloc),
        }
    }

    /// The bytes.
    pub fn as_slice(&self) -> &[u8]
        ensures is { result.now ≡ self.now }
        ensures most { length self.now ≤ MOST }
    {
        &self.bytes
    }

    /// Adds bytes in two parts. The error is `FieldWidth` if there would be more than `MOST` bytes. After an error the bytes are
    /// unchanged.
    pub fn push(&mut self, front: &[u8], rest: &[u8]) -> R<()>
        ensures { Grows result self.old (self.old ++ (front.now ++ rest.now)) self.new
            (length self.old + (length front.now + length rest.now)) MOST }
    {
        let start = self.bytes.len();
        if front.len() > MOST - start || rest.len() > MOST - start - front.len() {
            return Err(Error::FieldWidth);
        }
        self.bytes.extend_from_slice(front)?;
        if let Err(refusal) = self.bytes.extend_from_slice(rest) {
            self.bytes.truncate(start);
            return Err(refusal.into());
        }
        Ok(())
    }
}
