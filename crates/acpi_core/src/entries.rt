//! Lists of entries of one size, with a greatest length.

ghost use Rattle.std.specs.Prelude.{◌≡◌, ◌≢◌, ◌+◌, ◌*◌, ◌<◌, ◌≤◌, ◌++◌, length, OnOk, OnErr, IfOk, IfErr};
ghost use Rattle.acpi_core.specs.Entries.{no_entries, with_entry};
ghost use Rattle.acpi_core.specs.Room.{held, Holds};

use acpi_base::error::{Error, R};
use acpi_base::patch::write_at;
use std::alloc::Global;
use std::marker::Model;

/// The bytes of entries. Up to 16 bytes are stored in the value itself: most lists are short, and take no memory.
#[derive(Debug, Drop)]
pub(crate) enum Room {
    Few([u8; 16]),
    Many(Vec<u8>),
}

impl Room {
    // The first `size` of the bytes.
    fn as_slice(&self, size: usize) -> &[u8]
        requires { Holds size self.now }
        ensures bytes { result.now ≡ held size self.now }
        ensures size { length result.now ≡ size }
    {
        match self {
            Room::Few(bytes) => &bytes[..size],
            Room::Many(bytes) => bytes,
        }
    }

    // Adds bytes at the end. The only error is `Memory`.
    #[tactic(auto, using(crate::proofs::Rooms::take_put))]
    fn add(&mut self, alloc: Global, size: usize, more: &[u8]) -> R<()>
        requires { Holds size self.old }
        ensures ok { OnOk result (held (size + length more.now) self.new ≡ held size self.old ++ more.now) }
        ensures holds { OnOk result (Holds (size + length more.now) self.new) }
        ensures err { OnErr result ((held size self.new ≡ held size self.old) × Holds size self.new) }
        ensures cause { IfErr result (λ e. e ≡ Error.Memory) }
    {
        match self {
            Room::Many(bytes) => bytes.extend_from_slice(more)?,
            Room::Few(bytes) if more.len() <= 16 - size => write_at(bytes, size, more),
            Room::Few(_) => *self = Room::Many(joined(alloc, self.as_slice(size), more)?),
        }
        Ok(())
    }
}

// A vector of two lists of bytes, in order.
fn joined(alloc: Global, few: &[u8], more: &[u8]) -> R<Vec<u8>>
    ensures ok { IfOk result (λ v. v.items ≡ few.now ++ more.now) }
    ensures err { IfErr result (λ e. e ≡ Error.Memory) }
{
    let mut bytes = Vec::from_slice(alloc, few)?;
    bytes.extend_from_slice(more)?;
    Ok(bytes)
}

/// At most `MOST` entries of `SIZE` bytes each.
#[derive(Debug, Drop)]
pub struct Entries<const SIZE: usize, const MOST: usize> {
    alloc: Global,
    count: usize,
    room: Room,
}

impl<const SIZE: usize, const MOST: usize> Model for Entries<SIZE, MOST> {
    ghost use Rattle.std.specs.Prelude.{◌≡◌, ◌*◌, ◌≤◌, length};
    ghost use Rattle.acpi_core.specs.Entries.{Entries};
    ghost use Rattle.acpi_core.specs.Room.{held, Holds};

    ghost Value = { Entries };

    ghost view = { λ e. record { count = e.count; bytes = held (SIZE * e.count) e.room } };

    ghost invariant = { λ e. Holds (SIZE * e.count) e.room × (e.count ≤ MOST) };
}

impl<const SIZE: usize, const MOST: usize> Entries<SIZE, MOST> {
    /// An empty list.
    pub fn new(alloc: Global) -> Entries<SIZE, MOST>
        ensures { result ≡ no_entries }
    {
        Entries {
            alloc,
            count: 0,
            room: Room::Few([0; 16]),
        }
    }

    /// The number of entries.
    pub fn len(&self) -> usize
        ensures is { result ≡ self.now.count }
        ensures most { result ≤ MOST }
    {
        self.count
    }

    /// The bytes of all entries.
    pub fn as_slice(&self) -> &[u8]
        ensures is { result.now ≡ self.now.bytes }
        ensures size { length self.now.bytes ≡ SIZE * self.now.count }
        ensures most { self.now.count ≤ MOST }
    {
        self.room.as_slice(SIZE * self.count)
    }

    /// Adds an entry at the end. The error is `FieldWidth` if there are `MOST` entries already. After an error the list is
    /// unchanged.
    pub fn push(&mut self, entry: [u8; SIZE]) -> R<()>
        ensures ok { OnOk result (self.new ≡ with_entry self.old entry.entry) }
        ensures room { OnOk result (self.old.count < MOST) }
        ensures err { OnErr result (self.new ≡ self.old) }
        ensures cause { IfErr result (λ e. e ≢ Error.Memory → (e ≡ Error.FieldWidth) × (self.old.count ≡ MOST)) }
    {
        if self.count == MOST {
            return Err(Error::FieldWidth);
        }
        self.room.add(self.alloc, SIZE * self.count, &entry)?;
        self.count += 1;
        Ok(())
    }
}
