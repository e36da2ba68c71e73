//! `Sdt`, and objects of any size.

use crate::filling::{Fills, GIB};
use acpi_tables::R;
use acpi_tables::sdt::Sdt;
use std::alloc::Global;
use test_support::{OEM, OEM_REVISION, OEM_TABLE};

/// An object of this many bytes, 36 or more, as a structure that the library doesn't define.
pub fn sized(alloc: Global, size: u32) -> R<Sdt> {
    Sdt::new(alloc, *b"OEM1", size, 1, OEM, OEM_TABLE, OEM_REVISION)
}

/// The size of the object with this number. After a table of `head` bytes the first four objects end one byte below 2^32, and
/// every later one has 36 bytes.
pub fn size_of(number: u32, head: u32) -> u32 {
    match number {
        0..=2 => GIB as u32,
        3 => (GIB as u32).saturating_sub(1).saturating_sub(head),
        _ => 36,
    }
}

impl Fills for Sdt {
    const UNIT: &'static str = "additions";

    fn empty(alloc: Global) -> R<Sdt> {
        sized(alloc, 36)
    }

    fn grow(&mut self, alloc: Global, number: u32) -> R<()> {
        match number {
            0..=3 => self.append_slice(sized(alloc, size_of(number, 36))?.as_slice()),
            _ => self.append(0x5au8),
        }
    }
}
