//! Definition blocks.

use crate::trial::Grows;
use acpi_tables::sdt::{Sdt, append_object};
use acpi_tables::{AmlSink, R};
use std::alloc::Global;
use test_support::{OEM, OEM_REVISION, OEM_TABLE};

// As a sink a table keeps a prefix of the bytes of a failed call. So each of these calls gives it all bytes at once.
impl Grows for Sdt {
    const WAYS: u8 = 8;

    fn empty(alloc: Global) -> R<Sdt> {
        Sdt::new(alloc, *b"DSDT", 36, 2, OEM, OEM_TABLE, OEM_REVISION)
    }

    fn grow(&mut self, _alloc: Global, way: u8) -> R<()> {
        match way {
            0 => self.append_slice(b"0123456789"),
            1 => self.append(0x0102_0304_0506_0708u64),
            2 => append_object(&0x0102_0304u32, self),
            3 => self.byte(0x01),
            4 => self.word(0x0102),
            5 => self.dword(0x0102_0304),
            6 => self.qword(0x0102_0304_0506_0708),
            _ => self.vec(b"0123456789"),
        }
    }
}
