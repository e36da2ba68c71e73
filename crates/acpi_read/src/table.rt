//! Tables whose header is right.

ghost use Rattle.std.specs.Prelude.{◌≡◌, ℕ, List, ◌↔◌, take, slice_index, IsOk, IfOk, IfErr};
ghost use Rattle.acpi_base.specs.Table.{IsTrueTable};
ghost use Rattle.acpi_read.specs.Table.{IsFault};

use crate::bytes::{dword_at, sums_to_zero};
use acpi_term::read_error::ReadError;
use std::marker::Model;

/// A checked table (ACPI 6.5, 5.2.6): it has at least 36 bytes, its length at offset 4 is the number of its bytes, and they sum
/// to zero modulo 256. It borrows its bytes and takes no memory.
#[derive(Drop)]
pub struct Table<'a> {
    bytes: &'a [u8],
}

impl<'a> Model for Table<'a> {
    ghost Value = { List ℕ };

    ghost view = { λ t. t.bytes.now };

    ghost invariant = { λ t. IsTrueTable t.bytes.now };
}

impl<'a> Table<'a> {
    /// Checks that the bytes are a table. The error is the first of these:
    ///
    /// - ShortHeader, with the number of bytes, if there are fewer than 36.
    /// - TableLength, with the offset 4, if the length there isn't the number of bytes.
    /// - Sum, with the offset 9, if the bytes don't sum to zero.
    pub fn check(bytes: &'a [u8]) -> Result<Table<'a>, ReadError>
        ensures ok { IsOk result ↔ IsTrueTable bytes.now }
        ensures value { IfOk result (λ table. table ≡ bytes.now) }
        ensures err { IfErr result (λ e. IsFault e bytes.now) }
    {
        if bytes.len() < 36 {
            return Err(ReadError::ShortHeader(bytes.len()));
        }
        if dword_at(bytes, 4) as usize != bytes.len() {
            return Err(ReadError::TableLength(4));
        }
        if !sums_to_zero(bytes) {
            return Err(ReadError::Sum(9));
        }
        Ok(Table { bytes })
    }

    /// The four bytes at offset 0, which name the kind of table.
    pub fn signature(&self) -> [u8; 4]
        ensures { result ≡ take 4 self.now }
    {
        [self.bytes[0], self.bytes[1], self.bytes[2], self.bytes[3]]
    }

    /// The byte at offset 8.
    pub fn revision(&self) -> u8
        ensures { result ≡ slice_index self.now 8 }
    {
        self.bytes[8]
    }

    /// All bytes of the table, as given to `check`.
    pub fn bytes(&self) -> &'a [u8]
        ensures bytes { result.now ≡ self.now }
        ensures table { IsTrueTable self.now }
    {
        self.bytes
    }
}
