//! Values that can be written into a table, at its end or at an offset.

ghost use Rattle.std.specs.Prelude.{ℕ, ◌+◌, ◌≤◌, [], ◌∷◌, List, length};
ghost use Rattle.acpi_base.specs.Bytes.{le};
ghost use Rattle.acpi_base.specs.Sdt.{Addition, Overwriting};

use crate::error::R;
use crate::sdt::Sdt;

/// A value that a table takes as bytes.
pub trait SdtValue: Drop {
    ghost value_bytes: { Self → List ℕ };

    /// Adds the value's bytes at the end of the table, as `Sdt::append_slice` does.
    fn append_to(&self, table: &mut Sdt) -> R<()>
        ensures { Addition result table.old (value_bytes self.now) table.new };

    /// Writes the value's bytes over those at an offset, as `Sdt::write_bytes` does.
    fn write_to(&self, table: &mut Sdt, offset: usize)
        requires { offset + length (value_bytes self.now) ≤ length table.old.bytes }
        ensures { Overwriting table.old offset (value_bytes self.now) table.new };
}

impl SdtValue for u8 {
    ghost value_bytes = { λ v. v ∷ [] };

    fn append_to(&self, table: &mut Sdt) -> R<()> {
        table.append_slice(&[*self])
    }

    fn write_to(&self, table: &mut Sdt, offset: usize) {
        table.write_bytes(offset, &[*self]);
    }
}

impl SdtValue for u16 {
    ghost value_bytes = { λ v. le 2 v };

    fn append_to(&self, table: &mut Sdt) -> R<()> {
        table.append_slice(&self.to_le_bytes())
    }

    fn write_to(&self, table: &mut Sdt, offset: usize) {
        table.write_bytes(offset, &self.to_le_bytes());
    }
}

impl SdtValue for u32 {
    ghost value_bytes = { λ v. le 4 v };

    fn append_to(&self, table: &mut Sdt) -> R<()> {
        table.append_slice(&self.to_le_bytes())
    }

    fn write_to(&self, table: &mut Sdt, offset: usize) {
        table.write_bytes(offset, &self.to_le_bytes());
    }
}

impl SdtValue for u64 {
    ghost value_bytes = { λ v. le 8 v };

    fn append_to(&self, table: &mut Sdt) -> R<()> {
        table.append_slice(&self.to_le_bytes())
    }

    fn write_to(&self, table: &mut Sdt, offset: usize) {
        table.write_bytes(offset, &self.to_le_bytes());
    }
}

impl<const N: usize> SdtValue for [u8; N] {
    ghost value_bytes = { λ v. v };

    fn append_to(&self, table: &mut Sdt) -> R<()> {
        table.append_slice(self)
    }

    fn write_to(&self, table: &mut Sdt, offset: usize) {
        table.write_bytes(offset, self);
    }
}
