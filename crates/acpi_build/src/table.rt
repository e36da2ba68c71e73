//! Tables that are written field by field.

ghost use Rattle.std.specs.Prelude.{◌≡◌, ◌∷◌, [], Ok};
ghost use Rattle.acpi_base.specs.Bytes.{le};
ghost use Rattle.acpi_base.specs.declared.error.Error.TheVariants.{Memory};
ghost use Rattle.acpi_build.specs.State.{Does};
ghost use Rattle.acpi_build.specs.Table.{with_bytes, built};

use acpi_base::error::R;
use acpi_base::sdt::Sdt;
use std::marker::Model;

/// A table whose fields and structures are added one after another (ACPI 6.5, 5.2.6). Its length and its checksum are right after
/// each call. No call returns an error: the table keeps the first one, the calls after it do nothing, and `finish` returns it. It
/// is `FieldWidth` if the length would reach 2^32.
#[derive(Drop)]
pub struct TableBuilder {
    table: R<Sdt>,
}

impl Model for TableBuilder {
    ghost use Rattle.acpi_build.specs.Table.{Built, built};

    ghost Value = { Built };

    ghost view = { λ b. built b.table };
}

impl TableBuilder {
    /// A table to whose end fields are added: that of `Sdt::new`, or its error. With a length of 36 it has the header alone.
    pub fn new(table: R<Sdt>) -> TableBuilder
        ensures { result ≡ built table }
    {
        TableBuilder { table }
    }

    /// Adds bytes.
    pub fn bytes(&mut self, bytes: &[u8])
        ensures { Does Memory (with_bytes bytes.now) self.old self.new }
    {
        let outcome = match &mut self.table {
            Ok(table) => table.append_slice(bytes),
            Err(_) => return,
        };
        if let Err(error) = outcome {
            self.table = Err(error);
        }
    }

    /// Adds a byte.
    pub fn byte(&mut self, value: u8)
        ensures { Does Memory (with_bytes (value ∷ [])) self.old self.new }
    {
        self.bytes(&[value]);
    }

    /// Adds two bytes, the lowest first.
    pub fn word(&mut self, value: u16)
        ensures { Does Memory (with_bytes (le 2 value)) self.old self.new }
    {
        self.bytes(&value.to_le_bytes());
    }

    /// Adds four bytes, the lowest first.
    pub fn dword(&mut self, value: u32)
        ensures { Does Memory (with_bytes (le 4 value)) self.old self.new }
    {
        self.bytes(&value.to_le_bytes());
    }

    /// Adds eight bytes, the lowest first.
    pub fn qword(&mut self, value: u64)
        ensures { Does Memory (with_bytes (le 8 value)) self.old self.new }
    {
        self.bytes(&value.to_le_bytes());
    }

    /// Returns the table, or the first error.
    pub fn finish(self) -> R<Sdt>
        ensures { built result ≡ self }
    {
        self.table
    }
}
