//! The maker of a table.

ghost use Rattle.std.specs.Prelude.{◌≡◌};

/// The fields of the standard header that name a table's maker (ACPI 6.5, 5.2.6, offsets 10, 16 and 24).
#[derive(Clone, Copy, Debug)]
pub struct Oem {
    pub id: [u8; 6],
    pub table_id: [u8; 8],
    pub revision: u32,
}

impl Oem {
    /// The manufacturer's id, its id of the table, and its revision of the table.
    pub fn new(id: [u8; 6], table_id: [u8; 8], revision: u32) -> Oem
        ensures { result ≡ record { id = id; table_id = table_id; revision = revision } }
    {
        Oem {
            id,
            table_id,
            revision,
        }
    }
}
