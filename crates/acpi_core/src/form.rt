//! The form of a table of structures.

ghost use Rattle.std.specs.Prelude.{◌≡◌};
ghost use Rattle.acpi_core.specs.Listing.{length_limit};

use acpi_base::oem::Oem;

/// The length of every table is below this: its field has four bytes (ACPI 6.5, 5.2.6, offset 4).
const LENGTH_LIMIT: usize = 1 << (8 * 4);

/// The values of a table's header (ACPI 6.5, 5.2.6), the width in bytes of its number of structures (0 if it has no such field, 2
/// or 4), and the limit of its length: the length in bytes is below it.
#[derive(Clone, Copy)]
pub struct Form {
    pub signature: [u8; 4],
    pub revision: u8,
    pub oem: Oem,
    pub count_width: usize,
    pub limit: usize,
}

impl Form {
    /// A table whose number of structures has `count_width` bytes, and whose length is limited only by its field of four bytes.
    pub fn new(signature: [u8; 4], revision: u8, oem: Oem, count_width: usize) -> Form
        ensures { result ≡ record {
          signature = signature;
          revision = revision;
          oem = oem;
          count_width = count_width;
          limit = length_limit;
        } }
    {
        Form {
            signature,
            revision,
            oem,
            count_width,
            limit: LENGTH_LIMIT,
        }
    }
}
