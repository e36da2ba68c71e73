//! Why tables aren't laid below 4 GiB.

ghost use Rattle.std.specs.Prelude.{◌≡◌, Some};
ghost use Rattle.acpi_layout.specs.RsdtText.{text_of};
ghost use Rattle.acpi_layout.specs.declared.rsdt_fault.RsdtFault.TheVariants.{Table};

use acpi_base::error::Error;
use std::fmt;

/// Why tables aren't laid with an RSDT.
#[derive(Clone, Copy, Debug, PartialEq)]
pub enum RsdtFault {
    /// The error of the first table that has one, or `Memory`.
    Table(Error),
    /// The address of a byte of the image or of the RSDP isn't below 4 GiB.
    NotLow,
    /// The RSDP overlaps the image.
    Overlap,
}

/// The fault as text, for the user of a program.
impl fmt::Display for RsdtFault {
    ghost output = { λ fault. Some (text_of fault) };

    fn fmt<W: fmt::Write>(&self, f: &mut fmt::Formatter<W>) -> fmt::Result {
        match self {
            RsdtFault::Table(error) => write!(f, "{error}"),
            RsdtFault::NotLow => write!(f, "the tables or the RSDP aren't below 4 GiB"),
            RsdtFault::Overlap => write!(f, "the RSDP overlaps the tables"),
        }
    }
}

impl std::error::Error for RsdtFault {}

impl From<Error> for RsdtFault {
    ghost from_gives = { λ error e. e ≡ Table error };

    fn from(error: Error) -> RsdtFault {
        RsdtFault::Table(error)
    }
}
