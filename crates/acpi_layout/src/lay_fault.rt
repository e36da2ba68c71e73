//! Why files aren't laid.

ghost use Rattle.std.specs.Prelude.{◌≡◌, Some};
ghost use Rattle.acpi_layout.specs.FilesText.{text_of};
ghost use Rattle.acpi_layout.specs.declared.lay_fault.LayFault.TheVariants.{Memory};

use std::alloc::{AllocError, AllocFailed};
use std::fmt;

/// Why files aren't laid into an image. An index counts the files from 0.
#[derive(Clone, Copy, Debug, PartialEq)]
pub enum LayFault {
    /// The allocator refused memory.
    Memory,
    /// The address of the image isn't a multiple of 64.
    Base,
    /// The file with this index is a second FADT, DSDT or FACS.
    Second(usize),
    /// No file is a FADT.
    NoFadt,
    /// No file is a DSDT.
    NoDsdt,
    /// No file is a FACS, and the FADT's flag HW_REDUCED_ACPI isn't set.
    NoFacs,
    /// The FADT has fewer than 148 bytes, so it has no field X_DSDT.
    ShortFadt,
    /// The address of a byte would be more than 2^64 - 1, or the XSDT's length would reach 2^32.
    NoSpace,
}

/// The fault as text, for the user of a program.
impl fmt::Display for LayFault {
    ghost output = { λ fault. Some (text_of fault) };

    fn fmt<W: fmt::Write>(&self, f: &mut fmt::Formatter<W>) -> fmt::Result {
        match self {
            LayFault::Memory => write!(f, "out of memory"),
            LayFault::Base => write!(f, "the address of an image has to be a multiple of 0x40"),
            LayFault::Second(_) => write!(f, "a second table of this signature"),
            LayFault::NoFadt => write!(f, "no FADT"),
            LayFault::NoDsdt => write!(f, "no DSDT"),
            LayFault::NoFacs => {
                write!(
                    f,
                    "no FACS, and the FADT doesn't have the flag HW_REDUCED_ACPI"
                )
            }
            LayFault::ShortFadt => write!(f, "the FADT has no field X_DSDT"),
            LayFault::NoSpace => write!(f, "the tables end after the last address"),
        }
    }
}

impl std::error::Error for LayFault {}

impl From<AllocError> for LayFault {
    ghost from_gives = { λ _ e. e ≡ Memory };

    fn from(_error: AllocError) -> LayFault {
        LayFault::Memory
    }
}

impl<T: Drop> From<AllocFailed<T>> for LayFault {
    ghost from_gives = { λ _ e. e ≡ Memory };

    fn from(_error: AllocFailed<T>) -> LayFault {
        LayFault::Memory
    }
}
