//! Why a text isn't a dump.

ghost use Rattle.std.specs.Prelude.{◌≡◌, Some};
ghost use Rattle.acpi_dump.specs.Fault.{text_of};
ghost use Rattle.acpi_dump.specs.declared.fault.DumpFault.TheVariants.{Memory};

use std::alloc::{AllocError, AllocFailed};
use std::fmt;

/// What is wrong in the text of a dump. Lines are counted from 1.
#[derive(Clone, Copy, Debug, PartialEq)]
pub enum DumpFault {
    /// The allocator refused memory.
    Memory,
    /// This line isn't blank, and is neither a title nor has bytes.
    Unknown(usize),
    /// This line has bytes, but no title is before it.
    Untitled(usize),
    /// The offset of this line isn't the number of bytes that its table has so far, which is the second number. A line is missing
    /// or doubled.
    Offset(usize, usize),
}

/// The fault as text, for the user of a program.
impl fmt::Display for DumpFault {
    ghost output = { λ fault. Some (text_of fault) };

    fn fmt<W: fmt::Write>(&self, f: &mut fmt::Formatter<W>) -> fmt::Result {
        match self {
            DumpFault::Memory => write!(f, "out of memory"),
            DumpFault::Unknown(line) => write!(f, "line {line}: expected a title or bytes"),
            DumpFault::Untitled(line) => write!(
                f,
                "line {line}: expected a title before the first bytes"
            ),
            DumpFault::Offset(line, expected) => {
                write!(f, "line {line}: expected offset 0x{expected:x}")
            }
        }
    }
}

impl std::error::Error for DumpFault {}

impl From<AllocError> for DumpFault {
    ghost from_gives = { λ _ e. e ≡ Memory };

    fn from(_error: AllocError) -> DumpFault {
        DumpFault::Memory
    }
}

impl<T: Drop> From<AllocFailed<T>> for DumpFault {
    ghost from_gives = { λ _ e. e ≡ Memory };

    fn from(_error: AllocFailed<T>) -> DumpFault {
        DumpFault::Memory
    }
}
