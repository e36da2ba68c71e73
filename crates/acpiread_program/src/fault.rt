//! Faults: why there is no report.

ghost use Rattle.std.specs.Prelude.{◌≡◌, Some, ◌+◌, ◌<◌, ◌^◌, IfSome};
ghost use Rattle.acpi_term.specs.ReadError.{offset_of};
ghost use Rattle.acpi_term.specs.declared.read_error.ReadError.TheVariants.{Memory};
ghost use Rattle.acpiread_program.specs.Fault.{status_of, line_of, IsNamed, IsOfWords, IsRefusal, IsRefusalAfter};

use acpi_input::stated::Unstated;
use acpi_term::read_error::ReadError;
use std::alloc::{AllocError, AllocFailed};
use std::fmt;
use thiserror::Error;

/// Why the program prints no report. Its text is the line for standard error.
#[derive(Debug, Drop, Error)]
pub enum Fault {
    /// Wrong words, or a file that can't be read.
    Usage,
    /// The file's bytes are refused, at an offset from the file's first byte.
    RefusedAt { offset: usize, kind: &'static str },
    /// The bytes are refused, without an offset.
    Refused { kind: &'static str },
}

impl Fault {
    /// The program's exit status.
    pub fn status(&self) -> u8
        ensures { result ≡ status_of self.now }
    {
        match self {
            Fault::RefusedAt { .. } | Fault::Refused { .. } => 1,
            Fault::Usage => 2,
        }
    }

    // A fault of this name, with this offset if there is one.
    fn named(place: Option<usize>, kind: &'static str) -> Fault
        ensures { IsNamed place kind.now result }
    {
        match place {
            Some(offset) => Fault::RefusedAt { offset, kind },
            None => Fault::Refused { kind },
        }
    }

    /// The fault of bytes that begin at offset `start` of the file.
    pub fn after(start: usize, error: ReadError) -> Fault
        requires { IfSome (offset_of error) (λ offset. start + offset < 2 ^ 64) }
        ensures { IsRefusalAfter start error result }
    {
        let place = error.offset().map(|offset| start + offset);
        Fault::named(place, error.name())
    }
}

impl fmt::Display for Fault {
    ghost output = { λ fault. Some (line_of fault) };

    fn fmt<W: fmt::Write>(&self, f: &mut fmt::Formatter<W>) -> fmt::Result {
        match self {
            Fault::Usage => {
                write!(
                    f,
                    "usage: acpiread table FILE | aml FILE [NAME=N ..] | dsdt FILE [NAME=N ..]"
                )
            }
            Fault::RefusedAt { offset, kind } => write!(f, "refused at {offset}: {kind}"),
            Fault::Refused { kind } => write!(f, "refused: {kind}"),
        }
    }
}

impl From<ReadError> for Fault {
    ghost from_gives = { IsRefusal };

    fn from(error: ReadError) -> Fault {
        Fault::named(error.offset(), error.name())
    }
}

impl From<Unstated> for Fault {
    ghost from_gives = { IsOfWords };

    fn from(unstated: Unstated) -> Fault {
        match unstated {
            Unstated::Word => Fault::Usage,
            Unstated::Memory => Fault::from(ReadError::Memory),
        }
    }
}

impl From<AllocError> for Fault {
    ghost from_gives = { λ _ fault. IsRefusal Memory fault };

    fn from(_error: AllocError) -> Fault {
        Fault::from(ReadError::Memory)
    }
}

impl<T: Drop> From<AllocFailed<T>> for Fault {
    ghost from_gives = { λ _ fault. IsRefusal Memory fault };

    fn from(_error: AllocFailed<T>) -> Fault {
        Fault::from(ReadError::Memory)
    }
}
