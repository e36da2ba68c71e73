//! Why a term can't be read, without its offset.

ghost use Rattle.std.specs.Prelude.{◌≡◌, ◌≢◌, Some};
ghost use Rattle.acpi_read.specs.declared.terms.cause.Cause.TheVariants.{Memory};
ghost use Rattle.acpi_term.specs.ReadError.{offset_of};
ghost use Rattle.acpi_read.specs.Cause.{cause_kind, error_kind, IsPlaced};

use acpi_term::read_error::ReadError;
use std::alloc::{AllocError, AllocFailed};

/// Why a term can't be read.
#[derive(Clone, Copy, Debug, PartialEq)]
pub enum Cause {
    Memory,
    Truncated,
    Opcode,
    Length,
    Count,
    Flags,
    Text,
}

impl Cause {
    /// The error for a term at an offset.
    pub fn at(self, offset: usize) -> ReadError
        ensures kind { error_kind result ≡ cause_kind self }
        ensures placed { IsPlaced offset result }
        ensures place { self ≢ Cause.Memory → offset_of result ≡ Some offset }
    {
        match self {
            Cause::Memory => ReadError::Memory,
            Cause::Truncated => ReadError::Truncated(offset),
            Cause::Opcode => ReadError::Opcode(offset),
            Cause::Length => ReadError::Length(offset),
            Cause::Count => ReadError::Count(offset),
            Cause::Flags => ReadError::Flags(offset),
            Cause::Text => ReadError::Text(offset),
        }
    }
}

impl From<AllocError> for Cause {
    ghost from_gives = { λ _ e. e ≡ Memory };

    fn from(_error: AllocError) -> Cause {
        Cause::Memory
    }
}

impl<T: Drop> From<AllocFailed<T>> for Cause {
    ghost from_gives = { λ _ e. e ≡ Memory };

    fn from(_error: AllocFailed<T>) -> Cause {
        Cause::Memory
    }
}
