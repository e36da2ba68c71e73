//! Why a block wasn't built.

ghost use Rattle.std.specs.Prelude.{◌≡◌, Some};
ghost use Rattle.acpi_base.specs.declared.error.Error.TheVariants.{Memory};
ghost use Rattle.acpi_build.specs.declared.error.BuildError.TheVariants.{Object};
ghost use Rattle.acpi_build.specs.Error.{text_of};

use acpi_base::error::Error;
use std::alloc::{AllocError, AllocFailed};
use std::fmt;

/// Why a block wasn't built.
#[derive(Clone, Copy, Debug, PartialEq)]
pub enum BuildError {
    /// The error of an object, of a path, or of memory.
    Object(Error),
    /// An operator has another number of operands.
    Operands,
    /// A call of `end` has no open object.
    NoneOpen,
    /// An object is still open at the end.
    StillOpen,
}

/// The error as text, for the user of a program.
impl fmt::Display for BuildError {
    ghost output = { λ error. Some (text_of error) };

    fn fmt<W: fmt::Write>(&self, f: &mut fmt::Formatter<W>) -> fmt::Result {
        match self {
            BuildError::Object(error) => write!(f, "{error}"),
            BuildError::Operands => write!(f, "an operator has another number of operands"),
            BuildError::NoneOpen => write!(f, "no object is open"),
            BuildError::StillOpen => write!(f, "an object is still open"),
        }
    }
}

impl std::error::Error for BuildError {}

impl From<Error> for BuildError {
    ghost from_gives = { λ error e. e ≡ Object error };

    fn from(error: Error) -> BuildError {
        BuildError::Object(error)
    }
}

impl From<AllocError> for BuildError {
    ghost from_gives = { λ _ e. e ≡ Object Memory };

    fn from(_error: AllocError) -> BuildError {
        BuildError::Object(Error::Memory)
    }
}

impl<T: Drop> From<AllocFailed<T>> for BuildError {
    ghost from_gives = { λ _ e. e ≡ Object Memory };

    fn from(_error: AllocFailed<T>) -> BuildError {
        BuildError::Object(Error::Memory)
    }
}
