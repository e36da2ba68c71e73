//! Errors of the library.

ghost use Rattle.std.specs.Prelude.{◌≡◌, Some};
ghost use Rattle.acpi_base.specs.Error.{text_of};
ghost use Rattle.acpi_base.specs.declared.error.Error.TheVariants.{Memory};
ghost use Rattle.acpi_base.specs.Error.{name_of};

use std::alloc::{AllocError, AllocFailed};
use std::fmt;

/// Why a call failed.
#[derive(Clone, Copy, Debug, PartialEq)]
pub enum Error {
    /// The allocator refused memory.
    Memory,
    /// An error for sinks and objects that a caller writes. No call of these crates creates it.
    Sink(u32),
    /// A part of a path isn't four bytes long (ACPI 6.5, 20.2.2).
    NamePart,
    /// A path has more than 255 parts.
    PathParts,
    /// The text isn't an EISA id: three letters from `A` to `Z` and four hexadecimal digits (ACPI 6.5, 6.1.5).
    EisaText,
    /// The text isn't a UUID: 8, 4, 4, 4 and 12 hexadecimal digits with dashes between these groups (ACPI 6.5, 19.6.142).
    UuidText,
    /// The number of an argument (`Arg`) is more than 6.
    ArgNumber,
    /// The number of a local variable (`Local`) is more than 7.
    LocalNumber,
    /// A method has more than 7 arguments.
    MethodArgs,
    /// A package has more than 255 elements.
    PackageElements,
    /// The value of a PkgLength would be 2^28 or more (ACPI 6.5, 20.2.4).
    PkgLength,
    /// An address range ends before its start, or covers all values of its type.
    AddressRange,
    /// A length, a count or an offset is too large for its field.
    FieldWidth,
    /// The number of a PCI device is more than 31, or that of a PCI function more than 7.
    PciAddress,
    /// The number of interleave targets isn't the number of interleave ways.
    Targets,
    /// An index is outside of a matrix.
    Index,
    /// The size of a matrix doesn't fit 32 bits.
    Matrix,
    /// A table would be shorter than the standard header of 36 bytes.
    ShortTable,
    /// The table has a log area already.
    LogAreaSet,
    /// The table has an incoming MSI controller already.
    ImsicSet,
}

pub type R<T> = Result<T, Error>;

impl Error {
    /// The error's name.
    pub fn name(self) -> &'static str
        ensures { result.now ≡ name_of self }
    {
        match self {
            Error::Memory => "Memory",
            Error::Sink(_) => "Sink",
            Error::NamePart => "NamePart",
            Error::PathParts => "PathParts",
            Error::EisaText => "EisaText",
            Error::UuidText => "UuidText",
            Error::ArgNumber => "ArgNumber",
            Error::LocalNumber => "LocalNumber",
            Error::MethodArgs => "MethodArgs",
            Error::PackageElements => "PackageElements",
            Error::PkgLength => "PkgLength",
            Error::AddressRange => "AddressRange",
            Error::FieldWidth => "FieldWidth",
            Error::PciAddress => "PciAddress",
            Error::Targets => "Targets",
            Error::Index => "Index",
            Error::Matrix => "Matrix",
            Error::ShortTable => "ShortTable",
            Error::LogAreaSet => "LogAreaSet",
            Error::ImsicSet => "ImsicSet",
        }
    }
}

/// The error as text, for the user of a program.
impl fmt::Display for Error {
    ghost output = { λ error. Some (text_of error) };

    fn fmt<W: fmt::Write>(&self, f: &mut fmt::Formatter<W>) -> fmt::Result {
        match self {
            Error::Memory => write!(f, "out of memory"),
            Error::Sink(code) => write!(f, "error {code} of a sink"),
            Error::NamePart => write!(f, "a part of a path doesn't have four bytes"),
            Error::PathParts => write!(f, "a path has more than 255 parts"),
            Error::EisaText => write!(
                f,
                "an EISA id is three letters from A to Z and four hexadecimal digits"
            ),
            Error::UuidText => write!(
                f,
                "a UUID is 8, 4, 4, 4 and 12 hexadecimal digits between dashes"
            ),
            Error::ArgNumber => write!(f, "the number of an argument is at most 6"),
            Error::LocalNumber => write!(f, "the number of a local variable is at most 7"),
            Error::MethodArgs => write!(f, "a method has at most 7 arguments"),
            Error::PackageElements => write!(f, "a package has at most 255 elements"),
            Error::PkgLength => write!(f, "a PkgLength is less than 2^28"),
            Error::AddressRange => write!(
                f,
                "an address range ends before it starts, or is all of its type"
            ),
            Error::FieldWidth => write!(f, "a length, a count or an offset doesn't fit its field"),
            Error::PciAddress => write!(
                f,
                "a PCI device is at most 31 and a PCI function at most 7"
            ),
            Error::Targets => write!(
                f,
                "the number of interleave targets isn't the number of interleave ways"
            ),
            Error::Index => write!(f, "an index is outside the matrix"),
            Error::Matrix => write!(f, "the size of a matrix doesn't fit 32 bits"),
            Error::ShortTable => write!(
                f,
                "a table has at least the 36 bytes of the standard header"
            ),
            Error::LogAreaSet => write!(f, "the log area is set already"),
            Error::ImsicSet => write!(f, "the incoming MSI controller is there already"),
        }
    }
}

impl std::error::Error for Error {}

impl From<AllocError> for Error {
    ghost from_gives = { λ _ e. e ≡ Memory };

    fn from(_error: AllocError) -> Error {
        Error::Memory
    }
}

impl<T: Drop> From<AllocFailed<T>> for Error {
    ghost from_gives = { λ _ e. e ≡ Memory };

    fn from(_error: AllocFailed<T>) -> Error {
        Error::Memory
    }
}
