//! The names and texts of errors.

use acpi_tables::Error;
use acpi_tables::read::ReadError;
use std::alloc::Global;
use std::test::Fail;
use test_support::agree;

fn says(alloc: Global, error: Error, text: &str) -> Result<(), Fail> {
    agree(&format!(in alloc; "{error}")?, text)
}

#[test]
fn errors(rt: HostRuntime) -> Result<(), Fail> {
    for (error, name, text) in [
        (Error::Memory, "Memory", "out of memory"),
        (Error::Sink(7), "Sink", "error 7 of a sink"),
        (
            Error::NamePart,
            "NamePart",
            "a part of a path doesn't have four bytes",
        ),
        (
            Error::PathParts,
            "PathParts",
            "a path has more than 255 parts",
        ),
        (
            Error::EisaText,
            "EisaText",
            "an EISA id is three letters from A to Z and four hexadecimal digits",
        ),
        (
            Error::UuidText,
            "UuidText",
            "a UUID is 8, 4, 4, 4 and 12 hexadecimal digits between dashes",
        ),
        (
            Error::ArgNumber,
            "ArgNumber",
            "the number of an argument is at most 6",
        ),
        (
            Error::LocalNumber,
            "LocalNumber",
            "the number of a local variable is at most 7",
        ),
        (
            Error::MethodArgs,
            "MethodArgs",
            "a method has at most 7 arguments",
        ),
        (
            Error::PackageElements,
            "PackageElements",
            "a package has at most 255 elements",
        ),
        (
            Error::PkgLength,
            "PkgLength",
            "a PkgLength is less than 2^28",
        ),
        (
            Error::AddressRange,
            "AddressRange",
            "an address range ends before it starts, or is all of its type",
        ),
        (
            Error::FieldWidth,
            "FieldWidth",
            "a length, a count or an offset doesn't fit its field",
        ),
        (
            Error::PciAddress,
            "PciAddress",
            "a PCI device is at most 31 and a PCI function at most 7",
        ),
        (
            Error::Targets,
            "Targets",
            "the number of interleave targets isn't the number of interleave ways",
        ),
        (Error::Index, "Index", "an index is outside the matrix"),
        (
            Error::Matrix,
            "Matrix",
            "the size of a matrix doesn't fit 32 bits",
        ),
        (
            Error::ShortTable,
            "ShortTable",
            "a table has at least the 36 bytes of the standard header",
        ),
        (
            Error::LogAreaSet,
            "LogAreaSet",
            "the log area is set already",
        ),
        (
            Error::ImsicSet,
            "ImsicSet",
            "the incoming MSI controller is there already",
        ),
    ] {
        agree(error.name(), name)?;
        says(rt.alloc(), error, text)?;
    }
    Ok(())
}

fn read_says(alloc: Global, error: ReadError, text: &str) -> Result<(), Fail> {
    agree(&format!(in alloc; "{error}")?, text)
}

#[test]
fn read_errors(rt: HostRuntime) -> Result<(), Fail> {
    for (error, text) in [
        (ReadError::Memory, "out of memory"),
        (
            ReadError::Truncated(1),
            "at offset 1: the bytes end within a term",
        ),
        (ReadError::Opcode(2), "at offset 2: no term begins so"),
        (
            ReadError::NameText,
            "a name is 1 to 255 standard segments, after a backslash or none",
        ),
        (
            ReadError::Length(300),
            "at offset 300: a PkgLength doesn't fit what surrounds it",
        ),
        (
            ReadError::Number(4),
            "at offset 4: a number isn't in its shortest form",
        ),
        (
            ReadError::Count(5),
            "at offset 5: a count isn't the number of what it counts",
        ),
        (ReadError::Flags(6), "at offset 6: flags have no meaning"),
        (
            ReadError::Text(7),
            "at offset 7: a string has a byte past 7F",
        ),
        (ReadError::TooDeep(8), "at offset 8: terms nest too deep"),
        (
            ReadError::Arity,
            "a name is given arguments twice, or more than 7",
        ),
        (
            ReadError::ShortHeader(35),
            "at offset 35: a table has at least the 36 bytes of the standard header",
        ),
        (
            ReadError::TableLength(4),
            "at offset 4: the length of a table isn't the number of its bytes",
        ),
        (
            ReadError::Sum(9),
            "at offset 9: the bytes of a table don't sum to zero",
        ),
        (
            ReadError::Structure(44),
            "at offset 44: a structure isn't as long as it says",
        ),
        (
            ReadError::UnknownSource(40),
            "at offset 40: the size of an error source isn't known",
        ),
    ] {
        read_says(rt.alloc(), error, text)?;
    }
    Ok(())
}
