//! Terms that no bytes spell: `spell` returns an error, and the report shows their widths.

use crate::terms::{begins, read};
use acpi_base::error::Error;
use acpi_term::name_string::NameString;
use acpi_term::read_error::ReadError;
use acpi_term::spell::spell;
use acpi_term::term::{Term, TermEntry};
use std::alloc::Global;
use std::test::Fail;
use test_support::refuses;

fn refused(alloc: Global, term: Term, error: Error) -> Result<(), Fail> {
    refuses(spell(alloc, &[term]), error)
}

// One more than the greatest number of each width, and widths that no number has.
#[test]
fn numbers(rt: HostRuntime) -> Result<(), Fail> {
    for (value, width) in [
        (2, 0),
        (0x100, 1),
        (0x1_0000, 2),
        (0x1_0000_0000, 4),
        (0, 3),
        (1, 3),
        (1, 5),
        (1, 6),
        (1, 7),
        (0, 9),
        (1, 9),
        (1, 255),
    ] {
        let number = Term::Number { value, width };
        refused(rt.alloc(), number, Error::FieldWidth)?;
    }
    Ok(())
}

#[test]
fn objects(rt: HostRuntime) -> Result<(), Fail> {
    refused(rt.alloc(), Term::Local(8), Error::LocalNumber)?;
    refused(rt.alloc(), Term::Arg(7), Error::ArgNumber)
}

#[test]
fn methods(rt: HostRuntime) -> Result<(), Fail> {
    let method = Term::Method {
        width: 1,
        name: NameString::new(rt.alloc(), "MTHD")?,
        args: 8,
        serialized: false,
        body: Vec::new(rt.alloc()),
    };
    refused(rt.alloc(), method, Error::MethodArgs)
}

// A package with too many elements, one that is too long for a length of one byte, and widths that no length has.
#[test]
fn packages(rt: HostRuntime) -> Result<(), Fail> {
    let rows: [(u8, &[u8], Error); 5] = [
        (2, &[0; 256], Error::PackageElements),
        (1, &[0; 62], Error::PkgLength),
        (0, &[], Error::PkgLength),
        (5, &[], Error::PkgLength),
        (255, &[], Error::PkgLength),
    ];
    for (width, zeros, error) in rows {
        let elements = read(rt.alloc(), zeros)?;
        refused(rt.alloc(), Term::Package { width, elements }, error)?;
    }
    Ok(())
}

const LONG: &str = "ABCD.ABCD.ABCD.ABCD.ABCD.ABCD.ABCD.ABCD.ABCD.ABCD.ABCD.ABCD";

fn field(
    alloc: Global,
    name: &str,
    width: u8,
    update: u8,
    entries: Vec<TermEntry>,
) -> Result<Term, ReadError> {
    Ok(Term::Field {
        width,
        name: NameString::new(alloc, name)?,
        access: 0,
        lock: 0,
        update,
        entries,
    })
}

fn entry(alloc: Global, entry: TermEntry) -> Result<Term, ReadError> {
    let entries = vec![in alloc; entry]?;
    field(alloc, "PRST", 1, 0, entries)
}

// One bit more than the greatest number of each width, and widths that no entry has.
#[test]
fn entries(rt: HostRuntime) -> Result<(), Fail> {
    for (bits, width) in [
        (0x40, 1),
        (0x1000, 2),
        (0x10_0000, 3),
        (0x1000_0000, 4),
        (0, 0),
        (0, 5),
        (0, 255),
    ] {
        let reserved = entry(rt.alloc(), TermEntry::Reserved(bits, width))?;
        refused(rt.alloc(), reserved, Error::PkgLength)?;
        let named = entry(rt.alloc(), TermEntry::Named(*b"AAAA", bits, width))?;
        refused(rt.alloc(), named, Error::PkgLength)?;
    }
    Ok(())
}

// An update rule that isn't two bits.
#[test]
fn updates(rt: HostRuntime) -> Result<(), Fail> {
    let field = field(rt.alloc(), "PRST", 1, 8, Vec::new(rt.alloc()))?;
    refused(rt.alloc(), field, Error::FieldWidth)
}

// A number that fits another width, and bits that fit none.
#[test]
fn widths(rt: HostRuntime) -> Result<(), Fail> {
    let number = Term::Number {
        value: 256,
        width: 1,
    };
    begins(rt.alloc(), &[number], "number 256 width 1\n")?;
    begins(
        rt.alloc(),
        &[entry(rt.alloc(), TermEntry::Reserved(0x1000_0000, 4))?],
        "field PRST access 0 lock 0 update 0\n  reserved bits 268435456 width 4\n",
    )
}

// An Else with one of width 0, in which there are zeros.
fn nested(alloc: Global, width: u8, zeros: &[u8]) -> Result<Term, ReadError> {
    let body = read(alloc, zeros)?;
    let body = vec![in alloc; Term::Else { width: 0, body }]?;
    Ok(Term::Else { width, body })
}

// A length of no bytes counts as one byte. So an Else with 60 zeros is a content of 62 bytes, and one with 61 zeros of 63 bytes.
#[test]
fn frames_of_no_width(rt: HostRuntime) -> Result<(), Fail> {
    let rows: [(&[u8], u8, &str); 4] = [
        (&[0; 60], 1, "else\n"),
        (&[0; 60], 2, "else width 2\n"),
        (&[0; 61], 1, "else width 1\n"),
        (&[0; 61], 2, "else\n"),
    ];
    for (zeros, width, line) in rows {
        begins(rt.alloc(), &[nested(rt.alloc(), width, zeros)?], line)?;
    }
    Ok(())
}

const NAMED: TermEntry = TermEntry::Named(*b"AAAA", 1, 0);

const RESERVED: TermEntry = TermEntry::Reserved(1, 0);

// Entries of 11 bytes, or of 12, if a length of no bytes counts as one byte.
fn entries_of(alloc: Global, size: usize) -> Result<Vec<TermEntry>, ReadError> {
    if size == 11 {
        Ok(vec![in alloc; NAMED, RESERVED, RESERVED, RESERVED]?)
    } else {
        Ok(vec![in alloc; NAMED, NAMED, RESERVED]?)
    }
}

// A field of a name of 50 bytes, flags and these entries.
fn counted(alloc: Global, width: u8, size: usize) -> Result<Term, ReadError> {
    field(alloc, LONG, width, 0, entries_of(alloc, size)?)
}

// These are contents of 62 and of 63 bytes.
#[test]
fn entries_of_no_width(rt: HostRuntime) -> Result<(), Fail> {
    for (size, width, line) in [
        (
            11,
            1,
            "field ABCD.ABCD.ABCD.ABCD.ABCD.ABCD.ABCD.ABCD.ABCD.ABCD.ABCD.ABCD access 0 lock 0 update 0\n",
        ),
        (
            11,
            2,
            "field ABCD.ABCD.ABCD.ABCD.ABCD.ABCD.ABCD.ABCD.ABCD.ABCD.ABCD.ABCD access 0 lock 0 update 0 width 2\n",
        ),
        (
            12,
            1,
            "field ABCD.ABCD.ABCD.ABCD.ABCD.ABCD.ABCD.ABCD.ABCD.ABCD.ABCD.ABCD access 0 lock 0 update 0 width 1\n",
        ),
        (
            12,
            2,
            "field ABCD.ABCD.ABCD.ABCD.ABCD.ABCD.ABCD.ABCD.ABCD.ABCD.ABCD.ABCD access 0 lock 0 update 0\n",
        ),
    ] {
        let field = counted(rt.alloc(), width, size)?;
        begins(rt.alloc(), &[field], line)?;
    }
    Ok(())
}
