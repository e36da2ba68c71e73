//! Terms of bytes that are changed, and of bytes that are compared.

use acpi_read::report::report_terms;
use acpi_read::terms::{standard_terms, terms};
use acpi_term::name_string::{Arities, NameString};
use acpi_term::read_error::ReadError;
use acpi_term::spell::spell;
use acpi_term::term::Term;
use std::alloc::Global;
use std::test::Fail;
use test_support::mutation::{Numbers, change};
use test_support::{equal, same};

/// MTHD takes this many arguments.
pub fn stated(alloc: Global, count: u8) -> Result<Arities, ReadError> {
    let name = NameString::new(alloc, "MTHD")?;
    let counts = vec![in alloc; (name, count)]?;
    Arities::new(counts)
}

/// The terms of bytes, if MTHD takes two arguments.
pub fn read(alloc: Global, bytes: &[u8]) -> Result<Vec<Term>, ReadError> {
    let arities = stated(alloc, 2)?;
    terms(bytes, &arities)
}

/// Fails unless the report of terms begins with this text.
pub fn begins(alloc: Global, list: &[Term], text: &str) -> Result<(), Fail> {
    equal(&report_terms(alloc, list)?.starts_with(text), &true)
}

// The memory of a tree of terms is mostly this.
#[test]
fn a_term_takes_48_bytes() -> Result<(), Fail> {
    equal(&size_of::<Term>(), &48)
}

// The greatest number of each width, the last local and argument objects, a method with seven arguments, and the last of a
// field's rules. Their spelling is the bytes.
#[test]
fn limits(rt: HostRuntime) -> Result<(), Fail> {
    let bytes =
        b"\x0a\xff\x0b\xff\xff\x0c\xff\xff\xff\xff\x0e\xff\xff\xff\xff\xff\xff\xff\xff\x67\x6e\
        \x14\x06MTHD\x0f\x5b\x81\x06PRST\x55";
    let list = terms(bytes, &stated(rt.alloc(), 0)?)?;
    same(&spell(rt.alloc(), &list)?, bytes)
}

// What only the language of the standard has: names with `^` and the root alone, External, a method with a level, Processor,
// ThermalZone, a package with room, IndexField, BankField, connections and access of fields, and an operator. The spelling of the
// terms is the bytes.
#[test]
fn standard(rt: HostRuntime) -> Result<(), Fail> {
    let alloc = rt.alloc();
    let arities = stated(alloc, 0)?;
    let parts = [
        b"\x15\x5c\x2e_SB_PCI0\x06\x00".as_slice(),
        b"\x10\x0b\x5c\x00\x08\x5e\x5eABCD\x00".as_slice(),
        b"\x14\x06MTHD\xff".as_slice(),
        b"\x5b\x83\x0bCPU0\xff\x01\x02\x03\x04\xfe".as_slice(),
        b"\x5b\x85\x05TZ00".as_slice(),
        b"\x12\x03\xff\x01".as_slice(),
        b"\x5b\x86\x0fINDXDATA\x55REG0\x08".as_slice(),
        b"\x5b\x87\x13REGNBNKR\x0a\x02\x01\x00\x20BFLD\x08".as_slice(),
        b"\x5b\x81\x0bSBUS\x05\x02CONN".as_slice(),
        b"\x5b\x81\x09SBUS\x05\x01\x05\x06".as_slice(),
        b"\x5b\x86\x0eINDXDATA\x55\x03\x05\x0b\x10".as_slice(),
        b"\x5b\x81\x0fGPOR\x01\x02\x11\x47\x00\x0b\x02\x00\x79\x00".as_slice(),
        b"\x5b\x12\x5eABCD\x60".as_slice(),
    ];
    let mut all = Vec::new(alloc);
    for part in &parts {
        equal(&terms(part, &arities).is_err(), &true)?;
        all.extend_from_slice(part)?;
    }
    let list = standard_terms(&all, &arities)?;
    same(&spell(alloc, &list)?, &all)
}

// A serial port: a device with an id and a template of an interrupt and a port.
const PORT: [u8; 50] =
    *b"\x5b\x82\x30\x2e_SB_COM1\x08_HID\x0c\x41\xd0\x05\x01\x08_CRS\x11\x16\x0a\x13\
\x89\x06\x00\x03\x01\x04\x00\x00\x00\x47\x01\xf8\x03\xf8\x03\x00\x08\x79\x00";

// Valid terms, and the offsets of pieces in them that can be swapped: the serial port; a method with a loop and a branch, and a
// call of it; a region, a field and a mutex; and packages, a string, a power resource and numbers.
fn sample(index: usize) -> (&'static [u8], &'static [usize]) {
    match index {
        0 => (&PORT, &[0, 12, 22, 50]),
        1 => (
            b"\x10\x1f\\_SB_\x14\x18MTHD\x02\xa2\x09\x95\x60\x0a\x05\x72\x60\x01\x60\xa0\x07\x92\x93\x68\x00\xa4\x01\
MTHD\x01\x0a\x05\xa1\x03\x00\x01",
            &[0, 7, 14, 24, 32, 39, 43],
        ),
        2 => (
            b"\x5b\x80PRST\x01\x0b\xd8\x0c\x0a\x0c\x5b\x81\x0dPRST\x41\x00\x20CPEN\x01\x5b\x81\x09PRST\x00\x00\x4f\x03\
\x5b\x01MLCK\x0b\x5b\x23MLCK\xfe\xff\x5b\x27MLCK",
            &[0, 12, 27, 38, 45, 53, 59],
        ),
        _ => (
            b"\x12\x0a\x02MTH1MTH2\x13\x04\x68\x00\x01\x0dPNP0501\x00\x5b\x84\x0aPRSC\x03\x34\x12\x00\x01\
\x0e\x00\x00\x00\x00\x01\x00\x00\x00\xff",
            &[0, 11, 16, 25, 37, 46, 47],
        ),
    }
}

// Fails unless terms are spelled by these bytes, and have a report.
fn is_right(alloc: Global, bytes: &[u8], list: &[Term]) -> Result<(), Fail> {
    let spelled = spell(alloc, list)?;
    same(&spelled, bytes)?;
    let report = report_terms(alloc, list)?;
    equal(&(report.len() >= list.len()), &true)
}

// Whether the bytes can be read. The offset of a fault isn't past their end.
fn is_read(alloc: Global, bytes: &[u8], arities: &Arities) -> Result<bool, Fail> {
    match terms(bytes, arities) {
        Ok(list) => {
            is_right(alloc, bytes, &list)?;
            Ok(true)
        }
        Err(error) => {
            equal(
                &matches!(error.offset(), Some(offset) if offset <= bytes.len()),
                &true,
            )?;
            Ok(false)
        }
    }
}

// Whether a sample can be read after random changes.
fn is_read_changed(
    alloc: Global,
    index: usize,
    numbers: &mut Numbers,
    arities: &Arities,
) -> Result<bool, Fail> {
    let (bytes, seams) = sample(index);
    let mut changed = Vec::from_slice(alloc, bytes)?;
    change(numbers, &mut changed, seams)?;
    is_read(alloc, &changed, arities)
}

#[test]
fn mutated(rt: HostRuntime) -> Result<(), Fail> {
    let arities = stated(rt.alloc(), 2)?;
    let mut numbers = Numbers(0x2545_f491_4f6c_dd1d);
    let mut read = 0u32;
    for count in 0..20_000usize {
        if is_read_changed(rt.alloc(), count % 4, &mut numbers, &arities)? {
            read = read.wrapping_add(1);
        }
    }
    equal(&(1_000..19_000).contains(&read), &true)
}

// Each byte in turn is replaced by each value.
#[test]
fn replacements(rt: HostRuntime) -> Result<(), Fail> {
    let arities = stated(rt.alloc(), 2)?;
    for index in 0..50usize {
        let mut bytes = PORT;
        for value in 0..=255u8 {
            bytes[index] = value;
            is_read(rt.alloc(), &bytes, &arities)?;
        }
    }
    Ok(())
}

#[test]
fn many_terms(rt: HostRuntime) -> Result<(), Fail> {
    let bytes = b"\x70\x01\x60".as_slice().repeat(rt.alloc(), 20_000)?;
    equal(&read(rt.alloc(), &bytes)?.len(), &20_000)
}

fn are_equal(alloc: Global, first: &[u8], second: &[u8]) -> Result<bool, Fail> {
    Ok(read(alloc, first)? == read(alloc, second)?)
}

// Terms are equal if their widths, entries and names are.
#[test]
fn equal_terms(rt: HostRuntime) -> Result<(), Fail> {
    let rows: &[(&[u8], &[u8], bool)] = &[
        (b"\x12\x04\x02\x00\x01", b"\x12\x04\x02\x00\x01", true),
        (b"\x12\x04\x02\x00\x01", b"\x12\x45\x00\x02\x00\x01", false),
        (
            b"\x5b\x81\x08PRST\x00\x00\x01",
            b"\x5b\x81\x0bPRST\x00CPEN\x01",
            false,
        ),
        (b"ABCD", b"\\ABCD", false),
    ];
    for (first, second, wanted) in rows {
        equal(&are_equal(rt.alloc(), first, second)?, wanted)?;
    }
    Ok(())
}
