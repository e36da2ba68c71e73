//! Tables that were cut or repeated, or whose bytes were changed.

use crate::tables::joined::{joined, reported};
use crate::tables::samples::{COUNT, Sample, nth};
use acpi_base::error::R;
use acpi_read::report::report_table;
use acpi_read::table::Table;
use acpi_term::read_error::ReadError;
use std::alloc::Global;
use std::test::Fail;
use test_support::equal;
use test_support::mutation::{Numbers, change};
use test_support::table::mend;

// The error of the first part of a table with the right length and sum. There is none if it ends with a structure and no field
// contains the number of structures.
fn error_of(sample: &Sample, size: usize) -> Option<ReadError> {
    if size < sample.start {
        return Some(ReadError::Structure(size));
    }
    let mut last = 0;
    for seam in sample.seams {
        if *seam <= size {
            last = *seam;
        }
    }
    if last < size {
        Some(ReadError::Structure(last))
    } else if sample.count > 0 {
        Some(ReadError::Count(sample.count))
    } else {
        None
    }
}

fn mended(alloc: Global, bytes: &[u8]) -> R<Vec<u8>> {
    let mut mended = Vec::from_slice(alloc, bytes)?;
    mend(&mut mended);
    Ok(mended)
}

// Fails unless the first part of a table, with the right length and sum, has the structures that it should have.
fn is_cut(alloc: Global, sample: &Sample, part: &[u8]) -> Result<(), Fail> {
    let table = Table::check(part)?;
    let wanted = error_of(sample, part.len());
    equal(&table.structures(alloc).err(), &wanted)?;
    let in_pieces = wanted.filter(|_| sample.has_pieces());
    equal(&table.pieces(alloc).err(), &in_pieces)?;
    equal(&report_table(alloc, &table).err(), &in_pieces)?;
    equal(&reported(alloc, sample, part)?.is_none(), &wanted.is_some())
}

// Fails unless the first part of a table is refused.
fn is_begun(alloc: Global, sample: &Sample, part: &[u8]) -> Result<(), Fail> {
    let wanted = match part.len() {
        size @ ..36 => ReadError::ShortHeader(size),
        _ => ReadError::TableLength(4),
    };
    equal(&Table::check(part).err(), &Some(wanted))?;
    if part.len() < 36 {
        return Ok(());
    }
    is_cut(alloc, sample, &mended(alloc, part)?)
}

fn all_are_begun(alloc: Global, sample: &Sample, bytes: &[u8]) -> Result<(), Fail> {
    equal(&reported(alloc, sample, bytes)?.is_some(), &true)?;
    for size in 0..bytes.len() {
        is_begun(alloc, sample, &bytes[..size])?;
    }
    Ok(())
}

// Each first part of a table of each signature: unchanged, and with the right length and sum.
#[test]
fn beginnings(rt: HostRuntime) -> Result<(), Fail> {
    for index in 0..COUNT {
        let sample = nth(index);
        all_are_begun(rt.alloc(), &sample, &sample.bytes(rt.alloc())?)?;
    }
    Ok(())
}

// Adds a number to the byte at an offset, modulo 256, if there is this byte.
fn add(bytes: &mut [u8], at: usize, more: u8) {
    if at < bytes.len() {
        bytes[at] = bytes[at].wrapping_add(more);
    }
}

// A table whose structures, of this number, are there 5,000 times.
fn repeated(alloc: Global, sample: &Sample, bytes: &[u8], once: usize) -> R<Vec<u8>> {
    let (_, structures) = bytes.split_at(sample.start.min(bytes.len()));
    let mut many = Vec::from_slice(alloc, bytes)?;
    for _ in 1..5_000u32 {
        many.extend_from_slice(structures)?;
    }
    if sample.count > 0 {
        let [low, high, ..] = once.wrapping_mul(4_999).to_le_bytes();
        add(&mut many, sample.count, low);
        add(&mut many, sample.count.wrapping_add(1), high);
    }
    mend(&mut many);
    Ok(many)
}

fn is_repeated(alloc: Global, sample: &Sample, bytes: &[u8]) -> Result<(), Fail> {
    let once = reported(alloc, sample, bytes)?.ok_or("structures")?;
    let many = repeated(alloc, sample, bytes, once)?;
    equal(
        &reported(alloc, sample, &many)?,
        &Some(once.wrapping_mul(5_000)),
    )
}

// Tables with 5,000 times the structures. They have more than 65,535 bytes.
#[test]
fn later_offsets(rt: HostRuntime) -> Result<(), Fail> {
    for index in 0..COUNT {
        let sample = nth(index);
        is_repeated(rt.alloc(), &sample, &sample.bytes(rt.alloc())?)?;
    }
    Ok(())
}

// Each byte of a small table of each signature, replaced by each other value. The sum is wrong at first, and then right. With the
// right sum only a table of another length is refused.
#[test]
fn replacements(rt: HostRuntime) -> Result<(), Fail> {
    let alloc = rt.alloc();
    for index in 0..COUNT {
        let sample = nth(index);
        let mut bytes = sample.bytes(alloc)?;
        for at in 0..bytes.len() {
            for more in 1..=255u8 {
                add(&mut bytes, at, more);
                equal(&Table::check(&bytes).is_err(), &true)?;
                let less = 0u8.wrapping_sub(more);
                add(&mut bytes, 9, less);
                match Table::check(&bytes) {
                    Ok(table) => {
                        joined(alloc, &sample, &table)?;
                    }
                    Err(error) => equal(&error, &ReadError::TableLength(4))?,
                }
                add(&mut bytes, 9, more);
                add(&mut bytes, at, less);
            }
        }
    }
    Ok(())
}

// Every second table gets the right length and sum.
#[test]
fn mutated(rt: HostRuntime) -> Result<(), Fail> {
    let alloc = rt.alloc();
    let mut numbers = Numbers(0x9e37_79b9_7f4a_7c15);
    let mut walked = 0u32;
    for count in 0..20_000usize {
        let sample = nth(numbers.below(COUNT));
        let mut bytes = sample.bytes(alloc)?;
        change(&mut numbers, &mut bytes, sample.seams)?;
        if count % 2 == 0 && bytes.len() >= 36 {
            mend(&mut bytes);
        }
        if reported(alloc, &sample, &bytes)?.is_some() {
            walked = walked.wrapping_add(1);
        }
    }
    equal(&(1_000 < walked && walked < 19_000), &true)
}
