//! The structures of a table, put together again.

use crate::tables::samples::Sample;
use acpi_read::pieces::Piece;
use acpi_read::report::report_table;
use acpi_read::table::Table;
use std::alloc::Global;
use std::test::Fail;
use test_support::equal;

// The byte at an offset, or 0 if there is none.
fn byte(bytes: &[u8], at: usize) -> usize {
    if at < bytes.len() {
        bytes[at] as usize
    } else {
        0
    }
}

// The number in two bytes, lowest first.
fn word(bytes: &[u8], low: usize, high: usize) -> usize {
    byte(bytes, high)
        .wrapping_mul(0x100)
        .wrapping_add(byte(bytes, low))
}

// The length of a structure, from its own bytes or its table's kind.
fn told(signature: &[u8; 4], structure: &[u8]) -> usize {
    match signature {
        b"XSDT" => 8,
        b"MCFG" => 16,
        b"HEST" => match word(structure, 0, 1) {
            6 => 48,
            7 => 44,
            8 => 56,
            9 => 64,
            _ => 92,
        },
        b"APIC" | b"SRAT" | b"PPTT" => byte(structure, 1),
        b"HMAT" => word(structure, 6, 7)
            .wrapping_mul(0x1_0000)
            .wrapping_add(word(structure, 4, 5)),
        b"GTDT" | b"DBG2" | b"IORT" => word(structure, 1, 2),
        _ => word(structure, 2, 3),
    }
}

// The type of a structure, if the structures of such tables have one.
fn kind(signature: &[u8; 4], structure: &[u8]) -> Option<usize> {
    match signature {
        b"XSDT" | b"MCFG" | b"DBG2" => None,
        b"HEST" | b"RHCT" | b"HMAT" => Some(word(structure, 0, 1)),
        _ => Some(byte(structure, 0)),
    }
}

// Where the structures of a table begin: at a fixed offset, or where its field says.
fn begin(sample: &Sample, bytes: &[u8]) -> usize {
    if sample.has_pieces() {
        return sample.start;
    }
    let first = sample.first;
    word(bytes, first.wrapping_add(2), first.wrapping_add(3))
        .wrapping_mul(0x1_0000)
        .wrapping_add(word(bytes, first, first.wrapping_add(1)))
}

// Fails unless each structure has its length and its type, and they follow each other from the first on up to the table's end.
fn are_joined(sample: &Sample, table: &Table, pieces: &[Piece<'_>]) -> Result<(), Fail> {
    let mut at = begin(sample, table.bytes());
    if at == 0 {
        return equal(&pieces.len(), &0);
    }
    for piece in pieces {
        equal(&piece.offset, &at)?;
        equal(&piece.bytes.is_empty(), &false)?;
        equal(&piece.bytes.len(), &told(sample.signature, piece.bytes))?;
        equal(&piece.kind(table), &kind(sample.signature, piece.bytes))?;
        at = at.wrapping_add(piece.bytes.len());
    }
    equal(&at, &table.bytes().len())
}

/// The structures of a table, if they can be found. A table of another signature than the sample's has no pieces. If they can't
/// be found, the offset of the fault is at most the number of bytes.
pub fn joined<'a>(
    alloc: Global,
    sample: &Sample,
    table: &Table<'a>,
) -> Result<Option<Vec<Piece<'a>>>, Fail> {
    let bytes = table.bytes();
    let signature = sample.signature;
    let found = if bytes.starts_with(signature) {
        table.structures(alloc)
    } else {
        table.pieces(alloc)
    };
    match found {
        Ok(pieces) => {
            if bytes.starts_with(signature) {
                are_joined(sample, table, &pieces)?;
            } else {
                equal(&pieces.len(), &0)?;
            }
            Ok(Some(pieces))
        }
        Err(error) => {
            let offset = error.offset().ok_or("an offset")?;
            equal(&(offset <= bytes.len()), &true)?;
            Ok(None)
        }
    }
}

// Fails unless the report has a line for the header and one for each structure. If there are no pieces, it has the first line.
fn are_reported(
    alloc: Global,
    sample: &Sample,
    table: &Table,
    found: Option<usize>,
) -> Result<(), Fail> {
    let report = report_table(alloc, table);
    let signature = sample.signature;
    let lines = match found {
        _ if !sample.has_pieces() && table.bytes().starts_with(signature) => 1,
        Some(count) => count.wrapping_add(1),
        None => return equal(&report.is_err(), &true),
    };
    equal(&report?.lines().count(), &lines)
}

/// The number of structures, if bytes are a table and its structures can be found. They are its bytes from their offsets on, and
/// the report has a line for each. If they can't be found, there is no report. The report of a table that `pieces` doesn't walk
/// has one line.
pub fn reported(alloc: Global, sample: &Sample, bytes: &[u8]) -> Result<Option<usize>, Fail> {
    let Ok(table) = Table::check(bytes) else {
        return Ok(None);
    };
    let Some(pieces) = joined(alloc, sample, &table)? else {
        are_reported(alloc, sample, &table, None)?;
        return Ok(None);
    };
    are_reported(alloc, sample, &table, Some(pieces.len()))?;
    for piece in &pieces {
        if piece.offset <= bytes.len() {
            let rest = &bytes[piece.offset..];
            equal(&rest.starts_with(piece.bytes), &true)?;
        }
    }
    Ok(Some(pieces.len()))
}
