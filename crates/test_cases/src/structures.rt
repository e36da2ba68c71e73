//! The command `structures`: the structures of any table, also of those that `acpiread` doesn't walk.

use acpi_read::pieces::Piece;
use acpi_read::report::report_header;
use acpi_read::table::Table;
use acpi_term::read_error::ReadError;
use acpiread_program::fault::Fault;
use std::alloc::Global;
use std::io;
use std::io::Write;

// Adds the line of a structure.
fn push_structure(
    table: &Table<'_>,
    piece: &Piece<'_>,
    text: &mut String,
) -> Result<(), ReadError> {
    let (offset, size) = (piece.offset, piece.bytes.len());
    match piece.kind(table) {
        Some(kind) => write!(text, "{offset} type {kind} size {size}\n")?,
        None => write!(text, "{offset} entry size {size}\n")?,
    }
    Ok(())
}

// Returns the first line of a table, and a line for each structure.
fn report(alloc: Global, bytes: &[u8]) -> Result<String, ReadError> {
    let table = Table::check(bytes)?;
    let structures = table.structures(alloc)?;
    let mut text = report_header(alloc, &table)?;
    for structure in &structures {
        push_structure(&table, structure, &mut text)?;
    }
    Ok(text)
}

/// Prints the structures of a table to `out`, or its fault to `err`, and returns 0 or 1.
pub fn print_structures(
    alloc: Global,
    bytes: &[u8],
    out: &mut Vec<u8>,
    err: &mut Vec<u8>,
) -> io::Result<u8> {
    match report(alloc, bytes) {
        Ok(text) => {
            out.write_all(text.as_bytes())?;
            Ok(0)
        }
        Err(error) => {
            let fault = Fault::from(error);
            writeln!(err, "{fault}")?;
            Ok(1)
        }
    }
}
