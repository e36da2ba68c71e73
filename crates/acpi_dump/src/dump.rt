//! The tables of a dump.

ghost use Rattle.std.specs.Prelude.{◌≡◌, ◌≢◌, Ok, Err, IfOk, IfErr, map};
ghost use Rattle.std.specs.Char.{is_ascii_hexdigit};
ghost use Rattle.std.specs.List.{AllPass};
ghost use Rattle.std.specs.Str.Parse.{digits_value};
ghost use Rattle.acpi_dump.specs.Line.{bytes_in};
ghost use Rattle.acpi_dump.specs.Dump.{bytes, line_of, step, titled, latest_first, IsStep, is_dump, tables_of};
ghost use Rattle.acpi_dump.specs.declared.fault.DumpFault.TheVariants.{Memory};

use crate::digits::number;
use crate::fault::DumpFault;
use crate::line::{Parts, is_blank, is_title, parts_of, push_bytes};
use crate::lines::{split_line, without_return};
use std::alloc::Global;

/// A table of a dump.
#[derive(Debug, Drop)]
pub struct Dumped {
    /// The line before the table, without what ends it.
    pub title: Vec<u8>,
    /// The table's bytes.
    pub bytes: Vec<u8>,
}

// Adds the bytes of a line to the last table, which is taken out of the list while it grows.
fn add(line: usize, parts: Parts<'_>, tables: &mut Vec<Dumped>) -> Result<(), DumpFault>
    requires { AllPass is_ascii_hexdigit parts.digits.now }
    ensures { IsStep (step line (latest_first tables.old)
        (bytes (digits_value 16 parts.entry.digits.now) (bytes_in 16 parts.entry.rest.now))) (latest_first tables.new) result }
{
    let Some(mut table) = tables.pop() else {
        return Err(DumpFault::Untitled(line));
    };
    let size = table.bytes.len();
    match number(parts.digits) {
        Some(offset) if offset == size => {}
        _ => return Err(DumpFault::Offset(line, size)),
    }
    push_bytes(parts.rest, &mut table.bytes)?;
    tables.push(table)?;
    Ok(())
}

// Reads a line of this number.
fn read_line(
    alloc: Global,
    number: usize,
    line: &[u8],
    tables: &mut Vec<Dumped>,
) -> Result<(), DumpFault>
    ensures { IsStep (step number (latest_first tables.old) (line_of line.now)) (latest_first tables.new) result }
{
    if is_blank(line) {
        return Ok(());
    }
    if is_title(line) {
        tables.push(Dumped {
            title: Vec::from_slice(alloc, line)?,
            bytes: Vec::new(alloc),
        })?;
        return Ok(());
    }
    match parts_of(line) {
        Some(parts) => add(number, parts, tables),
        None => Err(DumpFault::Unknown(number)),
    }
}

/// Returns the tables of a dump, in order, or what is wrong first.
pub fn tables_of(alloc: Global, text: &[u8]) -> Result<Vec<Dumped>, DumpFault>
    ensures ok { IfOk result (λ tables. tables_of text.now ≡ Ok (map titled tables.items)) }
    ensures err { IfErr result (λ fault. fault ≢ Memory → tables_of text.now ≡ Err fault) }
{
    let mut tables = Vec::new(alloc);
    let mut rest = text;
    let mut number = 0;
    'lines: while !rest.is_empty() {
        let (line, after) = split_line(rest);
        number += 1;
        read_line(alloc, number, without_return(line), &mut tables)?;
        rest = after;
    }
    Ok(tables)
}

/// Returns whether the first line of a text that isn't blank is the title of a table.
pub fn is_dump(text: &[u8]) -> bool
    ensures { result ≡ is_dump text.now }
{
    let mut rest = text;
    'lines: while !rest.is_empty() {
        let (line, after) = split_line(rest);
        let line = without_return(line);
        if !is_blank(line) {
            return is_title(line);
        }
        rest = after;
    }
    false
}
