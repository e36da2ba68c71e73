//! The tables that are kept, and the rules on several tables that they break.

ghost use Rattle.std.specs.Prelude.{◌≡◌, ◌++◌, [], ◌∷◌, map, IfOk, OnOk};
ghost use Rattle.std.specs.Io.KnownBytes.{Appends};
ghost use Rattle.std.specs.List.{flat_map};
ghost use Rattle.acpitool_program.specs.Machine.{kept_by, printed_across, machine_text, line_status};

use crate::checked::printed_of;
use acpi_rules::machine::machine_findings;
use std::alloc::{AllocError, Global};
use std::io;
use std::io::Write;

/// A table that was gathered or checked.
#[derive(Drop)]
pub struct Kept {
    /// The name of its file, and of a table of a dump or an image also its title.
    pub name: String,
    /// Its bytes.
    pub bytes: Vec<u8>,
}

/// Adds a table to those that are kept.
pub fn keep(alloc: Global, name: &str, bytes: &[u8], kept: &mut Vec<Kept>) -> Result<(), AllocError>
    ensures { OnOk result (map kept_by kept.new.items ≡ map kept_by kept.old.items ++ (name.now, bytes.now) ∷ []) }
{
    kept.push(Kept {
        name: String::from_str(alloc, name)?,
        bytes: Vec::from_slice(alloc, bytes)?,
    })?;
    Ok(())
}

// Returns the bytes of tables.
fn bytes_of(alloc: Global, kept: &[Kept]) -> Result<Vec<&[u8]>, AllocError>
    ensures { IfOk result (λ all. map (λ table. table.now) all.items ≡ map (λ table. table.bytes.items) kept.now) }
{
    let mut all = Vec::new(alloc);
    'tables: for table in kept {
        all.push(table.bytes.as_slice())?;
    }
    Ok(all)
}

// Adds what is printed of the rules on several tables that a table breaks, by all tables.
fn push_across(
    alloc: Global,
    json: bool,
    all: &[&[u8]],
    table: &Kept,
    text: &mut Vec<u8>,
) -> Result<(), AllocError>
    ensures { OnOk result (text.new.items ≡ text.old.items
        ++ printed_across json (map (λ table. table.now) all.now) (kept_by table.now)) }
{
    let name = table.name.as_str();
    let bytes = table.bytes.as_slice();
    let found = machine_findings(alloc, all, bytes)?;
    let printed = printed_of(alloc, json, name, bytes, &found)?;
    text.extend_from_slice(&printed)
}

// Returns what is printed of the rules on several tables that tables break, by all tables.
fn texts_of(alloc: Global, json: bool, all: &[&[u8]], kept: &[Kept]) -> Result<Vec<u8>, AllocError>
    ensures { IfOk result (λ text. text.items
        ≡ flat_map (printed_across json (map (λ table. table.now) all.now)) (map kept_by kept.now)) }
{
    let mut text = Vec::new(alloc);
    'tables: for table in kept {
        push_across(alloc, json, all, table, &mut text)?;
    }
    Ok(text)
}

// Returns what is printed of the rules on several tables that tables break, by all of them.
fn machine_text(alloc: Global, json: bool, kept: &[Kept]) -> Result<Vec<u8>, AllocError>
    ensures { IfOk result (λ text. text.items ≡ machine_text json (map kept_by kept.now)) }
{
    let all = bytes_of(alloc, kept)?;
    let text = texts_of(alloc, json, &all, kept)?;
    Ok(text)
}

// Returns 0 if nothing is printed, and 1 otherwise.
fn line_status(text: &[u8]) -> u8
    ensures { result ≡ line_status text.now }
{
    if text.is_empty() { 0 } else { 1 }
}

/// Prints the rules on several tables that each of these tables breaks, in the order of the tables: objects of JSON, each in a
/// line, or lines. Returns 1 if there is one, and 0 otherwise.
pub fn print_machine<O: Write>(
    alloc: Global,
    json: bool,
    kept: &[Kept],
    out: &mut O,
) -> io::Result<u8>
    ensures { IfOk result (λ status. Appends (O.contents out.old) (O.contents out.new) (machine_text json (map kept_by kept.now))
        × (status ≡ line_status (machine_text json (map kept_by kept.now)))) }
{
    let text = machine_text(alloc, json, kept)?;
    out.write_all(&text)?;
    Ok(line_status(&text))
}
