//! The fields in which the tables in two files differ.

ghost use Rattle.std.specs.Prelude.{◌≡◌, ◌≤◌, ℕ, List, [], ◌∷◌, ◌++◌, map, take, drop, codes, IfOk, OnOk, string_bytes};
ghost use Rattle.std.specs.Io.KnownBytes.{Appends};
ghost use Rattle.acpi_rules.specs.Field.{seen};
ghost use Rattle.acpitool_program.specs.Comparing.{signatures_line, nameless, nameless_lines, or_nameless, AreDifferences};
ghost use Rattle.acpitool_program.specs.Comparing.{IsComparison, comparison_status, ComparesBytes};
ghost use Rattle.acpitool_program.specs.Comparing.{ComparesWith, Compares};
ghost use Rattle.acpitool_program.specs.Fault.{line_of};

use crate::complaint::complain;
use crate::fault::Fault;
use crate::fields::fields_in;
use crate::files::read_word;
use crate::outcome::tell_unread;
use crate::text::check_kind;
use acpi_base::slice::from_offset;
use acpi_forms::kind::title_of;
use acpi_read::report::push_shown;
use acpi_rules::difference::differences_of;
use acpi_rules::field::Field;
use std::alloc::{AllocError, Global};
use std::io;
use std::io::{Input, Write};
use std::rt::Files;

// Returns the line of tables with different signatures.
fn signatures_line(alloc: Global, a: &[u8], b: &[u8]) -> Result<String, AllocError>
    ensures { IfOk result (λ text. string_bytes text ≡ signatures_line a.now b.now) }
{
    let mut text = String::from_str(alloc, "the signatures differ: ")?;
    push_shown(title_of(a), &mut text)?;
    text.push_str(", ")?;
    push_shown(title_of(b), &mut text)?;
    text.push_str("\n")?;
    Ok(text)
}

// Returns the first bytes, or all if there are fewer.
fn front(count: usize, bytes: &[u8]) -> &[u8]
    ensures { result.now ≡ take count bytes.now }
{
    if count < bytes.len() {
        &bytes[..count]
    } else {
        bytes
    }
}

// Returns the bytes of a table that none of its fields has.
fn nameless(alloc: Global, fields: &[Field<'_>], table: &[u8]) -> Result<Vec<u8>, AllocError>
    ensures { IfOk result (λ bytes. bytes.items ≡ nameless (map seen fields.now) table.now) }
{
    let mut bytes = Vec::new(alloc);
    let mut rest = table;
    'fields: for field in fields {
        let at = table.len().saturating_sub(rest.len());
        let before = field.offset.saturating_sub(at);
        bytes.extend_from_slice(front(before, rest))?;
        rest = from_offset(field.bytes.len(), from_offset(before, rest));
    }
    bytes.extend_from_slice(rest)?;
    Ok(bytes)
}

// Adds a line if the bytes without a name differ, or if there would be no other.
fn push_nameless(a: &[u8], b: &[u8], lines: &mut String) -> Result<(), AllocError>
    ensures { OnOk result (string_bytes lines.new ≡ or_nameless (string_bytes lines.old ++ nameless_lines a.now b.now)) }
{
    if a != b || lines.is_empty() {
        return lines.push_str("bytes without a name differ\n");
    }
    Ok(())
}

// Returns the lines of the fields in which two tables differ.
fn differences(alloc: Global, a: &[u8], b: &[u8]) -> Result<String, AllocError>
    ensures { IfOk result (λ text. AreDifferences a.now b.now (string_bytes text)) }
{
    let first = fields_in(alloc, a)?;
    let second = fields_in(alloc, b)?;
    let mut lines = differences_of(alloc, &first, &second)?;
    push_nameless(
        &nameless(alloc, &first, a)?,
        &nameless(alloc, &second, b)?,
        &mut lines,
    )?;
    Ok(lines)
}

// Returns what is printed of two tables.
fn comparison(alloc: Global, a: &[u8], b: &[u8]) -> Result<String, AllocError>
    ensures { IfOk result (λ text. IsComparison a.now b.now (string_bytes text)) }
{
    if a == b {
        return Ok(String::new(alloc));
    }
    if title_of(a) != title_of(b) {
        return signatures_line(alloc, a, b);
    }
    differences(alloc, a, b)
}

// Returns 0 if nothing is printed, and 1 otherwise.
fn status_of(text: &str) -> u8
    ensures { result ≡ comparison_status text.now }
{
    if text.is_empty() { 0 } else { 1 }
}

// Prints in which fields two tables differ, and returns the status.
fn print_comparison<O: Write>(alloc: Global, a: &[u8], b: &[u8], out: &mut O) -> io::Result<u8>
    ensures { IfOk result (λ status. (text : List ℕ) × IsComparison a.now b.now text
        × Appends (O.contents out.old) (O.contents out.new) text × (status ≡ comparison_status text)) }
{
    let text = comparison(alloc, a, b)?;
    out.write_all(text.as_bytes())?;
    Ok(status_of(text.as_str()))
}

// Prints why a file isn't what its signature says, and returns 1.
fn tell_refused<E: Write>(alloc: Global, name: &str, fault: &Fault, err: &mut E) -> io::Result<u8>
    ensures is { IfOk result (λ status. status ≡ 1) }
    ensures line { OnOk result (Appends (E.contents err.old) (E.contents err.new)
        (name.now ++ codes ": " ++ line_of fault.now ++ 10 ∷ [])) }
{
    complain(alloc, name, fault, err)?;
    Ok(1)
}

// Compares the bytes of two files, or prints what is wrong with the first that isn't what its signature says.
fn compare_bytes<O: Write, E: Write>(
    alloc: Global,
    first: &str,
    a: &[u8],
    second: &str,
    b: &[u8],
    out: &mut O,
    err: &mut E,
) -> io::Result<u8>
    ensures { IfOk result (λ status. ComparesBytes first.now a.now second.now b.now (O.contents out.old) (O.contents out.new)
        (E.contents err.old) (E.contents err.new) status) }
{
    if let Err(fault) = check_kind(a) {
        return tell_refused(alloc, first, &fault, err);
    }
    if let Err(fault) = check_kind(b) {
        return tell_refused(alloc, second, &fault, err);
    }
    Ok(print_comparison(alloc, a, b, out)?)
}

// Compares bytes with those of a file, or of standard input.
fn compare_with<R: Files + Input, O: Write, E: Write>(
    rt: &R,
    alloc: Global,
    first: &str,
    a: &[u8],
    second: &str,
    out: &mut O,
    err: &mut E,
) -> io::Result<u8>
    ensures { IfOk result (λ status. ComparesWith first.now a.now second.now (O.contents out.old) (O.contents out.new)
        (E.contents err.old) (E.contents err.new) status) }
{
    match read_word(rt, alloc, second) {
        Ok(b) => compare_bytes(alloc, first, a, second, &b, out, err),
        Err(error) => tell_unread(alloc, second, &error, err),
    }
}

/// Prints a line for each field in which the tables in two files differ, or on standard input where the word is `-`: by the form
/// of their signature, and by their structures. A line says if bytes that the form has no name for differ, or if the signatures
/// do. The status is 0 if the files have the same bytes, and then nothing is printed; 1 if they differ, or if one
/// isn't what its signature says, which a line on `err` says; and 2 if a file can't be read.
pub fn compare_files<R: Files + Input, O: Write, E: Write>(
    rt: &R,
    alloc: Global,
    first: &str,
    second: &str,
    out: &mut O,
    err: &mut E,
) -> io::Result<u8>
    ensures { IfOk result (λ status. Compares first.now second.now (O.contents out.old) (O.contents out.new)
        (E.contents err.old) (E.contents err.new) status) }
{
    match read_word(rt, alloc, first) {
        Ok(a) => compare_with(rt, alloc, first, &a, second, out, err),
        Err(error) => tell_unread(alloc, first, &error, err),
    }
}
