//! Texts that are made into tables.

ghost use Rattle.std.specs.Prelude.{◌≡◌, ◌≢◌, ◌⊎◌, ◌++◌, [], true, false, None, IfOk, OnOk, MatchResult, string_bytes};
ghost use Rattle.std.specs.Bool.{MatchBool};
ghost use Rattle.std.specs.Option.{option_map};
ghost use Rattle.std.specs.Io.KnownBytes.{Appends};
ghost use Rattle.acpitool_program.specs.Making.{IsChecked, Warns, IsJudged, same_line};
ghost use Rattle.acpitool_program.specs.Making.{not_made, MadeOrNot, Saved, NotSaved};
ghost use Rattle.acpitool_program.specs.Making.{IsWritten, MakesOf, MakesText, MakesWord, Makes};
ghost use Rattle.acpitool_program.specs.Replaced.{is_same_path};

use crate::compiling::compile_text;
use crate::complaint::complain;
use crate::fault::Fault;
use crate::files::{is_same_file, read_word, write_file};
use crate::held::tell_held;
use crate::hint::{meant_in, push_hint};
use crate::noted::print_notes;
use crate::outcome::{tell_fault, tell_unread};
use crate::structures::wrong_with;
use acpi_compile::block::is_asl;
use acpi_forms::make::make;
use acpi_make::extent::Own;
use acpi_make::fault::{Fault as TextFault, MakeError};
use std::alloc::{AllocError, Global};
use std::io;
use std::io::{ErrorKind, Input, Write};
use std::rt::Files;

// What is made.
#[derive(Clone, Copy)]
struct Making<'a> {
    // Whether a table whose numbers are wrong, or a block about whose text there are doubts, is written.
    force: bool,
    // The name of the text.
    name: &'a str,
    // The file for the table.
    file: &'a str,
}

// Returns what is wrong with a table whose numbers are right.
fn check(alloc: Global, owns: &[Own], bytes: &[u8]) -> Result<Option<Fault>, AllocError>
    ensures { IfOk result (IsChecked owns.now bytes.now) }
{
    match owns {
        [] => wrong_with(alloc, bytes),
        _ => Ok(None),
    }
}

// Prints the notes on a table, and what is wrong with it.
fn warn<E: Write>(
    alloc: Global,
    name: &str,
    owns: &[Own],
    bytes: &[u8],
    fault: &Option<Fault>,
    err: &mut E,
) -> io::Result<()>
    ensures { OnOk result (Warns name.now owns.now bytes.now fault.now (E.contents err.old) (E.contents err.new)) }
{
    print_notes(alloc, name, owns, bytes, err)?;
    tell_fault(alloc, name, fault, err)?;
    Ok(())
}

// Returns whether a table isn't written.
fn is_held(force: bool, owns: &[Own], fault: &Option<Fault>) -> bool
    ensures { MatchBool result (((owns.now ≢ []) ⊎ (fault.now ≢ None)) × (force ≡ false))
        ((force ≡ true) ⊎ ((owns.now ≡ []) × (fault.now ≡ None))) }
{
    !force && (!owns.is_empty() || fault.is_some())
}

// Prints the notes on a made table, or else what is wrong with it, and returns whether it is to be written: without force only if
// there is nothing to print.
fn judge<E: Write>(
    alloc: Global,
    force: bool,
    name: &str,
    owns: &[Own],
    bytes: &[u8],
    err: &mut E,
) -> io::Result<bool>
    ensures { IfOk result (IsJudged force name.now owns.now bytes.now (E.contents err.old) (E.contents err.new)) }
{
    let fault = check(alloc, owns, bytes)?;
    warn(alloc, name, owns, bytes, &fault, err)?;
    if is_held(force, owns, &fault) {
        tell_held(name, err)?;
        return Ok(false);
    }
    Ok(true)
}

// Returns why a text isn't made into a table, and which signature was probably meant.
fn why_not_made(alloc: Global, wrong: &TextFault, text: &[u8]) -> Result<String, AllocError>
    ensures { IfOk result (λ why. string_bytes why ≡ not_made wrong.now text.now) }
{
    let mut why = wrong.explain(alloc, text)?;
    let signature = meant_in(alloc, wrong.wanted, text)?;
    push_hint(&signature, &mut why)?;
    Ok(why)
}

/// Makes a text into a table, and returns the table's bytes if they are to be written. A line on `err` says of each number that
/// isn't right which would be, or else what is wrong with the table: such a table is only written by force. Or a line says why
/// the text isn't made into a table. An error is that of `err`, or memory ran out.
pub fn make_text<E: Write>(
    alloc: Global,
    force: bool,
    name: &str,
    text: &[u8],
    err: &mut E,
) -> io::Result<Option<Vec<u8>>>
    ensures { IfOk result (λ table. MadeOrNot force name.now text.now (option_map (λ bytes. bytes.items) table)
        (E.contents err.old) (E.contents err.new)) }
{
    match make(alloc, text) {
        Ok(made) => {
            if judge(alloc, force, name, &made.untrue, &made.bytes, err)? {
                Ok(Some(made.bytes))
            } else {
                Ok(None)
            }
        }
        Err(MakeError::Memory) => Err(io::Error::from(AllocError)),
        Err(MakeError::Fault(wrong)) => {
            let why = why_not_made(alloc, &wrong, text)?;
            complain(alloc, name, &why, err)?;
            Ok(None)
        }
    }
}

// Returns why a file can't be written. Of all files only FILE.part has to be new.
fn why_unwritten(alloc: Global, file: &str, error: &io::Error) -> Result<String, AllocError> {
    match error.kind() {
        ErrorKind::AlreadyExists => {
            format!(in alloc; "{file}.part exists; remove it if no other run is writing it")
        }
        _ => format!(in alloc; "{error}"),
    }
}

// Prints why a file can't be written, and returns 1, or returns 0 if it was written.
fn tell_written<E: Write>(
    alloc: Global,
    file: &str,
    written: io::Result<()>,
    err: &mut E,
) -> io::Result<u8>
    ensures { IfOk result (λ status. MatchResult written
        (λ _. Saved (E.contents err.old) (E.contents err.new) status)
        (λ _. NotSaved file.now (E.contents err.old) (E.contents err.new) status)) }
{
    match written {
        Ok(()) => Ok(0),
        Err(error) => {
            let why = why_unwritten(alloc, file, &error)?;
            complain(alloc, file, &why, err)?;
            Ok(1)
        }
    }
}

/// Writes bytes to a file, and returns 0, or prints why it can't be written, and returns 1.
pub fn save<R: Files, E: Write>(
    rt: &R,
    alloc: Global,
    bytes: &[u8],
    file: &str,
    err: &mut E,
) -> io::Result<u8>
    ensures { IfOk result (λ status. Saved (E.contents err.old) (E.contents err.new) status
        ⊎ NotSaved file.now (E.contents err.old) (E.contents err.new) status) }
{
    tell_written(alloc, file, write_file(rt, alloc, file, bytes), err)
}

/// Writes a table to standard output if the file is `-`, and otherwise to the file. Returns 0, or prints why the file can't be
/// written, and returns 1.
pub fn write_table<R: Files, O: Write, E: Write>(
    rt: &R,
    alloc: Global,
    bytes: &[u8],
    file: &str,
    out: &mut O,
    err: &mut E,
) -> io::Result<u8>
    ensures { IfOk result (λ status. IsWritten bytes.now file.now (O.contents out.old) (O.contents out.new)
        (E.contents err.old) (E.contents err.new) status) }
{
    match file {
        "-" => {
            out.write_all(bytes)?;
            Ok(0)
        }
        file => save(rt, alloc, bytes, file, err),
    }
}

// Makes a text of fields into a table, and writes it. A table whose numbers are wrong is only written by force.
fn make_table<R: Files, O: Write, E: Write>(
    rt: &R,
    alloc: Global,
    making: &Making<'_>,
    text: &[u8],
    out: &mut O,
    err: &mut E,
) -> io::Result<u8>
    ensures { IfOk result (λ status. MakesOf false making.now.force making.now.name.now text.now making.now.file.now
        (O.contents out.old) (O.contents out.new) (E.contents err.old) (E.contents err.new) status) }
{
    match make_text(alloc, making.force, making.name, text, err)? {
        Some(bytes) => write_table(rt, alloc, &bytes, making.file, out, err),
        None => Ok(1),
    }
}

// Makes a text of ASL into a definition block, and writes it. A block about whose text there are doubts is only written by force.
fn make_block<R: Files, O: Write, E: Write>(
    rt: &R,
    alloc: Global,
    making: &Making<'_>,
    text: &[u8],
    out: &mut O,
    err: &mut E,
) -> io::Result<u8>
    ensures { IfOk result (λ status. MakesOf true making.now.force making.now.name.now text.now making.now.file.now
        (O.contents out.old) (O.contents out.new) (E.contents err.old) (E.contents err.new) status) }
{
    match compile_text(alloc, making.force, making.name, text, err)? {
        Some(bytes) => write_table(rt, alloc, &bytes, making.file, out, err),
        None => Ok(1),
    }
}

// Makes a text of fields or of ASL into a table, and writes it.
fn make_bytes<R: Files, O: Write, E: Write>(
    rt: &R,
    alloc: Global,
    making: &Making<'_>,
    text: &[u8],
    out: &mut O,
    err: &mut E,
) -> io::Result<u8>
    ensures { IfOk result (λ status. MakesText making.now.force making.now.name.now text.now making.now.file.now
        (O.contents out.old) (O.contents out.new) (E.contents err.old) (E.contents err.new) status) }
{
    if is_asl(alloc, text)? {
        make_block(rt, alloc, making, text, out, err)
    } else {
        make_table(rt, alloc, making, text, out, err)
    }
}

// Makes the text in a file, or on standard input, into a table.
fn make_word<R: Files + Input, O: Write, E: Write>(
    rt: &R,
    alloc: Global,
    force: bool,
    name: &str,
    file: &str,
    out: &mut O,
    err: &mut E,
) -> io::Result<u8>
    ensures { IfOk result (λ status. MakesWord force name.now file.now (O.contents out.old) (O.contents out.new)
        (E.contents err.old) (E.contents err.new) status) }
{
    match read_word(rt, alloc, name) {
        Ok(text) => {
            let making = Making { force, name, file };
            make_bytes(rt, alloc, &making, &text, out, err)
        }
        Err(error) => tell_unread(alloc, name, &error, err),
    }
}

// Prints that a table would replace its text, and returns 1.
fn tell_same<E: Write>(name: &str, err: &mut E) -> io::Result<u8>
    ensures { IfOk result (λ status. (status ≡ 1)
        × Appends (E.contents err.old) (E.contents err.new) (same_line name.now)) }
{
    writeln!(err, "{name}: the table would replace its text")?;
    Ok(1)
}

/// Makes the text in a file, or on standard input, into a table, and writes it to another file, or to standard output. A table
/// whose numbers are wrong is only written by force. A table doesn't replace its text: two words for one file are refused. The
/// status is 0, or 1 if no table is written, or 2 if the text can't be read.
pub fn make_file<R: Files + Input, O: Write, E: Write>(
    rt: &R,
    alloc: Global,
    force: bool,
    name: &str,
    file: &str,
    out: &mut O,
    err: &mut E,
) -> io::Result<u8>
    ensures makes { IfOk result (λ status. Makes force name.now file.now (O.contents out.old) (O.contents out.new)
        (E.contents err.old) (E.contents err.new) status) }
    ensures kept { IfOk result (λ status. status ≡ 0 → is_same_path file.now name.now ≡ false) }
{
    if is_same_file(rt, file, name) {
        return tell_same(name, err);
    }
    make_word(rt, alloc, force, name, file, out, err)
}
