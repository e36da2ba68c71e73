//! The commands `show` and `show --json`.

ghost use Rattle.std.specs.Prelude.{◌≡◌, ℕ, List, ◌∷◌, [], ◌++◌, All, Some, map, IfOk, OnOk, string_bytes};
ghost use Rattle.std.specs.Io.KnownBytes.{Appends};
ghost use Rattle.acpi_forms.specs.Kind.{kind_of};
ghost use Rattle.acpi_input.specs.Stated.{stated};
ghost use Rattle.acpi_terms_text.specs.Objects.{callee_by};
ghost use Rattle.acpitool_program.specs.Job.{shows};
ghost use Rattle.acpitool_program.specs.Machine.{kept_by};
ghost use Rattle.acpitool_program.specs.Outcome.{is_alone, heading, AreOfTables, PrintedAs};
ghost use Rattle.acpitool_program.specs.Program.{IsShown, AreListed};
ghost use Rattle.acpitool_program.specs.Shown.{IsShownFault};
ghost use Rattle.acpitool_program.specs.Text.{IsKind};

use crate::command::{Misstated, Style, Wrong, numbers};
use crate::fault::Fault;
use crate::further::further_objects;
use crate::help::tell_wrong;
use crate::job::Job;
use crate::machine::Kept;
use crate::outcome::{tell_fault, worst_of};
use crate::shown::{Showing, shown_as};
use crate::structures::structures_fault;
use crate::visit::visit_words;
use acpi_json::array::array_of;
use acpi_term::name_string::Arities;
use acpi_text::comment::push_comment;
use std::alloc::{AllocError, Global};
use std::io;
use std::io::{Input, Write};
use std::rt::Files;

// Returns whether the table of this name is all that was asked for: the name is the only word.
fn is_alone(files: &[String], name: &str) -> bool
    ensures { result ≡ is_alone (map (λ word. string_bytes word) files.now) name.now }
{
    match files {
        [file] => file.as_str() == name,
        _ => false,
    }
}

// Returns the lines before a table's text: its name as a comment, if there is more.
fn heading(alloc: Global, more: bool, name: &str) -> Result<String, AllocError>
    ensures { IfOk result (λ before. string_bytes before ≡ heading more name.now) }
{
    let mut text = String::new(alloc);
    if !more {
        return Ok(text);
    }
    push_comment(name, &mut text)?;
    Ok(text)
}

// Prints a table's text, and the lines before and after it.
fn print_text<O: Write>(before: &str, text: &[u8], after: &str, out: &mut O) -> io::Result<()>
    ensures { OnOk result (Appends (O.contents out.old) (O.contents out.new) (before.now ++ text.now ++ after.now)) }
{
    out.write_all(before.as_bytes())?;
    out.write_all(text)?;
    out.write_all(after.as_bytes())
}

// Returns what is wrong with a table that is shown: its terms, or else its structures.
fn fault_of(
    alloc: Global,
    unread: &Option<Fault>,
    bytes: &[u8],
) -> Result<Option<Fault>, AllocError>
    requires { IsKind (kind_of bytes.now) bytes.now }
    ensures { IfOk result (IsShownFault unread.now bytes.now) }
{
    match unread {
        Some(fault) => Ok(Some(*fault)),
        None => structures_fault(alloc, bytes),
    }
}

// Prints a table on `out`, and what is wrong with its terms or its structures on `err`. Returns 0 or 1.
fn show_table<O: Write, E: Write>(
    alloc: Global,
    showing: &Showing<'_>,
    name: &str,
    bytes: &[u8],
    out: &mut O,
    err: &mut E,
) -> io::Result<u8>
    requires { IsKind (kind_of bytes.now) bytes.now }
    ensures { IfOk result (λ status. PrintedAs (shows showing.now.style (map (λ word. string_bytes word) showing.now.files.now)
        showing.now.stated.now (map callee_by showing.now.further.now))
        (AreOfTables ((name.now, bytes.now) ∷ []))
        (O.contents out.old) (O.contents out.new) (E.contents err.old) (E.contents err.new) status) }
{
    let shown = shown_as(alloc, showing, bytes)?;
    let before = heading(alloc, !is_alone(showing.files, name), name)?;
    let fault = fault_of(alloc, &shown.unread, bytes)?;
    print_text(before.as_str(), &shown.text, shown.after.as_str(), out)?;
    Ok(tell_fault(alloc, name, &fault, err)?)
}

// Prints tables in order, and returns the greatest status.
fn show_tables<O: Write, E: Write>(
    alloc: Global,
    showing: &Showing<'_>,
    tables: &[Kept],
    out: &mut O,
    err: &mut E,
) -> io::Result<u8>
    requires { All (λ table. IsKind (kind_of table.1) table.1) (map kept_by tables.now) }
    ensures { IfOk result (λ status. PrintedAs (shows showing.now.style (map (λ word. string_bytes word) showing.now.files.now)
        showing.now.stated.now (map callee_by showing.now.further.now))
        (AreOfTables (map kept_by tables.now))
        (O.contents out.old) (O.contents out.new) (E.contents err.old) (E.contents err.new) status) }
{
    let mut worst = 0;
    'tables: for table in tables {
        let status = show_table(alloc, showing, table.name.as_str(), &table.bytes, out, err)?;
        worst = worst_of(worst, status);
    }
    Ok(worst)
}

// Gathers the tables of what files name, and then prints them. Returns the greatest status.
fn show_stated<R: Files + Input + AllocGlobal + Clone + Drop, O: Write, E: Write>(
    rt: &R,
    alloc: Global,
    style: Style,
    files: &[String],
    arities: &Arities,
    out: &mut O,
    err: &mut E,
) -> io::Result<u8>
    ensures { IfOk result (λ status. (numbers : List (List ℕ)) → stated numbers ≡ Some arities.now
        → IsShown style (map (λ word. string_bytes word) files.now) numbers
        (O.contents out.old) (O.contents out.new) (E.contents err.old) (E.contents err.new) status) }
{
    let mut tables = Vec::new(alloc);
    let gathered = visit_words(rt, alloc, &Job::Gathers, files, out, err, &mut tables)?;
    let further = further_objects(alloc, arities, &tables)?;
    let showing = Showing {
        style,
        files,
        stated: arities,
        further: &further,
    };
    let shown = show_tables(alloc, &showing, &tables, out, err)?;
    Ok(worst_of(gathered, shown))
}

/// Shows what files name, as the option of `show` says, if the other words state numbers of arguments. The tables of all files
/// are gathered first, since definition blocks may name the objects of each other. The status is 0, or 1 if something is wrong
/// with a table, or 2 if a file can't be read or the words state no numbers.
pub fn show_all<R: Files + Input + AllocGlobal + Clone + Drop, O: Write, E: Write>(
    rt: &R,
    alloc: Global,
    style: Style,
    files: &[String],
    words: &[String],
    out: &mut O,
    err: &mut E,
) -> io::Result<u8>
    ensures { IfOk result (λ status. IsShown style
        (map (λ word. string_bytes word) files.now) (map (λ word. string_bytes word) words.now)
        (O.contents out.old) (O.contents out.new) (E.contents err.old) (E.contents err.new) status) }
{
    match numbers(alloc, words) {
        Ok(stated) => Ok(show_stated(rt, alloc, style, files, &stated, out, err)?),
        Err(Misstated::Word(word)) => Ok(tell_wrong(&Wrong::Number(word), err)?),
        Err(Misstated::Twice) => Ok(tell_wrong(&Wrong::Twice, err)?),
        Err(Misstated::Memory) => Err(io::Error::from(AllocError)),
    }
}

/// Prints the objects of what files name as an array of JSON, and returns the greatest status.
pub fn list_all<R: Files + Input + AllocGlobal + Clone + Drop, O: Write, E: Write>(
    rt: &R,
    alloc: Global,
    files: &[String],
    out: &mut O,
    err: &mut E,
) -> io::Result<u8>
    ensures { IfOk result (λ status. AreListed (map (λ word. string_bytes word) files.now)
        (O.contents out.old) (O.contents out.new) (E.contents err.old) (E.contents err.new) status) }
{
    let mut lines = Vec::new(alloc);
    let mut kept = Vec::new(alloc);
    let status = visit_words(rt, alloc, &Job::Lists, files, &mut lines, err, &mut kept)?;
    let array = array_of(alloc, &lines)?;
    out.write_all(&array)?;
    Ok(status)
}
