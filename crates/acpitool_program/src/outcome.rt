//! What is done with one table or one file.

ghost use Rattle.std.specs.Prelude.{◌≡◌, ℕ, List, [], ◌∷◌, ◌++◌, Option, map, IfOk, OnOk, string_bytes, codes, true, max};
ghost use Rattle.std.specs.Io.KnownBytes.{Appends};
ghost use Rattle.acpi_dump.specs.Dump.{titled, is_dump, tables_of};
ghost use Rattle.acpi_layout.specs.Addresses.{image_at};
ghost use Rattle.acpitool_program.specs.Job.{gathers, checks, lists, asked};
ghost use Rattle.acpitool_program.specs.Machine.{kept_by};
ghost use Rattle.acpitool_program.specs.Replaced.{WouldReplace};
ghost use Rattle.acpitool_program.specs.Outcome.{fault_line, fault_status, label, labelled};
ghost use Rattle.acpitool_program.specs.Outcome.{AreOfTables, AreOfDump, AreOfImage, AreOfBytes, PrintedAs, KeptAs, in_image};

use crate::checked::{findings_of, printed_of, status_of};
use crate::complaint::complain;
use crate::fault::Fault;
use crate::image::{contents, find_tables};
use crate::job::Job;
use crate::listing::tell_no_image;
use crate::machine::{Kept, keep};
use crate::object::object_of;
use crate::placed::Placed;
use crate::structures::structures_fault;
use crate::text::check_kind;
use acpi_dump::dump::{Dumped, is_dump, tables_of};
use acpi_dump::fault::DumpFault;
use acpi_layout::located::Located;
use acpi_read::report::push_shown;
use acpi_tree::image::title;
use std::alloc::{AllocError, Global};
use std::io;
use std::io::Write;

/// Prints a fault and returns 1, or returns 0 if there is none.
pub fn tell_fault<E: Write>(
    alloc: Global,
    name: &str,
    fault: &Option<Fault>,
    err: &mut E,
) -> io::Result<u8>
    ensures is { IfOk result (λ status. status ≡ fault_status fault.now) }
    ensures line { OnOk result (Appends (E.contents err.old) (E.contents err.new) (fault_line name.now fault.now)) }
{
    match fault {
        Some(fault) => {
            complain(alloc, name, fault, err)?;
            Ok(1)
        }
        None => Ok(0),
    }
}

// Keeps a table, a pointer or a control structure, or prints on `err` what is wrong with its bytes. Returns 0 or 1.
fn gather_table<E: Write>(
    alloc: Global,
    name: &str,
    bytes: &[u8],
    err: &mut E,
    kept: &mut Vec<Kept>,
) -> io::Result<u8>
    ensures { IfOk result (λ status. (out : Option (List ℕ)) → KeptAs gathers (AreOfTables ((name.now, bytes.now) ∷ []))
        out out (E.contents err.old) (E.contents err.new) (map kept_by kept.old.items) (map kept_by kept.new.items) status) }
{
    match check_kind(bytes) {
        Ok(()) => {
            keep(alloc, name, bytes, kept)?;
            Ok(0)
        }
        Err(fault) => {
            complain(alloc, name, &fault, err)?;
            Ok(1)
        }
    }
}

// Prints a line on `out` for each rule that a table, a pointer or a control structure breaks, or an object in a line. Prints on
// `err` what is wrong with its structures, or why it isn't checked. Keeps it if it is checked. Returns 0 or 1.
fn check_table<O: Write, E: Write>(
    alloc: Global,
    json: bool,
    name: &str,
    bytes: &[u8],
    out: &mut O,
    err: &mut E,
    kept: &mut Vec<Kept>,
) -> io::Result<u8>
    ensures { IfOk result (λ status. KeptAs (checks json) (AreOfTables ((name.now, bytes.now) ∷ []))
        (O.contents out.old) (O.contents out.new) (E.contents err.old) (E.contents err.new)
        (map kept_by kept.old.items) (map kept_by kept.new.items) status) }
{
    match findings_of(alloc, bytes) {
        Ok(findings) => {
            let lines = printed_of(alloc, json, name, bytes, &findings)?;
            let fault = structures_fault(alloc, bytes)?;
            out.write_all(&lines)?;
            let told = tell_fault(alloc, name, &fault, err)?;
            keep(alloc, name, bytes, kept)?;
            Ok(worst_of(status_of(&findings), told))
        }
        Err(fault) => {
            complain(alloc, name, &fault, err)?;
            Ok(1)
        }
    }
}

// Prints the object of a table, a pointer or a control structure on `out` in a line. Prints on `err` what is wrong with its
// structures, or why it isn't listed. Returns 0 or 1.
fn list_table<O: Write, E: Write>(
    alloc: Global,
    name: &str,
    bytes: &[u8],
    out: &mut O,
    err: &mut E,
) -> io::Result<u8>
    ensures { IfOk result (λ status. PrintedAs lists (AreOfTables ((name.now, bytes.now) ∷ []))
        (O.contents out.old) (O.contents out.new) (E.contents err.old) (E.contents err.new) status) }
{
    match object_of(alloc, name, bytes) {
        Ok(mut object) => {
            let fault = structures_fault(alloc, bytes)?;
            object.push(b'\n')?;
            out.write_all(&object)?;
            Ok(tell_fault(alloc, name, &fault, err)?)
        }
        Err(fault) => {
            complain(alloc, name, &fault, err)?;
            Ok(1)
        }
    }
}

// Gathers, checks or lists a table.
fn visit_table<O: Write, E: Write>(
    alloc: Global,
    job: &Job,
    name: &str,
    bytes: &[u8],
    out: &mut O,
    err: &mut E,
    kept: &mut Vec<Kept>,
) -> io::Result<u8>
    ensures { IfOk result (λ status. KeptAs (asked job.now) (AreOfTables ((name.now, bytes.now) ∷ []))
        (O.contents out.old) (O.contents out.new) (E.contents err.old) (E.contents err.new)
        (map kept_by kept.old.items) (map kept_by kept.new.items) status) }
{
    match *job {
        Job::Gathers => Ok(gather_table(alloc, name, bytes, err, kept)?),
        Job::Checks(json) => Ok(check_table(alloc, json, name, bytes, out, err, kept)?),
        Job::Lists => Ok(list_table(alloc, name, bytes, out, err)?),
    }
}

/// Returns the greater status.
pub fn worst_of(a: u8, b: u8) -> u8
    ensures { result ≡ max a b }
{
    if a < b { b } else { a }
}

/// Prints that a file would replace one of the tables that go into it, and returns 1.
pub fn tell_replaced<E: Write>(what: &str, file: &str, err: &mut E) -> io::Result<u8>
    ensures { IfOk result (WouldReplace what.now file.now (E.contents err.old) (E.contents err.new)) }
{
    writeln!(err, "{file}: the {what} would replace a table")?;
    Ok(1)
}

// Returns the name of a table of a dump or an image: that of the file, and the table's title.
fn label(alloc: Global, name: &str, title: &[u8]) -> Result<String, AllocError>
    ensures { IfOk result (λ text. string_bytes text ≡ label name.now title.now) }
{
    let mut text = String::from_str(alloc, name)?;
    text.push_str(": ")?;
    push_shown(title, &mut text)?;
    Ok(text)
}

// Gathers, checks or lists a table of a dump or an image.
fn visit_titled<O: Write, E: Write>(
    alloc: Global,
    job: &Job,
    name: &str,
    title: &[u8],
    bytes: &[u8],
    out: &mut O,
    err: &mut E,
    kept: &mut Vec<Kept>,
) -> io::Result<u8>
    ensures { IfOk result (λ status. KeptAs (asked job.now) (AreOfTables (labelled name.now (title.now, bytes.now) ∷ []))
        (O.contents out.old) (O.contents out.new) (E.contents err.old) (E.contents err.new)
        (map kept_by kept.old.items) (map kept_by kept.new.items) status) }
{
    let label = label(alloc, name, title)?;
    Ok(visit_table(alloc, job, label.as_str(), bytes, out, err, kept)?)
}

// Gathers, checks or lists the tables of a dump, and returns the greatest status.
fn visit_tables<O: Write, E: Write>(
    alloc: Global,
    job: &Job,
    name: &str,
    tables: &[Dumped],
    out: &mut O,
    err: &mut E,
    kept: &mut Vec<Kept>,
) -> io::Result<u8>
    ensures { IfOk result (λ status. KeptAs (asked job.now)
        (AreOfTables (map (λ table. labelled name.now (titled table)) tables.now))
        (O.contents out.old) (O.contents out.new) (E.contents err.old) (E.contents err.new)
        (map kept_by kept.old.items) (map kept_by kept.new.items) status) }
{
    let mut worst = 0;
    'tables: for table in tables {
        let status = visit_titled(alloc, job, name, &table.title, &table.bytes, out, err, kept)?;
        worst = worst_of(worst, status);
    }
    Ok(worst)
}

// Gathers, checks or lists the tables of a dump, or prints which of its lines can't be read.
fn visit_dump<O: Write, E: Write>(
    alloc: Global,
    job: &Job,
    name: &str,
    dump: &[u8],
    out: &mut O,
    err: &mut E,
    kept: &mut Vec<Kept>,
) -> io::Result<u8>
    requires { is_dump dump.now ≡ true }
    ensures { IfOk result (λ status. KeptAs (asked job.now) (AreOfDump name.now dump.now)
        (O.contents out.old) (O.contents out.new) (E.contents err.old) (E.contents err.new)
        (map kept_by kept.old.items) (map kept_by kept.new.items) status) }
{
    match tables_of(alloc, dump) {
        Ok(tables) => Ok(visit_tables(alloc, job, name, &tables, out, err, kept)?),
        Err(DumpFault::Memory) => Err(io::Error::from(AllocError)),
        Err(fault) => {
            complain(alloc, name, &fault, err)?;
            Ok(1)
        }
    }
}

// Gathers, checks or lists a table of an image.
fn visit_one<O: Write, E: Write>(
    alloc: Global,
    job: &Job,
    image: &Placed<'_>,
    bytes: &[u8],
    table: &Located,
    out: &mut O,
    err: &mut E,
    kept: &mut Vec<Kept>,
) -> io::Result<u8>
    ensures { IfOk result (λ status. KeptAs (asked job.now)
        (AreOfTables (in_image image.now.file.now (image_at image.now.base bytes.now) table.now ∷ []))
        (O.contents out.old) (O.contents out.new) (E.contents err.old) (E.contents err.new)
        (map kept_by kept.old.items) (map kept_by kept.new.items) status) }
{
    let title = title(&table.signature);
    let bytes = contents(image.base, bytes, table);
    Ok(visit_titled(alloc, job, image.file, &title, bytes, out, err, kept)?)
}

// Gathers, checks or lists the tables of an image, and returns the greatest status.
fn visit_found<O: Write, E: Write>(
    alloc: Global,
    job: &Job,
    image: &Placed<'_>,
    bytes: &[u8],
    tables: &[Located],
    out: &mut O,
    err: &mut E,
    kept: &mut Vec<Kept>,
) -> io::Result<u8>
    ensures { IfOk result (λ status. KeptAs (asked job.now)
        (AreOfTables (map (in_image image.now.file.now (image_at image.now.base bytes.now)) tables.now))
        (O.contents out.old) (O.contents out.new) (E.contents err.old) (E.contents err.new)
        (map kept_by kept.old.items) (map kept_by kept.new.items) status) }
{
    let mut worst = 0;
    'tables: for table in tables {
        let status = visit_one(alloc, job, image, bytes, table, out, err, kept)?;
        worst = worst_of(worst, status);
    }
    Ok(worst)
}

/// Gathers, checks or lists the tables of an image, or prints why the bytes are none. Tables that were gathered or checked
/// are added to those that are kept. Returns 0 or 1.
pub fn visit_image<O: Write, E: Write>(
    alloc: Global,
    job: &Job,
    image: &Placed<'_>,
    bytes: &[u8],
    out: &mut O,
    err: &mut E,
    kept: &mut Vec<Kept>,
) -> io::Result<u8>
    ensures { IfOk result (λ status. KeptAs (asked job.now) (AreOfImage image.now.file.now image.now.base bytes.now)
        (O.contents out.old) (O.contents out.new) (E.contents err.old) (E.contents err.new)
        (map kept_by kept.old.items) (map kept_by kept.new.items) status) }
{
    match find_tables(alloc, image.base, bytes) {
        Ok(tables) => Ok(visit_found(alloc, job, image, bytes, &tables, out, err, kept)?),
        Err(fault) => Ok(tell_no_image(alloc, image.file, image.base, &fault, err)?),
    }
}

/// Gathers, checks or lists what is in a file: a table, a pointer, a control structure, or the tables of a dump. What isn't
/// valid has a line on `err`. Tables that were gathered or checked are added to those that are kept. Returns 0 or 1.
pub fn visit_content<O: Write, E: Write>(
    alloc: Global,
    job: &Job,
    name: &str,
    bytes: &[u8],
    out: &mut O,
    err: &mut E,
    kept: &mut Vec<Kept>,
) -> io::Result<u8>
    ensures { IfOk result (λ status. KeptAs (asked job.now) (AreOfBytes name.now bytes.now)
        (O.contents out.old) (O.contents out.new) (E.contents err.old) (E.contents err.new)
        (map kept_by kept.old.items) (map kept_by kept.new.items) status) }
{
    if is_dump(bytes) {
        return Ok(visit_dump(alloc, job, name, bytes, out, err, kept)?);
    }
    Ok(visit_table(alloc, job, name, bytes, out, err, kept)?)
}

/// Prints why a file can't be read, and returns 2.
pub fn tell_unread<E: Write>(
    alloc: Global,
    file: &str,
    error: &io::Error,
    err: &mut E,
) -> io::Result<u8>
    ensures is { IfOk result (λ status. status ≡ 2) }
    ensures line { OnOk result ((why : List ℕ) × Appends (E.contents err.old) (E.contents err.new)
        (file.now ++ codes ": " ++ why ++ 10 ∷ [])) }
{
    complain(alloc, file, error, err)?;
    Ok(2)
}
