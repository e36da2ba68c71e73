//! The tables of an image or of a dump, each written to a file of a folder.

ghost use Rattle.std.specs.Prelude.{◌≡◌, ◌≤◌, ℕ, List, [], ◌∷◌, ◌++◌, codes, length, map, slice_index_or, true, IfOk};
ghost use Rattle.std.specs.Prelude.{OnOk, string_bytes};
ghost use Rattle.std.specs.Io.KnownBytes.{Appends};
ghost use Rattle.acpi_dump.specs.Dump.{is_dump};
ghost use Rattle.acpi_layout.specs.Addresses.{image_at};
ghost use Rattle.acpi_layout.specs.Found.{contents};
ghost use Rattle.acpi_tree.specs.Image.{letter};
ghost use Rattle.acpitool_program.specs.Unpacking.{stem, count, number, path_of, file_line, IsUnpacked};
ghost use Rattle.acpitool_program.specs.Unpacking.{AreUnpacked, AreFiles};
ghost use Rattle.acpitool_program.specs.Unpacking.{UnpacksDump, UnpacksImage, UnpacksBy, Unpacks};

use crate::complaint::complain;
use crate::files::{read_word, write_new};
use crate::image::{contents, find_tables};
use crate::listing::tell_no_image;
use crate::outcome::{tell_unread, worst_of};
use acpi_dump::dump::{Dumped, is_dump, tables_of};
use acpi_dump::fault::DumpFault;
use acpi_layout::located::Located;
use acpi_read::report::{push_number, push_shown};
use acpi_tree::image::letter;
use std::alloc::{AllocError, Global};
use std::io::{ErrorKind, Input, Write};
use std::rt::Files;
use std::{fs, io};

// What is unpacked, and where its tables go.
#[derive(Clone, Copy)]
struct Source<'a> {
    // The name of the file with the image or the dump.
    name: &'a str,
    // The folder for the files of the tables.
    folder: &'a str,
    // The physical address at which an image begins.
    base: u64,
}

// Returns the letter for the byte at an index, which may not be there.
fn letter_at(table: &[u8], index: usize) -> u8
    ensures { result ≡ letter (slice_index_or table.now index 95) }
{
    match table.get(index) {
        Some(byte) => letter(*byte),
        None => b'_',
    }
}

// Returns the four letters of a table in the name of its file.
fn stem(table: &[u8]) -> [u8; 4]
    ensures { result ≡ stem table.now }
{
    if table.starts_with(b"RSD ") {
        *b"RSDP"
    } else {
        [
            letter_at(table, 0),
            letter_at(table, 1),
            letter_at(table, 2),
            letter_at(table, 3),
        ]
    }
}

// Returns how many tables have these letters.
fn count(letters: &[u8; 4], tables: &[&[u8]]) -> usize
    ensures { result ≡ count letters.now (map (λ table. table.now) tables.now) }
{
    let mut found = 0;
    'tables: for table in tables {
        if stem(table) == *letters {
            found += 1;
        }
    }
    found
}

// Adds the number of a name, if there is one.
fn push_count(count: usize, text: &mut String) -> Result<(), AllocError>
    ensures { OnOk result (string_bytes text.new ≡ string_bytes text.old ++ number count) }
{
    if count == 0 {
        return Ok(());
    }
    push_number("", count as u64, text)
}

// Returns the path of the file of a table, after these in the same image or dump.
fn path_of(
    alloc: Global,
    folder: &str,
    earlier: &[&[u8]],
    table: &[u8],
) -> Result<String, AllocError>
    ensures { IfOk result (λ path. string_bytes path ≡ path_of folder.now (map (λ table. table.now) earlier.now) table.now) }
{
    let letters = stem(table);
    let mut text = String::from_str(alloc, folder)?;
    text.push_str("/")?;
    push_shown(&letters, &mut text)?;
    push_count(count(&letters, earlier), &mut text)?;
    text.push_str(".aml")?;
    Ok(text)
}

// Returns why a file can't be made.
fn why_not(alloc: Global, error: &io::Error) -> Result<String, AllocError> {
    match error.kind() {
        ErrorKind::AlreadyExists => format!(in alloc; "the file is there, and stays as it is"),
        _ => format!(in alloc; "{error}"),
    }
}

// Prints why a file or a folder can't be made, and returns 1.
pub(crate) fn tell_not_made<E: Write>(
    alloc: Global,
    path: &str,
    error: &io::Error,
    err: &mut E,
) -> io::Result<u8>
    ensures is { IfOk result (λ status. status ≡ 1) }
    ensures line { OnOk result ((why : List ℕ) × Appends (E.contents err.old) (E.contents err.new)
        (path.now ++ codes ": " ++ why ++ 10 ∷ [])) }
{
    let why = why_not(alloc, error)?;
    complain(alloc, path, &why, err)?;
    Ok(1)
}

// Prints the line of a file that was written.
fn print_file<O: Write>(path: &str, table: &[u8], out: &mut O) -> io::Result<()>
    ensures { OnOk result (Appends (O.contents out.old) (O.contents out.new) (file_line path.now table.now)) }
{
    let size = table.len();
    writeln!(out, "{path} length {size}")
}

// Writes a table to a new file.
pub(crate) fn unpack_table<R: Files, O: Write, E: Write>(
    rt: &R,
    alloc: Global,
    path: &str,
    table: &[u8],
    out: &mut O,
    err: &mut E,
) -> io::Result<u8>
    ensures { IfOk result (λ status. IsUnpacked path.now table.now (O.contents out.old) (O.contents out.new)
        (E.contents err.old) (E.contents err.new) status) }
{
    match write_new(rt, path, table) {
        Ok(()) => {
            print_file(path, table, out)?;
            Ok(0)
        }
        Err(error) => tell_not_made(alloc, path, &error, err),
    }
}

// Writes the table at an index to a new file of a folder.
fn unpack_one<R: Files, O: Write, E: Write>(
    rt: &R,
    alloc: Global,
    folder: &str,
    earlier: &[&[u8]],
    table: &[u8],
    out: &mut O,
    err: &mut E,
) -> io::Result<u8>
    ensures { IfOk result (λ status. IsUnpacked (path_of folder.now (map (λ table. table.now) earlier.now) table.now) table.now
        (O.contents out.old) (O.contents out.new) (E.contents err.old) (E.contents err.new) status) }
{
    let path = path_of(alloc, folder, earlier, table)?;
    unpack_table(rt, alloc, path.as_str(), table, out, err)
}

// Writes tables to new files of a folder, and returns the greatest status.
fn unpack_all<R: Files, O: Write, E: Write>(
    rt: &R,
    alloc: Global,
    folder: &str,
    tables: &[&[u8]],
    out: &mut O,
    err: &mut E,
) -> io::Result<u8>
    ensures { IfOk result (λ status. AreUnpacked folder.now [] (map (λ table. table.now) tables.now)
        (O.contents out.old) (O.contents out.new) (E.contents err.old) (E.contents err.new) status) }
{
    let mut worst = 0;
    'tables: for i in 0..tables.len() {
        let status = unpack_one(rt, alloc, folder, &tables[..i], tables[i], out, err)?;
        worst = worst_of(worst, status);
    }
    Ok(worst)
}

// Makes a folder, unless it is there. A file that has its name is an error.
pub(crate) fn make_folder<R: Files>(rt: &R, folder: &str) -> io::Result<()> {
    match fs::metadata(rt, folder) {
        Ok(metadata) if metadata.is_dir() => Ok(()),
        Ok(_) => Err(io::Error::new(ErrorKind::NotADirectory, "a file, not a folder")),
        Err(_) => fs::create_dir(rt, folder),
    }
}

// Writes tables to new files of a folder, which is made if it isn't there.
fn unpack_to<R: Files, O: Write, E: Write>(
    rt: &R,
    alloc: Global,
    folder: &str,
    tables: &[&[u8]],
    out: &mut O,
    err: &mut E,
) -> io::Result<u8>
    ensures { IfOk result (λ status. AreFiles folder.now (map (λ table. table.now) tables.now)
        (O.contents out.old) (O.contents out.new) (E.contents err.old) (E.contents err.new) status) }
{
    match make_folder(rt, folder) {
        Ok(()) => unpack_all(rt, alloc, folder, tables, out, err),
        Err(error) => tell_not_made(alloc, folder, &error, err),
    }
}

// Returns the bytes of the tables of a dump.
fn dumped(alloc: Global, tables: &[Dumped]) -> Result<Vec<&[u8]>, AllocError>
    ensures { IfOk result (λ all. map (λ table. table.now) all.items ≡ map (λ table. table.bytes.items) tables.now) }
{
    let mut all = Vec::new(alloc);
    'tables: for table in tables {
        all.push(table.bytes.as_slice())?;
    }
    Ok(all)
}

// Writes the tables of a dump, or prints which of its lines can't be read.
fn unpack_dump<R: Files, O: Write, E: Write>(
    rt: &R,
    alloc: Global,
    name: &str,
    folder: &str,
    dump: &[u8],
    out: &mut O,
    err: &mut E,
) -> io::Result<u8>
    ensures { IfOk result (λ status. UnpacksDump name.now folder.now dump.now (O.contents out.old) (O.contents out.new)
        (E.contents err.old) (E.contents err.new) status) }
{
    match tables_of(alloc, dump) {
        Ok(tables) => {
            let all = dumped(alloc, &tables)?;
            Ok(unpack_to(rt, alloc, folder, &all, out, err)?)
        }
        Err(DumpFault::Memory) => Err(io::Error::from(AllocError)),
        Err(fault) => {
            complain(alloc, name, &fault, err)?;
            Ok(1)
        }
    }
}

// Returns the bytes of the tables of an image.
fn located<'a>(
    alloc: Global,
    base: u64,
    bytes: &'a [u8],
    tables: &[Located],
) -> Result<Vec<&'a [u8]>, AllocError>
    ensures { IfOk result (λ all. map (λ table. table.now) all.items ≡ map (contents (image_at base bytes.now)) tables.now) }
{
    let mut all = Vec::new(alloc);
    'tables: for table in tables {
        all.push(contents(base, bytes, table))?;
    }
    Ok(all)
}

// Writes the tables of an image, or prints why the bytes are none.
fn unpack_image<R: Files, O: Write, E: Write>(
    rt: &R,
    alloc: Global,
    source: &Source<'_>,
    bytes: &[u8],
    out: &mut O,
    err: &mut E,
) -> io::Result<u8>
    ensures { IfOk result (λ status. UnpacksImage source.now.name.now source.now.folder.now source.now.base bytes.now
        (O.contents out.old) (O.contents out.new) (E.contents err.old) (E.contents err.new) status) }
{
    match find_tables(alloc, source.base, bytes) {
        Ok(tables) => {
            let all = located(alloc, source.base, bytes, &tables)?;
            unpack_to(rt, alloc, source.folder, &all, out, err)
        }
        Err(fault) => tell_no_image(alloc, source.name, source.base, &fault, err),
    }
}

// Writes the tables of bytes, which are a dump or an image.
fn unpack_bytes<R: Files, O: Write, E: Write>(
    rt: &R,
    alloc: Global,
    source: &Source<'_>,
    bytes: &[u8],
    out: &mut O,
    err: &mut E,
) -> io::Result<u8>
    ensures { IfOk result (λ status. UnpacksBy (is_dump bytes.now) source.now.name.now source.now.folder.now source.now.base
        bytes.now (O.contents out.old) (O.contents out.new) (E.contents err.old) (E.contents err.new) status) }
{
    if is_dump(bytes) {
        return unpack_dump(rt, alloc, source.name, source.folder, bytes, out, err);
    }
    unpack_image(rt, alloc, source, bytes, out, err)
}

/// Writes each table of the dump or the image in a file, or on standard input, to a new file of a folder, which is made if it
/// isn't there. An image begins at the physical address `base`. The name of a file is the signature, a number if the signature
/// was there before, and `.aml`. A line on `out` has the path and the length of each file that was written. A file that is
/// there stays as it is, and a line on `err` says so. The status is 1 if a table isn't written or the file has none, and 2 if
/// it can't be read.
pub fn unpack<R: Files + Input, O: Write, E: Write>(
    rt: &R,
    alloc: Global,
    name: &str,
    folder: &str,
    base: u64,
    out: &mut O,
    err: &mut E,
) -> io::Result<u8>
    ensures { IfOk result (λ status. Unpacks name.now folder.now base (O.contents out.old) (O.contents out.new)
        (E.contents err.old) (E.contents err.new) status) }
{
    match read_word(rt, alloc, name) {
        Ok(bytes) => {
            let source = Source { name, folder, base };
            unpack_bytes(rt, alloc, &source, &bytes, out, err)
        }
        Err(error) => tell_unread(alloc, name, &error, err),
    }
}
