//! The archive from which Linux takes the tables of a folder.

ghost use Rattle.std.specs.Prelude.{false, ◌≡◌, ◌⊎◌, ◌++◌, map, string_bytes, IfOk, OnOk, MatchResult};
ghost use Rattle.std.specs.Io.KnownBytes.{Appends};
ghost use Rattle.std.specs.Option.{option_map, option_to_list};
ghost use Rattle.acpi_cpio.specs.Archive.{named, tables_archive};
ghost use Rattle.acpitool_program.specs.Archiving.{name_of, leaves_out, is_left_out, left_out_line, HasTable, HasNoTable};
ghost use Rattle.acpitool_program.specs.Archiving.{IsRead, AreRead};
ghost use Rattle.acpitool_program.specs.Archiving.{IsRefused, AreRefused, DontFit, ArchivesFiles, Archives};
ghost use Rattle.acpitool_program.specs.Making.{IsWritten};
ghost use Rattle.acpitool_program.specs.Replaced.{is_path_among};

use crate::another::another_of;
use crate::complaint::complain;
use crate::files::{files_in, is_among, read_file};
use crate::headed::headed;
use crate::making::write_table;
use crate::outcome::{tell_replaced, tell_unread};
use acpi_cpio::archive::{ArchivedFile, tables_archive};
use acpi_cpio::fault::CpioFault;
use acpi_forms::kind::kind_of;
use acpi_make::file_kind::FileKind;
use std::alloc::{AllocError, Global};
use std::io;
use std::io::Write;
use std::rt::Files;

// Returns what follows the last slash of a path.
fn name_of(path: &[u8]) -> &[u8]
    ensures { result.now ≡ name_of path.now }
{
    let mut start = path.len();
    'steps: while start > 0 && path[start - 1] != b'/' {
        start -= 1;
    }
    &path[start..]
}

// Returns the name and the bytes of a file that is a table.
fn archived(alloc: Global, path: &str, bytes: Vec<u8>) -> Result<ArchivedFile, AllocError>
    ensures { IfOk result (λ file. named file ≡ (name_of path.now, bytes.items)) }
{
    Ok(ArchivedFile {
        name: Vec::from_slice(alloc, name_of(path.as_bytes()))?,
        contents: bytes,
    })
}

// Returns whether Linux takes no table of a kind from its initrd.
fn leaves_out(kind: FileKind) -> bool
    ensures { result ≡ leaves_out kind }
{
    match kind {
        FileKind::Rsdp | FileKind::Facs => true,
        FileKind::Table | FileKind::Cdat | FileKind::S3pt => false,
    }
}

// Returns whether bytes are left out: they are such a table, and no dump or text.
#[tactic(auto, unfolding(crate::specs::Archiving::is_left_out))]
fn is_left_out(bytes: &[u8]) -> bool
    ensures { result ≡ is_left_out bytes.now }
{
    another_of(bytes).is_none() && leaves_out(kind_of(bytes))
}

// Prints that a file is left out.
fn tell_left_out<E: Write>(path: &str, err: &mut E) -> io::Result<()>
    ensures { OnOk result (Appends (E.contents err.old) (E.contents err.new) (left_out_line path.now)) }
{
    writeln!(
        err,
        "{path}: note: left out, as Linux takes no RSDP and no FACS from an initrd"
    )
}

// Returns the table of a file that was read, or prints that the file is left out. Or prints why it is no table, and returns the
// status.
fn table_of<E: Write>(
    alloc: Global,
    path: &str,
    bytes: Vec<u8>,
    err: &mut E,
) -> io::Result<Result<Option<ArchivedFile>, u8>>
    ensures { IfOk result (λ table. MatchResult table
        (λ table. HasTable path.now bytes.items (option_map named table) (E.contents err.old) (E.contents err.new))
        (λ status. HasNoTable path.now bytes.items (E.contents err.old) (E.contents err.new) status)) }
{
    if is_left_out(&bytes) {
        tell_left_out(path, err)?;
        return Ok(Ok(None));
    }
    if let Err(fault) = headed(&bytes) {
        complain(alloc, path, &fault, err)?;
        return Ok(Err(1));
    }
    Ok(Ok(Some(archived(alloc, path, bytes)?)))
}

// Returns the table in a file, if it isn't left out, or prints why there is none, and returns the status.
fn read_table<R: Files, E: Write>(
    rt: &R,
    alloc: Global,
    path: &str,
    err: &mut E,
) -> io::Result<Result<Option<ArchivedFile>, u8>>
    ensures { IfOk result (λ table. MatchResult table
        (λ table. IsRead path.now (option_map named table) (E.contents err.old) (E.contents err.new))
        (λ status. IsRefused path.now (E.contents err.old) (E.contents err.new) status)) }
{
    match read_file(rt, alloc, path) {
        Ok(bytes) => table_of(alloc, path, bytes, err),
        Err(error) => Ok(Err(tell_unread(alloc, path, &error, err)?)),
    }
}

// Adds a table, if there is one.
fn push_table(table: Option<ArchivedFile>, tables: &mut Vec<ArchivedFile>) -> Result<(), AllocError>
    ensures { OnOk result (tables.new.items ≡ tables.old.items ++ option_to_list table) }
{
    if let Some(table) = table {
        tables.push(table)?;
    }
    Ok(())
}

// Returns the tables in files, and prints which are left out. Or prints why the first that isn't a table is none, and returns the
// status.
fn read_tables<R: Files, E: Write>(
    rt: &R,
    alloc: Global,
    paths: &[String],
    err: &mut E,
) -> io::Result<Result<Vec<ArchivedFile>, u8>>
    ensures { IfOk result (λ all. MatchResult all
        (λ tables. AreRead (map (λ path. string_bytes path) paths.now) (map named tables.items)
        (E.contents err.old) (E.contents err.new))
        (λ status. AreRefused (map (λ path. string_bytes path) paths.now) (E.contents err.old) (E.contents err.new) status)) }
{
    let mut tables = Vec::new(alloc);
    'paths: for path in paths {
        match read_table(rt, alloc, path.as_str(), err)? {
            Ok(table) => push_table(table, &mut tables)?,
            Err(status) => return Ok(Err(status)),
        }
    }
    Ok(Ok(tables))
}

// Writes the archive of tables, or prints that they don't fit one.
fn write_archive<R: Files, O: Write, E: Write>(
    rt: &R,
    alloc: Global,
    tables: &[ArchivedFile],
    file: &str,
    out: &mut O,
    err: &mut E,
) -> io::Result<u8>
    ensures { IfOk result (λ status.
        IsWritten (tables_archive (map named tables.now)) file.now (O.contents out.old) (O.contents out.new)
        (E.contents err.old) (E.contents err.new) status
        ⊎ DontFit (map named tables.now) file.now (O.contents out.old) (O.contents out.new)
        (E.contents err.old) (E.contents err.new) status) }
{
    match tables_archive(alloc, tables) {
        Ok(archive) => Ok(write_table(rt, alloc, &archive, file, out, err)?),
        Err(CpioFault::Memory) => Err(io::Error::from(AllocError)),
        Err(CpioFault::TooLarge(index)) => {
            complain(alloc, file, &CpioFault::TooLarge(index), err)?;
            Ok(1)
        }
    }
}

// Writes the archive of the tables in files. It isn't to replace one of them.
fn archive_files<R: Files, O: Write, E: Write>(
    rt: &R,
    alloc: Global,
    paths: &[String],
    file: &str,
    out: &mut O,
    err: &mut E,
) -> io::Result<u8>
    ensures archives { IfOk result (λ status. ArchivesFiles (map (λ path. string_bytes path) paths.now) file.now
        (O.contents out.old) (O.contents out.new) (E.contents err.old) (E.contents err.new) status) }
    ensures kept { IfOk result (λ status. status ≡ 0
        → is_path_among file.now (map (λ path. string_bytes path) paths.now) ≡ false) }
{
    if is_among(rt, file, paths) {
        return Ok(tell_replaced("archive", file, err)?);
    }
    match read_tables(rt, alloc, paths, err)? {
        Ok(tables) => Ok(write_archive(rt, alloc, &tables, file, out, err)?),
        Err(status) => Ok(status),
    }
}

/// Writes the archive from which Linux takes the tables of a folder, in the order of their names, to a file, or to standard
/// output if it is `-`. Linux takes no RSDP and no FACS: a line on `err` names each file that is one by its signature, and it is
/// left out. Each other file of the folder has to be a table with the standard header: a line on `err` names the first that isn't
/// one, and no archive is written. The status is 1 then, or if the archive would replace one of the files or can't be written,
/// and 2 if a file or the folder can't be read.
pub fn archive_folder<R: Files + AllocGlobal + Clone + Drop, O: Write, E: Write>(
    rt: &R,
    alloc: Global,
    folder: &str,
    file: &str,
    out: &mut O,
    err: &mut E,
) -> io::Result<u8>
    ensures { IfOk result (λ status. Archives folder.now file.now (O.contents out.old) (O.contents out.new)
        (E.contents err.old) (E.contents err.new) status) }
{
    match files_in(rt, alloc, folder) {
        Ok(paths) => archive_files(rt, alloc, &paths, file, out, err),
        Err(error) => tell_unread(alloc, folder, &error, err),
    }
}
