//! The files by which QEMU hands the tables of a folder to firmware.

ghost use Rattle.std.specs.Prelude.{◌≡◌, ℕ, List, ◌++◌, map, string_bytes, codes, IfOk, MatchResult};
ghost use Rattle.std.specs.Io.KnownBytes.{Keeps};
ghost use Rattle.acpi_loader.specs.Loader.{IsLoader};
ghost use Rattle.acpitool_program.specs.Loading.{blamed, HaveNoLoader, IsLoaderOf, IsNotLoaded, HasNoLoader, HasFolder};
ghost use Rattle.acpitool_program.specs.Loading.{HasFolders, IsPut, IsPutOut, LoadsFolder};
ghost use Rattle.acpitool_program.specs.Unpacking.{IsUnpacked};

use crate::complaint::complain;
use crate::files::files_in;
use crate::laying::{blamed as blamed_by, read_files};
use crate::outcome::tell_unread;
use crate::unpacking::{make_folder, tell_not_made, unpack_table};
use acpi_layout::lay_fault::LayFault;
use acpi_loader::fault::LoaderFault;
use acpi_loader::loader::{Loader, loader_of};
use std::alloc::{AllocError, Global};
use std::io;
use std::io::Write;
use std::rt::Files;

// Returns what a fault is said of: the file that is a second one of its signature, or else the folder.
fn blamed<'a>(folder: &'a str, paths: &'a [String], fault: LoaderFault) -> &'a str
    ensures { result.now ≡ blamed folder.now (map (λ path. string_bytes path) paths.now) fault }
{
    match fault {
        LoaderFault::NotLaid(fault) => blamed_by(folder, paths, fault),
        LoaderFault::TooLarge => folder,
    }
}

// Returns the loader of files, or prints why they have none, and returns the status.
fn loader_of_files<E: Write>(
    alloc: Global,
    folder: &str,
    paths: &[String],
    files: &[Vec<u8>],
    err: &mut E,
) -> io::Result<Result<Loader, u8>>
    ensures { IfOk result (λ loader. MatchResult loader
        (λ loader. IsLoader (map (λ file. file.items) files.now) loader × Keeps (E.contents err.old) (E.contents err.new))
        (λ status. HaveNoLoader folder.now (map (λ path. string_bytes path) paths.now) (map (λ file. file.items) files.now)
        (E.contents err.old) (E.contents err.new) status)) }
{
    match loader_of(alloc, files) {
        Ok(loader) => Ok(Ok(loader)),
        Err(LoaderFault::NotLaid(LayFault::Memory)) => Err(io::Error::from(AllocError)),
        Err(fault) => {
            complain(alloc, blamed(folder, paths, fault), &fault, err)?;
            Ok(Err(1))
        }
    }
}

// Returns the loader of the files of paths, or prints why they have none, and returns the status.
fn loader_of_paths<R: Files, E: Write>(
    rt: &R,
    alloc: Global,
    folder: &str,
    paths: &[String],
    err: &mut E,
) -> io::Result<Result<Loader, u8>>
    ensures { IfOk result (λ loader. MatchResult loader
        (λ loader. IsLoaderOf (map (λ path. string_bytes path) paths.now) loader
        × Keeps (E.contents err.old) (E.contents err.new))
        (λ status. IsNotLoaded folder.now (map (λ path. string_bytes path) paths.now)
        (E.contents err.old) (E.contents err.new) status)) }
{
    match read_files(rt, alloc, paths, err)? {
        Ok(files) => Ok(loader_of_files(alloc, folder, paths, &files, err)?),
        Err(status) => Ok(Err(status)),
    }
}

// Returns the loader of a folder, or prints why it has none, and returns the status.
fn loader_of_folder<R: Files + AllocGlobal + Clone + Drop, E: Write>(
    rt: &R,
    alloc: Global,
    folder: &str,
    err: &mut E,
) -> io::Result<Result<Loader, u8>>
    ensures { IfOk result (λ loader. MatchResult loader
        (λ loader. ((paths : List (List ℕ)) × IsLoaderOf paths loader) × Keeps (E.contents err.old) (E.contents err.new))
        (λ status. HasNoLoader folder.now (E.contents err.old) (E.contents err.new) status)) }
{
    match files_in(rt, alloc, folder) {
        Ok(paths) => Ok(loader_of_paths(rt, alloc, folder, &paths, err)?),
        Err(error) => Ok(Err(tell_unread(alloc, folder, &error, err)?)),
    }
}

// Makes a folder, unless it is there, or prints why it can't be made.
fn make_one<R: Files, E: Write>(rt: &R, alloc: Global, path: &str, err: &mut E) -> io::Result<u8>
    ensures { IfOk result (λ status. HasFolder path.now (E.contents err.old) (E.contents err.new) status) }
{
    match make_folder(rt, path) {
        Ok(()) => Ok(0),
        Err(error) => tell_not_made(alloc, path, &error, err),
    }
}

// Makes a folder in a folder, unless it is there, or prints why it can't be made.
fn make_in<R: Files, E: Write>(
    rt: &R,
    alloc: Global,
    folder: &str,
    name: &str,
    err: &mut E,
) -> io::Result<u8>
    ensures { IfOk result (λ status. HasFolder (folder.now ++ name.now) (E.contents err.old) (E.contents err.new) status) }
{
    let path = format!(in alloc; "{folder}{name}")?;
    make_one(rt, alloc, path.as_str(), err)
}

// Makes the folders of the files.
fn make_folders<R: Files, E: Write>(rt: &R, alloc: Global, to: &str, err: &mut E) -> io::Result<u8>
    ensures { IfOk result (λ status. HasFolders to.now (E.contents err.old) (E.contents err.new) status) }
{
    let first = make_one(rt, alloc, to, err)?;
    if first != 0 {
        return Ok(first);
    }
    let second = make_in(rt, alloc, to, "/etc", err)?;
    if second != 0 {
        return Ok(second);
    }
    let third = make_in(rt, alloc, to, "/etc/acpi", err)?;
    Ok(third)
}

// Writes bytes to a new file in a folder.
fn write_in<R: Files, O: Write, E: Write>(
    rt: &R,
    alloc: Global,
    folder: &str,
    name: &str,
    bytes: &[u8],
    out: &mut O,
    err: &mut E,
) -> io::Result<u8>
    ensures { IfOk result (λ status. IsUnpacked (folder.now ++ name.now) bytes.now (O.contents out.old) (O.contents out.new)
        (E.contents err.old) (E.contents err.new) status) }
{
    let path = format!(in alloc; "{folder}{name}")?;
    unpack_table(rt, alloc, path.as_str(), bytes, out, err)
}

// Writes the files of a loader to a folder, in which their folders are.
fn write_files<R: Files, O: Write, E: Write>(
    rt: &R,
    alloc: Global,
    loader: &Loader,
    to: &str,
    out: &mut O,
    err: &mut E,
) -> io::Result<u8>
    ensures { IfOk result (λ status. IsPut loader.now to.now (O.contents out.old) (O.contents out.new)
        (E.contents err.old) (E.contents err.new) status) }
{
    let tables = loader.tables.as_slice();
    let rsdp = loader.rsdp.as_slice();
    let script = loader.script.as_slice();
    let first = write_in(rt, alloc, to, "/etc/acpi/tables", tables, out, err)?;
    if first != 0 {
        return Ok(first);
    }
    let second = write_in(rt, alloc, to, "/etc/acpi/rsdp", rsdp, out, err)?;
    if second != 0 {
        return Ok(second);
    }
    let third = write_in(rt, alloc, to, "/etc/table-loader", script, out, err)?;
    Ok(third)
}

// Writes the files of a loader to a folder, which is made if it isn't there.
fn write_loader<R: Files, O: Write, E: Write>(
    rt: &R,
    alloc: Global,
    loader: &Loader,
    to: &str,
    out: &mut O,
    err: &mut E,
) -> io::Result<u8>
    ensures { IfOk result (λ status. IsPutOut loader.now to.now (O.contents out.old) (O.contents out.new)
        (E.contents err.old) (E.contents err.new) status) }
{
    let status = make_folders(rt, alloc, to, err)?;
    if status != 0 {
        return Ok(status);
    }
    let written = write_files(rt, alloc, loader, to, out, err)?;
    Ok(written)
}

/// Writes the files by which QEMU hands the tables of a folder to firmware to new files of another folder: `etc/acpi/tables`,
/// `etc/acpi/rsdp` and `etc/table-loader`, in this order. They are those of `loader_of`, for the files in the order of their
/// names. Each file has to be a table, an RSDP or a FACS by its signature, or a text whose name ends in `.txt`, `.asl` or `.dsl`,
/// which stands for its table. Folders are made if they aren't there. A line on `out` has the path and the length of each file
/// that was written.
///
/// If the files have no loader, nothing is written, and lines on `err` say why: a file can't be read or isn't what its signature
/// says, a text isn't made into a table, numbers of its table are wrong, or `loader_of` refuses them. If a folder or a file can't
/// be made, also since a file is there, no further file is written, and a line on `err` names it. The status is 1 then, and 2 if
/// a file or the folder can't be read.
pub fn load_folder<R: Files + AllocGlobal + Clone + Drop, O: Write, E: Write>(
    rt: &R,
    alloc: Global,
    folder: &str,
    to: &str,
    out: &mut O,
    err: &mut E,
) -> io::Result<u8>
    ensures { IfOk result (λ status. LoadsFolder folder.now to.now (O.contents out.old) (O.contents out.new)
        (E.contents err.old) (E.contents err.new) status) }
{
    match loader_of_folder(rt, alloc, folder, err)? {
        Ok(loader) => Ok(write_loader(rt, alloc, &loader, to, out, err)?),
        Err(status) => Ok(status),
    }
}
