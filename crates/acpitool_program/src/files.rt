//! Files and folders that are read, and files that are written.

ghost use Rattle.std.specs.Prelude.{◌≡◌, ◌≢◌, true, IsTrue, IfOk, IfSome, map, string_bytes, codes};
ghost use Rattle.acpitool_program.specs.Replaced.{is_same_path, is_path_among};

use acpi_input::file::read_input;
use std::alloc::Global;
use std::fs::File;
use std::io::{Error, ErrorKind, Input, Read, Write};
use std::os::unix::fs::MetadataExt;
use std::rt::Files;
use std::{fs, io};

// Returns all bytes of a reader, or an error if it has more than a table can have.
fn read_all<I: Read + Drop>(alloc: Global, input: I) -> io::Result<Vec<u8>>
    ensures { IfOk result (λ bytes. IfSome (I.remaining input) (λ file. bytes.items ≡ file)) }
{
    let bytes = read_input(alloc, input)?;
    if bytes.len() > u32::MAX as usize {
        return Err(Error::new(ErrorKind::FileTooLarge, "longer than 4294967295 bytes"));
    }
    Ok(bytes)
}

/// Returns the bytes of a file, or the error of the system.
pub fn read_file<R: Files>(rt: &R, alloc: Global, path: &str) -> io::Result<Vec<u8>> {
    read_all(alloc, fs::open(rt, path)?)
}

/// Returns the bytes of a file, or those of standard input if the word is `-`, or the error of the system.
pub fn read_word<R: Files + Input>(rt: &R, alloc: Global, word: &str) -> io::Result<Vec<u8>> {
    match word {
        "-" => read_all(alloc, rt.reader()),
        path => read_file(rt, alloc, path),
    }
}

/// Returns whether a word is the path of a folder: `-` is standard input. What the system says nothing of is a file, so that its
/// own line says why it can't be read.
pub fn is_folder<R: Files>(rt: &R, word: &str) -> bool
    ensures { IsTrue result → word.now ≢ codes "-" }
{
    match word {
        "-" => false,
        path => match fs::metadata(rt, path) {
            Ok(metadata) => metadata.is_dir(),
            Err(_) => false,
        },
    }
}

/// Returns whether a file or a folder has this path.
pub fn is_there<R: Files>(rt: &R, path: &str) -> bool {
    fs::metadata(rt, path).is_ok()
}

// Returns whether the system says that two paths are those of one regular file.
fn is_one_file<R: Files>(rt: &R, one: &str, other: &str) -> bool {
    match (fs::metadata(rt, one), fs::metadata(rt, other)) {
        (Ok(a), Ok(b)) => a.is_file() && a.ino() != 0 && a.ino() == b.ino() && a.dev() == b.dev(),
        _ => false,
    }
}

/// Returns whether two words name one file: they are the same, or the system says so. `-` is no file.
pub fn is_same_file<R: Files>(rt: &R, one: &str, other: &str) -> bool
    ensures file { result ≡ true → one.now ≢ codes "-" }
    ensures same { is_same_path one.now other.now ≡ true → result ≡ true }
{
    if one == "-" || other == "-" {
        return false;
    }
    one == other || is_one_file(rt, one, other)
}

/// Returns whether a word names one of the files with these paths.
pub fn is_among<R: Files>(rt: &R, word: &str, paths: &[String]) -> bool
    ensures { is_path_among word.now (map (λ path. string_bytes path) paths.now) ≡ true → result ≡ true }
{
    'paths: for path in paths {
        if is_same_file(rt, word, path.as_str()) {
            return true;
        }
    }
    false
}

/// Returns the paths of a folder's files, in the order of their names. Folders in it aren't among them. A folder without files is
/// an error.
pub fn files_in<R: Files + AllocGlobal + Clone + Drop>(
    rt: &R,
    alloc: Global,
    folder: &str,
) -> io::Result<Vec<String>> {
    let mut paths = Vec::new(alloc);
    for entry in fs::read_dir(rt, folder)? {
        let entry = entry?;
        if !is_folder(rt, entry.path().as_str()) {
            paths.push(String::from_str(alloc, entry.path().as_str())?)?;
        }
    }
    if paths.is_empty() {
        return Err(Error::new(ErrorKind::NotFound, "no files in this folder"));
    }
    paths.sort()?;
    Ok(paths)
}

// Returns whether a path is there, but isn't that of a regular file: a device, a pipe, a folder or a link.
fn is_special<R: Files>(rt: &R, path: &str) -> bool {
    match fs::symlink_metadata(rt, path) {
        Ok(metadata) => !metadata.is_file(),
        Err(_) => false,
    }
}

// Writes bytes to a new file FILE.part, which then takes the name of the file. So a file that is there stays whole until then.
// A FILE.part that is there may be someone's own: the error has the kind AlreadyExists.
fn replace_file<R: Files>(rt: &R, alloc: Global, file: &str, bytes: &[u8]) -> io::Result<()> {
    let part = format!(in alloc; "{file}.part")?;
    let mut new = File::create_new(rt, part.as_str())?;
    let moved = match new.write_all(bytes) {
        Ok(()) => fs::rename(rt, part.as_str(), file),
        Err(error) => Err(error),
    };
    if moved.is_err() {
        let _removed = fs::remove_file(rt, part.as_str());
    }
    moved
}

/// Writes bytes to a file. A regular file is replaced as a whole. A device, a pipe or a link stays what it is, and takes the
/// bytes. An error of kind AlreadyExists says that FILE.part is there.
pub fn write_file<R: Files>(rt: &R, alloc: Global, file: &str, bytes: &[u8]) -> io::Result<()> {
    if is_special(rt, file) {
        return fs::write(rt, file, bytes);
    }
    replace_file(rt, alloc, file, bytes)
}

/// Writes bytes to a new file. A file that can't take all of them is removed. An error of kind AlreadyExists says that the file
/// is there.
pub fn write_new<R: Files>(rt: &R, path: &str, bytes: &[u8]) -> io::Result<()> {
    let mut new = File::create_new(rt, path)?;
    let written = new.write_all(bytes);
    if written.is_err() {
        let _removed = fs::remove_file(rt, path);
    }
    written
}
