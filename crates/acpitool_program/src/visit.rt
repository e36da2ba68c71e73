//! What words name: tables of files, of folders, of images, and of standard input. They are gathered, checked or listed.

ghost use Rattle.std.specs.Prelude.{IfOk, IfErr, map, string_bytes};
ghost use Rattle.acpitool_program.specs.Job.{asked};
ghost use Rattle.acpitool_program.specs.Machine.{kept_by};
ghost use Rattle.acpitool_program.specs.Outcome.{IsUnread, AreOfBytes, AreOfFile, AreOfEach, AreOfFolder, AreOfImageFile};
ghost use Rattle.acpitool_program.specs.Outcome.{AreOfWord, KeptAs};

use crate::files::{files_in, is_folder, read_file, read_word};
use crate::job::Job;
use crate::machine::Kept;
use crate::outcome::{tell_unread, visit_content, visit_image, worst_of};
use crate::placed::{Placed, image_in};
use std::alloc::Global;
use std::io;
use std::io::{Input, Write};
use std::rt::Files;

// Gathers, checks or lists what is in the bytes of a file, if it could be read.
fn visit_bytes<O: Write, E: Write>(
    alloc: Global,
    job: &Job,
    name: &str,
    read: io::Result<Vec<u8>>,
    out: &mut O,
    err: &mut E,
    kept: &mut Vec<Kept>,
) -> io::Result<u8>
    ensures file { IfOk result (λ status. IfOk read (λ bytes. KeptAs (asked job.now) (AreOfBytes name.now bytes.items)
        (O.contents out.old) (O.contents out.new) (E.contents err.old) (E.contents err.new)
        (map kept_by kept.old.items) (map kept_by kept.new.items) status)) }
    ensures unread { IfOk result (λ status. IfErr read (λ _. KeptAs (asked job.now) (IsUnread name.now)
        (O.contents out.old) (O.contents out.new) (E.contents err.old) (E.contents err.new)
        (map kept_by kept.old.items) (map kept_by kept.new.items) status)) }
    ensures any { IfOk result (λ status. KeptAs (asked job.now) (AreOfFile name.now)
        (O.contents out.old) (O.contents out.new) (E.contents err.old) (E.contents err.new)
        (map kept_by kept.old.items) (map kept_by kept.new.items) status) }
{
    match read {
        Ok(bytes) => Ok(visit_content(alloc, job, name, &bytes, out, err, kept)?),
        Err(error) => Ok(tell_unread(alloc, name, &error, err)?),
    }
}

// Gathers, checks or lists what is in files, one after another, and returns the greatest status.
fn visit_files<R: Files, O: Write, E: Write>(
    rt: &R,
    alloc: Global,
    job: &Job,
    paths: &[String],
    out: &mut O,
    err: &mut E,
    kept: &mut Vec<Kept>,
) -> io::Result<u8>
    ensures { IfOk result (λ status. KeptAs (asked job.now)
        (AreOfEach AreOfFile (map (λ path. string_bytes path) paths.now))
        (O.contents out.old) (O.contents out.new) (E.contents err.old) (E.contents err.new)
        (map kept_by kept.old.items) (map kept_by kept.new.items) status) }
{
    let mut worst = 0;
    for path in paths {
        let name = path.as_str();
        let read = read_file(rt, alloc, name);
        let status = visit_bytes(alloc, job, name, read, out, err, kept)?;
        worst = worst_of(worst, status);
    }
    Ok(worst)
}

// Gathers, checks or lists what is in the files of a folder.
fn visit_folder<R: Files + AllocGlobal + Clone + Drop, O: Write, E: Write>(
    rt: &R,
    alloc: Global,
    job: &Job,
    folder: &str,
    out: &mut O,
    err: &mut E,
    kept: &mut Vec<Kept>,
) -> io::Result<u8>
    ensures { IfOk result (λ status. KeptAs (asked job.now) (AreOfFolder folder.now)
        (O.contents out.old) (O.contents out.new) (E.contents err.old) (E.contents err.new)
        (map kept_by kept.old.items) (map kept_by kept.new.items) status) }
{
    match files_in(rt, alloc, folder) {
        Ok(paths) => Ok(visit_files(rt, alloc, job, &paths, out, err, kept)?),
        Err(error) => Ok(tell_unread(alloc, folder, &error, err)?),
    }
}

// Gathers, checks or lists the tables of an image in a file.
fn visit_placed<R: Files + Input, O: Write, E: Write>(
    rt: &R,
    alloc: Global,
    job: &Job,
    image: &Placed<'_>,
    out: &mut O,
    err: &mut E,
    kept: &mut Vec<Kept>,
) -> io::Result<u8>
    ensures { IfOk result (λ status. KeptAs (asked job.now) (AreOfImageFile image.now.file.now image.now.base)
        (O.contents out.old) (O.contents out.new) (E.contents err.old) (E.contents err.new)
        (map kept_by kept.old.items) (map kept_by kept.new.items) status) }
{
    match read_word(rt, alloc, image.file) {
        Ok(bytes) => Ok(visit_image(alloc, job, image, &bytes, out, err, kept)?),
        Err(error) => Ok(tell_unread(alloc, image.file, &error, err)?),
    }
}

// Gathers, checks or lists what a word names: a file, the files of a folder, an image, or standard input.
fn visit_word<R: Files + Input + AllocGlobal + Clone + Drop, O: Write, E: Write>(
    rt: &R,
    alloc: Global,
    job: &Job,
    word: &str,
    out: &mut O,
    err: &mut E,
    kept: &mut Vec<Kept>,
) -> io::Result<u8>
    ensures { IfOk result (λ status. KeptAs (asked job.now) (AreOfWord word.now)
        (O.contents out.old) (O.contents out.new) (E.contents err.old) (E.contents err.new)
        (map kept_by kept.old.items) (map kept_by kept.new.items) status) }
{
    if is_folder(rt, word) {
        return Ok(visit_folder(rt, alloc, job, word, out, err, kept)?);
    }
    if let Some(image) = image_in(rt, word) {
        return Ok(visit_placed(rt, alloc, job, &image, out, err, kept)?);
    }
    let read = read_word(rt, alloc, word);
    Ok(visit_bytes(alloc, job, word, read, out, err, kept)?)
}

/// Gathers, checks or lists what words name, in order, and returns the greatest status. Adds the tables that were gathered
/// or checked to those that are kept.
pub fn visit_words<R: Files + Input + AllocGlobal + Clone + Drop, O: Write, E: Write>(
    rt: &R,
    alloc: Global,
    job: &Job,
    files: &[String],
    out: &mut O,
    err: &mut E,
    kept: &mut Vec<Kept>,
) -> io::Result<u8>
    ensures { IfOk result (λ status. KeptAs (asked job.now)
        (AreOfEach AreOfWord (map (λ file. string_bytes file) files.now))
        (O.contents out.old) (O.contents out.new) (E.contents err.old) (E.contents err.new)
        (map kept_by kept.old.items) (map kept_by kept.new.items) status) }
{
    let mut worst = 0;
    for word in files {
        let status = visit_word(rt, alloc, job, word.as_str(), out, err, kept)?;
        worst = worst_of(worst, status);
    }
    Ok(worst)
}
