//! A run of the program.

ghost use Rattle.std.specs.Prelude.{◌≡◌, ℕ, List, length, map, string_bytes, IfOk, OnOk};
ghost use Rattle.std.specs.IoError.{error_kind};
ghost use Rattle.std.specs.Io.KnownBytes.{Appends};
ghost use Rattle.acpi_forms.specs.Known.{is_known};
ghost use Rattle.acpi_forms.specs.Makes.{IsTemplateOf};
ghost use Rattle.acpitool_program.specs.Program.{as_word, suggestion, unknown_line, IsTemplated, names_text, Lays, Ended};
ghost use Rattle.acpitool_program.specs.Program.{IsLost, Started};

use crate::apart::lay_apart;
use crate::archiving::archive_folder;
use crate::checking::check_all;
use crate::command::{Command, parse};
use crate::comparing::compare_files;
use crate::disassembly::disassemble;
use crate::drawing::draw;
use crate::help::{print_help, print_version, tell_wrong};
use crate::laying::lay_folder;
use crate::listing::list_file;
use crate::loading::load_folder;
use crate::making::make_file;
use crate::repairing::repair_file;
use crate::show::{list_all, show_all};
use crate::unpacking::unpack;
use acpi_asl::block::BlockText;
use acpi_forms::known::{is_known, meant};
use acpi_forms::make::template;
use std::alloc::Global;
use std::io::{ErrorKind, Input, Write};
use std::rt::{Env, Files};
use std::{env, io};

// Prints a template of a signature of four bytes, and returns 0.
fn print_template<O: Write>(alloc: Global, signature: &str, out: &mut O) -> io::Result<u8>
    requires { length signature.now ≡ 4 }
    ensures { IfOk result (λ status. (text : List ℕ) × (status ≡ 0)
        × Appends (O.contents out.old) (O.contents out.new) text × IsTemplateOf signature.now text) }
{
    let text = template(alloc, signature)?.unwrap();
    out.write_all(text.as_bytes())?;
    Ok(0)
}

// Returns a signature as a word for a shell.
fn as_word(signature: &[u8; 4]) -> &[u8]
    ensures { result.now ≡ as_word signature.now }
{
    match signature {
        b"RSD " => b"'RSD '",
        _ => signature,
    }
}

// Prints the signature that was probably meant, if there is one.
fn print_suggestion<E: Write>(signature: &Option<[u8; 4]>, err: &mut E) -> io::Result<()>
    ensures { OnOk result (Appends (E.contents err.old) (E.contents err.new) (suggestion signature.now)) }
{
    match signature {
        Some(signature) => {
            err.write_all(b"; did you mean ")?;
            err.write_all(as_word(signature))?;
            err.write_all(b"?")?;
            Ok(())
        }
        None => Ok(()),
    }
}

// Prints that no table has a signature, and returns 1.
fn tell_unknown<E: Write>(signature: &str, err: &mut E) -> io::Result<u8>
    ensures { IfOk result (λ status. (status ≡ 1)
        × Appends (E.contents err.old) (E.contents err.new) (unknown_line signature.now)) }
{
    write!(err, "acpitool: no table has the signature {signature}")?;
    print_suggestion(&meant(signature.as_bytes()), err)?;
    err.write_all(b"\n")?;
    Ok(1)
}

// Prints a template of a signature of four bytes, or that no table has it.
fn template_of<O: Write, E: Write>(
    alloc: Global,
    signature: &str,
    out: &mut O,
    err: &mut E,
) -> io::Result<u8>
    requires { length signature.now ≡ 4 }
    ensures { IfOk result (λ status. IsTemplated (is_known signature.now) signature.now
        (O.contents out.old) (O.contents out.new) (E.contents err.old) (E.contents err.new) status) }
{
    if is_known(signature.as_bytes()) {
        return Ok(print_template(alloc, signature, out)?);
    }
    Ok(tell_unknown(signature, err)?)
}

// Lays the tables of a folder, with their own RSDP or with one at another address.
fn lay<R: Files + AllocGlobal + Clone + Drop, O: Write, E: Write>(
    rt: &R,
    alloc: Global,
    rsdp: Option<u64>,
    folder: &str,
    file: &str,
    base: u64,
    out: &mut O,
    err: &mut E,
) -> io::Result<u8>
    ensures { IfOk result (λ status. Lays rsdp folder.now file.now base (O.contents out.old) (O.contents out.new)
        (E.contents err.old) (E.contents err.new) status) }
{
    match rsdp {
        Some(rsdp) => lay_apart(rt, alloc, folder, file, base, rsdp, out, err),
        None => lay_folder(rt, alloc, folder, file, base, out, err),
    }
}

// Returns what is printed of the objects of a definition block: JSON, or lines.
fn names_text(json: bool) -> BlockText
    ensures { result ≡ names_text json }
{
    if json {
        BlockText::Objects
    } else {
        BlockText::Names
    }
}

/// Runs the program on the words after its name, and returns its exit status:
///
/// - 0: everything that was asked for went to `out` or to a file. `err` has only notes: on numbers of a table that was written by
///   force, on what `repair` changed, on files that `cpio` left out, or on where the RSDP of an image on `out` is;
/// - 1: something that was read isn't a table, an RSDP, a FACS, an image or a text of a table, the structures of a table can't be
///   found, terms of a block can't be read, a table breaks a rule, two tables differ, tables have no image, a table can't be
///   written or its numbers are wrong, or no table has a signature; `err` has a line for each, or `out` for a rule or a
///   difference;
/// - 2: a file or a folder can't be read, a folder has no files, or words are wrong; `err` has a line for each, or which word is
///   wrong and the usage.
///
/// What can be shown is shown with each status. An error is one of `out` or `err`, or memory ran out.
pub fn run<R: Files + Input + AllocGlobal + Clone + Drop, O: Write, E: Write>(
    rt: &R,
    alloc: Global,
    words: &[String],
    out: &mut O,
    err: &mut E,
) -> io::Result<u8>
    ensures { IfOk result (λ status. Ended (map (λ word. string_bytes word) words.now)
        (O.contents out.old) (O.contents out.new) (E.contents err.old) (E.contents err.new) status) }
{
    match parse(words) {
        Ok(Command::Help) => print_help(out),
        Ok(Command::Version) => print_version(out),
        Ok(Command::Show(style, files, words)) => {
            show_all(rt, alloc, style, files, words, out, err)
        }
        Ok(Command::Disassemble(file, words)) => {
            disassemble(rt, alloc, BlockText::Asl, file, words, out, err)
        }
        Ok(Command::Names(json, file, words)) => {
            disassemble(rt, alloc, names_text(json), file, words, out, err)
        }
        Ok(Command::Json(files)) => list_all(rt, alloc, files, out, err),
        Ok(Command::Check(json, files)) => check_all(rt, alloc, json, files, out, err),
        Ok(Command::Image(json, file, base)) => list_file(rt, alloc, json, file, base, out, err),
        Ok(Command::Template(signature)) => template_of(alloc, signature, out, err),
        Ok(Command::Unpack(file, folder, base)) => unpack(rt, alloc, file, folder, base, out, err),
        Ok(Command::Cpio(folder, file)) => archive_folder(rt, alloc, folder, file, out, err),
        Ok(Command::Lay(rsdp, folder, file, base)) => {
            lay(rt, alloc, rsdp, folder, file, base, out, err)
        }
        Ok(Command::Loader(folder, to)) => load_folder(rt, alloc, folder, to, out, err),
        Ok(Command::Repair(name, file)) => repair_file(rt, alloc, name, file, out, err),
        Ok(Command::Tree(dot, file)) => draw(rt, alloc, dot, file, out, err),
        Ok(Command::Diff(first, second)) => compare_files(rt, alloc, first, second, out, err),
        Ok(Command::Make(force, text, file)) => make_file(rt, alloc, force, text, file, out, err),
        Err(wrong) => tell_wrong(&wrong, err),
    }
}

// Runs the program on its own words.
fn run_own<R: Env + Files + Input + AllocGlobal + Clone + Drop, O: Write, E: Write>(
    rt: &R,
    out: &mut O,
    err: &mut E,
) -> io::Result<u8>
    ensures { IfOk result (λ status. (words : List (List ℕ)) × Ended words
        (O.contents out.old) (O.contents out.new) (E.contents err.old) (E.contents err.new) status) }
{
    let words: Vec<String> = env::args(rt)?.skip(1).collect(rt.alloc())?;
    let status = run(rt, rt.alloc(), &words, out, err)?;
    out.flush()?;
    Ok(status)
}

// Returns the status of a run that had an error, and prints a line unless the reader of the output went away. Then the run may
// not have written all of its files.
fn end_lost<E: Write>(error: &io::Error, err: &mut E) -> u8
    ensures { IsLost (error_kind error.now) result }
{
    match error.kind() {
        ErrorKind::BrokenPipe => 1,
        ErrorKind::InvalidData => {
            let _written = err.write_all(b"acpitool: a word isn't UTF-8\n");
            2
        }
        _ => {
            let _written = writeln!(err, "acpitool: {error}");
            1
        }
    }
}

/// Runs the program on its own words, and returns its exit status. A reader of `out` that goes away ends it with 1 and without a
/// line; other output that can't be written, with 1 and a line on `err`; a word that isn't UTF-8, with 2 and a line.
pub fn start<R: Env + Files + Input + AllocGlobal + Clone + Drop, O: Write, E: Write>(
    rt: &R,
    out: &mut O,
    err: &mut E,
) -> u8
    ensures { Started (O.contents out.old) (O.contents out.new) (E.contents err.old) (E.contents err.new) result }
{
    match run_own(rt, out, err) {
        Ok(status) => status,
        Err(error) => end_lost(&error, err),
    }
}
