//! Definition blocks as ASL, and the objects that they make.

ghost use Rattle.std.specs.Prelude.{◌≡◌, ◌≤◌, ◌⊎◌, true, length, take, drop, map, string_bytes, IfOk, OnOk, IfErr};
ghost use Rattle.acpi_terms_text.specs.Objects.{callee_by};
ghost use Rattle.acpitool_program.specs.Disassembly.{IsNoText, IsDisassembled, DisassemblesFile};
ghost use Rattle.acpitool_program.specs.Disassembly.{AddsFile, AddsFiles};
ghost use Rattle.acpi_asl.specs.Block.{has_terms};
ghost use Rattle.acpitool_program.specs.Command.{file_count};
ghost use Rattle.acpitool_program.specs.Program.{IsBlockAmong, IsNoneAmong, IsBlockBy, IsBlockShown};

use crate::command::{Misstated, Wrong, file_count, numbers};
use crate::complaint::complain;
use crate::fault::Fault;
use crate::files::read_word;
use crate::further::add_block;
use crate::headed::headed;
use crate::help::tell_wrong;
use crate::outcome::tell_unread;
use acpi_asl::block::{BODY, BlockText, has_terms, text_in_part, text_of_block};
use acpi_term::name_string::Arities;
use acpi_term::read_error::ReadError;
use acpi_terms_text::objects::Object;
use std::alloc::{AllocError, Global};
use std::io;
use std::io::{Input, Write};
use std::rt::Files;

// What is wrong with a table that isn't a definition block.
const NO_BLOCK: Fault = Fault {
    place: Some(0),
    words: "not the signature of a definition block",
};

// Returns what is wrong with bytes that are no definition block, and where.
fn check_block(bytes: &[u8]) -> Result<(), Fault>
    ensures block { OnOk result (has_terms bytes.now ≡ true) }
    ensures long { OnOk result (36 ≤ length bytes.now) }
    ensures err { IfErr result (IsNoText bytes.now) }
{
    headed(bytes)?;
    if !has_terms(bytes) {
        return Err(NO_BLOCK);
    }
    Ok(())
}

// Prints the text of a definition block and returns 0. If not all of its terms can be read, it prints the text of the others and
// the fault, and returns 1.
fn print_terms<O: Write, E: Write>(
    alloc: Global,
    block: BlockText,
    stated: &Arities,
    further: &[Object],
    name: &str,
    bytes: &[u8],
    out: &mut O,
    err: &mut E,
) -> io::Result<u8>
    requires { 36 ≤ length bytes.now }
    ensures { IfOk result (λ status. IsDisassembled block stated.now (map callee_by further.now) name.now bytes.now
        (O.contents out.old)
        (O.contents out.new) (E.contents err.old) (E.contents err.new) status) }
{
    match text_of_block(alloc, block, stated, further, bytes) {
        Ok(text) => {
            out.write_all(text.as_bytes())?;
            Ok(0)
        }
        Err(ReadError::Memory) => Err(io::Error::from(AllocError)),
        Err(error) => {
            let text = text_in_part(alloc, block, stated, further, bytes)?;
            complain(alloc, name, &Fault::after(BODY, error), err)?;
            out.write_all(text.as_bytes())?;
            Ok(1)
        }
    }
}

// Prints the text of a definition block, or what is wrong with the bytes, and returns the status.
fn print_block<O: Write, E: Write>(
    alloc: Global,
    block: BlockText,
    stated: &Arities,
    further: &[Object],
    name: &str,
    bytes: &[u8],
    out: &mut O,
    err: &mut E,
) -> io::Result<u8>
    ensures { IfOk result (λ status. IsDisassembled block stated.now (map callee_by further.now) name.now bytes.now
        (O.contents out.old)
        (O.contents out.new) (E.contents err.old) (E.contents err.new) status) }
{
    if let Err(fault) = check_block(bytes) {
        complain(alloc, name, &fault, err)?;
        return Ok(1);
    }
    print_terms(alloc, block, stated, further, name, bytes, out, err)
}

// Prints the text of the definition block in a file, or on standard input.
fn disassemble_word<R: Files + Input, O: Write, E: Write>(
    rt: &R,
    alloc: Global,
    block: BlockText,
    stated: &Arities,
    further: &[Object],
    name: &str,
    out: &mut O,
    err: &mut E,
) -> io::Result<u8>
    ensures { IfOk result (λ status. DisassemblesFile block stated.now (map callee_by further.now) name.now (O.contents out.old)
        (O.contents out.new) (E.contents err.old) (E.contents err.new) status) }
{
    match read_word(rt, alloc, name) {
        Ok(bytes) => print_block(alloc, block, stated, further, name, &bytes, out, err),
        Err(error) => tell_unread(alloc, name, &error, err),
    }
}

// Adds the objects of a definition block and returns 0, or prints what is wrong with the bytes and returns 1.
fn add_or_complain<E: Write>(
    alloc: Global,
    stated: &Arities,
    name: &str,
    bytes: &[u8],
    all: &mut Vec<Object>,
    err: &mut E,
) -> io::Result<u8>
    ensures { IfOk result (λ status. AddsFile stated.now name.now (map callee_by all.old.items) (map callee_by all.new.items)
        (E.contents err.old) (E.contents err.new) status) }
{
    if let Err(fault) = check_block(bytes) {
        complain(alloc, name, &fault, err)?;
        return Ok(1);
    }
    add_block(alloc, stated, bytes, all)?;
    Ok(0)
}

// Adds the objects of the definition block in a file, or on standard input.
fn add_file<R: Files + Input, E: Write>(
    rt: &R,
    alloc: Global,
    stated: &Arities,
    name: &str,
    all: &mut Vec<Object>,
    err: &mut E,
) -> io::Result<u8>
    ensures { IfOk result (λ status. AddsFile stated.now name.now (map callee_by all.old.items) (map callee_by all.new.items)
        (E.contents err.old) (E.contents err.new) status) }
{
    match read_word(rt, alloc, name) {
        Ok(bytes) => add_or_complain(alloc, stated, name, &bytes, all, err),
        Err(error) => tell_unread(alloc, name, &error, err),
    }
}

// Adds the objects of the definition block in each file, up to the first that has none, and returns 0 or the status of that file.
#[cycle(files)]
fn add_files<R: Files + Input, E: Write>(
    rt: &R,
    alloc: Global,
    stated: &Arities,
    files: &[String],
    all: &mut Vec<Object>,
    err: &mut E,
) -> io::Result<u8>
    ensures { IfOk result (λ status. AddsFiles stated.now (map (λ word. string_bytes word) files.now)
        (map callee_by all.old.items)
        (map callee_by all.new.items) (E.contents err.old) (E.contents err.new) status) }
{
    let [file, rest @ ..] = files else {
        return Ok(0);
    };
    let status = add_file(rt, alloc, stated, file.as_str(), all, err)?;
    if status != 0 {
        return Ok(status);
    }
    add_files(rt, alloc, stated, rest, all, err)
}

// Prints the text of the definition block in a file, which may call the methods of the blocks in further files.
fn disassemble_among<R: Files + Input, O: Write, E: Write>(
    rt: &R,
    alloc: Global,
    block: BlockText,
    stated: &Arities,
    name: &str,
    files: &[String],
    out: &mut O,
    err: &mut E,
) -> io::Result<u8>
    ensures { IfOk result (λ status. IsBlockAmong block stated.now name.now (map (λ word. string_bytes word) files.now)
        (O.contents out.old) (O.contents out.new) (E.contents err.old) (E.contents err.new) status
        ⊎ IsNoneAmong stated.now (map (λ word. string_bytes word) files.now) (O.contents out.old) (O.contents out.new)
        (E.contents err.old) (E.contents err.new) status) }
{
    let mut further = Vec::new(alloc);
    let status = add_files(rt, alloc, stated, files, &mut further, err)?;
    if status != 0 {
        return Ok(status);
    }
    disassemble_word(rt, alloc, block, stated, &further, name, out, err)
}

// Prints the text of the definition block in a file, if words state numbers of arguments.
fn disassemble_by<R: Files + Input, O: Write, E: Write>(
    rt: &R,
    alloc: Global,
    block: BlockText,
    name: &str,
    files: &[String],
    stating: &[String],
    out: &mut O,
    err: &mut E,
) -> io::Result<u8>
    ensures { IfOk result (λ status. IsBlockBy block name.now (map (λ word. string_bytes word) files.now)
        (map (λ word. string_bytes word) stating.now) (O.contents out.old) (O.contents out.new) (E.contents err.old)
        (E.contents err.new) status) }
{
    match numbers(alloc, stating) {
        Ok(stated) => Ok(disassemble_among(rt, alloc, block, &stated, name, files, out, err)?),
        Err(Misstated::Word(word)) => Ok(tell_wrong(&Wrong::Number(word), err)?),
        Err(Misstated::Twice) => Ok(tell_wrong(&Wrong::Twice, err)?),
        Err(Misstated::Memory) => Err(io::Error::from(AllocError)),
    }
}

// Returns the words that are files, and those that state numbers of arguments.
fn apart(words: &[String]) -> (&[String], &[String])
    ensures files { map (λ word. string_bytes word) result.0.now
        ≡ take (file_count (map (λ word. string_bytes word) words.now)) (map (λ word. string_bytes word) words.now) }
    ensures stating { map (λ word. string_bytes word) result.1.now
        ≡ drop (file_count (map (λ word. string_bytes word) words.now)) (map (λ word. string_bytes word) words.now) }
{
    let count = file_count(words);
    (&words[..count], &words[count..])
}

/// Prints the text of the definition block in a file, or on standard input. The words are further files, whose methods the block
/// may call, up to the first word that states a number of arguments. The status is 0, or 1 if there is no definition block or not
/// all of its terms can be read, or 2 if a file can't be read or the words state no numbers.
pub fn disassemble<R: Files + Input, O: Write, E: Write>(
    rt: &R,
    alloc: Global,
    block: BlockText,
    name: &str,
    words: &[String],
    out: &mut O,
    err: &mut E,
) -> io::Result<u8>
    ensures { IfOk result (λ status. IsBlockShown block name.now (map (λ word. string_bytes word) words.now)
        (O.contents out.old) (O.contents out.new) (E.contents err.old) (E.contents err.new) status) }
{
    let (files, stating) = apart(words);
    disassemble_by(rt, alloc, block, name, files, stating, out, err)
}
