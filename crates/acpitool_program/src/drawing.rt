//! The structures of a table, or the tables of an image, drawn as a tree or as a graph.

ghost use Rattle.std.specs.Prelude.{◌≡◌, IfOk, IfErr};
ghost use Rattle.acpitool_program.specs.Drawing.{drawn, HasWalk, IsUndrawn, TellsBroken, DrawsBytes, DrawsFile};
ghost use Rattle.acpitool_program.specs.Drawing.{image_drawn, DrawsImageBytes, DrawsImage, Draws};

use crate::complaint::complain;
use crate::fault::Fault;
use crate::files::read_word;
use crate::headed::headed;
use crate::image::find_tables;
use crate::listing::tell_no_image;
use crate::outcome::{tell_fault, tell_unread};
use crate::placed::{Placed, image_in};
use crate::structures::table_fault;
use acpi_base::walk::Walk;
use acpi_forms::layout::walk_in;
use acpi_layout::located::Located;
use acpi_read::pieces::signature_number;
use acpi_read::table::Table;
use acpi_tree::dot::dot_of;
use acpi_tree::image::{image_dot_of, image_tree_of};
use acpi_tree::tree::tree_of;
use std::alloc::{AllocError, Global};
use std::io;
use std::io::{Input, Write};
use std::rt::Files;

// What is wrong with a table that has no structures.
const NO_STRUCTURES: Fault = Fault {
    place: Some(0),
    words: "a table without structures",
};

// Returns the table that bytes are, and how its structures are found, or what is wrong with the bytes, and where.
fn table_walk(bytes: &[u8]) -> Result<(Table<'_>, Walk), Fault>
    ensures table { IfOk result (λ found. found.0 ≡ bytes.now) }
    ensures walk { IfOk result (λ found. HasWalk bytes.now found.1) }
    ensures err { IfErr result (IsUndrawn bytes.now) }
{
    let table = headed(bytes)?;
    match walk_in(signature_number(&table), bytes) {
        Some(walk) => Ok((table, walk)),
        None => Err(NO_STRUCTURES),
    }
}

// Prints what is wrong with the structures of a table, if they can't all be found, and returns the status.
fn tell_broken<E: Write>(
    alloc: Global,
    name: &str,
    table: &Table<'_>,
    err: &mut E,
) -> io::Result<u8>
    ensures { IfOk result (TellsBroken name.now table.now (E.contents err.old) (E.contents err.new)) }
{
    let fault = table_fault(alloc, table)?;
    tell_fault(alloc, name, &fault, err)
}

// Returns the graph of a table, or its tree.
fn drawn(alloc: Global, dot: bool, walk: Walk, bytes: &[u8]) -> Result<Vec<u8>, AllocError>
    ensures { IfOk result (λ text. text.items ≡ drawn dot walk bytes.now) }
{
    if dot {
        dot_of(alloc, walk, bytes)
    } else {
        tree_of(alloc, walk, bytes)
    }
}

// Draws the structures of a table, and prints what is wrong with them, or prints what is wrong with the bytes, and returns the
// status.
fn draw_bytes<O: Write, E: Write>(
    alloc: Global,
    dot: bool,
    name: &str,
    bytes: &[u8],
    out: &mut O,
    err: &mut E,
) -> io::Result<u8>
    ensures { IfOk result (λ status. DrawsBytes dot name.now bytes.now (O.contents out.old) (O.contents out.new)
        (E.contents err.old) (E.contents err.new) status) }
{
    match table_walk(bytes) {
        Ok((table, walk)) => {
            let text = drawn(alloc, dot, walk, bytes)?;
            out.write_all(&text)?;
            tell_broken(alloc, name, &table, err)
        }
        Err(fault) => {
            complain(alloc, name, &fault, err)?;
            Ok(1)
        }
    }
}

// Draws the structures of the table in a file, or on standard input.
fn draw_file<R: Files + Input, O: Write, E: Write>(
    rt: &R,
    alloc: Global,
    dot: bool,
    name: &str,
    out: &mut O,
    err: &mut E,
) -> io::Result<u8>
    ensures { IfOk result (λ status. DrawsFile dot name.now (O.contents out.old) (O.contents out.new)
        (E.contents err.old) (E.contents err.new) status) }
{
    match read_word(rt, alloc, name) {
        Ok(bytes) => draw_bytes(alloc, dot, name, &bytes, out, err),
        Err(error) => tell_unread(alloc, name, &error, err),
    }
}

// Returns the graph of the tables of an image, or their tree.
fn image_drawn(alloc: Global, dot: bool, tables: &[Located]) -> Result<Vec<u8>, AllocError>
    ensures { IfOk result (λ text. text.items ≡ image_drawn dot tables.now) }
{
    if dot {
        image_dot_of(alloc, tables)
    } else {
        image_tree_of(alloc, tables)
    }
}

// Draws the tables of an image, or prints why the bytes are none, and returns the status.
fn draw_image_bytes<O: Write, E: Write>(
    alloc: Global,
    dot: bool,
    image: &Placed<'_>,
    bytes: &[u8],
    out: &mut O,
    err: &mut E,
) -> io::Result<u8>
    ensures { IfOk result (λ status. DrawsImageBytes dot image.now.file.now image.now.base bytes.now
        (O.contents out.old) (O.contents out.new) (E.contents err.old) (E.contents err.new) status) }
{
    match find_tables(alloc, image.base, bytes) {
        Ok(tables) => {
            let text = image_drawn(alloc, dot, &tables)?;
            out.write_all(&text)?;
            Ok(0)
        }
        Err(fault) => tell_no_image(alloc, image.file, image.base, &fault, err),
    }
}

// Draws the tables of the image in a file, or on standard input.
fn draw_image<R: Files + Input, O: Write, E: Write>(
    rt: &R,
    alloc: Global,
    dot: bool,
    image: &Placed<'_>,
    out: &mut O,
    err: &mut E,
) -> io::Result<u8>
    ensures { IfOk result (λ status. DrawsImage dot image.now.file.now image.now.base
        (O.contents out.old) (O.contents out.new) (E.contents err.old) (E.contents err.new) status) }
{
    match read_word(rt, alloc, image.file) {
        Ok(bytes) => draw_image_bytes(alloc, dot, image, &bytes, out, err),
        Err(error) => tell_unread(alloc, image.file, &error, err),
    }
}

/// Draws what a word names, as a tree, or as a graph for graphviz: the structures of the table in a file, or on standard input
/// if the word is `-`, or the tables of an image if it is FILE@BASE. Returns 0, or 1 if the bytes are no table or no image or a
/// table without structures, or if not all of its structures can be found, or 2 if the file can't be read; a line says why.
pub fn draw<R: Files + Input, O: Write, E: Write>(
    rt: &R,
    alloc: Global,
    dot: bool,
    name: &str,
    out: &mut O,
    err: &mut E,
) -> io::Result<u8>
    ensures { IfOk result (λ status. Draws dot name.now (O.contents out.old) (O.contents out.new)
        (E.contents err.old) (E.contents err.new) status) }
{
    if let Some(image) = image_in(rt, name) {
        return draw_image(rt, alloc, dot, &image, out, err);
    }
    draw_file(rt, alloc, dot, name, out, err)
}
