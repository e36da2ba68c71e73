//! The tables of an image, printed as a list.

ghost use Rattle.std.specs.Prelude.{◌≡◌, ℕ, List, [], ◌∷◌, ◌++◌, codes, IfOk, OnOk};
ghost use Rattle.std.specs.Io.KnownBytes.{Appends};
ghost use Rattle.acpitool_program.specs.Listing.{why, Listed, ListedBytes};

use crate::complaint::complain;
use crate::files::read_word;
use crate::image::{NoImage, find_tables, print_tables, why};
use crate::outcome::tell_unread;
use std::alloc::Global;
use std::io;
use std::io::{Input, Write};
use std::rt::Files;

/// Prints why a file has no image, and returns 1.
pub fn tell_no_image<E: Write>(
    alloc: Global,
    file: &str,
    base: u64,
    fault: &NoImage,
    err: &mut E,
) -> io::Result<u8>
    ensures is { IfOk result (λ status. status ≡ 1) }
    ensures line { OnOk result (Appends (E.contents err.old) (E.contents err.new)
        (file.now ++ codes ": " ++ why base fault.now ++ 10 ∷ [])) }
{
    let why = why(alloc, base, fault)?;
    complain(alloc, file, &why, err)?;
    Ok(1)
}

// Lists the tables of an image.
fn list_tables<O: Write, E: Write>(
    alloc: Global,
    json: bool,
    file: &str,
    base: u64,
    bytes: &[u8],
    out: &mut O,
    err: &mut E,
) -> io::Result<u8>
    ensures { IfOk result (λ status. ListedBytes json file.now base bytes.now (O.contents out.old) (O.contents out.new)
        (E.contents err.old) (E.contents err.new) status) }
{
    match find_tables(alloc, base, bytes) {
        Ok(tables) => {
            print_tables(alloc, json, base, bytes, &tables, out)?;
            Ok(0)
        }
        Err(fault) => tell_no_image(alloc, file, base, &fault, err),
    }
}

/// Lists the tables of the image in a file, or on standard input if the word is `-`, as an array of JSON or a line for each. The
/// status is 0, or 1 if there is no image, or 2 if the file can't be read.
pub fn list_file<R: Files + Input, O: Write, E: Write>(
    rt: &R,
    alloc: Global,
    json: bool,
    file: &str,
    base: u64,
    out: &mut O,
    err: &mut E,
) -> io::Result<u8>
    ensures { IfOk result (λ status. Listed json file.now base (O.contents out.old) (O.contents out.new)
        (E.contents err.old) (E.contents err.new) status) }
{
    match read_word(rt, alloc, file) {
        Ok(bytes) => list_tables(alloc, json, file, base, &bytes, out, err),
        Err(error) => tell_unread(alloc, file, &error, err),
    }
}
