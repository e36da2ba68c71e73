//! Tables that are repaired.

ghost use Rattle.std.specs.Prelude.{◌≡◌, OnOk, IfOk};
ghost use Rattle.std.specs.Io.KnownBytes.{Appends};
ghost use Rattle.acpitool_program.specs.Repairing.{place_of, seal_name, value_at, change, changes, changes_of};
ghost use Rattle.acpitool_program.specs.Repairing.{RepairsBytes, Repairs};

use crate::complaint::complain;
use crate::files::read_word;
use crate::making::write_table;
use crate::outcome::tell_unread;
use crate::repair::{Seal, repaired, seals_as};
use acpi_base::walk::Place;
use acpi_forms::kind::kind_of;
use acpi_text::part::number_at;
use std::alloc::Global;
use std::io;
use std::io::{Input, Write};
use std::rt::Files;

// Returns the place of a field.
fn place_of(seal: Seal) -> Place
    ensures { result ≡ place_of seal }
{
    match seal {
        Seal::Length(at) => Place::DWord(at),
        Seal::Checksum(at) | Seal::FrontChecksum(at) => Place::Byte(at),
    }
}

// Returns what a field is.
fn seal_name(seal: Seal) -> &'static str
    ensures { result.now ≡ seal_name seal }
{
    match seal {
        Seal::Length(_) => "length",
        Seal::Checksum(_) | Seal::FrontChecksum(_) => "checksum",
    }
}

// Prints what a field was and is, unless this is the same.
fn print_change<E: Write>(
    name: &str,
    old: &[u8],
    new: &[u8],
    seal: Seal,
    err: &mut E,
) -> io::Result<()>
    ensures { OnOk result (Appends (E.contents err.old) (E.contents err.new) (change name.now old.now new.now seal)) }
{
    let place = place_of(seal);
    let (was, is) = (number_at(place, old), number_at(place, new));
    if was == is {
        return Ok(());
    }
    let (what, at) = (seal_name(seal), place.offset());
    writeln!(err, "{name}: the {what} at {at} was {was}, and is {is}")
}

// Prints what fields were and are.
fn print_changes<E: Write>(
    name: &str,
    old: &[u8],
    new: &[u8],
    seals: &[Seal],
    err: &mut E,
) -> io::Result<()>
    ensures { OnOk result (Appends (E.contents err.old) (E.contents err.new) (changes name.now old.now new.now seals.now)) }
{
    'seals: for seal in seals {
        print_change(name, old, new, *seal, err)?;
    }
    Ok(())
}

// Writes the bytes of a table with the right length and checksums, and prints which of these changed. Or prints why the bytes are
// no table.
fn repair_bytes<R: Files, O: Write, E: Write>(
    rt: &R,
    alloc: Global,
    name: &str,
    bytes: &[u8],
    file: &str,
    out: &mut O,
    err: &mut E,
) -> io::Result<u8>
    ensures { IfOk result (λ status. RepairsBytes name.now bytes.now file.now (O.contents out.old) (O.contents out.new)
        (E.contents err.old) (E.contents err.new) status) }
{
    match repaired(alloc, bytes)? {
        Ok(new) => {
            print_changes(name, bytes, &new, seals_as(kind_of(bytes), bytes), err)?;
            write_table(rt, alloc, &new, file, out, err)
        }
        Err(why) => {
            complain(alloc, name, &why, err)?;
            Ok(1)
        }
    }
}

/// Writes the table of a file, or of standard input if the word is `-`, with the right length and checksums to a file, or to
/// standard output. A line on `err` says of each of them that was wrong what it was and is. The files may be the same. The status
/// is 1 if none of them makes the bytes a table, or if these can't be written, and 2 if the file can't be read.
pub fn repair_file<R: Files + Input, O: Write, E: Write>(
    rt: &R,
    alloc: Global,
    name: &str,
    file: &str,
    out: &mut O,
    err: &mut E,
) -> io::Result<u8>
    ensures { IfOk result (λ status. Repairs name.now file.now (O.contents out.old) (O.contents out.new)
        (E.contents err.old) (E.contents err.new) status) }
{
    match read_word(rt, alloc, name) {
        Ok(bytes) => repair_bytes(rt, alloc, name, &bytes, file, out, err),
        Err(error) => tell_unread(alloc, name, &error, err),
    }
}
