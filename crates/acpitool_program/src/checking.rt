//! Tables that are checked: each alone, and then all of them as the tables of one machine.

ghost use Rattle.std.specs.Prelude.{true, map, IfOk, string_bytes};
ghost use Rattle.acpitool_program.specs.Checking.{AreCheckedAs, AreChecked};

use crate::job::Job;
use crate::machine::print_machine;
use crate::outcome::worst_of;
use crate::unread::tell_unread_blocks;
use crate::visit::visit_words;
use acpi_json::array::array_of;
use std::alloc::Global;
use std::io;
use std::io::{Input, Write};
use std::rt::Files;

// Checks what files name. Prints the rules that each table breaks, and then those on several tables: objects of JSON, each in a
// line, or lines. Prints on `err` which definition blocks have terms that can't be read. Returns the greatest status.
fn check_words<R: Files + Input + AllocGlobal + Clone + Drop, O: Write, E: Write>(
    rt: &R,
    alloc: Global,
    json: bool,
    files: &[String],
    out: &mut O,
    err: &mut E,
) -> io::Result<u8>
    ensures { IfOk result (λ status. AreCheckedAs json (map (λ word. string_bytes word) files.now)
        (O.contents out.old) (O.contents out.new) (E.contents err.old) (E.contents err.new) status) }
{
    let mut kept = Vec::new(alloc);
    let status = visit_words(rt, alloc, &Job::Checks(json), files, out, err, &mut kept)?;
    let across = print_machine(alloc, json, &kept, out)?;
    let unread = tell_unread_blocks(alloc, &kept, err)?;
    Ok(worst_of(worst_of(status, across), unread))
}

// Checks what files name, prints what is found as an array of JSON, and returns the greatest status.
fn check_as_json<R: Files + Input + AllocGlobal + Clone + Drop, O: Write, E: Write>(
    rt: &R,
    alloc: Global,
    files: &[String],
    out: &mut O,
    err: &mut E,
) -> io::Result<u8>
    ensures { IfOk result (λ status. AreChecked true (map (λ word. string_bytes word) files.now)
        (O.contents out.old) (O.contents out.new) (E.contents err.old) (E.contents err.new) status) }
{
    let mut lines = Vec::new(alloc);
    let status = check_words(rt, alloc, true, files, &mut lines, err)?;
    let array = array_of(alloc, &lines)?;
    out.write_all(&array)?;
    Ok(status)
}

/// Checks what files name, prints what is found as an array of JSON or as lines, and returns the greatest status. What breaks
/// rules on several tables comes last: all tables that were checked are those of one machine. A line on `err` names each
/// definition block whose terms can't be read.
pub fn check_all<R: Files + Input + AllocGlobal + Clone + Drop, O: Write, E: Write>(
    rt: &R,
    alloc: Global,
    json: bool,
    files: &[String],
    out: &mut O,
    err: &mut E,
) -> io::Result<u8>
    ensures { IfOk result (λ status. AreChecked json (map (λ word. string_bytes word) files.now)
        (O.contents out.old) (O.contents out.new) (E.contents err.old) (E.contents err.new) status) }
{
    if json {
        return Ok(check_as_json(rt, alloc, files, out, err)?);
    }
    Ok(check_words(rt, alloc, false, files, out, err)?)
}
