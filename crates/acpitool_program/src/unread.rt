//! Definition blocks among tables that are checked, whose terms can't be read.

ghost use Rattle.std.specs.Prelude.{◌≡◌, ◌≤◌, true, [], map, length, IfOk};
ghost use Rattle.acpi_asl.specs.Block.{has_terms};
ghost use Rattle.acpi_terms_text.specs.Objects.{callee_by};
ghost use Rattle.acpitool_program.specs.Machine.{kept_by};
ghost use Rattle.acpitool_program.specs.Unread.{IsTermsFaultBy, IsTermsFault, TellsUnread, TellsUnreadBlocks};

use crate::fault::Fault;
use crate::further::further_objects;
use crate::machine::Kept;
use crate::outcome::{tell_fault, worst_of};
use acpi_asl::block::{BODY, has_terms};
use acpi_term::name_string::Arities;
use acpi_term::read_error::ReadError;
use acpi_terms_text::block::block_terms;
use acpi_terms_text::objects::Object;
use std::alloc::{AllocError, Global};
use std::io;
use std::io::Write;

// Returns an empty list of numbers of arguments.
fn no_numbers(alloc: Global) -> Result<Arities, AllocError>
    ensures { IfOk result (λ all. all ≡ []) }
{
    match Arities::new(Vec::new(alloc)) {
        Ok(all) => Ok(all),
        Err(_) => Err(AllocError),
    }
}

// Returns why the terms of a definition block can't be read, if they can't.
fn block_fault(
    alloc: Global,
    stated: &Arities,
    further: &[Object],
    bytes: &[u8],
) -> Result<Option<Fault>, AllocError>
    requires { 36 ≤ length bytes.now }
    ensures { IfOk result (IsTermsFaultBy true stated.now (map callee_by further.now) bytes.now) }
{
    match block_terms(alloc, &bytes[BODY..], stated, further) {
        Ok(_) => Ok(None),
        Err(ReadError::Memory) => Err(AllocError),
        Err(error) => Ok(Some(Fault::after(BODY, error))),
    }
}

// Returns why the terms of a table can't be read, if it is a definition block and they can't.
fn terms_fault(
    alloc: Global,
    stated: &Arities,
    further: &[Object],
    bytes: &[u8],
) -> Result<Option<Fault>, AllocError>
    ensures { IfOk result (IsTermsFault stated.now (map callee_by further.now) bytes.now) }
{
    if has_terms(bytes) {
        block_fault(alloc, stated, further, bytes)
    } else {
        Ok(None)
    }
}

// Prints a line for each definition block among tables whose terms can't be read. Returns 1 if there is one, and 0 otherwise.
fn tell_blocks<E: Write>(
    alloc: Global,
    stated: &Arities,
    further: &[Object],
    tables: &[Kept],
    err: &mut E,
) -> io::Result<u8>
    ensures { IfOk result (TellsUnread stated.now (map callee_by further.now) (map kept_by tables.now)
        (E.contents err.old) (E.contents err.new)) }
{
    let mut worst = 0;
    'tables: for table in tables {
        let fault = terms_fault(alloc, stated, further, &table.bytes)?;
        let told = tell_fault(alloc, table.name.as_str(), &fault, err)?;
        worst = worst_of(worst, told);
    }
    Ok(worst)
}

/// Prints a line for each definition block among tables whose terms can't be read, in the order of the tables. The blocks of one
/// machine may name each other's objects. Returns 1 if there is a line, and 0 otherwise.
pub fn tell_unread_blocks<E: Write>(alloc: Global, tables: &[Kept], err: &mut E) -> io::Result<u8>
    ensures { IfOk result (TellsUnreadBlocks (map kept_by tables.now) (E.contents err.old) (E.contents err.new)) }
{
    let stated = no_numbers(alloc)?;
    let further = further_objects(alloc, &stated, tables)?;
    tell_blocks(alloc, &stated, &further, tables, err)
}
