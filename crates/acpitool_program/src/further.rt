//! The objects that definition blocks of several tables may name besides their own.

ghost use Rattle.std.specs.Prelude.{◌≡◌, [], map, IfOk, OnOk};
ghost use Rattle.acpi_asl.specs.Block.{has_terms};
ghost use Rattle.acpi_terms_text.specs.Objects.{callee_by};
ghost use Rattle.acpitool_program.specs.Machine.{kept_by};
ghost use Rattle.acpitool_program.specs.Shown.{of_one_machine, AddsBlock, AddsBlocks, AreFurther};

use crate::machine::Kept;
use acpi_asl::block::{BODY, has_terms};
use acpi_term::name_string::Arities;
use acpi_terms_text::objects::{Object, add_objects_in};
use std::alloc::{AllocError, Global};

// Returns whether tables are those of one machine: at most one of them is a DSDT.
fn of_one_machine(tables: &[Kept]) -> bool
    ensures { result ≡ of_one_machine (map kept_by tables.now) }
{
    let mut seen = false;
    'tables: for table in tables {
        if table.bytes.starts_with(b"DSDT") {
            if seen {
                return false;
            }
            seen = true;
        }
    }
    true
}

/// Adds the objects of a table, if it is a definition block.
pub fn add_block(
    alloc: Global,
    stated: &Arities,
    bytes: &[u8],
    all: &mut Vec<Object>,
) -> Result<(), AllocError>
    ensures { OnOk result (AddsBlock (has_terms bytes.now) stated.now bytes.now
        (map callee_by all.old.items) (map callee_by all.new.items)) }
{
    if has_terms(bytes) {
        let (_, body) = bytes.split_at(BODY);
        add_objects_in(alloc, body, stated, all)?;
    }
    Ok(())
}

// Returns the objects of all definition blocks among tables.
fn objects_of(alloc: Global, stated: &Arities, tables: &[Kept]) -> Result<Vec<Object>, AllocError>
    ensures { IfOk result (λ all. AddsBlocks stated.now (map kept_by tables.now) [] (map callee_by all.items)) }
{
    let mut all = Vec::new(alloc);
    'tables: for table in tables {
        add_block(alloc, stated, &table.bytes, &mut all)?;
    }
    Ok(all)
}

/// Returns the objects that each definition block among tables may name besides its own: those of all of them, if there are
/// several tables and at most one of them is a DSDT. Tables of several machines have none in common.
pub fn further_objects(
    alloc: Global,
    stated: &Arities,
    tables: &[Kept],
) -> Result<Vec<Object>, AllocError>
    ensures { IfOk result (λ all. AreFurther stated.now (map kept_by tables.now) (map callee_by all.items)) }
{
    if tables.len() > 1 && of_one_machine(tables) {
        return objects_of(alloc, stated, tables);
    }
    Ok(Vec::new(alloc))
}
