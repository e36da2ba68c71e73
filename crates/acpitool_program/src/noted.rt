//! The notes on the numbers of a table that its text states otherwise.

ghost use Rattle.std.specs.Prelude.{◌≡◌, ℕ, List, ◌++◌, codes, map, IfOk, OnOk, string_bytes};
ghost use Rattle.std.specs.Io.KnownBytes.{Appends};
ghost use Rattle.acpi_rules.specs.Field.{seen};
ghost use Rattle.acpi_text.specs.Label.{label};
ghost use Rattle.acpitool_program.specs.Noted.{name_at, note, notes, AreNotes};

use crate::fields::fields_in;
use acpi_make::extent::Own;
use acpi_rules::field::Field;
use acpi_text::space::push_label;
use std::alloc::{AllocError, Global};
use std::io;
use std::io::Write;

// Returns the name of a field, and a colon.
fn named(alloc: Global, name: &str) -> Result<String, AllocError>
    ensures { IfOk result (λ text. string_bytes text ≡ label name.now ++ codes ": ") }
{
    let mut text = String::new(alloc);
    push_label(name, &mut text)?;
    text.push_str(": ")?;
    Ok(text)
}

// Returns the name of the field that begins at an offset, and a colon, or nothing if no field does.
fn name_at(alloc: Global, offset: usize, fields: &[Field<'_>]) -> Result<String, AllocError>
    ensures { IfOk result (λ text. string_bytes text ≡ name_at offset (map seen fields.now)) }
{
    'fields: for field in fields {
        if field.offset == offset {
            return named(alloc, field.name);
        }
    }
    Ok(String::new(alloc))
}

// Prints the note on a number.
fn print_note<E: Write>(
    alloc: Global,
    name: &str,
    fields: &[Field<'_>],
    own: &Own,
    err: &mut E,
) -> io::Result<()>
    ensures { OnOk result (Appends (E.contents err.old) (E.contents err.new) (note name.now (map seen fields.now) own.now)) }
{
    let (offset, number) = (own.offset, own.number);
    let field = name_at(alloc, offset, fields)?;
    writeln!(
        err,
        "{name}: note at {offset}: {field}{number} would be right"
    )
}

// Prints the notes on numbers of a table with these fields.
fn print_each<E: Write>(
    alloc: Global,
    name: &str,
    fields: &[Field<'_>],
    owns: &[Own],
    err: &mut E,
) -> io::Result<()>
    ensures { OnOk result (Appends (E.contents err.old) (E.contents err.new) (notes name.now (map seen fields.now) owns.now)) }
{
    'owns: for own in owns {
        print_note(alloc, name, fields, own, err)?;
    }
    Ok(())
}

/// Prints the notes on a table of these bytes: a line for each number that its text states otherwise. An error is that of `err`,
/// or memory ran out.
pub fn print_notes<E: Write>(
    alloc: Global,
    name: &str,
    owns: &[Own],
    bytes: &[u8],
    err: &mut E,
) -> io::Result<()>
    ensures { OnOk result ((text : List ℕ) × AreNotes name.now bytes.now owns.now text
        × Appends (E.contents err.old) (E.contents err.new) text) }
{
    match owns {
        [] => Ok(()),
        owns => {
            let fields = fields_in(alloc, bytes)?;
            print_each(alloc, name, &fields, owns, err)
        }
    }
}
