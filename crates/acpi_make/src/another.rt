//! The number that has to stand in the field of a line, where the text states another.

ghost use Rattle.std.specs.Prelude.{◌≡◌, None};
ghost use Rattle.acpi_make.specs.Draft.{fault_in};
ghost use Rattle.acpi_make.specs.Entry.{found_of};
ghost use Rattle.acpi_make.specs.Another.{last_line, another_of, another_in, another_at, is_other, is_other_type};
ghost use Rattle.acpi_make.specs.Another.{another_type, misnamed};
ghost use Rattle.acpi_make.specs.Source.{source_of};

use crate::draft::{Mark, Source};
use crate::entry::{Field, find_anywhere};
use crate::fault::Fault;
use crate::heading::{are_known, by_heading, has_number};
use crate::item::Cell;
use crate::text::{after_offset, are_white, part_at};
use acpi_base::walk::Place;
use acpi_text::form::StructureForm;

// Returns the range of the name of the last line that begins at an offset.
fn last_line(offset: usize, marks: &[Mark]) -> Option<(usize, usize)>
    ensures { result ≡ last_line offset None marks.now }
{
    let mut last = None;
    'marks: for mark in marks {
        match *mark {
            Mark::Line { at, from, to } => {
                if at == offset {
                    last = Some((from, to));
                }
            }
            Mark::Structure { .. } => {}
            Mark::Reference { .. } => {}
        }
    }
    last
}

// Returns the fault of a line whose field has to have this number.
fn another_of(from: usize, to: usize, number: usize, found: Option<(usize, Field)>) -> Option<Fault>
    ensures { fault_in result ≡ another_of from to number (found_of found) }
{
    match found {
        Some((_, field)) => Some(Fault::another(from, to, field.name, number)),
        None => None,
    }
}

// Returns the same, where a form has a field of the line's name.
fn another_in(source: &Source, number: usize, line: Option<(usize, usize)>) -> Option<Fault>
    ensures { fault_in result ≡ another_in (source_of source.now) number line }
{
    let Some((from, to)) = line else {
        return None;
    };
    let name = after_offset(part_at(from, to, source.text));
    if are_white(name) {
        return None;
    }
    another_of(from, to, number, find_anywhere(name, &source.form))
}

/// Returns the fault of the line at an offset, whose field has to have this number.
pub fn another_at(source: &Source, marks: &[Mark], offset: usize, number: usize) -> Option<Fault>
    ensures { fault_in result ≡ another_at (source_of source.now) marks.now offset number }
{
    another_in(source, number, last_line(offset, marks))
}

// Returns whether cells begin with `width` known bytes, which aren't those of a number.
fn is_other(width: usize, number: usize, cells: &[Cell]) -> bool
    ensures { result ≡ is_other width number cells.now }
{
    are_known(width, cells) && !has_number(width, number, cells)
}

// Returns whether all bytes of a structure's type are known, and it is another number.
fn is_other_type(kind: Place, number: usize, cells: &[Cell]) -> bool
    ensures { result ≡ is_other_type kind number cells.now }
{
    let (offset, end) = (kind.offset(), kind.end());
    let bytes = if offset < cells.len() {
        &cells[offset..]
    } else {
        &[]
    };
    is_other(end - offset, number, bytes)
}

// Returns the fault of a type, where a structure with these bytes has the heading of another.
fn another_type(
    source: &Source,
    marks: &[Mark],
    start: usize,
    cells: &[Cell],
    form: Option<StructureForm>,
) -> Option<Fault>
    ensures { fault_in result ≡ another_type (source_of source.now) marks.now start cells.now form }
{
    let Some(form) = form else {
        return None;
    };
    if start < 1 << 62 && is_other_type(source.kind, form.number, cells) {
        another_at(source, marks, start + source.kind.offset(), form.number)
    } else {
        None
    }
}

/// Returns the fault of a structure that begins at an offset, and whose heading is that of another type.
pub fn misnamed(
    source: &Source,
    marks: &[Mark],
    start: usize,
    cells: &[Cell],
    heading: &[u8],
) -> Option<Fault>
    ensures { fault_in result ≡ misnamed (source_of source.now) marks.now start cells.now heading.now }
{
    another_type(
        source,
        marks,
        start,
        cells,
        by_heading(heading, &source.form),
    )
}
