//! Structures that lack fields, and whose length the text leaves out.

ghost use Rattle.std.specs.Prelude.{◌≡◌};
ghost use Rattle.acpi_make.specs.Draft.{drafted, fault_in};
ghost use Rattle.acpi_make.specs.Short.{any_left, place_of_size, size_place, inner_place, leaves_out};
ghost use Rattle.acpi_make.specs.Short.{leaves_out_length, leaves_out_table_length};
ghost use Rattle.acpi_make.specs.Short.{short_structure, short_titled, short_inners, short_within, short_of_form, short_in};
ghost use Rattle.acpi_make.specs.Short.{short_table, short};
ghost use Rattle.acpi_make.specs.Source.{source_of};

use crate::complete::length_own;
use crate::draft::{Draft, Mark, Source, first_of};
use crate::fault::Fault;
use crate::file_kind::FileKind;
use crate::heading::structure_form;
use crate::inner::{next_titled, titled};
use crate::item::Cell;
use crate::lack::{Lines, lists_of, short_of};
use crate::own::next_start;
use crate::text::{after_offset, part_at};
use acpi_base::slice::from_offset;
use acpi_base::walk::{Place, Sizes, Walk};
use acpi_text::form::{Inner, InnerForm, InnerList, InnerSize, StructureForm};

// Returns whether one of the first bytes isn't known.
fn any_left(width: usize, cells: &[Cell]) -> bool
    ensures { result ≡ any_left width cells.now }
{
    let mut left = width;
    let mut rest = cells;
    'cells: while left > 0 {
        match rest {
            [Cell::Byte(_), more @ ..] => rest = more,
            [Cell::Left(_), ..] => return true,
            [] => return false,
        }
        left -= 1;
    }
    false
}

// Returns the place of the length among these sizes.
fn place_of_size(sizes: Sizes) -> Place
    ensures { result ≡ place_of_size sizes }
{
    match sizes {
        Sizes::ToldAt(place) => place,
        Sizes::EachOf(_) => Place::Nowhere,
        Sizes::ByType(_, _) => Place::Nowhere,
    }
}

// Returns the place of the length of a structure.
fn size_place(walk: Option<Walk>) -> Place
    ensures { result ≡ size_place walk }
{
    match walk {
        Some(walk) => place_of_size(walk.sizes),
        None => Place::Nowhere,
    }
}

// Returns the place of what says how long a structure within another is: its length, or the number of its entries.
fn inner_place(size: InnerSize) -> Place
    ensures { result ≡ inner_place size }
{
    match size {
        InnerSize::Walked(sizes) => place_of_size(sizes),
        InnerSize::Counted(_, count, _) => count,
        InnerSize::Rest => Place::Nowhere,
    }
}

// Returns whether the text leaves out a byte of the field at a place of a structure.
fn leaves_out(place: Place, at: usize, cells: &[Cell]) -> bool
    ensures { result ≡ leaves_out place at cells.now }
{
    let (offset, end) = (place.offset(), place.end());
    any_left(end - offset, from_offset(offset, from_offset(at, cells)))
}

// Returns whether the text leaves out how long a structure is: its length, or the table's if the structure has no length.
fn leaves_out_length(place: Place, no_length: bool, at: usize, cells: &[Cell]) -> bool
    ensures { result ≡ leaves_out_length place no_length at cells.now }
{
    let width = place.end() - place.offset();
    if width == 0 {
        no_length
    } else {
        leaves_out(place, at, cells)
    }
}

// Returns whether the text leaves out a byte of the table's length.
fn leaves_out_table_length(file_kind: FileKind, cells: &[Cell]) -> bool
    ensures { result ≡ leaves_out_table_length file_kind cells.now }
{
    let offset = length_own(file_kind, cells.len()).offset;
    any_left(4, from_offset(offset, cells))
}

// Returns the fault of a structure of this form, if it lacks fields. The marks are those after its heading. `no_length` says
// whether the table's length is left out.
fn short_structure(
    text: &[u8],
    place: Place,
    no_length: bool,
    cells: &[Cell],
    marks: &[Mark],
    at: usize,
    form: Option<StructureForm>,
) -> Option<Fault>
    ensures { fault_in result ≡ short_structure text.now place no_length cells.now marks.now at form }
{
    match form {
        Some(form) if leaves_out_length(place, no_length, at, cells) => {
            let lines = Lines {
                text,
                lists: lists_of(form.inner),
                marks,
                parts: form.parts,
                cells: from_offset(at, cells),
                total: cells.len(),
            };
            short_of(&lines, at, next_start(marks, cells.len()))
        }
        _ => None,
    }
}

// Returns the fault of a structure within another, of this form, if it lacks fields. The marks are those after its name.
fn short_titled(
    text: &[u8],
    lists: &[InnerList],
    cells: &[Cell],
    marks: &[Mark],
    at: usize,
    form: Option<InnerForm>,
) -> Option<Fault>
    ensures { fault_in result ≡ short_titled text.now lists.now cells.now marks.now at form }
{
    match form {
        Some(form) if leaves_out(inner_place(form.size), at, cells) => {
            let lines = Lines {
                text,
                lists,
                marks,
                parts: form.parts,
                cells: from_offset(at, cells),
                total: cells.len(),
            };
            short_of(&lines, at, next_titled(text, lists, marks, cells.len()))
        }
        _ => None,
    }
}

// Returns the fault of the first structure of lists that lacks fields, up to the next structure.
fn short_inners(text: &[u8], lists: &[InnerList], cells: &[Cell], marks: &[Mark]) -> Option<Fault>
    ensures { fault_in result ≡ short_inners text.now lists.now cells.now marks.now }
{
    'marks: for i in 0..marks.len() {
        match marks[i] {
            Mark::Structure { .. } => return None,
            Mark::Line { at, from, to } => {
                let form = titled(after_offset(part_at(from, to, text)), lists);
                let next = &marks[i + 1..];
                if let Some(fault) = short_titled(text, lists, cells, next, at, form) {
                    return Some(fault);
                }
            }
            Mark::Reference { .. } => {}
        }
    }
    None
}

// Returns the fault of the first structure within a table or another structure that lacks fields.
fn short_within(text: &[u8], inner: &Inner, cells: &[Cell], marks: &[Mark]) -> Option<Fault>
    ensures { fault_in result ≡ short_within text.now inner.now cells.now marks.now }
{
    short_inners(text, lists_of(inner), cells, marks)
}

// Returns the fault of those within a structure of a form.
fn short_of_form(
    text: &[u8],
    form: Option<StructureForm>,
    cells: &[Cell],
    marks: &[Mark],
) -> Option<Fault>
    ensures { fault_in result ≡ short_of_form text.now form cells.now marks.now }
{
    match form {
        Some(form) => short_within(text, form.inner, cells, marks),
        None => None,
    }
}

// Returns the fault of the first structure that lacks fields, or has a structure within it that does.
fn short_in(
    source: &Source,
    place: Place,
    no_length: bool,
    cells: &[Cell],
    marks: &[Mark],
) -> Option<Fault>
    ensures { fault_in result ≡ short_in (source_of source.now) place no_length cells.now marks.now }
{
    'marks: for i in 0..marks.len() {
        if let Mark::Structure { at, from, to } = marks[i] {
            let (text, next) = (source.text, &marks[i + 1..]);
            let heading = part_at(from, to, text);
            let bytes = from_offset(at, cells);
            let form = structure_form(source.kind, &source.form, heading, bytes);
            if let Some(fault) = short_structure(text, place, no_length, cells, next, at, form) {
                return Some(fault);
            }
            if let Some(fault) = short_of_form(text, form, cells, next) {
                return Some(fault);
            }
        }
    }
    None
}

// Returns the fault of a table that lacks fields before its structures.
fn short_table(no_length: bool, source: &Source, cells: &[Cell], marks: &[Mark]) -> Option<Fault>
    ensures { fault_in result ≡ short_table no_length (source_of source.now) cells.now marks.now }
{
    if no_length {
        let lines = Lines {
            text: source.text,
            lists: lists_of(source.form.inner),
            marks,
            parts: source.form.parts,
            cells,
            total: cells.len(),
        };
        short_of(&lines, 0, next_start(marks, cells.len()))
    } else {
        None
    }
}

/// Returns the fault of a table, or of the first of its structures and of those within them, that lacks fields, and whose length
/// the text leaves out. A structure without a length lacks fields if the table's length is left out.
pub fn short(
    file_kind: FileKind,
    walk: Option<Walk>,
    source: &Source,
    draft: &Draft,
) -> Option<Fault>
    ensures { fault_in result ≡ short file_kind walk (source_of source.now) (drafted draft.now) }
{
    let (cells, marks) = (&draft.cells, &draft.marks);
    let no_length = leaves_out_table_length(file_kind, cells);
    first_of(
        short_table(no_length, source, cells, marks),
        first_of(
            short_within(source.text, source.form.inner, cells, marks),
            short_in(source, size_place(walk), no_length, cells, marks),
        ),
    )
}
