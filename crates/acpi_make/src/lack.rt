//! What a table or a structure lacks, by the lines that a text has for it.

ghost use Rattle.std.specs.Prelude.{◌≡◌, ◌≤◌, ◌*◌, length};
ghost use Rattle.acpi_make.specs.Draft.{fault_in};
ghost use Rattle.acpi_make.specs.Fault.{fault_of};
ghost use Rattle.acpi_make.specs.Inner.{titled};
ghost use Rattle.acpi_make.specs.Lack.{lines_in, lists_of, is_titled, lines_within, lines_of, lines_counted, counted_at};
ghost use Rattle.acpi_make.specs.Lack.{fit_of, room, entries_room, matrix_room, known_choice, choice_room, part_room};
ghost use Rattle.acpi_make.specs.Lack.{first_lacking, uneven_row, row_size, uneven_part, uneven, next_heading, lacking};
ghost use Rattle.acpi_make.specs.Lack.{entry_end, short_entry, part_entries, short_entries, short_of};

use crate::draft::Mark;
use crate::entry::is_line_of;
use crate::fault::{Fault, Wanted};
use crate::heading::{has_number, is_field};
use crate::inner::titled;
use crate::item::Cell;
use crate::own::next_line;
use crate::text::{after_offset, part_at};
use acpi_base::row::Row;
use acpi_base::slice::from_offset;
use acpi_base::walk::Place;
use acpi_text::form::{Choice, Count, Inner, InnerList, Part};
use acpi_text::part::between;

/// Whether bytes have all of some fields.
#[derive(Clone, Copy)]
pub enum Fit {
    /// They have, and this many bytes are left.
    Leaves(usize),
    /// They lack some. This is the first of those: its name, and its width.
    Lacks(&'static str, usize),
    /// That depends on other fields.
    Depends,
}

/// The lines of a table or a structure, up to the next structure.
#[derive(Clone, Copy)]
pub struct Lines<'a> {
    pub text: &'a [u8],
    /// The structures within it, which come after its own lines.
    pub lists: &'a [InnerList],
    /// The marks from the first of its lines on.
    pub marks: &'a [Mark],
    /// The parts of its form.
    pub parts: &'a [Part],
    /// The bytes of the table or the structure, and those after it.
    pub cells: &'a [Cell],
    /// The number of all bytes of the table.
    pub total: usize,
}

// Returns how many bytes are left after the fields of rows, if there are as many.
fn room(size: usize, rows: &[Row]) -> Fit
    ensures { fit_of result ≡ room size rows.now }
{
    let mut left = size;
    'rows: for row in rows {
        let width = row.width();
        if width > left {
            return Fit::Lacks(row.name(), width);
        }
        left -= width;
    }
    Fit::Leaves(left)
}

// Returns how many bytes are left after this many entries of a list.
fn entries_room(size: usize, count: usize, rows: &[Row]) -> Fit
    ensures { fit_of result ≡ entries_room size count rows.now }
{
    let mut left = size;
    let mut more = count;
    'entries: while more > 0 {
        match room(left, rows) {
            Fit::Leaves(rest) => left = rest,
            Fit::Lacks(name, width) => return Fit::Lacks(name, width),
            Fit::Depends => return Fit::Depends,
        }
        more -= 1;
    }
    Fit::Leaves(left)
}

// Returns how many bytes are left after the rows of a matrix of numbers.
fn matrix_room(size: usize, count: usize, columns: usize, rows: &[Row]) -> Fit
    ensures { fit_of result ≡ matrix_room size count columns rows.now }
{
    let mut left = size;
    let mut more = count;
    'rows: while more > 0 {
        match entries_room(left, columns, rows) {
            Fit::Leaves(rest) => left = rest,
            Fit::Lacks(name, width) => return Fit::Lacks(name, width),
            Fit::Depends => return Fit::Depends,
        }
        more -= 1;
    }
    Fit::Leaves(left)
}

/// Returns the lists of structures within another.
pub fn lists_of(inner: &Inner) -> &'static [InnerList]
    ensures { result.now ≡ lists_of inner.now }
{
    match *inner {
        Inner::Nothing => &[],
        Inner::Lists(_, lists) => lists,
    }
}

// Returns whether a line is the name of a structure within another.
fn is_titled(line: &[u8], lists: &[InnerList]) -> bool
    ensures { result ≡ is_titled (titled line.now lists.now) }
{
    match titled(line, lists) {
        Some(_) => true,
        None => false,
    }
}

// Returns how many lines before the next structure have a name.
fn lines_within(text: &[u8], lists: &[InnerList], name: &str, marks: &[Mark]) -> usize
    ensures is { result ≡ lines_within text.now lists.now name.now marks.now }
    ensures within { result ≤ length marks.now }
{
    let mut count = 0;
    'marks: for mark in marks {
        match *mark {
            Mark::Structure { .. } => return count,
            Mark::Line { from, to, .. } => {
                let line = after_offset(part_at(from, to, text));
                if is_titled(line, lists) {
                    return count;
                }
                if is_line_of(name.as_bytes(), line) {
                    count += 1;
                }
            }
            Mark::Reference { .. } => {}
        }
    }
    count
}

// Returns how many lines there are of the list with this name.
fn lines_of(lines: &Lines<'_>, name: &str) -> usize
    ensures { result ≡ lines_of (lines_in lines.now) name.now }
{
    lines_within(lines.text, lines.lists, name, lines.marks)
}

// Returns how many lines there are of a part, if the field at this place has their number.
fn lines_counted(lines: &Lines<'_>, place: Place, part: &Part) -> Option<usize>
    ensures { result ≡ lines_counted (lines_in lines.now) place part.now }
{
    let (name, counted) = match *part {
        Part::Entries(name, Count::Field(counted), _) => (name, counted),
        Part::Numbers(name, _, Count::Field(counted)) => (name, counted),
        Part::Matrix(name, _, counted, _) => (name, counted),
        _ => return None,
    };
    if counted.offset() == place.offset() {
        Some(lines_of(lines, name))
    } else {
        None
    }
}

// Returns how many lines the text has of what the field at a place counts.
fn counted_at(lines: &Lines<'_>, place: Place, parts: &[Part]) -> usize
    ensures { result ≡ counted_at (lines_in lines.now) place parts.now }
{
    'parts: for part in parts {
        if let Some(count) = lines_counted(lines, place, part) {
            return count;
        }
    }
    0
}

// Returns the choice whose number the field at a place of a structure has, if the text has the bytes of this field.
fn known_choice(by: Place, choices: &[Choice], cells: &[Cell]) -> Option<Choice>
    ensures { result ≡ known_choice by choices.now cells.now }
{
    let (offset, end) = (by.offset(), by.end());
    let bytes = from_offset(offset, cells);
    'choices: for choice in choices {
        if has_number(end - offset, choice.number, bytes) {
            return Some(*choice);
        }
    }
    None
}

// Returns how many bytes are left after the fields of a choice.
fn choice_room(size: usize, choice: Option<Choice>) -> Fit
    ensures { fit_of result ≡ choice_room size choice }
{
    match choice {
        Some(choice) => room(size, choice.rows),
        None => Fit::Depends,
    }
}

// Returns how many bytes are left after the fields of a part. A list has as many entries as the text has lines of its name, and a
// matrix as many rows and columns as the text has lines of what counts them.
fn part_room(lines: &Lines<'_>, size: usize, part: &Part) -> Fit
    ensures { fit_of result ≡ part_room (lines_in lines.now) size part.now }
{
    match *part {
        Part::Fields(rows) => room(size, rows),
        Part::Between(rows, from, to) => room(size, between(rows, from, to)),
        Part::Group(_, rows) => room(size, rows),
        Part::Entries(name, _, rows) => entries_room(size, lines_of(lines, name), rows),
        Part::Numbers(name, width, _) => {
            let row = [Row::Number(name, width)];
            entries_room(size, lines_of(lines, name), &row)
        }
        Part::Matrix(name, width, rows, columns) => {
            let row = [Row::Number(name, width)];
            let count = counted_at(lines, rows, lines.parts);
            matrix_room(size, count, counted_at(lines, columns, lines.parts), &row)
        }
        Part::Chosen(by, choices) => choice_room(size, known_choice(by, choices, lines.cells)),
        Part::Bytes(_, _) | Part::Until(_, _) | Part::BySize(_, _, _) => Fit::Depends,
    }
}

// Returns the first field at the front of parts that bytes lack: before the first part whose size depends on other fields.
fn first_lacking(lines: &Lines<'_>, size: usize, parts: &[Part]) -> Fit
    ensures { fit_of result ≡ first_lacking (lines_in lines.now) size parts.now }
{
    let mut left = size;
    'parts: for part in parts {
        match part_room(lines, left, part) {
            Fit::Leaves(rest) => left = rest,
            Fit::Lacks(name, width) => return Fit::Lacks(name, width),
            Fit::Depends => return Fit::Depends,
        }
    }
    Fit::Leaves(left)
}

// Returns the fault of the first row of a matrix that hasn't this many bytes.
fn uneven_row(lines: &Lines<'_>, name: &'static str, size: usize, marks: &[Mark]) -> Option<Fault>
    ensures { fault_in result ≡ uneven_row (lines_in lines.now) name.now size marks.now }
{
    'marks: for i in 0..marks.len() {
        match marks[i] {
            Mark::Structure { .. } => return None,
            Mark::Line { at, from, to } => {
                let line = after_offset(part_at(from, to, lines.text));
                if is_titled(line, lines.lists) {
                    return None;
                }
                let found = next_line(&marks[i + 1..], lines.total).saturating_sub(at);
                if is_line_of(name.as_bytes(), line) && found != size {
                    return Some(Fault::wide(from, to, name, size, found));
                }
            }
            Mark::Reference { .. } => {}
        }
    }
    None
}

// Returns the size of a row, or the number of all bytes if that is less: no row has so many.
fn row_size(width: usize, columns: usize, total: usize) -> usize
    ensures { result ≡ row_size (width * columns) total }
{
    match width.checked_mul(columns) {
        Some(size) if size <= total => size,
        _ => total,
    }
}

// Returns the fault of the first row of a part that hasn't a number for each column.
fn uneven_part(lines: &Lines<'_>, part: &Part) -> Option<Fault>
    ensures { fault_in result ≡ uneven_part (lines_in lines.now) part.now }
{
    match *part {
        Part::Matrix(name, width, _, columns) => {
            let size = row_size(width, counted_at(lines, columns, lines.parts), lines.total);
            uneven_row(lines, name, size, lines.marks)
        }
        _ => None,
    }
}

// Returns the fault of the first row of a matrix that hasn't a number for each column.
fn uneven(lines: &Lines<'_>, parts: &[Part]) -> Option<Fault>
    ensures { fault_in result ≡ uneven (lines_in lines.now) parts.now }
{
    'parts: for part in parts {
        if let Some(fault) = uneven_part(lines, part) {
            return Some(fault);
        }
    }
    None
}

// Returns the range of what comes after the lines: the next structure, or the next one within. It is empty at the end of the
// text.
fn next_heading(lines: &Lines<'_>, marks: &[Mark]) -> (usize, usize)
    ensures { result ≡ next_heading (lines_in lines.now) marks.now }
{
    'marks: for mark in marks {
        match *mark {
            Mark::Structure { from, to, .. } => return (from, to),
            Mark::Line { from, to, .. } => {
                if is_titled(after_offset(part_at(from, to, lines.text)), lines.lists) {
                    return (from, to);
                }
            }
            Mark::Reference { .. } => {}
        }
    }
    (0, 0)
}

// Returns the fault of a field that isn't there, at what stands in its place. This may be a field without white space before it.
fn lacking(lines: &Lines<'_>, range: (usize, usize), name: &'static str, width: usize) -> Fault
    ensures { fault_of result ≡ lacking (lines_in lines.now) range.0 range.1 name.now width }
{
    let (from, to) = range;
    if is_field(part_at(from, to, lines.text)) {
        Fault::new(from, to, Wanted::Indented)
    } else {
        Fault::whole(from, to, name, width)
    }
}

// Returns where an entry of a list ends, and the range of what comes after it: the next line of its name, or the next heading.
// `end` is where the table or the structure ends.
fn entry_end(lines: &Lines<'_>, name: &str, end: usize, marks: &[Mark]) -> (usize, (usize, usize))
    ensures { result ≡ entry_end (lines_in lines.now) name.now end marks.now }
{
    'marks: for mark in marks {
        match *mark {
            Mark::Structure { from, to, .. } => return (end, (from, to)),
            Mark::Line { at, from, to } => {
                let line = after_offset(part_at(from, to, lines.text));
                if is_titled(line, lines.lists) {
                    return (end, (from, to));
                }
                if is_line_of(name.as_bytes(), line) {
                    return (at, (from, to));
                }
            }
            Mark::Reference { .. } => {}
        }
    }
    (end, (0, 0))
}

// Returns the fault of the first entry of a list that lacks a field.
fn short_entry(
    lines: &Lines<'_>,
    name: &str,
    rows: &[Row],
    end: usize,
    marks: &[Mark],
) -> Option<Fault>
    ensures { fault_in result ≡ short_entry (lines_in lines.now) name.now rows.now end marks.now }
{
    'marks: for i in 0..marks.len() {
        match marks[i] {
            Mark::Structure { .. } => return None,
            Mark::Line { at, from, to } => {
                let line = after_offset(part_at(from, to, lines.text));
                if is_titled(line, lines.lists) {
                    return None;
                }
                if is_line_of(name.as_bytes(), line) {
                    let (next, range) = entry_end(lines, name, end, &marks[i + 1..]);
                    if let Fit::Lacks(field, width) = room(next.saturating_sub(at), rows) {
                        return Some(lacking(lines, range, field, width));
                    }
                }
            }
            Mark::Reference { .. } => {}
        }
    }
    None
}

// Returns the fault of the first entry of a part that lacks a field.
fn part_entries(lines: &Lines<'_>, end: usize, part: &Part) -> Option<Fault>
    ensures { fault_in result ≡ part_entries (lines_in lines.now) end part.now }
{
    match *part {
        Part::Entries(name, _, rows) => short_entry(lines, name, rows, end, lines.marks),
        _ => None,
    }
}

// Returns the fault of the first entry of a list that lacks a field, of all lists of the parts.
fn short_entries(lines: &Lines<'_>, end: usize, parts: &[Part]) -> Option<Fault>
    ensures { fault_in result ≡ short_entries (lines_in lines.now) end parts.now }
{
    'parts: for part in parts {
        if let Some(fault) = part_entries(lines, end, part) {
            return Some(fault);
        }
    }
    None
}

/// Returns the fault of a table or a structure with these offsets of its first byte and its end, if it lacks fields or numbers.
pub fn short_of(lines: &Lines<'_>, at: usize, end: usize) -> Option<Fault>
    ensures { fault_in result ≡ short_of (lines_in lines.now) at end }
{
    if let Some(fault) = uneven(lines, lines.parts) {
        return Some(fault);
    }
    if let Some(fault) = short_entries(lines, end, lines.parts) {
        return Some(fault);
    }
    match first_lacking(lines, end.saturating_sub(at), lines.parts) {
        Fit::Lacks(name, width) => Some(lacking(
            lines,
            next_heading(lines, lines.marks),
            name,
            width,
        )),
        Fit::Leaves(_) | Fit::Depends => None,
    }
}
