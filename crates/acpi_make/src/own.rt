//! The numbers that a table has of itself.

ghost use Rattle.std.specs.Prelude.{◌≡◌, ◌≤◌, ◌++◌, OnOk, IfOk, length, drop, if◌then◌else◌};
ghost use Rattle.acpi_make.specs.Extent.{own_at};
ghost use Rattle.acpi_make.specs.Gives.{Changes, with_front};
ghost use Rattle.acpi_make.specs.Heading.{label_of};
ghost use Rattle.acpi_make.specs.Source.{source_of};
ghost use Rattle.acpi_make.specs.Own.{next_start, count_structures, sizes_own, all_own, walk_own, none_own};
ghost use Rattle.acpi_make.specs.Own.{count_lines, next_line, find_line, count_own, part_name, line_of, line_of_parts};
ghost use Rattle.acpi_make.specs.Own.{gap_own, end_own};
ghost use Rattle.acpi_make.specs.Own.{part_own, parts_own};
ghost use Rattle.acpi_make.specs.Draft.{is_nameless};
ghost use Rattle.std.specs.Option.{option_map};
ghost use Rattle.acpi_make.specs.Own.{kind_own, structure_own, contents_own, table_own, reference_own, references_own};
ghost use Rattle.acpi_make.specs.Own.{AreLabels, PutsLabel, labelled, the_one};
ghost use Rattle.acpi_make.specs.Text.{part_at};

use crate::draft::{Mark, Source, fits, is_nameless};
use crate::entry::is_line_of;
use crate::extent::{Extent, Own, push_at, push_size, push_within};
use crate::fault::{Fault, MakeError, Wanted};
use crate::heading::{label_of, structure_form};
use crate::inner::push_inner;
use crate::item::Cell;
use crate::text::{after_offset, part_at};
use acpi_base::walk::{Place, Sizes, Walk};
use acpi_text::form::{Count, Part, StructureForm};
use acpi_text::piece::{inner_of, parts_of};
use std::alloc::{AllocError, Global};
use std::collections::BTreeMap;

/// Returns the offset of the next structure, or that of the table's end.
pub fn next_start(marks: &[Mark], total: usize) -> usize
    ensures { result ≡ next_start marks.now total }
{
    'marks: for mark in marks {
        if let Mark::Structure { at, .. } = *mark {
            return at;
        }
    }
    total
}

fn count_structures(marks: &[Mark]) -> usize
    ensures is { result ≡ count_structures marks.now }
    ensures within { result ≤ length marks.now }
{
    let mut count = 0;
    'marks: for mark in marks {
        match *mark {
            Mark::Structure { .. } => count += 1,
            Mark::Line { .. } => {}
            Mark::Reference { .. } => {}
        }
    }
    count
}

// Adds the lengths of all structures.
fn push_sizes(
    sizes: Sizes,
    marks: &[Mark],
    total: usize,
    owns: &mut Vec<Own>,
) -> Result<(), AllocError>
    ensures { OnOk result (owns.new.items ≡ owns.old.items ++ sizes_own sizes marks.now total) }
{
    'marks: for i in 0..marks.len() {
        match marks[i] {
            Mark::Structure { at, .. } => {
                let size = next_start(&marks[i + 1..], total).saturating_sub(at);
                push_size(sizes, at, size, owns)?;
            }
            Mark::Line { .. } => {}
            Mark::Reference { .. } => {}
        }
    }
    Ok(())
}

// Adds the number of structures, and the offset of the first.
fn push_all(
    walk: &Walk,
    marks: &[Mark],
    total: usize,
    owns: &mut Vec<Own>,
) -> Result<(), AllocError>
    ensures { OnOk result (owns.new.items ≡ owns.old.items ++ all_own walk.now marks.now total) }
{
    let first = next_start(marks, total);
    push_at(0, first, walk.count, count_structures(marks), owns)?;
    push_at(0, first, walk.first, first, owns)
}

/// Adds the number of structures and the offset of the first, if there are structures, and their lengths.
pub fn push_walk(
    walk: Option<Walk>,
    marks: &[Mark],
    total: usize,
    owns: &mut Vec<Own>,
) -> Result<(), AllocError>
    ensures { OnOk result (owns.new.items ≡ owns.old.items ++ walk_own walk marks.now total) }
{
    let Some(walk) = walk else {
        return Ok(());
    };
    if count_structures(marks) != 0 {
        push_all(&walk, marks, total, owns)?;
    }
    push_sizes(walk.sizes, marks, total, owns)
}

/// Adds the number of structures and the offset of the first, if there are no structures.
pub fn push_none(
    walk: Option<Walk>,
    marks: &[Mark],
    total: usize,
    owns: &mut Vec<Own>,
) -> Result<(), AllocError>
    ensures { OnOk result (owns.new.items ≡ owns.old.items ++ none_own walk marks.now total) }
{
    match walk {
        Some(walk) if count_structures(marks) == 0 => push_all(&walk, marks, total, owns),
        _ => Ok(()),
    }
}

// Returns how many lines of a structure have a name, up to the next structure.
fn count_lines(text: &[u8], name: &str, marks: &[Mark]) -> usize
    ensures is { result ≡ count_lines text.now name.now marks.now }
    ensures within { result ≤ length marks.now }
{
    let mut count = 0;
    'marks: for mark in marks {
        match *mark {
            Mark::Structure { .. } => return count,
            Mark::Line { from, to, .. } => {
                if is_line_of(name.as_bytes(), after_offset(part_at(from, to, text))) {
                    count += 1;
                }
            }
            Mark::Reference { .. } => {}
        }
    }
    count
}

/// Returns the offset of the next line or structure, or that of the table's end.
pub fn next_line(marks: &[Mark], total: usize) -> usize
    ensures { result ≡ next_line marks.now total }
{
    'marks: for mark in marks {
        match *mark {
            Mark::Structure { at, .. } => return at,
            Mark::Line { at, .. } => return at,
            Mark::Reference { .. } => {}
        }
    }
    total
}

// Returns the offsets at which the first line with a name begins and ends, up to the next structure.
fn find_line(text: &[u8], name: &str, marks: &[Mark], total: usize) -> Option<(usize, usize)>
    ensures { result ≡ find_line text.now name.now marks.now total }
{
    'marks: for i in 0..marks.len() {
        match marks[i] {
            Mark::Structure { .. } => return None,
            Mark::Line { at, from, to } => {
                if is_line_of(name.as_bytes(), after_offset(part_at(from, to, text))) {
                    return Some((at, next_line(&marks[i + 1..], total)));
                }
            }
            Mark::Reference { .. } => {}
        }
    }
    None
}

// Adds the number of a structure's entries.
fn push_count(
    extent: &Extent<'_>,
    name: &str,
    count: Count,
    owns: &mut Vec<Own>,
) -> Result<(), AllocError>
    ensures { OnOk result (owns.new.items ≡ owns.old.items
        ++ count_own extent.now.text.now extent.now.marks.now extent.now.start extent.now.size name.now count) }
{
    match count {
        Count::Field(place) => {
            let number = count_lines(extent.text, name, extent.marks);
            push_within(extent, place, number, owns)
        }
        Count::Rest | Count::Once => Ok(()),
    }
}

// Returns the name of a part's lines.
fn part_name(part: &Part) -> Option<&'static str>
    ensures { option_map (λ name. name.now) result ≡ part_name part.now }
{
    match *part {
        Part::Group(name, _)
        | Part::Entries(name, _, _)
        | Part::Numbers(name, _, _)
        | Part::Matrix(name, _, _, _)
        | Part::Bytes(name, _)
        | Part::Until(name, _) => Some(name),
        Part::Fields(_) | Part::Between(_, _, _) | Part::Chosen(_, _) => None,
        Part::BySize(_, _, _) => None,
    }
}

// Returns the offsets at which the first line of a part begins and ends.
fn line_of(text: &[u8], marks: &[Mark], total: usize, part: &Part) -> Option<(usize, usize)>
    ensures { result ≡ line_of text.now marks.now total (part_name part.now) }
{
    match part_name(part) {
        Some(name) if !is_nameless(name.as_bytes()) => find_line(text, name, marks, total),
        _ => None,
    }
}

// Returns those of the first of these parts that has a line.
fn line_of_parts(
    text: &[u8],
    marks: &[Mark],
    total: usize,
    parts: &[Part],
) -> Option<(usize, usize)>
    ensures { result ≡ line_of_parts text.now marks.now total parts.now }
{
    'parts: for part in parts {
        if let Some(found) = line_of(text, marks, total, part) {
            return Some(found);
        }
    }
    None
}

// Adds the offset at which bytes before a part end, or, if these have no name, that of the next part that the text has.
fn push_end(
    extent: &Extent<'_>,
    name: &str,
    place: Place,
    next: &[Part],
    owns: &mut Vec<Own>,
) -> Result<(), AllocError>
    ensures { OnOk result (owns.new.items ≡ owns.old.items
        ++ (if is_nameless name.now then gap_own extent.now.start extent.now.size place
        (line_of_parts extent.now.text.now extent.now.marks.now extent.now.total next.now)
        else end_own extent.now.start extent.now.size place
        (find_line extent.now.text.now name.now extent.now.marks.now extent.now.total))) }
{
    let end = if is_nameless(name.as_bytes()) {
        line_of_parts(extent.text, extent.marks, extent.total, next).map(|found| found.0)
    } else {
        find_line(extent.text, name, extent.marks, extent.total).map(|found| found.1)
    };
    match end {
        Some(end) => push_within(extent, place, end.saturating_sub(extent.start), owns),
        None => Ok(()),
    }
}

// Adds the number that a structure has of a part. `next` is the parts after it.
fn push_part(
    extent: &Extent<'_>,
    part: &Part,
    next: &[Part],
    owns: &mut Vec<Own>,
) -> Result<(), AllocError>
    ensures { OnOk result (owns.new.items ≡ owns.old.items
        ++ part_own extent.now.text.now extent.now.marks.now extent.now.total extent.now.start extent.now.size
        part.now next.now) }
{
    match *part {
        Part::Entries(name, count, _) => push_count(extent, name, count, owns),
        Part::Numbers(name, _, count) => push_count(extent, name, count, owns),
        Part::Bytes(name, place) => {
            match find_line(extent.text, name, extent.marks, extent.total) {
                Some((from, to)) => push_within(extent, place, to.saturating_sub(from), owns),
                None => Ok(()),
            }
        }
        Part::Until(name, place) => push_end(extent, name, place, next, owns),
        Part::Matrix(name, _, rows, _) => {
            push_within(
                extent,
                rows,
                count_lines(extent.text, name, extent.marks),
                owns,
            )
        }
        Part::Fields(_) | Part::Between(_, _, _) => Ok(()),
        Part::Group(_, _) | Part::Chosen(_, _) | Part::BySize(_, _, _) => Ok(()),
    }
}

// Adds the numbers that a structure has of its parts.
fn push_parts(extent: &Extent<'_>, parts: &[Part], owns: &mut Vec<Own>) -> Result<(), AllocError>
    ensures { OnOk result (owns.new.items ≡ owns.old.items
        ++ parts_own extent.now.text.now extent.now.marks.now extent.now.total extent.now.start extent.now.size parts.now) }
{
    'parts: for i in 0..parts.len() {
        push_part(extent, &parts[i], &parts[i + 1..], owns)?;
    }
    Ok(())
}

// Adds the type of a structure, by its form.
fn push_kind(
    kind: Place,
    start: usize,
    size: usize,
    form: Option<StructureForm>,
    owns: &mut Vec<Own>,
) -> Result<(), AllocError>
    ensures { OnOk result (owns.new.items ≡ owns.old.items ++ kind_own kind start size form) }
{
    match form {
        Some(form) => push_at(start, size, kind, form.number, owns),
        None => Ok(()),
    }
}

// Adds the type of a structure, and the numbers of what it contains.
#[tactic(auto, unfolding(crate::specs::Own::structure_own))]
fn push_structure(
    source: &Source,
    cells: &[Cell],
    marks: &[Mark],
    at: usize,
    from: usize,
    to: usize,
    owns: &mut Vec<Own>,
) -> Result<(), AllocError>
    ensures { OnOk result (owns.new.items
        ≡ owns.old.items ++ structure_own (source_of source.now) cells.now marks.now (length cells.now) at from to) }
{
    let total = cells.len();
    let bytes = if at < cells.len() { &cells[at..] } else { &[] };
    let heading = part_at(from, to, source.text);
    let form = structure_form(source.kind, &source.form, heading, bytes);
    let size = next_start(marks, total).saturating_sub(at);
    push_kind(source.kind, at, size, form, owns)?;
    let extent = Extent {
        text: source.text,
        marks,
        total,
        start: at,
        size,
    };
    push_parts(&extent, parts_of(form), owns)?;
    push_inner(&extent, inner_of(form), owns)
}

// Adds the types of structures, and the numbers of what they contain.
fn push_contents(
    source: &Source,
    cells: &[Cell],
    marks: &[Mark],
    owns: &mut Vec<Own>,
) -> Result<(), AllocError>
    ensures { OnOk result (owns.new.items
        ≡ owns.old.items ++ contents_own (source_of source.now) cells.now marks.now (length cells.now)) }
{
    'marks: for i in 0..marks.len() {
        match marks[i] {
            Mark::Structure { at, from, to } => {
                push_structure(source, cells, &marks[i + 1..], at, from, to, owns)?;
            }
            Mark::Line { .. } => {}
            Mark::Reference { .. } => {}
        }
    }
    Ok(())
}

/// Adds the types of structures, and the numbers of what the table and its structures contain.
pub fn push_table(
    source: &Source,
    cells: &[Cell],
    marks: &[Mark],
    owns: &mut Vec<Own>,
) -> Result<(), AllocError>
    ensures { OnOk result (owns.new.items ≡ owns.old.items ++ table_own (source_of source.now) cells.now marks.now) }
{
    let total = cells.len();
    let first = next_start(marks, total);
    let fields = Extent {
        text: source.text,
        marks,
        total,
        start: 0,
        size: first,
    };
    push_parts(&fields, source.form.parts, owns)?;
    push_inner(&fields, source.form.inner, owns)?;
    push_contents(source, cells, marks, owns)
}

// Adds a structure under the label of its heading, if the heading has one. If another structure has the label, it has no offset.
fn put_label<'a>(
    heading: &'a [u8],
    at: usize,
    labels: &mut BTreeMap<&'a [u8], Option<usize>>,
) -> Result<(), AllocError>
    ensures { OnOk result (PutsLabel labels.old labels.new (label_of heading.now) at) }
{
    match label_of(heading) {
        Some(label) => {
            let place = if labels.contains_key(label) {
                None
            } else {
                Some(at)
            };
            labels.insert(label, place)?;
            Ok(())
        }
        None => Ok(()),
    }
}

// Returns for each label the offset of the only structure with it. It begins with the last structure.
fn labels_of<'a>(
    alloc: Global,
    text: &'a [u8],
    marks: &[Mark],
) -> Result<BTreeMap<&'a [u8], Option<usize>>, AllocError>
    ensures { IfOk result (λ labels. AreLabels labels text.now marks.now) }
{
    let mut labels = BTreeMap::new(alloc);
    let mut left = marks.len();
    'marks: while left > 0 {
        left -= 1;
        match marks[left] {
            Mark::Structure { at, from, to } => put_label(
                part_at(from, to, text),
                at,
                &mut labels,
            )?,
            Mark::Line { .. } => {}
            Mark::Reference { .. } => {}
        }
    }
    Ok(labels)
}

// Returns the offset of the only structure with the label that a reference has after its first character.
fn find_label(
    text: &[u8],
    from: usize,
    to: usize,
    labels: &BTreeMap<&[u8], Option<usize>>,
) -> Option<usize>
    ensures { result ≡ the_one (labelled labels.now (drop 1 (part_at from to text.now))) }
{
    let value = part_at(from, to, text);
    let label = if value.is_empty() { value } else { &value[1..] };
    match labels.get(label) {
        Some(place) => *place,
        None => None,
    }
}

// Adds the offset of the structure to which a reference refers.
fn push_reference(
    at: usize,
    width: usize,
    range: (usize, usize),
    offset: Option<usize>,
    owns: &mut Vec<Own>,
) -> Result<(), MakeError>
    ensures { Changes result owns.new.items (with_front owns.old.items (reference_own at width range.0 range.1 offset)) }
{
    match offset {
        Some(number) if fits(width, number) => {
            owns.push(Own {
                offset: at,
                width,
                number,
            })?;
            Ok(())
        }
        _ => {
            let (from, to) = range;
            Err(MakeError::Fault(Fault::new(from, to, Wanted::Label)))
        }
    }
}

/// Adds the offsets of the structures to which references refer. The error is that memory ran out, or that one structure with
/// this label is wanted.
pub fn push_references(text: &[u8], marks: &[Mark], owns: &mut Vec<Own>) -> Result<(), MakeError>
    ensures { Changes result owns.new.items (with_front owns.old.items (references_own text.now marks.now marks.now)) }
{
    let labels = labels_of(*owns.allocator(), text, marks)?;
    'marks: for mark in marks {
        match *mark {
            Mark::Reference {
                at,
                width,
                from,
                to,
            } => {
                let offset = find_label(text, from, to, &labels);
                push_reference(at, width, (from, to), offset, owns)?;
            }
            Mark::Structure { .. } => {}
            Mark::Line { .. } => {}
        }
    }
    Ok(())
}
