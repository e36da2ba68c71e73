//! Whether the lines of a text are those of the text that shows its table. So a line stands where the form has its field, and has
//! the bytes of that field.

ghost use Rattle.std.specs.Prelude.{◌≡◌, List, ◌∷◌, Some, MatchResult};
ghost use Rattle.acpi_make.specs.Compare.{heading_number, is_same_number, mark_at, is_reference, name_in, is_same_name, is_same};
ghost use Rattle.acpi_make.specs.Compare.{is_passed, no_bytes, is_within, past, rest_after, begins_same, has_no_name};
ghost use Rattle.acpi_make.specs.Compare.{is_empty, cover, misgrouped};
ghost use Rattle.acpi_make.specs.Compare.{name_of_number, wanted_at, wanted_for, wanted_after, differ, difference};
ghost use Rattle.acpi_make.specs.Draft.{drafted, fault_in};
ghost use Rattle.acpi_make.specs.Range.{range_of};
ghost use Rattle.acpi_make.specs.Entry.{name_found, is_open, found_of};
ghost use Rattle.acpi_make.specs.Fault.{fault_of};
ghost use Rattle.acpi_make.specs.Gives.{Gives};
ghost use Rattle.acpi_make.specs.Own.{next_line};
ghost use Rattle.acpi_make.specs.Source.{source_of};
ghost use Rattle.acpi_make.specs.declared.draft.Mark as mark;
ghost use Rattle.acpi_text.specs.Structure.{all_forms};

use crate::draft::{Draft, Mark, Source, draft_of, is_nameless};
use crate::entry::{Field, find_anywhere};
use crate::fault::{Fault, MakeError, Wanted};
use crate::groups::{are_same_groups, groups_at, largest_of};
use crate::heading::{described, find_named};
use crate::own::next_line;
use crate::read::read_text;
use crate::text::{after, after_offset, are_white, decimal_of, digits_front, part_at};
use acpi_base::walk::Walk;
use acpi_text::form::TableForm;
use acpi_text::piece::find_form;
use acpi_text::table::show_by;
use std::alloc::Global;

// Returns the type of which a heading says that its structure has it: the number after the word `type`, 0 after the word `entry`,
// or that of the structure's name.
fn heading_number(table: &TableForm, heading: &[u8]) -> Option<u64>
    ensures { result ≡ heading_number (all_forms table.now) heading.now }
{
    let words = described(heading);
    if let Some(text) = after(b"type ", words) {
        return decimal_of(&text[..digits_front(text)]);
    }
    if let Some(_) = after(b"entry", words) {
        return Some(0);
    }
    match find_named(words, table) {
        Some(form) => Some(form.number as u64),
        None => None,
    }
}

fn is_same_number(number: Option<u64>, other: Option<u64>) -> bool
    ensures { result ≡ is_same_number number other }
{
    match (number, other) {
        (Some(number), Some(other)) => number == other,
        (None, None) => true,
        _ => false,
    }
}

fn mark_at(mark: &Mark) -> usize
    ensures { result ≡ mark_at mark.now }
{
    match *mark {
        Mark::Structure { at, .. } => at,
        Mark::Line { at, .. } => at,
        Mark::Reference { at, .. } => at,
    }
}

fn is_reference(mark: &Mark) -> bool
    ensures { result ≡ is_reference mark.now }
{
    match *mark {
        Mark::Reference { .. } => true,
        Mark::Structure { .. } => false,
        Mark::Line { .. } => false,
    }
}

// Returns the name of a line.
fn name_in<'a>(source: &Source<'a>, from: usize, to: usize) -> &'a [u8]
    ensures { result.now ≡ name_in (source_of source.now) from to }
{
    after_offset(part_at(from, to, source.text))
}

// Returns whether two names are the same, but for white space at their ends.
fn is_same_name(name: &[u8], other: &[u8]) -> bool
    ensures { result ≡ is_same_name name.now other.now }
{
    let mut name_left = name;
    let mut other_left = other;
    'characters: while let [character, more @ ..] = name_left {
        match other_left {
            [wanted, others @ ..] if character == wanted => {
                name_left = more;
                other_left = others;
            }
            _ => return are_white(name_left) && are_white(other_left),
        }
    }
    are_white(other_left)
}

// Returns whether marks of two texts say the same: structures of one type, or lines with one name, at one offset.
fn is_same(source: &Source, shown: &Source, one: &Mark, other: &Mark) -> bool
    ensures { result ≡ is_same (source_of source.now) (source_of shown.now) one.now other.now }
{
    match (*one, *other) {
        (
            Mark::Structure { at, from, to },
            Mark::Structure {
                at: start,
                from: since,
                to: until,
            },
        ) => {
            let heading = part_at(from, to, source.text);
            let wanted = part_at(since, until, shown.text);
            at == start
                && is_same_number(
                    heading_number(&source.form, heading),
                    heading_number(&shown.form, wanted),
                )
        }
        (
            Mark::Line { at, from, to },
            Mark::Line {
                at: start,
                from: since,
                to: until,
            },
        ) => {
            at == start && is_same_name(name_in(source, from, to), name_in(shown, since, until))
        }
        _ => false,
    }
}

/// The bytes for which a line without a name stands: from its offset to that of the next line.
#[derive(Clone, Copy)]
pub struct Range {
    start: usize,
    end: usize,
}

// Returns whether an offset is within bytes.
fn is_within(at: usize, covered: Range) -> bool
    ensures { result ≡ is_within at (range_of covered) }
{
    covered.start <= at && at < covered.end
}

// Returns whether a mark is one of the lines for which a line of bytes stands: it says something else, and stands within these
// bytes.
fn is_passed(source: &Source, shown: &Source, one: &Mark, covered: Range, other: &Mark) -> bool
    ensures { result ≡ is_passed (source_of source.now) (source_of shown.now) one.now (range_of covered) other.now }
{
    is_reference(other)
        || (!is_same(source, shown, one, other) && is_within(mark_at(other), covered))
}

// Returns the marks without those at the front that are passed.
fn past<'a>(
    source: &Source,
    shown: &Source,
    one: &Mark,
    covered: Range,
    others: &'a [Mark],
) -> &'a [Mark]
    ensures { result.now ≡ past (source_of source.now) (source_of shown.now) one.now (range_of covered) others.now }
{
    let mut rest = others;
    'marks: while let [other, more @ ..] = rest {
        if !is_passed(source, shown, one, covered, other) {
            return rest;
        }
        rest = more;
    }
    rest
}

// Returns the marks after those within bytes for which a line stands.
fn rest_after(covered: Range, others: &[Mark]) -> &[Mark]
    ensures { result.now ≡ rest_after (range_of covered) others.now }
{
    let mut rest = others;
    'marks: while let [other, more @ ..] = rest {
        if !is_reference(other) && !is_within(mark_at(other), covered) {
            return rest;
        }
        rest = more;
    }
    rest
}

// Returns whether a mark says the same as the first of others, and what it marks ends at the same offset.
fn begins_same(
    source: &Source,
    shown: &Source,
    size: usize,
    end: usize,
    one: &Mark,
    others: &[Mark],
) -> bool
    ensures { result ≡ begins_same (source_of source.now) (source_of shown.now) size end one.now others.now }
{
    match others {
        [other, more @ ..] => is_same(source, shown, one, other) && end == next_line(more, size),
        [] => false,
    }
}

// Returns whether a mark is a line of bytes without a name.
fn has_no_name(source: &Source, mark: &Mark) -> bool
    ensures { result ≡ has_no_name (source_of source.now) mark.now }
{
    match *mark {
        Mark::Line { from, to, .. } => is_nameless(name_in(source, from, to)),
        Mark::Structure { .. } => false,
        Mark::Reference { .. } => false,
    }
}

// Returns whether a field that was found is one of any number of bytes.
fn is_open(found: Option<(usize, Field)>) -> bool
    ensures { result ≡ is_open (found_of found) }
{
    match found {
        Some((_, field)) => field.size == 0 && field.width == 1,
        None => false,
    }
}

// Returns whether a mark is a line of no bytes, whose field may have none.
fn is_empty(source: &Source, mark: &Mark, end: usize) -> bool
    ensures { result ≡ is_empty (source_of source.now) mark.now end }
{
    match *mark {
        Mark::Line { at, from, to } => {
            end == at && is_open(find_anywhere(name_in(source, from, to), &source.form))
        }
        Mark::Structure { .. } => false,
        Mark::Reference { .. } => false,
    }
}

// Returns the bytes for which the last line without a name stands.
fn cover(source: &Source, one: &Mark, end: usize, covered: Range) -> Range
    ensures { range_of result ≡ cover (source_of source.now) one.now end (range_of covered) }
{
    if has_no_name(source, one) {
        let start = mark_at(one);
        Range { start, end }
    } else {
        covered
    }
}

// Returns the name of the structures of a type, or nothing.
fn name_of_number(table: &TableForm, number: Option<u64>) -> &'static str
    ensures { result.now ≡ name_of_number (all_forms table.now) number }
{
    match number {
        Some(number) => match find_form(number as usize, table) {
            Some(form) => form.name,
            None => "",
        },
        None => "",
    }
}

// Returns the name of a field that was found, or nothing.
fn name_found(found: Option<(usize, Field)>) -> &'static str
    ensures { result.now ≡ name_found (found_of found) }
{
    match found {
        Some((_, field)) => field.name,
        None => "",
    }
}

// Returns the fault of a range of the text, in whose place the marks of the other text have to stand.
fn wanted_at(shown: &Source, from: usize, to: usize, others: &[Mark], end: usize) -> Fault
    ensures { fault_of result ≡ wanted_at (source_of shown.now) from to others.now end }
{
    match others {
        [
            Mark::Structure {
                from: since,
                to: until,
                ..
            },
            ..
        ] => {
            let number = heading_number(&shown.form, part_at(*since, *until, shown.text));
            Fault::next(from, to, name_of_number(&shown.form, number), 0)
        }
        [
            Mark::Line {
                at,
                from: since,
                to: until,
            },
            more @ ..,
        ] => {
            let name = name_in(shown, *since, *until);
            if is_nameless(name) {
                return Fault::new(from, to, Wanted::Nameless);
            }
            let size = next_line(more, end).saturating_sub(*at);
            Fault::next(from, to, name_found(find_anywhere(name, &shown.form)), size)
        }
        _ => Fault::new(from, to, Wanted::End),
    }
}

// Returns the fault of a mark that ends at an offset. If a line of the same field has to stand there, the fault is its number of
// bytes.
fn wanted_for(
    source: &Source,
    shown: &Source,
    one: &Mark,
    end: usize,
    others: &[Mark],
    size: usize,
) -> Fault
    ensures { fault_of result
        ≡ wanted_for (source_of source.now) (source_of shown.now) one.now end others.now size }
{
    match (*one, others) {
        (
            Mark::Line { at, from, to },
            [
                Mark::Line {
                    at: start,
                    from: since,
                    to: until,
                },
                more @ ..,
            ],
        ) if at == *start
            && is_same_name(name_in(source, from, to), name_in(shown, *since, *until)) => {
            let field = find_anywhere(name_in(shown, *since, *until), &shown.form);
            let width = next_line(more, size).saturating_sub(at);
            Fault::wide(from, to, name_found(field), width, end.saturating_sub(at))
        }
        (Mark::Structure { from, to, .. }, _) => wanted_at(shown, from, to, others, size),
        (Mark::Line { from, to, .. }, _) => wanted_at(shown, from, to, others, size),
        (Mark::Reference { from, to, .. }, _) => wanted_at(shown, from, to, others, size),
    }
}

// Returns the fault of a line with a name, whose digits stand in other groups than those of the first of others, which says the
// same. So a number isn't in several groups, whose bytes would be in the other order, and bytes aren't in one.
fn misgrouped(source: &Source, shown: &Source, one: &Mark, others: &[Mark]) -> Option<Fault>
    ensures { fault_in result ≡ misgrouped (source_of source.now) (source_of shown.now) one.now others.now }
{
    match (*one, others) {
        (
            Mark::Line { from, to, .. },
            [
                Mark::Line {
                    from: since,
                    to: until,
                    ..
                },
                ..
            ],
        ) => {
            let wanted = groups_at(*until, shown.text);
            let name = name_in(source, from, to);
            if is_nameless(name) || are_same_groups(groups_at(to, source.text), wanted) {
                return None;
            }
            let field = find_anywhere(name_in(shown, *since, *until), &shown.form);
            Some(Fault::grouped(from, to, name_found(field), largest_of(wanted)))
        }
        _ => None,
    }
}

// Returns the fault of the end of a text, after which the other text has these marks.
fn wanted_after(shown: &Source, others: &[Mark], end: usize) -> Option<Fault>
    ensures { fault_in result ≡ wanted_after (source_of shown.now) others.now end }
{
    if others.is_empty() {
        None
    } else {
        Some(wanted_at(shown, 0, 0, others, end))
    }
}

// Compares a mark of a text with those of the other text, and returns what is left: the bytes for which the last line without a
// name stands, and the marks of the other text.
fn compare<'a>(
    source: &Source,
    shown: &Source,
    end: usize,
    size: usize,
    one: &Mark,
    covered: Range,
    others: &'a [Mark],
) -> Result<(Range, &'a [Mark]), Fault>
    ensures { (marks : List mark.Mark) → next_line marks size ≡ end
        → MatchResult result
        (λ left. differ (source_of source.now) (source_of shown.now) size (range_of covered) (one.now ∷ marks) others.now
        ≡ differ (source_of source.now) (source_of shown.now) size (range_of left.0) marks left.1.now)
        (λ wrong. differ (source_of source.now) (source_of shown.now) size (range_of covered) (one.now ∷ marks) others.now
        ≡ Some (fault_of wrong)) }
{
    if is_reference(one) {
        return Ok((covered, others));
    }
    let rest = past(source, shown, one, covered, others);
    let next = cover(source, one, end, covered);
    if begins_same(source, shown, size, end, one, rest) {
        return match misgrouped(source, shown, one, rest) {
            Some(fault) => Err(fault),
            None => Ok((next, &rest[1..])),
        };
    }
    if has_no_name(source, one) || is_empty(source, one, end) {
        return Ok((next, rest));
    }
    Err(wanted_for(source, shown, one, end, rest, size))
}

// Returns what is wrong with the first mark of a text that the other text doesn't have in its place. Both have tables of this
// size.
fn differ(
    source: &Source,
    shown: &Source,
    size: usize,
    marks: &[Mark],
    others: &[Mark],
) -> Option<Fault>
    ensures { fault_in result ≡ differ (source_of source.now) (source_of shown.now) size no_bytes marks.now others.now }
{
    let mut covered = Range { start: 0, end: 0 };
    let mut rest = others;
    'marks: for i in 0..marks.len() {
        let end = next_line(&marks[i + 1..], size);
        match compare(source, shown, end, size, &marks[i], covered, rest) {
            Ok((next, left)) => {
                covered = next;
                rest = left;
            }
            Err(fault) => return Some(fault),
        }
    }
    wanted_after(shown, rest_after(covered, rest), size)
}

/// Returns what is wrong with the lines of a text, which was made into these bytes, if the text that shows them has other lines.
pub fn difference(
    alloc: Global,
    walk: Option<Walk>,
    source: &Source,
    draft: &Draft,
    bytes: &[u8],
) -> Result<Option<Fault>, MakeError>
    ensures { Gives fault_in result (difference walk (source_of source.now) (drafted draft.now) bytes.now) }
{
    let text = show_by(alloc, &source.form, walk, bytes)?;
    let items = read_text(alloc, text.as_bytes())?;
    let shown = Source {
        form: source.form,
        kind: source.kind,
        text: text.as_bytes(),
    };
    let other = draft_of(alloc, &shown, &items)?;
    Ok(differ(source, &shown, bytes.len(), &draft.marks, &other.marks))
}
