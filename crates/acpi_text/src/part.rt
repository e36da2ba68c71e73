//! The lines of the parts of a structure. A function whose name begins with `push` adds to a text, and returns how many bytes
//! its lines show.

ghost use Rattle.std.specs.Prelude.{◌≡◌, ℕ, ◌+◌, ◌<◌, ◌≤◌, ◌^◌, [], ◌∷◌, ◌++◌, length, drop, OnOk, IfOk, string_bytes};
ghost use Rattle.std.specs.List.{slice_range};
ghost use Rattle.acpi_base.specs.Look as looks;
ghost use Rattle.acpi_text.specs.Form.{number_at, count_of, size_between, repeated, group_slots, find_choice, choice_slots};
ghost use Rattle.acpi_text.specs.Form.{optional_slots, part_slots, parts_slots};
ghost use Rattle.acpi_text.specs.Slot.{field, field_of, upto, slots_text, Showed};

use crate::form::{Choice, Count, Part};
use crate::line::LineForm;
use crate::slot::{push_field, push_heading, push_nameless, push_rows};
use acpi_base::row::{Look, Row};
use acpi_base::walk::Place;
use std::alloc::AllocError;

/// Returns the number in a field of a structure, or 0 if the structure ends before the field does.
pub fn number_at(place: Place, whole: &[u8]) -> usize
    ensures { result ≡ number_at place whole.now }
{
    if place.end() <= whole.len() {
        place.number(whole)
    } else {
        0
    }
}

/// Returns how many entries a list has at most.
pub fn count_of(count: Count, whole: &[u8]) -> usize
    ensures { result ≡ count_of count whole.now }
{
    match count {
        Count::Field(place) => number_at(place, whole),
        Count::Rest => whole.len(),
        Count::Once => 1,
    }
}

/// Returns how many bytes there are from the offset in one field up to that in another, or up to the end of the structure if the
/// other isn't past the first.
pub fn size_between(from: Place, to: Place, whole: &[u8]) -> usize
    ensures { result ≡ size_between from to whole.now }
{
    let begin = number_at(from, whole);
    let next = number_at(to, whole);
    let end = if begin < next { next } else { whole.len() };
    end.saturating_sub(begin)
}

/// Returns the rows from one index on and before another, as far as there are rows.
pub fn between(rows: &[Row], from: usize, to: usize) -> &[Row]
    ensures { result.now ≡ slice_range rows.now from to }
{
    let end = if to < rows.len() { to } else { rows.len() };
    if from < end { &rows[from..end] } else { &[] }
}

// Adds a name and the fields below it.
fn push_group(
    depth: u8,
    name: &str,
    rows: &[Row],
    offset: usize,
    bytes: &[u8],
    text: &mut String,
) -> Result<usize, AllocError>
    requires level { depth < 254 }
    requires fits { offset + length bytes.now < 2 ^ 64 }
    ensures { IfOk result
        (λ n. Showed (group_slots depth name.now rows.now) offset bytes.now (string_bytes text.old) (string_bytes text.new) n) }
{
    let none = push_heading(depth, name, offset, bytes, text)?;
    Ok(none + push_rows(depth + 1, rows, offset + none, &bytes[none..], text)?)
}

// Adds `count` such groups, or fewer if the bytes end before.
fn push_entries(
    depth: u8,
    name: &str,
    count: usize,
    rows: &[Row],
    offset: usize,
    bytes: &[u8],
    text: &mut String,
) -> Result<usize, AllocError>
    requires level { depth < 254 }
    requires fits { offset + length bytes.now < 2 ^ 64 }
    ensures { IfOk result (λ n. Showed (repeated count (group_slots depth name.now rows.now))
        offset bytes.now (string_bytes text.old) (string_bytes text.new) n) }
{
    let mut at = 0;
    let mut done = 0;
    'entries: while done < count && at < bytes.len() {
        at += push_group(depth, name, rows, offset + at, &bytes[at..], text)?;
        done += 1;
    }
    Ok(at)
}

// Returns the form of a line of numbers.
fn numbers_form(depth: u8, name: &str, width: usize, count: usize) -> LineForm<'_>
    ensures { field_of result ≡ field depth name.now looks.number width count }
{
    LineForm {
        depth,
        name,
        look: Look::Number,
        width,
        count,
    }
}

// Returns the form of a line of bytes.
fn bytes_form(depth: u8, name: &str, count: usize) -> LineForm<'_>
    ensures { field_of result ≡ field depth name.now looks.text 1 count }
{
    LineForm {
        depth,
        name,
        look: Look::Text,
        width: 1,
        count,
    }
}

// Adds such a field `count` times, or fewer if the bytes end before.
fn push_fields(
    form: &LineForm<'_>,
    count: usize,
    offset: usize,
    bytes: &[u8],
    text: &mut String,
) -> Result<usize, AllocError>
    requires { offset + length bytes.now < 2 ^ 64 }
    ensures { IfOk result (λ n. Showed (repeated count (field_of form.now ∷ [])) offset bytes.now
        (string_bytes text.old) (string_bytes text.new) n) }
{
    let mut at = 0;
    let mut done = 0;
    'fields: while done < count && at < bytes.len() {
        at += push_field(form, offset + at, &bytes[at..], text)?;
        done += 1;
    }
    Ok(at)
}

// Adds a field of the bytes up to the offset `end` of a structure, of which `at` bytes were shown.
fn push_until(
    depth: u8,
    name: &str,
    end: usize,
    at: usize,
    offset: usize,
    bytes: &[u8],
    text: &mut String,
) -> Result<usize, AllocError>
    requires { offset + length bytes.now < 2 ^ 64 }
    ensures { (start : ℕ) → offset ≡ start + at
        → IfOk result
        (λ n. Showed (upto depth name.now (start + end) ∷ []) offset bytes.now
        (string_bytes text.old) (string_bytes text.new) n) }
{
    if end <= at {
        return Ok(0);
    }
    push_field(&bytes_form(depth, name, end - at), offset, bytes, text)
}

/// Returns the choice with a number.
pub fn find_choice(number: usize, choices: &[Choice]) -> Option<Choice>
    ensures { result ≡ find_choice number choices.now }
{
    for choice in choices {
        if number == choice.number {
            return Some(*choice);
        }
    }
    None
}

// Adds the fields of a choice. Without a choice, it adds all bytes without names.
fn push_choice(
    depth: u8,
    choice: Option<Choice>,
    offset: usize,
    bytes: &[u8],
    text: &mut String,
) -> Result<usize, AllocError>
    requires level { depth < 254 }
    requires fits { offset + length bytes.now < 2 ^ 64 }
    ensures { IfOk result
        (λ n. Showed (choice_slots depth choice) offset bytes.now (string_bytes text.old) (string_bytes text.new) n) }
{
    match choice {
        Some(choice) => push_group(depth, choice.name, choice.rows, offset, bytes, text),
        None => {
            push_nameless(offset, bytes, text)?;
            Ok(bytes.len())
        }
    }
}

// Adds the fields of a choice. Without a choice, it adds nothing.
fn push_optional(
    depth: u8,
    choice: Option<Choice>,
    offset: usize,
    bytes: &[u8],
    text: &mut String,
) -> Result<usize, AllocError>
    requires level { depth < 254 }
    requires fits { offset + length bytes.now < 2 ^ 64 }
    ensures { IfOk result
        (λ n. Showed (optional_slots depth choice) offset bytes.now (string_bytes text.old) (string_bytes text.new) n) }
{
    match choice {
        Some(choice) => push_group(depth, choice.name, choice.rows, offset, bytes, text),
        None => Ok(0),
    }
}

// Adds a part of the structure that begins at the offset `start`, and of which `at` bytes were shown.
fn push_part(
    depth: u8,
    part: &Part,
    start: usize,
    whole: &[u8],
    at: usize,
    text: &mut String,
) -> Result<usize, AllocError>
    requires level { depth < 254 }
    requires within { at ≤ length whole.now }
    requires fits { start + length whole.now < 2 ^ 64 }
    ensures { IfOk result
        (λ n. Showed (part_slots depth start whole.now part.now) (start + at) (drop at whole.now)
        (string_bytes text.old) (string_bytes text.new) n) }
{
    let (_, bytes) = whole.split_at(at);
    let offset = start + at;
    match *part {
        Part::Fields(rows) => push_rows(depth, rows, offset, bytes, text),
        Part::Between(rows, from, to) => {
            push_rows(depth, between(rows, from, to), offset, bytes, text)
        }
        Part::Group(name, rows) => push_group(depth, name, rows, offset, bytes, text),
        Part::Entries(name, count, rows) => {
            push_entries(
                depth,
                name,
                count_of(count, whole),
                rows,
                offset,
                bytes,
                text,
            )
        }
        Part::Numbers(name, width, count) => {
            let form = numbers_form(depth, name, width, 1);
            push_fields(&form, count_of(count, whole), offset, bytes, text)
        }
        Part::Matrix(name, width, rows, columns) => {
            let columns = number_at(columns, whole);
            let rows = if columns == 0 {
                0
            } else {
                number_at(rows, whole)
            };
            let form = numbers_form(depth, name, width, columns);
            push_fields(&form, rows, offset, bytes, text)
        }
        Part::Bytes(name, count) => {
            let form = bytes_form(depth, name, number_at(count, whole));
            push_field(&form, offset, bytes, text)
        }
        Part::Until(name, end) => push_until(
            depth,
            name,
            number_at(end, whole),
            at,
            offset,
            bytes,
            text,
        ),
        Part::Chosen(by, choices) => {
            push_choice(
                depth,
                find_choice(number_at(by, whole), choices),
                offset,
                bytes,
                text,
            )
        }
        Part::BySize(from, to, choices) => {
            push_optional(
                depth,
                find_choice(size_between(from, to, whole), choices),
                offset,
                bytes,
                text,
            )
        }
    }
}

/// Adds the parts, at a level, of the structure that begins at the offset `start`, and then the bytes that are left, without
/// names.
pub fn push_parts(
    depth: u8,
    parts: &[Part],
    start: usize,
    whole: &[u8],
    text: &mut String,
) -> Result<(), AllocError>
    requires level { depth < 254 }
    requires fits { start + length whole.now < 2 ^ 64 }
    ensures { OnOk result (string_bytes text.new ≡ string_bytes text.old
        ++ slots_text start (parts_slots depth start whole.now parts.now) whole.now) }
{
    let mut at = 0;
    'parts: for part in parts {
        at += push_part(depth, part, start, whole, at, text)?;
    }
    let (_, rest) = whole.split_at(at);
    push_nameless(start + at, rest, text)
}
