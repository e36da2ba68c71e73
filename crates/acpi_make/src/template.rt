//! A text of a form for a start. A function whose name begins with `push` adds to a text.

ghost use Rattle.std.specs.Prelude.{◌≡◌, ◌+◌, ◌*◌, ◌<◌, ◌∷◌, ◌++◌, OnOk, IfOk, string_bytes, codes, ℕ, MatchOption};
ghost use Rattle.acpi_base.specs.Look.{words_of, part_of, bits_of, look_of};
ghost use Rattle.acpi_text.specs.Label.{label};
ghost use Rattle.acpi_text.specs.Line.{spaces};
ghost use Rattle.acpi_make.specs.Template.{is_among, times, more_names, names, part_names, more_parts, all_parts, hint};
ghost use Rattle.acpi_make.specs.Template.{preset_text, zeros, value_text};
ghost use Rattle.acpi_make.specs.Template.{field_line, title_line, row_line, offset_after, plain_lines, address_lines};
ghost use Rattle.acpi_make.specs.Template.{row_lines, rows_lines, rows_end, choice_lines, choice_end, part_lines, part_end};
ghost use Rattle.acpi_make.specs.Template.{parts_lines, place_at, size_at, counted_at, count_at, counts_at};
ghost use Rattle.acpi_make.specs.Template.{inner_size_at, inner_form_lines, inner_forms_lines, inner_lists_lines, inner_lines};
ghost use Rattle.acpi_make.specs.Template.{lists_counts_at, inner_counts_at, structure_known};
ghost use Rattle.acpi_make.specs.Template.{structure_lines, structures_lines, structures_text, sums_at, walk_at, table_own};
ghost use Rattle.acpi_make.specs.Template.{template_text};
ghost use Rattle.acpi_make.specs.Template.{stated_text, ones_at, all_ones};
ghost use Rattle.acpi_make.specs.Template as template;
ghost use Rattle.acpi_make.specs.TemplateKnown.{known_of};
ghost use Rattle.acpi_text.specs.Structure.{all_forms};

use crate::complete::length_own;
use crate::draft::is_nameless;
use crate::entry::row_field;
use crate::file_kind::FileKind;
use acpi_base::gas::GENERIC_ADDRESS;
use acpi_base::row::{Bits, Look, Row, Word};
use acpi_base::walk::{Place, Sizes, Walk};
use acpi_text::form::{
    Choice, Count, Inner, InnerForm, InnerList, InnerSize, Part, StructureForm, TableForm,
};
use acpi_text::hex::push_bytes;
use acpi_text::part::between;
use acpi_text::space::{push_label, push_level};
use std::alloc::{AllocError, Global};

// Returns whether a number is among others.
fn is_among(number: usize, others: &[usize]) -> bool
    ensures { result ≡ is_among number others.now }
{
    'others: for other in others {
        if number == *other {
            return true;
        }
    }
    false
}

// Adds a text this many times.
fn push_times(count: usize, one: &str, text: &mut String) -> Result<(), AllocError>
    ensures { OnOk result (string_bytes text.new ≡ string_bytes text.old ++ times count one.now) }
{
    let mut left = count;
    'times: while left > 0 {
        text.push_str(one)?;
        left -= 1;
    }
    Ok(())
}

// Adds names, with a semicolon before each.
fn push_more_names(words: &[Word], text: &mut String) -> Result<(), AllocError>
    ensures { OnOk result (string_bytes text.new ≡ string_bytes text.old ++ more_names (words_of words.now)) }
{
    'words: for word in words {
        text.push_str("; ")?;
        push_label(word.1, text)?;
    }
    Ok(())
}

// Adds names, with semicolons between them.
fn push_names(words: &[Word], text: &mut String) -> Result<(), AllocError>
    ensures { OnOk result (string_bytes text.new ≡ string_bytes text.old ++ names (words_of words.now)) }
{
    let Some((word, others)) = words.split_first() else {
        return Ok(());
    };
    push_label(word.1, text)?;
    push_more_names(others, text)
}

// Adds what bits can be.
fn push_part_names(part: &Bits, text: &mut String) -> Result<(), AllocError>
    ensures { OnOk result (string_bytes text.new ≡ string_bytes text.old ++ part_names (part_of part.now)) }
{
    match *part {
        Bits::Flag(_, name) => push_label(name, text),
        Bits::OneOf(_, words) => push_names(words, text),
        Bits::Number(_, _, name) => push_label(name, text),
    }
}

// Adds what bits can be, with a bar before each.
fn push_more_parts(parts: &[Bits], text: &mut String) -> Result<(), AllocError>
    ensures { OnOk result (string_bytes text.new ≡ string_bytes text.old ++ more_parts (bits_of parts.now)) }
{
    'parts: for part in parts {
        text.push_str(" | ")?;
        push_part_names(part, text)?;
    }
    Ok(())
}

// Adds what bits can be, with bars between them.
fn push_all_parts(parts: &[Bits], text: &mut String) -> Result<(), AllocError>
    ensures { OnOk result (string_bytes text.new ≡ string_bytes text.old ++ all_parts (bits_of parts.now)) }
{
    let Some((part, others)) = parts.split_first() else {
        return Ok(());
    };
    push_part_names(part, text)?;
    push_more_parts(others, text)
}

// Adds what a value can be.
fn push_hint(look: Look, text: &mut String) -> Result<(), AllocError>
    ensures { OnOk result (string_bytes text.new ≡ string_bytes text.old ++ hint (look_of look)) }
{
    match look {
        Look::Flags(parts) => {
            text.push_str("  // ")?;
            push_all_parts(parts, text)
        }
        Look::OneOf(words) => {
            text.push_str("  // ")?;
            push_names(words, text)
        }
        _ => Ok(()),
    }
}

// What a template has in place of zeros: the signature at offset 0, question marks at the offsets of numbers that are worked out,
// and 1 at those of other numbers of what stands once.
#[derive(Clone, Copy)]
struct Known<'a> {
    signature: &'a str,
    own: &'a [usize],
    ones: &'a [usize],
}

// Adds a number of at most eight bytes, or else zeros.
#[tactic(auto, using(acpi_base::proofs::Values::le_take))]
fn push_preset(width: usize, value: u64, text: &mut String) -> Result<(), AllocError>
    ensures { OnOk result (string_bytes text.new ≡ string_bytes text.old ++ preset_text width value) }
{
    if width <= 8 {
        push_bytes(&value.to_le_bytes()[..width], text)
    } else {
        push_times(width, "00", text)
    }
}

// Adds the value of a row for a start.
fn push_zeros(row: &Row, text: &mut String) -> Result<(), AllocError>
    ensures { OnOk result (string_bytes text.new ≡ string_bytes text.old ++ zeros row.now) }
{
    match *row {
        Row::Preset(_, width, value) => {
            text.push_str(" ")?;
            push_preset(width, value, text)
        }
        Row::Number(_, width)
        | Row::Hex(_, width)
        | Row::Reference(_, width)
        | Row::Flags(_, width, _)
        | Row::OneOf(_, width, _) => {
            text.push_str(" ")?;
            push_times(width, "00", text)
        }
        Row::Bytes(_, count) | Row::Text(_, count) | Row::Reserved(count) => {
            push_times(count, " 00", text)
        }
        Row::Uuid(_) => push_times(16, " 00", text),
        Row::Register(_) => push_times(12, " 00", text),
    }
}

// Adds the value of a row that isn't worked out.
fn push_stated(known: &Known, at: usize, row: &Row, text: &mut String) -> Result<(), AllocError>
    ensures { OnOk result (string_bytes text.new ≡ string_bytes text.old ++ stated_text (known_of known.now) at row.now) }
{
    if is_among(at, known.ones) {
        text.push_str(" ")?;
        push_preset(row.width(), 1, text)
    } else {
        push_zeros(row, text)
    }
}

// Adds the value of a row at an offset.
fn push_value(known: &Known, at: usize, row: &Row, text: &mut String) -> Result<(), AllocError>
    ensures { OnOk result (string_bytes text.new ≡ string_bytes text.old ++ value_text (known_of known.now) at row.now) }
{
    if at == 0 && !known.signature.is_empty() {
        text.push_str(" \"")?;
        text.push_str(known.signature)?;
        text.push_str("\"")
    } else if is_among(at, known.own) {
        text.push_str(" ")?;
        push_times(row.width(), "??", text)
    } else {
        push_stated(known, at, row, text)
    }
}

// Adds what a line begins with: spaces, and a name.
fn push_name(depth: u8, name: &str, text: &mut String) -> Result<(), AllocError>
    ensures { OnOk result (string_bytes text.new ≡ string_bytes text.old
        ++ (spaces (2 * depth) ++ (codes "  " ++ label name.now))) }
{
    push_level(depth, text)?;
    text.push_str("  ")?;
    push_label(name, text)
}

// Adds the line of a name over fields.
fn push_title(depth: u8, name: &str, text: &mut String) -> Result<(), AllocError>
    ensures { OnOk result (string_bytes text.new ≡ string_bytes text.old ++ title_line depth name.now) }
{
    push_name(depth, name, text)?;
    text.push_str("\n")
}

// Adds the line of a row at an offset.
fn push_row_line(
    depth: u8,
    known: &Known,
    at: usize,
    row: &Row,
    text: &mut String,
) -> Result<(), AllocError>
    ensures { OnOk result (string_bytes text.new ≡ string_bytes text.old ++ row_line depth (known_of known.now) at row.now) }
{
    let field = row_field(row);
    push_name(depth, field.name, text)?;
    text.push_str(":")?;
    push_value(known, at, row, text)?;
    push_hint(field.look, text)?;
    text.push_str("\n")
}

// Returns the offset after a field.
fn offset_after(at: usize, width: usize) -> usize
    ensures { result ≡ offset_after at width }
{
    if at < 1 << 32 && width < 1 << 32 {
        at + width
    } else {
        at
    }
}

// Adds the lines of rows of which none is a register.
fn push_plain(
    depth: u8,
    known: &Known,
    at: usize,
    rows: &[Row],
    text: &mut String,
) -> Result<(), AllocError>
    ensures { OnOk result (string_bytes text.new ≡ string_bytes text.old ++ plain_lines depth (known_of known.now) at rows.now) }
{
    let mut offset = at;
    'rows: for row in rows {
        push_row_line(depth, known, offset, row, text)?;
        offset = offset_after(offset, row.width());
    }
    Ok(())
}

// Nothing but zeros.
const NOTHING: Known<'static> = Known {
    signature: "",
    own: &[],
    ones: &[],
};

// Adds the fields of a register's address.
fn push_address(depth: u8, text: &mut String) -> Result<(), AllocError>
    ensures { OnOk result (string_bytes text.new ≡ string_bytes text.old ++ address_lines depth) }
{
    push_plain(depth, &NOTHING, 1, &GENERIC_ADDRESS, text)
}

// Returns the name of a row that is a register.
fn register_name(row: &Row) -> Option<&'static str>
    ensures { (depth : ℕ) (known : template.Known) (at : ℕ)
        → MatchOption result (row_lines depth known at row.now ≡ row_line depth known at row.now)
        (λ name. row_lines depth known at row.now ≡ title_line depth name.now ++ address_lines (depth + 1)) }
{
    match *row {
        Row::Register(name) => Some(name),
        _ => None,
    }
}

// Adds the lines of a row.
fn push_row(
    depth: u8,
    known: &Known,
    at: usize,
    row: &Row,
    text: &mut String,
) -> Result<(), AllocError>
    requires { depth < 255 }
    ensures { OnOk result (string_bytes text.new ≡ string_bytes text.old ++ row_lines depth (known_of known.now) at row.now) }
{
    match register_name(row) {
        Some(name) => {
            push_title(depth, name, text)?;
            push_address(depth + 1, text)
        }
        None => push_row_line(depth, known, at, row, text),
    }
}

// Adds the lines of rows.
fn push_rows(
    depth: u8,
    known: &Known,
    at: usize,
    rows: &[Row],
    text: &mut String,
) -> Result<(), AllocError>
    requires { depth < 255 }
    ensures { OnOk result (string_bytes text.new ≡ string_bytes text.old ++ rows_lines depth (known_of known.now) at rows.now) }
{
    let mut offset = at;
    'rows: for row in rows {
        push_row(depth, known, offset, row, text)?;
        offset = offset_after(offset, row.width());
    }
    Ok(())
}

// Returns the offset after rows.
fn rows_end(at: usize, rows: &[Row]) -> usize
    ensures { result ≡ rows_end at rows.now }
{
    let mut offset = at;
    'rows: for row in rows {
        offset = offset_after(offset, row.width());
    }
    offset
}

// Adds a name over the lines of rows.
fn push_group(
    depth: u8,
    known: &Known,
    at: usize,
    name: &str,
    rows: &[Row],
    text: &mut String,
) -> Result<(), AllocError>
    requires { depth < 254 }
    ensures { OnOk result (string_bytes text.new ≡ string_bytes text.old
        ++ (title_line depth name.now ++ rows_lines (depth + 1) (known_of known.now) at rows.now)) }
{
    push_title(depth, name, text)?;
    push_rows(depth + 1, known, at, rows, text)
}

// Adds the lines of the first choice.
fn push_choice(
    depth: u8,
    known: &Known,
    at: usize,
    choices: &[Choice],
    text: &mut String,
) -> Result<(), AllocError>
    requires { depth < 254 }
    ensures { OnOk result (string_bytes text.new
        ≡ string_bytes text.old ++ choice_lines depth (known_of known.now) at choices.now) }
{
    match choices.first() {
        Some(choice) if !choice.rows.is_empty() => {
            push_group(depth, known, at, choice.name, choice.rows, text)
        }
        _ => Ok(()),
    }
}

fn choice_end(at: usize, choices: &[Choice]) -> usize
    ensures { result ≡ choice_end at choices.now }
{
    match choices.first() {
        Some(choice) => rows_end(at, choice.rows),
        None => at,
    }
}

// Adds the line of a number of a list or of a matrix.
fn push_number(depth: u8, name: &str, width: usize, text: &mut String) -> Result<(), AllocError>
    ensures { OnOk result (string_bytes text.new ≡ string_bytes text.old
        ++ field_line depth name.now (32 ∷ times width (codes "00"))) }
{
    push_name(depth, name, text)?;
    text.push_str(": ")?;
    push_times(width, "00", text)?;
    text.push_str("\n")
}

// Adds the line of bytes of which there are none.
fn push_empty(depth: u8, name: &str, text: &mut String) -> Result<(), AllocError>
    ensures { OnOk result (string_bytes text.new ≡ string_bytes text.old ++ field_line depth name.now (codes " \"\"")) }
{
    push_name(depth, name, text)?;
    text.push_str(": \"\"\n")
}

// Adds the lines of a part.
fn push_part(
    depth: u8,
    known: &Known,
    at: usize,
    part: &Part,
    text: &mut String,
) -> Result<(), AllocError>
    requires { depth < 254 }
    ensures { OnOk result (string_bytes text.new ≡ string_bytes text.old ++ part_lines depth (known_of known.now) at part.now) }
{
    match *part {
        Part::Fields(rows) => push_rows(depth, known, at, rows, text),
        Part::Between(rows, from, to) => {
            push_rows(depth, known, at, between(rows, from, to), text)
        }
        Part::Group(name, rows) => push_group(depth, known, at, name, rows, text),
        Part::Entries(name, _, rows) => push_group(depth, &NOTHING, at, name, rows, text),
        Part::Numbers(name, width, _) => push_number(depth, name, width, text),
        Part::Matrix(name, width, _, _) => push_number(depth, name, width, text),
        Part::Bytes(name, _) => push_empty(depth, name, text),
        Part::Until(name, _) if is_nameless(name.as_bytes()) => Ok(()),
        Part::Until(name, _) => push_empty(depth, name, text),
        Part::Chosen(_, choices) | Part::BySize(_, _, choices) => push_choice(
            depth, known, at, choices, text,
        ),
    }
}

// Returns the offset after a part.
fn part_end(at: usize, part: &Part) -> usize
    ensures { result ≡ part_end at part.now }
{
    match *part {
        Part::Fields(rows) => rows_end(at, rows),
        Part::Between(rows, from, to) => rows_end(at, between(rows, from, to)),
        Part::Group(_, rows) => rows_end(at, rows),
        Part::Entries(_, _, rows) => rows_end(at, rows),
        Part::Numbers(_, width, _) => offset_after(at, width),
        Part::Matrix(_, width, _, _) => offset_after(at, width),
        Part::Bytes(_, _) => at,
        Part::Until(_, _) => at,
        Part::Chosen(_, choices) | Part::BySize(_, _, choices) => choice_end(at, choices),
    }
}

// Adds the lines of parts.
fn push_parts(
    depth: u8,
    known: &Known,
    at: usize,
    parts: &[Part],
    text: &mut String,
) -> Result<(), AllocError>
    requires { depth < 254 }
    ensures { OnOk result (string_bytes text.new ≡ string_bytes text.old ++ parts_lines depth (known_of known.now) at parts.now) }
{
    let mut offset = at;
    'parts: for part in parts {
        push_part(depth, known, offset, part, text)?;
        offset = part_end(offset, part);
    }
    Ok(())
}

// Adds the offset of a field, if there is one.
fn push_place(place: Place, own: &mut Vec<usize>) -> Result<(), AllocError>
    ensures { OnOk result (own.new.items ≡ own.old.items ++ place_at place) }
{
    if place.offset() < place.end() {
        own.push(place.offset())?;
    }
    Ok(())
}

fn push_size(sizes: Sizes, own: &mut Vec<usize>) -> Result<(), AllocError>
    ensures { OnOk result (own.new.items ≡ own.old.items ++ size_at sizes) }
{
    match sizes {
        Sizes::ToldAt(place) => push_place(place, own),
        Sizes::EachOf(_) => Ok(()),
        Sizes::ByType(_, _) => Ok(()),
    }
}

fn push_counted(count: Count, own: &mut Vec<usize>) -> Result<(), AllocError>
    ensures { OnOk result (own.new.items ≡ own.old.items ++ counted_at count) }
{
    match count {
        Count::Field(place) => push_place(place, own),
        Count::Rest | Count::Once => Ok(()),
    }
}

// Adds the offset of the number of a part.
fn push_count(part: &Part, own: &mut Vec<usize>) -> Result<(), AllocError>
    ensures { OnOk result (own.new.items ≡ own.old.items ++ count_at part.now) }
{
    match *part {
        Part::Entries(_, count, _) => push_counted(count, own),
        Part::Numbers(_, _, count) => push_counted(count, own),
        Part::Bytes(_, place) => push_place(place, own),
        Part::Until(_, place) => push_place(place, own),
        Part::Fields(_) | Part::Between(_, _, _) | Part::Group(_, _) => Ok(()),
        Part::Matrix(_, _, _, _) | Part::Chosen(_, _) | Part::BySize(_, _, _) => Ok(()),
    }
}

fn push_counts(parts: &[Part], own: &mut Vec<usize>) -> Result<(), AllocError>
    ensures { OnOk result (own.new.items ≡ own.old.items ++ counts_at parts.now) }
{
    'parts: for part in parts {
        push_count(part, own)?;
    }
    Ok(())
}

// Adds the offsets of the numbers of what stands once: an entry, and a matrix's row and its column.
fn push_ones(part: &Part, ones: &mut Vec<usize>) -> Result<(), AllocError>
    ensures { OnOk result (ones.new.items ≡ ones.old.items ++ ones_at part.now) }
{
    match *part {
        Part::Entries(_, count, _) => push_counted(count, ones),
        Part::Numbers(_, _, count) => push_counted(count, ones),
        Part::Matrix(_, _, rows, columns) => {
            push_place(rows, ones)?;
            push_place(columns, ones)
        }
        Part::Fields(_) | Part::Between(_, _, _) | Part::Group(_, _) => Ok(()),
        Part::Bytes(_, _) | Part::Until(_, _) => Ok(()),
        Part::Chosen(_, _) | Part::BySize(_, _, _) => Ok(()),
    }
}

// Returns the offsets of the numbers of what stands once.
fn all_ones(alloc: Global, parts: &[Part]) -> Result<Vec<usize>, AllocError>
    ensures { IfOk result (λ ones. ones.items ≡ all_ones parts.now) }
{
    let mut ones = Vec::new(alloc);
    'parts: for part in parts {
        push_ones(part, &mut ones)?;
    }
    Ok(ones)
}

// Adds the offset of the number that a structure within another has of its size.
fn push_inner_size(size: InnerSize, own: &mut Vec<usize>) -> Result<(), AllocError>
    ensures { OnOk result (own.new.items ≡ own.old.items ++ inner_size_at size) }
{
    match size {
        InnerSize::Walked(sizes) => push_size(sizes, own),
        InnerSize::Counted(_, count, _) => push_place(count, own),
        InnerSize::Rest => Ok(()),
    }
}

// Adds the lines of a structure within another.
fn push_inner_form(alloc: Global, form: &InnerForm, text: &mut String) -> Result<(), AllocError>
    ensures { OnOk result (string_bytes text.new ≡ string_bytes text.old ++ inner_form_lines form.now) }
{
    let mut own = Vec::new(alloc);
    push_inner_size(form.size, &mut own)?;
    let ones = all_ones(alloc, form.parts)?;
    let known = Known {
        signature: "",
        own: &own,
        ones: &ones,
    };
    push_title(0, form.name, text)?;
    push_parts(1, &known, 0, form.parts, text)
}

fn push_inner_forms(alloc: Global, forms: &[InnerForm], text: &mut String) -> Result<(), AllocError>
    ensures { OnOk result (string_bytes text.new ≡ string_bytes text.old ++ inner_forms_lines forms.now) }
{
    'forms: for form in forms {
        push_inner_form(alloc, form, text)?;
    }
    Ok(())
}

fn push_inner_lists(alloc: Global, lists: &[InnerList], text: &mut String) -> Result<(), AllocError>
    ensures { OnOk result (string_bytes text.new ≡ string_bytes text.old ++ inner_lists_lines lists.now) }
{
    'lists: for list in lists {
        push_inner_forms(alloc, list.forms, text)?;
    }
    Ok(())
}

// Adds the lines of structures within.
fn push_inner(alloc: Global, inner: &Inner, text: &mut String) -> Result<(), AllocError>
    ensures { OnOk result (string_bytes text.new ≡ string_bytes text.old ++ inner_lines inner.now) }
{
    match *inner {
        Inner::Nothing => Ok(()),
        Inner::Lists(_, lists) => push_inner_lists(alloc, lists, text),
    }
}

fn push_lists_counts(lists: &[InnerList], own: &mut Vec<usize>) -> Result<(), AllocError>
    ensures { OnOk result (own.new.items ≡ own.old.items ++ lists_counts_at lists.now) }
{
    'lists: for list in lists {
        push_counted(list.count, own)?;
    }
    Ok(())
}

// Adds the offsets of the numbers that the outer structure has of those within it.
fn push_inner_counts(inner: &Inner, own: &mut Vec<usize>) -> Result<(), AllocError>
    ensures { OnOk result (own.new.items ≡ own.old.items ++ inner_counts_at inner.now) }
{
    match *inner {
        Inner::Nothing => Ok(()),
        Inner::Lists(_, lists) => push_lists_counts(lists, own),
    }
}

// Returns the offsets of a structure's own numbers.
fn structure_own(
    alloc: Global,
    walk: &Walk,
    parts: &[Part],
    inner: &Inner,
) -> Result<Vec<usize>, AllocError>
    ensures { IfOk result (λ own. own.items ≡ (structure_known walk.now parts.now inner.now).own) }
{
    let mut own = Vec::new(alloc);
    push_place(walk.kind, &mut own)?;
    push_size(walk.sizes, &mut own)?;
    push_counts(parts, &mut own)?;
    push_inner_counts(inner, &mut own)?;
    Ok(own)
}

// Adds the lines of a structure.
fn push_structure(
    alloc: Global,
    walk: &Walk,
    form: &StructureForm,
    text: &mut String,
) -> Result<(), AllocError>
    ensures { OnOk result (string_bytes text.new ≡ string_bytes text.old ++ structure_lines walk.now form.now) }
{
    let own = structure_own(alloc, walk, form.parts, form.inner)?;
    let ones = all_ones(alloc, form.parts)?;
    let known = Known {
        signature: "",
        own: &own,
        ones: &ones,
    };
    push_label(form.name, text)?;
    text.push_str("\n")?;
    push_parts(0, &known, 0, form.parts, text)?;
    push_inner(alloc, form.inner, text)
}

// Adds the lines of structures.
fn push_list(
    alloc: Global,
    walk: &Walk,
    forms: &[StructureForm],
    text: &mut String,
) -> Result<(), AllocError>
    ensures { OnOk result (string_bytes text.new ≡ string_bytes text.old ++ structures_lines walk.now forms.now) }
{
    'forms: for form in forms {
        push_structure(alloc, walk, form, text)?;
    }
    Ok(())
}

// Adds the lines of the structures of a table.
fn push_structures(
    alloc: Global,
    walk: Option<Walk>,
    table: &TableForm,
    text: &mut String,
) -> Result<(), AllocError>
    ensures { OnOk result (string_bytes text.new ≡ string_bytes text.old ++ structures_text walk table.now) }
{
    let Some(walk) = walk else {
        return push_inner(alloc, table.inner, text);
    };
    push_list(alloc, &walk, table.structures, text)?;
    push_list(alloc, &walk, table.further, text)
}

// Adds the offsets of the checksums.
fn push_sums(file_kind: FileKind, own: &mut Vec<usize>) -> Result<(), AllocError>
    ensures { OnOk result (own.new.items ≡ own.old.items ++ sums_at file_kind) }
{
    match file_kind {
        FileKind::Table => {
            own.push(9)?;
            Ok(())
        }
        FileKind::Rsdp => {
            own.push(8)?;
            own.push(32)?;
            Ok(())
        }
        FileKind::Cdat => {
            own.push(5)?;
            Ok(())
        }
        FileKind::Facs | FileKind::S3pt => Ok(()),
    }
}

fn push_walk(walk: Option<Walk>, own: &mut Vec<usize>) -> Result<(), AllocError>
    ensures { OnOk result (own.new.items ≡ own.old.items ++ walk_at walk) }
{
    match walk {
        Some(walk) => {
            push_place(walk.count, own)?;
            push_place(walk.first, own)
        }
        None => Ok(()),
    }
}

// Returns the offsets of a table's own numbers.
fn table_own(
    alloc: Global,
    file_kind: FileKind,
    walk: Option<Walk>,
    form: &TableForm,
) -> Result<Vec<usize>, AllocError>
    ensures { IfOk result (λ own. own.items ≡ table_own file_kind walk form.now) }
{
    let mut own = Vec::new(alloc);
    own.push(length_own(file_kind, 0).offset)?;
    push_sums(file_kind, &mut own)?;
    push_walk(walk, &mut own)?;
    push_counts(form.parts, &mut own)?;
    push_inner_counts(form.inner, &mut own)?;
    Ok(own)
}

/// Returns a text of a form, for a start: a line for each field, with its one right value or zeros, and one structure of each
/// kind. The signature is there, question marks stand for the table's own numbers, and comments have the names of flags and
/// values. The only error is that memory ran out.
pub fn template_of(
    alloc: Global,
    signature: &str,
    file_kind: FileKind,
    form: &TableForm,
    walk: Option<Walk>,
) -> Result<String, AllocError>
    ensures { IfOk result (λ text. string_bytes text ≡ template_text signature.now file_kind form.now walk) }
{
    let own = table_own(alloc, file_kind, walk, form)?;
    let ones = all_ones(alloc, form.parts)?;
    let known = Known {
        signature,
        own: &own,
        ones: &ones,
    };
    let mut text = String::new(alloc);
    push_label(form.name, &mut text)?;
    text.push_str("\n")?;
    push_parts(0, &known, 0, form.parts, &mut text)?;
    push_structures(alloc, walk, form, &mut text)?;
    Ok(text)
}
