//! The lines of bytes, as far as their names are known. A function whose name begins with `push` adds to a text, and returns how
//! many bytes its lines show.

ghost use Rattle.std.specs.Prelude.{◌≡◌, ℕ, ◌+◌, ◌*◌, ◌<◌, ◌≤◌, ◌^◌, ◌++◌, [], ◌∷◌, length, nat_lt, if◌then◌else◌};
ghost use Rattle.std.specs.List.{flat_map};
ghost use Rattle.std.specs.Prelude.{MatchOption, IfOk, OnOk, string_bytes};
ghost use Rattle.acpi_base.specs.Look.{look_of};
ghost use Rattle.acpi_text.specs.Slot.{field_of, heading, nameless, register_slots, row_slot, row_slots, Showed};
ghost use Rattle.acpi_text.specs.Slot.{unit_width, unit_count};

use crate::line::{LineForm, push_line, push_title};
use acpi_base::gas::GENERIC_ADDRESS;
use acpi_base::row::{Look, Row};
use std::alloc::AllocError;

// Returns how many bytes the next line without a name shows.
fn line_size(left: usize) -> usize
    ensures { result ≡ (if nat_lt left 16 then left else 16) }
{
    if left < 16 { left } else { 16 }
}

/// Adds bytes that have no name, sixteen in a line.
pub fn push_nameless(offset: usize, bytes: &[u8], text: &mut String) -> Result<(), AllocError>
    requires { offset + length bytes.now < 2 ^ 64 }
    ensures { OnOk result (string_bytes text.new ≡ string_bytes text.old ++ nameless offset bytes.now) }
{
    let mut at = offset;
    let mut rest = bytes;
    'lines: while !rest.is_empty() {
        let (front, more) = rest.split_at(line_size(rest.len()));
        let form = LineForm {
            depth: 0,
            name: "Bytes",
            look: Look::Bytes,
            width: 1,
            count: front.len(),
        };
        push_line(&form, at, front, text)?;
        at += front.len();
        rest = more;
    }
    Ok(())
}

/// Adds a name over the lines of a level, if any bytes follow.
pub fn push_heading(
    depth: u8,
    name: &str,
    offset: usize,
    bytes: &[u8],
    text: &mut String,
) -> Result<usize, AllocError>
    ensures { IfOk result
        (λ n. Showed (heading depth name.now ∷ []) offset bytes.now (string_bytes text.old) (string_bytes text.new) n) }
{
    if !bytes.is_empty() {
        push_title(depth, offset, name, text)?;
    }
    Ok(0)
}

/// Returns the size of `count` numbers of `width` bytes, if there are as many bytes.
pub fn size_within(width: usize, count: usize, left: usize) -> Option<usize>
    ensures { MatchOption result (left < width * count) (λ size. (size ≡ width * count) × (size ≤ left)) }
{
    match width.checked_mul(count) {
        Some(size) if size <= left => Some(size),
        _ => None,
    }
}

/// Adds a field. If there are fewer bytes than it has, it adds these without a name.
pub fn push_field(
    form: &LineForm<'_>,
    offset: usize,
    bytes: &[u8],
    text: &mut String,
) -> Result<usize, AllocError>
    requires { offset + length bytes.now < 2 ^ 64 }
    ensures { IfOk result
        (λ n. Showed (field_of form.now ∷ []) offset bytes.now (string_bytes text.old) (string_bytes text.new) n) }
{
    if bytes.is_empty() {
        return Ok(0);
    }
    match size_within(form.width, form.count, bytes.len()) {
        Some(size) => {
            push_line(form, offset, &bytes[..size], text)?;
            Ok(size)
        }
        None => {
            push_nameless(offset, bytes, text)?;
            Ok(bytes.len())
        }
    }
}

// Returns the width of the numbers of a row, and how many there are.
fn units(row: &Row) -> (usize, usize)
    ensures width { result.0 ≡ unit_width row.now }
    ensures count { result.1 ≡ unit_count row.now }
{
    match *row {
        Row::Number(_, width)
        | Row::Hex(_, width)
        | Row::Preset(_, width, _)
        | Row::Reference(_, width)
        | Row::Flags(_, width, _)
        | Row::OneOf(_, width, _) => (width, 1),
        Row::Bytes(_, count) | Row::Text(_, count) | Row::Reserved(count) => (1, count),
        Row::Uuid(_) => (1, 16),
        Row::Register(_) => (1, 12),
    }
}

// Adds the field of a row.
#[inline(always)]
fn push_row_field(
    depth: u8,
    row: &Row,
    offset: usize,
    bytes: &[u8],
    text: &mut String,
) -> Result<usize, AllocError>
    requires { offset + length bytes.now < 2 ^ 64 }
    ensures { IfOk result
        (λ n. Showed (row_slot depth row.now ∷ []) offset bytes.now (string_bytes text.old) (string_bytes text.new) n) }
{
    let (width, count) = units(row);
    let form = LineForm {
        depth,
        name: row.name(),
        look: row.look(),
        width,
        count,
    };
    push_field(&form, offset, bytes, text)
}

// Adds the fields of rows, one after another, each in one line.
fn push_row_fields(
    depth: u8,
    rows: &[Row],
    offset: usize,
    bytes: &[u8],
    text: &mut String,
) -> Result<usize, AllocError>
    requires { offset + length bytes.now < 2 ^ 64 }
    ensures { IfOk result (λ n. Showed (flat_map (λ row. row_slot depth row ∷ []) rows.now)
        offset bytes.now (string_bytes text.old) (string_bytes text.new) n) }
{
    let mut at = 0;
    'rows: for row in rows {
        at += push_row_field(depth, row, offset + at, &bytes[at..], text)?;
    }
    Ok(at)
}

// Adds the name of a register, and the fields of its address below.
fn push_register(
    depth: u8,
    name: &str,
    offset: usize,
    bytes: &[u8],
    text: &mut String,
) -> Result<usize, AllocError>
    requires level { depth < 255 }
    requires fits { offset + length bytes.now < 2 ^ 64 }
    ensures { IfOk result (λ n. Showed (heading depth name.now ∷ register_slots (depth + 1))
        offset bytes.now (string_bytes text.old) (string_bytes text.new) n) }
{
    let none = push_heading(depth, name, offset, bytes, text)?;
    Ok(
        none + push_row_fields(
            depth + 1,
            &GENERIC_ADDRESS,
            offset + none,
            &bytes[none..],
            text,
        )?,
    )
}

// Returns the name of a row that is a register.
fn register_name(row: &Row) -> Option<&'static str>
    ensures { (depth : ℕ) → MatchOption result (row_slots depth row.now ≡ row_slot depth row.now ∷ [])
        (λ name. row_slots depth row.now ≡ heading depth name.now ∷ register_slots (depth + 1)) }
{
    match *row {
        Row::Register(name) => Some(name),
        _ => None,
    }
}

// Adds the lines of a row.
#[inline(always)]
fn push_row(
    depth: u8,
    row: &Row,
    offset: usize,
    bytes: &[u8],
    text: &mut String,
) -> Result<usize, AllocError>
    requires level { depth < 255 }
    requires fits { offset + length bytes.now < 2 ^ 64 }
    ensures { IfOk result
        (λ n. Showed (row_slots depth row.now) offset bytes.now (string_bytes text.old) (string_bytes text.new) n) }
{
    match register_name(row) {
        Some(name) => push_register(depth, name, offset, bytes, text),
        None => push_row_field(depth, row, offset, bytes, text),
    }
}

/// Adds the fields of rows, one after another.
pub fn push_rows(
    depth: u8,
    rows: &[Row],
    offset: usize,
    bytes: &[u8],
    text: &mut String,
) -> Result<usize, AllocError>
    requires level { depth < 255 }
    requires fits { offset + length bytes.now < 2 ^ 64 }
    ensures { IfOk result (λ n. Showed (flat_map (row_slots depth) rows.now)
        offset bytes.now (string_bytes text.old) (string_bytes text.new) n) }
{
    let mut at = 0;
    'rows: for row in rows {
        at += push_row(depth, row, offset + at, &bytes[at..], text)?;
    }
    Ok(at)
}
