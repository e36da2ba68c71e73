//! The fields of the parts of a structure. A function whose name begins with `push` adds to fields, and returns how many bytes it
//! read.

ghost use Rattle.std.specs.Prelude.{◌≡◌, ℕ, ◌+◌, ◌*◌, ◌<◌, ◌≤◌, ◌^◌, [], ◌∷◌, ◌++◌, length, drop, map, IfOk, OnOk};
ghost use Rattle.acpi_base.specs.Look as looks;
ghost use Rattle.acpi_rules.specs.Field.{seen, sized, until, rows_wanted, times, choice_wanted};
ghost use Rattle.acpi_rules.specs.Field.{optional_wanted, part_wanted, parts_fields, Reached};

use crate::field::{Field, push_field, push_numbers, push_rows};
use acpi_base::row::{Look, Row};
use acpi_text::form::{Choice, Part};
use acpi_text::part::{between, count_of, find_choice, number_at, size_between};
use std::alloc::AllocError;

// Adds the fields of `count` entries, or of fewer if the bytes end before.
fn push_entries<'a>(
    count: usize,
    rows: &[Row],
    at: usize,
    bytes: &'a [u8],
    fields: &mut Vec<Field<'a>>,
) -> Result<usize, AllocError>
    requires { at + length bytes.now < 2 ^ 64 }
    ensures { IfOk result (λ n. Reached (times count (rows_wanted rows.now)) at bytes.now
        (map seen fields.old.items) (map seen fields.new.items) n) }
{
    let mut read = 0;
    let mut done = 0;
    'entries: while done < count && read < bytes.len() {
        read += push_rows(rows, at + read, &bytes[read..], fields)?;
        done += 1;
    }
    Ok(read)
}

// Adds `count` fields of `columns` numbers, or fewer if the bytes end before.
fn push_lists<'a>(
    name: &'static str,
    width: usize,
    columns: usize,
    count: usize,
    at: usize,
    bytes: &'a [u8],
    fields: &mut Vec<Field<'a>>,
) -> Result<usize, AllocError>
    requires { at + length bytes.now < 2 ^ 64 }
    ensures { IfOk result (λ n. Reached (times count (sized name.now looks.number width (width * columns) ∷ [])) at bytes.now
        (map seen fields.old.items) (map seen fields.new.items) n) }
{
    let mut read = 0;
    let mut done = 0;
    'lists: while done < count && read < bytes.len() {
        read += push_numbers(name, width, columns, at + read, &bytes[read..], fields)?;
        done += 1;
    }
    Ok(read)
}

// Adds a field of the bytes up to the offset `end` of a structure, of which `read` bytes were read.
fn push_until<'a>(
    name: &'static str,
    end: usize,
    read: usize,
    at: usize,
    bytes: &'a [u8],
    fields: &mut Vec<Field<'a>>,
) -> Result<usize, AllocError>
    ensures { (start : ℕ) → at ≡ start + read → IfOk result (λ n. Reached (until name.now (start + end) ∷ []) at bytes.now
        (map seen fields.old.items) (map seen fields.new.items) n) }
{
    if end <= read {
        return Ok(0);
    }
    push_field(name, Look::Text, 1, end - read, at, bytes, fields)
}

// Adds the fields of a choice. Without a choice no byte that is left is in a field.
fn push_choice<'a>(
    choice: Option<Choice>,
    at: usize,
    bytes: &'a [u8],
    fields: &mut Vec<Field<'a>>,
) -> Result<usize, AllocError>
    requires { at + length bytes.now < 2 ^ 64 }
    ensures { IfOk result (λ n. Reached (choice_wanted choice) at bytes.now
        (map seen fields.old.items) (map seen fields.new.items) n) }
{
    match choice {
        Some(choice) => push_rows(choice.rows, at, bytes, fields),
        None => Ok(bytes.len()),
    }
}

// Adds the fields of a choice. Without a choice, it adds nothing.
fn push_optional<'a>(
    choice: Option<Choice>,
    at: usize,
    bytes: &'a [u8],
    fields: &mut Vec<Field<'a>>,
) -> Result<usize, AllocError>
    requires { at + length bytes.now < 2 ^ 64 }
    ensures { IfOk result (λ n. Reached (optional_wanted choice) at bytes.now
        (map seen fields.old.items) (map seen fields.new.items) n) }
{
    match choice {
        Some(choice) => push_rows(choice.rows, at, bytes, fields),
        None => Ok(0),
    }
}

// Adds a part of the structure that begins at the offset `start`, and of which `read` bytes were read.
fn push_part<'a>(
    part: &Part,
    start: usize,
    whole: &'a [u8],
    read: usize,
    fields: &mut Vec<Field<'a>>,
) -> Result<usize, AllocError>
    requires within { read ≤ length whole.now }
    requires fits { start + length whole.now < 2 ^ 64 }
    ensures { IfOk result (λ n. Reached (part_wanted start whole.now part.now) (start + read) (drop read whole.now)
        (map seen fields.old.items) (map seen fields.new.items) n) }
{
    let (_, bytes) = whole.split_at(read);
    let at = start + read;
    match *part {
        Part::Fields(rows) | Part::Group(_, rows) => push_rows(rows, at, bytes, fields),
        Part::Between(rows, from, to) => push_rows(between(rows, from, to), at, bytes, fields),
        Part::Entries(_, count, rows) => {
            push_entries(count_of(count, whole), rows, at, bytes, fields)
        }
        Part::Numbers(name, width, count) => {
            push_lists(name, width, 1, count_of(count, whole), at, bytes, fields)
        }
        Part::Matrix(name, width, rows, columns) => {
            let columns = number_at(columns, whole);
            let rows = if columns == 0 {
                0
            } else {
                number_at(rows, whole)
            };
            push_lists(name, width, columns, rows, at, bytes, fields)
        }
        Part::Bytes(name, count) => {
            push_field(
                name,
                Look::Text,
                1,
                number_at(count, whole),
                at,
                bytes,
                fields,
            )
        }
        Part::Until(name, end) => push_until(name, number_at(end, whole), read, at, bytes, fields),
        Part::Chosen(by, choices) => {
            push_choice(
                find_choice(number_at(by, whole), choices),
                at,
                bytes,
                fields,
            )
        }
        Part::BySize(from, to, choices) => {
            push_optional(
                find_choice(size_between(from, to, whole), choices),
                at,
                bytes,
                fields,
            )
        }
    }
}

/// Adds the fields of the parts of the structure that begins at the offset `start`.
pub fn push_parts<'a>(
    parts: &[Part],
    start: usize,
    whole: &'a [u8],
    fields: &mut Vec<Field<'a>>,
) -> Result<(), AllocError>
    requires { start + length whole.now < 2 ^ 64 }
    ensures { OnOk result (map seen fields.new.items
        ≡ map seen fields.old.items ++ parts_fields parts.now start whole.now) }
{
    let mut read = 0;
    'parts: for part in parts {
        read += push_part(part, start, whole, read, fields)?;
    }
    Ok(())
}
