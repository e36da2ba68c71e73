//! Fields that are sought by name: those that a structure has before its first list.

ghost use Rattle.std.specs.Prelude.{◌≡◌, ◌≤◌, [], IfSome};
ghost use Rattle.acpi_c_calls.specs.Seek.{is_wanted, seek_row, seek_rows, seek_choice, seek_optional, seek_part, seek_parts};
ghost use Rattle.acpi_c_calls.specs.Seek.{IsWithin, fixed_end};

use acpi_base::row::Row;
use acpi_text::form::{Choice, Part};
use acpi_text::part::{between, find_choice, number_at, size_between};

/// What a search for a field found.
#[derive(Clone, Copy)]
pub enum Sought {
    /// The field: its offset in the structure, and its width in bytes.
    Found(usize, usize),
    /// None of these fields: the offset after them.
    After(usize),
    /// A part whose width isn't fixed: the offset at which it begins.
    Open(usize),
    /// A field that ends after the limit.
    Outside,
}

// Returns whether a row has a name. An empty name is that of no field.
fn is_wanted(name: &[u8], row: &Row) -> bool
    ensures { result ≡ is_wanted name.now row.now }
{
    !name.is_empty() && name == row.name().as_bytes()
}

fn seek_row(name: &[u8], limit: usize, at: usize, row: &Row) -> Sought
    requires { at ≤ limit }
    ensures is { result ≡ seek_row name.now limit at row.now }
    ensures within { IsWithin limit result }
{
    let width = row.width();
    if width > limit - at {
        return Sought::Outside;
    }
    if is_wanted(name, row) {
        Sought::Found(at, width)
    } else {
        Sought::After(at + width)
    }
}

fn seek_rows(name: &[u8], limit: usize, at: usize, rows: &[Row]) -> Sought
    requires { at ≤ limit }
    ensures is { result ≡ seek_rows name.now limit at rows.now }
    ensures within { IsWithin limit result }
{
    let mut next = at;
    'rows: for row in rows {
        match seek_row(name, limit, next, row) {
            Sought::After(end) => next = end,
            other => return other,
        }
    }
    Sought::After(next)
}

fn seek_choice(name: &[u8], limit: usize, at: usize, choice: Option<Choice>) -> Sought
    requires { at ≤ limit }
    ensures is { result ≡ seek_choice name.now limit at choice }
    ensures within { IsWithin limit result }
{
    match choice {
        Some(choice) => seek_rows(name, limit, at, choice.rows),
        None => Sought::Open(at),
    }
}

fn seek_optional(name: &[u8], limit: usize, at: usize, choice: Option<Choice>) -> Sought
    requires { at ≤ limit }
    ensures is { result ≡ seek_optional name.now limit at choice }
    ensures within { IsWithin limit result }
{
    match choice {
        Some(choice) => seek_rows(name, limit, at, choice.rows),
        None => Sought::After(at),
    }
}

fn seek_part(name: &[u8], limit: usize, whole: &[u8], at: usize, part: &Part) -> Sought
    requires { at ≤ limit }
    ensures is { result ≡ seek_part name.now limit whole.now at part.now }
    ensures within { IsWithin limit result }
{
    match *part {
        Part::Fields(rows) => seek_rows(name, limit, at, rows),
        Part::Between(rows, from, to) => seek_rows(name, limit, at, between(rows, from, to)),
        Part::Group(_, rows) => seek_rows(name, limit, at, rows),
        Part::Chosen(by, choices) => {
            seek_choice(name, limit, at, find_choice(number_at(by, whole), choices))
        }
        Part::BySize(from, to, choices) => {
            seek_optional(
                name,
                limit,
                at,
                find_choice(size_between(from, to, whole), choices),
            )
        }
        Part::Entries(_, _, _)
        | Part::Numbers(_, _, _)
        | Part::Matrix(_, _, _, _)
        | Part::Bytes(_, _)
        | Part::Until(_, _) => Sought::Open(at),
    }
}

/// Seeks the first field with a name in the parts of a structure, whose fields end before `limit`. `whole` has the bytes of the
/// structure, by which a choice is made. Fields in lists, and those after the first list, aren't sought.
pub(crate) fn seek_parts(name: &[u8], limit: usize, whole: &[u8], parts: &[Part]) -> Sought
    ensures is { result ≡ seek_parts name.now limit whole.now 0 parts.now }
    ensures within { IsWithin limit result }
{
    let mut next = 0;
    'parts: for part in parts {
        match seek_part(name, limit, whole, next, part) {
            Sought::After(end) => next = end,
            other => return other,
        }
    }
    Sought::After(next)
}

/// Returns where the fields of parts end that come before the first list, unless they end after `limit`. `whole` has bytes by
/// which a choice is made.
pub(crate) fn fixed_end(limit: usize, whole: &[u8], parts: &[Part]) -> Option<usize>
    ensures is { result ≡ fixed_end (seek_parts [] limit whole.now 0 parts.now) }
    ensures within { IfSome result (λ end. end ≤ limit) }
{
    match seek_parts(&[], limit, whole, parts) {
        Sought::Found(at, _) | Sought::After(at) | Sought::Open(at) => Some(at),
        Sought::Outside => None,
    }
}
