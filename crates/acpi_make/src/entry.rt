//! The fields that a form names.

ghost use Rattle.std.specs.Prelude.{◌≡◌, [], ◌∷◌, ◌++◌};
ghost use Rattle.std.specs.List.{flat_map};
ghost use Rattle.acpi_base.specs.Look as looks;
ghost use Rattle.acpi_base.specs.Look.{look_of};
ghost use Rattle.acpi_make.specs.Entry.{row_entry, register_entry, register_entries, title_entry, row_entries, rows_entries};
ghost use Rattle.acpi_make.specs.Entry.{titled_entries};
ghost use Rattle.acpi_make.specs.Entry.{choice_entries, part_entries, parts_entries};
ghost use Rattle.acpi_make.specs.Entry.{inner_form_entries, inner_list_entries, inner_entries};
ghost use Rattle.acpi_make.specs.Entry.{entry, open_entry, entry_of, is_line_of, is_of, next_number, find_entry};
ghost use Rattle.acpi_make.specs.Entry.{next_entry, IsSearch, found_of};
ghost use Rattle.acpi_make.specs.Entry.{repeats, is_once, find_inside, find_anywhere, is_register, is_title, title_over};
ghost use Rattle.acpi_text.specs.Structure.{all_forms};

use crate::text::{after, are_white};
use acpi_base::gas::GENERIC_ADDRESS;
use acpi_base::row::{Look, Row};
use acpi_text::form::{Choice, Inner, InnerForm, InnerList, Part, TableForm};
use acpi_text::part::between;

/// A field that a form names.
#[derive(Clone, Copy)]
pub struct Field {
    pub name: &'static str,
    /// The width of a number in it, in bytes. A name over fields has the width 0.
    pub width: usize,
    /// How many bytes a line of it has, or 0 if that depends on other fields.
    pub size: usize,
    /// What its value is.
    pub look: Look,
}

/// What a search for a field found: its number among the fields, or the number after those that were searched.
#[derive(Clone, Copy)]
pub enum Search {
    Found(usize, Field),
    Missing(usize),
}

/// Returns whether a line has a name, and white space after it.
pub fn is_line_of(name: &[u8], line: &[u8]) -> bool
    ensures { result ≡ is_line_of name.now line.now }
{
    match after(name, line) {
        Some(rest) => are_white(rest),
        None => false,
    }
}

/// Returns the number of the field after one.
pub fn next_number(number: usize) -> usize
    ensures { result ≡ next_number number }
{
    if number < 1 << 32 { number + 1 } else { number }
}

// Returns whether a line is that of a field. An empty one may be that of any.
fn is_of(line: &[u8], field: &Field) -> bool
    ensures { result ≡ is_of line.now (entry_of field.now) }
{
    line.is_empty() || is_line_of(field.name.as_bytes(), line)
}

// Searches one field.
fn search_field(number: usize, least: usize, line: &[u8], field: Field) -> Search
    ensures { IsSearch result number least line.now (entry_of field ∷ []) }
{
    if least <= number && is_of(line, &field) {
        Search::Found(number, field)
    } else {
        Search::Missing(next_number(number))
    }
}

/// Returns the field of a row. That of a register is 12 bytes.
pub fn row_field(row: &Row) -> Field
    ensures { entry_of result ≡ row_entry row.now }
{
    let width = row.width();
    Field {
        name: row.name(),
        width,
        size: width,
        look: row.look(),
    }
}

// Searches the field of a row that is no register.
fn search_row(number: usize, least: usize, line: &[u8], row: &Row) -> Search
    ensures { IsSearch result number least line.now (row_entry row.now ∷ []) }
{
    search_field(number, least, line, row_field(row))
}

// Searches the fields of rows of which none is a register.
fn search_row_fields(number: usize, least: usize, line: &[u8], rows: &[Row]) -> Search
    ensures { IsSearch result number least line.now (flat_map (λ row. row_entry row ∷ []) rows.now) }
{
    let mut next = number;
    'rows: for row in rows {
        match search_row(next, least, line, row) {
            Search::Found(at, field) => return Search::Found(at, field),
            Search::Missing(after) => next = after,
        }
    }
    Search::Missing(next)
}

// Searches the fields of a register's address.
fn search_address(number: usize, least: usize, line: &[u8]) -> Search
    ensures { IsSearch result number least line.now register_entries }
{
    search_row_fields(number, least, line, &GENERIC_ADDRESS)
}

// Searches a name over fields.
fn search_title(number: usize, least: usize, line: &[u8], name: &'static str) -> Search
    ensures { IsSearch result number least line.now (title_entry name.now ∷ []) }
{
    let field = Field {
        name,
        width: 0,
        size: 0,
        look: Look::Bytes,
    };
    search_field(number, least, line, field)
}

// Searches the name over the fields of a register's address.
fn search_register_name(number: usize, least: usize, line: &[u8], name: &'static str) -> Search
    ensures { IsSearch result number least line.now (register_entry name.now ∷ []) }
{
    let field = Field {
        name,
        width: 0,
        size: 0,
        look: Look::Register,
    };
    search_field(number, least, line, field)
}

// Searches a register: its name, and the fields of its address.
fn search_register(number: usize, least: usize, line: &[u8], name: &'static str) -> Search
    ensures { IsSearch result number least line.now (register_entry name.now ∷ register_entries) }
{
    match search_register_name(number, least, line, name) {
        Search::Found(at, field) => Search::Found(at, field),
        Search::Missing(next) => search_address(next, least, line),
    }
}

// Searches the fields of a row: a register has those of its address.
fn search_row_entries(number: usize, least: usize, line: &[u8], row: &Row) -> Search
    ensures { IsSearch result number least line.now (row_entries row.now) }
{
    match *row {
        Row::Register(name) => search_register(number, least, line, name),
        _ => search_row(number, least, line, row),
    }
}

// Searches the fields of rows.
fn search_rows(number: usize, least: usize, line: &[u8], rows: &[Row]) -> Search
    ensures { IsSearch result number least line.now (rows_entries rows.now) }
{
    let mut next = number;
    'rows: for row in rows {
        match search_row_entries(next, least, line, row) {
            Search::Found(at, field) => return Search::Found(at, field),
            Search::Missing(after) => next = after,
        }
    }
    Search::Missing(next)
}

// Searches a name, and the fields of the rows under it.
fn search_titled(
    number: usize,
    least: usize,
    line: &[u8],
    name: &'static str,
    rows: &[Row],
) -> Search
    ensures { IsSearch result number least line.now (titled_entries name.now rows.now) }
{
    match search_title(number, least, line, name) {
        Search::Found(at, field) => Search::Found(at, field),
        Search::Missing(next) => search_rows(next, least, line, rows),
    }
}

// Searches the fields of choices.
fn search_choices(number: usize, least: usize, line: &[u8], choices: &[Choice]) -> Search
    ensures { IsSearch result number least line.now (flat_map choice_entries choices.now) }
{
    let mut next = number;
    'choices: for choice in choices {
        match search_titled(next, least, line, choice.name, choice.rows) {
            Search::Found(at, field) => return Search::Found(at, field),
            Search::Missing(after) => next = after,
        }
    }
    Search::Missing(next)
}

// Searches a number of a list.
fn search_number(
    number: usize,
    least: usize,
    line: &[u8],
    name: &'static str,
    width: usize,
) -> Search
    ensures { IsSearch result number least line.now (entry name.now width looks.number ∷ []) }
{
    let field = Field {
        name,
        width,
        size: width,
        look: Look::Number,
    };
    search_field(number, least, line, field)
}

// Searches a line of any number of numbers.
fn search_open(
    number: usize,
    least: usize,
    line: &[u8],
    name: &'static str,
    width: usize,
    look: Look,
) -> Search
    ensures { IsSearch result number least line.now (open_entry name.now width (look_of look) ∷ []) }
{
    let field = Field {
        name,
        width,
        size: 0,
        look,
    };
    search_field(number, least, line, field)
}

// Searches the fields of a part.
fn search_part(number: usize, least: usize, line: &[u8], part: &Part) -> Search
    ensures { IsSearch result number least line.now (part_entries part.now) }
{
    match *part {
        Part::Fields(rows) => search_rows(number, least, line, rows),
        Part::Between(rows, from, to) => search_rows(number, least, line, between(rows, from, to)),
        Part::Group(name, rows) => search_titled(number, least, line, name, rows),
        Part::Entries(name, _, rows) => search_titled(number, least, line, name, rows),
        Part::Numbers(name, width, _) => search_number(number, least, line, name, width),
        Part::Matrix(name, width, _, _) => {
            search_open(number, least, line, name, width, Look::Number)
        }
        Part::Bytes(name, _) => search_open(number, least, line, name, 1, Look::Text),
        Part::Until(name, _) => search_open(number, least, line, name, 1, Look::Text),
        Part::Chosen(_, choices) | Part::BySize(_, _, choices) => search_choices(
            number, least, line, choices,
        ),
    }
}

// Searches the fields of parts.
fn search_parts(number: usize, least: usize, line: &[u8], parts: &[Part]) -> Search
    ensures { IsSearch result number least line.now (parts_entries parts.now) }
{
    let mut next = number;
    'parts: for part in parts {
        match search_part(next, least, line, part) {
            Search::Found(at, field) => return Search::Found(at, field),
            Search::Missing(after) => next = after,
        }
    }
    Search::Missing(next)
}

// Returns whether the lines of a part can come again: a list has a line for each entry.
fn repeats(part: &Part) -> bool
    ensures { result ≡ repeats part.now }
{
    match *part {
        Part::Entries(_, _, _) | Part::Numbers(_, _, _) | Part::Matrix(_, _, _, _) => true,
        Part::Fields(_) | Part::Between(_, _, _) | Part::Group(_, _) => false,
        Part::Bytes(_, _) | Part::Until(_, _) => false,
        Part::Chosen(_, _) | Part::BySize(_, _, _) => false,
    }
}

/// Returns whether a line is that of the field with this number, and the field is before the first list of its parts.
pub fn is_once(number: usize, line: &[u8], parts: &[Part]) -> bool
    ensures { result ≡ is_once 0 number line.now parts.now }
{
    let mut next = 0;
    'parts: for part in parts {
        if repeats(part) {
            return false;
        }
        match search_part(next, number, line, part) {
            Search::Found(at, _) => return at == number,
            Search::Missing(after) => next = after,
        }
    }
    false
}

// Searches the fields of a structure within another, under its name.
fn search_inner_form(number: usize, least: usize, line: &[u8], form: &InnerForm) -> Search
    ensures { IsSearch result number least line.now (inner_form_entries form.now) }
{
    match search_title(number, least, line, form.name) {
        Search::Found(at, field) => Search::Found(at, field),
        Search::Missing(next) => search_parts(next, least, line, form.parts),
    }
}

// Searches the fields of the structures of a list.
fn search_inner_list(number: usize, least: usize, line: &[u8], list: &InnerList) -> Search
    ensures { IsSearch result number least line.now (inner_list_entries list.now) }
{
    let mut next = number;
    'forms: for form in list.forms {
        match search_inner_form(next, least, line, form) {
            Search::Found(at, field) => return Search::Found(at, field),
            Search::Missing(after) => next = after,
        }
    }
    Search::Missing(next)
}

// Searches the fields of the structures of lists.
fn search_inner_lists(number: usize, least: usize, line: &[u8], lists: &[InnerList]) -> Search
    ensures { IsSearch result number least line.now (flat_map inner_list_entries lists.now) }
{
    let mut next = number;
    'lists: for list in lists {
        match search_inner_list(next, least, line, list) {
            Search::Found(at, field) => return Search::Found(at, field),
            Search::Missing(after) => next = after,
        }
    }
    Search::Missing(next)
}

// Searches the fields of structures within, under the name of each.
fn search_inner(number: usize, least: usize, line: &[u8], inner: &Inner) -> Search
    ensures { IsSearch result number least line.now (inner_entries inner.now) }
{
    match *inner {
        Inner::Nothing => Search::Missing(number),
        Inner::Lists(_, lists) => search_inner_lists(number, least, line, lists),
    }
}

/// Searches the fields of parts, and those of structures within, from this number on.
pub fn search_both(
    least: usize,
    line: &[u8],
    parts: &[Part],
    inner: &Inner,
) -> Option<(usize, Field)>
    ensures { found_of result ≡ find_entry 0 least line.now (parts_entries parts.now ++ inner_entries inner.now) }
{
    match search_parts(0, least, line, parts) {
        Search::Found(at, field) => Some((at, field)),
        Search::Missing(next) => match search_inner(next, least, line, inner) {
            Search::Found(at, field) => Some((at, field)),
            Search::Missing(_) => None,
        },
    }
}

/// Returns the next field of a line's name and its number, from this number on, and then from the first field on. The fields are
/// those of parts, and those of structures within. An empty line may be that of any field.
pub fn next_entry(
    least: usize,
    line: &[u8],
    parts: &[Part],
    inner: &Inner,
) -> Option<(usize, Field)>
    ensures { found_of result ≡ next_entry least line.now (parts_entries parts.now ++ inner_entries inner.now) }
{
    match search_both(least, line, parts, inner) {
        Some(found) => Some(found),
        None => search_both(0, line, parts, inner),
    }
}

/// Returns the first field with this number or a higher one.
pub fn entry_from(least: usize, parts: &[Part], inner: &Inner) -> Option<(usize, Field)>
    ensures { found_of result ≡ find_entry 0 least [] (parts_entries parts.now ++ inner_entries inner.now) }
{
    search_both(least, b"", parts, inner)
}

/// Returns whether a field is a register's name over the fields of its address, if it is a name over fields.
pub fn is_register(look: Look) -> bool
    ensures { result ≡ is_register (look_of look) }
{
    match look {
        Look::Register => true,
        _ => false,
    }
}

/// Returns whether a field is a name over fields.
pub fn is_title(field: &Field) -> bool
    ensures { result ≡ is_title (entry_of field.now) }
{
    field.width == 0
}

/// Returns the name over fields just before the field with this number.
pub fn title_over(number: usize, parts: &[Part], inner: &Inner) -> Option<(usize, Field)>
    ensures { found_of result ≡ title_over number (parts_entries parts.now ++ inner_entries inner.now) }
{
    if number == 0 {
        return None;
    }
    match entry_from(number - 1, parts, inner) {
        Some((at, field)) if is_title(&field) => Some((at, field)),
        _ => None,
    }
}

// Returns the first field of a line's name in the structures of a table.
fn find_inside(line: &[u8], table: &TableForm) -> Option<(usize, Field)>
    ensures { found_of result ≡ find_inside line.now (all_forms table.now) }
{
    'structures: for form in table.structures {
        if let Some(found) = next_entry(0, line, form.parts, form.inner) {
            return Some(found);
        }
    }
    'further: for form in table.further {
        if let Some(found) = next_entry(0, line, form.parts, form.inner) {
            return Some(found);
        }
    }
    None
}

/// Returns the first field of a line's name in a table and its structures.
pub fn find_anywhere(line: &[u8], form: &TableForm) -> Option<(usize, Field)>
    ensures { found_of result ≡ find_anywhere line.now form.now }
{
    match next_entry(0, line, form.parts, form.inner) {
        Some(found) => Some(found),
        None => find_inside(line, form),
    }
}
