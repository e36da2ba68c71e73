//! What a heading says, and which form a structure has.

ghost use Rattle.std.specs.Prelude.{◌≡◌, ◌≤◌, nat_le, length, MatchOption, None, Some};
ghost use Rattle.acpi_base.specs.Walk.{place_width};
ghost use Rattle.acpi_make.specs.Heading.{is_field, word_front, label_of, unlabelled, described, find_named, numbered};
ghost use Rattle.acpi_make.specs.Heading.{by_heading, known_front, is_known, is_lowest, has_number, by_bytes, structure_form};
ghost use Rattle.acpi_text.specs.Structure.{all_forms};

use crate::entry::is_line_of;
use crate::item::Cell;
use crate::text::{after, after_offset, decimal_of, digits_front, is_white};
use acpi_base::walk::Place;
use acpi_text::form::{StructureForm, TableForm};
use acpi_text::piece::find_form;

/// Returns whether a heading is the line of a field, without white space before it: it has a colon.
pub fn is_field(heading: &[u8]) -> bool
    ensures { result ≡ is_field heading.now }
{
    'characters: for character in heading {
        if *character == b':' {
            return true;
        }
    }
    false
}

// Returns how many characters stand before the first white space.
fn word_front(text: &[u8]) -> usize
    ensures is { result ≡ word_front text.now }
    ensures within { result ≤ length text.now }
{
    let mut count = 0;
    'characters: for character in text {
        if is_white(*character) {
            return count;
        }
        count += 1;
    }
    count
}

/// Returns the label with which a heading begins: what stands between an at sign and a space.
pub fn label_of(heading: &[u8]) -> Option<&[u8]>
    ensures { MatchOption result (label_of heading.now ≡ None) (λ label. label_of heading.now ≡ Some label.now) }
{
    match heading {
        [b'@', text @ ..] => Some(&text[..word_front(text)]),
        _ => None,
    }
}

// Returns a heading without its label.
fn unlabelled(heading: &[u8]) -> &[u8]
    ensures { result.now ≡ unlabelled heading.now }
{
    match heading {
        [b'@', text @ ..] => {
            let word = word_front(text);
            if word < text.len() {
                &text[word + 1..]
            } else {
                &[]
            }
        }
        _ => heading,
    }
}

/// Returns a heading without its label and its offset.
pub fn described(heading: &[u8]) -> &[u8]
    ensures { result.now ≡ described heading.now }
{
    after_offset(unlabelled(heading))
}

/// Returns the form of a name.
pub fn find_named(name: &[u8], table: &TableForm) -> Option<StructureForm>
    ensures { result ≡ find_named name.now (all_forms table.now) }
{
    'structures: for form in table.structures {
        if is_line_of(form.name.as_bytes(), name) {
            return Some(*form);
        }
    }
    'further: for form in table.further {
        if is_line_of(form.name.as_bytes(), name) {
            return Some(*form);
        }
    }
    None
}

// Returns the form of the number with which a text begins.
fn numbered(text: &[u8], table: &TableForm) -> Option<StructureForm>
    ensures { result ≡ numbered text.now (all_forms table.now) }
{
    match decimal_of(&text[..digits_front(text)]) {
        Some(number) => find_form(number as usize, table),
        None => None,
    }
}

/// Returns the form that a heading names, by its type or by its name.
pub fn by_heading(heading: &[u8], table: &TableForm) -> Option<StructureForm>
    ensures { result ≡ by_heading heading.now (all_forms table.now) }
{
    let words = described(heading);
    match after(b"type ", words) {
        Some(number) => numbered(number, table),
        None => find_named(words, table),
    }
}

// Returns whether a byte is known.
fn is_known(cell: Cell) -> bool
    ensures { result ≡ is_known cell }
{
    match cell {
        Cell::Byte(_) => true,
        Cell::Left(_) => false,
    }
}

/// Returns whether there are `width` bytes and all of them are known. It looks at no byte after them.
pub fn are_known(width: usize, cells: &[Cell]) -> bool
    ensures { result ≡ nat_le width (known_front cells.now) }
{
    let mut left = width;
    let mut cells_left = cells;
    'bytes: while left > 0 {
        left -= 1;
        let Some((cell, more)) = cells_left.split_first() else {
            return false;
        };
        if !is_known(*cell) {
            return false;
        }
        cells_left = more;
    }
    true
}

// Returns whether a byte is known, and is the lowest of a number.
fn is_lowest(cell: Cell, number: usize) -> bool
    ensures { result ≡ is_lowest cell number }
{
    match cell {
        Cell::Byte(byte) => usize::from(byte) == number % 256,
        Cell::Left(_) => false,
    }
}

/// Returns whether cells begin with `width` known bytes of this number, lowest first.
pub fn has_number(width: usize, number: usize, cells: &[Cell]) -> bool
    ensures { result ≡ has_number width number cells.now }
{
    let mut left = width;
    let mut number_left = number;
    let mut cells_left = cells;
    'bytes: while left > 0 {
        left -= 1;
        let Some((cell, more)) = cells_left.split_first() else {
            return false;
        };
        if !is_lowest(*cell, number_left) {
            return false;
        }
        number_left /= 256;
        cells_left = more;
    }
    number_left == 0
}

// Returns the form whose number cells begin with.
fn by_bytes(width: usize, cells: &[Cell], table: &TableForm) -> Option<StructureForm>
    ensures { result ≡ by_bytes width cells.now (all_forms table.now) }
{
    'structures: for form in table.structures {
        if has_number(width, form.number, cells) {
            return Some(*form);
        }
    }
    'further: for form in table.further {
        if has_number(width, form.number, cells) {
            return Some(*form);
        }
    }
    None
}

/// Returns the form of a structure whose type is at a place: by its type, if all bytes of the type are known, and otherwise by
/// its heading.
pub fn structure_form(
    kind: Place,
    table: &TableForm,
    heading: &[u8],
    cells: &[Cell],
) -> Option<StructureForm>
    ensures { result ≡ structure_form kind (all_forms table.now) heading.now cells.now }
{
    let (offset, end) = (kind.offset(), kind.end());
    let bytes = if offset < cells.len() {
        &cells[offset..]
    } else {
        &[]
    };
    let width = end - offset;
    if are_known(width, bytes) {
        by_bytes(width, bytes, table)
    } else {
        by_heading(heading, table)
    }
}
