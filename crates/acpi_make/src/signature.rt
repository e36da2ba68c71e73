//! How the table of a text begins: with its signature, or without one.

ghost use Rattle.std.specs.Prelude.{◌≡◌, MatchOption, None, Some};
ghost use Rattle.acpi_make.specs.Signature.{first_byte, signature_of, begins_with_length, has_line, heading_at};

use crate::entry::is_line_of;
use crate::item::{Cell, Item};
use crate::text::{after_offset, part_at};

// Returns the first byte of a text, and what follows it, if the first byte is stated.
fn first_byte(items: &[Item]) -> Option<(u8, &[Item])>
    ensures { MatchOption result (first_byte items.now ≡ None) (λ found. first_byte items.now ≡ Some (found.0, found.1.now)) }
{
    'items: for i in 0..items.len() {
        match items[i] {
            Item::Cell(Cell::Byte(byte)) => return Some((byte, &items[i + 1..])),
            Item::Cell(Cell::Left(_)) => return None,
            Item::Value(_, _) => return None,
            Item::Heading(_, _) => {}
            Item::Name(_, _) => {}
        }
    }
    None
}

/// Returns the signature of the table that the parts of a text give: the number of its first four bytes, lowest first. There is
/// none if one of these bytes isn't stated.
pub fn signature_of(items: &[Item]) -> Option<u32>
    ensures { result ≡ signature_of items.now }
{
    let (a, rest) = first_byte(items)?;
    let (b, rest) = first_byte(rest)?;
    let (c, rest) = first_byte(rest)?;
    let (d, _) = first_byte(rest)?;
    Some(u32::from_le_bytes([a, b, c, d]))
}

/// Returns whether the first line of a text is that of a field with the name `Length`. The first field of every other table is
/// its signature.
pub fn begins_with_length(text: &[u8], items: &[Item]) -> bool
    ensures { result ≡ begins_with_length text.now items.now }
{
    'items: for item in items {
        match *item {
            Item::Heading(_, _) => {}
            Item::Name(from, to) => {
                return is_line_of(b"Length", after_offset(part_at(from, to, text)));
            }
            Item::Cell(_) => return false,
            Item::Value(_, _) => return false,
        }
    }
    false
}

/// Returns whether a text has a line with a name.
pub fn has_line(name: &[u8], text: &[u8], items: &[Item]) -> bool
    ensures { result ≡ has_line name.now text.now items.now }
{
    'items: for item in items {
        match *item {
            Item::Name(from, to) => {
                if is_line_of(name, after_offset(part_at(from, to, text))) {
                    return true;
                }
            }
            Item::Cell(_) => {}
            Item::Heading(_, _) => {}
            Item::Value(_, _) => {}
        }
    }
    false
}

/// Returns the range of the heading with which a text begins, if it has this name.
pub fn heading_at(name: &[u8], text: &[u8], items: &[Item]) -> Option<(usize, usize)>
    ensures { result ≡ heading_at name.now text.now items.now }
{
    match items {
        [Item::Heading(from, to), ..] if is_line_of(name, part_at(*from, *to, text)) => {
            Some((*from, *to))
        }
        _ => None,
    }
}
