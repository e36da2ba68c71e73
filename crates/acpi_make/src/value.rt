//! Numbers by name and in decimal.

ghost use Rattle.std.specs.Prelude.{◌≡◌, ◌==◌, bit_and, if◌then◌else◌, length, Some, None};
ghost use Rattle.acpi_base.specs.Look.{words_of, bits_of, look_of};
ghost use Rattle.acpi_make.specs.Text.{after};
ghost use Rattle.acpi_make.specs.Value.{front_name, front_part, front_of, name_then, joined, only, names_value, value_of};

use crate::text::{after, decimal_of, hex_of};
use acpi_base::row::{Bits, Look, Word};

/// What names begin with.
#[derive(Clone, Copy)]
pub enum Names<'a> {
    /// No name that is known.
    Unnamed,
    /// The last name: the mask of the bits that it says something of, and its number.
    Last(u64, u64),
    /// The same of a name, and the names after it.
    More(u64, u64, &'a [u8]),
}

// Returns the mask and the number of a name, and the names after it, if the text begins with this name.
fn name_then<'a>(mask: u64, number: u64, name: &str, text: &'a [u8]) -> Names<'a>
    ensures { front_of result ≡ name_then mask number (after name.now text.now) }
{
    let Some(rest) = after(name.as_bytes(), text) else {
        return Names::Unnamed;
    };
    if rest.is_empty() {
        return Names::Last(mask, number);
    }
    match after(b" | ", rest) {
        Some(more) => Names::More(mask, number, more),
        None => Names::Unnamed,
    }
}

// Returns what a text of names of these bits begins with.
fn front_name<'a>(mask: u64, words: &[Word], text: &'a [u8]) -> Names<'a>
    ensures { front_of result ≡ front_name mask (words_of words.now) text.now }
{
    'words: for word in words {
        match name_then(mask, word.0, word.1, text) {
            Names::Unnamed => {}
            front => return front,
        }
    }
    Names::Unnamed
}

// Returns what a text of names of bits begins with.
fn front_part<'a>(parts: &[Bits], text: &'a [u8]) -> Names<'a>
    ensures { front_of result ≡ front_part (bits_of parts.now) text.now }
{
    'parts: for part in parts {
        let front = match *part {
            Bits::Flag(mask, name) => name_then(mask, mask, name, text),
            Bits::OneOf(mask, words) => front_name(mask, words, text),
            Bits::Number(_, _, _) => Names::Unnamed,
        };
        match front {
            Names::Unnamed => {}
            front => return front,
        }
    }
    Names::Unnamed
}

// Returns a number, unless something was said of these bits before.
fn unless_said(said: u64, mask: u64, number: u64) -> Option<u64>
    ensures { result ≡ (if bit_and said mask == 0 then Some number else None) }
{
    if said & mask == 0 { Some(number) } else { None }
}

// Returns bits with bars between their names. No two names say something of the same bit.
fn joined(parts: &[Bits], text: &[u8]) -> Option<u64>
    ensures { result ≡ joined (length text.now) 0 0 (bits_of parts.now) text.now }
{
    let mut said = 0;
    let mut all = 0;
    let mut rest = text;
    let mut left = text.len();
    'names: while left > 0 {
        left -= 1;
        match front_part(parts, rest) {
            Names::Unnamed => return None,
            Names::Last(mask, number) => return unless_said(said, mask, all | number),
            Names::More(mask, number, more) => {
                if said & mask != 0 {
                    return None;
                }
                said |= mask;
                all |= number;
                rest = more;
            }
        }
    }
    None
}

// Returns the number of a value by its name.
fn one_of(words: &[Word], text: &[u8]) -> Option<u64>
    ensures { result ≡ only (front_name 0 (words_of words.now) text.now) }
{
    match front_name(0, words, text) {
        Names::Last(_, number) => Some(number),
        Names::Unnamed => None,
        Names::More(_, _, _) => None,
    }
}

// Returns the number of names.
fn names_value(look: Look, text: &[u8]) -> Option<u64>
    ensures { result ≡ names_value (look_of look) text.now }
{
    match look {
        Look::Flags(_) if text.is_empty() => Some(0),
        Look::Flags(parts) => joined(parts, text),
        Look::OneOf(words) => one_of(words, text),
        _ => None,
    }
}

/// Returns the number of a value: decimal digits after a number sign, hexadecimal digits after `0x`, or names between braces.
pub fn value_of(look: Look, text: &[u8]) -> Option<u64>
    ensures { result ≡ value_of (look_of look) text.now }
{
    match text {
        [] => None,
        [b'#', digits @ ..] => decimal_of(digits),
        [b'0', _, digits @ ..] => hex_of(digits),
        [_, names @ ..] => names_value(look, &names[..names.len().saturating_sub(1)]),
    }
}
