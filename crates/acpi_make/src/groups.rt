//! The groups in which the digits of a line stand.

ghost use Rattle.std.specs.Prelude.{◌≡◌, ◌≤◌, length};
ghost use Rattle.acpi_make.specs.Groups.{greater, no_digits, with_digit, with_character, is_end, all_groups, groups_from};
ghost use Rattle.acpi_make.specs.Groups.{value_size, groups_in, after_colon, groups_at, are_same_groups, largest_of};

use crate::entry::next_number;
use crate::text::is_white;
use acpi_base::digit::digit_value;
use acpi_base::slice::from_offset;

/// How many groups there are, and how many digits the largest of them has.
pub type Groups = (usize, usize);

fn greater(a: usize, b: usize) -> usize
    ensures { result ≡ greater a b }
{
    if a < b { b } else { a }
}

/// What is known of the groups of a value up to a character.
#[derive(Clone, Copy)]
pub struct Scan {
    /// How many digits the last group has, so far.
    pub digits: usize,
    /// How many groups there are.
    pub count: usize,
    /// How many digits the largest of them has.
    pub largest: usize,
    /// Whether a digit isn't 0.
    pub any: bool,
}

// Returns what is known with a further digit.
fn with_digit(scan: Scan, digit: u8) -> Scan
    ensures { result ≡ with_digit scan digit }
{
    let digits = next_number(scan.digits);
    let count = if scan.digits == 0 {
        next_number(scan.count)
    } else {
        scan.count
    };
    Scan {
        digits,
        count,
        largest: greater(scan.largest, digits),
        any: scan.any || digit != 0,
    }
}

// Returns what is known with a further character, if it is a digit or white space.
fn with_character(scan: Scan, character: u8) -> Option<Scan>
    ensures { result ≡ with_character scan character }
{
    if is_white(character) {
        return Some(Scan { digits: 0, ..scan });
    }
    match digit_value(character) {
        Some(digit) => Some(with_digit(scan, digit)),
        None => None,
    }
}

// Returns whether a value ends: at the end of its line, or at a comment.
fn is_end(character: u8) -> bool
    ensures { result ≡ is_end character }
{
    character == b'\n' || character == b'/'
}

// Returns the groups of a whole value. The order of zeros alone says nothing.
fn all_groups(scan: Scan) -> Option<Groups>
    ensures { result ≡ all_groups scan }
{
    if scan.any {
        Some((scan.count, scan.largest))
    } else {
        None
    }
}

// Returns the groups of characters that are digits and white space alone.
fn groups_from(characters: &[u8]) -> Option<Groups>
    ensures { result ≡ groups_from no_digits characters.now }
{
    let mut scan = Scan {
        digits: 0,
        count: 0,
        largest: 0,
        any: false,
    };
    'characters: for character in characters {
        match with_character(scan, *character) {
            Some(next) => scan = next,
            None => return None,
        }
    }
    all_groups(scan)
}

// Returns how many characters a value has before its end.
fn value_size(value: &[u8]) -> usize
    ensures is { result ≡ value_size value.now }
    ensures within { result ≤ length value.now }
{
    let mut size = 0;
    'characters: for character in value {
        if is_end(*character) {
            return size;
        }
        size += 1;
    }
    size
}

// Returns the groups of a value, if it has digits alone.
fn groups_in(value: &[u8]) -> Option<Groups>
    ensures { result ≡ groups_in value.now }
{
    groups_from(&value[..value_size(value)])
}

// Returns the groups after the name of a line, which a colon ends.
fn after_colon(text: &[u8]) -> Option<Groups>
    ensures { result ≡ after_colon text.now }
{
    match text {
        [b':', value @ ..] => groups_in(value),
        _ => None,
    }
}

/// Returns the groups of a line whose name ends at a place, if its value has digits alone, of which one isn't 0.
pub fn groups_at(to: usize, text: &[u8]) -> Option<Groups>
    ensures { result ≡ groups_at to text.now }
{
    after_colon(from_offset(text.len().saturating_sub(to), text))
}

/// Returns whether digits stand in the same groups, if both lines have them.
pub fn are_same_groups(one: Option<Groups>, other: Option<Groups>) -> bool
    ensures { result ≡ are_same_groups one other }
{
    match (one, other) {
        (Some((count, largest)), Some((others, most))) => count == others && largest == most,
        _ => true,
    }
}

/// Returns how many digits the largest group has.
pub fn largest_of(groups: Option<Groups>) -> usize
    ensures { result ≡ largest_of groups }
{
    match groups {
        Some((_, largest)) => largest,
        None => 0,
    }
}
