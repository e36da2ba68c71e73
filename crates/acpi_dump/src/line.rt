//! What a line of a dump is. Lines are given without what ends them.

ghost use Rattle.std.specs.Prelude.{◌≡◌, ◌==◌, ◌++◌, true, false, length, OnOk, MatchOption, IfSome};
ghost use Rattle.std.specs.Char.{is_ascii_hexdigit};
ghost use Rattle.std.specs.List.{take_while, list_all, AllPass};
ghost use Rattle.acpi_dump.specs.Line.{is_blank, is_address, ends_in_address, is_title, is_byte, bytes_in, unindented};
ghost use Rattle.acpi_dump.specs.Line.{digits_of, rest_of, is_data};

use crate::digits::{digit, is_digit};
use std::alloc::AllocError;

/// Returns whether a line has only spaces and tabs.
pub fn is_blank(line: &[u8]) -> bool
    ensures { result ≡ is_blank line.now }
{
    line.iter().all(|byte| *byte == b' ' || *byte == b'\t')
}

// Returns whether all bytes are hexadecimal digits.
fn all_digits(text: &[u8]) -> bool
    ensures { result ≡ list_all is_ascii_hexdigit text.now }
{
    text.iter().all(|byte| is_digit(*byte))
}

// Returns whether a text is ` @ 0x` with hexadecimal digits after it.
fn is_address(text: &[u8]) -> bool
    ensures { result ≡ is_address text.now }
{
    text.len() > 5 && text.starts_with(b" @ 0x") && all_digits(&text[5..])
}

// Returns whether a text ends in such an address.
fn ends_in_address(text: &[u8]) -> bool
    ensures { result ≡ ends_in_address text.now }
{
    'places: for at in 0..text.len() {
        if is_address(&text[at..]) {
            return true;
        }
    }
    false
}

/// Returns whether a line is a title: a name that doesn't begin with a space, and an address.
pub fn is_title(line: &[u8]) -> bool
    ensures { result ≡ is_title line.now }
{
    match line {
        [first, rest @ ..] => *first != b' ' && ends_in_address(rest),
        [] => false,
    }
}

// Returns whether a text begins with a space and the two digits of a byte, and then ends or has a space.
fn is_byte(text: &[u8]) -> bool
    ensures { result ≡ is_byte text.now }
{
    text.len() >= 3
        && text[0] == b' '
        && is_digit(text[1])
        && is_digit(text[2])
        && (text.len() == 3 || text[3] == b' ')
}

/// Adds the bytes at the front of a text, at most 16.
pub fn push_bytes(text: &[u8], table: &mut Vec<u8>) -> Result<(), AllocError>
    ensures { OnOk result (table.new.items ≡ table.old.items ++ bytes_in 16 text.now) }
{
    let mut rest = text;
    let mut left: usize = 16;
    'bytes: while left > 0 && is_byte(rest) {
        table.push(16 * digit(rest[1]) + digit(rest[2]))?;
        rest = &rest[3..];
        left -= 1;
    }
    Ok(())
}

/// The parts of a line that has bytes.
#[derive(Clone, Copy)]
pub struct Parts<'a> {
    /// The digits of the offset.
    pub digits: &'a [u8],
    /// The text after the colon.
    pub rest: &'a [u8],
}

// Returns how many spaces are at the front of a line.
fn count_spaces(line: &[u8]) -> usize
    ensures { result ≡ length (take_while (λ c. c == 32) line.now) }
{
    line.iter().take_while(|byte| **byte == b' ').count()
}

// Returns a line without the spaces at its front.
fn unindented(line: &[u8]) -> &[u8]
    ensures { result.now ≡ unindented line.now }
{
    &line[count_spaces(line)..]
}

// Returns how many hexadecimal digits are at the front of a text.
fn count_digits(text: &[u8]) -> usize
    ensures { result ≡ length (take_while is_ascii_hexdigit text.now) }
{
    text.iter().take_while(|byte| is_digit(**byte)).count()
}

/// Returns the parts of a line that has bytes, or none for any other line.
pub fn parts_of(line: &[u8]) -> Option<Parts<'_>>
    ensures cases { MatchOption result (is_data line.now ≡ false) (λ parts. is_data line.now ≡ true) }
    ensures digits { IfSome result (λ parts. parts.digits.now ≡ digits_of line.now) }
    ensures hexadecimal { IfSome result (λ parts. AllPass is_ascii_hexdigit parts.digits.now) }
    ensures rest { IfSome result (λ parts. parts.rest.now ≡ rest_of line.now) }
{
    if line.is_empty() || line[0] != b' ' {
        return None;
    }
    let text = unindented(line);
    let size = count_digits(text);
    if size == 0 || size >= text.len() || text[size] != b':' {
        return None;
    }
    let rest = &text[size + 1..];
    if is_byte(rest) {
        Some(Parts {
            digits: &text[..size],
            rest,
        })
    } else {
        None
    }
}
