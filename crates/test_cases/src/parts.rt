//! Numbers and words at the front of a text.

ghost use Rattle.std.specs.Prelude.{◌≤◌, length};

use std::io::{Error, ErrorKind};
use std::{io, str};

/// The error of a line that isn't of the form in which cases are written.
pub fn unreadable() -> Error {
    Error::new(ErrorKind::InvalidData, "a line that can't be read")
}

/// Splits a text at the first of these bytes, which is in neither part.
pub fn split_once(text: &[u8], byte: u8) -> Option<(&[u8], &[u8])> {
    for (at, other) in text.iter().enumerate() {
        if *other == byte {
            return Some((&text[..at], &text[at + 1..]));
        }
    }
    None
}

// Returns how many decimal digits are at the front.
fn digits(text: &[u8]) -> usize
    ensures { result ≤ length text.now }
{
    for (at, byte) in text.iter().enumerate() {
        if !byte.is_ascii_digit() {
            return at;
        }
    }
    text.len()
}

/// Returns the decimal number at the front, and the text after it.
pub fn number(text: &[u8]) -> io::Result<(usize, &[u8])> {
    let (digits, after) = text.split_at(digits(text));
    let Ok(digits) = str::from_utf8(digits) else {
        return Err(unreadable());
    };
    match digits.parse::<usize>() {
        Ok(number) => Ok((number, after)),
        Err(_) => Err(unreadable()),
    }
}

fn hex_digit(byte: u8) -> Option<u8> {
    match byte {
        b'0'..=b'9' => Some(byte - b'0'),
        b'a'..=b'f' => Some(byte - b'a' + 10),
        _ => None,
    }
}

/// Returns the byte of two hexadecimal digits.
pub fn hex_byte(high: u8, low: u8) -> Option<u8> {
    Some(hex_digit(high)? << 4 | hex_digit(low)?)
}
