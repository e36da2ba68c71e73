//! Hexadecimal digits, in lower case. A function whose name begins with `push` adds to a text.

ghost use Rattle.std.specs.Prelude.{◌≡◌, ◌*◌, ◌/◌, ◌%◌, ◌∷◌, ◌++◌, length, OnOk, string_bytes};
ghost use Rattle.acpi_base.specs.Digit.{hex_digit, hex_byte};
ghost use Rattle.acpi_text.specs.Hex.{number_text, numbers_text};

use std::alloc::AllocError;
use std::str;

// The two digits of each byte, in order.
const DIGITS: &str = "\
    000102030405060708090a0b0c0d0e0f101112131415161718191a1b1c1d1e1f\
    202122232425262728292a2b2c2d2e2f303132333435363738393a3b3c3d3e3f\
    404142434445464748494a4b4c4d4e4f505152535455565758595a5b5c5d5e5f\
    606162636465666768696a6b6c6d6e6f707172737475767778797a7b7c7d7e7f\
    808182838485868788898a8b8c8d8e8f909192939495969798999a9b9c9d9e9f\
    a0a1a2a3a4a5a6a7a8a9aaabacadaeafb0b1b2b3b4b5b6b7b8b9babbbcbdbebf\
    c0c1c2c3c4c5c6c7c8c9cacbcccdcecfd0d1d2d3d4d5d6d7d8d9dadbdcdddedf\
    e0e1e2e3e4e5e6e7e8e9eaebecedeeeff0f1f2f3f4f5f6f7f8f9fafbfcfdfeff";

// Returns the first digit of a byte.
#[inline(always)]
fn high(byte: u8) -> u8
    ensures { result ≡ hex_digit (byte / 16) }
{
    DIGITS.as_bytes()[2 * usize::from(byte)]
}

// Returns the second digit of a byte.
#[inline(always)]
fn low(byte: u8) -> u8
    ensures { result ≡ hex_digit (byte % 16) }
{
    DIGITS.as_bytes()[2 * usize::from(byte) + 1]
}

// Returns a space and a number of one byte.
#[inline(always)]
fn byte_text(bytes: &[u8]) -> [u8; 3]
    requires { length bytes.now ≡ 1 }
    ensures { result ≡ 32 ∷ number_text bytes.now }
{
    [b' ', high(bytes[0]), low(bytes[0])]
}

// Returns a space and a number of two bytes.
#[rattlefmt::skip]
#[inline(always)]
fn word_text(bytes: &[u8]) -> [u8; 5]
    requires { length bytes.now ≡ 2 }
    ensures { result ≡ 32 ∷ number_text bytes.now }
{
    [b' ', high(bytes[1]), low(bytes[1]), high(bytes[0]), low(bytes[0])]
}

// Returns a space and a number of four bytes.
#[rattlefmt::skip]
#[inline(always)]
fn dword_text(bytes: &[u8]) -> [u8; 9]
    requires { length bytes.now ≡ 4 }
    ensures { result ≡ 32 ∷ number_text bytes.now }
{
    [
        b' ',
        high(bytes[3]), low(bytes[3]),
        high(bytes[2]), low(bytes[2]),
        high(bytes[1]), low(bytes[1]),
        high(bytes[0]), low(bytes[0]),
    ]
}

// Returns a space and a number of eight bytes.
#[rattlefmt::skip]
#[inline(always)]
fn qword_text(bytes: &[u8]) -> [u8; 17]
    requires { length bytes.now ≡ 8 }
    ensures { result ≡ 32 ∷ number_text bytes.now }
{
    [
        b' ',
        high(bytes[7]), low(bytes[7]),
        high(bytes[6]), low(bytes[6]),
        high(bytes[5]), low(bytes[5]),
        high(bytes[4]), low(bytes[4]),
        high(bytes[3]), low(bytes[3]),
        high(bytes[2]), low(bytes[2]),
        high(bytes[1]), low(bytes[1]),
        high(bytes[0]), low(bytes[0]),
    ]
}

// Adds a space and the digits of a number of these bytes. Digits are ASCII, so they are text.
#[inline(always)]
fn push_digits(bytes: &[u8], digits: &[u8], text: &mut String) -> Result<(), AllocError>
    requires { digits.now ≡ 32 ∷ number_text bytes.now }
    ensures { OnOk result (string_bytes text.new ≡ string_bytes text.old ++ 32 ∷ number_text bytes.now) }
{
    text.push_str(unsafe { str::from_utf8_unchecked(digits) })
}

// Adds the two digits of a byte.
fn push_hex_byte(byte: u8, text: &mut String) -> Result<(), AllocError>
    ensures { OnOk result (string_bytes text.new ≡ string_bytes text.old ++ hex_byte byte) }
{
    text.push(char::from(high(byte)))?;
    text.push(char::from(low(byte)))?;
    Ok(())
}

/// Adds the digits of a number, byte by byte.
pub fn push_bytes(bytes: &[u8], text: &mut String) -> Result<(), AllocError>
    ensures { OnOk result (string_bytes text.new ≡ string_bytes text.old ++ number_text bytes.now) }
{
    let mut left = bytes.len();
    'digits: while left > 0 {
        left -= 1;
        push_hex_byte(bytes[left], text)?;
    }
    Ok(())
}

// Adds a space and a number of any width.
fn push_wide(bytes: &[u8], text: &mut String) -> Result<(), AllocError>
    ensures { OnOk result (string_bytes text.new ≡ string_bytes text.old ++ 32 ∷ number_text bytes.now) }
{
    text.push_str(" ")?;
    push_bytes(bytes, text)
}

// Adds a space and a number of fewer than four bytes. The cases are apart from those of four bytes or more since two comparisons
// take fewer instructions than one jump by a table of four.
#[inline(always)]
fn push_narrow(bytes: &[u8], text: &mut String) -> Result<(), AllocError>
    ensures { OnOk result (string_bytes text.new ≡ string_bytes text.old ++ 32 ∷ number_text bytes.now) }
{
    match bytes.len() {
        1 => push_digits(bytes, &byte_text(bytes), text),
        2 => push_digits(bytes, &word_text(bytes), text),
        _ => push_wide(bytes, text),
    }
}

// Adds a space and a number, whose bytes are given lowest first: two digits for each byte, the highest first.
#[inline(always)]
fn push_number(bytes: &[u8], text: &mut String) -> Result<(), AllocError>
    ensures { OnOk result (string_bytes text.new ≡ string_bytes text.old ++ 32 ∷ number_text bytes.now) }
{
    if bytes.len() < 4 {
        return push_narrow(bytes, text);
    }
    match bytes.len() {
        4 => push_digits(bytes, &dword_text(bytes), text),
        8 => push_digits(bytes, &qword_text(bytes), text),
        _ => push_wide(bytes, text),
    }
}

/// Adds `count` numbers of `width` bytes, with a space before each.
pub fn push_numbers(
    width: usize,
    count: usize,
    bytes: &[u8],
    text: &mut String,
) -> Result<(), AllocError>
    requires { length bytes.now ≡ width * count }
    ensures { OnOk result (string_bytes text.new ≡ string_bytes text.old ++ numbers_text width count bytes.now) }
{
    let mut rest = bytes;
    let mut left = count;
    'numbers: while left > 0 {
        left -= 1;
        let (number, more) = rest.split_at(width);
        rest = more;
        push_number(number, text)?;
    }
    Ok(())
}
