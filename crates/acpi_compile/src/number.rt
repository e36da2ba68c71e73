//! The numbers and the strings of ASL.

use crate::fault::Why;
use acpi_base::digit::digit_value;
use std::alloc::{AllocError, Global};

/// A number with its digits: the value, and how many bytes the digits are.
#[derive(Clone, Copy)]
pub struct Number {
    pub value: u64,
    pub width: u8,
}

// The value of hexadecimal digits, of which there are at most 16.
fn value_of(digits: &[u8]) -> Option<u64> {
    let mut value: u64 = 0;
    'digits: for digit in digits {
        value = value.wrapping_mul(16) | u64::from(digit_value(*digit)?);
    }
    Some(value)
}

// How many bytes this many digits are.
fn width_of(digits: usize) -> Option<u8> {
    match digits {
        2 => Some(1),
        4 => Some(2),
        8 => Some(4),
        16 => Some(8),
        _ => None,
    }
}

/// A number with two, four, eight or sixteen digits after `0x`.
pub fn hex(word: &[u8]) -> Option<Number> {
    let [b'0', b'x', digits @ ..] = word else {
        return None;
    };
    let width = width_of(digits.len())?;
    let value = value_of(digits)?;
    Some(Number { value, width })
}

/// A decimal number of at most nine digits.
pub fn decimal(word: &[u8]) -> Option<u32> {
    if word.is_empty() || word.len() > 9 {
        return None;
    }
    let mut value: u32 = 0;
    'digits: for digit in word {
        if !digit.is_ascii_digit() {
            return None;
        }
        value = value
            .wrapping_mul(10)
            .wrapping_add(u32::from(*digit - b'0'));
    }
    Some(value)
}

// What follows a backslash in a string.
#[derive(Clone, Copy)]
enum Escape {
    Absent,
    // The backslash alone.
    Begun,
    // The letter `x`.
    Hex,
    // The letter, and the first digit's value.
    Digit(u8),
}

/// The bytes of a string between quotation marks, or why it is none. A byte that doesn't print is `\x` and two digits (ACPI 6.5,
/// 19.2.4).
pub fn string(alloc: Global, word: &[u8]) -> Result<Result<Vec<u8>, Why>, AllocError> {
    let [b'"', inside @ .., b'"'] = word else {
        return Ok(Err(Why::Text));
    };
    let mut bytes = Vec::new(alloc);
    let mut escape = Escape::Absent;
    'characters: for c in inside {
        escape = match escape {
            _ if !(0x20..=0x7e).contains(c) => return Ok(Err(Why::Text)),
            Escape::Absent if *c == b'\\' => Escape::Begun,
            Escape::Absent => {
                bytes.push(*c)?;
                Escape::Absent
            }
            Escape::Begun if *c == b'x' => Escape::Hex,
            Escape::Begun if *c == b'"' || *c == b'\\' => {
                bytes.push(*c)?;
                Escape::Absent
            }
            Escape::Begun => return Ok(Err(Why::Escape)),
            Escape::Hex => {
                let Some(high) = digit_value(*c) else {
                    return Ok(Err(Why::Escape));
                };
                Escape::Digit(high)
            }
            Escape::Digit(high) => {
                let Some(low) = digit_value(*c) else {
                    return Ok(Err(Why::Escape));
                };
                bytes.push(high.wrapping_mul(16) | low)?;
                Escape::Absent
            }
        };
    }
    match escape {
        Escape::Absent => Ok(Ok(bytes)),
        _ => Ok(Err(Why::Escape)),
    }
}
