//! Numbers of JSON. A function whose name begins with `push` adds to a text.

ghost use Rattle.std.specs.Prelude.{◌≡◌, ◌++◌, true, OnOk};
ghost use Rattle.std.specs.Fmt.{decimal};
ghost use Rattle.acpi_json.specs.Number.{is_small, number, numbers};

use crate::string::{push_number_digits, push_separator};
use acpi_text::inner::split_within;
use acpi_text::note;
use itoa::Buffer;
use std::alloc::AllocError;

// The greatest number on which readers of JSON agree.
const MOST: u64 = 0x20_0000_0000_0000;

/// Adds a number in decimal.
pub fn push_decimal(number: u64, text: &mut Vec<u8>) -> Result<(), AllocError>
    ensures { OnOk result (text.new.items ≡ text.old.items ++ decimal number) }
{
    text.extend_from_slice(Buffer::new().format(number).as_bytes())
}

/// Adds an offset or a length in decimal.
pub fn push_size(size: usize, text: &mut Vec<u8>) -> Result<(), AllocError>
    ensures { OnOk result (text.new.items ≡ text.old.items ++ decimal size) }
{
    text.extend_from_slice(Buffer::new().format(size).as_bytes())
}

// Returns whether readers of JSON agree on the number that bytes have.
fn is_small(bytes: &[u8]) -> bool
    ensures { result ≡ is_small bytes.now }
{
    bytes.len() <= 8 && note::number(bytes) <= MOST
}

/// Adds the number that bytes have, lowest first. If it is above 2^53, it is a string with its hexadecimal digits.
pub fn push_number(bytes: &[u8], text: &mut Vec<u8>) -> Result<(), AllocError>
    ensures { OnOk result (text.new.items ≡ text.old.items ++ number bytes.now) }
{
    if is_small(bytes) {
        return push_decimal(note::number(bytes), text);
    }
    text.extend_from_slice(b"\"0x")?;
    push_number_digits(bytes, text)?;
    text.extend_from_slice(b"\"")
}

/// Adds `count` numbers of `width` bytes as the elements of a list.
pub fn push_numbers(
    width: usize,
    count: usize,
    bytes: &[u8],
    text: &mut Vec<u8>,
) -> Result<(), AllocError>
    ensures { OnOk result (text.new.items ≡ text.old.items ++ numbers true width count bytes.now) }
{
    let mut first = true;
    let mut rest = bytes;
    let mut left = count;
    'numbers: while left > 0 {
        left -= 1;
        let (one, more) = split_within(width, rest);
        rest = more;
        push_separator(first, text)?;
        push_number(one, text)?;
        first = false;
    }
    Ok(())
}
