//! Strings of JSON. A function whose name begins with `push` adds to a text.

ghost use Rattle.std.specs.Prelude.{◌≡◌, ◌<◌, ◌++◌, OnOk};
ghost use Rattle.std.specs.List.{flat_map};
ghost use Rattle.acpi_base.specs.Digit.{hex_digit, hex_byte};
ghost use Rattle.acpi_text.specs.Hex.{number_text};
ghost use Rattle.acpi_json.specs.Text.{separator, character, characters, string, text_byte, text_string, digits_string};

use std::alloc::AllocError;

// Returns the digit of a number below 16.
fn digit(number: u8) -> u8
    requires { number < 16 }
    ensures { result ≡ hex_digit number }
{
    if number < 10 {
        b'0' + number
    } else {
        b'a' + (number - 10)
    }
}

// Adds the two digits of a byte.
fn push_hex(byte: u8, text: &mut Vec<u8>) -> Result<(), AllocError>
    ensures { OnOk result (text.new.items ≡ text.old.items ++ hex_byte byte) }
{
    text.push(digit(byte / 16))?;
    text.push(digit(byte % 16))?;
    Ok(())
}

/// Adds a comma, unless the element that follows is the first of its list.
pub fn push_separator(first: bool, text: &mut Vec<u8>) -> Result<(), AllocError>
    ensures { OnOk result (text.new.items ≡ text.old.items ++ separator first) }
{
    if first {
        return Ok(());
    }
    text.extend_from_slice(b",")
}

// Adds the character that has the number of a byte.
fn push_character(byte: u8, text: &mut Vec<u8>) -> Result<(), AllocError>
    ensures { OnOk result (text.new.items ≡ text.old.items ++ character byte) }
{
    match byte {
        b'"' => text.extend_from_slice(b"\\\""),
        b'\\' => text.extend_from_slice(b"\\\\"),
        0x20..=0x7e => {
            text.push(byte)?;
            Ok(())
        }
        _ => {
            text.extend_from_slice(b"\\u00")?;
            push_hex(byte, text)
        }
    }
}

/// Adds the characters of bytes, without quotation marks.
pub fn push_characters(bytes: &[u8], text: &mut Vec<u8>) -> Result<(), AllocError>
    ensures { OnOk result (text.new.items ≡ text.old.items ++ characters bytes.now) }
{
    'bytes: for byte in bytes {
        push_character(*byte, text)?;
    }
    Ok(())
}

/// Adds bytes as a string, in which each byte is the character that has its number.
pub fn push_string(bytes: &[u8], text: &mut Vec<u8>) -> Result<(), AllocError>
    ensures { OnOk result (text.new.items ≡ text.old.items ++ string bytes.now) }
{
    text.push(b'"')?;
    push_characters(bytes, text)?;
    text.push(b'"')?;
    Ok(())
}

// Adds a byte of a text in UTF-8.
fn push_text_byte(byte: u8, text: &mut Vec<u8>) -> Result<(), AllocError>
    ensures { OnOk result (text.new.items ≡ text.old.items ++ text_byte byte) }
{
    if byte < 128 {
        push_character(byte, text)
    } else {
        text.push(byte)?;
        Ok(())
    }
}

// Adds the bytes of a text in UTF-8.
fn push_text_bytes(said: &[u8], text: &mut Vec<u8>) -> Result<(), AllocError>
    ensures { OnOk result (text.new.items ≡ text.old.items ++ flat_map text_byte said.now) }
{
    'bytes: for byte in said {
        push_text_byte(*byte, text)?;
    }
    Ok(())
}

/// Adds a text as a string. Characters that aren't of ASCII stand for themselves.
pub fn push_text_string(said: &str, text: &mut Vec<u8>) -> Result<(), AllocError>
    ensures { OnOk result (text.new.items ≡ text.old.items ++ text_string said.now) }
{
    text.push(b'"')?;
    push_text_bytes(said.as_bytes(), text)?;
    text.push(b'"')?;
    Ok(())
}

// Adds the digits of bytes, in their order.
fn push_hexes(bytes: &[u8], text: &mut Vec<u8>) -> Result<(), AllocError>
    ensures { OnOk result (text.new.items ≡ text.old.items ++ flat_map hex_byte bytes.now) }
{
    'bytes: for byte in bytes {
        push_hex(*byte, text)?;
    }
    Ok(())
}

/// Adds bytes as a string of hexadecimal digits, in their order.
pub fn push_digits_string(bytes: &[u8], text: &mut Vec<u8>) -> Result<(), AllocError>
    ensures { OnOk result (text.new.items ≡ text.old.items ++ digits_string bytes.now) }
{
    text.push(b'"')?;
    push_hexes(bytes, text)?;
    text.push(b'"')?;
    Ok(())
}

/// Adds the digits of a number whose bytes are given lowest first: two for each byte, the highest first.
pub fn push_number_digits(bytes: &[u8], text: &mut Vec<u8>) -> Result<(), AllocError>
    ensures { OnOk result (text.new.items ≡ text.old.items ++ number_text bytes.now) }
{
    let mut left = bytes.len();
    'digits: while left > 0 {
        left -= 1;
        push_hex(bytes[left], text)?;
    }
    Ok(())
}
