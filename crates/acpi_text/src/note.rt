//! What the value of a field means, as a comment after it. A function whose name begins with `push` adds to a text.

ghost use Rattle.std.specs.Prelude.{◌≡◌, ◌<◌, ◌≤◌, ◌*◌, ◌/◌, List, [], ◌∷◌, ◌++◌, true, false};
ghost use Rattle.std.specs.Prelude.{length, OnOk, IfOk, string_bytes, codes};
ghost use Rattle.std.specs.Fmt.{decimal};
ghost use Rattle.std.specs.Option.{option_map};
ghost use Rattle.acpi_base.specs.Bytes.{carried};
ghost use Rattle.acpi_base.specs.Look.{Part, part_of, bits_of, words_of, look_of};
ghost use Rattle.acpi_text.specs.Label.{all_print, label};
ghost use Rattle.acpi_text.specs.Note.{decimal_text, trimmed, find_word, word_text, said, without, rest_text, bits_text};
ghost use Rattle.acpi_text.specs.Note.{number_meaning, quoted, meaning};

use crate::hex::push_bytes;
use crate::space::{prints, push_label};
use acpi_base::row::{Bits, Look, Word};
use itoa::Buffer;
use std::alloc::AllocError;

/// Returns whether all bytes print.
pub fn all_print(bytes: &[u8]) -> bool
    ensures { result ≡ all_print bytes.now }
{
    'bytes: for byte in bytes {
        if !prints(*byte) {
            return false;
        }
    }
    true
}

// Returns the number that bytes of any width carry, byte by byte.
fn wide_number(bytes: &[u8]) -> u64
    requires { length bytes.now ≤ 8 }
    ensures { result ≡ carried bytes.now }
{
    let mut number = 0;
    let mut left = bytes.len();
    'bytes: while left > 0 {
        left -= 1;
        number = number * 256 + u64::from(bytes[left]);
    }
    number
}

// Returns the number that fewer than four bytes carry. The cases are apart for the same reason as in `hex.rt`.
#[inline(always)]
fn narrow_number(bytes: &[u8]) -> u64
    requires { length bytes.now < 4 }
    ensures { result ≡ carried bytes.now }
{
    match bytes.len() {
        1 => u64::from(bytes[0]),
        2 => u64::from(u16::from_le_bytes([bytes[0], bytes[1]])),
        _ => wide_number(bytes),
    }
}

/// Returns the number that bytes carry, lowest first.
#[rattlefmt::skip]
#[inline(always)]
pub fn number(bytes: &[u8]) -> u64
    requires { length bytes.now ≤ 8 }
    ensures { result ≡ carried bytes.now }
{
    if bytes.len() < 4 {
        return narrow_number(bytes);
    }
    match bytes.len() {
        4 => u64::from(u32::from_le_bytes([bytes[0], bytes[1], bytes[2], bytes[3]])),
        8 => u64::from_le_bytes([
            bytes[0], bytes[1], bytes[2], bytes[3], bytes[4], bytes[5], bytes[6], bytes[7],
        ]),
        _ => wide_number(bytes),
    }
}

/// Returns bytes without the zeros at their end.
pub fn trimmed(bytes: &[u8]) -> &[u8]
    ensures { result.now ≡ trimmed bytes.now }
{
    let mut end = bytes.len();
    'zeros: while end > 0 {
        if bytes[end - 1] != 0 {
            return &bytes[..end];
        }
        end -= 1;
    }
    &[]
}

/// Adds bytes that all print, between quotation marks.
pub fn push_quoted(bytes: &[u8], text: &mut String) -> Result<(), AllocError>
    requires { all_print bytes.now ≡ true }
    ensures { OnOk result (string_bytes text.new ≡ string_bytes text.old
        ++ (codes "\"" ++ (bytes.now ++ codes "\""))) }
{
    text.push_str("\"")?;
    'bytes: for byte in bytes {
        text.push(*byte as char)?;
    }
    text.push_str("\"")
}

// Adds characters that all print, if there are any.
fn push_text(characters: &[u8], text: &mut String) -> Result<(), AllocError>
    ensures { OnOk result (string_bytes text.new ≡ string_bytes text.old ++ quoted characters.now) }
{
    if !characters.is_empty() && all_print(characters) {
        text.push_str("  // ")?;
        push_quoted(characters, text)
    } else {
        Ok(())
    }
}

// Adds a number of two digits or more.
#[inline(always)]
fn push_decimal(number: u64, text: &mut String) -> Result<(), AllocError>
    ensures { OnOk result (string_bytes text.new ≡ string_bytes text.old ++ decimal_text number) }
{
    if number < 10 {
        return Ok(());
    }
    text.push_str("  // ")?;
    text.push_str(Buffer::new().format(number))
}

/// Returns the name of a number.
pub fn find_word(words: &[Word], number: u64) -> Option<&'static str>
    ensures { option_map (λ name. name.now) result ≡ find_word (words_of words.now) number }
{
    'words: for word in words {
        if number == word.0 {
            return Some(word.1);
        }
    }
    None
}

// Adds the name of a number, or else the number.
fn push_word(words: &[Word], number: u64, text: &mut String) -> Result<(), AllocError>
    ensures { OnOk result (string_bytes text.new ≡ string_bytes text.old
        ++ word_text (find_word (words_of words.now) number) number) }
{
    match find_word(words, number) {
        Some(name) => {
            text.push_str("  // ")?;
            push_label(name, text)
        }
        None => push_decimal(number, text),
    }
}

// Adds what stands before one more thing that a comment says.
fn push_before(first: bool, text: &mut String) -> Result<(), AllocError>
    ensures { OnOk result (string_bytes text.new ≡ string_bytes text.old ++ said first []) }
{
    text.push_str(if first { "  // " } else { " | " })
}

// Adds a name to a comment.
fn push_name(first: bool, name: &str, text: &mut String) -> Result<(), AllocError>
    ensures { OnOk result (string_bytes text.new ≡ string_bytes text.old ++ said first (label name.now)) }
{
    push_before(first, text)?;
    push_label(name, text)
}

// What a comment hasn't said yet of a number: whether it said nothing, and the bits that are left.
#[derive(Clone, Copy)]
struct Left {
    first: bool,
    number: u64,
}

// Returns how many times a unit is in a number, or 0 if the unit is 0.
fn quotient(number: u64, unit: u64) -> u64
    ensures { result ≡ number / unit }
{
    if unit == 0 { 0 } else { number / unit }
}

// Adds the name of bits that are a number, and that number.
fn push_named_number(
    first: bool,
    name: &str,
    number: u64,
    text: &mut String,
) -> Result<(), AllocError>
    ensures { OnOk result (string_bytes text.new ≡ string_bytes text.old
        ++ said first (label name.now ++ (32 ∷ decimal number))) }
{
    push_name(first, name, text)?;
    text.push_str(" ")?;
    text.push_str(Buffer::new().format(number))
}

// Adds the bits that are left, in hexadecimal.
fn push_rest(left: Left, text: &mut String) -> Result<(), AllocError>
    ensures { OnOk result (string_bytes text.new ≡ string_bytes text.old ++ rest_text left.first left.number) }
{
    if left.number == 0 {
        return Ok(());
    }
    push_before(left.first, text)?;
    text.push_str("0x")?;
    push_bytes(trimmed(&left.number.to_le_bytes()), text)
}

// Returns what is left once these bits of a number are said.
fn after(mask: u64, number: u64) -> Left
    ensures { result ≡ record { first = false; number = without mask number } }
{
    Left {
        first: false,
        number: number - (number & mask),
    }
}

// Adds what some bits are.
fn push_part(part: &Bits, left: Left, text: &mut String) -> Result<Left, AllocError>
    ensures { IfOk result (λ next. (parts : List Part)
        → string_bytes text.new ++ bits_text parts next.first next.number
        ≡ string_bytes text.old ++ bits_text (part_of part.now ∷ parts) left.first left.number) }
{
    let Left { first, number } = left;
    match *part {
        Bits::Flag(mask, _) if number & mask == 0 => Ok(left),
        Bits::Flag(mask, name) => {
            push_name(first, name, text)?;
            Ok(after(mask, number))
        }
        Bits::OneOf(mask, words) => match find_word(words, number & mask) {
            Some(name) => {
                push_name(first, name, text)?;
                Ok(after(mask, number))
            }
            None => Ok(left),
        },
        Bits::Number(mask, lowest, name) => {
            push_named_number(first, name, quotient(number & mask, lowest), text)?;
            Ok(after(mask, number))
        }
    }
}

// Adds what the bits of a number are.
fn push_bits(parts: &[Bits], number: u64, text: &mut String) -> Result<(), AllocError>
    ensures { OnOk result (string_bytes text.new ≡ string_bytes text.old ++ bits_text (bits_of parts.now) true number) }
{
    let mut left = Left {
        first: true,
        number,
    };
    'parts: for part in parts {
        left = push_part(part, left, text)?;
    }
    push_rest(left, text)
}

// Adds the meaning of a number.
fn push_number(look: Look, number: u64, text: &mut String) -> Result<(), AllocError>
    ensures { OnOk result (string_bytes text.new ≡ string_bytes text.old ++ number_meaning (look_of look) number) }
{
    match look {
        Look::Number | Look::Preset(_) | Look::Reference => push_decimal(number, text),
        Look::Flags(parts) => push_bits(parts, number, text),
        Look::OneOf(words) => push_word(words, number, text),
        Look::Hex | Look::Bytes | Look::Text | Look::Uuid | Look::Register | Look::Reserved => {
            Ok(())
        }
    }
}

/// Adds a comment: the meaning of one number, or a text.
pub fn push_meaning(
    look: Look,
    width: usize,
    count: usize,
    field: &[u8],
    text: &mut String,
) -> Result<(), AllocError>
    requires { length field.now ≡ width * count }
    ensures { OnOk result (string_bytes text.new ≡ string_bytes text.old ++ meaning (look_of look) width count field.now) }
{
    match look {
        Look::Text => push_text(trimmed(field), text),
        _ if count == 1 && width <= 8 => push_number(look, number(field), text),
        _ => Ok(()),
    }
}
