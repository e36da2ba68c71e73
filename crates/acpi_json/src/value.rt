//! The value of a field, and what it means. A function whose name begins with `push` adds to a text.

ghost use Rattle.std.specs.Prelude.{◌≡◌, ◌/◌, ◌≤◌, List, [], ◌∷◌, ◌++◌, true, false, length, codes, OnOk, IfOk};
ghost use Rattle.std.specs.Option.{option_map};
ghost use Rattle.acpi_base.specs.Bytes.{carried};
ghost use Rattle.acpi_base.specs.Look.{Part, part_of, bits_of, words_of, look_of};
ghost use Rattle.acpi_json.specs.Text.{separator, string};
ghost use Rattle.acpi_json.specs.Value.{number_or_list, value, word_member, said, named_number, bits};
ghost use Rattle.acpi_json.specs.Value.{rest as bits_left, number_meaning, meaning};
ghost use Rattle.acpi_text.specs.Note.{find_word, without};

use crate::number::{push_decimal, push_number, push_numbers};
use crate::string::{
    push_characters, push_digits_string, push_number_digits, push_separator, push_string,
};
use acpi_base::row::{Bits, Look, Word};
use acpi_text::note;
use acpi_text::note::{find_word, trimmed};
use std::alloc::AllocError;

// Returns how many numbers of a width bytes have, or 0 if the width is 0.
fn count_of(width: usize, size: usize) -> usize
    ensures { result ≡ size / width }
{
    if width == 0 { 0 } else { size / width }
}

// Adds one number of `width` bytes, or a list of such numbers.
fn push_number_or_list(width: usize, bytes: &[u8], text: &mut Vec<u8>) -> Result<(), AllocError>
    ensures { OnOk result (text.new.items ≡ text.old.items ++ number_or_list width bytes.now) }
{
    if bytes.len() == width {
        return push_number(bytes, text);
    }
    text.extend_from_slice(b"[")?;
    push_numbers(width, count_of(width, bytes.len()), bytes, text)?;
    text.extend_from_slice(b"]")
}

/// Adds the value of a field: characters without the zeros at their end, bytes in hexadecimal, or numbers.
pub fn push_value(
    look: Look,
    width: usize,
    bytes: &[u8],
    text: &mut Vec<u8>,
) -> Result<(), AllocError>
    ensures { OnOk result (text.new.items ≡ text.old.items ++ value (look_of look) width bytes.now) }
{
    match look {
        Look::Text => push_string(trimmed(bytes), text),
        Look::Bytes | Look::Uuid | Look::Register | Look::Reserved => {
            push_digits_string(bytes, text)
        }
        Look::Number
        | Look::Hex
        | Look::Preset(_)
        | Look::Reference
        | Look::Flags(_)
        | Look::OneOf(_) => push_number_or_list(width, bytes, text),
    }
}

// Adds the name of a number that stands for one of several things.
fn push_word(name: Option<&'static str>, text: &mut Vec<u8>) -> Result<(), AllocError>
    ensures { OnOk result (text.new.items ≡ text.old.items ++ word_member (option_map (λ name. name.now) name.entry)) }
{
    match name {
        Some(name) => {
            text.extend_from_slice(b",\"meaning\":")?;
            push_string(name.as_bytes(), text)
        }
        None => Ok(()),
    }
}

// Adds a name to what a list says.
fn push_name(first: bool, name: &str, text: &mut Vec<u8>) -> Result<(), AllocError>
    ensures { OnOk result (text.new.items ≡ text.old.items ++ said first (string name.now)) }
{
    push_separator(first, text)?;
    push_string(name.as_bytes(), text)
}

// Adds a name and a number to what a list says.
fn push_named_number(
    first: bool,
    name: &str,
    number: u64,
    text: &mut Vec<u8>,
) -> Result<(), AllocError>
    ensures { OnOk result (text.new.items ≡ text.old.items ++ said first (named_number name.now number)) }
{
    push_separator(first, text)?;
    text.push(b'"')?;
    push_characters(name.as_bytes(), text)?;
    text.push(b' ')?;
    push_decimal(number, text)?;
    text.push(b'"')?;
    Ok(())
}

// What a list hasn't said yet of a number: whether it said nothing, and the bits that are left.
#[derive(Clone, Copy)]
struct Left {
    first: bool,
    number: u64,
}

// Returns what is left once these bits of a number are said.
fn after(mask: u64, number: u64) -> Left
    ensures { result ≡ record { first = false; number = without mask number } }
{
    Left {
        first: false,
        number: number - (number & mask),
    }
}

// Returns how many times a unit is in a number, or 0 if the unit is 0.
fn quotient(number: u64, unit: u64) -> u64
    ensures { result ≡ number / unit }
{
    if unit == 0 { 0 } else { number / unit }
}

// Adds the bits that are left, in hexadecimal.
fn push_rest(left: Left, text: &mut Vec<u8>) -> Result<(), AllocError>
    ensures { OnOk result (text.new.items ≡ text.old.items ++ bits_left left.first left.number) }
{
    if left.number == 0 {
        return Ok(());
    }
    push_separator(left.first, text)?;
    text.extend_from_slice(b"\"0x")?;
    push_number_digits(trimmed(&left.number.to_le_bytes()), text)?;
    text.extend_from_slice(b"\"")
}

// Adds what some bits are.
fn push_part(part: &Bits, left: Left, text: &mut Vec<u8>) -> Result<Left, AllocError>
    ensures { IfOk result (λ next. (parts : List Part)
        → text.new.items ++ bits parts next.first next.number
        ≡ text.old.items ++ bits (part_of part.now ∷ parts) left.first left.number) }
{
    let Left { first, number } = left;
    match *part {
        Bits::Flag(mask, _) if number & mask == 0 => Ok(left),
        Bits::Flag(mask, name) => {
            push_name(first, name, text)?;
            Ok(after(mask, number))
        }
        Bits::OneOf(mask, words) => match find_word(words, number & mask) {
            Some(name) => {
                push_name(first, name, text)?;
                Ok(after(mask, number))
            }
            None => Ok(left),
        },
        Bits::Number(mask, lowest, name) => {
            push_named_number(first, name, quotient(number & mask, lowest), text)?;
            Ok(after(mask, number))
        }
    }
}

// Adds what the bits of a number are.
fn push_bits(parts: &[Bits], number: u64, text: &mut Vec<u8>) -> Result<(), AllocError>
    ensures { OnOk result (text.new.items ≡ text.old.items ++ bits (bits_of parts.now) true number) }
{
    let mut left = Left {
        first: true,
        number,
    };
    'parts: for part in parts {
        left = push_part(part, left, text)?;
    }
    push_rest(left, text)
}

// Adds the member that says what bits are.
fn push_flags(parts: &[Bits], number: u64, text: &mut Vec<u8>) -> Result<(), AllocError>
    ensures { OnOk result (text.new.items ≡ text.old.items
        ++ (codes ",\"bits\":[" ++ bits (bits_of parts.now) true number ++ codes "]")) }
{
    text.extend_from_slice(b",\"bits\":[")?;
    push_bits(parts, number, text)?;
    text.extend_from_slice(b"]")
}

// Adds the member that says what a number means, if there is one.
fn push_number_meaning(look: Look, number: u64, text: &mut Vec<u8>) -> Result<(), AllocError>
    ensures { OnOk result (text.new.items ≡ text.old.items ++ number_meaning (look_of look) number) }
{
    match look {
        Look::Flags(parts) => push_flags(parts, number, text),
        Look::OneOf(words) => push_word(find_word(words, number), text),
        Look::Number | Look::Preset(_) | Look::Reference => Ok(()),
        Look::Hex | Look::Bytes | Look::Text | Look::Uuid | Look::Register | Look::Reserved => {
            Ok(())
        }
    }
}

/// Adds the member that says what the numbers of a field mean, if there is one.
pub fn push_meaning(
    look: Look,
    width: usize,
    bytes: &[u8],
    text: &mut Vec<u8>,
) -> Result<(), AllocError>
    ensures { OnOk result (text.new.items ≡ text.old.items ++ meaning (look_of look) width bytes.now) }
{
    if bytes.len() == width && width <= 8 {
        return push_number_meaning(look, note::number(bytes), text);
    }
    Ok(())
}
