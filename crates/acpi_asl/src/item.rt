//! The macros of resource descriptors. A function whose name begins with `push` adds to a text.

ghost use Rattle.std.specs.Prelude.{◌≡◌, ℕ, ◌+◌, ◌*◌, ◌≤◌, ◌++◌, ◌==◌, true, codes, slice_index_or, if◌then◌else◌, List, ◌∷◌, []};
ghost use Rattle.std.specs.Prelude.{length, map, take, drop, OnOk, string_bytes};
ghost use Rattle.acpi_asl.specs.Content.{value_of, offset_of, up_to_zero, source_at};
ghost use Rattle.acpi_asl.specs.Descriptor.{words, facts, descriptors};
ghost use Rattle.acpi_asl.specs.Number.{hex, string_text};
ghost use Rattle.acpi_asl.specs.Template.{tag_text, word_or_number, vendor_text, part_text, comma, parts_text, row_text};
ghost use Rattle.acpi_terms_text.specs.Descriptor.{item_size};
ghost use Rattle.acpi_asl.specs.Template.{part_fits, parts_fit, fits, found_in, found, is_found, found_text};
ghost use Rattle.acpi_terms_text.specs.Word.{word_in};

use crate::content::{
    all_hold, are_zero, between, byte_at, offset_of, push_number_at, source_at, up_to_zero,
    value_of,
};
use crate::descriptor::{Bits, Offset, Part, WordKind, words};
use crate::list::{push_bytes, push_comma, push_tail};
use crate::macros::{Descriptor, checks_left, descriptors, macro_opening, parts, tail};
use crate::number::{push_hex, push_string, upper_digit};
use acpi_terms_text::descriptor::item_size;
use acpi_terms_text::word::word_in;
use std::alloc::AllocError;

// The word of bits, or an empty one.
fn word_of(item: &[u8], bits: Bits, kind: WordKind) -> &'static str
    ensures { result.now ≡ word_in (words kind) (value_of item.now bits) }
{
    word_in(words(kind), value_of(item, bits))
}

fn push_tag(n: usize, text: &mut String) -> Result<(), AllocError>
    ensures { OnOk result (string_bytes text.new ≡ string_bytes text.old ++ tag_text n) }
{
    text.push('Y')?;
    text.push(upper_digit((n / 256 % 16) as u8))?;
    text.push(upper_digit((n / 16 % 16) as u8))?;
    text.push(upper_digit((n % 16) as u8))
}

fn push_if(is_null: bool, n: usize, text: &mut String) -> Result<(), AllocError>
    ensures { OnOk result (string_bytes text.new ≡ string_bytes text.old ++ (if is_null then tag_text n else [])) }
{
    if is_null {
        return push_tag(n, text);
    }
    Ok(())
}

// Adds the index of a resource source, if there is one.
fn push_index(item: &[u8], at: Offset, text: &mut String) -> Result<(), AllocError>
    ensures { OnOk result (string_bytes text.new ≡ string_bytes text.old
        ++ (if offset_of item.now at == length item.now then [] else hex 1 (slice_index_or item.now (offset_of item.now at) 0))) }
{
    let offset = offset_of(item, at);
    if offset == item.len() {
        return Ok(());
    }
    push_hex(1, u64::from(byte_at(item, offset)), text)
}

// Adds the name of a resource source, if there is one.
fn push_source(item: &[u8], at: Offset, text: &mut String) -> Result<(), AllocError>
    ensures { OnOk result (string_bytes text.new ≡ string_bytes text.old
        ++ (if offset_of item.now at == length item.now then [] else string_text (up_to_zero (source_at item.now at)))) }
{
    if offset_of(item, at) == item.len() {
        return Ok(());
    }
    push_string(up_to_zero(source_at(item, at)), text)
}

// Adds the word of a number, or the number if a vendor defines it.
fn push_word_or_number(
    words: &[(u8, &'static str)],
    number: u8,
    text: &mut String,
) -> Result<(), AllocError>
    ensures { OnOk result (string_bytes text.new ≡ string_bytes text.old
        ++ word_or_number (map (λ row. (row.0, row.1.now)) words.now) number) }
{
    if number < 0x80 {
        text.push_str(word_in(words, number))
    } else {
        push_hex(1, u64::from(number), text)
    }
}

// Adds a vendor's data, if there is any.
fn push_vendor(bytes: &[u8], text: &mut String) -> Result<(), AllocError>
    ensures { OnOk result (string_bytes text.new ≡ string_bytes text.old ++ vendor_text bytes.now) }
{
    if bytes.is_empty() {
        return Ok(());
    }
    text.push_str("RawDataBuffer (")?;
    push_hex(2, bytes.len() as u64, text)?;
    text.push_str(") {")?;
    push_bytes(bytes, text)?;
    text.push('}')
}

fn push_part(item: &[u8], n: usize, part: Part, text: &mut String) -> Result<(), AllocError>
    ensures { OnOk result (string_bytes text.new ≡ string_bytes text.old ++ part_text item.now n part) }
{
    match part {
        Part::Word(bits, kind) => text.push_str(word_of(item, bits, kind)),
        Part::WordOrNumber(bits, kind) => push_word_or_number(
            words(kind),
            value_of(item, bits),
            text,
        ),
        Part::Bits(bits) => push_hex(1, u64::from(value_of(item, bits)), text),
        Part::Number(offset, width) => push_number_at(width, offset, item, text),
        Part::Blank => Ok(()),
        Part::Tag(a, k, b, m) => push_if(are_zero(item, a, k) && are_zero(item, b, m), n, text),
        Part::Text(from, to) => push_string(up_to_zero(between(item, from, to)), text),
        Part::Vendor(from, to) => push_vendor(between(item, from, to), text),
        Part::Index(at) => push_index(item, at, text),
        Part::Source(at) => push_source(item, at, text),
    }
}

fn push_next(
    item: &[u8],
    n: usize,
    first: bool,
    part: Part,
    text: &mut String,
) -> Result<(), AllocError>
    ensures { OnOk result (string_bytes text.new ≡ string_bytes text.old ++ (comma first ++ part_text item.now n part)) }
{
    push_comma(first, text)?;
    push_part(item, n, part, text)
}

fn push_parts(item: &[u8], n: usize, parts: &[Part], text: &mut String) -> Result<(), AllocError>
    ensures { OnOk result (string_bytes text.new ≡ string_bytes text.old ++ parts_text item.now n true parts.now) }
{
    let mut first = true;
    'parts: for part in parts {
        push_next(item, n, first, *part, text)?;
        first = false;
    }
    Ok(())
}

fn push_row(
    descriptor: Descriptor,
    n: usize,
    item: &[u8],
    text: &mut String,
) -> Result<(), AllocError>
    ensures { OnOk result (string_bytes text.new ≡ string_bytes text.old ++ row_text (facts descriptor) n item.now) }
{
    text.push_str(macro_opening(descriptor))?;
    push_parts(item, n, parts(descriptor), text)?;
    text.push(')')?;
    push_tail(tail(descriptor), item, text)?;
    Ok(())
}

// The size of the item at the front.
fn size_of(item: &[u8]) -> usize
    ensures { result ≡ item_size item.now }
{
    match item {
        [] => 0,
        [tag, more @ ..] => item_size(*tag, more),
    }
}

fn part_fits(item: &[u8], part: Part) -> bool
    ensures { result ≡ part_fits item.now part }
{
    match part {
        Part::Word(bits, kind) => !word_of(item, bits, kind).is_empty(),
        Part::WordOrNumber(bits, kind) => {
            value_of(item, bits) >= 0x80 || !word_of(item, bits, kind).is_empty()
        }
        _ => true,
    }
}

fn parts_fit(item: &[u8], parts: &[Part]) -> bool
    ensures { result ≡ parts_fit item.now parts.now }
{
    'parts: for part in parts {
        if !part_fits(item, *part) {
            return false;
        }
    }
    true
}

// Whether the macro of a descriptor writes an item that begins with this tag.
fn fits(descriptor: Descriptor, tag: u8, item: &[u8]) -> bool
    requires { tag ≡ slice_index_or item.now 0 0 }
    ensures { result ≡ fits (facts descriptor) item.now }
{
    match checks_left(descriptor, tag) {
        Some(checks) => all_hold(item, checks) && parts_fit(item, parts(descriptor)),
        None => false,
    }
}

// The place in the list of descriptors of the first one that can have this tag, or a place before it.
fn start(tag: u8) -> usize
    ensures within { result ≤ 42 }
    ensures found { (item : List ℕ) → slice_index_or item 0 0 ≡ tag
        → found_in (drop result descriptors) item ≡ found_in descriptors item }
{
    match tag {
        0x23 => 1,
        0x2a => 2,
        0x30 => 3,
        0x31 => 4,
        0x38 => 5,
        0x47 => 6,
        0x4b => 7,
        0x55 => 8,
        0x81 => 10,
        0x82 => 11,
        0x84 => 12,
        0x85 => 13,
        0x86 => 14,
        0x87 => 15,
        0x88 => 18,
        0x89 => 21,
        0x8a => 22,
        0x8b => 25,
        0x8c => 28,
        0x8d => 30,
        0x8e => 31,
        0x8f => 38,
        0x90 => 39,
        0x91 => 40,
        0x92 => 41,
        0x93 => 42,
        _ => 0,
    }
}

fn found_in(descriptors: &[Descriptor], item: &[u8]) -> Option<Descriptor>
    ensures { result ≡ found_in descriptors.now item.now }
{
    let tag = byte_at(item, 0);
    'descriptors: for descriptor in descriptors {
        if fits(*descriptor, tag, item) {
            return Some(*descriptor);
        }
    }
    None
}

// The first descriptor whose macro writes an item that begins with this tag.
fn found_from(tag: u8, item: &[u8]) -> Option<Descriptor>
    requires { tag ≡ slice_index_or item.now 0 0 }
    ensures { result ≡ found_in descriptors item.now }
{
    let (_, rest) = descriptors().split_at(start(tag));
    found_in(rest, item)
}

// The descriptor whose macro writes an item.
#[tactic(auto, unfolding(crate::specs::Template::found))]
fn found(item: &[u8]) -> Option<Descriptor>
    ensures { result ≡ found item.now }
{
    if item.len() == size_of(item) {
        return found_from(byte_at(item, 0), item);
    }
    None
}

/// Whether a macro writes an item.
pub fn is_known(item: &[u8]) -> bool
    ensures { result ≡ is_found (found item.now) }
{
    match found(item) {
        Some(_) => true,
        None => false,
    }
}

fn push_found(
    found: Option<Descriptor>,
    n: usize,
    item: &[u8],
    text: &mut String,
) -> Result<(), AllocError>
    ensures { OnOk result (string_bytes text.new ≡ string_bytes text.old ++ found_text found n item.now) }
{
    match found {
        Some(descriptor) => push_row(descriptor, n, item, text),
        None => Ok(()),
    }
}

/// Adds the macro of an item, if it has one. If the macro needs a descriptor name, it is made from the number n.
pub fn push_item(item: &[u8], n: usize, text: &mut String) -> Result<(), AllocError>
    ensures { OnOk result (string_bytes text.new ≡ string_bytes text.old ++ found_text (found item.now) n item.now) }
{
    push_found(found(item), n, item, text)
}
