//! What is in a descriptor: bits, numbers, offsets and texts.

ghost use Rattle.std.specs.Prelude.{◌≡◌, ◌+◌, ◌≤◌, ◌++◌, codes, slice_index_or, length, OnOk, string_bytes};
ghost use Rattle.acpi_asl.specs.Content.{shifted, lowest, value_of, digits_at, are_zero, word_at, offset_of, between};
ghost use Rattle.acpi_asl.specs.Content.{ends_in_zero, zero_at, up_to_zero, source_at, holds, all_hold};
ghost use Rattle.acpi_asl.specs.Number.{upper_byte};
ghost use Rattle.acpi_asl.specs.declared.descriptor.Check.TheVariants as checks;

use crate::descriptor::{Bits, Check, Offset};
use crate::number::push_upper_byte;
use std::alloc::AllocError;

/// The byte at an offset, or 0 if there is none.
pub fn byte_at(item: &[u8], offset: usize) -> u8
    ensures { result ≡ slice_index_or item.now offset 0 }
{
    match item.get(offset) {
        Some(byte) => *byte,
        None => 0,
    }
}

/// A byte without its lowest bits.
#[inline]
pub fn shifted(byte: u8, shift: u8) -> u8
    ensures { result ≡ shifted byte shift }
{
    match shift {
        0 => byte,
        1 => byte / 2,
        2 => byte / 4,
        3 => byte / 8,
        4 => byte / 16,
        5 => byte / 32,
        6 => byte / 64,
        _ => byte / 128,
    }
}

fn lowest(byte: u8, size: u8) -> u8
    ensures { result ≡ lowest byte size }
{
    match size {
        1 => byte % 2,
        2 => byte % 4,
        3 => byte % 8,
        _ => byte,
    }
}

/// The number that bits are.
pub fn value_of(item: &[u8], bits: Bits) -> u8
    ensures { result ≡ value_of item.now bits }
{
    lowest(shifted(byte_at(item, bits.offset), bits.shift), bits.size)
}

// Adds the digits of the number of these many bytes at an offset.
#[cycle(digits)]
#[tactic(auto, unfolding(crate::specs::Content::digits_at))]
fn push_digits_at(width: u8, offset: u8, item: &[u8], text: &mut String) -> Result<(), AllocError>
    ensures { OnOk result (string_bytes text.new ≡ string_bytes text.old ++ digits_at width offset item.now) }
{
    if width == 0 {
        return Ok(());
    }
    let last = usize::from(offset) + usize::from(width - 1);
    push_upper_byte(byte_at(item, last), text)?;
    push_digits_at(width - 1, offset, item, text)?;
    Ok(())
}

/// Adds the number of these many bytes at an offset.
pub fn push_number_at(
    width: u8,
    offset: u8,
    item: &[u8],
    text: &mut String,
) -> Result<(), AllocError>
    ensures { OnOk result (string_bytes text.new ≡ string_bytes text.old ++ (codes "0x" ++ digits_at width offset item.now)) }
{
    text.push_str("0x")?;
    push_digits_at(width, offset, item, text)
}

// The number of two bytes at an offset.
fn word_at(item: &[u8], offset: u16) -> usize
    ensures is { result ≡ word_at item.now offset }
    ensures small { result ≤ 65535 }
{
    let at = usize::from(offset);
    usize::from(byte_at(item, at)) + 256 * usize::from(byte_at(item, at + 1))
}

/// The number that an offset of a descriptor is.
pub fn offset_of(item: &[u8], offset: Offset) -> usize
    ensures { result ≡ offset_of item.now offset }
{
    match offset {
        Offset::At(offset) => usize::from(offset),
        Offset::Stated(at) => word_at(item, u16::from(at)),
        Offset::Entries => 5 + 4 * usize::from(byte_at(item, 4)),
        Offset::BusData => 12 + word_at(item, 10),
        Offset::End => item.len(),
    }
}

/// The bytes from one offset to another.
pub fn between(item: &[u8], from: Offset, to: Offset) -> &[u8]
    ensures { result.now ≡ between item.now from to }
{
    let (from, to) = (offset_of(item, from), offset_of(item, to));
    let rest = &item[from.min(item.len())..];
    &rest[..to.saturating_sub(from).min(rest.len())]
}

/// The name of a resource source and its zero, which follow an index at an offset.
pub fn source_at(item: &[u8], at: Offset) -> &[u8]
    ensures { result.now ≡ source_at item.now at }
{
    let at = offset_of(item, at);
    if at < item.len() {
        &item[at + 1..]
    } else {
        &[]
    }
}

fn ends_in_zero(bytes: &[u8]) -> bool
    ensures { result ≡ ends_in_zero bytes.now }
{
    let mut rest = bytes;
    'bytes: while let Some((byte, more)) = rest.split_first() {
        if *byte == 0 {
            return more.is_empty();
        }
        if *byte >= 128 {
            return false;
        }
        rest = more;
    }
    false
}

// The number of characters before the first zero.
fn zero_at(bytes: &[u8]) -> usize
    ensures is { result ≡ zero_at bytes.now }
    ensures within { result ≤ length bytes.now }
{
    let mut len = 0;
    let mut rest = bytes;
    'characters: while let [c, more @ ..] = rest {
        if *c == 0 {
            return len;
        }
        len += 1;
        rest = more;
    }
    len
}

/// The characters before the first zero.
pub fn up_to_zero(bytes: &[u8]) -> &[u8]
    ensures { result.now ≡ up_to_zero bytes.now }
{
    &bytes[..zero_at(bytes)]
}

/// Whether the bytes from an offset on are zero, this many of them.
#[cycle(zeros)]
pub fn are_zero(item: &[u8], offset: u8, count: u8) -> bool
    ensures { result ≡ are_zero item.now offset count }
{
    if count == 0 {
        return true;
    }
    let last = usize::from(offset) + usize::from(count - 1);
    byte_at(item, last) == 0 && are_zero(item, offset, count - 1)
}

fn has_pairs(item: &[u8], from: Offset, to: Offset) -> bool
    ensures { result ≡ holds item.now (checks.Pairs from to) }
{
    let (from, to) = (offset_of(item, from), offset_of(item, to));
    from < to && (to - from) % 2 == 0
}

fn ends_at(item: &[u8], at: u8) -> bool
    ensures { result ≡ holds item.now (checks.Vendor at) }
{
    let at = u16::from(at);
    word_at(item, at) + word_at(item, at + 2) == item.len()
}

fn holds(item: &[u8], check: Check) -> bool
    ensures { result ≡ holds item.now check }
{
    match check {
        Check::Is(bits, value) => value_of(item, bits) == value,
        Check::Nonzero(bits) => value_of(item, bits) != 0,
        Check::Vendor(at) => ends_at(item, at),
        Check::AtLeast(at, n) => usize::from(n) <= word_at(item, u16::from(at)),
        Check::Pairs(from, to) => has_pairs(item, from, to),
        Check::Text(from, to) => ends_in_zero(between(item, from, to)),
        Check::Source(at) => {
            offset_of(item, at) == item.len() || ends_in_zero(source_at(item, at))
        }
    }
}

/// Whether all these checks hold of an item.
pub fn all_hold(item: &[u8], checks: &[Check]) -> bool
    ensures { result ≡ all_hold item.now checks.now }
{
    'checks: for check in checks {
        if !holds(item, *check) {
            return false;
        }
    }
    true
}
