//! The lists in braces after the macros of descriptors. A function whose name begins with `push` adds to a text.

ghost use Rattle.std.specs.Prelude.{◌≡◌, ◌+◌, ◌*◌, ◌≤◌, ◌++◌, true, codes, slice_index_or, if◌then◌else◌, [], OnOk, string_bytes};
ghost use Rattle.std.specs.Fmt.{decimal};
ghost use Rattle.acpi_asl.specs.Content.{digits_at};
ghost use Rattle.acpi_asl.specs.Number.{hex};
ghost use Rattle.acpi_asl.specs.Template.{comma, channels, dwords, pairs, listed_bytes, list_text, is_absent, tail_text};

use crate::content::{between, byte_at, push_number_at};
use crate::descriptor::{Braces, Offset};
use crate::number::{push_decimal, push_hex};
use std::alloc::AllocError;

/// Adds the comma before an argument that isn't the first.
pub fn push_comma(first: bool, text: &mut String) -> Result<(), AllocError>
    ensures { OnOk result (string_bytes text.new ≡ string_bytes text.old ++ comma first) }
{
    if first {
        return Ok(());
    }
    text.push_str(", ")
}

fn push_channel(first: bool, i: u8, is_set: bool, text: &mut String) -> Result<(), AllocError>
    ensures { OnOk result (string_bytes text.new ≡ string_bytes text.old ++ (if is_set then comma first ++ decimal i else [])) }
{
    if !is_set {
        return Ok(());
    }
    push_comma(first, text)?;
    push_decimal(u64::from(i), text)
}

#[cycle(channels)]
fn push_channels(
    first: bool,
    i: u8,
    left: u8,
    mask: u16,
    text: &mut String,
) -> Result<(), AllocError>
    requires { i + left ≤ 16 }
    ensures { OnOk result (string_bytes text.new ≡ string_bytes text.old ++ channels first i left mask) }
{
    if left == 0 {
        return Ok(());
    }
    if mask == 0 {
        return Ok(());
    }
    let is_set = mask % 2 == 1;
    push_channel(first, i, is_set, text)?;
    push_channels(first && !is_set, i + 1, left - 1, mask / 2, text)
}

fn push_next_dword(first: bool, bytes: &[u8], text: &mut String) -> Result<(), AllocError>
    ensures { OnOk result (string_bytes text.new ≡ string_bytes text.old
        ++ (comma first ++ (codes "0x" ++ digits_at 4 0 bytes.now))) }
{
    push_comma(first, text)?;
    push_number_at(4, 0, bytes, text)
}

#[cycle(dwords)]
fn push_dwords(first: bool, bytes: &[u8], text: &mut String) -> Result<(), AllocError>
    ensures { OnOk result (string_bytes text.new ≡ string_bytes text.old ++ dwords first bytes.now) }
{
    let [_, _, _, _, rest @ ..] = bytes else {
        return Ok(());
    };
    push_next_dword(first, bytes, text)?;
    push_dwords(false, rest, text)?;
    Ok(())
}

fn push_next_pair(first: bool, bytes: &[u8], text: &mut String) -> Result<(), AllocError>
    ensures { OnOk result (string_bytes text.new ≡ string_bytes text.old
        ++ (comma first ++ (codes "0x" ++ digits_at 2 0 bytes.now))) }
{
    push_comma(first, text)?;
    push_number_at(2, 0, bytes, text)
}

#[cycle(pairs)]
fn push_pairs(first: bool, bytes: &[u8], text: &mut String) -> Result<(), AllocError>
    ensures { OnOk result (string_bytes text.new ≡ string_bytes text.old ++ pairs first bytes.now) }
{
    let [_, _, rest @ ..] = bytes else {
        return Ok(());
    };
    push_next_pair(first, bytes, text)?;
    push_pairs(false, rest, text)?;
    Ok(())
}

fn push_listed(first: bool, byte: u8, text: &mut String) -> Result<(), AllocError>
    ensures { OnOk result (string_bytes text.new ≡ string_bytes text.old ++ (comma first ++ hex 1 byte)) }
{
    push_comma(first, text)?;
    push_hex(1, u64::from(byte), text)
}

/// Adds bytes, with commas between them.
pub fn push_bytes(bytes: &[u8], text: &mut String) -> Result<(), AllocError>
    ensures { OnOk result (string_bytes text.new ≡ string_bytes text.old ++ listed_bytes true bytes.now) }
{
    let mut first = true;
    'bytes: for byte in bytes {
        push_listed(first, *byte, text)?;
        first = false;
    }
    Ok(())
}

fn irqs(item: &[u8]) -> u16
    ensures { result ≡ slice_index_or item.now 1 0 + 256 * slice_index_or item.now 2 0 }
{
    u16::from(byte_at(item, 1)) + 256 * u16::from(byte_at(item, 2))
}

fn push_list(tail: Braces, item: &[u8], text: &mut String) -> Result<(), AllocError>
    ensures { OnOk result (string_bytes text.new ≡ string_bytes text.old ++ list_text tail item.now) }
{
    match tail {
        Braces::Absent => Ok(()),
        Braces::Irqs => push_channels(true, 0, 16, irqs(item), text),
        Braces::Channels => push_channels(true, 0, 8, u16::from(byte_at(item, 1)), text),
        Braces::Dwords(from, to) => push_dwords(true, between(item, from, to), text),
        Braces::Pairs(from, to) => push_pairs(true, between(item, from, to), text),
        Braces::Bytes(from) => push_bytes(between(item, from, Offset::End), text),
    }
}

fn is_absent(tail: Braces) -> bool
    ensures { result ≡ is_absent tail }
{
    match tail {
        Braces::Absent => true,
        _ => false,
    }
}

/// Adds the list of a descriptor.
#[tactic(auto, using(acpi_read::proofs::Texts::after_three))]
pub fn push_tail(tail: Braces, item: &[u8], text: &mut String) -> Result<(), AllocError>
    ensures { OnOk result (string_bytes text.new ≡ string_bytes text.old ++ tail_text tail item.now) }
{
    if is_absent(tail) {
        return Ok(());
    }
    text.push_str(" {")?;
    push_list(tail, item, text)?;
    text.push('}')
}
