//! Texts without the offsets at the front of their lines. A function whose name begins with `push` adds to a text.

ghost use Rattle.std.specs.Prelude.{◌≡◌, ◌-◌, ◌≤◌, [], ◌++◌, length, IfOk, OnOk};
ghost use Rattle.acpi_text.specs.Line.{spaces};
ghost use Rattle.acpitool_program.specs.Offsets.{is_of, front_size, name_size, after_digits, aligned, bare_line, without_offsets};

use std::alloc::{AllocError, Global};

// What a line begins with.
#[derive(Clone, Copy)]
enum Front {
    // Spaces.
    Spaces,
    // Decimal digits.
    Digits,
    // What stands before a colon.
    Name,
}

// The column of the colon before a line's numbers.
const COLUMN: usize = 40;

// Returns whether a byte is of a front.
fn is_of(kind: Front, byte: u8) -> bool
    ensures { result ≡ is_of kind byte }
{
    match kind {
        Front::Spaces => byte == b' ',
        Front::Digits => (b'0'..=b'9').contains(&byte),
        Front::Name => byte != b':',
    }
}

// Returns how many bytes a front has.
fn front_size(kind: Front, line: &[u8]) -> usize
    ensures is { result ≡ front_size kind line.now }
    ensures within { result ≤ length line.now }
{
    let mut count = 0;
    'bytes: for byte in line {
        if !is_of(kind, *byte) {
            return count;
        }
        count += 1;
    }
    count
}

// Returns how many bytes a name has without the spaces after it.
fn name_size(name: &[u8]) -> usize
    ensures is { result ≡ name_size 0 0 name.now }
    ensures within { result ≤ length name.now }
{
    let mut count = 0;
    let mut size = 0;
    'bytes: for byte in name {
        count += 1;
        if *byte != b' ' {
            size = count;
        }
    }
    size
}

// Adds spaces.
fn push_spaces(count: usize, text: &mut Vec<u8>) -> Result<(), AllocError>
    ensures { OnOk result (text.new.items ≡ text.old.items ++ spaces count) }
{
    let mut left = count;
    'spaces: while left > 0 {
        left -= 1;
        text.push(b' ')?;
    }
    Ok(())
}

// Returns what stands after digits and a space.
fn after_digits(text: &[u8]) -> &[u8]
    ensures { result.now ≡ after_digits text.now }
{
    let digits = front_size(Front::Digits, text);
    if digits < text.len() {
        &text[digits + 1..]
    } else {
        &[]
    }
}

// Adds what stands after an offset in a line that begins with spaces: a name, and numbers after a colon in its column.
fn push_aligned(indent: usize, named: &[u8], text: &mut Vec<u8>) -> Result<(), AllocError>
    ensures { OnOk result (text.new.items ≡ text.old.items ++ aligned indent named.now) }
{
    let (name, numbers) = named.split_at(front_size(Front::Name, named));
    if numbers.is_empty() {
        return text.extend_from_slice(named);
    }
    let size = name_size(name);
    text.extend_from_slice(&name[..size])?;
    push_spaces(COLUMN.saturating_sub(indent).saturating_sub(size), text)?;
    text.extend_from_slice(numbers)
}

// Adds a line without its offset, if it has one.
fn push_bare(line: &[u8], text: &mut Vec<u8>) -> Result<(), AllocError>
    ensures { OnOk result (text.new.items ≡ text.old.items ++ bare_line line.now) }
{
    let (margin, rest) = line.split_at(front_size(Front::Spaces, line));
    if front_size(Front::Digits, rest) == 0 {
        return text.extend_from_slice(line);
    }
    text.extend_from_slice(margin)?;
    push_aligned(margin.len(), after_digits(rest), text)
}

/// Returns a text without the offsets of its lines. The only error is that memory ran out.
pub fn without_offsets(alloc: Global, text: &[u8]) -> Result<Vec<u8>, AllocError>
    ensures { IfOk result (λ bare. bare.items ≡ without_offsets [] text.now) }
{
    let mut bare = Vec::new(alloc);
    let mut line = Vec::new(alloc);
    'bytes: for byte in text {
        if *byte == b'\n' {
            push_bare(&line, &mut bare)?;
            bare.push(b'\n')?;
            line.clear();
        } else {
            line.push(*byte)?;
        }
    }
    push_bare(&line, &mut bare)?;
    Ok(bare)
}
