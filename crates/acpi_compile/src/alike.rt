//! Texts of ASL that differ only in what means nothing to a compiler: commas before a closing bracket, empty parentheses, and
//! whether the digits of a number are small or capital letters.

ghost use Rattle.std.specs.Prelude.{◌≡◌, length, reverse, OnOk, IfOk};
ghost use Rattle.acpi_compile.specs.Alike.{begun, next_part, upper, apart, before, counted, parts_from, alike};
ghost use Rattle.acpi_compile.specs.declared.alike.Part.TheVariants.{Mark};

use crate::squeeze::is_word;
use std::alloc::{AllocError, Global};

/// What a character is part of.
#[derive(Clone, Copy)]
pub enum Part {
    /// Nothing: it stands alone.
    Mark,
    /// A keyword or a name.
    Name,
    Number,
    /// A string.
    Text,
    /// A string, where it is a backslash.
    Escape,
}

fn begun(c: u8) -> Part
    ensures { result ≡ begun c }
{
    if c == b'"' {
        Part::Text
    } else if c.is_ascii_digit() {
        Part::Number
    } else if is_word(c) {
        Part::Name
    } else {
        Part::Mark
    }
}

// Returns what a character is part of, after one that is part of this.
fn next_part(part: Part, c: u8) -> Part
    ensures { result ≡ next_part part c }
{
    match part {
        Part::Text if c == b'"' => Part::Mark,
        Part::Text if c == b'\\' => Part::Escape,
        Part::Text | Part::Escape => Part::Text,
        Part::Name if is_word(c) => Part::Name,
        Part::Number if is_word(c) => Part::Number,
        Part::Mark | Part::Name | Part::Number => begun(c),
    }
}

fn upper(c: u8) -> u8
    ensures { result ≡ upper c }
{
    if b'a' <= c && c <= b'z' { c - 32 } else { c }
}

// Adds a space before the last character, if it begins a word. The text is written from its end on.
fn push_space(text: &mut Vec<u8>) -> Result<(), AllocError>
    ensures { OnOk result (reverse text.new.items ≡ apart (reverse text.old.items)) }
{
    match text.pop() {
        Some(c) => {
            text.push(c)?;
            if is_word(c) {
                text.push(b' ')?;
            }
            Ok(())
        }
        None => Ok(()),
    }
}

// Adds what counts of a character that is no part of a word.
fn push_mark(c: u8, text: &mut Vec<u8>) -> Result<(), AllocError>
    ensures { OnOk result (reverse text.new.items ≡ before c (reverse text.old.items)) }
{
    match text.pop() {
        Some(b')') if c == b'(' => push_space(text),
        Some(d) => {
            text.push(d)?;
            if c != b',' || (d != b')' && d != b'}') {
                text.push(c)?;
            }
            Ok(())
        }
        None => {
            text.push(c)?;
            Ok(())
        }
    }
}

// Adds what counts of a character.
fn push_counted(part: Part, c: u8, text: &mut Vec<u8>) -> Result<(), AllocError>
    ensures { OnOk result (reverse text.new.items ≡ counted part c (reverse text.old.items)) }
{
    match part {
        Part::Mark => return push_mark(c, text),
        Part::Number => text.push(upper(c))?,
        Part::Name | Part::Text | Part::Escape => text.push(c)?,
    }
    Ok(())
}

// Returns what each character is part of.
fn parts(alloc: Global, kept: &[u8]) -> Result<Vec<Part>, AllocError>
    ensures parts { IfOk result (λ parts. parts.items ≡ parts_from Mark kept.now) }
    ensures len { IfOk result (λ parts. length parts.items ≡ length kept.now) }
{
    let mut parts = Vec::with_capacity(alloc, kept.len())?;
    let mut part = Part::Mark;
    'characters: for c in kept {
        part = next_part(part, *c);
        parts.push(part)?;
    }
    Ok(parts)
}

/// Returns what counts of a text without what a compiler skips.
pub fn alike(alloc: Global, kept: &[u8]) -> Result<Vec<u8>, AllocError>
    ensures { IfOk result (λ text. text.items ≡ alike kept.now) }
{
    let parts = parts(alloc, kept)?;
    let mut text = Vec::with_capacity(alloc, kept.len())?;
    let mut left = kept.len();
    'characters: while left > 0 {
        left -= 1;
        push_counted(parts[left], kept[left], &mut text)?;
    }
    text.reverse();
    Ok(text)
}
