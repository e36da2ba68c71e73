//! What a run has to print, and whether it did.

use crate::content::Content;
use crate::lines::Line;
use crate::parts::{number, split_once, unreadable};
use std::alloc::Global;
use std::io;

/// What the lines after a run say of its output.
#[derive(Clone, Copy, PartialEq)]
enum Stated<'a> {
    /// A line on standard error.
    Error(&'a [u8]),
    /// Any lines on standard output.
    Any,
    /// A line on standard output.
    Line(&'a [u8]),
}

fn meaning(line: &[u8]) -> Stated<'_> {
    match line {
        [_, _, _, _, b'!', b' ', text @ ..] => Stated::Error(text),
        [_, _, _, _, b'.', b'.'] => Stated::Any,
        [_, _, _, _, text @ ..] => Stated::Line(text),
        _ => Stated::Line(line),
    }
}

/// Returns the lines that go to standard error.
pub fn errors_of(alloc: Global, lines: &[Line<'_>]) -> io::Result<Vec<u8>> {
    let mut errors = Vec::new(alloc);
    for line in lines {
        if let Stated::Error(text) = meaning(line.text) {
            errors.extend_from_slice(text)?;
            errors.push(b'\n')?;
        }
    }
    Ok(errors)
}

/// Returns the bytes that `make` writes, if there are lines with bytes.
pub fn made_of(alloc: Global, lines: &[Line<'_>]) -> io::Result<Option<Vec<u8>>> {
    let mut content = Content::new(alloc);
    let mut any = false;
    for line in lines {
        if let Stated::Line(text) = meaning(line.text) {
            any = true;
            if let [b';', ..] = content.push_bytes(text)? {
                return Err(unreadable());
            }
        }
    }
    if any {
        Ok(Some(content.whole(alloc)?))
    } else {
        Ok(None)
    }
}

// Whether a text is a word of letters, digits and `_`.
fn is_word(text: &[u8]) -> bool {
    !text.is_empty()
        && text
            .iter()
            .all(|byte| byte.is_ascii_alphanumeric() || *byte == b'_')
}

// Returns the word and the number of a line `WORD*NUMBER`, which stands for several.
fn several(line: &[u8]) -> Option<(&[u8], usize)> {
    let (word, after) = split_once(line, b'*')?;
    match number(after) {
        Ok((times, [])) if is_word(word) => Some((word, times)),
        _ => None,
    }
}

// Adds a line after this many spaces.
fn push_line(text: &mut Vec<u8>, margin: usize, line: &[u8]) -> io::Result<()> {
    let spaces = b" ".as_slice().repeat(*text.allocator(), margin)?;
    text.extend_from_slice(&spaces)?;
    text.extend_from_slice(line)?;
    text.push(b'\n')?;
    Ok(())
}

// Adds a line, or the lines for which it stands, each within the one before. Returns the margin of the lines that follow.
fn push_stated(text: &mut Vec<u8>, margin: usize, line: &[u8]) -> io::Result<usize> {
    let Some((word, times)) = several(line) else {
        push_line(text, margin, line)?;
        return Ok(margin);
    };
    let mut margin = margin;
    for _ in 0..times {
        push_line(text, margin, word)?;
        margin = margin.saturating_add(2);
    }
    Ok(margin)
}

/// Returns the lines that go to standard output. Between two parts may be any lines.
pub fn parts_of(alloc: Global, lines: &[Line<'_>]) -> io::Result<Vec<Vec<u8>>> {
    let mut parts = Vec::new(alloc);
    let mut part = Vec::new(alloc);
    let mut margin = 0;
    for line in lines {
        match meaning(line.text) {
            Stated::Error(_) => {}
            Stated::Line(text) => margin = push_stated(&mut part, margin, text)?,
            Stated::Any => {
                parts.push(part)?;
                part = Vec::new(alloc);
            }
        }
    }
    parts.push(part)?;
    Ok(parts)
}

// Returns the text after the first place where a line begins and this part stands.
fn after_part<'a>(text: &'a [u8], part: &[u8]) -> Option<&'a [u8]> {
    for at in 0..=text.len() {
        let (before, from) = text.split_at(at);
        if ends_line(before)
            && let Some(after) = from.strip_prefix(part)
        {
            return Some(after);
        }
    }
    None
}

// Whether a text is empty or ends with a line feed.
fn ends_line(text: &[u8]) -> bool {
    text.is_empty() || text.ends_with(b"\n")
}

// Returns the text after these parts, with any lines before each.
fn after_parts<'a>(text: &'a [u8], parts: &[Vec<u8>]) -> Option<&'a [u8]> {
    let mut rest = text;
    for part in parts {
        rest = after_part(rest, part)?;
    }
    Some(rest)
}

// Whether a text ends with this part, and a line begins there.
fn ends_with(text: &[u8], part: &[u8]) -> bool {
    match text.strip_suffix(part) {
        Some(before) => ends_line(before),
        None => false,
    }
}

/// Returns whether a text is these parts, with any lines between them.
pub fn has_parts(text: &[u8], parts: &[Vec<u8>]) -> bool {
    match parts {
        [] => text.is_empty(),
        [only] => text == only.as_slice(),
        [first, between @ .., last] => match text.strip_prefix(first) {
            Some(text) => match after_parts(text, between) {
                Some(rest) => ends_with(rest, last),
                None => false,
            },
            None => false,
        },
    }
}
