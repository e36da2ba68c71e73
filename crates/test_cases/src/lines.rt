//! The lines of a file of cases.

use std::alloc::{AllocError, Global};

/// A line of a file, without its line feed, and its number from 1.
#[derive(Clone, Copy)]
pub struct Line<'a> {
    pub number: usize,
    pub text: &'a [u8],
}

/// What a line is, by how it begins.
#[derive(Clone, Copy, PartialEq)]
pub enum Kind {
    /// An empty line or a comment.
    Gap,
    /// The first line of a run.
    Run,
    /// A further line of a run.
    More,
    /// A line that a run has to print.
    Wanted,
}

/// Returns the lines of a text.
pub fn lines_of(alloc: Global, text: &[u8]) -> Result<Vec<Line<'_>>, AllocError> {
    let mut lines = Vec::new(alloc);
    let mut number: usize = 0;
    for text in text.split(|byte| *byte == b'\n') {
        number = number.saturating_add(1);
        lines.push(Line { number, text })?;
    }
    Ok(lines)
}

fn kind_of(line: &[u8]) -> Kind {
    match line {
        [] | [b'#', ..] => Kind::Gap,
        [b' ', b' ', b' ', b' ', ..] => Kind::Wanted,
        [b'+' | b'|' | b'\\', ..] => Kind::More,
        _ => Kind::Run,
    }
}

/// Returns where the lines from `start` on end that are of one of these kinds.
pub fn end_of(lines: &[Line<'_>], start: usize, kinds: [Kind; 2]) -> usize {
    for (at, line) in lines.iter().enumerate() {
        let kind = kind_of(line.text);
        if at >= start && kind != kinds[0] && kind != kinds[1] {
            return at;
        }
    }
    lines.len()
}

/// Returns the lines from one place to another.
pub fn between<'a, 't>(lines: &'a [Line<'t>], start: usize, end: usize) -> &'a [Line<'t>] {
    let end = end.min(lines.len());
    &lines[start.min(end)..end]
}
