//! The text of ASL without what a compiler skips: white space, comments, and semicolons after statements (ACPI 6.5, 19.2.1 and
//! 19.2.3).

ghost use Rattle.std.specs.Prelude.{◌≡◌, ◌≤◌, ◌++◌, false, length, OnOk, IfOk};
ghost use Rattle.acpi_compile.specs.Squeeze.{is_word, is_white, gapped, next_in_code, next_state, code_bytes, emitted};
ghost use Rattle.acpi_compile.specs.Squeeze.{ending, unmarked, squeezed, line_of, front_len, note_len, text_len};
ghost use Rattle.acpi_compile.specs.Squeeze.{after_white, begins_block, has_block};
ghost use Rattle.acpi_compile.specs.Squeeze.{is_comment, state_after, ends_in_comment, begins_note, word_len, word_at};

use acpi_base::slice::from_offset;
use std::alloc::{AllocError, Global};

/// The last character that was kept.
#[derive(Clone, Copy)]
pub enum Last {
    /// None, or one that isn't part of a word.
    Mark,
    Word,
    /// One of a word, and then what is skipped.
    Gap,
}

/// Where a character stands.
#[derive(Clone, Copy)]
pub enum State {
    Code(Last),
    /// After a slash.
    Slash(Last),
    /// In a comment up to the end of its line.
    Line(Last),
    /// After the beginning of a comment.
    Opened(Last),
    Comment(Last),
    /// After an asterisk in a comment.
    Star(Last),
    /// In a comment that is kept.
    Note,
    NoteStar,
    /// In a string.
    Text,
    /// After a backslash in a string.
    Escape,
}

/// Returns whether a character is part of a word.
pub fn is_word(c: u8) -> bool
    ensures { result ≡ is_word c }
{
    c.is_ascii_uppercase()
        || c.is_ascii_lowercase()
        || c.is_ascii_digit()
        || c == b'_'
        || c == b'.'
        || c == b'^'
        || c == b'\\'
}

// Returns whether a character is white space, or a semicolon.
fn is_white(c: u8) -> bool
    ensures { result ≡ is_white c }
{
    c == b' ' || c == b'\t' || c == b'\n' || c == b'\r' || c == b';'
}

fn gapped(last: Last) -> Last
    ensures { result ≡ gapped last }
{
    match last {
        Last::Mark => Last::Mark,
        _ => Last::Gap,
    }
}

fn next_in_code(last: Last, c: u8) -> State
    ensures { result ≡ next_in_code last c }
{
    if is_white(c) {
        State::Code(gapped(last))
    } else if c == b'/' {
        State::Slash(last)
    } else if c == b'"' {
        State::Text
    } else if is_word(c) {
        State::Code(Last::Word)
    } else {
        State::Code(Last::Mark)
    }
}

// Returns where the next character stands.
fn next_state(state: State, c: u8) -> State
    ensures { result ≡ next_state state c }
{
    match state {
        State::Code(last) => next_in_code(last, c),
        State::Slash(last) if c == b'/' => State::Line(gapped(last)),
        State::Slash(last) if c == b'*' => State::Opened(gapped(last)),
        State::Slash(_) => next_in_code(Last::Mark, c),
        State::Line(last) if c == b'\n' => State::Code(last),
        State::Line(last) => State::Line(last),
        State::Opened(_) if c == b'=' => State::Note,
        State::Opened(last) if c == b'*' => State::Star(last),
        State::Opened(last) => State::Comment(last),
        State::Comment(last) if c == b'*' => State::Star(last),
        State::Comment(last) => State::Comment(last),
        State::Star(last) if c == b'/' => State::Code(last),
        State::Star(last) if c == b'*' => State::Star(last),
        State::Star(last) => State::Comment(last),
        State::Note if c == b'*' => State::NoteStar,
        State::Note => State::Note,
        State::NoteStar if c == b'/' => State::Code(Last::Mark),
        State::NoteStar if c == b'*' => State::NoteStar,
        State::NoteStar => State::Note,
        State::Text if c == b'"' => State::Code(Last::Mark),
        State::Text if c == b'\\' => State::Escape,
        State::Text => State::Text,
        State::Escape => State::Text,
    }
}

// Adds what is kept of a character of code.
fn push_code(last: Last, c: u8, kept: &mut Vec<u8>) -> Result<(), AllocError>
    ensures { OnOk result (kept.new.items ≡ kept.old.items ++ code_bytes last c) }
{
    if is_white(c) || c == b'/' {
        return Ok(());
    }
    match last {
        Last::Gap if is_word(c) => kept.extend_from_slice(&[b' ', c]),
        _ => kept.extend_from_slice(&[c]),
    }
}

// Adds what is kept of a character after a slash.
fn push_slash(c: u8, kept: &mut Vec<u8>) -> Result<(), AllocError>
    ensures { OnOk result (kept.new.items ≡ kept.old.items ++ emitted (State.Slash Last.Mark) c) }
{
    if c == b'/' || c == b'*' {
        return Ok(());
    }
    kept.push(b'/')?;
    push_code(Last::Mark, c, kept)
}

// Adds what is kept of a character.
fn push_kept(state: State, c: u8, kept: &mut Vec<u8>) -> Result<(), AllocError>
    ensures { OnOk result (kept.new.items ≡ kept.old.items ++ emitted state c) }
{
    match state {
        State::Code(last) => push_code(last, c, kept),
        State::Slash(_) => push_slash(c, kept),
        State::Opened(_) if c == b'=' => kept.extend_from_slice(b"/*="),
        State::Note | State::NoteStar | State::Text | State::Escape => kept.extend_from_slice(&[c]),
        _ => Ok(()),
    }
}

fn push_ending(state: State, kept: &mut Vec<u8>) -> Result<(), AllocError>
    ensures { OnOk result (kept.new.items ≡ kept.old.items ++ ending state) }
{
    match state {
        State::Slash(_) => kept.extend_from_slice(b"/"),
        _ => Ok(()),
    }
}

// Returns a text without the byte order mark that a program may have written before it.
fn unmarked(text: &[u8]) -> &[u8]
    ensures { result.now ≡ unmarked text.now }
{
    match text {
        [0xef, 0xbb, 0xbf, rest @ ..] => rest,
        _ => text,
    }
}

/// Returns a text without what a compiler skips. Of a comment that begins with `/*=` all is kept.
pub fn squeezed(alloc: Global, text: &[u8]) -> Result<Vec<u8>, AllocError>
    ensures { IfOk result (λ kept. kept.items ≡ squeezed text.now) }
{
    let mut kept = Vec::with_capacity(alloc, text.len())?;
    let mut state = State::Code(Last::Mark);
    let unmarked = unmarked(text);
    'characters: for c in unmarked {
        push_kept(state, *c, &mut kept)?;
        state = next_state(state, *c);
    }
    push_ending(state, &mut kept)?;
    Ok(kept)
}

// Returns whether a character stands in a comment that is skipped up to its `*/`.
fn is_comment(state: State) -> bool
    ensures { result ≡ is_comment state }
{
    match state {
        State::Opened(_) | State::Comment(_) | State::Star(_) => true,
        _ => false,
    }
}

/// Returns whether a comment of a text has no `*/`. A note, which is kept, is no such comment.
pub fn ends_in_comment(text: &[u8]) -> bool
    ensures { result ≡ ends_in_comment text.now }
{
    let mut state = State::Code(Last::Mark);
    let unmarked = unmarked(text);
    'characters: for c in unmarked {
        state = next_state(state, *c);
    }
    is_comment(state)
}

fn after_white(text: &[u8]) -> &[u8]
    ensures { result.now ≡ after_white text.now }
{
    let mut rest = text;
    'white: while let [c, more @ ..] = rest {
        if !is_white(*c) {
            return rest;
        }
        rest = more;
    }
    rest
}

fn begins_block(text: &[u8]) -> bool
    ensures { result ≡ begins_block text.now }
{
    text.starts_with(b"DefinitionBlock") && after_white(from_offset(15, text)).starts_with(b"(")
}

/// Returns whether the first word of a line begins a definition block.
pub fn has_block(text: &[u8]) -> bool
    ensures { result ≡ has_block text.now }
{
    let mut fresh = true;
    let mut rest = text;
    'characters: while let [c, more @ ..] = rest {
        if fresh && begins_block(rest) {
            return true;
        }
        fresh = *c == b'\n' || (fresh && is_white(*c));
        rest = more;
    }
    false
}

// Returns how many characters are kept of one.
fn kept_len(state: State, c: u8) -> usize
    ensures { result ≡ length (emitted state c) }
{
    match state {
        State::Code(last) => code_len(last, c),
        State::Slash(_) if c == b'/' || c == b'*' => 0,
        State::Slash(_) => 1 + code_len(Last::Mark, c),
        State::Opened(_) if c == b'=' => 3,
        State::Note | State::NoteStar | State::Text | State::Escape => 1,
        _ => 0,
    }
}

fn code_len(last: Last, c: u8) -> usize
    ensures len { result ≡ length (code_bytes last c) }
    ensures few { result ≤ 2 }
{
    if is_white(c) || c == b'/' {
        return 0;
    }
    match last {
        Last::Gap if is_word(c) => 2,
        _ => 1,
    }
}

/// Returns the number of the line on which a kept character stands in a text.
pub fn line_of(at: usize, text: &[u8]) -> usize
    ensures { result ≡ line_of at text.now }
{
    let mut line = 1;
    let mut left = at;
    let mut state = State::Code(Last::Mark);
    let unmarked = unmarked(text);
    'characters: for c in unmarked {
        let count = kept_len(state, *c);
        if left < count {
            return line;
        }
        if *c == b'\n' {
            line += 1;
        }
        left -= count;
        state = next_state(state, *c);
    }
    line
}

// Returns how many characters of a word are at the front.
fn front_len(kept: &[u8]) -> usize
    ensures len { result ≡ front_len kept.now }
    ensures within { result ≤ length kept.now }
{
    let mut len = 0;
    let mut rest = kept;
    'front: while let [c, more @ ..] = rest {
        if !is_word(*c) {
            return len;
        }
        len += 1;
        rest = more;
    }
    len
}

// Returns how many characters there are up to the end of a note, or of its line.
fn note_len(kept: &[u8]) -> usize
    ensures len { result ≡ note_len kept.now }
    ensures within { result ≤ length kept.now }
{
    let mut len = 0;
    let mut rest = kept;
    'note: while let [c, more @ ..] = rest {
        if rest.starts_with(b"*/") {
            return len + 2;
        }
        if *c == b'\n' {
            return len;
        }
        len += 1;
        rest = more;
    }
    len
}

// Returns how many characters there are up to the quotation mark that ends a string, or up to the end of its line.
fn text_len(kept: &[u8]) -> usize
    ensures len { result ≡ text_len false kept.now }
    ensures within { result ≤ length kept.now }
{
    let mut len = 0;
    let mut escaped = false;
    let mut rest = kept;
    'text: while let [c, more @ ..] = rest {
        if *c == b'\n' {
            return len;
        }
        if !escaped && *c == b'"' {
            return len + 1;
        }
        escaped = !escaped && *c == b'\\';
        len += 1;
        rest = more;
    }
    len
}

/// Returns whether a note is at the front.
pub fn begins_note(kept: &[u8]) -> bool
    ensures { result ≡ begins_note kept.now }
{
    kept.starts_with(b"/*=")
}

/// Returns how many characters the word, the string or the note at the front has. Any other character stands alone.
pub fn word_len(kept: &[u8]) -> usize
    ensures len { result ≡ word_len kept.now }
    ensures within { result ≤ length kept.now }
{
    match kept {
        [c, rest @ ..] if is_word(*c) => 1 + front_len(rest),
        [b'"', rest @ ..] => 1 + text_len(rest),
        [_, rest @ ..] if begins_note(kept) => 1 + note_len(rest),
        [_, ..] => 1,
        [] => 0,
    }
}

/// Returns the word, the string or the note at a place of kept characters, or none at their end.
pub fn word_at(at: usize, kept: &[u8]) -> &[u8]
    ensures { result.now ≡ word_at at kept.now }
{
    let rest = from_offset(at, kept);
    &rest[..word_len(rest)]
}
