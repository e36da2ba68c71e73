//! A run, as it is written in a case.

use crate::content::Content;
use crate::lines::Line;
use crate::parts::{split_once, unreadable};
use std::alloc::Global;
use std::{io, str};

/// The name of the file that a run is given.
pub const FILE: &str = "FILE";

/// The name of the file that `make` and `repair` write.
pub const MADE: &str = "MADE";

/// A run: the words of its program, the bytes of its file, and the status that the words after a semicolon state.
#[derive(Drop)]
pub struct Run {
    pub words: Vec<String>,
    pub file: Vec<u8>,
    pub status: Option<u8>,
    /// Whether the text that is printed has to be made into the file again, or into some table if there is no file.
    pub both: bool,
}

// Adds a word to others.
fn push(words: &mut Vec<String>, word: &str) -> io::Result<()> {
    let word = String::from_str(*words.allocator(), word)?;
    words.push(word)?;
    Ok(())
}

// Adds a command and its option.
fn push_both(words: &mut Vec<String>, command: &str, option: &str) -> io::Result<()> {
    push(words, command)?;
    push(words, option)
}

// Adds the words for which a command of a case stands.
fn push_command(words: &mut Vec<String>, command: &str) -> io::Result<()> {
    match command {
        "json" => push_both(words, "show", "--json"),
        "bare" => push_both(words, "show", "--no-offsets"),
        "bytes" => push_both(words, "show", "--bytes"),
        "findings" => push_both(words, "check", "--json"),
        "listing" => push_both(words, "image", "--json"),
        "objects" => push_both(words, "names", "--json"),
        "dot" => push_both(words, "tree", "--dot"),
        "both" => push(words, "disassemble"),
        "again" => push(words, "template"),
        _ => push(words, command),
    }
}

// Adds the name of the file, and the address of the image in it, if there is one.
fn push_file(words: &mut Vec<String>, base: Option<&str>) -> io::Result<()> {
    let Some(base) = base else {
        return push(words, FILE);
    };
    let word = format!(in *words.allocator(); "{FILE}@{base}")?;
    words.push(word)?;
    Ok(())
}

// Adds the names of the files that a command takes.
fn push_files(words: &mut Vec<String>, command: &str, base: Option<&str>) -> io::Result<()> {
    match command {
        "template" | "again" | "help" | "-h" | "--help" | "--version" => Ok(()),
        "make" | "repair" => {
            push(words, FILE)?;
            push(words, MADE)
        }
        _ => push_file(words, base),
    }
}

// Returns a command, and the address that stands after it.
fn split_base(command: &str) -> (&str, Option<&str>) {
    match command.split_once('@') {
        Some((command, base)) => (command, Some(base)),
        None => (command, None),
    }
}

// Returns the first word of a text, and what follows. A word in single quotation marks may be empty or have spaces.
fn first_word(text: &[u8]) -> Option<(&[u8], &[u8])> {
    match text {
        [b'\'', text @ ..] => split_once(text, b'\''),
        _ => match split_once(text, b' ') {
            Some(parts) => Some(parts),
            None => Some((text, &[])),
        },
    }
}

// Adds a word of a run, or keeps the status that it states.
fn push_word(word: &[u8], words: &mut Vec<String>, status: &mut Option<u8>) -> io::Result<()> {
    let Ok(word) = str::from_utf8(word) else {
        return Err(unreadable());
    };
    let Some(number) = word.strip_prefix("status=") else {
        return push(words, word);
    };
    let Ok(number) = number.parse::<u8>() else {
        return Err(unreadable());
    };
    *status = Some(number);
    Ok(())
}

// Adds the words after a semicolon.
fn push_words(text: &[u8], words: &mut Vec<String>, status: &mut Option<u8>) -> io::Result<()> {
    let mut rest = text;
    for _ in 0..text.len() {
        if let [b' ', after @ ..] = rest {
            rest = after;
        } else if !rest.is_empty() {
            let Some((word, after)) = first_word(rest) else {
                return Err(unreadable());
            };
            push_word(word, words, status)?;
            rest = after;
        }
    }
    Ok(())
}

// Returns the command of a run's first line, and what follows.
fn split_command(line: &[u8]) -> io::Result<(&str, &[u8])> {
    let (command, after) = match split_once(line, b' ') {
        Some(parts) => parts,
        None => (line, [].as_slice()),
    };
    match str::from_utf8(command) {
        Ok(command) => Ok((command, after)),
        Err(_) => Err(unreadable()),
    }
}

// Reads the first line of a run after its command.
fn read_first(
    text: &[u8],
    content: &mut Content,
    words: &mut Vec<String>,
) -> io::Result<Option<u8>> {
    let mut status = None;
    match content.push_bytes(text)? {
        [] => {}
        [b';', text @ ..] => push_words(text, words, &mut status)?,
        _ => return Err(unreadable()),
    }
    Ok(status)
}

// Returns the bytes of a file after further lines of its run.
fn file_of(alloc: Global, mut content: Content, more: &[Line<'_>]) -> io::Result<Vec<u8>> {
    for line in more {
        content.push_line(line.text)?;
    }
    content.whole(alloc)
}

/// Reads a run from its first line and its further lines.
pub fn read_run(alloc: Global, first: &[u8], more: &[Line<'_>]) -> io::Result<Run> {
    let (command, after) = split_command(first)?;
    let mut words = Vec::new(alloc);
    let both = command == "both" || command == "again";
    let (command, base) = split_base(command);
    push_command(&mut words, command)?;
    push_files(&mut words, command, base)?;
    let mut content = Content::new(alloc);
    let status = read_first(after, &mut content, &mut words)?;
    let file = file_of(alloc, content, more)?;
    Ok(Run {
        words,
        file,
        status,
        both,
    })
}

/// Returns the run that makes a text.
pub fn run_of_text(text: Vec<u8>) -> io::Result<Run> {
    let mut words = Vec::new(*text.allocator());
    push_command(&mut words, "make")?;
    push_files(&mut words, "make", None)?;
    Ok(Run {
        words,
        file: text,
        status: None,
        both: false,
    })
}

impl Run {
    /// Returns the first word.
    pub fn command(&self) -> &str {
        match self.words.first() {
            Some(word) => word.as_str(),
            None => "",
        }
    }
}
