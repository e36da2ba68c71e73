//! The nodes of a text without what a compiler skips.

use crate::fault::{AslError, Why, fault};
use crate::node::{Node, word_node};
use crate::squeeze::{begins_note, is_word};
use acpi_base::slice::from_offset;
use std::alloc::Global;

/// Lists are nested at most this deep: a term at the depth that the reader reads has two lists.
pub const MAX_LISTS: usize = 512;

// A list that is read.
#[derive(Drop)]
struct List<'a> {
    nodes: Vec<Node<'a>>,
    // Whether it is in braces.
    braces: bool,
    // Whether a comma has been read.
    commas: bool,
    // Whether a node follows the last comma.
    filled: bool,
}

// The nodes that are read so far: the lists that aren't closed, outermost first.
#[derive(Drop)]
struct Builder<'a> {
    alloc: Global,
    outer: Vec<List<'a>>,
    inner: List<'a>,
    // The notes that belong to the next word, one after another.
    note: &'a [u8],
}

fn empty_list<'a>(alloc: Global, braces: bool) -> List<'a> {
    List {
        nodes: Vec::new(alloc),
        braces,
        commas: false,
        filled: false,
    }
}

impl<'a> Builder<'a> {
    // Adds a word.
    fn word(&mut self, at: usize, word: &'a [u8]) -> Result<(), AslError> {
        if self.inner.filled && !self.inner.braces {
            return Err(fault(at, Why::Unexpected));
        }
        self.inner.filled = true;
        self.inner.nodes.push(word_node(at, self.note, word))?;
        self.note = &[];
        Ok(())
    }

    // Keeps the note from one character to another for the next word, with the notes before it.
    fn keep(&mut self, text: &'a [u8], from: usize, to: usize) {
        self.note = between(text, from.saturating_sub(self.note.len()), to);
    }

    // Adds an empty word with the notes before it, unless a node follows the last comma.
    fn fill(&mut self, at: usize) -> Result<(), AslError> {
        if !self.inner.filled {
            self.inner.nodes.push(word_node(at, self.note, &[]))?;
            self.note = &[];
        }
        Ok(())
    }

    fn comma(&mut self, at: usize) -> Result<(), AslError> {
        self.fill(at)?;
        self.no_note(at)?;
        self.inner.commas = true;
        self.inner.filled = false;
        Ok(())
    }

    // Whether the last node has such a list, or one that stands after it.
    fn has_list(&self, braces: bool) -> bool {
        match self.inner.nodes.last() {
            Some(node) if braces => node.body.is_some(),
            Some(node) => !node.is_alone(),
            None => false,
        }
    }

    // Begins a list in parentheses or in braces.
    fn open(&mut self, at: usize, braces: bool) -> Result<(), AslError> {
        if self.outer.len() >= MAX_LISTS {
            return Err(fault(at, Why::TooDeep));
        }
        if braces {
            self.fill(at)?;
            self.inner.filled = true;
        }
        if !self.inner.filled || self.has_list(braces) {
            return Err(fault(at, Why::Unexpected));
        }
        let list = empty_list(self.alloc, braces);
        self.outer.push(std::mem::replace(&mut self.inner, list))?;
        Ok(())
    }

    // Ends the innermost list, which belongs to the last node of the list around it. In braces nothing has to follow the last
    // comma.
    fn close(&mut self, at: usize, braces: bool) -> Result<(), AslError> {
        if self.inner.commas && !self.inner.braces {
            self.fill(at)?;
        }
        let Some(outer) = self.outer.pop() else {
            return Err(fault(at, Why::Unexpected));
        };
        let list = std::mem::replace(&mut self.inner, outer);
        if list.braces != braces {
            return Err(fault(at, Why::Unexpected));
        }
        let Some(mut node) = self.inner.nodes.pop() else {
            return Err(fault(at, Why::Unexpected));
        };
        if braces && node.body.is_none() {
            node.body = Some(list.nodes);
        } else if !braces && node.is_alone() {
            node.arguments = Some(list.nodes);
        } else {
            return Err(fault(at, Why::Unexpected));
        }
        self.inner.nodes.push(node)?;
        Ok(())
    }

    // Refuses a note that ends at a place and has no word after it.
    fn no_note(&self, at: usize) -> Result<(), AslError> {
        let start = at.saturating_sub(self.note.len());
        if self.note.is_empty() {
            Ok(())
        } else if self.note.starts_with(b"/*= not read") {
            Err(fault(start, Why::Unread))
        } else {
            Err(fault(start, Why::Note))
        }
    }

    // Adds a character that isn't part of a word.
    fn mark(&mut self, at: usize, c: u8) -> Result<(), AslError> {
        if c == b',' {
            return self.comma(at);
        }
        self.no_note(at)?;
        match c {
            b' ' => Ok(()),
            b'(' => self.open(at, false),
            b')' => self.close(at, false),
            b'{' => self.open(at, true),
            b'}' => self.close(at, true),
            b'='
            | b'+'
            | b'-'
            | b'*'
            | b'/'
            | b'%'
            | b'&'
            | b'|'
            | b'!'
            | b'~'
            | b'<'
            | b'>'
            | b'[' => Err(fault(at, Why::Symbol)),
            _ => Err(fault(at, Why::Unexpected)),
        }
    }
}

// What is being read.
#[derive(Clone, Copy)]
enum Reading {
    Mark,
    // A word from a character on.
    Word(usize),
    // A string from a character on.
    Text(usize),
    // The same after a backslash.
    Escape(usize),
    // A note from a character on.
    Note(usize),
}

// What a character begins.
fn begun(text: &[u8], i: usize, c: u8) -> Reading {
    match c {
        b'"' => Reading::Text(i),
        b'/' if begins_note(from_offset(i, text)) => Reading::Note(i),
        _ if is_word(c) => Reading::Word(i),
        _ => Reading::Mark,
    }
}

// The characters from one to another.
fn between(text: &[u8], from: usize, to: usize) -> &[u8] {
    match text.get(from..to) {
        Some(part) => part,
        None => &[],
    }
}

// Reads a character.
fn step<'a>(
    builder: &mut Builder<'a>,
    text: &'a [u8],
    reading: Reading,
    i: usize,
    c: u8,
) -> Result<Reading, AslError> {
    match reading {
        Reading::Text(from) | Reading::Escape(from) if c == b'\n' => Err(fault(
            from,
            Why::Unfinished,
        )),
        Reading::Text(from) if c == b'"' => {
            builder.word(from, between(text, from, i.saturating_add(1)))?;
            Ok(Reading::Mark)
        }
        Reading::Text(from) if c == b'\\' => Ok(Reading::Escape(from)),
        Reading::Note(from) if c == b'/' && between(text, from, i).ends_with(b"*") => {
            builder.keep(text, from, i.saturating_add(1));
            Ok(Reading::Mark)
        }
        Reading::Text(_) | Reading::Note(_) => Ok(reading),
        Reading::Escape(from) => Ok(Reading::Text(from)),
        Reading::Word(_) if is_word(c) => Ok(reading),
        Reading::Word(from) => {
            builder.word(from, between(text, from, i))?;
            begin(builder, text, i, c)
        }
        Reading::Mark => begin(builder, text, i, c),
    }
}

// Reads a character outside of words.
fn begin(builder: &mut Builder<'_>, text: &[u8], i: usize, c: u8) -> Result<Reading, AslError> {
    let reading = begun(text, i, c);
    if let Reading::Mark = reading {
        builder.mark(i, c)?;
    }
    Ok(reading)
}

/// The nodes of a text without what a compiler skips.
pub fn nodes_of<'a>(alloc: Global, text: &'a [u8]) -> Result<Vec<Node<'a>>, AslError> {
    let mut builder = Builder {
        alloc,
        outer: Vec::new(alloc),
        inner: empty_list(alloc, true),
        note: &[],
    };
    let mut reading = Reading::Mark;
    'characters: for (i, c) in text.iter().enumerate() {
        reading = step(&mut builder, text, reading, i, *c)?;
    }
    if let Reading::Word(from) = reading {
        builder.word(from, between(text, from, text.len()))?;
        reading = Reading::Mark;
    }
    match reading {
        Reading::Text(from) | Reading::Escape(from) => Err(fault(from, Why::Unfinished)),
        Reading::Mark if builder.outer.is_empty() => {
            builder.no_note(text.len())?;
            Ok(builder.inner.nodes)
        }
        Reading::Note(from) => Err(fault(from, Why::Comment)),
        _ => Err(fault(text.len(), Why::Unfinished)),
    }
}
