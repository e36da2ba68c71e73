//! The bytes of a file, as they are written in a case.

use crate::parts::{hex_byte, number, split_once, unreadable};
use std::alloc::Global;
use std::io;
use std::io::{Error, ErrorKind};
use test_support::table::table;

/// The signature and the revision of a standard header.
#[derive(Clone, Copy)]
struct Header {
    signature: [u8; 4],
    revision: u8,
}

/// A byte that is set at an offset of the whole file.
#[derive(Clone, Copy)]
struct Patch {
    offset: usize,
    byte: u8,
}

/// What lines have said of a file so far.
#[derive(Drop)]
pub struct Content {
    bytes: Vec<u8>,
    header: Option<Header>,
    patches: Vec<Patch>,
}

// Returns a text without the space before it.
fn after_space(text: &[u8]) -> io::Result<&[u8]> {
    match text {
        [] => Ok(text),
        [b' ', after @ ..] => Ok(after),
        _ => Err(unreadable()),
    }
}

// Returns the first byte of a text with escapes, and the text after it.
fn unescaped(text: &[u8]) -> Option<(u8, &[u8])> {
    match text {
        [b'\\', b'x', high, low, after @ ..] => Some((hex_byte(*high, *low)?, after)),
        [b'\\', b'n', after @ ..] => Some((b'\n', after)),
        [b'\\', b'r', after @ ..] => Some((b'\r', after)),
        [b'\\', b't', after @ ..] => Some((b'\t', after)),
        [] | [b'\\', ..] => None,
        [byte, after @ ..] => Some((*byte, after)),
    }
}

// Returns the bytes of the hexadecimal digits at the front of a text, and the text after them.
fn hex_bytes(alloc: Global, text: &[u8]) -> io::Result<(Vec<u8>, &[u8])> {
    let mut bytes = Vec::new(alloc);
    let mut rest = text;
    for _ in 0..text.len() {
        let [high, low, after @ ..] = rest else {
            break;
        };
        let Some(byte) = hex_byte(*high, *low) else {
            break;
        };
        bytes.push(byte)?;
        rest = after;
    }
    Ok((bytes, rest))
}

// Returns the table of a header and the bytes after it.
fn with_header(alloc: Global, header: Header, body: &[u8]) -> io::Result<Vec<u8>> {
    match table(alloc, &header.signature, header.revision, &[body]) {
        Ok(bytes) => Ok(bytes),
        Err(_) => Err(Error::from(ErrorKind::OutOfMemory)),
    }
}

// Sets the bytes of patches.
fn set_bytes(bytes: &mut [u8], patches: &[Patch]) -> io::Result<()> {
    for patch in patches {
        match bytes.get_mut(patch.offset) {
            Some(byte) => *byte = patch.byte,
            None => return Err(unreadable()),
        }
    }
    Ok(())
}

impl Content {
    pub fn new(alloc: Global) -> Content {
        Content {
            bytes: Vec::new(alloc),
            header: None,
            patches: Vec::new(alloc),
        }
    }

    // Adds a piece as many times as the text after it says, and returns what follows.
    fn push_times<'a>(&mut self, piece: &[u8], text: &'a [u8]) -> io::Result<&'a [u8]> {
        let (times, after) = match text {
            [b'*', text @ ..] => number(text)?,
            _ => (1, text),
        };
        let all = piece.repeat(*self.bytes.allocator(), times)?;
        self.bytes.extend_from_slice(&all)?;
        Ok(after)
    }

    // Adds a piece of hexadecimal digits, and returns what follows.
    fn push_hex<'a>(&mut self, text: &'a [u8]) -> io::Result<&'a [u8]> {
        let (piece, after) = hex_bytes(*self.bytes.allocator(), text)?;
        if piece.is_empty() {
            return Err(unreadable());
        }
        self.push_times(&piece, after)
    }

    // Adds a piece up to a quotation mark, and returns what follows.
    fn push_quoted<'a>(&mut self, text: &'a [u8]) -> io::Result<&'a [u8]> {
        match split_once(text, b'"') {
            Some((piece, after)) => self.push_times(piece, after),
            None => Err(unreadable()),
        }
    }

    // Sets the header, whose signature was read, and returns what follows.
    fn set_header<'a>(&mut self, signature: [u8; 4], text: &'a [u8]) -> io::Result<&'a [u8]> {
        let (revision, after) = number(text)?;
        let (Ok(revision), [b'>', after @ ..]) = (u8::try_from(revision), after) else {
            return Err(unreadable());
        };
        self.header = Some(Header {
            signature,
            revision,
        });
        Ok(after)
    }

    // Adds a patch, and returns what follows.
    fn push_patch<'a>(&mut self, text: &'a [u8]) -> io::Result<&'a [u8]> {
        let (offset, after) = number(text)?;
        let [b'=', high, low, after @ ..] = after else {
            return Err(unreadable());
        };
        let Some(byte) = hex_byte(*high, *low) else {
            return Err(unreadable());
        };
        self.patches.push(Patch { offset, byte })?;
        Ok(after)
    }

    // Adds what is at the front of a text, and returns what follows.
    fn push_first<'a>(&mut self, text: &'a [u8]) -> io::Result<&'a [u8]> {
        match text {
            [b' ', after @ ..] => Ok(after),
            [b'"', after @ ..] => self.push_quoted(after),
            [b'<', a, b, c, d, b' ', after @ ..] => self.set_header([*a, *b, *c, *d], after),
            [b'@', after @ ..] => self.push_patch(after),
            _ => self.push_hex(text),
        }
    }

    /// Adds the bytes of a text up to a `;` or a `#`, and returns the text from there on.
    pub fn push_bytes<'a>(&mut self, text: &'a [u8]) -> io::Result<&'a [u8]> {
        let mut rest = text;
        for _ in 0..text.len() {
            if let [] | [b';' | b'#', ..] = rest {
                break;
            }
            rest = self.push_first(rest)?;
        }
        Ok(rest)
    }

    // Adds bytes to which nothing is to follow.
    fn push_last(&mut self, text: &[u8]) -> io::Result<()> {
        match self.push_bytes(text)? {
            [] => Ok(()),
            _ => Err(unreadable()),
        }
    }

    // Adds a line of text and its line feed.
    fn push_text(&mut self, text: &[u8]) -> io::Result<()> {
        self.bytes.extend_from_slice(text)?;
        self.bytes.push(b'\n')?;
        Ok(())
    }

    // Adds a text with escapes.
    fn push_escaped(&mut self, text: &[u8]) -> io::Result<()> {
        let mut rest = text;
        for _ in 0..text.len() {
            if rest.is_empty() {
                break;
            }
            let Some((byte, after)) = unescaped(rest) else {
                return Err(unreadable());
            };
            self.bytes.push(byte)?;
            rest = after;
        }
        Ok(())
    }

    /// Adds what a further line of a run says.
    pub fn push_line(&mut self, line: &[u8]) -> io::Result<()> {
        match line {
            [b'+', words @ ..] => self.push_last(words),
            [b'|', text @ ..] => self.push_text(after_space(text)?),
            [b'\\', text @ ..] => self.push_escaped(after_space(text)?),
            _ => Err(unreadable()),
        }
    }

    /// Returns the bytes of the whole file.
    pub fn whole(self, alloc: Global) -> io::Result<Vec<u8>> {
        let Content {
            bytes,
            header,
            patches,
        } = self;
        let mut whole = match header {
            Some(header) => with_header(alloc, header, &bytes)?,
            None => bytes,
        };
        set_bytes(&mut whole, &patches)?;
        Ok(whole)
    }
}
