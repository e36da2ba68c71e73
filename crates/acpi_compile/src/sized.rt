//! Terms with the number of their bytes, from which the lengths around them follow.

use crate::fault::{AslError, Why, fault};
use crate::node::Node;
use acpi_term::name_string::NameString;
use acpi_term::row::least_width;
use acpi_term::term::Term;
use std::alloc::Global;

/// A term, and how many bytes spell it.
#[derive(Drop)]
pub struct Sized {
    pub term: Term,
    pub size: usize,
}

/// Terms, and how many bytes spell them.
#[derive(Drop)]
pub struct SizedList {
    pub terms: Vec<Term>,
    pub size: usize,
}

impl SizedList {
    /// No terms.
    pub fn new(alloc: Global) -> SizedList {
        SizedList {
            terms: Vec::new(alloc),
            size: 0,
        }
    }

    /// Adds a term.
    pub fn add(&mut self, sized: Sized) -> Result<(), AslError> {
        self.size = self.size.saturating_add(sized.size);
        self.terms.push(sized.term)?;
        Ok(())
    }
}

/// Whether a PkgLength of this many bytes can say a number (ACPI 6.5, 20.2.4).
pub fn can_say(width: u8, n: usize) -> bool {
    match width {
        1 => n < 0x40,
        2 => n < 0x1000,
        3 => n < 0x10_0000,
        _ => n < 0x1000_0000,
    }
}

/// The width of a PkgLength with this many bytes after it, and how many bytes there are with it and an opcode. The width may be
/// stated at a place of the text.
pub fn frame_at(
    at: usize,
    stated: Option<u8>,
    code: usize,
    content: usize,
) -> Result<(u8, usize), AslError> {
    let width = match stated {
        Some(width) => width,
        None => least_width(content),
    };
    let counted = content.saturating_add(usize::from(width));
    if can_say(width, counted) {
        Ok((width, counted.saturating_add(code)))
    } else {
        Err(fault(at, Why::TooLong))
    }
}

/// The same for a node, whose note may state the width.
pub fn frame(node: &Node<'_>, code: usize, content: usize) -> Result<(u8, usize), AslError> {
    frame_at(node.start(), node.length(), code, content)
}

/// The number of bytes of a name and of what follows it.
pub fn plus(name: &NameString, more: usize) -> usize {
    name.as_bytes().len().saturating_add(more)
}

/// A number of this many bytes after its prefix.
pub fn number(value: u64, width: u8) -> Sized {
    Sized {
        term: Term::Number { value, width },
        size: 1 + usize::from(width),
    }
}
