//! The names of ASL (ACPI 6.5, 19.2.2).

use crate::fault::{AslError, Why, fault};
use acpi_read::terms::standard_terms;
use acpi_term::name_string::{Arities, NameString};
use acpi_term::read_error::ReadError;
use acpi_term::segment::is_segment;
use acpi_term::term::Term;
use std::alloc::Global;

/// The four bytes of a segment, to which underscores are added.
pub fn segment(text: &[u8]) -> Option<[u8; 4]> {
    let bytes = match text {
        [a] => [*a, b'_', b'_', b'_'],
        [a, b] => [*a, *b, b'_', b'_'],
        [a, b, c] => [*a, *b, *c, b'_'],
        [a, b, c, d] => [*a, *b, *c, *d],
        _ => return None,
    };
    let [a, b, c, d] = bytes;
    if is_segment(a, b, c, d) {
        Some(bytes)
    } else {
        None
    }
}

// Adds the prefixes of a name, and returns what follows them.
fn push_prefixes<'a>(text: &'a [u8], bytes: &mut Vec<u8>) -> Result<&'a [u8], AslError> {
    if let [b'\\', rest @ ..] = text {
        bytes.push(b'\\')?;
        return Ok(rest);
    }
    let mut rest = text;
    'parents: while let [b'^', more @ ..] = rest {
        bytes.push(b'^')?;
        rest = more;
    }
    Ok(rest)
}

// Adds the segments of a name, with what says how many there are (ACPI 6.5, 20.2.2). Returns whether it is a name.
fn push_segments(alloc: Global, text: &[u8], bytes: &mut Vec<u8>) -> Result<bool, AslError> {
    let mut segments = Vec::new(alloc);
    'segments: for part in text.split(|c| *c == b'.') {
        let Some(four) = segment(part) else {
            return Ok(false);
        };
        segments.extend_from_slice(&four)?;
    }
    match NameString::of_segments(alloc, false, &segments)? {
        Some(name) => {
            bytes.extend_from_slice(name.as_bytes())?;
            Ok(true)
        }
        None => Ok(false),
    }
}

// The bytes that spell a name, or none for another text.
fn spelled(alloc: Global, text: &[u8]) -> Result<Option<Vec<u8>>, AslError> {
    let mut bytes = Vec::new(alloc);
    let rest = push_prefixes(text, &mut bytes)?;
    if rest.is_empty() && !bytes.is_empty() {
        bytes.push(0)?;
        return Ok(Some(bytes));
    }
    if push_segments(alloc, rest, &mut bytes)? {
        Ok(Some(bytes))
    } else {
        Ok(None)
    }
}

fn read_terms(alloc: Global, bytes: &[u8]) -> Result<Vec<Term>, ReadError> {
    let arities = Arities::new(Vec::new(alloc))?;
    standard_terms(bytes, &arities)
}

/// The name of a text: it is the name that the reader of terms reads of its bytes.
pub fn name(alloc: Global, at: usize, text: &[u8]) -> Result<NameString, AslError> {
    let Some(bytes) = spelled(alloc, text)? else {
        return Err(fault(at, Why::Word));
    };
    match read_terms(alloc, &bytes) {
        Ok(mut terms) => match terms.pop() {
            Some(Term::Call { name, .. }) => Ok(name),
            _ => Err(fault(at, Why::Word)),
        },
        Err(ReadError::Memory) => Err(AslError::Memory),
        Err(_) => Err(fault(at, Why::Word)),
    }
}
