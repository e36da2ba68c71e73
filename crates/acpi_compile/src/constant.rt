//! Terms of one word, and those that a compiler makes of one: numbers, strings, and buffers.

use crate::argument::{byte_at, text_at, wrong};
use crate::fault::{AslError, Why, fault};
use crate::node::{Node, list_of};
use crate::number::hex;
use crate::sized::{Sized, frame, number};
use crate::template::template;
use crate::word::{argument_of, local_of};
use acpi_aml::eisa::EISAName;
use acpi_aml::uuid::Uuid;
use acpi_asl::number::least_bytes;
use acpi_base::buffer::append_value;
use acpi_base::error::Error;
use acpi_base::slice::from_offset;
use acpi_term::term::Term;
use std::alloc::Global;

/// A string.
pub fn text_term(alloc: Global, node: &Node<'_>) -> Result<Sized, AslError> {
    let text = text_at(alloc, node)?;
    let size = text.len().saturating_add(2);
    Ok(Sized {
        term: Term::Text(text),
        size,
    })
}

/// A number in hexadecimal digits.
pub fn number_term(node: &Node<'_>) -> Result<Sized, AslError> {
    match hex(node.word) {
        Some(hex) if node.is_alone() => Ok(number(hex.value, hex.width)),
        _ => Err(fault(node.at, Why::Number)),
    }
}

/// A term of one byte, if its word has no lists.
pub fn alone(node: &Node<'_>, term: Term) -> Result<Sized, AslError> {
    if node.is_alone() {
        Ok(Sized { term, size: 1 })
    } else {
        Err(wrong(node))
    }
}

/// A constant, a local object or an argument.
pub fn constant(node: &Node<'_>) -> Option<Term> {
    if node.is(b"Zero") {
        return Some(Term::Number { value: 0, width: 0 });
    }
    if node.is(b"One") {
        return Some(Term::Number { value: 1, width: 0 });
    }
    if node.is(b"Ones") {
        return Some(Term::Ones);
    }
    match local_of(node.word) {
        Some(n) => Some(Term::Local(n)),
        None => Some(Term::Arg(argument_of(node.word)?)),
    }
}

// ---- buffers

/// A buffer with this size.
pub fn buffer(node: &Node<'_>, size: Sized, bytes: Vec<u8>) -> Result<Sized, AslError> {
    let content = bytes.len().saturating_add(size.size);
    let (width, all) = frame(node, 1, content)?;
    Ok(Sized {
        term: Term::Buffer {
            width,
            size: Box::new(*bytes.allocator(), size.term)?,
            bytes,
        },
        size: all,
    })
}

// A buffer whose size is the number of its bytes.
fn whole_buffer(node: &Node<'_>, bytes: Vec<u8>) -> Result<Sized, AslError> {
    let count = bytes.len() as u64;
    buffer(node, number(count, least_bytes(count)), bytes)
}

/// The bytes of a list in braces.
pub fn bytes_of(alloc: Global, nodes: &[Node<'_>]) -> Result<Vec<u8>, AslError> {
    let mut bytes = Vec::with_capacity(alloc, nodes.len())?;
    'bytes: for node in nodes {
        bytes.push(byte_at(node)?)?;
    }
    Ok(bytes)
}

/// The buffer of a UUID (ACPI 6.5, 19.6.142).
pub fn uuid(alloc: Global, node: &Node<'_>) -> Result<Sized, AslError> {
    let [text] = list_of(&node.arguments) else {
        return Err(wrong(node));
    };
    let Ok(uuid) = Uuid::new(text_at(alloc, text)?.as_str()) else {
        return Err(fault(text.at, Why::Uuid));
    };
    let mut written = Vec::new(alloc);
    written_by(text, append_value(&uuid, &mut written))?;
    whole_buffer(node, Vec::from_slice(alloc, from_offset(4, &written))?)
}

/// The number of an EISA id (ACPI 6.5, 19.6.37).
pub fn eisa(alloc: Global, node: &Node<'_>) -> Result<Sized, AslError> {
    let [text] = list_of(&node.arguments) else {
        return Err(wrong(node));
    };
    let Ok(id) = EISAName::new(text_at(alloc, text)?.as_str()) else {
        return Err(fault(text.at, Why::EisaId));
    };
    let mut written = Vec::new(alloc);
    written_by(text, append_value(&id, &mut written))?;
    let mut value: u64 = 0;
    'bytes: for byte in from_offset(1, &written).iter().rev() {
        value = value.wrapping_mul(256) | u64::from(*byte);
    }
    Ok(number(value, 4))
}

fn written_by(node: &Node<'_>, written: Result<(), Error>) -> Result<(), AslError> {
    match written {
        Ok(()) => Ok(()),
        Err(Error::Memory) => Err(AslError::Memory),
        Err(_) => Err(fault(node.at, Why::TooLong)),
    }
}

/// The buffer of a resource template (ACPI 6.5, 19.6.117).
pub fn template_term(alloc: Global, node: &Node<'_>) -> Result<Sized, AslError> {
    let bytes = template(alloc, list_of(&node.body))?;
    whole_buffer(node, bytes)
}
