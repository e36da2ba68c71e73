//! The arguments of a term that aren't terms.

use crate::fault::{AslError, Why, fault};
use crate::name::name;
use crate::node::Node;
use crate::number::{decimal, string};
use crate::word::{byte_of, dword_of, keyword_number, number_of, word_of};
use acpi_asl::word::Keyword;
use acpi_term::name_string::NameString;
use std::alloc::Global;
use std::str;

/// The fault of a term with other arguments.
pub fn wrong(node: &Node<'_>) -> AslError {
    fault(node.at, Why::Arguments)
}

/// A name without lists.
pub fn name_at(alloc: Global, node: &Node<'_>) -> Result<NameString, AslError> {
    if !node.is_alone() {
        return Err(fault(node.at, Why::Unexpected));
    }
    name(alloc, node.at, node.word)
}

/// The number of a keyword.
pub fn keyword_at(keyword: Keyword, node: &Node<'_>) -> Result<u8, AslError> {
    match keyword_number(keyword, node) {
        Some(number) => Ok(number),
        None => Err(fault(node.at, Why::Keyword)),
    }
}

// The number of a node, or the fault of one with other digits.
fn given<T: Copy>(node: &Node<'_>, number: Option<T>, why: Why) -> Result<T, AslError> {
    match number {
        Some(number) => Ok(number),
        None => Err(fault(node.at, why)),
    }
}

/// A number of one byte.
pub fn byte_at(node: &Node<'_>) -> Result<u8, AslError> {
    given(node, byte_of(node), Why::OneByte)
}

/// A number of two bytes.
pub fn word_at(node: &Node<'_>) -> Result<u16, AslError> {
    given(node, word_of(node), Why::TwoBytes)
}

/// A number of four bytes.
pub fn dword_at(node: &Node<'_>) -> Result<u32, AslError> {
    given(node, dword_of(node), Why::FourBytes)
}

/// A number of this many bytes.
pub fn number_at(node: &Node<'_>, width: u8) -> Result<u64, AslError> {
    let why = match width {
        1 => Why::OneByte,
        2 => Why::TwoBytes,
        4 => Why::FourBytes,
        _ => Why::EightBytes,
    };
    given(node, number_of(node, width), why)
}

/// A decimal number below a limit.
pub fn below(node: &Node<'_>, limit: u8) -> Result<u8, AslError> {
    match decimal(node.word) {
        Some(number) if number < u32::from(limit) && node.is_alone() => Ok(number as u8),
        _ => Err(fault(node.at, Why::Count)),
    }
}

/// The bytes of a string in quotation marks.
pub fn string_at(alloc: Global, node: &Node<'_>) -> Result<Vec<u8>, AslError> {
    if !node.is_alone() {
        return Err(fault(node.at, Why::Text));
    }
    match string(alloc, node.word)? {
        Ok(bytes) => Ok(bytes),
        Err(why) => Err(fault(node.at, why)),
    }
}

/// The same as characters of ASCII but the zero, which ends a string (ACPI 6.5, 20.2.3).
pub fn text_at(alloc: Global, node: &Node<'_>) -> Result<String, AslError> {
    let bytes = string_at(alloc, node)?;
    'bytes: for byte in &bytes {
        if !(0x01..=0x7f).contains(byte) {
            return Err(fault(node.at, Why::Text));
        }
    }
    match str::from_utf8(&bytes) {
        Ok(text) => Ok(String::from_str(alloc, text)?),
        Err(_) => Err(fault(node.at, Why::Text)),
    }
}
