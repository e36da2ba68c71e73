//! The keywords of ASL (ACPI 6.5, 19.2.5 to 19.2.7).

use crate::node::Node;
use crate::note::after;
use crate::number::hex;
use acpi_asl::word::{Keyword, operator_word, rows_of};
use acpi_term::op::Op;
use std::alloc::{AllocError, Global};

/// Whether a word is among these.
pub fn is_among(word: &[u8], words: &[&[u8]]) -> bool {
    'words: for other in words {
        if *other == word {
            return true;
        }
    }
    false
}

// The digit after a front, if nothing follows it and it is no greater than the last one.
fn digit_after(front: &[u8], last: u8, word: &[u8]) -> Option<u8> {
    let [digit] = after(word, front)? else {
        return None;
    };
    if (b'0'..=last).contains(digit) {
        Some(*digit - b'0')
    } else {
        None
    }
}

/// The number of an argument, if a word is one: `Arg0` to `Arg6`.
pub fn argument_of(word: &[u8]) -> Option<u8> {
    digit_after(b"Arg", b'6', word)
}

/// The number of a local object, if a word is one: `Local0` to `Local7`.
pub fn local_of(word: &[u8]) -> Option<u8> {
    digit_after(b"Local", b'7', word)
}

/// Whether a word has a small letter, which names don't have. Keywords of capitals alone, such as MEQ and IRQ, have none.
pub fn is_keyword(word: &[u8]) -> bool {
    word.iter().any(|c| c.is_ascii_lowercase())
}

/// Whether a word is a name: it is neither a keyword, nor a number or a text.
pub fn is_name(word: &[u8]) -> bool {
    match word {
        [] | [b'"' | b'0'..=b'9', ..] => false,
        _ => !is_keyword(word),
    }
}

fn push_operator(code: &[u8], operators: &mut Vec<Op>) -> Result<(), AllocError> {
    if let Some(op) = Op::from_code(code) {
        operators.push(op)?;
    }
    Ok(())
}

/// All operators, by their opcodes.
pub fn operators(alloc: Global) -> Result<Vec<Op>, AllocError> {
    let mut operators = Vec::new(alloc);
    'codes: for code in 0..=0xff {
        push_operator(&[code], &mut operators)?;
        push_operator(&[0x5b, code], &mut operators)?;
    }
    Ok(operators)
}

/// The operator of a word.
pub fn operator(operators: &[Op], word: &[u8]) -> Option<Op> {
    'operators: for op in operators {
        if operator_word(*op).as_bytes() == word {
            return Some(*op);
        }
    }
    None
}

/// The number in the first row with a word.
pub fn number_in(rows: &[(u8, &'static str)], word: &[u8]) -> Option<u8> {
    'rows: for row in rows {
        if row.1.as_bytes() == word {
            return Some(row.0);
        }
    }
    None
}

/// A number of this many bytes in hexadecimal digits, which stands alone.
pub fn number_of(node: &Node<'_>, width: u8) -> Option<u64> {
    let number = hex(node.word)?;
    if number.width == width && node.is_alone() {
        Some(number.value)
    } else {
        None
    }
}

/// The same of one byte.
pub fn byte_of(node: &Node<'_>) -> Option<u8> {
    u8::try_from(number_of(node, 1)?).ok()
}

/// The same of two bytes.
pub fn word_of(node: &Node<'_>) -> Option<u16> {
    u16::try_from(number_of(node, 2)?).ok()
}

/// The same of four bytes.
pub fn dword_of(node: &Node<'_>) -> Option<u32> {
    u32::try_from(number_of(node, 4)?).ok()
}

/// The number of a keyword, or a byte in hexadecimal digits.
pub fn keyword_number(keyword: Keyword, node: &Node<'_>) -> Option<u8> {
    match number_in(rows_of(keyword), node.word) {
        Some(number) if node.is_alone() => Some(number),
        _ => byte_of(node),
    }
}
