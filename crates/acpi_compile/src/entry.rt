//! The entries of fields (ACPI 6.5, 19.6.47 and 20.2.5.2).

use crate::argument::{byte_at, keyword_at};
use crate::constant::bytes_of;
use crate::fault::{AslError, Why, fault};
use crate::item::item;
use crate::name::{name, segment};
use crate::node::{Node, list_of};
use crate::number::{decimal, hex};
use crate::sized::{can_say, frame};
use crate::word::is_keyword;
use acpi_asl::number::least_bytes;
use acpi_asl::word::Keyword;
use acpi_term::row::least_width;
use acpi_term::term::TermEntry;
use std::alloc::Global;

/// Entries, and how many bytes spell them.
#[derive(Drop)]
pub struct Entries {
    pub entries: Vec<TermEntry>,
    pub size: usize,
    // The bit after them.
    bit: u64,
}

fn wrong(node: &Node<'_>) -> AslError {
    fault(node.at, Why::Entry)
}

// The width of a number of bits for an entry which a node begins: that of its note, or else the least one.
fn width_of(node: &Node<'_>, bits: u32) -> Result<u8, AslError> {
    match node.length() {
        Some(width) if can_say(width, bits as usize) => Ok(width),
        Some(_) => Err(fault(node.start(), Why::TooLong)),
        None => Ok(least_width(bits as usize)),
    }
}

// A number of bits that a length can say (ACPI 6.5, 20.2.4).
fn encoded(node: &Node<'_>, bits: u64) -> Result<u32, AslError> {
    match u32::try_from(bits) {
        Ok(bits) if bits < 0x1000_0000 => Ok(bits),
        _ => Err(fault(node.at, Why::TooLong)),
    }
}

impl Entries {
    fn add(&mut self, entry: TermEntry, size: usize) -> Result<(), AslError> {
        self.entries.push(entry)?;
        self.size = self.size.saturating_add(size);
        Ok(())
    }

    // Adds bits without a name, which a node begins.
    fn reserved(&mut self, node: &Node<'_>, bits: u32) -> Result<(), AslError> {
        self.bit = self.bit.saturating_add(u64::from(bits));
        let width = width_of(node, bits)?;
        self.add(TermEntry::Reserved(bits, width), 1 + usize::from(width))
    }

    // Adds bits with a name, or without one.
    fn bits(&mut self, name: &Node<'_>, node: &Node<'_>) -> Result<(), AslError> {
        let Some(bits) = decimal(node.word) else {
            return Err(fault(node.at, Why::Count));
        };
        if !node.is_alone() {
            return Err(wrong(node));
        }
        let bits = encoded(node, u64::from(bits))?;
        if name.is_absent() {
            return self.reserved(name, bits);
        }
        let Some(segment) = segment(name.word) else {
            return Err(wrong(name));
        };
        self.bit = self.bit.saturating_add(u64::from(bits));
        let width = width_of(name, bits)?;
        self.add(
            TermEntry::Named(segment, bits, width),
            4 + usize::from(width),
        )
    }

    // Adds bits up to a byte.
    fn offset(&mut self, node: &Node<'_>) -> Result<(), AslError> {
        let [argument] = list_of(&node.arguments) else {
            return Err(wrong(node));
        };
        let Some(byte) = hex(argument.word) else {
            return Err(fault(argument.at, Why::Number));
        };
        let bits = byte.value.saturating_mul(8).saturating_sub(self.bit);
        self.reserved(node, encoded(argument, bits)?)
    }

    // Adds how the entries after it are accessed.
    fn access(&mut self, node: &Node<'_>) -> Result<(), AslError> {
        let [access, attribute] = list_of(&node.arguments) else {
            return Err(wrong(node));
        };
        let access = keyword_at(Keyword::AccessType, access)?;
        if let [size] = list_of(&attribute.arguments) {
            return self.extended(access, attribute, size);
        }
        let attribute = keyword_at(Keyword::AccessAttribute, attribute)?;
        self.add(TermEntry::AccessAs(access, attribute), 3)
    }

    // The same, with a length.
    fn extended(
        &mut self,
        access: u8,
        attribute: &Node<'_>,
        size: &Node<'_>,
    ) -> Result<(), AslError> {
        let word = Node {
            at: attribute.at,
            note: &[],
            word: attribute.word,
            arguments: None,
            body: None,
        };
        let attribute = keyword_at(Keyword::ExtendedAttribute, &word)?;
        let size = byte_at(size)?;
        self.add(TermEntry::ExtendedAccessAs(access, attribute, size), 4)
    }

    // Adds the connection of the entries after it.
    fn connection(&mut self, alloc: Global, node: &Node<'_>) -> Result<(), AslError> {
        let [connection] = list_of(&node.arguments) else {
            return Err(wrong(node));
        };
        if connection.is(b"Buffer") {
            return self.raw(alloc, node, connection);
        }
        // The macros of descriptors, such as `IRQ`, may be names elsewhere.
        if !connection.is_alone() || is_keyword(connection.word) {
            let bytes = item(alloc, connection)?;
            let size = bytes.len() as u64;
            return self.buffer(node, size, least_bytes(size), bytes);
        }
        let name = name(alloc, connection.at, connection.word)?;
        let size = name.as_bytes().len();
        self.add(TermEntry::Connection(name), size.saturating_add(1))
    }

    // Adds an entry that is one node, and returns whether it is one.
    fn add_whole(&mut self, alloc: Global, node: &Node<'_>) -> Result<bool, AslError> {
        if node.is(b"Offset") {
            self.offset(node)?;
        } else if node.is(b"AccessAs") {
            self.access(node)?;
        } else if node.is(b"Connection") {
            self.connection(alloc, node)?;
        } else {
            return Ok(false);
        }
        Ok(true)
    }

    // Adds a connection by a buffer that is no macro's.
    fn raw(&mut self, alloc: Global, node: &Node<'_>, buffer: &Node<'_>) -> Result<(), AslError> {
        let [size] = list_of(&buffer.arguments) else {
            return Err(wrong(buffer));
        };
        let Some((size, width)) = size_of(size) else {
            return Err(fault(size.at, Why::Number));
        };
        let bytes = bytes_of(alloc, list_of(&buffer.body))?;
        self.buffer(node, size, width, bytes)
    }

    // Adds a connection by a buffer.
    fn buffer(
        &mut self,
        node: &Node<'_>,
        size: u64,
        size_width: u8,
        bytes: Vec<u8>,
    ) -> Result<(), AslError> {
        let content = bytes.len().saturating_add(1 + usize::from(size_width));
        let (width, all) = frame(node, 2, content)?;
        self.add(
            TermEntry::ConnectionBuffer {
                width,
                size,
                size_width,
                bytes,
            },
            all,
        )
    }
}

// A size, and how many bytes it has after its prefix.
fn size_of(node: &Node<'_>) -> Option<(u64, u8)> {
    if node.is(b"Zero") {
        return Some((0, 0));
    }
    if node.is(b"One") {
        return Some((1, 0));
    }
    let number = hex(node.word)?;
    Some((number.value, number.width))
}

/// The entries of a list in braces.
pub fn read_entries(alloc: Global, nodes: &[Node<'_>]) -> Result<Entries, AslError> {
    let mut list = Entries {
        entries: Vec::new(alloc),
        size: 0,
        bit: 0,
    };
    let mut before: Option<&Node<'_>> = None;
    'entries: for node in nodes {
        before = match before {
            Some(name) => {
                list.bits(name, node)?;
                None
            }
            None if list.add_whole(alloc, node)? => None,
            None => Some(node),
        };
    }
    match before {
        Some(node) => Err(wrong(node)),
        None => Ok(list),
    }
}
