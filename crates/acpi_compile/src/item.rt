//! Resource descriptors, made of their macros: the inverse of the tables that say how they are shown (ACPI 6.5, 6.4 and 19.2.8).

use crate::argument::{below, byte_at, number_at, string_at};
use crate::constant::bytes_of;
use crate::fault::{AslError, Why, fault};
use crate::node::{Node, list_of};
use crate::word::{byte_of, is_among, number_in};
use acpi_asl::content::value_of;
use acpi_asl::descriptor::{Bits, Braces, Check, Offset, Part, words};
use acpi_asl::macros::{Descriptor, checks, descriptors, macro_word, parts, tail};
use acpi_asl::template::is_template;
use acpi_base::slice::from_offset;
use std::alloc::{AllocError, Global};

// The descriptor of a macro.
fn descriptor(word: &[u8]) -> Option<Descriptor> {
    'descriptors: for descriptor in descriptors() {
        if macro_word(*descriptor).as_bytes() == word {
            return Some(*descriptor);
        }
    }
    None
}

// ---- the size of what is fixed

fn offset_size(offset: Offset) -> usize {
    match offset {
        Offset::At(at) => usize::from(at),
        Offset::Stated(at) => usize::from(at) + 2,
        Offset::Entries => 5,
        Offset::BusData => 12,
        Offset::End => 0,
    }
}

fn part_size(part: Part) -> usize {
    match part {
        Part::Word(bits, _) | Part::WordOrNumber(bits, _) | Part::Bits(bits) => {
            bits.offset.saturating_add(1)
        }
        Part::Number(at, width) => usize::from(at) + usize::from(width),
        Part::Blank => 0,
        Part::Tag(_, _, at, width) => usize::from(at) + usize::from(width),
        Part::Text(from, to) | Part::Vendor(from, to) => offset_size(from).max(offset_size(to)),
        Part::Index(at) | Part::Source(at) => offset_size(at),
    }
}

fn check_size(check: Check) -> usize {
    match check {
        Check::Is(bits, _) | Check::Nonzero(bits) => bits.offset.saturating_add(1),
        Check::Vendor(at) => usize::from(at) + 4,
        Check::AtLeast(at, _) => usize::from(at) + 2,
        Check::Pairs(from, to) | Check::Text(from, to) => offset_size(from).max(offset_size(to)),
        Check::Source(at) => offset_size(at),
    }
}

fn tail_size(tail: Braces) -> usize {
    match tail {
        Braces::Absent => 1,
        Braces::Irqs => 3,
        Braces::Channels => 2,
        Braces::Dwords(from, _) | Braces::Pairs(from, _) | Braces::Bytes(from) => offset_size(from),
    }
}

// The number of bytes before the lists and texts of a descriptor.
fn fixed_size(descriptor: Descriptor) -> usize {
    let mut size = tail_size(tail(descriptor));
    'parts: for part in parts(descriptor) {
        size = size.max(part_size(*part));
    }
    'checks: for check in checks(descriptor) {
        size = size.max(check_size(*check));
    }
    size
}

// ---- bytes and bits

fn put(item: &mut [u8], at: usize, byte: u8) {
    if let Some(place) = item.get_mut(at) {
        *place = byte;
    }
}

fn add_bits(item: &mut [u8], at: usize, byte: u8) {
    if let Some(place) = item.get_mut(at) {
        *place |= byte;
    }
}

fn shifted(value: u8, shift: u8) -> u8 {
    match shift {
        0 => value,
        1 => value.wrapping_mul(2),
        2 => value.wrapping_mul(4),
        3 => value.wrapping_mul(8),
        4 => value.wrapping_mul(16),
        5 => value.wrapping_mul(32),
        6 => value.wrapping_mul(64),
        _ => value.wrapping_mul(128),
    }
}

fn set_bits(item: &mut [u8], bits: Bits, value: u8) {
    add_bits(item, bits.offset, shifted(value, bits.shift));
}

fn set_word(item: &mut [u8], at: usize, value: usize) {
    put(item, at, (value % 256) as u8);
    put(item, at.saturating_add(1), (value / 256 % 256) as u8);
}

fn set_number(item: &mut [u8], at: u8, width: u8, value: u64) {
    let bytes = value.to_le_bytes();
    'bytes: for (i, byte) in bytes.iter().enumerate() {
        if i < usize::from(width) {
            put(item, usize::from(at) + i, *byte);
        }
    }
}

// States that an offset is the end of what is there.
fn state(item: &mut [u8], offset: Offset) {
    if let Offset::Stated(at) = offset {
        let end = item.len();
        set_word(item, usize::from(at), end);
    }
}

// ---- the list in braces

// The bits of channels, of which the highest is below a limit.
fn mask(nodes: &[Node<'_>], limit: u8) -> Result<u16, AslError> {
    let mut mask: u16 = 0;
    'channels: for node in nodes {
        mask |= 1u16.wrapping_shl(u32::from(below(node, limit)?));
    }
    Ok(mask)
}

// Adds numbers of this many bytes.
fn push_numbers(nodes: &[Node<'_>], width: u8, item: &mut Vec<u8>) -> Result<(), AslError> {
    'numbers: for node in nodes {
        let bytes = number_at(node, width)?.to_le_bytes();
        let (front, _) = bytes.split_at(usize::from(width.min(8)));
        item.extend_from_slice(front)?;
    }
    Ok(())
}

// Adds the list of a descriptor.
fn push_tail(tail: Braces, node: &Node<'_>, item: &mut Vec<u8>) -> Result<(), AslError> {
    let nodes = list_of(&node.body);
    match tail {
        Braces::Absent => {}
        Braces::Irqs => set_number(item, 1, 2, u64::from(mask(nodes, 16)?)),
        Braces::Channels => set_number(item, 1, 1, u64::from(mask(nodes, 8)?)),
        Braces::Dwords(..) => {
            let Ok(count) = u8::try_from(nodes.len()) else {
                return Err(fault(node.at, Why::TooLong));
            };
            put(item, 4, count);
            push_numbers(nodes, 4, item)?;
        }
        Braces::Pairs(_, to) => {
            push_numbers(nodes, 2, item)?;
            state(item, to);
        }
        Braces::Bytes(_) => push_numbers(nodes, 1, item)?,
    }
    Ok(())
}

// ---- arguments

// Adds the characters of a string and a zero.
fn push_text(alloc: Global, node: &Node<'_>, item: &mut Vec<u8>) -> Result<(), AslError> {
    let bytes = string_at(alloc, node)?;
    item.extend_from_slice(&bytes)?;
    item.push(0)?;
    Ok(())
}

// Adds bytes before those from an offset on.
fn insert(alloc: Global, at: usize, bytes: &[u8], item: &mut Vec<u8>) -> Result<(), AllocError> {
    let rest = Vec::from_slice(alloc, from_offset(at, item))?;
    item.truncate(at);
    item.extend_from_slice(bytes)?;
    item.extend_from_slice(&rest)
}

// Adds the index of a resource source, whose name may be there.
fn push_index(
    alloc: Global,
    at: Offset,
    node: &Node<'_>,
    item: &mut Vec<u8>,
) -> Result<(), AslError> {
    let index = byte_at(node)?;
    match at {
        Offset::At(at) => insert(alloc, usize::from(at), &[index], item)?,
        _ => item.push(index)?,
    }
    Ok(())
}

// Adds a vendor's data, and states how many bytes it has: at the end of a descriptor of pins, or after the own data of a bus.
fn push_vendor(
    alloc: Global,
    from: Offset,
    node: &Node<'_>,
    item: &mut Vec<u8>,
) -> Result<(), AslError> {
    if !node.is(b"RawDataBuffer") {
        return Err(fault(node.at, Why::VendorData));
    }
    let bytes = bytes_of(alloc, list_of(&node.body))?;
    match from {
        Offset::Stated(at) => {
            item.extend_from_slice(&bytes)?;
            set_word(item, usize::from(at) + 2, bytes.len());
        }
        _ => {
            let at = offset_size(from);
            insert(alloc, at, &bytes, item)?;
            set_word(item, 10, at.saturating_add(bytes.len()).saturating_sub(12));
        }
    }
    Ok(())
}

// Whether a word may be the name that the ASL of a block gives a descriptor whose numbers are all zero.
fn is_tag(node: &Node<'_>) -> bool {
    node.word.starts_with(b"Y") && node.is_alone()
}

// Adds an argument.
fn push_part(
    alloc: Global,
    part: Part,
    node: &Node<'_>,
    item: &mut Vec<u8>,
) -> Result<(), AslError> {
    match part {
        Part::Word(bits, kind) => match number_in(words(kind), node.word) {
            Some(value) if node.is_alone() => set_bits(item, bits, value),
            _ => return Err(fault(node.at, Why::Keyword)),
        },
        Part::WordOrNumber(bits, kind) => match number_in(words(kind), node.word) {
            Some(value) if node.is_alone() => set_bits(item, bits, value),
            _ => match byte_of(node) {
                Some(value) => set_bits(item, bits, value),
                None => return Err(fault(node.at, Why::Keyword)),
            },
        },
        Part::Bits(bits) => {
            let value = byte_at(node)?;
            set_bits(item, bits, value);
            if value_of(item, bits) != value {
                return Err(fault(node.at, Why::TooLong));
            }
        }
        Part::Number(at, width) => set_number(item, at, width, number_at(node, width)?),
        Part::Blank if node.is_absent() => {}
        Part::Tag(..) if node.is_absent() || is_tag(node) => {}
        Part::Blank | Part::Tag(..) => return Err(fault(node.at, Why::DescriptorName)),
        Part::Text(_, to) => {
            push_text(alloc, node, item)?;
            state(item, to);
        }
        Part::Vendor(..) | Part::Index(_) | Part::Source(_) if node.is_absent() => {}
        Part::Vendor(from, _) => push_vendor(alloc, from, node, item)?,
        Part::Index(at) => push_index(alloc, at, node, item)?,
        Part::Source(_) => push_text(alloc, node, item)?,
    }
    Ok(())
}

// Whether an argument may be left out with the comma before it, if no other follows it.
fn may_lack(part: Part) -> bool {
    matches!(
        part,
        Part::Blank | Part::Tag(..) | Part::Vendor(..) | Part::Index(_) | Part::Source(_)
    )
}

// Refuses more arguments than a macro has. One more comma may stand before the closing parenthesis.
fn check_count(count: usize, node: &Node<'_>) -> Result<(), AslError> {
    let arguments = list_of(&node.arguments);
    match arguments.get(count..) {
        None | Some([]) => Ok(()),
        Some([last]) if last.is_absent() => Ok(()),
        Some(_) => Err(fault(node.at, Why::Takes(count, arguments.len()))),
    }
}

// Refuses a macro without these arguments after its last one, unless they may be left out.
fn check_others(others: &[Part], has_source: bool, node: &Node<'_>) -> Result<(), AslError> {
    'others: for part in others {
        match *part {
            Part::Index(_) if has_source => return Err(fault(node.at, Why::Index)),
            part if may_lack(part) => {}
            _ => {
                let count = list_of(&node.arguments).len();
                return Err(fault(
                    node.at,
                    Why::Takes(count.saturating_add(others.len()), count),
                ));
            }
        }
    }
    Ok(())
}

// Adds the arguments of a macro.
fn push_parts(
    alloc: Global,
    parts: &[Part],
    node: &Node<'_>,
    item: &mut Vec<u8>,
) -> Result<(), AslError> {
    let arguments = list_of(&node.arguments);
    check_count(parts.len(), node)?;
    // The index stands before the source in all macros but ClockInput.
    let (mut has_index, mut has_source) = (true, false);
    'parts: for (part, argument) in parts.iter().zip(arguments) {
        match part {
            Part::Index(_) if has_source && argument.is_absent() => {
                return Err(fault(argument.at, Why::Index));
            }
            Part::Index(_) => has_index = !argument.is_absent(),
            Part::Source(_) if !has_index && !argument.is_absent() => {
                return Err(fault(argument.at, Why::Index));
            }
            Part::Source(_) => has_source = !argument.is_absent(),
            _ => {}
        }
        push_part(alloc, *part, argument, item)?;
    }
    check_others(from_offset(arguments.len(), parts), has_source, node)
}

// ---- descriptors

// A descriptor in which the bits and the numbers that its checks name are set.
fn fixed(alloc: Global, descriptor: Descriptor) -> Result<Vec<u8>, AllocError> {
    let mut item = Vec::new(alloc);
    item.resize(fixed_size(descriptor), 0)?;
    'checks: for check in checks(descriptor) {
        match check {
            Check::Is(bits, value) => set_bits(&mut item, *bits, *value),
            Check::AtLeast(at, n) => set_word(&mut item, usize::from(*at), usize::from(*n)),
            _ => {}
        }
    }
    Ok(item)
}

// States the number of bytes of a descriptor: in a small one the bits 0 to 2 of its tag are the number of those after the tag,
// and in a large one two bytes after the tag are the number of those after them.
fn set_size(item: &mut [u8]) {
    let size = item.len();
    match item.first() {
        Some(tag) if *tag >= 0x80 => set_word(item, 1, size.saturating_sub(3)),
        Some(_) => add_bits(item, 0, (size.saturating_sub(1) % 8) as u8),
        None => {}
    }
}

// The bytes that a macro makes of its arguments and its list.
fn made(alloc: Global, node: &Node<'_>) -> Result<Vec<u8>, AslError> {
    let Some(descriptor) = descriptor(node.word) else {
        return Err(fault(node.at, Why::Descriptor));
    };
    let mut item = fixed(alloc, descriptor)?;
    push_tail(tail(descriptor), node, &mut item)?;
    push_parts(alloc, parts(descriptor), node, &mut item)?;
    set_size(&mut item);
    Ok(item)
}

// Refuses bytes that would not be shown as a macro, since its list is too long or a number isn't one of its own. The bytes and an
// end tag are a resource template only if they are shown as one.
fn check_item(node: &Node<'_>, item: &mut Vec<u8>) -> Result<(), AslError> {
    let size = item.len();
    item.extend_from_slice(&[0x79, 0x00])?;
    let is_shown = is_template(item);
    item.truncate(size);
    if is_shown {
        Ok(())
    } else {
        Err(fault(node.at, Why::Values))
    }
}

/// Whether the descriptors after a macro are in its braces.
pub fn begins_group(word: &[u8]) -> bool {
    is_among(word, &[b"StartDependentFn", b"StartDependentFnNoPri"])
}

/// Whether a macro begins or ends a group of descriptors. It alone is no template.
pub fn is_of_group(word: &[u8]) -> bool {
    begins_group(word) || word == b"EndDependentFn".as_slice()
}

/// The bytes of the descriptor that a macro makes.
pub fn item(alloc: Global, node: &Node<'_>) -> Result<Vec<u8>, AslError> {
    let mut item = made(alloc, node)?;
    if !is_of_group(node.word) {
        check_item(node, &mut item)?;
    }
    Ok(item)
}
