//! The number of bytes that spell terms, up to the greatest length.

ghost use Rattle.std.specs.Prelude.{◌≡◌, ℕ, ◌+◌, length, map, max, IfOk};
ghost use Rattle.acpi_base.specs.Number.{number_bytes};
ghost use Rattle.acpi_term.specs.Row.{connected, entry_bytes, entries_bytes, layout};
ghost use Rattle.acpi_term.specs.Tree.{connection_buffer};
ghost use Rattle.acpi_term.specs.View.{view, views, single, entry_view, head_of};
ghost use Rattle.acpi_read.specs.Size.{capped, own_size, frame_size, content_sizes, AreSized};

use acpi_term::apart::{Kind, frame_code, parts_of};
use acpi_term::name_string::NameString;
use acpi_term::term::{Term, TermEntry};
use std::alloc::{AllocError, Global};

/// No length can count this many bytes or more.
pub const LIMIT: u32 = 0x1000_0000;

fn capped(n: usize) -> u32
    ensures { result ≡ capped n }
{
    if n < LIMIT as usize { n as u32 } else { LIMIT }
}

fn sum(a: u32, b: u32) -> u32
    ensures { result ≡ capped (a + b) }
{
    a.saturating_add(b).min(LIMIT)
}

#[tactic(auto, using(crate::proofs::Sizes::length_number))]
fn number_size(value: u64, width: u8) -> u32
    ensures { result ≡ capped (length (number_bytes value width)) }
{
    1 + u32::from(width)
}

// The number of bytes of a name, plus `more`.
fn name_size(name: &NameString, more: u32) -> u32
    ensures { result ≡ capped (length name.now + more) }
{
    sum(capped(name.as_bytes().len()), more)
}

fn named_size(name: &[u8], width: u8) -> u32
    ensures { result ≡ capped (length name.now + max width 1) }
{
    sum(capped(name.len()), u32::from(width.max(1)))
}

/// The number of bytes of a connection's buffer after its length.
#[tactic(auto, using(crate::proofs::Sizes::length_number, crate::proofs::Sizes::size_after))]
pub fn buffer_size(size: u64, size_width: u8, bytes: &[u8]) -> u32
    ensures { result ≡ capped (length (connected size size_width bytes.now)) }
{
    sum(number_size(size, size_width), capped(bytes.len()))
}

// The number of bytes of an entry with a connection's buffer, whose length has this width.
#[tactic(auto, using(crate::proofs::Sizes::connection_size))]
fn connection_size(width: u8, size: u64, size_width: u8, bytes: &[u8]) -> u32
    ensures { result ≡ capped (length (entry_bytes (connection_buffer width size size_width bytes.now))) }
{
    sum(
        2 + u32::from(width.max(1)),
        buffer_size(size, size_width, bytes),
    )
}

#[tactic(auto, using(crate::proofs::Sizes::length_length, crate::proofs::Sizes::named_size))]
fn entry_size(entry: &TermEntry) -> u32
    ensures { result ≡ capped (length (entry_bytes (entry_view entry.now))) }
{
    match entry {
        TermEntry::Named(name, _, width) => named_size(name, *width),
        TermEntry::Reserved(_, width) => 1 + u32::from((*width).max(1)),
        TermEntry::AccessAs(..) => 3,
        TermEntry::ExtendedAccessAs(..) => 4,
        TermEntry::Connection(name) => name_size(name, 1),
        TermEntry::ConnectionBuffer {
            width,
            size,
            size_width,
            bytes,
        } => connection_size(*width, *size, *size_width, bytes),
    }
}

fn entries_size(entries: &[TermEntry]) -> u32
    ensures { result ≡ capped (length (entries_bytes (map entry_view entries.now))) }
{
    let mut size = 0;
    for entry in entries {
        size = sum(size, entry_size(entry));
    }
    size
}

// The number of a term's own bytes: all but those of its children and, of a frame, its opcode and length.
fn own_size(kind: Kind<'_>, width: u8) -> u32
    ensures { (n : ℕ) → result ≡ capped (own_size (layout (head_of kind.entry) width n)) }
{
    match kind {
        Kind::Number(value) => number_size(value, width),
        Kind::Ones | Kind::Local(_) | Kind::Arg(_) | Kind::Package | Kind::RoomyPackage(_) => 1,
        Kind::MatchTest(_) => 1,
        Kind::Timeout(_) => 2,
        Kind::Unread(_, bytes) => capped(bytes.len()),
        Kind::Fatal(..) => 7,
        Kind::Text(text) => sum(capped(text.len()), 2),
        Kind::Call(name) | Kind::Scope(name) | Kind::Device(name) | Kind::ThermalZone(name) =>
            name_size(name, 0),
        Kind::Method(name, ..) | Kind::LeveledMethod(name, ..) | Kind::Name(name) => {
            name_size(name, 1)
        }
        Kind::External(name, ..) => name_size(name, 3),
        Kind::Processor(name, ..) => name_size(name, 6),
        Kind::BankField(index, name, _, _, _, entries)
        | Kind::IndexField(index, name, _, _, _, entries) => sum(
            name_size(index, 0),
            sum(name_size(name, 1), entries_size(entries)),
        ),
        Kind::PowerResource(name, ..) | Kind::OpRegion(name, _) | Kind::Mutex(name, _) => {
            name_size(name, 3)
        }
        Kind::Field(name, _, _, _, entries) => sum(name_size(name, 1), entries_size(entries)),
        Kind::Acquire(name, _) => name_size(name, 4),
        Kind::Release(name) => name_size(name, 2),
        Kind::Buffer(bytes) => capped(bytes.len()),
        Kind::VarPackage | Kind::If | Kind::While | Kind::Else => 0,
        Kind::Op(op) => capped(op.code().len()),
    }
}

/// The sizes of the contents of terms. A term's size comes before those of its children.
pub fn content_sizes(alloc: Global, terms: &[Term]) -> Result<Vec<u32>, AllocError>
    ensures { IfOk result (λ sizes. sizes.items ≡ content_sizes (views terms.now)) }
{
    let mut sizes = Vec::new(alloc);
    add_all(terms, &mut sizes)?;
    Ok(sizes)
}

// Adds the sizes of the contents of terms, and returns how many bytes spell the terms.
#[cycle(size)]
fn add_all(terms: &[Term], sizes: &mut Vec<u32>) -> Result<u32, AllocError>
    ensures { IfOk result (λ bytes. AreSized (views terms.now) sizes.old.items sizes.new.items bytes) }
{
    let mut all = 0;
    for term in terms {
        all = sum(all, add_one(term, sizes)?);
    }
    Ok(all)
}

// A term's size is known only after those of its children, but is placed before them.
#[cycle(size)]
fn add_one(term: &Term, sizes: &mut Vec<u32>) -> Result<u32, AllocError>
    ensures { IfOk result (λ bytes. AreSized (single (view term.now)) sizes.old.items sizes.new.items bytes) }
{
    let parts = parts_of(term);
    let place = sizes.len();
    sizes.push(0)?;
    let first = add_any(parts.first, sizes)?;
    let others = add_any(parts.others, sizes)?;
    let content = sum(own_size(parts.kind, parts.width), sum(first, others));
    sizes[place] = content;
    Ok(with_frame(parts.kind, parts.width, content))
}

// Does what `add_all` does. Most terms have no children in one of their lists or in both, and an empty list takes no call.
#[cycle(size)]
#[inline(always)]
fn add_any(terms: &[Term], sizes: &mut Vec<u32>) -> Result<u32, AllocError>
    ensures { IfOk result (λ bytes. AreSized (views terms.now) sizes.old.items sizes.new.items bytes) }
{
    if terms.is_empty() {
        return Ok(0);
    }
    add_all(terms, sizes)
}

// The number of bytes of a term whose content has this size.
fn with_frame(kind: Kind<'_>, width: u8, content: u32) -> u32
    ensures { (n : ℕ) → result ≡ capped (content + frame_size (layout (head_of kind.entry) width n) width) }
{
    match frame_code(kind) {
        Some(code) => sum(content, sum(capped(code.len()), u32::from(width.max(1)))),
        None => sum(content, 0),
    }
}
