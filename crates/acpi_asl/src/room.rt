//! How many bytes spell terms (ACPI 6.5, 20.2), as far as there is room for them.

ghost use Rattle.std.specs.Prelude.{◌≡◌, ℕ, ◌+◌, ◌-◌, ◌≤◌, List, ◌++◌, length, map};
ghost use Rattle.acpi_term.specs.Length.{length_bytes};
ghost use Rattle.acpi_term.specs.Row.{entry_bytes, entries_bytes, layout};
ghost use Rattle.acpi_term.specs.Spelling.{spelled, spelling};
ghost use Rattle.acpi_term.specs.View.{entry_view, head_of, single, view, views};
ghost use Rattle.acpi_asl.specs.Note.{content};

use acpi_term::apart::{Kind, Parts, frame_code, parts_of};
use acpi_term::term::{Term, TermEntry};

// The number of bytes of a length of this width.
#[tactic(auto, using(crate::proofs::Rooms::length_shortest, crate::proofs::Rooms::length_wide))]
fn length_size(width: u8) -> usize
    ensures is { (v : ℕ) → length (length_bytes width v) ≡ result }
    ensures small { result ≤ 255 }
{
    if width == 0 { 1 } else { usize::from(width) }
}

// ---- entries of a field

// What is left of a room after a list of bytes and this many others.
fn after_both(room: usize, bytes: &[u8], more: usize) -> usize
    ensures { result ≡ room - (length bytes.now + more) }
{
    room.saturating_sub(bytes.len()).saturating_sub(more)
}

fn after_entry(room: usize, entry: &TermEntry) -> usize
    ensures { result ≡ room - length (entry_bytes (entry_view entry.now)) }
{
    match entry {
        TermEntry::Named(name, _, width) => after_both(room, name, length_size(*width)),
        TermEntry::Reserved(_, width) => after_both(room, &[], 1 + length_size(*width)),
        TermEntry::AccessAs(..) => after_both(room, &[], 3),
        TermEntry::ExtendedAccessAs(..) => after_both(room, &[], 4),
        TermEntry::Connection(name) => after_both(room, name.as_bytes(), 1),
        TermEntry::ConnectionBuffer {
            width,
            size_width,
            bytes,
            ..
        } => {
            let size = 1 + usize::from(*size_width);
            after_both(room, bytes, 2 + length_size(*width) + size)
        }
    }
}

fn after_entries(room: usize, entries: &[TermEntry]) -> usize
    ensures { result ≡ room - length (entries_bytes (map entry_view entries.now)) }
{
    let mut left = room;
    'entries: for entry in entries {
        left = after_entry(left, entry);
    }
    left
}

// ---- terms

// What is left of a room after two lists of bytes and this many others.
fn after_names(room: usize, first: &[u8], second: &[u8], more: usize) -> usize
    ensures { result ≡ room - (length first.now + length second.now + more) }
{
    after_both(after_both(room, first, 0), second, more)
}

// What is left of a room after a term's own bytes, without its frame.
fn after_own(room: usize, kind: Kind<'_>, width: u8) -> usize
    ensures { (n : ℕ) (inside : List ℕ) → room - length (content (layout (head_of kind.entry) width n) inside)
        ≡ result - length inside }
{
    match kind {
        Kind::Number(_) => after_both(room, &[], 1 + usize::from(width)),
        Kind::Text(text) => after_both(room, text.as_bytes(), 2),
        Kind::Call(name) | Kind::Scope(name) | Kind::Device(name) | Kind::ThermalZone(name) => {
            after_both(room, name.as_bytes(), 0)
        }
        Kind::Name(name) | Kind::Method(name, ..) | Kind::LeveledMethod(name, ..) => {
            after_both(room, name.as_bytes(), 1)
        }
        Kind::Release(name) => after_both(room, name.as_bytes(), 2),
        Kind::PowerResource(name, ..) | Kind::OpRegion(name, _) => {
            after_both(room, name.as_bytes(), 3)
        }
        Kind::Mutex(name, _) | Kind::External(name, ..) => after_both(room, name.as_bytes(), 3),
        Kind::Acquire(name, _) => after_both(room, name.as_bytes(), 4),
        Kind::Processor(name, ..) => after_both(room, name.as_bytes(), 6),
        Kind::Field(name, _, _, _, entries) => {
            after_entries(after_both(room, name.as_bytes(), 1), entries)
        }
        Kind::IndexField(index, name, _, _, _, entries) => {
            after_entries(
                after_names(room, index.as_bytes(), name.as_bytes(), 1),
                entries,
            )
        }
        Kind::BankField(name, bank, _, _, _, entries) => {
            after_entries(
                after_names(room, name.as_bytes(), bank.as_bytes(), 1),
                entries,
            )
        }
        Kind::Op(op) => after_both(room, op.code(), 0),
        Kind::Buffer(bytes) | Kind::Unread(_, bytes) => after_both(room, bytes, 0),
        Kind::Fatal(..) => after_both(room, &[], 7),
        Kind::Timeout(_) => after_both(room, &[], 2),
        Kind::Ones | Kind::Local(_) | Kind::Arg(_) | Kind::MatchTest(_) => after_both(room, &[], 1),
        Kind::Package | Kind::RoomyPackage(_) => after_both(room, &[], 1),
        Kind::VarPackage | Kind::If | Kind::While | Kind::Else => room,
    }
}

// The number of bytes of an opcode and the length of a frame, if the term has one.
fn frame_size(kind: Kind<'_>, width: u8) -> usize
    ensures { (n : ℕ) (inside : List ℕ) → length (spelled (head_of kind.entry) width n inside)
        ≡ result + length (content (layout (head_of kind.entry) width n) inside) }
{
    match frame_code(kind) {
        Some(code) => code.len() + length_size(width),
        None => 0,
    }
}

/// What is left of a room after the content that the length of a term's frame counts, or after the bytes of a term without one.
#[cycle(room)]
pub fn after_content(room: usize, parts: Parts<'_>) -> usize
    ensures { (n : ℕ) → result ≡ room - length (content (layout (head_of parts.entry.kind) parts.entry.width n)
        (spelling (views (parts.entry.first.now ++ parts.entry.others.now)))) }
{
    let left = after_own(room, parts.kind, parts.width);
    let left = after_terms(left, parts.first);
    after_terms(left, parts.others)
}

#[cycle(room)]
fn after_term(room: usize, term: &Term) -> usize
    ensures { result ≡ room - length (spelling (single (view term.now))) }
{
    let parts = parts_of(term);
    let frame = frame_size(parts.kind, parts.width);
    after_content(room.saturating_sub(frame), parts)
}

// Ends once there is no room.
#[cycle(room)]
fn after_terms(room: usize, terms: &[Term]) -> usize
    ensures { result ≡ room - length (spelling (views terms.now)) }
{
    let mut left = room;
    'terms: for term in terms {
        if left == 0 {
            return 0;
        }
        left = after_term(left, term);
    }
    left
}
