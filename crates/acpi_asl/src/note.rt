//! Comments before a term for what ASL has no word for. A function whose name begins with `push` adds to a text.

ghost use Rattle.std.specs.Prelude.{◌≡◌, ℕ, ◌-◌, ◌++◌, length, OnOk, string_bytes};
ghost use Rattle.acpi_term.specs.Length.{limit};
ghost use Rattle.acpi_term.specs.Row.{layout};
ghost use Rattle.acpi_term.specs.Spelling.{spelling};
ghost use Rattle.acpi_term.specs.View.{entry_view, head_of, view, views};
ghost use Rattle.acpi_asl.specs.Note.{content, has_frame, is_long, length_text, length_note, is_number, is_number_first};
ghost use Rattle.acpi_asl.specs.Note.{head_note, note, width_note, entry_note};

use crate::number::push_decimal;
use crate::room::after_content;
use acpi_term::apart::{Kind, Parts, frame_code, parts_of};
use acpi_term::row::least_width;
use acpi_term::term::{Term, TermEntry};
use std::alloc::AllocError;

fn has_frame(kind: Kind<'_>) -> bool
    ensures { (w n : ℕ) → result ≡ has_frame (layout (head_of kind.entry) w n) }
{
    frame_code(kind).is_some()
}

// The least content for which a PkgLength of this width is the shortest.
fn least_content(width: u8) -> usize
    ensures { result ≡ limit (width - 1) - (width - 1) }
{
    match width {
        2 => 63,
        3 => 4094,
        4 => 1_048_573,
        5 => 268_435_452,
        _ => 0,
    }
}

fn is_long(parts: Parts<'_>) -> bool
    ensures { (n : ℕ) → result ≡ is_long parts.entry.width
        (length (content (layout (head_of parts.entry.kind) parts.entry.width n)
        (spelling (views (parts.entry.first.now ++ parts.entry.others.now))))) }
{
    let least = least_content(parts.width);
    least > 0 && after_content(least, parts) > 0
}

#[inline(never)]
fn push_length_text(width: u8, text: &mut String) -> Result<(), AllocError>
    ensures { OnOk result (string_bytes text.new ≡ string_bytes text.old ++ length_text width) }
{
    text.push_str("/*= PkgLength ")?;
    push_decimal(u64::from(width), text)?;
    text.push_str(" */ ")
}

fn push_length_note(parts: Parts<'_>, text: &mut String) -> Result<(), AllocError>
    ensures { OnOk result ((n : ℕ) → string_bytes text.new ≡ string_bytes text.old
        ++ length_note (layout (head_of parts.entry.kind) parts.entry.width n) parts.entry.width
        (spelling (views (parts.entry.first.now ++ parts.entry.others.now)))) }
{
    if !has_frame(parts.kind) || !is_long(parts) {
        return Ok(());
    }
    push_length_text(parts.width, text)
}

fn is_number(term: &Term) -> bool
    ensures { result ≡ is_number (view term.now).0 }
{
    match parts_of(term).kind {
        Kind::Number(_) => true,
        _ => false,
    }
}

// Whether the first of the terms in two lists is a number.
fn is_number_first(first: &[Term], others: &[Term]) -> bool
    ensures { result ≡ is_number_first (views (first.now ++ others.now)) }
{
    match (first, others) {
        ([count, ..], _) => is_number(count),
        ([], [count, ..]) => is_number(count),
        ([], []) => false,
    }
}

fn push_head_note(
    kind: Kind<'_>,
    first: &[Term],
    others: &[Term],
    text: &mut String,
) -> Result<(), AllocError>
    ensures { OnOk result (string_bytes text.new ≡ string_bytes text.old
        ++ head_note (head_of kind.entry) (views (first.now ++ others.now))) }
{
    match kind {
        Kind::VarPackage if is_number_first(first, others) => text.push_str("/*= VarPackage */ "),
        Kind::External(..) => text.push_str("/*= Alone */ "),
        _ => Ok(()),
    }
}

fn push_width_note(width: u8, n: usize, text: &mut String) -> Result<(), AllocError>
    ensures { OnOk result (string_bytes text.new ≡ string_bytes text.old ++ width_note width n) }
{
    if width == least_width(n) {
        return Ok(());
    }
    push_length_text(width, text)
}

/// Adds the comment before an entry of a field.
pub fn push_entry_note(entry: &TermEntry, text: &mut String) -> Result<(), AllocError>
    ensures { OnOk result (string_bytes text.new ≡ string_bytes text.old ++ entry_note (entry_view entry.now)) }
{
    match entry {
        TermEntry::Named(_, bits, width) | TermEntry::Reserved(bits, width) => {
            push_width_note(*width, *bits as usize, text)
        }
        TermEntry::ConnectionBuffer {
            width,
            size_width,
            bytes,
            ..
        } => push_width_note(*width, 1 + usize::from(*size_width) + bytes.len(), text),
        TermEntry::AccessAs(..) | TermEntry::ExtendedAccessAs(..) | TermEntry::Connection(_) => Ok(
            (),
        ),
    }
}

/// Adds the comments before a term.
pub fn push_note(parts: Parts<'_>, text: &mut String) -> Result<(), AllocError>
    ensures { OnOk result (string_bytes text.new ≡ string_bytes text.old ++ note (head_of parts.entry.kind) parts.entry.width
        (views (parts.entry.first.now ++ parts.entry.others.now))) }
{
    push_length_note(parts, text)?;
    push_head_note(parts.kind, parts.first, parts.others, text)
}
