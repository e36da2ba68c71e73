//! The rows in braces: the entries of a field, and the bytes of a buffer. A function whose name begins with `push` adds to a
//! text.

ghost use Rattle.std.specs.Prelude.{◌≡◌, ◌++◌, ◌==◌, ◌&&◌, ◌%◌, ◌/◌, not, true, false, codes, if◌then◌else◌, map, OnOk};
ghost use Rattle.std.specs.Prelude.{IfOk, suc, string_bytes};
ghost use Rattle.acpi_term.specs.View.{entry_view, head_of};
ghost use Rattle.std.specs.Fmt.{decimal};
ghost use Rattle.acpi_asl.specs.Name.{segments_text};
ghost use Rattle.acpi_asl.specs.Note.{entry_note};
ghost use Rattle.acpi_asl.specs.Number.{hex, short_hex};
ghost use Rattle.acpi_asl.specs.Place.{new_line};
ghost use Rattle.acpi_asl.specs.Row.{bit_after, entry_text, row_comma, entries_text, byte_lead, bytes_text, bank_rows, rows};

use crate::connection::{
    push_access, push_connection, push_connection_buffer, push_extended_access,
};
use crate::name::push_segments;
use crate::note::push_entry_note;
use crate::number::{push_decimal, push_hex, push_short_hex};
use crate::opening::push_rules;
use crate::place::{Body, push_closed, push_line, push_opened};
use acpi_term::apart::Kind;
use acpi_term::term::TermEntry;
use std::alloc::AllocError;

// The bit after an entry.
fn bit_after(at: u64, entry: &TermEntry) -> Result<u64, AllocError>
    ensures { IfOk result (λ after. after ≡ bit_after at (entry_view entry.now)) }
{
    match entry {
        // No memory has room for this many entries.
        TermEntry::Named(_, bits, _) | TermEntry::Reserved(bits, _) => {
            at.checked_add(u64::from(*bits)).ok_or(AllocError)
        }
        _ => Ok(at),
    }
}

fn push_named(name: &[u8], bits: u32, text: &mut String) -> Result<(), AllocError>
    ensures { OnOk result (string_bytes text.new ≡ string_bytes text.old
        ++ (segments_text false name.now ++ (codes ", " ++ decimal bits))) }
{
    push_segments(false, name, text)?;
    text.push_str(", ")?;
    push_decimal(u64::from(bits), text)
}

fn push_offset(byte: u64, text: &mut String) -> Result<(), AllocError>
    ensures { OnOk result (string_bytes text.new ≡ string_bytes text.old ++ (codes "Offset (" ++ short_hex byte ++ codes ")")) }
{
    text.push_str("Offset (")?;
    push_short_hex(byte, text)?;
    text.push_str(")")
}

// Adds bits without a name, up to the bit `after`.
fn push_reserved(bits: u32, after: u64, text: &mut String) -> Result<(), AllocError>
    ensures { OnOk result (string_bytes text.new ≡ string_bytes text.old
        ++ (if after % 8 == 0 && not (bits == 0) then codes "Offset (" ++ short_hex (after / 8) ++ codes ")"
        else codes ", " ++ decimal bits)) }
{
    if after % 8 == 0 && bits != 0 {
        return push_offset(after / 8, text);
    }
    text.push_str(", ")?;
    push_decimal(u64::from(bits), text)
}

// Adds an entry that ends before the bit `after`.
fn push_entry(at: u64, after: u64, entry: &TermEntry, text: &mut String) -> Result<(), AllocError>
    requires { after ≡ bit_after at (entry_view entry.now) }
    ensures { OnOk result (string_bytes text.new ≡ string_bytes text.old ++ entry_text at (entry_view entry.now)) }
{
    match entry {
        TermEntry::Named(name, bits, _) => push_named(name, *bits, text),
        TermEntry::Reserved(bits, _) => push_reserved(*bits, after, text),
        TermEntry::AccessAs(access, attribute) => push_access(*access, *attribute, text),
        TermEntry::ExtendedAccessAs(access, attribute, size) => {
            push_extended_access(*access, *attribute, *size, text)
        }
        TermEntry::Connection(name) => push_connection(name, text),
        TermEntry::ConnectionBuffer {
            size,
            size_width,
            bytes,
            ..
        } => push_connection_buffer(*size, *size_width, bytes, text),
    }
}

fn push_comma(first: bool, text: &mut String) -> Result<(), AllocError>
    ensures { OnOk result (string_bytes text.new ≡ string_bytes text.old ++ row_comma first) }
{
    if first {
        return Ok(());
    }
    text.push(',')
}

#[tactic(auto, using(acpi_read::proofs::Texts::after_four))]
fn push_row(
    depth: usize,
    first: bool,
    at: u64,
    after: u64,
    entry: &TermEntry,
    text: &mut String,
) -> Result<(), AllocError>
    requires { after ≡ bit_after at (entry_view entry.now) }
    ensures { OnOk result (string_bytes text.new ≡ string_bytes text.old
        ++ (row_comma first ++ new_line depth ++ entry_note (entry_view entry.now) ++ entry_text at (entry_view entry.now))) }
{
    push_comma(first, text)?;
    push_line(depth, text)?;
    push_entry_note(entry, text)?;
    push_entry(at, after, entry, text)
}

#[inline(never)]
fn push_entries(depth: usize, entries: &[TermEntry], text: &mut String) -> Result<(), AllocError>
    ensures { OnOk result (string_bytes text.new ≡ string_bytes text.old
        ++ entries_text depth true 0 (map entry_view entries.now)) }
{
    let mut first = true;
    let mut at = 0;
    'rows: for entry in entries {
        let after = bit_after(at, entry)?;
        push_row(depth, first, at, after, entry, text)?;
        first = false;
        at = after;
    }
    Ok(())
}

#[tactic(auto, using(acpi_read::proofs::Texts::after_two))]
fn push_byte_lead(depth: usize, index: usize, text: &mut String) -> Result<(), AllocError>
    ensures { OnOk result (string_bytes text.new ≡ string_bytes text.old ++ byte_lead depth index) }
{
    push_comma(index == 0, text)?;
    if index % 8 != 0 {
        return text.push(' ');
    }
    push_line(depth, text)
}

#[tactic(auto, using(acpi_read::proofs::Texts::after_two))]
fn push_byte(depth: usize, index: usize, byte: u8, text: &mut String) -> Result<(), AllocError>
    ensures { OnOk result (string_bytes text.new ≡ string_bytes text.old ++ (byte_lead depth index ++ hex 1 byte)) }
{
    push_byte_lead(depth, index, text)?;
    push_hex(1, u64::from(byte), text)
}

/// Adds bytes in rows of eight, each row on a line of this depth.
#[inline(never)]
pub fn push_bytes(depth: usize, bytes: &[u8], text: &mut String) -> Result<(), AllocError>
    ensures { OnOk result (string_bytes text.new ≡ string_bytes text.old ++ bytes_text depth 0 bytes.now) }
{
    for i in 0..bytes.len() {
        push_byte(depth, i, bytes[i], text)?;
    }
    Ok(())
}

// Adds the arguments of a BankField after its value, and its rows.
#[tactic(auto, using(acpi_read::proofs::Texts::after_four))]
#[inline(never)]
fn push_bank_rows(
    access: u8,
    lock: u8,
    update: u8,
    entries: &[TermEntry],
    depth: usize,
    inner: usize,
    text: &mut String,
) -> Result<(), AllocError>
    requires { inner ≡ suc depth }
    ensures { OnOk result (string_bytes text.new ≡ string_bytes text.old
        ++ bank_rows access lock update (map entry_view entries.now) depth) }
{
    push_rules(access, lock, update, text)?;
    push_opened(Body::Rows, depth, text)?;
    push_entries(inner, entries, text)?;
    push_closed(Body::Rows, depth, text)
}

/// Adds the rows of a term at this depth.
pub fn push_rows(kind: Kind<'_>, depth: usize, text: &mut String) -> Result<(), AllocError>
    ensures { OnOk result (string_bytes text.new ≡ string_bytes text.old ++ rows (head_of kind.entry) depth) }
{
    // No memory has room for an indentation of this depth.
    let Some(inner) = depth.checked_add(1) else {
        return Err(AllocError);
    };
    match kind {
        Kind::Field(_, _, _, _, entries) | Kind::IndexField(_, _, _, _, _, entries) => {
            push_entries(inner, entries, text)
        }
        Kind::BankField(_, _, access, lock, update, entries) => push_bank_rows(
            access, lock, update, entries, depth, inner, text,
        ),
        Kind::Buffer(bytes) => push_bytes(inner, bytes, text),
        _ => Ok(()),
    }
}
