//! Why no constructor writes a term.

use crate::names::text_of;
use crate::numbers::{access_type, comparison, lock_rule, region_space, update_rule};
use acpi_base::error::R;
use acpi_term::apart::{Kind, Parts, frame_code};
use acpi_term::name_string::NameString;
use acpi_term::row::least_width;
use acpi_term::spell::spell;
use acpi_term::term::{Term, TermEntry};
use std::alloc::{AllocError, Global};
use std::slice::from_ref;

// Why a name has no path.
fn name_cause(alloc: Global, name: &NameString) -> Result<Option<&'static str>, AllocError> {
    if text_of(alloc, name)?.is_some() {
        Ok(None)
    } else {
        Ok(Some("a null name"))
    }
}

// Why one of two names has no path.
fn names_cause(
    alloc: Global,
    first: &NameString,
    second: &NameString,
) -> Result<Option<&'static str>, AllocError> {
    match name_cause(alloc, first)? {
        Some(cause) => Ok(Some(cause)),
        None => name_cause(alloc, second),
    }
}

// Why a head's names have no path.
fn path_cause(alloc: Global, kind: Kind<'_>) -> Result<Option<&'static str>, AllocError> {
    match kind {
        Kind::Call(name) | Kind::Scope(name) | Kind::Device(name) => name_cause(alloc, name),
        Kind::Method(name, ..) | Kind::PowerResource(name, ..) => name_cause(alloc, name),
        Kind::LeveledMethod(name, ..) => name_cause(alloc, name),
        Kind::Field(name, ..) | Kind::OpRegion(name, _) => name_cause(alloc, name),
        Kind::Name(name) | Kind::Mutex(name, _) => name_cause(alloc, name),
        Kind::Acquire(name, _) | Kind::Release(name) => name_cause(alloc, name),
        Kind::External(name, ..) | Kind::Processor(name, ..) => name_cause(alloc, name),
        Kind::ThermalZone(name) => name_cause(alloc, name),
        Kind::IndexField(index, name, ..) => names_cause(alloc, index, name),
        Kind::BankField(name, bank, ..) => names_cause(alloc, name, bank),
        _ => Ok(None),
    }
}

// Whether a connection's buffer has the widths that are written, and the number of its bytes as its size.
fn is_least_buffer(width: u8, size: u64, size_width: u8, bytes: &[u8]) -> bool {
    let content = usize::from(size_width)
        .saturating_add(1)
        .saturating_add(bytes.len());
    size == bytes.len() as u64 && size_width == least_number(size) && width == least_width(content)
}

// Why no constructor writes an entry of a field.
fn entry_cause(entry: &TermEntry) -> Option<&'static str> {
    match entry {
        TermEntry::Named(_, bits, width) | TermEntry::Reserved(bits, width) => {
            if *width == least_width(*bits as usize) {
                None
            } else {
                Some("a field whose number of bits has another width")
            }
        }
        TermEntry::ConnectionBuffer {
            width,
            size,
            size_width,
            bytes,
        } => {
            if is_least_buffer(*width, *size, *size_width, bytes) {
                None
            } else {
                Some("a connection whose buffer has another size or width")
            }
        }
        _ => None,
    }
}

// Why no constructor writes the flags and the entries of a field.
fn field_cause(access: u8, lock: u8, update: u8, entries: &[TermEntry]) -> Option<&'static str> {
    if access_type(access).is_none() || lock_rule(lock).is_none() || update_rule(update).is_none() {
        return Some("a field with a reserved access type or rule");
    }
    for entry in entries {
        if let Some(cause) = entry_cause(entry) {
            return Some(cause);
        }
    }
    None
}

// Returns in how many bytes a number is written.
fn least_number(value: u64) -> u8 {
    match value {
        0..=1 => 0,
        2..=0xff => 1,
        0x100..=0xffff => 2,
        0x1_0000..=0xffff_ffff => 4,
        _ => 8,
    }
}

// Why no constructor writes a head's own numbers.
fn value_cause(kind: Kind<'_>, width: u8) -> Option<&'static str> {
    match kind {
        Kind::Number(value) if width != least_number(value) => {
            Some("a number of more bytes than it needs")
        }
        Kind::OpRegion(_, space) if region_space(space).is_none() => {
            Some("a region of an address space past 9")
        }
        Kind::MatchTest(code) if comparison(code).is_none() => {
            Some("a test of a match with a reserved comparison")
        }
        Kind::Field(_, access, lock, update, entries) => field_cause(access, lock, update, entries),
        Kind::IndexField(_, _, access, lock, update, entries) => {
            field_cause(access, lock, update, entries)
        }
        Kind::BankField(_, _, access, lock, update, entries) => {
            field_cause(access, lock, update, entries)
        }
        _ => None,
    }
}

// Whether the length of a term's frame has more bytes than it needs.
fn is_long(alloc: Global, term: &Term, kind: Kind<'_>, width: u8) -> R<bool> {
    let Some(code) = frame_code(kind) else {
        return Ok(false);
    };
    let bytes = spell(alloc, from_ref(term))?;
    let content = bytes
        .len()
        .saturating_sub(code.len())
        .saturating_sub(usize::from(width));
    Ok(width != least_width(content))
}

/// Returns why no constructor writes a term, around the children that it has.
pub fn cause_of(alloc: Global, term: &Term, parts: Parts<'_>) -> R<Option<&'static str>> {
    if let Some(cause) = value_cause(parts.kind, parts.width) {
        return Ok(Some(cause));
    }
    if let Some(cause) = path_cause(alloc, parts.kind)? {
        return Ok(Some(cause));
    }
    if is_long(alloc, term, parts.kind, parts.width)? {
        return Ok(Some("a PkgLength of more bytes than it needs"));
    }
    Ok(None)
}
