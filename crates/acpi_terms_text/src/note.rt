//! The comments of terms: what ids and buffers say. A function whose name begins with `push` adds to a text.

ghost use Rattle.std.specs.Prelude.{◌≡◌, ◌++◌, [], length, replicate, map, OnOk, string_bytes};
ghost use Rattle.acpi_term.specs.View.{head_of, view, views, single};
ghost use Rattle.acpi_terms_text.specs.Comment.{has_ids, buffer_text, is_number, has_size};
ghost use Rattle.acpi_terms_text.specs.Comment.{number_note, note};
ghost use Rattle.acpi_terms_text.specs.Woven.{entry_notes, notes};

use crate::descriptor::{is_template, push_template};
use crate::eisa::push_eisa;
use crate::id::has_ids;
use crate::uuid::push_uuid;
use acpi_term::apart::{Kind, parts_of};
use acpi_term::term::{Term, TermEntry};
use std::alloc::{AllocError, Global};

// Adds the names of a template's descriptors, or a UUID.
fn push_buffer(bytes: &[u8], text: &mut String) -> Result<(), AllocError>
    ensures { OnOk result (string_bytes text.new ≡ string_bytes text.old ++ buffer_text bytes.now) }
{
    if is_template(bytes) {
        return push_template(bytes, text);
    }
    if bytes.len() == 16 {
        return push_uuid(bytes, text);
    }
    Ok(())
}

fn is_number(n: usize, kind: Kind<'_>) -> bool
    ensures { result ≡ is_number n (head_of kind.entry) }
{
    match kind {
        Kind::Number(value) => value == n as u64,
        _ => false,
    }
}

fn starts_with_number(n: usize, terms: &[Term]) -> bool
    ensures { result ≡ has_size n (views terms.now) }
{
    match terms {
        [size, ..] => is_number(n, parts_of(size).kind),
        [] => false,
    }
}

// Returns whether the first of a buffer's children, which are in two lists, is this number.
fn has_size(n: usize, first: &[Term], others: &[Term]) -> bool
    ensures { result ≡ has_size n (views (first.now ++ others.now)) }
{
    if first.is_empty() {
        return starts_with_number(n, others);
    }
    starts_with_number(n, first)
}

// Adds the text of a number that is an id in four bytes.
fn push_number(ids: bool, width: u8, value: u64, text: &mut String) -> Result<(), AllocError>
    ensures { OnOk result (string_bytes text.new ≡ string_bytes text.old ++ number_note ids width value) }
{
    if ids && width == 4 && value < 0x1_0000_0000 {
        return push_eisa(value as u32, text);
    }
    Ok(())
}

// Adds the comment of a term with these children, which are in two lists.
fn push_note(
    ids: bool,
    kind: Kind<'_>,
    width: u8,
    first: &[Term],
    others: &[Term],
    text: &mut String,
) -> Result<(), AllocError>
    ensures { OnOk result (string_bytes text.new ≡ string_bytes text.old
        ++ note ids (head_of kind.entry) width (views (first.now ++ others.now))) }
{
    match kind {
        Kind::Number(value) => push_number(ids, width, value, text),
        Kind::Buffer(bytes) if has_size(bytes.len(), first, others) => push_buffer(bytes, text),
        _ => Ok(()),
    }
}

// Adds an empty comment for each entry of a field.
fn add_entries(
    alloc: Global,
    entries: &[TermEntry],
    texts: &mut Vec<String>,
) -> Result<(), AllocError>
    ensures { OnOk result (map string_bytes texts.new.items ≡ map string_bytes texts.old.items
        ++ replicate (length entries.now) []) }
{
    'entries: for _entry in entries {
        texts.push(String::new(alloc))?;
    }
    Ok(())
}

fn add_own(alloc: Global, kind: Kind<'_>, texts: &mut Vec<String>) -> Result<(), AllocError>
    ensures { OnOk result (map string_bytes texts.new.items ≡ map string_bytes texts.old.items
        ++ entry_notes (head_of kind.entry)) }
{
    match kind {
        Kind::Field(_, _, _, _, entries)
        | Kind::IndexField(_, _, _, _, _, entries)
        | Kind::BankField(_, _, _, _, _, entries) => add_entries(alloc, entries, texts),
        _ => Ok(()),
    }
}

/// Adds the comments of the lines of terms, one for each line.
#[cycle(notes)]
pub fn add_notes(
    alloc: Global,
    ids: bool,
    terms: &[Term],
    texts: &mut Vec<String>,
) -> Result<(), AllocError>
    ensures { OnOk result (map string_bytes texts.new.items ≡ map string_bytes texts.old.items
        ++ notes ids (views terms.now)) }
{
    for term in terms {
        add_note(alloc, ids, term, texts)?;
    }
    Ok(())
}

#[cycle(notes)]
fn add_note(
    alloc: Global,
    ids: bool,
    term: &Term,
    texts: &mut Vec<String>,
) -> Result<(), AllocError>
    ensures { OnOk result (map string_bytes texts.new.items ≡ map string_bytes texts.old.items
        ++ notes ids (single (view term.now))) }
{
    let parts = parts_of(term);
    let mut text = String::new(alloc);
    push_note(
        ids,
        parts.kind,
        parts.width,
        parts.first,
        parts.others,
        &mut text,
    )?;
    texts.push(text)?;
    add_own(alloc, parts.kind, texts)?;
    let inner = has_ids(ids, parts.kind);
    add_notes(alloc, inner, parts.first, texts)?;
    add_notes(alloc, inner, parts.others, texts)?;
    Ok(())
}
