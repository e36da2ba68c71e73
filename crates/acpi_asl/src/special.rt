//! Terms whose text isn't made of their children's. A function whose name begins with `push` adds to a text.

ghost use Rattle.std.specs.Prelude.{◌≡◌, ◌++◌, ◌&&◌, [], not, true, false, if◌then◌else◌, OnOk, string_bytes};
ghost use Rattle.acpi_term.specs.Tree.{def_buffer};
ghost use Rattle.acpi_term.specs.View.{head_of, view, views};
ghost use Rattle.acpi_asl.specs.Eisa.{is_eisa, eisa_text};
ghost use Rattle.acpi_asl.specs.Opening.{opening};
ghost use Rattle.acpi_asl.specs.Place.{is_null, new_line};
ghost use Rattle.acpi_asl.specs.Special.{is_external, are_external, is_end, after_first, is_zero_first, is_external_block};
ghost use Rattle.acpi_asl.specs.Special.{block_note, externals_text, is_shortest, has_size};
ghost use Rattle.acpi_asl.specs.Special.{is_template_buffer, is_uuid, is_id_number};
ghost use Rattle.acpi_asl.specs.Special.{to_uuid, is_special, special_text};
ghost use Rattle.acpi_asl.specs.Template.{template_text};

use crate::eisa::{is_eisa, push_eisa};
use crate::number::least_bytes;
use crate::opening::push_opening;
use crate::place::{Place, is_left_out, is_null, place_of, push_line};
use crate::template::{is_template, push_template};
use crate::unread::push_unread;
use acpi_term::apart::{Kind, Parts, parts_of};
use acpi_term::term::Term;
use acpi_terms_text::scoped::is_unread;
use acpi_terms_text::uuid::push_uuid;
use std::alloc::AllocError;

fn is_external(kind: Kind<'_>) -> bool
    ensures { result ≡ is_external (head_of kind.entry) }
{
    match kind {
        Kind::External(..) => true,
        _ => false,
    }
}

fn are_external(terms: &[Term]) -> bool
    ensures { result ≡ are_external (views terms.now) }
{
    for term in terms {
        if !is_external(parts_of(term).kind) {
            return false;
        }
    }
    true
}

// The terms of two lists after the first.
fn after_first<'a>(first: &'a [Term], others: &'a [Term]) -> (&'a [Term], &'a [Term])
    ensures { views (result.0.now ++ result.1.now) ≡ after_first (views (first.now ++ others.now)) }
{
    match (first, others) {
        ([_, rest @ ..], _) => (rest, others),
        ([], [_, rest @ ..]) => (first, rest),
        ([], []) => (first, others),
    }
}

fn is_zero(term: &Term) -> bool
    ensures { result ≡ is_null (view term.now).0 (view term.now).1 }
{
    let parts = parts_of(term);
    is_null(parts.kind, parts.width)
}

fn is_zero_first(first: &[Term], others: &[Term]) -> bool
    ensures { result ≡ is_zero_first (views (first.now ++ others.now)) }
{
    match (first, others) {
        ([zero, ..], _) => is_zero(zero),
        ([], [zero, ..]) => is_zero(zero),
        ([], []) => false,
    }
}

fn is_end(terms: &[Term]) -> bool
    ensures { result ≡ is_end (views terms.now) }
{
    match terms {
        [] => true,
        [_, ..] => false,
    }
}

#[tactic(auto, using(crate::proofs::Externals::end_of_both))]
fn are_ended(first: &[Term], others: &[Term]) -> bool
    ensures { result ≡ is_end (views (first.now ++ others.now)) }
{
    is_end(first) && is_end(others)
}

#[tactic(auto, using(crate::proofs::Externals::both_external))]
fn are_externals(first: &[Term], others: &[Term]) -> bool
    ensures { result ≡ are_external (views (first.now ++ others.now)) }
{
    are_external(first) && are_external(others)
}

/// Whether a term with the children in two lists is the block in which a compiler writes External statements.
pub fn is_external_block(kind: Kind<'_>, first: &[Term], others: &[Term]) -> bool
    ensures { result ≡ is_external_block (head_of kind.entry) (views (first.now ++ others.now)) }
{
    match kind {
        Kind::If => {
            let (more, rest) = after_first(first, others);
            is_zero_first(first, others) && !are_ended(more, rest) && are_externals(more, rest)
        }
        _ => false,
    }
}

/// Whether a term is the block in which a compiler writes External statements.
pub fn is_block(term: &Term) -> bool
    ensures { result ≡ is_external_block (view term.now).0 (view term.now).2 }
{
    let parts = parts_of(term);
    is_external_block(parts.kind, parts.first, parts.others)
}

/// Adds the comment before a term in a place, if it is a block of External statements after another.
pub fn push_block_note(place: Place, parts: Parts<'_>, text: &mut String) -> Result<(), AllocError>
    ensures { OnOk result (string_bytes text.new ≡ string_bytes text.old ++ block_note place (head_of parts.entry.kind)
        (views (parts.entry.first.now ++ parts.entry.others.now))) }
{
    if place.externals && is_external_block(parts.kind, parts.first, parts.others) {
        text.push_str("/*= Block */ ")
    } else {
        Ok(())
    }
}

fn push_lead(first: bool, depth: usize, text: &mut String) -> Result<(), AllocError>
    ensures { OnOk result (string_bytes text.new ≡ string_bytes text.old ++ (if first then [] else new_line depth)) }
{
    if first {
        return Ok(());
    }
    push_line(depth, text)
}

#[tactic(auto, using(acpi_read::proofs::Texts::after_two))]
fn push_external(
    depth: usize,
    first: bool,
    term: &Term,
    text: &mut String,
) -> Result<(), AllocError>
    ensures { OnOk result (string_bytes text.new ≡ string_bytes text.old
        ++ ((if first then [] else new_line depth) ++ opening true (view term.now).0 (view term.now).1 0 depth)) }
{
    let parts = parts_of(term);
    push_lead(first, depth, text)?;
    let inside = place_of(parts.kind, 0);
    push_opening(true, parts.kind, parts.width, 0, inside, depth, text)
}

// Adds External statements, each on a line.
fn push_externals(
    depth: usize,
    first: bool,
    terms: &[Term],
    text: &mut String,
) -> Result<(), AllocError>
    ensures { OnOk result (string_bytes text.new ≡ string_bytes text.old ++ externals_text depth first (views terms.now)) }
{
    let mut lead = first;
    'externals: for term in terms {
        push_external(depth, lead, term, text)?;
        lead = false;
    }
    Ok(())
}

// The same for two lists.
#[tactic(auto, using(crate::proofs::Externals::block_written))]
#[inline(never)]
fn push_block(
    depth: usize,
    first: &[Term],
    others: &[Term],
    text: &mut String,
) -> Result<(), AllocError>
    ensures { OnOk result (string_bytes text.new ≡ string_bytes text.old
        ++ externals_text depth true (views (first.now ++ others.now))) }
{
    push_externals(depth, true, first, text)?;
    push_externals(depth, is_end(first), others, text)
}

fn is_shortest(n: usize, kind: Kind<'_>, width: u8) -> bool
    ensures { result ≡ is_shortest n (head_of kind.entry) width }
{
    match kind {
        Kind::Number(value) => value == n as u64 && width == least_bytes(n as u64),
        _ => false,
    }
}

fn has_this_size(n: usize, term: &Term) -> bool
    ensures { result ≡ is_shortest n (view term.now).0 (view term.now).1 }
{
    let parts = parts_of(term);
    is_shortest(n, parts.kind, parts.width)
}

// Whether the first of the terms in two lists is this number.
fn has_size(n: usize, first: &[Term], others: &[Term]) -> bool
    ensures { result ≡ has_size n (views (first.now ++ others.now)) }
{
    match (first, others) {
        ([size, ..], _) => has_this_size(n, size),
        ([], [size, ..]) => has_this_size(n, size),
        ([], []) => false,
    }
}

// Whether a term with the children in two lists is a buffer that a resource template makes.
fn is_template_buffer(kind: Kind<'_>, first: &[Term], others: &[Term]) -> bool
    ensures { result ≡ is_template_buffer (head_of kind.entry) (views (first.now ++ others.now)) }
{
    match kind {
        Kind::Buffer(bytes) => has_size(bytes.len(), first, others) && is_template(bytes),
        _ => false,
    }
}

// Whether a buffer of these bytes with the children in two lists is, in this place, one that ToUUID makes.
fn is_uuid_buffer(place: Place, bytes: &[u8], first: &[Term], others: &[Term]) -> bool
    ensures { result ≡ is_uuid place (def_buffer bytes.now) (views (first.now ++ others.now)) }
{
    place.uuids && bytes.len() == 16 && has_size(16, first, others)
}

// Whether a term with children in two lists is, in this place, a buffer that ToUUID makes.
fn is_uuid(place: Place, kind: Kind<'_>, first: &[Term], others: &[Term]) -> bool
    ensures { result ≡ is_uuid place (head_of kind.entry) (views (first.now ++ others.now)) }
{
    match kind {
        Kind::Buffer(bytes) => is_uuid_buffer(place, bytes, first, others),
        _ => false,
    }
}

fn is_id_number(place: Place, kind: Kind<'_>, width: u8) -> bool
    ensures { result ≡ is_id_number place (head_of kind.entry) width }
{
    match kind {
        Kind::Number(value) => place.ids && is_eisa(width, value),
        _ => false,
    }
}

/// Whether a term in a place is special.
pub fn is_special(place: Place, parts: Parts<'_>) -> bool
    ensures { result ≡ is_special place (head_of parts.entry.kind) parts.entry.width
        (views (parts.entry.first.now ++ parts.entry.others.now)) }
{
    is_left_out(place, parts.kind, parts.width)
        || is_id_number(place, parts.kind, parts.width)
        || is_external_block(parts.kind, parts.first, parts.others)
        || is_uuid(place, parts.kind, parts.first, parts.others)
        || is_template_buffer(parts.kind, parts.first, parts.others)
        || is_unread(parts.kind)
}

fn push_special_number(
    left_out: bool,
    width: u8,
    value: u64,
    text: &mut String,
) -> Result<(), AllocError>
    requires { left_out ≡ false → is_eisa width value ≡ true }
    ensures { OnOk result (string_bytes text.new ≡ string_bytes text.old ++ (if left_out then [] else eisa_text value)) }
{
    if left_out {
        return Ok(());
    }
    push_eisa(width, value, text)
}

#[tactic(auto, using(acpi_read::proofs::Texts::after_three))]
#[inline(never)]
fn push_to_uuid(bytes: &[u8], text: &mut String) -> Result<(), AllocError>
    ensures { OnOk result (string_bytes text.new ≡ string_bytes text.old ++ to_uuid bytes.now) }
{
    text.push_str("ToUUID (\"")?;
    push_uuid(bytes, text)?;
    text.push_str("\")")
}

fn push_buffer(
    uuid: bool,
    tags: u32,
    depth: usize,
    bytes: &[u8],
    text: &mut String,
) -> Result<(), AllocError>
    ensures { OnOk result (string_bytes text.new ≡ string_bytes text.old
        ++ (if uuid then to_uuid bytes.now else template_text tags depth bytes.now)) }
{
    if uuid {
        return push_to_uuid(bytes, text);
    }
    push_template(tags, depth, bytes, text)
}

/// Adds the text of a special term at its depth.
pub fn push_special(
    place: Place,
    parts: Parts<'_>,
    depth: usize,
    text: &mut String,
) -> Result<(), AllocError>
    requires { is_special place (head_of parts.kind) parts.width (views (parts.first.now ++ parts.others.now)) ≡ true }
    ensures { OnOk result (string_bytes text.new ≡ string_bytes text.old
        ++ special_text place (head_of parts.entry.kind) parts.entry.width
        (views (parts.entry.first.now ++ parts.entry.others.now)) depth) }
{
    match parts.kind {
        Kind::Number(value) => {
            let left_out = is_left_out(place, parts.kind, parts.width);
            push_special_number(left_out, parts.width, value, text)
        }
        Kind::Buffer(bytes) => {
            let uuid = is_uuid_buffer(place, bytes, parts.first, parts.others);
            push_buffer(uuid, place.tags, depth, bytes, text)
        }
        Kind::Unread(error, bytes) => push_unread(error, bytes, depth, text),
        _ => {
            let (more, rest) = after_first(parts.first, parts.others);
            push_block(depth, more, rest, text)
        }
    }
}
