//! Definition blocks as ASL.

ghost use Rattle.std.specs.Prelude.{◌≡◌, ◌++◌, codes, ◌+◌, ◌≤◌, length, IfOk, OnOk, string_bytes};
ghost use Rattle.std.specs.Fmt.{decimal};
ghost use Rattle.acpi_base.specs.Bytes.{field_at};
ghost use Rattle.acpi_term.specs.View.{head_of, view, views, single};
ghost use Rattle.acpi_asl.specs.Asl.{whole, texts, AreWritten, header_text, creator, definition};
ghost use Rattle.acpi_asl.specs.Asl.{block_line, asl_text};
ghost use Rattle.acpi_asl.specs.Number.{hex};
ghost use Rattle.acpi_asl.specs.Opening.{further};
ghost use Rattle.acpi_asl.specs.Row.{rows};
ghost use Rattle.acpi_asl.specs.Place.{closed};

use crate::absent::push_absents;
use crate::content::up_to_zero;
use crate::note::push_note;
use crate::number::push_string;
use crate::opening::{push_further_decimal, push_further_hex, push_opening};
use crate::place::{
    Body, Place, STATEMENTS, depth_in, is_left_out, is_statement, next, place_in, push_after,
    push_before, push_closed, push_opened,
};
use crate::row::push_rows;
use crate::special::{is_block, is_special, push_block_note, push_special};
use acpi_read::bytes::dword_at;
use acpi_term::apart::{Kind, Parts, parts_of};
use acpi_term::term::Term;
use std::alloc::{AllocError, Global};

// Adds terms, if there are any: most lists have none.
#[cycle(asl)]
#[inline(always)]
fn push_any(
    place: Place,
    depth: usize,
    terms: &[Term],
    text: &mut String,
) -> Result<Place, AllocError>
    ensures { IfOk result
        (λ left. AreWritten place depth (views terms.now) left (string_bytes text.old) (string_bytes text.new)) }
{
    match terms {
        [] => Ok(place),
        [_, ..] => push_terms(place, depth, terms, text),
    }
}

#[cycle(asl)]
fn push_terms(
    place: Place,
    depth: usize,
    terms: &[Term],
    text: &mut String,
) -> Result<Place, AllocError>
    ensures { IfOk result
        (λ left. AreWritten place depth (views terms.now) left (string_bytes text.old) (string_bytes text.new)) }
{
    let mut left = place;
    for term in terms {
        push_term(left, depth, term, text)?;
        left = next(left, is_block(term));
    }
    Ok(left)
}

#[cycle(asl)]
fn push_term(place: Place, depth: usize, term: &Term, text: &mut String) -> Result<(), AllocError>
    ensures { OnOk result
        (string_bytes text.new ≡ string_bytes text.old ++ texts place depth (single (view term.now))) }
{
    let parts = parts_of(term);
    let left_out = is_left_out(place, parts.kind, parts.width);
    let inner = depth_in(place, depth)?;
    push_before(place, left_out, depth, inner, text)?;
    push_note(parts, text)?;
    push_block_note(place, parts, text)?;
    push_whole(place, inner, parts, text)?;
    push_after(place, depth, text)?;
    Ok(())
}

// Adds a term in a place, at its own depth.
#[cycle(asl)]
fn push_whole(
    place: Place,
    depth: usize,
    parts: Parts<'_>,
    text: &mut String,
) -> Result<(), AllocError>
    ensures { OnOk result (string_bytes text.new ≡ string_bytes text.old ++ whole place depth
        (head_of parts.entry.kind, parts.entry.width, views (parts.entry.first.now ++ parts.entry.others.now))) }
{
    if is_special(place, parts) {
        return push_special(place, parts, depth, text);
    }
    let count = parts.first.len() + parts.others.len();
    let inside = place_in(place, parts.kind, count);
    push_opening(
        is_statement(place),
        parts.kind,
        parts.width,
        count,
        inside,
        depth,
        text,
    )?;
    let left = push_any(inside, depth, parts.first, text)?;
    push_any(left, depth, parts.others, text)?;
    push_end(parts.kind, inside.body, depth, text)?;
    Ok(())
}

// Adds the rows of a term and the end of its braces.
fn push_end(kind: Kind<'_>, body: Body, depth: usize, text: &mut String) -> Result<(), AllocError>
    ensures { OnOk result (string_bytes text.new ≡ string_bytes text.old
        ++ (rows (head_of kind.entry) depth ++ closed body depth)) }
{
    push_rows(kind, depth, text)?;
    push_closed(body, depth, text)
}

#[tactic(auto, unfolding(crate::specs::Asl::header_text))]
fn push_string_at(
    header: &[u8],
    offset: usize,
    count: usize,
    text: &mut String,
) -> Result<(), AllocError>
    requires { offset + count ≤ length header.now }
    ensures { OnOk result (string_bytes text.new ≡ string_bytes text.old ++ header_text offset count header.now) }
{
    push_string(up_to_zero(&header[offset..offset + count]), text)
}

fn push_header_text(
    header: &[u8],
    offset: usize,
    count: usize,
    text: &mut String,
) -> Result<(), AllocError>
    requires { offset + count ≤ length header.now }
    ensures { OnOk result (string_bytes text.new ≡ string_bytes text.old ++ further (header_text offset count header.now)) }
{
    text.push_str(", ")?;
    push_string_at(header, offset, count, text)
}

// Adds the program that made the table, and its revision.
#[tactic(auto, using(acpi_read::proofs::Texts::after_four))]
fn push_creator(header: &[u8], text: &mut String) -> Result<(), AllocError>
    requires { 36 ≤ length header.now }
    ensures { OnOk result (string_bytes text.new ≡ string_bytes text.old ++ creator header.now) }
{
    text.push_str("/*= Creator ")?;
    push_string_at(header, 28, 4, text)?;
    push_further_hex(4, u64::from(dword_at(header, 32)), text)?;
    text.push_str(" */\n")
}

// Adds the OEM's name, its name of the table, and its revision of the table.
#[tactic(auto, using(acpi_read::proofs::Texts::after_three))]
fn push_oem(header: &[u8], text: &mut String) -> Result<(), AllocError>
    requires { 36 ≤ length header.now }
    ensures { OnOk result (string_bytes text.new ≡ string_bytes text.old
        ++ (further (header_text 10 6 header.now) ++ further (header_text 16 8 header.now)
        ++ further (hex 4 (field_at 24 4 header.now)))) }
{
    push_header_text(header, 10, 6, text)?;
    push_header_text(header, 16, 8, text)?;
    push_further_hex(4, u64::from(dword_at(header, 24)), text)
}

fn push_definition(header: &[u8], text: &mut String) -> Result<(), AllocError>
    requires { 36 ≤ length header.now }
    ensures { OnOk result (string_bytes text.new ≡ string_bytes text.old ++ definition header.now) }
{
    text.push_str("DefinitionBlock (\"\"")?;
    push_header_text(header, 0, 4, text)?;
    push_further_decimal(header[8], text)?;
    push_oem(header, text)?;
    text.push_str(")")?;
    Ok(())
}

fn push_block_line(header: &[u8], text: &mut String) -> Result<(), AllocError>
    requires { 36 ≤ length header.now }
    ensures { OnOk result (string_bytes text.new ≡ string_bytes text.old ++ block_line header.now) }
{
    push_creator(header, text)?;
    push_definition(header, text)
}

/// The definition block of a table as ASL, by its header, of which 36 bytes are read, and its terms.
#[tactic(auto, using(crate::proofs::Pieces::after_five))]
pub fn asl_of(alloc: Global, header: &[u8], terms: &[Term]) -> Result<String, AllocError>
    requires { 36 ≤ length header.now }
    ensures { IfOk result (λ text. string_bytes text ≡ asl_text header.now (views terms.now)) }
{
    let mut text = String::new(alloc);
    push_block_line(header, &mut text)?;
    push_opened(Body::Statements, 0, &mut text)?;
    push_absents(alloc, terms, &mut text)?;
    push_terms(STATEMENTS, 0, terms, &mut text)?;
    push_closed(Body::Statements, 0, &mut text)?;
    text.push_str("\n")?;
    Ok(text)
}
