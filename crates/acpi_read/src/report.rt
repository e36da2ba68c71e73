//! Reports of tables and terms as text.

mod entry;
mod line;
mod piece;
mod size;
mod width;
pub mod words;

ghost use Rattle.std.specs.Prelude.{◌≡◌, ◌++◌, IfErr, IfOk, OnOk, map, string_bytes};
ghost use Rattle.acpi_term.specs.View.{head_of, view, views, single};
ghost use Rattle.acpi_read.specs.Report.{header_line, printable, ReportsTable};
ghost use Rattle.acpi_read.specs.Pieces.{IsPieceFault};
ghost use Rattle.acpi_read.specs.Lines.{head_text, line, own_lines, lines, AreReported};
ghost use Rattle.acpi_read.specs.Size.{width_words, HasSizes};

use crate::pieces::kind_of;
use crate::report::entry::push_entries;
use crate::report::line::push_head;
use crate::report::piece::push_pieces;
use crate::report::size::content_sizes;
use crate::report::width::{push_width, shown_width};
use crate::report::words::push_indent;
pub use crate::report::words::push_number;
use crate::table::Table;
use acpi_term::apart::{Kind, parts_of};
use acpi_term::read_error::ReadError;
use acpi_term::term::Term;
use std::alloc::{AllocError, Global};

// A byte of a signature or of a segment, or `?` if it isn't printable.
fn shown(byte: u8) -> char
    ensures { result ≡ printable byte }
{
    if (0x20..=0x7e).contains(&byte) {
        byte as char
    } else {
        '?'
    }
}

/// The first line of a table's report: its signature, its length in bytes, its revision and its sum.
pub fn report_header(alloc: Global, table: &Table) -> Result<String, ReadError>
    ensures ok { IfOk result (λ text. string_bytes text ≡ header_line table.now) }
    ensures err { IfErr result (λ e. e ≡ ReadError.Memory) }
{
    let [a, b, c, d] = table.signature();
    let (a, b, c, d) = (shown(a), shown(b), shown(c), shown(d));
    let length = table.bytes().len();
    let revision = table.revision();
    Ok(format!(in alloc; "{a}{b}{c}{d} length {length} revision {revision} sum 0\n")?)
}

/// The report of a table: a line for its header, and a line for each structure with its offset, its type if the structures of
/// this table have one, and its size in bytes. The errors are those of `Table::pieces`.
pub fn report_table(alloc: Global, table: &Table) -> Result<String, ReadError>
    ensures ok { IfOk result (λ text. ReportsTable table.now (string_bytes text)) }
    ensures err { IfErr result (λ e. IsPieceFault e table.now) }
{
    let pieces = table.pieces(alloc)?;
    let mut text = report_header(alloc, table)?;
    push_pieces(kind_of(table), &pieces, &mut text)?;
    Ok(text)
}

/// The report of terms: a line for each, followed by its children, which are indented by two more spaces. A line ends in `width`
/// and the width of the PkgLength or number, if that isn't the width in which this library would write the term.
pub fn report_terms(alloc: Global, terms: &[Term]) -> Result<String, ReadError>
    ensures ok { IfOk result (λ text. string_bytes text ≡ lines 0 (views terms.now)) }
    ensures err { IfErr result (λ e. e ≡ ReadError.Memory) }
{
    let sizes = content_sizes(alloc, terms)?;
    let mut text = String::new(alloc);
    push_terms(0, terms, &sizes, &mut text)?;
    Ok(text)
}

// Uses the sizes of the terms' contents from the front of `sizes`, and returns the sizes that are left.
#[cycle(report)]
fn push_terms<'a>(
    depth: usize,
    terms: &[Term],
    sizes: &'a [u32],
    text: &mut String,
) -> Result<&'a [u32], AllocError>
    requires { HasSizes (views terms.now) sizes.now }
    ensures { IfOk result
        (λ left. AreReported depth (views terms.now) sizes.now left.now (string_bytes text.old) (string_bytes text.new)) }
{
    let mut left = sizes;
    for term in terms {
        left = push_term(depth, term, left, text)?;
    }
    Ok(left)
}

#[cycle(report)]
fn push_term<'a>(
    depth: usize,
    term: &Term,
    sizes: &'a [u32],
    text: &mut String,
) -> Result<&'a [u32], AllocError>
    requires { HasSizes (single (view term.now)) sizes.now }
    ensures { IfOk result
        (λ left. AreReported depth (single (view term.now)) sizes.now left.now (string_bytes text.old) (string_bytes text.new)) }
{
    let parts = parts_of(term);
    let shown = shown_width(parts.kind, parts.width, sizes[0]);
    let count = parts.first.len() + parts.others.len();
    push_line(depth, parts.kind, count, shown, text)?;
    // No memory has room for an indentation of this depth.
    let Some(deeper) = depth.checked_add(1) else {
        return Err(AllocError);
    };
    push_own(deeper, parts.kind, text)?;
    let left = push_any(deeper, parts.first, &sizes[1..], text)?;
    push_any(deeper, parts.others, left, text)
}

// Does what `push_terms` does. Most terms have no children in one of their lists or in both, and an empty list takes no call.
#[cycle(report)]
#[inline(always)]
fn push_any<'a>(
    depth: usize,
    terms: &[Term],
    sizes: &'a [u32],
    text: &mut String,
) -> Result<&'a [u32], AllocError>
    requires { HasSizes (views terms.now) sizes.now }
    ensures { IfOk result
        (λ left. AreReported depth (views terms.now) sizes.now left.now (string_bytes text.old) (string_bytes text.new)) }
{
    if terms.is_empty() {
        return Ok(sizes);
    }
    push_terms(depth, terms, sizes, text)
}

#[tactic(auto, using(crate::proofs::Texts::after_four))]
fn push_line(
    depth: usize,
    kind: Kind<'_>,
    count: usize,
    shown: Option<u8>,
    text: &mut String,
) -> Result<(), AllocError>
    ensures { OnOk result (string_bytes text.new ≡ string_bytes text.old
        ++ line depth (head_text (head_of kind.entry) count) (width_words shown)) }
{
    push_indent(depth, text)?;
    push_head(kind, count, text)?;
    push_width(shown, text)?;
    text.push_str("\n")
}

// Adds a field's entries.
fn push_own(depth: usize, kind: Kind<'_>, text: &mut String) -> Result<(), AllocError>
    ensures { OnOk result (string_bytes text.new ≡ string_bytes text.old ++ own_lines depth (head_of kind.entry)) }
{
    match kind {
        Kind::Field(_, _, _, _, entries)
        | Kind::IndexField(_, _, _, _, _, entries)
        | Kind::BankField(_, _, _, _, _, entries) => push_entries(depth, entries, text),
        _ => Ok(()),
    }
}

/// Adds the bytes of a signature or of a segment to a text, each as `?` if it isn't printable.
pub fn push_shown(name: &[u8], text: &mut String) -> Result<(), AllocError>
    ensures { OnOk result (string_bytes text.new ≡ string_bytes text.old ++ map printable name.now) }
{
    for byte in name {
        text.push(shown(*byte))?;
    }
    Ok(())
}
