//! The lines of the entries of fields (ACPI 6.5, 20.2.5.2). A function whose name begins with `push` adds to a text.

ghost use Rattle.std.specs.Prelude.{◌≡◌, ◌==◌, ◌++◌, OnOk, codes, map, string_bytes};
ghost use Rattle.std.specs.Fmt.{decimal};
ghost use Rattle.acpi_term.specs.View.{entry_view};
ghost use Rattle.acpi_read.specs.Report.{printable};
ghost use Rattle.acpi_read.specs.Lines.{access_words, entry_text, entry_line, entry_lines};
ghost use Rattle.acpi_read.specs.Size.{width_words};
ghost use Rattle.acpi_read.specs.Lines.{data_text, is_entry_chosen, width_suffix};
ghost use Rattle.acpi_base.specs.Number.{number_width};
ghost use Rattle.acpi_term.specs.Row.{entry_width};

use crate::report::line::push_bytes;
use crate::report::push_shown;
use crate::report::size::buffer_size;
use crate::report::width::{push_width, shown_entry_width, shown_number_width};
use crate::report::words::{push_indent, push_named, push_number};
use acpi_term::term::TermEntry;
use std::alloc::AllocError;

/// Adds the lines of entries.
pub fn push_entries(
    depth: usize,
    entries: &[TermEntry],
    text: &mut String,
) -> Result<(), AllocError>
    ensures { OnOk result (string_bytes text.new ≡ string_bytes text.old ++ entry_lines depth (map entry_view entries.now)) }
{
    for entry in entries {
        push_entry(depth, entry, text)?;
    }
    Ok(())
}

#[tactic(auto, using(crate::proofs::Texts::after_four))]
fn push_entry(depth: usize, entry: &TermEntry, text: &mut String) -> Result<(), AllocError>
    ensures { OnOk result (string_bytes text.new ≡ string_bytes text.old ++ entry_line depth (entry_view entry.now)) }
{
    push_indent(depth, text)?;
    push_said(entry, text)?;
    push_width(shown_width(entry), text)?;
    text.push_str("\n")
}

// The width of an entry's length, if the report shows it.
fn shown_width(entry: &TermEntry) -> Option<u8>
    ensures { width_words result ≡ width_suffix (is_entry_chosen (entry_view entry.now)) (entry_width (entry_view entry.now)) }
{
    match entry {
        TermEntry::Named(_, bits, width) | TermEntry::Reserved(bits, width) => {
            shown_entry_width(*bits, *width)
        }
        TermEntry::ConnectionBuffer {
            width,
            size,
            size_width,
            bytes,
        } => shown_entry_width(buffer_size(*size, *size_width, bytes), *width),
        TermEntry::AccessAs(..) | TermEntry::ExtendedAccessAs(..) | TermEntry::Connection(_) =>
            None,
    }
}

fn push_said(entry: &TermEntry, text: &mut String) -> Result<(), AllocError>
    ensures { OnOk result (string_bytes text.new ≡ string_bytes text.old ++ entry_text (entry_view entry.now)) }
{
    match entry {
        TermEntry::Named(name, bits, _) => push_named_bits(name, *bits, text),
        TermEntry::Reserved(bits, _) => push_number("reserved bits ", u64::from(*bits), text),
        TermEntry::AccessAs(access, attribute) => push_access(*access, *attribute, text),
        TermEntry::ExtendedAccessAs(access, attribute, size) => {
            push_extended_access(*access, *attribute, *size, text)
        }
        TermEntry::Connection(name) => push_named("connection ", name, text),
        TermEntry::ConnectionBuffer {
            size,
            size_width,
            bytes,
            ..
        } => push_connection(*size, *size_width, bytes, text),
    }
}

#[tactic(auto, using(crate::proofs::Texts::after_three))]
fn push_named_bits(name: &[u8], bits: u32, text: &mut String) -> Result<(), AllocError>
    ensures { OnOk result (string_bytes text.new ≡ string_bytes text.old
        ++ (codes "entry " ++ map printable name.now ++ codes " bits " ++ decimal bits)) }
{
    text.push_str("entry ")?;
    push_shown(name, text)?;
    push_number(" bits ", u64::from(bits), text)
}

fn push_access(access: u8, attribute: u8, text: &mut String) -> Result<(), AllocError>
    ensures { OnOk result (string_bytes text.new ≡ string_bytes text.old
        ++ access_words access attribute) }
{
    push_number("access type ", u64::from(access), text)?;
    push_number(" attribute ", u64::from(attribute), text)?;
    Ok(())
}

fn push_extended_access(
    access: u8,
    attribute: u8,
    size: u8,
    text: &mut String,
) -> Result<(), AllocError>
    ensures { OnOk result (string_bytes text.new ≡ string_bytes text.old
        ++ (access_words access attribute ++ (codes " length " ++ decimal size))) }
{
    push_access(access, attribute, text)?;
    push_number(" length ", u64::from(size), text)?;
    Ok(())
}

fn push_connection(
    size: u64,
    size_width: u8,
    bytes: &[u8],
    text: &mut String,
) -> Result<(), AllocError>
    ensures { OnOk result (string_bytes text.new ≡ string_bytes text.old
        ++ (codes "connection size " ++ decimal size ++ width_suffix (size_width == number_width size) size_width
        ++ (codes " data" ++ data_text bytes.now))) }
{
    push_number("connection size ", size, text)?;
    push_width(shown_number_width(size, size_width), text)?;
    push_bytes(" data", bytes, text)?;
    Ok(())
}
