//! The widths in the lines of terms.

ghost use Rattle.std.specs.Prelude.{◌≡◌, ◌+◌, ◌^◌, ◌==◌, ◌&&◌, ◌++◌, nat_lt, OnOk, string_bytes};
ghost use Rattle.acpi_base.specs.Number.{number_width};
ghost use Rattle.acpi_term.specs.Length.{least_width};
ghost use Rattle.acpi_term.specs.Row.{own_width};
ghost use Rattle.acpi_term.specs.Spelling.{spelling};
ghost use Rattle.acpi_term.specs.Tree.{Terms, count};
ghost use Rattle.acpi_term.specs.View.{head_of};
ghost use Rattle.acpi_read.specs.Lines.{width_suffix, term_suffix, is_chosen};
ghost use Rattle.acpi_read.specs.Size.{capped, content_size, width_words};

use crate::report::size::LIMIT;
use crate::report::words::push_number;
use acpi_term::apart::{Kind, frame_code};
use acpi_term::row::least_width;
use std::alloc::AllocError;

fn number_width(value: u64) -> u8
    ensures { result ≡ number_width value }
{
    match value {
        0..=1 => 0,
        2..=0xff => 1,
        0x100..=0xffff => 2,
        0x1_0000..=0xffff_ffff => 4,
        _ => 8,
    }
}

// The width in which this library writes a term without a frame.
fn own_width(kind: Kind<'_>) -> u8
    ensures { result ≡ own_width (head_of kind.entry) }
{
    match kind {
        Kind::Number(value) => number_width(value),
        _ => 0,
    }
}

// Whether a width is the least that counts a content of this size. It is false if none does.
fn is_least(width: u8, size: u32) -> bool
    ensures { result ≡ (width == least_width size && nat_lt (4 + size) (2 ^ 28)) }
{
    width == least_width(size as usize) && size < LIMIT - 4
}

// Whether this library writes a term whose content has this size in this width.
fn is_chosen(kind: Kind<'_>, width: u8, size: u32) -> bool
    ensures { (children : Terms) → size ≡ capped (content_size (head_of kind.entry) width children)
        → result ≡ is_chosen (head_of kind.entry) width (count children) (spelling children) }
{
    match frame_code(kind) {
        Some(_) => is_least(width, size),
        None => width == own_width(kind),
    }
}

// The width, or `None` if it is the one that this library writes.
fn unless(chosen: bool, width: u8) -> Option<u8>
    ensures { width_words result ≡ width_suffix chosen width }
{
    if chosen { None } else { Some(width) }
}

/// The width of a term whose content has this size, if the report shows it.
pub fn shown_width(kind: Kind<'_>, width: u8, size: u32) -> Option<u8>
    ensures { (children : Terms) → size ≡ capped (content_size (head_of kind.entry) width children)
        → width_words result ≡ term_suffix (head_of kind.entry) width children }
{
    unless(is_chosen(kind, width, size), width)
}

/// The width of a number, if the report shows it.
pub fn shown_number_width(value: u64, width: u8) -> Option<u8>
    ensures { width_words result ≡ width_suffix (width == number_width value) width }
{
    unless(width == number_width(value), width)
}

/// The width of the length of a field entry, which counts this many bits or bytes, if the report shows it.
pub fn shown_entry_width(bits: u32, width: u8) -> Option<u8>
    ensures { width_words result ≡ width_suffix (width == least_width bits && nat_lt bits (2 ^ 28)) width }
{
    unless(width == least_width(bits as usize) && bits < LIMIT, width)
}

/// Adds a width, if the report shows it.
pub fn push_width(shown: Option<u8>, text: &mut String) -> Result<(), AllocError>
    ensures { OnOk result (string_bytes text.new ≡ string_bytes text.old ++ width_words shown) }
{
    match shown {
        None => Ok(()),
        Some(width) => push_number(" width ", u64::from(width), text),
    }
}
