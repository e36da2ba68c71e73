//! The lines of structures, one after another. A function whose name begins with `push` adds to a text.

ghost use Rattle.std.specs.Prelude.{◌≡◌, ◌+◌, ◌<◌, ◌^◌, ◌++◌, length, OnOk, string_bytes};
ghost use Rattle.acpi_text.specs.Piece.{pieces_text};
ghost use Rattle.acpi_text.specs.Size.{front_size};
ghost use Rattle.acpi_text.specs.Structure.{all_forms, find_form, form_name, form_parts, form_inner};
ghost use Rattle.acpi_text.specs.Structure.{kind_text, piece_line, piece_text};

use crate::form::{Inner, Part, StructureForm, TableForm};
use crate::inner::push_content;
use crate::part::number_at;
use crate::size::front_size;
use crate::slot::push_nameless;
use crate::space::push_label;
use acpi_base::walk::{Place, Sizes};
use itoa::Buffer;
use std::alloc::AllocError;

/// Returns the form of a table's structures with a number.
pub fn find_form(number: usize, table: &TableForm) -> Option<StructureForm>
    ensures { result ≡ find_form number (all_forms table.now) }
{
    'structures: for form in table.structures {
        if number == form.number {
            return Some(*form);
        }
    }
    'further: for form in table.further {
        if number == form.number {
            return Some(*form);
        }
    }
    None
}

/// Returns the parts of a form, or none without a form.
pub fn parts_of(form: Option<StructureForm>) -> &'static [Part]
    ensures { result.now ≡ form_parts form }
{
    match form {
        Some(form) => form.parts,
        None => &[],
    }
}

/// Returns what a form contains after its parts.
pub fn inner_of(form: Option<StructureForm>) -> &'static Inner
    ensures { result.now ≡ form_inner form }
{
    match form {
        Some(form) => form.inner,
        None => &Inner::Nothing,
    }
}

// Adds the type of a structure, if it has one.
fn push_kind(kind: Place, piece: &[u8], text: &mut String) -> Result<(), AllocError>
    ensures { OnOk result (string_bytes text.new ≡ string_bytes text.old ++ kind_text kind piece.now) }
{
    match kind {
        Place::Nowhere => text.push_str(" entry"),
        place => {
            text.push_str(" type ")?;
            text.push_str(Buffer::new().format(number_at(place, piece)))
        }
    }
}

// Adds the name of a form, if there is one.
fn push_name(form: Option<StructureForm>, text: &mut String) -> Result<(), AllocError>
    ensures { OnOk result (string_bytes text.new ≡ string_bytes text.old ++ form_name form) }
{
    match form {
        Some(form) => {
            text.push_str(" ")?;
            push_label(form.name, text)
        }
        None => Ok(()),
    }
}

// Adds the line of a structure: its offset, its type, its size and its name.
fn push_piece_line(
    kind: Place,
    form: Option<StructureForm>,
    at: usize,
    piece: &[u8],
    text: &mut String,
) -> Result<(), AllocError>
    ensures { OnOk result (string_bytes text.new ≡ string_bytes text.old ++ piece_line kind form at piece.now) }
{
    text.push_str(Buffer::new().format(at))?;
    push_kind(kind, piece, text)?;
    text.push_str(" size ")?;
    text.push_str(Buffer::new().format(piece.len()))?;
    push_name(form, text)?;
    text.push_str("\n")
}

// Adds a structure's line, and those of what it contains.
fn push_piece(
    kind: Place,
    table: &TableForm,
    at: usize,
    piece: &[u8],
    text: &mut String,
) -> Result<(), AllocError>
    requires { at + length piece.now < 2 ^ 64 }
    ensures { OnOk result (string_bytes text.new ≡ string_bytes text.old ++ piece_text kind (all_forms table.now) at piece.now) }
{
    let form = find_form(number_at(kind, piece), table);
    push_piece_line(kind, form, at, piece, text)?;
    push_content(parts_of(form), inner_of(form), at, piece, text)
}

/// Adds the lines of the structures that stand one after another from `start` on, and then the bytes that are left, without
/// names.
pub fn push_pieces(
    sizes: Sizes,
    kind: Place,
    table: &TableForm,
    start: usize,
    bytes: &[u8],
    text: &mut String,
) -> Result<(), AllocError>
    requires { start + length bytes.now < 2 ^ 64 }
    ensures { OnOk result (string_bytes text.new ≡ string_bytes text.old
        ++ pieces_text (front_size sizes) (piece_text kind (all_forms table.now)) start bytes.now) }
{
    let mut at = start;
    let mut rest = bytes;
    'pieces: while let Some(size) = front_size(sizes, rest) {
        let (piece, more) = rest.split_at(size);
        push_piece(kind, table, at, piece, text)?;
        at += size;
        rest = more;
    }
    push_nameless(at, rest, text)
}
