//! The text of a table.

ghost use Rattle.std.specs.Prelude.{◌≡◌, ◌++◌, Some, OnOk, IfOk, string_bytes};
ghost use Rattle.acpi_text.specs.Table.{start_of, body_text, table_text};

use crate::form::TableForm;
use crate::inner::{push_content, split_within};
use crate::part::{number_at, push_parts};
use crate::piece::push_pieces;
use crate::space::push_label;
use acpi_base::walk::Walk;
use std::alloc::{AllocError, Global};

/// Returns the offset at which the structures of a table begin.
pub fn start_of(walk: &Walk, bytes: &[u8]) -> usize
    ensures { result ≡ start_of walk.now bytes.now }
{
    let least = walk.start;
    let start = number_at(walk.first, bytes);
    if start < least { least } else { start }
}

// Adds the fields and the structures of a table that has a walk.
fn push_walked(
    form: &TableForm,
    walk: Walk,
    bytes: &[u8],
    text: &mut String,
) -> Result<(), AllocError>
    ensures { OnOk result (string_bytes text.new ≡ string_bytes text.old ++ body_text form.now (Some walk) bytes.now) }
{
    let start = start_of(&walk, bytes);
    let (front, rest) = split_within(start, bytes);
    push_parts(0, form.parts, 0, front, text)?;
    push_pieces(walk.sizes, walk.kind, form, front.len(), rest, text)
}

/// Returns the text of a table: a line with its name, a line for each field, and, if there is a walk, a line for each structure
/// and its fields below it. All bytes are shown: those without a name stand in lines of sixteen bytes. The only error is that
/// memory ran out.
pub fn show_by(
    alloc: Global,
    form: &TableForm,
    walk: Option<Walk>,
    bytes: &[u8],
) -> Result<String, AllocError>
    ensures { IfOk result (λ text. string_bytes text ≡ table_text form.now walk bytes.now) }
{
    let mut text = String::new(alloc);
    push_label(form.name, &mut text)?;
    text.push_str("\n")?;
    match walk {
        Some(walk) => push_walked(form, walk, bytes, &mut text)?,
        None => push_content(form.parts, form.inner, 0, bytes, &mut text)?,
    }
    Ok(text)
}
