//! The lines of a text. A function whose name begins with `push` adds to a text.

ghost use Rattle.std.specs.Prelude.{◌≡◌, ◌*◌, ◌++◌, length, OnOk, string_bytes};
ghost use Rattle.acpi_base.specs.Look.{look_of};
ghost use Rattle.acpi_text.specs.Line.{line, title};

use crate::hex::push_numbers;
use crate::note::push_meaning;
use crate::space::{push_margin, push_padded};
use acpi_base::row::Look;
use std::alloc::AllocError;

/// What the line of a field shows: its level, its name, and `count` numbers of `width` bytes, of which `look` says what they
/// mean.
#[derive(Clone, Copy, Debug)]
pub struct LineForm<'a> {
    pub depth: u8,
    pub name: &'a str,
    pub look: Look,
    pub width: usize,
    pub count: usize,
}

/// Adds the line of a field that begins at an offset.
pub fn push_line(
    form: &LineForm<'_>,
    offset: usize,
    field: &[u8],
    text: &mut String,
) -> Result<(), AllocError>
    requires { length field.now ≡ form.now.width * form.now.count }
    ensures { OnOk result (string_bytes text.new ≡ string_bytes text.old
        ++ line form.now.depth offset form.now.name.now (look_of form.now.look) form.now.width form.now.count field.now) }
{
    push_padded(form.depth, offset, form.name, text)?;
    push_numbers(form.width, form.count, field, text)?;
    push_meaning(form.look, form.width, form.count, field, text)?;
    text.push_str("\n")
}

/// Adds the line of a name over the lines of a level.
pub fn push_title(depth: u8, offset: usize, name: &str, text: &mut String) -> Result<(), AllocError>
    ensures { OnOk result (string_bytes text.new ≡ string_bytes text.old ++ title depth offset name.now) }
{
    push_margin(depth, offset, name, text)?;
    text.push_str("\n")
}
