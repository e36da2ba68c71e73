//! What `show` prints of a table: its text, and lines after it.

ghost use Rattle.std.specs.Prelude.{◌≡◌, ◌≤◌, false, length, map, true, None, IfOk, string_bytes};
ghost use Rattle.acpi_asl.specs.Block.{has_terms};
ghost use Rattle.acpi_forms.specs.Kind.{kind_of};
ghost use Rattle.acpi_terms_text.specs.Objects.{callee_by};
ghost use Rattle.acpi_text.specs.Comment.{comment};
ghost use Rattle.acpitool_program.specs.Shown.{IsHeader, IsInPart, IsShownBy, IsShownAs};
ghost use Rattle.acpitool_program.specs.Terms.{IsAfter};
ghost use Rattle.acpitool_program.specs.Text.{IsKind, IsTextAs};

use crate::command::Style;
use crate::fault::Fault;
use crate::terms::{error_line, lines_after};
use crate::text::{as_asked, text_as};
use acpi_asl::block::{BODY, BlockText, has_terms, text_in_part, text_of_block};
use acpi_forms::layout::form_in;
use acpi_read::bytes::dword_at;
use acpi_term::name_string::Arities;
use acpi_term::read_error::ReadError;
use acpi_terms_text::objects::Object;
use acpi_text::comment::push_comment;
use acpi_text::table::show_by;
use std::alloc::{AllocError, Global};

/// How tables are shown.
#[derive(Clone, Copy)]
pub struct Showing<'a> {
    /// The option of `show`.
    pub style: Style,
    /// The words of its files.
    pub files: &'a [String],
    /// The numbers of arguments that were stated.
    pub stated: &'a Arities,
    /// The objects that each definition block may name besides its own.
    pub further: &'a [Object],
}

/// What is printed of a table.
#[derive(Drop)]
pub struct Shown {
    /// The text of its bytes, or of the header of a definition block.
    pub text: Vec<u8>,
    /// The lines after it.
    pub after: String,
    /// Why not all terms of a definition block can be read, if they can't.
    pub unread: Option<Fault>,
}

// Returns lines as comments.
fn commented(alloc: Global, lines: &[u8]) -> Result<Vec<u8>, AllocError>
    ensures { IfOk result (λ text. text.items ≡ comment lines.now) }
{
    let mut text = Vec::new(alloc);
    let mut begins = true;
    'bytes: for byte in lines {
        if begins {
            text.extend_from_slice(b"// ")?;
        }
        text.push(*byte)?;
        begins = *byte == b'\n';
    }
    if !begins {
        text.push(b'\n')?;
    }
    Ok(text)
}

// Returns the header of a definition block as comments: its title and its fields.
fn header_text(alloc: Global, bare: bool, bytes: &[u8]) -> Result<Vec<u8>, AllocError>
    requires { 36 ≤ length bytes.now }
    ensures { IfOk result (λ text. IsHeader bare bytes.now text.items) }
{
    let (header, _) = bytes.split_at(BODY);
    let fields = show_by(alloc, &form_in(dword_at(bytes, 0), bytes), None, header)?;
    commented(alloc, &as_asked(alloc, bare, fields)?)
}

// Returns why not all terms of a definition block can be read, and the ASL of the others, as comments.
fn lines_in_part(
    alloc: Global,
    showing: &Showing<'_>,
    bytes: &[u8],
    fault: &Fault,
) -> Result<String, AllocError>
    requires { 36 ≤ length bytes.now }
    ensures { IfOk result (λ after. IsInPart showing.now.stated.now (map callee_by showing.now.further.now) bytes.now fault.now
        (string_bytes after)) }
{
    let part = text_in_part(
        alloc,
        BlockText::Asl,
        showing.stated,
        showing.further,
        bytes,
    )?;
    let mut lines = error_line(alloc, fault)?;
    push_comment(part.as_str(), &mut lines)?;
    Ok(lines)
}

// Returns the text of a table's bytes. Bytes that are what their signature says have one, so the only error is that memory ran
// out.
fn table_text(alloc: Global, bare: bool, bytes: &[u8]) -> Result<Vec<u8>, AllocError>
    requires { IsKind (kind_of bytes.now) bytes.now }
    ensures { IfOk result (λ text. IsTextAs bare bytes.now text.items) }
{
    match text_as(alloc, bare, bytes) {
        Ok(text) => Ok(text),
        Err(_) => Err(AllocError),
    }
}

// Returns the header of a definition block and its ASL, or, if not all of its terms can be read, its bytes.
fn shown_block(
    alloc: Global,
    bare: bool,
    showing: &Showing<'_>,
    bytes: &[u8],
) -> Result<Shown, AllocError>
    requires kind { IsKind (kind_of bytes.now) bytes.now }
    requires size { 36 ≤ length bytes.now }
    ensures { IfOk result (λ shown. IsShownBy true bare showing.now.stated.now (map callee_by showing.now.further.now) bytes.now
        shown.text.items (string_bytes shown.after) shown.unread) }
{
    match text_of_block(
        alloc,
        BlockText::Asl,
        showing.stated,
        showing.further,
        bytes,
    ) {
        Ok(after) => {
            let text = header_text(alloc, bare, bytes)?;
            let unread = None;
            Ok(Shown {
                text,
                after,
                unread,
            })
        }
        Err(ReadError::Memory) => Err(AllocError),
        Err(error) => {
            let fault = Fault::after(BODY, error);
            let text = table_text(alloc, bare, bytes)?;
            let after = lines_in_part(alloc, showing, bytes, &fault)?;
            let unread = Some(fault);
            Ok(Shown {
                text,
                after,
                unread,
            })
        }
    }
}

// Returns what is printed without `--bytes`: a definition block as ASL, and any other table by its bytes.
fn shown_by(
    alloc: Global,
    bare: bool,
    showing: &Showing<'_>,
    bytes: &[u8],
) -> Result<Shown, AllocError>
    requires { IsKind (kind_of bytes.now) bytes.now }
    ensures { IfOk result (λ shown. IsShownBy (has_terms bytes.now) bare showing.now.stated.now
        (map callee_by showing.now.further.now) bytes.now shown.text.items (string_bytes shown.after) shown.unread) }
{
    if has_terms(bytes) {
        return shown_block(alloc, bare, showing, bytes);
    }
    let text = table_text(alloc, bare, bytes)?;
    let after = String::new(alloc);
    let unread = None;
    Ok(Shown {
        text,
        after,
        unread,
    })
}

// Returns what is printed with `--bytes`: a table by its bytes, and the terms of a definition block as comments.
fn shown_bytes(alloc: Global, stated: &Arities, bytes: &[u8]) -> Result<Shown, AllocError>
    requires { IsKind (kind_of bytes.now) bytes.now }
    ensures { IfOk result (λ shown. IsTextAs false bytes.now shown.text.items
        × IsAfter stated.now bytes.now (string_bytes shown.after) × (shown.unread ≡ None)) }
{
    let text = table_text(alloc, false, bytes)?;
    let after = lines_after(alloc, stated, bytes)?;
    let unread = None;
    Ok(Shown {
        text,
        after,
        unread,
    })
}

/// Returns what `show` prints of a table, a pointer or a control structure.
pub fn shown_as(alloc: Global, showing: &Showing<'_>, bytes: &[u8]) -> Result<Shown, AllocError>
    requires { IsKind (kind_of bytes.now) bytes.now }
    ensures { IfOk result (λ shown. IsShownAs showing.now.style showing.now.stated.now (map callee_by showing.now.further.now)
        bytes.now shown.text.items (string_bytes shown.after) shown.unread) }
{
    match showing.style {
        Style::Usual => shown_by(alloc, false, showing, bytes),
        Style::Bare => shown_by(alloc, true, showing, bytes),
        Style::Bytes => shown_bytes(alloc, showing.stated, bytes),
    }
}
