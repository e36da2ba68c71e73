//! Tables from texts, by their forms.

ghost use Rattle.std.specs.Prelude.{◌≡◌, ◌≢◌, length, string_bytes, IfOk, MatchOption};
ghost use Rattle.acpi_base.specs.Bytes.{carried};
ghost use Rattle.acpi_forms.specs.Makes.{file_kind_of, text_kind, IsMadeIn, IsToldIn, IsMadeAgain, IsSettled, IsHeaded};
ghost use Rattle.acpi_forms.specs.Makes.{another_in, heading_in, IsMadeAs, IsMade};
ghost use Rattle.acpi_forms.specs.Makes.{template_kind, signature_text, IsTemplateOf};

use crate::file::{form_by, walk_by};
use crate::form::form_of;
use crate::layout::{
    Layout, another_layout, form_as, heading_fault, layout_in, layout_made, layout_of_text,
    line_words, walk_as,
};
use acpi_base::further_walk::table_walk_of;
use acpi_make::fault::{Fault, MakeError, Wanted};
use acpi_make::file_kind::FileKind;
use acpi_make::item::{Item, has_bytes};
use acpi_make::make::{Made, make_of};
use acpi_make::read::read_text;
use acpi_make::signature::{begins_with_length, has_line, signature_of};
use acpi_make::template::template_of;
use std::alloc::{AllocError, Global};

// Returns what a signature is that of.
fn file_kind_of(signature: u32) -> FileKind
    ensures { result ≡ file_kind_of signature }
{
    if signature == u32::from_le_bytes(*b"RSD ") {
        FileKind::Rsdp
    } else if signature == u32::from_le_bytes(*b"FACS") {
        FileKind::Facs
    } else if signature == u32::from_le_bytes(*b"S3PT") {
        FileKind::S3pt
    } else {
        FileKind::Table
    }
}

// Returns what a text is that of, by the names of its fields and its signature.
fn text_kind(text: &[u8], items: &[Item], signature: u32) -> FileKind
    ensures { result ≡ text_kind text.now items.now signature }
{
    if begins_with_length(text, items) && has_line(b"Sequence", text, items) {
        FileKind::Cdat
    } else {
        file_kind_of(signature)
    }
}

// Returns what a template is that of.
fn template_kind(signature: u32) -> FileKind
    ensures { result ≡ template_kind signature }
{
    if signature == u32::from_le_bytes(*b"CDAT") {
        FileKind::Cdat
    } else {
        file_kind_of(signature)
    }
}

// Returns the table of a text by its kind, its signature and a layout.
fn make_in(
    alloc: Global,
    layout: Layout,
    signature: u32,
    text: &[u8],
    items: &[Item],
) -> Result<Made, MakeError>
    ensures { IsMadeIn layout signature text.now items.now result }
{
    let file_kind = text_kind(text, items, signature);
    let form = form_by(file_kind, form_as(layout, signature));
    let walk = walk_by(file_kind, walk_as(layout, signature));
    make_of(alloc, form, walk, file_kind, text, items)
}

// Returns an outcome with the fault of a line that a layout doesn't have, in place of any other fault.
fn tell_in(
    layout: Layout,
    signature: u32,
    outcome: Result<Made, MakeError>,
) -> Result<Made, MakeError>
    ensures { IsToldIn layout signature outcome result }
{
    match outcome {
        Err(MakeError::Fault(wrong)) => {
            let fault = Fault::next(wrong.from, wrong.to, line_words(layout, signature), 0);
            Err(MakeError::Fault(fault))
        }
        outcome => outcome,
    }
}

// Returns what comes of a text by the layout of its bytes.
fn make_again(
    alloc: Global,
    layout: Layout,
    signature: u32,
    text: &[u8],
    items: &[Item],
) -> Result<Made, MakeError>
    ensures { IsMadeAgain layout signature text.now items.now result }
{
    let outcome = make_in(alloc, layout, signature, text, items);
    tell_in(layout, signature, outcome)
}

// Returns a table whose bytes have the layout of its text, or what comes of the text by the layout of these bytes.
fn settle(
    alloc: Global,
    signature: u32,
    text: &[u8],
    items: &[Item],
    made: Made,
) -> Result<Made, MakeError>
    ensures { IsSettled (another_in signature text.now items.now made) signature text.now items.now made result }
{
    let stated = layout_of_text(signature, text, items);
    match another_layout(stated, layout_in(signature, &made.bytes)) {
        Some(layout) => make_again(alloc, layout, signature, text, items),
        None => Ok(made),
    }
}

// Returns a table, or the fault of a heading that is the name of the other layout.
fn headed(signature: u32, text: &[u8], items: &[Item], made: Made) -> Result<Made, MakeError>
    ensures { IsHeaded (heading_in signature text.now items.now made) made result }
{
    let stated = layout_of_text(signature, text, items);
    let layout = layout_made(stated, layout_in(signature, &made.bytes));
    match heading_fault(layout, signature, text, items) {
        Some(fault) => Err(MakeError::Fault(fault)),
        None => Ok(made),
    }
}

// Returns the table of a text by its kind and its signature.
fn make_as(alloc: Global, signature: u32, text: &[u8], items: &[Item]) -> Result<Made, MakeError>
    ensures { IsMadeAs signature text.now items.now result }
{
    let layout = layout_of_text(signature, text, items);
    let stated = make_in(alloc, layout, signature, text, items)?;
    let found = settle(alloc, signature, text, items, stated)?;
    headed(signature, text, items, found)
}

/// Returns the table that a text is made into: its bytes, and its own numbers that the text states otherwise. The form of the
/// table is that of its signature, and of its layout if the signature has two:
///
/// - The text of a RIMT that has a line `Offset to RIMT Node Array` is that of a table of the RISC-V specification.
/// - The text of a PMTT that has no line `Number of Memory Devices` is that of a table of revision 1.
/// - The text of a GTDT that has no line `Virtual EL2 Timer GSIV` is that of a table before revision 3.
///
/// If the bytes of the table have the other layout, the text has to be that of a table of this other one, too, as a text without
/// names is. Its first line isn't the name of a table of the layout that the table doesn't have.
///
/// A text whose first field is called `Length`, and that has a line `Sequence`, is that of a Coherent Device Attribute Table,
/// which has no signature. The error is that memory ran out, or what is wrong with the text, and where.
pub fn make(alloc: Global, text: &[u8]) -> Result<Made, MakeError>
    ensures { IsMade text.now result }
{
    let items = read_text(alloc, text)?;
    if !has_bytes(&items) {
        return Err(MakeError::Fault(Fault::new(0, 0, Wanted::Table)));
    }
    match signature_of(&items) {
        Some(signature) => make_as(alloc, signature, text, &items),
        None => make_as(alloc, 0, text, &items),
    }
}

// Returns the number of a signature of four bytes.
#[tactic(auto, using(crate::proofs::Signatures::carried_four))]
fn number_of(signature: &[u8]) -> Option<u32>
    ensures { MatchOption result (length signature.now ≢ 4) (λ number. number ≡ carried signature.now) }
{
    match signature {
        [a, b, c, d] => Some(u32::from_le_bytes([*a, *b, *c, *d])),
        _ => None,
    }
}

// Returns the signature in a template.
fn signature_text(file_kind: FileKind, signature: &str) -> &str
    ensures { result.now ≡ signature_text file_kind signature.now }
{
    match file_kind {
        FileKind::Table => signature,
        FileKind::Rsdp => "RSD PTR ",
        FileKind::Facs => signature,
        FileKind::Cdat => "",
        FileKind::S3pt => signature,
    }
}

/// Returns a text of the table of a signature of four bytes, for a start: a line for each field, with zeros, and one structure
/// of each kind. `CDAT` is taken for the signature of the table that has none. A signature that isn't known has the standard
/// header. There is no template of a text that hasn't four bytes. The only error is that memory ran out.
pub fn template(alloc: Global, signature: &str) -> Result<Option<String>, AllocError>
    ensures { IfOk result (λ found. MatchOption found (length signature.now ≢ 4)
        (λ text. IsTemplateOf signature.now (string_bytes text))) }
{
    let Some(number) = number_of(signature.as_bytes()) else {
        return Ok(None);
    };
    let file_kind = template_kind(number);
    let form = form_by(file_kind, form_of(number));
    let walk = walk_by(file_kind, table_walk_of(number));
    let first = signature_text(file_kind, signature);
    Ok(Some(template_of(alloc, first, file_kind, &form, walk)?))
}
