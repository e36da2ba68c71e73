//! A table as an object. A function whose name begins with `push` adds to a text.

ghost use Rattle.std.specs.Prelude.{◌≡◌, ◌+◌, ◌<◌, ◌^◌, ◌++◌, length, map, true, Some, IfOk, OnOk};
ghost use Rattle.acpi_json.specs.Table.{type_value, name_value, structure, elements, structures_list};
ghost use Rattle.acpi_json.specs.Table.{fields_member, structures_member, parts_members};
ghost use Rattle.acpi_json.specs.Table.{table as object};
ghost use Rattle.acpi_rules.specs.Field.{seen, parts_fields, content_fields, structures_of, structure_fields};
ghost use Rattle.acpi_json.specs.Field.{fields_list};
ghost use Rattle.acpi_text.specs.Structure.{all_forms};

use crate::field::push_fields;
use crate::number::push_size;
use crate::string::{push_digits_string, push_separator, push_string, push_text_string};
use acpi_base::walk::{Place, Walk};
use acpi_rules::field::Field;
use acpi_rules::part::push_parts;
use acpi_rules::rules::signature_of;
use acpi_rules::table::{push_content, push_structure as push_structure_fields};
use acpi_text::form::{Part, StructureForm, TableForm};
use acpi_text::inner::split_within;
use acpi_text::part::number_at;
use acpi_text::piece::find_form;
use acpi_text::size::front_size;
use acpi_text::table::start_of;
use std::alloc::{AllocError, Global};

// Adds the type of a structure, if it has one.
fn push_type(kind: Place, piece: &[u8], text: &mut Vec<u8>) -> Result<(), AllocError>
    ensures { OnOk result (text.new.items ≡ text.old.items ++ type_value kind piece.now) }
{
    match kind {
        Place::Nowhere => text.extend_from_slice(b"null"),
        place => push_size(number_at(place, piece), text),
    }
}

// Adds the name of a form, if there is one.
fn push_name(form: Option<StructureForm>, text: &mut Vec<u8>) -> Result<(), AllocError>
    ensures { OnOk result (text.new.items ≡ text.old.items ++ name_value form) }
{
    match form {
        Some(form) => push_string(form.name.as_bytes(), text),
        None => text.extend_from_slice(b"null"),
    }
}

// Adds the list of the fields of a structure.
fn push_structure_list(
    alloc: Global,
    kind: Place,
    table: &TableForm,
    at: usize,
    piece: &[u8],
    text: &mut Vec<u8>,
) -> Result<(), AllocError>
    requires { at + length piece.now < 2 ^ 64 }
    ensures { OnOk result (text.new.items ≡ text.old.items
        ++ fields_list (structure_fields kind (all_forms table.now) (record { offset = at; bytes = piece.now }))) }
{
    let mut fields = Vec::new(alloc);
    push_structure_fields(kind, table, at, piece, &mut fields)?;
    push_fields(&fields, text)
}

// Adds the object of a structure.
fn push_structure(
    alloc: Global,
    kind: Place,
    table: &TableForm,
    at: usize,
    piece: &[u8],
    text: &mut Vec<u8>,
) -> Result<(), AllocError>
    requires { at + length piece.now < 2 ^ 64 }
    ensures { OnOk result (text.new.items ≡ text.old.items
        ++ structure kind (all_forms table.now) (record { offset = at; bytes = piece.now })) }
{
    text.extend_from_slice(b"{\"offset\":")?;
    push_size(at, text)?;
    text.extend_from_slice(b",\"type\":")?;
    push_type(kind, piece, text)?;
    text.extend_from_slice(b",\"length\":")?;
    push_size(piece.len(), text)?;
    text.extend_from_slice(b",\"name\":")?;
    push_name(find_form(number_at(kind, piece), table), text)?;
    text.extend_from_slice(b",\"fields\":")?;
    push_structure_list(alloc, kind, table, at, piece, text)?;
    text.extend_from_slice(b"}")
}

// Adds the structures that stand one after another from `start` on as the elements of a list.
fn push_structures(
    alloc: Global,
    walk: &Walk,
    table: &TableForm,
    start: usize,
    bytes: &[u8],
    text: &mut Vec<u8>,
) -> Result<(), AllocError>
    requires { start + length bytes.now < 2 ^ 64 }
    ensures { OnOk result (text.new.items ≡ text.old.items
        ++ elements walk.now.kind (all_forms table.now) true (structures_of walk.now.sizes start bytes.now)) }
{
    let mut first = true;
    let mut at = start;
    let mut rest = bytes;
    'structures: while let Some(size) = front_size(walk.sizes, rest) {
        let (piece, more) = rest.split_at(size);
        push_separator(first, text)?;
        push_structure(alloc, walk.kind, table, at, piece, text)?;
        first = false;
        at += size;
        rest = more;
    }
    Ok(())
}

// Adds the list of the structures that stand one after another from `start` on.
fn push_structures_list(
    alloc: Global,
    walk: &Walk,
    table: &TableForm,
    start: usize,
    bytes: &[u8],
    text: &mut Vec<u8>,
) -> Result<(), AllocError>
    requires { start + length bytes.now < 2 ^ 64 }
    ensures { OnOk result (text.new.items ≡ text.old.items
        ++ structures_list walk.now.kind (all_forms table.now) (structures_of walk.now.sizes start bytes.now)) }
{
    text.extend_from_slice(b"[")?;
    push_structures(alloc, walk, table, start, bytes, text)?;
    text.extend_from_slice(b"]")
}

// Adds the member with the structures that stand one after another from `start` on.
fn push_structures_member(
    alloc: Global,
    walk: &Walk,
    table: &TableForm,
    start: usize,
    bytes: &[u8],
    text: &mut Vec<u8>,
) -> Result<(), AllocError>
    requires { start + length bytes.now < 2 ^ 64 }
    ensures { OnOk result (text.new.items ≡ text.old.items
        ++ structures_member walk.now table.now start bytes.now) }
{
    text.extend_from_slice(b",\"structures\":")?;
    push_structures_list(alloc, walk, table, start, bytes, text)
}

// Adds the member with fields.
fn push_fields_member(fields: &[Field<'_>], text: &mut Vec<u8>) -> Result<(), AllocError>
    ensures { OnOk result (text.new.items ≡ text.old.items ++ fields_member (map seen fields.now)) }
{
    text.extend_from_slice(b",\"fields\":")?;
    push_fields(fields, text)
}

// Adds the member with the fields of parts.
fn push_parts_member(
    alloc: Global,
    parts: &[Part],
    bytes: &[u8],
    text: &mut Vec<u8>,
) -> Result<(), AllocError>
    ensures { OnOk result (text.new.items ≡ text.old.items ++ fields_member (parts_fields parts.now 0 bytes.now)) }
{
    let mut fields = Vec::new(alloc);
    push_parts(parts, 0, bytes, &mut fields)?;
    push_fields_member(&fields, text)
}

// Adds the member with the fields of a table that has no walk.
fn push_content_member(
    alloc: Global,
    form: &TableForm,
    bytes: &[u8],
    text: &mut Vec<u8>,
) -> Result<(), AllocError>
    ensures { OnOk result (text.new.items
        ≡ text.old.items ++ fields_member (content_fields form.now.parts.now form.now.inner.now 0 bytes.now)) }
{
    let mut fields = Vec::new(alloc);
    push_content(form.parts, form.inner, 0, bytes, &mut fields)?;
    push_fields_member(&fields, text)
}

// Adds the members with the fields and the structures of a table that has a walk.
fn push_walked(
    alloc: Global,
    form: &TableForm,
    walk: &Walk,
    bytes: &[u8],
    text: &mut Vec<u8>,
) -> Result<(), AllocError>
    ensures { OnOk result (text.new.items ≡ text.old.items ++ parts_members form.now (Some walk.now) bytes.now) }
{
    let (front, others) = split_within(start_of(walk, bytes), bytes);
    push_parts_member(alloc, form.parts, front, text)?;
    push_structures_member(alloc, walk, form, front.len(), others, text)?;
    Ok(())
}

// Adds the members with the fields and the structures of a table.
fn push_members(
    alloc: Global,
    form: &TableForm,
    walk: Option<Walk>,
    bytes: &[u8],
    text: &mut Vec<u8>,
) -> Result<(), AllocError>
    ensures { OnOk result (text.new.items ≡ text.old.items ++ parts_members form.now walk bytes.now) }
{
    match walk {
        Some(walk) => push_walked(alloc, form, &walk, bytes, text),
        None => {
            push_content_member(alloc, form, bytes, text)?;
            text.extend_from_slice(b",\"structures\":[]")
        }
    }
}

/// Returns the object of a table in a file of this name, by a form, and by a walk if the form has structures. The only error is
/// that memory ran out.
pub fn table_object(
    alloc: Global,
    file: &str,
    form: &TableForm,
    walk: Option<Walk>,
    bytes: &[u8],
) -> Result<Vec<u8>, AllocError>
    ensures { IfOk result (λ text. text.items ≡ object file.now form.now walk bytes.now) }
{
    let mut text = Vec::new(alloc);
    text.extend_from_slice(b"{\"file\":")?;
    push_text_string(file, &mut text)?;
    text.extend_from_slice(b",\"signature\":")?;
    push_string(signature_of(bytes), &mut text)?;
    text.extend_from_slice(b",\"length\":")?;
    push_size(bytes.len(), &mut text)?;
    text.extend_from_slice(b",\"name\":")?;
    push_string(form.name.as_bytes(), &mut text)?;
    push_members(alloc, form, walk, bytes, &mut text)?;
    text.extend_from_slice(b",\"bytes\":")?;
    push_digits_string(bytes, &mut text)?;
    text.extend_from_slice(b"}")?;
    Ok(text)
}
