//! Fields as objects. A function whose name begins with `push` adds to a text.

ghost use Rattle.std.specs.Prelude.{◌≡◌, ◌++◌, map, true, OnOk};
ghost use Rattle.acpi_json.specs.Field.{place, content, field as object, elements, fields_list};
ghost use Rattle.acpi_rules.specs.Field.{seen};

use crate::number::push_size;
use crate::string::{push_separator, push_string};
use crate::value::{push_meaning, push_value};
use acpi_rules::field::Field;
use std::alloc::AllocError;

// Adds the members with the offset, the width and the name of a field.
fn push_place(field: &Field<'_>, text: &mut Vec<u8>) -> Result<(), AllocError>
    ensures { OnOk result (text.new.items ≡ text.old.items ++ place (seen field.now)) }
{
    text.extend_from_slice(b"\"offset\":")?;
    push_size(field.offset, text)?;
    text.extend_from_slice(b",\"width\":")?;
    push_size(field.bytes.len(), text)?;
    text.extend_from_slice(b",\"name\":")?;
    push_string(field.name.as_bytes(), text)
}

// Adds the members with the value of a field, and what it means.
fn push_content(field: &Field<'_>, text: &mut Vec<u8>) -> Result<(), AllocError>
    ensures { OnOk result (text.new.items ≡ text.old.items ++ content (seen field.now)) }
{
    text.extend_from_slice(b",\"value\":")?;
    push_value(field.look, field.width, field.bytes, text)?;
    push_meaning(field.look, field.width, field.bytes, text)
}

// Adds the object of a field.
fn push_field(field: &Field<'_>, text: &mut Vec<u8>) -> Result<(), AllocError>
    ensures { OnOk result (text.new.items ≡ text.old.items ++ object (seen field.now)) }
{
    text.extend_from_slice(b"{")?;
    push_place(field, text)?;
    push_content(field, text)?;
    text.extend_from_slice(b"}")
}

// Adds fields as the elements of a list.
fn push_elements(fields: &[Field<'_>], text: &mut Vec<u8>) -> Result<(), AllocError>
    ensures { OnOk result (text.new.items ≡ text.old.items ++ elements true (map seen fields.now)) }
{
    let mut first = true;
    'fields: for field in fields {
        push_separator(first, text)?;
        push_field(field, text)?;
        first = false;
    }
    Ok(())
}

/// Adds the list of fields.
pub fn push_fields(fields: &[Field<'_>], text: &mut Vec<u8>) -> Result<(), AllocError>
    ensures { OnOk result (text.new.items ≡ text.old.items ++ fields_list (map seen fields.now)) }
{
    text.extend_from_slice(b"[")?;
    push_elements(fields, text)?;
    text.extend_from_slice(b"]")
}
