//! The connections of fields, and how fields are accessed (ACPI 6.5, 19.6.1 and 19.6.15). A function whose name begins with
//! `push` adds to a text.

ghost use Rattle.std.specs.Prelude.{◌≡◌, ◌++◌, true, length, codes, OnOk, string_bytes};
ghost use Rattle.acpi_asl.specs.Connection.{access_front, access_text, extended_text, extended_access_text, is_macro};
ghost use Rattle.acpi_asl.specs.Connection.{raw_text, buffer_text, connection_text};
ghost use Rattle.acpi_asl.specs.Name.{asl_name};
ghost use Rattle.acpi_asl.specs.Number.{hex, number_text};
ghost use Rattle.acpi_asl.specs.Template.{listed_bytes};

use crate::item::{is_known, push_item};
use crate::list::push_bytes;
use crate::name::push_name;
use crate::number::{least_bytes, push_hex, push_number};
use crate::word::{Keyword, push_keyword};
use acpi_term::name_string::NameString;
use std::alloc::AllocError;

#[tactic(auto, using(acpi_read::proofs::Texts::after_three))]
fn push_front(access: u8, text: &mut String) -> Result<(), AllocError>
    ensures { OnOk result (string_bytes text.new ≡ string_bytes text.old ++ access_front access) }
{
    text.push_str("AccessAs (")?;
    push_keyword(Keyword::AccessType, access, text)?;
    text.push_str(", ")
}

/// Adds an access type and an attribute.
#[tactic(auto, using(acpi_read::proofs::Texts::after_three))]
pub fn push_access(access: u8, attribute: u8, text: &mut String) -> Result<(), AllocError>
    ensures { OnOk result (string_bytes text.new ≡ string_bytes text.old ++ access_text access attribute) }
{
    push_front(access, text)?;
    push_keyword(Keyword::AccessAttribute, attribute, text)?;
    text.push_str(")")
}

#[tactic(auto, using(acpi_read::proofs::Texts::after_four))]
fn push_extended(attribute: u8, size: u8, text: &mut String) -> Result<(), AllocError>
    ensures { OnOk result (string_bytes text.new ≡ string_bytes text.old ++ extended_text attribute size) }
{
    push_keyword(Keyword::ExtendedAttribute, attribute, text)?;
    text.push_str(" (")?;
    push_hex(1, u64::from(size), text)?;
    text.push_str("))")
}

/// Adds an access type and an attribute with a length.
#[tactic(auto, using(acpi_read::proofs::Texts::after_two))]
pub fn push_extended_access(
    access: u8,
    attribute: u8,
    size: u8,
    text: &mut String,
) -> Result<(), AllocError>
    ensures { OnOk result (string_bytes text.new ≡ string_bytes text.old ++ extended_access_text access attribute size) }
{
    push_front(access, text)?;
    push_extended(attribute, size, text)
}

// Whether a buffer of this size, a number of this many bytes, is what the macro of a descriptor makes.
fn is_macro(size: u64, width: u8, bytes: &[u8]) -> bool
    ensures { result ≡ is_macro size width bytes.now }
{
    size == bytes.len() as u64 && width == least_bytes(bytes.len() as u64) && is_known(bytes)
}

#[tactic(auto, using(acpi_read::proofs::Texts::after_three))]
fn push_size(size: u64, width: u8, text: &mut String) -> Result<(), AllocError>
    ensures { OnOk result (string_bytes text.new ≡ string_bytes text.old
        ++ (codes "Buffer (" ++ number_text size width ++ codes ") {")) }
{
    text.push_str("Buffer (")?;
    push_number(size, width, text)?;
    text.push_str(") {")
}

#[tactic(auto, using(acpi_read::proofs::Texts::after_three))]
fn push_raw(size: u64, width: u8, bytes: &[u8], text: &mut String) -> Result<(), AllocError>
    ensures { OnOk result (string_bytes text.new ≡ string_bytes text.old ++ raw_text size width bytes.now) }
{
    push_size(size, width, text)?;
    push_bytes(bytes, text)?;
    text.push_str("}")
}

fn push_buffer(size: u64, width: u8, bytes: &[u8], text: &mut String) -> Result<(), AllocError>
    ensures { OnOk result (string_bytes text.new ≡ string_bytes text.old ++ buffer_text size width bytes.now) }
{
    if is_macro(size, width, bytes) {
        return push_item(bytes, bytes.len(), text);
    }
    push_raw(size, width, bytes, text)
}

fn push_last_name(name: &NameString, text: &mut String) -> Result<(), AllocError>
    ensures { OnOk result (string_bytes text.new ≡ string_bytes text.old ++ (asl_name name.now ++ codes ")")) }
{
    push_name(name, text)?;
    text.push_str(")")
}

/// Adds a connection that has a name.
pub fn push_connection(name: &NameString, text: &mut String) -> Result<(), AllocError>
    ensures { OnOk result (string_bytes text.new ≡ string_bytes text.old ++ connection_text (asl_name name.now)) }
{
    text.push_str("Connection (")?;
    push_last_name(name, text)?;
    Ok(())
}

/// Adds a connection of a buffer of this size, a number of this many bytes.
#[tactic(auto, using(acpi_read::proofs::Texts::after_three))]
pub fn push_connection_buffer(
    size: u64,
    width: u8,
    bytes: &[u8],
    text: &mut String,
) -> Result<(), AllocError>
    ensures { OnOk result (string_bytes text.new ≡ string_bytes text.old
        ++ connection_text (buffer_text size width bytes.now)) }
{
    text.push_str("Connection (")?;
    push_buffer(size, width, bytes, text)?;
    text.push_str(")")
}
