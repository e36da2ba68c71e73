//! The fields in which two tables differ. A function whose name begins with `push` adds to a text.

ghost use Rattle.std.specs.Prelude.{◌≡◌, ◌++◌, map, codes, IfOk, OnOk, string_bytes};
ghost use Rattle.std.specs.Fmt.{decimal};
ghost use Rattle.std.specs.Option.{option_copied, option_map};
ghost use Rattle.acpi_text.specs.Label.{label};
ghost use Rattle.acpi_rules.specs.Difference.{has_same_name, is_same, value, only_first, only_second, both, either, lines};
ghost use Rattle.acpi_rules.specs.Difference.{IsLongestEnd, AreLines};
ghost use Rattle.acpi_rules.specs.Field.{seen};

use crate::field::Field;
use acpi_text::hex::push_bytes;
use acpi_text::space::push_label;
use itoa::Buffer;
use std::alloc::{AllocError, Global};

// Returns whether two fields have the same name.
fn has_same_name(a: &Field<'_>, b: &Field<'_>) -> bool
    ensures { result ≡ has_same_name (seen a.now) (seen b.now) }
{
    a.name == b.name
}

// Returns whether two fields have the same name and the same bytes.
fn is_same(a: &Field<'_>, b: &Field<'_>) -> bool
    ensures { result ≡ is_same (seen a.now) (seen b.now) }
{
    has_same_name(a, b) && a.bytes == b.bytes
}

// Adds the offset and the name of a field.
fn push_front(field: &Field<'_>, text: &mut String) -> Result<(), AllocError>
    ensures { OnOk result (string_bytes text.new ≡ string_bytes text.old
        ++ (codes "at " ++ decimal (seen field.now).offset ++ codes ": " ++ label (seen field.now).name ++ codes ": ")) }
{
    text.push_str("at ")?;
    text.push_str(Buffer::new().format(field.offset))?;
    text.push_str(": ")?;
    push_label(field.name, text)?;
    text.push_str(": ")
}

// Adds the value of a field.
fn push_value(field: &Field<'_>, text: &mut String) -> Result<(), AllocError>
    ensures { OnOk result (string_bytes text.new ≡ string_bytes text.old ++ value (seen field.now)) }
{
    text.push_str("0x")?;
    push_bytes(field.bytes, text)
}

// Adds the line of a field that only the first table has.
fn push_only_first(field: &Field<'_>, text: &mut String) -> Result<(), AllocError>
    ensures { OnOk result (string_bytes text.new ≡ string_bytes text.old ++ only_first (seen field.now)) }
{
    push_front(field, text)?;
    push_value(field, text)?;
    text.push_str(", none\n")
}

// Adds the line of a field that only the second table has.
fn push_only_second(field: &Field<'_>, text: &mut String) -> Result<(), AllocError>
    ensures { OnOk result (string_bytes text.new ≡ string_bytes text.old ++ only_second (seen field.now)) }
{
    push_front(field, text)?;
    text.push_str("none, ")?;
    push_value(field, text)?;
    text.push_str("\n")
}

// Adds the lines of a field of each table.
fn push_both(a: &Field<'_>, b: &Field<'_>, text: &mut String) -> Result<(), AllocError>
    ensures { OnOk result (string_bytes text.new ≡ string_bytes text.old ++ both (seen a.now) (seen b.now)) }
{
    if is_same(a, b) {
        return Ok(());
    }
    if has_same_name(a, b) {
        push_front(a, text)?;
        push_value(a, text)?;
        text.push_str(", ")?;
        push_value(b, text)?;
        return text.push_str("\n");
    }
    push_only_first(a, text)?;
    push_only_second(b, text)
}

// Adds the lines of fields of both tables, or of one of them.
fn push_either(
    a: Option<&Field<'_>>,
    b: Option<&Field<'_>>,
    text: &mut String,
) -> Result<(), AllocError>
    ensures { OnOk result (string_bytes text.new ≡ string_bytes text.old
        ++ either (option_map seen (option_copied a.entry)) (option_map seen (option_copied b.entry))) }
{
    match (a, b) {
        (Some(a), Some(b)) => push_both(a, b, text),
        (Some(a), None) => push_only_first(a, text),
        (None, Some(b)) => push_only_second(b, text),
        (None, None) => Ok(()),
    }
}

// Returns how many fields both tables have in common at their ends.
fn end_of(a: &[Field<'_>], b: &[Field<'_>]) -> usize
    ensures { IsLongestEnd (map seen a.now) (map seen b.now) result }
{
    let mut count = 0;
    'fields: while count < a.len()
        && count < b.len()
        && is_same(&a[a.len() - 1 - count], &b[b.len() - 1 - count])
    {
        count += 1;
    }
    count
}

// Adds the lines of fields, pair by pair.
fn push_lines(a: &[Field<'_>], b: &[Field<'_>], text: &mut String) -> Result<(), AllocError>
    ensures { OnOk result (string_bytes text.new ≡ string_bytes text.old ++ lines (map seen a.now) (map seen b.now)) }
{
    let most = if a.len() < b.len() { b.len() } else { a.len() };
    'fields: for i in 0..most {
        push_either(a.get(i), b.get(i), text)?;
    }
    Ok(())
}

/// Returns the lines of the fields in which two tables differ, in their order: the offset and the name of a field, and its bytes
/// in each table in hexadecimal, the highest first, or `none`. Fields are compared pair by pair, but for the longest list of
/// fields with which both end: so fields that only one table has in its midst don't shift those after them. The only error is
/// that memory ran out.
pub fn differences_of(alloc: Global, a: &[Field<'_>], b: &[Field<'_>]) -> Result<String, AllocError>
    ensures { IfOk result (λ text. AreLines (map seen a.now) (map seen b.now) (string_bytes text)) }
{
    let end = end_of(a, b);
    let mut text = String::new(alloc);
    push_lines(&a[..a.len() - end], &b[..b.len() - end], &mut text)?;
    Ok(text)
}
