//! Resource templates. A function whose name begins with `push` adds to a text.

ghost use Rattle.std.specs.Prelude.{◌≡◌, ◌++◌, ◌∷◌, ◌&&◌, suc, false, length, take, codes, OnOk, string_bytes};
ghost use Rattle.acpi_asl.specs.Place.{new_line};
ghost use Rattle.acpi_asl.specs.Template.{found, is_found, is_zero_alone, begins_group, ends_groups};
ghost use Rattle.acpi_asl.specs.Template.{is_inside, may_follow};
ghost use Rattle.acpi_asl.specs.Template.{is_template, group_closes, group_opens, front_text, item_text};
ghost use Rattle.acpi_asl.specs.Template.{items_text, template_text};

use crate::item::{is_known, push_item};
use crate::place::{Body, push_closed, push_line, push_opened};
use acpi_base::slice::from_offset;
use acpi_terms_text::descriptor::item_size;
use std::alloc::AllocError;

fn is_zero_alone(bytes: &[u8]) -> bool
    ensures { result ≡ is_zero_alone bytes.now }
{
    match bytes {
        [byte] => *byte == 0,
        _ => false,
    }
}

fn item(bytes: &[u8], size: usize) -> &[u8]
    ensures { result.now ≡ take size bytes.now }
{
    &bytes[..size.min(bytes.len())]
}

// Whether the items after one with this tag are in braces.
fn begins_group(tag: u8) -> bool
    ensures { result ≡ begins_group tag }
{
    tag == 0x30 || tag == 0x31
}

fn ends_groups(tag: u8) -> bool
    ensures { result ≡ ends_groups tag }
{
    tag == 0x38
}

// Whether the item after one with this tag is in braces.
fn is_inside(inside: bool, tag: u8) -> bool
    ensures { result ≡ is_inside inside tag }
{
    begins_group(tag) || (!ends_groups(tag) && inside)
}

// Whether a macro writes the item at the front, and it may stand there.
fn goes_on(inside: bool, tag: u8, bytes: &[u8], size: usize) -> bool
    ensures { result ≡ (may_follow inside tag && is_found (found (take size bytes.now))) }
{
    (inside || !ends_groups(tag)) && is_known(item(bytes, size))
}

/// Whether bytes are items that are written by macros, and the end tag.
pub fn is_template(bytes: &[u8]) -> bool
    ensures { result ≡ is_template false 0 bytes.now }
{
    let mut rest = bytes;
    let mut inside = false;
    'items: while let Some((tag, more)) = rest.split_first() {
        if *tag == 0x79 {
            return !inside && is_zero_alone(more);
        }
        let size = item_size(*tag, more);
        if !goes_on(inside, *tag, rest, size) {
            return false;
        }
        rest = from_offset(size, rest);
        inside = is_inside(inside, *tag);
    }
    false
}

// Adds the brace after a group, if an item is in one.
fn push_end(depth: usize, inside: bool, text: &mut String) -> Result<(), AllocError>
    ensures { OnOk result (string_bytes text.new ≡ string_bytes text.old ++ group_closes depth inside) }
{
    if !inside {
        return Ok(());
    }
    push_closed(Body::Rows, depth, text)
}

// Adds the brace before a group, if this tag begins one.
fn push_start(depth: usize, tag: u8, text: &mut String) -> Result<(), AllocError>
    ensures { OnOk result (string_bytes text.new ≡ string_bytes text.old ++ group_opens depth tag) }
{
    if !begins_group(tag) {
        return Ok(());
    }
    push_opened(Body::Rows, depth, text)
}

// Adds a line deeper than a depth.
fn push_deeper(depth: usize, text: &mut String) -> Result<(), AllocError>
    ensures { OnOk result (string_bytes text.new ≡ string_bytes text.old ++ new_line (suc depth)) }
{
    // No memory has room for an indentation of this depth.
    let Some(inner) = depth.checked_add(1) else {
        return Err(AllocError);
    };
    push_line(inner, text)
}

// Adds the line of an item with this tag, before its macro.
fn push_front(depth: usize, inside: bool, tag: u8, text: &mut String) -> Result<(), AllocError>
    ensures { OnOk result (string_bytes text.new ≡ string_bytes text.old ++ front_text depth inside tag) }
{
    if begins_group(tag) || ends_groups(tag) {
        push_end(depth, inside, text)?;
        return push_line(depth, text);
    }
    if inside {
        return push_deeper(depth, text);
    }
    push_line(depth, text)
}

// Adds the item at the front, on a new line.
#[tactic(auto, using(acpi_read::proofs::Texts::after_three))]
fn push_item_line(
    tags: u32,
    depth: usize,
    inside: bool,
    tag: u8,
    bytes: &[u8],
    size: usize,
    text: &mut String,
) -> Result<(), AllocError>
    ensures { OnOk result (string_bytes text.new ≡ string_bytes text.old
        ++ item_text tags depth inside tag (take size bytes.now) bytes.now) }
{
    push_front(depth, inside, tag, text)?;
    push_item(item(bytes, size), tags as usize + bytes.len(), text)?;
    push_start(depth, tag, text)
}

fn push_items(tags: u32, depth: usize, bytes: &[u8], text: &mut String) -> Result<(), AllocError>
    ensures { OnOk result (string_bytes text.new ≡ string_bytes text.old ++ items_text tags depth false 0 bytes.now) }
{
    let mut rest = bytes;
    let mut inside = false;
    'items: while let Some((tag, more)) = rest.split_first() {
        if *tag == 0x79 {
            return Ok(());
        }
        let size = item_size(*tag, more);
        push_item_line(tags, depth, inside, *tag, rest, size, text)?;
        rest = from_offset(size, rest);
        inside = is_inside(inside, *tag);
    }
    Ok(())
}

/// Adds the template of these bytes at a depth. Its tags count from a number.
#[inline(never)]
pub fn push_template(
    tags: u32,
    depth: usize,
    bytes: &[u8],
    text: &mut String,
) -> Result<(), AllocError>
    ensures { OnOk result (string_bytes text.new ≡ string_bytes text.old ++ template_text tags depth bytes.now) }
{
    // No memory has room for an indentation of this depth.
    let Some(inner) = depth.checked_add(1) else {
        return Err(AllocError);
    };
    text.push_str("ResourceTemplate ()")?;
    push_opened(Body::Rows, depth, text)?;
    push_items(tags, inner, bytes, text)?;
    push_closed(Body::Rows, depth, text)?;
    Ok(())
}
