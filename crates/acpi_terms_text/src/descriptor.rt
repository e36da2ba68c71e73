//! The names of resource descriptors (ACPI 6.5, 6.4.2 and 6.4.3). A function whose name begins with `push` adds to a text.

ghost use Rattle.std.specs.Prelude.{◌≡◌, ◌<◌, ◌^◌, ◌++◌, ◌∷◌, OnOk, string_bytes};
ghost use Rattle.acpi_terms_text.specs.Descriptor.{large_length, item_size, item_type, names, is_space, space_names};
ghost use Rattle.acpi_terms_text.specs.Descriptor.{or_space, space_name, name_end, is_template, template_text};
ghost use Rattle.acpi_terms_text.specs.Word.{word_in};

use crate::word::word_in;
use acpi_base::slice::from_offset;
use std::alloc::AllocError;

/// The types of items, and the names of their descriptors.
const NAMES: [(u8, &str); 26] = [
    (0x20, "IRQ"),
    (0x28, "DMA"),
    (0x30, "StartDependentFn"),
    (0x38, "EndDependentFn"),
    (0x40, "IO"),
    (0x48, "FixedIO"),
    (0x50, "FixedDMA"),
    (0x70, "VendorShort"),
    (0x81, "Memory24"),
    (0x82, "Register"),
    (0x84, "VendorLong"),
    (0x85, "Memory32"),
    (0x86, "Memory32Fixed"),
    (0x87, "DWord"),
    (0x88, "Word"),
    (0x89, "ExtendedInterrupt"),
    (0x8a, "QWord"),
    (0x8b, "Extended"),
    (0x8c, "GpioConnection"),
    (0x8d, "PinFunction"),
    (0x8e, "SerialBusConnection"),
    (0x8f, "PinConfiguration"),
    (0x90, "PinGroup"),
    (0x91, "PinGroupFunction"),
    (0x92, "PinGroupConfiguration"),
    (0x93, "ClockInput"),
];

/// The resource types of address spaces.
const SPACES: [(u8, &str); 3] = [(0, "Memory"), (1, "IO"), (2, "BusNumber")];

// Returns the number after the tag of a large item.
fn large_length(bytes: &[u8]) -> usize
    ensures is { result ≡ large_length bytes.now }
    ensures small { result < 2 ^ 16 }
{
    match bytes {
        [low, high, ..] => usize::from(*low) + 256 * usize::from(*high),
        _ => 0,
    }
}

/// Returns the size of the item that begins with a tag and these bytes (ACPI 6.5, 6.4).
pub fn item_size(tag: u8, more: &[u8]) -> usize
    ensures { result ≡ item_size (tag ∷ more.now) }
{
    if tag < 128 {
        1 + usize::from(tag % 8)
    } else {
        3 + large_length(more)
    }
}

// Returns a tag without the length in it.
fn item_type(tag: u8) -> u8
    ensures { result ≡ item_type tag }
{
    if tag < 128 { tag - tag % 8 } else { tag }
}

// Returns the name of a descriptor, or the first part of an address space's.
fn type_name(kind: u8) -> &'static str
    ensures { result.now ≡ word_in names kind }
{
    word_in(&NAMES, kind)
}

fn is_space(kind: u8) -> bool
    ensures { result ≡ is_space kind }
{
    (0x87..=0x8b).contains(&kind) && kind != 0x89
}

// Returns the name of a resource type.
fn kind_name(kind: u8) -> &'static str
    ensures { result.now ≡ or_space (word_in space_names kind) }
{
    let name = word_in(&SPACES, kind);
    if name.is_empty() { "Space" } else { name }
}

// Returns the name of an address space's resource type.
fn space_name(item: &[u8]) -> &'static str
    ensures { result.now ≡ space_name item.now }
{
    match item {
        [_, _, _, kind, ..] => kind_name(*kind),
        _ => "Space",
    }
}

// The rest of an item's name, after the name of its type.
fn name_end(tag: u8, bytes: &[u8], size: usize) -> &'static str
    ensures { result.now ≡ name_end tag size bytes.now }
{
    if !is_space(item_type(tag)) {
        return "";
    }
    space_name(&bytes[..size.min(bytes.len())])
}

/// Returns whether bytes are items that have names, and the end tag.
pub fn is_template(bytes: &[u8]) -> bool
    ensures { result ≡ is_template 0 bytes.now }
{
    let mut rest = bytes;
    'items: while let Some((tag, more)) = rest.split_first() {
        if *tag == 0x79 {
            return more.len() == 1;
        }
        if type_name(item_type(*tag)).is_empty() {
            return false;
        }
        rest = from_offset(item_size(*tag, more), rest);
    }
    false
}

/// Adds the names of the items of a template.
pub fn push_template(bytes: &[u8], text: &mut String) -> Result<(), AllocError>
    ensures { OnOk result (string_bytes text.new ≡ string_bytes text.old ++ template_text 0 bytes.now) }
{
    let mut rest = bytes;
    'items: while let Some((tag, more)) = rest.split_first() {
        if *tag == 0x79 {
            return text.push_str("EndTag");
        }
        let size = item_size(*tag, more);
        text.push_str(type_name(item_type(*tag)))?;
        text.push_str(name_end(*tag, rest, size))?;
        text.push_str(", ")?;
        rest = from_offset(size, rest);
    }
    Ok(())
}
