//! Buffers.

ghost use Rattle.std.specs.Prelude.{◌≡◌, ◌≤◌, [], ◌∷◌, take, map};
ghost use Rattle.acpi_base.specs.Number.{number};
ghost use Rattle.acpi_base.specs.Object.{Builds};
ghost use Rattle.acpi_term.specs.Made.{Makes};
ghost use Rattle.acpi_term.specs.Tree.{def_buffer};
ghost use Rattle.acpi_term.specs.Row.{row};
ghost use Rattle.acpi_term.specs.Template.{buffer_of_bytes, template};

use crate::written::Written;
use acpi_base::buffer::append_all;
use acpi_base::error::R;
use acpi_base::object::Aml;
use acpi_term::row::{frame_length, framed, insert, with_room};
use std::alloc::Global;

/// A buffer whose size and bytes an object writes (ACPI 6.5, 20.2.5.4, DefBuffer).
pub type BufferTerm = Written<DefBuffer>;

pub struct DefBuffer;

impl BufferTerm {
    /// `content` writes the size and then the bytes. The error is that of `content`, or `PkgLength` from 2^28 bytes on.
    pub fn new(alloc: Global, content: &dyn Aml) -> R<BufferTerm>
        ensures { Builds result (row (def_buffer []) (object content.now ∷ [])) }
    {
        let before = with_room(alloc, &[])?;
        let bytes = framed(&[0x11], before, &[content], &[])?;
        Ok(Written::of(bytes))
    }
}

/// A buffer of bytes, with their number as its size (ACPI 6.5, 20.2.5.4, DefBuffer).
pub type BufferData = Written<ByteList>;

pub struct ByteList;

impl BufferData {
    /// The error is `PkgLength` from 2^28 bytes on.
    pub fn new(content: Vec<u8>) -> R<BufferData>
        ensures { Builds result (buffer_of_bytes content.items) }
    {
        let bytes = buffer_of_bytes(content)?;
        Ok(Written::of(bytes))
    }
}

// Makes a buffer of the bytes in a vector, which are moved up once.
fn buffer_of_bytes(content: Vec<u8>) -> R<Vec<u8>>
    ensures { Makes result (buffer_of_bytes content.items) }
{
    let (size, digits) = number_bytes(content.len() as u64);
    let ([a, b, c, d], used) = frame_length(digits + content.len())?;
    let mut bytes = content;
    insert(
        &mut bytes,
        0,
        &[0x11, a, b, c, d][..1 + used],
        &size[..digits],
    )?;
    Ok(bytes)
}

// A number in its shortest form, and how many bytes n it has: it is the first n of the nine bytes.
fn number_bytes(value: u64) -> ([u8; 9], usize)
    ensures within { result.1 ≤ 9 }
    ensures is { take result.1 result.0 ≡ number value }
{
    let [a, b, c, d, e, f, g, h] = value.to_le_bytes();
    match value {
        0..=1 => ([a, 0, 0, 0, 0, 0, 0, 0, 0], 1),
        2..=0xff => ([0x0a, a, 0, 0, 0, 0, 0, 0, 0], 2),
        0x100..=0xffff => ([0x0b, a, b, 0, 0, 0, 0, 0, 0], 3),
        0x1_0000..=0xffff_ffff => ([0x0c, a, b, c, d, 0, 0, 0, 0], 5),
        _ => ([0x0e, a, b, c, d, e, f, g, h], 9),
    }
}

/// A buffer of resource descriptors and an end tag (ACPI 6.5, 19.6.117 and 6.4.2.9).
pub type ResourceTemplate = Written<ResourceDescriptors>;

pub struct ResourceDescriptors;

impl ResourceTemplate {
    /// The descriptors are borrowed for the call. The error is that of the first descriptor that fails, or `PkgLength` from 2^28
    /// bytes on. The end tag's checksum is 0, which means that it isn't checked.
    pub fn new(children: Vec<&dyn Aml>) -> R<ResourceTemplate>
        ensures { Builds result (template (map (λ child. object child.now) children.entry.items)) }
    {
        let mut content = with_room(*children.allocator(), &[])?;
        append_all(&children, &mut content)?;
        content.extend_from_slice(&[0x79, 0x00])?;
        let bytes = buffer_of_bytes(content)?;
        Ok(Written::of(bytes))
    }
}
