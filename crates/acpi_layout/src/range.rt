//! Ranges of memory.

ghost use Rattle.std.specs.Prelude.{◌≡◌, ◌<◌, ◌≤◌, [], length, slice_index_or, IfOk, IfErr, OnOk, OnErr};
ghost use Rattle.acpi_layout.specs.Addresses.{Lies, bytes_at, part, LiesIn, bytes_in, part_of, holds, memory_of};
ghost use Rattle.acpi_layout.specs.declared.range.Range.{Range};
ghost use Rattle.acpi_layout.specs.Found.{contents};

use crate::fault::ImageFault;
use crate::located::Located;

/// A range of physical memory. The ranges of a memory don't overlap: an address is looked up in the first range that holds it.
#[repr(C)]
#[derive(Clone, Copy, Debug)]
pub struct Range<'a> {
    /// The physical address of its first byte.
    pub address: u64,
    /// Its bytes.
    pub bytes: &'a [u8],
}

// Whether an address is that of a byte of a range.
fn holds(range: &Range<'_>, address: u64) -> bool
    ensures { result ≡ holds range.now address }
{
    if address < range.address {
        return false;
    }
    address - range.address < range.bytes.len() as u64
}

// The bytes of a range from an address on.
fn bytes_from<'a>(range: &Range<'a>, address: u64, size: u32) -> Result<&'a [u8], ImageFault>
    ensures ok { IfOk result (λ part. part.now ≡ bytes_at range.now.address range.now.bytes.now address size) }
    ensures size { IfOk result (λ part. length part.now ≡ size) }
    ensures lies { OnOk result (Lies range.now.address range.now.bytes.now address size) }
    ensures err { OnErr result (¬ Lies range.now.address range.now.bytes.now address size) }
    ensures fault { IfErr result (λ e. e ≡ ImageFault.Outside address) }
{
    if address < range.address {
        return Err(ImageFault::Outside(address));
    }
    let offset = address - range.address;
    let count = range.bytes.len() as u64;
    if offset > count || size as u64 > count - offset {
        return Err(ImageFault::Outside(address));
    }
    let offset = offset as usize;
    Ok(&range.bytes[offset..offset + size as usize])
}

// The bytes of a range from an address on, which lie there.
fn bytes_there<'a>(range: &Range<'a>, address: u64, size: u32) -> &'a [u8]
    requires { Lies range.now.address range.now.bytes.now address size }
    ensures is { result.now ≡ bytes_at range.now.address range.now.bytes.now address size }
    ensures size { length result.now ≡ size }
{
    let offset = (address - range.address) as usize;
    &range.bytes[offset..offset + size as usize]
}

// The place of the range that an address is looked up in: the first that holds it, or else the last. It is 0 if there is none.
fn place_of(ranges: &[Range<'_>], address: u64) -> usize
    ensures some { (d : Range) → result < length ranges.now
        → memory_of ranges.now address ≡ part_of (slice_index_or ranges.now result d) }
    ensures none { length ranges.now ≤ result → memory_of ranges.now address ≡ part 0 [] }
{
    if ranges.is_empty() {
        return 0;
    }
    let last = ranges.len() - 1;
    for place in 0..last {
        if holds(&ranges[place], address) {
            return place;
        }
    }
    last
}

// The range that an address is looked up in.
fn range_at<'a>(ranges: &[Range<'a>], address: u64) -> Range<'a>
    ensures { part_of result ≡ memory_of ranges.now address }
{
    let place = place_of(ranges, address);
    if place < ranges.len() {
        return ranges[place];
    }
    Range {
        address: 0,
        bytes: &[],
    }
}

// The bytes from an address on.
pub(crate) fn part<'a>(
    ranges: &[Range<'a>],
    address: u64,
    size: u32,
) -> Result<&'a [u8], ImageFault>
    ensures ok { IfOk result (λ part. part.now ≡ bytes_in (memory_of ranges.now) address size) }
    ensures size { IfOk result (λ part. length part.now ≡ size) }
    ensures lies { OnOk result (LiesIn (memory_of ranges.now) address size) }
    ensures err { OnErr result (¬ LiesIn (memory_of ranges.now) address size) }
    ensures fault { IfErr result (λ e. e ≡ ImageFault.Outside address) }
{
    let range = range_at(ranges, address);
    bytes_from(&range, address, size)
}

// All bytes of a table.
pub(crate) fn contents<'a>(ranges: &[Range<'a>], table: Located) -> &'a [u8]
    requires { LiesIn (memory_of ranges.now) table.address table.length }
    ensures is { result.now ≡ contents (memory_of ranges.now) table }
    ensures size { length result.now ≡ table.length }
{
    let range = range_at(ranges, table.address);
    bytes_there(&range, table.address, table.length)
}
