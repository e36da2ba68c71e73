//! The numbers of a table that aren't right.

ghost use Rattle.std.specs.Prelude.{◌≡◌, ◌%◌, ◌++◌, sum, take, OnOk, IfOk};
ghost use Rattle.acpi_make.specs.Notes.{begins_with, is_untrue, untrue, listed, untrue_sum, untrue_sums, notes};
ghost use Rattle.acpi_make.specs.Right.{with_numbers};
ghost use Rattle.acpi_make.specs.declared.file_kind.FileKind.TheVariants.{Rsdp};

use crate::complete::front;
use crate::extent::Own;
use crate::file_kind::FileKind;
use crate::right::set_numbers;
use std::alloc::{AllocError, Global};

// Returns whether bytes begin with `width` bytes of this number, lowest first.
fn begins_with(width: usize, number: usize, bytes: &[u8]) -> bool
    ensures { result ≡ begins_with width number bytes.now }
{
    let mut left = width;
    let mut number_left = number;
    let mut bytes_left = bytes;
    'bytes: while left > 0 {
        left -= 1;
        let Some((byte, more)) = bytes_left.split_first() else {
            return false;
        };
        if usize::from(*byte) != number_left % 256 {
            return false;
        }
        number_left /= 256;
        bytes_left = more;
    }
    number_left == 0
}

/// Returns whether all bytes of a number's field are there, and it is another number.
pub fn is_untrue(own: &Own, bytes: &[u8]) -> bool
    ensures { result ≡ is_untrue own.now bytes.now }
{
    let field = if own.offset < bytes.len() {
        &bytes[own.offset..]
    } else {
        &[]
    };
    own.width <= field.len() && !begins_with(own.width, own.number, field)
}

// Returns the numbers that aren't in their fields.
fn untrue(alloc: Global, owns: &[Own], bytes: &[u8]) -> Result<Vec<Own>, AllocError>
    ensures { IfOk result (λ list. list.items ≡ untrue owns.now bytes.now) }
{
    let mut list = Vec::new(alloc);
    'owns: for own in owns {
        if is_untrue(own, bytes) {
            list.push(*own)?;
        }
    }
    Ok(list)
}

// Returns the sum of the first bytes modulo 256, or of all if there are fewer.
fn sum_of(count: usize, bytes: &[u8]) -> u8
    ensures { result ≡ sum (take count bytes.now) % 256 }
{
    let mut sum: u8 = 0;
    'bytes: for byte in front(count, bytes) {
        sum = sum.wrapping_add(*byte);
    }
    sum
}

// Returns the byte at an offset that makes the sum of the first bytes zero. It is None if their sum is zero, either as they are
// or with the right numbers.
fn untrue_sum(offset: usize, count: usize, bytes: &[u8], right: &[u8]) -> Option<Own>
    ensures { result ≡ untrue_sum offset count bytes.now right.now }
{
    if offset >= right.len() || sum_of(count, bytes) == 0 {
        return None;
    }
    let sum = sum_of(count, right);
    if sum == 0 {
        return None;
    }
    Some(Own {
        offset,
        width: 1,
        number: usize::from(right[offset].wrapping_sub(sum)),
    })
}

// Adds a number, if there is one.
fn push_own(own: Option<Own>, list: &mut Vec<Own>) -> Result<(), AllocError>
    ensures { OnOk result (list.new.items ≡ list.old.items ++ listed own) }
{
    if let Some(own) = own {
        list.push(own)?;
    }
    Ok(())
}

// Writes a number into its field, if there is one.
fn set_own(own: Option<Own>, bytes: &mut [u8])
    ensures { bytes.new ≡ with_numbers (listed own) bytes.old }
{
    if let Some(own) = own {
        set_numbers(&[own], bytes);
    }
}

// Adds the checksums of an RSDP that aren't right. That of all bytes is the sum with the right checksum of the first 20.
fn push_pointer_sums(
    alloc: Global,
    bytes: &[u8],
    right: &[u8],
    list: &mut Vec<Own>,
) -> Result<(), AllocError>
    ensures { OnOk result (list.new.items ≡ list.old.items ++ untrue_sums Rsdp bytes.now right.now) }
{
    let first = untrue_sum(8, 20, bytes, right);
    push_own(first, list)?;
    let mut summed = Vec::from_slice(alloc, right)?;
    set_own(first, &mut summed);
    push_own(untrue_sum(32, bytes.len(), bytes, &summed), list)
}

// Adds the checksums that aren't right, with the bytes that would be, once the other numbers are right, too.
fn push_untrue_sums(
    alloc: Global,
    file_kind: FileKind,
    bytes: &[u8],
    right: &[u8],
    list: &mut Vec<Own>,
) -> Result<(), AllocError>
    ensures { OnOk result (list.new.items ≡ list.old.items ++ untrue_sums file_kind bytes.now right.now) }
{
    match file_kind {
        FileKind::Table => push_own(untrue_sum(9, bytes.len(), bytes, right), list),
        FileKind::Rsdp => push_pointer_sums(alloc, bytes, right, list),
        FileKind::Cdat => push_own(untrue_sum(5, bytes.len(), bytes, right), list),
        FileKind::Facs | FileKind::S3pt => Ok(()),
    }
}

/// Returns the numbers that aren't in their fields, and the checksums that aren't right, with the bytes that would be.
pub fn notes(
    alloc: Global,
    file_kind: FileKind,
    owns: &[Own],
    bytes: &[u8],
) -> Result<Vec<Own>, AllocError>
    ensures { IfOk result (λ list. list.items ≡ notes file_kind owns.now bytes.now) }
{
    let mut list = untrue(alloc, owns, bytes)?;
    if list.is_empty() {
        push_untrue_sums(alloc, file_kind, bytes, bytes, &mut list)?;
    } else {
        let mut right = Vec::from_slice(alloc, bytes)?;
        set_numbers(&list, &mut right);
        push_untrue_sums(alloc, file_kind, bytes, &right, &mut list)?;
    }
    Ok(list)
}
