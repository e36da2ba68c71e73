//! What a text leaves to be worked out.

ghost use Rattle.std.specs.Prelude.{◌≡◌, ◌+◌, ◌≤◌, true, length, take};
ghost use Rattle.acpi_base.specs.Bytes.{complement};
ghost use Rattle.acpi_make.specs.Complete.{are_left, written, filled, all_filled, known_sum, summed_at, summed, length_own};
ghost use Rattle.acpi_make.specs.Complete.{known, completed};
ghost use Rattle.acpi_make.specs.Gives.{Gives};

use crate::draft::fits;
use crate::extent::Own;
use crate::fault::{Fault, MakeError, Wanted};
use crate::file_kind::FileKind;
use crate::item::Cell;
use std::alloc::Global;

// Returns whether there are `width` bytes and none of them is known. It looks at no byte after them.
fn are_left(width: usize, cells: &[Cell]) -> bool
    ensures are { result ≡ are_left width cells.now }
    ensures within { result ≡ true → width ≤ length cells.now }
{
    let mut left = width;
    let mut rest = cells;
    'cells: while left > 0 {
        match rest {
            [Cell::Left(_), more @ ..] => rest = more,
            _ => return false,
        }
        left -= 1;
    }
    true
}

// Writes a number over the bytes at an offset.
fn write(offset: usize, width: usize, number: usize, cells: &mut [Cell])
    requires { offset + width ≤ length cells.old }
    ensures { cells.new ≡ written offset width number cells.old }
{
    let mut at = offset;
    let mut left = width;
    let mut rest = number;
    'bytes: while left > 0 {
        cells[at] = Cell::Byte((rest % 256) as u8);
        at += 1;
        left -= 1;
        rest /= 256;
    }
}

// Writes a number into a field, if all bytes of the field are there, none of them is known, and the number fits.
fn fill(offset: usize, width: usize, number: usize, cells: &mut [Cell])
    ensures { cells.new ≡ filled offset width number cells.old }
{
    if offset < cells.len() && are_left(width, &cells[offset..]) && fits(width, number) {
        write(offset, width, number, cells);
    }
}

// Writes numbers into their fields, in order.
fn fill_all(owns: &[Own], cells: &mut [Cell])
    ensures { cells.new ≡ all_filled owns.now cells.old }
{
    'owns: for own in owns {
        fill(own.offset, own.width, own.number, cells);
    }
}

// Returns the byte that makes the sum of the known bytes zero.
fn checksum(cells: &[Cell]) -> u8
    ensures { result ≡ complement (known_sum cells.now) }
{
    let mut left: u8 = 0;
    'cells: for cell in cells {
        if let Cell::Byte(byte) = cell {
            left = left.wrapping_sub(*byte);
        }
    }
    left
}

/// Returns the first items, or all if there are fewer.
pub fn front<T>(count: usize, items: &[T]) -> &[T]
    ensures { result.now ≡ take count items.now }
{
    if count < items.len() {
        &items[..count]
    } else {
        items
    }
}

// Writes the byte at an offset that makes the sum of the first bytes zero, if it isn't known.
fn fill_sum(offset: usize, count: usize, cells: &mut [Cell])
    ensures { cells.new ≡ summed_at offset count cells.old }
{
    let sum = checksum(front(count, cells));
    fill(offset, 1, usize::from(sum), cells);
}

// Writes the checksums that aren't known.
fn fill_sums(file_kind: FileKind, cells: &mut [Cell])
    ensures { cells.new ≡ summed file_kind cells.old }
{
    match file_kind {
        FileKind::Table => fill_sum(9, cells.len(), cells),
        FileKind::Rsdp => {
            let size = cells.len();
            fill_sum(8, 20, cells);
            fill_sum(32, size, cells);
        }
        FileKind::Cdat => fill_sum(5, cells.len(), cells),
        FileKind::Facs | FileKind::S3pt => {}
    }
}

/// Returns the length of all bytes.
pub fn length_own(file_kind: FileKind, total: usize) -> Own
    ensures { result ≡ length_own file_kind total }
{
    let offset = match file_kind {
        FileKind::Table => 4,
        FileKind::Rsdp => 20,
        FileKind::Facs => 4,
        FileKind::Cdat => 0,
        FileKind::S3pt => 4,
    };
    Own {
        offset,
        width: 4,
        number: total,
    }
}

// Returns the bytes, if all of them are known.
fn known(alloc: Global, cells: &[Cell]) -> Result<Vec<u8>, MakeError>
    ensures { Gives (λ bytes. bytes.items) result (known cells.now) }
{
    let mut bytes = Vec::with_capacity(alloc, cells.len())?;
    'cells: for cell in cells {
        match *cell {
            Cell::Byte(byte) => bytes.push(byte)?,
            Cell::Left(place) => {
                let fault = Fault::new(place, place.saturating_sub(2), Wanted::Bytes);
                return Err(MakeError::Fault(fault));
            }
        }
    }
    Ok(bytes)
}

/// Writes numbers into fields whose bytes aren't known, and the checksums, and returns all bytes. The error is that memory ran
/// out, or the place of the first byte that isn't known after this.
pub fn complete(
    alloc: Global,
    file_kind: FileKind,
    owns: &[Own],
    stated: &[Cell],
) -> Result<Vec<u8>, MakeError>
    ensures { Gives (λ bytes. bytes.items) result (completed file_kind owns.now stated.now) }
{
    let mut cells = stated.to_vec(alloc)?;
    fill_all(owns, &mut cells);
    fill_sums(file_kind, &mut cells);
    known(alloc, &cells)
}
