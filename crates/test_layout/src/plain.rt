//! A second, plain check of images, with which `check_image` is compared.

use crate::layout::number;
use acpi_tables::R;
use acpi_tables::layout::{Located, check_image};
use std::alloc::Global;
use std::test::Fail;
use test_support::equal;

const BASE: u64 = 0x1000;

// These bytes from an address on, or none if one of them isn't in the image.
fn at(bytes: &[u8], address: u64, size: u64) -> &[u8] {
    let start = address.wrapping_sub(BASE);
    let end = start.wrapping_add(size);
    if start > end || end > bytes.len() as u64 {
        return &[];
    }
    bytes.get(start as usize..end as usize).unwrap_or(&[])
}

fn sums(bytes: &[u8]) -> bool {
    let mut sum = 0u8;
    for byte in bytes {
        sum = sum.wrapping_add(*byte);
    }
    sum == 0
}

// The length of the table with a standard header at an address, or 0 if none is there.
fn size_at(bytes: &[u8], address: u64) -> u64 {
    let size = number(at(bytes, address, 36), 4, 4);
    let table = at(bytes, address, size);
    if table.len() < 36 || !sums(table) {
        return 0;
    }
    size
}

// The address and the length of the XSDT, if the RSDP at an address is right.
fn listed(bytes: &[u8], rsdp: u64) -> Option<(u64, u64)> {
    let pointer = at(bytes, rsdp, 36);
    if !pointer.starts_with(b"RSD PTR ") || number(pointer, 15, 1) != 2 {
        return None;
    }
    if number(pointer, 20, 4) != 36 || !sums(pointer) || !sums(at(pointer, BASE, 20)) {
        return None;
    }
    let xsdt = number(pointer, 24, 8);
    let size = size_at(bytes, xsdt);
    if !at(bytes, xsdt, size).starts_with(b"XSDT") || size % 8 != 4 {
        return None;
    }
    Some((xsdt, size))
}

// Adds the tables that an XSDT lists, and returns the address of the only FADT, if all are right.
fn add_listed(
    bytes: &[u8],
    (xsdt, size): (u64, u64),
    found: &mut Vec<(u64, u64)>,
) -> R<Option<u64>> {
    let mut fadt = None;
    for i in 0..size.saturating_sub(36) / 8 {
        let place = xsdt.wrapping_sub(BASE).wrapping_add(36);
        let address = number(bytes, place.wrapping_add(i.wrapping_mul(8)), 8);
        let length = size_at(bytes, address);
        if length == 0 {
            return Ok(None);
        }
        if at(bytes, address, 4) == b"FACP".as_slice() {
            if fadt.is_some() {
                return Ok(None);
            }
            fadt = Some(address);
        }
        found.push((address, length))?;
    }
    Ok(fadt)
}

// The first of two addresses, or the second if the first is 0.
fn first_of(first: u64, second: u64) -> u64 {
    match first {
        0 => second,
        _ => first,
    }
}

// Adds the FACS to which an FADT points, if there is one, and returns whether it is right.
fn add_control(bytes: &[u8], fadt: &[u8], found: &mut Vec<(u64, u64)>) -> R<bool> {
    let address = first_of(number(fadt, 132, 8), number(fadt, 36, 4));
    if address == 0 && number(fadt, 114, 1) & 0x10 != 0 {
        return Ok(true);
    }
    found.push((address, 64))?;
    Ok(at(bytes, address, 64).starts_with(b"FACS\x40\0\0\0"))
}

// Adds the tables to which an FADT points, and returns whether they are right.
fn add_pointed(bytes: &[u8], fadt: &[u8], found: &mut Vec<(u64, u64)>) -> R<bool> {
    if fadt.len() < 148 || !add_control(bytes, fadt, found)? {
        return Ok(false);
    }
    let dsdt = first_of(number(fadt, 140, 8), number(fadt, 40, 4));
    let length = size_at(bytes, dsdt);
    found.push((dsdt, length))?;
    Ok(at(bytes, dsdt, length).starts_with(b"DSDT"))
}

fn overlap(found: &[(u64, u64)]) -> bool {
    for (i, (address, length)) in found.iter().enumerate() {
        for (other, size) in found.iter().skip(i.wrapping_add(1)) {
            if *address < other.wrapping_add(*size) && *other < address.wrapping_add(*length) {
                return true;
            }
        }
    }
    false
}

// Adds all tables of an image, and returns whether the bytes are one.
fn add_all(bytes: &[u8], rsdp: u64, found: &mut Vec<(u64, u64)>) -> R<bool> {
    let Some(xsdt) = listed(bytes, rsdp) else {
        return Ok(false);
    };
    found.push((rsdp, 36))?;
    found.push(xsdt)?;
    let Some(fadt) = add_listed(bytes, xsdt, found)? else {
        return Ok(false);
    };
    let fadt = at(bytes, fadt, size_at(bytes, fadt));
    Ok(add_pointed(bytes, fadt, found)? && !overlap(found))
}

// The address and the length of each table, or none if the bytes aren't an image.
fn plain(alloc: Global, bytes: &[u8], rsdp: u64) -> R<Vec<(u64, u64)>> {
    let mut found = Vec::new(alloc);
    if !add_all(bytes, rsdp, &mut found)? {
        found.clear();
    }
    Ok(found)
}

// The tables that were found are those of the plain check.
fn are_same(found: &[Located], wanted: &[(u64, u64)]) -> Result<(), Fail> {
    equal(&found.len(), &wanted.len())?;
    for (table, wanted) in found.iter().zip(wanted) {
        equal(&(table.address, u64::from(table.length)), wanted)?;
    }
    Ok(())
}

// Returns whether bytes are an image, and fails unless the plain check says the same.
pub(crate) fn is_image(alloc: Global, bytes: &[u8], rsdp: u64) -> Result<bool, Fail> {
    let wanted = plain(alloc, bytes, rsdp)?;
    match check_image(alloc, bytes, BASE, rsdp) {
        Ok(found) => {
            are_same(&found, &wanted)?;
            Ok(true)
        }
        Err(_) => {
            equal(&wanted.len(), &0)?;
            Ok(false)
        }
    }
}
