//! A matrix with more than 255 rows and columns, in a table of more than 65,535 bytes.

use crate::matrices::hmat::{PROXIMITY, locality, proximity, table};
use crate::matrices::localities::{Value, takes};
use acpi_tables::R;
use acpi_tables::hmat::{HMAT, SystemLocality};
use std::alloc::Global;
use std::test::Fail;
use test_support::table::{patched, stands};

// The bytes after the header, before a cell is set.
fn structures(alloc: Global) -> R<Vec<u8>> {
    let mut bytes = Vec::from_slice(
        alloc,
        b"\0\0\0\0\x01\0\0\0\x40\x12\x02\0\x03\x05\x0b\0\x02\x01\0\0\x03\x01\0\0\0\0\0\0\x01\x02\x03\x04\x05\x06\x07\x08",
    )?;
    bytes.resize(2104, 0)?;
    bytes.resize(135_748, 0xff)?;
    bytes.extend_from_slice(PROXIMITY)?;
    Ok(bytes)
}

// The table before a cell is set.
fn before(alloc: Global) -> R<Vec<u8>> {
    test_support::table::table(alloc, b"HMAT", 1, &[&structures(alloc)?])
}

// A matrix of 258 initiators and 259 targets, after it took values and refused others.
fn matrix_of_values(alloc: Global) -> Result<SystemLocality, Fail> {
    let values = [
        Value::Initiator(257, 0x2423_2221),
        Value::Target(258, 0x3433_3231),
        Value::Entry(1, 258, 0x4241),
        Value::Entry(257, 0, 0x5251),
        Value::Entry(257, 258, 0x6261),
    ];
    let outside = [
        Value::Initiator(258, 1),
        Value::Target(259, 1),
        Value::Entry(258, 0, 1),
        Value::Entry(0, 259, 1),
    ];
    let mut made = locality(alloc, 258, 259)?;
    takes(&mut made, &values, &outside)?;
    Ok(made)
}

fn add_structures(alloc: Global, hmat: &mut HMAT) -> Result<(), Fail> {
    hmat.add_system_locality(matrix_of_values(alloc)?)?;
    Ok(hmat.add_memory_proximity(proximity())?)
}

// Fails unless a table has the bytes of such a matrix.
fn has_values(alloc: Global, hmat: &HMAT) -> Result<(), Fail> {
    stands(alloc, hmat, 0, b"HMAT\x90\x12\x02\0\x01")?;
    // 40 + 32 + 4 * 257; 40 + 32 + 4 * 516; 2,140 + 2 * 517; 2,140 + 2 * 66,563; 2,140 + 2 * 66,821
    patched(
        alloc,
        hmat,
        &before(alloc)?,
        &[
            (1_100, b"\x21\x22\x23\x24"),
            (2_136, b"\x31\x32\x33\x34"),
            (3_174, b"\x41\x42"),
            (135_266, b"\x51\x52"),
            (135_782, b"\x61\x62"),
        ],
    )
}

// 258 initiators and 259 targets: 32 + 4 * 258 + 4 * 259 + 2 * 258 * 259 bytes, which are 0x21240. Cells begin at 40 + 2,100.
#[test]
fn matrix(rt: HostRuntime) -> Result<(), Fail> {
    let mut hmat = table(rt.alloc());
    add_structures(rt.alloc(), &mut hmat)?;
    has_values(rt.alloc(), &hmat)
}
