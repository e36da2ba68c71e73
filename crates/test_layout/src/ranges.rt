//! Memory of several ranges: an image that is cut in two, and one whose RSDP is somewhere else.

use crate::found::sample;
use acpi_tables::layout::{Image, ImageFault, Range, check_memory};
use std::alloc::Global;
use std::test::Fail;
use test_support::equal;

// Fails unless memory has this fault, or as many tables as a sample.
fn has(
    alloc: Global,
    ranges: &[Range<'_>],
    rsdp: u64,
    wanted: Option<ImageFault>,
) -> Result<(), Fail> {
    match check_memory(alloc, ranges, rsdp) {
        Ok(tables) => {
            equal(&tables.len(), &6)?;
            equal(&None, &wanted)
        }
        Err(fault) => equal(&Some(fault), &wanted),
    }
}

// The same of an image at 0x1000 that is cut at an offset, with the second part first.
fn cut_has(alloc: Global, made: &Image, at: usize, wanted: Option<ImageFault>) -> Result<(), Fail> {
    let front = Range {
        address: 0x1000,
        bytes: made.bytes.get(..at).unwrap_or(&[]),
    };
    let back = Range {
        address: (at as u64).saturating_add(0x1000),
        bytes: made.bytes.get(at..).unwrap_or(&[]),
    };
    has(alloc, &[back, front], made.rsdp, wanted)
}

// A table that is cut lies in neither part.
#[test]
fn cut_in_two(rt: HostRuntime) -> Result<(), Fail> {
    let made = sample(rt.alloc())?;
    let rows = [
        (0, None),
        (0x20, Some(ImageFault::Outside(0x1000))),
        (0x40, None),
        (0x63, Some(ImageFault::Outside(0x1040))),
        (0x64, None),
        (0x68, None),
        (0x69, Some(ImageFault::Outside(0x1068))),
        (0x17c, None),
        (0x181, Some(ImageFault::Outside(0x1180))),
        (0x1f3, Some(ImageFault::Outside(0x11c0))),
        (0x1f4, None),
        (0x223, Some(ImageFault::Outside(0x1200))),
        (0x224, None),
    ];
    for (at, wanted) in rows {
        cut_has(rt.alloc(), &made, at, wanted)?;
    }
    Ok(())
}

// An RSDP below 1 MiB, and the other tables at 0x1000.
#[test]
fn pointer_apart(rt: HostRuntime) -> Result<(), Fail> {
    let made = sample(rt.alloc())?;
    let pointer = Range {
        address: 0xe_0000,
        bytes: made.bytes.get(0x200..).unwrap_or(&[]),
    };
    let tables = Range {
        address: 0x1000,
        bytes: made.bytes.get(..0x200).unwrap_or(&[]),
    };
    let alloc = rt.alloc();
    has(alloc, &[tables, pointer], 0xe_0000, None)?;
    has(
        alloc,
        &[pointer],
        0xe_0000,
        Some(ImageFault::Outside(0x11c0)),
    )?;
    has(
        alloc,
        &[tables, pointer],
        0x1200,
        Some(ImageFault::Outside(0x1200)),
    )?;
    has(alloc, &[], 0, Some(ImageFault::Outside(0)))
}
