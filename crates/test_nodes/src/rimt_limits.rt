//! Devices of a RIMT of at most 65,535 bytes, and those that would be longer.

use crate::rimt::{mapped, mappings, name, table, wires};
use acpi_base::error::{Error, R};
use acpi_base::object::Aml;
use acpi_tables::rimt::{Iommu, PcieRootComplex, Platform, RIMT};
use std::alloc::Global;
use std::test::Fail;
use test_support::table::many;
use test_support::{equal, makes, refuses, same};

const WIRE: &[u8] = b"\x01\x02\x03\x04\x02\0\x05\x06";

// A mapping to the first IOMMU of a table.
const MAPPING: &[u8] = b"\x01\x02\x03\x04\x05\x06\x07\x08\x09\x0a\x0b\x0c\x30\0\0\0\x02\0\0\0";

// A head, and the bytes of this many equal entries after it.
pub(crate) fn behind(alloc: Global, head: &[u8], entry: &[u8], count: u16) -> R<Vec<u8>> {
    let mut bytes = Vec::from_slice(alloc, head)?;
    for _ in 0..count {
        bytes.extend_from_slice(entry)?;
    }
    Ok(bytes)
}

// Fails unless a table is its header, the fields of a table of one device, and this device.
fn holds(alloc: Global, table: &RIMT, device: &[u8]) -> Result<(), Fail> {
    let fixed = b"\x01\0\0\0\x30\0\0\0\0\0\0\0";
    many(alloc, table, b"RIMT", 1, fixed, device, 1)
}

// Fails unless writing an object returns `FieldWidth` before it writes anything.
fn refused(alloc: Global, aml: &dyn Aml) -> Result<(), Fail> {
    let mut bytes = Vec::new(alloc);
    refuses(aml.to_aml_bytes(&mut bytes), Error::FieldWidth)?;
    same(&bytes, &[])
}

// An IOMMU of zeros with this many wires.
fn wired(alloc: Global, count: u16) -> R<Iommu> {
    let wires = wires(alloc, count)?;
    Ok(Iommu::new(0, None, None, None, Some(wires)))
}

fn takes_wired(alloc: Global, table: &mut RIMT, wanted: &[u8]) -> Result<(), Fail> {
    makes(alloc, wired(alloc, 8187), wanted)?;
    let _ = table.add_iommu(wired(alloc, 8187)?)?;
    holds(alloc, table, wanted)
}

// An IOMMU of 8,187 wires has these bytes and stands in a table. One of more can't be written, and the table refuses it.
fn takes_most_wires(alloc: Global, table: &mut RIMT, wanted: &[u8]) -> Result<(), Fail> {
    takes_wired(alloc, table, wanted)?;
    refused(alloc, &wired(alloc, 8188)?)?;
    refuses(table.add_iommu(wired(alloc, 8188)?), Error::FieldWidth)?;
    holds(alloc, table, wanted)
}

#[test]
fn the_most_wires(rt: HostRuntime) -> Result<(), Fail> {
    let head = b"\0\x01\xf8\xff\0\0\0\0\0\0\0\0\0\0\0\0\0\0\0\0\0\0\0\0\0\0\0\0\xfb\x1f\x20\0";
    let wanted = behind(rt.alloc(), head, WIRE, 8187)?;
    equal(&wanted.len(), &65_528)?;
    takes_most_wires(rt.alloc(), &mut table(rt.alloc()), &wanted)
}

// A root complex with this many mappings.
fn with_mappings(alloc: Global, count: u16) -> R<PcieRootComplex> {
    let mappings = Some(mappings(alloc, count)?);
    Ok(PcieRootComplex::new(0x0201, 0x0403, false, false, mappings))
}

fn takes_mapped(alloc: Global, table: &mut RIMT, wanted: &[u8]) -> Result<(), Fail> {
    makes(alloc, with_mappings(alloc, 3275), wanted)?;
    table.add_pcie_root_complex(with_mappings(alloc, 3275)?)?;
    holds(alloc, table, wanted)
}

// A root complex of 3,275 mappings has these bytes and stands in a table. One of more can't be written, and the table refuses it.
fn takes_most_mappings(alloc: Global, table: &mut RIMT, wanted: &[u8]) -> Result<(), Fail> {
    takes_mapped(alloc, table, wanted)?;
    refused(alloc, &with_mappings(alloc, 3276)?)?;
    let more = with_mappings(alloc, 3276)?;
    refuses(table.add_pcie_root_complex(more), Error::FieldWidth)?;
    holds(alloc, table, wanted)
}

#[test]
fn the_most_mappings(rt: HostRuntime) -> Result<(), Fail> {
    let head = b"\x01\x01\xec\xff\x01\x02\x03\x04\0\0\0\0\x10\0\xcb\x0c";
    let wanted = behind(rt.alloc(), head, MAPPING, 3275)?;
    equal(&wanted.len(), &65_516)?;
    takes_most_mappings(rt.alloc(), &mut table(rt.alloc()), &wanted)
}

fn takes_named(alloc: Global, table: &mut RIMT, wanted: &[u8]) -> Result<(), Fail> {
    makes(alloc, mapped(alloc, 0x0201, 2, 3276), wanted)?;
    table.add_platform(mapped(alloc, 0x0201, 2, 3276)?)?;
    holds(alloc, table, wanted)
}

// A device with a name of two letters and 3,276 mappings has these bytes and stands in a table. One with a longer name can't be
// written, and the table refuses it.
fn takes_longest(alloc: Global, table: &mut RIMT, wanted: &[u8]) -> Result<(), Fail> {
    takes_named(alloc, table, wanted)?;
    refused(alloc, &mapped(alloc, 0x0201, 3, 3276)?)?;
    let more = mapped(alloc, 0x0201, 3, 3276)?;
    refuses(table.add_platform(more), Error::FieldWidth)?;
    holds(alloc, table, wanted)
}

#[test]
fn the_longest_platform_device(rt: HostRuntime) -> Result<(), Fail> {
    let head = b"\x02\x01\xff\xff\x01\x02\0\0\x0f\0\xcc\x0cnn\0";
    let wanted = behind(rt.alloc(), head, MAPPING, 3276)?;
    equal(&wanted.len(), &65_535)?;
    takes_longest(rt.alloc(), &mut table(rt.alloc()), &wanted)
}

// A platform device without mappings, with a name of this many letters.
fn named(alloc: Global, letters: u32) -> R<Platform> {
    Ok(Platform::new(0x0201, name(alloc, letters)?, None))
}

#[test]
fn the_longest_name(rt: HostRuntime) -> Result<(), Fail> {
    let head = b"\x02\x01\xff\xff\x01\x02\0\0\xff\xff\0\0";
    let mut wanted = behind(rt.alloc(), head, b"n", 65_522)?;
    wanted.push(0)?;
    makes(rt.alloc(), named(rt.alloc(), 65_522), &wanted)
}

#[test]
fn a_longer_name(rt: HostRuntime) -> Result<(), Fail> {
    refused(rt.alloc(), &named(rt.alloc(), 65_523)?)
}
