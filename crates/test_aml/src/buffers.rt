//! Buffers, ids and resource descriptors, byte for byte.

use super::make::{device, named, template};
use super::tables::dsdt;
use acpi_tables::aml::{
    BufferData, BufferTerm, Device, EISAName, IO, Interrupt, Memory32Fixed, Register,
    ResourceTemplate, Uuid,
};
use acpi_tables::gas::{self, AccessSize, GAS};
use acpi_tables::sdt::append_object;
use acpi_tables::{Error, R};
use std::alloc::Global;
use std::test::Fail;
use test_support::{all, equal, makes, refuses};

#[test]
fn buffers(rt: HostRuntime) -> Result<(), Fail> {
    let alloc = rt.alloc();
    makes(alloc, BufferData::new(Vec::new(alloc)), &[0x11, 0x02, 0x00])?;
    let two = vec![in alloc; 1u8, 2]?;
    makes(
        alloc,
        BufferData::new(two),
        &[0x11, 0x05, 0x0a, 0x02, 0x01, 0x02],
    )?;
    makes(
        alloc,
        BufferTerm::new(alloc, &2u8),
        &[0x11, 0x03, 0x0a, 0x02],
    )?;
    makes(
        alloc,
        ResourceTemplate::new(Vec::new(alloc)),
        &[0x11, 0x05, 0x0a, 0x02, 0x79, 0x00],
    )
}

// Fails unless a buffer of this many bytes 0xab is these bytes, and then its own.
fn begins(alloc: Global, size: usize, start: &[u8]) -> Result<(), Fail> {
    let content = vec![in alloc; 0xabu8; size]?;
    let mut wanted = Vec::from_slice(alloc, start)?;
    wanted.extend_from_slice(&content)?;
    makes(alloc, BufferData::new(content), &wanted)
}

// The size is written in the least width. The length before it counts the size and the bytes.
#[test]
fn sizes_of_buffers(rt: HostRuntime) -> Result<(), Fail> {
    let starts: [(usize, &[u8]); 5] = [
        (0xff, &[0x11, 0x43, 0x10, 0x0a, 0xff]),
        (0x100, &[0x11, 0x45, 0x10, 0x0b, 0x00, 0x01]),
        (0xffff, &[0x11, 0x85, 0x00, 0x10, 0x0b, 0xff, 0xff]),
        (
            0x1_0000,
            &[0x11, 0x88, 0x00, 0x10, 0x0c, 0x00, 0x00, 0x01, 0x00],
        ),
        (
            0x1_0203,
            &[0x11, 0x8b, 0x20, 0x10, 0x0c, 0x03, 0x02, 0x01, 0x00],
        ),
    ];
    for (size, start) in starts {
        begins(rt.alloc(), size, start)?;
    }
    Ok(())
}

// The letters of an id have five bits each in the two high bytes, and its digits are the two low ones.
#[test]
fn eisa_ids(rt: HostRuntime) -> Result<(), Fail> {
    let alloc = rt.alloc();
    for (text, wanted) in [
        ("PNP0A03", [0x0c, 0x41, 0xd0, 0x0a, 0x03]),
        ("PNP0a03", [0x0c, 0x41, 0xd0, 0x0a, 0x03]),
        ("PNP0501", [0x0c, 0x41, 0xd0, 0x05, 0x01]),
        ("INT0800", [0x0c, 0x25, 0xd4, 0x08, 0x00]),
        ("AWY0001", [0x0c, 0x06, 0xf9, 0x00, 0x01]),
        ("AZA9aFf", [0x0c, 0x07, 0x41, 0x9a, 0xff]),
    ] {
        makes(alloc, EISAName::new(text), &wanted)?;
    }
    makes(alloc, EISAName::new("PNP0000"), &[0x0b, 0x41, 0xd0])
}

#[test]
fn texts_of_no_id(_: HostRuntime) -> Result<(), Fail> {
    for text in [
        "PNP0A0", "PNP0A03F", "pnp0A03", "@NP0A03", "P[P0A03", "PN`0A03", "PN90A03", "PNP/A03",
        "PNP0:03", "PNP0A@3", "PNP0A0G", "PNP0A0`", "PNPgA03",
    ] {
        refuses(EISAName::new(text), Error::EisaText)?;
    }
    Ok(())
}

#[test]
fn uuids(rt: HostRuntime) -> Result<(), Fail> {
    let alloc = rt.alloc();
    let host_bridge = [
        0x11, 0x13, 0x0a, 0x10, 0x5b, 0x4d, 0xdb, 0x33, 0xf7, 0x1f, 0x1c, 0x40, 0x96, 0x57, 0x74,
        0x41, 0xc0, 0x3d, 0xd7, 0x66,
    ];
    let properties = [
        0x11, 0x13, 0x0a, 0x10, 0x14, 0xd8, 0xff, 0xda, 0xba, 0x6e, 0x8c, 0x4d, 0x8a, 0x91, 0xbc,
        0x9b, 0xbf, 0x4a, 0xa3, 0x01,
    ];
    for (text, wanted) in [
        ("33DB4D5B-1FF7-401C-9657-7441C03DD766", host_bridge),
        ("33db4d5b-1ff7-401c-9657-7441c03dd766", host_bridge),
        ("DaFfD814-6EBA-4D8C-8A91-BC9bBF4AA301", properties),
    ] {
        makes(alloc, Uuid::new(text), &wanted)?;
    }
    Ok(())
}

#[test]
fn texts_of_no_uuid(_: HostRuntime) -> Result<(), Fail> {
    for text in [
        "33DB4D5B-1FF7-401C-9657-7441C03DD76",
        "33DB4D5B-1FF7-401C-9657-7441C03DD7666",
        "33DB4D5B01FF7-401C-9657-7441C03DD766",
        "33DB4D5B-1FF7_401C-9657-7441C03DD766",
        "33DB4D5B-1FF7-401C/9657-7441C03DD766",
        "33DB4D5B-1FF7-401C-9657 7441C03DD766",
        "/3DB4D5B-1FF7-401C-9657-7441C03DD766",
        "33DB4D5:-1FF7-401C-9657-7441C03DD766",
        "33DB4D5B-@FF7-401C-9657-7441C03DD766",
        "33DB4D5B-1FF7-40G1-9657-7441C03DD766",
        "33DB4D5B-1FF7-401C-96`7-7441C03DD766",
        "33DB4D5B-1FF7-401C-9657-7441C03DD76g",
    ] {
        refuses(Uuid::new(text), Error::UuidText)?;
    }
    Ok(())
}

#[test]
fn registers(rt: HostRuntime) -> Result<(), Fail> {
    let alloc = rt.alloc();
    let register = Register::new(GAS::new(
        gas::AddressSpace::SystemMemory,
        32,
        0,
        AccessSize::DwordAccess,
        0x1000,
    ));
    let wanted = [
        0x11, 0x14, 0x0a, 0x11, 0x82, 0x0c, 0x00, 0x00, 0x20, 0x00, 0x03, 0x00, 0x10, 0x00, 0x00,
        0x00, 0x00, 0x00, 0x00, 0x79, 0x00,
    ];
    makes(alloc, template(alloc, &[&register]), &wanted)
}

#[test]
fn descriptors(rt: HostRuntime) -> Result<(), Fail> {
    all(
        rt.alloc(),
        &[
            (
                &Interrupt::new(true, true, false, false, 4),
                &[0x89, 0x06, 0x00, 0x03, 0x01, 0x04, 0x00, 0x00, 0x00],
            ),
            (
                &Interrupt::new(true, true, true, true, u32::MAX),
                &[0x89, 0x06, 0x00, 0x0f, 0x01, 0xff, 0xff, 0xff, 0xff],
            ),
            (
                &Interrupt::new(true, false, false, false, 0x0403_0201),
                &[0x89, 0x06, 0x00, 0x01, 0x01, 0x01, 0x02, 0x03, 0x04],
            ),
            (
                &Interrupt::new(false, true, false, false, 5),
                &[0x89, 0x06, 0x00, 0x02, 0x01, 0x05, 0x00, 0x00, 0x00],
            ),
            (
                &Interrupt::new(false, false, true, false, 6),
                &[0x89, 0x06, 0x00, 0x04, 0x01, 0x06, 0x00, 0x00, 0x00],
            ),
            (
                &Interrupt::new(false, false, false, true, 7),
                &[0x89, 0x06, 0x00, 0x08, 0x01, 0x07, 0x00, 0x00, 0x00],
            ),
            (
                &IO::new(0x3f0, 0x4f8, 4, 8),
                &[0x47, 0x01, 0xf0, 0x03, 0xf8, 0x04, 0x04, 0x08],
            ),
            (
                &Memory32Fixed::new(true, 0xfed0_0000, 0x400),
                &[
                    0x86, 0x09, 0x00, 0x01, 0x00, 0x00, 0xd0, 0xfe, 0x00, 0x04, 0x00, 0x00,
                ],
            ),
            (
                &Memory32Fixed::new(false, 0x0403_0201, 0x0807_0605),
                &[
                    0x86, 0x09, 0x00, 0x00, 0x01, 0x02, 0x03, 0x04, 0x05, 0x06, 0x07, 0x08,
                ],
            ),
        ],
    )
}

const COM1: [u8; 50] = [
    0x5b, 0x82, 0x30, 0x2e, 0x5f, 0x53, 0x42, 0x5f, 0x43, 0x4f, 0x4d, 0x31, 0x08, 0x5f, 0x48, 0x49,
    0x44, 0x0c, 0x41, 0xd0, 0x05, 0x01, 0x08, 0x5f, 0x43, 0x52, 0x53, 0x11, 0x16, 0x0a, 0x13, 0x89,
    0x06, 0x00, 0x03, 0x01, 0x04, 0x00, 0x00, 0x00, 0x47, 0x01, 0xf8, 0x03, 0xf8, 0x03, 0x00, 0x08,
    0x79, 0x00,
];

fn com1(alloc: Global) -> R<Device> {
    let id = named(alloc, "_HID", &EISAName::new("PNP0501")?)?;
    let interrupt = Interrupt::new(true, true, false, false, 4);
    let ports = IO::new(0x3f8, 0x3f8, 0, 8);
    let current = named(alloc, "_CRS", &template(alloc, &[&interrupt, &ports])?)?;
    device(alloc, "_SB_.COM1", &[&id, &current])
}

#[test]
fn a_serial_port(rt: HostRuntime) -> Result<(), Fail> {
    let alloc = rt.alloc();
    makes(alloc, com1(alloc), &COM1)?;
    let mut table = dsdt(alloc)?;
    append_object(&com1(alloc)?, &mut table)?;
    equal(&table.len(), &86)?;
    equal(&table.as_slice().get(9), &Some(&0x47))
}
