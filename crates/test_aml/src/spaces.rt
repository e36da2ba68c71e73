//! Address spaces, byte for byte, alone and in templates.

use super::make::{named, template};
use acpi_tables::aml::{AddressSpace, AddressSpaceCacheable, FixedEnd, Name, ResourceTemplate};
use acpi_tables::{Aml, Error, R};
use std::alloc::Global;
use std::test::Fail;
use test_support::{all, equal, makes, refuses, writes};

#[test]
fn spaces_of_each_width(rt: HostRuntime) -> Result<(), Fail> {
    all(
        rt.alloc(),
        &[
            (
                &AddressSpace::new_bus_number(0u16, 0xff),
                &[
                    0x88, 0x0d, 0x00, 0x02, 0x0c, 0x00, 0x00, 0x00, 0x00, 0x00, 0xff, 0x00, 0x00,
                    0x00, 0x00, 0x01,
                ],
            ),
            // One port alone, and all ports but one.
            (
                &AddressSpace::new_io(5u16, 5, None),
                &[
                    0x88, 0x0d, 0x00, 0x01, 0x0c, 0x03, 0x00, 0x00, 0x05, 0x00, 0x05, 0x00, 0x00,
                    0x00, 0x01, 0x00,
                ],
            ),
            (
                &AddressSpace::new_io(1u16, 0xffff, Some(0x1234)),
                &[
                    0x88, 0x0d, 0x00, 0x01, 0x0c, 0x03, 0x00, 0x00, 0x01, 0x00, 0xff, 0xff, 0x34,
                    0x12, 0xff, 0xff,
                ],
            ),
            // The first and the last add up to the greatest address, but the range ends one before that.
            (
                &AddressSpace::new_bus_number(1u16, 0xfffe),
                &[
                    0x88, 0x0d, 0x00, 0x02, 0x0c, 0x00, 0x00, 0x00, 0x01, 0x00, 0xfe, 0xff, 0x00,
                    0x00, 0xfe, 0xff,
                ],
            ),
            (
                &AddressSpace::new_memory(
                    AddressSpaceCacheable::Cacheable,
                    true,
                    0xc000_0000u32,
                    0xc000_ffff,
                    Some(1),
                ),
                &[
                    0x87, 0x17, 0x00, 0x00, 0x0c, 0x03, 0, 0, 0, 0, 0x00, 0x00, 0x00, 0xc0, 0xff,
                    0xff, 0x00, 0xc0, 1, 0, 0, 0, 0x00, 0x00, 0x01, 0x00,
                ],
            ),
            (
                &AddressSpace::new_bus_number(1u32, u32::MAX),
                &[
                    0x87, 0x17, 0x00, 0x02, 0x0c, 0x00, 0, 0, 0, 0, 0x01, 0x00, 0x00, 0x00, 0xff,
                    0xff, 0xff, 0xff, 0, 0, 0, 0, 0xff, 0xff, 0xff, 0xff,
                ],
            ),
            (
                &AddressSpace::new_io(1u32, 0xffff_fffe, Some(0x0403_0201)),
                &[
                    0x87, 0x17, 0x00, 0x01, 0x0c, 0x03, 0, 0, 0, 0, 0x01, 0x00, 0x00, 0x00, 0xfe,
                    0xff, 0xff, 0xff, 1, 2, 3, 4, 0xfe, 0xff, 0xff, 0xff,
                ],
            ),
            (
                &AddressSpace::new_memory(
                    AddressSpaceCacheable::PreFetchable,
                    false,
                    0x8_0000_0000u64,
                    0xf_ffff_ffff,
                    None,
                ),
                &[
                    0x8a, 0x2b, 0x00, 0x00, 0x0c, 0x06, 0, 0, 0, 0, 0, 0, 0, 0, 0, 0, 0, 0, 0x08,
                    0, 0, 0, 0xff, 0xff, 0xff, 0xff, 0x0f, 0, 0, 0, 0, 0, 0, 0, 0, 0, 0, 0, 0, 0,
                    0, 0, 0x08, 0, 0, 0,
                ],
            ),
            (
                &AddressSpace::new_io(0x1_0000u64, 0x1_ffff, Some(0x1234_5678_9abc_def0)),
                &[
                    0x8a, 0x2b, 0x00, 0x01, 0x0c, 0x03, 0, 0, 0, 0, 0, 0, 0, 0, 0, 0, 0x01, 0, 0,
                    0, 0, 0, 0xff, 0xff, 0x01, 0, 0, 0, 0, 0, 0xf0, 0xde, 0xbc, 0x9a, 0x78, 0x56,
                    0x34, 0x12, 0, 0, 0x01, 0, 0, 0, 0, 0,
                ],
            ),
        ],
    )
}

#[test]
fn widest_spaces(rt: HostRuntime) -> Result<(), Fail> {
    for (min, max, ends) in [
        (0u64, u64::MAX - 1, [0x00, 0xfe, 0xff]),
        (1, u64::MAX, [0x01, 0xff, 0xff]),
        (1, u64::MAX - 1, [0x01, 0xfe, 0xfe]),
    ] {
        let [first, last, length] = ends;
        let space = AddressSpace::new_bus_number(min, max);
        writes(
            rt.alloc(),
            &space,
            &[
                0x8a, 0x2b, 0x00, 0x02, 0x0c, 0x00, 0, 0, 0, 0, 0, 0, 0, 0, first, 0, 0, 0, 0, 0,
                0, 0, last, 0xff, 0xff, 0xff, 0xff, 0xff, 0xff, 0xff, 0, 0, 0, 0, 0, 0, 0, 0,
                length, 0xff, 0xff, 0xff, 0xff, 0xff, 0xff, 0xff,
            ],
        )?;
    }
    Ok(())
}

#[test]
fn memory_types(rt: HostRuntime) -> Result<(), Fail> {
    let alloc = rt.alloc();
    for (cacheable, read_write, flags) in [
        (AddressSpaceCacheable::NotCacheable, false, 0),
        (AddressSpaceCacheable::NotCacheable, true, 1),
        (AddressSpaceCacheable::Cacheable, false, 2),
        (AddressSpaceCacheable::Cacheable, true, 3),
        (AddressSpaceCacheable::WriteCombining, false, 4),
        (AddressSpaceCacheable::WriteCombining, true, 5),
        (AddressSpaceCacheable::PreFetchable, false, 6),
        (AddressSpaceCacheable::PreFetchable, true, 7),
    ] {
        equal(&(cacheable as u8), &(flags / 2))?;
        let memory = AddressSpace::new_memory(cacheable, read_write, 0u16, 0, None);
        writes(
            alloc,
            &memory,
            &[
                0x88, 0x0d, 0x00, 0x00, 0x0c, flags, 0, 0, 0, 0, 0, 0, 0, 0, 0x01, 0x00,
            ],
        )?;
    }
    Ok(())
}

fn ports() -> AddressSpace<u16> {
    AddressSpace::new_io(0, 0xffff, None)
}

// A range that may move has its own length, or 0. Only its ends are compared.
#[test]
fn ranges_that_move(rt: HostRuntime) -> Result<(), Fail> {
    let memory = AddressSpace::new_memory(
        AddressSpaceCacheable::Cacheable,
        true,
        0x1000_0000u32,
        0x1fff_ffff,
        Some(0x0403_0201),
    );
    let large = AddressSpace::new_bus_number(1u64, u64::MAX).movable(
        u64::MAX,
        0x0807_0605_0403_0201,
    );
    all(
        rt.alloc(),
        &[
            (
                &ports().subtractive().movable(1, 0),
                &[
                    0x88, 0x0d, 0x00, 0x01, 0x02, 0x03, 0x00, 0x00, 0x00, 0x00, 0xff, 0xff, 0x00,
                    0x00, 0x01, 0x00,
                ],
            ),
            (
                &ports().movable(0xffff, 0x0102).subtractive().subtractive(),
                &[
                    0x88, 0x0d, 0x00, 0x01, 0x02, 0x03, 0x02, 0x01, 0x00, 0x00, 0xff, 0xff, 0x00,
                    0x00, 0xff, 0xff,
                ],
            ),
            (
                &ports().resizable(FixedEnd::Neither, 0xffff),
                &[
                    0x88, 0x0d, 0x00, 0x01, 0x00, 0x03, 0xff, 0xff, 0x00, 0x00, 0xff, 0xff, 0x00,
                    0x00, 0x00, 0x00,
                ],
            ),
            (
                &ports().resizable(FixedEnd::Min, 0),
                &[
                    0x88, 0x0d, 0x00, 0x01, 0x04, 0x03, 0x00, 0x00, 0x00, 0x00, 0xff, 0xff, 0x00,
                    0x00, 0x00, 0x00,
                ],
            ),
            (
                &ports().movable(5, 1).resizable(FixedEnd::Max, 7),
                &[
                    0x88, 0x0d, 0x00, 0x01, 0x08, 0x03, 0x07, 0x00, 0x00, 0x00, 0xff, 0xff, 0x00,
                    0x00, 0x00, 0x00,
                ],
            ),
            (
                &AddressSpace::new_bus_number(1u16, 2).subtractive(),
                &[
                    0x88, 0x0d, 0x00, 0x02, 0x0e, 0x00, 0x00, 0x00, 0x01, 0x00, 0x02, 0x00, 0x00,
                    0x00, 0x02, 0x00,
                ],
            ),
            (
                &memory.movable(0x0010_0000, 0x000f_ffff),
                &[
                    0x87, 0x17, 0x00, 0x00, 0x00, 0x03, 0xff, 0xff, 0x0f, 0x00, 0x00, 0x00, 0x00,
                    0x10, 0xff, 0xff, 0xff, 0x1f, 0x01, 0x02, 0x03, 0x04, 0x00, 0x00, 0x10, 0x00,
                ],
            ),
            (
                &large,
                &[
                    0x8a, 0x2b, 0x00, 0x02, 0x00, 0x00, 0x01, 0x02, 0x03, 0x04, 0x05, 0x06, 0x07,
                    0x08, 0x01, 0x00, 0x00, 0x00, 0x00, 0x00, 0x00, 0x00, 0xff, 0xff, 0xff, 0xff,
                    0xff, 0xff, 0xff, 0xff, 0x00, 0x00, 0x00, 0x00, 0x00, 0x00, 0x00, 0x00, 0xff,
                    0xff, 0xff, 0xff, 0xff, 0xff, 0xff, 0xff,
                ],
            ),
        ],
    )
}

// Fails unless a range returns an error, and writes nothing.
fn has_no_length(alloc: Global, range: &dyn Aml) -> Result<(), Fail> {
    let mut bytes = Vec::new(alloc);
    refuses(range.to_aml_bytes(&mut bytes), Error::AddressRange)?;
    equal(&bytes.len(), &0)
}

#[test]
fn ranges_without_a_length(rt: HostRuntime) -> Result<(), Fail> {
    let alloc = rt.alloc();
    has_no_length(alloc, &AddressSpace::new_io(5u16, 4, None))?;
    has_no_length(alloc, &AddressSpace::new_io(5u16, 4, None).movable(1, 0))?;
    let resizable = AddressSpace::new_io(u32::MAX, 0, None).resizable(FixedEnd::Min, 0);
    has_no_length(alloc, &resizable)?;
    has_no_length(alloc, &AddressSpace::new_io(0u16, u16::MAX, None))?;
    has_no_length(alloc, &AddressSpace::new_io(0u32, u32::MAX, None))?;
    has_no_length(alloc, &AddressSpace::new_io(0u64, u64::MAX, None))
}

// A name for a template, as a device's settings have it.
fn settings(alloc: Global, resources: R<ResourceTemplate>) -> R<Name> {
    named(alloc, "_CRS", &resources?)
}

#[test]
fn a_template_of_ports(rt: HostRuntime) -> Result<(), Fail> {
    let low = AddressSpace::new_io(0x0102u16, 0x0cf7, None);
    let high = AddressSpace::new_io(0x0d03u16, 0xfffe, Some(0x0405));
    makes(
        rt.alloc(),
        settings(rt.alloc(), template(rt.alloc(), &[&low, &high])),
        &[
            0x08, 0x5f, 0x43, 0x52, 0x53, 0x11, 0x25, 0x0a, 0x22, 0x88, 0x0d, 0x00, 0x01, 0x0c,
            0x03, 0x00, 0x00, 0x02, 0x01, 0xf7, 0x0c, 0x00, 0x00, 0xf6, 0x0b, 0x88, 0x0d, 0x00,
            0x01, 0x0c, 0x03, 0x00, 0x00, 0x03, 0x0d, 0xfe, 0xff, 0x05, 0x04, 0xfc, 0xf2, 0x79,
            0x00,
        ],
    )
}

#[test]
fn a_template_of_two_ranges_of_memory(rt: HostRuntime) -> Result<(), Fail> {
    let cached = AddressSpaceCacheable::Cacheable;
    let video = AddressSpace::new_memory(cached, true, 0x000a_1000u32, 0x000b_fedc, None);
    let uncached = AddressSpaceCacheable::NotCacheable;
    let devices = AddressSpace::new_memory(uncached, true, 0xc010_2030u32, 0xfebf_dcba, None);
    makes(
        rt.alloc(),
        settings(rt.alloc(), template(rt.alloc(), &[&video, &devices])),
        &[
            0x08, 0x5f, 0x43, 0x52, 0x53, 0x11, 0x39, 0x0a, 0x36, 0x87, 0x17, 0x00, 0x00, 0x0c,
            0x03, 0, 0, 0, 0, 0x00, 0x10, 0x0a, 0x00, 0xdc, 0xfe, 0x0b, 0x00, 0, 0, 0, 0, 0xdd,
            0xee, 0x01, 0x00, 0x87, 0x17, 0x00, 0x00, 0x0c, 0x01, 0, 0, 0, 0, 0x30, 0x20, 0x10,
            0xc0, 0xba, 0xdc, 0xbf, 0xfe, 0, 0, 0, 0, 0x8b, 0xbc, 0xaf, 0x3e, 0x79, 0x00,
        ],
    )
}

#[test]
fn a_template_of_a_long_range_of_memory(rt: HostRuntime) -> Result<(), Fail> {
    let cached = AddressSpaceCacheable::Cacheable;
    let (first, last) = (0x0102_0304_0506_0708u64, 0x1121_3141_5161_7181);
    let large = AddressSpace::new_memory(cached, true, first, last, None);
    makes(
        rt.alloc(),
        settings(rt.alloc(), template(rt.alloc(), &[&large])),
        &[
            0x08, 0x5f, 0x43, 0x52, 0x53, 0x11, 0x33, 0x0a, 0x30, 0x8a, 0x2b, 0x00, 0x00, 0x0c,
            0x03, 0, 0, 0, 0, 0, 0, 0, 0, 0x08, 0x07, 0x06, 0x05, 0x04, 0x03, 0x02, 0x01, 0x81,
            0x71, 0x61, 0x51, 0x41, 0x31, 0x21, 0x11, 0, 0, 0, 0, 0, 0, 0, 0, 0x7a, 0x6a, 0x5b,
            0x4c, 0x3d, 0x2e, 0x1f, 0x10, 0x79, 0x00,
        ],
    )
}
