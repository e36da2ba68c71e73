//! Images of hardware-reduced machines, which need no FACS (ACPI 6.5, 5.2.9).

use crate::found::{faults, finds, has_tables, located};
use crate::layout::{dsdt, fadt, is, mcfg, number};
use acpi_tables::facs::FACS;
use acpi_tables::fadt::{FADTBuilder, Flags};
use acpi_tables::layout::{Image, ImageFault, lay, lay_reduced};
use acpi_tables::{Aml, Error, R};
use std::alloc::Global;
use std::test::Fail;
use test_support::broken::Broken;
use test_support::{OEM, OEM_REVISION, OEM_TABLE, equal, refuses};

// An image of a DSDT of 36 bytes, without a FACS, at a multiple of 64.
fn reduced(alloc: Global, units: u64, fadt: FADTBuilder, tables: &[&dyn Aml]) -> R<Image> {
    let base = units % 0x0400_0000_0000_0000 * 64;
    let tables = Vec::from_slice(alloc, tables)?;
    let sdt = dsdt(alloc, 36)?;
    lay_reduced(base, OEM, OEM_TABLE, OEM_REVISION, &sdt, fadt, tables)
}

// The DSDT at 0x1000 (36 bytes), the FADT at 0x1028 (276), the MCFG at 0x1140 (60), the XSDT at 0x1180 (52), the RSDP at 0x11c0.
fn sample(alloc: Global) -> R<Image> {
    reduced(alloc, 0x40, fadt(), &[&mcfg(alloc)?])
}

#[test]
fn no_tables(rt: HostRuntime) -> Result<(), Fail> {
    is(
        rt.alloc(),
        reduced(rt.alloc(), 0x40, fadt(), &[])?,
        0x1170,
        404,
        &[
            (
                0,
                b"DSDT\x24\0\0\0\x02_FOOBARCAFEDEAD\xef\xbe\xad\xdeRVAT\0\0\0\x01",
            ),
            (
                0x28,
                b"FACP\x14\x01\0\0\x06\x5aFOOBARCAFEDEAD\xef\xbe\xad\xdeRVAT\0\0\0\x01",
            ),
            // of the FADT: Flags, the minor version, X_FIRMWARE_CTRL and X_DSDT
            (0x98, b"\0\0\x10\0"),
            (0xab, b"\x05\0\0\0\0\0\0\0\0\0\x10\0\0\0\0\0\0"),
            (
                0x140,
                b"XSDT\x2c\0\0\0\x01\x0cFOOBARCAFEDEAD\xef\xbe\xad\xdeRVAT\0\0\0\x01\x28\x10\0\0\0\0\0\0",
            ),
            (
                0x170,
                b"RSD PTR \x26FOOBAR\x02\0\0\0\0\x24\0\0\0\x40\x11\0\0\0\0\0\0\x8b\0\0\0",
            ),
        ],
    )
}

#[test]
fn tables_in_order(rt: HostRuntime) -> Result<(), Fail> {
    has_tables(
        rt.alloc(),
        sample(rt.alloc())?,
        [0x1028, 0x1140],
        &[
            located(0x11c0, 36, b"RSD "),
            located(0x1180, 52, b"XSDT"),
            located(0x1028, 276, b"FACP"),
            located(0x1140, 60, b"MCFG"),
            located(0x1000, 36, b"DSDT"),
        ],
    )
}

// The image of an FADT with flags and addresses of the caller.
fn flagged(alloc: Global) -> R<Image> {
    let fadt = fadt().flag(Flags::Headless).flag(Flags::HwReducedAcpi);
    let fadt = fadt.firmware_ctrl_64(0x1000).dsdt_32(0x1000);
    reduced(alloc, 0x40, fadt, &[])
}

// Fails unless this many tables are found in an image at a base.
fn has_count(alloc: Global, image: Image, base: u64, count: usize) -> Result<(), Fail> {
    finds(alloc, (&image.bytes, base, image.rsdp), count)
}

// Fails unless these bytes of an FADT at 0x28 hold these numbers.
fn has_fields(bytes: &[u8]) -> Result<(), Fail> {
    for (offset, width, wanted) in [
        (36, 8, 0),
        (112, 4, 0x0010_1000),
        (132, 8, 0),
        (140, 8, 0x1000),
    ] {
        let place = 0x28u64.wrapping_add(offset);
        equal(&number(bytes, place, width), &wanted)?;
    }
    Ok(())
}

// The other flags are the caller's, and its addresses aren't kept.
#[test]
fn fields_of_the_caller(rt: HostRuntime) -> Result<(), Fail> {
    let image = flagged(rt.alloc())?;
    has_fields(&image.bytes)?;
    has_count(rt.alloc(), image, 0x1000, 4)
}

#[test]
fn faults_without_a_facs(rt: HostRuntime) -> Result<(), Fail> {
    faults(
        rt.alloc(),
        &sample(rt.alloc())?,
        &[
            // Flags without bit 20: none, and all others
            (0x9a, b"\0", ImageFault::Outside(0)),
            (0x98, b"\xff\xff\xef\xff", ImageFault::Outside(0)),
            // all Flags: there is no FACS, and the sum is wrong
            (0x98, b"\xff\xff\xff\xff", ImageFault::Sum(0x1028)),
            // X_FIRMWARE_CTRL: the DSDT, 1, and 2^56
            (0xac, b"\0\x10", ImageFault::Signature(0x1000)),
            (0xac, b"\x01", ImageFault::Outside(1)),
            (0xb3, b"\x01", ImageFault::Outside(0x0100_0000_0000_0000)),
            // FIRMWARE_CTRL, where X_FIRMWARE_CTRL is 0: the DSDT, and 2^24
            (0x4c, b"\0\x10", ImageFault::Signature(0x1000)),
            (0x4f, b"\x01", ImageFault::Outside(0x0100_0000)),
        ],
    )
}

// An image with a FACS, and without other tables, at a multiple of 64.
fn with_facs(alloc: Global, units: u64, fadt: FADTBuilder) -> R<Image> {
    let base = units % 0x0400_0000_0000_0000 * 64;
    lay(
        base,
        OEM,
        OEM_TABLE,
        OEM_REVISION,
        &dsdt(alloc, 36)?,
        &FACS::new(),
        fadt,
        Vec::new(alloc),
    )
}

// A FACS at the address 0 isn't found in a hardware-reduced machine, and is in any other.
#[test]
fn facs_of_a_reduced_machine(rt: HostRuntime) -> Result<(), Fail> {
    let alloc = rt.alloc();
    let made = with_facs(alloc, 0, fadt())?;
    has_count(alloc, made, 0, 5)?;
    let made = with_facs(alloc, 0, fadt().flag(Flags::HwReducedAcpi))?;
    has_count(alloc, made, 0, 4)?;
    let made = with_facs(alloc, 0x40, fadt().flag(Flags::HwReducedAcpi))?;
    has_count(alloc, made, 0x1000, 5)
}

#[test]
fn an_image_at_0(rt: HostRuntime) -> Result<(), Fail> {
    has_count(rt.alloc(), reduced(rt.alloc(), 0, fadt(), &[])?, 0, 4)
}

fn has_rsdp_at(image: Image, rsdp: u64) -> Result<(), Fail> {
    equal(&image.rsdp, &rsdp)
}

// 404 bytes fit into the last 448, and not into the last 384.
#[test]
fn the_end_of_memory(rt: HostRuntime) -> Result<(), Fail> {
    let made = reduced(rt.alloc(), 0x03ff_ffff_ffff_fff9, fadt(), &[])?;
    has_rsdp_at(made, 0xffff_ffff_ffff_ffb0)?;
    let past = reduced(rt.alloc(), 0x03ff_ffff_ffff_fffa, fadt(), &[]);
    refuses(past, Error::FieldWidth)
}

#[test]
fn a_broken_table(rt: HostRuntime) -> Result<(), Fail> {
    let made = reduced(rt.alloc(), 0x40, fadt(), &[&Broken {}]);
    refuses(made, Error::Sink(9))
}
