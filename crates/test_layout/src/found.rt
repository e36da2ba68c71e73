//! Images that are read back, and the fault of each that is broken.

use crate::layout::{dsdt, image, mcfg};
use acpi_tables::R;
use acpi_tables::aml::{ONE, ZERO};
use acpi_tables::layout::{Image, ImageFault, Located, check_image};
use std::alloc::Global;
use std::test::Fail;
use test_support::{agree, equal};

// The FACS at 0x1000, the DSDT at 0x1040 (36 bytes), the FADT at 0x1068 (276), the MCFG at 0x1180 (60), the XSDT at 0x11c0 (52)
// and the RSDP at 0x1200.
pub(crate) fn sample(alloc: Global) -> R<Image> {
    let mcfg = mcfg(alloc)?;
    image(alloc, 0x40, &dsdt(alloc, 36)?, &[&mcfg])
}

pub(crate) fn located(address: u64, length: u32, signature: &[u8; 4]) -> Located {
    Located {
        address,
        length,
        signature: *signature,
    }
}

// Fails unless these tables are found in bytes, in this order.
fn finds_all(
    alloc: Global,
    (bytes, base, rsdp): (&[u8], u64, u64),
    wanted: &[Located],
) -> Result<(), Fail> {
    let found = check_image(alloc, bytes, base, rsdp)?;
    equal(&found.as_slice(), &wanted)
}

// Fails unless this many tables are found in bytes.
pub(crate) fn finds(
    alloc: Global,
    (bytes, base, rsdp): (&[u8], u64, u64),
    count: usize,
) -> Result<(), Fail> {
    equal(&check_image(alloc, bytes, base, rsdp)?.len(), &count)
}

// Fails unless an image at 0x1000 lists these addresses.
fn lists(alloc: Global, image: Image, wanted: &[u64]) -> Result<(), Fail> {
    equal(&image.addresses(alloc, 0x1000)?.as_slice(), &wanted)
}

// Fails unless an image at 0x1000 has these tables, and lists the FADT and the next at these addresses.
pub(crate) fn has_tables(
    alloc: Global,
    image: Image,
    addresses: [u64; 2],
    wanted: &[Located],
) -> Result<(), Fail> {
    finds_all(alloc, (&image.bytes, 0x1000, image.rsdp), wanted)?;
    lists(alloc, image, &addresses)
}

#[test]
fn tables_in_order(rt: HostRuntime) -> Result<(), Fail> {
    has_tables(
        rt.alloc(),
        sample(rt.alloc())?,
        [0x1068, 0x1180],
        &[
            located(0x1200, 36, b"RSD "),
            located(0x11c0, 52, b"XSDT"),
            located(0x1068, 276, b"FACP"),
            located(0x1180, 60, b"MCFG"),
            located(0x1000, 64, b"FACS"),
            located(0x1040, 36, b"DSDT"),
        ],
    )
}

// Writes bytes over those at an offset.
pub(crate) fn overwrite(bytes: &mut Vec<u8>, at: usize, with: &[u8]) -> Result<(), Fail> {
    if at > bytes.len() || with.len() > bytes.len() - at {
        return Err(Fail::new(format_args!("no room at {at}")));
    }
    bytes[at..at + with.len()].copy_from_slice(with);
    Ok(())
}

// The bytes of an image, with these over those at an offset.
fn overwritten(alloc: Global, made: &Image, at: usize, with: &[u8]) -> Result<Vec<u8>, Fail> {
    let mut bytes = Vec::from_slice(alloc, &made.bytes)?;
    overwrite(&mut bytes, at, with)?;
    Ok(bytes)
}

// Two objects of one byte each are listed, too, at 0x1180 and 0x1188.
#[test]
fn addresses_of_other_objects(rt: HostRuntime) -> Result<(), Fail> {
    let made = image(rt.alloc(), 0x40, &dsdt(rt.alloc(), 36)?, &[&ONE, &ZERO])?;
    lists(rt.alloc(), made, &[0x1068, 0x1180, 0x1188])
}

// An image of the caller: the bytes of another one, with these over those at an offset.
fn changed(alloc: Global, made: &Image, at: usize, with: &[u8]) -> Result<Image, Fail> {
    Ok(Image {
        bytes: overwritten(alloc, made, at, with)?,
        rsdp: made.rsdp,
    })
}

// With these bytes at their offset, the image lists these addresses.
fn lists_all(alloc: Global, made: &Image, rows: &[(usize, &[u8], &[u64])]) -> Result<(), Fail> {
    for (at, with, wanted) in rows {
        lists(alloc, changed(alloc, made, *at, *with)?, *wanted)?;
    }
    Ok(())
}

#[test]
fn addresses_of_any_kind(rt: HostRuntime) -> Result<(), Fail> {
    let alloc = rt.alloc();
    lists_all(
        alloc,
        &sample(alloc)?,
        &[
            // entries: 2^64 - 1, 0, and the same twice
            (
                0x1e4,
                b"\xff\xff\xff\xff\xff\xff\xff\xff",
                &[u64::MAX, 0x1180],
            ),
            (0x1ec, b"\0\0", &[0x1068, 0]),
            (0x1ec, b"\x68\x10", &[0x1068, 0x1068]),
            // an XSDT of 36 and of 44 bytes, and a wrong sum of it
            (0x1c4, b"\x24", &[]),
            (0x1c4, b"\x2c", &[0x1068]),
            (0x1d8, b"\xf0", &[0x1068, 0x1180]),
            // the FADT without a signature, and the MCFG with a length that passes the end
            (0x68, b"\0\0\0\0", &[0x1068, 0x1180]),
            (0x184, b"\xa5", &[0x1068, 0x1180]),
        ],
    )
}

// Fails unless an image has this fault where its addresses are read.
fn lists_nothing(alloc: Global, image: Image, base: u64, wanted: ImageFault) -> Result<(), Fail> {
    match image.addresses(alloc, base) {
        Err(fault) => equal(&fault, &wanted),
        Ok(_) => Err(Fail::new("no fault")),
    }
}

// With these bytes at their offset, the image has this fault where its addresses are read.
fn lists_none(
    alloc: Global,
    made: &Image,
    rows: &[(usize, &[u8], ImageFault)],
) -> Result<(), Fail> {
    for (at, with, wanted) in rows {
        lists_nothing(alloc, changed(alloc, made, *at, *with)?, 0x1000, *wanted)?;
    }
    Ok(())
}

#[test]
fn no_addresses(rt: HostRuntime) -> Result<(), Fail> {
    let alloc = rt.alloc();
    lists_none(
        alloc,
        &sample(alloc)?,
        &[
            (0x200, b"RSD PTR_", ImageFault::Signature(0x1200)),
            (0x20f, b"\0", ImageFault::Revision(0x1200)),
            (0x214, b"\x14", ImageFault::Length(0x1200)),
            (0x208, b"\x27", ImageFault::Sum(0x1200)),
            (0x221, b"\x01", ImageFault::Sum(0x1200)),
            (0x1c0, b"RSDT", ImageFault::Signature(0x11c0)),
            (0x1c4, b"\x23", ImageFault::Length(0x11c0)),
            (0x1c4, b"\x65", ImageFault::Outside(0x11c0)),
            (0x1c4, b"\x33", ImageFault::Entries(0x11c0)),
            (0x1c4, b"\x35", ImageFault::Entries(0x11c0)),
        ],
    )?;
    lists_nothing(alloc, sample(alloc)?, 0, ImageFault::Outside(0x1200))
}

// Fails unless bytes have this fault, where the RSDP is looked for at an address.
fn has_fault(alloc: Global, bytes: &[u8], rsdp: u64, wanted: ImageFault) -> Result<(), Fail> {
    match check_image(alloc, bytes, 0x1000, rsdp) {
        Err(fault) => equal(&fault, &wanted),
        Ok(_) => Err(Fail::new("no fault")),
    }
}

// With these bytes at their offset, the image has this fault.
pub(crate) fn faults(
    alloc: Global,
    made: &Image,
    rows: &[(usize, &[u8], ImageFault)],
) -> Result<(), Fail> {
    for (at, with, wanted) in rows {
        let bytes = overwritten(alloc, made, *at, *with)?;
        has_fault(alloc, &bytes, made.rsdp, *wanted)?;
    }
    Ok(())
}

#[test]
fn wrong_pointers(rt: HostRuntime) -> Result<(), Fail> {
    faults(
        rt.alloc(),
        &sample(rt.alloc())?,
        &[
            // X_FIRMWARE_CTRL: the DSDT, 64 bytes of which the last are past the end, one byte before the image
            (0xec, b"\x40\x10", ImageFault::Signature(0x1040)),
            (0xec, b"\xe8\x11", ImageFault::Outside(0x11e8)),
            (0xec, b"\xff\x0f", ImageFault::Outside(0xfff)),
            // X_DSDT: the FACS, the last bytes, 2^64 - 1
            (0xf4, b"\0\x10", ImageFault::Signature(0x1000)),
            (0xf4, b"\x01\x12", ImageFault::Outside(0x1201)),
            (
                0xf4,
                b"\xff\xff\xff\xff\xff\xff\xff\xff",
                ImageFault::Outside(u64::MAX),
            ),
            // entries: none is the FADT, one is 0, one is in the middle of the MCFG
            (0x1e4, b"\x80\x11", ImageFault::NoFadt(0x11c0)),
            (0x1ec, b"\0\0", ImageFault::Outside(0)),
            (0x1ec, b"\x84\x11", ImageFault::Outside(0x1184)),
            // the address of the XSDT, with the sums mended: the FADT, and past the end
            (
                0x208,
                b"\x26FOOBAR\x02\0\0\0\0\x24\0\0\0\x68\x10\0\0\0\0\0\0\x64",
                ImageFault::Signature(0x1068),
            ),
            (
                0x208,
                b"\x26FOOBAR\x02\0\0\0\0\x24\0\0\0\x24\x12\0\0\0\0\0\0\xa6",
                ImageFault::Outside(0x1224),
            ),
        ],
    )
}

// Fails unless bytes have these faults, where the RSDP is looked for at these addresses.
fn has_faults(alloc: Global, bytes: &[u8], rows: &[(u64, ImageFault)]) -> Result<(), Fail> {
    for (rsdp, wanted) in rows {
        has_fault(alloc, bytes, *rsdp, *wanted)?;
    }
    Ok(())
}

#[test]
fn wrong_addresses_of_the_rsdp(rt: HostRuntime) -> Result<(), Fail> {
    has_faults(
        rt.alloc(),
        &sample(rt.alloc())?.bytes,
        &[
            (0, ImageFault::Outside(0)),
            (0xfff, ImageFault::Outside(0xfff)),
            (0x1201, ImageFault::Outside(0x1201)),
            (u64::MAX, ImageFault::Outside(u64::MAX)),
            (0x11c0, ImageFault::Signature(0x11c0)),
        ],
    )
}

#[test]
fn overlaps(rt: HostRuntime) -> Result<(), Fail> {
    let alloc = rt.alloc();
    faults(
        alloc,
        &sample(alloc)?,
        &[
            // the DSDT is an entry, too
            (0x1ec, b"\x40\x10", ImageFault::Overlap(0x1040, 0x1040)),
            // the MCFG has one byte of the XSDT, and the DSDT one of the FADT
            (0x184, b"\x41", ImageFault::Overlap(0x11c0, 0x1180)),
            (0x44, b"\x29", ImageFault::Overlap(0x1068, 0x1040)),
        ],
    )
}

// The second MCFG is at 0x11c0, the XSDT at 0x1200, the RSDP at 0x1240.
fn two_mcfgs(alloc: Global) -> R<Image> {
    let first = mcfg(alloc)?;
    let second = mcfg(alloc)?;
    image(alloc, 0x40, &dsdt(alloc, 36)?, &[&first, &second])
}

#[test]
fn entry_twice(rt: HostRuntime) -> Result<(), Fail> {
    let made = two_mcfgs(rt.alloc())?;
    finds(rt.alloc(), (&made.bytes, 0x1000, made.rsdp), 7)?;
    faults(
        rt.alloc(),
        &made,
        &[
            (0x234, b"\x80\x11", ImageFault::Overlap(0x1180, 0x1180)),
            (0x22c, b"\xc0\x11", ImageFault::Overlap(0x11c0, 0x11c0)),
            (0x22c, b"\x68\x10", ImageFault::SecondFadt(0x1068)),
        ],
    )
}

#[test]
fn lengths(rt: HostRuntime) -> Result<(), Fail> {
    let alloc = rt.alloc();
    faults(
        alloc,
        &sample(alloc)?,
        &[
            // no whole entries
            (0x1c4, b"\x35", ImageFault::Entries(0x11c0)),
            (0x1c4, b"\x33", ImageFault::Entries(0x11c0)),
            // tables that pass the end
            (0x1c4, b"\x65", ImageFault::Outside(0x11c0)),
            (0x184, b"\xa5", ImageFault::Outside(0x1180)),
            (0x6c, b"\xff\xff\xff\xff", ImageFault::Outside(0x1068)),
            (0x44, b"\xe5\x01", ImageFault::Outside(0x1040)),
            // lengths that no such table has
            (0x1c4, b"\x23", ImageFault::Length(0x11c0)),
            (0x184, b"\x23", ImageFault::Length(0x1180)),
            (0x44, b"\0", ImageFault::Length(0x1040)),
            (0x6c, b"\x93\0", ImageFault::Length(0x1068)),
            (0x04, b"\x3f", ImageFault::Length(0x1000)),
            (0x04, b"\x41", ImageFault::Length(0x1000)),
            (0x214, b"\x14", ImageFault::Length(0x1200)),
        ],
    )
}

#[test]
fn names_and_sums(rt: HostRuntime) -> Result<(), Fail> {
    let alloc = rt.alloc();
    faults(
        alloc,
        &sample(alloc)?,
        &[
            (0x200, b"RSD PTR_", ImageFault::Signature(0x1200)),
            (0x1c0, b"RSDT", ImageFault::Signature(0x11c0)),
            (0x40, b"SSDT", ImageFault::Signature(0x1040)),
            (0, b"FACT", ImageFault::Signature(0x1000)),
            (0x180, b"FACP", ImageFault::SecondFadt(0x1180)),
            (0x68, b"FADT", ImageFault::NoFadt(0x11c0)),
            (0x20f, b"\0", ImageFault::Revision(0x1200)),
            (0x20f, b"\x03", ImageFault::Revision(0x1200)),
            // the first 20 bytes of the RSDP, and those after them
            (0x208, b"\x27", ImageFault::Sum(0x1200)),
            (0x220, b"\x0c", ImageFault::Sum(0x1200)),
            (0x1d8, b"\xf0", ImageFault::Sum(0x11c0)),
            (0x80, b"\xf0", ImageFault::Sum(0x1068)),
            (0x1bb, b"\xfe", ImageFault::Sum(0x1180)),
            (0x58, b"\xf0", ImageFault::Sum(0x1040)),
        ],
    )
}

// A reserved byte of the RSDP counts for the second sum alone.
#[test]
fn second_sum(rt: HostRuntime) -> Result<(), Fail> {
    let image = sample(rt.alloc())?;
    let fault = ImageFault::Sum(0x1200);
    faults(rt.alloc(), &image, &[(0x221, b"\x01", fault)])?;
    let bytes = overwritten(rt.alloc(), &image, 0x220, b"\x0a\x01")?;
    finds(rt.alloc(), (&bytes, 0x1000, image.rsdp), 6)
}

fn says(alloc: Global, fault: ImageFault, wanted: &str) -> Result<(), Fail> {
    agree(&format!(in alloc; "{fault}")?, wanted)
}

#[test]
fn texts(rt: HostRuntime) -> Result<(), Fail> {
    for (fault, wanted) in &[
        (ImageFault::Memory, "out of memory"),
        (
            ImageFault::Outside(0x1c00_0040),
            "at 0x1c000040: the table isn't in the image",
        ),
        (ImageFault::Signature(0), "at 0x0: the signature is wrong"),
        (ImageFault::Length(0xa0), "at 0xa0: the length is wrong"),
        (ImageFault::Revision(0xa0), "at 0xa0: the revision is wrong"),
        (
            ImageFault::Sum(0xa0),
            "at 0xa0: the bytes don't sum to zero",
        ),
        (
            ImageFault::Entries(0xa0),
            "at 0xa0: the list of tables doesn't end after a whole entry",
        ),
        (ImageFault::NoFadt(0xa0), "at 0xa0: no FADT is listed"),
        (
            ImageFault::SecondFadt(0xa0),
            "at 0xa0: this is a second FADT",
        ),
        (
            ImageFault::Overlap(0xa0, u64::MAX),
            "at 0xa0: the table overlaps the one at 0xffffffffffffffff",
        ),
    ] {
        says(rt.alloc(), *fault, *wanted)?;
    }
    Ok(())
}
