//! Images below 4 GiB, with an RSDT (ACPI 6.5, 5.2.7) and an RSDP of revision 0 (5.2.5.3).

use crate::found::located;
use crate::layout::{EMPTY_DSDT, SHARED, dsdt, fadt, holds, mcfg};
use acpi_tables::facs::FACS;
use acpi_tables::layout::{
    ImageFault, Root, RsdtFault, RsdtImage, check_image_of, lay_reduced_rsdt, lay_rsdt,
};
use acpi_tables::rsdp::Rsdp0;
use acpi_tables::sdt::Sdt;
use acpi_tables::{Aml, Error};
use std::alloc::Global;
use std::test::Fail;
use test_support::broken::Broken;
use test_support::{OEM, OEM_REVISION, OEM_TABLE, equal, same, writes};

// An image at a multiple of 64, with its RSDP at a multiple of 16.
fn low(
    alloc: Global,
    units: u32,
    places: u32,
    sdt: &Sdt,
    tables: &[&dyn Aml],
) -> Result<RsdtImage, RsdtFault> {
    let tables = match Vec::from_slice(alloc, tables) {
        Ok(tables) => tables,
        Err(_) => return Err(RsdtFault::Table(Error::Memory)),
    };
    lay_rsdt(
        units % 0x0400_0000 * 64,
        places % 0x1000_0000 * 16,
        OEM,
        OEM_TABLE,
        OEM_REVISION,
        sdt,
        &FACS::new(),
        fadt(),
        tables,
    )
}

// An image of a DSDT of this many bytes and no tables.
fn with_dsdt(alloc: Global, units: u32, places: u32, length: u32) -> Result<RsdtImage, RsdtFault> {
    low(alloc, units, places, &dsdt(alloc, length)?, &[])
}

// Fails unless the image has this fault.
fn faulty(made: Result<RsdtImage, RsdtFault>, wanted: RsdtFault) -> Result<(), Fail> {
    match made {
        Err(fault) => equal(&fault, &wanted),
        Ok(_) => Err(Fail::new("no fault")),
    }
}

#[test]
fn the_pointer(rt: HostRuntime) -> Result<(), Fail> {
    let bytes = b"RSD PTR \x97FOOBAR\0\x80\x11\0\0";
    writes(rt.alloc(), &Rsdp0::new(OEM, 0x1180), bytes)?;
    equal(&Rsdp0::len(), &20)
}

// The FACS at 0x1000, the DSDT at 0x1040 (36 bytes), the FADT at 0x1068 (276), the RSDT at 0x1180 (40).
#[test]
fn no_tables(rt: HostRuntime) -> Result<(), Fail> {
    let alloc = rt.alloc();
    let made = with_dsdt(alloc, 0x40, 0xe000, 36)?;
    same(&made.pointer, b"RSD PTR \x97FOOBAR\0\x80\x11\0\0")?;
    holds(
        alloc,
        &made.bytes,
        424,
        &[
            (0, &SHARED),
            (0x40, &EMPTY_DSDT),
            (
                0x68,
                b"FACP\x14\x01\0\0\x06\x1aFOOBARCAFEDEAD\xef\xbe\xad\xdeRVAT\0\0\0\x01\
                    \0\x10\0\0\x40\x10\0\0",
            ),
            // of the FADT: the minor version
            (0xeb, b"\x05"),
            (
                0x180,
                b"RSDT\x28\0\0\0\x01\xd6FOOBARCAFEDEAD\xef\xbe\xad\xdeRVAT\0\0\0\x01\x68\x10\0\0",
            ),
        ],
    )
}

// The DSDT at 0x1000 (36 bytes), the FADT at 0x1028 (276), the MCFG at 0x1140 (60), the RSDT at 0x1180 (44).
fn reduced(alloc: Global) -> Result<RsdtImage, RsdtFault> {
    let sdt = dsdt(alloc, 36)?;
    let spaces = mcfg(alloc)?;
    let tables: Vec<&dyn Aml> = match vec![in alloc; &spaces as &dyn Aml] {
        Ok(tables) => tables,
        Err(_) => return Err(RsdtFault::Table(Error::Memory)),
    };
    lay_reduced_rsdt(
        0x1000,
        0xf_fff0,
        OEM,
        OEM_TABLE,
        OEM_REVISION,
        &sdt,
        fadt(),
        tables,
    )
}

#[test]
fn without_a_facs(rt: HostRuntime) -> Result<(), Fail> {
    let alloc = rt.alloc();
    let made = reduced(alloc)?;
    same(&made.pointer, b"RSD PTR \x97FOOBAR\0\x80\x11\0\0")?;
    holds(
        alloc,
        &made.bytes,
        428,
        &[
            (0, &EMPTY_DSDT),
            (
                0x28,
                b"FACP\x14\x01\0\0\x06\x5aFOOBARCAFEDEAD\xef\xbe\xad\xdeRVAT\0\0\0\x01\
                    \0\0\0\0\0\x10\0\0",
            ),
            // of the FADT: Flags and the minor version
            (0x98, b"\0\0\x10\0"),
            (0xab, b"\x05"),
            (
                0x140,
                b"MCFG\x3c\0\0\0\x01\xabFOOBARCAFEDEAD\xef\xbe\xad\xdeRVAT\0\0\0\x01\
                    \0\0\0\0\0\0\0\0\
                    \0\0\0\xb0\0\0\0\0\0\0\0\xff\0\0\0\0",
            ),
            (
                0x180,
                b"RSDT\x2c\0\0\0\x01\xc1FOOBARCAFEDEAD\xef\xbe\xad\xdeRVAT\0\0\0\x01\
                    \x28\x10\0\0\x40\x11\0\0",
            ),
        ],
    )
}

// With a DSDT of 64 bytes an image has 448 bytes, and with one more 456. 448 bytes from 0xfffffe40 on are the last below 4 GiB.
#[test]
fn the_last_bytes(rt: HostRuntime) -> Result<(), Fail> {
    let alloc = rt.alloc();
    let made = with_dsdt(alloc, 0x03ff_fff9, 0xe000, 64)?;
    equal(&made.bytes.len(), &448)?;
    same(&made.pointer, b"RSD PTR \x53FOOBAR\0\xd8\xff\xff\xff")?;
    faulty(with_dsdt(alloc, 0x03ff_fff9, 0xe000, 65), RsdtFault::NotLow)
}

// An RSDP at 0xffffffe0 ends at 0xfffffff4, and one at 0xfffffff0 after 4 GiB.
#[test]
fn the_last_pointer(rt: HostRuntime) -> Result<(), Fail> {
    let alloc = rt.alloc();
    equal(&with_dsdt(alloc, 0x40, 0x0fff_fffe, 36)?.bytes.len(), &424)?;
    faulty(with_dsdt(alloc, 0x40, 0x0fff_ffff, 36), RsdtFault::NotLow)
}

// The image is from 0x1000 to 0x11a7. The RSDP is right before it and after it, and overlaps its first and its last bytes.
#[test]
fn apart(rt: HostRuntime) -> Result<(), Fail> {
    let alloc = rt.alloc();
    equal(&with_dsdt(alloc, 0x40, 0xfe, 36)?.bytes.len(), &424)?;
    faulty(with_dsdt(alloc, 0x40, 0xff, 36), RsdtFault::Overlap)?;
    faulty(with_dsdt(alloc, 0x40, 0x11a, 36), RsdtFault::Overlap)?;
    equal(&with_dsdt(alloc, 0x40, 0x11b, 36)?.bytes.len(), &424)
}

// The fault of a table comes before those of addresses.
#[test]
fn a_broken_table(rt: HostRuntime) -> Result<(), Fail> {
    let alloc = rt.alloc();
    let sdt = dsdt(alloc, 36)?;
    let made = low(alloc, 0x03ff_ffff, 0x0fff_ffff, &sdt, &[&Broken {}]);
    faulty(made, RsdtFault::Table(Error::Sink(9)))
}

// The bytes of an image, and its pointer at the next multiple of 16.
fn with_pointer(made: RsdtImage) -> Result<Vec<u8>, Fail> {
    let mut bytes = made.bytes;
    bytes.resize(bytes.len().saturating_add(15) / 16 * 16, 0)?;
    bytes.extend_from_slice(&made.pointer)?;
    Ok(bytes)
}

// The RSDT has an address of 32 bits for the FADT. The pointer of revision 0 leads to no XSDT.
#[test]
fn is_found(rt: HostRuntime) -> Result<(), Fail> {
    let alloc = rt.alloc();
    let bytes = with_pointer(with_dsdt(alloc, 0x40, 0xe000, 36)?)?;
    let found = check_image_of(alloc, Root::Rsdt, &bytes, 0x1000, 0x11b0)?;
    equal(
        &found.as_slice(),
        &[
            located(0x11b0, 20, b"RSD "),
            located(0x1180, 40, b"RSDT"),
            located(0x1068, 276, b"FACP"),
            located(0x1000, 64, b"FACS"),
            located(0x1040, 36, b"DSDT"),
        ]
        .as_slice(),
    )?;
    match check_image_of(alloc, Root::Xsdt, &bytes, 0x1000, 0x11b0) {
        Err(fault) => equal(&fault, &ImageFault::Outside(0x11b0)),
        Ok(_) => Err(Fail::new("an XSDT")),
    }
}

#[test]
fn words(rt: HostRuntime) -> Result<(), Fail> {
    let alloc = rt.alloc();
    for (fault, wanted) in [
        (RsdtFault::Table(Error::Memory), "out of memory"),
        (
            RsdtFault::NotLow,
            "the tables or the RSDP aren't below 4 GiB",
        ),
        (RsdtFault::Overlap, "the RSDP overlaps the tables"),
    ] {
        let text = format!(in alloc; "{fault}")?;
        equal(&text.as_str(), &wanted)?;
    }
    Ok(())
}
