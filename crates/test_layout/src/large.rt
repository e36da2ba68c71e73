//! An image whose tables pass 65,535 bytes, at an address of different bytes.

use crate::layout::{SHARED, dsdt, image, is, mcfg, ssdt};
use acpi_tables::R;
use acpi_tables::layout::Image;
use std::alloc::Global;
use std::test::Fail;

fn large(alloc: Global) -> R<Image> {
    let ssdt = ssdt(alloc, 66_051)?;
    let mcfg = mcfg(alloc)?;
    let units = 0x00a0_9c98_9490_4906;
    image(alloc, units, &dsdt(alloc, 65_723)?, &[&ssdt, &mcfg])
}

// From 0x2827_2625_2412_4180 on: the DSDT ends at 0x100fb, the FADT stands at 0x10100, the SSDT at 0x10218 and up to 0x2041b.
#[test]
fn addresses(rt: HostRuntime) -> Result<(), Fail> {
    is(
        rt.alloc(),
        large(rt.alloc())?,
        0x2827_2625_2414_4620,
        132_292,
        &[
            (0, &SHARED),
            (
                0x40,
                b"DSDT\xbb\0\x01\0\x02\xc7FOOBARCAFEDEAD\xef\xbe\xad\xdeRVAT\0\0\0\x01",
            ),
            (
                0x1_0100,
                b"FACP\x14\x01\0\0\x06\x18FOOBARCAFEDEAD\xef\xbe\xad\xdeRVAT\0\0\0\x01",
            ),
            (
                0x1_0183,
                b"\x05\x80\x41\x12\x24\x25\x26\x27\x28\xc0\x41\x12\x24\x25\x26\x27\x28",
            ),
            (
                0x1_0218,
                b"SSDT\x03\x02\x01\0\x02\x6eFOOBARCAFEDEAD\xef\xbe\xad\xdeRVAT\0\0\0\x01",
            ),
            (
                0x2_0420,
                b"MCFG\x3c\0\0\0\x01\xabFOOBARCAFEDEAD\xef\xbe\xad\xdeRVAT\0\0\0\x01\
                    \0\0\0\0\0\0\0\0\
                    \0\0\0\xb0\0\0\0\0\0\0\0\xff\0\0\0\0",
            ),
            (
                0x2_0460,
                b"XSDT\x3c\0\0\0\x01\x3eFOOBARCAFEDEAD\xef\xbe\xad\xdeRVAT\0\0\0\x01\
                    \x80\x42\x13\x24\x25\x26\x27\x28\
                    \x98\x43\x13\x24\x25\x26\x27\x28\
                    \xa0\x45\x14\x24\x25\x26\x27\x28",
            ),
            (
                0x2_04a0,
                b"RSD PTR \x26FOOBAR\x02\0\0\0\0\x24\0\0\0\xe0\x45\x14\x24\x25\x26\x27\x28\xe5\0\0\0",
            ),
        ],
    )
}
