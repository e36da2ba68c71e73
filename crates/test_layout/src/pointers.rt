//! Images whose FADT has the addresses of the FACS and the DSDT in its fields of 32 bits, of 64 bits, or both (ACPI 6.5, 5.2.9).

use crate::found::{overwrite, sample};
use crate::plain::is_image;
use acpi_tables::layout::Image;
use std::alloc::Global;
use std::test::Fail;
use test_support::equal;

// Fields of the FADT at 0x68.
#[derive(Clone, Copy)]
struct Fields {
    firmware_ctrl: u32,
    dsdt: u32,
    flags: u32,
    x_firmware_ctrl: u64,
    x_dsdt: u64,
}

// The FADT sums to zero again.
fn mend(bytes: &mut Vec<u8>) -> Result<(), Fail> {
    let mut sum = 0u8;
    for byte in bytes.get(0x68..0x17c).unwrap_or(&[]) {
        sum = sum.wrapping_sub(*byte);
    }
    let checksum = bytes.get(0x71).copied().unwrap_or(0);
    overwrite(bytes, 0x71, &[checksum.wrapping_add(sum)])
}

// Writes these fields over those of the FADT.
fn put_fields(bytes: &mut Vec<u8>, fields: Fields) -> Result<(), Fail> {
    overwrite(bytes, 0x8c, &fields.firmware_ctrl.to_le_bytes())?;
    overwrite(bytes, 0x90, &fields.dsdt.to_le_bytes())?;
    overwrite(bytes, 0xd8, &fields.flags.to_le_bytes())?;
    overwrite(bytes, 0xec, &fields.x_firmware_ctrl.to_le_bytes())?;
    overwrite(bytes, 0xf4, &fields.x_dsdt.to_le_bytes())?;
    mend(bytes)
}

// The bytes of an image with these fields of its FADT.
fn with_fields(alloc: Global, made: &Image, fields: Fields) -> Result<Vec<u8>, Fail> {
    let mut bytes = Vec::from_slice(alloc, &made.bytes)?;
    put_fields(&mut bytes, fields)?;
    Ok(bytes)
}

// No address, that of the FACS, or that of the DSDT.
fn address(choice: u32) -> u32 {
    match choice % 3 {
        0 => 0,
        1 => 0x1000,
        _ => 0x1040,
    }
}

// With these Flags, and each of the three addresses in each field, the number of those that are images.
fn accepted(alloc: Global, made: &Image, flags: u32) -> Result<u32, Fail> {
    let mut accepted = 0u32;
    for choice in 0..81u32 {
        let fields = Fields {
            firmware_ctrl: address(choice),
            dsdt: address(choice / 3),
            flags,
            x_firmware_ctrl: u64::from(address(choice / 9)),
            x_dsdt: u64::from(address(choice / 27)),
        };
        let bytes = with_fields(alloc, made, fields)?;
        if is_image(alloc, &bytes, made.rsdp)? {
            accepted = accepted.wrapping_add(1);
        }
    }
    Ok(accepted)
}

// A table has nine pairs of addresses. With four of them it is found: with its own in the field of 64 bits and any in the other,
// or with 0 there and its own in the field of 32 bits. If both are 0, a hardware-reduced machine has no FACS.
#[test]
fn either_width(rt: HostRuntime) -> Result<(), Fail> {
    let made = sample(rt.alloc())?;
    equal(&accepted(rt.alloc(), &made, 0)?, &16)?;
    equal(&accepted(rt.alloc(), &made, 0x0010_0000)?, &20)
}
