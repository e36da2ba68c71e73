//! Images of which one byte was changed at random.

use crate::found::sample;
use crate::plain::is_image;
use acpi_tables::layout::Image;
use std::alloc::Global;
use std::test::Fail;
use test_support::equal;
use test_support::mutation::Numbers;

// The bytes with one that was changed at random.
fn changed(alloc: Global, bytes: &[u8], numbers: &mut Numbers) -> Result<Vec<u8>, Fail> {
    let mut bytes = Vec::from_slice(alloc, bytes)?;
    let place = numbers.below(bytes.len());
    let change = (numbers.below(255) % 255) as u8;
    if place >= bytes.len() {
        return Err(Fail::new("no byte"));
    }
    bytes[place] = bytes[place].wrapping_add(change).wrapping_add(1);
    Ok(bytes)
}

// Of this many changed images, the number of those that are images.
fn accepted(alloc: Global, made: &Image, count: u32) -> Result<u32, Fail> {
    let mut numbers = Numbers(0x9e37_79b9_7f4a_7c15);
    let mut accepted = 0u32;
    for _ in 0..count {
        let bytes = changed(alloc, &made.bytes, &mut numbers)?;
        if is_image(alloc, &bytes, made.rsdp)? {
            accepted = accepted.wrapping_add(1);
        }
    }
    Ok(accepted)
}

#[test]
fn single_bytes(rt: HostRuntime) -> Result<(), Fail> {
    let accepted = accepted(rt.alloc(), &sample(rt.alloc())?, 10_000)?;
    // Of 548 bytes, 80 count for nothing: 56 of the FACS, and 24 in gaps.
    equal(&(accepted > 1_300 && accepted < 1_600), &true)
}
