//! The numbers of enums, as their declarations have them.

use acpi_tables::pptt::{AllocationType, CacheType, WritePolicy};
use acpi_tables::rhct::VirtualAddressScheme;
use std::test::Fail;
use test_support::equal;

#[test]
fn nodes() -> Result<(), Fail> {
    for (number, wanted) in &[
        (AllocationType::Read as u32, 0),
        (AllocationType::Write as u32, 1),
        (AllocationType::Both as u32, 2),
        (CacheType::Data as u32, 0),
        (CacheType::Instruction as u32, 4),
        (CacheType::Unified as u32, 8),
        (WritePolicy::Writeback as u32, 0),
        (WritePolicy::Writethrough as u32, 16),
        (VirtualAddressScheme::Sv39 as u32, 0),
        (VirtualAddressScheme::Sv48 as u32, 1),
        (VirtualAddressScheme::Sv57 as u32, 2),
    ] {
        equal(number, wanted)?;
    }
    Ok(())
}
