//! Numbers of AML as the values that constructors take.

use acpi_aml::field::{FieldAccessType, FieldLockRule, FieldUpdateRule};
use acpi_aml::region::OpRegionSpace;
use acpi_ops::search::Comparison;

/// The type of accesses with this number (ACPI 6.5, 20.2.5.2, AccessType).
pub fn access_type(number: u8) -> Option<FieldAccessType> {
    match number {
        0 => Some(FieldAccessType::Any),
        1 => Some(FieldAccessType::Byte),
        2 => Some(FieldAccessType::Word),
        3 => Some(FieldAccessType::DWord),
        4 => Some(FieldAccessType::QWord),
        5 => Some(FieldAccessType::Buffer),
        _ => None,
    }
}

/// The rule with this number (ACPI 6.5, 20.2.5.2, LockRule).
pub fn lock_rule(number: u8) -> Option<FieldLockRule> {
    match number {
        0 => Some(FieldLockRule::NoLock),
        1 => Some(FieldLockRule::Lock),
        _ => None,
    }
}

/// The rule with this number (ACPI 6.5, 20.2.5.2, UpdateRule).
pub fn update_rule(number: u8) -> Option<FieldUpdateRule> {
    match number {
        0 => Some(FieldUpdateRule::Preserve),
        1 => Some(FieldUpdateRule::WriteAsOnes),
        2 => Some(FieldUpdateRule::WriteAsZeroes),
        _ => None,
    }
}

/// The address space with this number (ACPI 6.5, 20.2.5.2, RegionSpace).
pub fn region_space(number: u8) -> Option<OpRegionSpace> {
    match number {
        0 => Some(OpRegionSpace::SystemMemory),
        1 => Some(OpRegionSpace::SystemIO),
        2 => Some(OpRegionSpace::PCIConfig),
        3 => Some(OpRegionSpace::EmbeddedControl),
        4 => Some(OpRegionSpace::SMBus),
        5 => Some(OpRegionSpace::SystemCMOS),
        6 => Some(OpRegionSpace::PciBarTarget),
        7 => Some(OpRegionSpace::IPMI),
        8 => Some(OpRegionSpace::GeneralPurposeIO),
        9 => Some(OpRegionSpace::GenericSerialBus),
        _ => None,
    }
}

/// The comparison with this number (ACPI 6.5, 20.2.5.4, MatchOpcode).
pub fn comparison(number: u8) -> Option<Comparison> {
    match number {
        0 => Some(Comparison::Always),
        1 => Some(Comparison::Equal),
        2 => Some(Comparison::LessOrEqual),
        3 => Some(Comparison::Less),
        4 => Some(Comparison::GreaterOrEqual),
        5 => Some(Comparison::Greater),
        _ => None,
    }
}
