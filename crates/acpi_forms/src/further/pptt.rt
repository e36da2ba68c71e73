//! A structure of the Processor Properties Topology Table that no library call writes: the ids of a component.

use acpi_base::row::Row;

/// The rows of the ID structure (ACPI 6.3, 5.2.29.3). Later versions of the standard no longer have it.
pub const PPTT_ID_ROWS: [Row; 9] = [
    Row::Preset("Type", 1, 2),
    Row::Preset("Length", 1, 30),
    Row::Reserved(2),
    Row::Text("VENDOR_ID", 4),
    Row::Hex("LEVEL_1_ID", 8),
    Row::Hex("LEVEL_2_ID", 8),
    Row::Number("MAJOR_REV", 2),
    Row::Number("MINOR_REV", 2),
    Row::Number("SPIN_REV", 2),
];
