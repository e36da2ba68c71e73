//! The Memory Range and Region Mapping Structure.

use acpi_base::header::HEADER;
use acpi_base::row::{Bits, Row};
use acpi_base::walk::Place;
use acpi_text::form::{Inner, Part, StructureForm, TableForm};

const MRRM_FIXED: [Row; 3] = [
    Row::Number("Maximum Number of Memory Regions", 1),
    Row::Flags("Flags", 1, &[Bits::Flag(0x1, "Region Assignment Type")]),
    Row::Reserved(26),
];

const RANGE: [Row; 9] = [
    Row::Preset("Type", 2, 0),
    Row::Number("Length", 2),
    Row::Reserved(4),
    Row::Hex("Base Address", 8),
    Row::Hex("Length of the Range", 8),
    Row::Flags(
        "Region ID Flags",
        2,
        &[
            Bits::Flag(0x1, "Local Region ID Valid"),
            Bits::Flag(0x2, "Remote Region ID Valid"),
        ],
    ),
    Row::Number("Static Local Region ID", 1),
    Row::Number("Static Remote Region ID", 1),
    Row::Reserved(4),
];

/// The Memory Range and Region Mapping Structure (Intel Resource Director Technology Architecture Specification). The layout
/// is that of ACPICA's template; the names are from memory.
pub const MRRM: TableForm = TableForm {
    name: "Memory Range and Region Mapping Structure (MRRM)",
    parts: &[Part::Fields(&HEADER), Part::Fields(&MRRM_FIXED)],
    structures: &[StructureForm {
        number: 0,
        name: "Memory Range Entry",
        parts: &[
            Part::Fields(&RANGE),
            Part::Until("Region ID Programming Registers", Place::Word(2)),
        ],
        inner: &Inner::Nothing,
    }],
    further: &[],
    inner: &Inner::Nothing,
};
