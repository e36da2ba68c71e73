//! The Maximum System Characteristics Table.

use acpi_base::header::HEADER;
use acpi_base::row::Row;
use acpi_text::form::{Inner, Part, StructureForm, TableForm};

const MSCT_FIXED: [Row; 4] = [
    Row::Preset("Offset to Proximity Domain Information Structure", 4, 56),
    Row::Number("Maximum Number of Proximity Domains", 4),
    Row::Number("Maximum Number of Clock Domains", 4),
    Row::Hex("Maximum Physical Address", 8),
];

const DOMAINS: [Row; 6] = [
    Row::Preset("Revision", 1, 1),
    Row::Preset("Length", 1, 22),
    Row::Hex("Proximity Domain Range (low)", 4),
    Row::Hex("Proximity Domain Range (high)", 4),
    Row::Number("Maximum Processor Capacity", 4),
    Row::Number("Maximum Memory Capacity", 8),
];

/// The Maximum System Characteristics Table (ACPI 6.5, 5.2.19). The two numbers of domains are one less than the domains.
pub const MSCT: TableForm = TableForm {
    name: "Maximum System Characteristics Table (MSCT)",
    parts: &[Part::Fields(&HEADER), Part::Fields(&MSCT_FIXED)],
    structures: &[StructureForm {
        number: 0,
        name: "Maximum Proximity Domain Information Structure",
        parts: &[Part::Fields(&DOMAINS)],
        inner: &Inner::Nothing,
    }],
    further: &[],
    inner: &Inner::Nothing,
};
