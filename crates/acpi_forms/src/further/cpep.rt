//! The Corrected Platform Error Polling Table.

use acpi_base::header::HEADER;
use acpi_base::row::Row;
use acpi_text::form::{Inner, Part, StructureForm, TableForm};

const CPEP_FIXED: [Row; 1] = [Row::Reserved(8)];

const PROCESSOR: [Row; 5] = [
    Row::Preset("Type", 1, 0),
    Row::Preset("Length", 1, 8),
    Row::Hex("Processor ID", 1),
    Row::Hex("Processor EID", 1),
    Row::Number("Polling Interval", 4),
];

/// The Corrected Platform Error Polling Table (ACPI 6.5, 5.2.18).
pub const CPEP: TableForm = TableForm {
    name: "Corrected Platform Error Polling Table (CPEP)",
    parts: &[Part::Fields(&HEADER), Part::Fields(&CPEP_FIXED)],
    structures: &[StructureForm {
        number: 0,
        name: "Corrected Platform Error Polling Processor Structure",
        parts: &[Part::Fields(&PROCESSOR)],
        inner: &Inner::Nothing,
    }],
    further: &[],
    inner: &Inner::Nothing,
};
