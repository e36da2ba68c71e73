//! The ACPI RAS2 Feature Table.

use acpi_base::header::HEADER;
use acpi_base::row::{Row, Word};
use acpi_text::form::{Inner, Part, StructureForm, TableForm};

const RAS2_FIXED: [Row; 2] = [
    Row::Reserved(2),
    Row::Number("Number of PCC Descriptors", 2),
];

const FEATURES: [Word; 1] = [Word(0, "Memory")];

const DESCRIPTOR: [Row; 4] = [
    Row::Hex("PCC Identifier", 1),
    Row::Reserved(2),
    Row::OneOf("Feature Type", 1, &FEATURES),
    Row::Hex("Instance", 4),
];

/// The ACPI RAS2 Feature Table (ACPI 6.5, 5.2.21).
pub const RAS2: TableForm = TableForm {
    name: "ACPI RAS2 Feature Table (RAS2)",
    parts: &[Part::Fields(&HEADER), Part::Fields(&RAS2_FIXED)],
    structures: &[StructureForm {
        number: 0,
        name: "RAS2 PCC Descriptor",
        parts: &[Part::Fields(&DESCRIPTOR)],
        inner: &Inner::Nothing,
    }],
    further: &[],
    inner: &Inner::Nothing,
};
