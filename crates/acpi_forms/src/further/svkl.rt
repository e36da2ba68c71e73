//! The Storage Volume Key Location Table.

use acpi_base::header::HEADER;
use acpi_base::row::{Row, Word};
use acpi_text::form::{Inner, Part, StructureForm, TableForm};

const SVKL_FIXED: [Row; 1] = [Row::Number("Key Count", 4)];

const KEY_TYPES: [Word; 1] = [Word(0, "Main Storage Volume Key")];

const KEY_FORMATS: [Word; 1] = [Word(0, "Raw Binary")];

const KEY: [Row; 4] = [
    Row::OneOf("Key Type", 2, &KEY_TYPES),
    Row::OneOf("Key Format", 2, &KEY_FORMATS),
    Row::Number("Key Size", 4),
    Row::Hex("Key Address", 8),
];

/// The Storage Volume Key Location Table (ACPI 6.5, 5.2.35).
pub const SVKL: TableForm = TableForm {
    name: "Storage Volume Key Location Table (SVKL)",
    parts: &[Part::Fields(&HEADER), Part::Fields(&SVKL_FIXED)],
    structures: &[StructureForm {
        number: 0,
        name: "Key Structure",
        parts: &[Part::Fields(&KEY)],
        inner: &Inner::Nothing,
    }],
    further: &[],
    inner: &Inner::Nothing,
};
