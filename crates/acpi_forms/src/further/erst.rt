//! The Error Record Serialization Table.

use acpi_base::header::HEADER;
use acpi_base::row::Row;
use acpi_pc::erst::{ERST_FIXED, SERIALIZATION_ENTRY};
use acpi_text::form::{Inner, Part, StructureForm, TableForm};

const ENTRY_COUNT: [Row; 1] = [Row::Number("Instruction Entry Count", 4)];

/// The Error Record Serialization Table (ACPI 6.5, 18.5.1).
pub const ERST: TableForm = TableForm {
    name: "Error Record Serialization Table (ERST)",
    parts: &[
        Part::Fields(&HEADER),
        Part::Fields(&ERST_FIXED),
        Part::Fields(&ENTRY_COUNT),
    ],
    structures: &[StructureForm {
        number: 0,
        name: "Serialization Instruction Entry",
        parts: &[Part::Fields(&SERIALIZATION_ENTRY)],
        inner: &Inner::Nothing,
    }],
    further: &[],
    inner: &Inner::Nothing,
};
