//! The Low Power Idle Table.

use acpi_base::header::HEADER;
use acpi_base::row::{Bits, Row};
use acpi_text::form::{Inner, Part, StructureForm, TableForm};

const STATE_FLAGS: [Bits; 2] = [
    Bits::Flag(0x1, "Disabled"),
    Bits::Flag(0x2, "Counter Unavailable"),
];

const NATIVE_C_STATE: [Row; 10] = [
    Row::Preset("Type", 4, 0),
    Row::Preset("Length", 4, 56),
    Row::Number("Unique ID", 2),
    Row::Reserved(2),
    Row::Flags("Flags", 4, &STATE_FLAGS),
    Row::Register("Entry Trigger"),
    Row::Number("Residency", 4),
    Row::Number("Latency", 4),
    Row::Register("Residency Counter"),
    Row::Number("Residency Counter Frequency", 8),
];

/// The Low Power Idle Table (Intel Low Power S0 Idle 1.1).
pub const LPIT: TableForm = TableForm {
    name: "Low Power Idle Table (LPIT)",
    parts: &[Part::Fields(&HEADER)],
    structures: &[StructureForm {
        number: 0,
        name: "Native C-State Instruction Structure",
        parts: &[Part::Fields(&NATIVE_C_STATE)],
        inner: &Inner::Nothing,
    }],
    further: &[],
    inner: &Inner::Nothing,
};
