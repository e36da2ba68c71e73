//! The Platform Debug Trigger Table.

use acpi_base::header::HEADER;
use acpi_base::row::{Bits, Row};
use acpi_text::form::{Inner, Part, StructureForm, TableForm};

const PDTT_FIXED: [Row; 3] = [
    Row::Number("Trigger Count", 1),
    Row::Reserved(3),
    Row::Preset("Trigger Identifier Array Offset", 4, 44),
];

const TRIGGER_BITS: [Bits; 4] = [
    Bits::Number(0xff, 0x1, "Subspace Identifier"),
    Bits::Flag(0x100, "Runtime"),
    Bits::Flag(0x200, "Wait for Completion"),
    Bits::Flag(0x400, "Trigger Order"),
];

const TRIGGER: [Row; 1] = [Row::Flags(
    "Platform Communication Channel Identifier",
    2,
    &TRIGGER_BITS,
)];

/// The Platform Debug Trigger Table (ACPI 6.5, 5.2.29).
pub const PDTT: TableForm = TableForm {
    name: "Platform Debug Trigger Table (PDTT)",
    parts: &[Part::Fields(&HEADER), Part::Fields(&PDTT_FIXED)],
    structures: &[StructureForm {
        number: 0,
        name: "Trigger Identifier",
        parts: &[Part::Fields(&TRIGGER)],
        inner: &Inner::Nothing,
    }],
    further: &[],
    inner: &Inner::Nothing,
};
