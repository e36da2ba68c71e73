//! The Arm Generic Diagnostic Dump and Reset Interface Table.

use acpi_base::header::HEADER;
use acpi_base::row::{Bits, Row, Word};
use acpi_text::form::{Inner, Part, TableForm};

const SIGNALING_MODES: [Word; 2] = [Word(0x0, "SDEI"), Word(0x1, "Interrupt")];

const AGDI_FLAGS: [Bits; 1] = [Bits::OneOf(0x1, &SIGNALING_MODES)];

const AGDI_ROWS: [Row; 4] = [
    Row::Flags("Flags", 1, &AGDI_FLAGS),
    Row::Reserved(3),
    Row::Number("SDEI Event Number", 4),
    Row::Number("GSIV", 4),
];

/// The Arm Generic Diagnostic Dump and Reset Interface Table (Arm DEN0093).
pub const AGDI: TableForm = TableForm {
    name: "Arm Generic Diagnostic Dump and Reset Interface Table (AGDI)",
    parts: &[Part::Fields(&HEADER), Part::Fields(&AGDI_ROWS)],
    structures: &[],
    further: &[],
    inner: &Inner::Nothing,
};
