//! The event log of confidential computing.

use acpi_base::header::HEADER;
use acpi_base::row::{Row, Word};
use acpi_text::form::{Inner, Part, TableForm};

const CC_TYPES: [Word; 2] = [Word(1, "AMD SEV"), Word(2, "Intel TDX")];

const CCEL_ROWS: [Row; 5] = [
    Row::OneOf("CC Type", 1, &CC_TYPES),
    Row::Hex("CC Subtype", 1),
    Row::Reserved(2),
    Row::Number("Log Area Minimum Length", 8),
    Row::Hex("Log Area Start Address", 8),
];

/// The CC Event Log Table (ACPI 6.5, 5.2.34).
pub const CCEL: TableForm = TableForm {
    name: "CC Event Log Table (CCEL)",
    parts: &[Part::Fields(&HEADER), Part::Fields(&CCEL_ROWS)],
    structures: &[],
    further: &[],
    inner: &Inner::Nothing,
};
