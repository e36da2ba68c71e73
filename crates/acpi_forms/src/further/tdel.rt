//! The event log of a trust domain.

use acpi_base::header::HEADER;
use acpi_base::row::Row;
use acpi_text::form::{Inner, Part, TableForm};

const TDEL_ROWS: [Row; 3] = [
    Row::Reserved(4),
    Row::Number("Log Area Minimum Length", 8),
    Row::Hex("Log Area Start Address", 8),
];

/// The TD Event Log Table (Intel, Guest-Host-Communication Interface for Intel TDX).
pub const TDEL: TableForm = TableForm {
    name: "TD Event Log Table (TDEL)",
    parts: &[Part::Fields(&HEADER), Part::Fields(&TDEL_ROWS)],
    structures: &[],
    further: &[],
    inner: &Inner::Nothing,
};
