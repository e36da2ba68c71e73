//! The Smart Battery Specification Table.

use acpi_base::header::HEADER;
use acpi_base::row::Row;
use acpi_text::form::{Inner, Part, TableForm};

const SBST_ROWS: [Row; 3] = [
    Row::Number("Warning Energy Level", 4),
    Row::Number("Low Energy Level", 4),
    Row::Number("Critical Energy Level", 4),
];

/// The Smart Battery Specification Table (ACPI 6.5, 5.2.14). Energies are in mWh.
pub const SBST: TableForm = TableForm {
    name: "Smart Battery Specification Table (SBST)",
    parts: &[Part::Fields(&HEADER), Part::Fields(&SBST_ROWS)],
    structures: &[],
    further: &[],
    inner: &Inner::Nothing,
};
