//! The Embedded Controller Boot Resources Table.

use acpi_base::header::HEADER;
use acpi_base::row::Row;
use acpi_base::walk::Place;
use acpi_text::form::{Inner, Part, TableForm};

const ECDT_ROWS: [Row; 4] = [
    Row::Register("EC_CONTROL"),
    Row::Register("EC_DATA"),
    Row::Number("UID", 4),
    Row::Number("GPE_BIT", 1),
];

/// The Embedded Controller Boot Resources Table (ACPI 6.5, 5.2.15). The last field ends with the table.
pub const ECDT: TableForm = TableForm {
    name: "Embedded Controller Boot Resources Table (ECDT)",
    parts: &[
        Part::Fields(&HEADER),
        Part::Fields(&ECDT_ROWS),
        Part::Until("EC_ID", Place::DWord(4)),
    ],
    structures: &[],
    further: &[],
    inner: &Inner::Nothing,
};
