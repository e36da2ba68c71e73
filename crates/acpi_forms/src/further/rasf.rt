//! The ACPI RAS Feature Table.

use acpi_base::header::HEADER;
use acpi_base::row::Row;
use acpi_text::form::{Inner, Part, TableForm};

const RASF_ROWS: [Row; 1] = [Row::Bytes("RASF Platform Communication Channel Identifier", 12)];

/// The ACPI RAS Feature Table (ACPI 6.5, 5.2.20).
pub const RASF: TableForm = TableForm {
    name: "ACPI RAS Feature Table (RASF)",
    parts: &[Part::Fields(&HEADER), Part::Fields(&RASF_ROWS)],
    structures: &[],
    further: &[],
    inner: &Inner::Nothing,
};
