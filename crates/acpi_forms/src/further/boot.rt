//! The Simple Boot Flag Table.

use acpi_base::header::HEADER;
use acpi_base::row::Row;
use acpi_text::form::{Inner, Part, TableForm};

const BOOT_ROWS: [Row; 2] = [Row::Number("CMOS Index", 1), Row::Reserved(3)];

/// The Simple Boot Flag Table (Microsoft, Simple Boot Flag Specification 2.1).
pub const BOOT: TableForm = TableForm {
    name: "Simple Boot Flag Table (BOOT)",
    parts: &[Part::Fields(&HEADER), Part::Fields(&BOOT_ROWS)],
    structures: &[],
    further: &[],
    inner: &Inner::Nothing,
};
