//! The BIOS Data ACPI Table.

use acpi_base::header::HEADER;
use acpi_base::row::Row;
use acpi_text::form::{Inner, Part, TableForm};

const BDAT_ROWS: [Row; 1] = [Row::Register("BDAT Generic Address")];

/// The BIOS Data ACPI Table (Intel): the address of the data.
pub const BDAT: TableForm = TableForm {
    name: "BIOS Data ACPI Table (BDAT)",
    parts: &[Part::Fields(&HEADER), Part::Fields(&BDAT_ROWS)],
    structures: &[],
    further: &[],
    inner: &Inner::Nothing,
};
