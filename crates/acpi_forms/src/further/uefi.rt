//! The UEFI ACPI Data Table.

use acpi_base::header::HEADER;
use acpi_base::row::Row;
use acpi_text::form::{Inner, Part, TableForm};

// The data begin after these fields.
const UEFI_ROWS: [Row; 2] = [Row::Uuid("Identifier"), Row::Preset("DataOffset", 2, 54)];

/// The UEFI ACPI Data Table (UEFI 2.10, appendix O). What its data are depends on the identifier, so they have no names.
pub const UEFI: TableForm = TableForm {
    name: "UEFI ACPI Data Table (UEFI)",
    parts: &[Part::Fields(&HEADER), Part::Fields(&UEFI_ROWS)],
    structures: &[],
    further: &[],
    inner: &Inner::Nothing,
};
