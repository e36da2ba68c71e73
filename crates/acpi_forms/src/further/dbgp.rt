//! The Debug Port Table.

use acpi_base::header::HEADER;
use acpi_base::row::{Row, Word};
use acpi_text::form::{Inner, Part, TableForm};

const INTERFACES: [Word; 2] = [Word(0, "Full 16550"), Word(1, "16550 Subset")];

const DBGP_ROWS: [Row; 3] = [
    Row::OneOf("Interface Type", 1, &INTERFACES),
    Row::Reserved(3),
    Row::Register("Base Address"),
];

/// The Debug Port Table (Microsoft, Debug Port Specification).
pub const DBGP: TableForm = TableForm {
    name: "Debug Port Table (DBGP)",
    parts: &[Part::Fields(&HEADER), Part::Fields(&DBGP_ROWS)],
    structures: &[],
    further: &[],
    inner: &Inner::Nothing,
};
