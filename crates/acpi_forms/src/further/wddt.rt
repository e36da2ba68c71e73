//! The Watchdog Descriptor Table.

use acpi_base::header::HEADER;
use acpi_base::row::Row;
use acpi_text::form::{Inner, Part, TableForm};

const WDDT_ROWS: [Row; 9] = [
    Row::Hex("Specification Version", 2),
    Row::Hex("Table Version", 2),
    Row::Hex("PCI Vendor ID", 2),
    Row::Register("Base Address"),
    Row::Number("Timer Max Count", 2),
    Row::Number("Timer Min Count", 2),
    Row::Number("Timer Count Period", 2),
    Row::Hex("Status", 2),
    Row::Hex("Capability", 2),
];

/// The Watchdog Descriptor Table (Intel). The bits of its status and of its capability have no names here.
pub const WDDT: TableForm = TableForm {
    name: "Watchdog Descriptor Table (WDDT)",
    parts: &[Part::Fields(&HEADER), Part::Fields(&WDDT_ROWS)],
    structures: &[],
    further: &[],
    inner: &Inner::Nothing,
};
