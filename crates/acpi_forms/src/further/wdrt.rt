//! The Watchdog Resource Table.

use acpi_base::header::HEADER;
use acpi_base::row::Row;
use acpi_text::form::{Inner, Part, TableForm};

const WDRT_ROWS: [Row; 10] = [
    Row::Register("Control Register Address"),
    Row::Register("Count Register Address"),
    Row::Hex("PCI Device ID", 2),
    Row::Hex("PCI Vendor ID", 2),
    Row::Hex("PCI Bus Number", 1),
    Row::Hex("PCI Device Number", 1),
    Row::Hex("PCI Function Number", 1),
    Row::Hex("PCI Segment", 1),
    Row::Number("Maximum Count", 2),
    Row::Number("Units", 1),
];

/// The Watchdog Resource Table (Microsoft, Hardware Watchdog Timers Design Specification).
pub const WDRT: TableForm = TableForm {
    name: "Watchdog Resource Table (WDRT)",
    parts: &[Part::Fields(&HEADER), Part::Fields(&WDRT_ROWS)],
    structures: &[],
    further: &[],
    inner: &Inner::Nothing,
};
