//! The Management Controller Host Interface Table.

use acpi_base::header::HEADER;
use acpi_base::row::Row;
use acpi_text::form::{Inner, Part, TableForm};

const MCHI_ROWS: [Row; 12] = [
    Row::Hex("Interface Type", 1),
    Row::Hex("Protocol Identifier", 1),
    Row::Bytes("Protocol-specific Data", 8),
    Row::Hex("Interrupt Type", 1),
    Row::Number("GPE", 1),
    Row::Hex("PCI Device Flag", 1),
    Row::Number("Global System Interrupt", 4),
    Row::Register("Base Address"),
    Row::Hex("PCI Segment Group Number", 1),
    Row::Hex("PCI Bus Number", 1),
    Row::Hex("PCI Device Number", 1),
    Row::Hex("PCI Function Number", 1),
];

/// The Management Controller Host Interface Table (DMTF DSP0256 1.0). The numbers of its types have no words here.
pub const MCHI: TableForm = TableForm {
    name: "Management Controller Host Interface Table (MCHI)",
    parts: &[Part::Fields(&HEADER), Part::Fields(&MCHI_ROWS)],
    structures: &[],
    further: &[],
    inner: &Inner::Nothing,
};
