//! The Service Processor Management Interface Table.

use acpi_base::header::HEADER;
use acpi_base::row::{Bits, Row, Word};
use acpi_text::form::{Inner, Part, TableForm};

const INTERFACES: [Word; 4] = [
    Word(1, "KCS"),
    Word(2, "SMIC"),
    Word(3, "BT"),
    Word(4, "SSIF"),
];

const INTERRUPTS: [Bits; 2] = [
    Bits::Flag(0x1, "SCI by GPE"),
    Bits::Flag(0x2, "I/O APIC/SAPIC Interrupt"),
];

// What the fields after the base address are.
const LOCATIONS: [Word; 2] = [Word(0, "UID"), Word(1, "PCI")];

const SPMI_ROWS: [Row; 14] = [
    Row::OneOf("Interface Type", 1, &INTERFACES),
    Row::Preset("Reserved", 1, 1),
    Row::Hex("Specification Revision", 2),
    Row::Flags("Interrupt Type", 1, &INTERRUPTS),
    Row::Number("GPE", 1),
    Row::Reserved(1),
    Row::OneOf("PCI Device Flag", 1, &LOCATIONS),
    Row::Number("Global System Interrupt", 4),
    Row::Register("Base Address"),
    Row::Hex("PCI Segment Group Number", 1),
    Row::Hex("PCI Bus Number", 1),
    Row::Hex("PCI Device Number", 1),
    Row::Hex("PCI Function Number", 1),
    Row::Reserved(1),
];

/// The Service Processor Management Interface Table (IPMI 2.0, appendix C3). Without a PCI device the four fields after the base
/// address are the parts of a UID.
pub const SPMI: TableForm = TableForm {
    name: "Service Processor Management Interface Table (SPMI)",
    parts: &[Part::Fields(&HEADER), Part::Fields(&SPMI_ROWS)],
    structures: &[],
    further: &[],
    inner: &Inner::Nothing,
};
