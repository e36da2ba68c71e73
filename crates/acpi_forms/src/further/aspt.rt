//! The AMD Secure Processor Table.

use acpi_base::header::HEADER;
use acpi_base::row::Row;
use acpi_text::form::{Inner, Part, StructureForm, TableForm};

const ASPT_FIXED: [Row; 1] = [Row::Number("Number of Structures", 4)];

const GLOBAL_REGISTERS: [Row; 6] = [
    Row::Preset("Type", 2, 0),
    Row::Preset("Length", 2, 32),
    Row::Reserved(4),
    Row::Hex("Feature Register Address", 8),
    Row::Hex("Interrupt Enable Register Address", 8),
    Row::Hex("Interrupt Status Register Address", 8),
];

const SEV_MAILBOX: [Row; 7] = [
    Row::Preset("Type", 2, 1),
    Row::Preset("Length", 2, 32),
    Row::Hex("Mailbox Interrupt ID", 1),
    Row::Reserved(3),
    Row::Hex("Command/Response Register Address", 8),
    Row::Hex("Command Buffer Address Low Register Address", 8),
    Row::Hex("Command Buffer Address High Register Address", 8),
];

const ACPI_MAILBOX: [Row; 5] = [
    Row::Preset("Type", 2, 2),
    Row::Preset("Length", 2, 32),
    Row::Reserved(4),
    Row::Hex("Command/Response Register Address", 8),
    Row::Reserved(16),
];

/// The AMD Secure Processor Table (AMD 58028, AMD Secure Processor ACPI Table). The layout is that of ACPICA's template; the
/// names are from memory.
pub const ASPT: TableForm = TableForm {
    name: "AMD Secure Processor Table (ASPT)",
    parts: &[Part::Fields(&HEADER), Part::Fields(&ASPT_FIXED)],
    structures: &[
        StructureForm {
            number: 0,
            name: "ASP Global Registers Structure",
            parts: &[Part::Fields(&GLOBAL_REGISTERS)],
            inner: &Inner::Nothing,
        },
        StructureForm {
            number: 1,
            name: "SEV Mailbox Registers Structure",
            parts: &[Part::Fields(&SEV_MAILBOX)],
            inner: &Inner::Nothing,
        },
        StructureForm {
            number: 2,
            name: "ACPI Mailbox Registers Structure",
            parts: &[Part::Fields(&ACPI_MAILBOX)],
            inner: &Inner::Nothing,
        },
    ],
    further: &[],
    inner: &Inner::Nothing,
};
