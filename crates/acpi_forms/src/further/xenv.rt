//! The Xen Environment Table.

use acpi_base::header::HEADER;
use acpi_base::row::{Bits, Row, Word};
use acpi_text::form::{Inner, Part, TableForm};

const TRIGGERS: [Word; 2] = [Word(0x0, "Level Triggered"), Word(0x1, "Edge Triggered")];

const POLARITIES: [Word; 2] = [Word(0x0, "Active High"), Word(0x2, "Active Low")];

const INTERRUPT_FLAGS: [Bits; 2] = [Bits::OneOf(0x1, &TRIGGERS), Bits::OneOf(0x2, &POLARITIES)];

const XENV_ROWS: [Row; 4] = [
    Row::Hex("Grant Table Address", 8),
    Row::Number("Grant Table Size", 8),
    Row::Number("Event Channel Interrupt", 4),
    Row::Flags("Event Channel Interrupt Flags", 1, &INTERRUPT_FLAGS),
];

/// The Xen Environment Table (Xen Project).
pub const XENV: TableForm = TableForm {
    name: "Xen Environment Table (XENV)",
    parts: &[Part::Fields(&HEADER), Part::Fields(&XENV_ROWS)],
    structures: &[],
    further: &[],
    inner: &Inner::Nothing,
};
