//! The Status Override Table.

use acpi_base::header::HEADER;
use acpi_base::row::{Row, Word};
use acpi_base::walk::Place;
use acpi_text::form::{Inner, Part, TableForm};

// Whether the UART of an SPCR is left to the hypervisor.
const UART_WORDS: [Word; 2] = [Word(0, "Used"), Word(1, "Ignored")];

const STAO_ROWS: [Row; 1] = [Row::OneOf("UART", 1, &UART_WORDS)];

/// The Status Override Table (Xen Project). The list ends with the table. Each name in it ends with a zero.
pub const STAO: TableForm = TableForm {
    name: "Status Override Table (STAO)",
    parts: &[
        Part::Fields(&HEADER),
        Part::Fields(&STAO_ROWS),
        Part::Until("Name List", Place::DWord(4)),
    ],
    structures: &[],
    further: &[],
    inner: &Inner::Nothing,
};
