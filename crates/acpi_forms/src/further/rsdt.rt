//! The Root System Description Table.

use acpi_base::header::HEADER;
use acpi_pc::rsdt::RSDT_ENTRY;
use acpi_text::form::{Inner, Part, StructureForm, TableForm};

/// The Root System Description Table (ACPI 6.5, 5.2.7). Its entries are the physical addresses of the other tables.
pub const RSDT: TableForm = TableForm {
    name: "Root System Description Table (RSDT)",
    parts: &[Part::Fields(&HEADER)],
    structures: &[StructureForm {
        number: 0,
        name: "Entry",
        parts: &[Part::Fields(&RSDT_ENTRY)],
        inner: &Inner::Nothing,
    }],
    further: &[],
    inner: &Inner::Nothing,
};
