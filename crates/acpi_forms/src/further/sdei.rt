//! The Software Delegated Exceptions Interface Table.

use acpi_base::header::HEADER;
use acpi_text::form::{Inner, Part, TableForm};

/// The Software Delegated Exceptions Interface Table (Arm DEN0054): a header.
pub const SDEI: TableForm = TableForm {
    name: "Software Delegated Exceptions Interface Table (SDEI)",
    parts: &[Part::Fields(&HEADER)],
    structures: &[],
    further: &[],
    inner: &Inner::Nothing,
};
