//! Definition blocks that aren't a DSDT or an SSDT. Their terms have no fields.

use acpi_base::header::HEADER;
use acpi_text::form::{Inner, Part, TableForm};

/// The Persistent System Description Table (ACPI 6.5, 5.2.11.3).
pub const PSDT: TableForm = TableForm {
    name: "Persistent System Description Table (PSDT)",
    parts: &[Part::Fields(&HEADER)],
    structures: &[],
    further: &[],
    inner: &Inner::Nothing,
};

/// The Override System Description Table, which replaces another definition block. It isn't in the standard.
pub const OSDT: TableForm = TableForm {
    name: "Override System Description Table (OSDT)",
    parts: &[Part::Fields(&HEADER)],
    structures: &[],
    further: &[],
    inner: &Inner::Nothing,
};
