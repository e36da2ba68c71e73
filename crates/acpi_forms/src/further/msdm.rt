//! The Microsoft Data Management Table.

use acpi_base::header::HEADER;
use acpi_base::row::Row;
use acpi_base::walk::Place;
use acpi_text::form::{Inner, Part, TableForm};

const MSDM_ROWS: [Row; 5] = [
    Row::Number("Version", 4),
    Row::Reserved(4),
    Row::Number("Data Type", 4),
    Row::Reserved(4),
    Row::Number("Data Length", 4),
];

/// The Microsoft Data Management Table (Microsoft, Software Licensing Tables). Microsoft doesn't publish what its licensing
/// structure consists of. These are the names in common use.
pub const MSDM: TableForm = TableForm {
    name: "Microsoft Data Management Table (MSDM)",
    parts: &[
        Part::Fields(&HEADER),
        Part::Fields(&MSDM_ROWS),
        Part::Bytes("Data", Place::DWord(52)),
    ],
    structures: &[],
    further: &[],
    inner: &Inner::Nothing,
};
