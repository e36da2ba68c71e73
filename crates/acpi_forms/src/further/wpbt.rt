//! The Windows Platform Binary Table.

use acpi_base::header::HEADER;
use acpi_base::row::{Row, Word};
use acpi_base::walk::Place;
use acpi_text::form::{Inner, Part, TableForm};

const LAYOUTS: [Word; 1] = [Word(1, "Single PE Image")];

const CONTENTS: [Word; 1] = [Word(1, "Native Application")];

const WPBT_ROWS: [Row; 5] = [
    Row::Number("Handoff Memory Size", 4),
    Row::Hex("Handoff Memory Location", 8),
    Row::OneOf("Content Layout", 1, &LAYOUTS),
    Row::OneOf("Content Type", 1, &CONTENTS),
    Row::Number("Command-line Argument Length", 2),
];

/// The Windows Platform Binary Table (Microsoft). The arguments are in UTF-16.
pub const WPBT: TableForm = TableForm {
    name: "Windows Platform Binary Table (WPBT)",
    parts: &[
        Part::Fields(&HEADER),
        Part::Fields(&WPBT_ROWS),
        Part::Bytes("Command-line Arguments", Place::Word(50)),
    ],
    structures: &[],
    further: &[],
    inner: &Inner::Nothing,
};
