//! The Regulatory Graphics Resource Table.

use acpi_base::header::HEADER;
use acpi_base::row::{Row, Word};
use acpi_base::walk::Place;
use acpi_text::form::{Inner, Part, TableForm};

const IMAGE_TYPES: [Word; 1] = [Word(1, "PNG")];

const RGRT_ROWS: [Row; 3] = [
    Row::Preset("Version", 2, 1),
    Row::OneOf("Image Type", 1, &IMAGE_TYPES),
    Row::Reserved(1),
];

/// The Regulatory Graphics Resource Table (registered with the UEFI Forum).
pub const RGRT: TableForm = TableForm {
    name: "Regulatory Graphics Resource Table (RGRT)",
    parts: &[
        Part::Fields(&HEADER),
        Part::Fields(&RGRT_ROWS),
        Part::Until("Image", Place::DWord(4)),
    ],
    structures: &[],
    further: &[],
    inner: &Inner::Nothing,
};
