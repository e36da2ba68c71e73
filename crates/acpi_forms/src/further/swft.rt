//! The SoundWire File Table.

use acpi_base::header::HEADER;
use acpi_base::row::Row;
use acpi_base::walk::Place;
use acpi_text::form::{Inner, Part, StructureForm, TableForm};

const FILE: [Row; 4] = [
    Row::Hex("Vendor ID", 2),
    Row::Hex("File ID", 4),
    Row::Hex("File Version", 2),
    Row::Number("File Length", 4),
];

/// The SoundWire File Table (MIPI SoundWire Device Class for Audio). The layout is that of ACPICA's template; the names are from
/// memory.
pub const SWFT: TableForm = TableForm {
    name: "SoundWire File Table (SWFT)",
    parts: &[Part::Fields(&HEADER)],
    structures: &[StructureForm {
        number: 0,
        name: "SoundWire File",
        parts: &[
            Part::Fields(&FILE),
            Part::Until("File Data", Place::DWord(8)),
        ],
        inner: &Inner::Nothing,
    }],
    further: &[],
    inner: &Inner::Nothing,
};
