//! The Platform Health Assessment Table.

use acpi_base::header::HEADER;
use acpi_base::row::{Row, Word};
use acpi_base::walk::Place;
use acpi_text::form::{Count, Inner, Part, StructureForm, TableForm};

const VERSIONS: [Row; 5] = [
    Row::Preset("Record Type", 2, 0),
    Row::Number("Record Length", 2),
    Row::Number("Revision", 1),
    Row::Reserved(3),
    Row::Number("Record Count", 4),
];

const VERSION: [Row; 3] = [
    Row::Uuid("Component ID"),
    Row::Hex("Version Value", 8),
    Row::Text("Producer ID", 4),
];

const HEALTHS: [Word; 4] = [
    Word(0, "Errors Found"),
    Word(1, "No Errors Found"),
    Word(2, "Unknown"),
    Word(3, "Advisory"),
];

const HEALTH: [Row; 7] = [
    Row::Preset("Record Type", 2, 1),
    Row::Number("Record Length", 2),
    Row::Number("Revision", 1),
    Row::Reserved(2),
    Row::OneOf("AmHealthy", 1, &HEALTHS),
    Row::Uuid("Device Signature"),
    Row::Number("Device-specific Data Offset", 4),
];

const RECORDS: [StructureForm; 2] = [
    StructureForm {
        number: 0,
        name: "Firmware Version Data Record",
        parts: &[
            Part::Fields(&VERSIONS),
            Part::Entries(
                "PHAT Version Element",
                Count::Field(Place::DWord(8)),
                &VERSION,
            ),
        ],
        inner: &Inner::Nothing,
    },
    StructureForm {
        number: 1,
        name: "Firmware Health Data Record",
        parts: &[
            Part::Fields(&HEALTH),
            Part::Until("Device Path", Place::DWord(24)),
            Part::Until("Device Path or Device-specific Data", Place::Word(2)),
        ],
        inner: &Inner::Nothing,
    },
];

/// The Platform Health Assessment Table (ACPI 6.5, 5.2.31). A device path ends where the device-specific data begin. If their
/// offset is 0, there are none, and the path ends with the record.
pub const PHAT: TableForm = TableForm {
    name: "Platform Health Assessment Table (PHAT)",
    parts: &[Part::Fields(&HEADER)],
    structures: &RECORDS,
    further: &[],
    inner: &Inner::Nothing,
};
