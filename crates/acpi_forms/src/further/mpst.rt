//! The Memory Power State Table.

use acpi_base::header::HEADER;
use acpi_base::row::{Bits, Row};
use acpi_base::walk::{Place, Sizes};
use acpi_text::form::{Count, Inner, InnerForm, InnerList, InnerSize, Part, Start, TableForm};

const MPST_FIXED: [Row; 4] = [
    Row::Hex("MPST Platform Communication Channel Identifier", 1),
    Row::Reserved(3),
    Row::Number("Memory Power Node Count", 2),
    Row::Reserved(2),
];

const NODE_FLAGS: [Bits; 3] = [
    Bits::Flag(0x1, "Enabled"),
    Bits::Flag(0x2, "Power Managed"),
    Bits::Flag(0x4, "Hot Pluggable"),
];

const NODE: [Row; 8] = [
    Row::Flags("Flags", 1, &NODE_FLAGS),
    Row::Reserved(1),
    Row::Number("Memory Power Node Id", 2),
    Row::Number("Length", 4),
    Row::Hex("Base Address", 8),
    Row::Number("Length of Range", 8),
    Row::Number("Number of Memory Power States", 4),
    Row::Number("Number of Physical Components", 4),
];

const STATE: [Row; 2] = [
    Row::Number("Memory Power State Value", 1),
    Row::Number("Memory Power State Information Index", 1),
];

const COUNTED: [Row; 2] = [
    Row::Number("Memory Power State Characteristics Count", 2),
    Row::Reserved(2),
];

const CHARACTERISTICS_FLAGS: [Bits; 3] = [
    Bits::Flag(0x1, "Memory Content Preserved"),
    Bits::Flag(0x2, "Autonomous Entry"),
    Bits::Flag(0x4, "Autonomous Exit"),
];

const CHARACTERISTICS: [Row; 7] = [
    Row::Hex("Memory Power State Structure ID", 1),
    Row::Flags("Flags", 1, &CHARACTERISTICS_FLAGS),
    Row::Reserved(2),
    Row::Number("Average Power Consumed in MPS0", 4),
    Row::Number("Relative Power Saving to MPS0", 4),
    Row::Number("Exit Latency", 8),
    Row::Reserved(8),
];

// The nodes, and the characteristics of all states of power.
const LISTS: [InnerList; 2] = [
    InnerList {
        count: Count::Field(Place::Word(40)),
        kind: Place::Nowhere,
        forms: &[InnerForm {
            number: 0,
            name: "Memory Power Node Structure",
            size: InnerSize::Walked(Sizes::ToldAt(Place::DWord(4))),
            parts: &[
                Part::Fields(&NODE),
                Part::Entries("Memory Power State", Count::Field(Place::DWord(24)), &STATE),
                Part::Numbers(
                    "Physical Component Identifier",
                    2,
                    Count::Field(Place::DWord(28)),
                ),
            ],
        }],
    },
    InnerList {
        count: Count::Once,
        kind: Place::Nowhere,
        forms: &[InnerForm {
            number: 0,
            name: "Memory Power State Characteristics",
            size: InnerSize::Counted(4, Place::Word(0), 28),
            parts: &[
                Part::Fields(&COUNTED),
                Part::Entries(
                    "Memory Power State Characteristics Structure",
                    Count::Field(Place::Word(0)),
                    &CHARACTERISTICS,
                ),
            ],
        }],
    },
];

/// The Memory Power State Table (ACPI 6.5, 5.2.22). A node whose length is 0, as in ACPICA's template, doesn't say where it ends.
/// So it and all that follows have no names.
pub const MPST: TableForm = TableForm {
    name: "Memory Power State Table (MPST)",
    parts: &[Part::Fields(&HEADER), Part::Fields(&MPST_FIXED)],
    structures: &[],
    further: &[],
    inner: &Inner::Lists(Start::At(44), &LISTS),
};
