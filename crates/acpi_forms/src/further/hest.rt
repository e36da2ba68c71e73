//! Error sources of the Hardware Error Source Table that no library call writes: machine checks, and non-maskable interrupts.

use acpi_base::row::{Bits, Row, Word};
use acpi_base::walk::Place;
use acpi_hest::hest::NOTIFICATION;
use acpi_text::form::{Count, Inner, Part, StructureForm};

const FLAGS: [Bits; 2] = [
    Bits::Flag(0x1, "FIRMWARE_FIRST"),
    Bits::Flag(0x4, "GHES_ASSIST"),
];

const ENABLED: [Word; 2] = [Word(0, "Disabled"), Word(1, "Enabled")];

// A bank of machine check registers (ACPI 6.5, 18.3.2.1.1).
const BANK: [Row; 9] = [
    Row::Number("Bank Number", 1),
    Row::OneOf(
        "Clear Status On Initialization",
        1,
        &[Word(0, "Clear"), Word(1, "Don't clear")],
    ),
    Row::OneOf(
        "Status Data Format",
        1,
        &[
            Word(0, "IA-32 MCA"),
            Word(1, "Intel 64 MCA"),
            Word(2, "AMD64 MCA"),
        ],
    ),
    Row::Reserved(1),
    Row::Hex("Control Register MSR Address", 4),
    Row::Hex("Control Init Data", 8),
    Row::Hex("Status Register MSR Address", 4),
    Row::Hex("Address Register MSR Address", 4),
    Row::Hex("Misc Register MSR Address", 4),
];

const BANKS: &str = "IA-32 Architecture Machine Check Bank Structure";

// The fields of a machine check after its type (ACPI 6.5, 18.3.2.1, 18.3.2.2 and 18.3.2.10).
const MACHINE_CHECK: [Row; 6] = [
    Row::Hex("Source Id", 2),
    Row::Reserved(2),
    Row::Flags("Flags", 1, &FLAGS),
    Row::OneOf("Enabled", 1, &ENABLED),
    Row::Number("Number of Records to Pre-allocate", 4),
    Row::Number("Max Sections Per Record", 4),
];

// Those that the machine check exception has after these.
const EXCEPTION: [Row; 4] = [
    Row::Hex("Global Capability Init Data", 8),
    Row::Hex("Global Control Init Data", 8),
    Row::Number("Number of Hardware Banks", 1),
    Row::Reserved(7),
];

// Those that the corrected and the deferred machine check have after their notification.
const BANK_COUNT: [Row; 2] = [Row::Number("Number of Hardware Banks", 1), Row::Reserved(3)];

// The non-maskable interrupt (ACPI 6.5, 18.3.2.3).
const NMI: [Row; 6] = [
    Row::Preset("Type", 2, 2),
    Row::Hex("Source Id", 2),
    Row::Reserved(4),
    Row::Number("Number of Records to Pre-allocate", 4),
    Row::Number("Max Sections Per Record", 4),
    Row::Number("Max Raw Data Length", 4),
];

/// Further error sources of a HEST (ACPI 6.5, 18.3.2).
pub const HEST_FURTHER: [StructureForm; 4] = [
    StructureForm {
        number: 0,
        name: "IA-32 Architecture Machine Check Exception Structure",
        parts: &[
            Part::Fields(&[Row::Preset("Type", 2, 0)]),
            Part::Fields(&MACHINE_CHECK),
            Part::Fields(&EXCEPTION),
            Part::Entries(BANKS, Count::Field(Place::Byte(32)), &BANK),
        ],
        inner: &Inner::Nothing,
    },
    StructureForm {
        number: 1,
        name: "IA-32 Architecture Corrected Machine Check Structure",
        parts: &[
            Part::Fields(&[Row::Preset("Type", 2, 1)]),
            Part::Fields(&MACHINE_CHECK),
            Part::Group("Notification Structure", &NOTIFICATION),
            Part::Fields(&BANK_COUNT),
            Part::Entries(BANKS, Count::Field(Place::Byte(44)), &BANK),
        ],
        inner: &Inner::Nothing,
    },
    StructureForm {
        number: 2,
        name: "IA-32 Architecture Non-Maskable Interrupt Structure",
        parts: &[Part::Fields(&NMI)],
        inner: &Inner::Nothing,
    },
    StructureForm {
        number: 11,
        name: "IA-32 Architecture Deferred Machine Check Structure",
        parts: &[
            Part::Fields(&[Row::Preset("Type", 2, 11)]),
            Part::Fields(&MACHINE_CHECK),
            Part::Group("Notification Structure", &NOTIFICATION),
            Part::Fields(&BANK_COUNT),
            Part::Entries(BANKS, Count::Field(Place::Byte(44)), &BANK),
        ],
        inner: &Inner::Nothing,
    },
];
