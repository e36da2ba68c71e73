//! The Platform Communications Channel Table.

use acpi_base::header::HEADER;
use acpi_base::row::{Bits, Row, Word};
use acpi_pc::pcct::{
    ACKNOWLEDGED_SUBSPACE, GENERIC_SUBSPACE, PCCT_FIXED, REDUCED_SUBSPACE, REGISTERS_SUBSPACE,
};
use acpi_text::form::{Inner, Part, StructureForm, TableForm};

const POLARITIES: [Word; 2] = [Word(0x0, "Active High"), Word(0x1, "Active Low")];

const TRIGGERS: [Word; 2] = [Word(0x0, "Level Triggered"), Word(0x2, "Edge Triggered")];

const INTERRUPT_FLAGS: [Bits; 2] = [Bits::OneOf(0x1, &POLARITIES), Bits::OneOf(0x2, &TRIGGERS)];

const INTERRUPT: [Row; 3] = [
    Row::Number("Platform Interrupt", 4),
    Row::Flags("Platform Interrupt Flags", 1, &INTERRUPT_FLAGS),
    Row::Reserved(1),
];

// An extended channel after its interrupt (ACPI 6.5, 14.1.6).
const EXTENDED: [Row; 19] = [
    Row::Hex("Base Address", 8),
    Row::Number("Memory Length", 4),
    Row::Register("Doorbell Register"),
    Row::Hex("Doorbell Preserve", 8),
    Row::Hex("Doorbell Write", 8),
    Row::Number("Nominal Latency", 4),
    Row::Number("Maximum Periodic Access Rate", 4),
    Row::Number("Minimum Request Turnaround Time", 4),
    Row::Register("Platform Interrupt Ack Register"),
    Row::Hex("Platform Interrupt Ack Preserve", 8),
    Row::Hex("Platform Interrupt Ack Set", 8),
    Row::Reserved(8),
    Row::Register("Command Complete Check Register Address"),
    Row::Hex("Command Complete Check Mask", 8),
    Row::Register("Command Complete Update Register Address"),
    Row::Hex("Command Complete Update Preserve Mask", 8),
    Row::Hex("Command Complete Update Set Mask", 8),
    Row::Register("Error Status Register"),
    Row::Hex("Error Status Mask", 8),
];

const SUBSPACES: [StructureForm; 6] = [
    StructureForm {
        number: 0,
        name: "Generic Communications Subspace Structure",
        parts: &[Part::Fields(&GENERIC_SUBSPACE)],
        inner: &Inner::Nothing,
    },
    StructureForm {
        number: 1,
        name: "HW-Reduced Communications Subspace Structure",
        parts: &[Part::Fields(&REDUCED_SUBSPACE)],
        inner: &Inner::Nothing,
    },
    StructureForm {
        number: 2,
        name: "HW-Reduced Communications Subspace Structure Type 2",
        parts: &[Part::Fields(&ACKNOWLEDGED_SUBSPACE)],
        inner: &Inner::Nothing,
    },
    StructureForm {
        number: 3,
        name: "Extended PCC Subspace Structure for Initiators",
        parts: &[
            Part::Fields(&[Row::Preset("Type", 1, 3), Row::Preset("Length", 1, 164)]),
            Part::Fields(&INTERRUPT),
            Part::Fields(&EXTENDED),
        ],
        inner: &Inner::Nothing,
    },
    StructureForm {
        number: 4,
        name: "Extended PCC Subspace Structure for Responders",
        parts: &[
            Part::Fields(&[Row::Preset("Type", 1, 4), Row::Preset("Length", 1, 164)]),
            Part::Fields(&INTERRUPT),
            Part::Fields(&EXTENDED),
        ],
        inner: &Inner::Nothing,
    },
    StructureForm {
        number: 5,
        name: "HW Registers Based Communications Subspace Structure",
        parts: &[Part::Fields(&REGISTERS_SUBSPACE)],
        inner: &Inner::Nothing,
    },
];

/// The Platform Communications Channel Table (ACPI 6.5, 14.1).
pub const PCCT: TableForm = TableForm {
    name: "Platform Communications Channel Table (PCCT)",
    parts: &[Part::Fields(&HEADER), Part::Fields(&PCCT_FIXED)],
    structures: &SUBSPACES,
    further: &[],
    inner: &Inner::Nothing,
};
