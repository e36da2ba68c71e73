//! The Arm Performance Monitoring Unit Table.

use acpi_base::header::HEADER;
use acpi_base::row::{Bits, Row, Word};
use acpi_text::form::{Inner, Part, StructureForm, TableForm};

// What the processor affinity names.
const AFFINITIES: [Word; 2] = [Word(0x0, "Processor"), Word(0x2, "Processor Container")];

const NODE_FLAGS: [Bits; 3] = [
    Bits::Flag(0x1, "Dual Page Extension"),
    Bits::OneOf(0x2, &AFFINITIES),
    Bits::Flag(0x4, "64-bit Atomic"),
];

const NODE_TYPES: [Word; 5] = [
    Word(0, "Memory Controller"),
    Word(1, "SMMU"),
    Word(2, "PCIe Root Complex"),
    Word(3, "ACPI Device"),
    Word(4, "CPU Cache"),
];

const TRIGGERS: [Word; 2] = [Word(0x0, "Level Triggered"), Word(0x1, "Edge Triggered")];

const OVERFLOW_FLAGS: [Bits; 1] = [Bits::OneOf(0x1, &TRIGGERS)];

const NODE: [Row; 13] = [
    Row::Preset("Length", 2, 56),
    Row::Flags("Node Flags", 1, &NODE_FLAGS),
    Row::OneOf("Node Type", 1, &NODE_TYPES),
    Row::Hex("Identifier", 4),
    Row::Hex("Node Instance Primary", 8),
    Row::Hex("Node Instance Secondary", 4),
    Row::Hex("Base Address 0", 8),
    Row::Hex("Base Address 1", 8),
    Row::Number("Overflow Interrupt", 4),
    Row::Reserved(4),
    Row::Flags("Overflow Interrupt Flags", 4, &OVERFLOW_FLAGS),
    Row::Hex("Processor Affinity", 4),
    Row::Hex("Implementation ID", 4),
];

/// The Arm Performance Monitoring Unit Table (Arm DEN0117).
pub const APMT: TableForm = TableForm {
    name: "Arm Performance Monitoring Unit Table (APMT)",
    parts: &[Part::Fields(&HEADER)],
    structures: &[StructureForm {
        number: 0,
        name: "Arm Performance Monitoring Unit Node",
        parts: &[Part::Fields(&NODE)],
        inner: &Inner::Nothing,
    }],
    further: &[],
    inner: &Inner::Nothing,
};
