//! The Secure Devices Table.

use acpi_base::header::HEADER;
use acpi_base::row::{Bits, Row, Word};
use acpi_base::walk::Place;
use acpi_text::form::{Choice, Inner, Part, StructureForm, TableForm};

const SDEV_FLAGS: [Bits; 2] = [
    Bits::Flag(0x1, "Allow Handoff to Non-Secure OS"),
    Bits::Flag(0x2, "Secure Access Components Present"),
];

const PRESENT: [Word; 2] = [Word(0, "Not Present"), Word(1, "Present")];

const NAMESPACE_DEVICE: [Row; 7] = [
    Row::Preset("Type", 1, 0),
    Row::Flags("Flags", 1, &SDEV_FLAGS),
    Row::Number("Length", 2),
    Row::Number("Device Identifier Offset", 2),
    Row::Number("Device Identifier Length", 2),
    Row::Number("Vendor Specific Data Offset", 2),
    Row::Number("Vendor Specific Data Length", 2),
];

// Where the secure access components of a device are.
macro_rules! components {
    ($($component:expr),*) => {
        [
            Row::Number("Secure Access Components Offset", 2),
            Row::Number("Secure Access Components Length", 2),
            $($component),*
        ]
    };
}

const ELSEWHERE: [Row; 2] = components!();

const IDENTIFICATION: [Row; 15] = components!(
    Row::Preset("Secure Access Component Type", 1, 0),
    Row::Hex("Secure Access Component Flags", 1),
    Row::Number("Secure Access Component Length", 2),
    Row::Number("Hardware Identifier Offset", 2),
    Row::Number("Hardware Identifier Length", 2),
    Row::Number("Subsystem Identifier Offset", 2),
    Row::Number("Subsystem Identifier Length", 2),
    Row::Hex("Hardware Revision", 2),
    Row::OneOf("Hardware Revision Present", 1, &PRESENT),
    Row::OneOf("Class Code Present", 1, &PRESENT),
    Row::Hex("PCI-compatible Base Class", 1),
    Row::Hex("PCI-compatible Sub-class", 1),
    Row::Hex("PCI-compatible Programming Interface", 1)
);

const MEMORY: [Row; 8] = components!(
    Row::Preset("Secure Access Component Type", 1, 1),
    Row::Hex("Secure Access Component Flags", 1),
    Row::Number("Secure Access Component Length", 2),
    Row::Reserved(4),
    Row::Hex("Memory Address Base", 8),
    Row::Number("Memory Length", 8)
);

const TWO_IDENTIFICATIONS: [Row; 3] = components!(Row::Bytes("Secure Access Components", 38));

const BOTH: [Row; 3] = components!(Row::Bytes("Secure Access Components", 43));

const TWO_MEMORIES: [Row; 3] = components!(Row::Bytes("Secure Access Components", 48));

// What stands before the identifier of a namespace device, by its offset. A component that identifies hardware has 19 bytes, and
// one that is memory has 24.
const BY_OFFSET: [Choice; 7] = [
    Choice {
        number: 12,
        name: "Without Secure Access Components",
        rows: &[],
    },
    Choice {
        number: 16,
        name: "Secure Access Components at Their Offset",
        rows: &ELSEWHERE,
    },
    Choice {
        number: 35,
        name: "Identification Based Secure Access Component",
        rows: &IDENTIFICATION,
    },
    Choice {
        number: 40,
        name: "Memory-based Secure Access Component",
        rows: &MEMORY,
    },
    Choice {
        number: 54,
        name: "Two Identification Based Secure Access Components",
        rows: &TWO_IDENTIFICATIONS,
    },
    Choice {
        number: 59,
        name: "Secure Access Components of Both Kinds",
        rows: &BOTH,
    },
    Choice {
        number: 64,
        name: "Two Memory-based Secure Access Components",
        rows: &TWO_MEMORIES,
    },
];

const PCIE_ENDPOINT: [Row; 9] = [
    Row::Preset("Type", 1, 1),
    Row::Flags("Flags", 1, &SDEV_FLAGS),
    Row::Number("Length", 2),
    Row::Hex("PCI Segment Number", 2),
    Row::Hex("Start Bus Number", 2),
    Row::Number("PCI Path Offset", 2),
    Row::Number("PCI Path Length", 2),
    Row::Number("Vendor Specific Data Offset", 2),
    Row::Number("Vendor Specific Data Length", 2),
];

const SECURE_DEVICES: [StructureForm; 2] = [
    StructureForm {
        number: 0,
        name: "Secure ACPI_NAMESPACE_DEVICE Structure",
        parts: &[
            Part::Fields(&NAMESPACE_DEVICE),
            Part::Chosen(Place::Word(4), &BY_OFFSET),
            Part::Until("Bytes", Place::Word(4)),
            Part::Bytes("Device Identifier", Place::Word(6)),
            Part::Until("Bytes", Place::Word(8)),
            Part::Bytes("Vendor Specific Data", Place::Word(10)),
        ],
        inner: &Inner::Nothing,
    },
    StructureForm {
        number: 1,
        name: "Secure PCIe Endpoint Device Structure",
        parts: &[
            Part::Fields(&PCIE_ENDPOINT),
            Part::Until("Bytes", Place::Word(8)),
            Part::Bytes("PCI Path", Place::Word(10)),
            Part::Until("Bytes", Place::Word(12)),
            Part::Bytes("Vendor Specific Data", Place::Word(14)),
        ],
        inner: &Inner::Nothing,
    },
];

/// The Secure Devices Table (ACPI 6.5, 5.2.27). The secure access components of a device stand before its identifier, in one
/// line if there are several.
pub const SDEV: TableForm = TableForm {
    name: "Secure Devices Table (SDEV)",
    parts: &[Part::Fields(&HEADER)],
    structures: &SECURE_DEVICES,
    further: &[],
    inner: &Inner::Nothing,
};
