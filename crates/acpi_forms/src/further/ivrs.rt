//! The I/O Virtualization Reporting Structure.

use acpi_base::header::HEADER;
use acpi_base::row::{Bits, Row, Word};
use acpi_base::walk::{Place, Sizes, Types};
use acpi_pc::ivrs::{EXTENDED, IVRS_FIXED, OF_ALIAS, OF_DEVICE, SPECIAL_DEVICE};
use acpi_text::form::{
    Choice, Count, Inner, InnerForm, InnerList, InnerSize, Part, Start, StructureForm, TableForm,
};

// The last two are reserved in the newer types.
const IVHD_FLAGS: [Bits; 8] = [
    Bits::Flag(0x1, "HtTunEn"),
    Bits::Flag(0x2, "PassPW"),
    Bits::Flag(0x4, "ResPassPW"),
    Bits::Flag(0x8, "Isoc"),
    Bits::Flag(0x10, "IotlbSup"),
    Bits::Flag(0x20, "Coherent"),
    Bits::Flag(0x40, "PreFSup"),
    Bits::Flag(0x80, "PPRSup"),
];

// The fields of an IVHD after its type, which all types have.
const IVHD: [Row; 7] = [
    Row::Flags("Flags", 1, &IVHD_FLAGS),
    Row::Number("Length", 2),
    Row::Hex("DeviceID", 2),
    Row::Hex("Capability Offset", 2),
    Row::Hex("IOMMU Base Address", 8),
    Row::Hex("PCI Segment Group", 2),
    Row::Hex("IOMMU Info", 2),
];

// Those that the newer types have after these.
const IVHD_ATTRIBUTES: [Row; 3] = [
    Row::Hex("IOMMU Attributes", 4),
    Row::Hex("EFR Register Image", 8),
    Row::Hex("EFR Register Image 2", 8),
];

const IVMD_FLAGS: [Bits; 4] = [
    Bits::Flag(0x1, "Unity"),
    Bits::Flag(0x2, "IR"),
    Bits::Flag(0x4, "IW"),
    Bits::Flag(0x8, "ExclRange"),
];

// The fields of an IVMD after its type.
const IVMD: [Row; 8] = [
    Row::Flags("Flags", 1, &IVMD_FLAGS),
    Row::Preset("Length", 2, 32),
    Row::Hex("DeviceID", 2),
    Row::Hex("Auxiliary Data", 2),
    Row::Hex("PCI Segment Group", 2),
    Row::Reserved(6),
    Row::Hex("IVMD Start Address", 8),
    Row::Hex("IVMD Memory Block Length", 8),
];

// ---- the device entries of an IVHD

const DTE_SETTING: [Bits; 6] = [
    Bits::Flag(0x1, "INITPass"),
    Bits::Flag(0x2, "EIntPass"),
    Bits::Flag(0x4, "NMIPass"),
    Bits::Number(0x30, 0x10, "SysMgt"),
    Bits::Flag(0x40, "Lint0Pass"),
    Bits::Flag(0x80, "Lint1Pass"),
];

const UID_FORMATS: [Word; 3] = [Word(0, "None"), Word(1, "Integer"), Word(2, "String")];

const PAD_4: [Row; 2] = [Row::Preset("Type", 1, 0), Row::Reserved(3)];

const PAD_8: [Row; 2] = [Row::Preset("Type", 1, 64), Row::Reserved(7)];

const END_OF_RANGE: [Row; 3] = [
    Row::Preset("Type", 1, 4),
    Row::Hex("DeviceID", 2),
    Row::Reserved(1),
];

const ACPI_DEVICE: [Row; 7] = [
    Row::Preset("Type", 1, 240),
    Row::Hex("DeviceID", 2),
    Row::Flags("DTE Setting", 1, &DTE_SETTING),
    Row::Text("Hardware ID", 8),
    Row::Text("Compatible ID", 8),
    Row::OneOf("UID Format", 1, &UID_FORMATS),
    Row::Number("UID Length", 1),
];

#[rattlefmt::skip]
const DEVICE_ENTRIES: [Choice; 12] = [
    Choice { number: 0, name: "Padding of 4 Bytes", rows: &PAD_4 },
    Choice { number: 1, name: "All Devices", rows: &OF_DEVICE },
    Choice { number: 2, name: "Select", rows: &OF_DEVICE },
    Choice { number: 3, name: "Start of Range", rows: &OF_DEVICE },
    Choice { number: 4, name: "End of Range", rows: &END_OF_RANGE },
    Choice { number: 64, name: "Padding of 8 Bytes", rows: &PAD_8 },
    Choice { number: 66, name: "Alias Select", rows: &OF_ALIAS },
    Choice { number: 67, name: "Alias Start of Range", rows: &OF_ALIAS },
    Choice { number: 70, name: "Extended Select", rows: &EXTENDED },
    Choice { number: 71, name: "Extended Start of Range", rows: &EXTENDED },
    Choice { number: 72, name: "Special Device", rows: &SPECIAL_DEVICE },
    Choice { number: 240, name: "ACPI Device", rows: &ACPI_DEVICE },
];

// Only the entry of an ACPI device has a length of its UID.
const ENTRY_PARTS: [Part; 2] = [
    Part::Chosen(Place::Byte(0), &DEVICE_ENTRIES),
    Part::Bytes("UID", Place::Byte(21)),
];

const ENTRIES_AT_24: Inner = Inner::Lists(
    Start::At(24),
    &[InnerList {
        count: Count::Rest,
        kind: Place::Nowhere,
        forms: &[InnerForm {
            number: 0,
            name: "Device Entry",
            size: InnerSize::Walked(Sizes::ByType(Place::Byte(0), Types::DeviceEntries)),
            parts: &ENTRY_PARTS,
        }],
    }],
);

const ENTRIES_AT_40: Inner = Inner::Lists(
    Start::At(40),
    &[InnerList {
        count: Count::Rest,
        kind: Place::Nowhere,
        forms: &[InnerForm {
            number: 0,
            name: "Device Entry",
            size: InnerSize::Walked(Sizes::ByType(Place::Byte(0), Types::DeviceEntries)),
            parts: &ENTRY_PARTS,
        }],
    }],
);

const BLOCKS: [StructureForm; 6] = [
    StructureForm {
        number: 16,
        name: "I/O Virtualization Hardware Definition (IVHD) Type 10h",
        parts: &[
            Part::Fields(&[Row::Preset("Type", 1, 16)]),
            Part::Fields(&IVHD),
            Part::Fields(&[Row::Hex("IOMMU Feature Reporting", 4)]),
        ],
        inner: &ENTRIES_AT_24,
    },
    StructureForm {
        number: 17,
        name: "I/O Virtualization Hardware Definition (IVHD) Type 11h",
        parts: &[
            Part::Fields(&[Row::Preset("Type", 1, 17)]),
            Part::Fields(&IVHD),
            Part::Fields(&IVHD_ATTRIBUTES),
        ],
        inner: &ENTRIES_AT_40,
    },
    StructureForm {
        number: 64,
        name: "I/O Virtualization Hardware Definition (IVHD) Type 40h",
        parts: &[
            Part::Fields(&[Row::Preset("Type", 1, 64)]),
            Part::Fields(&IVHD),
            Part::Fields(&IVHD_ATTRIBUTES),
        ],
        inner: &ENTRIES_AT_40,
    },
    StructureForm {
        number: 32,
        name: "I/O Virtualization Memory Definition (IVMD) for All Peripherals",
        parts: &[
            Part::Fields(&[Row::Preset("Type", 1, 32)]),
            Part::Fields(&IVMD),
        ],
        inner: &Inner::Nothing,
    },
    StructureForm {
        number: 33,
        name: "I/O Virtualization Memory Definition (IVMD) for a Peripheral",
        parts: &[
            Part::Fields(&[Row::Preset("Type", 1, 33)]),
            Part::Fields(&IVMD),
        ],
        inner: &Inner::Nothing,
    },
    StructureForm {
        number: 34,
        name: "I/O Virtualization Memory Definition (IVMD) for a Range of Peripherals",
        parts: &[
            Part::Fields(&[Row::Preset("Type", 1, 34)]),
            Part::Fields(&IVMD),
        ],
        inner: &Inner::Nothing,
    },
];

/// The I/O Virtualization Reporting Structure (AMD 48882, AMD I/O Virtualization Technology Specification 3.07, 5.2).
pub const IVRS: TableForm = TableForm {
    name: "I/O Virtualization Reporting Structure (IVRS)",
    parts: &[Part::Fields(&HEADER), Part::Fields(&IVRS_FIXED)],
    structures: &BLOCKS,
    further: &[],
    inner: &Inner::Nothing,
};
