//! The Platform Memory Topology Table.

ghost use Rattle.acpi_forms.specs.FurtherNames.{earlier_pmtt_names};
ghost use Rattle.acpi_forms.specs.Name.{IsNamed};

use acpi_base::header::HEADER;
use acpi_base::row::{Bits, Row, Word};
use acpi_base::walk::{Place, Sizes};
use acpi_text::form::{
    Count, Inner, InnerForm, InnerList, InnerSize, Part, Start, StructureForm, TableForm,
};

const PMTT_FIXED: [Row; 1] = [Row::Number("Number of Memory Devices", 4)];

const MEMORIES: [Word; 3] = [
    Word(0x0, "Volatile"),
    Word(0x4, "Volatile and Non-Volatile"),
    Word(0x8, "Non-Volatile"),
];

const DEVICE_FLAGS: [Bits; 3] = [
    Bits::Flag(0x1, "Top-level Aggregator Device"),
    Bits::Flag(0x2, "Physical Element"),
    Bits::OneOf(0xc, &MEMORIES),
];

const SOCKET: [Row; 8] = [
    Row::Preset("Type", 1, 0),
    Row::Reserved(1),
    Row::Number("Length", 2),
    Row::Flags("Flags", 2, &DEVICE_FLAGS),
    Row::Reserved(2),
    Row::Number("Number of Memory Devices", 4),
    Row::Number("Socket Identifier", 2),
    Row::Reserved(2),
];

const CONTROLLER: [Row; 8] = [
    Row::Preset("Type", 1, 1),
    Row::Reserved(1),
    Row::Number("Length", 2),
    Row::Flags("Flags", 2, &DEVICE_FLAGS),
    Row::Reserved(2),
    Row::Number("Number of Memory Devices", 4),
    Row::Number("Memory Controller Identifier", 2),
    Row::Reserved(2),
];

const DIMM: [Row; 7] = [
    Row::Preset("Type", 1, 2),
    Row::Reserved(1),
    Row::Number("Length", 2),
    Row::Flags("Flags", 2, &DEVICE_FLAGS),
    Row::Reserved(2),
    Row::Number("Number of Memory Devices", 4),
    Row::Hex("SMBIOS Handle", 4),
];

const VENDOR: [Row; 7] = [
    Row::Preset("Type", 1, 255),
    Row::Reserved(1),
    Row::Number("Length", 2),
    Row::Flags("Flags", 2, &DEVICE_FLAGS),
    Row::Reserved(2),
    Row::Number("Number of Memory Devices", 4),
    Row::Uuid("Type UUID"),
];

const DEVICES: [StructureForm; 4] = [
    StructureForm {
        number: 0,
        name: "Socket",
        parts: &[Part::Fields(&SOCKET)],
        inner: &Inner::Nothing,
    },
    StructureForm {
        number: 1,
        name: "Memory Controller",
        parts: &[Part::Fields(&CONTROLLER)],
        inner: &Inner::Nothing,
    },
    StructureForm {
        number: 2,
        name: "DIMM",
        parts: &[Part::Fields(&DIMM)],
        inner: &Inner::Nothing,
    },
    StructureForm {
        number: 255,
        name: "Vendor Specific Memory Device",
        parts: &[
            Part::Fields(&VENDOR),
            Part::Until("Vendor Specific Data", Place::Word(2)),
        ],
        inner: &Inner::Nothing,
    },
];

/// The Platform Memory Topology Table (ACPI 6.5, 5.2.22): its devices stand one after another, and each says how many of the
/// next ones are below it.
pub const PMTT: TableForm = TableForm {
    name: "Platform Memory Topology Table (PMTT)",
    parts: &[Part::Fields(&HEADER), Part::Fields(&PMTT_FIXED)],
    structures: &DEVICES,
    further: &[],
    inner: &Inner::Nothing,
};

const EARLIER_SOCKET: [Row; 7] = [
    Row::Preset("Type", 1, 0),
    Row::Reserved(1),
    Row::Number("Length", 2),
    Row::Flags("Flags", 2, &DEVICE_FLAGS),
    Row::Reserved(2),
    Row::Number("Socket Identifier", 2),
    Row::Reserved(2),
];

const EARLIER_CONTROLLER: [Row; 13] = [
    Row::Preset("Type", 1, 1),
    Row::Reserved(1),
    Row::Number("Length", 2),
    Row::Flags("Flags", 2, &DEVICE_FLAGS),
    Row::Reserved(2),
    Row::Number("Read Latency", 4),
    Row::Number("Write Latency", 4),
    Row::Number("Read Bandwidth", 4),
    Row::Number("Write Bandwidth", 4),
    Row::Number("Optimal Access Unit", 2),
    Row::Number("Optimal Access Alignment", 2),
    Row::Reserved(2),
    Row::Number("Number of Proximity Domains", 2),
];

const EARLIER_DIMM: [Row; 9] = [
    Row::Preset("Type", 1, 2),
    Row::Reserved(1),
    Row::Number("Length", 2),
    Row::Flags("Flags", 2, &DEVICE_FLAGS),
    Row::Reserved(2),
    Row::Number("Physical Component Identifier", 2),
    Row::Reserved(2),
    Row::Number("Size of DIMM", 4),
    Row::Hex("SMBIOS Handle", 4),
];

// What a socket contains after its fields. The length of a controller contains the DIMMs below it, which follow in the same list.
// So its own size is that of its fields, 32 bytes, and of its domains.
const BELOW_SOCKET: [InnerList; 1] = [InnerList {
    count: Count::Rest,
    kind: Place::Byte(0),
    forms: &[
        InnerForm {
            number: 1,
            name: "Memory Controller",
            size: InnerSize::Counted(32, Place::Word(30), 4),
            parts: &[
                Part::Fields(&EARLIER_CONTROLLER),
                Part::Numbers("Proximity Domain", 4, Count::Field(Place::Word(30))),
            ],
        },
        InnerForm {
            number: 2,
            name: "DIMM",
            size: InnerSize::Walked(Sizes::ToldAt(Place::Word(2))),
            parts: &[Part::Fields(&EARLIER_DIMM)],
        },
    ],
}];

const EARLIER_DEVICES: [StructureForm; 3] = [
    StructureForm {
        number: 0,
        name: "Socket",
        parts: &[Part::Fields(&EARLIER_SOCKET)],
        inner: &Inner::Lists(Start::At(12), &BELOW_SOCKET),
    },
    StructureForm {
        number: 1,
        name: "Memory Controller",
        parts: &[
            Part::Fields(&EARLIER_CONTROLLER),
            Part::Numbers("Proximity Domain", 4, Count::Field(Place::Word(30))),
            Part::Entries("DIMM", Count::Rest, &EARLIER_DIMM),
        ],
        inner: &Inner::Nothing,
    },
    StructureForm {
        number: 2,
        name: "DIMM",
        parts: &[Part::Fields(&EARLIER_DIMM)],
        inner: &Inner::Nothing,
    },
];

const EARLIER_PMTT: TableForm = TableForm {
    name: "Platform Memory Topology Table (PMTT) of revision 1",
    parts: &[Part::Fields(&HEADER), Part::Fields(&[Row::Reserved(4)])],
    structures: &EARLIER_DEVICES,
    further: &[],
    inner: &Inner::Nothing,
};

/// Returns the form of a Platform Memory Topology Table of revision 1 (ACPI 6.3, 5.2.21), whose layout is written from memory. A
/// socket contains its memory controllers, and these contain their proximity domains and their DIMMs. So the length of a device
/// (offset 2, 2 bytes) counts all that is below it, too.
pub fn earlier_pmtt_form() -> TableForm
    ensures { IsNamed result earlier_pmtt_names }
{
    EARLIER_PMTT
}
