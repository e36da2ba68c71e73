//! The Arm Error Source Table.

ghost use Rattle.std.specs.Prelude.{◌≡◌, take, drop};
ghost use Rattle.acpi_forms.specs.FurtherNames.{aest_kinds, aest_names};
ghost use Rattle.acpi_forms.specs.Name.{IsNamed, kinds};

use acpi_base::header::HEADER;
use acpi_base::row::{Bits, Row, Word};
use acpi_base::walk::Place;
use acpi_text::form::{Choice, Count, Inner, Part, StructureForm, TableForm};

// The fields of a node after its type.
const NODE: [Row; 9] = [
    Row::Number("Length", 2),
    Row::Reserved(1),
    Row::Preset("Node-specific Data Offset", 4, 44),
    Row::Number("Node Interface Offset", 4),
    Row::Number("Node Interrupt Array Offset", 4),
    Row::Number("Node Interrupt Count", 4),
    Row::Number("Timestamp Rate", 8),
    Row::Reserved(8),
    Row::Number("Error Injection Countdown Rate", 8),
];

// ---- the data of a node

const DATA: &str = "Node-specific Data";

const RESOURCES: [Word; 3] = [Word(0, "Cache"), Word(1, "TLB"), Word(2, "Generic")];

const PROCESSOR: [Row; 6] = [
    Row::Hex("ACPI Processor ID", 4),
    Row::OneOf("Resource Type", 1, &RESOURCES),
    Row::Reserved(1),
    Row::Flags(
        "Flags",
        1,
        &[Bits::Flag(0x1, "Global"), Bits::Flag(0x2, "Shared")],
    ),
    Row::Number("Revision", 1),
    Row::Hex("Processor Affinity Level Indicator", 8),
];

// The resource of a processor, by its type.
const PROCESSOR_RESOURCES: [Choice; 3] = [
    Choice {
        number: 0,
        name: "Cache Resource",
        rows: &[Row::Hex("Cache Reference", 4), Row::Reserved(4)],
    },
    Choice {
        number: 1,
        name: "TLB Resource",
        rows: &[Row::Number("TLB Level", 4), Row::Reserved(4)],
    },
    Choice {
        number: 2,
        name: "Generic Resource",
        rows: &[Row::Hex("Vendor-defined Data", 4)],
    },
];

const MEMORY: [Row; 1] = [Row::Number("Proximity Domain", 4)];

const SMMU: [Row; 2] = [
    Row::Hex("IORT Node Reference", 4),
    Row::Hex("Subcomponent Reference", 4),
];

// What a vendor defines, by the offset of the interface: the hardware id has 4 bytes in version 1 of the standard.
const VENDORS: [Choice; 2] = [
    Choice {
        number: 72,
        name: DATA,
        rows: &[
            Row::Text("Hardware ID", 8),
            Row::Hex("Unique ID", 4),
            Row::Bytes("Vendor-specific Data", 16),
        ],
    },
    Choice {
        number: 68,
        name: "Node-specific Data of Version 1",
        rows: &[
            Row::Hex("Hardware ID", 4),
            Row::Hex("Unique ID", 4),
            Row::Bytes("Vendor-specific Data", 16),
        ],
    },
];

const GIC_INTERFACES: [Word; 4] = [
    Word(0, "GIC CPU"),
    Word(1, "GIC Distributor"),
    Word(2, "GIC Redistributor"),
    Word(3, "GIC ITS"),
];

const GIC: [Row; 2] = [
    Row::OneOf("Interface Type", 4, &GIC_INTERFACES),
    Row::Hex("Instance Identifier", 4),
];

const PCIE: [Row; 1] = [Row::Hex("IORT Node Reference", 4)];

const PROXY: [Row; 1] = [Row::Hex("Node Address", 8)];

// ---- the interface of a node

const INTERFACE_TYPES: [Word; 3] = [
    Word(0, "System Register"),
    Word(1, "Memory-mapped"),
    Word(2, "Single Record Memory-mapped"),
];

const GROUP_FORMATS: [Word; 3] = [Word(0, "4K"), Word(1, "16K"), Word(2, "64K")];

const INTERFACE_FLAGS: [Bits; 7] = [
    Bits::Flag(0x1, "Shared"),
    Bits::Flag(0x2, "Clear MISCx"),
    Bits::Flag(0x4, "Error Node Device Valid"),
    Bits::Flag(0x8, "Affinity Type"),
    Bits::Flag(0x10, "Error Group Register Base Valid"),
    Bits::Flag(0x20, "Fault Injection Register Base Valid"),
    Bits::Flag(0x40, "Interrupt Config Register Base Valid"),
];

// What every interface begins with. In version 1 of the standard the group format is reserved.
const INTERFACE: [Row; 7] = [
    Row::OneOf("Interface Type", 1, &INTERFACE_TYPES),
    Row::OneOf("Group Format", 1, &GROUP_FORMATS),
    Row::Reserved(2),
    Row::Flags("Flags", 4, &INTERFACE_FLAGS),
    Row::Hex("Base Address", 8),
    Row::Number("Start Error Record Index", 4),
    Row::Number("Number of Error Records", 4),
];

// ---- the records of a node

// The fields of an interface after those, in version 2 of the standard: three bitmaps, in rows of this kind and width, and what
// the flags say is valid.
macro_rules! records {
    ($bitmap:ident, $width:literal) => {
        &[
            Row::$bitmap("Error Records Implemented", $width),
            Row::$bitmap("Error Status Reporting Supported", $width),
            Row::$bitmap("Addressing Mode", $width),
            Row::Hex("Error Node Device", 4),
            Row::Hex("Processor Affinity", 4),
            Row::Hex("Error Group Register Base", 8),
            Row::Hex("Fault Injection Register Base", 8),
            Row::Hex("Interrupt Config Register Base", 8),
        ]
    };
}

// By the size of the interface in bytes. A group has 64 records in 4K, 256 in 16K and 896 in 64K, and a bitmap has a bit for
// each.
const RECORDS: [Choice; 4] = [
    Choice {
        number: 80,
        name: "Error Records of 4K",
        rows: records!(Hex, 8),
    },
    Choice {
        number: 152,
        name: "Error Records of 16K",
        rows: records!(Bytes, 32),
    },
    Choice {
        number: 392,
        name: "Error Records of 64K",
        rows: records!(Bytes, 112),
    },
    Choice {
        number: 48,
        name: "Error Records of Version 1",
        rows: &[
            Row::Hex("Error Records Implemented", 8),
            Row::Hex("Error Status Reporting Supported", 8),
            Row::Hex("Addressing Mode", 8),
        ],
    },
];

// ---- interrupts

const INTERRUPT_TYPES: [Word; 2] = [Word(0, "Fault Handling"), Word(1, "Error Recovery")];

const TRIGGERS: [Word; 2] = [Word(0x0, "Edge Triggered"), Word(0x1, "Level Triggered")];

const INTERRUPT_FLAGS: [Bits; 1] = [Bits::OneOf(0x1, &TRIGGERS)];

const INTERRUPT: [Row; 6] = [
    Row::OneOf("Interrupt Type", 1, &INTERRUPT_TYPES),
    Row::Reserved(2),
    Row::Flags("Interrupt Flags", 1, &INTERRUPT_FLAGS),
    Row::Number("Interrupt GSIV", 4),
    Row::Hex("ID", 1),
    Row::Reserved(3),
];

// ---- nodes

// A node of a type, by its name and the rows of its data. The interface reaches from its offset up to that of the interrupts. A
// node without interrupts has 0 as their offset, and its interface ends with it. The records of an interface of another size are
// a line of bytes. In a text that is made into a table, the interrupts begin where this line ends; it is empty after records with
// names.
macro_rules! node {
    ($number:literal, $name:literal, $data:ident) => {
        StructureForm {
            number: $number,
            name: $name,
            parts: &[
                Part::Fields(&[Row::Preset("Type", 1, $number)]),
                Part::Fields(&NODE),
                Part::Until("Bytes", Place::DWord(4)),
                Part::Group(DATA, &$data),
                Part::Until("Bytes", Place::DWord(8)),
                Part::Group("Node Interface", &INTERFACE),
                Part::BySize(Place::DWord(8), Place::DWord(12), &RECORDS),
                Part::Until("Error Records", Place::DWord(12)),
                Part::Entries("Node Interrupt", Count::Field(Place::DWord(16)), &INTERRUPT),
                Part::Until("Error Records without Interrupts", Place::Word(1)),
            ],
            inner: &Inner::Nothing,
        }
    };
}

const NODES: [StructureForm; 4] = [
    StructureForm {
        number: 0,
        name: "Processor Error Node",
        parts: &[
            Part::Fields(&[Row::Preset("Type", 1, 0)]),
            Part::Fields(&NODE),
            Part::Until("Bytes", Place::DWord(4)),
            Part::Group(DATA, &PROCESSOR),
            Part::Chosen(Place::Byte(48), &PROCESSOR_RESOURCES),
            Part::Until("Bytes", Place::DWord(8)),
            Part::Group("Node Interface", &INTERFACE),
            Part::BySize(Place::DWord(8), Place::DWord(12), &RECORDS),
            Part::Until("Error Records", Place::DWord(12)),
            Part::Entries("Node Interrupt", Count::Field(Place::DWord(16)), &INTERRUPT),
            Part::Until("Error Records without Interrupts", Place::Word(1)),
        ],
        inner: &Inner::Nothing,
    },
    node!(1, "Memory Error Node", MEMORY),
    node!(2, "SMMU Error Node", SMMU),
    StructureForm {
        number: 3,
        name: "Vendor-defined Error Node",
        parts: &[
            Part::Fields(&[Row::Preset("Type", 1, 3)]),
            Part::Fields(&NODE),
            Part::Chosen(Place::DWord(8), &VENDORS),
            Part::Until("Bytes", Place::DWord(8)),
            Part::Group("Node Interface", &INTERFACE),
            Part::BySize(Place::DWord(8), Place::DWord(12), &RECORDS),
            Part::Until("Error Records", Place::DWord(12)),
            Part::Entries("Node Interrupt", Count::Field(Place::DWord(16)), &INTERRUPT),
            Part::Until("Error Records without Interrupts", Place::Word(1)),
        ],
        inner: &Inner::Nothing,
    },
];

// Those that come after these. Each list has a function, since all nodes are too much for one proof.
const FURTHER_NODES: [StructureForm; 3] = [
    node!(4, "GIC Error Node", GIC),
    node!(5, "PCIe Error Node", PCIE),
    node!(6, "Proxy Error Node", PROXY),
];

fn nodes() -> &'static [StructureForm]
    ensures { kinds result.now ≡ take 4 aest_kinds }
{
    &NODES
}

fn further_nodes() -> &'static [StructureForm]
    ensures { kinds result.now ≡ drop 4 aest_kinds }
{
    &FURTHER_NODES
}

/// Returns the form of the Arm Error Source Table (Arm DEN0085, versions 1 and 2). The records of an interface differ between the
/// versions and the formats of a group, so they are named by the size of the interface: 48 bytes in version 1, and 80, 152 or 392
/// bytes in version 2 where a group has 4K, 16K or 64K. Those of another size are one line of bytes. The names are from memory,
/// and so are the layouts of 16K and 64K.
pub fn aest_form() -> TableForm
    ensures { IsNamed result aest_names }
{
    TableForm {
        name: "Arm Error Source Table (AEST)",
        parts: &[Part::Fields(&HEADER)],
        structures: nodes(),
        further: further_nodes(),
        inner: &Inner::Nothing,
    }
}
