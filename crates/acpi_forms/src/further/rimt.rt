//! The RISC-V IO Mapping Table as its specification has it.

ghost use Rattle.acpi_forms.specs.FurtherNames.{specified_rimt_names};
ghost use Rattle.acpi_forms.specs.Name.{IsNamed};

use acpi_base::header::HEADER;
use acpi_base::pci::BDF;
use acpi_base::row::{Bits, Row, Word};
use acpi_base::walk::Place;
use acpi_text::form::{Count, Inner, Part, StructureForm, TableForm};

// The name of the second field is in no text of this project's profile: `make` tells the texts of the two apart by it.
const SPECIFIED_FIXED: [Row; 3] = [
    Row::Number("Number of RIMT Nodes", 4),
    Row::Number("Offset to RIMT Node Array", 4),
    Row::Reserved(4),
];

const SPECIFIED_IOMMU: [Row; 13] = [
    Row::Preset("Type", 1, 0),
    Row::Preset("Revision", 1, 1),
    Row::Number("Length", 2),
    Row::Reserved(2),
    Row::Hex("ID", 2),
    Row::Text("Hardware ID", 8),
    Row::Hex("Base Address", 8),
    Row::Flags(
        "Flags",
        4,
        &[
            Bits::Flag(0x1, "PCIe Device"),
            Bits::Flag(0x2, "Proximity Domain Valid"),
        ],
    ),
    Row::Number("Proximity Domain", 4),
    Row::Number("PCIe Segment", 2),
    Row::Flags("PCIe BDF", 2, &BDF),
    Row::Number("Number of Interrupt Wires", 2),
    Row::Number("Interrupt Wire Array Offset", 2),
];

const SPECIFIED_WIRE: [Row; 2] = [
    Row::Number("Interrupt Number", 4),
    Row::Flags(
        "Flags",
        4,
        &[
            Bits::OneOf(
                0x1,
                &[Word(0x0, "Edge Triggered"), Word(0x1, "Level Triggered")],
            ),
            Bits::OneOf(0x2, &[Word(0x0, "Active Low"), Word(0x2, "Active High")]),
        ],
    ),
];

const SPECIFIED_ROOT_COMPLEX: [Row; 10] = [
    Row::Preset("Type", 1, 1),
    Row::Preset("Revision", 1, 1),
    Row::Number("Length", 2),
    Row::Reserved(2),
    Row::Hex("ID", 2),
    Row::Flags(
        "Flags",
        4,
        &[
            Bits::Flag(0x1, "ATS Supported"),
            Bits::Flag(0x2, "PRI Supported"),
        ],
    ),
    Row::Reserved(2),
    Row::Number("PCIe Segment", 2),
    Row::Number("ID Mapping Array Offset", 2),
    Row::Number("Number of ID Mappings", 2),
];

const SPECIFIED_MAPPING: [Row; 5] = [
    Row::Hex("Source ID Base", 4),
    Row::Number("Number of IDs", 4),
    Row::Hex("Destination Device ID Base", 4),
    Row::Reference("Destination IOMMU Offset", 4),
    Row::Flags(
        "Flags",
        4,
        &[
            Bits::Flag(0x1, "ATS Required"),
            Bits::Flag(0x2, "PRI Required"),
        ],
    ),
];

const SPECIFIED_PLATFORM: [Row; 7] = [
    Row::Preset("Type", 1, 2),
    Row::Preset("Revision", 1, 1),
    Row::Number("Length", 2),
    Row::Reserved(2),
    Row::Hex("ID", 2),
    Row::Number("ID Mapping Array Offset", 2),
    Row::Number("Number of ID Mappings", 2),
];

const SPECIFIED_NODES: [StructureForm; 3] = [
    StructureForm {
        number: 0,
        name: "RISC-V IOMMU",
        parts: &[
            Part::Fields(&SPECIFIED_IOMMU),
            Part::Until("Bytes", Place::Word(38)),
            Part::Entries(
                "Interrupt Wire",
                Count::Field(Place::Word(36)),
                &SPECIFIED_WIRE,
            ),
        ],
        inner: &Inner::Nothing,
    },
    StructureForm {
        number: 1,
        name: "PCIe Root Complex",
        parts: &[
            Part::Fields(&SPECIFIED_ROOT_COMPLEX),
            Part::Until("Bytes", Place::Word(16)),
            Part::Entries(
                "ID Mapping",
                Count::Field(Place::Word(18)),
                &SPECIFIED_MAPPING,
            ),
        ],
        inner: &Inner::Nothing,
    },
    StructureForm {
        number: 2,
        name: "Platform Device",
        parts: &[
            Part::Fields(&SPECIFIED_PLATFORM),
            Part::Until("Device Object Name", Place::Word(8)),
            Part::Entries(
                "ID Mapping",
                Count::Field(Place::Word(10)),
                &SPECIFIED_MAPPING,
            ),
        ],
        inner: &Inner::Nothing,
    },
];

const SPECIFIED_RIMT: TableForm = TableForm {
    name: "RISC-V IO Mapping Table (RIMT)",
    parts: &[Part::Fields(&HEADER), Part::Fields(&SPECIFIED_FIXED)],
    structures: &SPECIFIED_NODES,
    further: &[],
    inner: &Inner::Nothing,
};

/// Returns the form of the RISC-V IO Mapping Table of the specification (RISC-V RIMT 1.0), which QEMU and ACPICA write. The names
/// and the layout are written from memory. Library calls write this project's profile of it.
pub fn specified_rimt_form() -> TableForm
    ensures { IsNamed result specified_rimt_names }
{
    SPECIFIED_RIMT
}
