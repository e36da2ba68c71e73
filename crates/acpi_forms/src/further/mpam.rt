//! The Memory System Resource Partitioning and Monitoring Table.

use acpi_base::header::HEADER;
use acpi_base::row::{Row, Word};
use acpi_base::walk::Place;
use acpi_text::form::{
    Count, Inner, InnerForm, InnerList, InnerSize, Part, Start, StructureForm, TableForm,
};

const INTERFACES: [Word; 2] = [Word(0, "MMIO"), Word(10, "PCC")];

const NODE: [Row; 18] = [
    Row::Number("Length", 2),
    Row::OneOf("Interface Type", 1, &INTERFACES),
    Row::Reserved(1),
    Row::Hex("Identifier", 4),
    Row::Hex("Base Address", 8),
    Row::Number("MMIO Size", 4),
    Row::Number("Overflow Interrupt", 4),
    Row::Hex("Overflow Interrupt Flags", 4),
    Row::Reserved(4),
    Row::Hex("Overflow Interrupt Affinity", 4),
    Row::Number("Error Interrupt", 4),
    Row::Hex("Error Interrupt Flags", 4),
    Row::Reserved(4),
    Row::Hex("Error Interrupt Affinity", 4),
    Row::Number("MAX_NRDY_USEC", 4),
    Row::Text("Hardware ID of Linked Device", 8),
    Row::Hex("Instance ID of Linked Device", 4),
    Row::Number("Number of Resource Nodes", 4),
];

const LOCATORS: [Word; 7] = [
    Word(0, "Processor Cache"),
    Word(1, "Memory"),
    Word(2, "SMMU"),
    Word(3, "Memory-side Cache"),
    Word(4, "ACPI Device"),
    Word(5, "Interconnect"),
    Word(255, "Unknown"),
];

const RESOURCE: [Row; 7] = [
    Row::Hex("Identifier", 4),
    Row::Number("RIS Index", 1),
    Row::Reserved(2),
    Row::OneOf("Locator Type", 1, &LOCATORS),
    Row::Hex("Locator Descriptor 1", 8),
    Row::Hex("Locator Descriptor 2", 4),
    Row::Number("Number of Functional Dependencies", 4),
];

const DEPENDENCY: [Row; 2] = [Row::Hex("Producer", 4), Row::Reserved(4)];

// A resource node has 24 bytes, and 8 for each functional dependency.
const RESOURCES: [InnerList; 1] = [InnerList {
    count: Count::Field(Place::DWord(68)),
    kind: Place::Nowhere,
    forms: &[InnerForm {
        number: 0,
        name: "Resource Node",
        size: InnerSize::Counted(24, Place::DWord(20), 8),
        parts: &[
            Part::Fields(&RESOURCE),
            Part::Entries(
                "Functional Dependency",
                Count::Field(Place::DWord(20)),
                &DEPENDENCY,
            ),
        ],
    }],
}];

/// The Memory System Resource Partitioning and Monitoring Table (Arm DEN0065). Data of a vendor may follow the resource nodes of
/// a controller; it has no name.
pub const MPAM: TableForm = TableForm {
    name: "Memory System Resource Partitioning and Monitoring Table (MPAM)",
    parts: &[Part::Fields(&HEADER)],
    structures: &[StructureForm {
        number: 0,
        name: "MPAM MSC Node",
        parts: &[Part::Fields(&NODE)],
        inner: &Inner::Lists(Start::At(72), &RESOURCES),
    }],
    further: &[],
    inner: &Inner::Nothing,
};
