//! The Core System Resource Table.

use acpi_base::header::HEADER;
use acpi_base::row::{Row, Word};
use acpi_base::walk::{Place, Sizes};
use acpi_text::form::{
    Count, Inner, InnerForm, InnerList, InnerSize, Part, Start, StructureForm, TableForm,
};

const GROUP: [Row; 8] = [
    Row::Number("Length", 4),
    Row::Hex("Vendor ID", 4),
    Row::Hex("Subvendor ID", 4),
    Row::Hex("Device ID", 2),
    Row::Hex("Subdevice ID", 2),
    Row::Hex("Revision", 2),
    Row::Reserved(2),
    Row::Number("Shared Information Length", 4),
];

const DESCRIPTOR_TYPES: [Word; 3] = [Word(1, "Interrupt"), Word(2, "Timer"), Word(3, "DMA")];

const DESCRIPTOR: [Row; 4] = [
    Row::Number("Length", 4),
    Row::OneOf("Type", 2, &DESCRIPTOR_TYPES),
    Row::Number("Subtype", 2),
    Row::Hex("UID", 4),
];

// The descriptors of a group stand after its shared information, of which offset 20 has the length.
const DESCRIPTORS: [InnerList; 1] = [InnerList {
    count: Count::Rest,
    kind: Place::Nowhere,
    forms: &[InnerForm {
        number: 0,
        name: "Resource Descriptor",
        size: InnerSize::Walked(Sizes::ToldAt(Place::DWord(0))),
        parts: &[
            Part::Fields(&DESCRIPTOR),
            Part::Until("Resource Information", Place::DWord(0)),
        ],
    }],
}];

/// The Core System Resource Table (Microsoft).
pub const CSRT: TableForm = TableForm {
    name: "Core System Resource Table (CSRT)",
    parts: &[Part::Fields(&HEADER)],
    structures: &[StructureForm {
        number: 0,
        name: "Resource Group",
        parts: &[
            Part::Fields(&GROUP),
            Part::Bytes("Shared Information", Place::DWord(20)),
        ],
        inner: &Inner::Lists(Start::After(24, Place::DWord(20)), &DESCRIPTORS),
    }],
    further: &[],
    inner: &Inner::Nothing,
};
