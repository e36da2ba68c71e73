//! The I/O Virtualization Table of LoongArch.

use acpi_base::header::HEADER;
use acpi_base::row::{Bits, Row, Word};
use acpi_base::walk::{Place, Sizes};
use acpi_text::form::{
    Count, Inner, InnerForm, InnerList, InnerSize, Part, Start, StructureForm, TableForm,
};

const IOVT_FIXED: [Row; 3] = [
    Row::Number("Number of IOMMUs", 2),
    Row::Preset("Offset of the First IOMMU", 2, 48),
    Row::Reserved(8),
];

const IOMMU_FLAGS: [Bits; 2] = [
    Bits::Flag(0x1, "PCI Device"),
    Bits::Flag(0x2, "Proximity Domain Valid"),
];

const IOMMU: [Row; 18] = [
    Row::Preset("Type", 2, 0),
    Row::Number("Length", 2),
    Row::Flags("Flags", 4, &IOMMU_FLAGS),
    Row::Hex("PCI Segment", 2),
    Row::Number("Physical Address Width", 2),
    Row::Number("Virtual Address Width", 2),
    Row::Number("Maximum Page Level", 2),
    Row::Hex("Page Sizes", 8),
    Row::Hex("Device ID", 4),
    Row::Hex("Base Address", 8),
    Row::Hex("Address Space Size", 4),
    Row::Hex("Interrupt Type", 1),
    Row::Reserved(3),
    Row::Number("Global System Interrupt Base", 4),
    Row::Number("Proximity Domain", 4),
    Row::Number("Maximum Number of Interrupts", 4),
    Row::Number("Number of Devices", 4),
    Row::Preset("Offset of the First Device", 4, 64),
];

const DEVICE_TYPES: [Word; 3] = [
    Word(0, "PCI Endpoint Device"),
    Word(1, "PCI Sub-hierarchy, First"),
    Word(2, "PCI Sub-hierarchy, Last"),
];

const DEVICE: [Row; 5] = [
    Row::OneOf("Type", 1, &DEVICE_TYPES),
    Row::Preset("Length", 1, 8),
    Row::Hex("Flags", 1),
    Row::Reserved(3),
    Row::Hex("Device ID", 2),
];

const DEVICES: Inner = Inner::Lists(
    Start::At(64),
    &[InnerList {
        count: Count::Rest,
        kind: Place::Nowhere,
        forms: &[InnerForm {
            number: 0,
            name: "Device Entry",
            size: InnerSize::Walked(Sizes::ToldAt(Place::Byte(1))),
            parts: &[Part::Fields(&DEVICE)],
        }],
    }],
);

/// The I/O Virtualization Table (LoongArch). The layout is that of ACPICA's template; the names are from memory.
pub const IOVT: TableForm = TableForm {
    name: "I/O Virtualization Table (IOVT)",
    parts: &[Part::Fields(&HEADER), Part::Fields(&IOVT_FIXED)],
    structures: &[StructureForm {
        number: 0,
        name: "IOMMU Structure",
        parts: &[Part::Fields(&IOMMU)],
        inner: &DEVICES,
    }],
    further: &[],
    inner: &Inner::Nothing,
};
