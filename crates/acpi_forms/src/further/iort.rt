//! A node of the IO Remapping Table that no library call writes: a bridge that turns wired interrupts into messages.

use acpi_arm::iort::ID_MAPPING;
use acpi_base::row::Row;
use acpi_base::walk::Place;
use acpi_text::form::{Count, Inner, Part, StructureForm};

const WIRE_BRIDGE: [Row; 8] = [
    Row::Preset("Type", 1, 7),
    Row::Number("Length", 2),
    Row::Number("Revision", 1),
    Row::Hex("Identifier", 4),
    Row::Number("Number of ID Mappings", 4),
    Row::Number("Reference to ID Array", 4),
    Row::Hex("Config Frame Base", 8),
    Row::Number("IWB Index", 2),
];

/// The interrupt wire bridge (Arm DEN0049G).
pub const IORT_FURTHER: [StructureForm; 1] = [StructureForm {
    number: 7,
    name: "Interrupt Wire Bridge (IWB)",
    parts: &[
        Part::Fields(&WIRE_BRIDGE),
        Part::Until("Device Object Name", Place::DWord(12)),
        Part::Entries("ID Mapping", Count::Field(Place::DWord(8)), &ID_MAPPING),
    ],
    inner: &Inner::Nothing,
}];
