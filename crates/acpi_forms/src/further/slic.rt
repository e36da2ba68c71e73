//! The Software Licensing Description Table.

use acpi_base::header::HEADER;
use acpi_base::row::Row;
use acpi_text::form::{Inner, Part, StructureForm, TableForm};

const PUBLIC_KEY: [Row; 10] = [
    Row::Preset("Type", 4, 0),
    Row::Preset("Length", 4, 156),
    Row::Hex("Key Type", 1),
    Row::Hex("Version", 1),
    Row::Reserved(2),
    Row::Hex("Algorithm", 4),
    Row::Text("Magic", 4),
    Row::Number("Bit Length", 4),
    Row::Number("Exponent", 4),
    Row::Bytes("Modulus", 128),
];

const MARKER: [Row; 9] = [
    Row::Preset("Type", 4, 1),
    Row::Preset("Length", 4, 182),
    Row::Hex("Version", 4),
    Row::Text("OEM ID", 6),
    Row::Text("OEM Table ID", 8),
    Row::Text("Windows Flag", 8),
    Row::Hex("SLIC Version", 4),
    Row::Reserved(16),
    Row::Bytes("Signature", 128),
];

const LICENSES: [StructureForm; 2] = [
    StructureForm {
        number: 0,
        name: "OEM Public Key",
        parts: &[Part::Fields(&PUBLIC_KEY)],
        inner: &Inner::Nothing,
    },
    StructureForm {
        number: 1,
        name: "Windows Marker",
        parts: &[Part::Fields(&MARKER)],
        inner: &Inner::Nothing,
    },
];

/// The Software Licensing Description Table (Microsoft, Software Licensing Tables). Microsoft doesn't publish what its structures
/// consist of. These are the names in common use.
pub const SLIC: TableForm = TableForm {
    name: "Software Licensing Description Table (SLIC)",
    parts: &[Part::Fields(&HEADER)],
    structures: &LICENSES,
    further: &[],
    inner: &Inner::Nothing,
};
