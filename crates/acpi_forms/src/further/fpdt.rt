//! The Firmware Performance Data Table.

use acpi_base::header::HEADER;
use acpi_pc::fpdt::{BOOT_POINTER, S3_POINTER};
use acpi_text::form::{Inner, Part, StructureForm, TableForm};

const FPDT_RECORDS: [StructureForm; 2] = [
    StructureForm {
        number: 0,
        name: "Firmware Basic Boot Performance Pointer Record",
        parts: &[Part::Fields(&BOOT_POINTER)],
        inner: &Inner::Nothing,
    },
    StructureForm {
        number: 1,
        name: "S3 Performance Table Pointer Record",
        parts: &[Part::Fields(&S3_POINTER)],
        inner: &Inner::Nothing,
    },
];

/// The Firmware Performance Data Table (ACPI 6.5, 5.2.24). The tables to which its records point have no standard header.
pub const FPDT: TableForm = TableForm {
    name: "Firmware Performance Data Table (FPDT)",
    parts: &[Part::Fields(&HEADER)],
    structures: &FPDT_RECORDS,
    further: &[],
    inner: &Inner::Nothing,
};
