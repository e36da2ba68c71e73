//! The numbers that the standard allows in single fields.

use crate::allowed::Allowed;
use crate::limit::Limit;
use acpi_base::walk::Place;

/// Numbers that are allowed, although a form has no name for them.
#[rattlefmt::skip]
pub const ALLOWED: [Allowed; 13] = [
    // Address spaces of an OEM (ACPI 6.5, 5.2.3.2).
    Allowed { table: "", offset: 0, name: "Address Space ID", from: 192, to: 255 },
    // INT_MODEL of ACPI 1.0 (5.2.9).
    Allowed { table: "FACP", offset: 44, name: "Reserved", from: 1, to: 1 },
    // The lengths of a GICC in ACPI 5.0 to 6.4, and of a Multiprocessor Wakeup in ACPI 6.6. A row has no type of structure, so
    // each structure of a MADT may have these lengths.
    Allowed { table: "APIC", offset: 0, name: "Length", from: 40, to: 40 },
    Allowed { table: "APIC", offset: 0, name: "Length", from: 76, to: 76 },
    Allowed { table: "APIC", offset: 0, name: "Length", from: 80, to: 80 },
    Allowed { table: "APIC", offset: 0, name: "Length", from: 24, to: 24 },
    // A cache of ACPI 6.2 and 6.3.
    Allowed { table: "PPTT", offset: 0, name: "Length", from: 24, to: 24 },
    // A table without a PM timer.
    Allowed { table: "FACP", offset: 91, name: "PM_TMR_LEN", from: 0, to: 0 },
    // Features of a vendor (5.2.21).
    Allowed { table: "RAS2", offset: 0, name: "Feature Type", from: 128, to: 255 },
    // Methods of vendors, and methods of Arm and AMD (TCG ACPI Specification 1.4, 8).
    Allowed { table: "TPM2", offset: 0, name: "Start Method", from: 3, to: 5 },
    Allowed { table: "TPM2", offset: 0, name: "Start Method", from: 9, to: 11 },
    Allowed { table: "TPM2", offset: 0, name: "Start Method", from: 13, to: 13 },
    Allowed { table: "TPM2", offset: 0, name: "Start Method", from: 15, to: 15 },
];

/// The ranges of numbers in the fields of tables.
#[rattlefmt::skip]
pub const RANGES: [Limit; 29] = [
    Limit {
        table: "FACP", offset: 4, name: "Length", from: 116, to: 116,
        place: Place::Byte(8), mask: 255, is: 1, section: "ACPI 6.5, 5.2.9",
    },
    Limit {
        table: "FACP", offset: 4, name: "Length", from: 244, to: 244,
        place: Place::Byte(8), mask: 255, is: 3, section: "ACPI 6.5, 5.2.9",
    },
    Limit {
        table: "FACP", offset: 4, name: "Length", from: 244, to: 244,
        place: Place::Byte(8), mask: 255, is: 4, section: "ACPI 6.5, 5.2.9",
    },
    Limit {
        table: "FACP", offset: 4, name: "Length", from: 268, to: 268,
        place: Place::Byte(8), mask: 255, is: 5, section: "ACPI 6.5, 5.2.9",
    },
    Limit {
        table: "FACP", offset: 4, name: "Length", from: 276, to: 276,
        place: Place::Byte(8), mask: 255, is: 6, section: "ACPI 6.5, 5.2.9",
    },
    Limit {
        table: "FACP", offset: 88, name: "PM1_EVT_LEN", from: 4, to: 255,
        place: Place::DWord(112), mask: 0x10_0000, is: 0, section: "ACPI 6.5, 5.2.9",
    },
    Limit {
        table: "FACP", offset: 89, name: "PM1_CNT_LEN", from: 2, to: 255,
        place: Place::DWord(112), mask: 0x10_0000, is: 0, section: "ACPI 6.5, 5.2.9",
    },
    Limit {
        table: "FACP", offset: 91, name: "PM_TMR_LEN", from: 4, to: 4,
        place: Place::DWord(112), mask: 0x10_0000, is: 0, section: "ACPI 6.5, 5.2.9",
    },
    Limit {
        table: "BERT", offset: 4, name: "Length", from: 48, to: 48,
        place: Place::Byte(8), mask: 255, is: 1, section: "ACPI 6.5, 18.3.1",
    },
    Limit {
        table: "BGRT", offset: 4, name: "Length", from: 56, to: 56,
        place: Place::Byte(8), mask: 255, is: 1, section: "ACPI 6.5, 5.2.23",
    },
    Limit {
        table: "CCEL", offset: 4, name: "Length", from: 56, to: 56,
        place: Place::Byte(8), mask: 255, is: 1, section: "ACPI 6.5, 5.2.34",
    },
    Limit {
        table: "SBST", offset: 4, name: "Length", from: 48, to: 48,
        place: Place::Byte(8), mask: 255, is: 1, section: "ACPI 6.5, 5.2.14",
    },
    Limit {
        table: "HPET", offset: 4, name: "Length", from: 56, to: 56,
        place: Place::Byte(8), mask: 255, is: 1, section: "IA-PC HPET 1.0a, 3.2.4",
    },
    Limit {
        table: "WAET", offset: 4, name: "Length", from: 40, to: 40,
        place: Place::Byte(8), mask: 255, is: 1, section: "WAET 1.2",
    },
    Limit {
        table: "WSMT", offset: 4, name: "Length", from: 40, to: 40,
        place: Place::Byte(8), mask: 255, is: 1, section: "WSMT 1.0",
    },
    Limit {
        table: "BOOT", offset: 4, name: "Length", from: 40, to: 40,
        place: Place::Byte(8), mask: 255, is: 1, section: "BOOT 2.1",
    },
    Limit {
        table: "DBGP", offset: 4, name: "Length", from: 52, to: 52,
        place: Place::Byte(8), mask: 255, is: 1, section: "DBGP 1.0",
    },
    Limit {
        table: "SRAT", offset: 36, name: "Reserved", from: 1, to: 1,
        place: Place::Nowhere, mask: 0, is: 0, section: "ACPI 6.5, 5.2.16",
    },
    Limit {
        table: "XSDT", offset: 0, name: "Entry", from: 1, to: 0xffff_ffff_ffff_ffff,
        place: Place::Nowhere, mask: 0, is: 0, section: "ACPI 6.5, 5.2.8",
    },
    Limit {
        table: "RSDT", offset: 0, name: "Entry", from: 1, to: 0xffff_ffff,
        place: Place::Nowhere, mask: 0, is: 0, section: "ACPI 6.5, 5.2.7",
    },
    Limit {
        table: "APIC", offset: 0, name: "I/O APIC Address", from: 1, to: 0xffff_ffff,
        place: Place::Nowhere, mask: 0, is: 0, section: "ACPI 6.5, 5.2.12.3",
    },
    Limit {
        table: "APIC", offset: 0, name: "Source", from: 0, to: 15,
        place: Place::Nowhere, mask: 0, is: 0, section: "ACPI 6.5, 5.2.12.5",
    },
    Limit {
        table: "HEST", offset: 0, name: "Number of Records to Pre-allocate", from: 1, to: 0xffff_ffff,
        place: Place::Nowhere, mask: 0, is: 0, section: "ACPI 6.5, 18.3.2",
    },
    Limit {
        table: "HEST", offset: 0, name: "Max Sections Per Record", from: 1, to: 0xffff_ffff,
        place: Place::Nowhere, mask: 0, is: 0, section: "ACPI 6.5, 18.3.2",
    },
    Limit {
        table: "HMAT", offset: 0, name: "Entry Base Unit", from: 1, to: 0xffff_ffff_ffff_ffff,
        place: Place::Nowhere, mask: 0, is: 0, section: "ACPI 6.5, 5.2.28.4",
    },
    Limit {
        table: "GTDT", offset: 0, name: "GT Block Timer Count", from: 0, to: 8,
        place: Place::Nowhere, mask: 0, is: 0, section: "ACPI 6.5, 5.2.25.1",
    },
    Limit {
        table: "GTDT", offset: 0, name: "GT Frame Number", from: 0, to: 7,
        place: Place::Nowhere, mask: 0, is: 0, section: "ACPI 6.5, 5.2.25.1",
    },
    Limit {
        table: "HPET", offset: 44, name: "Address", from: 1, to: 0xffff_ffff_ffff_ffff,
        place: Place::Nowhere, mask: 0, is: 0, section: "IA-PC HPET 1.0a, 3.2.4",
    },
    Limit {
        table: "MCFG", offset: 0, name: "Base Address", from: 1, to: 0xffff_ffff_ffff_ffff,
        place: Place::Nowhere, mask: 0, is: 0, section: "PCI Firmware 3.3, 4.1.2",
    },
];
