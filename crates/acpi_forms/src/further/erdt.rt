//! The Enhanced Resource Director Technology table.

use acpi_base::header::HEADER;
use acpi_base::row::Row;
use acpi_base::walk::{Place, Sizes};
use acpi_text::form::{Count, Inner, InnerForm, InnerList, InnerSize, Part, Start, TableForm};

const ERDT_FIXED: [Row; 2] = [
    Row::Number("Maximum Number of Classes of Service", 4),
    Row::Reserved(24),
];

const DOMAIN: [Row; 11] = [
    Row::Preset("Type", 2, 0),
    Row::Number("Length", 2),
    Row::Hex("Flags", 2),
    Row::Number("Number of I/O L3 Slices", 2),
    Row::Number("Number of I/O L3 Sets", 1),
    Row::Number("Number of I/O L3 Ways", 1),
    Row::Reserved(8),
    Row::Hex("Domain ID", 2),
    Row::Number("Maximum RMID", 4),
    Row::Hex("Control Register Base Address", 8),
    Row::Number("Control Register Size", 2),
];

const CPU_AGENTS: [Row; 4] = [
    Row::Preset("Type", 2, 1),
    Row::Number("Length", 2),
    Row::Reserved(2),
    Row::Hex("RMDD Domain ID", 2),
];

const DEVICE_AGENTS: [Row; 4] = [
    Row::Preset("Type", 2, 2),
    Row::Number("Length", 2),
    Row::Reserved(2),
    Row::Hex("RMDD Domain ID", 2),
];

const STEP: [Row; 2] = [Row::Hex("Device", 1), Row::Hex("Function", 1)];

const CPU_CACHE_MONITORS: [Row; 11] = [
    Row::Preset("Type", 2, 3),
    Row::Preset("Length", 2, 48),
    Row::Reserved(4),
    Row::Hex("Flags", 4),
    Row::Number("Register Indexing Function Version", 1),
    Row::Reserved(11),
    Row::Hex("CMT Register Block Base Address", 8),
    Row::Number("CMT Register Block Size", 4),
    Row::Number("CMT Register Clump Size", 2),
    Row::Number("CMT Register Clump Stride", 2),
    Row::Number("CMT Upscaling Factor", 8),
];

const CPU_BANDWIDTH_MONITORS: [Row; 12] = [
    Row::Preset("Type", 2, 4),
    Row::Number("Length", 2),
    Row::Reserved(4),
    Row::Hex("Flags", 4),
    Row::Number("Register Indexing Function Version", 1),
    Row::Reserved(11),
    Row::Hex("MBM Register Block Base Address", 8),
    Row::Number("MBM Register Block Size", 4),
    Row::Number("MBM Counter Width", 1),
    Row::Number("MBM Upscaling Factor", 8),
    Row::Reserved(7),
    Row::Number("MBM Correction Factor List Length", 4),
];

const CPU_BANDWIDTH_LIMITS: [Row; 11] = [
    Row::Preset("Type", 2, 5),
    Row::Preset("Length", 2, 48),
    Row::Reserved(2),
    Row::Hex("Flags", 2),
    Row::Number("Register Indexing Function Version", 1),
    Row::Reserved(7),
    Row::Hex("MBA Optimal Bandwidth Register Block Base Address", 8),
    Row::Hex("MBA Minimum Bandwidth Register Block Base Address", 8),
    Row::Hex("MBA Maximum Bandwidth Register Block Base Address", 8),
    Row::Number("MBA Register Block Size", 4),
    Row::Number("MBA Bandwidth Control Window Range", 4),
];

const CPU_CACHE_LIMITS: [Row; 2] = [Row::Preset("Type", 2, 6), Row::Number("Length", 2)];

const DEVICE_CACHE_MONITORS: [Row; 11] = [
    Row::Preset("Type", 2, 7),
    Row::Preset("Length", 2, 48),
    Row::Reserved(4),
    Row::Hex("Flags", 4),
    Row::Number("Register Indexing Function Version", 1),
    Row::Reserved(11),
    Row::Hex("Register Block Base Address", 8),
    Row::Number("Register Block Size", 4),
    Row::Number("CMT Register Offset", 2),
    Row::Number("CMT Register Clump Size", 2),
    Row::Number("CMT Upscaling Factor", 8),
];

const DEVICE_BANDWIDTH_MONITORS: [Row; 16] = [
    Row::Preset("Type", 2, 8),
    Row::Number("Length", 2),
    Row::Reserved(4),
    Row::Hex("Flags", 4),
    Row::Number("Register Indexing Function Version", 1),
    Row::Reserved(11),
    Row::Hex("Register Block Base Address", 8),
    Row::Number("Register Block Size", 4),
    Row::Number("Total I/O Bandwidth Register Offset", 2),
    Row::Number("I/O Miss Bandwidth Register Offset", 2),
    Row::Number("Total I/O Bandwidth Register Clump Size", 2),
    Row::Number("I/O Miss Bandwidth Register Clump Size", 2),
    Row::Reserved(7),
    Row::Number("Counter Width", 1),
    Row::Number("Upscaling Factor", 8),
    Row::Number("Correction Factor List Length", 4),
];

const DEVICE_BANDWIDTH_LIMITS: [Row; 2] = [Row::Preset("Type", 2, 9), Row::Number("Length", 2)];

const DEVICE_CACHE_LIMITS: [Row; 11] = [
    Row::Preset("Type", 2, 10),
    Row::Preset("Length", 2, 40),
    Row::Reserved(4),
    Row::Hex("Flags", 4),
    Row::Hex("Contention Bitmask", 4),
    Row::Number("Register Indexing Function Version", 1),
    Row::Reserved(7),
    Row::Hex("Register Block Base Address", 8),
    Row::Number("Register Block Size", 4),
    Row::Number("CAT Register Offset", 2),
    Row::Number("CAT Register Block Size", 2),
];

const TOLD: InnerSize = InnerSize::Walked(Sizes::ToldAt(Place::Word(2)));

// A device path. Its first two bytes are its type and its length, so its number is both. The type is 1 for a PCI endpoint, and 2
// for a PCI sub-hierarchy.
macro_rules! path {
    ($number:literal, $type:literal, $length:literal) => {
        InnerForm {
            number: $number,
            name: "Device Path",
            size: InnerSize::Walked(Sizes::ToldAt(Place::Byte(1))),
            parts: &[
                Part::Fields(&[
                    Row::Preset("Device Type", 1, $type),
                    Row::Preset("Device Path Length", 1, $length),
                    Row::Hex("Segment Number", 2),
                    Row::Reserved(1),
                    Row::Hex("Start Bus Number", 1),
                ]),
                Part::Entries("Path", Count::Rest, &STEP),
            ],
        }
    };
}

// A structure that has its length, and only fields.
macro_rules! fields {
    ($number:literal, $name:literal, $rows:ident) => {
        InnerForm {
            number: $number,
            name: $name,
            size: TOLD,
            parts: &[Part::Fields(&$rows)],
        }
    };
}

// A domain has the length of all structures up to the next one, and a collection of device agents that of all its paths. Here
// both end after their fields, and what they contain follows.
const STRUCTURES: [InnerForm; 17] = [
    InnerForm {
        number: 0,
        name: "Resource Management Domain Description (RMDD)",
        size: InnerSize::Walked(Sizes::EachOf(34)),
        parts: &[Part::Fields(&DOMAIN)],
    },
    InnerForm {
        number: 1,
        name: "CPU Agent Collection Description (CACD)",
        size: TOLD,
        parts: &[
            Part::Fields(&CPU_AGENTS),
            Part::Numbers("X2APIC ID", 4, Count::Rest),
        ],
    },
    InnerForm {
        number: 2,
        name: "Device Agent Collection Description (DACD)",
        size: InnerSize::Walked(Sizes::EachOf(8)),
        parts: &[Part::Fields(&DEVICE_AGENTS)],
    },
    path!(0x0801, 1, 8),
    path!(0x0802, 2, 8),
    path!(0x0a01, 1, 10),
    path!(0x0a02, 2, 10),
    path!(0x0c01, 1, 12),
    path!(0x0c02, 2, 12),
    fields!(
        3,
        "Cache Monitoring Registers for CPU Agents Description (CMRC)",
        CPU_CACHE_MONITORS
    ),
    InnerForm {
        number: 4,
        name: "Memory-bandwidth Monitoring Registers for CPU Agents Description (MMRC)",
        size: TOLD,
        parts: &[
            Part::Fields(&CPU_BANDWIDTH_MONITORS),
            Part::Numbers("MBM Correction Factor", 4, Count::Field(Place::DWord(52))),
        ],
    },
    fields!(
        5,
        "Memory-bandwidth Allocation Registers for CPU Agents Description (MARC)",
        CPU_BANDWIDTH_LIMITS
    ),
    fields!(
        6,
        "Cache Allocation Registers for CPU Agents Description (CARC)",
        CPU_CACHE_LIMITS
    ),
    fields!(
        7,
        "Cache Monitoring Registers for Device Agents Description (CMRD)",
        DEVICE_CACHE_MONITORS
    ),
    InnerForm {
        number: 8,
        name: "I/O Bandwidth Monitoring Registers for Device Agents Description (IBRD)",
        size: TOLD,
        parts: &[
            Part::Fields(&DEVICE_BANDWIDTH_MONITORS),
            Part::Numbers("Correction Factor", 4, Count::Field(Place::DWord(60))),
        ],
    },
    fields!(
        9,
        "I/O Bandwidth Allocation Registers for Device Agents Description (IBAD)",
        DEVICE_BANDWIDTH_LIMITS
    ),
    fields!(
        10,
        "Cache Allocation Registers for Device Agents Description (CARD)",
        DEVICE_CACHE_LIMITS
    ),
];

/// The Enhanced Resource Director Technology table (Intel Resource Director Technology Architecture Specification). The layout is
/// that of ACPICA's template; the names are from memory. Structures that have no fields in it (CARC, IBAD) have only their type
/// and their length here, and flags have no meanings.
pub const ERDT: TableForm = TableForm {
    name: "Enhanced Resource Director Technology Table (ERDT)",
    parts: &[Part::Fields(&HEADER), Part::Fields(&ERDT_FIXED)],
    structures: &[],
    further: &[],
    inner: &Inner::Lists(
        Start::At(64),
        &[InnerList {
            count: Count::Rest,
            kind: Place::Word(0),
            forms: &STRUCTURES,
        }],
    ),
};
