//! The Alert Standard Format Table.

use acpi_base::header::HEADER;
use acpi_base::row::{Bits, Row, Word};
use acpi_base::walk::Place;
use acpi_text::form::{Count, Inner, Part, StructureForm, TableForm};

const RECORD_TYPES: [Word; 5] = [
    Word(0x0, "ASF_INFO"),
    Word(0x1, "ASF_ALRT"),
    Word(0x2, "ASF_RCTL"),
    Word(0x3, "ASF_RMCP"),
    Word(0x4, "ASF_ADDR"),
];

const RECORD_TYPE: [Bits; 2] = [
    Bits::OneOf(0x7f, &RECORD_TYPES),
    Bits::Flag(0x80, "Last Record"),
];

const RECORD: [Row; 3] = [
    Row::Flags("Type", 1, &RECORD_TYPE),
    Row::Reserved(1),
    Row::Number("Record Length", 2),
];

const INFO: [Row; 6] = [
    Row::Number("Minimum Watchdog Reset Value", 1),
    Row::Number("Minimum ASF Sensor Inter-poll Wait Time", 1),
    Row::Hex("System ID", 2),
    Row::Hex("IANA Manufacturer ID", 4),
    Row::Hex("Feature Flags", 1),
    Row::Reserved(3),
];

const ALERTS: [Row; 4] = [
    Row::Hex("Assertion Event Bit Mask", 1),
    Row::Hex("Deassertion Event Bit Mask", 1),
    Row::Number("Number of Alerts", 1),
    Row::Preset("Array Element Length", 1, 12),
];

const ALERT: [Row; 12] = [
    Row::Hex("Device Address", 1),
    Row::Hex("Command", 1),
    Row::Hex("Data Mask", 1),
    Row::Hex("Compare Value", 1),
    Row::Hex("Event Sensor Type", 1),
    Row::Hex("Event Type", 1),
    Row::Hex("Event Offset", 1),
    Row::Hex("Event Source Type", 1),
    Row::Hex("Event Severity", 1),
    Row::Hex("Sensor Number", 1),
    Row::Hex("Entity", 1),
    Row::Hex("Entity Instance", 1),
];

const CONTROLS: [Row; 3] = [
    Row::Number("Number of Controls", 1),
    Row::Preset("Array Element Length", 1, 4),
    Row::Reserved(2),
];

const CONTROL: [Row; 4] = [
    Row::Hex("Function", 1),
    Row::Hex("Device Address", 1),
    Row::Hex("Command", 1),
    Row::Hex("Data Value", 1),
];

const CAPABILITIES: [Row; 7] = [
    Row::Bytes("Remote Control Capabilities", 7),
    Row::Hex("RMCP Boot Options Completion Code", 1),
    Row::Hex("RMCP IANA Enterprise ID", 4),
    Row::Hex("RMCP Special Command", 1),
    Row::Bytes("RMCP Special Command Parameter", 2),
    Row::Bytes("RMCP Boot Options", 2),
    Row::Bytes("RMCP OEM Parameters", 2),
];

const ADDRESSES: [Row; 2] = [
    Row::Hex("SEEPROM Address", 1),
    Row::Number("Number of Devices", 1),
];

const RECORDS: [StructureForm; 10] = [
    StructureForm {
        number: 0,
        name: "ASF_INFO",
        parts: &[Part::Fields(&RECORD), Part::Fields(&INFO)],
        inner: &Inner::Nothing,
    },
    StructureForm {
        number: 1,
        name: "ASF_ALRT",
        parts: &[
            Part::Fields(&RECORD),
            Part::Fields(&ALERTS),
            Part::Entries("ASF_ALERTDATA", Count::Field(Place::Byte(6)), &ALERT),
        ],
        inner: &Inner::Nothing,
    },
    StructureForm {
        number: 2,
        name: "ASF_RCTL",
        parts: &[
            Part::Fields(&RECORD),
            Part::Fields(&CONTROLS),
            Part::Entries("ASF_CONTROLDATA", Count::Field(Place::Byte(4)), &CONTROL),
        ],
        inner: &Inner::Nothing,
    },
    StructureForm {
        number: 3,
        name: "ASF_RMCP",
        parts: &[Part::Fields(&RECORD), Part::Fields(&CAPABILITIES)],
        inner: &Inner::Nothing,
    },
    StructureForm {
        number: 4,
        name: "ASF_ADDR",
        parts: &[
            Part::Fields(&RECORD),
            Part::Fields(&ADDRESSES),
            Part::Bytes("Fixed SMBus Addresses", Place::Byte(5)),
        ],
        inner: &Inner::Nothing,
    },
    StructureForm {
        number: 128,
        name: "ASF_INFO, the Last Record",
        parts: &[Part::Fields(&RECORD), Part::Fields(&INFO)],
        inner: &Inner::Nothing,
    },
    StructureForm {
        number: 129,
        name: "ASF_ALRT, the Last Record",
        parts: &[
            Part::Fields(&RECORD),
            Part::Fields(&ALERTS),
            Part::Entries("ASF_ALERTDATA", Count::Field(Place::Byte(6)), &ALERT),
        ],
        inner: &Inner::Nothing,
    },
    StructureForm {
        number: 130,
        name: "ASF_RCTL, the Last Record",
        parts: &[
            Part::Fields(&RECORD),
            Part::Fields(&CONTROLS),
            Part::Entries("ASF_CONTROLDATA", Count::Field(Place::Byte(4)), &CONTROL),
        ],
        inner: &Inner::Nothing,
    },
    StructureForm {
        number: 131,
        name: "ASF_RMCP, the Last Record",
        parts: &[Part::Fields(&RECORD), Part::Fields(&CAPABILITIES)],
        inner: &Inner::Nothing,
    },
    StructureForm {
        number: 132,
        name: "ASF_ADDR, the Last Record",
        parts: &[
            Part::Fields(&RECORD),
            Part::Fields(&ADDRESSES),
            Part::Bytes("Fixed SMBus Addresses", Place::Byte(5)),
        ],
        inner: &Inner::Nothing,
    },
];

/// The Alert Standard Format Table (DMTF DSP0136 2.0). The type of its last record has its highest bit set.
pub const ASF: TableForm = TableForm {
    name: "Alert Standard Format Table (ASF!)",
    parts: &[Part::Fields(&HEADER)],
    structures: &RECORDS,
    further: &[],
    inner: &Inner::Nothing,
};
