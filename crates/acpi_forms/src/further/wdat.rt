//! The Watchdog Action Table.

use acpi_base::header::HEADER;
use acpi_base::row::{Bits, Row, Word};
use acpi_text::form::{Inner, Part, StructureForm, TableForm};

const WATCHDOG_FLAGS: [Bits; 2] = [
    Bits::Flag(0x1, "Enabled"),
    Bits::Flag(0x80, "Stopped in Sleep State"),
];

const WDAT_FIXED: [Row; 12] = [
    Row::Number("Watchdog Header Length", 4),
    Row::Hex("PCI Segment", 2),
    Row::Hex("PCI Bus Number", 1),
    Row::Hex("PCI Device Number", 1),
    Row::Hex("PCI Function Number", 1),
    Row::Reserved(3),
    Row::Number("Timer Period", 4),
    Row::Number("Maximum Count", 4),
    Row::Number("Minimum Count", 4),
    Row::Flags("Watchdog Flags", 1, &WATCHDOG_FLAGS),
    Row::Reserved(3),
    Row::Number("Number of Watchdog Instruction Entries", 4),
];

const ACTIONS: [Word; 14] = [
    Word(1, "RESET"),
    Word(4, "QUERY_CURRENT_COUNTDOWN_PERIOD"),
    Word(5, "QUERY_COUNTDOWN_PERIOD"),
    Word(6, "SET_COUNTDOWN_PERIOD"),
    Word(8, "QUERY_RUNNING_STATE"),
    Word(9, "SET_RUNNING_STATE"),
    Word(10, "QUERY_STOPPED_STATE"),
    Word(11, "SET_STOPPED_STATE"),
    Word(16, "QUERY_REBOOT"),
    Word(17, "SET_REBOOT"),
    Word(18, "QUERY_SHUTDOWN"),
    Word(19, "SET_SHUTDOWN"),
    Word(32, "QUERY_WATCHDOG_STATUS"),
    Word(33, "SET_WATCHDOG_STATUS"),
];

const INSTRUCTIONS: [Word; 4] = [
    Word(0x0, "READ_VALUE"),
    Word(0x1, "READ_COUNTDOWN"),
    Word(0x2, "WRITE_VALUE"),
    Word(0x3, "WRITE_COUNTDOWN"),
];

const INSTRUCTION_FLAGS: [Bits; 2] = [
    Bits::OneOf(0x3, &INSTRUCTIONS),
    Bits::Flag(0x80, "PRESERVE_REGISTER"),
];

const ENTRY: [Row; 6] = [
    Row::OneOf("Watchdog Action", 1, &ACTIONS),
    Row::Flags("Instruction Flags", 1, &INSTRUCTION_FLAGS),
    Row::Reserved(2),
    Row::Register("Register Region"),
    Row::Hex("Value", 4),
    Row::Hex("Mask", 4),
];

/// The Watchdog Action Table (Microsoft, Hardware Watchdog Timers Design Specification).
pub const WDAT: TableForm = TableForm {
    name: "Watchdog Action Table (WDAT)",
    parts: &[Part::Fields(&HEADER), Part::Fields(&WDAT_FIXED)],
    structures: &[StructureForm {
        number: 0,
        name: "Watchdog Instruction Entry",
        parts: &[Part::Fields(&ENTRY)],
        inner: &Inner::Nothing,
    }],
    further: &[],
    inner: &Inner::Nothing,
};
