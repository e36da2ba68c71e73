//! The Error Injection Table.

use acpi_base::header::HEADER;
use acpi_base::row::{Bits, Row, Word};
use acpi_text::form::{Inner, Part, StructureForm, TableForm};

const EINJ_FIXED: [Row; 4] = [
    Row::Number("Injection Header Size", 4),
    Row::Hex("Injection Flags", 1),
    Row::Reserved(3),
    Row::Number("Injection Entry Count", 4),
];

const ACTIONS: [Word; 13] = [
    Word(0, "BEGIN_INJECTION_OPERATION"),
    Word(1, "GET_TRIGGER_ERROR_ACTION_TABLE"),
    Word(2, "SET_ERROR_TYPE"),
    Word(3, "GET_ERROR_TYPE"),
    Word(4, "END_OPERATION"),
    Word(5, "EXECUTE_OPERATION"),
    Word(6, "CHECK_BUSY_STATUS"),
    Word(7, "GET_COMMAND_STATUS"),
    Word(8, "SET_ERROR_TYPE_WITH_ADDRESS"),
    Word(9, "GET_EXECUTE_OPERATION_TIMINGS"),
    Word(16, "EINJV2_SET_ERROR_TYPE"),
    Word(17, "EINJV2_GET_ERROR_TYPE"),
    Word(255, "TRIGGER_ERROR"),
];

const INSTRUCTIONS: [Word; 5] = [
    Word(0, "READ_REGISTER"),
    Word(1, "READ_REGISTER_VALUE"),
    Word(2, "WRITE_REGISTER"),
    Word(3, "WRITE_REGISTER_VALUE"),
    Word(4, "NOOP"),
];

const ENTRY_FLAGS: [Bits; 1] = [Bits::Flag(0x1, "PRESERVE_REGISTER")];

const ENTRY: [Row; 7] = [
    Row::OneOf("Injection Action", 1, &ACTIONS),
    Row::OneOf("Instruction", 1, &INSTRUCTIONS),
    Row::Flags("Flags", 1, &ENTRY_FLAGS),
    Row::Reserved(1),
    Row::Register("Register Region"),
    Row::Hex("Value", 8),
    Row::Hex("Mask", 8),
];

/// The Error Injection Table (ACPI 6.5, 18.6.1).
pub const EINJ: TableForm = TableForm {
    name: "Error Injection Table (EINJ)",
    parts: &[Part::Fields(&HEADER), Part::Fields(&EINJ_FIXED)],
    structures: &[StructureForm {
        number: 0,
        name: "Injection Instruction Entry",
        parts: &[Part::Fields(&ENTRY)],
        inner: &Inner::Nothing,
    }],
    further: &[],
    inner: &Inner::Nothing,
};
