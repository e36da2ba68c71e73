//! ERST: how error records are stored and read.

ghost use Rattle.std.specs.Prelude.{◌≡◌, false, true, bit_or, length};
ghost use Rattle.acpi_base.specs.Fields.{AreRowsOf};
ghost use Rattle.acpi_base.specs.FurtherWalk.{erst_walk};
ghost use Rattle.acpi_base.specs.Object.{whole, whole_ends_well};
ghost use Rattle.acpi_base.specs.declared.oem.Oem.{Oem};
ghost use Rattle.acpi_core.specs.Addition.{Adds};
ghost use Rattle.acpi_core.specs.Calls.{IsAfterItsCalls};
ghost use Rattle.acpi_core.specs.Listing.{bytes_of, length_limit};
ghost use Rattle.acpi_core.specs.Walk.{IsWalked, Keeps};
ghost use Rattle.acpi_pc.specs.Erst.{erst, erst_fields, action_number, instruction_number, entry, entry_fields, entry_bytes};

use acpi_base::error::R;
use acpi_base::gas::GAS;
use acpi_base::object::Aml;
use acpi_base::oem::Oem;
use acpi_base::row::{Bits, Record, Row, Value, Word, record_of, write_record};
use acpi_base::sink::AmlSink;
use acpi_core::form::Form;
use acpi_core::kind::Kind;
use acpi_core::table::Table;
use acpi_core::walked::{Walked, is_walked};
use std::alloc::Global;

/// The Error Record Serialization Table (ACPI 6.5, 18.5.1), revision 1. The number of entries is at offset 44, and they begin at
/// offset 48.
#[derive(Drop)]
pub struct ERST {
    table: Walked<ErstKind, 48>,
}

/// The kind of ERST.
pub struct ErstKind;

impl Kind for ErstKind {
    ghost walk = { erst_walk };

    ghost ported = { false };

    ghost limit = { length_limit };

    ghost closed = { true };
}

impl Aml for ERST {
    ghost object = { λ t. whole (bytes_of t.table.table) };

    ghost ends_well = { λ t. whole_ends_well (bytes_of t.table.table) };

    fn to_aml_bytes(&self, sink: &mut dyn AmlSink) -> R<()> {
        self.table.to_aml_bytes(sink)
    }
}

impl ERST {
    /// A table without entries. Its header contains its size, 48 (offset 36).
    pub fn new(alloc: Global, oem_id: [u8; 6], oem_table_id: [u8; 8], oem_revision: u32) -> ERST
        ensures { result.table.table ≡ erst (record { id = oem_id; table_id = oem_table_id; revision = oem_revision }) }
    {
        let oem = Oem::new(oem_id, oem_table_id, oem_revision);
        let form = Form::new(*b"ERST", 1, oem, 4);
        ERST {
            table: Walked::of(Table::new(alloc, form, &[48, 0, 0, 0, 0, 0, 0, 0], &[])),
        }
    }

    /// Adds an entry. The error is `FieldWidth` if the length would reach 2^32.
    pub fn add_entry(&mut self, entry: SerializationEntry) -> R<()>
        ensures { Adds result self.old.table (whole (entry_bytes entry)) self.new.table }
    {
        self.table.add_record(&entry)
    }

    /// The number of bytes of the table.
    pub fn len(&self) -> usize
        ensures { result ≡ length (bytes_of self.now.table.table) }
    {
        self.table.len()
    }

    /// The number of entries.
    pub fn count(&self) -> u32
        ensures { result ≡ length self.now.table.table.structures }
    {
        self.table.count()
    }
}

/// The rows of an ERST between its header and the number of its entries.
pub const ERST_FIXED: [Row; 2] = [
    Row::Number("Serialization Header Size", 4),
    Row::Reserved(4),
];

/// The rows of the fields between the header and the number of entries, in order.
pub fn erst_rows() -> &'static [Row]
    ensures { AreRowsOf result.now erst_fields }
{
    &ERST_FIXED
}

/// A law: after any calls the table is correct. Its entries, in order, are the one list that the walk finds.
pub fn erst_is_walked(table: &ERST)
    ensures keeps { Keeps false erst_walk length_limit true table.now.table.table }
    ensures walked { IsWalked false erst_walk table.now.table.table }
    ensures calls { (oem : Oem) → IsAfterItsCalls false erst_walk (erst oem) table.now.table }
{
    is_walked(&table.table)
}

/// What an entry is a step of (ACPI 6.5, 18.5.1.1, offset 0).
#[derive(Clone, Copy, Debug)]
pub enum Action {
    BeginWrite = 0,
    BeginRead = 1,
    BeginClear = 2,
    End = 3,
    SetRecordOffset = 4,
    Execute = 5,
    CheckBusyStatus = 6,
    GetCommandStatus = 7,
    GetRecordIdentifier = 8,
    SetRecordIdentifier = 9,
    GetRecordCount = 10,
    BeginDummyWrite = 11,
    GetErrorLogAddressRange = 13,
    GetErrorLogAddressRangeLength = 14,
    GetErrorLogAddressRangeAttributes = 15,
    GetExecuteTimings = 16,
}

/// What an entry does with its register (ACPI 6.5, 18.5.1.2, offset 1).
#[derive(Clone, Copy, Debug)]
pub enum Instruction {
    ReadRegister = 0,
    ReadRegisterValue = 1,
    WriteRegister = 2,
    WriteRegisterValue = 3,
    Noop = 4,
    LoadVar1 = 5,
    LoadVar2 = 6,
    StoreVar1 = 7,
    Add = 8,
    Subtract = 9,
    AddValue = 10,
    SubtractValue = 11,
    Stall = 12,
    StallWhileTrue = 13,
    SkipNextInstructionIfTrue = 14,
    Goto = 15,
    SetSourceAddressBase = 16,
    SetDestinationAddressBase = 17,
    MoveData = 18,
}

impl Action {
    // The number of the action.
    fn number(self) -> u8
        ensures { result ≡ action_number self }
    {
        self as u8
    }
}

impl Instruction {
    // The number of the instruction.
    fn number(self) -> u8
        ensures { result ≡ instruction_number self }
    {
        self as u8
    }
}

// A flag of an entry.
const PRESERVE_REGISTER: u8 = 1;

/// A step of an action: 32 bytes (ACPI 6.5, 18.5.1.2, Serialization Instruction Entry). The entries of an action are its steps in
/// their order.
#[derive(Clone, Copy, Debug)]
pub struct SerializationEntry {
    action: Action,
    instruction: Instruction,
    flags: u8,
    register: GAS,
    value: u64,
    mask: u64,
}

impl SerializationEntry {
    /// The step that carries out an instruction on a register (offset 4), with a value (offset 16), and a mask of the bits that
    /// are read or written (offset 24). It has no flag.
    pub fn new(
        action: Action,
        instruction: Instruction,
        register: GAS,
        value: u64,
        mask: u64,
    ) -> SerializationEntry
        ensures { result ≡ entry action instruction register value mask }
    {
        SerializationEntry {
            action,
            instruction,
            flags: 0,
            register,
            value,
            mask,
        }
    }

    /// Sets flag 1 (offset 2): a write keeps the bits of the register that aren't in the mask.
    pub fn preserve_register(mut self) -> SerializationEntry
        ensures { result ≡ record self { flags = bit_or self.flags 1 } }
    {
        self.flags |= PRESERVE_REGISTER;
        self
    }
}

const ACTIONS: [Word; 16] = [
    Word(0, "BEGIN_WRITE_OPERATION"),
    Word(1, "BEGIN_READ_OPERATION"),
    Word(2, "BEGIN_CLEAR_OPERATION"),
    Word(3, "END_OPERATION"),
    Word(4, "SET_RECORD_OFFSET"),
    Word(5, "EXECUTE_OPERATION"),
    Word(6, "CHECK_BUSY_STATUS"),
    Word(7, "GET_COMMAND_STATUS"),
    Word(8, "GET_RECORD_IDENTIFIER"),
    Word(9, "SET_RECORD_IDENTIFIER"),
    Word(10, "GET_RECORD_COUNT"),
    Word(11, "BEGIN_DUMMY_WRITE_OPERATION"),
    Word(13, "GET_ERROR_LOG_ADDRESS_RANGE"),
    Word(14, "GET_ERROR_LOG_ADDRESS_RANGE_LENGTH"),
    Word(15, "GET_ERROR_LOG_ADDRESS_RANGE_ATTRIBUTES"),
    Word(16, "GET_EXECUTE_OPERATION_TIMINGS"),
];

const INSTRUCTIONS: [Word; 19] = [
    Word(0, "READ_REGISTER"),
    Word(1, "READ_REGISTER_VALUE"),
    Word(2, "WRITE_REGISTER"),
    Word(3, "WRITE_REGISTER_VALUE"),
    Word(4, "NOOP"),
    Word(5, "LOAD_VAR1"),
    Word(6, "LOAD_VAR2"),
    Word(7, "STORE_VAR1"),
    Word(8, "ADD"),
    Word(9, "SUBTRACT"),
    Word(10, "ADD_VALUE"),
    Word(11, "SUBTRACT_VALUE"),
    Word(12, "STALL"),
    Word(13, "STALL_WHILE_TRUE"),
    Word(14, "SKIP_NEXT_INSTRUCTION_IF_TRUE"),
    Word(15, "GOTO"),
    Word(16, "SET_SRC_ADDRESS_BASE"),
    Word(17, "SET_DST_ADDRESS_BASE"),
    Word(18, "MOVE_DATA"),
];

/// The rows of an entry of an ERST.
pub const SERIALIZATION_ENTRY: [Row; 7] = [
    Row::OneOf("Serialization Action", 1, &ACTIONS),
    Row::OneOf("Instruction", 1, &INSTRUCTIONS),
    Row::Flags("Flags", 1, &[Bits::Flag(0x1, "PRESERVE_REGISTER")]),
    Row::Reserved(1),
    Row::Register("Register Region"),
    Row::Hex("Value", 8),
    Row::Hex("Mask", 8),
];

impl Record<32> for SerializationEntry {
    ghost fields = { entry_fields };

    fn rows() -> &'static [Row] {
        &SERIALIZATION_ENTRY
    }

    fn bytes(&self) -> [u8; 32] {
        record_of(
            &SERIALIZATION_ENTRY,
            &[
                Value::Number(u64::from(self.action.number())),
                Value::Number(u64::from(self.instruction.number())),
                Value::Number(u64::from(self.flags)),
                Value::Number(0),
                Value::Bytes(&self.register.bytes()),
                Value::Number(self.value),
                Value::Number(self.mask),
            ],
        )
    }
}

impl Aml for SerializationEntry {
    ghost object = { λ e. whole (entry_bytes e) };

    ghost ends_well = { λ e. whole_ends_well (entry_bytes e) };

    fn to_aml_bytes(&self, sink: &mut dyn AmlSink) -> R<()> {
        write_record(self, sink)
    }
}
