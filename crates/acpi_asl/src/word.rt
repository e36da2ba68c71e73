//! The words of ASL (ACPI 6.5, 19.2 and 19.6).

ghost use Rattle.std.specs.Prelude.{◌≡◌, ◌++◌, map, OnOk, string_bytes};
ghost use Rattle.acpi_asl.specs.Word.{operator_word, words_of, keyword_text, serialize_word};

use crate::number::push_hex;
use acpi_term::op::Op;
use acpi_terms_text::word::word_in;
use std::alloc::AllocError;

/// The word of an operator.
pub fn operator_word(op: Op) -> &'static str
    ensures { result.now ≡ operator_word op }
{
    match op {
        Op::LNot => "LNot",
        Op::LEqual => "LEqual",
        Op::LLess => "LLess",
        Op::LGreater => "LGreater",
        Op::LAnd => "LAnd",
        Op::LOr => "LOr",
        Op::Increment => "Increment",
        Op::Decrement => "Decrement",
        Op::Break => "Break",
        Op::ObjectType => "ObjectType",
        Op::SizeOf => "SizeOf",
        Op::Return => "Return",
        Op::DeRefOf => "DerefOf",
        Op::Add => "Add",
        Op::Concat => "Concatenate",
        Op::Subtract => "Subtract",
        Op::Multiply => "Multiply",
        Op::ShiftLeft => "ShiftLeft",
        Op::ShiftRight => "ShiftRight",
        Op::And => "And",
        Op::Nand => "NAnd",
        Op::Or => "Or",
        Op::Nor => "NOr",
        Op::Xor => "XOr",
        Op::ConcatRes => "ConcatenateResTemplate",
        Op::Mod => "Mod",
        Op::Index => "Index",
        Op::ToString => "ToString",
        Op::CreateDWordField => "CreateDWordField",
        Op::CreateQWordField => "CreateQWordField",
        Op::ToBuffer => "ToBuffer",
        Op::ToInteger => "ToInteger",
        Op::Store => "Store",
        Op::Notify => "Notify",
        Op::Mid => "Mid",
        Op::CreateField => "CreateField",
        Op::Alias => "Alias",
        Op::RefOf => "RefOf",
        Op::Divide => "Divide",
        Op::Not => "Not",
        Op::FindSetLeftBit => "FindSetLeftBit",
        Op::FindSetRightBit => "FindSetRightBit",
        Op::Match => "Match",
        Op::CreateWordField => "CreateWordField",
        Op::CreateByteField => "CreateByteField",
        Op::CreateBitField => "CreateBitField",
        Op::ToDecimalString => "ToDecimalString",
        Op::ToHexString => "ToHexString",
        Op::CopyObject => "CopyObject",
        Op::Continue => "Continue",
        Op::Noop => "Noop",
        Op::BreakPoint => "BreakPoint",
        Op::Event => "Event",
        Op::CondRefOf => "CondRefOf",
        Op::LoadTable => "LoadTable",
        Op::Load => "Load",
        Op::Stall => "Stall",
        Op::Sleep => "Sleep",
        Op::Signal => "Signal",
        Op::Wait => "Wait",
        Op::Reset => "Reset",
        Op::FromBCD => "FromBCD",
        Op::ToBCD => "ToBCD",
        Op::Unload => "Unload",
        Op::Revision => "Revision",
        Op::Debug => "Debug",
        Op::Timer => "Timer",
        Op::DataRegion => "DataTableRegion",
        Op::Acquire => "Acquire",
        Op::Release => "Release",
    }
}

/// The kinds of words that stand for numbers (ACPI 6.5, 19.2.7).
#[derive(Clone, Copy)]
pub enum Keyword {
    AccessType,
    AccessAttribute,
    ExtendedAttribute,
    LockRule,
    UpdateRule,
    RegionSpace,
    ObjectType,
    MatchOperator,
}

/// Access types (AccessTypeKeyword).
const ACCESS_TYPES: [(u8, &str); 6] = [
    (0, "AnyAcc"),
    (1, "ByteAcc"),
    (2, "WordAcc"),
    (3, "DWordAcc"),
    (4, "QWordAcc"),
    (5, "BufferAcc"),
];

/// Access attributes (AccessAttribKeyword).
const ACCESS_ATTRIBUTES: [(u8, &str); 7] = [
    (2, "AttribQuick"),
    (4, "AttribSendReceive"),
    (6, "AttribByte"),
    (8, "AttribWord"),
    (10, "AttribBlock"),
    (12, "AttribProcessCall"),
    (13, "AttribBlockProcessCall"),
];

/// Those with a length (ExtendedAttribKeyword).
const EXTENDED_ATTRIBUTES: [(u8, &str); 3] = [
    (11, "AttribBytes"),
    (14, "AttribRawBytes"),
    (15, "AttribRawProcessBytes"),
];

/// Lock rules (LockRuleKeyword).
const LOCK_RULES: [(u8, &str); 2] = [(0, "NoLock"), (1, "Lock")];

/// Update rules (UpdateRuleKeyword).
const UPDATE_RULES: [(u8, &str); 3] = [(0, "Preserve"), (1, "WriteAsOnes"), (2, "WriteAsZeros")];

/// Address spaces (RegionSpaceKeyword).
pub const REGION_SPACES: [(u8, &str); 13] = [
    (0, "SystemMemory"),
    (1, "SystemIO"),
    (2, "PCI_Config"),
    (3, "EmbeddedControl"),
    (4, "SMBus"),
    (5, "SystemCMOS"),
    (6, "PciBarTarget"),
    (7, "IPMI"),
    (8, "GeneralPurposeIo"),
    (9, "GenericSerialBus"),
    (10, "PCC"),
    (11, "PlatformRtMechanism"),
    (127, "FFixedHW"),
];

/// Object types (ObjectTypeKeyword).
const OBJECT_TYPES: [(u8, &str); 16] = [
    (0, "UnknownObj"),
    (1, "IntObj"),
    (2, "StrObj"),
    (3, "BuffObj"),
    (4, "PkgObj"),
    (5, "FieldUnitObj"),
    (6, "DeviceObj"),
    (7, "EventObj"),
    (8, "MethodObj"),
    (9, "MutexObj"),
    (10, "OpRegionObj"),
    (11, "PowerResObj"),
    (12, "ProcessorObj"),
    (13, "ThermalZoneObj"),
    (14, "BuffFieldObj"),
    (15, "DDBHandleObj"),
];

/// The ways in which Match compares (MatchOpKeyword).
const MATCH_OPERATORS: [(u8, &str); 6] = [
    (0, "MTR"),
    (1, "MEQ"),
    (2, "MLE"),
    (3, "MLT"),
    (4, "MGE"),
    (5, "MGT"),
];

/// Returns the words of a kind, each with its number.
pub fn rows_of(keyword: Keyword) -> &'static [(u8, &'static str)]
    ensures { map (λ row. (row.0, row.1.now)) result.now ≡ words_of keyword }
{
    match keyword {
        Keyword::AccessType => &ACCESS_TYPES,
        Keyword::AccessAttribute => &ACCESS_ATTRIBUTES,
        Keyword::ExtendedAttribute => &EXTENDED_ATTRIBUTES,
        Keyword::LockRule => &LOCK_RULES,
        Keyword::UpdateRule => &UPDATE_RULES,
        Keyword::RegionSpace => &REGION_SPACES,
        Keyword::ObjectType => &OBJECT_TYPES,
        Keyword::MatchOperator => &MATCH_OPERATORS,
    }
}

/// Adds the word of a number, or the number if there is none.
pub fn push_keyword(keyword: Keyword, number: u8, text: &mut String) -> Result<(), AllocError>
    ensures { OnOk result (string_bytes text.new ≡ string_bytes text.old ++ keyword_text keyword number) }
{
    let word = word_in(rows_of(keyword), number);
    if word.is_empty() {
        return push_hex(1, u64::from(number), text);
    }
    text.push_str(word)
}

/// The word of a method's serialization.
pub fn serialize_word(serialized: bool) -> &'static str
    ensures { result.now ≡ serialize_word serialized }
{
    if serialized {
        "Serialized"
    } else {
        "NotSerialized"
    }
}
