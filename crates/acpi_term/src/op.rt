//! Operators.

ghost use Rattle.std.specs.Prelude.{◌≡◌, [], ◌∷◌};
ghost use Rattle.acpi_term.specs.Operator.{opcode, operands, word, language_of, place, op_of};

use crate::language::Language;
use crate::mode::Mode;

/// An operator (ACPI 6.5, 20.2.5). The comparisons `NotEqual`, `LessEqual` and `GreaterEqual` are an `LNot` of another.
#[derive(Clone, Copy, Debug, PartialEq, Eq)]
pub enum Op {
    LNot,
    LEqual,
    LLess,
    LGreater,
    LAnd,
    LOr,
    Increment,
    Decrement,
    Break,
    ObjectType,
    SizeOf,
    Return,
    DeRefOf,
    Add,
    Concat,
    Subtract,
    Multiply,
    ShiftLeft,
    ShiftRight,
    And,
    Nand,
    Or,
    Nor,
    Xor,
    ConcatRes,
    Mod,
    Index,
    ToString,
    CreateDWordField,
    CreateQWordField,
    ToBuffer,
    ToInteger,
    Store,
    Notify,
    Mid,
    CreateField,
    Alias,
    RefOf,
    Divide,
    Not,
    FindSetLeftBit,
    FindSetRightBit,
    Match,
    CreateWordField,
    CreateByteField,
    CreateBitField,
    ToDecimalString,
    ToHexString,
    CopyObject,
    Continue,
    Noop,
    BreakPoint,
    Event,
    CondRefOf,
    LoadTable,
    Load,
    Stall,
    Sleep,
    Signal,
    Wait,
    Reset,
    FromBCD,
    ToBCD,
    Unload,
    Revision,
    Debug,
    Timer,
    DataRegion,
    /// Acquire of an object that isn't a name. That of a name is `Term::Acquire`.
    Acquire,
    /// Release of an object that isn't a name. That of a name is `Term::Release`.
    Release,
}

/// Every operator: the byte of its opcode, or the one after 5B (ACPI 6.5, 20.3), the number of its operands with the target
/// (20.2.5), the least language that has it, the place of its first operand in the standard, and its word in a report.
macro_rules! operators {
    ($wanted:ident of $subject:expr) => {
        look_up! { $wanted $subject;
            LNot 0x92 1 Written Term "lnot"
            LEqual 0x93 2 Written Term "lequal"
            LLess 0x95 2 Written Term "lless"
            LGreater 0x94 2 Written Term "lgreater"
            LAnd 0x90 2 Written Term "land"
            LOr 0x91 2 Written Term "lor"
            Increment 0x75 1 Written Term "increment"
            Decrement 0x76 1 Written Term "decrement"
            Break 0xa5 0 Written Term "break"
            ObjectType 0x8e 1 Written Element "objecttype"
            SizeOf 0x87 1 Written Term "sizeof"
            Return 0xa4 1 Written Term "return"
            DeRefOf 0x83 1 Written Term "derefof"
            Add 0x72 3 Written Term "add"
            Concat 0x73 3 Written Term "concat"
            Subtract 0x74 3 Written Term "subtract"
            Multiply 0x77 3 Written Term "multiply"
            ShiftLeft 0x79 3 Written Term "shiftleft"
            ShiftRight 0x7a 3 Written Term "shiftright"
            And 0x7b 3 Written Term "and"
            Nand 0x7c 3 Written Term "nand"
            Or 0x7d 3 Written Term "or"
            Nor 0x7e 3 Written Term "nor"
            Xor 0x7f 3 Written Term "xor"
            ConcatRes 0x84 3 Written Term "concatres"
            Mod 0x85 3 Written Term "mod"
            Index 0x88 3 Written Term "index"
            ToString 0x9c 3 Written Term "tostring"
            CreateDWordField 0x8a 3 Written Term "createdwordfield"
            CreateQWordField 0x8f 3 Written Term "createqwordfield"
            ToBuffer 0x96 2 Written Term "tobuffer"
            ToInteger 0x99 2 Written Term "tointeger"
            Store 0x70 2 Written Term "store"
            Notify 0x86 2 Written Term "notify"
            Mid 0x9e 4 Written Term "mid"
            Alias 0x06 2 Standard Element "alias"
            RefOf 0x71 1 Standard Element "refof"
            Divide 0x78 4 Standard Term "divide"
            Not 0x80 2 Standard Term "not"
            FindSetLeftBit 0x81 2 Standard Term "findsetleftbit"
            FindSetRightBit 0x82 2 Standard Term "findsetrightbit"
            Match 0x89 4 Standard Searched "match"
            CreateWordField 0x8b 3 Standard Term "createwordfield"
            CreateByteField 0x8c 3 Standard Term "createbytefield"
            CreateBitField 0x8d 3 Standard Term "createbitfield"
            ToDecimalString 0x97 2 Standard Term "todecimalstring"
            ToHexString 0x98 2 Standard Term "tohexstring"
            CopyObject 0x9d 2 Standard Count "copyobject"
            Continue 0x9f 0 Standard Term "continue"
            Noop 0xa3 0 Standard Term "noop"
            BreakPoint 0xcc 0 Standard Term "breakpoint"
            ;
            CreateField 0x13 4 Written Term "createfield"
            Event 0x02 1 Standard Element "event"
            CondRefOf 0x12 2 Standard Element "condrefof"
            LoadTable 0x1f 6 Standard Term "loadtable"
            Load 0x20 2 Standard Element "load"
            Stall 0x21 1 Standard Term "stall"
            Sleep 0x22 1 Standard Term "sleep"
            Signal 0x24 1 Standard Term "signal"
            Wait 0x25 2 Standard Term "wait"
            Reset 0x26 1 Standard Term "reset"
            FromBCD 0x28 2 Standard Term "frombcd"
            ToBCD 0x29 2 Standard Term "tobcd"
            Unload 0x2a 1 Standard Term "unload"
            Revision 0x30 0 Standard Term "revision"
            Debug 0x31 0 Standard Term "debug"
            Timer 0x33 0 Standard Term "timer"
            DataRegion 0x88 4 Standard Term "dataregion"
            Acquire 0x23 2 Standard Acquired "acquire"
            Release 0x27 1 Standard Released "release"
        }
    };
}

/// Selects a column of these rows.
macro_rules! look_up {
    (code $op:expr;
        $($name:ident $byte:literal $operands:literal $language:ident $place:ident $word:literal)*
        ; $($second:ident $after:literal $many:literal $among:ident $at:ident $said:literal)*) => {
        match $op {
            $(Op::$name => &[$byte],)*
            $(Op::$second => &[0x5b, $after],)*
        }
    };
    (operands $op:expr;
        $($name:ident $byte:literal $operands:literal $language:ident $place:ident $word:literal)*
        ; $($second:ident $after:literal $many:literal $among:ident $at:ident $said:literal)*) => {
        match $op {
            $(Op::$name => $operands,)*
            $(Op::$second => $many,)*
        }
    };
    (language $op:expr;
        $($name:ident $byte:literal $operands:literal $language:ident $place:ident $word:literal)*
        ; $($second:ident $after:literal $many:literal $among:ident $at:ident $said:literal)*) => {
        match $op {
            $(Op::$name => Language::$language,)*
            $(Op::$second => Language::$among,)*
        }
    };
    (place $op:expr;
        $($name:ident $byte:literal $operands:literal $language:ident $place:ident $word:literal)*
        ; $($second:ident $after:literal $many:literal $among:ident $at:ident $said:literal)*) => {
        match $op {
            $(Op::$name => Mode::$place,)*
            $(Op::$second => Mode::$at,)*
        }
    };
    (word $op:expr;
        $($name:ident $byte:literal $operands:literal $language:ident $place:ident $word:literal)*
        ; $($second:ident $after:literal $many:literal $among:ident $at:ident $said:literal)*) => {
        match $op {
            $(Op::$name => $word,)*
            $(Op::$second => $said,)*
        }
    };
    (byte $found:expr;
        $($name:ident $byte:literal $operands:literal $language:ident $place:ident $word:literal)*
        ; $($second:ident $after:literal $many:literal $among:ident $at:ident $said:literal)*) => {
        match $found {
            $($byte => Some(Op::$name),)*
            _ => None,
        }
    };
    (after $found:expr;
        $($name:ident $byte:literal $operands:literal $language:ident $place:ident $word:literal)*
        ; $($second:ident $after:literal $many:literal $among:ident $at:ident $said:literal)*) => {
        match $found {
            $($after => Some(Op::$second),)*
            _ => None,
        }
    };
}

impl Op {
    /// The opcode's bytes (ACPI 6.5, 20.3).
    pub fn code(self) -> &'static [u8]
        ensures { result.now ≡ opcode self }
    {
        operators!(code of self)
    }

    /// The number of its operands, with the target (ACPI 6.5, 20.2.5).
    pub fn operands(self) -> u8
        ensures { result ≡ operands self }
    {
        operators!(operands of self)
    }

    /// The least language that has it.
    pub fn language(self) -> Language
        ensures { result ≡ language_of self }
    {
        operators!(language of self)
    }

    /// The place of its first operand in a language. In what this library writes, each operand stands as a term.
    pub fn place(self, language: Language) -> Mode
        ensures { result ≡ place language self }
    {
        match language {
            Language::Written => Mode::Term,
            Language::Standard => operators!(place of self),
        }
    }

    /// Its word in the lines of a report.
    pub fn word(self) -> &'static str
        ensures { result.now ≡ word self }
    {
        operators!(word of self)
    }

    /// The operator with this opcode, if there is one.
    #[tactic(auto, using(crate::proofs::Operators::none_empty, crate::proofs::Operators::none_of_two, crate::proofs::Operators::none_so_long,))]
    pub fn from_code(bytes: &[u8]) -> Option<Op>
        ensures { result ≡ op_of bytes.now }
    {
        match bytes {
            [byte] => Op::from_byte(*byte),
            [0x5b, byte] => Op::from_second(*byte),
            _ => None,
        }
    }

    // The operator whose opcode is this byte.
    #[tactic(auto, unfolding(crate::specs::Operator::op_of))]
    fn from_byte(byte: u8) -> Option<Op>
        ensures { result ≡ op_of (byte ∷ []) }
    {
        operators!(byte of byte)
    }

    // The operator whose opcode is 5B and this byte.
    #[tactic(auto, unfolding(crate::specs::Operator::op_of))]
    fn from_second(byte: u8) -> Option<Op>
        ensures { result ≡ op_of (0x5b ∷ byte ∷ []) }
    {
        operators!(after of byte)
    }
}
