//! Errors of reading.

ghost use Rattle.std.specs.Prelude.{◌≡◌, Some};
ghost use Rattle.acpi_term.specs.ReadError.{text_of};
ghost use Rattle.acpi_term.specs.declared.read_error.ReadError.TheVariants.{Memory};
ghost use Rattle.acpi_term.specs.ReadError.{name_of, offset_of, message_of};

use std::alloc::{AllocError, AllocFailed};
use std::fmt;

/// Why bytes can't be read, with the offset of the fault. In AML it is that of the term's first byte. If there are several
/// faults, any of them may be returned.
#[derive(Clone, Copy, Debug, PartialEq)]
pub enum ReadError {
    /// The allocator refused memory.
    Memory,
    /// The bytes end within a term.
    Truncated(usize),
    /// No term begins with these bytes.
    Opcode(usize),
    /// The text isn't a name: an optional `\`, and then 1 to 255 standard segments.
    NameText,
    /// A PkgLength passes the end of the bytes around it, is smaller than its own width, or has reserved bits set.
    Length(usize),
    /// Reserved for readers that accept the shortest forms of numbers only. These crates never return it.
    Number(usize),
    /// A count isn't the number of the things that it counts. In a table the offset is that of the count.
    Count(usize),
    /// The flags of a field or a method have a value without a meaning.
    Flags(usize),
    /// A string contains a byte above 7F.
    Text(usize),
    /// The terms are nested deeper than `MAX_DEPTH`.
    TooDeep(usize),
    /// A name is listed twice, or with more than 7 arguments.
    Arity,
    /// There are fewer bytes than the standard header has. The offset is their number.
    ShortHeader(usize),
    /// The table's length at offset 4 isn't the number of its bytes.
    TableLength(usize),
    /// The table's bytes don't sum to zero. The checksum is at offset 9.
    Sum(usize),
    /// A structure isn't as long as it says, or the table's fixed fields don't fit its structures. The offset is that of the
    /// structure, or of the field.
    Structure(usize),
    /// The size of a hardware error source of this type isn't known. The offset is that of the source.
    UnknownSource(usize),
}

impl ReadError {
    /// The error's name, without its offset.
    pub fn name(self) -> &'static str
        ensures { result.now ≡ name_of self }
    {
        match self {
            ReadError::Memory => "Memory",
            ReadError::Truncated(_) => "Truncated",
            ReadError::Opcode(_) => "Opcode",
            ReadError::NameText => "NameText",
            ReadError::Length(_) => "Length",
            ReadError::Number(_) => "Number",
            ReadError::Count(_) => "Count",
            ReadError::Flags(_) => "Flags",
            ReadError::Text(_) => "Text",
            ReadError::TooDeep(_) => "TooDeep",
            ReadError::Arity => "Arity",
            ReadError::ShortHeader(_) => "ShortHeader",
            ReadError::TableLength(_) => "TableLength",
            ReadError::Sum(_) => "Sum",
            ReadError::Structure(_) => "Structure",
            ReadError::UnknownSource(_) => "UnknownSource",
        }
    }

    /// The offset in the error, if any.
    pub fn offset(self) -> Option<usize>
        ensures { result ≡ offset_of self }
    {
        match self {
            ReadError::Memory | ReadError::NameText | ReadError::Arity => None,
            ReadError::Truncated(offset)
            | ReadError::Opcode(offset)
            | ReadError::Length(offset)
            | ReadError::Number(offset)
            | ReadError::Count(offset)
            | ReadError::Flags(offset)
            | ReadError::Text(offset)
            | ReadError::TooDeep(offset)
            | ReadError::ShortHeader(offset)
            | ReadError::TableLength(offset)
            | ReadError::Sum(offset)
            | ReadError::Structure(offset)
            | ReadError::UnknownSource(offset) => Some(offset),
        }
    }

    /// The error as text, without its offset.
    pub fn message(self) -> &'static str
        ensures { result.now ≡ message_of self }
    {
        match self {
            ReadError::Memory => "out of memory",
            ReadError::Truncated(_) => "the bytes end within a term",
            ReadError::Opcode(_) => "no term begins so",
            ReadError::NameText =>
                "a name is 1 to 255 standard segments, after a backslash or none",
            ReadError::Length(_) => "a PkgLength doesn't fit what surrounds it",
            ReadError::Number(_) => "a number isn't in its shortest form",
            ReadError::Count(_) => "a count isn't the number of what it counts",
            ReadError::Flags(_) => "flags have no meaning",
            ReadError::Text(_) => "a string has a byte past 7F",
            ReadError::TooDeep(_) => "terms nest too deep",
            ReadError::Arity => "a name is given arguments twice, or more than 7",
            ReadError::ShortHeader(_) => "a table has at least the 36 bytes of the standard header",
            ReadError::TableLength(_) => "the length of a table isn't the number of its bytes",
            ReadError::Sum(_) => "the bytes of a table don't sum to zero",
            ReadError::Structure(_) => "a structure isn't as long as it says",
            ReadError::UnknownSource(_) => "the size of an error source isn't known",
        }
    }
}

/// The error and its offset as text, for the user of a program.
impl fmt::Display for ReadError {
    ghost output = { λ error. Some (text_of error) };

    fn fmt<W: fmt::Write>(&self, f: &mut fmt::Formatter<W>) -> fmt::Result {
        let message = self.message();
        match self.offset() {
            Some(offset) => write!(f, "at offset {offset}: {message}"),
            None => write!(f, "{message}"),
        }
    }
}

impl std::error::Error for ReadError {}

impl From<AllocError> for ReadError {
    ghost from_gives = { λ _ e. e ≡ Memory };

    fn from(_error: AllocError) -> ReadError {
        ReadError::Memory
    }
}

impl<T: Drop> From<AllocFailed<T>> for ReadError {
    ghost from_gives = { λ _ e. e ≡ Memory };

    fn from(_error: AllocFailed<T>) -> ReadError {
        ReadError::Memory
    }
}
