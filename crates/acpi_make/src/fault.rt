//! What is wrong with a text.

ghost use Rattle.std.specs.Prelude.{◌≡◌, true, IfOk, Some, string_bytes};
ghost use Rattle.acpi_text.specs.Label.{all_print};
ghost use Rattle.acpi_make.specs.Fault.{fault, next, wide, grouped, whole, another, field_of, fault_of, line_at, column_at};
ghost use Rattle.acpi_make.specs.Fault.{words, wanted_text, found_text, explained};
ghost use Rattle.acpi_make.specs.Fault.{without_end, quoted, part_text, error_text};
ghost use Rattle.acpi_make.specs.declared.fault.MakeError.TheVariants.{Memory};

use crate::text::{is_white, part_at};
use acpi_text::note::{all_print, push_quoted};
use std::alloc::{AllocError, AllocFailed, Global};
use std::fmt;

/// What has to stand where a text is wrong.
#[derive(Clone, Copy, Debug, PartialEq, Eq)]
pub enum Wanted {
    /// A character that prints, or white space: there is a control character.
    Printing,
    /// White space, after a colon or a value.
    Space,
    /// A value.
    Value,
    /// A hexadecimal digit, or the end of the number.
    Digit,
    /// The second digit of a byte.
    SecondDigit,
    /// The quotation mark that ends a text, or a character of ASCII that prints.
    QuotationMark,
    /// The second question mark of a byte.
    QuestionMark,
    /// The second slash of a comment.
    Slash,
    /// The brace that ends names.
    Brace,
    /// Bytes: the line has no field, so its value has to be its bytes.
    Field,
    /// Names of the field's flags, or the name of one of its values.
    Name,
    /// A number that fits the field.
    Number,
    /// The label of one structure alone, whose offset fits the field.
    Label,
    /// Bytes in place of question marks: nothing determines them.
    Bytes,
    /// This field or structure, by its name.
    Next,
    /// A line of bytes: no field of the form stands here.
    Nameless,
    /// The end of the table.
    End,
    /// The name of a structure of this table, or its type.
    Structure,
    /// As many bytes as the field has.
    Width,
    /// Groups of as many digits as a number of the field has.
    Groups,
    /// Another number: the one that the field has to have.
    AnotherNumber,
    /// A field of a form.
    FieldOf,
    /// A field of a structure whose length is left out.
    Whole,
    /// The end of the text: a text is one table.
    OneTable,
    /// A table: the text has no bytes.
    Table,
    /// White space before a field, whose line would be a heading.
    Indented,
}

/// What is wrong with a text, and where. A place is the number of characters from it to the text's end.
#[derive(Clone, Copy, Debug, PartialEq, Eq)]
pub struct Fault {
    /// The place of the first character of what is wrong.
    pub from: usize,
    /// The place after its last character.
    pub to: usize,
    /// What has to stand there.
    pub wanted: Wanted,
    /// The name of the field or the structure that has to stand there, or nothing.
    pub name: &'static str,
    /// The width of this field in bytes, or the number that has to stand in it, or 0.
    pub width: usize,
    /// How many bytes the text has in place of this width.
    pub found: usize,
}

/// Why a text isn't made into bytes.
#[derive(Clone, Copy, Debug, PartialEq, Eq)]
pub enum MakeError {
    /// Memory ran out.
    Memory,
    /// The text has this fault.
    Fault(Fault),
}

/// A line and a column of a text, both counted from 1. A column is a number of bytes.
#[derive(Clone, Copy, Debug, PartialEq, Eq)]
pub struct Position {
    /// The line.
    pub line: usize,
    /// The column.
    pub column: usize,
}

/// Returns the line and the column of a place in a text.
pub fn find_position(place: usize, text: &[u8]) -> Position
    ensures line { result.line ≡ line_at place text.now }
    ensures column { result.column ≡ column_at place text.now }
{
    let mut line = 1;
    let mut column = 1;
    let before = &text[..text.len().saturating_sub(place)];
    'characters: for character in before {
        if *character == b'\n' {
            line += 1;
            column = 1;
        } else {
            column += 1;
        }
    }
    Position { line, column }
}

impl Wanted {
    /// What has to stand there, as text. Of a field or a structure it says this much.
    pub fn text(self) -> &'static str
        ensures { result.now ≡ words self }
    {
        match self {
            Wanted::Printing => "text",
            Wanted::Space => "a space",
            Wanted::Value => "a value",
            Wanted::Digit => "a hexadecimal digit",
            Wanted::SecondDigit => "the second digit of a byte (#5 and 0x5 are the number 5)",
            Wanted::QuotationMark => "a quotation mark, or a character of ASCII that prints",
            Wanted::QuestionMark => "a second question mark",
            Wanted::Slash => "a second slash",
            Wanted::Brace => "a brace at the end of the names",
            Wanted::Field => "bytes, since the line has no field",
            Wanted::Name => {
                "a name that this field has; a bar between spaces joins flags of different bits"
            }
            Wanted::Number => "a number that fits the field",
            Wanted::Label => "the label of one structure",
            Wanted::Bytes => "bytes, since nothing determines the question marks",
            Wanted::Next => "another field or structure",
            Wanted::Nameless => "Bytes, since no field of the form stands here",
            Wanted::End => "the end of the table",
            Wanted::Structure => "the name or the type of a structure of this table",
            Wanted::Width => "as many bytes as the field has",
            Wanted::Groups => "as many digits in a group as a number of the field has",
            Wanted::AnotherNumber => "another number",
            Wanted::FieldOf => "a field",
            Wanted::Whole => "all fields, since the length is left out",
            Wanted::OneTable => "the end of the text, since a text is one table",
            Wanted::Table => "a table, whose fields stand in lines after white space",
            Wanted::Indented => "white space before a field",
        }
    }
}

impl Fault {
    /// A fault that concerns no field.
    pub fn new(from: usize, to: usize, wanted: Wanted) -> Fault
        ensures { fault_of result ≡ fault from to wanted }
    {
        Fault {
            from,
            to,
            wanted,
            name: "",
            width: 0,
            found: 0,
        }
    }

    /// A fault in place of which a field or a structure has to stand.
    pub fn next(from: usize, to: usize, name: &'static str, width: usize) -> Fault
        ensures { fault_of result ≡ next from to name.now width }
    {
        Fault {
            from,
            to,
            wanted: Wanted::Next,
            name,
            width,
            found: 0,
        }
    }

    /// A line in place of which a field of a form has to stand.
    pub fn field_of(from: usize, to: usize, name: &'static str) -> Fault
        ensures { fault_of result ≡ field_of from to name.now }
    {
        Fault {
            from,
            to,
            wanted: Wanted::FieldOf,
            name,
            width: 0,
            found: 0,
        }
    }

    /// A field that has another number of bytes in the text.
    pub fn wide(from: usize, to: usize, name: &'static str, width: usize, found: usize) -> Fault
        ensures { fault_of result ≡ wide from to name.now width found }
    {
        Fault {
            from,
            to,
            wanted: Wanted::Width,
            name,
            width,
            found,
        }
    }

    /// A field whose digits stand in other groups in the text. Its numbers have this many digits.
    pub fn grouped(from: usize, to: usize, name: &'static str, digits: usize) -> Fault
        ensures { fault_of result ≡ grouped from to name.now digits }
    {
        Fault {
            from,
            to,
            wanted: Wanted::Groups,
            name,
            width: digits,
            found: 0,
        }
    }

    /// A field in which another number has to stand.
    pub fn another(from: usize, to: usize, name: &'static str, number: usize) -> Fault
        ensures { fault_of result ≡ another from to name.now number }
    {
        Fault {
            from,
            to,
            wanted: Wanted::AnotherNumber,
            name,
            width: number,
            found: 0,
        }
    }

    /// A field that a table or a structure lacks, whose length is left out.
    pub fn whole(from: usize, to: usize, name: &'static str, width: usize) -> Fault
        ensures { fault_of result ≡ whole from to name.now width }
    {
        Fault {
            from,
            to,
            wanted: Wanted::Whole,
            name,
            width,
            found: 0,
        }
    }

    // Returns what has to stand there, as text.
    fn wanted_text(&self, alloc: Global) -> Result<String, AllocError>
        ensures { IfOk result (λ text. string_bytes text ≡ wanted_text (fault_of self.now)) }
    {
        let (name, width) = (self.name, self.width);
        match self.wanted {
            Wanted::Next if name.is_empty() => format!(in alloc; "another field or structure"),
            Wanted::Next if width == 0 => format!(in alloc; "{name}"),
            Wanted::Next if width == 1 => format!(in alloc; "{name} (1 byte)"),
            Wanted::Next => format!(in alloc; "{name} ({width} bytes)"),
            Wanted::Width if width == 1 => format!(in alloc; "1 byte of {name}"),
            Wanted::Width => format!(in alloc; "{width} bytes of {name}"),
            Wanted::Groups => format!(in alloc; "groups of {width} digits in {name}"),
            Wanted::AnotherNumber => format!(in alloc; "{width} in {name}"),
            Wanted::FieldOf => format!(in alloc; "a field of {name}"),
            Wanted::Whole if width == 1 => format!(in alloc;
                "{name} (1 byte), since the length is left out"
            ),
            Wanted::Whole => format!(in alloc;
                "{name} ({width} bytes), since the length is left out"
            ),
            wanted => {
                let words = wanted.text();
                format!(in alloc; "{words}")
            }
        }
    }

    // Returns what stands there, as text.
    fn found_text(&self, alloc: Global, text: &[u8]) -> Result<String, AllocError>
        ensures { IfOk result (λ found. string_bytes found ≡ found_text (fault_of self.now) text.now) }
    {
        let part = without_end(part_at(self.from, self.to, text));
        match self.wanted {
            Wanted::Width => {
                let found = self.found;
                format!(in alloc; "{found}")
            }
            Wanted::Groups => format!(in alloc; "other groups"),
            Wanted::AnotherNumber => format!(in alloc; "another number"),
            _ => part_text(alloc, self.from, part),
        }
    }

    /// Returns what is wrong with a text, and where: the line, the column, what has to stand there, and what does.
    pub fn explain(&self, alloc: Global, text: &[u8]) -> Result<String, AllocError>
        ensures { IfOk result (λ why. string_bytes why ≡ explained (fault_of self.now) text.now) }
    {
        let Position { line, column } = find_position(self.from, text);
        let wanted = self.wanted_text(alloc)?;
        let found = self.found_text(alloc, text)?;
        format!(in alloc; "line {line}, column {column}: expected {wanted}, found {found}")
    }
}

// Returns a part of a text without the white space at its end.
fn without_end(part: &[u8]) -> &[u8]
    ensures { result.now ≡ without_end part.now }
{
    let mut end = 0;
    'characters: for i in 0..part.len() {
        if !is_white(part[i]) {
            end = i + 1;
        }
    }
    &part[..end]
}

// Returns a part of a text between quotation marks.
fn quoted(alloc: Global, part: &[u8]) -> Result<String, AllocError>
    requires { all_print part.now ≡ true }
    ensures { IfOk result (λ text. string_bytes text ≡ quoted part.now) }
{
    let mut text = String::new(alloc);
    push_quoted(part, &mut text)?;
    Ok(text)
}

// Returns a part of a text that begins at a place, as a message shows it.
fn part_text(alloc: Global, from: usize, part: &[u8]) -> Result<String, AllocError>
    ensures { IfOk result (λ text. string_bytes text ≡ part_text from part.now) }
{
    if from == 0 {
        return format!(in alloc; "the end of the text");
    }
    if part.is_empty() {
        return format!(in alloc; "white space");
    }
    if part[0] == b'\n' {
        return format!(in alloc; "the end of the line");
    }
    if all_print(part) {
        return quoted(alloc, part);
    }
    format!(in alloc; "characters that don't print")
}

/// What has to stand there, for the user of a program. `explain` says more.
impl fmt::Display for MakeError {
    ghost output = { λ error. Some (error_text error) };

    fn fmt<W: fmt::Write>(&self, f: &mut fmt::Formatter<W>) -> fmt::Result {
        match *self {
            MakeError::Memory => write!(f, "out of memory"),
            MakeError::Fault(fault) => {
                let wanted = fault.wanted.text();
                write!(f, "expected {wanted}")
            }
        }
    }
}

impl std::error::Error for MakeError {}

impl From<AllocError> for MakeError {
    ghost from_gives = { λ _ e. e ≡ Memory };

    fn from(_e: AllocError) -> MakeError {
        MakeError::Memory
    }
}

impl<T: Drop> From<AllocFailed<T>> for MakeError {
    ghost from_gives = { λ _ e. e ≡ Memory };

    fn from(_e: AllocFailed<T>) -> MakeError {
        MakeError::Memory
    }
}
