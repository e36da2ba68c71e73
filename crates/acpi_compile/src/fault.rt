//! Why a text isn't made into a definition block.

ghost use Rattle.std.specs.Prelude.{◌≡◌, ◌++◌, map, codes, IfOk, OnOk, string_bytes};
ghost use Rattle.acpi_read.specs.Report.{printable};
ghost use Rattle.acpi_compile.specs.declared.fault.AslError.TheVariants.{Memory};
ghost use Rattle.acpi_compile.specs.Fault.{words, argument_word, takes_text, undeclared, otherwise, place_text, explained};
ghost use Rattle.acpi_compile.specs.Squeeze.{line_of};

use crate::squeeze::{line_of, squeezed, word_at};
use acpi_asl::number::push_decimal;
use acpi_base::error::Error;
use acpi_read::report::push_shown;
use std::alloc::{AllocError, AllocFailed, Global};

/// What is wrong.
#[derive(Debug, Drop)]
pub enum Why {
    /// There is no DefinitionBlock, or something follows it.
    Block,
    /// A DefinitionBlock names a file.
    FileName,
    /// The signature isn't that of a definition block.
    Signature,
    /// A parenthesis, a brace, a comma or a word isn't expected.
    Unexpected,
    /// An operator is a symbol (ACPI 6.5, 19.2.6), not a word.
    Symbol,
    /// A parenthesis, a brace or a string has no end.
    Unfinished,
    /// A comment has no end. It begins here if it is a note, and otherwise after this word.
    Comment,
    /// The lists are nested too deep.
    TooDeep,
    /// A term has other arguments, or lacks some.
    Arguments,
    /// A call or a macro has another number of arguments than the method or the descriptor takes: this number, and its own.
    Takes(usize, usize),
    /// A package has more elements than it says.
    Elements,
    /// A number has another form than `0x` and two, four, eight or sixteen hexadecimal digits.
    Number,
    /// A number of one byte has another form than `0x` and two hexadecimal digits.
    OneByte,
    /// A number of two bytes has another form than `0x` and four digits.
    TwoBytes,
    /// A number of four bytes has another form than `0x` and eight digits.
    FourBytes,
    /// A number of eight bytes has another form than `0x` and sixteen digits.
    EightBytes,
    /// A count has another form than decimal digits, or is too large.
    Count,
    /// A string has another form, or more characters than its place.
    Text,
    /// A string has a backslash that isn't followed by a backslash, by a quotation mark, or by `x` and two hexadecimal digits.
    Escape,
    /// A UUID has another form.
    Uuid,
    /// An EISA id has another form.
    EisaId,
    /// A word is neither a keyword that is read nor a name.
    Word,
    /// A keyword isn't one of those of its argument.
    Keyword,
    /// An entry of a field has another form.
    Entry,
    /// A resource descriptor has no macro of this name.
    Descriptor,
    /// A resource descriptor has a name.
    DescriptorName,
    /// A StartDependentFn has no EndDependentFn, or an EndDependentFn ends none.
    Group,
    /// A resource descriptor can't have one of these values, or this list.
    Values,
    /// A resource source has no index.
    Index,
    /// The data of a vendor isn't a RawDataBuffer.
    VendorData,
    /// A note isn't known, or not here.
    Note,
    /// A note has bytes that can't be read as terms.
    Unread,
    /// Terms that can't be read again, as where a call lacks arguments.
    Unreadable,
    /// A list, a number or a table is too long, also for the length that a note states.
    TooLong,
    /// The block has no object of this name, and the text has no External statement for it.
    Undeclared(Vec<u8>),
    /// The ASL of the block has this word here.
    Otherwise(Vec<u8>),
    /// A Break or a Continue is in no While. This and the following are doubts: the text is the ASL of a block, but compilers
    /// refuse it.
    Loop,
    /// The scope has an object of this name.
    Twice,
    /// The sync level of a mutex is greater than 15.
    Level,
    /// The method hasn't this argument.
    NoArgument,
    /// The object around one that is made isn't there.
    Parent,
    /// A number, a string or a value stands in place of a name, a local object or another reference.
    Reference,
    /// An operand or a predicate has no value.
    Value,
    /// An element of a package is neither data nor a name.
    Element,
    /// A buffer has more bytes than its size. Compilers don't refuse it, but make a larger buffer.
    Bytes,
    /// A statement is a name, whose call has no parentheses.
    Call,
    /// An Else follows no If.
    Else,
}

/// What is wrong with a text, and how many characters are kept of the text before it.
#[derive(Debug, Drop)]
pub struct AslFault {
    pub at: usize,
    pub why: Why,
}

/// Why a text isn't made into a block.
#[derive(Debug, Drop)]
pub enum AslError {
    /// Memory ran out.
    Memory,
    /// The text has this fault.
    Fault(AslFault),
}

impl From<AllocError> for AslError {
    ghost from_gives = { λ _ e. e ≡ Memory };

    fn from(_e: AllocError) -> AslError {
        AslError::Memory
    }
}

impl<T: Drop> From<AllocFailed<T>> for AslError {
    ghost from_gives = { λ _ e. e ≡ Memory };

    fn from(_e: AllocFailed<T>) -> AslError {
        AslError::Memory
    }
}

/// A fault at a place.
pub fn fault(at: usize, why: Why) -> AslError {
    AslError::Fault(AslFault { at, why })
}

/// The error of writing terms, at a place.
pub fn unwritten(at: usize, error: Error) -> AslError {
    match error {
        Error::Memory => AslError::Memory,
        _ => fault(at, Why::TooLong),
    }
}

impl Why {
    // Adds what is wrong, as text.
    fn push_words(&self, text: &mut String) -> Result<(), AllocError>
        ensures { OnOk result (string_bytes text.new ≡ string_bytes text.old ++ words self.now) }
    {
        match self {
            Why::Block => text.push_str("a DefinitionBlock is expected, and nothing after it"),
            Why::FileName => text.push_str("the name of a file isn't read here: \"\" is expected"),
            Why::Signature => text.push_str("the signature DSDT, SSDT, PSDT or OSDT is expected"),
            Why::Unexpected => text.push_str("not expected here"),
            Why::Symbol => text.push_str("operators are words here, such as Add and Store"),
            Why::Unfinished => text.push_str("a parenthesis, a brace or a string has no end"),
            Why::Comment => text.push_str("a comment has no end"),
            Why::TooDeep => text.push_str("nested too deep"),
            Why::Arguments => {
                text.push_str("other arguments are expected, of which none may be left out")
            }
            Why::Takes(takes, found) => push_takes(*takes, *found, text),
            Why::Elements => text.push_str("more elements than the package says"),
            Why::Number => text.push_str("a number is expected: 0x and 2, 4, 8 or 16 digits"),
            Why::OneByte => text.push_str("a number of one byte is expected: 0x and 2 digits"),
            Why::TwoBytes => text.push_str("a number of two bytes is expected: 0x and 4 digits"),
            Why::FourBytes => text.push_str("a number of four bytes is expected: 0x and 8 digits"),
            Why::EightBytes => {
                text.push_str("a number of eight bytes is expected: 0x and 16 digits")
            }
            Why::Count => text.push_str("a decimal number is expected that isn't too large here"),
            Why::Text => text.push_str(
                "a string of ASCII characters is expected, and no longer than fits here",
            ),
            Why::Escape => text.push_str(
                "a backslash is followed by a backslash, a quotation mark, or x and two digits",
            ),
            Why::Uuid => text.push_str("a UUID is expected: 8-4-4-4-12 hexadecimal digits"),
            Why::EisaId => text.push_str("an EISA id is expected: 3 letters and 4 digits"),
            Why::Word => text.push_str(
                "neither a keyword that is read here nor a name (parts of up to 4 capitals, digits or _)",
            ),
            Why::Keyword => text.push_str("another keyword is expected"),
            Why::Entry => text.push_str("not an entry of a field"),
            Why::Descriptor => text.push_str("not a macro of a resource descriptor"),
            Why::DescriptorName => text.push_str("the name of a descriptor isn't read here"),
            Why::Group => text.push_str(
                "a StartDependentFn has no EndDependentFn, or an EndDependentFn ends none",
            ),
            Why::Values => {
                text.push_str("the descriptor can't have one of these values, or this list")
            }
            Why::Index => text.push_str("a resource source needs an index"),
            Why::VendorData => text.push_str("a RawDataBuffer is expected"),
            Why::Note => text.push_str("the note isn't known here"),
            Why::Unread => text.push_str(
                "these bytes can't be read as terms, so they make no block",
            ),
            Why::Unreadable => {
                text.push_str("what follows can't be read back as terms: a call may lack arguments")
            }
            Why::TooLong => text.push_str("a length or a number is too large"),
            Why::Undeclared(name) => push_undeclared(name, text),
            Why::Otherwise(word) => push_otherwise(word, text),
            Why::Loop => text.push_str("no While is around it"),
            Why::Twice => text.push_str("its scope already has an object of this name"),
            Why::Level => text.push_str("the sync level of a mutex is at most 0x0F"),
            Why::NoArgument => text.push_str("the method has no such argument"),
            Why::Reference => {
                text.push_str("a name, a local object or another reference is expected")
            }
            Why::Parent => text.push_str("no statement makes or declares the object around it"),
            Why::Value => text.push_str("it has no value"),
            Why::Element => text.push_str("a package has constants, names, buffers and packages"),
            Why::Bytes => text.push_str("it has more bytes than its size"),
            Why::Call => text.push_str("a call has parentheses"),
            Why::Else => text.push_str("no If is before it"),
        }
    }
}

fn push_argument_word(takes: usize, text: &mut String) -> Result<(), AllocError>
    ensures { OnOk result (string_bytes text.new ≡ string_bytes text.old ++ argument_word takes) }
{
    if takes == 1 {
        text.push_str(" argument, found ")
    } else {
        text.push_str(" arguments, found ")
    }
}

// Adds how many arguments a method takes, and how many a call of it has.
#[tactic(auto, using(acpi_read::proofs::Texts::after_four))]
fn push_takes(takes: usize, found: usize, text: &mut String) -> Result<(), AllocError>
    ensures { OnOk result (string_bytes text.new ≡ string_bytes text.old ++ takes_text takes found) }
{
    text.push_str("takes ")?;
    push_decimal(takes as u64, text)?;
    push_argument_word(takes, text)?;
    push_decimal(found as u64, text)
}

// Adds the name of which there is no object.
fn push_undeclared(name: &[u8], text: &mut String) -> Result<(), AllocError>
    ensures { OnOk result (string_bytes text.new ≡ string_bytes text.old ++ undeclared name.now) }
{
    text.push_str("no External statement for ")?;
    push_shown(name, text)?;
    Ok(())
}

// Adds the word that the ASL of a block has, or that it ends.
fn push_otherwise(word: &[u8], text: &mut String) -> Result<(), AllocError>
    ensures { OnOk result (string_bytes text.new ≡ string_bytes text.old ++ otherwise word.now) }
{
    if word.is_empty() {
        return text.push_str("the ASL of the block ends here");
    }
    text.push_str("the ASL of the block has ")?;
    push_shown(word, text)
}

#[tactic(auto, using(acpi_read::proofs::Texts::after_three))]
fn push_at(word: &[u8], text: &mut String) -> Result<(), AllocError>
    ensures { OnOk result (string_bytes text.new ≡ string_bytes text.old
        ++ (codes "at " ++ map printable word.now ++ codes ": ")) }
{
    text.push_str("at ")?;
    push_shown(word, text)?;
    text.push_str(": ")
}

// Adds the word at which something is wrong.
fn push_place(word: &[u8], text: &mut String) -> Result<(), AllocError>
    ensures { OnOk result (string_bytes text.new ≡ string_bytes text.old ++ place_text word.now) }
{
    if word.is_empty() {
        return text.push_str("at the end: ");
    }
    push_at(word, text)
}

impl AslFault {
    /// Returns the number of the line on which a text is wrong, counted from 1.
    pub fn line(&self, text: &[u8]) -> usize
        ensures { result ≡ line_of self.now.at text.now }
    {
        line_of(self.at, text)
    }

    /// Returns what is wrong with a text, and where: the line, the word, and what was expected.
    pub fn explain(&self, alloc: Global, text: &[u8]) -> Result<String, AllocError>
        ensures { IfOk result (λ why. string_bytes why ≡ explained self.now.at self.now.why text.now) }
    {
        let kept = squeezed(alloc, text)?;
        let line = self.line(text);
        let mut why = format!(in alloc; "line {line}, ")?;
        push_place(word_at(self.at, &kept), &mut why)?;
        self.why.push_words(&mut why)?;
        Ok(why)
    }
}
