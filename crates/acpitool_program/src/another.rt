//! Files that have tables as texts, and are none themselves.

ghost use Rattle.std.specs.Prelude.{◌≡◌, Some};
ghost use Rattle.acpitool_program.specs.Another.{is_text_byte, are_text_bytes, is_text, another_of, another_words};

use acpi_dump::dump::is_dump;
use acpi_text::space::prints;
use std::fmt;

/// What bytes are that are no table. Its text is for a line after the name of the file.
#[derive(Clone, Copy)]
pub enum Another {
    /// A dump of tables as text (of acpidump).
    Dump,
    /// Another text.
    Text,
}

impl Another {
    /// Returns what the bytes are, in words.
    pub fn words(self) -> &'static str
        ensures { result.now ≡ another_words self }
    {
        match self {
            Another::Dump => "a dump of tables, which unpack writes one by one",
            Another::Text => "a text, not a table",
        }
    }
}

impl fmt::Display for Another {
    ghost output = { λ another. Some (another_words another) };

    fn fmt<W: fmt::Write>(&self, f: &mut fmt::Formatter<W>) -> fmt::Result {
        let words = self.words();
        write!(f, "{words}")
    }
}

// Returns whether a byte is a character that prints, a tab or an end of a line.
fn is_text_byte(byte: u8) -> bool
    ensures { result ≡ is_text_byte byte }
{
    prints(byte) || byte == b'\t' || byte == b'\n' || byte == b'\r'
}

// Returns whether all bytes are characters that print, tabs or ends of lines.
fn are_text_bytes(bytes: &[u8]) -> bool
    ensures { result ≡ are_text_bytes bytes.now }
{
    'bytes: for byte in bytes {
        if !is_text_byte(*byte) {
            return false;
        }
    }
    true
}

// Returns whether there are as many bytes as a table has at least, and all are of a text.
fn is_text(bytes: &[u8]) -> bool
    ensures { result ≡ is_text bytes.now }
{
    bytes.len() >= 36 && are_text_bytes(bytes)
}

/// Returns what bytes are if they are a dump of tables or another text.
pub fn another_of(bytes: &[u8]) -> Option<Another>
    ensures { result ≡ another_of bytes.now }
{
    if is_dump(bytes) {
        Some(Another::Dump)
    } else if is_text(bytes) {
        Some(Another::Text)
    } else {
        None
    }
}
