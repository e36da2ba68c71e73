//! What is wrong with bytes that are read, in words.

ghost use Rattle.std.specs.Prelude.{◌≡◌};
ghost use Rattle.acpi_forms.specs.Words.{words, rsdp_words, facs_words, cdat_words, s3pt_words, words_by};

use acpi_make::file_kind::FileKind;
use acpi_term::read_error::ReadError;

/// Returns what is wrong with a table, its structures or its terms, in words. The offset isn't a part of them.
pub fn words(error: ReadError) -> &'static str
    ensures { result.now ≡ words error }
{
    match error {
        ReadError::Memory => "out of memory",
        ReadError::Truncated(_) => "the bytes end within a term",
        ReadError::Opcode(_) => "no term begins so",
        ReadError::NameText => "a name is 1 to 255 standard segments, after a backslash or none",
        ReadError::Length(_) => "a PkgLength doesn't fit what surrounds it",
        ReadError::Number(_) => "a number isn't in its shortest form",
        ReadError::Count(_) => "a count isn't the number of what it counts",
        ReadError::Flags(_) => "flags have no meaning",
        ReadError::Text(_) => "a string has a byte past 7F",
        ReadError::TooDeep(_) => "terms nest too deep",
        ReadError::Arity => "a name is given arguments twice, or more than 7",
        ReadError::ShortHeader(_) => "a table has at least the 36 bytes of the standard header",
        ReadError::TableLength(_) => "the length of a table isn't the number of its bytes",
        ReadError::Sum(_) => "the bytes of a table don't sum to zero",
        ReadError::Structure(_) => "a structure isn't as long as it says",
        ReadError::UnknownSource(_) => "the size of an error source isn't known",
    }
}

// Returns what is wrong with a pointer.
fn rsdp_words(error: ReadError) -> &'static str
    ensures { result.now ≡ rsdp_words error }
{
    match error {
        ReadError::ShortHeader(_) => "an RSDP has 20 bytes, or at least 36 from revision 2 on",
        ReadError::TableLength(_) => "the length of an RSDP isn't the number of its bytes",
        ReadError::Sum(_) => "the bytes of an RSDP don't sum to zero",
        error => words(error),
    }
}

// Returns what is wrong with a control structure.
fn facs_words(error: ReadError) -> &'static str
    ensures { result.now ≡ facs_words error }
{
    match error {
        ReadError::ShortHeader(_) => "a FACS has at least 64 bytes",
        ReadError::TableLength(_) => "the length of a FACS isn't the number of its bytes",
        error => words(error),
    }
}

// Returns what is wrong with a table of coherent devices.
fn cdat_words(error: ReadError) -> &'static str
    ensures { result.now ≡ cdat_words error }
{
    match error {
        ReadError::ShortHeader(_) => "a CDAT has at least 16 bytes",
        ReadError::TableLength(_) => "the length of a CDAT isn't the number of its bytes",
        ReadError::Sum(_) => "the bytes of a CDAT don't sum to zero",
        error => words(error),
    }
}

// Returns what is wrong with a table of S3 performance.
fn s3pt_words(error: ReadError) -> &'static str
    ensures { result.now ≡ s3pt_words error }
{
    match error {
        ReadError::ShortHeader(_) => "an S3PT has at least 8 bytes",
        ReadError::TableLength(_) => "the length of an S3PT isn't the number of its bytes",
        error => words(error),
    }
}

/// Returns what is wrong with bytes that are what their signature says, in words: those of `words`, or those of a kind that has
/// no standard header.
pub fn words_by(kind: FileKind, error: ReadError) -> &'static str
    ensures { result.now ≡ words_by kind error }
{
    match kind {
        FileKind::Rsdp => rsdp_words(error),
        FileKind::Facs => facs_words(error),
        FileKind::Cdat => cdat_words(error),
        FileKind::S3pt => s3pt_words(error),
        FileKind::Table => words(error),
    }
}
