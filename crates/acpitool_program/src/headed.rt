//! Tables with the standard header.

ghost use Rattle.std.specs.Prelude.{◌≡◌, IfOk, IfErr};
ghost use Rattle.std.specs.Option.{option_map};
ghost use Rattle.acpitool_program.specs.Headed.{headless, IsHeaded, IsHeadlessFault, IsNoTable};

use crate::another::another_of;
use crate::fault::Fault;
use acpi_forms::kind::kind_of;
use acpi_make::file_kind::FileKind;
use acpi_read::table::Table;

// Returns that bytes of a kind have no standard header, in words, unless they are a table with one.
fn headless(kind: FileKind) -> Option<&'static str>
    ensures { option_map (λ words. words.now) result ≡ headless kind }
{
    match kind {
        FileKind::Table => None,
        FileKind::Rsdp => Some("an RSDP has no standard header"),
        FileKind::Facs => Some("a FACS has no standard header"),
        FileKind::Cdat => Some("a CDAT has no standard header"),
        FileKind::S3pt => Some("an S3PT has no standard header"),
    }
}

// Returns the fault of bytes that have no standard header by their signature: they are a dump or a text, or these words say why.
fn headless_fault(words: &'static str, bytes: &[u8]) -> Fault
    ensures { IsHeadlessFault words.now bytes.now result }
{
    match another_of(bytes) {
        Some(another) => Fault {
            place: None,
            words: another.words(),
        },
        None => Fault {
            place: Some(0),
            words,
        },
    }
}

/// Returns the table with the standard header that bytes are. An error says what is wrong with the bytes, and where.
pub fn headed(bytes: &[u8]) -> Result<Table<'_>, Fault>
    ensures ok { IfOk result (λ _. IsHeaded bytes.now) }
    ensures value { IfOk result (λ table. table ≡ bytes.now) }
    ensures err { IfErr result (IsNoTable bytes.now) }
{
    if let Some(words) = headless(kind_of(bytes)) {
        return Err(headless_fault(words, bytes));
    }
    match Table::check(bytes) {
        Ok(table) => Ok(table),
        Err(error) => Err(Fault::in_file(FileKind::Table, error, bytes)),
    }
}
