//! Which bytes are a table: one with a standard header, a pointer, a control structure, a table of coherent devices or of S3
//! performance.

ghost use Rattle.std.specs.Prelude.{◌↔◌, IsOk};
ghost use Rattle.acpitool_program.specs.Check.{IsPointer, IsControl, IsCoherent, IsPerformance};
ghost use Rattle.acpitool_program.specs.Text.{IsKind};

use acpi_make::file_kind::FileKind;
use acpi_read::bytes::{dword_at, sums_to_zero};
use acpi_read::table::Table;
use acpi_term::read_error::ReadError;

/// Returns Ok if bytes are a Root System Description Pointer (ACPI 6.5, 5.2.5.3). One of revision 0 or 1 may have 20 bytes. Any
/// other has at least 36, and as many as the length at offset 20 says. The first 20 sum to zero, and so do all. The errors:
/// ShortHeader for fewer bytes, Sum at 8 for the first 20, TableLength at 20 for another length, Sum at 32 for all.
pub fn check_pointer(bytes: &[u8]) -> Result<(), ReadError>
    ensures { IsOk result ↔ IsPointer bytes.now }
{
    if bytes.len() < 20 {
        return Err(ReadError::ShortHeader(bytes.len()));
    }
    if !sums_to_zero(&bytes[..20]) {
        return Err(ReadError::Sum(8));
    }
    if bytes[15] < 2 && bytes.len() == 20 {
        return Ok(());
    }
    if bytes.len() < 36 {
        return Err(ReadError::ShortHeader(bytes.len()));
    }
    if dword_at(bytes, 20) as usize != bytes.len() {
        return Err(ReadError::TableLength(20));
    }
    if !sums_to_zero(bytes) {
        return Err(ReadError::Sum(32));
    }
    Ok(())
}

// Returns Ok if bytes are a Firmware ACPI Control Structure (ACPI 6.5, 5.2.10): at least 64 bytes, and as many as the length at
// offset 4 says. The errors: ShortHeader for fewer bytes, TableLength at 4 for another length.
fn check_control(bytes: &[u8]) -> Result<(), ReadError>
    ensures { IsOk result ↔ IsControl bytes.now }
{
    if bytes.len() < 64 {
        return Err(ReadError::ShortHeader(bytes.len()));
    }
    if dword_at(bytes, 4) as usize != bytes.len() {
        return Err(ReadError::TableLength(4));
    }
    Ok(())
}

// Returns Ok if bytes are a Coherent Device Attribute Table (CDAT 1.03): at least 16 bytes, as many as the length at offset 0
// says, which sum to zero. The errors: ShortHeader for fewer bytes, TableLength at 0 for another length, Sum at 5.
fn check_coherent(bytes: &[u8]) -> Result<(), ReadError>
    ensures { IsOk result ↔ IsCoherent bytes.now }
{
    if bytes.len() < 16 {
        return Err(ReadError::ShortHeader(bytes.len()));
    }
    if dword_at(bytes, 0) as usize != bytes.len() {
        return Err(ReadError::TableLength(0));
    }
    if !sums_to_zero(bytes) {
        return Err(ReadError::Sum(5));
    }
    Ok(())
}

// Returns Ok if bytes are an S3 Performance Table (ACPI 6.5, 5.2.24): at least 8 bytes, and as many as the length at offset 4
// says. The errors: ShortHeader for fewer bytes, TableLength at 4 for another length.
fn check_performance(bytes: &[u8]) -> Result<(), ReadError>
    ensures { IsOk result ↔ IsPerformance bytes.now }
{
    if bytes.len() < 8 {
        return Err(ReadError::ShortHeader(bytes.len()));
    }
    if dword_at(bytes, 4) as usize != bytes.len() {
        return Err(ReadError::TableLength(4));
    }
    Ok(())
}

/// Returns Ok if bytes are what a kind says. The errors of a table with a standard header are those of `Table::check`.
pub fn check_as(kind: FileKind, bytes: &[u8]) -> Result<(), ReadError>
    ensures { IsOk result ↔ IsKind kind bytes.now }
{
    match kind {
        FileKind::Rsdp => check_pointer(bytes),
        FileKind::Facs => check_control(bytes),
        FileKind::Cdat => check_coherent(bytes),
        FileKind::S3pt => check_performance(bytes),
        FileKind::Table => {
            Table::check(bytes)?;
            Ok(())
        }
    }
}
