//! Reports of bytes.

ghost use Rattle.std.specs.Prelude.{string_bytes, IfOk, IfErr};
ghost use Rattle.acpi_term.specs.Arity.{arity};
ghost use Rattle.acpiread_program.specs.Report.{IsHeaderReport, IsTableReport, IsAmlReport, IsDsdtReport, IsHeaderFault};
ghost use Rattle.acpiread_program.specs.Report.{IsTableFault, IsAmlFault, IsDsdtFault};

use crate::fault::Fault;
use acpi_input::file::MOST_BYTES;
use acpi_read::report::{report_header, report_table, report_terms};
use acpi_read::table::Table;
use acpi_read::terms::terms;
use acpi_term::name_string::Arities;
use acpi_term::read_error::ReadError;
use std::alloc::Global;

/// The offset of the terms of a table: they follow its header.
const BODY: usize = 36;

// The first line of the report of a table.
fn header_report(alloc: Global, bytes: &[u8]) -> Result<String, Fault>
    ensures ok { IfOk result (λ text. IsHeaderReport bytes.now (string_bytes text)) }
    ensures err { IfErr result (IsHeaderFault bytes.now) }
{
    let table = Table::check(bytes)?;
    Ok(report_header(alloc, &table)?)
}

/// The report of a table.
pub fn table_report(alloc: Global, bytes: &[u8]) -> Result<String, Fault>
    ensures ok { IfOk result (λ text. IsTableReport bytes.now (string_bytes text)) }
    ensures err { IfErr result (IsTableFault bytes.now) }
{
    let table = Table::check(bytes)?;
    Ok(report_table(alloc, &table)?)
}

/// The report of the terms that the bytes spell, if names take these numbers of arguments. If there are more bytes than a table
/// can have, the fault is `TableLength` at the offset of the first that is too many.
pub fn aml_report(alloc: Global, bytes: &[u8], arities: &Arities) -> Result<String, Fault>
    ensures ok { IfOk result (λ text. IsAmlReport (arity arities.now) bytes.now (string_bytes text)) }
    ensures err { IfErr result (IsAmlFault (arity arities.now) bytes.now) }
{
    if bytes.len() > MOST_BYTES {
        return Err(Fault::from(ReadError::TableLength(MOST_BYTES)));
    }
    let terms = terms(bytes, arities)?;
    Ok(report_terms(alloc, &terms)?)
}

/// The first line of the report of a table, followed by the report of the terms after its header.
pub fn dsdt_report(alloc: Global, bytes: &[u8], arities: &Arities) -> Result<String, Fault>
    ensures ok { IfOk result (λ text. IsDsdtReport (arity arities.now) bytes.now (string_bytes text)) }
    ensures err { IfErr result (IsDsdtFault (arity arities.now) bytes.now) }
{
    let mut text = header_report(alloc, bytes)?;
    let body = match terms(&bytes[BODY..], arities) {
        Ok(body) => body,
        Err(error) => return Err(Fault::after(BODY, error)),
    };
    let lines = report_terms(alloc, &body)?;
    text.push_str(lines.as_str())?;
    Ok(text)
}
