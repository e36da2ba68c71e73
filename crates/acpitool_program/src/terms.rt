//! The terms of a definition block, in comments after its text.

ghost use Rattle.std.specs.Prelude.{◌≡◌, ◌≢◌, ◌+◌, ◌<◌, ◌≤◌, ◌^◌, ◌⊎◌, [], length, drop, IfOk, IfErr, IfSome, Some, string_bytes};
ghost use Rattle.acpi_term.specs.ReadError.{offset_of};
ghost use Rattle.acpi_term.specs.declared.read_error.ReadError.TheVariants.{Memory};
ghost use Rattle.acpitool_program.specs.Terms.{report_lines, unread_line, error_line, IsReport, HasReport};
ghost use Rattle.acpitool_program.specs.Terms.{HasError, IsAfter};
ghost use Rattle.acpi_terms_text.specs.Block.{AreNoTerms};

use crate::fault::Fault;
use acpi_asl::block::{BODY, has_terms};
use acpi_read::report::push_number;
use acpi_term::name_string::Arities;
use acpi_term::read_error::ReadError;
use acpi_terms_text::annotate::annotated;
use acpi_terms_text::objects::own_arities;
use acpi_text::comment::push_comment;
use std::alloc::{AllocError, Global};

// Returns the report of terms with comments.
fn report(alloc: Global, stated: &Arities, terms: &[u8]) -> Result<String, ReadError>
    ensures ok { IfOk result (λ text. IsReport stated.now terms.now (string_bytes text)) }
    ensures err { IfErr result (AreNoTerms stated.now [] terms.now) }
    ensures place { IfErr result (λ e. IfSome (offset_of e) (λ offset. offset ≤ length terms.now)) }
{
    let own = own_arities(alloc, terms, stated, &[])?;
    annotated(alloc, terms, &own)
}

// Returns the lines of a report.
fn report_lines(alloc: Global, report: &str) -> Result<String, AllocError>
    ensures { IfOk result (λ lines. string_bytes lines ≡ report_lines report.now) }
{
    let mut lines = String::new(alloc);
    push_comment(
        "Calls take the stated numbers of arguments, or else those that this table states.",
        &mut lines,
    )?;
    push_comment(report, &mut lines)?;
    Ok(lines)
}

// Returns why terms can't be read, with an offset.
fn unread_at(alloc: Global, offset: usize, words: &str) -> Result<String, AllocError>
    ensures { IfOk result (λ line. string_bytes line ≡ unread_line (Some offset) words.now) }
{
    let mut line = String::from_str(alloc, "terms can't be read")?;
    push_number(" at ", offset as u64, &mut line)?;
    line.push_str(": ")?;
    line.push_str(words)?;
    Ok(line)
}

// Returns why terms can't be read.
fn unread_line(alloc: Global, place: Option<usize>, words: &str) -> Result<String, AllocError>
    ensures { IfOk result (λ line. string_bytes line ≡ unread_line place words.now) }
{
    match place {
        Some(offset) => unread_at(alloc, offset, words),
        None => format!(in alloc; "terms can't be read: {words}"),
    }
}

/// Returns the line of an error.
pub fn error_line(alloc: Global, fault: &Fault) -> Result<String, AllocError>
    ensures { IfOk result (λ line. string_bytes line ≡ error_line fault.now) }
{
    let text = unread_line(alloc, fault.place, fault.words)?;
    let mut line = String::new(alloc);
    push_comment(text.as_str(), &mut line)?;
    Ok(line)
}

// Returns what follows the text of a definition block.
fn block_lines(alloc: Global, stated: &Arities, bytes: &[u8]) -> Result<String, AllocError>
    requires { 36 ≤ length bytes.now }
    ensures { IfOk result (λ after. HasReport stated.now bytes.now (string_bytes after)
        ⊎ HasError stated.now bytes.now (string_bytes after)) }
{
    match report(alloc, stated, &bytes[BODY..]) {
        Ok(text) => report_lines(alloc, text.as_str()),
        Err(ReadError::Memory) => Err(AllocError),
        Err(error) => error_line(alloc, &Fault::after(BODY, error)),
    }
}

/// Returns what follows the text of a table: the report of a definition block's terms in comments, or why they can't be read.
/// Calls take the stated numbers of arguments, or else those of the block's methods and external methods. The error is that
/// memory ran out.
pub fn lines_after(alloc: Global, stated: &Arities, bytes: &[u8]) -> Result<String, AllocError>
    ensures { IfOk result (λ after. IsAfter stated.now bytes.now (string_bytes after)) }
{
    if has_terms(bytes) {
        block_lines(alloc, stated, bytes)
    } else {
        Ok(String::new(alloc))
    }
}
