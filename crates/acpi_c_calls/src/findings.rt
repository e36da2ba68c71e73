//! The rules of the standard that tables break.

ghost use Rattle.std.specs.Prelude.{◌≡◌, ◌++◌, map, IfOk, IfErr, OnOk, string_bytes};
ghost use Rattle.acpi_forms.specs.File.{file_names};
ghost use Rattle.acpi_forms.specs.Named.{IsNamed};
ghost use Rattle.acpi_rules.specs.Finding.{noted};
ghost use Rattle.acpi_c_calls.specs.Findings.{finding_line, finding_lines, AreLinesOf, AreFindings};
ghost use Rattle.acpi_c_calls.specs.Refused.{by_memory};
ghost use Rattle.acpi_c_calls.specs.Results.{seen, IsOutcome, Gives};
ghost use Rattle.acpi_c_calls.specs.Show.{IsTextRefusal};

use crate::give::give;
use crate::refused::Refused;
use crate::show::check_showable;
use acpi_forms::file::{file_form, file_walk};
use acpi_forms::kind::title_of;
use acpi_read::report::push_shown;
use acpi_rules::finding::Finding;
use acpi_rules::line::push_finding;
use acpi_rules::standard::table_findings;
use acpi_text::form::TableForm;
use std::alloc::{AllocError, Global};

// Adds the line of a finding.
fn push_line(signature: &[u8], finding: &Finding<'_>, text: &mut String) -> Result<(), AllocError>
    ensures { OnOk result (string_bytes text.new
        ≡ string_bytes text.old ++ finding_line signature.now (noted finding.now)) }
{
    push_shown(signature, text)?;
    text.push_str(": ")?;
    push_finding(signature, finding, text)?;
    text.push_str("\n")
}

// Returns the lines of findings of bytes.
fn lines_of(alloc: Global, bytes: &[u8], findings: &[Finding<'_>]) -> Result<String, AllocError>
    ensures { IfOk result (λ text. string_bytes text ≡ finding_lines bytes.now (map noted findings.now)) }
{
    let signature = title_of(bytes);
    let mut text = String::new(alloc);
    'findings: for finding in findings {
        push_line(signature, finding, &mut text)?;
    }
    Ok(text)
}

// Returns the lines of the rules that bytes break, by their form.
fn lines_by(alloc: Global, form: &TableForm, bytes: &[u8]) -> Result<Vec<u8>, Refused>
    ensures ok { IsNamed form.now (file_names bytes.now) → IfOk result (λ text. AreLinesOf bytes.now text.items) }
    ensures err { IfErr result (λ refused. refused ≡ by_memory) }
{
    let findings = table_findings(alloc, form, file_walk(bytes), bytes)?;
    let text = lines_of(alloc, bytes, &findings)?;
    Ok(text.into_bytes())
}

// Returns the lines of the rules that bytes break.
fn found(alloc: Global, bytes: &[u8]) -> Result<Vec<u8>, Refused>
    ensures { IsOutcome (AreFindings bytes.now) (IsTextRefusal bytes.now) (seen (λ text. text.items) result) }
{
    check_showable(bytes)?;
    lines_by(alloc, &file_form(bytes), bytes)
}

/// Writes the rules of the standard that a table breaks to `out`: a line for each, as `acpitool check` prints them after the name
/// of a file, and nothing if it breaks none. `size` is the number of their bytes. A table has to be right. An RSDP (ACPI 6.5,
/// 5.2.5.3), a FACS (5.2.10) and an S3PT (5.2.24), by their signatures, and a CDAT are read with any bytes that they have.
/// Returns 0, or the number of a fault, whose offset is `place`. If `out` has space for fewer bytes, the fault is `Buffer`, and
/// nothing is written to `out`. With any other fault `size` is 0.
pub fn findings(
    alloc: Global,
    bytes: &[u8],
    out: &mut [u8],
    size: &mut usize,
    place: &mut u64,
) -> u32
    ensures { Gives (AreFindings bytes.now) (IsTextRefusal bytes.now) out.old out.new result place.new size.new }
{
    give(found(alloc, bytes), out, size, place)
}
