//! The rules that the bytes of a file break.

ghost use Rattle.std.specs.Prelude.{◌≡◌, ◌++◌, map, IfOk, IfErr, OnOk, string_bytes};
ghost use Rattle.acpi_forms.specs.File.{file_names};
ghost use Rattle.acpi_forms.specs.Named.{IsNamed};
ghost use Rattle.acpi_rules.specs.Finding.{noted};
ghost use Rattle.acpitool_program.specs.Checked.{AreByForm, AreFindings, finding_line, finding_lines, finding_status};
ghost use Rattle.acpitool_program.specs.Checked.{object_line, finding_objects, printed_findings};
ghost use Rattle.acpitool_program.specs.Text.{IsTextFault};

use crate::fault::Fault;
use crate::text::check_kind;
use acpi_forms::file::{file_form, file_walk};
use acpi_forms::kind::title_of;
use acpi_json::finding::push_finding as push_finding_object;
use acpi_read::report::push_shown;
use acpi_rules::finding::Finding;
use acpi_rules::line::push_finding;
use acpi_rules::standard::table_findings;
use acpi_text::form::TableForm;
use std::alloc::{AllocError, Global};

// Returns the rules that bytes break, by their form.
fn by_form<'a>(
    alloc: Global,
    form: &TableForm,
    bytes: &'a [u8],
) -> Result<Vec<Finding<'a>>, AllocError>
    ensures { IsNamed form.now (file_names bytes.now) → IfOk result (λ found. AreByForm bytes.now (map noted found.items)) }
{
    let found = table_findings(alloc, form, file_walk(bytes), bytes)?;
    Ok(found)
}

/// Returns the rules that a table, a pointer or a control structure breaks. An error says what is wrong with the bytes, and
/// where.
pub fn findings_of<'a>(alloc: Global, bytes: &'a [u8]) -> Result<Vec<Finding<'a>>, Fault>
    ensures ok { IfOk result (λ found. AreFindings bytes.now (map noted found.items)) }
    ensures err { IfErr result (IsTextFault bytes.now) }
{
    check_kind(bytes)?;
    Ok(by_form(alloc, &file_form(bytes), bytes)?)
}

// Adds the line of a finding.
fn push_line(
    name: &str,
    signature: &[u8],
    finding: &Finding<'_>,
    text: &mut String,
) -> Result<(), AllocError>
    ensures { OnOk result (string_bytes text.new
        ≡ string_bytes text.old ++ finding_line name.now signature.now (noted finding.now)) }
{
    text.push_str(name)?;
    text.push_str(": ")?;
    push_shown(signature, text)?;
    text.push_str(": ")?;
    push_finding(signature, finding, text)?;
    text.push_str("\n")
}

// Returns the lines of the findings of bytes in a file of this name.
fn lines_of(
    alloc: Global,
    name: &str,
    bytes: &[u8],
    findings: &[Finding<'_>],
) -> Result<String, AllocError>
    ensures { IfOk result (λ text. string_bytes text ≡ finding_lines name.now bytes.now (map noted findings.now)) }
{
    let signature = title_of(bytes);
    let mut text = String::new(alloc);
    'findings: for finding in findings {
        push_line(name, signature, finding, &mut text)?;
    }
    Ok(text)
}

// Adds the object of a finding, and the end of its line.
#[tactic(auto, unfolding(crate::specs::Checked::object_line))]
fn push_object(
    name: &str,
    signature: &[u8],
    finding: &Finding<'_>,
    text: &mut Vec<u8>,
) -> Result<(), AllocError>
    ensures { OnOk result (text.new.items ≡ text.old.items ++ object_line name.now signature.now (noted finding.now)) }
{
    push_finding_object(name, signature, finding, text)?;
    text.push(b'\n')?;
    Ok(())
}

// Returns the objects of the findings of bytes in a file of this name, each in a line.
fn objects_of(
    alloc: Global,
    name: &str,
    bytes: &[u8],
    findings: &[Finding<'_>],
) -> Result<Vec<u8>, AllocError>
    ensures { IfOk result (λ text. text.items ≡ finding_objects name.now bytes.now (map noted findings.now)) }
{
    let signature = title_of(bytes);
    let mut text = Vec::new(alloc);
    'findings: for finding in findings {
        push_object(name, signature, finding, &mut text)?;
    }
    Ok(text)
}

/// Returns what is printed of the findings of bytes in a file of this name: objects of JSON, or lines.
pub fn printed_of(
    alloc: Global,
    json: bool,
    name: &str,
    bytes: &[u8],
    findings: &[Finding<'_>],
) -> Result<Vec<u8>, AllocError>
    ensures { IfOk result (λ text. text.items ≡ printed_findings json name.now bytes.now (map noted findings.now)) }
{
    if json {
        return objects_of(alloc, name, bytes, findings);
    }
    let lines = lines_of(alloc, name, bytes, findings)?;
    Ok(lines.into_bytes())
}

/// Returns 0 if there are no findings, and 1 otherwise.
pub fn status_of(findings: &[Finding<'_>]) -> u8
    ensures { result ≡ finding_status (map noted findings.now) }
{
    if findings.is_empty() { 0 } else { 1 }
}
