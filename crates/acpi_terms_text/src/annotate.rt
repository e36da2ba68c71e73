//! The report of terms with comments.

ghost use Rattle.std.specs.Prelude.{◌≡◌, ℕ, List, ◌++◌, ◌∷◌, [], map, IfOk, IfErr, OnOk, string_bytes};
ghost use Rattle.acpi_term.specs.Arity.{grammar_by};
ghost use Rattle.acpi_term.specs.declared.language.Language.TheVariants.{Standard};
ghost use Rattle.acpi_read.specs.Terms.{IsUnreadIn};
ghost use Rattle.acpi_terms_text.specs.Comment.{comment, IsAnnotated};
ghost use Rattle.acpi_terms_text.specs.Woven.{woven};

use crate::note::add_notes;
use acpi_read::report::report_terms;
use acpi_read::terms::standard_terms;
use acpi_term::name_string::Arities;
use acpi_term::read_error::ReadError;
use std::alloc::{AllocError, Global};

// Adds a line, its comment if there is one, and the end of the line.
fn push_line(line: &str, note: &str, text: &mut String) -> Result<(), AllocError>
    ensures { OnOk result (string_bytes text.new ≡ string_bytes text.old ++ (line.now ++ (comment note.now ++ 10 ∷ []))) }
{
    text.push_str(line)?;
    if !note.is_empty() {
        text.push_str("  // ")?;
        text.push_str(note)?;
    }
    text.push_str("\n")
}

// Adds the first line of a text with its comment, and returns the text after it. A text that ends in its first line is returned
// whole.
fn push_first<'a>(lines: &'a str, note: &str, text: &mut String) -> Result<&'a str, AllocError>
    ensures { IfOk result (λ rest. (notes : List (List ℕ)) → string_bytes text.new ++ woven rest.now notes
        ≡ string_bytes text.old ++ woven lines.now (note.now ∷ notes)) }
{
    let Some((line, rest)) = lines.split_once('\n') else {
        return Ok(lines);
    };
    push_line(line, note, text)?;
    Ok(rest)
}

// Adds the lines of a text, each with its comment before its end.
fn push_woven(lines: &str, notes: &[String], text: &mut String) -> Result<(), AllocError>
    ensures { OnOk result (string_bytes text.new ≡ string_bytes text.old ++ woven lines.now (map string_bytes notes.now)) }
{
    let mut rest = lines;
    'lines: for note in notes {
        rest = push_first(rest, note.as_str(), text)?;
    }
    text.push_str(rest)?;
    Ok(())
}

/// The report of the terms that the bytes spell in the language of the standard, if names take these numbers of arguments. Each
/// line is that of `acpi_read::report::report_terms`. A comment follows after two spaces and `// `, in the lines of:
///
/// - a number in four bytes that is an EISA id, as the value of `_HID` or `_CID`, or as an element of a package there;
/// - a buffer that is a resource template: the names of its descriptors;
/// - another buffer of 16 bytes: the text of the UUID.
///
/// The errors are those of `acpi_read::terms::standard_terms`.
pub fn annotated(alloc: Global, bytes: &[u8], arities: &Arities) -> Result<String, ReadError>
    ensures ok { IfOk result (λ text. IsAnnotated arities.now bytes.now (string_bytes text)) }
    ensures err { IfErr result (IsUnreadIn (grammar_by Standard arities.now) bytes.now) }
{
    let terms = standard_terms(bytes, arities)?;
    let lines = report_terms(alloc, &terms)?;
    let mut notes = Vec::new(alloc);
    add_notes(alloc, false, &terms, &mut notes)?;
    let mut text = String::new(alloc);
    push_woven(lines.as_str(), &notes, &mut text)?;
    Ok(text)
}
