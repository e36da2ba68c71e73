//! Laws of texts. Each function is a law: it does nothing, and its `ensures` states the law.

ghost use Rattle.acpi_terms_text.specs.Laws.{LinesAreKept, EisaTextsAreRead, UuidTextsAreRead};

/// Each line of a text with comments is a line of the report, or such a line with a comment after it.
pub fn lines_are_kept()
    ensures { LinesAreKept }
{}

/// Where a number is shown as an EISA id, `EISAName::new` of `acpi_aml` reads this text as the number.
pub fn eisa_texts_are_read()
    ensures { EisaTextsAreRead }
{}

/// `Uuid::new` of `acpi_aml` reads the text of a UUID as its bytes.
pub fn uuid_texts_are_read()
    ensures { UuidTextsAreRead }
{}
