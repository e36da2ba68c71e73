//! Laws of JSON, which cost nothing when they run.

ghost use Rattle.acpi_json.specs.Laws.{StringsAreStrings};

/// A law: what is written as a string has no control character, no quotation mark and no backslash but those of escapes, and
/// those at its ends.
pub fn strings_are_strings()
    ensures { StringsAreStrings }
{}
