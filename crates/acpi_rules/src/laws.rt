//! Laws of the definitions that contracts cite.

ghost use Rattle.acpi_rules.specs.Laws.{FieldsAreShown};

/// The fields of a table are those of which its text has a line each, in this order.
pub fn fields_are_shown()
    ensures { FieldsAreShown }
{}
