//! Laws of dumps. Each function is a law: it does nothing, and its `ensures` states the law.

ghost use Rattle.acpi_dump.specs.Laws.{DumpsAreRead};

/// The tables of a text that `acpidump` writes of tables are these tables, each with the line before it.
pub fn dumps_are_read()
    ensures { DumpsAreRead }
{}
