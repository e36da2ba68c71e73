//! Laws of texts, which cost nothing when they run.

ghost use Rattle.acpi_make.specs.Laws.{TablesAreRead, TablesAreMade, TablesAreTrue, TablesAreWalked};
ghost use Rattle.acpi_make.specs.Lines.{TextsAreShown};

/// A law: the text of a table has the table's bytes, for every form.
pub fn tables_are_read()
    ensures { TablesAreRead }
{}

/// A law: the text of a table is made into the table, for every form.
pub fn tables_are_made()
    ensures { TablesAreMade }
{}

/// A law: a table that is made without a note is correct.
pub fn tables_are_true()
    ensures { TablesAreTrue }
{}

/// A law: a table that is made without a note is walked by the structures that its text lists.
pub fn tables_are_walked()
    ensures { TablesAreWalked }
{}

/// A law: the lines of a text that is made into a table are those of the text that shows the table. Each line with a name stands
/// there at the same offset, and each line there stands in the text, or where the text has bytes without a name.
pub fn texts_are_shown()
    ensures { TextsAreShown }
{}
