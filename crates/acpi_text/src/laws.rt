//! Laws of texts, which cost nothing when they run.

ghost use Rattle.acpi_text.specs.Laws.{LinesHaveFields, TitlesAreEmpty, CommentsAreEmpty, TextsHaveBytes};
ghost use Rattle.acpi_text.specs.Laws.{TablesHaveBytes, TextsDetermineTables};
ghost use Rattle.acpi_text.specs.Names.{LinesHaveNames, TextsHaveNames, FieldsStand};

/// A law: a field's line has the field's bytes, also if further lines follow.
pub fn lines_have_fields()
    ensures { LinesHaveFields }
{}

/// A law: a title's line has no bytes.
pub fn titles_are_empty()
    ensures { TitlesAreEmpty }
{}

/// A law: a comment has no bytes.
pub fn comments_are_empty()
    ensures { CommentsAreEmpty }
{}

/// A law: the text of bytes has these bytes, for any list of names.
pub fn texts_have_bytes()
    ensures { TextsHaveBytes }
{}

/// A law: the text of a table has the table's bytes, for every form.
pub fn tables_have_bytes()
    ensures { TablesHaveBytes }
{}

/// A law: tables with the same text have the same bytes, also if they are shown by different forms.
pub fn texts_determine_tables()
    ensures { TextsDetermineTables }
{}

/// A law: a field's line has the field's offset, its name and its bytes, between spaces and a colon.
pub fn lines_have_names()
    ensures { LinesHaveNames }
{}

/// A law: the text of a table has a line of each field of its form that the table has bytes for, in order.
pub fn texts_have_names()
    ensures { TextsHaveNames }
{}

/// A law: the bytes of each of these fields are those of the table at the field's offset.
pub fn fields_stand()
    ensures { FieldsStand }
{}
