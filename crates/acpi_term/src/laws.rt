//! Laws about the definitions that the contracts use. Each function is a law: it does nothing, and its `ensures` states the law.

ghost use Rattle.std.specs.Prelude.{◌≡◌, List, true};
ghost use Rattle.std.specs.Cmp.Lexicographic.{pointwise};
ghost use Rattle.acpi_term.specs.declared.term.Term.{Term};
ghost use Rattle.acpi_term.specs.View.{views};
ghost use Rattle.acpi_term.specs.Laws.{RowsMean, RowsOverMean, ObjectsMean, AtMostOneList, AtMostOneFront, SplitsAgree};
ghost use Rattle.acpi_term.specs.Laws.{NameTextsAreNames, TextsAreTheirParts, LengthsAreSpelled, FramesAreSpelled};
ghost use Rattle.acpi_term.specs.Laws.{FramesAreLeast, FramesEndWithTheirContent, FieldLengthsAreLeast, NumbersAreLeast};

pub use crate::derived::equal_values_are_the_same;

/// If a row has no error, its bytes spell the row's term over the terms of its children.
pub fn rows_mean()
    ensures { RowsMean }
{}

/// The same, where one list of bytes spells all children.
pub fn rows_over_mean()
    ensures { RowsOverMean }
{}

/// If each object spells a term, the objects in order spell the list of these terms.
pub fn objects_mean()
    ensures { ObjectsMean }
{}

/// Bytes spell at most one list of terms, and a list of terms is spelled by only one list of bytes.
pub fn at_most_one_list()
    ensures { AtMostOneList }
{}

/// At most one prefix of given bytes spells a term, and it spells only one.
pub fn at_most_one_front()
    ensures { AtMostOneFront }
{}

/// The two definitions of the spelling are the same: as a function, and as a relation of bytes that are cut in parts.
pub fn splits_agree()
    ensures { SplitsAgree }
{}

/// A text of standard segments is the text of a name (ACPI 6.5, 20.2.2).
pub fn name_texts_are_names()
    ensures { NameTextsAreNames }
{}

/// A text is its parts with dots between them, and no part contains a dot.
pub fn texts_are_their_parts()
    ensures { TextsAreTheirParts }
{}

/// The bytes of a length have its value in each width in which it fits, and no other bytes have it (ACPI 6.5, 20.2.4).
pub fn lengths_are_spelled()
    ensures { LengthsAreSpelled }
{}

/// A PkgLength that counts itself and a content is the bytes of its value, in a width in which that fits (ACPI 6.5, 20.2.4).
pub fn frames_are_spelled()
    ensures { FramesAreSpelled }
{}

/// The PkgLength that is written has the least width.
pub fn frames_are_least()
    ensures { FramesAreLeast }
{}

/// The first bytes of a frame are its PkgLength, which counts all bytes of the frame.
pub fn frames_end_with_their_content()
    ensures { FramesEndWithTheirContent }
{}

/// The length of a field entry is written in the least width that fits the length and this width together.
pub fn field_lengths_are_least()
    ensures { FieldLengthsAreLeast }
{}

/// A number is written in the least width.
pub fn numbers_are_least()
    ensures { NumbersAreLeast }
{}

/// Two lists of terms of the code that stand for the same terms are equal.
pub fn terms_are_their_views()
    ensures { (a b : List Term) → views a ≡ views b → pointwise ⟦<crate::term::Term as PartialEq>⟧.eq a b ≡ true }
{}
