//! Tables of words by their numbers.

ghost use Rattle.std.specs.Prelude.{◌≡◌, map};
ghost use Rattle.acpi_terms_text.specs.Word.{word_in};

/// Returns the word in the first row with a number, or an empty one.
pub fn word_in(rows: &[(u8, &'static str)], number: u8) -> &'static str
    ensures { result.now ≡ word_in (map (λ row. (row.0, row.1.now)) rows.now) number }
{
    'rows: for row in rows {
        if row.0 == number {
            return row.1;
        }
    }
    ""
}
