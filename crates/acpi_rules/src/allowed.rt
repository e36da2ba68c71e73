//! Numbers that the rules on every field allow although a form has no names for them.

ghost use Rattle.std.specs.Prelude.{◌≡◌, map};
ghost use Rattle.acpi_rules.specs.Field.{seen};
ghost use Rattle.acpi_rules.specs.Rules.{allowed_by, allows, any_allows};

use crate::field::Field;

/// Numbers that are allowed in a field.
#[derive(Clone, Copy)]
pub struct Allowed {
    /// The signature of the tables, or nothing for all tables.
    pub table: &'static str,
    /// The offset of the field in the table, or 0 for any offset.
    pub offset: usize,
    /// The field's name.
    pub name: &'static str,
    /// The least number that is allowed.
    pub from: u64,
    /// The greatest number that is allowed.
    pub to: u64,
}

// Returns whether a row speaks of a field of a table with this signature, and of this number.
fn allows(row: &Allowed, signature: &[u8], field: &Field<'_>, number: u64) -> bool
    ensures { result ≡ allows signature.now (seen field.now) number (allowed_by row.now) }
{
    (row.table.is_empty() || row.table.as_bytes() == signature)
        && (row.offset == 0 || row.offset == field.offset)
        && row.name == field.name
        && row.from <= number
        && number <= row.to
}

/// Returns whether rows allow a number in a field of a table with this signature.
pub fn any_allows(rows: &[Allowed], signature: &[u8], field: &Field<'_>, number: u64) -> bool
    ensures { result ≡ any_allows (map allowed_by rows.now) signature.now (seen field.now) number }
{
    'rows: for row in rows {
        if allows(row, signature, field, number) {
            return true;
        }
    }
    false
}
