//! Numbers that are in a range.

ghost use Rattle.std.specs.Prelude.{◌≡◌, ◌++◌, ◌&&◌, nat_le, map, take, OnOk};
ghost use Rattle.std.specs.List.{flat_map};
ghost use Rattle.acpi_rules.specs.Field.{seen};
ghost use Rattle.acpi_rules.specs.Finding.{noted};
ghost use Rattle.acpi_rules.specs.Rules.{allowed_by, limit_by, limits, limit_findings};

use crate::field::Field;
use crate::finding::{Finding, Rule};
use crate::rules::{Given, add, is_allowed, number_of};
use acpi_base::walk::Place;
use acpi_text::part::number_at;
use std::alloc::AllocError;

/// A range of numbers in a field. The rule is only for tables in which the bits `mask` at `place` are the number `is`.
#[derive(Clone, Copy)]
pub struct Limit {
    /// The signature of the tables.
    pub table: &'static str,
    /// The offset of the field in the table, or 0 for any offset.
    pub offset: usize,
    /// The field's name.
    pub name: &'static str,
    /// The least number that is allowed.
    pub from: u64,
    /// The greatest number that is allowed.
    pub to: u64,
    /// Where in the table the bits stand on which the rule depends.
    pub place: Place,
    /// The mask of these bits.
    pub mask: usize,
    /// The number that these bits are in a table for which the rule is.
    pub is: usize,
    /// The section of ACPI 6.5 that has the rule, or the name of another standard.
    pub section: &'static str,
}

// Returns whether a row speaks of a field of a table with this signature.
fn limits(signature: &[u8], table: &[u8], field: &Field<'_>, row: &Limit) -> bool
    requires { signature.now ≡ take 4 table.now }
    ensures { result ≡ limits table.now (seen field.now) (limit_by row.now) }
{
    row.table.as_bytes() == signature
        && (row.offset == 0 || row.offset == field.offset)
        && row.name == field.name
        && number_at(row.place, table) & row.mask == row.is
}

// Returns whether a number is from one to another.
fn is_between(number: u64, row: &Limit) -> bool
    ensures { result ≡ (nat_le row.now.from number && nat_le number row.now.to) }
{
    row.from <= number && number <= row.to
}

fn check_limit<'a>(
    given: &Given<'_>,
    table: &[u8],
    field: &Field<'a>,
    row: &Limit,
    findings: &mut Vec<Finding<'a>>,
) -> Result<(), AllocError>
    requires { given.now.signature.now ≡ take 4 table.now }
    ensures { OnOk result (map noted findings.new.items ≡ map noted findings.old.items
        ++ limit_findings (map allowed_by given.now.rows.now) table.now (seen field.now) (limit_by row.now)) }
{
    let number = number_of(field);
    if !limits(given.signature, table, field, row)
        || is_between(number, row)
        || is_allowed(given, field, number)
    {
        return Ok(());
    }
    add(Rule::Range, row.section, row.from, row.to, field, findings)
}

/// Adds the rows that speak of a field and whose range the number of the field isn't in.
pub(crate) fn check_limits<'a>(
    given: &Given<'_>,
    ranges: &[Limit],
    table: &[u8],
    field: &Field<'a>,
    findings: &mut Vec<Finding<'a>>,
) -> Result<(), AllocError>
    requires { given.now.signature.now ≡ take 4 table.now }
    ensures { OnOk result (map noted findings.new.items ≡ map noted findings.old.items
        ++ flat_map (limit_findings (map allowed_by given.now.rows.now) table.now (seen field.now)) (map limit_by ranges.now)) }
{
    'limits: for row in ranges {
        check_limit(given, table, field, row, findings)?;
    }
    Ok(())
}
