//! The rules on the distances between localities. A function whose name begins with `check` adds to findings.

ghost use Rattle.std.specs.Prelude.{◌≡◌, ◌+◌, ◌*◌, ◌<◌, ◌^◌, ◌==◌, ◌++◌, ◌∷◌, [], length, drop, map, OnOk};
ghost use Rattle.std.specs.List.{flat_map};
ghost use Rattle.acpi_rules.specs.Demand.{spot_by};
ghost use Rattle.acpi_rules.specs.Field.{seen};
ghost use Rattle.acpi_rules.specs.Finding.{noted};
ghost use Rattle.acpi_rules.specs.Item.{item_by};
ghost use Rattle.acpi_rules.specs.Matrix.{distance_at, distance_findings, others_after, row_findings, matrix_findings};

use crate::demand::Spot;
use crate::field::Field;
use crate::finding::{Finding, Rule};
use crate::item::Item;
use crate::related::{Said, add_related};
use crate::rules::number_of;
use acpi_base::row::Look;
use acpi_text::inner::split_within;
use std::alloc::AllocError;

// Returns whether bytes end after a number of distances between localities that begin at an offset.
fn is_square(start: usize, number: u64, length: usize) -> bool
    ensures { result ≡ (start + number * number == length) }
{
    match number.checked_mul(number) {
        Some(needed) => start <= length && needed == (length - start) as u64,
        None => false,
    }
}

// Adds that a distance isn't one of these.
fn check_distance<'a>(
    section: &'static str,
    field: &Field<'a>,
    others: u64,
    distance: u8,
    findings: &mut Vec<Finding<'a>>,
) -> Result<(), AllocError>
    ensures { OnOk result (map noted findings.new.items ≡ map noted findings.old.items
        ++ distance_findings section.now (seen field.now) others distance) }
{
    let most = if others == 0 { 10 } else { 255 };
    if distance >= 10 && u64::from(distance) <= most {
        return Ok(());
    }
    let said = Said {
        section,
        number: 10,
        most,
        other: "",
    };
    add_related(Rule::Distance, &said, field, findings)
}

// Returns how many distances stand before the next one from a locality to itself.
fn others_after(number: u64, others: u64) -> u64
    ensures { result ≡ others_after number others }
{
    if others == 0 { number } else { others - 1 }
}

// Adds what distances break.
fn check_distances<'a>(
    section: &'static str,
    name: &'static str,
    number: u64,
    start: usize,
    distances: &'a [u8],
    findings: &mut Vec<Finding<'a>>,
) -> Result<(), AllocError>
    requires { start + length distances.now < 2 ^ 64 }
    ensures { OnOk result (map noted findings.new.items ≡ map noted findings.old.items
        ++ row_findings section.now name.now number 0 start distances.now) }
{
    let mut others = 0;
    let mut at = start;
    let mut rest = distances;
    'distances: while !rest.is_empty() {
        let (one, more) = rest.split_at(1);
        let field = Field {
            offset: at,
            name,
            look: Look::Number,
            width: 1,
            bytes: one,
        };
        check_distance(section, &field, others, one[0], findings)?;
        others = others_after(number, others);
        at += 1;
        rest = more;
    }
    Ok(())
}

// Adds what the distances of a table break.
fn check_matrix<'a>(
    section: &'static str,
    first: &Spot,
    item: &Item<'a>,
    findings: &mut Vec<Finding<'a>>,
) -> Result<(), AllocError>
    ensures { OnOk result (map noted findings.new.items ≡ map noted findings.old.items
        ++ matrix_findings section.now (spot_by first.now) (item_by item.now)) }
{
    let start = usize::from(first.offset);
    let number = number_of(&item.field);
    if is_square(start, number, item.bytes.len()) {
        let (_, distances) = split_within(start, item.bytes);
        return check_distances(section, first.name, number, start, distances, findings);
    }
    let said = Said {
        section,
        number: 0,
        most: item.bytes.len() as u64,
        other: "",
    };
    add_related(Rule::Count, &said, &item.field, findings)
}

/// Adds what the distances of tables break.
pub fn check_matrices<'a>(
    section: &'static str,
    first: &Spot,
    items: &[Item<'a>],
    findings: &mut Vec<Finding<'a>>,
) -> Result<(), AllocError>
    ensures { OnOk result (map noted findings.new.items ≡ map noted findings.old.items
        ++ flat_map (matrix_findings section.now (spot_by first.now)) (map item_by items.now)) }
{
    'items: for item in items {
        check_matrix(section, first, item, findings)?;
    }
    Ok(())
}
