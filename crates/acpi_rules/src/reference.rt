//! The rules on numbers that are those of other structures, and on parts that a table has.

ghost use Rattle.std.specs.Prelude.{◌≡◌, ◌++◌, map, IfOk, OnOk};
ghost use Rattle.std.specs.List.{flat_map};
ghost use Rattle.acpi_rules.specs.Demand.{spot_by, demand_by};
ghost use Rattle.acpi_rules.specs.Finding.{noted};
ghost use Rattle.acpi_rules.specs.Item.{item_by, items};
ghost use Rattle.acpi_rules.specs.Reference.{of_kind, start_spot, starts_among, starts, targets, target_name, contains};
ghost use Rattle.acpi_rules.specs.Reference.{reference_findings, present_findings};
ghost use Rattle.acpi_rules.specs.Rules.{number_of};

use crate::demand::{Among, Demand, Of, Spot, When};
use crate::finding::{Finding, Rule};
use crate::item::{Item, items_of};
use crate::related::{Said, add_related};
use crate::rules::number_of;
use acpi_base::walk::Walk;
use std::alloc::{AllocError, Global};

/// Where a part begins.
pub const START: Spot = Spot {
    offset: 0,
    width: 0,
    name: "offset",
};

/// Returns the structures of a type.
pub fn of_kind(kind: usize) -> Among
    ensures { result ≡ of_kind kind }
{
    Among {
        of: Of::Kind(kind),
        when: When::Always,
    }
}

// Adds the offsets of parts.
fn push_offsets(items: &[Item<'_>], numbers: &mut Vec<u64>) -> Result<(), AllocError>
    ensures { OnOk result (numbers.new.items ≡ numbers.old.items ++ map (λ item. item.field.offset) (map item_by items.now)) }
{
    'items: for item in items {
        numbers.push(item.field.offset as u64)?;
    }
    Ok(())
}

// Adds the numbers in the fields of parts.
fn push_numbers(items: &[Item<'_>], numbers: &mut Vec<u64>) -> Result<(), AllocError>
    ensures { OnOk result (numbers.new.items ≡ numbers.old.items ++ map (λ item. number_of item.field) (map item_by items.now)) }
{
    'items: for item in items {
        numbers.push(number_of(&item.field))?;
    }
    Ok(())
}

// Adds the offsets of the parts of a table that belong to a group.
fn push_among(
    alloc: Global,
    walk: Option<Walk>,
    table: &[u8],
    among: &Among,
    numbers: &mut Vec<u64>,
) -> Result<(), AllocError>
    ensures { OnOk result (numbers.new.items ≡ numbers.old.items ++ starts_among walk table.now among.now) }
{
    let items = items_of(alloc, among, &START, walk, table)?;
    push_offsets(&items, numbers)
}

// Adds the offsets of the parts of a table that belong to any of several groups.
fn push_all_among(
    alloc: Global,
    walk: Option<Walk>,
    table: &[u8],
    parts: &[Among],
    numbers: &mut Vec<u64>,
) -> Result<(), AllocError>
    ensures { OnOk result (numbers.new.items ≡ numbers.old.items ++ flat_map (starts_among walk table.now) parts.now) }
{
    'parts: for among in parts {
        push_among(alloc, walk, table, among, numbers)?;
    }
    Ok(())
}

// Adds the offsets of the structures of a type.
fn push_starts(
    alloc: Global,
    walk: Option<Walk>,
    table: &[u8],
    kind: usize,
    numbers: &mut Vec<u64>,
) -> Result<(), AllocError>
    ensures { OnOk result (numbers.new.items ≡ numbers.old.items ++ starts walk table.now kind) }
{
    push_among(alloc, walk, table, &of_kind(kind), numbers)
}

// Adds the offsets of the structures of types.
fn push_all_starts(
    alloc: Global,
    walk: Option<Walk>,
    table: &[u8],
    types: &[usize],
    numbers: &mut Vec<u64>,
) -> Result<(), AllocError>
    ensures { OnOk result (numbers.new.items ≡ numbers.old.items ++ flat_map (starts walk table.now) types.now) }
{
    'types: for kind in types {
        push_starts(alloc, walk, table, *kind, numbers)?;
    }
    Ok(())
}

// Adds the numbers in a field of the structures of a type.
fn push_referred(
    alloc: Global,
    walk: Option<Walk>,
    table: &[u8],
    kind: usize,
    spot: &Spot,
    numbers: &mut Vec<u64>,
) -> Result<(), AllocError>
    ensures { OnOk result (numbers.new.items ≡ numbers.old.items
        ++ map (λ item. number_of item.field) (items (of_kind kind) (spot_by spot.now) walk table.now)) }
{
    let items = items_of(alloc, &of_kind(kind), spot, walk, table)?;
    push_numbers(&items, numbers)
}

/// Returns the numbers that a demand allows, besides zero, or the offsets of the parts that it speaks of.
pub fn targets_of(
    alloc: Global,
    demand: &Demand,
    walk: Option<Walk>,
    table: &[u8],
) -> Result<Vec<u64>, AllocError>
    ensures { IfOk result (λ numbers. numbers.items ≡ targets (demand_by demand.now) walk table.now) }
{
    let mut numbers = Vec::new(alloc);
    match *demand {
        Demand::DiffersIn(kind) => push_starts(alloc, walk, table, kind, &mut numbers)?,
        Demand::Points(types) => push_all_starts(alloc, walk, table, types, &mut numbers)?,
        Demand::Refers(kind, spot) => {
            push_referred(alloc, walk, table, kind, &spot, &mut numbers)?
        }
        Demand::Includes(parts, _) => push_all_among(alloc, walk, table, parts, &mut numbers)?,
        _ => {}
    }
    Ok(numbers)
}

// Returns the name of the field that has these numbers.
fn target_name(demand: &Demand) -> &'static str
    ensures { result.now ≡ target_name (demand_by demand.now) }
{
    match *demand {
        Demand::Refers(_, spot) => spot.name,
        _ => START.name,
    }
}

/// Returns whether a number is one of these.
pub fn contains(numbers: &[u64], number: u64) -> bool
    ensures { result ≡ contains numbers.now number }
{
    'numbers: for one in numbers {
        if *one == number {
            return true;
        }
    }
    false
}

// Adds that a number is neither zero nor one of these.
fn check_reference<'a>(
    section: &'static str,
    name: &'static str,
    numbers: &[u64],
    item: &Item<'a>,
    findings: &mut Vec<Finding<'a>>,
) -> Result<(), AllocError>
    ensures { OnOk result (map noted findings.new.items ≡ map noted findings.old.items
        ++ reference_findings section.now name.now numbers.now (item_by item.now)) }
{
    let number = number_of(&item.field);
    if number == 0 || contains(numbers, number) {
        return Ok(());
    }
    let said = Said {
        section,
        number: 0,
        most: 0,
        other: name,
    };
    add_related(Rule::Reference, &said, &item.field, findings)
}

/// Adds the numbers of parts that are neither zero nor one of these.
pub fn check_references<'a>(
    demand: &Demand,
    section: &'static str,
    numbers: &[u64],
    items: &[Item<'a>],
    findings: &mut Vec<Finding<'a>>,
) -> Result<(), AllocError>
    ensures { OnOk result (map noted findings.new.items ≡ map noted findings.old.items
        ++ flat_map (reference_findings section.now (target_name (demand_by demand.now)) numbers.now)
        (map item_by items.now)) }
{
    let name = target_name(demand);
    'items: for item in items {
        check_reference(section, name, numbers, item, findings)?;
    }
    Ok(())
}

// Adds that a table has none of some parts.
fn check_present<'a>(
    section: &'static str,
    what: &'static str,
    numbers: &[u64],
    item: &Item<'a>,
    findings: &mut Vec<Finding<'a>>,
) -> Result<(), AllocError>
    ensures { OnOk result (map noted findings.new.items ≡ map noted findings.old.items
        ++ present_findings section.now what.now numbers.now (item_by item.now)) }
{
    if !numbers.is_empty() {
        return Ok(());
    }
    let said = Said {
        section,
        number: 0,
        most: 0,
        other: what,
    };
    add_related(Rule::Present, &said, &item.field, findings)
}

/// Adds the fields of a table that has none of some parts, whose offsets these are.
pub fn check_all_present<'a>(
    section: &'static str,
    what: &'static str,
    numbers: &[u64],
    items: &[Item<'a>],
    findings: &mut Vec<Finding<'a>>,
) -> Result<(), AllocError>
    ensures { OnOk result (map noted findings.new.items ≡ map noted findings.old.items
        ++ flat_map (present_findings section.now what.now numbers.now) (map item_by items.now)) }
{
    'items: for item in items {
        check_present(section, what, numbers, item, findings)?;
    }
    Ok(())
}
