//! The rules on two parts of a table that have something in common.

ghost use Rattle.std.specs.Prelude.{◌≡◌, ◌++◌, [], map, OnOk};
ghost use Rattle.acpi_rules.specs.Apart.{matches, overlap, reaches, clash, first_clash, clash_findings, apart_findings};
ghost use Rattle.acpi_rules.specs.Demand.{spot_by, demand_by};
ghost use Rattle.acpi_rules.specs.Finding.{noted};
ghost use Rattle.acpi_rules.specs.Item.{item_by};

use crate::demand::{Demand, Spot};
use crate::finding::{Finding, Rule};
use crate::item::{Item, bytes_in, number_in};
use crate::related::{Said, add_related, add_unique};
use crate::rules::number_of;
use std::alloc::AllocError;

// Returns whether two parts have the same bytes in the field of which a rule speaks, and in another one.
fn matches(other: &Spot, a: &Item<'_>, b: &Item<'_>) -> bool
    ensures { result ≡ matches (spot_by other.now) (item_by a.now) (item_by b.now) }
{
    a.field.bytes == b.field.bytes && bytes_in(other, a.bytes) == bytes_in(other, b.bytes)
}

// Returns whether two parts have the same bytes in a field, and ranges that have a number in common.
fn overlap(group: &Spot, last: &Spot, a: &Item<'_>, b: &Item<'_>) -> bool
    ensures { result ≡ overlap (spot_by group.now) (spot_by last.now) (item_by a.now) (item_by b.now) }
{
    bytes_in(group, a.bytes) == bytes_in(group, b.bytes)
        && number_of(&a.field) <= number_in(last, b.bytes)
        && number_of(&b.field) <= number_in(last, a.bytes)
}

// Returns whether the range of a part isn't empty, and ends after the first address of that of another.
fn reaches(size: &Spot, one: &Item<'_>, other: &Item<'_>) -> bool
    ensures { result ≡ reaches (spot_by size.now) (item_by one.now) (item_by other.now) }
{
    let long = number_in(size, one.bytes);
    long > 0 && number_of(&other.field).saturating_sub(number_of(&one.field)) < long
}

// Returns whether two parts break a demand.
fn clash(demand: &Demand, a: &Item<'_>, b: &Item<'_>) -> bool
    ensures { result ≡ clash (demand_by demand.now) (item_by a.now) (item_by b.now) }
{
    match *demand {
        Demand::Differs => a.field.bytes == b.field.bytes,
        Demand::DiffersWith(other) => matches(&other, a, b),
        Demand::Apart(group, last) => overlap(&group, &last, a, b),
        Demand::Disjoint(size) => reaches(&size, a, b) && reaches(&size, b, a),
        Demand::DiffersIn(_)
        | Demand::AtMost(_)
        | Demand::Addresses(_)
        | Demand::Blocks(_, _)
        | Demand::Inside(_, _)
        | Demand::Counts(_, _)
        | Demand::Agrees(_)
        | Demand::Needed(_)
        | Demand::Needs(_)
        | Demand::Between(_, _)
        | Demand::Multiple(_)
        | Demand::NotAll(_)
        | Demand::All(_)
        | Demand::Terminated(_)
        | Demand::TerminatedAt(_)
        | Demand::TerminatedBefore(_, _)
        | Demand::Points(_)
        | Demand::Refers(_, _)
        | Demand::Ends
        | Demand::Distances(_)
        | Demand::Includes(_, _) => false,
    }
}

// Returns the offset of the field of the first part with which one clashes.
fn first_clash(demand: &Demand, one: &Item<'_>, items: &[Item<'_>]) -> Option<usize>
    ensures { result ≡ first_clash (demand_by demand.now) (item_by one.now) (map item_by items.now) }
{
    'items: for item in items {
        if clash(demand, one, item) {
            return Some(item.field.offset);
        }
    }
    None
}

// Adds that a part clashes with one at an offset.
fn check_clash<'a>(
    demand: &Demand,
    section: &'static str,
    item: &Item<'a>,
    before: Option<usize>,
    findings: &mut Vec<Finding<'a>>,
) -> Result<(), AllocError>
    ensures { OnOk result (map noted findings.new.items ≡ map noted findings.old.items
        ++ clash_findings (demand_by demand.now) section.now (item_by item.now) before) }
{
    match (*demand, before) {
        (Demand::Differs | Demand::DiffersWith(_), Some(at)) => {
            add_unique(section, at, &item.field, findings)
        }
        (Demand::Apart(_, last), Some(at)) => {
            let said = Said {
                section,
                number: at as u64,
                most: 0,
                other: last.name,
            };
            add_related(Rule::Overlap, &said, &item.field, findings)
        }
        (Demand::Disjoint(size), Some(at)) => {
            let said = Said {
                section,
                number: at as u64,
                most: 0,
                other: size.name,
            };
            add_related(Rule::Disjoint, &said, &item.field, findings)
        }
        _ => Ok(()),
    }
}

/// Adds the parts that clash with one before them.
pub fn check_apart<'a>(
    demand: &Demand,
    section: &'static str,
    items: &[Item<'a>],
    findings: &mut Vec<Finding<'a>>,
) -> Result<(), AllocError>
    ensures { OnOk result (map noted findings.new.items ≡ map noted findings.old.items
        ++ apart_findings (demand_by demand.now) section.now [] (map item_by items.now)) }
{
    let mut at = 0;
    'items: while at < items.len() {
        let before = first_clash(demand, &items[at], &items[..at]);
        check_clash(demand, section, &items[at], before, findings)?;
        at += 1;
    }
    Ok(())
}
