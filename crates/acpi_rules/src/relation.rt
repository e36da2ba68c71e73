//! The rules on several fields of a table. A function whose name begins with `check` adds to findings.

ghost use Rattle.std.specs.Prelude.{◌≡◌, ◌++◌, map, OnOk};
ghost use Rattle.std.specs.List.{flat_map};
ghost use Rattle.acpi_rules.specs.Demand.{spot_by, demand_by, relation_by};
ghost use Rattle.acpi_rules.specs.Finding.{noted};
ghost use Rattle.acpi_rules.specs.Item.{item_by, items};
ghost use Rattle.acpi_rules.specs.Reference.{targets};
ghost use Rattle.acpi_rules.specs.Relation.{demand_findings, relation_findings, relations_findings};

use crate::apart::check_apart;
use crate::chain::check_chains;
use crate::demand::{Demand, Relation};
use crate::finding::Finding;
use crate::item::{Item, items_of};
use crate::matrix::check_matrices;
use crate::order::check_each;
use crate::reference::{check_all_present, check_references, targets_of};
use crate::rules::signature_of;
use crate::sibling::check_siblings;
use acpi_base::walk::Walk;
use std::alloc::{AllocError, Global};

// Adds what parts of a table break of a demand on their field at an offset, where these are the numbers that `targets_of`
// returns.
fn check_demand<'a>(
    alloc: Global,
    demand: &Demand,
    at: usize,
    section: &'static str,
    numbers: &[u64],
    items: &[Item<'a>],
    findings: &mut Vec<Finding<'a>>,
) -> Result<(), AllocError>
    ensures { OnOk result (map noted findings.new.items ≡ map noted findings.old.items
        ++ demand_findings (demand_by demand.now) at section.now numbers.now (map item_by items.now)) }
{
    match *demand {
        Demand::Differs | Demand::DiffersWith(_) | Demand::Apart(_, _) | Demand::Disjoint(_) =>
            check_apart(demand, section, items, findings),
        Demand::DiffersIn(_) => check_siblings(section, numbers, items, findings),
        Demand::Points(_) | Demand::Refers(_, _) => {
            check_references(demand, section, numbers, items, findings)
        }
        Demand::Ends => check_chains(alloc, at, section, items, findings),
        Demand::Distances(first) => check_matrices(section, &first, items, findings),
        Demand::Includes(_, what) => check_all_present(section, what, numbers, items, findings),
        Demand::AtMost(_)
        | Demand::Addresses(_)
        | Demand::Blocks(_, _)
        | Demand::Inside(_, _)
        | Demand::Counts(_, _)
        | Demand::Agrees(_)
        | Demand::Needed(_)
        | Demand::Needs(_)
        | Demand::Between(_, _)
        | Demand::Multiple(_)
        | Demand::NotAll(_)
        | Demand::All(_)
        | Demand::Terminated(_)
        | Demand::TerminatedAt(_)
        | Demand::TerminatedBefore(_, _) => check_each(demand, section, items, findings),
    }
}

// Adds what a table of the signature of a rule breaks of it.
fn check_table<'a>(
    alloc: Global,
    row: &Relation,
    walk: Option<Walk>,
    table: &'a [u8],
    findings: &mut Vec<Finding<'a>>,
) -> Result<(), AllocError>
    ensures { OnOk result (map noted findings.new.items ≡ map noted findings.old.items
        ++ demand_findings (demand_by row.now.demand) row.now.spot.offset row.now.section.now
        (targets (demand_by row.now.demand) walk table.now)
        (items row.now.among (spot_by row.now.spot) walk table.now)) }
{
    let numbers = targets_of(alloc, &row.demand, walk, table)?;
    let items = items_of(alloc, &row.among, &row.spot, walk, table)?;
    let at = usize::from(row.spot.offset);
    check_demand(
        alloc,
        &row.demand,
        at,
        row.section,
        &numbers,
        &items,
        findings,
    )
}

// Adds what a table breaks of a rule.
fn check_relation<'a>(
    alloc: Global,
    row: &Relation,
    walk: Option<Walk>,
    table: &'a [u8],
    findings: &mut Vec<Finding<'a>>,
) -> Result<(), AllocError>
    ensures { OnOk result (map noted findings.new.items ≡ map noted findings.old.items
        ++ relation_findings walk table.now (relation_by row.now)) }
{
    if row.table.as_bytes() == signature_of(table) {
        return check_table(alloc, row, walk, table, findings);
    }
    Ok(())
}

/// Adds what a table breaks of rules, in the order of the rules. The only error is that memory ran out.
pub fn check_relations<'a>(
    alloc: Global,
    rows: &[Relation],
    walk: Option<Walk>,
    table: &'a [u8],
    findings: &mut Vec<Finding<'a>>,
) -> Result<(), AllocError>
    ensures { OnOk result (map noted findings.new.items ≡ map noted findings.old.items
        ++ relations_findings (map relation_by rows.now) walk table.now) }
{
    'rows: for row in rows {
        check_relation(alloc, row, walk, table, findings)?;
    }
    Ok(())
}
