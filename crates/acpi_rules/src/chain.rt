//! The rule on structures of which each has the offset of the next. A function whose name begins with `check` adds to findings.

ghost use Rattle.std.specs.Prelude.{◌≡◌, ◌++◌, map, slice_index_or, IfOk, OnOk};
ghost use Rattle.std.specs.List.{flat_map};
ghost use Rattle.acpi_rules.specs.Chain.{place_from, next_place, next_places, ends_within, end_findings, chain_findings};
ghost use Rattle.acpi_rules.specs.Finding.{noted};
ghost use Rattle.acpi_rules.specs.Item.{item_by};

use crate::finding::{Finding, Rule};
use crate::item::Item;
use crate::related::{Said, add_related};
use crate::rules::number_of;
use std::alloc::{AllocError, Global};

// Returns the place of the part that begins at an offset, from 1 on, or 0.
fn place_of(at: usize, start: u64, parts: &[Item<'_>]) -> usize
    ensures { result ≡ place_from 1 at start (map item_by parts.now) }
{
    let mut place = 1;
    'parts: for part in parts {
        if part.field.offset.saturating_sub(at) as u64 == start {
            return place;
        }
        place += 1;
    }
    0
}

// Returns the place of the part that a part names in its field, or 0.
fn next_place(at: usize, parts: &[Item<'_>], part: &Item<'_>) -> usize
    ensures { result ≡ next_place at (map item_by parts.now) (item_by part.now) }
{
    place_of(at, number_of(&part.field), parts)
}

// Returns the place of the part that each of these names.
fn next_places(alloc: Global, at: usize, parts: &[Item<'_>]) -> Result<Vec<usize>, AllocError>
    ensures { IfOk result (λ next. next.items ≡ next_places at (map item_by parts.now)) }
{
    let mut next = Vec::new(alloc);
    'parts: for part in parts {
        next.push(next_place(at, parts, part))?;
    }
    Ok(next)
}

// Returns a number of a list, or 0 if the list ends before it.
fn number_at(numbers: &[usize], index: usize) -> usize
    ensures { result ≡ slice_index_or numbers.now index 0 }
{
    match numbers.get(index) {
        Some(number) => *number,
        None => 0,
    }
}

// Returns whether no part is left after at most `most` of them, from the one at a place on.
fn ends_within(most: usize, next: &[usize], place: usize) -> bool
    ensures { result ≡ ends_within most next.now place }
{
    let mut left = most;
    let mut at = place;
    'steps: while left > 0 && at > 0 {
        at = number_at(next, at - 1);
        left -= 1;
    }
    at == 0
}

// Adds that the parts that follow one don't come to an end.
fn check_end<'a>(
    at: usize,
    section: &'static str,
    parts: &[Item<'a>],
    next: &[usize],
    part: &Item<'a>,
    findings: &mut Vec<Finding<'a>>,
) -> Result<(), AllocError>
    ensures { OnOk result (map noted findings.new.items ≡ map noted findings.old.items
        ++ end_findings at section.now (map item_by parts.now) next.now (item_by part.now)) }
{
    if ends_within(parts.len(), next, next_place(at, parts, part)) {
        return Ok(());
    }
    let said = Said {
        section,
        number: 0,
        most: 0,
        other: "",
    };
    add_related(Rule::Cycle, &said, &part.field, findings)
}

fn check_ends<'a>(
    at: usize,
    section: &'static str,
    parts: &[Item<'a>],
    next: &[usize],
    findings: &mut Vec<Finding<'a>>,
) -> Result<(), AllocError>
    ensures { OnOk result (map noted findings.new.items ≡ map noted findings.old.items
        ++ flat_map (end_findings at section.now (map item_by parts.now) next.now) (map item_by parts.now)) }
{
    'parts: for part in parts {
        check_end(at, section, parts, next, part, findings)?;
    }
    Ok(())
}

/// Adds the parts that are followed by parts without an end: each has the offset of the next in its field, which is at the offset
/// `at` of the part.
pub fn check_chains<'a>(
    alloc: Global,
    at: usize,
    section: &'static str,
    parts: &[Item<'a>],
    findings: &mut Vec<Finding<'a>>,
) -> Result<(), AllocError>
    ensures { OnOk result (map noted findings.new.items ≡ map noted findings.old.items
        ++ chain_findings at section.now (map item_by parts.now)) }
{
    let next = next_places(alloc, at, parts)?;
    check_ends(at, section, parts, &next, findings)
}
