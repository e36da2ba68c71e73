//! The rules on numbers of one part of a table. A function whose name begins with `check` adds to findings.

ghost use Rattle.std.specs.Prelude.{◌≡◌, ◌+◌, ◌-◌, ◌*◌, ◌%◌, ◌^◌, ◌==◌, ◌||◌, ◌++◌, nat_le, nat_lt, map, OnOk};
ghost use Rattle.std.specs.List.{flat_map};
ghost use Rattle.acpi_rules.specs.Demand.{spot_by, demand_by};
ghost use Rattle.acpi_rules.specs.Finding.{noted};
ghost use Rattle.acpi_rules.specs.Item.{item_by};
ghost use Rattle.acpi_rules.specs.Order.{order_findings, address_findings, block_findings, inside_findings, count_findings};
ghost use Rattle.acpi_rules.specs.Order.{pair_findings, needed_findings, needs_findings, between_findings, multiple_findings};
ghost use Rattle.acpi_rules.specs.Order.{not_all_findings, all_findings, number_findings};

use crate::demand::{Demand, Spot};
use crate::finding::{Finding, Rule};
use crate::item::{Item, has, number_in};
use crate::related::{Said, add_related};
use crate::rules::number_of;
use crate::terminated::{check_terminated, check_terminated_at, check_terminated_before};
use std::alloc::AllocError;

// Adds that a number is greater than that of another field.
fn check_order<'a>(
    section: &'static str,
    other: &Spot,
    item: &Item<'a>,
    findings: &mut Vec<Finding<'a>>,
) -> Result<(), AllocError>
    ensures { OnOk result (map noted findings.new.items ≡ map noted findings.old.items
        ++ order_findings section.now (spot_by other.now) (item_by item.now)) }
{
    let most = number_in(other, item.bytes);
    if !has(other, item.bytes) || number_of(&item.field) <= most {
        return Ok(());
    }
    let said = Said {
        section,
        number: most,
        most: 0,
        other: other.name,
    };
    add_related(Rule::AtMost, &said, &item.field, findings)
}

// Returns whether the last address of a range is below 2^64.
fn ends_in_time(base: u64, size: u64) -> bool
    ensures { result ≡ nat_lt (base + (size - 1)) (2 ^ 64) }
{
    match base.checked_add(size.saturating_sub(1)) {
        Some(_) => true,
        None => false,
    }
}

// Adds that a range of addresses passes 2^64.
fn check_addresses<'a>(
    section: &'static str,
    size: &Spot,
    item: &Item<'a>,
    findings: &mut Vec<Finding<'a>>,
) -> Result<(), AllocError>
    ensures { OnOk result (map noted findings.new.items ≡ map noted findings.old.items
        ++ address_findings section.now (spot_by size.now) (item_by item.now)) }
{
    let long = number_in(size, item.bytes);
    if ends_in_time(number_of(&item.field), long) {
        return Ok(());
    }
    let said = Said {
        section,
        number: long,
        most: 0,
        other: size.name,
    };
    add_related(Rule::NoOverflow, &said, &item.field, findings)
}

// Returns whether the last address of the last block of a size is below 2^64.
fn blocks_end_in_time(base: u64, last: u64, size: u64) -> bool
    ensures { result ≡ nat_lt (base + size * last + (size - 1)) (2 ^ 64) }
{
    match size.checked_mul(last) {
        Some(before) => {
            match base.checked_add(before) {
                Some(start) => ends_in_time(start, size),
                None => false,
            }
        }
        None => false,
    }
}

// Adds that blocks of a size pass 2^64.
fn check_blocks<'a>(
    section: &'static str,
    last: &Spot,
    size: u64,
    item: &Item<'a>,
    findings: &mut Vec<Finding<'a>>,
) -> Result<(), AllocError>
    ensures { OnOk result (map noted findings.new.items ≡ map noted findings.old.items
        ++ block_findings section.now (spot_by last.now) size (item_by item.now)) }
{
    let most = number_in(last, item.bytes);
    if blocks_end_in_time(number_of(&item.field), most, size) {
        return Ok(());
    }
    let said = Said {
        section,
        number: most,
        most: 0,
        other: last.name,
    };
    add_related(Rule::NoOverflow, &said, &item.field, findings)
}

// Returns whether bytes that begin at an offset end within a length. No bytes do at any offset.
fn is_inside(start: u64, size: u64, length: usize) -> bool
    ensures { result ≡ (size == 0 || nat_le (start + size) length) }
{
    match start.checked_add(size) {
        Some(end) => size == 0 || end <= length as u64,
        None => size == 0,
    }
}

// Returns whether entries of a size that begin at an offset end within a length.
fn are_inside(start: u64, size: usize, number: u64, length: usize) -> bool
    ensures { result ≡ (size * number == 0 || nat_le (start + size * number) length) }
{
    match (size as u64).checked_mul(number) {
        Some(long) => is_inside(start, long, length),
        None => false,
    }
}

// Adds that a part ends before the entries of a size at an offset do.
fn check_inside<'a>(
    section: &'static str,
    number: &Spot,
    size: usize,
    item: &Item<'a>,
    findings: &mut Vec<Finding<'a>>,
) -> Result<(), AllocError>
    ensures { OnOk result (map noted findings.new.items ≡ map noted findings.old.items
        ++ inside_findings section.now (spot_by number.now) size (item_by item.now)) }
{
    let many = number_in(number, item.bytes);
    if are_inside(number_of(&item.field), size, many, item.bytes.len()) {
        return Ok(());
    }
    let said = Said {
        section,
        number: many,
        most: item.bytes.len() as u64,
        other: number.name,
    };
    add_related(Rule::Inside, &said, &item.field, findings)
}

// Returns whether entries of a size, as many as a number says, stand between an offset and the end of bytes.
fn fits(start: usize, size: usize, number: u64, length: usize) -> bool
    ensures { result ≡ nat_le (start + size * number) length }
{
    match (size as u64).checked_mul(number) {
        Some(needed) => start <= length && needed <= (length - start) as u64,
        None => false,
    }
}

// Adds that a part has fewer entries than a number says.
fn check_count<'a>(
    section: &'static str,
    start: usize,
    size: usize,
    item: &Item<'a>,
    findings: &mut Vec<Finding<'a>>,
) -> Result<(), AllocError>
    ensures { OnOk result (map noted findings.new.items ≡ map noted findings.old.items
        ++ count_findings section.now start size (item_by item.now)) }
{
    if fits(start, size, number_of(&item.field), item.bytes.len()) {
        return Ok(());
    }
    let said = Said {
        section,
        number: 0,
        most: item.bytes.len() as u64,
        other: "",
    };
    add_related(Rule::Count, &said, &item.field, findings)
}

// Adds that two numbers differ, and none is zero.
fn check_pair<'a>(
    section: &'static str,
    other: &Spot,
    item: &Item<'a>,
    findings: &mut Vec<Finding<'a>>,
) -> Result<(), AllocError>
    ensures { OnOk result (map noted findings.new.items ≡ map noted findings.old.items
        ++ pair_findings section.now (spot_by other.now) (item_by item.now)) }
{
    let one = number_of(&item.field);
    let two = number_in(other, item.bytes);
    if one == 0 || two == 0 || one == two {
        return Ok(());
    }
    let said = Said {
        section,
        number: two,
        most: 0,
        other: other.name,
    };
    add_related(Rule::Pair, &said, &item.field, findings)
}

// Adds that two numbers are zero.
fn check_needed<'a>(
    section: &'static str,
    other: &Spot,
    item: &Item<'a>,
    findings: &mut Vec<Finding<'a>>,
) -> Result<(), AllocError>
    ensures { OnOk result (map noted findings.new.items ≡ map noted findings.old.items
        ++ needed_findings section.now (spot_by other.now) (item_by item.now)) }
{
    if number_of(&item.field) == 0 && number_in(other, item.bytes) == 0 {
        let said = Said {
            section,
            number: 0,
            most: 0,
            other: other.name,
        };
        return add_related(Rule::Required, &said, &item.field, findings);
    }
    Ok(())
}

// Adds that a number isn't zero, and another is.
fn check_needs<'a>(
    section: &'static str,
    other: &Spot,
    item: &Item<'a>,
    findings: &mut Vec<Finding<'a>>,
) -> Result<(), AllocError>
    ensures { OnOk result (map noted findings.new.items ≡ map noted findings.old.items
        ++ needs_findings section.now (spot_by other.now) (item_by item.now)) }
{
    if number_of(&item.field) == 0 || number_in(other, item.bytes) != 0 {
        return Ok(());
    }
    let said = Said {
        section,
        number: 0,
        most: 0,
        other: other.name,
    };
    add_related(Rule::Needs, &said, &item.field, findings)
}

// Adds that a number isn't from one to another.
fn check_between<'a>(
    section: &'static str,
    from: u64,
    to: u64,
    item: &Item<'a>,
    findings: &mut Vec<Finding<'a>>,
) -> Result<(), AllocError>
    ensures { OnOk result (map noted findings.new.items ≡ map noted findings.old.items
        ++ between_findings section.now from to (item_by item.now)) }
{
    let number = number_of(&item.field);
    if from <= number && number <= to {
        return Ok(());
    }
    let said = Said {
        section,
        number: from,
        most: to,
        other: "",
    };
    add_related(Rule::Range, &said, &item.field, findings)
}

// Returns whether a number is a multiple of another.
fn is_multiple(number: u64, unit: u64) -> bool
    ensures { result ≡ (number % unit == 0) }
{
    if unit == 0 {
        number == 0
    } else {
        number % unit == 0
    }
}

// Adds that a number isn't a multiple of another.
fn check_multiple<'a>(
    section: &'static str,
    unit: u64,
    item: &Item<'a>,
    findings: &mut Vec<Finding<'a>>,
) -> Result<(), AllocError>
    ensures { OnOk result (map noted findings.new.items ≡ map noted findings.old.items
        ++ multiple_findings section.now unit (item_by item.now)) }
{
    if is_multiple(number_of(&item.field), unit) {
        return Ok(());
    }
    let said = Said {
        section,
        number: unit,
        most: 0,
        other: "",
    };
    add_related(Rule::Multiple, &said, &item.field, findings)
}

// Adds that a number has all bits of a mask.
fn check_not_all<'a>(
    section: &'static str,
    mask: u64,
    item: &Item<'a>,
    findings: &mut Vec<Finding<'a>>,
) -> Result<(), AllocError>
    ensures { OnOk result (map noted findings.new.items ≡ map noted findings.old.items
        ++ not_all_findings section.now mask (item_by item.now)) }
{
    if number_of(&item.field) & mask == mask {
        let said = Said {
            section,
            number: mask,
            most: 0,
            other: "",
        };
        return add_related(Rule::NotAll, &said, &item.field, findings);
    }
    Ok(())
}

// Adds that a number doesn't have all bits of a mask.
fn check_all<'a>(
    section: &'static str,
    mask: u64,
    item: &Item<'a>,
    findings: &mut Vec<Finding<'a>>,
) -> Result<(), AllocError>
    ensures { OnOk result (map noted findings.new.items ≡ map noted findings.old.items
        ++ all_findings section.now mask (item_by item.now)) }
{
    let number = number_of(&item.field);
    if number & mask == mask {
        return Ok(());
    }
    let said = Said {
        section,
        number: number | mask,
        most: number | mask,
        other: "",
    };
    add_related(Rule::Range, &said, &item.field, findings)
}

// Adds what a part breaks of a demand on its numbers or a string.
fn check_numbers<'a>(
    demand: &Demand,
    section: &'static str,
    item: &Item<'a>,
    findings: &mut Vec<Finding<'a>>,
) -> Result<(), AllocError>
    ensures { OnOk result (map noted findings.new.items ≡ map noted findings.old.items
        ++ number_findings (demand_by demand.now) section.now (item_by item.now)) }
{
    match *demand {
        Demand::AtMost(other) => check_order(section, &other, item, findings),
        Demand::Addresses(size) => check_addresses(section, &size, item, findings),
        Demand::Blocks(last, size) => check_blocks(section, &last, size, item, findings),
        Demand::Inside(number, size) => check_inside(section, &number, size, item, findings),
        Demand::Counts(start, size) => check_count(section, start, size, item, findings),
        Demand::Agrees(other) => check_pair(section, &other, item, findings),
        Demand::Needed(other) => check_needed(section, &other, item, findings),
        Demand::Needs(other) => check_needs(section, &other, item, findings),
        Demand::Between(from, to) => check_between(section, from, to, item, findings),
        Demand::Multiple(unit) => check_multiple(section, unit, item, findings),
        Demand::NotAll(mask) => check_not_all(section, mask, item, findings),
        Demand::All(mask) => check_all(section, mask, item, findings),
        Demand::Terminated(size) => check_terminated(section, &size, item, findings),
        Demand::TerminatedAt(start) => check_terminated_at(section, start, item, findings),
        Demand::TerminatedBefore(start, end) => {
            check_terminated_before(section, start, &end, item, findings)
        }
        Demand::Differs
        | Demand::DiffersWith(_)
        | Demand::DiffersIn(_)
        | Demand::Apart(_, _)
        | Demand::Disjoint(_)
        | Demand::Points(_)
        | Demand::Refers(_, _)
        | Demand::Ends
        | Demand::Distances(_)
        | Demand::Includes(_, _) => Ok(()),
    }
}

/// Adds what parts break of a demand on their numbers or strings.
pub fn check_each<'a>(
    demand: &Demand,
    section: &'static str,
    items: &[Item<'a>],
    findings: &mut Vec<Finding<'a>>,
) -> Result<(), AllocError>
    ensures { OnOk result (map noted findings.new.items ≡ map noted findings.old.items
        ++ flat_map (number_findings (demand_by demand.now) section.now) (map item_by items.now)) }
{
    'items: for item in items {
        check_numbers(demand, section, item, findings)?;
    }
    Ok(())
}
