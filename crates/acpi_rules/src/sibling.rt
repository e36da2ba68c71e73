//! The rules on two parts of one structure. A function whose name begins with `check` adds to findings.

ghost use Rattle.std.specs.Prelude.{◌≡◌, ◌++◌, [], map, OnOk};
ghost use Rattle.acpi_rules.specs.Finding.{noted};
ghost use Rattle.acpi_rules.specs.Item.{item_by};
ghost use Rattle.acpi_rules.specs.Sibling.{own_start, is_same, first_same, same_findings, sibling_findings};

use crate::finding::Finding;
use crate::item::Item;
use crate::related::add_unique;
use std::alloc::AllocError;

// Returns where the structure begins that has the byte at an offset: at the last of these offsets that isn't after it.
fn own_start(starts: &[u64], at: usize) -> u64
    ensures { result ≡ own_start 0 starts.now at }
{
    let mut own = 0;
    'starts: for start in starts {
        if *start <= at as u64 {
            own = *start;
        }
    }
    own
}

// Returns whether a part has the same bytes in the field as one before it that doesn't stand before the structure.
fn is_same(own: u64, one: &Item<'_>, before: &Item<'_>) -> bool
    ensures { result ≡ is_same own (item_by one.now) (item_by before.now) }
{
    one.field.bytes == before.field.bytes && own <= before.field.offset as u64
}

// Returns the offset of the field of the first part that is the same, of those before one.
fn first_same(own: u64, one: &Item<'_>, items: &[Item<'_>]) -> Option<usize>
    ensures { result ≡ first_same own (item_by one.now) (map item_by items.now) }
{
    'items: for item in items {
        if is_same(own, one, item) {
            return Some(item.field.offset);
        }
    }
    None
}

// Adds that a part is the same as one at an offset.
fn check_same<'a>(
    section: &'static str,
    item: &Item<'a>,
    before: Option<usize>,
    findings: &mut Vec<Finding<'a>>,
) -> Result<(), AllocError>
    ensures { OnOk result (map noted findings.new.items ≡ map noted findings.old.items
        ++ same_findings section.now (item_by item.now) before) }
{
    match before {
        Some(at) => add_unique(section, at, &item.field, findings),
        None => Ok(()),
    }
}

/// Adds the parts that are the same as one before them in their structure. The structures begin at these offsets.
pub fn check_siblings<'a>(
    section: &'static str,
    starts: &[u64],
    items: &[Item<'a>],
    findings: &mut Vec<Finding<'a>>,
) -> Result<(), AllocError>
    ensures { OnOk result (map noted findings.new.items ≡ map noted findings.old.items
        ++ sibling_findings section.now starts.now [] (map item_by items.now)) }
{
    let mut at = 0;
    'items: while at < items.len() {
        let own = own_start(starts, items[at].field.offset);
        let before = first_same(own, &items[at], &items[..at]);
        check_same(section, &items[at], before, findings)?;
        at += 1;
    }
    Ok(())
}
