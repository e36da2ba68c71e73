//! The rules on strings that end with a zero. A function whose name begins with `check` adds to findings.

ghost use Rattle.std.specs.Prelude.{◌≡◌, ◌++◌, drop, map, OnOk};
ghost use Rattle.acpi_rules.specs.Demand.{spot_by};
ghost use Rattle.acpi_rules.specs.Finding.{noted};
ghost use Rattle.acpi_rules.specs.Item.{item_by};
ghost use Rattle.acpi_rules.specs.Terminated.{begins_with_zero, ends_with_zero, has_zero, has_end, bytes_before};
ghost use Rattle.acpi_rules.specs.Terminated.{ending_findings, terminated_findings, terminated_at_findings};
ghost use Rattle.acpi_rules.specs.Terminated.{terminated_before_findings};

use crate::demand::Spot;
use crate::finding::{Finding, Rule};
use crate::item::{Item, number_in};
use crate::related::{Said, add_related};
use crate::rules::number_of;
use acpi_text::inner::split_within;
use std::alloc::AllocError;

// Returns whether the byte at an index is zero, or there is none.
fn is_zero_at(at: u64, bytes: &[u8]) -> bool
    ensures { result ≡ begins_with_zero (drop at bytes.now) }
{
    if at < bytes.len() as u64 {
        bytes[at as usize] == 0
    } else {
        true
    }
}

// Returns whether the last of as many bytes as a number says, which begin at an offset, is zero, or there are none.
fn ends_with_zero(start: u64, size: u64, bytes: &[u8]) -> bool
    ensures { result ≡ ends_with_zero start size bytes.now }
{
    if size == 0 {
        return true;
    }
    match start.checked_add(size - 1) {
        Some(last) => is_zero_at(last, bytes),
        None => true,
    }
}

// Returns whether one of some bytes is zero.
fn has_zero(bytes: &[u8]) -> bool
    ensures { result ≡ has_zero bytes.now }
{
    'bytes: for byte in bytes {
        if *byte == 0 {
            return true;
        }
    }
    false
}

// Returns whether one of some bytes is zero, or there are none.
fn has_end(bytes: &[u8]) -> bool
    ensures { result ≡ has_end bytes.now }
{
    bytes.is_empty() || has_zero(bytes)
}

// Returns the bytes before an offset, or all if it is zero.
fn bytes_before(end: u64, bytes: &[u8]) -> &[u8]
    ensures { result.now ≡ bytes_before end bytes.now }
{
    if end > 0 && end < bytes.len() as u64 {
        &bytes[..end as usize]
    } else {
        bytes
    }
}

// Adds that a string doesn't end as it has to.
fn check_ending<'a>(
    section: &'static str,
    ends: bool,
    item: &Item<'a>,
    findings: &mut Vec<Finding<'a>>,
) -> Result<(), AllocError>
    ensures { OnOk result (map noted findings.new.items ≡ map noted findings.old.items
        ++ ending_findings section.now ends (item_by item.now)) }
{
    if ends {
        return Ok(());
    }
    let said = Said {
        section,
        number: 0,
        most: 0,
        other: "",
    };
    add_related(Rule::Terminated, &said, &item.field, findings)
}

/// Adds that a string that begins at the offset in a field, and is as long as another one says, doesn't end with a zero.
pub fn check_terminated<'a>(
    section: &'static str,
    size: &Spot,
    item: &Item<'a>,
    findings: &mut Vec<Finding<'a>>,
) -> Result<(), AllocError>
    ensures { OnOk result (map noted findings.new.items ≡ map noted findings.old.items
        ++ terminated_findings section.now (spot_by size.now) (item_by item.now)) }
{
    let long = number_in(size, item.bytes);
    let ends = ends_with_zero(number_of(&item.field), long, item.bytes);
    check_ending(section, ends, item, findings)
}

/// Adds that a string that begins at an offset, and is as long as a field says, doesn't end with a zero.
pub fn check_terminated_at<'a>(
    section: &'static str,
    start: usize,
    item: &Item<'a>,
    findings: &mut Vec<Finding<'a>>,
) -> Result<(), AllocError>
    ensures { OnOk result (map noted findings.new.items ≡ map noted findings.old.items
        ++ terminated_at_findings section.now start (item_by item.now)) }
{
    let ends = ends_with_zero(start as u64, number_of(&item.field), item.bytes);
    check_ending(section, ends, item, findings)
}

/// Adds that a string that begins at an offset has no zero before the offset that a field has.
pub fn check_terminated_before<'a>(
    section: &'static str,
    start: usize,
    end: &Spot,
    item: &Item<'a>,
    findings: &mut Vec<Finding<'a>>,
) -> Result<(), AllocError>
    ensures { OnOk result (map noted findings.new.items ≡ map noted findings.old.items
        ++ terminated_before_findings section.now start (spot_by end.now) (item_by item.now)) }
{
    let before = bytes_before(number_in(end, item.bytes), item.bytes);
    let (_, text) = split_within(start, before);
    check_ending(section, has_end(text), item, findings)
}
