//! The rules on numbers of one table that other tables of its machine define. A function whose name begins with `push` adds to
//! numbers, and one whose name begins with `check` adds to findings.

ghost use Rattle.std.specs.Prelude.{◌≡◌, ◌≤◌, ◌++◌, [], length, map, OnOk, IfOk};
ghost use Rattle.std.specs.List.{flat_map};
ghost use Rattle.acpi_base.specs.Bytes.{field_at};
ghost use Rattle.acpi_rules.specs.Across.{walk_of, is_of, column_items, whole_number, column_numbers, all_numbers, column_count};
ghost use Rattle.acpi_rules.specs.Across.{all_counts, numbers_for, has_table, has_any, speaks, greatest, defined_findings};
ghost use Rattle.acpi_rules.specs.Across.{below_findings, parts_findings, own_findings, link_findings, links_findings};
ghost use Rattle.acpi_rules.specs.Demand.{spot_by};
ghost use Rattle.acpi_rules.specs.Finding.{noted};
ghost use Rattle.acpi_rules.specs.Item.{item_by};
ghost use Rattle.acpi_rules.specs.Link.{column_by, wanted_by, link_by};

use crate::demand::Spot;
use crate::finding::{Finding, Rule};
use crate::item::{Item, bytes_in, items_of};
use crate::link::{Column, Link, Wanted};
use crate::reference::contains;
use crate::related::{Said, add_related};
use crate::rules::{number_in_bytes, signature_of};
use acpi_base::further_walk::table_walk_of;
use acpi_base::walk::Walk;
use std::alloc::{AllocError, Global};

// ---- the numbers of a column

// Returns the signature of a table as a number, lowest byte first.
fn signature_number(table: &[u8]) -> u32
    requires { 4 ≤ length table.now }
    ensures { result ≡ field_at 0 4 table.now }
{
    u32::from_le_bytes([table[0], table[1], table[2], table[3]])
}

// Returns the walk of a table, by its signature.
fn walk_of(table: &[u8]) -> Option<Walk>
    ensures { result ≡ walk_of table.now }
{
    if table.len() < 4 {
        None
    } else {
        table_walk_of(signature_number(table))
    }
}

// Returns whether a table has the signature of a column.
fn is_of(column: &Column, table: &[u8]) -> bool
    ensures { result ≡ is_of (column_by column.now) table.now }
{
    column.table.as_bytes() == signature_of(table)
}

/// Returns the parts of a table that a column has. The only error is that memory ran out.
pub fn column_items<'a>(
    alloc: Global,
    column: &Column,
    table: &'a [u8],
) -> Result<Vec<Item<'a>>, AllocError>
    ensures { IfOk result (λ found. map item_by found.items ≡ column_items (column_by column.now) table.now) }
{
    if is_of(column, table) {
        items_of(alloc, &column.among, &column.low, walk_of(table), table)
    } else {
        Ok(Vec::new(alloc))
    }
}

/// Returns the number of a part: that of its field, with the bytes of another one above it. The only error is that memory ran
/// out.
pub fn whole_number(alloc: Global, high: &Spot, item: &Item<'_>) -> Result<u64, AllocError>
    ensures { IfOk result (λ number. number ≡ whole_number (spot_by high.now) (item_by item.now)) }
{
    let mut bytes = Vec::new(alloc);
    bytes.extend_from_slice(item.field.bytes)?;
    bytes.extend_from_slice(bytes_in(high, item.bytes))?;
    Ok(number_in_bytes(&bytes))
}

// Adds the numbers of parts.
fn push_wholes(
    alloc: Global,
    high: &Spot,
    items: &[Item<'_>],
    numbers: &mut Vec<u64>,
) -> Result<(), AllocError>
    ensures { OnOk result (numbers.new.items ≡ numbers.old.items
        ++ map (whole_number (spot_by high.now)) (map item_by items.now)) }
{
    'items: for item in items {
        numbers.push(whole_number(alloc, high, item)?)?;
    }
    Ok(())
}

// Adds the numbers of a table that a column has.
fn push_numbers(
    alloc: Global,
    column: &Column,
    table: &[u8],
    numbers: &mut Vec<u64>,
) -> Result<(), AllocError>
    ensures { OnOk result (numbers.new.items ≡ numbers.old.items ++ column_numbers (column_by column.now) table.now) }
{
    let items = column_items(alloc, column, table)?;
    push_wholes(alloc, &column.high, &items, numbers)
}

// Adds the numbers of tables that a column has.
fn push_all_numbers(
    alloc: Global,
    tables: &[&[u8]],
    column: &Column,
    numbers: &mut Vec<u64>,
) -> Result<(), AllocError>
    ensures { OnOk result (numbers.new.items ≡ numbers.old.items
        ++ all_numbers (map (λ table. table.now) tables.now) (column_by column.now)) }
{
    'tables: for table in tables {
        push_numbers(alloc, column, table, numbers)?;
    }
    Ok(())
}

// Adds the numbers of tables that columns have.
fn push_columns(
    alloc: Global,
    tables: &[&[u8]],
    columns: &[Column],
    numbers: &mut Vec<u64>,
) -> Result<(), AllocError>
    ensures { OnOk result (numbers.new.items ≡ numbers.old.items
        ++ flat_map (all_numbers (map (λ table. table.now) tables.now)) (map column_by columns.now)) }
{
    'columns: for column in columns {
        push_all_numbers(alloc, tables, column, numbers)?;
    }
    Ok(())
}

// Adds how many parts of a column a table has, if it is one of the column's.
fn push_count(
    alloc: Global,
    column: &Column,
    table: &[u8],
    numbers: &mut Vec<u64>,
) -> Result<(), AllocError>
    ensures { OnOk result (numbers.new.items ≡ numbers.old.items ++ column_count (column_by column.now) table.now) }
{
    if is_of(column, table) {
        let items = column_items(alloc, column, table)?;
        numbers.push(items.len() as u64)?;
    }
    Ok(())
}

// Adds how many parts of a column each of its tables has.
fn push_all_counts(
    alloc: Global,
    tables: &[&[u8]],
    column: &Column,
    numbers: &mut Vec<u64>,
) -> Result<(), AllocError>
    ensures { OnOk result (numbers.new.items ≡ numbers.old.items
        ++ all_counts (map (λ table. table.now) tables.now) (column_by column.now)) }
{
    'tables: for table in tables {
        push_count(alloc, column, table, numbers)?;
    }
    Ok(())
}

// ---- what tables of a machine allow

// Returns the numbers that are allowed, or those of which the greatest is the limit.
fn numbers_for(alloc: Global, wanted: &Wanted, tables: &[&[u8]]) -> Result<Vec<u64>, AllocError>
    ensures { IfOk result (λ numbers. numbers.items
        ≡ numbers_for (wanted_by wanted.now) (map (λ table. table.now) tables.now)) }
{
    let mut numbers = Vec::new(alloc);
    match *wanted {
        Wanted::OneOf(columns) => push_columns(alloc, tables, columns, &mut numbers)?,
        Wanted::Below(column) => push_all_numbers(alloc, tables, &column, &mut numbers)?,
        Wanted::Index(column) => push_all_counts(alloc, tables, &column, &mut numbers)?,
    }
    Ok(numbers)
}

// Returns whether there is a table with the signature of a column.
fn has_table(tables: &[&[u8]], column: &Column) -> bool
    ensures { result ≡ has_table (map (λ table. table.now) tables.now) (column_by column.now) }
{
    'tables: for table in tables {
        if is_of(column, table) {
            return true;
        }
    }
    false
}

// Returns whether there is a table with the signature of one of these columns.
fn has_any(tables: &[&[u8]], columns: &[Column]) -> bool
    ensures { result ≡ has_any (map (λ table. table.now) tables.now) (map column_by columns.now) }
{
    'columns: for column in columns {
        if has_table(tables, column) {
            return true;
        }
    }
    false
}

// Returns whether tables of a machine have what a rule speaks of.
fn speaks(wanted: &Wanted, tables: &[&[u8]], numbers: &[u64]) -> bool
    ensures { result ≡ speaks (wanted_by wanted.now) (map (λ table. table.now) tables.now) numbers.now }
{
    match *wanted {
        Wanted::OneOf(columns) => has_any(tables, columns),
        Wanted::Below(_) | Wanted::Index(_) => !numbers.is_empty(),
    }
}

fn greatest(numbers: &[u64]) -> u64
    ensures { result ≡ greatest numbers.now }
{
    let mut most = 0;
    'numbers: for number in numbers {
        if most < *number {
            most = *number;
        }
    }
    most
}

// ---- findings

// Adds that the number of a part isn't one of these.
fn check_defined<'a>(
    alloc: Global,
    link: &Link,
    numbers: &[u64],
    item: &Item<'a>,
    findings: &mut Vec<Finding<'a>>,
) -> Result<(), AllocError>
    ensures { OnOk result (map noted findings.new.items ≡ map noted findings.old.items
        ++ defined_findings (link_by link.now) numbers.now (item_by item.now)) }
{
    let number = whole_number(alloc, &link.column.high, item)?;
    if contains(numbers, number) {
        return Ok(());
    }
    let said = Said {
        section: link.section,
        number: 0,
        most: 0,
        other: link.other,
    };
    add_related(Rule::Defined, &said, &item.field, findings)
}

// Adds that the number of a part isn't below a limit.
fn check_below<'a>(
    alloc: Global,
    link: &Link,
    limit: u64,
    item: &Item<'a>,
    findings: &mut Vec<Finding<'a>>,
) -> Result<(), AllocError>
    ensures { OnOk result (map noted findings.new.items ≡ map noted findings.old.items
        ++ below_findings (link_by link.now) limit (item_by item.now)) }
{
    let number = whole_number(alloc, &link.column.high, item)?;
    if number < limit {
        return Ok(());
    }
    let said = Said {
        section: link.section,
        number: limit,
        most: number,
        other: link.other,
    };
    add_related(Rule::Below, &said, &item.field, findings)
}

fn check_all_defined<'a>(
    alloc: Global,
    link: &Link,
    numbers: &[u64],
    items: &[Item<'a>],
    findings: &mut Vec<Finding<'a>>,
) -> Result<(), AllocError>
    ensures { OnOk result (map noted findings.new.items ≡ map noted findings.old.items
        ++ flat_map (defined_findings (link_by link.now) numbers.now) (map item_by items.now)) }
{
    'items: for item in items {
        check_defined(alloc, link, numbers, item, findings)?;
    }
    Ok(())
}

fn check_all_below<'a>(
    alloc: Global,
    link: &Link,
    limit: u64,
    items: &[Item<'a>],
    findings: &mut Vec<Finding<'a>>,
) -> Result<(), AllocError>
    ensures { OnOk result (map noted findings.new.items ≡ map noted findings.old.items
        ++ flat_map (below_findings (link_by link.now) limit) (map item_by items.now)) }
{
    'items: for item in items {
        check_below(alloc, link, limit, item, findings)?;
    }
    Ok(())
}

// Adds what parts of a table break of a rule, where tables of the machine allow these numbers.
fn check_parts<'a>(
    alloc: Global,
    link: &Link,
    numbers: &[u64],
    items: &[Item<'a>],
    findings: &mut Vec<Finding<'a>>,
) -> Result<(), AllocError>
    ensures { OnOk result (map noted findings.new.items ≡ map noted findings.old.items
        ++ parts_findings (wanted_by link.now.wanted) (link_by link.now) numbers.now (map item_by items.now)) }
{
    match link.wanted {
        Wanted::OneOf(_) => check_all_defined(alloc, link, numbers, items, findings),
        Wanted::Below(_) | Wanted::Index(_) => {
            check_all_below(alloc, link, greatest(numbers), items, findings)
        }
    }
}

// Adds what a table with the signature of a rule breaks of it.
fn check_own<'a>(
    alloc: Global,
    link: &Link,
    tables: &[&[u8]],
    table: &'a [u8],
    findings: &mut Vec<Finding<'a>>,
) -> Result<(), AllocError>
    ensures { OnOk result (map noted findings.new.items ≡ map noted findings.old.items
        ++ own_findings (map (λ table. table.now) tables.now) table.now (link_by link.now)) }
{
    let numbers = numbers_for(alloc, &link.wanted, tables)?;
    if !speaks(&link.wanted, tables, &numbers) {
        return Ok(());
    }
    let items = column_items(alloc, &link.column, table)?;
    check_parts(alloc, link, &numbers, &items, findings)
}

// Adds what a table breaks of a rule, among the tables of its machine.
fn check_link<'a>(
    alloc: Global,
    link: &Link,
    tables: &[&[u8]],
    table: &'a [u8],
    findings: &mut Vec<Finding<'a>>,
) -> Result<(), AllocError>
    ensures { OnOk result (map noted findings.new.items ≡ map noted findings.old.items
        ++ link_findings (map (λ table. table.now) tables.now) table.now (link_by link.now)) }
{
    if is_of(&link.column, table) {
        return check_own(alloc, link, tables, table, findings);
    }
    Ok(())
}

/// Adds what a table breaks of rules, among the tables of its machine, in the order of the rules. The only error is that memory
/// ran out.
pub fn check_links<'a>(
    alloc: Global,
    rows: &[Link],
    tables: &[&[u8]],
    table: &'a [u8],
    findings: &mut Vec<Finding<'a>>,
) -> Result<(), AllocError>
    ensures { OnOk result (map noted findings.new.items ≡ map noted findings.old.items
        ++ links_findings (map link_by rows.now) (map (λ table. table.now) tables.now) table.now) }
{
    'rows: for row in rows {
        check_link(alloc, row, tables, table, findings)?;
    }
    Ok(())
}
