//! The numbers in a table by which it names parts of its machine, such as proximity domains and processors. A function whose name
//! begins with `push` adds to a list or a text.

ghost use Rattle.std.specs.Prelude.{◌≡◌, ◌++◌, map, IfOk, OnOk};
ghost use Rattle.std.specs.List.{flat_map};
ghost use Rattle.acpi_rules.specs.Across.{column_items};
ghost use Rattle.acpi_rules.specs.Item.{item_by};
ghost use Rattle.acpi_rules.specs.Link.{column_by, link_by};
ghost use Rattle.acpi_rules.specs.Machine.{affinities, named};
ghost use Rattle.acpi_tree.specs.Named.{high_of, high_items, link_items, named_in, is_inside, name_line, name_line_in};
ghost use Rattle.acpi_tree.specs.Named.{name_lines};

use crate::graph::Node;
use crate::tree::push_spaces;
use acpi_json::number::push_decimal;
use acpi_rules::across::column_items;
use acpi_rules::item::Item;
use acpi_rules::link::{Column, Link};
use acpi_rules::machine::{AFFINITIES, NAMED};
use acpi_rules::rules::number_of;
use std::alloc::{AllocError, Global};

fn push_items<'a>(found: &[Item<'a>], items: &mut Vec<Item<'a>>) -> Result<(), AllocError>
    ensures { OnOk result (map item_by items.new.items ≡ map item_by items.old.items ++ map item_by found.now) }
{
    'items: for item in found {
        items.push(*item)?;
    }
    Ok(())
}

// Returns the column of the fields that have the high bytes of a column's numbers.
fn high_of(column: &Column) -> Column
    ensures { column_by result ≡ high_of (column_by column.now) }
{
    Column {
        table: column.table,
        among: column.among,
        low: column.high,
        high: column.high,
    }
}

// Adds the fields that have the high bytes of a column's numbers, if there are any.
fn push_high<'a>(
    alloc: Global,
    table: &'a [u8],
    column: &Column,
    items: &mut Vec<Item<'a>>,
) -> Result<(), AllocError>
    ensures { OnOk result (map item_by items.new.items
        ≡ map item_by items.old.items ++ high_items table.now (column_by column.now)) }
{
    if column.high.width == 0 {
        return Ok(());
    }
    let found = column_items(alloc, &high_of(column), table)?;
    push_items(&found, items)
}

// Adds the numbers of a rule.
fn push_link<'a>(
    alloc: Global,
    table: &'a [u8],
    link: &Link,
    items: &mut Vec<Item<'a>>,
) -> Result<(), AllocError>
    ensures { OnOk result (map item_by items.new.items
        ≡ map item_by items.old.items ++ link_items table.now (link_by link.now)) }
{
    let found = column_items(alloc, &link.column, table)?;
    push_items(&found, items)?;
    push_high(alloc, table, &link.column, items)
}

fn push_links<'a>(
    alloc: Global,
    table: &'a [u8],
    links: &[Link],
    items: &mut Vec<Item<'a>>,
) -> Result<(), AllocError>
    ensures { OnOk result (map item_by items.new.items
        ≡ map item_by items.old.items ++ flat_map (link_items table.now) (map link_by links.now)) }
{
    'links: for link in links {
        push_link(alloc, table, link, items)?;
    }
    Ok(())
}

// Adds the numbers of processors and of proximity domains in a SRAT.
fn push_affinities<'a>(
    alloc: Global,
    table: &'a [u8],
    items: &mut Vec<Item<'a>>,
) -> Result<(), AllocError>
    ensures { OnOk result (map item_by items.new.items
        ≡ map item_by items.old.items ++ flat_map (link_items table.now) affinities) }
{
    push_links(alloc, table, &AFFINITIES, items)
}

// Adds the numbers of another table.
fn push_named<'a>(
    alloc: Global,
    table: &'a [u8],
    items: &mut Vec<Item<'a>>,
) -> Result<(), AllocError>
    ensures { OnOk result (map item_by items.new.items
        ≡ map item_by items.old.items ++ flat_map (link_items table.now) named) }
{
    push_links(alloc, table, &NAMED, items)
}

/// Returns the fields of a table with numbers of which the rules of `AFFINITIES` and of `NAMED` speak, in their order.
pub fn named_in<'a>(alloc: Global, table: &'a [u8]) -> Result<Vec<Item<'a>>, AllocError>
    ensures { IfOk result (λ items. map item_by items.items ≡ named_in table.now) }
{
    let mut items = Vec::new(alloc);
    push_affinities(alloc, table, &mut items)?;
    push_named(alloc, table, &mut items)?;
    Ok(items)
}

// Returns whether a field is in a structure.
fn is_inside(node: &Node, item: &Item<'_>) -> bool
    ensures { result ≡ is_inside node.now (item_by item.now) }
{
    if item.field.offset < node.at {
        return false;
    }
    item.field.offset - node.at < node.size
}

// Adds the line of a number: the name of its field, and the number.
fn push_name(depth: usize, item: &Item<'_>, text: &mut Vec<u8>) -> Result<(), AllocError>
    ensures { OnOk result (text.new.items ≡ text.old.items ++ name_line depth (item_by item.now)) }
{
    push_spaces(depth, text)?;
    text.extend_from_slice(b"  ")?;
    text.extend_from_slice(item.field.name.as_bytes())?;
    text.extend_from_slice(b" ")?;
    push_decimal(number_of(&item.field), text)?;
    text.extend_from_slice(b"\n")
}

// Adds the line of a number if its field is in a structure.
fn push_name_in(
    depth: usize,
    node: &Node,
    item: &Item<'_>,
    text: &mut Vec<u8>,
) -> Result<(), AllocError>
    ensures { OnOk result (text.new.items ≡ text.old.items ++ name_line_in depth node.now (item_by item.now)) }
{
    if is_inside(node, item) {
        return push_name(depth, item, text);
    }
    Ok(())
}

/// Adds a line for each of these numbers that is in a structure, two spaces further in than the structure.
pub fn push_names(
    depth: usize,
    node: &Node,
    items: &[Item<'_>],
    text: &mut Vec<u8>,
) -> Result<(), AllocError>
    ensures { OnOk result (text.new.items ≡ text.old.items ++ name_lines depth node.now (map item_by items.now)) }
{
    'items: for item in items {
        push_name_in(depth, node, item, text)?;
    }
    Ok(())
}
