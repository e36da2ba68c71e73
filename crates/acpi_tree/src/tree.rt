//! The tree of the structures of a table. A function whose name begins with `push` adds to lines or to a text.

ghost use Rattle.std.specs.Prelude.{◌≡◌, ◌+◌, ◌<◌, ◌^◌, ◌++◌, ◌∷◌, [], length, map, Some, codes, IfOk, OnOk};
ghost use Rattle.std.specs.Fmt.{decimal};
ghost use Rattle.std.specs.List.{flat_map};
ghost use Rattle.acpi_tree.specs.Tree.{line, has_full, walk, visit, levels, visit_new, places_from, roots_from, tree_lines};
ghost use Rattle.acpi_rules.specs.Item.{item_by};
ghost use Rattle.acpi_tree.specs.Spaces.{spaces};
ghost use Rattle.acpi_tree.specs.Tree.{size_text, type_text, node_text, shown, names_of};
ghost use Rattle.acpi_tree.specs.Tree.{line_of, line_text, lines_text, tree_text};

use crate::graph::{Edge, Node, edges_of, is_target, nodes_of, targets};
use crate::named::{named_in, push_names};
use acpi_base::walk::Walk;
use acpi_json::number::push_size;
use acpi_rules::item::Item;
use std::alloc::{AllocError, Global};

/// A line of a tree.
#[derive(Clone, Copy, Debug)]
pub struct Line {
    /// How many structures it is below.
    pub depth: usize,
    /// The place of its structure in the list of all.
    pub index: usize,
    /// Whether the structure is shown in full. Otherwise it is in a line above.
    pub full: bool,
}

// Returns whether the structure at a place is shown in full by one of these lines.
fn has_full(lines: &[Line], index: usize) -> bool
    ensures { result ≡ has_full lines.now index }
{
    'lines: for line in lines {
        if line.full && line.index == index {
            return true;
        }
    }
    false
}

fn push_line(
    depth: usize,
    index: usize,
    full: bool,
    lines: &mut Vec<Line>,
) -> Result<(), AllocError>
    ensures { OnOk result (lines.new.items ≡ lines.old.items ++ line depth index full ∷ []) }
{
    lines.push(Line { depth, index, full })?;
    Ok(())
}

// Adds a structure, and those to which it refers, up to this many levels.
#[cycle(visit)]
fn visit(
    alloc: Global,
    nodes: &[Node],
    edges: &[Edge],
    levels: usize,
    depth: usize,
    index: usize,
    lines: &mut Vec<Line>,
) -> Result<(), AllocError>
    requires { depth + levels < 2 ^ 64 }
    ensures { OnOk result (lines.new.items ≡ lines.old.items
        ++ visit nodes.now edges.now levels depth lines.old.items index) }
{
    if levels == 0 {
        return Ok(());
    }
    if has_full(lines, index) {
        return push_line(depth, index, false, lines);
    }
    push_line(depth, index, true, lines)?;
    let below = targets(alloc, nodes, edges, index)?;
    visit_all(alloc, nodes, edges, levels - 1, depth + 1, &below, lines)?;
    Ok(())
}

#[cycle(visit)]
fn visit_all(
    alloc: Global,
    nodes: &[Node],
    edges: &[Edge],
    levels: usize,
    depth: usize,
    places: &[usize],
    lines: &mut Vec<Line>,
) -> Result<(), AllocError>
    requires { depth + levels < 2 ^ 64 }
    ensures { OnOk result (lines.new.items ≡ lines.old.items
        ++ walk (visit nodes.now edges.now levels depth) lines.old.items places.now) }
{
    'places: for place in places {
        visit(alloc, nodes, edges, levels, depth, *place, lines)?;
    }
    Ok(())
}

// Returns how many levels there are at most.
fn levels(nodes: &[Node]) -> usize
    ensures { result ≡ levels nodes.now }
{
    if nodes.len() < 255 { nodes.len() } else { 255 }
}

// Adds a structure at the left margin, unless it was shown.
fn visit_new(
    alloc: Global,
    nodes: &[Node],
    edges: &[Edge],
    index: usize,
    lines: &mut Vec<Line>,
) -> Result<(), AllocError>
    ensures { OnOk result (lines.new.items ≡ lines.old.items
        ++ visit_new nodes.now edges.now lines.old.items index) }
{
    if has_full(lines, index) {
        return Ok(());
    }
    visit(alloc, nodes, edges, levels(nodes), 0, index, lines)
}

// Adds the places of the structures to which none refers.
fn push_roots(nodes: &[Node], edges: &[Edge], places: &mut Vec<usize>) -> Result<(), AllocError>
    ensures { OnOk result (places.new.items ≡ places.old.items ++ roots_from 0 edges.now nodes.now) }
{
    let mut place = 0;
    'nodes: for node in nodes {
        if !is_target(edges, node.at) {
            places.push(place)?;
        }
        place += 1;
    }
    Ok(())
}

// Adds the places of all structures.
fn push_places(nodes: &[Node], places: &mut Vec<usize>) -> Result<(), AllocError>
    ensures { OnOk result (places.new.items ≡ places.old.items ++ places_from 0 nodes.now) }
{
    let mut place = 0;
    'nodes: for _ in nodes {
        places.push(place)?;
        place += 1;
    }
    Ok(())
}

// Returns the places at which the tree begins: those to which none refers, and then all.
fn order_of(alloc: Global, nodes: &[Node], edges: &[Edge]) -> Result<Vec<usize>, AllocError>
    ensures { IfOk result (λ places. places.items ≡ roots_from 0 edges.now nodes.now ++ places_from 0 nodes.now) }
{
    let mut places = Vec::new(alloc);
    push_roots(nodes, edges, &mut places)?;
    push_places(nodes, &mut places)?;
    Ok(places)
}

/// Returns the lines of a tree: each structure in full once, and below it those to which it refers. A structure to which none
/// refers begins at the left margin.
pub fn tree_lines(alloc: Global, nodes: &[Node], edges: &[Edge]) -> Result<Vec<Line>, AllocError>
    ensures { IfOk result (λ lines. lines.items ≡ tree_lines nodes.now edges.now) }
{
    let places = order_of(alloc, nodes, edges)?;
    let mut lines = Vec::new(alloc);
    'places: for place in &places {
        visit_new(alloc, nodes, edges, *place, &mut lines)?;
    }
    Ok(lines)
}

// ---- the text

fn push_node_size(node: &Node, text: &mut Vec<u8>) -> Result<(), AllocError>
    ensures { OnOk result (text.new.items ≡ text.old.items ++ size_text node.now) }
{
    text.extend_from_slice(b" size ")?;
    push_size(node.size, text)
}

fn push_type(node: &Node, text: &mut Vec<u8>) -> Result<(), AllocError>
    ensures { OnOk result (text.new.items ≡ text.old.items ++ type_text node.now) }
{
    text.extend_from_slice(b" type ")?;
    push_size(node.kind, text)
}

/// Adds a structure: its offset, its type and its size.
pub fn push_node(node: &Node, text: &mut Vec<u8>) -> Result<(), AllocError>
    ensures { OnOk result (text.new.items ≡ text.old.items ++ node_text node.now) }
{
    push_size(node.at, text)?;
    push_type(node, text)?;
    push_node_size(node, text)
}

/// Adds two spaces for each level.
#[cycle(spaces)]
pub fn push_spaces(depth: usize, text: &mut Vec<u8>) -> Result<(), AllocError>
    ensures { OnOk result (text.new.items ≡ text.old.items ++ spaces depth) }
{
    if depth == 0 {
        return Ok(());
    }
    text.extend_from_slice(b"  ")?;
    push_spaces(depth - 1, text)?;
    Ok(())
}

fn push_shown(full: bool, node: &Node, text: &mut Vec<u8>) -> Result<(), AllocError>
    ensures { OnOk result (text.new.items ≡ text.old.items ++ shown full node.now) }
{
    if full {
        return push_node(node, text);
    }
    push_size(node.at, text)?;
    text.extend_from_slice(b" above")
}

// Adds the numbers in a structure that other tables define, if it is shown in full.
fn push_names_of(
    items: &[Item<'_>],
    line: &Line,
    node: &Node,
    text: &mut Vec<u8>,
) -> Result<(), AllocError>
    ensures { OnOk result (text.new.items ≡ text.old.items
        ++ names_of (map item_by items.now) line.now.depth line.now.full node.now) }
{
    if line.full {
        return push_names(line.depth, node, items, text);
    }
    Ok(())
}

// Adds the lines of a structure.
fn push_line_of(
    items: &[Item<'_>],
    line: &Line,
    node: &Node,
    text: &mut Vec<u8>,
) -> Result<(), AllocError>
    ensures { OnOk result (text.new.items ≡ text.old.items ++ line_of (map item_by items.now) line.now (Some node.now)) }
{
    push_spaces(line.depth, text)?;
    push_shown(line.full, node, text)?;
    text.extend_from_slice(b"\n")?;
    push_names_of(items, line, node, text)
}

fn push_line_text(
    items: &[Item<'_>],
    nodes: &[Node],
    line: &Line,
    text: &mut Vec<u8>,
) -> Result<(), AllocError>
    ensures { OnOk result (text.new.items ≡ text.old.items ++ line_text (map item_by items.now) nodes.now line.now) }
{
    match nodes.get(line.index) {
        Some(node) => push_line_of(items, line, node, text),
        None => Ok(()),
    }
}

fn push_lines(
    items: &[Item<'_>],
    nodes: &[Node],
    lines: &[Line],
    text: &mut Vec<u8>,
) -> Result<(), AllocError>
    ensures { OnOk result (text.new.items ≡ text.old.items ++ lines_text (map item_by items.now) nodes.now lines.now) }
{
    'lines: for line in lines {
        push_line_text(items, nodes, line, text)?;
    }
    Ok(())
}

/// Returns the tree of the structures of a table: a line for each, with its offset, its type and its size. Below a structure, two
/// spaces further in, are the numbers in it that other tables define, and then the structures to which it refers. One that was
/// shown before has a line that says so.
pub fn tree_of(alloc: Global, walk: Walk, table: &[u8]) -> Result<Vec<u8>, AllocError>
    ensures { IfOk result (λ text. text.items ≡ tree_text walk table.now) }
{
    let nodes = nodes_of(alloc, walk, table)?;
    let edges = edges_of(alloc, walk, table)?;
    let lines = tree_lines(alloc, &nodes, &edges)?;
    let items = named_in(alloc, table)?;
    let mut text = Vec::new(alloc);
    push_lines(&items, &nodes, &lines, &mut text)?;
    Ok(text)
}
