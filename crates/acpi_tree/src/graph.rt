//! The structures of a table, and which of them refer to which others.

ghost use Rattle.std.specs.Prelude.{◌≡◌, ◌++◌, map, Some, IfOk, OnOk};
ghost use Rattle.std.specs.List.{flat_map};
ghost use Rattle.acpi_rules.specs.Demand.{demand_by, relation_by};
ghost use Rattle.acpi_rules.specs.Item.{item_by};
ghost use Rattle.acpi_rules.specs.Standard.{referred};
ghost use Rattle.acpi_tree.specs.Graph.{node_of, nodes_of, edge_of, is_pointing, rule_edges, edges_of, is_in, place_from};
ghost use Rattle.acpi_tree.specs.Graph.{edge_targets, targets_of, targets, is_target};

use acpi_base::walk::{Place, Walk};
use acpi_rules::demand::{Among, Demand, Of, Relation, When};
use acpi_rules::item::{Item, items_of};
use acpi_rules::reference::START;
use acpi_rules::rules::{number_of, signature_of};
use acpi_rules::standard::REFERRED;
use acpi_text::part::number_at;
use std::alloc::{AllocError, Global};

/// A structure of a table.
#[derive(Clone, Copy, Debug)]
pub struct Node {
    /// Its offset in the table.
    pub at: usize,
    /// The number of its bytes.
    pub size: usize,
    /// Its type, or 0 if it has none.
    pub kind: usize,
}

/// A reference to a structure.
#[derive(Clone, Copy, Debug)]
pub struct Edge {
    /// The offset of its field in the table.
    pub at: usize,
    /// The number in the field: the offset of the structure to which it leads.
    pub to: u64,
}

// Each structure of a table.
const EACH: Among = Among {
    of: Of::Each,
    when: When::Always,
};

fn node_of(kind: Place, item: &Item<'_>) -> Node
    ensures { result ≡ node_of kind (item_by item.now) }
{
    Node {
        at: item.field.offset,
        size: item.bytes.len(),
        kind: number_at(kind, item.bytes),
    }
}

/// Returns the structures of a table, as far as they can be found, in the order of their offsets.
pub fn nodes_of(alloc: Global, walk: Walk, table: &[u8]) -> Result<Vec<Node>, AllocError>
    ensures { IfOk result (λ nodes. nodes.items ≡ nodes_of walk table.now) }
{
    let items = items_of(alloc, &EACH, &START, Some(walk), table)?;
    let mut nodes = Vec::new(alloc);
    'items: for item in &items {
        nodes.push(node_of(walk.kind, item))?;
    }
    Ok(nodes)
}

fn edge_of(item: &Item<'_>) -> Edge
    ensures { result ≡ edge_of (item_by item.now) }
{
    Edge {
        at: item.field.offset,
        to: number_of(&item.field),
    }
}

// Returns whether a rule says that a field has the offset of a structure.
fn is_pointing(demand: &Demand) -> bool
    ensures { result ≡ is_pointing (demand_by demand.now) }
{
    match demand {
        Demand::Points(_) => true,
        _ => false,
    }
}

fn push_edges(items: &[Item<'_>], edges: &mut Vec<Edge>) -> Result<(), AllocError>
    ensures { OnOk result (edges.new.items ≡ edges.old.items ++ map edge_of (map item_by items.now)) }
{
    'items: for item in items {
        edges.push(edge_of(item))?;
    }
    Ok(())
}

// Adds the references of a rule.
fn push_rule(
    alloc: Global,
    walk: Walk,
    table: &[u8],
    row: &Relation,
    edges: &mut Vec<Edge>,
) -> Result<(), AllocError>
    ensures { OnOk result (edges.new.items ≡ edges.old.items ++ rule_edges walk table.now (relation_by row.now)) }
{
    if row.table.as_bytes() == signature_of(table) && is_pointing(&row.demand) {
        let items = items_of(alloc, &row.among, &row.spot, Some(walk), table)?;
        push_edges(&items, edges)?;
    }
    Ok(())
}

fn push_rules(
    alloc: Global,
    walk: Walk,
    table: &[u8],
    rows: &[Relation],
    edges: &mut Vec<Edge>,
) -> Result<(), AllocError>
    ensures { OnOk result (edges.new.items ≡ edges.old.items ++ flat_map (rule_edges walk table.now) (map relation_by rows.now)) }
{
    'rows: for row in rows {
        push_rule(alloc, walk, table, row, edges)?;
    }
    Ok(())
}

// Adds the references of a table.
fn push_referred(
    alloc: Global,
    walk: Walk,
    table: &[u8],
    edges: &mut Vec<Edge>,
) -> Result<(), AllocError>
    ensures { OnOk result (edges.new.items ≡ edges.old.items ++ flat_map (rule_edges walk table.now) referred) }
{
    push_rules(alloc, walk, table, &REFERRED, edges)
}

/// Returns the references of a table, by the rules of the standard on them, in the order of the rules.
pub fn edges_of(alloc: Global, walk: Walk, table: &[u8]) -> Result<Vec<Edge>, AllocError>
    ensures { IfOk result (λ edges. edges.items ≡ edges_of walk table.now) }
{
    let mut edges = Vec::new(alloc);
    push_referred(alloc, walk, table, &mut edges)?;
    Ok(edges)
}

// Returns whether a reference is in a field of a structure.
fn is_in(node: &Node, edge: &Edge) -> bool
    ensures { result ≡ is_in node.now edge.now }
{
    node.at <= edge.at && edge.at - node.at < node.size
}

// Adds the place of the structure at an offset, if there is one.
fn push_place(at: u64, nodes: &[Node], places: &mut Vec<usize>) -> Result<(), AllocError>
    ensures { OnOk result (places.new.items ≡ places.old.items ++ place_from 0 at nodes.now) }
{
    let mut place = 0;
    'nodes: for node in nodes {
        if node.at as u64 == at {
            places.push(place)?;
            return Ok(());
        }
        place += 1;
    }
    Ok(())
}

fn push_target(
    nodes: &[Node],
    node: &Node,
    edge: &Edge,
    places: &mut Vec<usize>,
) -> Result<(), AllocError>
    ensures { OnOk result (places.new.items ≡ places.old.items ++ edge_targets nodes.now node.now edge.now) }
{
    if is_in(node, edge) {
        return push_place(edge.to, nodes, places);
    }
    Ok(())
}

/// Returns the places of the structures to which a structure refers, in the order of the references.
pub fn targets_of(
    alloc: Global,
    nodes: &[Node],
    edges: &[Edge],
    node: &Node,
) -> Result<Vec<usize>, AllocError>
    ensures { IfOk result (λ places. places.items ≡ targets_of nodes.now edges.now (Some node.now)) }
{
    let mut places = Vec::new(alloc);
    'edges: for edge in edges {
        push_target(nodes, node, edge, &mut places)?;
    }
    Ok(places)
}

/// Returns the places of the structures to which the structure at a place refers.
pub fn targets(
    alloc: Global,
    nodes: &[Node],
    edges: &[Edge],
    index: usize,
) -> Result<Vec<usize>, AllocError>
    ensures { IfOk result (λ places. places.items ≡ targets nodes.now edges.now index) }
{
    match nodes.get(index) {
        Some(node) => targets_of(alloc, nodes, edges, node),
        None => Ok(Vec::new(alloc)),
    }
}

/// Returns whether a reference leads to an offset.
pub fn is_target(edges: &[Edge], at: usize) -> bool
    ensures { result ≡ is_target edges.now at }
{
    'edges: for edge in edges {
        if edge.to == at as u64 {
            return true;
        }
    }
    false
}
