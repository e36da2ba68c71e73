//! The graph of the structures of a table in the language of graphviz. A function whose name begins with `push` adds to a text.

ghost use Rattle.std.specs.Prelude.{◌≡◌, ◌++◌, codes, IfOk, OnOk};
ghost use Rattle.std.specs.List.{flat_map};
ghost use Rattle.acpi_tree.specs.Dot.{name, label, arrow, node_dot, graph_dot, dot_text};
ghost use Rattle.std.specs.Fmt.{decimal};

use crate::graph::{Edge, Node, edges_of, nodes_of, targets_of};
use crate::tree::push_node;
use acpi_base::walk::Walk;
use acpi_json::number::push_size;
use std::alloc::{AllocError, Global};

fn push_name(node: &Node, text: &mut Vec<u8>) -> Result<(), AllocError>
    ensures { OnOk result (text.new.items ≡ text.old.items ++ name node.now) }
{
    text.extend_from_slice(b"  n")?;
    push_size(node.at, text)
}

// Adds the end of an arrow to a structure.
fn push_end(other: &Node, text: &mut Vec<u8>) -> Result<(), AllocError>
    ensures { OnOk result (text.new.items ≡ text.old.items ++ (codes " -> n" ++ decimal other.now.at ++ codes ";\n")) }
{
    text.extend_from_slice(b" -> n")?;
    push_size(other.at, text)?;
    text.extend_from_slice(b";\n")
}

fn push_arrow(
    nodes: &[Node],
    node: &Node,
    place: usize,
    text: &mut Vec<u8>,
) -> Result<(), AllocError>
    ensures { OnOk result (text.new.items ≡ text.old.items ++ arrow nodes.now node.now place) }
{
    let Some(other) = nodes.get(place) else {
        return Ok(());
    };
    push_name(node, text)?;
    push_end(other, text)
}

fn push_arrows(
    nodes: &[Node],
    node: &Node,
    places: &[usize],
    text: &mut Vec<u8>,
) -> Result<(), AllocError>
    ensures { OnOk result (text.new.items ≡ text.old.items ++ flat_map (arrow nodes.now node.now) places.now) }
{
    'places: for place in places {
        push_arrow(nodes, node, *place, text)?;
    }
    Ok(())
}

fn push_label(node: &Node, text: &mut Vec<u8>) -> Result<(), AllocError>
    ensures { OnOk result (text.new.items ≡ text.old.items ++ label node.now) }
{
    text.extend_from_slice(b" [label=\"")?;
    push_node(node, text)?;
    text.extend_from_slice(b"\"];\n")
}

fn push_node_dot(
    alloc: Global,
    nodes: &[Node],
    edges: &[Edge],
    node: &Node,
    text: &mut Vec<u8>,
) -> Result<(), AllocError>
    ensures { OnOk result (text.new.items ≡ text.old.items ++ node_dot nodes.now edges.now node.now) }
{
    let places = targets_of(alloc, nodes, edges, node)?;
    push_name(node, text)?;
    push_label(node, text)?;
    push_arrows(nodes, node, &places, text)
}

fn push_nodes(
    alloc: Global,
    nodes: &[Node],
    edges: &[Edge],
    all: &[Node],
    text: &mut Vec<u8>,
) -> Result<(), AllocError>
    ensures { OnOk result (text.new.items ≡ text.old.items ++ flat_map (node_dot nodes.now edges.now) all.now) }
{
    'nodes: for node in all {
        push_node_dot(alloc, nodes, edges, node, text)?;
    }
    Ok(())
}

/// Returns the graph of the structures of a table in the language of graphviz: a node for each, and an arrow to each structure to
/// which it refers.
pub fn dot_of(alloc: Global, walk: Walk, table: &[u8]) -> Result<Vec<u8>, AllocError>
    ensures { IfOk result (λ text. text.items ≡ dot_text walk table.now) }
{
    let nodes = nodes_of(alloc, walk, table)?;
    let edges = edges_of(alloc, walk, table)?;
    let mut text = Vec::new(alloc);
    text.extend_from_slice(b"digraph {\n")?;
    push_nodes(alloc, &nodes, &edges, &nodes, &mut text)?;
    text.extend_from_slice(b"}\n")?;
    Ok(text)
}
