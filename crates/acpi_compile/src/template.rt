//! Resource templates (ACPI 6.5, 6.4 and 19.6.117).

use crate::fault::{AslError, Why, fault};
use crate::item::{begins_group, is_of_group, item};
use crate::node::{Node, list_of};
use acpi_asl::template::is_template;
use std::alloc::Global;

// Adds the descriptor of a macro, and those in its braces. They are in braces to this depth.
#[cycle(items)]
fn push_item(
    alloc: Global,
    depth: usize,
    node: &Node<'_>,
    bytes: &mut Vec<u8>,
) -> Result<(), AslError> {
    let Some(depth) = depth.checked_sub(1) else {
        return Err(fault(node.at, Why::TooDeep));
    };
    let item = item(alloc, node)?;
    bytes.extend_from_slice(&item)?;
    if begins_group(node.word) {
        push_items(alloc, depth, list_of(&node.body), bytes)?;
    }
    Ok(())
}

#[cycle(items)]
fn push_items(
    alloc: Global,
    depth: usize,
    nodes: &[Node<'_>],
    bytes: &mut Vec<u8>,
) -> Result<(), AslError> {
    'items: for node in nodes {
        push_item(alloc, depth, node, bytes)?;
    }
    Ok(())
}

// Refuses the first macro that begins or ends a group, in a template where one has no end or no beginning.
fn check_groups(nodes: &[Node<'_>]) -> Result<(), AslError> {
    'items: for node in nodes {
        if is_of_group(node.word) {
            return Err(fault(node.at, Why::Group));
        }
    }
    Ok(())
}

/// The bytes of the descriptors of a template, and the end tag (ACPI 6.5, 6.4.2.9) with the checksum 0.
pub fn template(alloc: Global, nodes: &[Node<'_>]) -> Result<Vec<u8>, AslError> {
    let mut bytes = Vec::new(alloc);
    push_items(alloc, 2, nodes, &mut bytes)?;
    bytes.extend_from_slice(&[0x79, 0x00])?;
    if !is_template(&bytes) {
        check_groups(nodes)?;
    }
    Ok(bytes)
}
