//! Which structures of a table refer to which others, and which tables of an image point to which: as a tree, and as a graph for
//! graphviz.

#![tactic(auto)]

pub mod dot;
pub mod graph;
pub mod image;
pub mod laws;
pub mod named;
pub mod tree;
