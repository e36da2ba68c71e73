//! The table of structures: a header, fixed fields, and structures in order. Every table that has structures is made of it.
#![tactic(auto)]

pub(crate) mod count;
pub mod entries;
pub mod form;
pub mod kind;
pub mod laws;
pub mod listed;
pub mod settle;
pub mod structure;
pub mod table;
pub mod told;
pub mod walked;
