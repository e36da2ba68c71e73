//! Reading: checking a table, finding its structures, reading AML terms, and reports of them as text.
#![tactic(auto)]

pub mod bytes;
pub mod laws;
pub mod pieces;
pub mod report;
pub mod table;
pub mod terms;
