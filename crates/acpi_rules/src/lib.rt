//! Rules of the standard that the bytes of one table break, or those of several tables of one machine.

#![tactic(auto)]

pub mod across;
pub mod allowed;
pub mod apart;
pub mod chain;
pub mod demand;
pub mod difference;
pub mod field;
pub mod finding;
pub mod item;
pub mod laws;
pub mod limit;
pub mod line;
pub mod link;
pub mod machine;
pub mod matrix;
pub mod numbers;
pub mod order;
pub mod part;
pub mod reference;
pub mod related;
pub mod relation;
pub mod rules;
pub mod sibling;
pub mod single;
pub mod standard;
pub mod table;
pub mod terminated;
