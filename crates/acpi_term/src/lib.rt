//! The parts that AML and its reader share: terms, names, and errors of reading.
#![tactic(auto)]

pub mod apart;
mod arity_index;
mod derived;
pub mod language;
pub mod laws;
pub mod mode;
pub mod name_string;
pub mod op;
pub mod path_text;
pub mod read_error;
pub mod row;
pub mod segment;
pub mod spell;
pub mod term;
