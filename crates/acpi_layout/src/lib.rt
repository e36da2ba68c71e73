//! The tables of a guest at their addresses, in one image.
#![tactic(auto)]

mod apart;
pub mod check;
pub mod fault;
pub mod files;
mod found;
pub mod laws;
pub mod lay_fault;
pub mod layout;
pub mod located;
mod place;
pub mod range;
pub mod root;
pub mod rsdt;
pub mod rsdt_fault;
