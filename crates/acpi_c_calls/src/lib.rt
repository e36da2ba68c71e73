//! What `acpi_c` offers to callers in C and Rust: checks, texts, tables and AML, with results that are numbers.
#![tactic(auto)]

mod add;
pub mod aml;
pub mod among;
pub mod begin;
pub mod block;
pub mod close;
pub mod compile;
pub mod fault;
pub mod field;
pub mod find;
pub mod findings;
pub mod finish;
pub mod formed;
pub mod give;
pub mod held;
pub mod image;
pub mod laws;
pub mod lay;
pub mod leaf;
pub mod make;
pub mod named;
pub mod names;
pub mod notes;
pub mod open;
mod over;
pub mod path;
pub mod put;
pub mod refused;
pub mod resource;
pub mod seal;
mod seek;
pub mod set;
pub mod show;
pub mod state;
pub mod structures;
pub mod table;
