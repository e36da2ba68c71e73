//! The program `acpiread`, without its `main`.
#![tactic(auto)]

pub mod command;
pub mod fault;
pub mod input;
pub mod program;
pub mod report;
