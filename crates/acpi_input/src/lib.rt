//! What the programs and the library for C are given: words that state numbers of arguments, and the bytes of files.
#![tactic(auto)]

pub mod file;
pub mod stated;
