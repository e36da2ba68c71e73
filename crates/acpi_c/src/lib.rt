//! Checks, texts, tables and AML for callers in C and Rust. Callers call the functions of `include/hyssop.h`, which says what
//! they owe. Each function of `c/hyssop.c` replaces NULL, and then calls the function of this crate with `export` in its name.
#![tactic(auto)]

mod descriptor;
mod field;
mod open;
mod read;
mod table;
mod write;
