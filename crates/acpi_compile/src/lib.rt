//! ASL as a text, made into the definition block that it is the ASL of (ACPI 6.5, chapter 19).
#![tactic(auto)]

mod alike;
mod argument;
pub mod block;
mod builder;
mod called;
mod constant;
mod declaration;
mod doubt;
mod entry;
pub mod fault;
mod item;
mod name;
mod node;
mod note;
mod number;
mod operand;
mod sized;
mod squeeze;
mod start;
mod stated;
mod template;
mod term;
mod word;
