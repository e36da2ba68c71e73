//! Definition blocks as ASL, the source language of ACPI (ACPI 6.5, chapter 19), and the objects that they make.
#![tactic(auto)]

mod absent;
pub mod asl;
pub mod block;
mod connection;
pub mod content;
pub mod descriptor;
mod eisa;
mod item;
mod list;
pub mod macros;
mod name;
pub mod namespace;
mod note;
pub mod number;
pub mod objects;
mod opening;
mod paths;
pub mod place;
mod room;
mod row;
mod special;
pub mod template;
mod unread;
pub mod word;
