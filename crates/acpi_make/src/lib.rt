//! Tables from texts: the bytes of a text that names fields and has their values.

#![tactic(auto)]

pub mod another;
mod blamed;
pub mod compare;
pub mod complete;
pub mod draft;
pub mod entry;
pub mod extent;
pub mod fault;
pub mod file_kind;
mod groups;
pub mod heading;
mod inner;
pub mod item;
pub mod lack;
pub mod laws;
pub mod make;
pub mod notes;
pub mod own;
pub mod read;
mod right;
mod run;
pub mod short;
pub mod signature;
pub mod state;
mod step;
pub mod template;
mod text;
mod value;
