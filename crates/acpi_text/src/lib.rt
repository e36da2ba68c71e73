//! Tables as text: a line for each field, with its name and its bytes.

#![tactic(auto)]

pub mod comment;
pub mod form;
pub mod hex;
pub mod inner;
pub mod laws;
mod line;
pub mod note;
mod offset;
pub mod part;
pub mod piece;
pub mod size;
mod slot;
pub mod space;
pub mod table;
