//! Definition blocks as text: how many arguments methods take by them, and comments in the report of their terms.
#![tactic(auto)]

mod alias;
pub mod annotate;
pub mod block;
pub mod descriptor;
pub mod eisa;
pub mod id;
pub mod laws;
mod note;
pub mod objects;
pub mod path;
pub mod scoped;
pub mod uuid;
pub mod word;
