//! AML and tables that are built call by call. A builder keeps its first error, and returns it at the end.
#![tactic(auto)]

pub mod block;
pub mod eisa_id;
pub mod error;
pub mod laws;
pub mod level;
pub mod table;
mod writer;
