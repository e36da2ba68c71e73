//! Tables as JSON (RFC 8259): an object for each, with its fields and its structures by the same forms as its text.

#![tactic(auto)]

pub mod array;
pub mod field;
pub mod finding;
pub mod laws;
pub mod number;
pub mod string;
pub mod table;
pub mod value;
