//! AML objects: names, scopes, devices, methods, packages, buffers, fields and statements.
#![tactic(auto)]

pub mod buffer;
pub mod builder;
pub mod control;
mod derived;
pub mod eisa;
pub mod field;
mod hex;
pub mod laws;
pub mod method;
pub mod mutex;
pub mod name;
pub mod name_text;
pub mod package;
pub mod path;
pub mod region;
pub mod scope;
pub mod uuid;
pub mod written;
