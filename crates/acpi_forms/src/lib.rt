//! The forms of tables: which fields, lists and structures each has, by the rows that its writer has.
#![tactic(auto)]

pub mod arm;
pub mod file;
pub mod fixed;
pub mod form;
pub mod further;
pub mod hest;
pub mod kind;
pub mod known;
pub mod layout;
pub mod lists;
pub mod make;
pub mod matrices;
pub mod nodes;
pub mod show;
pub mod words;
