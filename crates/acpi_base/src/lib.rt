//! The base of all other crates: sinks and objects, checksums, numbers, and system description tables.
#![tactic(auto)]

pub mod address;
pub mod buffer;
pub mod checksum;
pub mod constant;
mod derived;
pub mod digit;
pub mod error;
pub mod further_walk;
pub mod gas;
pub mod header;
pub mod laws;
pub mod number;
pub mod object;
pub mod oem;
pub mod parts;
pub mod patch;
pub mod pci;
pub mod record;
pub mod row;
pub mod sdt;
pub mod sink;
pub mod slice;
pub mod sum;
pub mod summed;
pub mod text;
pub mod value;
pub mod walk;
