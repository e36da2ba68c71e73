//! ACPI dumps as text: the hexadecimal lines of `acpidump`, read into tables, each with its title and its bytes.

#![tactic(auto)]

mod digits;
pub mod dump;
pub mod fault;
pub mod laws;
mod line;
mod lines;

pub use dump::{Dumped, is_dump, tables_of};
pub use fault::DumpFault;
