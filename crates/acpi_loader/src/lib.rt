//! The files by which QEMU hands tables to firmware: tables without addresses, and the commands of a loader that puts them in.

#![tactic(auto)]

pub mod command;
pub mod fault;
pub mod laws;
pub mod loader;
mod places;
mod script;

pub use fault::LoaderFault;
pub use loader::{Loader, loader_of};
