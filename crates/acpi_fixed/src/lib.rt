//! Records and tables with a fixed layout. No call of this crate takes memory.
#![tactic(auto)]

pub mod bert;
pub mod bgrt;
mod derived;
pub mod facs;
pub mod fadt;
pub mod hpet;
pub mod laws;
pub mod rsdp;
pub mod sealed;
pub mod spcr;
pub mod tpm2;
pub mod waet;
pub mod wsmt;
