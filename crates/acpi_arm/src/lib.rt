//! The tables that only Arm machines have.
#![tactic(auto)]

pub mod dbg2;
pub mod gtdt;
pub mod handle;
pub mod iort;
mod offsets;

/// Laws about the tables. Each function is a law: it does nothing, and its `ensures` states the law.
pub mod laws {
    pub use crate::dbg2::{dbg2_devices_are_read, dbg2_is_walked};
    pub use crate::gtdt::{earlier_gtdts_are_true, gtdt_is_walked, gtdt_timers_are_read};
    pub use crate::iort::{
        iort_identifiers_are_read, iort_is_walked, iort_lists_are_read, iort_nodes_tell_kinds,
        iort_references_are_read,
    };
}
