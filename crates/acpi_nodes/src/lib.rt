//! Tables of nodes that refer to each other by offset.
#![tactic(auto)]

mod derived;
pub mod entries;
pub mod handle;
pub mod pci;
pub mod pptt;
pub mod rhct;
pub mod rimt;
pub mod viot;

/// Laws about the tables. Each function is a law: it does nothing, and its `ensures` states the law.
pub mod laws {
    pub use crate::derived::{defaults_are_these, equal_values_are_the_same};
    pub use crate::pptt::{pptt_is_walked, pptt_nodes_tell_kinds, pptt_references_are_read};
    pub use crate::rhct::{rhct_is_walked, rhct_nodes_tell_kinds, rhct_references_are_read};
    pub use crate::rimt::{rimt_devices_tell_kinds, rimt_is_walked, rimt_references_are_read};
    pub use crate::viot::{viot_is_walked, viot_nodes_tell_kinds, viot_references_are_read};
}
