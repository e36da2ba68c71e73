//! Tables of PCs that the Rust crate doesn't have.
#![tactic(auto)]

pub mod dmar;
pub mod erst;
pub mod fpdt;
pub mod ivrs;
pub mod nfit;
pub mod pcct;
pub mod rsdt;
mod tail;

/// Laws about the tables. Each function is a law: it does nothing, and its `ensures` states the law.
pub mod laws {
    pub use crate::dmar::{dmar_is_walked, dmar_scopes_are_read, dmar_structures_tell_kinds};
    pub use crate::erst::erst_is_walked;
    pub use crate::fpdt::fpdt_is_walked;
    pub use crate::ivrs::{ivrs_blocks_tell_kinds, ivrs_entries_are_read, ivrs_is_walked};
    pub use crate::nfit::{nfit_is_walked, nfit_lists_are_read, nfit_structures_tell_kinds};
    pub use crate::pcct::{pcct_is_walked, pcct_subspaces_tell_kinds};
    pub use crate::rsdt::rsdt_is_walked;
}
