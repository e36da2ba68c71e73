//! Tables that are lists of structures.
#![tactic(auto)]

pub mod cedt;
mod derived;
pub mod madt;
pub mod mcfg;
pub mod srat;
pub mod xsdt;

/// Laws about the tables. Each function is a law: it does nothing, and its `ensures` states the law.
pub mod laws {
    pub use crate::cedt::cedt_is_walked;
    pub use crate::derived::equal_values_are_the_same;
    pub use crate::madt::{madt_is_walked, madt_structures_are_pieces};
    pub use crate::mcfg::mcfg_is_walked;
    pub use crate::srat::srat_is_walked;
    pub use crate::xsdt::xsdt_is_walked;
}
