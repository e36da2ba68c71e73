//! Tables of error sources.
#![tactic(auto)]

mod counter;
mod derived;
pub mod hest;
mod parts;
pub mod rqsc;

/// Laws about the tables. Each function is a law: it does nothing, and its `ensures` states the law.
pub mod laws {
    pub use crate::derived::{defaults_are_these, equal_values_are_the_same};
    pub use crate::hest::{hest_is_walked, hest_sources_are_pieces};
    pub use crate::rqsc::rqsc_is_walked;
}
