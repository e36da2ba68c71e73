//! Tables that contain matrices.
#![tactic(auto)]

mod derived;
pub mod hmat;
pub mod slit;

/// Laws about the tables. Each function is a law: it does nothing, and its `ensures` states the law.
pub mod laws {
    pub use crate::derived::equal_values_are_the_same;
    pub use crate::hmat::{cells_are_set, cells_stand, hmat_is_walked, new_cells_are_unreachable};
    pub use crate::slit::{distances_are_set, distances_are_true, slit_is_valid};
}
