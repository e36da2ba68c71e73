//! HMAT and SLIT, against bytes that were worked out by hand from the layouts.

pub mod hmat;
mod large;
pub mod localities;
mod side_caches;
mod slit;
