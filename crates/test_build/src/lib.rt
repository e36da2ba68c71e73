//! Tests of AML and tables that are built call by call, against bytes that were worked out by hand from the standard.
#![tactic(auto)]

#[cfg(test)]
mod blocks;
#[cfg(test)]
mod errors;
#[cfg(test)]
mod lengths;
#[cfg(test)]
mod standard;
#[cfg(test)]
mod tables;
