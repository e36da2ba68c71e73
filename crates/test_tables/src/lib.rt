//! Tests of fixed tables and of lists, against bytes that were worked out by hand from the layouts.
#![tactic(auto)]

#[cfg(test)]
mod counts;
#[cfg(test)]
mod fixed;
#[cfg(test)]
mod hest;
#[cfg(test)]
mod lists;
#[cfg(test)]
mod numbers;
#[cfg(test)]
mod read_back;
#[cfg(test)]
mod rqsc;
