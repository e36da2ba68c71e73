//! Tests of sinks that return errors: an object has then written a prefix of its bytes, and returns the sink's error. Structures
//! of DMAR and blocks of IVRS are also filled until they refuse a further part.
#![tactic(auto)]

#[cfg(test)]
mod aml;
#[cfg(test)]
mod arm;
#[cfg(test)]
mod channels;
#[cfg(test)]
mod fixed;
#[cfg(test)]
mod hest;
#[cfg(test)]
mod ivrs;
#[cfg(test)]
mod lists;
#[cfg(test)]
mod matrices;
#[cfg(test)]
mod nodes;
#[cfg(test)]
mod pc;
#[cfg(test)]
mod scoped;
#[cfg(test)]
mod short;
