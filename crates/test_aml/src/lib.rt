//! Tests of AML and of tables with a header and the caller's content: bytes worked out by hand, and that each call succeeds if
//! there is memory.
#![tactic(auto)]

#[cfg(test)]
mod blocks;
#[cfg(test)]
mod buffers;
#[cfg(test)]
mod connections;
#[cfg(test)]
mod descriptors;
#[cfg(test)]
mod errors;
#[cfg(test)]
mod fields;
#[cfg(test)]
mod make;
#[cfg(test)]
mod numbers;
#[cfg(test)]
mod objects;
#[cfg(test)]
mod operators;
#[cfg(test)]
mod packages;
#[cfg(test)]
mod pins;
#[cfg(test)]
mod reading;
#[cfg(test)]
mod refusing;
#[cfg(test)]
mod sources;
#[cfg(test)]
mod spaces;
#[cfg(test)]
mod standard;
#[cfg(test)]
mod tables;
