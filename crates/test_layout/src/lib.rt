//! Tests of images: bytes and addresses from outside, worked out by hand from the layouts and not by this code.
#![tactic(auto)]

#[cfg(test)]
mod changed;
#[cfg(test)]
mod found;
#[cfg(test)]
mod large;
#[cfg(test)]
mod layout;
#[cfg(test)]
mod plain;
#[cfg(test)]
mod pointers;
#[cfg(test)]
mod ranges;
#[cfg(test)]
mod reduced;
#[cfg(test)]
mod rsdt;
