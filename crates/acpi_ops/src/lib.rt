//! Operators of AML, and resource descriptors.
#![tactic(auto)]

pub mod address_space;
pub mod arithmetic;
pub mod bitwise;
pub mod clock;
pub mod comparison;
pub mod csi2;
mod derived;
pub mod descriptor;
pub mod element;
pub mod field;
pub mod gpio;
pub mod interrupts;
pub mod laws;
pub mod memory;
pub mod method;
pub mod objects;
pub mod operator;
pub mod package;
mod parts;
pub mod pins;
pub mod search;
pub mod serial;
pub mod small;
pub mod statement;
pub mod variable;
pub mod vendor;
