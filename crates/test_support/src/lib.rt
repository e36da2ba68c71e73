//! Support for the test crates: the header's values, comparisons with expected values, and random changes of bytes.
#![tactic(auto)]

pub mod broken;
pub mod compare;
pub mod mutation;
pub mod object;
pub mod table;

pub use compare::{agree, equal, same};
pub use object::{all, bytes_of, makes, refuses, sized, writes, written};

pub const OEM: [u8; 6] = *b"FOOBAR";

pub const OEM_TABLE: [u8; 8] = *b"CAFEDEAD";

pub const OEM_REVISION: u32 = 0xdead_beef;
