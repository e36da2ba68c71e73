//! `acpiread`: input in parts, without an end or with errors, writers that fail, and words without a file.

mod reads;
mod writes;

/// A definition block with a package of 0 and 1.
pub const DSDT: [u8; 41] =
    *b"DSDT\x29\x00\x00\x00\x02\x41FOOBARCAFEDEAD\xef\xbe\xad\xdeRVAT\x00\x00\x00\x01\x12\x04\x02\x00\x01";
