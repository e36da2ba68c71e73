//! Where a table is.

/// A table of an image.
#[derive(Clone, Copy, Debug, PartialEq)]
pub struct Located {
    /// The physical address of its first byte.
    pub address: u64,
    /// The number of its bytes.
    pub length: u32,
    /// Its first four bytes: the signature (ACPI 6.5, 5.2.6), and `RSD ` of an RSDP.
    pub signature: [u8; 4],
}
