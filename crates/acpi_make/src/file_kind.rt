//! What a file of bytes is.

/// What bytes are, which says where they have a length and checksums.
#[derive(Clone, Copy, Debug, PartialEq, Eq)]
pub enum FileKind {
    /// A table with the standard header (ACPI 6.5, 5.2.6).
    Table,
    /// A Root System Description Pointer (ACPI 6.5, 5.2.5.3).
    Rsdp,
    /// A Firmware ACPI Control Structure (ACPI 6.5, 5.2.10).
    Facs,
    /// A Coherent Device Attribute Table (CDAT 1.03), which has no signature, and begins with its length.
    Cdat,
    /// An S3 Performance Table (ACPI 6.5, 5.2.24), which has a length and no checksum.
    S3pt,
}
