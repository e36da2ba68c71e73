//! Which table lists the others.

/// The table that lists the others, by its signature.
#[derive(Clone, Copy, Debug, PartialEq)]
pub enum Root {
    /// The XSDT (ACPI 6.5, 5.2.8), to which an RSDP of revision 2 points. It has an address of 64 bits for each table.
    Xsdt,
    /// The RSDT (5.2.7), to which an RSDP of revision 0 or 1 points. It has an address of 32 bits for each table.
    Rsdt,
}
