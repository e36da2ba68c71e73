//! A structure of the System Resource Affinity Table that no library call writes: a port to which devices can be added.

use acpi_base::row::{Row, Word};

/// The rows of the Generic Port Affinity Structure before its handle (ACPI 6.5, 5.2.16.7). After the handle it is as a Generic
/// Initiator Affinity Structure.
pub const GENERIC_PORT_ROWS: [Row; 5] = [
    Row::Preset("Type", 1, 6),
    Row::Preset("Length", 1, 32),
    Row::Reserved(1),
    Row::OneOf("Device Handle Type", 1, &[Word(0, "ACPI"), Word(1, "PCI")]),
    Row::Number("Proximity Domain", 4),
];
