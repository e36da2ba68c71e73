//! The iSCSI Boot Firmware Table.

use acpi_base::header::HEADER;
use acpi_base::row::{Bits, Row};
use acpi_text::form::{Inner, Part, TableForm};

const IBFT_FIXED: [Row; 1] = [Row::Reserved(12)];

const CONTROL_FLAGS: [Bits; 1] = [Bits::Flag(0x1, "Boot Failover")];

const CONTROL: [Row; 11] = [
    Row::Preset("Structure ID", 1, 1),
    Row::Preset("Version", 1, 1),
    Row::Preset("Length", 2, 18),
    Row::Hex("Index", 1),
    Row::Flags("Flags", 1, &CONTROL_FLAGS),
    Row::Hex("Extensions", 2),
    Row::Number("Initiator Offset", 2),
    Row::Number("NIC0 Offset", 2),
    Row::Number("Target0 Offset", 2),
    Row::Number("NIC1 Offset", 2),
    Row::Number("Target1 Offset", 2),
];

/// The iSCSI Boot Firmware Table (Microsoft, iSCSI Boot Firmware Table 1.02). The structures stand at the offsets of the control
/// structure, in any order and with bytes between them, so they have no names here.
pub const IBFT: TableForm = TableForm {
    name: "iSCSI Boot Firmware Table (iBFT)",
    parts: &[
        Part::Fields(&HEADER),
        Part::Fields(&IBFT_FIXED),
        Part::Group("Control Structure", &CONTROL),
    ],
    structures: &[],
    further: &[],
    inner: &Inner::Nothing,
};
