//! The Non-HD Audio Link Table.

use acpi_base::header::HEADER;
use acpi_base::row::{Row, Word};
use acpi_base::walk::{Place, Sizes};
use acpi_text::form::{Count, Inner, InnerForm, InnerList, InnerSize, Part, Start, TableForm};

const NHLT_FIXED: [Row; 1] = [Row::Number("Endpoint Count", 1)];

const LINK_TYPES: [Word; 7] = [
    Word(0, "HD Audio"),
    Word(1, "DSP"),
    Word(2, "PDM"),
    Word(3, "SSP"),
    Word(4, "SlimBus"),
    Word(5, "SoundWire"),
    Word(6, "UAOL"),
];

const DIRECTIONS: [Word; 2] = [Word(0, "Render"), Word(1, "Capture")];

const ENDPOINT: [Row; 11] = [
    Row::Number("Endpoint Descriptor Length", 4),
    Row::OneOf("Link Type", 1, &LINK_TYPES),
    Row::Hex("Instance ID", 1),
    Row::Hex("Vendor ID", 2),
    Row::Hex("Device ID", 2),
    Row::Hex("Revision ID", 2),
    Row::Hex("Subsystem ID", 4),
    Row::Hex("Device Type", 1),
    Row::OneOf("Direction", 1, &DIRECTIONS),
    Row::Hex("Virtual Bus ID", 1),
    Row::Number("Capabilities Size", 4),
];

const CONFIGURATION: [Row; 1] = [Row::Number("OED Capabilities Size", 4)];

// The endpoints, and the configuration that the driver offloads.
const LISTS: [InnerList; 2] = [
    InnerList {
        count: Count::Field(Place::Byte(36)),
        kind: Place::Nowhere,
        forms: &[InnerForm {
            number: 0,
            name: "Endpoint Descriptor",
            size: InnerSize::Walked(Sizes::ToldAt(Place::DWord(0))),
            parts: &[
                Part::Fields(&ENDPOINT),
                Part::Bytes("Endpoint Capabilities", Place::DWord(19)),
                Part::Until("Formats Configuration", Place::DWord(0)),
            ],
        }],
    },
    InnerList {
        count: Count::Once,
        kind: Place::Nowhere,
        forms: &[InnerForm {
            number: 0,
            name: "OED Configuration",
            size: InnerSize::Counted(4, Place::DWord(0), 1),
            parts: &[
                Part::Fields(&CONFIGURATION),
                Part::Bytes("OED Capabilities", Place::DWord(0)),
            ],
        }],
    },
];

/// The Non-HD Audio Link Table (Intel, Non HD Audio ACPI Specification). The names are from memory. The formats of an endpoint,
/// and the devices that may follow them, are bytes here: their place depends on the length of the capabilities before them.
pub const NHLT: TableForm = TableForm {
    name: "Non-HD Audio Link Table (NHLT)",
    parts: &[Part::Fields(&HEADER), Part::Fields(&NHLT_FIXED)],
    structures: &[],
    further: &[],
    inner: &Inner::Lists(Start::At(37), &LISTS),
};
