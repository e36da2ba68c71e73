//! The Coherent Device Attribute Table.

ghost use Rattle.std.specs.Prelude.{◌≡◌};
ghost use Rattle.acpi_forms.specs.FurtherNames.{cdat_names};
ghost use Rattle.acpi_forms.specs.Name.{IsNamed};
ghost use Rattle.acpi_forms.specs.Walks.{cdat_walk};

use acpi_base::row::{Bits, Row, Word};
use acpi_base::walk::{Place, Sizes, Walk};
use acpi_text::form::{Count, Inner, Part, StructureForm, TableForm};

const CDAT_HEADER: [Row; 5] = [
    Row::Number("Length", 4),
    Row::Preset("Revision", 1, 1),
    Row::Hex("Checksum", 1),
    Row::Reserved(6),
    Row::Number("Sequence", 4),
];

const RANGE: [Row; 8] = [
    Row::Preset("Type", 1, 0),
    Row::Reserved(1),
    Row::Preset("Length", 2, 24),
    Row::Number("DSMADHandle", 1),
    Row::Flags(
        "Flags",
        1,
        &[
            Bits::Flag(0x4, "Non-volatile"),
            Bits::Flag(0x8, "Shareable"),
            Bits::Flag(0x10, "Hardware Managed Coherency"),
            Bits::Flag(0x20, "Dynamic Capacity"),
            Bits::Flag(0x40, "Read-only"),
        ],
    ),
    Row::Reserved(2),
    Row::Hex("DPA Base", 8),
    Row::Hex("DPA Length", 8),
];

// What the entries are of, as in HMAT.
const DATA_TYPES: [Word; 6] = [
    Word(0, "Access Latency"),
    Word(1, "Read Latency"),
    Word(2, "Write Latency"),
    Word(3, "Access Bandwidth"),
    Word(4, "Read Bandwidth"),
    Word(5, "Write Bandwidth"),
];

const HIERARCHIES: [Word; 4] = [
    Word(0x0, "Memory"),
    Word(0x1, "First Level Memory Side Cache"),
    Word(0x2, "Second Level Memory Side Cache"),
    Word(0x3, "Third Level Memory Side Cache"),
];

const LATENCY: [Row; 12] = [
    Row::Preset("Type", 1, 1),
    Row::Reserved(1),
    Row::Preset("Length", 2, 24),
    Row::Number("Handle", 1),
    Row::Flags("Flags", 1, &[Bits::OneOf(0xf, &HIERARCHIES)]),
    Row::OneOf("Data Type", 1, &DATA_TYPES),
    Row::Reserved(1),
    Row::Number("Entry Base Unit", 8),
    Row::Number("Entry 0", 2),
    Row::Number("Entry 1", 2),
    Row::Number("Entry 2", 2),
    Row::Reserved(2),
];

const CACHE: [Row; 7] = [
    Row::Preset("Type", 1, 2),
    Row::Reserved(1),
    Row::Preset("Length", 2, 20),
    Row::Number("DSMAS Handle", 1),
    Row::Reserved(3),
    Row::Number("Memory Side Cache Size", 8),
    Row::Flags(
        "Cache Attributes",
        4,
        &[
            Bits::Number(0xf, 0x1, "Total Cache Levels"),
            Bits::Number(0xf0, 0x10, "Cache Level"),
            Bits::OneOf(
                0xf00,
                &[
                    Word(0x0, "Cache Associativity None"),
                    Word(0x100, "Direct Mapped"),
                    Word(0x200, "Complex Cache Indexing"),
                ],
            ),
            Bits::OneOf(
                0xf000,
                &[
                    Word(0x0, "Write Policy None"),
                    Word(0x1000, "Write Back"),
                    Word(0x2000, "Write Through"),
                ],
            ),
            Bits::Number(0xffff0000, 0x10000, "Cache Line Size"),
        ],
    ),
];

const INITIATOR: [Row; 6] = [
    Row::Preset("Type", 1, 3),
    Row::Reserved(1),
    Row::Preset("Length", 2, 8),
    Row::Flags("Flags", 1, &[Bits::Flag(0x1, "Memory Attached")]),
    Row::Number("Handle", 1),
    Row::Reserved(2),
];

const MEMORY_TYPES: [Word; 3] = [
    Word(0, "EfiConventionalMemory"),
    Word(1, "EfiConventionalMemory with EFI_MEMORY_SP"),
    Word(2, "EfiReservedMemoryType"),
];

const MEMORY: [Row; 8] = [
    Row::Preset("Type", 1, 4),
    Row::Reserved(1),
    Row::Preset("Length", 2, 24),
    Row::Number("DSMAS Handle", 1),
    Row::OneOf("EFI Memory Type and Attribute", 1, &MEMORY_TYPES),
    Row::Reserved(2),
    Row::Hex("DPA Offset", 8),
    Row::Hex("DPA Length", 8),
];

const SWITCH: [Row; 6] = [
    Row::Preset("Type", 1, 5),
    Row::Reserved(1),
    Row::Number("Length", 2),
    Row::OneOf("Data Type", 1, &DATA_TYPES),
    Row::Reserved(3),
    Row::Number("Entry Base Unit", 8),
];

const PORTS: [Row; 4] = [
    Row::Hex("Port X ID", 2),
    Row::Hex("Port Y ID", 2),
    Row::Number("Latency or Bandwidth", 2),
    Row::Reserved(2),
];

const CDAT_STRUCTURES: [StructureForm; 6] = [
    StructureForm {
        number: 0,
        name: "Device Scoped Memory Affinity Structure (DSMAS)",
        parts: &[Part::Fields(&RANGE)],
        inner: &Inner::Nothing,
    },
    StructureForm {
        number: 1,
        name: "Device Scoped Latency and Bandwidth Information Structure (DSLBIS)",
        parts: &[Part::Fields(&LATENCY)],
        inner: &Inner::Nothing,
    },
    StructureForm {
        number: 2,
        name: "Device Scoped Memory Side Cache Information Structure (DSMSCIS)",
        parts: &[Part::Fields(&CACHE)],
        inner: &Inner::Nothing,
    },
    StructureForm {
        number: 3,
        name: "Device Scoped Initiator Structure (DSIS)",
        parts: &[Part::Fields(&INITIATOR)],
        inner: &Inner::Nothing,
    },
    StructureForm {
        number: 4,
        name: "Device Scoped EFI Memory Type Structure (DSEMTS)",
        parts: &[Part::Fields(&MEMORY)],
        inner: &Inner::Nothing,
    },
    StructureForm {
        number: 5,
        name: "Switch Scoped Latency and Bandwidth Information Structure (SSLBIS)",
        parts: &[
            Part::Fields(&SWITCH),
            Part::Entries("SSLBE Entry", Count::Rest, &PORTS),
        ],
        inner: &Inner::Nothing,
    },
];

const CDAT: TableForm = TableForm {
    name: "Coherent Device Attribute Table (CDAT)",
    parts: &[Part::Fields(&CDAT_HEADER)],
    structures: &CDAT_STRUCTURES,
    further: &[],
    inner: &Inner::Nothing,
};

/// Returns the form of the Coherent Device Attribute Table (CDAT 1.03), which a device has, and not the firmware. It has no
/// signature, and begins with its length. Sizes and addresses are in bytes.
pub fn cdat_form() -> TableForm
    ensures { IsNamed result cdat_names }
{
    CDAT
}

/// Returns how its structures are found.
pub fn cdat_walk() -> Walk
    ensures { result ≡ cdat_walk }
{
    Walk {
        start: 16,
        sizes: Sizes::ToldAt(Place::Word(2)),
        kind: Place::Byte(0),
        count: Place::Nowhere,
        first: Place::Nowhere,
    }
}
