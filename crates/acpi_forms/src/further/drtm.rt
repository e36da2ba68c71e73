//! The D-RTM Resources Table.

use acpi_base::header::HEADER;
use acpi_base::row::{Bits, Row};
use acpi_base::walk::{Place, Sizes};
use acpi_text::form::{Count, Inner, InnerForm, InnerList, InnerSize, Part, Start, TableForm};

const DRTM_ROWS: [Row; 9] = [
    Row::Hex("DL_Entry_Base", 8),
    Row::Number("DL_Entry_Length", 8),
    Row::Hex("DL_Entry32", 4),
    Row::Hex("DL_Entry64", 8),
    Row::Hex("DLME_Exit", 8),
    Row::Hex("Log_Area_Start", 8),
    Row::Number("Log_Area_Length", 4),
    Row::Hex("Architecture_Dependent", 8),
    Row::Hex("DRT_Flags", 4),
];

const VALIDATED_TABLES: [Row; 1] = [Row::Number("VTL_Length", 4)];

const RESOURCES: [Row; 1] = [Row::Number("RL_Length", 4)];

const RESOURCE: [Row; 3] = [
    Row::Bytes("Resource Size", 7),
    Row::Flags(
        "Resource Type",
        1,
        &[
            Bits::Number(0x7f, 0x1, "Type"),
            Bits::Flag(0x80, "Protections"),
        ],
    ),
    Row::Hex("Resource Base Address", 8),
];

const PLATFORM: [Row; 2] = [Row::Number("DPS_Id_Length", 4), Row::Bytes("DPS_Id", 16)];

// Each of the three parts that end the table stands once. The first two begin with the number of their entries.
const LISTS: [InnerList; 3] = [
    InnerList {
        count: Count::Once,
        kind: Place::Nowhere,
        forms: &[InnerForm {
            number: 0,
            name: "Validated Tables List",
            size: InnerSize::Counted(4, Place::DWord(0), 8),
            parts: &[
                Part::Fields(&VALIDATED_TABLES),
                Part::Numbers("Validated Table", 8, Count::Field(Place::DWord(0))),
            ],
        }],
    },
    InnerList {
        count: Count::Once,
        kind: Place::Nowhere,
        forms: &[InnerForm {
            number: 0,
            name: "Resources List",
            size: InnerSize::Counted(4, Place::DWord(0), 16),
            parts: &[
                Part::Fields(&RESOURCES),
                Part::Entries("Resource", Count::Field(Place::DWord(0)), &RESOURCE),
            ],
        }],
    },
    InnerList {
        count: Count::Once,
        kind: Place::Nowhere,
        forms: &[InnerForm {
            number: 0,
            name: "DLME Platform Id",
            size: InnerSize::Walked(Sizes::EachOf(20)),
            parts: &[Part::Fields(&PLATFORM)],
        }],
    },
];

/// The D-RTM Resources Table (TCG D-RTM Architecture 1.0.0).
pub const DRTM: TableForm = TableForm {
    name: "D-RTM Resources Table (DRTM)",
    parts: &[Part::Fields(&HEADER), Part::Fields(&DRTM_ROWS)],
    structures: &[],
    further: &[],
    inner: &Inner::Lists(Start::At(96), &LISTS),
};
