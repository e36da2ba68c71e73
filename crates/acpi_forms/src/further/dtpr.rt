//! The DMA TXT Protected Range table.

use acpi_base::header::HEADER;
use acpi_base::row::Row;
use acpi_base::walk::Place;
use acpi_text::form::{Count, Inner, InnerForm, InnerList, InnerSize, Part, Start, TableForm};

const DTPR_ROWS: [Row; 2] = [Row::Hex("Flags", 4), Row::Number("Instance Count", 4)];

const INSTANCE: [Row; 2] = [Row::Hex("Flags", 4), Row::Number("TPR Count", 4)];

const SERIALIZATION: [Row; 1] = [Row::Number("Serialize Request Count", 4)];

// Instances of registers for protected ranges, and the registers by which changes of them are serialized.
const LISTS: [InnerList; 2] = [
    InnerList {
        count: Count::Field(Place::DWord(40)),
        kind: Place::Nowhere,
        forms: &[InnerForm {
            number: 0,
            name: "TPR Instance",
            size: InnerSize::Counted(8, Place::DWord(4), 8),
            parts: &[
                Part::Fields(&INSTANCE),
                Part::Numbers("TPR Base Register", 8, Count::Field(Place::DWord(4))),
            ],
        }],
    },
    InnerList {
        count: Count::Once,
        kind: Place::Nowhere,
        forms: &[InnerForm {
            number: 0,
            name: "TPR Serialize Requests",
            size: InnerSize::Counted(4, Place::DWord(0), 8),
            parts: &[
                Part::Fields(&SERIALIZATION),
                Part::Numbers(
                    "Serialize Request Register",
                    8,
                    Count::Field(Place::DWord(0)),
                ),
            ],
        }],
    },
];

/// The table of protected ranges of Intel's Trusted Execution Technology (Intel TXT DMA Protection Ranges). The names are from
/// memory.
pub const DTPR: TableForm = TableForm {
    name: "DMA TXT Protected Range Table (DTPR)",
    parts: &[Part::Fields(&HEADER), Part::Fields(&DTPR_ROWS)],
    structures: &[],
    further: &[],
    inner: &Inner::Lists(Start::At(44), &LISTS),
};
