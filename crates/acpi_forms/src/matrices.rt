//! The forms of HMAT and SLIT.

ghost use Rattle.acpi_forms.specs.Named.{IsNamed, hmat_names, slit_names};

use acpi_base::header::HEADER;
use acpi_base::row::Row;
use acpi_base::walk::Place;
use acpi_matrices::hmat::{MEMORY_PROXIMITY_DOMAIN, SIDE_CACHE, SYSTEM_LOCALITY};
use acpi_matrices::slit::SLIT_FIXED;
use acpi_text::form::{Count, Inner, Part, StructureForm, TableForm};

const HMAT_STRUCTURES: [StructureForm; 3] = [
    StructureForm {
        number: 0,
        name: "Memory Proximity Domain Attributes Structure",
        parts: &[Part::Fields(&MEMORY_PROXIMITY_DOMAIN)],
        inner: &Inner::Nothing,
    },
    StructureForm {
        number: 1,
        name: "System Locality Latency and Bandwidth Information Structure",
        parts: &[
            Part::Fields(&SYSTEM_LOCALITY),
            Part::Numbers(
                "Initiator Proximity Domain",
                4,
                Count::Field(Place::DWord(12)),
            ),
            Part::Numbers("Target Proximity Domain", 4, Count::Field(Place::DWord(16))),
            Part::Matrix(
                "Entries of an Initiator",
                2,
                Place::DWord(12),
                Place::DWord(16),
            ),
        ],
        inner: &Inner::Nothing,
    },
    StructureForm {
        number: 2,
        name: "Memory Side Cache Information Structure",
        parts: &[
            Part::Fields(&SIDE_CACHE),
            Part::Numbers("SMBIOS Handle", 2, Count::Field(Place::Word(30))),
        ],
        inner: &Inner::Nothing,
    },
];

const HMAT: TableForm = TableForm {
    name: "Heterogeneous Memory Attribute Table (HMAT)",
    parts: &[Part::Fields(&HEADER), Part::Fields(&[Row::Reserved(4)])],
    structures: &HMAT_STRUCTURES,
    further: &[],
    inner: &Inner::Nothing,
};

/// Returns the form of the Heterogeneous Memory Attribute Table (ACPI 6.5, 5.2.28).
pub fn hmat_form() -> TableForm
    ensures { IsNamed result hmat_names }
{
    HMAT
}

const SLIT: TableForm = TableForm {
    name: "System Locality Information Table (SLIT)",
    parts: &[
        Part::Fields(&HEADER),
        Part::Between(&SLIT_FIXED, 1, 2),
        Part::Matrix(
            "Distances from a Locality",
            1,
            Place::DWord(36),
            Place::DWord(36),
        ),
    ],
    structures: &[],
    further: &[],
    inner: &Inner::Nothing,
};

/// Returns the form of the System Locality Information Table (ACPI 6.5, 5.2.17).
pub fn slit_form() -> TableForm
    ensures { IsNamed result slit_names }
{
    SLIT
}
