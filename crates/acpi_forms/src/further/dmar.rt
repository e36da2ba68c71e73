//! The DMA Remapping Reporting Table.

use acpi_base::header::HEADER;
use acpi_base::walk::{Place, Sizes};
use acpi_pc::dmar::{
    ANDD, ATSR, DEVICE_SCOPE, DMAR_FIXED, DRHD, RHSA, RMRR, SATC, SCOPE_PATH, SIDP,
};
use acpi_text::form::{
    Count, Inner, InnerForm, InnerList, InnerSize, Part, Start, StructureForm, TableForm,
};

const SCOPE_PARTS: [Part; 2] = [
    Part::Fields(&DEVICE_SCOPE),
    Part::Entries("Path", Count::Rest, &SCOPE_PATH),
];

const SCOPES_AT_16: Inner = Inner::Lists(
    Start::At(16),
    &[InnerList {
        count: Count::Rest,
        kind: Place::Nowhere,
        forms: &[InnerForm {
            number: 0,
            name: "Device Scope Structure",
            size: InnerSize::Walked(Sizes::ToldAt(Place::Byte(1))),
            parts: &SCOPE_PARTS,
        }],
    }],
);

const SCOPES_AT_24: Inner = Inner::Lists(
    Start::At(24),
    &[InnerList {
        count: Count::Rest,
        kind: Place::Nowhere,
        forms: &[InnerForm {
            number: 0,
            name: "Device Scope Structure",
            size: InnerSize::Walked(Sizes::ToldAt(Place::Byte(1))),
            parts: &SCOPE_PARTS,
        }],
    }],
);

const SCOPES_AT_8: Inner = Inner::Lists(
    Start::At(8),
    &[InnerList {
        count: Count::Rest,
        kind: Place::Nowhere,
        forms: &[InnerForm {
            number: 0,
            name: "Device Scope Structure",
            size: InnerSize::Walked(Sizes::ToldAt(Place::Byte(1))),
            parts: &SCOPE_PARTS,
        }],
    }],
);

const REMAPPING_STRUCTURES: [StructureForm; 7] = [
    StructureForm {
        number: 0,
        name: "DMA Remapping Hardware Unit Definition (DRHD)",
        parts: &[Part::Fields(&DRHD)],
        inner: &SCOPES_AT_16,
    },
    StructureForm {
        number: 1,
        name: "Reserved Memory Region Reporting Structure (RMRR)",
        parts: &[Part::Fields(&RMRR)],
        inner: &SCOPES_AT_24,
    },
    StructureForm {
        number: 2,
        name: "Root Port ATS Capability Reporting Structure (ATSR)",
        parts: &[Part::Fields(&ATSR)],
        inner: &SCOPES_AT_8,
    },
    StructureForm {
        number: 3,
        name: "Remapping Hardware Static Affinity Structure (RHSA)",
        parts: &[Part::Fields(&RHSA)],
        inner: &Inner::Nothing,
    },
    StructureForm {
        number: 4,
        name: "ACPI Name-space Device Declaration Structure (ANDD)",
        parts: &[
            Part::Fields(&ANDD),
            Part::Until("ACPI Object Name", Place::Word(2)),
        ],
        inner: &Inner::Nothing,
    },
    StructureForm {
        number: 5,
        name: "SoC Integrated Address Translation Cache Reporting Structure (SATC)",
        parts: &[Part::Fields(&SATC)],
        inner: &SCOPES_AT_8,
    },
    StructureForm {
        number: 6,
        name: "SoC Integrated Device Property Reporting Structure (SIDP)",
        parts: &[Part::Fields(&SIDP)],
        inner: &SCOPES_AT_8,
    },
];

/// The DMA Remapping Reporting Table (Intel Virtualization Technology for Directed I/O 4.1, 8). The bits in the flags of a device
/// scope have no names here.
pub const DMAR: TableForm = TableForm {
    name: "DMA Remapping Reporting Table (DMAR)",
    parts: &[Part::Fields(&HEADER), Part::Fields(&DMAR_FIXED)],
    structures: &REMAPPING_STRUCTURES,
    further: &[],
    inner: &Inner::Nothing,
};
