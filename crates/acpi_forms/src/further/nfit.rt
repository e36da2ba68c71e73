//! The NVDIMM Firmware Interface Table.

use acpi_base::header::HEADER;
use acpi_base::walk::Place;
use acpi_pc::nfit::{
    CAPABILITIES, CONTROL_REGION, DATA_WINDOW, FLUSH_HINT, INTERLEAVE, NFIT_FIXED, REGION_MAPPING,
    SMBIOS_INFORMATION, SPA_RANGE,
};
use acpi_text::form::{Count, Inner, Part, StructureForm, TableForm};

const NFIT_STRUCTURES: [StructureForm; 8] = [
    StructureForm {
        number: 0,
        name: "System Physical Address (SPA) Range Structure",
        parts: &[Part::Fields(&SPA_RANGE)],
        inner: &Inner::Nothing,
    },
    StructureForm {
        number: 1,
        name: "NVDIMM Region Mapping Structure",
        parts: &[Part::Fields(&REGION_MAPPING)],
        inner: &Inner::Nothing,
    },
    StructureForm {
        number: 2,
        name: "Interleave Structure",
        parts: &[
            Part::Fields(&INTERLEAVE),
            Part::Numbers("Line Offset", 4, Count::Field(Place::DWord(8))),
        ],
        inner: &Inner::Nothing,
    },
    StructureForm {
        number: 3,
        name: "SMBIOS Management Information Structure",
        parts: &[
            Part::Fields(&SMBIOS_INFORMATION),
            Part::Until("Data", Place::Word(2)),
        ],
        inner: &Inner::Nothing,
    },
    StructureForm {
        number: 4,
        name: "NVDIMM Control Region Structure",
        parts: &[Part::Fields(&CONTROL_REGION)],
        inner: &Inner::Nothing,
    },
    StructureForm {
        number: 5,
        name: "NVDIMM Block Data Window Region Structure",
        parts: &[Part::Fields(&DATA_WINDOW)],
        inner: &Inner::Nothing,
    },
    StructureForm {
        number: 6,
        name: "Flush Hint Address Structure",
        parts: &[
            Part::Fields(&FLUSH_HINT),
            Part::Numbers("Flush Hint Address", 8, Count::Field(Place::Word(8))),
        ],
        inner: &Inner::Nothing,
    },
    StructureForm {
        number: 7,
        name: "Platform Capabilities Structure",
        parts: &[Part::Fields(&CAPABILITIES)],
        inner: &Inner::Nothing,
    },
];

/// The NVDIMM Firmware Interface Table (ACPI 6.5, 5.2.26).
pub const NFIT: TableForm = TableForm {
    name: "NVDIMM Firmware Interface Table (NFIT)",
    parts: &[Part::Fields(&HEADER), Part::Fields(&NFIT_FIXED)],
    structures: &NFIT_STRUCTURES,
    further: &[],
    inner: &Inner::Nothing,
};
