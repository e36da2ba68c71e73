//! The forms of the tables of an Arm machine.

ghost use Rattle.acpi_forms.specs.Named.{IsNamed, gtdt_names, earlier_gtdt_names, dbg2_names, iort_names};

use crate::further::iort::IORT_FURTHER;
use acpi_arm::dbg2::DEBUG_DEVICE;
use acpi_arm::gtdt::{GENERIC_WATCHDOG, GT_BLOCK, GT_BLOCK_TIMER, GTDT_FIXED, GTDT_LAST};
use acpi_arm::iort::{
    ID_MAPPING, ITS_GROUP, MEMORY_RANGE, NAMED_COMPONENT, PMCG, RESERVED_MEMORY, ROOT_COMPLEX,
    ROOT_COMPLEX_PASID, SMMU, SMMU_INTERRUPT, SMMU_V3,
};
use acpi_base::gas::GENERIC_ADDRESS;
use acpi_base::header::HEADER;
use acpi_base::row::Row;
use acpi_base::walk::Place;
use acpi_text::form::{Choice, Count, Inner, Part, StructureForm, TableForm};

const GTDT_TIMERS: [StructureForm; 2] = [
    StructureForm {
        number: 0,
        name: "GT Block Structure",
        parts: &[
            Part::Fields(&GT_BLOCK),
            Part::Until("Bytes", Place::DWord(16)),
            Part::Entries(
                "GT Block Timer Structure",
                Count::Field(Place::DWord(12)),
                &GT_BLOCK_TIMER,
            ),
        ],
        inner: &Inner::Nothing,
    },
    StructureForm {
        number: 1,
        name: "Arm Generic Watchdog Structure",
        parts: &[Part::Fields(&GENERIC_WATCHDOG)],
        inner: &Inner::Nothing,
    },
];

const GTDT: TableForm = TableForm {
    name: "Generic Timer Description Table (GTDT)",
    parts: &[
        Part::Fields(&HEADER),
        Part::Fields(&GTDT_FIXED),
        Part::Fields(&[Row::Number("Platform Timer Count", 4)]),
        Part::Fields(&GTDT_LAST),
    ],
    structures: &GTDT_TIMERS,
    further: &[],
    inner: &Inner::Nothing,
};

const EARLIER_GTDT: TableForm = TableForm {
    name: "Generic Timer Description Table (GTDT)",
    parts: &[
        Part::Fields(&HEADER),
        Part::Fields(&GTDT_FIXED),
        Part::Fields(&[
            Row::Number("Platform Timer Count", 4),
            Row::Preset("Platform Timer Offset", 4, 96),
        ]),
    ],
    structures: &GTDT_TIMERS,
    further: &[],
    inner: &Inner::Nothing,
};

/// Returns the form of a Generic Timer Description Table before revision 3, which has no virtual EL2 timer (ACPI 6.2, 5.2.24).
pub fn earlier_gtdt_form() -> TableForm
    ensures { IsNamed result earlier_gtdt_names }
{
    EARLIER_GTDT
}

/// Returns the form of the Generic Timer Description Table (ACPI 6.5, 5.2.25).
pub fn gtdt_form() -> TableForm
    ensures { IsNamed result gtdt_names }
{
    GTDT
}

const DBG2: TableForm = TableForm {
    name: "Debug Port Table 2 (DBG2)",
    parts: &[
        Part::Fields(&HEADER),
        Part::Fields(&[
            Row::Number("OffsetDbgDeviceInfo", 4),
            Row::Number("NumberDbgDeviceInfo", 4),
        ]),
    ],
    structures: &[StructureForm {
        number: 0,
        name: "Debug Device Information Structure",
        parts: &[
            Part::Fields(&DEBUG_DEVICE),
            Part::Until("Bytes", Place::Word(18)),
            Part::Entries(
                "BaseAddressRegister",
                Count::Field(Place::Byte(3)),
                &GENERIC_ADDRESS,
            ),
            Part::Until("Bytes", Place::Word(20)),
            Part::Numbers("AddressSize", 4, Count::Field(Place::Byte(3))),
            Part::Until("Bytes", Place::Word(6)),
            Part::Bytes("NamespaceString", Place::Word(4)),
            Part::Until("Bytes", Place::Word(10)),
            Part::Bytes("OemData", Place::Word(8)),
        ],
        inner: &Inner::Nothing,
    }],
    further: &[],
    inner: &Inner::Nothing,
};

/// Returns the form of the Debug Port Table 2 (Microsoft).
pub fn dbg2_form() -> TableForm
    ensures { IsNamed result dbg2_names }
{
    DBG2
}

const NO_PASID: [Row; 1] = [Row::Reserved(3)];

// The fields of a root complex from offset 33 on, by the offset of its mappings: 36 in revisions 1 to 3 of the node. In revision
// 0 it is 32, which is no choice here: the byte at 32 is of a mapping then, and the rest has no names.
const ROOT_COMPLEX_ENDS: [Choice; 2] = [
    Choice {
        number: 40,
        name: "PASID",
        rows: &ROOT_COMPLEX_PASID,
    },
    Choice {
        number: 36,
        name: "Without PASID",
        rows: &NO_PASID,
    },
];

const IORT_NODES: [StructureForm; 7] = [
    StructureForm {
        number: 0,
        name: "ITS Group",
        parts: &[
            Part::Fields(&ITS_GROUP),
            Part::Numbers("GIC ITS Identifier", 4, Count::Field(Place::DWord(16))),
        ],
        inner: &Inner::Nothing,
    },
    StructureForm {
        number: 1,
        name: "Named Component",
        parts: &[
            Part::Fields(&NAMED_COMPONENT),
            Part::Until("Device Object Name", Place::DWord(12)),
            Part::Entries("ID Mapping", Count::Field(Place::DWord(8)), &ID_MAPPING),
        ],
        inner: &Inner::Nothing,
    },
    StructureForm {
        number: 2,
        name: "Root Complex",
        parts: &[
            Part::Between(&ROOT_COMPLEX, 0, 13),
            Part::Chosen(Place::DWord(12), &ROOT_COMPLEX_ENDS),
            Part::Until("Bytes", Place::DWord(12)),
            Part::Entries("ID Mapping", Count::Field(Place::DWord(8)), &ID_MAPPING),
        ],
        inner: &Inner::Nothing,
    },
    StructureForm {
        number: 3,
        name: "SMMUv1 or SMMUv2",
        parts: &[
            Part::Fields(&SMMU),
            Part::Until("Bytes", Place::DWord(48)),
            Part::Entries(
                "Context Interrupt",
                Count::Field(Place::DWord(44)),
                &SMMU_INTERRUPT,
            ),
            Part::Until("Bytes", Place::DWord(56)),
            Part::Entries(
                "PMU Interrupt",
                Count::Field(Place::DWord(52)),
                &SMMU_INTERRUPT,
            ),
            Part::Until("Bytes", Place::DWord(12)),
            Part::Entries("ID Mapping", Count::Field(Place::DWord(8)), &ID_MAPPING),
        ],
        inner: &Inner::Nothing,
    },
    StructureForm {
        number: 4,
        name: "SMMUv3",
        parts: &[
            Part::Fields(&SMMU_V3),
            Part::Until("Bytes", Place::DWord(12)),
            Part::Entries("ID Mapping", Count::Field(Place::DWord(8)), &ID_MAPPING),
        ],
        inner: &Inner::Nothing,
    },
    StructureForm {
        number: 5,
        name: "Performance Monitoring Counter Group (PMCG)",
        parts: &[
            Part::Fields(&PMCG),
            Part::Until("Bytes", Place::DWord(12)),
            Part::Entries("ID Mapping", Count::Field(Place::DWord(8)), &ID_MAPPING),
        ],
        inner: &Inner::Nothing,
    },
    StructureForm {
        number: 6,
        name: "Reserved Memory Range (RMR)",
        parts: &[
            Part::Fields(&RESERVED_MEMORY),
            Part::Until("Bytes", Place::DWord(24)),
            Part::Entries(
                "Memory Range Descriptor",
                Count::Field(Place::DWord(20)),
                &MEMORY_RANGE,
            ),
            Part::Until("Bytes", Place::DWord(12)),
            Part::Entries("ID Mapping", Count::Field(Place::DWord(8)), &ID_MAPPING),
        ],
        inner: &Inner::Nothing,
    },
];

const IORT: TableForm = TableForm {
    name: "IO Remapping Table (IORT)",
    parts: &[
        Part::Fields(&HEADER),
        Part::Fields(&[
            Row::Number("Number of IORT Nodes", 4),
            Row::Number("Offset to Array of IORT Nodes", 4),
            Row::Reserved(4),
        ]),
        Part::Until("Optional Padding", Place::DWord(40)),
    ],
    structures: &IORT_NODES,
    further: &IORT_FURTHER,
    inner: &Inner::Nothing,
};

/// Returns the form of the IO Remapping Table (Arm DEN0049E.d). The first nodes of type 2, 4 and 5, of revision 0, are shorter:
/// the bytes after their fields have the names of later revisions.
pub fn iort_form() -> TableForm
    ensures { IsNamed result iort_names }
{
    IORT
}
