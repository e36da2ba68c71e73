//! The forms of tables whose nodes name each other.

ghost use Rattle.acpi_forms.specs.Named.{IsNamed, pptt_names, rhct_names, viot_names, rimt_names};

use crate::further::pptt::PPTT_ID_ROWS;
use acpi_base::header::HEADER;
use acpi_base::row::Row;
use acpi_base::walk::Place;
use acpi_nodes::pptt::{CACHE_NODE, PROCESSOR_NODE};
use acpi_nodes::rhct::{CMO, HART_INFO, ISA_STRING, MMU, RHCT_FIXED};
use acpi_nodes::rimt::{ID_MAPPING, INTERRUPT_WIRE, IOMMU, PLATFORM, ROOT_COMPLEX};
use acpi_nodes::viot::{MMIO_ENDPOINT, PCI_RANGE, VIRTIO_MMIO_IOMMU, VIRTIO_PCI_IOMMU};
use acpi_text::form::{Count, Inner, Part, StructureForm, TableForm};

const PPTT_NODES: [StructureForm; 3] = [
    StructureForm {
        number: 0,
        name: "Processor Hierarchy Node Structure",
        parts: &[
            Part::Fields(&PROCESSOR_NODE),
            Part::Numbers("Private Resource", 4, Count::Field(Place::DWord(16))),
        ],
        inner: &Inner::Nothing,
    },
    StructureForm {
        number: 1,
        name: "Cache Type Structure",
        parts: &[Part::Fields(&CACHE_NODE)],
        inner: &Inner::Nothing,
    },
    StructureForm {
        number: 2,
        name: "ID Structure",
        parts: &[Part::Fields(&PPTT_ID_ROWS)],
        inner: &Inner::Nothing,
    },
];

const PPTT: TableForm = TableForm {
    name: "Processor Properties Topology Table (PPTT)",
    parts: &[Part::Fields(&HEADER)],
    structures: &PPTT_NODES,
    further: &[],
    inner: &Inner::Nothing,
};

/// Returns the form of the Processor Properties Topology Table (ACPI 6.5, 5.2.30).
pub fn pptt_form() -> TableForm
    ensures { IsNamed result pptt_names }
{
    PPTT
}

const RHCT_NODES: [StructureForm; 4] = [
    StructureForm {
        number: 0,
        name: "ISA String Node",
        parts: &[
            Part::Fields(&ISA_STRING),
            Part::Bytes("ISA String", Place::Word(6)),
            Part::Until("Padding", Place::Word(2)),
        ],
        inner: &Inner::Nothing,
    },
    StructureForm {
        number: 1,
        name: "CMO Extension Node",
        parts: &[Part::Fields(&CMO)],
        inner: &Inner::Nothing,
    },
    StructureForm {
        number: 2,
        name: "MMU Node",
        parts: &[Part::Fields(&MMU)],
        inner: &Inner::Nothing,
    },
    StructureForm {
        number: 65535,
        name: "Hart Info Node",
        parts: &[
            Part::Fields(&HART_INFO),
            Part::Numbers("Offset", 4, Count::Field(Place::Word(6))),
        ],
        inner: &Inner::Nothing,
    },
];

const RHCT: TableForm = TableForm {
    name: "RISC-V Hart Capabilities Table (RHCT)",
    parts: &[
        Part::Fields(&HEADER),
        Part::Fields(&RHCT_FIXED),
        Part::Fields(&[
            Row::Number("Number of RHCT Nodes", 4),
            Row::Number("Offset of RHCT Nodes", 4),
        ]),
    ],
    structures: &RHCT_NODES,
    further: &[],
    inner: &Inner::Nothing,
};

/// Returns the form of the RISC-V Hart Capabilities Table (this project's profile).
pub fn rhct_form() -> TableForm
    ensures { IsNamed result rhct_names }
{
    RHCT
}

const VIOT_NODES: [StructureForm; 4] = [
    StructureForm {
        number: 1,
        name: "PCI Range Node",
        parts: &[Part::Fields(&PCI_RANGE)],
        inner: &Inner::Nothing,
    },
    StructureForm {
        number: 2,
        name: "Single MMIO Endpoint Node",
        parts: &[Part::Fields(&MMIO_ENDPOINT)],
        inner: &Inner::Nothing,
    },
    StructureForm {
        number: 3,
        name: "virtio-iommu based on virtio-pci Node",
        parts: &[Part::Fields(&VIRTIO_PCI_IOMMU)],
        inner: &Inner::Nothing,
    },
    StructureForm {
        number: 4,
        name: "virtio-iommu based on virtio-mmio Node",
        parts: &[Part::Fields(&VIRTIO_MMIO_IOMMU)],
        inner: &Inner::Nothing,
    },
];

const VIOT: TableForm = TableForm {
    name: "Virtual I/O Translation Table (VIOT)",
    parts: &[
        Part::Fields(&HEADER),
        Part::Fields(&[
            Row::Number("Node Count", 2),
            Row::Number("Node Offset", 2),
            Row::Reserved(8),
        ]),
    ],
    structures: &VIOT_NODES,
    further: &[],
    inner: &Inner::Nothing,
};

/// Returns the form of the Virtual I/O Translation Table (ACPI 6.5, 5.2.32).
pub fn viot_form() -> TableForm
    ensures { IsNamed result viot_names }
{
    VIOT
}

const RIMT_DEVICES: [StructureForm; 3] = [
    StructureForm {
        number: 0,
        name: "RISC-V IOMMU",
        parts: &[
            Part::Fields(&IOMMU),
            Part::Until("Bytes", Place::Word(30)),
            Part::Entries(
                "Interrupt Wire",
                Count::Field(Place::Word(28)),
                &INTERRUPT_WIRE,
            ),
        ],
        inner: &Inner::Nothing,
    },
    StructureForm {
        number: 1,
        name: "PCIe Root Complex",
        parts: &[
            Part::Fields(&ROOT_COMPLEX),
            Part::Until("Bytes", Place::Word(12)),
            Part::Entries("ID Mapping", Count::Field(Place::Word(14)), &ID_MAPPING),
        ],
        inner: &Inner::Nothing,
    },
    StructureForm {
        number: 2,
        name: "Platform Device",
        parts: &[
            Part::Fields(&PLATFORM),
            Part::Until("Device Object Name", Place::Word(8)),
            Part::Entries("ID Mapping", Count::Field(Place::Word(10)), &ID_MAPPING),
        ],
        inner: &Inner::Nothing,
    },
];

const RIMT: TableForm = TableForm {
    name: "RISC-V IO Mapping Table (RIMT) (this project's profile)",
    parts: &[
        Part::Fields(&HEADER),
        Part::Fields(&[
            Row::Number("Number of RIMT Nodes", 4),
            Row::Number("Offset of RIMT Nodes", 4),
            Row::Reserved(4),
        ]),
    ],
    structures: &RIMT_DEVICES,
    further: &[],
    inner: &Inner::Nothing,
};

/// Returns the form of the RISC-V IO Mapping Table (this project's profile).
pub fn rimt_form() -> TableForm
    ensures { IsNamed result rimt_names }
{
    RIMT
}
