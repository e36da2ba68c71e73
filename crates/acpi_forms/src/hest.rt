//! The forms of HEST and RQSC.

ghost use Rattle.acpi_forms.specs.Named.{IsNamed, hest_names, rqsc_names};

use crate::further::hest::HEST_FURTHER;
use acpi_base::header::HEADER;
use acpi_base::row::Row;
use acpi_base::walk::{Place, Sizes};
use acpi_hest::hest::{
    ACKNOWLEDGED, AER, AER_BRIDGE, AER_DEVICE, AER_ROOT_PORT, GENERIC, NOTIFICATION,
};
use acpi_hest::rqsc::{
    ACPI_DEVICE_RESOURCE, CACHE_RESOURCE, CONTROLLER, MEMORY_RESOURCE, PCI_DEVICE_RESOURCE,
    RESOURCE,
};
use acpi_text::form::{
    Choice, Count, Inner, InnerForm, InnerList, InnerSize, Part, Start, StructureForm, TableForm,
};

// The notification structure is a field of a generic source, after nine others.
const SOURCES: [StructureForm; 5] = [
    StructureForm {
        number: 6,
        name: "PCI Express Root Port AER Structure",
        parts: &[Part::Fields(&AER), Part::Fields(&AER_ROOT_PORT)],
        inner: &Inner::Nothing,
    },
    StructureForm {
        number: 7,
        name: "PCI Express Device AER Structure",
        parts: &[Part::Fields(&AER), Part::Fields(&AER_DEVICE)],
        inner: &Inner::Nothing,
    },
    StructureForm {
        number: 8,
        name: "PCI Express/PCI-X Bridge AER Structure",
        parts: &[Part::Fields(&AER), Part::Fields(&AER_BRIDGE)],
        inner: &Inner::Nothing,
    },
    StructureForm {
        number: 9,
        name: "Generic Hardware Error Source Structure",
        parts: &[
            Part::Between(&GENERIC, 0, 9),
            Part::Group("Notification Structure", &NOTIFICATION),
            Part::Between(&GENERIC, 10, 11),
        ],
        inner: &Inner::Nothing,
    },
    StructureForm {
        number: 10,
        name: "Generic Hardware Error Source version 2 Structure",
        parts: &[
            Part::Between(&GENERIC, 0, 9),
            Part::Group("Notification Structure", &NOTIFICATION),
            Part::Between(&GENERIC, 10, 11),
            Part::Fields(&ACKNOWLEDGED),
        ],
        inner: &Inner::Nothing,
    },
];

const HEST: TableForm = TableForm {
    name: "Hardware Error Source Table (HEST)",
    parts: &[
        Part::Fields(&HEADER),
        Part::Fields(&[Row::Number("Error Source Count", 4)]),
    ],
    structures: &SOURCES,
    further: &HEST_FURTHER,
    inner: &Inner::Nothing,
};

/// Returns the form of the Hardware Error Source Table (ACPI 6.5, 18.3.2).
pub fn hest_form() -> TableForm
    ensures { IsNamed result hest_names }
{
    HEST
}

// A resource by its identifier type (offset 7).
const RESOURCE_IDS: [Choice; 4] = [
    Choice {
        number: 0,
        name: "Cache Resource",
        rows: &CACHE_RESOURCE,
    },
    Choice {
        number: 1,
        name: "Memory Affinity Structure Resource",
        rows: &MEMORY_RESOURCE,
    },
    Choice {
        number: 2,
        name: "ACPI Device Resource",
        rows: &ACPI_DEVICE_RESOURCE,
    },
    Choice {
        number: 3,
        name: "PCI Device Resource",
        rows: &PCI_DEVICE_RESOURCE,
    },
];

const RESOURCE_PARTS: [Part; 2] = [
    Part::Fields(&RESOURCE),
    Part::Chosen(Place::Byte(7), &RESOURCE_IDS),
];

// The resources of a controller. Each contains its length.
const RESOURCES: Inner = Inner::Lists(
    Start::At(28),
    &[InnerList {
        count: Count::Rest,
        kind: Place::Nowhere,
        forms: &[InnerForm {
            number: 0,
            name: "Resource Structure",
            size: InnerSize::Walked(Sizes::ToldAt(Place::Word(2))),
            parts: &RESOURCE_PARTS,
        }],
    }],
);

const CONTROLLERS: [StructureForm; 2] = [
    StructureForm {
        number: 0,
        name: "Capacity QoS Controller",
        parts: &[Part::Fields(&CONTROLLER)],
        inner: &RESOURCES,
    },
    StructureForm {
        number: 1,
        name: "Bandwidth QoS Controller",
        parts: &[Part::Fields(&CONTROLLER)],
        inner: &RESOURCES,
    },
];

const RQSC: TableForm = TableForm {
    name: "RISC-V Quality of Service Controllers Table (RQSC) (this project's profile)",
    parts: &[
        Part::Fields(&HEADER),
        Part::Fields(&[Row::Number("Number of QoS Controllers", 4)]),
    ],
    structures: &CONTROLLERS,
    further: &[],
    inner: &Inner::Nothing,
};

/// Returns the form of the RISC-V Quality of Service Controllers Table (this project's profile).
pub fn rqsc_form() -> TableForm
    ensures { IsNamed result rqsc_names }
{
    RQSC
}
