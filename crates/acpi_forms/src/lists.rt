//! The forms of tables that are lists of structures.

ghost use Rattle.acpi_forms.specs.Named.{IsNamed, xsdt_names, mcfg_names, madt_names, srat_names, cedt_names};

use crate::further::madt::MADT_FURTHER;
use crate::further::srat::GENERIC_PORT_ROWS;
use acpi_base::header::HEADER;
use acpi_base::row::Row;
use acpi_base::walk::Place;
use acpi_lists::cedt::{CXL_HOST_BRIDGE, FIXED_MEMORY, PORT_ASSOCIATION, XOR_MAPS};
use acpi_lists::madt::{
    APLIC_ROWS, GIC_ITS, GIC_MSI, GICC, GICD, GICR, IMSIC_ROWS, INTERRUPT_SOURCE_OVERRIDE, IO_APIC,
    LOCAL_APIC_ADDRESS_OVERRIDE, LOCAL_APIC_NMI, LOCAL_X2APIC_NMI, MADT_FIXED, NMI_SOURCE,
    PLIC_ROWS, PROCESSOR_LOCAL_APIC, PROCESSOR_LOCAL_X2APIC, RINTC_ROWS,
};
use acpi_lists::mcfg::ECAM;
use acpi_lists::srat::{
    ACPI_HANDLE, GENERIC_INITIATOR, GIC_ITS_AFFINITY, GICC_AFFINITY, MEMORY_AFFINITY, PCI_HANDLE,
    PROCESSOR_LOCAL_APIC_AFFINITY, PROCESSOR_LOCAL_X2APIC_AFFINITY, RINTC_AFFINITY,
};
use acpi_lists::xsdt::XSDT_ENTRY;
use acpi_text::form::{Choice, Count, Inner, Part, StructureForm, TableForm};

const XSDT: TableForm = TableForm {
    name: "Extended System Description Table (XSDT)",
    parts: &[Part::Fields(&HEADER)],
    structures: &[StructureForm {
        number: 0,
        name: "Entry",
        parts: &[Part::Fields(&XSDT_ENTRY)],
        inner: &Inner::Nothing,
    }],
    further: &[],
    inner: &Inner::Nothing,
};

/// Returns the form of the Extended System Description Table (ACPI 6.5, 5.2.8).
pub fn xsdt_form() -> TableForm
    ensures { IsNamed result xsdt_names }
{
    XSDT
}

const MCFG: TableForm = TableForm {
    name: "PCI Express Memory Mapped Configuration Table (MCFG)",
    parts: &[Part::Fields(&HEADER), Part::Fields(&[Row::Reserved(8)])],
    structures: &[StructureForm {
        number: 0,
        name: "Configuration Space Base Address Allocation Structure",
        parts: &[Part::Fields(&ECAM)],
        inner: &Inner::Nothing,
    }],
    further: &[],
    inner: &Inner::Nothing,
};

/// Returns the form of the PCI Express memory mapped configuration space base address description table (PCI Firmware 3.3,
/// 4.1.2).
pub fn mcfg_form() -> TableForm
    ensures { IsNamed result mcfg_names }
{
    MCFG
}

const MADT_STRUCTURES: [StructureForm; 17] = [
    StructureForm {
        number: 0,
        name: "Processor Local APIC Structure",
        parts: &[Part::Fields(&PROCESSOR_LOCAL_APIC)],
        inner: &Inner::Nothing,
    },
    StructureForm {
        number: 1,
        name: "I/O APIC Structure",
        parts: &[Part::Fields(&IO_APIC)],
        inner: &Inner::Nothing,
    },
    StructureForm {
        number: 2,
        name: "Interrupt Source Override Structure",
        parts: &[Part::Fields(&INTERRUPT_SOURCE_OVERRIDE)],
        inner: &Inner::Nothing,
    },
    StructureForm {
        number: 3,
        name: "Non-Maskable Interrupt (NMI) Source Structure",
        parts: &[Part::Fields(&NMI_SOURCE)],
        inner: &Inner::Nothing,
    },
    StructureForm {
        number: 4,
        name: "Local APIC NMI Structure",
        parts: &[Part::Fields(&LOCAL_APIC_NMI)],
        inner: &Inner::Nothing,
    },
    StructureForm {
        number: 5,
        name: "Local APIC Address Override Structure",
        parts: &[Part::Fields(&LOCAL_APIC_ADDRESS_OVERRIDE)],
        inner: &Inner::Nothing,
    },
    StructureForm {
        number: 9,
        name: "Processor Local x2APIC Structure",
        parts: &[Part::Fields(&PROCESSOR_LOCAL_X2APIC)],
        inner: &Inner::Nothing,
    },
    StructureForm {
        number: 10,
        name: "Local x2APIC NMI Structure",
        parts: &[Part::Fields(&LOCAL_X2APIC_NMI)],
        inner: &Inner::Nothing,
    },
    StructureForm {
        number: 11,
        name: "GIC CPU Interface (GICC) Structure",
        parts: &[Part::Fields(&GICC)],
        inner: &Inner::Nothing,
    },
    StructureForm {
        number: 12,
        name: "GIC Distributor (GICD) Structure",
        parts: &[Part::Fields(&GICD)],
        inner: &Inner::Nothing,
    },
    StructureForm {
        number: 13,
        name: "GIC MSI Frame Structure",
        parts: &[Part::Fields(&GIC_MSI)],
        inner: &Inner::Nothing,
    },
    StructureForm {
        number: 14,
        name: "GIC Redistributor (GICR) Structure",
        parts: &[Part::Fields(&GICR)],
        inner: &Inner::Nothing,
    },
    StructureForm {
        number: 15,
        name: "GIC Interrupt Translation Service (ITS) Structure",
        parts: &[Part::Fields(&GIC_ITS)],
        inner: &Inner::Nothing,
    },
    StructureForm {
        number: 24,
        name: "RISC-V INTC Structure",
        parts: &[Part::Fields(&RINTC_ROWS)],
        inner: &Inner::Nothing,
    },
    StructureForm {
        number: 25,
        name: "RISC-V IMSIC Structure",
        parts: &[Part::Fields(&IMSIC_ROWS)],
        inner: &Inner::Nothing,
    },
    StructureForm {
        number: 26,
        name: "RISC-V APLIC Structure",
        parts: &[Part::Fields(&APLIC_ROWS)],
        inner: &Inner::Nothing,
    },
    StructureForm {
        number: 27,
        name: "RISC-V PLIC Structure",
        parts: &[Part::Fields(&PLIC_ROWS)],
        inner: &Inner::Nothing,
    },
];

const MADT: TableForm = TableForm {
    name: "Multiple APIC Description Table (MADT)",
    parts: &[Part::Fields(&HEADER), Part::Fields(&MADT_FIXED)],
    structures: &MADT_STRUCTURES,
    further: &MADT_FURTHER,
    inner: &Inner::Nothing,
};

/// Returns the form of the Multiple APIC Description Table (ACPI 6.5, 5.2.12).
pub fn madt_form() -> TableForm
    ensures { IsNamed result madt_names }
{
    MADT
}

// The handles of a device, by their type.
const HANDLES: [Choice; 2] = [
    Choice {
        number: 0,
        name: "ACPI Device Handle",
        rows: &ACPI_HANDLE,
    },
    Choice {
        number: 1,
        name: "PCI Device Handle",
        rows: &PCI_HANDLE,
    },
];

const SRAT_STRUCTURES: [StructureForm; 8] = [
    StructureForm {
        number: 0,
        name: "Processor Local APIC/SAPIC Affinity Structure",
        parts: &[Part::Fields(&PROCESSOR_LOCAL_APIC_AFFINITY)],
        inner: &Inner::Nothing,
    },
    StructureForm {
        number: 1,
        name: "Memory Affinity Structure",
        parts: &[Part::Fields(&MEMORY_AFFINITY)],
        inner: &Inner::Nothing,
    },
    StructureForm {
        number: 2,
        name: "Processor Local x2APIC Affinity Structure",
        parts: &[Part::Fields(&PROCESSOR_LOCAL_X2APIC_AFFINITY)],
        inner: &Inner::Nothing,
    },
    StructureForm {
        number: 3,
        name: "GICC Affinity Structure",
        parts: &[Part::Fields(&GICC_AFFINITY)],
        inner: &Inner::Nothing,
    },
    StructureForm {
        number: 4,
        name: "GIC Interrupt Translation Service (ITS) Affinity Structure",
        parts: &[Part::Fields(&GIC_ITS_AFFINITY)],
        inner: &Inner::Nothing,
    },
    StructureForm {
        number: 5,
        name: "Generic Initiator Affinity Structure",
        parts: &[
            Part::Between(&GENERIC_INITIATOR, 0, 5),
            Part::Chosen(Place::Byte(3), &HANDLES),
            Part::Between(&GENERIC_INITIATOR, 6, 8),
        ],
        inner: &Inner::Nothing,
    },
    StructureForm {
        number: 6,
        name: "Generic Port Affinity Structure",
        parts: &[
            Part::Fields(&GENERIC_PORT_ROWS),
            Part::Chosen(Place::Byte(3), &HANDLES),
            Part::Between(&GENERIC_INITIATOR, 6, 8),
        ],
        inner: &Inner::Nothing,
    },
    StructureForm {
        number: 7,
        name: "RINTC Affinity Structure",
        parts: &[Part::Fields(&RINTC_AFFINITY)],
        inner: &Inner::Nothing,
    },
];

const SRAT: TableForm = TableForm {
    name: "System Resource Affinity Table (SRAT)",
    parts: &[
        Part::Fields(&HEADER),
        Part::Fields(&[Row::Preset("Reserved", 4, 1), Row::Reserved(8)]),
    ],
    structures: &SRAT_STRUCTURES,
    further: &[],
    inner: &Inner::Nothing,
};

/// Returns the form of the System Resource Affinity Table (ACPI 6.5, 5.2.16).
pub fn srat_form() -> TableForm
    ensures { IsNamed result srat_names }
{
    SRAT
}

const CEDT_STRUCTURES: [StructureForm; 4] = [
    StructureForm {
        number: 0,
        name: "CXL Host Bridge Structure (CHBS)",
        parts: &[Part::Fields(&CXL_HOST_BRIDGE)],
        inner: &Inner::Nothing,
    },
    StructureForm {
        number: 1,
        name: "CXL Fixed Memory Window Structure (CFMWS)",
        parts: &[
            Part::Fields(&FIXED_MEMORY),
            Part::Numbers("Interleave Target", 4, Count::Rest),
        ],
        inner: &Inner::Nothing,
    },
    StructureForm {
        number: 2,
        name: "CXL XOR Interleave Math Structure (CXIMS)",
        parts: &[
            Part::Fields(&XOR_MAPS),
            Part::Numbers("XOR Map", 8, Count::Field(Place::Byte(7))),
        ],
        inner: &Inner::Nothing,
    },
    StructureForm {
        number: 3,
        name: "RCEC Downstream Port Association Structure (RDPAS)",
        parts: &[Part::Fields(&PORT_ASSOCIATION)],
        inner: &Inner::Nothing,
    },
];

const CEDT: TableForm = TableForm {
    name: "CXL Early Discovery Table (CEDT)",
    parts: &[Part::Fields(&HEADER)],
    structures: &CEDT_STRUCTURES,
    further: &[],
    inner: &Inner::Nothing,
};

/// Returns the form of the CXL Early Discovery Table (this project's profile).
pub fn cedt_form() -> TableForm
    ensures { IsNamed result cedt_names }
{
    CEDT
}
