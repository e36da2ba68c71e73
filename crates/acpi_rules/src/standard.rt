//! The rules of the standard on several fields, and the findings of a table.

ghost use Rattle.std.specs.Prelude.{◌≡◌, ◌++◌, map, IfOk, OnOk};
ghost use Rattle.acpi_rules.specs.Field.{seen};
ghost use Rattle.acpi_rules.specs.Finding.{noted};
ghost use Rattle.acpi_rules.specs.Rules.{fields_findings};
ghost use Rattle.acpi_rules.specs.Relation.{relations_findings};
ghost use Rattle.acpi_rules.specs.Standard.{allowed_numbers, ranges, numbered, different, ordered, counted, paired, aligned};
ghost use Rattle.acpi_rules.specs.Standard.{bounded, sized, strings, referred, placed, included};
ghost use Rattle.acpi_rules.specs.Standard.{standard_findings, table_findings};

use crate::demand::Demand::{
    Addresses, Agrees, All, Apart, AtMost, Between, Blocks, Counts, Differs, DiffersIn,
    DiffersWith, Disjoint, Distances, Ends, Includes, Inside, Multiple, Needed, Needs, NotAll,
    Points, Refers, Terminated, TerminatedAt, TerminatedBefore,
};
use crate::demand::Of::{Each, Entries, Kind, Whole};
use crate::demand::When::{Always, Is, Not};
use crate::demand::{Among, Relation, Spot};
use crate::field::Field;
use crate::finding::Finding;
use crate::numbers::{ALLOWED, RANGES};
use crate::relation::check_relations;
use crate::rules::fields_findings;
use crate::table::fields_of;
use acpi_base::walk::Place::{Byte, DWord, Nowhere, Word};
use acpi_base::walk::Walk;
use acpi_text::form::Count::Field as FieldCount;
use acpi_text::form::TableForm;
use std::alloc::{AllocError, Global};

// A field of a part of a table.
macro_rules! spot {
    ($offset:literal, $width:literal, $name:literal) => {
        Spot {
            offset: $offset,
            width: $width,
            name: $name,
        }
    };
}

// Some parts of a table.
macro_rules! among {
    ($of:expr, $when:expr) => {
        Among {
            of: $of,
            when: $when,
        }
    };
}

// A rule on several fields.
macro_rules! rule {
    ($table:literal, $of:expr, $when:expr, $spot:expr, $demand:expr, $section:literal) => {
        Relation {
            table: $table,
            among: Among {
                of: $of,
                when: $when,
            },
            spot: $spot,
            demand: $demand,
            section: $section,
        }
    };
}

// ---- rules on several fields

// Numbers and addresses that no two structures of a MADT have.
#[rattlefmt::skip]
const NUMBERED: [Relation; 26] = [
    rule!("APIC", Kind(0), Is(DWord(4), 1, 1), spot!(2, 1, "ACPI Processor UID"), Differs, "ACPI 6.5, 5.2.12.2"),
    rule!("APIC", Kind(0), Is(DWord(4), 1, 1), spot!(3, 1, "APIC ID"), Differs, "ACPI 6.5, 5.2.12.2"),
    rule!("APIC", Kind(1), Always, spot!(2, 1, "I/O APIC ID"), Differs, "ACPI 6.5, 5.2.12.3"),
    rule!("APIC", Kind(1), Always, spot!(4, 4, "I/O APIC Address"), Differs, "ACPI 6.5, 5.2.12.3"),
    rule!("APIC", Kind(1), Always, spot!(8, 4, "Global System Interrupt Base"), Differs, "ACPI 6.5, 5.2.12.3"),
    rule!("APIC", Kind(2), Always, spot!(3, 1, "Source"), Differs, "ACPI 6.5, 5.2.12.5"),
    rule!("APIC", Kind(6), Always, spot!(4, 4, "Global System Interrupt Base"), Differs, "ACPI 6.5, 5.2.12.9"),
    rule!("APIC", Kind(6), Always, spot!(8, 8, "I/O SAPIC Address"), Differs, "ACPI 6.5, 5.2.12.9"),
    rule!("APIC", Kind(7), Is(DWord(8), 1, 1), spot!(3, 2, "Local SAPIC ID"), Differs, "ACPI 6.5, 5.2.12.10"),
    rule!("APIC", Kind(9), Is(DWord(8), 1, 1), spot!(4, 4, "X2APIC ID"), Differs, "ACPI 6.5, 5.2.12.12"),
    rule!("APIC", Kind(9), Is(DWord(8), 1, 1), spot!(12, 4, "ACPI Processor UID"), Differs, "ACPI 6.5, 5.2.12.12"),
    rule!("APIC", Kind(11), Is(DWord(12), 1, 1), spot!(8, 4, "ACPI Processor UID"), Differs, "ACPI 6.5, 5.2.12.14"),
    rule!("APIC", Kind(11), Is(DWord(12), 1, 1), spot!(68, 8, "MPIDR"), Differs, "ACPI 6.5, 5.2.12.14"),
    rule!("APIC", Kind(13), Always, spot!(4, 4, "GIC MSI Frame ID"), Differs, "ACPI 6.5, 5.2.12.16"),
    rule!("APIC", Kind(15), Always, spot!(4, 4, "GIC ITS ID"), Differs, "ACPI 6.5, 5.2.12.18"),
    rule!("APIC", Kind(17), Is(DWord(11), 1, 1), spot!(3, 4, "ACPI Processor ID"), Differs, "ACPI 6.5, 5.2.12.20"),
    rule!("APIC", Kind(17), Is(DWord(11), 1, 1), spot!(7, 4, "Physical Processor ID"), Differs, "ACPI 6.5, 5.2.12.20"),
    rule!("APIC", Kind(24), Is(DWord(4), 1, 1), spot!(8, 8, "Hart ID"), Differs, "ACPI 6.6, 5.2.12"),
    rule!("APIC", Kind(24), Is(DWord(4), 1, 1), spot!(16, 4, "ACPI Processor UID"), Differs, "ACPI 6.6, 5.2.12"),
    rule!("APIC", Kind(26), Always, spot!(3, 1, "APLIC ID"), Differs, "ACPI 6.6, 5.2.12"),
    rule!("APIC", Kind(26), Always, spot!(20, 4, "Global System Interrupt Base"), Differs, "ACPI 6.6, 5.2.12"),
    rule!("APIC", Kind(27), Always, spot!(3, 1, "PLIC ID"), Differs, "ACPI 6.6, 5.2.12"),
    rule!("APIC", Kind(27), Always, spot!(32, 4, "Global System Interrupt Base"), Differs, "ACPI 6.6, 5.2.12"),
    // An address override and a distributor, of which there is one.
    rule!("APIC", Kind(5), Always, spot!(0, 1, "Type"), Differs, "ACPI 6.5, 5.2.12.8"),
    rule!("APIC", Kind(12), Always, spot!(0, 1, "Type"), Differs, "ACPI 6.5, 5.2.12.15"),
    // Ranges of redistributors.
    rule!("APIC", Kind(14), Always, spot!(4, 8, "Discovery Range Base Address"),
        Disjoint(spot!(12, 4, "Discovery Range Length")), "ACPI 6.5, 5.2.12.17"),
];

// Numbers and addresses that no two structures of another table have.
#[rattlefmt::skip]
const DIFFERENT: [Relation; 22] = [
    rule!("SRAT", Kind(0), Is(DWord(4), 1, 1), spot!(3, 1, "APIC ID"), DiffersWith(spot!(8, 1, "Local SAPIC EID")),
        "ACPI 6.5, 5.2.16.1"),
    rule!("SRAT", Kind(2), Is(DWord(12), 1, 1), spot!(8, 4, "X2APIC ID"), Differs, "ACPI 6.5, 5.2.16.3"),
    rule!("SRAT", Kind(3), Is(DWord(10), 1, 1), spot!(6, 4, "ACPI Processor UID"), Differs, "ACPI 6.5, 5.2.16.4"),
    rule!("SRAT", Kind(4), Always, spot!(8, 4, "ITS ID"), Differs, "ACPI 6.5, 5.2.16.5"),
    rule!("SRAT", Kind(7), Is(DWord(12), 1, 1), spot!(8, 4, "ACPI Processor UID"), Differs, "ACPI 6.6, 5.2.16"),
    rule!("PPTT", Kind(0), Is(DWord(4), 10, 10), spot!(12, 4, "ACPI Processor ID"), Differs, "ACPI 6.5, 5.2.30.1"),
    rule!("PPTT", Kind(1), Is(DWord(4), 128, 128), spot!(24, 4, "Cache ID"), Differs, "ACPI 6.5, 5.2.30.2"),
    rule!("HEST", Each, Always, spot!(2, 2, "Source Id"), Differs, "ACPI 6.5, 18.3.2"),
    // Frames of a block of timers.
    rule!("GTDT", Entries(0, DWord(16), 20, FieldCount(DWord(12)), 40), Always, spot!(0, 1, "GT Frame Number"), DiffersIn(0),
        "ACPI 6.5, 5.2.25.1"),
    rule!("NFIT", Kind(0), Always, spot!(4, 2, "SPA Range Structure Index"), Differs, "ACPI 6.5, 5.2.26.2"),
    rule!("NFIT", Kind(2), Always, spot!(4, 2, "Interleave Structure Index"), Differs, "ACPI 6.5, 5.2.26.4"),
    rule!("NFIT", Kind(4), Always, spot!(4, 2, "NVDIMM Control Region Structure Index"), Differs, "ACPI 6.5, 5.2.26.6"),
    rule!("RHCT", Kind(65535), Always, spot!(8, 4, "ACPI Processor UID"), Differs, "ACPI 6.6"),
    rule!("CEDT", Kind(0), Always, spot!(4, 4, "UID"), Differs, "CXL 3.0, 9.17.1"),
    rule!("XSDT", Each, Always, spot!(0, 8, "Entry"), Differs, "ACPI 6.5, 5.2.8"),
    rule!("RSDT", Each, Always, spot!(0, 4, "Entry"), Differs, "ACPI 6.5, 5.2.7"),
    rule!("IORT", Each, Not(DWord(4), 0xffff_ffff, 0), spot!(4, 4, "Identifier"), Differs, "Arm DEN0049E.d"),
    rule!("DMAR", Kind(0), Always, spot!(8, 8, "Register Base Address"), Differs, "VT-d 4.1, 8.3"),
    // A segment has one unit for all other devices.
    rule!("DMAR", Kind(0), Is(Byte(4), 1, 1), spot!(6, 2, "Segment Number"), Differs, "VT-d 4.1, 8.3"),
    rule!("LPIT", Kind(0), Always, spot!(8, 2, "Unique ID"), Differs, "Intel Low Power S0 Idle 1.1"),
    rule!("APMT", Each, Always, spot!(4, 4, "Identifier"), Differs, "Arm DEN0117"),
    rule!("MPAM", Each, Always, spot!(4, 4, "Identifier"), Differs, "Arm DEN0065"),
];

// Ranges of a table that have nothing in common, or that end where they may.
#[rattlefmt::skip]
const ORDERED: [Relation; 26] = [
    // Buses of a segment.
    rule!("MCFG", Each, Always, spot!(10, 1, "Start Bus Number"),
        Apart(spot!(8, 2, "PCI Segment Group Number"), spot!(11, 1, "End Bus Number")), "PCI Firmware 3.3, 4.1.2"),
    // Ranges of addresses. A hot-pluggable range of a SRAT may have other ranges in it.
    rule!("SRAT", Kind(1), Is(DWord(28), 3, 1), spot!(8, 8, "Base Address"), Disjoint(spot!(16, 8, "Length")),
        "ACPI 6.5, 5.2.16.2"),
    rule!("CEDT", Kind(0), Always, spot!(16, 8, "Base"), Disjoint(spot!(24, 8, "Length")), "CXL 3.0, 9.17.1"),
    rule!("CEDT", Kind(1), Always, spot!(8, 8, "Base HPA"), Disjoint(spot!(16, 8, "Window Size")), "CXL 3.0, 9.17.1"),
    // Numbers that aren't greater than others.
    rule!("MCFG", Each, Always, spot!(10, 1, "Start Bus Number"), AtMost(spot!(11, 1, "End Bus Number")),
        "PCI Firmware 3.3, 4.1.2"),
    rule!("DMAR", Kind(1), Always, spot!(8, 8, "Reserved Memory Region Base Address"),
        AtMost(spot!(16, 8, "Reserved Memory Region Limit Address")), "VT-d 4.1, 8.4"),
    rule!("MSCT", Each, Always, spot!(2, 4, "Proximity Domain Range (low)"),
        AtMost(spot!(6, 4, "Proximity Domain Range (high)")), "ACPI 6.5, 5.2.19"),
    rule!("VIOT", Kind(1), Always, spot!(8, 2, "PCI Segment Start"), AtMost(spot!(10, 2, "PCI Segment End")),
        "ACPI 6.5, 5.2.32"),
    rule!("VIOT", Kind(1), Always, spot!(12, 2, "PCI BDF Start"), AtMost(spot!(14, 2, "PCI BDF End")), "ACPI 6.5, 5.2.32"),
    rule!("WDAT", Whole, Always, spot!(56, 4, "Minimum Count"), AtMost(spot!(52, 4, "Maximum Count")),
        "Hardware Watchdog Timers Design Specification"),
    // Ranges of addresses that end before 2^64.
    rule!("SRAT", Kind(1), Is(DWord(28), 1, 1), spot!(8, 8, "Base Address"), Addresses(spot!(16, 8, "Length")),
        "ACPI 6.5, 5.2.16.2"),
    rule!("NFIT", Kind(0), Always, spot!(32, 8, "System Physical Address Range Base"),
        Addresses(spot!(40, 8, "System Physical Address Range Length")), "ACPI 6.5, 5.2.26.2"),
    rule!("BERT", Whole, Always, spot!(40, 8, "Boot Error Region"), Addresses(spot!(36, 4, "Boot Error Region Length")),
        "ACPI 6.5, 18.3.1"),
    rule!("CCEL", Whole, Always, spot!(48, 8, "Log Area Start Address"), Addresses(spot!(40, 8, "Log Area Minimum Length")),
        "ACPI 6.5, 5.2.34"),
    rule!("PCCT", Kind(0), Always, spot!(8, 8, "Base Address"), Addresses(spot!(16, 8, "Memory Length")), "ACPI 6.5, 14.1.3"),
    rule!("PCCT", Kind(1), Always, spot!(8, 8, "Base Address"), Addresses(spot!(16, 8, "Memory Length")), "ACPI 6.5, 14.1.4"),
    rule!("PCCT", Kind(2), Always, spot!(8, 8, "Base Address"), Addresses(spot!(16, 8, "Memory Length")), "ACPI 6.5, 14.1.5"),
    rule!("CEDT", Kind(0), Always, spot!(16, 8, "Base"), Addresses(spot!(24, 8, "Length")), "CXL 3.0, 9.17.1"),
    rule!("CEDT", Kind(1), Always, spot!(8, 8, "Base HPA"), Addresses(spot!(16, 8, "Window Size")), "CXL 3.0, 9.17.1"),
    rule!("IORT", Kind(3), Always, spot!(16, 8, "Base Address"), Addresses(spot!(24, 8, "Span")), "Arm DEN0049E.d"),
    rule!("IORT", Entries(6, DWord(24), 28, FieldCount(DWord(20)), 20), Always, spot!(0, 8, "Physical Range Offset"),
        Addresses(spot!(8, 8, "Physical Range Length")), "Arm DEN0049E.d"),
    rule!("IVRS", Kind(32), Always, spot!(16, 8, "IVMD Start Address"), Addresses(spot!(24, 8, "IVMD Memory Block Length")),
        "AMD 48882, 5.2"),
    rule!("IVRS", Kind(33), Always, spot!(16, 8, "IVMD Start Address"), Addresses(spot!(24, 8, "IVMD Memory Block Length")),
        "AMD 48882, 5.2"),
    rule!("IVRS", Kind(34), Always, spot!(16, 8, "IVMD Start Address"), Addresses(spot!(24, 8, "IVMD Memory Block Length")),
        "AMD 48882, 5.2"),
    rule!("TPM2", Whole, Always, spot!(68, 8, "Log Area Start Address"), Addresses(spot!(64, 4, "Log Area Minimum Length")),
        "TCG ACPI Specification 1.4, 8"),
    // Buses of 1 MiB from bus 0 on, which begins at the base address also if the first bus is another one.
    rule!("MCFG", Each, Always, spot!(0, 8, "Base Address"), Blocks(spot!(11, 1, "End Bus Number"), 0x10_0000),
        "PCI Firmware 3.3, 4.1.2"),
];

// Structures that have as many entries as they say, and the bytes of which they have the offsets.
#[rattlefmt::skip]
const COUNTED: [Relation; 28] = [
    rule!("PPTT", Kind(0), Always, spot!(16, 4, "Number of private resources"), Counts(20, 4), "ACPI 6.5, 5.2.30.1"),
    rule!("HMAT", Kind(1), Always, spot!(12, 4, "Number of Initiator Proximity Domains"), Counts(32, 4), "ACPI 6.5, 5.2.28.4"),
    rule!("HMAT", Kind(1), Always, spot!(16, 4, "Number of Target Proximity Domains"), Counts(32, 4), "ACPI 6.5, 5.2.28.4"),
    rule!("HMAT", Kind(2), Always, spot!(30, 2, "Number of SMBIOS Handles"), Counts(32, 2), "ACPI 6.5, 5.2.28.5"),
    rule!("NFIT", Kind(2), Always, spot!(8, 4, "Number of Lines Described"), Counts(16, 4), "ACPI 6.5, 5.2.26.4"),
    rule!("NFIT", Kind(6), Always, spot!(8, 2, "Number of Flush Hint Addresses"), Counts(16, 8), "ACPI 6.5, 5.2.26.8"),
    rule!("GTDT", Kind(0), Always, spot!(12, 4, "GT Block Timer Count"), Counts(20, 40), "ACPI 6.5, 5.2.25.1"),
    rule!("RHCT", Kind(0), Always, spot!(6, 2, "ISA string length"), Counts(8, 1), "ACPI 6.6"),
    rule!("RHCT", Kind(65535), Always, spot!(6, 2, "Number of offsets"), Counts(12, 4), "ACPI 6.6"),
    rule!("CEDT", Kind(2), Always, spot!(7, 1, "Number of Bitmap Entries"), Counts(8, 8), "CXL 3.0, 9.17.1"),
    rule!("IORT", Kind(0), Always, spot!(16, 4, "Number of ITSs"), Counts(20, 4), "Arm DEN0049E.d"),
    rule!("IORT", Each, Always, spot!(8, 4, "Number of ID Mappings"), Counts(16, 20), "Arm DEN0049E.d"),
    rule!("IORT", Kind(6), Always, spot!(20, 4, "Number of Memory Range Descriptors"), Counts(28, 20), "Arm DEN0049E.d"),
    rule!("DBG2", Each, Always, spot!(3, 1, "NumberofGenericAddressRegisters"), Counts(22, 12), "Microsoft DBG2"),
    rule!("DBG2", Each, Always, spot!(4, 2, "NamespaceStringLength"), Counts(22, 1), "Microsoft DBG2"),
    rule!("DBG2", Each, Always, spot!(8, 2, "OemDataLength"), Counts(22, 1), "Microsoft DBG2"),
    // A node has 32 bytes at least.
    rule!("MPST", Whole, Always, spot!(40, 2, "Memory Power Node Count"), Counts(44, 32), "ACPI 6.5, 5.2.22"),
    // Bytes at an offset.
    rule!("SDEV", Kind(0), Always, spot!(4, 2, "Device Identifier Offset"), Inside(spot!(6, 2, "Device Identifier Length"), 1),
        "ACPI 6.5, 5.2.27"),
    rule!("SDEV", Kind(0), Always, spot!(8, 2, "Vendor Specific Data Offset"),
        Inside(spot!(10, 2, "Vendor Specific Data Length"), 1), "ACPI 6.5, 5.2.27"),
    rule!("SDEV", Kind(0), Is(Byte(1), 2, 2), spot!(12, 2, "Secure Access Components Offset"),
        Inside(spot!(14, 2, "Secure Access Components Length"), 1), "ACPI 6.5, 5.2.27"),
    rule!("SDEV", Kind(1), Always, spot!(8, 2, "PCI Path Offset"), Inside(spot!(10, 2, "PCI Path Length"), 1),
        "ACPI 6.5, 5.2.27"),
    rule!("SDEV", Kind(1), Always, spot!(12, 2, "Vendor Specific Data Offset"),
        Inside(spot!(14, 2, "Vendor Specific Data Length"), 1), "ACPI 6.5, 5.2.27"),
    rule!("DBG2", Each, Always, spot!(6, 2, "NamespaceStringOffset"), Inside(spot!(4, 2, "NamespaceStringLength"), 1),
        "Microsoft DBG2"),
    rule!("DBG2", Each, Always, spot!(10, 2, "OemDataOffset"), Inside(spot!(8, 2, "OemDataLength"), 1), "Microsoft DBG2"),
    rule!("DBG2", Each, Always, spot!(18, 2, "BaseAddressRegisterOffset"),
        Inside(spot!(3, 1, "NumberofGenericAddressRegisters"), 12), "Microsoft DBG2"),
    rule!("DBG2", Each, Always, spot!(20, 2, "AddressSizeOffset"), Inside(spot!(3, 1, "NumberofGenericAddressRegisters"), 4),
        "Microsoft DBG2"),
    rule!("SPCR", Whole, Always, spot!(86, 2, "NamespaceStringOffset"), Inside(spot!(84, 2, "NamespaceStringLength"), 1),
        "Microsoft SPCR"),
    // Distances (5.2.17).
    rule!("SLIT", Whole, Always, spot!(36, 8, "Number of System Localities"),
        Distances(spot!(44, 1, "Distances from a Locality")), "ACPI 6.5, 5.2.17"),
];

// Fields of a FADT that depend on each other.
#[rattlefmt::skip]
const PAIRED: [Relation; 19] = [
    // Two fields have the same address, unless one is zero. Those of a register block are compared if it is in System I/O space.
    rule!("FACP", Whole, Always, spot!(36, 4, "FIRMWARE_CTRL"), Agrees(spot!(132, 8, "X_FIRMWARE_CTRL")), "ACPI 6.5, 5.2.9"),
    rule!("FACP", Whole, Always, spot!(40, 4, "DSDT"), Agrees(spot!(140, 8, "X_DSDT")), "ACPI 6.5, 5.2.9"),
    rule!("FACP", Whole, Is(Byte(148), 255, 1), spot!(56, 4, "PM1a_EVT_BLK"), Agrees(spot!(152, 8, "X_PM1a_EVT_BLK")),
        "ACPI 6.5, 5.2.9"),
    rule!("FACP", Whole, Is(Byte(160), 255, 1), spot!(60, 4, "PM1b_EVT_BLK"), Agrees(spot!(164, 8, "X_PM1b_EVT_BLK")),
        "ACPI 6.5, 5.2.9"),
    rule!("FACP", Whole, Is(Byte(172), 255, 1), spot!(64, 4, "PM1a_CNT_BLK"), Agrees(spot!(176, 8, "X_PM1a_CNT_BLK")),
        "ACPI 6.5, 5.2.9"),
    rule!("FACP", Whole, Is(Byte(184), 255, 1), spot!(68, 4, "PM1b_CNT_BLK"), Agrees(spot!(188, 8, "X_PM1b_CNT_BLK")),
        "ACPI 6.5, 5.2.9"),
    rule!("FACP", Whole, Is(Byte(196), 255, 1), spot!(72, 4, "PM2_CNT_BLK"), Agrees(spot!(200, 8, "X_PM2_CNT_BLK")),
        "ACPI 6.5, 5.2.9"),
    rule!("FACP", Whole, Is(Byte(208), 255, 1), spot!(76, 4, "PM_TMR_BLK"), Agrees(spot!(212, 8, "X_PM_TMR_BLK")),
        "ACPI 6.5, 5.2.9"),
    rule!("FACP", Whole, Is(Byte(220), 255, 1), spot!(80, 4, "GPE0_BLK"), Agrees(spot!(224, 8, "X_GPE0_BLK")),
        "ACPI 6.5, 5.2.9"),
    rule!("FACP", Whole, Is(Byte(232), 255, 1), spot!(84, 4, "GPE1_BLK"), Agrees(spot!(236, 8, "X_GPE1_BLK")),
        "ACPI 6.5, 5.2.9"),
    // Unless the flag HW_REDUCED_ACPI is set, PM1a_EVT_BLK and PM1a_CNT_BLK have an address, a command needs SMI_CMD, and a block
    // needs its length.
    rule!("FACP", Whole, Is(DWord(112), 0x10_0000, 0), spot!(56, 4, "PM1a_EVT_BLK"), Needed(spot!(152, 8, "X_PM1a_EVT_BLK")),
        "ACPI 6.5, 5.2.9"),
    rule!("FACP", Whole, Is(DWord(112), 0x10_0000, 0), spot!(64, 4, "PM1a_CNT_BLK"), Needed(spot!(176, 8, "X_PM1a_CNT_BLK")),
        "ACPI 6.5, 5.2.9"),
    rule!("FACP", Whole, Is(DWord(112), 0x10_0000, 0), spot!(52, 1, "ACPI_ENABLE"), Needs(spot!(48, 4, "SMI_CMD")),
        "ACPI 6.5, 5.2.9"),
    rule!("FACP", Whole, Is(DWord(112), 0x10_0000, 0), spot!(53, 1, "ACPI_DISABLE"), Needs(spot!(48, 4, "SMI_CMD")),
        "ACPI 6.5, 5.2.9"),
    rule!("FACP", Whole, Is(DWord(112), 0x10_0000, 0), spot!(54, 1, "S4BIOS_REQ"), Needs(spot!(48, 4, "SMI_CMD")),
        "ACPI 6.5, 5.2.9"),
    rule!("FACP", Whole, Is(DWord(112), 0x10_0000, 0), spot!(55, 1, "PSTATE_CNT"), Needs(spot!(48, 4, "SMI_CMD")),
        "ACPI 6.5, 5.2.9"),
    rule!("FACP", Whole, Is(DWord(112), 0x10_0000, 0), spot!(95, 1, "CST_CNT"), Needs(spot!(48, 4, "SMI_CMD")),
        "ACPI 6.5, 5.2.9"),
    rule!("FACP", Whole, Is(DWord(112), 0x10_0000, 0), spot!(72, 4, "PM2_CNT_BLK"), Needs(spot!(90, 1, "PM2_CNT_LEN")),
        "ACPI 6.5, 5.2.9"),
    rule!("FACP", Whole, Is(DWord(112), 0x10_0000, 0), spot!(76, 4, "PM_TMR_BLK"), Needs(spot!(91, 1, "PM_TMR_LEN")),
        "ACPI 6.5, 5.2.9"),
];

// Fields that are multiples of numbers, or that have bits that are all set, or of which one is zero.
#[rattlefmt::skip]
const ALIGNED: [Relation; 21] = [
    rule!("FACP", Whole, Always, spot!(36, 4, "FIRMWARE_CTRL"), Multiple(64), "ACPI 6.5, 5.2.10"),
    rule!("FACP", Whole, Always, spot!(132, 8, "X_FIRMWARE_CTRL"), Multiple(64), "ACPI 6.5, 5.2.10"),
    rule!("FACP", Whole, Is(DWord(112), 0x10_0000, 0), spot!(92, 1, "GPE0_BLK_LEN"), Multiple(2), "ACPI 6.5, 5.2.9"),
    rule!("FACP", Whole, Is(DWord(112), 0x10_0000, 0), spot!(93, 1, "GPE1_BLK_LEN"), Multiple(2), "ACPI 6.5, 5.2.9"),
    rule!("DMAR", Kind(0), Always, spot!(8, 8, "Register Base Address"), Multiple(4096), "VT-d 4.1, 8.3"),
    rule!("DMAR", Kind(1), Always, spot!(8, 8, "Reserved Memory Region Base Address"), Multiple(4096), "VT-d 4.1, 8.4"),
    rule!("DMAR", Kind(1), Always, spot!(16, 8, "Reserved Memory Region Limit Address"), All(4095), "VT-d 4.1, 8.4"),
    rule!("CEDT", Kind(1), Always, spot!(8, 8, "Base HPA"), Multiple(0x1000_0000), "CXL 3.0, 9.17.1"),
    rule!("CEDT", Kind(1), Always, spot!(16, 8, "Window Size"), Multiple(0x1000_0000), "CXL 3.0, 9.17.1"),
    rule!("IORT", Entries(6, DWord(24), 28, FieldCount(DWord(20)), 20), Always, spot!(0, 8, "Physical Range Offset"),
        Multiple(0x1_0000), "Arm DEN0049E.d"),
    rule!("IORT", Entries(6, DWord(24), 28, FieldCount(DWord(20)), 20), Always, spot!(8, 8, "Physical Range Length"),
        Multiple(0x1_0000), "Arm DEN0049E.d"),
    rule!("APIC", Kind(16), Always, spot!(8, 8, "MailBoxAddress"), Multiple(4096), "ACPI 6.5, 5.2.12.19"),
    rule!("MCFG", Each, Always, spot!(0, 8, "Base Address"), Multiple(0x10_0000), "PCI Firmware 3.3, 4.1.2"),
    // An enabled processor isn't Online Capable.
    rule!("APIC", Kind(0), Always, spot!(4, 4, "Flags"), NotAll(3), "ACPI 6.5, 5.2.12.2"),
    rule!("APIC", Kind(7), Always, spot!(8, 4, "Flags"), NotAll(3), "ACPI 6.5, 5.2.12.10"),
    rule!("APIC", Kind(9), Always, spot!(8, 4, "Flags"), NotAll(3), "ACPI 6.5, 5.2.12.12"),
    rule!("APIC", Kind(11), Always, spot!(12, 4, "Flags"), NotAll(9), "ACPI 6.5, 5.2.12.14"),
    rule!("APIC", Kind(24), Always, spot!(4, 4, "Flags"), NotAll(3), "ACPI 6.6, 5.2.12"),
    // The Cache Level (bits 7:4) isn't above the Total Cache Levels (bits 3:0): it isn't 1 or 3 if these are 0, not 2 or 3 if
    // they are 0 or 1, and not 3 if they are 2.
    rule!("HMAT", Kind(2), Is(DWord(24), 15, 0), spot!(24, 4, "Cache Attributes"), NotAll(16), "ACPI 6.5, 5.2.28.5"),
    rule!("HMAT", Kind(2), Is(DWord(24), 14, 0), spot!(24, 4, "Cache Attributes"), NotAll(32), "ACPI 6.5, 5.2.28.5"),
    rule!("HMAT", Kind(2), Is(DWord(24), 15, 2), spot!(24, 4, "Cache Attributes"), NotAll(48), "ACPI 6.5, 5.2.28.5"),
];

// Ranges of fields at an offset of a table or of a structure. Some depend on other fields.
#[rattlefmt::skip]
const BOUNDED: [Relation; 27] = [
    rule!("FACP", Whole, Is(DWord(112), 1024, 1024), spot!(116, 1, "Address Space ID"), Between(0, 2), "ACPI 6.5, 5.2.9"),
    rule!("FACP", Whole, Is(DWord(112), 1024, 1024), spot!(117, 1, "Register Bit Width"), Between(8, 8), "ACPI 6.5, 5.2.9"),
    rule!("FACP", Whole, Is(DWord(112), 1024, 1024), spot!(118, 1, "Register Bit Offset"), Between(0, 0), "ACPI 6.5, 5.2.9"),
    rule!("FACP", Whole, Not(DWord(248), 0xffff_ffff, 0), spot!(244, 1, "Address Space ID"), Between(0, 2), "ACPI 6.5, 5.2.9"),
    rule!("FACP", Whole, Not(DWord(248), 0xffff_ffff, 0), spot!(245, 1, "Register Bit Width"), Between(8, 8),
        "ACPI 6.5, 5.2.9"),
    rule!("FACP", Whole, Not(DWord(248), 0xffff_ffff, 0), spot!(246, 1, "Register Bit Offset"), Between(0, 0),
        "ACPI 6.5, 5.2.9"),
    rule!("ECDT", Whole, Always, spot!(36, 1, "Address Space ID"), Between(0, 1), "ACPI 6.5, 5.2.15"),
    rule!("ECDT", Whole, Always, spot!(48, 1, "Address Space ID"), Between(0, 1), "ACPI 6.5, 5.2.15"),
    rule!("HPET", Whole, Always, spot!(40, 1, "Address Space ID"), Between(0, 1), "IA-PC HPET 1.0a, 3.2.4"),
    rule!("BGRT", Whole, Always, spot!(36, 2, "Version"), Between(1, 1), "ACPI 6.5, 5.2.23"),
    rule!("APIC", Whole, Always, spot!(8, 1, "Revision"), Between(1, 255), "ACPI 6.5, 5.2.12"),
    rule!("APIC", Kind(4), Always, spot!(5, 1, "Local APIC LINT#"), Between(0, 1), "ACPI 6.5, 5.2.12.7"),
    rule!("APIC", Kind(10), Always, spot!(8, 1, "Local x2APIC LINT#"), Between(0, 1), "ACPI 6.5, 5.2.12.13"),
    rule!("PPTT", Kind(1), Is(DWord(4), 128, 128), spot!(24, 4, "Cache ID"), Between(1, 0xffff_ffff), "ACPI 6.5, 5.2.30.2"),
    rule!("NFIT", Kind(0), Always, spot!(4, 2, "SPA Range Structure Index"), Between(1, 65535), "ACPI 6.5, 5.2.26.2"),
    rule!("NFIT", Kind(2), Always, spot!(4, 2, "Interleave Structure Index"), Between(1, 65535), "ACPI 6.5, 5.2.26.4"),
    rule!("NFIT", Kind(4), Always, spot!(4, 2, "NVDIMM Control Region Structure Index"), Between(1, 65535),
        "ACPI 6.5, 5.2.26.6"),
    rule!("NFIT", Kind(5), Always, spot!(4, 2, "NVDIMM Control Region Structure Index"), Between(1, 65535),
        "ACPI 6.5, 5.2.26.7"),
    rule!("PCCT", Kind(0), Always, spot!(16, 8, "Memory Length"), Between(9, 0xffff_ffff_ffff_ffff), "ACPI 6.5, 14.1.3"),
    rule!("PCCT", Kind(1), Always, spot!(16, 8, "Memory Length"), Between(9, 0xffff_ffff_ffff_ffff), "ACPI 6.5, 14.1.4"),
    rule!("PCCT", Kind(2), Always, spot!(16, 8, "Memory Length"), Between(9, 0xffff_ffff_ffff_ffff), "ACPI 6.5, 14.1.5"),
    rule!("CEDT", Kind(0), Is(DWord(8), 0xffff_ffff, 0), spot!(24, 8, "Length"), Between(8192, 8192), "CXL 3.0, 9.17.1"),
    rule!("CEDT", Kind(0), Is(DWord(8), 0xffff_ffff, 1), spot!(24, 8, "Length"), Between(0x1_0000, 0x1_0000),
        "CXL 3.0, 9.17.1"),
    rule!("RHCT", Whole, Always, spot!(40, 8, "Time Base Frequency"), Between(1, 0xffff_ffff_ffff_ffff), "ACPI 6.6"),
    rule!("TCPA", Whole, Is(Word(36), 65535, 0), spot!(4, 4, "Length"), Between(50, 50), "TCG ACPI Specification 1.4"),
    rule!("TCPA", Whole, Is(Word(36), 65535, 1), spot!(4, 4, "Length"), Between(100, 100), "TCG ACPI Specification 1.4"),
    // An RSDP of 36 bytes has the revision 2 or a later one.
    rule!("RSD ", Whole, Is(DWord(20), 0xffff_ffff, 36), spot!(15, 1, "Revision"), Between(2, 255), "ACPI 6.5, 5.2.5.3"),
];

// Lengths that other fields determine, or that the standard states.
#[rattlefmt::skip]
const SIZED: [Relation; 13] = [
    // A window has as many targets as ways.
    rule!("CEDT", Kind(1), Is(Byte(24), 255, 0), spot!(2, 2, "Record Length"), Between(40, 40), "CXL 3.0, 9.17.1"),
    rule!("CEDT", Kind(1), Is(Byte(24), 255, 1), spot!(2, 2, "Record Length"), Between(44, 44), "CXL 3.0, 9.17.1"),
    rule!("CEDT", Kind(1), Is(Byte(24), 255, 2), spot!(2, 2, "Record Length"), Between(52, 52), "CXL 3.0, 9.17.1"),
    rule!("CEDT", Kind(1), Is(Byte(24), 255, 3), spot!(2, 2, "Record Length"), Between(68, 68), "CXL 3.0, 9.17.1"),
    rule!("CEDT", Kind(1), Is(Byte(24), 255, 4), spot!(2, 2, "Record Length"), Between(100, 100), "CXL 3.0, 9.17.1"),
    rule!("CEDT", Kind(1), Is(Byte(24), 255, 8), spot!(2, 2, "Record Length"), Between(48, 48), "CXL 3.0, 9.17.1"),
    rule!("CEDT", Kind(1), Is(Byte(24), 255, 9), spot!(2, 2, "Record Length"), Between(60, 60), "CXL 3.0, 9.17.1"),
    rule!("CEDT", Kind(1), Is(Byte(24), 255, 10), spot!(2, 2, "Record Length"), Between(84, 84), "CXL 3.0, 9.17.1"),
    // The length of a header: with or without that of all tables in EINJ and ERST, as Linux takes both.
    rule!("EINJ", Whole, Always, spot!(36, 4, "Injection Header Size"), Between(12, 48), "ACPI 6.5, 18.6.1"),
    rule!("ERST", Whole, Always, spot!(36, 4, "Serialization Header Size"), Between(12, 48), "ACPI 6.5, 18.5.1"),
    rule!("WDAT", Whole, Always, spot!(36, 4, "Watchdog Header Length"), Between(32, 32),
        "Hardware Watchdog Timers Design Specification"),
    rule!("HEST", Kind(9), Always, spot!(33, 1, "Length"), Between(28, 28), "ACPI 6.5, 18.3.2.9"),
    rule!("HEST", Kind(10), Always, spot!(33, 1, "Length"), Between(28, 28), "ACPI 6.5, 18.3.2.9"),
];

// Strings that end with a zero.
#[rattlefmt::skip]
const STRINGS: [Relation; 7] = [
    // The numbers of their bytes, which count the zero, stand in fields.
    rule!("DBG2", Each, Always, spot!(6, 2, "NamespaceStringOffset"), Terminated(spot!(4, 2, "NamespaceStringLength")),
        "Microsoft DBG2"),
    rule!("SPCR", Whole, Always, spot!(86, 2, "NamespaceStringOffset"), Terminated(spot!(84, 2, "NamespaceStringLength")),
        "Microsoft SPCR"),
    rule!("RHCT", Kind(0), Always, spot!(6, 2, "ISA string length"), TerminatedAt(8), "ACPI 6.6"),
    // They end before the end of their structure or table, or before what follows them in it.
    rule!("ECDT", Whole, Always, spot!(65, 1, "EC_ID"), TerminatedBefore(65, spot!(4, 4, "Length")), "ACPI 6.5, 5.2.15"),
    rule!("DMAR", Kind(4), Always, spot!(8, 1, "ACPI Object Name"), TerminatedBefore(8, spot!(2, 2, "Length")),
        "VT-d 4.1, 8.7"),
    rule!("IORT", Kind(1), Always, spot!(29, 1, "Device Object Name"),
        TerminatedBefore(29, spot!(12, 4, "Reference to ID Array")), "Arm DEN0049E.d"),
    rule!("RIMT", Kind(2), Always, spot!(12, 1, "Device Object Name"),
        TerminatedBefore(12, spot!(8, 2, "Offset of Mappings")), "RISC-V RIMT"),
];

/// The rules on fields that are those of other structures of a table.
#[rattlefmt::skip]
pub const REFERRED: [Relation; 21] = [
    // Offsets of structures.
    rule!("PPTT", Kind(0), Always, spot!(8, 4, "Parent"), Points(&[0]), "ACPI 6.5, 5.2.30.1"),
    rule!("PPTT", Entries(0, Nowhere, 20, FieldCount(DWord(16)), 4), Always, spot!(0, 4, "Private Resource"), Points(&[1, 2]),
        "ACPI 6.5, 5.2.30.1"),
    rule!("PPTT", Kind(1), Always, spot!(8, 4, "Next Level of Cache"), Points(&[1]), "ACPI 6.5, 5.2.30.2"),
    rule!("RHCT", Entries(65535, Nowhere, 12, FieldCount(Word(6)), 4), Always, spot!(0, 4, "Offset"), Points(&[0, 1, 2]),
        "ACPI 6.6"),
    rule!("IORT", Entries(1, DWord(12), 16, FieldCount(DWord(8)), 20), Always, spot!(12, 4, "Output Reference"),
        Points(&[0, 3, 4, 7]), "Arm DEN0049E.d"),
    rule!("IORT", Entries(2, DWord(12), 16, FieldCount(DWord(8)), 20), Always, spot!(12, 4, "Output Reference"),
        Points(&[0, 3, 4, 7]), "Arm DEN0049E.d"),
    rule!("IORT", Entries(3, DWord(12), 16, FieldCount(DWord(8)), 20), Always, spot!(12, 4, "Output Reference"),
        Points(&[0, 3, 4, 7]), "Arm DEN0049E.d"),
    rule!("IORT", Entries(4, DWord(12), 16, FieldCount(DWord(8)), 20), Always, spot!(12, 4, "Output Reference"),
        Points(&[0, 3, 4, 7]), "Arm DEN0049E.d"),
    rule!("IORT", Entries(5, DWord(12), 16, FieldCount(DWord(8)), 20), Always, spot!(12, 4, "Output Reference"),
        Points(&[0, 3, 4, 7]), "Arm DEN0049E.d"),
    rule!("IORT", Entries(6, DWord(12), 16, FieldCount(DWord(8)), 20), Always, spot!(12, 4, "Output Reference"),
        Points(&[0, 3, 4, 7]), "Arm DEN0049E.d"),
    rule!("IORT", Kind(5), Always, spot!(28, 4, "Node Reference"), Points(&[0, 1, 2, 3, 4, 7]), "Arm DEN0049E.d"),
    rule!("RIMT", Entries(1, Word(12), 16, FieldCount(Word(14)), 20), Always, spot!(12, 4, "Destination IOMMU Offset"),
        Points(&[0]), "RISC-V RIMT"),
    rule!("RIMT", Entries(2, Word(8), 12, FieldCount(Word(10)), 20), Always, spot!(12, 4, "Destination IOMMU Offset"),
        Points(&[0]), "RISC-V RIMT"),
    rule!("VIOT", Kind(1), Always, spot!(16, 2, "Output Node"), Points(&[3, 4]), "ACPI 6.5, 5.2.32"),
    rule!("VIOT", Kind(2), Always, spot!(16, 2, "Output Node"), Points(&[3, 4]), "ACPI 6.5, 5.2.32"),
    // Structures of which each has the offset of the next.
    rule!("PPTT", Kind(0), Always, spot!(8, 4, "Parent"), Ends, "ACPI 6.5, 5.2.30.1"),
    rule!("PPTT", Kind(1), Always, spot!(8, 4, "Next Level of Cache"), Ends, "ACPI 6.5, 5.2.30.2"),
    // Numbers of other structures.
    rule!("NFIT", Kind(1), Always, spot!(12, 2, "SPA Range Structure Index"),
        Refers(0, spot!(4, 2, "SPA Range Structure Index")), "ACPI 6.5, 5.2.26.3"),
    rule!("NFIT", Kind(1), Always, spot!(14, 2, "NVDIMM Control Region Structure Index"),
        Refers(4, spot!(4, 2, "NVDIMM Control Region Structure Index")), "ACPI 6.5, 5.2.26.3"),
    rule!("NFIT", Kind(1), Always, spot!(40, 2, "Interleave Structure Index"),
        Refers(2, spot!(4, 2, "Interleave Structure Index")), "ACPI 6.5, 5.2.26.3"),
    rule!("NFIT", Kind(5), Always, spot!(4, 2, "NVDIMM Control Region Structure Index"),
        Refers(4, spot!(4, 2, "NVDIMM Control Region Structure Index")), "ACPI 6.5, 5.2.26.7"),
];

// Blocks of registers and regions of memory, which have an address and a length.
#[rattlefmt::skip]
const PLACED: [Relation; 16] = [
    // A block of a FADT needs a length, unless the flag HW_REDUCED_ACPI is set.
    rule!("FACP", Whole, Is(DWord(112), 0x10_0000, 0), spot!(80, 4, "GPE0_BLK"), Needs(spot!(92, 1, "GPE0_BLK_LEN")),
        "ACPI 6.5, 5.2.9"),
    rule!("FACP", Whole, Is(DWord(112), 0x10_0000, 0), spot!(84, 4, "GPE1_BLK"), Needs(spot!(93, 1, "GPE1_BLK_LEN")),
        "ACPI 6.5, 5.2.9"),
    rule!("FACP", Whole, Is(DWord(112), 0x10_0000, 0), spot!(200, 8, "X_PM2_CNT_BLK"), Needs(spot!(90, 1, "PM2_CNT_LEN")),
        "ACPI 6.5, 5.2.9"),
    rule!("FACP", Whole, Is(DWord(112), 0x10_0000, 0), spot!(212, 8, "X_PM_TMR_BLK"), Needs(spot!(91, 1, "PM_TMR_LEN")),
        "ACPI 6.5, 5.2.9"),
    rule!("FACP", Whole, Is(DWord(112), 0x10_0000, 0), spot!(224, 8, "X_GPE0_BLK"), Needs(spot!(92, 1, "GPE0_BLK_LEN")),
        "ACPI 6.5, 5.2.9"),
    rule!("FACP", Whole, Is(DWord(112), 0x10_0000, 0), spot!(236, 8, "X_GPE1_BLK"), Needs(spot!(93, 1, "GPE1_BLK_LEN")),
        "ACPI 6.5, 5.2.9"),
    // A region of memory with a length needs an address.
    rule!("BERT", Whole, Always, spot!(36, 4, "Boot Error Region Length"), Needs(spot!(40, 8, "Boot Error Region")),
        "ACPI 6.5, 18.3.1"),
    rule!("CCEL", Whole, Always, spot!(40, 8, "Log Area Minimum Length"), Needs(spot!(48, 8, "Log Area Start Address")),
        "ACPI 6.5, 5.2.34"),
    // Addresses that aren't zero, and lengths that have room for a Generic Error Status Block.
    rule!("FACP", Whole, Is(DWord(112), 1024, 1024), spot!(120, 8, "Address"), Between(1, 0xffff_ffff_ffff_ffff),
        "ACPI 6.5, 5.2.9"),
    rule!("ECDT", Whole, Always, spot!(40, 8, "Address"), Between(1, 0xffff_ffff_ffff_ffff), "ACPI 6.5, 5.2.15"),
    rule!("ECDT", Whole, Always, spot!(52, 8, "Address"), Between(1, 0xffff_ffff_ffff_ffff), "ACPI 6.5, 5.2.15"),
    rule!("BERT", Whole, Not(DWord(36), 0xffff_ffff, 0), spot!(36, 4, "Boot Error Region Length"), Between(20, 0xffff_ffff),
        "ACPI 6.5, 18.3.1"),
    rule!("BGRT", Whole, Always, spot!(40, 8, "Image Address"), Between(1, 0xffff_ffff_ffff_ffff), "ACPI 6.5, 5.2.23"),
    rule!("DMAR", Kind(0), Always, spot!(8, 8, "Register Base Address"), Between(1, 0xffff_ffff_ffff_ffff), "VT-d 4.1, 8.3"),
    rule!("HEST", Kind(9), Is(Byte(7), 255, 1), spot!(60, 4, "Error Status Block Length"), Between(20, 0xffff_ffff),
        "ACPI 6.5, 18.3.2.7"),
    rule!("HEST", Kind(10), Is(Byte(7), 255, 1), spot!(60, 4, "Error Status Block Length"), Between(20, 0xffff_ffff),
        "ACPI 6.5, 18.3.2.8"),
];

// Processors that are enabled, or that can be brought online (ACPI 6.5, 5.2.12).
#[rattlefmt::skip]
const PROCESSORS: [Among; 6] = [
    among!(Kind(0), Not(DWord(4), 3, 0)),
    among!(Kind(7), Not(DWord(8), 3, 0)),
    among!(Kind(9), Not(DWord(8), 3, 0)),
    among!(Kind(11), Not(DWord(12), 9, 0)),
    among!(Kind(17), Is(DWord(11), 1, 1)),
    among!(Kind(24), Not(DWord(4), 3, 0)),
];

// Structures without which a table is of no use.
#[rattlefmt::skip]
const INCLUDED: [Relation; 1] = [
    rule!("APIC", Whole, Always, spot!(0, 4, "Signature"),
        Includes(&PROCESSORS, "processor that is enabled or online capable"), "ACPI 6.5, 5.2.12"),
];

fn check_numbered<'a>(
    alloc: Global,
    walk: Option<Walk>,
    bytes: &'a [u8],
    findings: &mut Vec<Finding<'a>>,
) -> Result<(), AllocError>
    ensures { OnOk result (map noted findings.new.items
        ≡ map noted findings.old.items ++ relations_findings numbered walk bytes.now) }
{
    check_relations(alloc, &NUMBERED, walk, bytes, findings)
}

fn check_different<'a>(
    alloc: Global,
    walk: Option<Walk>,
    bytes: &'a [u8],
    findings: &mut Vec<Finding<'a>>,
) -> Result<(), AllocError>
    ensures { OnOk result (map noted findings.new.items
        ≡ map noted findings.old.items ++ relations_findings different walk bytes.now) }
{
    check_relations(alloc, &DIFFERENT, walk, bytes, findings)
}

fn check_ordered<'a>(
    alloc: Global,
    walk: Option<Walk>,
    bytes: &'a [u8],
    findings: &mut Vec<Finding<'a>>,
) -> Result<(), AllocError>
    ensures { OnOk result (map noted findings.new.items
        ≡ map noted findings.old.items ++ relations_findings ordered walk bytes.now) }
{
    check_relations(alloc, &ORDERED, walk, bytes, findings)
}

fn check_counted<'a>(
    alloc: Global,
    walk: Option<Walk>,
    bytes: &'a [u8],
    findings: &mut Vec<Finding<'a>>,
) -> Result<(), AllocError>
    ensures { OnOk result (map noted findings.new.items
        ≡ map noted findings.old.items ++ relations_findings counted walk bytes.now) }
{
    check_relations(alloc, &COUNTED, walk, bytes, findings)
}

fn check_paired<'a>(
    alloc: Global,
    walk: Option<Walk>,
    bytes: &'a [u8],
    findings: &mut Vec<Finding<'a>>,
) -> Result<(), AllocError>
    ensures { OnOk result (map noted findings.new.items
        ≡ map noted findings.old.items ++ relations_findings paired walk bytes.now) }
{
    check_relations(alloc, &PAIRED, walk, bytes, findings)
}

fn check_aligned<'a>(
    alloc: Global,
    walk: Option<Walk>,
    bytes: &'a [u8],
    findings: &mut Vec<Finding<'a>>,
) -> Result<(), AllocError>
    ensures { OnOk result (map noted findings.new.items
        ≡ map noted findings.old.items ++ relations_findings aligned walk bytes.now) }
{
    check_relations(alloc, &ALIGNED, walk, bytes, findings)
}

fn check_bounded<'a>(
    alloc: Global,
    walk: Option<Walk>,
    bytes: &'a [u8],
    findings: &mut Vec<Finding<'a>>,
) -> Result<(), AllocError>
    ensures { OnOk result (map noted findings.new.items
        ≡ map noted findings.old.items ++ relations_findings bounded walk bytes.now) }
{
    check_relations(alloc, &BOUNDED, walk, bytes, findings)
}

fn check_sized<'a>(
    alloc: Global,
    walk: Option<Walk>,
    bytes: &'a [u8],
    findings: &mut Vec<Finding<'a>>,
) -> Result<(), AllocError>
    ensures { OnOk result (map noted findings.new.items
        ≡ map noted findings.old.items ++ relations_findings sized walk bytes.now) }
{
    check_relations(alloc, &SIZED, walk, bytes, findings)
}

fn check_strings<'a>(
    alloc: Global,
    walk: Option<Walk>,
    bytes: &'a [u8],
    findings: &mut Vec<Finding<'a>>,
) -> Result<(), AllocError>
    ensures { OnOk result (map noted findings.new.items
        ≡ map noted findings.old.items ++ relations_findings strings walk bytes.now) }
{
    check_relations(alloc, &STRINGS, walk, bytes, findings)
}

fn check_referred<'a>(
    alloc: Global,
    walk: Option<Walk>,
    bytes: &'a [u8],
    findings: &mut Vec<Finding<'a>>,
) -> Result<(), AllocError>
    ensures { OnOk result (map noted findings.new.items
        ≡ map noted findings.old.items ++ relations_findings referred walk bytes.now) }
{
    check_relations(alloc, &REFERRED, walk, bytes, findings)
}

fn check_placed<'a>(
    alloc: Global,
    walk: Option<Walk>,
    bytes: &'a [u8],
    findings: &mut Vec<Finding<'a>>,
) -> Result<(), AllocError>
    ensures { OnOk result (map noted findings.new.items
        ≡ map noted findings.old.items ++ relations_findings placed walk bytes.now) }
{
    check_relations(alloc, &PLACED, walk, bytes, findings)
}

fn check_included<'a>(
    alloc: Global,
    walk: Option<Walk>,
    bytes: &'a [u8],
    findings: &mut Vec<Finding<'a>>,
) -> Result<(), AllocError>
    ensures { OnOk result (map noted findings.new.items
        ≡ map noted findings.old.items ++ relations_findings included walk bytes.now) }
{
    check_relations(alloc, &INCLUDED, walk, bytes, findings)
}

// ---- all rules

// Adds the rules on several fields that a table breaks.
fn check_standard<'a>(
    alloc: Global,
    walk: Option<Walk>,
    bytes: &'a [u8],
    findings: &mut Vec<Finding<'a>>,
) -> Result<(), AllocError>
    ensures { OnOk result (map noted findings.new.items
        ≡ map noted findings.old.items ++ standard_findings walk bytes.now) }
{
    check_numbered(alloc, walk, bytes, findings)?;
    check_different(alloc, walk, bytes, findings)?;
    check_ordered(alloc, walk, bytes, findings)?;
    check_counted(alloc, walk, bytes, findings)?;
    check_paired(alloc, walk, bytes, findings)?;
    check_aligned(alloc, walk, bytes, findings)?;
    check_bounded(alloc, walk, bytes, findings)?;
    check_sized(alloc, walk, bytes, findings)?;
    check_strings(alloc, walk, bytes, findings)?;
    check_referred(alloc, walk, bytes, findings)?;
    check_placed(alloc, walk, bytes, findings)?;
    check_included(alloc, walk, bytes, findings)
}

// Returns the rules that fields of a table break.
fn findings_of<'a>(
    alloc: Global,
    bytes: &[u8],
    fields: &[Field<'a>],
) -> Result<Vec<Finding<'a>>, AllocError>
    ensures { IfOk result (λ found. map noted found.items
        ≡ fields_findings allowed_numbers ranges bytes.now (map seen fields.now)) }
{
    fields_findings(alloc, &ALLOWED, &RANGES, bytes, fields)
}

/// Returns the rules that a table breaks, by its form and its walk. First come those on each of its fields, in the order of their
/// offsets. Then come those on several fields, in the order of the rules. The only error is that memory ran out.
pub fn table_findings<'a>(
    alloc: Global,
    form: &TableForm,
    walk: Option<Walk>,
    bytes: &'a [u8],
) -> Result<Vec<Finding<'a>>, AllocError>
    ensures { IfOk result (λ found. map noted found.items ≡ table_findings form.now walk bytes.now) }
{
    let fields = fields_of(alloc, form, walk, bytes)?;
    let mut findings = findings_of(alloc, bytes, &fields)?;
    check_standard(alloc, walk, bytes, &mut findings)?;
    Ok(findings)
}
