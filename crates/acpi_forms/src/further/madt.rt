//! Structures of the Multiple APIC Description Table that no library call writes: those of SAPICs, of LoongArch, of GICv5, and
//! the mailbox by which processors wake up.

use acpi_base::row::{Bits, Row, Word};
use acpi_base::walk::Place;
use acpi_text::form::{Choice, Inner, Part, StructureForm};

// The Multiprocessor Wakeup Structure (ACPI 6.5, 5.2.12.19).
const WAKEUP: [Row; 5] = [
    Row::Preset("Type", 1, 0x10),
    Row::Number("Length", 1),
    Row::Number("MailBoxVersion", 2),
    Row::Reserved(4),
    Row::Hex("MailBoxAddress", 8),
];

// What it has after that, by its length: version 1 of the mailbox has a vector (ACPI 6.6, 5.2.12.19).
const WAKEUP_ENDS: [Choice; 2] = [
    Choice {
        number: 16,
        name: "Mailbox of Version 0",
        rows: &[],
    },
    Choice {
        number: 24,
        name: "Mailbox of Version 1",
        rows: &[Row::Hex("ResetVector", 8)],
    },
];

// ---- SAPICs, the interrupt controllers of Itanium

// The I/O SAPIC (ACPI 6.5, 5.2.12.9).
const IO_SAPIC: [Row; 6] = [
    Row::Preset("Type", 1, 0x06),
    Row::Preset("Length", 1, 16),
    Row::Hex("I/O APIC ID", 1),
    Row::Reserved(1),
    Row::Number("Global System Interrupt Base", 4),
    Row::Hex("I/O SAPIC Address", 8),
];

// A processor and its local SAPIC, before the string that ends the structure (ACPI 6.5, 5.2.12.10). The flags are those of a
// local APIC.
const LOCAL_SAPIC: [Row; 8] = [
    Row::Preset("Type", 1, 0x07),
    Row::Number("Length", 1),
    Row::Hex("ACPI Processor ID", 1),
    Row::Hex("Local SAPIC ID", 1),
    Row::Hex("Local SAPIC EID", 1),
    Row::Reserved(3),
    Row::Flags(
        "Flags",
        4,
        &[
            Bits::Flag(0x1, "Enabled"),
            Bits::Flag(0x2, "Online Capable"),
        ],
    ),
    Row::Hex("ACPI Processor UID Value", 4),
];

// MPS INTI flags (ACPI 6.5, 5.2.12.5).
const INTI_FLAGS: [Bits; 2] = [
    Bits::OneOf(
        0x3,
        &[
            Word(0x0, "Conforms to Bus Polarity"),
            Word(0x1, "Active High"),
            Word(0x3, "Active Low"),
        ],
    ),
    Bits::OneOf(
        0xc,
        &[
            Word(0x0, "Conforms to Bus Trigger Mode"),
            Word(0x4, "Edge Triggered"),
            Word(0xc, "Level Triggered"),
        ],
    ),
];

// An interrupt of the platform (ACPI 6.5, 5.2.12.11).
const PLATFORM_INTERRUPT_SOURCE: [Row; 9] = [
    Row::Preset("Type", 1, 0x08),
    Row::Preset("Length", 1, 16),
    Row::Flags("Flags", 2, &INTI_FLAGS),
    Row::OneOf(
        "Interrupt Type",
        1,
        &[
            Word(1, "PMI"),
            Word(2, "INIT"),
            Word(3, "Corrected Platform Error Interrupt"),
        ],
    ),
    Row::Hex("Processor ID", 1),
    Row::Hex("Processor EID", 1),
    Row::Number("I/O SAPIC Vector", 1),
    Row::Number("Global System Interrupt", 4),
    Row::Flags(
        "Platform Interrupt Source Flags",
        4,
        &[Bits::Flag(0x1, "CPEI Processor Override")],
    ),
];

// ---- LoongArch

// The interrupt controller of a processor (ACPI 6.5, 5.2.12.20).
const CORE_PIC: [Row; 6] = [
    Row::Preset("Type", 1, 0x11),
    Row::Preset("Length", 1, 15),
    Row::Preset("Version", 1, 1),
    Row::Hex("ACPI Processor ID", 4),
    Row::Hex("Physical Processor ID", 4),
    Row::Flags("Flags", 4, &[Bits::Flag(0x1, "Enabled")]),
];

// The interrupt controller of legacy devices (ACPI 6.5, 5.2.12.21). The vectors and the mapping have a part for each of two
// vectors.
const LIO_PIC: [Row; 7] = [
    Row::Preset("Type", 1, 0x12),
    Row::Preset("Length", 1, 23),
    Row::Preset("Version", 1, 1),
    Row::Hex("Base Address", 8),
    Row::Number("Size", 2),
    Row::Bytes("Cascade vector", 2),
    Row::Bytes("Cascade vector mapping", 8),
];

// The interrupt controller of HyperTransport (ACPI 6.5, 5.2.12.22), with a byte for each of eight vectors.
const HT_PIC: [Row; 6] = [
    Row::Preset("Type", 1, 0x13),
    Row::Preset("Length", 1, 21),
    Row::Preset("Version", 1, 1),
    Row::Hex("Base Address", 8),
    Row::Number("Size", 2),
    Row::Bytes("Cascade vector", 8),
];

// The extended I/O interrupt controller (ACPI 6.5, 5.2.12.23).
const EIO_PIC: [Row; 6] = [
    Row::Preset("Type", 1, 0x14),
    Row::Preset("Length", 1, 13),
    Row::Preset("Version", 1, 1),
    Row::Number("Cascade vector", 1),
    Row::Number("Node", 1),
    Row::Hex("Node map", 8),
];

// The controller of message-signaled interrupts (ACPI 6.5, 5.2.12.24).
const MSI_PIC: [Row; 6] = [
    Row::Preset("Type", 1, 0x15),
    Row::Preset("Length", 1, 19),
    Row::Preset("Version", 1, 1),
    Row::Hex("Message Address", 8),
    Row::Number("Start", 4),
    Row::Number("Count", 4),
];

// The interrupt controller of a bridge (ACPI 6.5, 5.2.12.25).
const BIO_PIC: [Row; 7] = [
    Row::Preset("Type", 1, 0x16),
    Row::Preset("Length", 1, 17),
    Row::Preset("Version", 1, 1),
    Row::Hex("Base Address", 8),
    Row::Number("Size", 2),
    Row::Number("Hardware ID", 2),
    Row::Number("GSI base", 2),
];

// The interrupt controller of devices on LPC (ACPI 6.5, 5.2.12.26).
const LPC_PIC: [Row; 6] = [
    Row::Preset("Type", 1, 0x17),
    Row::Preset("Length", 1, 14),
    Row::Preset("Version", 1, 1),
    Row::Hex("Base Address", 8),
    Row::Number("Size", 2),
    Row::Number("Cascade vector", 1),
];

// ---- GICv5 (ACPI 6.6, 5.2.12)
// The places of these fields were compared with a table that ACPICA 20260408 compiled.

// The interrupt routing service.
const GICV5_IRS: [Row; 9] = [
    Row::Preset("Type", 1, 0x1c),
    Row::Preset("Length", 1, 32),
    Row::Preset("GIC Version", 1, 5),
    Row::Reserved(1),
    Row::Hex("IRS ID", 4),
    Row::Flags("Flags", 4, &[Bits::Flag(0x1, "Non-coherent")]),
    Row::Reserved(4),
    Row::Hex("Config Frame Base Address", 8),
    Row::Hex("SET_LPI Frame Base Address", 8),
];

// The interrupt translation service.
const GICV5_ITS: [Row; 6] = [
    Row::Preset("Type", 1, 0x1d),
    Row::Preset("Length", 1, 16),
    Row::Flags("Flags", 1, &[Bits::Flag(0x1, "Non-coherent")]),
    Row::Reserved(1),
    Row::Hex("ITS ID", 4),
    Row::Hex("Config Frame Base Address", 8),
];

// A frame through which devices reach an interrupt translation service.
const GICV5_TRANSLATE_FRAME: [Row; 7] = [
    Row::Preset("Type", 1, 0x1e),
    Row::Preset("Length", 1, 24),
    Row::Reserved(2),
    Row::Hex("Linked ITS ID", 4),
    Row::Hex("Translate Frame ID", 4),
    Row::Reserved(4),
    Row::Hex("Translate Frame Base Address", 8),
];

// ---- all of them

/// The structures of a MADT that no library call writes.
pub const MADT_FURTHER: [StructureForm; 14] = [
    StructureForm {
        number: 6,
        name: "I/O SAPIC Structure",
        parts: &[Part::Fields(&IO_SAPIC)],
        inner: &Inner::Nothing,
    },
    StructureForm {
        number: 7,
        name: "Processor Local SAPIC Structure",
        parts: &[
            Part::Fields(&LOCAL_SAPIC),
            Part::Until("ACPI Processor UID String", Place::Byte(1)),
        ],
        inner: &Inner::Nothing,
    },
    StructureForm {
        number: 8,
        name: "Platform Interrupt Source Structure",
        parts: &[Part::Fields(&PLATFORM_INTERRUPT_SOURCE)],
        inner: &Inner::Nothing,
    },
    StructureForm {
        number: 16,
        name: "Multiprocessor Wakeup Structure",
        parts: &[
            Part::Fields(&WAKEUP),
            Part::Chosen(Place::Byte(1), &WAKEUP_ENDS),
        ],
        inner: &Inner::Nothing,
    },
    StructureForm {
        number: 17,
        name: "Core Programmable Interrupt Controller (CORE PIC) Structure",
        parts: &[Part::Fields(&CORE_PIC)],
        inner: &Inner::Nothing,
    },
    StructureForm {
        number: 18,
        name: "Legacy I/O Programmable Interrupt Controller (LIO PIC) Structure",
        parts: &[Part::Fields(&LIO_PIC)],
        inner: &Inner::Nothing,
    },
    StructureForm {
        number: 19,
        name: "HyperTransport Programmable Interrupt Controller (HT PIC) Structure",
        parts: &[Part::Fields(&HT_PIC)],
        inner: &Inner::Nothing,
    },
    StructureForm {
        number: 20,
        name: "Extend I/O Programmable Interrupt Controller (EIO PIC) Structure",
        parts: &[Part::Fields(&EIO_PIC)],
        inner: &Inner::Nothing,
    },
    StructureForm {
        number: 21,
        name: "MSI Programmable Interrupt Controller (MSI PIC) Structure",
        parts: &[Part::Fields(&MSI_PIC)],
        inner: &Inner::Nothing,
    },
    StructureForm {
        number: 22,
        name: "Bridge I/O Programmable Interrupt Controller (BIO PIC) Structure",
        parts: &[Part::Fields(&BIO_PIC)],
        inner: &Inner::Nothing,
    },
    StructureForm {
        number: 23,
        name: "Low Pin Count Programmable Interrupt Controller (LPC PIC) Structure",
        parts: &[Part::Fields(&LPC_PIC)],
        inner: &Inner::Nothing,
    },
    StructureForm {
        number: 28,
        name: "GICv5 Interrupt Routing Service (IRS) Structure",
        parts: &[Part::Fields(&GICV5_IRS)],
        inner: &Inner::Nothing,
    },
    StructureForm {
        number: 29,
        name: "GICv5 Interrupt Translation Service (ITS) Structure",
        parts: &[Part::Fields(&GICV5_ITS)],
        inner: &Inner::Nothing,
    },
    StructureForm {
        number: 30,
        name: "GICv5 ITS Translate Frame Structure",
        parts: &[Part::Fields(&GICV5_TRANSLATE_FRAME)],
        inner: &Inner::Nothing,
    },
];
