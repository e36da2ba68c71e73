//! Interrupt controllers of x86.

ghost use Rattle.std.specs.Prelude.{◌≡◌};
ghost use Rattle.acpi_base.specs.Object.{whole, whole_ends_well};
ghost use Rattle.acpi_lists.specs.MadtX86.{processor_local_apic, processor_local_apic_bytes};
ghost use Rattle.acpi_lists.specs.MadtX86.{processor_local_apic_fields, io_apic, io_apic_bytes, io_apic_fields};

use crate::madt::EnabledStatus;
use acpi_base::error::R;
use acpi_base::object::Aml;
use acpi_base::row::{Bits, Record, Row, record_of_numbers, write_record};
use acpi_base::sink::AmlSink;

/// A processor and its local APIC: 8 bytes (ACPI 6.5, 5.2.12.2).
#[derive(Clone, Copy, Debug)]
pub struct ProcessorLocalApic {
    processor_uid: u8,
    apic_id: u8,
    status: EnabledStatus,
}

impl ProcessorLocalApic {
    /// The processor with this unique id in the namespace (offset 2) and this local APIC id (offset 3).
    pub fn new(uid: u8, apic_id: u8, enabled: EnabledStatus) -> ProcessorLocalApic
        ensures { result ≡ processor_local_apic uid apic_id enabled }
    {
        ProcessorLocalApic {
            processor_uid: uid,
            apic_id,
            status: enabled,
        }
    }
}

/// The rows of a Processor Local APIC Structure.
pub const PROCESSOR_LOCAL_APIC: [Row; 5] = [
    Row::Preset("Type", 1, 0x00),
    Row::Preset("Length", 1, 8),
    Row::Hex("ACPI Processor UID", 1),
    Row::Hex("APIC ID", 1),
    Row::Flags(
        "Flags",
        4,
        &[
            Bits::Flag(0x1, "Enabled"),
            Bits::Flag(0x2, "Online Capable"),
        ],
    ),
];

impl Record<8> for ProcessorLocalApic {
    ghost fields = { processor_local_apic_fields };

    fn rows() -> &'static [Row] {
        &PROCESSOR_LOCAL_APIC
    }

    fn bytes(&self) -> [u8; 8] {
        record_of_numbers(
            &PROCESSOR_LOCAL_APIC,
            &[
                0x00,
                8,
                u64::from(self.processor_uid),
                u64::from(self.apic_id),
                self.status as u64,
            ],
        )
    }
}

impl Aml for ProcessorLocalApic {
    ghost object = { λ s. whole (processor_local_apic_bytes s) };

    ghost ends_well = { λ s. whole_ends_well (processor_local_apic_bytes s) };

    fn to_aml_bytes(&self, sink: &mut dyn AmlSink) -> R<()> {
        write_record(self, sink)
    }
}

/// An I/O APIC: 12 bytes (ACPI 6.5, 5.2.12.3).
#[derive(Clone, Copy, Debug)]
pub struct IoApic {
    io_apic_id: u8,
    io_apic_addr: u32,
    gsi_base: u32,
}

impl IoApic {
    /// The I/O APIC with this id (offset 2) at a physical address (offset 4). Its inputs begin at a global system interrupt
    /// (offset 8).
    pub fn new(io_apic_id: u8, io_apic_addr: u32, gsi_base: u32) -> IoApic
        ensures { result ≡ io_apic io_apic_id io_apic_addr gsi_base }
    {
        IoApic {
            io_apic_id,
            io_apic_addr,
            gsi_base,
        }
    }
}

/// The rows of an I/O APIC Structure.
pub const IO_APIC: [Row; 6] = [
    Row::Preset("Type", 1, 0x01),
    Row::Preset("Length", 1, 12),
    Row::Hex("I/O APIC ID", 1),
    Row::Reserved(1),
    Row::Hex("I/O APIC Address", 4),
    Row::Number("Global System Interrupt Base", 4),
];

impl Record<12> for IoApic {
    ghost fields = { io_apic_fields };

    fn rows() -> &'static [Row] {
        &IO_APIC
    }

    fn bytes(&self) -> [u8; 12] {
        record_of_numbers(
            &IO_APIC,
            &[
                0x01,
                12,
                u64::from(self.io_apic_id),
                0,
                u64::from(self.io_apic_addr),
                u64::from(self.gsi_base),
            ],
        )
    }
}

impl Aml for IoApic {
    ghost object = { λ s. whole (io_apic_bytes s) };

    ghost ends_well = { λ s. whole_ends_well (io_apic_bytes s) };

    fn to_aml_bytes(&self, sink: &mut dyn AmlSink) -> R<()> {
        write_record(self, sink)
    }
}
