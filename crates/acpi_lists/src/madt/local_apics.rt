//! Local APICs of x86 with addresses of 64 bits, and with ids of 32 bits.

ghost use Rattle.std.specs.Prelude.{◌≡◌};
ghost use Rattle.acpi_base.specs.Object.{whole, whole_ends_well};
ghost use Rattle.acpi_lists.specs.MadtLocalApics.{address_override, address_override_bytes, address_override_fields};
ghost use Rattle.acpi_lists.specs.MadtLocalApics.{local_x2apic, local_x2apic_bytes, local_x2apic_fields};

use crate::madt::EnabledStatus;
use acpi_base::error::R;
use acpi_base::object::Aml;
use acpi_base::row::{Bits, Record, Row, record_of_numbers, write_record};
use acpi_base::sink::AmlSink;

/// The physical address of the local APICs in 64 bits, which is used instead of that in the table's own field: 12 bytes (ACPI
/// 6.5, 5.2.12.8). A table has at most one.
#[derive(Clone, Copy, Debug)]
pub struct LocalApicAddressOverride {
    local_apic_address: u64,
}

impl LocalApicAddressOverride {
    /// The local APICs are at this physical address (offset 4).
    pub fn new(local_apic_address: u64) -> LocalApicAddressOverride
        ensures { result ≡ address_override local_apic_address }
    {
        LocalApicAddressOverride { local_apic_address }
    }
}

/// The rows of a Local APIC Address Override Structure.
pub const LOCAL_APIC_ADDRESS_OVERRIDE: [Row; 4] = [
    Row::Preset("Type", 1, 0x05),
    Row::Preset("Length", 1, 12),
    Row::Reserved(2),
    Row::Hex("Local APIC Address", 8),
];

impl Record<12> for LocalApicAddressOverride {
    ghost fields = { address_override_fields };

    fn rows() -> &'static [Row] {
        &LOCAL_APIC_ADDRESS_OVERRIDE
    }

    fn bytes(&self) -> [u8; 12] {
        record_of_numbers(
            &LOCAL_APIC_ADDRESS_OVERRIDE,
            &[0x05, 12, 0, self.local_apic_address],
        )
    }
}

impl Aml for LocalApicAddressOverride {
    ghost object = { λ s. whole (address_override_bytes s) };

    ghost ends_well = { λ s. whole_ends_well (address_override_bytes s) };

    fn to_aml_bytes(&self, sink: &mut dyn AmlSink) -> R<()> {
        write_record(self, sink)
    }
}

/// A processor and its local x2APIC: 16 bytes (ACPI 6.5, 5.2.12.12). Processors with ids below 255 have a `ProcessorLocalApic`.
#[derive(Clone, Copy, Debug)]
pub struct ProcessorLocalX2Apic {
    x2apic_id: u32,
    status: EnabledStatus,
    processor_uid: u32,
}

impl ProcessorLocalX2Apic {
    /// The processor with this unique id in the namespace (offset 12) and this local x2APIC id (offset 4).
    pub fn new(uid: u32, x2apic_id: u32, enabled: EnabledStatus) -> ProcessorLocalX2Apic
        ensures { result ≡ local_x2apic uid x2apic_id enabled }
    {
        ProcessorLocalX2Apic {
            x2apic_id,
            status: enabled,
            processor_uid: uid,
        }
    }
}

/// The rows of a Processor Local x2APIC Structure.
pub const PROCESSOR_LOCAL_X2APIC: [Row; 6] = [
    Row::Preset("Type", 1, 0x09),
    Row::Preset("Length", 1, 16),
    Row::Reserved(2),
    Row::Hex("X2APIC ID", 4),
    Row::Flags(
        "Flags",
        4,
        &[
            Bits::Flag(0x1, "Enabled"),
            Bits::Flag(0x2, "Online Capable"),
        ],
    ),
    Row::Hex("ACPI Processor UID", 4),
];

impl Record<16> for ProcessorLocalX2Apic {
    ghost fields = { local_x2apic_fields };

    fn rows() -> &'static [Row] {
        &PROCESSOR_LOCAL_X2APIC
    }

    fn bytes(&self) -> [u8; 16] {
        record_of_numbers(
            &PROCESSOR_LOCAL_X2APIC,
            &[
                0x09,
                16,
                0,
                u64::from(self.x2apic_id),
                self.status as u64,
                u64::from(self.processor_uid),
            ],
        )
    }
}

impl Aml for ProcessorLocalX2Apic {
    ghost object = { λ s. whole (local_x2apic_bytes s) };

    ghost ends_well = { λ s. whole_ends_well (local_x2apic_bytes s) };

    fn to_aml_bytes(&self, sink: &mut dyn AmlSink) -> R<()> {
        write_record(self, sink)
    }
}
