//! Channels in memory.

ghost use Rattle.std.specs.Prelude.{◌≡◌};
ghost use Rattle.acpi_base.specs.Object.{whole, whole_ends_well};
ghost use Rattle.acpi_pc.specs.Pcct.{generic, generic_fields, generic_bytes, reduced, reduced_fields, reduced_bytes};
ghost use Rattle.acpi_pc.specs.Pcct.{acknowledged, acknowledged_fields, acknowledged_bytes};

use crate::pcct::channel::{Channel, Doorbell, INTERRUPT_FLAGS, Interrupt};
use acpi_base::error::R;
use acpi_base::object::Aml;
use acpi_base::row::{Record, Row, Value, record_of, write_record};
use acpi_base::sink::AmlSink;

/// A channel without an interrupt: 62 bytes (ACPI 6.5, 14.1.3, Generic Communications Subspace Structure).
#[derive(Clone, Copy, Debug)]
pub struct GenericSubspace {
    channel: Channel,
}

impl GenericSubspace {
    /// The subspace of a channel.
    pub fn new(channel: Channel) -> GenericSubspace
        ensures { result ≡ generic channel }
    {
        GenericSubspace { channel }
    }
}

/// Its rows.
pub const GENERIC_SUBSPACE: [Row; 11] = [
    Row::Preset("Type", 1, 0),
    Row::Preset("Length", 1, 62),
    Row::Reserved(6),
    Row::Hex("Base Address", 8),
    Row::Number("Memory Length", 8),
    Row::Register("Doorbell Register"),
    Row::Hex("Doorbell Preserve", 8),
    Row::Hex("Doorbell Write", 8),
    Row::Number("Nominal Latency", 4),
    Row::Number("Maximum Periodic Access Rate", 4),
    Row::Number("Minimum Request Turnaround Time", 2),
];

impl Record<62> for GenericSubspace {
    ghost fields = { generic_fields };

    fn rows() -> &'static [Row] {
        &GENERIC_SUBSPACE
    }

    fn bytes(&self) -> [u8; 62] {
        record_of(
            &GENERIC_SUBSPACE,
            &[
                Value::Number(0),
                Value::Number(62),
                Value::Number(0),
                Value::Number(self.channel.base),
                Value::Number(self.channel.size),
                Value::Bytes(&self.channel.doorbell.register.bytes()),
                Value::Number(self.channel.doorbell.preserve),
                Value::Number(self.channel.doorbell.write),
                Value::Number(u64::from(self.channel.latency)),
                Value::Number(u64::from(self.channel.access_rate)),
                Value::Number(u64::from(self.channel.turnaround)),
            ],
        )
    }
}

impl Aml for GenericSubspace {
    ghost object = { λ s. whole (generic_bytes s) };

    ghost ends_well = { λ s. whole_ends_well (generic_bytes s) };

    fn to_aml_bytes(&self, sink: &mut dyn AmlSink) -> R<()> {
        write_record(self, sink)
    }
}

/// A channel with an interrupt: 62 bytes (ACPI 6.5, 14.1.4, HW-Reduced Communications Subspace Structure).
#[derive(Clone, Copy, Debug)]
pub struct ReducedSubspace {
    interrupt: Interrupt,
    channel: Channel,
}

impl ReducedSubspace {
    /// The subspace of a channel with an interrupt.
    pub fn new(interrupt: Interrupt, channel: Channel) -> ReducedSubspace
        ensures { result ≡ reduced interrupt channel }
    {
        ReducedSubspace { interrupt, channel }
    }
}

/// Its rows.
pub const REDUCED_SUBSPACE: [Row; 13] = [
    Row::Preset("Type", 1, 1),
    Row::Preset("Length", 1, 62),
    Row::Number("Platform Interrupt", 4),
    Row::Flags("Platform Interrupt Flags", 1, &INTERRUPT_FLAGS),
    Row::Reserved(1),
    Row::Hex("Base Address", 8),
    Row::Number("Memory Length", 8),
    Row::Register("Doorbell Register"),
    Row::Hex("Doorbell Preserve", 8),
    Row::Hex("Doorbell Write", 8),
    Row::Number("Nominal Latency", 4),
    Row::Number("Maximum Periodic Access Rate", 4),
    Row::Number("Minimum Request Turnaround Time", 2),
];

impl Record<62> for ReducedSubspace {
    ghost fields = { reduced_fields };

    fn rows() -> &'static [Row] {
        &REDUCED_SUBSPACE
    }

    fn bytes(&self) -> [u8; 62] {
        record_of(
            &REDUCED_SUBSPACE,
            &[
                Value::Number(1),
                Value::Number(62),
                Value::Number(u64::from(self.interrupt.gsiv)),
                Value::Number(u64::from(self.interrupt.flags)),
                Value::Number(0),
                Value::Number(self.channel.base),
                Value::Number(self.channel.size),
                Value::Bytes(&self.channel.doorbell.register.bytes()),
                Value::Number(self.channel.doorbell.preserve),
                Value::Number(self.channel.doorbell.write),
                Value::Number(u64::from(self.channel.latency)),
                Value::Number(u64::from(self.channel.access_rate)),
                Value::Number(u64::from(self.channel.turnaround)),
            ],
        )
    }
}

impl Aml for ReducedSubspace {
    ghost object = { λ s. whole (reduced_bytes s) };

    ghost ends_well = { λ s. whole_ends_well (reduced_bytes s) };

    fn to_aml_bytes(&self, sink: &mut dyn AmlSink) -> R<()> {
        write_record(self, sink)
    }
}

/// A channel with an interrupt that is acknowledged: 90 bytes (ACPI 6.5, 14.1.5, HW-Reduced Communications Subspace Structure
/// Type 2).
#[derive(Clone, Copy, Debug)]
pub struct AcknowledgedSubspace {
    interrupt: Interrupt,
    channel: Channel,
    acknowledge: Doorbell,
}

impl AcknowledgedSubspace {
    /// The subspace of a channel with an interrupt, and with the register that acknowledges it (offset 62).
    pub fn new(
        interrupt: Interrupt,
        channel: Channel,
        acknowledge: Doorbell,
    ) -> AcknowledgedSubspace
        ensures { result ≡ acknowledged interrupt channel acknowledge }
    {
        AcknowledgedSubspace {
            interrupt,
            channel,
            acknowledge,
        }
    }
}

/// Its rows.
pub const ACKNOWLEDGED_SUBSPACE: [Row; 16] = [
    Row::Preset("Type", 1, 2),
    Row::Preset("Length", 1, 90),
    Row::Number("Platform Interrupt", 4),
    Row::Flags("Platform Interrupt Flags", 1, &INTERRUPT_FLAGS),
    Row::Reserved(1),
    Row::Hex("Base Address", 8),
    Row::Number("Memory Length", 8),
    Row::Register("Doorbell Register"),
    Row::Hex("Doorbell Preserve", 8),
    Row::Hex("Doorbell Write", 8),
    Row::Number("Nominal Latency", 4),
    Row::Number("Maximum Periodic Access Rate", 4),
    Row::Number("Minimum Request Turnaround Time", 2),
    Row::Register("Platform Interrupt Ack Register"),
    Row::Hex("Platform Interrupt Ack Preserve", 8),
    Row::Hex("Platform Interrupt Ack Write", 8),
];

impl Record<90> for AcknowledgedSubspace {
    ghost fields = { acknowledged_fields };

    fn rows() -> &'static [Row] {
        &ACKNOWLEDGED_SUBSPACE
    }

    fn bytes(&self) -> [u8; 90] {
        record_of(
            &ACKNOWLEDGED_SUBSPACE,
            &[
                Value::Number(2),
                Value::Number(90),
                Value::Number(u64::from(self.interrupt.gsiv)),
                Value::Number(u64::from(self.interrupt.flags)),
                Value::Number(0),
                Value::Number(self.channel.base),
                Value::Number(self.channel.size),
                Value::Bytes(&self.channel.doorbell.register.bytes()),
                Value::Number(self.channel.doorbell.preserve),
                Value::Number(self.channel.doorbell.write),
                Value::Number(u64::from(self.channel.latency)),
                Value::Number(u64::from(self.channel.access_rate)),
                Value::Number(u64::from(self.channel.turnaround)),
                Value::Bytes(&self.acknowledge.register.bytes()),
                Value::Number(self.acknowledge.preserve),
                Value::Number(self.acknowledge.write),
            ],
        )
    }
}

impl Aml for AcknowledgedSubspace {
    ghost object = { λ s. whole (acknowledged_bytes s) };

    ghost ends_well = { λ s. whole_ends_well (acknowledged_bytes s) };

    fn to_aml_bytes(&self, sink: &mut dyn AmlSink) -> R<()> {
        write_record(self, sink)
    }
}
