//! Extended channels, and channels of registers.

ghost use Rattle.std.specs.Prelude.{◌≡◌};
ghost use Rattle.acpi_base.specs.Object.{whole, whole_ends_well};
ghost use Rattle.acpi_pc.specs.Pcct.{extended, extended_fields, extended_bytes};
ghost use Rattle.acpi_pc.specs.Pcct.{registers, registers_fields, registers_bytes};

use crate::pcct::channel::{Doorbell, INTERRUPT_FLAGS, Interrupt};
use acpi_base::error::R;
use acpi_base::gas::GAS;
use acpi_base::object::Aml;
use acpi_base::row::{Record, Row, Value, Word, record_of, write_record};
use acpi_base::sink::AmlSink;

/// A register, and the mask of its bits that count.
#[derive(Clone, Copy, Debug)]
pub struct Masked {
    pub register: GAS,
    pub mask: u64,
}

/// Who sends commands over an extended channel, by the type of its subspace (offset 0).
#[derive(Clone, Copy, Debug)]
pub enum Role {
    /// The operating system: type 3.
    Initiator = 3,
    /// The platform: type 4.
    Responder = 4,
}

/// The memory of an extended channel, and its registers (ACPI 6.5, 14.1.6). Times are in microseconds. The offsets are those of a
/// subspace.
#[derive(Clone, Copy, Debug)]
pub struct ExtendedChannel {
    /// The physical address of the shared memory (offset 8).
    pub base: u64,
    /// Its number of bytes (offset 16).
    pub size: u32,
    /// The register by which a command is announced (offsets 20, 32 and 40).
    pub doorbell: Doorbell,
    /// The expected time of a command (offset 48).
    pub latency: u32,
    /// The most commands in a minute (offset 52), or 0 for any number.
    pub access_rate: u32,
    /// The least time between two commands (offset 56).
    pub turnaround: u32,
    /// The register that acknowledges an interrupt (offsets 60, 72 and 80).
    pub acknowledge: Doorbell,
    /// The register that says whether a command is complete (offsets 96 and 108).
    pub complete: Masked,
    /// The register by which a command is marked as complete or not (offsets 116, 128 and 136).
    pub update: Doorbell,
    /// The register that says whether a command failed (offsets 144 and 156).
    pub error: Masked,
}

/// An extended channel: 164 bytes (ACPI 6.5, 14.1.6, Extended PCC Subspace Structure).
#[derive(Clone, Copy, Debug)]
pub struct ExtendedSubspace {
    role: Role,
    interrupt: Interrupt,
    channel: ExtendedChannel,
}

impl ExtendedSubspace {
    /// The subspace of an extended channel with an interrupt.
    pub fn new(role: Role, interrupt: Interrupt, channel: ExtendedChannel) -> ExtendedSubspace
        ensures { result ≡ extended role interrupt channel }
    {
        ExtendedSubspace {
            role,
            interrupt,
            channel,
        }
    }
}

/// Its rows.
pub const EXTENDED_SUBSPACE: [Row; 24] = [
    Row::OneOf("Type", 1, &[Word(3, "Initiator"), Word(4, "Responder")]),
    Row::Preset("Length", 1, 164),
    Row::Number("Platform Interrupt", 4),
    Row::Flags("Platform Interrupt Flags", 1, &INTERRUPT_FLAGS),
    Row::Reserved(1),
    Row::Hex("Base Address", 8),
    Row::Number("Memory Length", 4),
    Row::Register("Doorbell Register"),
    Row::Hex("Doorbell Preserve", 8),
    Row::Hex("Doorbell Write", 8),
    Row::Number("Nominal Latency", 4),
    Row::Number("Maximum Periodic Access Rate", 4),
    Row::Number("Minimum Request Turnaround Time", 4),
    Row::Register("Platform Interrupt Ack Register"),
    Row::Hex("Platform Interrupt Ack Preserve", 8),
    Row::Hex("Platform Interrupt Ack Set", 8),
    Row::Reserved(8),
    Row::Register("Command Complete Check Register Address"),
    Row::Hex("Command Complete Check Mask", 8),
    Row::Register("Command Complete Update Register Address"),
    Row::Hex("Command Complete Update Preserve Mask", 8),
    Row::Hex("Command Complete Update Set Mask", 8),
    Row::Register("Error Status Register"),
    Row::Hex("Error Status Mask", 8),
];

impl Record<164> for ExtendedSubspace {
    ghost fields = { extended_fields };

    fn rows() -> &'static [Row] {
        &EXTENDED_SUBSPACE
    }

    fn bytes(&self) -> [u8; 164] {
        record_of(
            &EXTENDED_SUBSPACE,
            &[
                Value::Number(self.role as u64),
                Value::Number(164),
                Value::Number(u64::from(self.interrupt.gsiv)),
                Value::Number(u64::from(self.interrupt.flags)),
                Value::Number(0),
                Value::Number(self.channel.base),
                Value::Number(u64::from(self.channel.size)),
                Value::Bytes(&self.channel.doorbell.register.bytes()),
                Value::Number(self.channel.doorbell.preserve),
                Value::Number(self.channel.doorbell.write),
                Value::Number(u64::from(self.channel.latency)),
                Value::Number(u64::from(self.channel.access_rate)),
                Value::Number(u64::from(self.channel.turnaround)),
                Value::Bytes(&self.channel.acknowledge.register.bytes()),
                Value::Number(self.channel.acknowledge.preserve),
                Value::Number(self.channel.acknowledge.write),
                Value::Number(0),
                Value::Bytes(&self.channel.complete.register.bytes()),
                Value::Number(self.channel.complete.mask),
                Value::Bytes(&self.channel.update.register.bytes()),
                Value::Number(self.channel.update.preserve),
                Value::Number(self.channel.update.write),
                Value::Bytes(&self.channel.error.register.bytes()),
                Value::Number(self.channel.error.mask),
            ],
        )
    }
}

impl Aml for ExtendedSubspace {
    ghost object = { λ s. whole (extended_bytes s) };

    ghost ends_well = { λ s. whole_ends_well (extended_bytes s) };

    fn to_aml_bytes(&self, sink: &mut dyn AmlSink) -> R<()> {
        write_record(self, sink)
    }
}

/// The registers of a channel without memory (ACPI 6.5, 14.1.7). Times are in microseconds. The offsets are those of a subspace.
#[derive(Clone, Copy, Debug)]
pub struct RegisterChannel {
    /// The version of the registers (offset 2).
    pub version: u16,
    /// The physical address of the registers (offset 4), and their number of bytes (offset 12).
    pub base: u64,
    pub size: u64,
    /// The register by which a command is announced (offsets 20, 32 and 40).
    pub doorbell: Doorbell,
    /// The register that says whether a command is complete (offsets 48 and 60).
    pub complete: Masked,
    /// The register that says whether a command failed (offsets 68 and 80).
    pub error: Masked,
    /// The expected time of a command (offset 88).
    pub latency: u32,
    /// The least time between two commands (offset 92).
    pub turnaround: u32,
}

/// A channel of registers: 96 bytes (ACPI 6.5, 14.1.7, HW Registers Based Communications Subspace Structure).
#[derive(Clone, Copy, Debug)]
pub struct RegistersSubspace {
    channel: RegisterChannel,
}

impl RegistersSubspace {
    /// The subspace of a channel of registers.
    pub fn new(channel: RegisterChannel) -> RegistersSubspace
        ensures { result ≡ registers channel }
    {
        RegistersSubspace { channel }
    }
}

/// Its rows.
pub const REGISTERS_SUBSPACE: [Row; 14] = [
    Row::Preset("Type", 1, 5),
    Row::Preset("Length", 1, 96),
    Row::Number("Version", 2),
    Row::Hex("Base Address", 8),
    Row::Number("Shared Memory Range Length", 8),
    Row::Register("Doorbell Register"),
    Row::Hex("Doorbell Preserve", 8),
    Row::Hex("Doorbell Write", 8),
    Row::Register("Command Complete Check Register"),
    Row::Hex("Command Complete Check Mask", 8),
    Row::Register("Error Status Register"),
    Row::Hex("Error Status Mask", 8),
    Row::Number("Nominal Latency", 4),
    Row::Number("Minimum Request Turnaround Time", 4),
];

impl Record<96> for RegistersSubspace {
    ghost fields = { registers_fields };

    fn rows() -> &'static [Row] {
        &REGISTERS_SUBSPACE
    }

    fn bytes(&self) -> [u8; 96] {
        record_of(
            &REGISTERS_SUBSPACE,
            &[
                Value::Number(5),
                Value::Number(96),
                Value::Number(u64::from(self.channel.version)),
                Value::Number(self.channel.base),
                Value::Number(self.channel.size),
                Value::Bytes(&self.channel.doorbell.register.bytes()),
                Value::Number(self.channel.doorbell.preserve),
                Value::Number(self.channel.doorbell.write),
                Value::Bytes(&self.channel.complete.register.bytes()),
                Value::Number(self.channel.complete.mask),
                Value::Bytes(&self.channel.error.register.bytes()),
                Value::Number(self.channel.error.mask),
                Value::Number(u64::from(self.channel.latency)),
                Value::Number(u64::from(self.channel.turnaround)),
            ],
        )
    }
}

impl Aml for RegistersSubspace {
    ghost object = { λ s. whole (registers_bytes s) };

    ghost ends_well = { λ s. whole_ends_well (registers_bytes s) };

    fn to_aml_bytes(&self, sink: &mut dyn AmlSink) -> R<()> {
        write_record(self, sink)
    }
}
