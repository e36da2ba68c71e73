//! Interrupt controllers of RISC-V.

ghost use Rattle.std.specs.Prelude.{◌≡◌};
ghost use Rattle.acpi_base.specs.Object.{whole, whole_ends_well};
ghost use Rattle.acpi_lists.specs.MadtRiscv.{rintc, rintc_bytes, rintc_fields, imsic, imsic_bytes, imsic_fields, aplic};
ghost use Rattle.acpi_lists.specs.MadtRiscv.{aplic_bytes, aplic_fields, plic, plic_bytes, plic_fields};

use acpi_base::error::R;
use acpi_base::object::Aml;
use acpi_base::row::{Bits, Record, Row, Value, record_of, record_of_numbers, write_record};
use acpi_base::sink::AmlSink;

/// Whether a hart is enabled, or can be brought online later (offset 4 of RINTC).
#[derive(Clone, Copy, Debug, PartialEq)]
pub enum HartStatus {
    Disabled = 0,
    Enabled = 1,
    OnlineCapable = 2,
}

/// A hart and its local interrupt controller (RINTC, MADT structure of type 24): 36 bytes.
#[derive(Clone, Copy, Debug)]
pub struct RINTC {
    hart_status: HartStatus,
    hart_id: u64,
    acpi_processor_uid: u32,
    ext_int_ctrl_id: u32,
    imsic_base_addr: u64,
    imsic_size: u32,
}

impl RINTC {
    /// A hart, by these values:
    ///
    /// - `mhartid`: the value of its `mhartid` register (offset 8),
    /// - `acpi_processor_uid`: its unique id in the namespace (offset 16),
    /// - `ext_int_ctrl_id`: the id of its external interrupt controller (offset 20),
    /// - `imsic_base_addr`: the physical address of its incoming MSI controller (offset 24),
    /// - `imsic_size`: the number of bytes of that controller (offset 32).
    pub fn new(
        hart_status: HartStatus,
        mhartid: u64,
        acpi_processor_uid: u32,
        ext_int_ctrl_id: u32,
        imsic_base_addr: u64,
        imsic_size: u32,
    ) -> RINTC
        ensures { result ≡ rintc hart_status mhartid acpi_processor_uid ext_int_ctrl_id imsic_base_addr imsic_size }
    {
        RINTC {
            hart_status,
            hart_id: mhartid,
            acpi_processor_uid,
            ext_int_ctrl_id,
            imsic_base_addr,
            imsic_size,
        }
    }

    /// The size in bytes.
    pub fn len() -> usize
        ensures { result ≡ 36 }
    {
        36
    }
}

/// The rows of a RISC-V INTC Structure.
pub const RINTC_ROWS: [Row; 10] = [
    Row::Preset("Type", 1, 0x18),
    Row::Preset("Length", 1, 36),
    Row::Preset("Version", 1, 1),
    Row::Reserved(1),
    Row::Flags(
        "Flags",
        4,
        &[
            Bits::Flag(0x1, "Enabled"),
            Bits::Flag(0x2, "Online Capable"),
        ],
    ),
    Row::Hex("Hart ID", 8),
    Row::Hex("ACPI Processor UID", 4),
    Row::Hex("External Interrupt Controller ID", 4),
    Row::Hex("IMSIC Base Address", 8),
    Row::Number("IMSIC Size", 4),
];

impl Record<36> for RINTC {
    ghost fields = { rintc_fields };

    fn rows() -> &'static [Row] {
        &RINTC_ROWS
    }

    fn bytes(&self) -> [u8; 36] {
        record_of_numbers(
            &RINTC_ROWS,
            &[
                0x18,
                36,
                1,
                0,
                self.hart_status as u64,
                self.hart_id,
                u64::from(self.acpi_processor_uid),
                u64::from(self.ext_int_ctrl_id),
                self.imsic_base_addr,
                u64::from(self.imsic_size),
            ],
        )
    }
}

impl Aml for RINTC {
    ghost object = { λ s. whole (rintc_bytes s) };

    ghost ends_well = { λ s. whole_ends_well (rintc_bytes s) };

    fn to_aml_bytes(&self, sink: &mut dyn AmlSink) -> R<()> {
        write_record(self, sink)
    }
}

/// The common values of all incoming MSI controllers (IMSIC, MADT structure of type 25): 16 bytes. A table with such controllers
/// has one, and `MADT::add_imsic` adds no second.
#[derive(Clone, Copy, Debug)]
pub struct IMSIC {
    num_supervisor_interrupt_identities: u16,
    num_guest_interrupt_identities: u16,
    guest_index_bits: u8,
    hart_index_bits: u8,
    group_index_bits: u8,
    group_index_shift: u8,
}

impl IMSIC {
    /// The controllers, by these values:
    ///
    /// - the number of interrupts in supervisor mode (offset 8) and in a guest (offset 10),
    /// - how many bits of a message's address select the guest (offset 12), the hart (offset 13) and the group of harts (offset
    ///   14),
    /// - the first bit of the address that selects the group (offset 15).
    pub fn new(
        num_supervisor_interrupt_identities: u16,
        num_guest_interrupt_identities: u16,
        guest_index_bits: u8,
        hart_index_bits: u8,
        group_index_bits: u8,
        group_index_shift: u8,
    ) -> IMSIC
        ensures { result ≡ imsic num_supervisor_interrupt_identities num_guest_interrupt_identities
            guest_index_bits hart_index_bits group_index_bits group_index_shift }
    {
        IMSIC {
            num_supervisor_interrupt_identities,
            num_guest_interrupt_identities,
            guest_index_bits,
            hart_index_bits,
            group_index_bits,
            group_index_shift,
        }
    }

    /// The size in bytes.
    pub fn len() -> usize
        ensures { result ≡ 16 }
    {
        16
    }
}

/// The rows of an IMSIC Structure.
pub const IMSIC_ROWS: [Row; 11] = [
    Row::Preset("Type", 1, 0x19),
    Row::Preset("Length", 1, 16),
    Row::Preset("Version", 1, 1),
    Row::Reserved(1),
    Row::Hex("Flags", 4),
    Row::Number("Number of Supervisor Mode Interrupt Identities", 2),
    Row::Number("Number of Guest Mode Interrupt Identities", 2),
    Row::Number("Guest Index Bits", 1),
    Row::Number("Hart Index Bits", 1),
    Row::Number("Group Index Bits", 1),
    Row::Number("Group Index Shift", 1),
];

impl Record<16> for IMSIC {
    ghost fields = { imsic_fields };

    fn rows() -> &'static [Row] {
        &IMSIC_ROWS
    }

    fn bytes(&self) -> [u8; 16] {
        record_of_numbers(
            &IMSIC_ROWS,
            &[
                0x19,
                16,
                1,
                0,
                0,
                u64::from(self.num_supervisor_interrupt_identities),
                u64::from(self.num_guest_interrupt_identities),
                u64::from(self.guest_index_bits),
                u64::from(self.hart_index_bits),
                u64::from(self.group_index_bits),
                u64::from(self.group_index_shift),
            ],
        )
    }
}

impl Aml for IMSIC {
    ghost object = { λ s. whole (imsic_bytes s) };

    ghost ends_well = { λ s. whole_ends_well (imsic_bytes s) };

    fn to_aml_bytes(&self, sink: &mut dyn AmlSink) -> R<()> {
        write_record(self, sink)
    }
}

/// An Advanced Platform-Level Interrupt Controller for wired interrupts (APLIC, MADT structure of type 26): 36 bytes.
#[derive(Clone, Copy, Debug)]
pub struct APLIC {
    aplic_id: u8,
    hardware_id: [u8; 8],
    number_of_idcs: u16,
    total_external_interrupt_sources: u16,
    global_system_interrupt_base: u32,
    aplic_address: u64,
    aplic_size: u32,
}

impl APLIC {
    /// A controller, by these values:
    ///
    /// - its id (offset 3) and its hardware id (offset 8),
    /// - its number of interrupt delivery structures, one for each hart (offset 16), and of interrupt sources (offset 18),
    /// - the first of its global system interrupts (offset 20),
    /// - its physical address (offset 24) and its number of bytes (offset 32).
    pub fn new(
        aplic_id: u8,
        hardware_id: [u8; 8],
        number_of_idcs: u16,
        global_system_interrupt_base: u32,
        aplic_address: u64,
        aplic_size: u32,
        total_external_interrupt_sources: u16,
    ) -> APLIC
        ensures { result ≡ aplic aplic_id hardware_id number_of_idcs global_system_interrupt_base
            aplic_address aplic_size total_external_interrupt_sources }
    {
        APLIC {
            aplic_id,
            hardware_id,
            number_of_idcs,
            total_external_interrupt_sources,
            global_system_interrupt_base,
            aplic_address,
            aplic_size,
        }
    }

    /// The size in bytes.
    pub fn len() -> usize
        ensures { result ≡ 36 }
    {
        36
    }
}

/// The rows of an APLIC Structure.
pub const APLIC_ROWS: [Row; 11] = [
    Row::Preset("Type", 1, 0x1a),
    Row::Preset("Length", 1, 36),
    Row::Preset("Version", 1, 1),
    Row::Hex("APLIC ID", 1),
    Row::Hex("Flags", 4),
    Row::Bytes("Hardware ID", 8),
    Row::Number("Number of IDCs", 2),
    Row::Number("Total External Interrupt Sources Supported", 2),
    Row::Number("Global System Interrupt Base", 4),
    Row::Hex("APLIC Address", 8),
    Row::Number("APLIC Size", 4),
];

impl Record<36> for APLIC {
    ghost fields = { aplic_fields };

    fn rows() -> &'static [Row] {
        &APLIC_ROWS
    }

    fn bytes(&self) -> [u8; 36] {
        record_of(
            &APLIC_ROWS,
            &[
                Value::Number(0x1a),
                Value::Number(36),
                Value::Number(1),
                Value::Number(u64::from(self.aplic_id)),
                Value::Number(0),
                Value::Bytes(&self.hardware_id),
                Value::Number(u64::from(self.number_of_idcs)),
                Value::Number(u64::from(self.total_external_interrupt_sources)),
                Value::Number(u64::from(self.global_system_interrupt_base)),
                Value::Number(self.aplic_address),
                Value::Number(u64::from(self.aplic_size)),
            ],
        )
    }
}

impl Aml for APLIC {
    ghost object = { λ s. whole (aplic_bytes s) };

    ghost ends_well = { λ s. whole_ends_well (aplic_bytes s) };

    fn to_aml_bytes(&self, sink: &mut dyn AmlSink) -> R<()> {
        write_record(self, sink)
    }
}

/// A Platform-Level Interrupt Controller for wired interrupts (PLIC, MADT structure of type 27): 36 bytes.
#[derive(Clone, Copy, Debug)]
pub struct PLIC {
    plic_id: u8,
    hardware_id: [u8; 8],
    total_external_interrupt_sources: u16,
    max_priority: u16,
    plic_size: u32,
    plic_address: u64,
    global_system_interrupt_base: u32,
}

impl PLIC {
    /// A controller, by these values:
    ///
    /// - its id (offset 3) and its hardware id (offset 4),
    /// - its number of interrupt sources (offset 12) and its highest priority (offset 14),
    /// - its number of bytes (offset 20) and its physical address (offset 24),
    /// - the first of its global system interrupts (offset 32).
    pub fn new(
        plic_id: u8,
        hardware_id: [u8; 8],
        total_external_interrupt_sources: u16,
        max_priority: u16,
        plic_size: u32,
        plic_address: u64,
        global_system_interrupt_base: u32,
    ) -> PLIC
        ensures { result ≡ plic plic_id hardware_id total_external_interrupt_sources max_priority
            plic_size plic_address global_system_interrupt_base }
    {
        PLIC {
            plic_id,
            hardware_id,
            total_external_interrupt_sources,
            max_priority,
            plic_size,
            plic_address,
            global_system_interrupt_base,
        }
    }

    /// The size in bytes.
    pub fn len() -> usize
        ensures { result ≡ 36 }
    {
        36
    }
}

/// The rows of a PLIC Structure.
pub const PLIC_ROWS: [Row; 11] = [
    Row::Preset("Type", 1, 0x1b),
    Row::Preset("Length", 1, 36),
    Row::Preset("Version", 1, 1),
    Row::Hex("PLIC ID", 1),
    Row::Bytes("Hardware ID", 8),
    Row::Number("Total External Interrupt Sources Supported", 2),
    Row::Number("Max Priority", 2),
    Row::Hex("Flags", 4),
    Row::Number("PLIC Size", 4),
    Row::Hex("PLIC Address", 8),
    Row::Number("Global System Interrupt Base", 4),
];

impl Record<36> for PLIC {
    ghost fields = { plic_fields };

    fn rows() -> &'static [Row] {
        &PLIC_ROWS
    }

    fn bytes(&self) -> [u8; 36] {
        record_of(
            &PLIC_ROWS,
            &[
                Value::Number(0x1b),
                Value::Number(36),
                Value::Number(1),
                Value::Number(u64::from(self.plic_id)),
                Value::Bytes(&self.hardware_id),
                Value::Number(u64::from(self.total_external_interrupt_sources)),
                Value::Number(u64::from(self.max_priority)),
                Value::Number(0),
                Value::Number(u64::from(self.plic_size)),
                Value::Number(self.plic_address),
                Value::Number(u64::from(self.global_system_interrupt_base)),
            ],
        )
    }
}

impl Aml for PLIC {
    ghost object = { λ s. whole (plic_bytes s) };

    ghost ends_well = { λ s. whole_ends_well (plic_bytes s) };

    fn to_aml_bytes(&self, sink: &mut dyn AmlSink) -> R<()> {
        write_record(self, sink)
    }
}
