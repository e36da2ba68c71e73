//! Interrupt controllers of Arm: the parts of a Generic Interrupt Controller (GIC).

ghost use Rattle.std.specs.Prelude.{◌≡◌};
ghost use Rattle.acpi_base.specs.Object.{whole, whole_ends_well};
ghost use Rattle.acpi_lists.specs.MadtArm.{with_edge, gicc, gicc_bytes, with_performance_interrupt};
ghost use Rattle.acpi_lists.specs.MadtArm.{earlier_gicc_bytes, earlier_gicc_fields};
ghost use Rattle.acpi_lists.specs.MadtArm.{with_maintenance_interrupt, gicc_fields, gicd, gicd_bytes, gicd_fields};
ghost use Rattle.acpi_lists.specs.MadtArm.{gic_msi, gic_msi_bytes, with_spis, gic_msi_fields, gicr, gicr_bytes};
ghost use Rattle.acpi_lists.specs.MadtArm.{gicr_fields, gic_its, gic_its_bytes, gic_its_fields};

use crate::madt::EnabledStatus;
use acpi_base::error::R;
use acpi_base::object::Aml;
use acpi_base::row::{Bits, Record, Row, Word, record_of_numbers, write_record};
use acpi_base::sink::AmlSink;

// Flags of a CPU interface (ACPI 6.5, 5.2.12.14, offset 12).
const ENABLED: u32 = 0x1;

const PERFORMANCE_EDGE: u32 = 0x2;

const MAINTENANCE_EDGE: u32 = 0x4;

const ONLINE_CAPABLE: u32 = 0x8;

// A flag of a message frame (ACPI 6.5, 5.2.12.16, offset 16): the SPI count and base of the structure are used, instead of those
// in the frame's register.
const SPI_COUNT_AND_BASE: u32 = 0x1;

/// How an interrupt is triggered.
#[derive(Clone, Copy, Debug, PartialEq, Eq)]
pub enum Trigger {
    Edge,
    Level,
}

impl Trigger {
    // Flags, with this flag set if the interrupt is edge triggered.
    fn with_edge(self, flag: u32, flags: u32) -> u32
        ensures { result ≡ with_edge self flag flags }
    {
        match self {
            Trigger::Edge => flags | flag,
            Trigger::Level => flags,
        }
    }
}

/// A processor and its interface to a GIC (GICC): 82 bytes (ACPI 6.5, 5.2.12.14). Fields are zero until a setter sets them.
#[derive(Clone, Copy, Debug)]
pub struct Gicc {
    cpu_interface_number: u32,
    acpi_processor_uid: u32,
    flags: u32,
    parking_protocol_version: u32,
    performance_interrupt: u32,
    parked_address: u64,
    base_address: u64,
    virtual_registers: u64,
    control_block_registers: u64,
    maintenance_interrupt: u32,
    redistributor_base: u64,
    mpidr: u64,
    power_efficiency_class: u8,
    overflow_interrupt: u16,
    trbe_interrupt: u16,
}

impl Gicc {
    /// An interface in which only the flags are set (offset 12): 1 for an enabled processor, or 8 for one that can be brought
    /// online.
    pub fn new(status: EnabledStatus) -> Gicc
        ensures { result ≡ gicc status }
    {
        let flags = match status {
            EnabledStatus::Disabled => 0,
            EnabledStatus::Enabled => ENABLED,
            EnabledStatus::DisabledOnlineCapable => ONLINE_CAPABLE,
        };
        Gicc {
            cpu_interface_number: 0,
            acpi_processor_uid: 0,
            flags,
            parking_protocol_version: 0,
            performance_interrupt: 0,
            parked_address: 0,
            base_address: 0,
            virtual_registers: 0,
            control_block_registers: 0,
            maintenance_interrupt: 0,
            redistributor_base: 0,
            mpidr: 0,
            power_efficiency_class: 0,
            overflow_interrupt: 0,
            trbe_interrupt: 0,
        }
    }

    /// Sets the performance monitors' interrupt (offset 20), and flag 2 if it is edge triggered. `Level` clears no flag.
    pub fn performance_interrupt(mut self, gsi: u32, trigger: Trigger) -> Gicc
        ensures { result ≡ with_performance_interrupt gsi trigger self }
    {
        self.performance_interrupt = gsi;
        self.flags = trigger.with_edge(PERFORMANCE_EDGE, self.flags);
        self
    }

    /// Sets the virtual interface's maintenance interrupt (offset 56), and flag 4 if it is edge triggered. `Level` clears no
    /// flag.
    pub fn maintenance_interrupt(mut self, gsi: u32, trigger: Trigger) -> Gicc
        ensures { result ≡ with_maintenance_interrupt gsi trigger self }
    {
        self.maintenance_interrupt = gsi;
        self.flags = trigger.with_edge(MAINTENANCE_EDGE, self.flags);
        self
    }

    /// Sets the interface's number in the GIC (offset 4).
    pub fn cpu_interface_number(mut self, cpu_interface_number: u32) -> Gicc
        ensures { result ≡ record self { cpu_interface_number = cpu_interface_number } }
    {
        self.cpu_interface_number = cpu_interface_number;
        self
    }

    /// Sets the processor's unique id in the namespace (offset 8).
    pub fn acpi_processor_uid(mut self, acpi_processor_uid: u32) -> Gicc
        ensures { result ≡ record self { acpi_processor_uid = acpi_processor_uid } }
    {
        self.acpi_processor_uid = acpi_processor_uid;
        self
    }

    /// Sets the version of the parking protocol, or 0 for none (offset 16).
    pub fn parking_protocol_version(mut self, parking_protocol_version: u32) -> Gicc
        ensures { result ≡ record self { parking_protocol_version = parking_protocol_version } }
    {
        self.parking_protocol_version = parking_protocol_version;
        self
    }

    /// Sets the physical address of the parking protocol's mailbox (offset 24).
    pub fn parked_address(mut self, parked_address: u64) -> Gicc
        ensures { result ≡ record self { parked_address = parked_address } }
    {
        self.parked_address = parked_address;
        self
    }

    /// Sets the physical address of the interface's registers (offset 32).
    pub fn base_address(mut self, base_address: u64) -> Gicc
        ensures { result ≡ record self { base_address = base_address } }
    {
        self.base_address = base_address;
        self
    }

    /// Sets the physical address of the registers of virtual interfaces, GICV (offset 40).
    pub fn virtual_registers(mut self, virtual_registers: u64) -> Gicc
        ensures { result ≡ record self { virtual_registers = virtual_registers } }
    {
        self.virtual_registers = virtual_registers;
        self
    }

    /// Sets the physical address of the control block of virtual interfaces, GICH (offset 48).
    pub fn control_block_registers(mut self, control_block_registers: u64) -> Gicc
        ensures { result ≡ record self { control_block_registers = control_block_registers } }
    {
        self.control_block_registers = control_block_registers;
        self
    }

    /// Sets the physical address of the interface's redistributor (offset 60).
    pub fn redistributor_base(mut self, redistributor_base: u64) -> Gicc
        ensures { result ≡ record self { redistributor_base = redistributor_base } }
    {
        self.redistributor_base = redistributor_base;
        self
    }

    /// Sets the affinity fields of the processor's MPIDR register (offset 68).
    pub fn mpidr(mut self, mpidr: u64) -> Gicc
        ensures { result ≡ record self { mpidr = mpidr } }
    {
        self.mpidr = mpidr;
        self
    }

    /// Sets the processor's power efficiency class (offset 76): 0 is the most efficient.
    pub fn power_efficiency_class(mut self, power_efficiency_class: u8) -> Gicc
        ensures { result ≡ record self { power_efficiency_class = power_efficiency_class } }
    {
        self.power_efficiency_class = power_efficiency_class;
        self
    }

    /// Sets the buffer overflow interrupt of the Statistical Profiling Extension (offset 78).
    pub fn overflow_interrupt(mut self, overflow_interrupt: u16) -> Gicc
        ensures { result ≡ record self { overflow_interrupt = overflow_interrupt } }
    {
        self.overflow_interrupt = overflow_interrupt;
        self
    }

    /// Sets the interrupt of the Trace Buffer Extension (offset 80).
    pub fn trbe_interrupt(mut self, trbe_interrupt: u16) -> Gicc
        ensures { result ≡ record self { trbe_interrupt = trbe_interrupt } }
    {
        self.trbe_interrupt = trbe_interrupt;
        self
    }

    /// The same interface in the form of ACPI 6.0 to 6.4: its first 80 bytes, without the interrupt of the Trace Buffer
    /// Extension.
    pub fn earlier(self) -> EarlierGicc
        ensures { result ≡ record { gicc = self } }
    {
        EarlierGicc { gicc: self }
    }
}

// The names of the flags of a CPU interface.
const GICC_FLAGS: [Bits; 4] = [
    Bits::Flag(0x1, "Enabled"),
    Bits::Flag(0x2, "Performance Interrupt Edge Triggered"),
    Bits::Flag(0x4, "VGIC Maintenance Interrupt Edge Triggered"),
    Bits::Flag(0x8, "Online Capable"),
];

/// The rows of a GIC CPU Interface (GICC) Structure.
pub const GICC: [Row; 19] = [
    Row::Preset("Type", 1, 0x0b),
    Row::Preset("Length", 1, 82),
    Row::Reserved(2),
    Row::Number("CPU Interface Number", 4),
    Row::Hex("ACPI Processor UID", 4),
    Row::Flags("Flags", 4, &GICC_FLAGS),
    Row::Number("Parking Protocol Version", 4),
    Row::Number("Performance Interrupt GSIV", 4),
    Row::Hex("Parked Address", 8),
    Row::Hex("Physical Base Address", 8),
    Row::Hex("GICV", 8),
    Row::Hex("GICH", 8),
    Row::Number("VGIC Maintenance Interrupt", 4),
    Row::Hex("GICR Base Address", 8),
    Row::Hex("MPIDR", 8),
    Row::Number("Processor Power Efficiency Class", 1),
    Row::Reserved(1),
    Row::Number("SPE Overflow Interrupt", 2),
    Row::Number("TRBE Interrupt", 2),
];

impl Record<82> for Gicc {
    ghost fields = { gicc_fields };

    fn rows() -> &'static [Row] {
        &GICC
    }

    fn bytes(&self) -> [u8; 82] {
        record_of_numbers(
            &GICC,
            &[
                0x0b,
                82,
                0,
                u64::from(self.cpu_interface_number),
                u64::from(self.acpi_processor_uid),
                u64::from(self.flags),
                u64::from(self.parking_protocol_version),
                u64::from(self.performance_interrupt),
                self.parked_address,
                self.base_address,
                self.virtual_registers,
                self.control_block_registers,
                u64::from(self.maintenance_interrupt),
                self.redistributor_base,
                self.mpidr,
                u64::from(self.power_efficiency_class),
                0,
                u64::from(self.overflow_interrupt),
                u64::from(self.trbe_interrupt),
            ],
        )
    }
}

impl Aml for Gicc {
    ghost object = { λ s. whole (gicc_bytes s) };

    ghost ends_well = { λ s. whole_ends_well (gicc_bytes s) };

    fn to_aml_bytes(&self, sink: &mut dyn AmlSink) -> R<()> {
        write_record(self, sink)
    }
}

/// A processor and its interface to a GIC in the form of ACPI 6.0 to 6.4, which `Gicc::earlier` makes: 80 bytes (ACPI 6.3,
/// 5.2.12.14). Before ACPI 6.3 the buffer overflow interrupt (offset 78) is reserved, so it has to be 0.
#[derive(Clone, Copy, Debug)]
pub struct EarlierGicc {
    gicc: Gicc,
}

/// The rows of a GIC CPU Interface (GICC) Structure of ACPI 6.0 to 6.4.
pub const EARLIER_GICC: [Row; 18] = [
    Row::Preset("Type", 1, 0x0b),
    Row::Preset("Length", 1, 80),
    Row::Reserved(2),
    Row::Number("CPU Interface Number", 4),
    Row::Hex("ACPI Processor UID", 4),
    Row::Flags("Flags", 4, &GICC_FLAGS),
    Row::Number("Parking Protocol Version", 4),
    Row::Number("Performance Interrupt GSIV", 4),
    Row::Hex("Parked Address", 8),
    Row::Hex("Physical Base Address", 8),
    Row::Hex("GICV", 8),
    Row::Hex("GICH", 8),
    Row::Number("VGIC Maintenance Interrupt", 4),
    Row::Hex("GICR Base Address", 8),
    Row::Hex("MPIDR", 8),
    Row::Number("Processor Power Efficiency Class", 1),
    Row::Reserved(1),
    Row::Number("SPE Overflow Interrupt", 2),
];

impl Record<80> for EarlierGicc {
    ghost fields = { earlier_gicc_fields };

    fn rows() -> &'static [Row] {
        &EARLIER_GICC
    }

    fn bytes(&self) -> [u8; 80] {
        let gicc = self.gicc;
        record_of_numbers(
            &EARLIER_GICC,
            &[
                0x0b,
                80,
                0,
                u64::from(gicc.cpu_interface_number),
                u64::from(gicc.acpi_processor_uid),
                u64::from(gicc.flags),
                u64::from(gicc.parking_protocol_version),
                u64::from(gicc.performance_interrupt),
                gicc.parked_address,
                gicc.base_address,
                gicc.virtual_registers,
                gicc.control_block_registers,
                u64::from(gicc.maintenance_interrupt),
                gicc.redistributor_base,
                gicc.mpidr,
                u64::from(gicc.power_efficiency_class),
                0,
                u64::from(gicc.overflow_interrupt),
            ],
        )
    }
}

impl Aml for EarlierGicc {
    ghost object = { λ s. whole (earlier_gicc_bytes s) };

    ghost ends_well = { λ s. whole_ends_well (earlier_gicc_bytes s) };

    fn to_aml_bytes(&self, sink: &mut dyn AmlSink) -> R<()> {
        write_record(self, sink)
    }
}

/// The version of a GIC (ACPI 6.5, 5.2.12.15, offset 20). For `Unspecified` the hardware's registers contain it.
#[derive(Clone, Copy, Debug, PartialEq)]
pub enum GicVersion {
    Unspecified = 0,
    GICv1 = 1,
    GICv2 = 2,
    GICv3 = 3,
    GICv4 = 4,
}

/// The distributor of a GIC (GICD): 24 bytes (ACPI 6.5, 5.2.12.15).
#[derive(Clone, Copy, Debug)]
pub struct Gicd {
    gic_id: u32,
    base_addr: u64,
    version: GicVersion,
}

impl Gicd {
    /// A distributor with this id (offset 4) at a physical address (offset 8).
    pub fn new(gic_id: u32, base_addr: u64, version: GicVersion) -> Gicd
        ensures { result ≡ gicd gic_id base_addr version }
    {
        Gicd {
            gic_id,
            base_addr,
            version,
        }
    }
}

/// The rows of a GIC Distributor (GICD) Structure.
pub const GICD: [Row; 8] = [
    Row::Preset("Type", 1, 0x0c),
    Row::Preset("Length", 1, 24),
    Row::Reserved(2),
    Row::Hex("GIC ID", 4),
    Row::Hex("Physical Base Address", 8),
    Row::Preset("System Vector Base", 4, 0),
    Row::OneOf(
        "GIC Version",
        1,
        &[
            Word(0, "No GIC Version Specified"),
            Word(1, "GICv1"),
            Word(2, "GICv2"),
            Word(3, "GICv3"),
            Word(4, "GICv4"),
        ],
    ),
    Row::Reserved(3),
];

impl Record<24> for Gicd {
    ghost fields = { gicd_fields };

    fn rows() -> &'static [Row] {
        &GICD
    }

    fn bytes(&self) -> [u8; 24] {
        record_of_numbers(
            &GICD,
            &[
                0x0c,
                24,
                0,
                u64::from(self.gic_id),
                self.base_addr,
                0,
                self.version as u64,
                0,
            ],
        )
    }
}

impl Aml for Gicd {
    ghost object = { λ s. whole (gicd_bytes s) };

    ghost ends_well = { λ s. whole_ends_well (gicd_bytes s) };

    fn to_aml_bytes(&self, sink: &mut dyn AmlSink) -> R<()> {
        write_record(self, sink)
    }
}

/// A frame of registers through which devices send interrupts as messages: 24 bytes (ACPI 6.5, 5.2.12.16). Fields are zero until
/// a setter sets them.
#[derive(Clone, Copy, Debug)]
pub struct GicMsi {
    gic_msi_frame_id: u32,
    base_addr: u64,
    flags: u32,
    spi_count: u16,
    spi_base: u16,
}

impl GicMsi {
    /// A frame in which every field is zero: its SPI count and base are those in its register.
    pub fn new() -> GicMsi
        ensures { result ≡ gic_msi }
    {
        GicMsi {
            gic_msi_frame_id: 0,
            base_addr: 0,
            flags: 0,
            spi_count: 0,
            spi_base: 0,
        }
    }

    /// Sets the frame's id (offset 4).
    pub fn gic_msi_frame_id(mut self, gic_msi_frame_id: u32) -> GicMsi
        ensures { result ≡ record self { gic_msi_frame_id = gic_msi_frame_id } }
    {
        self.gic_msi_frame_id = gic_msi_frame_id;
        self
    }

    /// Sets the frame's physical address (offset 8).
    pub fn base_addr(mut self, base_addr: u64) -> GicMsi
        ensures { result ≡ record self { base_addr = base_addr } }
    {
        self.base_addr = base_addr;
        self
    }

    /// Sets the SPI count (offset 20) and the SPI base (offset 22), and flag 1. They are used instead of those in the frame's
    /// register.
    pub fn spi_count_and_base(mut self, spi_count: u16, spi_base: u16) -> GicMsi
        ensures { result ≡ with_spis spi_count spi_base self }
    {
        self.spi_count = spi_count;
        self.spi_base = spi_base;
        self.flags |= SPI_COUNT_AND_BASE;
        self
    }
}

/// The rows of a GIC MSI Frame Structure.
pub const GIC_MSI: [Row; 8] = [
    Row::Preset("Type", 1, 0x0d),
    Row::Preset("Length", 1, 24),
    Row::Reserved(2),
    Row::Hex("GIC MSI Frame ID", 4),
    Row::Hex("Physical Base Address", 8),
    Row::Flags("Flags", 4, &[Bits::Flag(0x1, "SPI Count/Base Select")]),
    Row::Number("SPI Count", 2),
    Row::Number("SPI Base", 2),
];

impl Record<24> for GicMsi {
    ghost fields = { gic_msi_fields };

    fn rows() -> &'static [Row] {
        &GIC_MSI
    }

    fn bytes(&self) -> [u8; 24] {
        record_of_numbers(
            &GIC_MSI,
            &[
                0x0d,
                24,
                0,
                u64::from(self.gic_msi_frame_id),
                self.base_addr,
                u64::from(self.flags),
                u64::from(self.spi_count),
                u64::from(self.spi_base),
            ],
        )
    }
}

impl Aml for GicMsi {
    ghost object = { λ s. whole (gic_msi_bytes s) };

    ghost ends_well = { λ s. whole_ends_well (gic_msi_bytes s) };

    fn to_aml_bytes(&self, sink: &mut dyn AmlSink) -> R<()> {
        write_record(self, sink)
    }
}

/// The redistributors of a GIC (GICR): 16 bytes (ACPI 6.5, 5.2.12.17).
#[derive(Clone, Copy, Debug)]
pub struct Gicr {
    discovery_range_base: u64,
    discovery_range_length: u32,
}

impl Gicr {
    /// Redistributors from a physical address on (offset 4). The length is in bytes (offset 12).
    pub fn new(discovery_range_base: u64, discovery_range_length: u32) -> Gicr
        ensures { result ≡ gicr discovery_range_base discovery_range_length }
    {
        Gicr {
            discovery_range_base,
            discovery_range_length,
        }
    }
}

/// The rows of a GIC Redistributor (GICR) Structure.
pub const GICR: [Row; 5] = [
    Row::Preset("Type", 1, 0x0e),
    Row::Preset("Length", 1, 16),
    Row::Reserved(2),
    Row::Hex("Discovery Range Base Address", 8),
    Row::Number("Discovery Range Length", 4),
];

impl Record<16> for Gicr {
    ghost fields = { gicr_fields };

    fn rows() -> &'static [Row] {
        &GICR
    }

    fn bytes(&self) -> [u8; 16] {
        record_of_numbers(
            &GICR,
            &[
                0x0e,
                16,
                0,
                self.discovery_range_base,
                u64::from(self.discovery_range_length),
            ],
        )
    }
}

impl Aml for Gicr {
    ghost object = { λ s. whole (gicr_bytes s) };

    ghost ends_well = { λ s. whole_ends_well (gicr_bytes s) };

    fn to_aml_bytes(&self, sink: &mut dyn AmlSink) -> R<()> {
        write_record(self, sink)
    }
}

/// The interrupt translation service of a GIC (ITS): 20 bytes (ACPI 6.5, 5.2.12.18).
#[derive(Clone, Copy, Debug)]
pub struct GicIts {
    gic_its_id: u32,
    base_addr: u64,
}

impl GicIts {
    /// A service with this id (offset 4) at a physical address (offset 8).
    pub fn new(gic_its_id: u32, base_addr: u64) -> GicIts
        ensures { result ≡ gic_its gic_its_id base_addr }
    {
        GicIts {
            gic_its_id,
            base_addr,
        }
    }
}

/// The rows of a GIC Interrupt Translation Service (ITS) Structure.
pub const GIC_ITS: [Row; 6] = [
    Row::Preset("Type", 1, 0x0f),
    Row::Preset("Length", 1, 20),
    Row::Reserved(2),
    Row::Hex("GIC ITS ID", 4),
    Row::Hex("Physical Base Address", 8),
    Row::Reserved(4),
];

impl Record<20> for GicIts {
    ghost fields = { gic_its_fields };

    fn rows() -> &'static [Row] {
        &GIC_ITS
    }

    fn bytes(&self) -> [u8; 20] {
        record_of_numbers(
            &GIC_ITS,
            &[0x0f, 20, 0, u64::from(self.gic_its_id), self.base_addr, 0],
        )
    }
}

impl Aml for GicIts {
    ghost object = { λ s. whole (gic_its_bytes s) };

    ghost ends_well = { λ s. whole_ends_well (gic_its_bytes s) };

    fn to_aml_bytes(&self, sink: &mut dyn AmlSink) -> R<()> {
        write_record(self, sink)
    }
}
