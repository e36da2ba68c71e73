//! Sources of PCI Express Advanced Error Reporting (AER).

ghost use Rattle.std.proofs.Common.{rules};
ghost use Rattle.std.specs.Prelude.{◌≡◌, ◌<◌};
ghost use Rattle.acpi_base.specs.Fields.{AreRowsOf};
ghost use Rattle.acpi_base.specs.Object.{whole, whole_ends_well};
ghost use Rattle.acpi_hest.specs.Aer.{pci_device, aer_global, aer_of, aer_head_fields, aer_head, aer_bytes};
ghost use Rattle.acpi_hest.specs.Aer.{zero_root_port, zero_device, zero_bridge};
ghost use Rattle.acpi_hest.specs.declared.hest.aer.Aer.{Aer};
ghost use Rattle.acpi_hest.specs.Aer.{root_port_fields, device_fields, bridge_fields};

use crate::hest::generic::EnabledStatus;
use crate::hest::tail::Tail;
use crate::parts::write_record_behind;
use acpi_base::error::R;
use acpi_base::object::Aml;
use acpi_base::row::{Bits, Record, Row, Word, record_of_numbers};
use acpi_base::sink::AmlSink;

/// Whether firmware handles the errors of a source before the operating system does (ACPI 6.5, 18.3.2.4, Flags).
#[derive(Copy, Clone, Debug, PartialEq)]
pub enum FirmwareFirst {
    Disabled = 0,
    Enabled = 1,
}

/// The place of a device on its bus.
#[derive(Drop)]
pub struct PciDevice {
    bus: u8,
    device: u8,
    function: u8,
}

impl PciDevice {
    /// A bus, a device and a function. The caller proves that `device` is below 32 and `function` below 8.
    pub fn new(bus: u8, device: u8, function: u8) -> PciDevice
        requires { (device < 32) × (function < 8) }
        ensures { result ≡ pci_device bus device function }
    {
        PciDevice {
            bus,
            device,
            function,
        }
    }
}

/// An AER source (ACPI 6.5, 18.3.2.4 to 18.3.2.6): 44 bytes, and the fields of its kind. A new one isn't enabled, and its id is
/// 0.
#[derive(Clone, Copy, Debug)]
pub struct Aer<T, const N: usize> {
    source_id: u16,
    flags: u8,
    enabled: EnabledStatus,
    num_records: u32,
    max_sections: u32,
    bus: u32,
    device: u16,
    function: u16,
    device_control: u16,
    uncorrectable_error_mask: u32,
    uncorrectable_error_severity: u32,
    correctable_error_mask: u32,
    aer_cap_ctrl: u32,
    tail: T,
}

/// Flag 2 (offset 6): the source is that of all devices of its kind.
const GLOBAL: u8 = 2;

impl<T: Tail<N>, const N: usize> Aer<T, N> {
    /// The source of all devices of this kind. Every field except type and flags is zero.
    pub fn new_global() -> Aer<T, N>
        ensures { result ≡ aer_global T.zero }
    {
        Aer {
            source_id: 0,
            flags: GLOBAL,
            enabled: EnabledStatus::Disabled,
            num_records: 0,
            max_sections: 0,
            bus: 0,
            device: 0,
            function: 0,
            device_control: 0,
            uncorrectable_error_mask: 0,
            uncorrectable_error_severity: 0,
            correctable_error_mask: 0,
            aer_cap_ctrl: 0,
            tail: T::zero(),
        }
    }

    // The source of one device.
    fn of(ff: FirmwareFirst, device: PciDevice) -> Aer<T, N>
        ensures { result ≡ aer_of T.zero ff device }
    {
        Aer {
            flags: ff as u8,
            bus: u32::from(device.bus),
            device: u16::from(device.device),
            function: u16::from(device.function),
            ..Aer::new_global()
        }
    }

    /// Sets the id of the source (offset 2), by which others refer to it.
    pub fn source_id(mut self, source_id: u16) -> Aer<T, N>
        ensures { result ≡ record self { source_id = source_id } }
    {
        self.source_id = source_id;
        self
    }

    /// Sets whether the source is enabled (offset 7).
    pub fn enabled(mut self, enabled: EnabledStatus) -> Aer<T, N>
        ensures { result ≡ record self { enabled = enabled } }
    {
        self.enabled = enabled;
        self
    }

    /// Sets the number of error records to preallocate (offset 8).
    pub fn num_records(mut self, num_records: u32) -> Aer<T, N>
        ensures { result ≡ record self { num_records = num_records } }
    {
        self.num_records = num_records;
        self
    }

    /// Sets the greatest number of sections of a record (offset 12).
    pub fn max_sections(mut self, max_sections: u32) -> Aer<T, N>
        ensures { result ≡ record self { max_sections = max_sections } }
    {
        self.max_sections = max_sections;
        self
    }

    /// Sets the value of the Device Control register (offset 24).
    pub fn device_control(mut self, device_control: u16) -> Aer<T, N>
        ensures { result ≡ record self { device_control = device_control } }
    {
        self.device_control = device_control;
        self
    }

    /// Sets the value of the Uncorrectable Error Mask register (offset 28).
    pub fn uncorrectable_error_mask(mut self, uncorrectable_error_mask: u32) -> Aer<T, N>
        ensures { result ≡ record self { uncorrectable_error_mask = uncorrectable_error_mask } }
    {
        self.uncorrectable_error_mask = uncorrectable_error_mask;
        self
    }

    /// Sets the value of the Uncorrectable Error Severity register (offset 32).
    pub fn uncorrectable_error_severity(mut self, uncorrectable_error_severity: u32) -> Aer<T, N>
        ensures { result ≡ record self { uncorrectable_error_severity = uncorrectable_error_severity } }
    {
        self.uncorrectable_error_severity = uncorrectable_error_severity;
        self
    }

    /// Sets the value of the Correctable Error Mask register (offset 36).
    pub fn correctable_error_mask(mut self, correctable_error_mask: u32) -> Aer<T, N>
        ensures { result ≡ record self { correctable_error_mask = correctable_error_mask } }
    {
        self.correctable_error_mask = correctable_error_mask;
        self
    }

    /// Sets the value of the Advanced Error Capabilities and Control register (offset 40).
    pub fn aer_cap_ctrl(mut self, aer_cap_ctrl: u32) -> Aer<T, N>
        ensures { result ≡ record self { aer_cap_ctrl = aer_cap_ctrl } }
    {
        self.aer_cap_ctrl = aer_cap_ctrl;
        self
    }

    // The fields that all kinds of source have.
    fn head(&self) -> [u8; 44]
        ensures { result ≡ aer_head T.KIND self.now }
    {
        record_of_numbers(
            &AER,
            &[
                u64::from(T::KIND),
                u64::from(self.source_id),
                0,
                u64::from(self.flags),
                self.enabled as u64,
                u64::from(self.num_records),
                u64::from(self.max_sections),
                u64::from(self.bus),
                u64::from(self.device),
                u64::from(self.function),
                u64::from(self.device_control),
                0,
                u64::from(self.uncorrectable_error_mask),
                u64::from(self.uncorrectable_error_severity),
                u64::from(self.correctable_error_mask),
                u64::from(self.aer_cap_ctrl),
            ],
        )
    }
}

// The words of Enabled.
pub(crate) const ENABLED: [Word; 2] = [Word(0, "Disabled"), Word(1, "Enabled")];

/// The rows of a PCI Express AER source that all kinds have.
pub const AER: [Row; 16] = [
    Row::Number("Type", 2),
    Row::Hex("Source Id", 2),
    Row::Reserved(2),
    Row::Flags(
        "Flags",
        1,
        &[Bits::Flag(0x1, "FIRMWARE_FIRST"), Bits::Flag(0x2, "GLOBAL")],
    ),
    Row::OneOf("Enabled", 1, &ENABLED),
    Row::Number("Number of Records to Pre-allocate", 4),
    Row::Number("Max Sections Per Record", 4),
    Row::Flags(
        "Bus",
        4,
        &[
            Bits::Number(0xff, 0x1, "Bus"),
            Bits::Number(0xffff00, 0x100, "Segment"),
        ],
    ),
    Row::Number("Device", 2),
    Row::Number("Function", 2),
    Row::Hex("Device Control", 2),
    Row::Reserved(2),
    Row::Hex("Uncorrectable Error Mask", 4),
    Row::Hex("Uncorrectable Error Severity", 4),
    Row::Hex("Correctable Error Mask", 4),
    Row::Hex("Advanced Error Capabilities and Control", 4),
];

/// The rows of the fields that all kinds have, in order.
pub fn aer_rows<T: Tail<N>, const N: usize>() -> &'static [Row]
    ensures { (s : Aer T N) → AreRowsOf result.now (aer_head_fields T.KIND s) }
{
    &AER
}

impl<T: Tail<N>, const N: usize> Aml for Aer<T, N> {
    ghost object = { λ s. whole (aer_bytes T.KIND T.fields s) };

    ghost ends_well = { λ s. whole_ends_well (aer_bytes T.KIND T.fields s) };

    fn to_aml_bytes(&self, sink: &mut dyn AmlSink) -> R<()> {
        write_record_behind(&self.head(), &self.tail, sink)
    }
}

/// A root port: 48 bytes (ACPI 6.5, 18.3.2.4).
pub type PcieAerRootPort = Aer<AerRootPort, 4>;

/// An endpoint: 44 bytes (ACPI 6.5, 18.3.2.5).
pub type PcieAerDevice = Aer<AerDevice, 0>;

/// A bridge: 56 bytes (ACPI 6.5, 18.3.2.6).
pub type PcieAerBridge = Aer<AerBridge, 12>;

/// The further fields of a root port.
#[derive(Clone, Copy, Debug, Default)]
pub struct AerRootPort {
    root_error_command: u32,
}

/// The further fields of an endpoint: none.
#[derive(Clone, Copy, Debug, Default)]
pub struct AerDevice {}

/// The further fields of a bridge.
#[derive(Clone, Copy, Debug, Default)]
pub struct AerBridge {
    secondary_uncorrectable_error_mask: u32,
    secondary_uncorrectable_error_severity: u32,
    secondary_aer_cap_ctrl: u32,
}

/// The rows of the further fields of a root port.
pub const AER_ROOT_PORT: [Row; 1] = [Row::Hex("Root Error Command", 4)];

/// The rows of the further fields of an endpoint: none.
pub const AER_DEVICE: [Row; 0] = [];

/// The rows of the further fields of a bridge.
pub const AER_BRIDGE: [Row; 3] = [
    Row::Hex("Secondary Uncorrectable Error Mask", 4),
    Row::Hex("Secondary Uncorrectable Error Severity", 4),
    Row::Hex("Secondary Advanced Error Capabilities and Control", 4),
];

impl Record<4> for AerRootPort {
    ghost fields = { root_port_fields };

    fn rows() -> &'static [Row] {
        &AER_ROOT_PORT
    }

    fn bytes(&self) -> [u8; 4] {
        record_of_numbers(&AER_ROOT_PORT, &[u64::from(self.root_error_command)])
    }
}

impl Record<0> for AerDevice {
    ghost fields = { device_fields };

    fn rows() -> &'static [Row] {
        &AER_DEVICE
    }

    fn bytes(&self) -> [u8; 0] {
        record_of_numbers(&AER_DEVICE, &[])
    }
}

impl Record<12> for AerBridge {
    ghost fields = { bridge_fields };

    fn rows() -> &'static [Row] {
        &AER_BRIDGE
    }

    fn bytes(&self) -> [u8; 12] {
        record_of_numbers(
            &AER_BRIDGE,
            &[
                u64::from(self.secondary_uncorrectable_error_mask),
                u64::from(self.secondary_uncorrectable_error_severity),
                u64::from(self.secondary_aer_cap_ctrl),
            ],
        )
    }
}

impl Tail<4> for AerRootPort {
    ghost KIND = { 6 };

    ghost zero = { zero_root_port };

    const KIND: u16 = 6;

    fn zero() -> AerRootPort {
        AerRootPort::default()
    }

    ghost is_small = { Prim.search rules };
}

impl Tail<0> for AerDevice {
    ghost KIND = { 7 };

    ghost zero = { zero_device };

    const KIND: u16 = 7;

    fn zero() -> AerDevice {
        AerDevice::default()
    }

    ghost is_small = { Prim.search rules };
}

impl Tail<12> for AerBridge {
    ghost KIND = { 8 };

    ghost zero = { zero_bridge };

    const KIND: u16 = 8;

    fn zero() -> AerBridge {
        AerBridge::default()
    }

    ghost is_small = { Prim.search rules };
}

impl PcieAerRootPort {
    /// The source of one root port. Every field except type, flags and address is zero.
    pub fn new_root_port(ff: FirmwareFirst, device: PciDevice) -> PcieAerRootPort
        ensures { result ≡ aer_of zero_root_port ff device }
    {
        Aer::of(ff, device)
    }

    /// Sets the value of the Root Error Command register (offset 44).
    pub fn root_error_command(mut self, root_error_command: u32) -> PcieAerRootPort
        ensures { result ≡ record self { tail = record self.tail { root_error_command = root_error_command } } }
    {
        self.tail.root_error_command = root_error_command;
        self
    }
}

impl PcieAerDevice {
    /// The source of one endpoint. Every field except type, flags and address is zero.
    pub fn new_root_port(ff: FirmwareFirst, device: PciDevice) -> PcieAerDevice
        ensures { result ≡ aer_of zero_device ff device }
    {
        Aer::of(ff, device)
    }
}

impl PcieAerBridge {
    /// The source of one bridge. Every field except type, flags and address is zero.
    pub fn new_bridge(ff: FirmwareFirst, device: PciDevice) -> PcieAerBridge
        ensures { result ≡ aer_of zero_bridge ff device }
    {
        Aer::of(ff, device)
    }

    /// Sets the value of the Secondary Uncorrectable Error Mask register (offset 44).
    pub fn secondary_uncorrectable_error_mask(
        mut self,
        secondary_uncorrectable_error_mask: u32,
    ) -> PcieAerBridge
        ensures { result ≡ record self {
          tail = record self.tail {
            secondary_uncorrectable_error_mask = secondary_uncorrectable_error_mask;
          };
        } }
    {
        self.tail.secondary_uncorrectable_error_mask = secondary_uncorrectable_error_mask;
        self
    }

    /// Sets the value of the Secondary Uncorrectable Error Severity register (offset 48).
    pub fn secondary_uncorrectable_error_severity(
        mut self,
        secondary_uncorrectable_error_severity: u32,
    ) -> PcieAerBridge
        ensures { result ≡ record self {
          tail = record self.tail {
            secondary_uncorrectable_error_severity = secondary_uncorrectable_error_severity;
          };
        } }
    {
        self.tail.secondary_uncorrectable_error_severity = secondary_uncorrectable_error_severity;
        self
    }

    /// Sets the value of the Secondary Advanced Error Capabilities and Control register (offset 52).
    pub fn secondary_aer_cap_ctrl(mut self, secondary_aer_cap_ctrl: u32) -> PcieAerBridge
        ensures { result ≡ record self { tail = record self.tail { secondary_aer_cap_ctrl = secondary_aer_cap_ctrl } } }
    {
        self.tail.secondary_aer_cap_ctrl = secondary_aer_cap_ctrl;
        self
    }
}
