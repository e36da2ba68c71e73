//! SPCR: the serial console.

ghost use Rattle.std.specs.Prelude.{◌≡◌, ◌<◌, bit_or};
ghost use Rattle.acpi_base.specs.Fields.{AreRowsOf};
ghost use Rattle.acpi_base.specs.Object.{whole, whole_ends_well};
ghost use Rattle.acpi_fixed.specs.Oem.{oem_of};
ghost use Rattle.acpi_fixed.specs.Spcr.{spcr_for, spcr_at_first, spcr_fields, spcr_bytes, with_interrupt, controller_flag};
ghost use Rattle.acpi_fixed.specs.Spcr.{interface_number, rate_number, flow_flag, terminal_number};
ghost use Rattle.acpi_fixed.specs.Spcr.{with_pci_address, earlier_spcr_bytes};
ghost use Rattle.acpi_fixed.specs.declared.spcr.SPCR.{SPCR};

use crate::sealed::{write_padded, write_table};
use acpi_base::error::R;
use acpi_base::gas::GAS;
use acpi_base::object::Aml;
use acpi_base::oem::Oem;
use acpi_base::row::{Bits, Record, Row, Value, Word, record_of};
use acpi_base::sink::AmlSink;
use std::marker::PhantomData;

/// The registers of a serial port (Microsoft, Debug Port Table 2, subtypes of serial ports; offset 36).
#[derive(Clone, Copy, Debug, PartialEq)]
pub enum InterfaceType {
    /// Fully compatible with a 16550.
    Uart16550 = 0x00,
    /// A subset of a 16550.
    Uart16550Subset = 0x01,
    /// MAX311xE, by SPI.
    Max311xe = 0x02,
    ArmPl011 = 0x03,
    Msm8x60 = 0x04,
    Nvidia16550 = 0x05,
    TiOmap = 0x06,
    Apm88xxxx = 0x08,
    Msm8974 = 0x09,
    Sam5250 = 0x0a,
    IntelUsif = 0x0b,
    Imx6 = 0x0c,
    /// The generic UART of Arm's SBSA 2.x, with accesses of 32 bits only. It is deprecated.
    ArmSbsa32Bit = 0x0d,
    /// The generic UART of Arm's SBSA.
    ArmSbsa = 0x0e,
    ArmDcc = 0x0f,
    Bcm2835 = 0x10,
    /// SDM845 with a clock of 1.8432 MHz.
    Sdm845Slow = 0x11,
    /// Compatible with a 16550, with the widths of the base address.
    Uart16550WithGas = 0x12,
    /// SDM845 with a clock of 7.372 MHz.
    Sdm845Fast = 0x13,
    IntelLpss = 0x14,
    /// The console of the RISC-V supervisor binary interface.
    RiscvSbi = 0x15,
}

impl InterfaceType {
    fn number(self) -> u64
        ensures { result ≡ interface_number self }
    {
        self as u64
    }
}

/// The controller to which a port's global system interrupt comes, as its flag of Interrupt Type (offset 52).
#[derive(Clone, Copy, Debug, PartialEq)]
pub enum InterruptController {
    IoApic = 0x02,
    IoSapic = 0x04,
    ArmGic = 0x08,
    /// A PLIC or an APLIC of RISC-V.
    RiscvPlic = 0x10,
}

/// The baud rate of a port (offset 58).
#[derive(Clone, Copy, Debug, PartialEq)]
pub enum BaudRate {
    /// As the port is configured.
    AsIs = 0,
    Baud9600 = 3,
    Baud19200 = 4,
    Baud57600 = 6,
    Baud115200 = 7,
}

impl BaudRate {
    fn number(self) -> u64
        ensures { result ≡ rate_number self }
    {
        self as u64
    }
}

/// How the flow of a port's data is controlled, as a flag of Flow Control (offset 61).
#[derive(Clone, Copy, Debug, PartialEq)]
pub enum FlowControl {
    /// DCD is required for sending.
    Dcd = 0x01,
    /// By hardware, with RTS and CTS.
    RtsCts = 0x02,
    /// By software, with XON and XOFF.
    XonXoff = 0x04,
}

/// The terminal of a console (offset 62).
#[derive(Clone, Copy, Debug, PartialEq)]
pub enum TerminalType {
    Vt100 = 0,
    ExtendedVt100 = 1,
    VtUtf8 = 2,
    Ansi = 3,
}

impl TerminalType {
    fn number(self) -> u64
        ensures { result ≡ terminal_number self }
    {
        self as u64
    }
}

// Flags of Interrupt Type (offset 52).
const IRQ: u8 = 0x01;

// Flags of a PCI device (offset 71).
const PNP: u32 = 0x01;

/// The Serial Port Console Redirection table (Microsoft, SPCR revision 4): 90 bytes, with the namespace string `.` at offset 88.
/// Its checksum is computed when the table is written. The value borrows nothing; the lifetime is that of the Rust crate's type.
#[derive(Drop)]
pub struct SPCR<'a> {
    oem: Oem,
    interface_type: InterfaceType,
    base_address: GAS,
    interrupt_type: u8,
    irq: u8,
    gsi: u32,
    baud_rate: BaudRate,
    parity: u8,
    stop_bits: u8,
    flow_control: u8,
    terminal_type: TerminalType,
    language: u8,
    pci_device_id: u16,
    pci_vendor_id: u16,
    pci_bus: u8,
    pci_device: u8,
    pci_function: u8,
    pci_flags: u32,
    pci_segment: u8,
    clock_frequency: u32,
    precise_baud_rate: u32,
    lent: PhantomData<&'a [u8]>,
}

impl SPCR<'_> {
    /// A port with these registers (offset 36) at an address (offset 40): with one stop bit, the baud rate as it is configured, a
    /// VT100 as terminal, and without an interrupt and a PCI device. Its clock's frequency isn't known.
    pub fn new(
        oem_id: [u8; 6],
        oem_table_id: [u8; 8],
        oem_revision: u32,
        interface_type: InterfaceType,
        base_address: GAS,
    ) -> Self
        ensures { result ≡ spcr_at_first (oem_of oem_id oem_table_id oem_revision) interface_type base_address 1 }
    {
        SPCR {
            oem: Oem::new(oem_id, oem_table_id, oem_revision),
            interface_type,
            base_address,
            interrupt_type: 0,
            irq: 0,
            gsi: 0,
            baud_rate: BaudRate::AsIs,
            parity: 0,
            stop_bits: 1,
            flow_control: 0,
            terminal_type: TerminalType::Vt100,
            language: 0,
            pci_device_id: 0xffff,
            pci_vendor_id: 0xffff,
            pci_bus: 0,
            pci_device: 0,
            pci_function: 0,
            pci_flags: 0,
            pci_segment: 0,
            clock_frequency: 0,
            precise_baud_rate: 0,
            lent: PhantomData,
        }
    }

    /// A console that the RISC-V supervisor binary interface provides: interface type 21, without registers, interrupt, PCI
    /// device and device of the namespace. Its number of stop bits is 0.
    pub fn sbi(oem_id: [u8; 6], oem_table_id: [u8; 8], oem_revision: u32) -> Self
        ensures { result ≡ spcr_for (oem_of oem_id oem_table_id oem_revision) }
    {
        SPCR::new(
            oem_id,
            oem_table_id,
            oem_revision,
            InterfaceType::RiscvSbi,
            GAS::default(),
        )
        .stop_bits(0)
    }

    /// Sets the interrupt of a PC's two 8259 controllers (offset 53), and interrupt flag 1.
    pub fn irq(self, irq: u8) -> Self
        ensures { result ≡ with_interrupt 1 (record self.entry { irq = irq }) }
    {
        SPCR {
            irq,
            interrupt_type: self.interrupt_type | IRQ,
            ..self
        }
    }

    /// Sets the global system interrupt (offset 54), and the interrupt flag of its controller.
    pub fn gsi(self, controller: InterruptController, gsi: u32) -> Self
        ensures { result ≡ with_interrupt (controller_flag controller) (record self.entry { gsi = gsi }) }
    {
        SPCR {
            gsi,
            interrupt_type: self.interrupt_type | controller as u8,
            ..self
        }
    }

    /// Sets the baud rate (offset 58).
    pub fn baud_rate(self, baud_rate: BaudRate) -> Self
        ensures { result ≡ record self.entry { baud_rate = baud_rate } }
    {
        SPCR { baud_rate, ..self }
    }

    /// Sets the parity (offset 59): 0 is none. No other is defined.
    pub fn parity(self, parity: u8) -> Self
        ensures { result ≡ record self.entry { parity = parity } }
    {
        SPCR { parity, ..self }
    }

    /// Sets the number of stop bits (offset 60): 1 is the only one that is defined.
    pub fn stop_bits(self, stop_bits: u8) -> Self
        ensures { result ≡ record self.entry { stop_bits = stop_bits } }
    {
        SPCR { stop_bits, ..self }
    }

    /// Sets a flag of the flow control (offset 61). Flags that are set already stay set.
    pub fn flow_control(self, flow_control: FlowControl) -> Self
        ensures { result ≡ record self.entry { flow_control = bit_or self.entry.flow_control (flow_flag flow_control) } }
    {
        SPCR {
            flow_control: self.flow_control | flow_control as u8,
            ..self
        }
    }

    /// Sets the type of the terminal (offset 62).
    pub fn terminal_type(self, terminal_type: TerminalType) -> Self
        ensures { result ≡ record self.entry { terminal_type = terminal_type } }
    {
        SPCR {
            terminal_type,
            ..self
        }
    }

    /// Sets the language of the console (offset 63): 0 is the only one that is defined.
    pub fn language(self, language: u8) -> Self
        ensures { result ≡ record self.entry { language = language } }
    {
        SPCR { language, ..self }
    }

    /// Sets the PCI device id (offset 64) and vendor id (offset 66) of the port.
    pub fn pci_ids(self, device_id: u16, vendor_id: u16) -> Self
        ensures { result ≡ record self.entry { pci_device_id = device_id; pci_vendor_id = vendor_id } }
    {
        SPCR {
            pci_device_id: device_id,
            pci_vendor_id: vendor_id,
            ..self
        }
    }

    /// Sets the port's PCI function, by segment (offset 75), bus, device and function (offsets 68 to 70).
    pub fn pci_sbdf(self, segment: u8, bus: u8, device: u8, function: u8) -> Self
        requires device { device < 32 }
        requires function { function < 8 }
        ensures { result ≡ with_pci_address segment bus device function self.entry }
    {
        SPCR {
            pci_segment: segment,
            pci_bus: bus,
            pci_device: device,
            pci_function: function,
            ..self
        }
    }

    /// Sets PCI flag 1 (offset 71): an operating system suppresses neither Plug and Play nor the power management of the port.
    pub fn keeps_pnp(self) -> Self
        ensures { result ≡ record self.entry { pci_flags = bit_or self.entry.pci_flags 1 } }
    {
        SPCR {
            pci_flags: self.pci_flags | PNP,
            ..self
        }
    }

    /// Sets the frequency of the port's clock in Hz (offset 76): 0 is one that isn't known.
    pub fn clock_frequency(self, clock_frequency: u32) -> Self
        ensures { result ≡ record self.entry { clock_frequency = clock_frequency } }
    {
        SPCR {
            clock_frequency,
            ..self
        }
    }

    /// Sets a baud rate that is used instead of the one at offset 58, unless it is 0 (offset 80).
    pub fn precise_baud_rate(self, precise_baud_rate: u32) -> Self
        ensures { result ≡ record self.entry { precise_baud_rate = precise_baud_rate } }
    {
        SPCR {
            precise_baud_rate,
            ..self
        }
    }
}

impl<'a> SPCR<'a> {
    /// The same console in a table of revision 2: 80 bytes, without the fields from offset 76 on.
    pub fn earlier(self) -> EarlierSPCR<'a>
        ensures { result ≡ record { table = self.entry } }
    {
        EarlierSPCR { table: self }
    }
}

// The names of interface types.
const INTERFACE_TYPES: [Word; 21] = [
    Word(0, "16550"),
    Word(1, "16550 Subset"),
    Word(2, "MAX311xE SPI"),
    Word(3, "Arm PL011"),
    Word(4, "MSM8x60"),
    Word(5, "Nvidia 16550"),
    Word(6, "TI OMAP"),
    Word(8, "APM88xxxx"),
    Word(9, "MSM8974"),
    Word(10, "SAM5250"),
    Word(11, "Intel USIF"),
    Word(12, "i.MX 6"),
    Word(13, "Arm SBSA Generic UART, 32-bit Accesses"),
    Word(14, "Arm SBSA Generic UART"),
    Word(15, "Arm DCC"),
    Word(16, "BCM2835"),
    Word(17, "SDM845, 1.8432 MHz"),
    Word(18, "16550 with Generic Address"),
    Word(19, "SDM845, 7.372 MHz"),
    Word(20, "Intel LPSS"),
    Word(21, "RISC-V SBI Console"),
];

/// The rows of an SPCR after its header.
pub const SPCR_ROWS: [Row; 24] = [
    Row::OneOf("Interface Type", 1, &INTERFACE_TYPES),
    Row::Reserved(3),
    Row::Register("Base Address"),
    Row::Flags(
        "Interrupt Type",
        1,
        &[
            Bits::Flag(0x1, "8259"),
            Bits::Flag(0x2, "I/O APIC"),
            Bits::Flag(0x4, "I/O SAPIC"),
            Bits::Flag(0x8, "Arm GIC"),
            Bits::Flag(0x10, "RISC-V PLIC or APLIC"),
        ],
    ),
    Row::Number("IRQ", 1),
    Row::Number("Global System Interrupt", 4),
    Row::OneOf(
        "Configured Baud Rate",
        1,
        &[
            Word(0, "As Is"),
            Word(3, "9600"),
            Word(4, "19200"),
            Word(6, "57600"),
            Word(7, "115200"),
        ],
    ),
    Row::OneOf("Parity", 1, &[Word(0, "No Parity")]),
    Row::Number("Stop Bits", 1),
    Row::Flags(
        "Flow Control",
        1,
        &[
            Bits::Flag(0x1, "DCD Required"),
            Bits::Flag(0x2, "RTS/CTS"),
            Bits::Flag(0x4, "XON/XOFF"),
        ],
    ),
    Row::OneOf(
        "Terminal Type",
        1,
        &[
            Word(0, "VT100"),
            Word(1, "Extended VT100"),
            Word(2, "VT-UTF8"),
            Word(3, "ANSI"),
        ],
    ),
    Row::Number("Language", 1),
    Row::Hex("PCI Device ID", 2),
    Row::Hex("PCI Vendor ID", 2),
    Row::Number("PCI Bus Number", 1),
    Row::Number("PCI Device Number", 1),
    Row::Number("PCI Function Number", 1),
    Row::Flags(
        "PCI Flags",
        4,
        &[Bits::Flag(0x1, "PnP and Power Management")],
    ),
    Row::Number("PCI Segment", 1),
    Row::Number("UART Clock Frequency", 4),
    Row::Number("Precise Baud Rate", 4),
    Row::Preset("NamespaceStringLength", 2, 2),
    Row::Preset("NamespaceStringOffset", 2, 88),
    Row::Text("NamespaceString", 2),
];

/// The fields after the header.
impl Record<54> for SPCR<'_> {
    ghost fields = { spcr_fields };

    fn rows() -> &'static [Row]
        ensures { (table : SPCR) → AreRowsOf result.now (spcr_fields table) }
    {
        &SPCR_ROWS
    }

    fn bytes(&self) -> [u8; 54] {
        record_of(
            &SPCR_ROWS,
            &[
                Value::Number(self.interface_type.number()),
                Value::Number(0),
                Value::Bytes(&self.base_address.bytes()),
                Value::Number(u64::from(self.interrupt_type)),
                Value::Number(u64::from(self.irq)),
                Value::Number(u64::from(self.gsi)),
                Value::Number(self.baud_rate.number()),
                Value::Number(u64::from(self.parity)),
                Value::Number(u64::from(self.stop_bits)),
                Value::Number(u64::from(self.flow_control)),
                Value::Number(self.terminal_type.number()),
                Value::Number(u64::from(self.language)),
                Value::Number(u64::from(self.pci_device_id)),
                Value::Number(u64::from(self.pci_vendor_id)),
                Value::Number(u64::from(self.pci_bus)),
                Value::Number(u64::from(self.pci_device)),
                Value::Number(u64::from(self.pci_function)),
                Value::Number(u64::from(self.pci_flags)),
                Value::Number(u64::from(self.pci_segment)),
                Value::Number(u64::from(self.clock_frequency)),
                Value::Number(u64::from(self.precise_baud_rate)),
                Value::Number(2),
                Value::Number(88),
                Value::Bytes(b".\0"),
            ],
        )
    }
}

impl Aml for SPCR<'_> {
    ghost object = { λ t. whole (spcr_bytes t) };

    ghost ends_well = { λ t. whole_ends_well (spcr_bytes t) };

    fn to_aml_bytes(&self, sink: &mut dyn AmlSink) -> R<()> {
        write_table::<54, 90, SPCR>(*b"SPCR", 4, self.oem, self, sink)
    }
}

/// The Serial Port Console Redirection table of revision 2, which `SPCR::earlier` makes: 80 bytes. The last four, from offset 76
/// on, are reserved.
#[derive(Drop)]
pub struct EarlierSPCR<'a> {
    table: SPCR<'a>,
}

impl Aml for EarlierSPCR<'_> {
    ghost object = { λ t. whole (earlier_spcr_bytes t) };

    ghost ends_well = { λ t. whole_ends_well (earlier_spcr_bytes t) };

    fn to_aml_bytes(&self, sink: &mut dyn AmlSink) -> R<()> {
        let fields: [u8; 54] = self.table.bytes();
        write_padded::<80>(*b"SPCR", 2, self.table.oem, &fields[..40], sink)
    }
}
