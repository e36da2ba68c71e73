//! TCPA and TPM2: the trusted platform module, and its log.

ghost use Rattle.std.specs.Prelude.{◌≡◌, ◌<◌, Some, None};
ghost use Rattle.acpi_base.specs.Fields.{AreRowsOf};
ghost use Rattle.acpi_base.specs.Object.{whole, whole_ends_well};
ghost use Rattle.acpi_fixed.specs.Tpm2.{tpm2_fields};
ghost use Rattle.acpi_fixed.specs.declared.tpm2.LogArea.{LogArea};
ghost use Rattle.acpi_fixed.specs.declared.tpm2.Tpm2.{Tpm2};
ghost use Rattle.acpi_fixed.specs.Oem.{oem_of};
ghost use Rattle.acpi_fixed.specs.Tcpa.{client_for, client_fields, client_bytes, server_at_first, with_log_area};
ghost use Rattle.acpi_fixed.specs.Tcpa.{with_device_flag, with_interrupt_flag, with_gpe, with_gsi, with_base, with_config};
ghost use Rattle.acpi_fixed.specs.Tcpa.{with_pci, server_fields, server_bytes};
ghost use Rattle.acpi_fixed.specs.Tpm2.{tpm2_of, tpm2_for, LogAreaOnce, tpm2_bytes};
ghost use Rattle.acpi_fixed.specs.declared.tpm2.Logged.{Logged};

use crate::sealed::write_table;
use acpi_base::error::{Error, R};
use acpi_base::gas::GAS;
use acpi_base::object::Aml;
use acpi_base::oem::Oem;
use acpi_base::row::{Bits, Record, Row, Value, Word, record_of, record_of_numbers};
use acpi_base::sink::AmlSink;

/// The kind of platform of a module (TCG ACPI Specification, offset 36 of TCPA and TPM2).
#[derive(Clone, Copy, Debug, Default, PartialEq)]
pub enum PlatformClass {
    #[default]
    Client = 0,
    Server = 1,
}

/// TCPA of a client (TCG ACPI Specification, TPM 1.2, client platform): 50 bytes.
#[derive(Drop)]
pub struct TpmClient1_2 {
    oem: Oem,
    log_area_min_len: u32,
    log_area_start_addr: u64,
}

impl TpmClient1_2 {
    /// A table for a log area of at least `log_area_min_len` bytes at a physical address.
    pub fn new(
        oem_id: [u8; 6],
        oem_table_id: [u8; 8],
        oem_revision: u32,
        log_area_min_len: u32,
        log_area_start_addr: u64,
    ) -> TpmClient1_2
        ensures { result ≡ client_for (oem_of oem_id oem_table_id oem_revision) log_area_min_len log_area_start_addr }
    {
        TpmClient1_2 {
            oem: Oem::new(oem_id, oem_table_id, oem_revision),
            log_area_min_len,
            log_area_start_addr,
        }
    }
}

/// The rows of a TCPA of a client after its header.
pub const TCPA_CLIENT: [Row; 3] = [
    Row::OneOf("Platform Class", 2, &[Word(0, "Client"), Word(1, "Server")]),
    Row::Number("Log Area Minimum Length", 4),
    Row::Hex("Log Area Start Address", 8),
];

/// The fields after the header.
impl Record<14> for TpmClient1_2 {
    ghost fields = { client_fields };

    fn rows() -> &'static [Row] {
        &TCPA_CLIENT
    }

    fn bytes(&self) -> [u8; 14] {
        record_of_numbers(
            &TCPA_CLIENT,
            &[
                PlatformClass::Client as u64,
                u64::from(self.log_area_min_len),
                self.log_area_start_addr,
            ],
        )
    }
}

impl Aml for TpmClient1_2 {
    ghost object = { λ t. whole (client_bytes t) };

    ghost ends_well = { λ t. whole_ends_well (client_bytes t) };

    fn to_aml_bytes(&self, sink: &mut dyn AmlSink) -> R<()> {
        write_table::<14, 50, TpmClient1_2>(*b"TCPA", 2, self.oem, self, sink)
    }
}

// Device flags of TCPA (offset 58).
const PCI_DEVICE: u8 = 1;

const BUS_IS_PNP: u8 = 2;

const CONFIG_ADDRESS_VALID: u8 = 4;

// Interrupt flags of TCPA (offset 59).
const EDGE_TRIGGERED: u8 = 1;

const ACTIVE_LOW: u8 = 2;

const SCI_BY_GPE: u8 = 4;

const GLOBAL_INTERRUPT: u8 = 8;

/// TCPA of a server (TCG ACPI Specification, TPM 1.2, server platform): 100 bytes, for revision 1.2 of the TCG specification. Its
/// checksum is computed when the table is written.
#[derive(Clone, Copy)]
pub struct TpmServer1_2 {
    oem: Oem,
    log_area_min_len: u64,
    log_area_start_addr: u64,
    device_flags: u8,
    interrupt_flags: u8,
    gpe: u8,
    gsi: u32,
    base_addr: GAS,
    config_addr: GAS,
    pci_segment: u8,
    pci_bus: u8,
    pci_device: u8,
    pci_function: u8,
}

impl TpmServer1_2 {
    /// A table in which every field after the TCG revision is zero.
    pub fn new(oem_id: [u8; 6], oem_table_id: [u8; 8], oem_revision: u32) -> TpmServer1_2
        ensures { result ≡ server_at_first (oem_of oem_id oem_table_id oem_revision) }
    {
        TpmServer1_2 {
            oem: Oem::new(oem_id, oem_table_id, oem_revision),
            log_area_min_len: 0,
            log_area_start_addr: 0,
            device_flags: 0,
            interrupt_flags: 0,
            gpe: 0,
            gsi: 0,
            base_addr: GAS::default(),
            config_addr: GAS::default(),
            pci_segment: 0,
            pci_bus: 0,
            pci_device: 0,
            pci_function: 0,
        }
    }

    /// Sets a log area of at least this many bytes (offset 40) at a physical address (offset 48).
    pub fn log_area(mut self, log_area_min_len: u64, log_area_start_addr: u64) -> TpmServer1_2
        ensures { result ≡ with_log_area log_area_min_len log_area_start_addr self }
    {
        self.log_area_min_len = log_area_min_len;
        self.log_area_start_addr = log_area_start_addr;
        self
    }

    /// Sets interrupt flag 2: the interrupt is active low.
    pub fn active_low(mut self) -> TpmServer1_2
        ensures { result ≡ with_interrupt_flag 2 self }
    {
        self.interrupt_flags |= ACTIVE_LOW;
        self
    }

    /// Sets interrupt flag 1: the interrupt is edge triggered.
    pub fn edge_triggered(mut self) -> TpmServer1_2
        ensures { result ≡ with_interrupt_flag 1 self }
    {
        self.interrupt_flags |= EDGE_TRIGGERED;
        self
    }

    /// Sets the bit of the general purpose event that the module raises (offset 60), and interrupt flag 4.
    pub fn sci_gpe(mut self, sci_gpe_bit: u8) -> TpmServer1_2
        ensures { result ≡ with_interrupt_flag 4 (with_gpe sci_gpe_bit self) }
    {
        self.gpe = sci_gpe_bit;
        self.interrupt_flags |= SCI_BY_GPE;
        self
    }

    /// Sets the global system interrupt (offset 64), and interrupt flag 8.
    pub fn gsi(mut self, gsi: u32) -> TpmServer1_2
        ensures { result ≡ with_interrupt_flag 8 (with_gsi gsi self) }
    {
        self.gsi = gsi;
        self.interrupt_flags |= GLOBAL_INTERRUPT;
        self
    }

    /// Sets device flag 2: the module is on a Plug and Play bus.
    pub fn bus_is_pnp(mut self) -> TpmServer1_2
        ensures { result ≡ with_device_flag 2 self }
    {
        self.device_flags |= BUS_IS_PNP;
        self
    }

    /// Sets the module's PCI function, by segment, bus, device and function (offsets 96 to 99), and device flag 1.
    pub fn pci_sbdf(mut self, segment: u8, bus: u8, device: u8, function: u8) -> TpmServer1_2
        requires device { device < 32 }
        requires function { function < 8 }
        ensures { result ≡ with_device_flag 1 (with_pci segment bus device function self) }
    {
        self.pci_segment = segment;
        self.pci_bus = bus;
        self.pci_device = device;
        self.pci_function = function;
        self.device_flags |= PCI_DEVICE;
        self
    }

    /// Sets the address of the module's registers (offset 68).
    pub fn base_addr(mut self, addr: GAS) -> TpmServer1_2
        ensures { result ≡ with_base addr self }
    {
        self.base_addr = addr;
        self
    }

    /// Sets the address of the module's configuration (offset 84), and device flag 4.
    pub fn config_addr(mut self, addr: GAS) -> TpmServer1_2
        ensures { result ≡ with_device_flag 4 (with_config addr self) }
    {
        self.config_addr = addr;
        self.device_flags |= CONFIG_ADDRESS_VALID;
        self
    }

    /// The size in bytes.
    pub fn len() -> usize
        ensures { result ≡ 100 }
    {
        100
    }
}

/// The rows of a TCPA of a server after its header.
pub const TCPA_SERVER: [Row; 17] = [
    Row::OneOf("Platform Class", 2, &[Word(0, "Client"), Word(1, "Server")]),
    Row::Reserved(2),
    Row::Number("Log Area Minimum Length", 8),
    Row::Hex("Log Area Start Address", 8),
    Row::Bytes("Specification Revision", 2),
    Row::Flags(
        "Device Flags",
        1,
        &[
            Bits::Flag(0x1, "PCI Device"),
            Bits::Flag(0x2, "Bus is PNP"),
            Bits::Flag(0x4, "Configuration Address Valid"),
        ],
    ),
    Row::Flags(
        "Interrupt Flags",
        1,
        &[
            Bits::Flag(0x1, "Edge Triggered"),
            Bits::Flag(0x2, "Active Low"),
            Bits::Flag(0x4, "SCI by GPE"),
            Bits::Flag(0x8, "Global System Interrupt"),
        ],
    ),
    Row::Number("GPE", 1),
    Row::Reserved(3),
    Row::Number("Global System Interrupt", 4),
    Row::Register("Base Address"),
    Row::Reserved(4),
    Row::Register("Configuration Address"),
    Row::Number("PCI Segment Group Number", 1),
    Row::Number("PCI Bus Number", 1),
    Row::Number("PCI Device Number", 1),
    Row::Number("PCI Function Number", 1),
];

/// The fields after the header.
impl Record<64> for TpmServer1_2 {
    ghost fields = { server_fields };

    fn rows() -> &'static [Row] {
        &TCPA_SERVER
    }

    fn bytes(&self) -> [u8; 64] {
        record_of(
            &TCPA_SERVER,
            &[
                Value::Number(PlatformClass::Server as u64),
                Value::Number(0),
                Value::Number(self.log_area_min_len),
                Value::Number(self.log_area_start_addr),
                Value::Bytes(&[1, 2]),
                Value::Number(u64::from(self.device_flags)),
                Value::Number(u64::from(self.interrupt_flags)),
                Value::Number(u64::from(self.gpe)),
                Value::Number(0),
                Value::Number(u64::from(self.gsi)),
                Value::Bytes(&self.base_addr.bytes()),
                Value::Number(0),
                Value::Bytes(&self.config_addr.bytes()),
                Value::Number(u64::from(self.pci_segment)),
                Value::Number(u64::from(self.pci_bus)),
                Value::Number(u64::from(self.pci_device)),
                Value::Number(u64::from(self.pci_function)),
            ],
        )
    }
}

impl Aml for TpmServer1_2 {
    ghost object = { λ t. whole (server_bytes t) };

    ghost ends_well = { λ t. whole_ends_well (server_bytes t) };

    fn to_aml_bytes(&self, sink: &mut dyn AmlSink) -> R<()> {
        write_table::<64, 100, TpmServer1_2>(*b"TCPA", 2, self.oem, self, sink)
    }
}

/// The start method of a module (TCG ACPI Specification, TPM2, offset 48).
#[derive(Clone, Copy, Debug, Default, PartialEq)]
pub enum StartMethod {
    #[default]
    LegacyUse = 0x01,
    AcpiStart = 0x02,
    Mmio = 0x06,
    Crb = 0x07,
    CrbAndAcpiStart = 0x08,
    CrbAndSmcHvc = 0x0b,
    I2cFifo = 0x0c,
}

// A log area: at least this many bytes, at a physical address.
#[derive(Clone, Copy)]
struct LogArea {
    min_len: u32,
    base_addr: u64,
}

/// TPM2 (TCG ACPI Specification, TPM 2.0): 52 bytes, or 76 with a log area.
#[derive(Drop)]
pub struct Tpm2 {
    revision: u8,
    oem: Oem,
    platform_class: PlatformClass,
    crb_or_fifo_base: u64,
    start_method: StartMethod,
    log_area: Option<LogArea>,
}

impl Tpm2 {
    /// A table without a log area, for a module whose control area or FIFO is at a physical address.
    pub fn new(
        oem_id: [u8; 6],
        oem_table_id: [u8; 8],
        oem_revision: u32,
        platform_class: PlatformClass,
        crb_or_fifo_base: u64,
        start_method: StartMethod,
    ) -> Tpm2
        ensures { result ≡ tpm2_for (oem_of oem_id oem_table_id oem_revision) platform_class crb_or_fifo_base start_method }
    {
        Tpm2::of_revision(
            1,
            oem_id,
            oem_table_id,
            oem_revision,
            platform_class,
            crb_or_fifo_base,
            start_method,
        )
    }

    /// A table of a revision without a log area. Revision 4 is that of the TCG ACPI Specification 1.2.
    pub fn of_revision(
        revision: u8,
        oem_id: [u8; 6],
        oem_table_id: [u8; 8],
        oem_revision: u32,
        platform_class: PlatformClass,
        crb_or_fifo_base: u64,
        start_method: StartMethod,
    ) -> Tpm2
        ensures { result ≡
            tpm2_of revision (oem_of oem_id oem_table_id oem_revision) platform_class crb_or_fifo_base start_method }
    {
        Tpm2 {
            revision,
            oem: Oem::new(oem_id, oem_table_id, oem_revision),
            platform_class,
            crb_or_fifo_base,
            start_method,
            log_area: None,
        }
    }

    /// Adds a log area of at least this many bytes at a physical address. The error is `LogAreaSet` if the table has a log area
    /// already; the table is unchanged then.
    pub fn set_log_area(&mut self, min_len: u32, base_addr: u64) -> R<()>
        ensures { LogAreaOnce self.old min_len base_addr self.new result }
    {
        if self.log_area.is_some() {
            return Err(Error::LogAreaSet);
        }
        self.log_area = Some(LogArea { min_len, base_addr });
        Ok(())
    }
}

/// The rows of a TPM2 after its header.
pub const TPM2_FIXED: [Row; 7] = [
    Row::OneOf("Platform Class", 2, &[Word(0, "Client"), Word(1, "Server")]),
    Row::Reserved(2),
    Row::Hex("Address of CRB Control Area", 8),
    Row::OneOf(
        "Start Method",
        4,
        &[
            Word(1, "Vendor Specific Legacy Use"),
            Word(2, "ACPI Start Method"),
            Word(6, "Memory Mapped I/O"),
            Word(7, "Command Response Buffer"),
            Word(8, "Command Response Buffer with ACPI Start Method"),
            Word(
                11,
                "Command Response Buffer with Arm Secure Monitor or Hypervisor Call",
            ),
            Word(12, "FIFO over I2C"),
        ],
    ),
    Row::Bytes("Start Method Specific Parameters", 12),
    Row::Number("Log Area Minimum Length", 4),
    Row::Hex("Log Area Start Address", 8),
];

/// The rows of the fields after the header, in order, of a table with a log area.
pub fn tpm2_rows() -> &'static [Row]
    ensures { (table : Tpm2) (area : LogArea) → AreRowsOf result.now (tpm2_fields table (Some area)) }
{
    &TPM2_FIXED
}

/// The fields after the header, without a log area.
impl Record<16> for Tpm2 {
    ghost fields = { λ t. tpm2_fields t None };

    fn rows() -> &'static [Row] {
        &TPM2_FIXED[..4]
    }

    fn bytes(&self) -> [u8; 16] {
        record_of_numbers(
            &TPM2_FIXED[..4],
            &[
                self.platform_class as u64,
                0,
                self.crb_or_fifo_base,
                self.start_method as u64,
            ],
        )
    }
}

// A table with its log area.
#[derive(Clone, Copy)]
struct Logged<'a> {
    table: &'a Tpm2,
    area: LogArea,
}

impl Record<40> for Logged<'_> {
    ghost fields = { λ l. tpm2_fields l.table.now (Some l.area) };

    fn rows() -> &'static [Row]
        ensures { (logged : Logged) → AreRowsOf result.now (tpm2_fields logged.table.now (Some logged.area)) }
    {
        &TPM2_FIXED
    }

    fn bytes(&self) -> [u8; 40] {
        record_of(
            &TPM2_FIXED,
            &[
                Value::Number(self.table.platform_class as u64),
                Value::Number(0),
                Value::Number(self.table.crb_or_fifo_base),
                Value::Number(self.table.start_method as u64),
                Value::Bytes(&[0; 12]),
                Value::Number(u64::from(self.area.min_len)),
                Value::Number(self.area.base_addr),
            ],
        )
    }
}

impl Aml for Tpm2 {
    ghost object = { λ t. whole (tpm2_bytes t) };

    ghost ends_well = { λ t. whole_ends_well (tpm2_bytes t) };

    fn to_aml_bytes(&self, sink: &mut dyn AmlSink) -> R<()> {
        match self.log_area {
            None => write_table::<16, 52, Tpm2>(*b"TPM2", self.revision, self.oem, self, sink),
            Some(area) => {
                let logged = Logged { table: self, area };
                write_table::<40, 76, Logged>(*b"TPM2", self.revision, self.oem, &logged, sink)
            }
        }
    }
}
