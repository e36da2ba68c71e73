//! FADT: the ACPI hardware of the machine, and the addresses of the FACS and the DSDT.

ghost use Rattle.std.specs.Prelude.{◌≡◌};
ghost use Rattle.acpi_base.specs.Fields.{fields_joined, AreRowsOf};
ghost use Rattle.acpi_base.specs.Object.{whole, whole_ends_well};
ghost use Rattle.acpi_fixed.specs.Fadt.{header_fields};
ghost use Rattle.acpi_fixed.specs.declared.fadt.FADTBuilder.{FADTBuilder};
ghost use Rattle.acpi_fixed.specs.Fadt.{fadt_bytes, fadt_at_first, with_dsdt, with_facs, with_commands, with_flag};
ghost use Rattle.acpi_fixed.specs.Fadt.{with_profile, with_gpe_info, fadt_fields};

mod earlier;

use crate::sealed::sealed_table;
use acpi_base::error::R;
use acpi_base::gas::GAS;
use acpi_base::header::{CREATOR_ID, CREATOR_REVISION, HEADER};
use acpi_base::object::Aml;
use acpi_base::row::{Bits, Record, Row, Value, Word, record_of};
use acpi_base::sink::AmlSink;
pub use earlier::{EarlierFADT, FadtRelease};
use std::marker::Model;

/// Fixed feature flags (ACPI 6.5, 5.2.9, table 5.10). Bits 1 to 3, 7, 8, 13, 14, 16 and 17 are ignored on hardware-reduced
/// machines. The last three are the values of one field of two bits, at bit 22.
#[derive(Clone, Copy, Debug, PartialEq)]
pub enum Flags {
    Wbinvd = 0x0000_0001,
    WbinvdFlush = 0x0000_0002,
    ProcC1 = 0x0000_0004,
    PLvl2Up = 0x0000_0008,
    PwrButton = 0x0000_0010,
    SlpButton = 0x0000_0020,
    FixRtc = 0x0000_0040,
    RtcS4 = 0x0000_0080,
    TmrValExt = 0x0000_0100,
    DckCap = 0x0000_0200,
    ResetRegSup = 0x0000_0400,
    SealedCase = 0x0000_0800,
    Headless = 0x0000_1000,
    CpuSwSlp = 0x0000_2000,
    PciExpWak = 0x0000_4000,
    UsePlatformClock = 0x0000_8000,
    S4RtcStsValid = 0x0001_0000,
    RemotePowerOnCapable = 0x0002_0000,
    ForceApicClusterModel = 0x0004_0000,
    ForceApicPhysicalDestinationMode = 0x0008_0000,
    HwReducedAcpi = 0x0010_0000,
    LowPowerS0IdleCapable = 0x0020_0000,
    PersistentCpuCachesNotReported = 0x0000_0000,
    PersistentCpuCachesNotPersistent = 0x0040_0000,
    PersistentCpuCachesArePersistent = 0x0080_0000,
}

/// The preferred power management profile (ACPI 6.5, 5.2.9, offset 45).
#[derive(Clone, Copy, Debug, PartialEq)]
pub enum PmProfile {
    Unspecified = 0,
    Desktop = 1,
    Mobile = 2,
    Workstation = 3,
    EnterpriseServer = 4,
    SohoServer = 5,
    AppliancePc = 6,
    PerformanceServer = 7,
    Tablet = 8,
}

/// The fields of the Fixed ACPI Description Table (ACPI 6.5, 5.2.9), from which `finalize` makes the table. Reserved fields are
/// zero. In `default` every field is zero, even the length, and `finalize` doesn't change that.
#[derive(Clone, Copy, Default)]
pub struct FADTBuilder {
    /// `FACP`.
    pub signature: [u8; 4],
    /// The size in bytes.
    pub length: u32,
    pub major_version: u8,
    /// The checksum. Its value isn't used: the checksum is computed when the table is written.
    pub checksum: u8,
    pub oem_id: [u8; 6],
    pub oem_table_id: [u8; 8],
    pub oem_revision: u32,
    pub creator_id: [u8; 4],
    pub creator_revision: [u8; 4],
    /// The physical address of the FACS, of 32 bits.
    pub firmware_ctrl: u32,
    /// The physical address of the DSDT, of 32 bits.
    pub dsdt: u32,
    /// The number of a `PmProfile`.
    pub preferred_pm_profile: u8,
    /// On a hardware-reduced machine (`HwReducedAcpi`) this and all fields up to `century` are ignored.
    pub sci_int: u16,
    pub smi_cmd: u32,
    pub acpi_enable: u8,
    pub acpi_disable: u8,
    pub s4bios_req: u8,
    pub pstate_cnt: u8,
    pub pm1a_evt_blk: u32,
    pub pm1b_evt_blk: u32,
    pub pm1a_cnt_blk: u32,
    pub pm1b_cnt_blk: u32,
    pub pm2_cnt_blk: u32,
    pub pm_tmr_blk: u32,
    pub gpe0_blk: u32,
    pub gpe1_blk: u32,
    pub pm1_evt_len: u8,
    pub pm1_cnt_len: u8,
    pub pm2_cnt_len: u8,
    pub pm_tmr_len: u8,
    pub gpe0_blk_len: u8,
    pub gpe1_blk_len: u8,
    pub gpe1_base: u8,
    pub cst_cnt: u8,
    pub p_lvl2_lat: u16,
    pub p_lvl3_lat: u16,
    pub flush_size: u16,
    pub flush_stride: u16,
    pub duty_offset: u8,
    pub duty_width: u8,
    pub day_alrm: u8,
    pub mon_alrm: u8,
    pub century: u8,
    pub iapc_boot_arch: u16,
    /// The numbers of `Flags`, joined by or.
    pub flags: u32,
    pub reset_reg: GAS,
    pub reset_value: u8,
    pub arm_boot_arch: u16,
    pub fadt_minor_version: u8,
    /// The physical address of the FACS, of 64 bits.
    pub x_firmware_ctrl: u64,
    /// The physical address of the DSDT, of 64 bits.
    pub x_dsdt: u64,
    /// On a hardware-reduced machine this and all fields up to `x_gpe1_blk` are ignored.
    pub x_pm1a_evt_blk: GAS,
    pub x_pm1b_evt_blk: GAS,
    pub x_pm1a_cnt_blk: GAS,
    pub x_pm1b_cnt_blk: GAS,
    pub x_pm2_cnt_blk: GAS,
    pub x_pm_tmr_blk: GAS,
    pub x_gpe0_blk: GAS,
    pub x_gpe1_blk: GAS,
    pub sleep_control_reg: GAS,
    pub sleep_status_reg: GAS,
    pub hypervisor_vendor_identity: u64,
}

/// The Fixed ACPI Description Table (ACPI 6.5, 5.2.9): 276 bytes.
#[derive(Drop)]
pub struct FADT {
    table: FADTBuilder,
}

impl Model for FADT {
    ghost use Rattle.acpi_fixed.specs.declared.fadt.FADTBuilder.{FADTBuilder};

    ghost Value = { FADTBuilder };

    ghost view = { λ t. t.table };

    ghost inverse = { λ f. record { table = f } };
}

impl FADT {
    /// The size in bytes.
    pub fn len() -> usize
        ensures { result ≡ 276 }
    {
        276
    }
}

impl Aml for FADT {
    ghost object = { λ f. whole (fadt_bytes f) };

    ghost ends_well = { λ f. whole_ends_well (fadt_bytes f) };

    fn to_aml_bytes(&self, sink: &mut dyn AmlSink) -> R<()> {
        sink.vec(&self.table.sealed())
    }
}

impl FADTBuilder {
    /// A table of revision 6.5 and 276 bytes. All bytes after the header are zero except the minor version, 5 (offset 131).
    pub fn new(oem_id: [u8; 6], oem_table_id: [u8; 8], oem_revision: u32) -> FADTBuilder
        ensures { result ≡ fadt_at_first oem_id oem_table_id oem_revision }
    {
        FADTBuilder {
            signature: *b"FACP",
            length: 276,
            major_version: 6,
            oem_id,
            oem_table_id,
            oem_revision,
            creator_id: CREATOR_ID,
            creator_revision: CREATOR_REVISION,
            fadt_minor_version: 5,
            ..FADTBuilder::default()
        }
    }

    /// The table of these fields, all of which keep their values. Its checksum is computed when it is written.
    pub fn finalize(self) -> FADT
        ensures { result ≡ self }
    {
        FADT { table: self }
    }

    /// Sets the DSDT's 32-bit physical address (offset 40). The 64-bit address becomes zero.
    pub fn dsdt_32(mut self, dsdt_physical_addr: u32) -> FADTBuilder
        ensures { result ≡ with_dsdt dsdt_physical_addr 0 self }
    {
        self.dsdt = dsdt_physical_addr;
        self.x_dsdt = 0;
        self
    }

    /// Sets the DSDT's 64-bit physical address (offset 140). The 32-bit address becomes zero.
    pub fn dsdt_64(mut self, dsdt_physical_addr: u64) -> FADTBuilder
        ensures { result ≡ with_dsdt 0 dsdt_physical_addr self }
    {
        self.dsdt = 0;
        self.x_dsdt = dsdt_physical_addr;
        self
    }

    /// Sets the FACS's 32-bit physical address (offset 36). The 64-bit address becomes zero.
    pub fn firmware_ctrl_32(mut self, facs_physical_addr: u32) -> FADTBuilder
        ensures { result ≡ with_facs facs_physical_addr 0 self }
    {
        self.firmware_ctrl = facs_physical_addr;
        self.x_firmware_ctrl = 0;
        self
    }

    /// Sets the FACS's 64-bit physical address (offset 132). The 32-bit address becomes zero.
    pub fn firmware_ctrl_64(mut self, facs_physical_addr: u64) -> FADTBuilder
        ensures { result ≡ with_facs 0 facs_physical_addr self }
    {
        self.firmware_ctrl = 0;
        self.x_firmware_ctrl = facs_physical_addr;
        self
    }

    /// Sets the values that are written to the command port to turn ACPI on and off (offsets 52 and 53) to 1 and 0.
    pub fn acpi_enable(mut self) -> FADTBuilder
        ensures { result ≡ with_commands 1 0 self }
    {
        self.acpi_enable = 1;
        self.acpi_disable = 0;
        self
    }

    /// Sets the values that are written to the command port to turn ACPI on and off (offsets 52 and 53) to 0 and 1.
    pub fn acpi_disable(mut self) -> FADTBuilder
        ensures { result ≡ with_commands 0 1 self }
    {
        self.acpi_enable = 0;
        self.acpi_disable = 1;
        self
    }

    /// Sets a fixed feature flag (offset 112). Flags that are set already stay set.
    pub fn flag(mut self, flags: Flags) -> FADTBuilder
        ensures { result ≡ with_flag flags self }
    {
        self.flags |= flags as u32;
        self
    }

    /// Sets the blocks of general purpose events: their system I/O addresses (offsets 80 and 84), their lengths in bytes (offsets
    /// 92 and 93), and the number of the second block's first event (offset 94).
    pub fn gpe_info(
        mut self,
        gpe0_blk: u32,
        gpe1_blk: u32,
        gpe0_blk_len: u8,
        gpe1_blk_len: u8,
        gpe1_base: u8,
    ) -> FADTBuilder
        ensures { result ≡ with_gpe_info gpe0_blk gpe1_blk gpe0_blk_len gpe1_blk_len gpe1_base self }
    {
        self.gpe0_blk = gpe0_blk;
        self.gpe1_blk = gpe1_blk;
        self.gpe0_blk_len = gpe0_blk_len;
        self.gpe1_blk_len = gpe1_blk_len;
        self.gpe1_base = gpe1_base;
        self
    }

    /// Sets the preferred power management profile (offset 45).
    pub fn preferred_pm_profile(mut self, profile: PmProfile) -> FADTBuilder
        ensures { result ≡ with_profile profile self }
    {
        self.preferred_pm_profile = profile as u8;
        self
    }

    // The bytes of the table.
    fn sealed(&self) -> [u8; 276]
        ensures { result ≡ fadt_bytes self.now }
    {
        sealed_table(self.header(), &self.bytes())
    }

    // The bytes of the header.
    fn header(&self) -> [u8; 36]
        ensures { result ≡ fields_joined (header_fields self.now) }
    {
        record_of(
            &HEADER,
            &[
                Value::Bytes(&self.signature),
                Value::Number(self.length as u64),
                Value::Number(self.major_version as u64),
                Value::Number(self.checksum as u64),
                Value::Bytes(&self.oem_id),
                Value::Bytes(&self.oem_table_id),
                Value::Number(self.oem_revision as u64),
                Value::Bytes(&self.creator_id),
                Value::Bytes(&self.creator_revision),
            ],
        )
    }
}

/// The rows of the header's fields, in order.
pub fn fadt_header_rows() -> &'static [Row]
    ensures { (fields : FADTBuilder) → AreRowsOf result.now (header_fields fields) }
{
    &HEADER
}

// The names of power management profiles (ACPI 6.5, 5.2.9).
const PROFILES: [Word; 9] = [
    Word(0, "Unspecified"),
    Word(1, "Desktop"),
    Word(2, "Mobile"),
    Word(3, "Workstation"),
    Word(4, "Enterprise Server"),
    Word(5, "SOHO Server"),
    Word(6, "Appliance PC"),
    Word(7, "Performance Server"),
    Word(8, "Tablet"),
];

// The names of the boot architecture flags of IA-PC (ACPI 6.5, 5.2.9.3).
const IAPC_BOOT_ARCH: [Bits; 6] = [
    Bits::Flag(0x1, "LEGACY_DEVICES"),
    Bits::Flag(0x2, "8042"),
    Bits::Flag(0x4, "VGA Not Present"),
    Bits::Flag(0x8, "MSI Not Supported"),
    Bits::Flag(0x10, "PCIe ASPM Controls"),
    Bits::Flag(0x20, "CMOS RTC Not Present"),
];

// The names of the fixed feature flags (ACPI 6.5, 5.2.9).
const FLAGS: [Bits; 23] = [
    Bits::Flag(0x1, "WBINVD"),
    Bits::Flag(0x2, "WBINVD_FLUSH"),
    Bits::Flag(0x4, "PROC_C1"),
    Bits::Flag(0x8, "P_LVL2_UP"),
    Bits::Flag(0x10, "PWR_BUTTON"),
    Bits::Flag(0x20, "SLP_BUTTON"),
    Bits::Flag(0x40, "FIX_RTC"),
    Bits::Flag(0x80, "RTC_S4"),
    Bits::Flag(0x100, "TMR_VAL_EXT"),
    Bits::Flag(0x200, "DCK_CAP"),
    Bits::Flag(0x400, "RESET_REG_SUP"),
    Bits::Flag(0x800, "SEALED_CASE"),
    Bits::Flag(0x1000, "HEADLESS"),
    Bits::Flag(0x2000, "CPU_SW_SLP"),
    Bits::Flag(0x4000, "PCI_EXP_WAK"),
    Bits::Flag(0x8000, "USE_PLATFORM_CLOCK"),
    Bits::Flag(0x10000, "S4_RTC_STS_VALID"),
    Bits::Flag(0x20000, "REMOTE_POWER_ON_CAPABLE"),
    Bits::Flag(0x40000, "FORCE_APIC_CLUSTER_MODEL"),
    Bits::Flag(0x80000, "FORCE_APIC_PHYSICAL_DESTINATION_MODE"),
    Bits::Flag(0x100000, "HW_REDUCED_ACPI"),
    Bits::Flag(0x200000, "LOW_POWER_S0_IDLE_CAPABLE"),
    Bits::OneOf(
        0xc00000,
        &[
            Word(0x0, "PERSISTENT_CPU_CACHES Not Reported"),
            Word(0x400000, "PERSISTENT_CPU_CACHES Not Persistent"),
            Word(0x800000, "PERSISTENT_CPU_CACHES Persistent"),
        ],
    ),
];

// The names of the boot architecture flags of Arm (ACPI 6.5, 5.2.9.4).
const ARM_BOOT_ARCH: [Bits; 2] = [
    Bits::Flag(0x1, "PSCI_COMPLIANT"),
    Bits::Flag(0x2, "PSCI_USE_HVC"),
];

/// The rows of a FADT after its header.
pub const FADT_ROWS: [Row; 55] = [
    Row::Hex("FIRMWARE_CTRL", 4),
    Row::Hex("DSDT", 4),
    Row::Reserved(1),
    Row::OneOf("Preferred_PM_Profile", 1, &PROFILES),
    Row::Number("SCI_INT", 2),
    Row::Hex("SMI_CMD", 4),
    Row::Hex("ACPI_ENABLE", 1),
    Row::Hex("ACPI_DISABLE", 1),
    Row::Hex("S4BIOS_REQ", 1),
    Row::Hex("PSTATE_CNT", 1),
    Row::Hex("PM1a_EVT_BLK", 4),
    Row::Hex("PM1b_EVT_BLK", 4),
    Row::Hex("PM1a_CNT_BLK", 4),
    Row::Hex("PM1b_CNT_BLK", 4),
    Row::Hex("PM2_CNT_BLK", 4),
    Row::Hex("PM_TMR_BLK", 4),
    Row::Hex("GPE0_BLK", 4),
    Row::Hex("GPE1_BLK", 4),
    Row::Number("PM1_EVT_LEN", 1),
    Row::Number("PM1_CNT_LEN", 1),
    Row::Number("PM2_CNT_LEN", 1),
    Row::Number("PM_TMR_LEN", 1),
    Row::Number("GPE0_BLK_LEN", 1),
    Row::Number("GPE1_BLK_LEN", 1),
    Row::Number("GPE1_BASE", 1),
    Row::Hex("CST_CNT", 1),
    Row::Number("P_LVL2_LAT", 2),
    Row::Number("P_LVL3_LAT", 2),
    Row::Number("FLUSH_SIZE", 2),
    Row::Number("FLUSH_STRIDE", 2),
    Row::Number("DUTY_OFFSET", 1),
    Row::Number("DUTY_WIDTH", 1),
    Row::Hex("DAY_ALRM", 1),
    Row::Hex("MON_ALRM", 1),
    Row::Hex("CENTURY", 1),
    Row::Flags("IAPC_BOOT_ARCH", 2, &IAPC_BOOT_ARCH),
    Row::Reserved(1),
    Row::Flags("Flags", 4, &FLAGS),
    Row::Register("RESET_REG"),
    Row::Hex("RESET_VALUE", 1),
    Row::Flags("ARM_BOOT_ARCH", 2, &ARM_BOOT_ARCH),
    Row::Flags(
        "FADT Minor Version",
        1,
        &[
            Bits::Number(0xf, 0x1, "Minor Version"),
            Bits::Number(0xf0, 0x10, "Errata"),
        ],
    ),
    Row::Hex("X_FIRMWARE_CTRL", 8),
    Row::Hex("X_DSDT", 8),
    Row::Register("X_PM1a_EVT_BLK"),
    Row::Register("X_PM1b_EVT_BLK"),
    Row::Register("X_PM1a_CNT_BLK"),
    Row::Register("X_PM1b_CNT_BLK"),
    Row::Register("X_PM2_CNT_BLK"),
    Row::Register("X_PM_TMR_BLK"),
    Row::Register("X_GPE0_BLK"),
    Row::Register("X_GPE1_BLK"),
    Row::Register("SLEEP_CONTROL_REG"),
    Row::Register("SLEEP_STATUS_REG"),
    Row::Hex("Hypervisor Vendor Identity", 8),
];

/// The fields after the header.
impl Record<240> for FADTBuilder {
    ghost fields = { fadt_fields };

    fn rows() -> &'static [Row] {
        &FADT_ROWS
    }

    fn bytes(&self) -> [u8; 240] {
        record_of(
            &FADT_ROWS,
            &[
                Value::Number(self.firmware_ctrl as u64),
                Value::Number(self.dsdt as u64),
                Value::Number(0),
                Value::Number(self.preferred_pm_profile as u64),
                Value::Number(self.sci_int as u64),
                Value::Number(self.smi_cmd as u64),
                Value::Number(self.acpi_enable as u64),
                Value::Number(self.acpi_disable as u64),
                Value::Number(self.s4bios_req as u64),
                Value::Number(self.pstate_cnt as u64),
                Value::Number(self.pm1a_evt_blk as u64),
                Value::Number(self.pm1b_evt_blk as u64),
                Value::Number(self.pm1a_cnt_blk as u64),
                Value::Number(self.pm1b_cnt_blk as u64),
                Value::Number(self.pm2_cnt_blk as u64),
                Value::Number(self.pm_tmr_blk as u64),
                Value::Number(self.gpe0_blk as u64),
                Value::Number(self.gpe1_blk as u64),
                Value::Number(self.pm1_evt_len as u64),
                Value::Number(self.pm1_cnt_len as u64),
                Value::Number(self.pm2_cnt_len as u64),
                Value::Number(self.pm_tmr_len as u64),
                Value::Number(self.gpe0_blk_len as u64),
                Value::Number(self.gpe1_blk_len as u64),
                Value::Number(self.gpe1_base as u64),
                Value::Number(self.cst_cnt as u64),
                Value::Number(self.p_lvl2_lat as u64),
                Value::Number(self.p_lvl3_lat as u64),
                Value::Number(self.flush_size as u64),
                Value::Number(self.flush_stride as u64),
                Value::Number(self.duty_offset as u64),
                Value::Number(self.duty_width as u64),
                Value::Number(self.day_alrm as u64),
                Value::Number(self.mon_alrm as u64),
                Value::Number(self.century as u64),
                Value::Number(self.iapc_boot_arch as u64),
                Value::Number(0),
                Value::Number(self.flags as u64),
                Value::Bytes(&self.reset_reg.bytes()),
                Value::Number(self.reset_value as u64),
                Value::Number(self.arm_boot_arch as u64),
                Value::Number(self.fadt_minor_version as u64),
                Value::Number(self.x_firmware_ctrl),
                Value::Number(self.x_dsdt),
                Value::Bytes(&self.x_pm1a_evt_blk.bytes()),
                Value::Bytes(&self.x_pm1b_evt_blk.bytes()),
                Value::Bytes(&self.x_pm1a_cnt_blk.bytes()),
                Value::Bytes(&self.x_pm1b_cnt_blk.bytes()),
                Value::Bytes(&self.x_pm2_cnt_blk.bytes()),
                Value::Bytes(&self.x_pm_tmr_blk.bytes()),
                Value::Bytes(&self.x_gpe0_blk.bytes()),
                Value::Bytes(&self.x_gpe1_blk.bytes()),
                Value::Bytes(&self.sleep_control_reg.bytes()),
                Value::Bytes(&self.sleep_status_reg.bytes()),
                Value::Number(self.hypervisor_vendor_identity),
            ],
        )
    }
}
