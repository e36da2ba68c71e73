//! WAET: emulated devices that Windows may use with fewer accesses.

ghost use Rattle.std.specs.Prelude.{◌≡◌};
ghost use Rattle.acpi_base.specs.Object.{whole, whole_ends_well};
ghost use Rattle.acpi_fixed.specs.Oem.{oem_of};
ghost use Rattle.acpi_fixed.specs.Waet.{waet_for, waet_fields, waet_bytes, with_device};

use crate::sealed::write_table;
use acpi_base::error::R;
use acpi_base::object::Aml;
use acpi_base::oem::Oem;
use acpi_base::row::{Bits, Record, Row, record_of_numbers};
use acpi_base::sink::AmlSink;

// Emulated device flags (offset 36).
const RTC_GOOD: u32 = 0x1;

const PM_TIMER_GOOD: u32 = 0x2;

/// The Windows ACPI Emulated Devices Table (Microsoft, WAET 1.2): 40 bytes. It gives what emulated devices do better than
/// hardware.
#[derive(Clone, Copy, Debug)]
pub struct WAET {
    oem: Oem,
    flags: u32,
}

impl WAET {
    /// A table without flags.
    pub fn new(oem_id: [u8; 6], oem_table_id: [u8; 8], oem_revision: u32) -> WAET
        ensures { result ≡ waet_for (oem_of oem_id oem_table_id oem_revision) }
    {
        WAET {
            oem: Oem::new(oem_id, oem_table_id, oem_revision),
            flags: 0,
        }
    }

    /// Sets device flag 1 (offset 36): an interrupt of the RTC needs no acknowledgment, so its handler needn't read register C.
    pub fn rtc_good(mut self) -> WAET
        ensures { result ≡ with_device 1 self }
    {
        self.flags |= RTC_GOOD;
        self
    }

    /// Sets device flag 2 (offset 36): one read of the ACPI PM timer returns a reliable value.
    pub fn pm_timer_good(mut self) -> WAET
        ensures { result ≡ with_device 2 self }
    {
        self.flags |= PM_TIMER_GOOD;
        self
    }
}

/// The rows of a WAET after its header.
pub const WAET_ROWS: [Row; 1] = [Row::Flags(
    "Emulated Device Flags",
    4,
    &[
        Bits::Flag(0x1, "RTC good"),
        Bits::Flag(0x2, "ACPI PM timer good"),
    ],
)];

/// The fields after the header.
impl Record<4> for WAET {
    ghost fields = { waet_fields };

    fn rows() -> &'static [Row] {
        &WAET_ROWS
    }

    fn bytes(&self) -> [u8; 4] {
        record_of_numbers(&WAET_ROWS, &[u64::from(self.flags)])
    }
}

impl Aml for WAET {
    ghost object = { λ t. whole (waet_bytes t) };

    ghost ends_well = { λ t. whole_ends_well (waet_bytes t) };

    fn to_aml_bytes(&self, sink: &mut dyn AmlSink) -> R<()> {
        write_table::<4, 40, WAET>(*b"WAET", 1, self.oem, self, sink)
    }
}
