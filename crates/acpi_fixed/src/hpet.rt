//! HPET: a block of event timers.

ghost use Rattle.std.specs.Prelude.{◌≡◌, ◌≤◌, ◌<◌};
ghost use Rattle.acpi_base.specs.Object.{whole, whole_ends_well};
ghost use Rattle.acpi_fixed.specs.Hpet.{block_id, with_capability, protection_number, hpet_for, hpet_fields, hpet_bytes};
ghost use Rattle.acpi_fixed.specs.Oem.{oem_of};

use crate::sealed::write_table;
use acpi_base::error::R;
use acpi_base::gas::GAS;
use acpi_base::object::Aml;
use acpi_base::oem::Oem;
use acpi_base::row::{Bits, Record, Row, Value, Word, record_of};
use acpi_base::sink::AmlSink;

// Capabilities of a block, as flags of its id (offset 36).
const WIDE_COUNTER: u32 = 0x2000;

const LEGACY_REPLACEMENT: u32 = 0x8000;

/// The Event Timer Block ID of an HPET (offset 36): the low 32 bits of the block's General Capabilities and ID Register (IA-PC
/// HPET Specification 1.0a, 2.3.4).
#[derive(Clone, Copy, Debug, PartialEq)]
pub struct EventTimerBlockId {
    number: u32,
}

impl EventTimerBlockId {
    /// A block of 1 to 32 comparators, with the revision of its hardware (bits 0 to 7), the number of comparators less one (bits
    /// 8 to 12), and the PCI vendor id of its maker (bits 16 to 31). Its main counter has 32 bits, and its interrupts don't
    /// replace those of the 8254 and the RTC.
    pub fn new(hardware_revision: u8, comparators: u8, pci_vendor_id: u16) -> EventTimerBlockId
        requires some { 1 ≤ comparators }
        requires most { comparators ≤ 32 }
        ensures { result ≡ block_id hardware_revision comparators pci_vendor_id }
    {
        let last = comparators - 1;
        EventTimerBlockId {
            number: u32::from(hardware_revision)
                + u32::from(last) * 0x100
                + u32::from(pci_vendor_id) * 0x1_0000,
        }
    }

    /// Sets COUNT_SIZE_CAP (bit 13): the main counter has 64 bits.
    pub fn wide_counter(mut self) -> EventTimerBlockId
        ensures { result ≡ with_capability 0x2000 self }
    {
        self.number |= WIDE_COUNTER;
        self
    }

    /// Sets the flag of LegacyReplacement (bit 15): the first two comparators can take the interrupts of the 8254 and the RTC.
    pub fn legacy_replacement(mut self) -> EventTimerBlockId
        ensures { result ≡ with_capability 0x8000 self }
    {
        self.number |= LEGACY_REPLACEMENT;
        self
    }
}

/// The memory next to the registers of a block that software may access (bits 0 to 3 of offset 55). The registers have 1 KB.
#[derive(Clone, Copy, Debug, PartialEq)]
pub enum PageProtection {
    /// None: other registers may be in it.
    NoGuarantee = 0,
    /// The 3 KB after the registers.
    Page4Kb = 1,
    /// The 63 KB after the registers.
    Page64Kb = 2,
}

impl PageProtection {
    fn number(self) -> u64
        ensures { result ≡ protection_number self }
    {
        self as u64
    }
}

/// The IA-PC High Precision Event Timer Table (IA-PC HPET Specification 1.0a, 3.2.4): 56 bytes, for one block of timers.
#[derive(Clone, Copy, Debug)]
pub struct HPET {
    oem: Oem,
    block_id: EventTimerBlockId,
    base_address: GAS,
    number: u8,
    minimum_tick: u16,
    page_protection: PageProtection,
    oem_attributes: u8,
}

impl HPET {
    /// A table for the first block, with its id (offset 36) and the address of its registers (offset 40), which are in memory or
    /// in system I/O. Every other field is zero.
    pub fn new(
        oem_id: [u8; 6],
        oem_table_id: [u8; 8],
        oem_revision: u32,
        block_id: EventTimerBlockId,
        base_address: GAS,
    ) -> HPET
        ensures { result ≡ hpet_for (oem_of oem_id oem_table_id oem_revision) block_id base_address }
    {
        HPET {
            oem: Oem::new(oem_id, oem_table_id, oem_revision),
            block_id,
            base_address,
            number: 0,
            minimum_tick: 0,
            page_protection: PageProtection::NoGuarantee,
            oem_attributes: 0,
        }
    }

    /// Sets the number of the block (offset 52). Blocks of a machine are numbered from 0, each in a separate table.
    pub fn number(mut self, number: u8) -> HPET
        ensures { result ≡ record self { number = number } }
    {
        self.number = number;
        self
    }

    /// Sets the least period of periodic mode, in ticks of the main counter, at which no interrupt is lost (offset 53).
    pub fn minimum_tick(mut self, minimum_tick: u16) -> HPET
        ensures { result ≡ record self { minimum_tick = minimum_tick } }
    {
        self.minimum_tick = minimum_tick;
        self
    }

    /// Sets the page protection (bits 0 to 3 of offset 55).
    pub fn page_protection(mut self, page_protection: PageProtection) -> HPET
        ensures { result ≡ record self { page_protection = page_protection } }
    {
        self.page_protection = page_protection;
        self
    }

    /// Sets the attributes whose meaning is the maker's (bits 4 to 7 of offset 55).
    pub fn oem_attributes(mut self, oem_attributes: u8) -> HPET
        requires { oem_attributes < 16 }
        ensures { result ≡ record self { oem_attributes = oem_attributes } }
    {
        self.oem_attributes = oem_attributes;
        self
    }
}

/// The rows of an HPET after its header.
pub const HPET_ROWS: [Row; 5] = [
    Row::Flags(
        "Event Timer Block ID",
        4,
        &[
            Bits::Number(0xff, 0x1, "Hardware Rev ID"),
            Bits::Number(0x1f00, 0x100, "Number of Comparators"),
            Bits::Flag(0x2000, "COUNT_SIZE_CAP"),
            Bits::Flag(0x8000, "LegacyReplacement IRQ Routing Capable"),
            Bits::Number(0xffff_0000, 0x1_0000, "PCI Vendor ID"),
        ],
    ),
    Row::Register("BASE_ADDRESS"),
    Row::Number("HPET Number", 1),
    Row::Number("Main Counter Minimum Clock_tick in Periodic Mode", 2),
    Row::Flags(
        "Page Protection And OEM Attribute",
        1,
        &[
            Bits::OneOf(
                0xf,
                &[
                    Word(0x0, "No Guarantee"),
                    Word(0x1, "4 KB"),
                    Word(0x2, "64 KB"),
                ],
            ),
            Bits::Number(0xf0, 0x10, "OEM Attributes"),
        ],
    ),
];

/// The fields after the header.
impl Record<20> for HPET {
    ghost fields = { hpet_fields };

    fn rows() -> &'static [Row] {
        &HPET_ROWS
    }

    fn bytes(&self) -> [u8; 20] {
        record_of(
            &HPET_ROWS,
            &[
                Value::Number(u64::from(self.block_id.number)),
                Value::Bytes(&self.base_address.bytes()),
                Value::Number(u64::from(self.number)),
                Value::Number(u64::from(self.minimum_tick)),
                Value::Number(self.page_protection.number() + 16 * u64::from(self.oem_attributes)),
            ],
        )
    }
}

impl Aml for HPET {
    ghost object = { λ t. whole (hpet_bytes t) };

    ghost ends_well = { λ t. whole_ends_well (hpet_bytes t) };

    fn to_aml_bytes(&self, sink: &mut dyn AmlSink) -> R<()> {
        write_table::<20, 56, HPET>(*b"HPET", 1, self.oem, self, sink)
    }
}
