//! Regions of memory with a fixed treatment by IOMMUs.

ghost use Rattle.std.specs.Prelude.{◌≡◌, bit_or};
ghost use Rattle.acpi_base.specs.Object.{whole, whole_ends_well};
ghost use Rattle.acpi_pc.specs.Ivrs.{peripherals_number, first_device, last_device, ivmd, ivmd_fields, ivmd_bytes};

use acpi_base::error::R;
use acpi_base::object::Aml;
use acpi_base::row::{Bits, Record, Row, record_of_numbers, write_record};
use acpi_base::sink::AmlSink;

// Flags of a region.
const UNITY: u8 = 1;

const READABLE: u8 = 1 << 1;

const WRITABLE: u8 = 1 << 2;

const EXCLUDED: u8 = 1 << 3;

/// The devices for which a region is. A device is as in a `DeviceEntry`.
#[derive(Clone, Copy, Debug)]
pub enum Peripherals {
    /// All devices: type 20h.
    All,
    /// A device: type 21h.
    One(u16),
    /// The devices from the first to the last: type 22h.
    Range(u16, u16),
}

impl Peripherals {
    // The type of a block for these.
    fn number(self) -> u8
        ensures { result ≡ peripherals_number self }
    {
        match self {
            Peripherals::All => 32,
            Peripherals::One(_) => 33,
            Peripherals::Range(_, _) => 34,
        }
    }

    // The first device, or 0 for all.
    fn first(self) -> u16
        ensures { result ≡ first_device self }
    {
        match self {
            Peripherals::All => 0,
            Peripherals::One(device) | Peripherals::Range(device, _) => device,
        }
    }

    // The last device of a range, or 0.
    fn last(self) -> u16
        ensures { result ≡ last_device self }
    {
        match self {
            Peripherals::All | Peripherals::One(_) => 0,
            Peripherals::Range(_, last) => last,
        }
    }
}

/// A region of memory: 32 bytes (AMD 48882, 5.2.3, I/O Virtualization Memory Definition).
#[derive(Clone, Copy, Debug)]
pub struct Ivmd {
    peripherals: Peripherals,
    flags: u8,
    segment: u16,
    start: u64,
    size: u64,
}

impl Ivmd {
    /// The region of `size` bytes (offset 24) from a physical address on (offset 16) for these devices (offsets 4 and 6) of the
    /// PCI segment 0. It has no flag.
    pub fn new(peripherals: Peripherals, start: u64, size: u64) -> Ivmd
        ensures { result ≡ ivmd peripherals start size }
    {
        Ivmd {
            peripherals,
            flags: 0,
            segment: 0,
            start,
            size,
        }
    }

    /// Sets the PCI segment (offset 8).
    pub fn segment(mut self, segment: u16) -> Ivmd
        ensures { result ≡ record self { segment = segment } }
    {
        self.segment = segment;
        self
    }

    /// Sets flag 1 (Unity, offset 1): the region is mapped to the same addresses.
    pub fn unity(mut self) -> Ivmd
        ensures { result ≡ record self { flags = bit_or self.flags 1 } }
    {
        self.flags |= UNITY;
        self
    }

    /// Sets flag 2 (IR, offset 1): devices may read the region.
    pub fn readable(mut self) -> Ivmd
        ensures { result ≡ record self { flags = bit_or self.flags 2 } }
    {
        self.flags |= READABLE;
        self
    }

    /// Sets flag 4 (IW, offset 1): devices may write the region.
    pub fn writable(mut self) -> Ivmd
        ensures { result ≡ record self { flags = bit_or self.flags 4 } }
    {
        self.flags |= WRITABLE;
        self
    }

    /// Sets flag 8 (ExclRange, offset 1): addresses in the region aren't translated.
    pub fn excluded(mut self) -> Ivmd
        ensures { result ≡ record self { flags = bit_or self.flags 8 } }
    {
        self.flags |= EXCLUDED;
        self
    }
}

/// The rows of an IVMD.
pub const IVMD: [Row; 9] = [
    Row::Hex("Type", 1),
    Row::Flags(
        "Flags",
        1,
        &[
            Bits::Flag(0x1, "Unity"),
            Bits::Flag(0x2, "IR"),
            Bits::Flag(0x4, "IW"),
            Bits::Flag(0x8, "ExclRange"),
        ],
    ),
    Row::Preset("Length", 2, 32),
    Row::Hex("DeviceID", 2),
    Row::Hex("Auxiliary Data", 2),
    Row::Hex("PCI Segment Group", 2),
    Row::Reserved(6),
    Row::Hex("IVMD Start Address", 8),
    Row::Hex("IVMD Memory Block Length", 8),
];

impl Record<32> for Ivmd {
    ghost fields = { ivmd_fields };

    fn rows() -> &'static [Row] {
        &IVMD
    }

    fn bytes(&self) -> [u8; 32] {
        record_of_numbers(
            &IVMD,
            &[
                u64::from(self.peripherals.number()),
                u64::from(self.flags),
                32,
                u64::from(self.peripherals.first()),
                u64::from(self.peripherals.last()),
                u64::from(self.segment),
                0,
                self.start,
                self.size,
            ],
        )
    }
}

impl Aml for Ivmd {
    ghost object = { λ m. whole (ivmd_bytes m) };

    ghost ends_well = { λ m. whole_ends_well (ivmd_bytes m) };

    fn to_aml_bytes(&self, sink: &mut dyn AmlSink) -> R<()> {
        write_record(self, sink)
    }
}
