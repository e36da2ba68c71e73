//! What channels have in common.

ghost use Rattle.std.specs.Prelude.{◌≡◌, bit_or};
ghost use Rattle.acpi_pc.specs.Pcct.{interrupt};

use acpi_base::gas::GAS;
use acpi_base::row::{Bits, Word};

// Flags of an interrupt.
const ACTIVE_LOW: u8 = 1;

const EDGE_TRIGGERED: u8 = 1 << 1;

/// A register that is written: the bits in `preserve` keep their values, and those in `write` are set.
#[derive(Clone, Copy, Debug)]
pub struct Doorbell {
    pub register: GAS,
    pub preserve: u64,
    pub write: u64,
}

/// The memory of a channel, and its doorbell (ACPI 6.5, 14.1.3). Times are in microseconds. The offsets are those of a subspace.
#[derive(Clone, Copy, Debug)]
pub struct Channel {
    /// The physical address of the shared memory (offset 8).
    pub base: u64,
    /// Its number of bytes (offset 16), which is more than 8.
    pub size: u64,
    /// The register by which a command is announced (offsets 24, 36 and 44).
    pub doorbell: Doorbell,
    /// The expected time of a command (offset 52).
    pub latency: u32,
    /// The most commands in a minute (offset 56), or 0 for any number.
    pub access_rate: u32,
    /// The least time between two commands (offset 60).
    pub turnaround: u16,
}

/// The interrupt of a channel (ACPI 6.5, 14.1.4).
#[derive(Clone, Copy, Debug)]
pub struct Interrupt {
    pub(crate) gsiv: u32,
    pub(crate) flags: u8,
}

impl Interrupt {
    /// The interrupt with this global system interrupt vector (offset 2). Without flags it is level triggered and active high.
    pub fn new(gsiv: u32) -> Interrupt
        ensures { result ≡ interrupt gsiv }
    {
        Interrupt { gsiv, flags: 0 }
    }

    /// Sets flag 1 (offset 6): the interrupt is active low.
    pub fn active_low(mut self) -> Interrupt
        ensures { result ≡ record self { flags = bit_or self.flags 1 } }
    {
        self.flags |= ACTIVE_LOW;
        self
    }

    /// Sets flag 2 (offset 6): the interrupt is edge triggered.
    pub fn edge_triggered(mut self) -> Interrupt
        ensures { result ≡ record self { flags = bit_or self.flags 2 } }
    {
        self.flags |= EDGE_TRIGGERED;
        self
    }
}

/// The parts of an interrupt's flags.
pub(crate) const INTERRUPT_FLAGS: [Bits; 2] = [
    Bits::OneOf(0x1, &[Word(0x0, "Active High"), Word(0x1, "Active Low")]),
    Bits::OneOf(
        0x2,
        &[Word(0x0, "Level Triggered"), Word(0x2, "Edge Triggered")],
    ),
];
