//! Small resource descriptors, of at most seven bytes after their tag.

ghost use Rattle.std.specs.Prelude.{◌≡◌, ℕ};
ghost use Rattle.acpi_base.specs.Fields.{AreRowsOf};
ghost use Rattle.acpi_ops.specs.Small.{irq_flags, irq_fields, irq_bytes, irq_no_flags_fields, irq_no_flags_bytes};
ghost use Rattle.acpi_ops.specs.Small.{dma_flags, dma_fields, dma_bytes, fixed_dma_fields, fixed_dma_bytes};
ghost use Rattle.acpi_ops.specs.Small.{priority_flags, start_dependent_fields, start_dependent_bytes};
ghost use Rattle.acpi_ops.specs.Small.{start_dependent_no_priority_fields, start_dependent_no_priority_bytes};
ghost use Rattle.acpi_ops.specs.Small.{end_dependent_fields, end_dependent_bytes, fixed_port_fields, fixed_port_bytes};
ghost use Rattle.acpi_ops.specs.declared.small.DmaWidth.{DmaWidth};

use crate::descriptor::{Descriptor, bit};
use acpi_base::row::{Bits, Row, Word};

// ---- interrupts of the 8259 controllers

/// Interrupts of the 8259 controllers, one of which is used (ACPI 6.5, 6.4.2.1, IRQ Descriptor).
pub type Irq = Descriptor<IrqKind, 4>;

/// The kind of `Irq`.
pub struct IrqKind;

impl Descriptor<IrqKind, 4> {
    /// Bit n of `mask`, at offset 1 of the descriptor, is interrupt n. The flags are at 3: edge triggered at bit 0, active low at
    /// 3, shared at 4, and whether the interrupt can wake the system at 5.
    pub fn new(
        mask: u16,
        edge_triggered: bool,
        active_low: bool,
        shared: bool,
        wake: bool,
    ) -> Descriptor<IrqKind, 4>
        ensures { result ≡ irq_bytes mask (irq_flags edge_triggered active_low shared wake) }
    {
        let flags = bit(edge_triggered, 0x01)
            + bit(active_low, 0x08)
            + bit(shared, 0x10)
            + bit(wake, 0x20);
        Descriptor::of(&IRQ, &[0x23, u64::from(mask), u64::from(flags)])
    }
}

const IRQ: [Row; 3] = [
    Row::Preset("IRQ Descriptor", 1, 0x23),
    Row::Hex("IRQ Mask", 2),
    Row::Flags(
        "IRQ Information",
        1,
        &[
            Bits::OneOf(
                0x01,
                &[Word(0x00, "Level Triggered"), Word(0x01, "Edge Triggered")],
            ),
            Bits::OneOf(0x08, &[Word(0x00, "Active High"), Word(0x08, "Active Low")]),
            Bits::OneOf(
                0x30,
                &[
                    Word(0x00, "Exclusive"),
                    Word(0x10, "Shared"),
                    Word(0x20, "Exclusive and Wake"),
                    Word(0x30, "Shared and Wake"),
                ],
            ),
        ],
    ),
];

/// The rows of the fields of a descriptor of interrupts of the 8259 controllers, in order.
pub fn irq_rows() -> &'static [Row]
    ensures { (mask information : ℕ) → AreRowsOf result.now (irq_fields mask information) }
{
    &IRQ
}

/// Interrupts of the 8259 controllers that are edge triggered and active high, one of which is used (ACPI 6.5, 6.4.2.1, IRQ
/// Descriptor without its last byte).
pub type IrqNoFlags = Descriptor<IrqNoFlagsKind, 3>;

/// The kind of `IrqNoFlags`.
pub struct IrqNoFlagsKind;

impl Descriptor<IrqNoFlagsKind, 3> {
    /// Bit n of `mask`, at offset 1 of the descriptor, is interrupt n.
    pub fn new(mask: u16) -> Descriptor<IrqNoFlagsKind, 3>
        ensures { result ≡ irq_no_flags_bytes mask }
    {
        Descriptor::of(&IRQ_NO_FLAGS, &[0x22, u64::from(mask)])
    }
}

const IRQ_NO_FLAGS: [Row; 2] = [
    Row::Preset("IRQ Descriptor", 1, 0x22),
    Row::Hex("IRQ Mask", 2),
];

/// The rows of the fields of a descriptor of interrupts without flags, in order.
pub fn irq_no_flags_rows() -> &'static [Row]
    ensures { (mask : ℕ) → AreRowsOf result.now (irq_no_flags_fields mask) }
{
    &IRQ_NO_FLAGS
}

// ---- channels of the 8237 controllers

/// How fast a DMA channel is (ACPI 6.5, 6.4.2.2, DMA channel speed supported).
#[derive(Copy, Clone, Debug, PartialEq)]
pub enum DmaSpeed {
    Compatibility = 0,
    TypeA = 1,
    TypeB = 2,
    TypeF = 3,
}

/// The widths of a DMA channel's transfers (ACPI 6.5, 6.4.2.2, DMA transfer type preference).
#[derive(Copy, Clone, Debug, PartialEq)]
pub enum DmaTransfer {
    Transfer8 = 0,
    Transfer8And16 = 1,
    Transfer16 = 2,
}

/// DMA channels, one of which is used (ACPI 6.5, 6.4.2.2, DMA Descriptor).
pub type Dma = Descriptor<DmaKind, 3>;

/// The kind of `Dma`.
pub struct DmaKind;

impl Descriptor<DmaKind, 3> {
    /// Bit n of `channels`, at offset 1 of the descriptor, is channel n. The byte at 2 has the widths of transfers at bit 0,
    /// whether the device is a bus master at 2, and the speed at 5.
    pub fn new(
        speed: DmaSpeed,
        bus_master: bool,
        transfer: DmaTransfer,
        channels: u8,
    ) -> Descriptor<DmaKind, 3>
        ensures { result ≡ dma_bytes channels (dma_flags speed bus_master transfer) }
    {
        let flags = transfer as u8 + bit(bus_master, 0x04) + 0x20 * (speed as u8);
        Descriptor::of(&DMA, &[0x2a, u64::from(channels), u64::from(flags)])
    }
}

const DMA: [Row; 3] = [
    Row::Preset("DMA Descriptor", 1, 0x2a),
    Row::Hex("DMA Channel Mask", 1),
    Row::Flags(
        "Information",
        1,
        &[
            Bits::OneOf(
                0x03,
                &[
                    Word(0x00, "8-bit"),
                    Word(0x01, "8- and 16-bit"),
                    Word(0x02, "16-bit"),
                ],
            ),
            Bits::Flag(0x04, "Bus Master"),
            Bits::OneOf(
                0x60,
                &[
                    Word(0x00, "Compatibility"),
                    Word(0x20, "Type A"),
                    Word(0x40, "Type B"),
                    Word(0x60, "Type F"),
                ],
            ),
        ],
    ),
];

/// The rows of the fields of a descriptor of DMA channels, in order.
pub fn dma_rows() -> &'static [Row]
    ensures { (channels information : ℕ) → AreRowsOf result.now (dma_fields channels information) }
{
    &DMA
}

// ---- alternatives

/// How good a configuration is (ACPI 6.5, 6.4.2.3).
#[derive(Copy, Clone, Debug, PartialEq)]
pub enum Priority {
    Good = 0,
    Acceptable = 1,
    SubOptimal = 2,
}

/// The start of a set of resources, one of which is used (ACPI 6.5, 6.4.2.3, Start Dependent Functions Descriptor).
pub type StartDependentFn = Descriptor<StartDependentKind, 2>;

/// The kind of `StartDependentFn`.
pub struct StartDependentKind;

impl Descriptor<StartDependentKind, 2> {
    /// The byte at offset 1 of the descriptor has the compatibility at bit 0, and the performance and robustness at bit 2.
    pub fn new(compatibility: Priority, performance: Priority) -> Descriptor<StartDependentKind, 2>
        ensures { result ≡ start_dependent_bytes (priority_flags compatibility performance) }
    {
        let priority = compatibility as u8 + 4 * (performance as u8);
        Descriptor::of(&START_DEPENDENT, &[0x31, u64::from(priority)])
    }
}

const START_DEPENDENT: [Row; 2] = [
    Row::Preset("Start Dependent Functions Descriptor", 1, 0x31),
    Row::Flags(
        "Priority",
        1,
        &[
            Bits::OneOf(
                0x03,
                &[
                    Word(0x00, "Good Compatibility"),
                    Word(0x01, "Acceptable Compatibility"),
                    Word(0x02, "Sub-optimal Compatibility"),
                ],
            ),
            Bits::OneOf(
                0x0c,
                &[
                    Word(0x00, "Good Performance"),
                    Word(0x04, "Acceptable Performance"),
                    Word(0x08, "Sub-optimal Performance"),
                ],
            ),
        ],
    ),
];

/// The rows of the fields of a descriptor of the start of a set of resources, in order.
pub fn start_dependent_rows() -> &'static [Row]
    ensures { (priority : ℕ) → AreRowsOf result.now (start_dependent_fields priority) }
{
    &START_DEPENDENT
}

/// The start of a set of resources that are acceptable in compatibility and performance (ACPI 6.5, 6.4.2.3, Start Dependent
/// Functions Descriptor without its priority).
pub type StartDependentFnNoPri = Descriptor<StartDependentNoPriorityKind, 1>;

/// The kind of `StartDependentFnNoPri`.
pub struct StartDependentNoPriorityKind;

impl Descriptor<StartDependentNoPriorityKind, 1> {
    pub fn new() -> Descriptor<StartDependentNoPriorityKind, 1>
        ensures { result ≡ start_dependent_no_priority_bytes }
    {
        Descriptor::of(&START_DEPENDENT_NO_PRIORITY, &[0x30])
    }
}

const START_DEPENDENT_NO_PRIORITY: [Row; 1] = [Row::Preset(
    "Start Dependent Functions Descriptor",
    1,
    0x30,
)];

/// The row of a descriptor of the start of a set of resources without a priority.
pub fn start_dependent_no_priority_rows() -> &'static [Row]
    ensures { AreRowsOf result.now start_dependent_no_priority_fields }
{
    &START_DEPENDENT_NO_PRIORITY
}

/// The end of the sets of resources, of which one is used (ACPI 6.5, 6.4.2.4, End Dependent Functions Descriptor).
pub type EndDependentFn = Descriptor<EndDependentKind, 1>;

/// The kind of `EndDependentFn`.
pub struct EndDependentKind;

impl Descriptor<EndDependentKind, 1> {
    pub fn new() -> Descriptor<EndDependentKind, 1>
        ensures { result ≡ end_dependent_bytes }
    {
        Descriptor::of(&END_DEPENDENT, &[0x38])
    }
}

const END_DEPENDENT: [Row; 1] = [Row::Preset("End Dependent Functions Descriptor", 1, 0x38)];

/// The row of a descriptor of the end of the sets of resources.
pub fn end_dependent_rows() -> &'static [Row]
    ensures { AreRowsOf result.now end_dependent_fields }
{
    &END_DEPENDENT
}

// ---- fixed locations

/// Ports at a fixed address, with 10-bit decoding (ACPI 6.5, 6.4.2.6, Fixed Location I/O Port Descriptor).
pub type FixedIo = Descriptor<FixedIoKind, 4>;

/// The kind of `FixedIo`.
pub struct FixedIoKind;

impl Descriptor<FixedIoKind, 4> {
    /// The first port is at offset 1 of the descriptor, and the number of ports at 3. Devices decode bits 0 to 9 of an address.
    pub fn new(base: u16, length: u8) -> Descriptor<FixedIoKind, 4>
        ensures { result ≡ fixed_port_bytes base length }
    {
        Descriptor::of(&FIXED_IO, &[0x4b, u64::from(base), u64::from(length)])
    }
}

const FIXED_IO: [Row; 3] = [
    Row::Preset("Fixed Location I/O Port Descriptor", 1, 0x4b),
    Row::Hex("Range Base Address", 2),
    Row::Number("Range Length", 1),
];

/// The rows of the fields of a descriptor of ports at a fixed address, in order.
pub fn fixed_io_rows() -> &'static [Row]
    ensures { (base size : ℕ) → AreRowsOf result.now (fixed_port_fields base size) }
{
    &FIXED_IO
}

/// The width of a DMA transfer in bits (ACPI 6.5, 6.4.2.7, DMA Transfer Width).
#[derive(Copy, Clone, Debug, PartialEq)]
pub enum DmaWidth {
    Width8 = 0,
    Width16 = 1,
    Width32 = 2,
    Width64 = 3,
    Width128 = 4,
    Width256 = 5,
}

/// A DMA request line and its channel (ACPI 6.5, 6.4.2.7, Fixed DMA Descriptor).
pub type FixedDma = Descriptor<FixedDmaKind, 6>;

/// The kind of `FixedDma`.
pub struct FixedDmaKind;

impl Descriptor<FixedDmaKind, 6> {
    /// The request line, a number of the platform, is at offset 1 of the descriptor. The channel, a number of its controller, is
    /// at 3, and the width of a transfer at 5.
    pub fn new(request_line: u16, channel: u16, width: DmaWidth) -> Descriptor<FixedDmaKind, 6>
        ensures { result ≡ fixed_dma_bytes request_line channel width }
    {
        Descriptor::of(
            &FIXED_DMA,
            &[
                0x55,
                u64::from(request_line),
                u64::from(channel),
                width as u64,
            ],
        )
    }
}

const FIXED_DMA: [Row; 4] = [
    Row::Preset("Fixed DMA Descriptor", 1, 0x55),
    Row::Number("DMA Request Line", 2),
    Row::Number("DMA Channel", 2),
    Row::OneOf(
        "DMA Transfer Width",
        1,
        &[
            Word(0, "8-bit"),
            Word(1, "16-bit"),
            Word(2, "32-bit"),
            Word(3, "64-bit"),
            Word(4, "128-bit"),
            Word(5, "256-bit"),
        ],
    ),
];

/// The rows of the fields of a descriptor of a DMA request line, in order.
pub fn fixed_dma_rows() -> &'static [Row]
    ensures { (request_line channel : ℕ) (width : DmaWidth)
        → AreRowsOf result.now (fixed_dma_fields request_line channel width) }
{
    &FIXED_DMA
}
