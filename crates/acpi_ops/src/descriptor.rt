//! Resource descriptors of fixed size.

ghost use Rattle.std.specs.Prelude.{◌≡◌, ◌≤◌, ℕ, Bool, List, length, IsTrue};
ghost use Rattle.acpi_base.specs.Fields.{AreRowsOf, are_numbers, numbers_joined};
ghost use Rattle.acpi_base.specs.Object.{whole, whole_ends_well};
ghost use Rattle.acpi_base.specs.declared.gas.GAS.{GAS};
ghost use Rattle.acpi_ops.specs.Descriptor.{bit, fixed_fields, fixed_bytes, port_fields, port_bytes, port_10_bytes};
ghost use Rattle.acpi_ops.specs.Descriptor.{interrupt_flags, vector_flags, interrupt_fields, interrupt_bytes};
ghost use Rattle.acpi_ops.specs.Descriptor.{register_fields, register_bytes};

use acpi_base::error::R;
use acpi_base::gas::{ACCESS_SIZES, ADDRESS_SPACES, GAS};
use acpi_base::object::Aml;
use acpi_base::row::{Bits, Row, Word, record_of_numbers};
use acpi_base::sink::AmlSink;
use std::marker::{Model, PhantomData};

/// A resource descriptor of `N` bytes.
#[derive(Drop)]
pub struct Descriptor<Kind, const N: usize> {
    bytes: [u8; N],
    kind: PhantomData<Kind>,
}

impl<Kind, const N: usize> Model for Descriptor<Kind, N> {
    ghost Value = { List ℕ };

    ghost view = { λ d. d.bytes };
}

impl<Kind, const N: usize> Aml for Descriptor<Kind, N> {
    ghost object = { λ d. whole d };

    ghost ends_well = { λ d. whole_ends_well d };

    #[tactic(auto, using(acpi_base::proofs::Objects::refused_by_sink))]
    fn to_aml_bytes(&self, sink: &mut dyn AmlSink) -> R<()> {
        sink.vec(&self.bytes)
    }
}

impl<Kind, const N: usize> Descriptor<Kind, N> {
    // A descriptor of numbers, each as wide as its row.
    pub(crate) fn of(rows: &[Row], numbers: &[u64]) -> Descriptor<Kind, N>
        requires count { length rows.now ≡ length numbers.now }
        requires numbers { IsTrue (are_numbers rows.now) }
        requires size { length (numbers_joined rows.now numbers.now) ≡ N }
        ensures { result ≡ numbers_joined rows.now numbers.now }
    {
        Descriptor {
            bytes: record_of_numbers(rows, numbers),
            kind: PhantomData,
        }
    }
}

/// A range of memory at a fixed address (ACPI 6.5, 6.4.3.4, 32-Bit Fixed Memory Range Descriptor).
pub type Memory32Fixed = Descriptor<Memory32Kind, 12>;

/// The kind of `Memory32Fixed`.
pub struct Memory32Kind;

impl Descriptor<Memory32Kind, 12> {
    /// A range of memory that is read-only, or may be written too. That flag is at offset 3 of the descriptor, the first address
    /// at 4, and the size in bytes at 8.
    pub fn new(read_write: bool, base: u32, length: u32) -> Descriptor<Memory32Kind, 12>
        ensures { result ≡ fixed_bytes read_write base length }
    {
        Descriptor::of(
            &MEMORY_32_FIXED,
            &[
                0x86,
                9,
                u64::from(bit(read_write, 1)),
                u64::from(base),
                u64::from(length),
            ],
        )
    }
}

const MEMORY_32_FIXED: [Row; 5] = [
    Row::Preset("32-Bit Fixed Memory Range Descriptor", 1, 0x86),
    Row::Preset("Length", 2, 9),
    Row::Flags("Information", 1, &WRITE_BITS),
    Row::Hex("Range Base Address", 4),
    Row::Number("Range Length", 4),
];

/// The bits of the information of a range of memory: its write status.
pub(crate) const WRITE_BITS: [Bits; 1] = [Bits::OneOf(
    0x1,
    &[Word(0x0, "Read-only"), Word(0x1, "Read-write")],
)];

/// The rows of the fields of a descriptor of a range of memory, in order.
pub fn memory_32_fixed_rows() -> &'static [Row]
    ensures { (read_write : Bool) (base size : ℕ) → AreRowsOf result.now (fixed_fields read_write base size) }
{
    &MEMORY_32_FIXED
}

/// A range of ports (ACPI 6.5, 6.4.2.5, I/O Port Descriptor).
pub type IO = Descriptor<PortsKind, 8>;

/// The kind of `IO`.
pub struct PortsKind;

impl Descriptor<PortsKind, 8> {
    /// Ports with 16-bit decoding. The least and the greatest base are at offsets 2 and 4 of the descriptor, the alignment of the
    /// base at 6, and the number of ports at 7.
    pub fn new(min: u16, max: u16, alignment: u8, length: u8) -> Descriptor<PortsKind, 8>
        ensures { result ≡ port_bytes min max alignment length }
    {
        Descriptor::of(
            &IO_PORTS,
            &[
                0x47,
                1,
                u64::from(min),
                u64::from(max),
                u64::from(alignment),
                u64::from(length),
            ],
        )
    }

    /// Ports with 10-bit decoding: devices decode bits 0 to 9 of an address. The offsets are those of `new`.
    pub fn new_decode_10(min: u16, max: u16, alignment: u8, length: u8) -> Descriptor<PortsKind, 8>
        ensures { result ≡ port_10_bytes min max alignment length }
    {
        Descriptor::of(
            &IO_PORTS,
            &[
                0x47,
                0,
                u64::from(min),
                u64::from(max),
                u64::from(alignment),
                u64::from(length),
            ],
        )
    }
}

const IO_PORTS: [Row; 6] = [
    Row::Preset("I/O Port Descriptor", 1, 0x47),
    Row::Flags(
        "Information",
        1,
        &[Bits::OneOf(0x1, &[Word(0x0, "Decode 10"), Word(0x1, "Decode 16")])],
    ),
    Row::Hex("Range Minimum Base Address", 2),
    Row::Hex("Range Maximum Base Address", 2),
    Row::Number("Base Alignment", 1),
    Row::Number("Range Length", 1),
];

/// The rows of the fields of a descriptor of a range of ports, in order.
pub fn io_rows() -> &'static [Row]
    ensures { (decode min max alignment size : ℕ) → AreRowsOf result.now (port_fields decode min max alignment size) }
{
    &IO_PORTS
}

/// A single interrupt (ACPI 6.5, 6.4.3.6, Extended Interrupt Descriptor).
pub type Interrupt = Descriptor<InterruptKind, 9>;

/// The kind of `Interrupt`.
pub struct InterruptKind;

impl Descriptor<InterruptKind, 9> {
    /// The flags are at offset 3 of the descriptor, from bit 0 on in the order of the arguments. The interrupt's number is at 5.
    pub fn new(
        consumer: bool,
        edge_triggered: bool,
        active_low: bool,
        shared: bool,
        number: u32,
    ) -> Descriptor<InterruptKind, 9>
        ensures { result ≡ interrupt_bytes (interrupt_flags consumer edge_triggered active_low shared) number }
    {
        Interrupt::of_flags(
            InterruptFlags {
                consumer,
                edge_triggered,
                active_low,
                shared,
                wake: false,
            },
            number,
        )
    }

    /// An interrupt with these flags, which may wake the system, too.
    pub fn of_flags(flags: InterruptFlags, number: u32) -> Descriptor<InterruptKind, 9>
        ensures { result ≡ interrupt_bytes (vector_flags flags) number }
    {
        Descriptor::of(
            &INTERRUPT,
            &[0x89, 6, u64::from(flags.byte()), 1, u64::from(number)],
        )
    }
}

/// The flags of an interrupt (ACPI 6.5, 6.4.3.6, Interrupt Vector Flags), from bit 0 on in this order.
#[derive(Copy, Clone, Debug, PartialEq)]
pub struct InterruptFlags {
    /// The device uses the interrupt, and doesn't provide it for others.
    pub consumer: bool,
    pub edge_triggered: bool,
    pub active_low: bool,
    pub shared: bool,
    /// The interrupt can wake the system.
    pub wake: bool,
}

impl InterruptFlags {
    // The flags as a byte.
    pub(crate) fn byte(self) -> u8
        ensures value { result ≡ vector_flags self }
    {
        bit(self.consumer, 0x01)
            + bit(self.edge_triggered, 0x02)
            + bit(self.active_low, 0x04)
            + bit(self.shared, 0x08)
            + bit(self.wake, 0x10)
    }
}

const INTERRUPT: [Row; 5] = [
    Row::Preset("Extended Interrupt Descriptor", 1, 0x89),
    Row::Preset("Length", 2, 6),
    Row::Flags("Interrupt Vector Flags", 1, &VECTOR_BITS),
    Row::Preset("Interrupt Table Length", 1, 1),
    Row::Number("Interrupt Number", 4),
];

/// The bits of the flags of an interrupt.
pub(crate) const VECTOR_BITS: [Bits; 4] = [
    Bits::OneOf(0x1, &[Word(0x0, "Producer"), Word(0x1, "Consumer")]),
    Bits::OneOf(
        0x2,
        &[Word(0x0, "Level Triggered"), Word(0x2, "Edge Triggered")],
    ),
    Bits::OneOf(0x4, &[Word(0x0, "Active High"), Word(0x4, "Active Low")]),
    Bits::OneOf(
        0x18,
        &[
            Word(0x0, "Exclusive"),
            Word(0x8, "Shared"),
            Word(0x10, "Exclusive and Wake"),
            Word(0x18, "Shared and Wake"),
        ],
    ),
];

/// The rows of the fields of a descriptor of an interrupt, in order.
pub fn interrupt_rows() -> &'static [Row]
    ensures { (flags number : ℕ) → AreRowsOf result.now (interrupt_fields flags number) }
{
    &INTERRUPT
}

/// A register, given by its address (ACPI 6.5, 6.4.3.7, Generic Register Descriptor).
pub type Register = Descriptor<RegisterKind, 15>;

/// The kind of `Register`.
pub struct RegisterKind;

impl Descriptor<RegisterKind, 15> {
    /// The address is at offset 3 of the descriptor.
    pub fn new(reg: GAS) -> Descriptor<RegisterKind, 15>
        ensures { result ≡ register_bytes reg }
    {
        Descriptor::of(
            &REGISTER,
            &[
                0x82,
                12,
                reg.address_space_id as u64,
                u64::from(reg.register_bit_width),
                u64::from(reg.register_bit_offset),
                reg.access_size as u64,
                reg.address,
            ],
        )
    }
}

const REGISTER: [Row; 7] = [
    Row::Preset("Generic Register Descriptor", 1, 0x82),
    Row::Preset("Length", 2, 12),
    Row::OneOf("Address Space ID", 1, &ADDRESS_SPACES),
    Row::Number("Register Bit Width", 1),
    Row::Number("Register Bit Offset", 1),
    Row::OneOf("Access Size", 1, &ACCESS_SIZES),
    Row::Hex("Register Address", 8),
];

/// The rows of the fields of a descriptor of a register, in order.
pub fn register_rows() -> &'static [Row]
    ensures { (gas : GAS) → AreRowsOf result.now (register_fields gas) }
{
    &REGISTER
}

/// The value of a flag if it is set, and 0 otherwise.
pub(crate) fn bit(set: bool, value: u8) -> u8
    ensures value { result ≡ bit set value }
    ensures small { result ≤ value }
{
    if set { value } else { 0 }
}
