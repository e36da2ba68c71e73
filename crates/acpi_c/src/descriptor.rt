//! Resource descriptors that a writer writes.

ghost use Rattle.acpi_base.specs.Number.{number};
ghost use Rattle.acpi_ops.specs.AddressSpace.{word_space, dword_space, qword_space};
ghost use Rattle.acpi_ops.specs.Descriptor.{port_bytes, fixed_bytes, interrupt_bytes, interrupt_flags};
ghost use Rattle.acpi_c_calls.specs.Resource.{bus_numbers, io_range, memory_range, memory_piece, register_piece};
ghost use Rattle.acpi_c_calls.specs.Writer.{Writes, adds, adds_bytes, piece_of};

use acpi_c_calls::resource::{
    bus_numbers, interrupt, io, io_range, memory_range, memory32_fixed, register,
};
use acpi_c_calls::state::State;

/// Writes a range of ports.
#[unsafe(no_mangle)]
pub extern "C" fn hyssop_export_io(
    bytes: &mut [u8],
    state: &mut State,
    min: u16,
    max: u16,
    alignment: u8,
    length: u8,
) -> u32
    ensures { Writes (adds_bytes (port_bytes min max alignment length)) bytes.old state.old bytes.new state.new result }
{
    io(bytes, state, min, max, alignment, length)
}

/// Writes an interrupt.
#[unsafe(no_mangle)]
pub extern "C" fn hyssop_export_interrupt(
    bytes: &mut [u8],
    state: &mut State,
    consumer: bool,
    edge_triggered: bool,
    active_low: bool,
    shared: bool,
    number: u32,
) -> u32
    ensures { Writes (adds_bytes (interrupt_bytes (interrupt_flags consumer edge_triggered active_low shared) number))
        bytes.old state.old bytes.new state.new result }
{
    interrupt(
        bytes,
        state,
        consumer,
        edge_triggered,
        active_low,
        shared,
        number,
    )
}

/// Writes a range of memory at a fixed address.
#[unsafe(no_mangle)]
pub extern "C" fn hyssop_export_memory32_fixed(
    bytes: &mut [u8],
    state: &mut State,
    read_write: bool,
    base: u32,
    length: u32,
) -> u32
    ensures { Writes (adds_bytes (fixed_bytes read_write base length)) bytes.old state.old bytes.new state.new result }
{
    memory32_fixed(bytes, state, read_write, base, length)
}

/// Writes a range of bus numbers.
#[unsafe(no_mangle)]
pub extern "C" fn hyssop_export_bus_numbers(
    bytes: &mut [u8],
    state: &mut State,
    min: u16,
    max: u16,
) -> u32
    ensures { Writes (adds (piece_of (word_space (bus_numbers min max)))) bytes.old state.old bytes.new state.new result }
{
    bus_numbers(bytes, state, min, max)
}

/// Writes a range of ports.
#[unsafe(no_mangle)]
pub extern "C" fn hyssop_export_io_range(
    bytes: &mut [u8],
    state: &mut State,
    min: u16,
    max: u16,
    translation: u16,
) -> u32
    ensures { Writes (adds (piece_of (word_space
        (io_range min max translation)))) bytes.old state.old bytes.new state.new result }
{
    io_range(bytes, state, min, max, translation)
}

/// Writes a range of ports with 32 bits.
#[unsafe(no_mangle)]
pub extern "C" fn hyssop_export_io_range32(
    bytes: &mut [u8],
    state: &mut State,
    min: u32,
    max: u32,
    translation: u32,
) -> u32
    ensures { Writes (adds (piece_of (dword_space
        (io_range min max translation)))) bytes.old state.old bytes.new state.new result }
{
    io_range(bytes, state, min, max, translation)
}

/// Writes a range of memory below 2^32.
#[unsafe(no_mangle)]
pub extern "C" fn hyssop_export_memory_range32(
    bytes: &mut [u8],
    state: &mut State,
    memory_type: u32,
    read_write: bool,
    min: u32,
    max: u32,
    translation: u32,
) -> u32
    ensures { Writes (adds (memory_piece memory_type (λ cacheable. dword_space
        (memory_range cacheable read_write min max translation)))) bytes.old state.old bytes.new state.new result }
{
    memory_range(bytes, state, memory_type, read_write, min, max, translation)
}

/// Writes a range of memory with addresses of 64 bits, as hyssop_memory_range32 does.
#[unsafe(no_mangle)]
pub extern "C" fn hyssop_export_memory_range64(
    bytes: &mut [u8],
    state: &mut State,
    memory_type: u32,
    read_write: bool,
    min: u64,
    max: u64,
    translation: u64,
) -> u32
    ensures { Writes (adds (memory_piece memory_type (λ cacheable. qword_space
        (memory_range cacheable read_write min max translation)))) bytes.old state.old bytes.new state.new result }
{
    memory_range(bytes, state, memory_type, read_write, min, max, translation)
}

/// Writes a range of memory with addresses of 16 bits, as hyssop_memory_range32 does.
#[unsafe(no_mangle)]
pub extern "C" fn hyssop_export_memory_range16(
    bytes: &mut [u8],
    state: &mut State,
    memory_type: u32,
    read_write: bool,
    min: u16,
    max: u16,
    translation: u16,
) -> u32
    ensures { Writes (adds (memory_piece memory_type (λ cacheable. word_space
        (memory_range cacheable read_write min max translation)))) bytes.old state.old bytes.new state.new result }
{
    memory_range(bytes, state, memory_type, read_write, min, max, translation)
}

/// Writes a range of ports with 64 bits.
#[unsafe(no_mangle)]
pub extern "C" fn hyssop_export_io_range64(
    bytes: &mut [u8],
    state: &mut State,
    min: u64,
    max: u64,
    translation: u64,
) -> u32
    ensures { Writes (adds (piece_of (qword_space
        (io_range min max translation)))) bytes.old state.old bytes.new state.new result }
{
    io_range(bytes, state, min, max, translation)
}

/// Writes a range of bus numbers of 32 bits.
#[unsafe(no_mangle)]
pub extern "C" fn hyssop_export_bus_numbers32(
    bytes: &mut [u8],
    state: &mut State,
    min: u32,
    max: u32,
) -> u32
    ensures { Writes (adds (piece_of (dword_space (bus_numbers min max)))) bytes.old state.old bytes.new state.new result }
{
    bus_numbers(bytes, state, min, max)
}

/// Writes a range of bus numbers of 64 bits.
#[unsafe(no_mangle)]
pub extern "C" fn hyssop_export_bus_numbers64(
    bytes: &mut [u8],
    state: &mut State,
    min: u64,
    max: u64,
) -> u32
    ensures { Writes (adds (piece_of (qword_space (bus_numbers min max)))) bytes.old state.old bytes.new state.new result }
{
    bus_numbers(bytes, state, min, max)
}

/// Writes a register.
#[unsafe(no_mangle)]
pub extern "C" fn hyssop_export_register(
    bytes: &mut [u8],
    state: &mut State,
    space: u8,
    width: u8,
    offset: u8,
    access: u8,
    address: u64,
) -> u32
    ensures { Writes (adds_bytes (register_piece space width offset access address)) bytes.old state.old bytes.new state.new
        result }
{
    register(bytes, state, space, width, offset, access, address)
}
