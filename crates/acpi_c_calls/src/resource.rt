//! Resource descriptors (ACPI 6.5, 6.4).

ghost use Rattle.std.specs.Prelude.{◌≡◌};
ghost use Rattle.acpi_ops.specs.AddressSpace.{space};
ghost use Rattle.acpi_ops.specs.Descriptor.{port_bytes, fixed_bytes, interrupt_bytes, interrupt_flags};
ghost use Rattle.acpi_c_calls.specs.Resource.{bus_numbers, io_range, memory_range, memory_type, memory_piece, register_piece};
ghost use Rattle.acpi_c_calls.specs.Writer.{Writes, adds, adds_bytes, piece_of};

use crate::fault::Fault;
use crate::put::{fail, put, put_object};
use crate::state::State;
use acpi_ops::address_space::{Address, AddressSpace, AddressSpaceCacheable};
use acpi_ops::descriptor::{IO, Interrupt, Memory32Fixed};

/// Writes a range of ports with 16-bit decoding (ACPI 6.5, 6.4.2.5): its least and its greatest base, the alignment of the base,
/// and the number of ports.
pub fn io(bytes: &mut [u8], state: &mut State, min: u16, max: u16, alignment: u8, length: u8) -> u32
    ensures { Writes (adds_bytes (port_bytes min max alignment length)) bytes.old state.old bytes.new state.new result }
{
    if state.fault != 0 {
        return state.fault;
    }
    put_object(bytes, state, &IO::new(min, max, alignment, length))
}

/// Writes an interrupt (ACPI 6.5, 6.4.3.6).
pub fn interrupt(
    bytes: &mut [u8],
    state: &mut State,
    consumer: bool,
    edge_triggered: bool,
    active_low: bool,
    shared: bool,
    number: u32,
) -> u32
    ensures { Writes (adds_bytes (interrupt_bytes (interrupt_flags consumer edge_triggered active_low shared) number))
        bytes.old state.old bytes.new state.new result }
{
    if state.fault != 0 {
        return state.fault;
    }
    put_object(
        bytes,
        state,
        &Interrupt::new(consumer, edge_triggered, active_low, shared, number),
    )
}

/// Writes a range of memory at a fixed address (ACPI 6.5, 6.4.3.4): its first address, and its size in bytes.
pub fn memory32_fixed(
    bytes: &mut [u8],
    state: &mut State,
    read_write: bool,
    base: u32,
    length: u32,
) -> u32
    ensures { Writes (adds_bytes (fixed_bytes read_write base length)) bytes.old state.old bytes.new state.new result }
{
    if state.fault != 0 {
        return state.fault;
    }
    put_object(bytes, state, &Memory32Fixed::new(read_write, base, length))
}

/// Writes a register by the numbers of its address (ACPI 6.5, 6.4.3.7): its address space, its width and its offset in bits, the
/// size of an access (5.2.3.2), and the address.
pub fn register(
    bytes: &mut [u8],
    state: &mut State,
    space: u8,
    width: u8,
    offset: u8,
    access: u8,
    address: u64,
) -> u32
    ensures { Writes (adds_bytes (register_piece space width offset access address)) bytes.old state.old bytes.new state.new
        result }
{
    if state.fault != 0 {
        return state.fault;
    }
    put(
        bytes,
        state,
        &[0x82, 12, 0, space, width, offset, access],
        &address.to_le_bytes(),
        &[],
    )
}

/// Writes a range of bus numbers, from its first to its last (ACPI 6.5, 6.4.3.5.1 to 6.4.3.5.3). The fault is `AddressRange` if
/// its end is before its start, or if it has all numbers of its type.
#[tactic(auto, using(crate::proofs::Pieces::space_few, crate::proofs::Pieces::space_dry))]
pub fn bus_numbers<T: Address>(bytes: &mut [u8], state: &mut State, min: T, max: T) -> u32
    ensures { Writes (adds (piece_of (space T.number T.TAG T.WIDTH (bus_numbers min max))))
        bytes.old state.old bytes.new state.new result }
{
    if state.fault != 0 {
        return state.fault;
    }
    put_object(bytes, state, &AddressSpace::new_bus_number(min, max))
}

/// Writes a range of ports, from its first to its last, and what is added to a port to get the one on the other side of a bridge
/// (ACPI 6.5, 6.4.3.5.1 to 6.4.3.5.3). Ports of a bridge that are in memory may have a translation of 32 or 64 bits. The fault is
/// `AddressRange` if its end is before its start, or if it has all ports of its type.
#[tactic(auto, using(crate::proofs::Pieces::space_few, crate::proofs::Pieces::space_dry))]
pub fn io_range<T: Address>(
    bytes: &mut [u8],
    state: &mut State,
    min: T,
    max: T,
    translation: T,
) -> u32
    ensures { Writes (adds (piece_of (space T.number T.TAG T.WIDTH (io_range min max translation))))
        bytes.old state.old bytes.new state.new result }
{
    if state.fault != 0 {
        return state.fault;
    }
    put_object(
        bytes,
        state,
        &AddressSpace::new_io(min, max, Some(translation)),
    )
}

// How memory may be cached, by its number.
fn memory_type(number: u32) -> Option<AddressSpaceCacheable>
    ensures { result ≡ memory_type number }
{
    match number {
        0 => Some(AddressSpaceCacheable::NotCacheable),
        1 => Some(AddressSpaceCacheable::Cacheable),
        2 => Some(AddressSpaceCacheable::WriteCombining),
        3 => Some(AddressSpaceCacheable::PreFetchable),
        _ => None,
    }
}

/// Writes a range of memory, from its first address to its last, and what is added to an address to get the one on the other side
/// of a bridge (ACPI 6.5, 6.4.3.5.1 to 6.4.3.5.3). `cached` is the memory type, from 0 to 3: not cacheable, cacheable, write
/// combining, prefetchable. The fault is `UnknownChoice` for another one, and `AddressRange` if the end is before the start, or
/// if the range has all addresses of its type.
#[tactic(auto, using(crate::proofs::Pieces::space_few, crate::proofs::Pieces::space_dry))]
pub fn memory_range<T: Address>(
    bytes: &mut [u8],
    state: &mut State,
    cached: u32,
    read_write: bool,
    min: T,
    max: T,
    translation: T,
) -> u32
    ensures { Writes (adds (memory_piece cached (λ cacheable. space T.number T.TAG T.WIDTH
        (memory_range cacheable read_write min max translation))))
        bytes.old state.old bytes.new state.new result }
{
    if state.fault != 0 {
        return state.fault;
    }
    match memory_type(cached) {
        Some(cached) => {
            let range = AddressSpace::new_memory(cached, read_write, min, max, Some(translation));
            put_object(bytes, state, &range)
        }
        None => fail(bytes, state, Fault::UnknownChoice),
    }
}
