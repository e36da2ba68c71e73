//! Address spaces: ranges of memory, of ports and of bus numbers.

ghost use Rattle.std.specs.Prelude.{◌≡◌, ℕ, ◌+◌, ◌*◌, ◌^◌, ◌<◌, ◌≤◌, length, true, refl, OnOk, IfOk, IfErr, None, Some};
ghost use native.Mathlib.Omega.{arith};
ghost use Rattle.acpi_base.specs.Bytes.{le};
ghost use Rattle.acpi_base.specs.Record.{field_bytes, fields_bytes};
ghost use Rattle.acpi_base.specs.Object.{Builds};
ghost use Rattle.acpi_base.specs.Sink.{Took, Refused};
ghost use Rattle.acpi_ops.specs.Descriptor.{bit};
ghost use Rattle.acpi_ops.specs.AddressSpace.{cacheable_number, end_flags, fixed_range, or_zero, fixed_flags, granularity_in};
ghost use Rattle.acpi_ops.specs.AddressSpace.{size_of, is_range, spaced, space_bytes, space};
ghost use Rattle.acpi_ops.specs.AddressSpace.{space_ends_well, space_from};

use crate::descriptor::bit;
use crate::variable::VariableDescriptor;
use acpi_base::error::{Error, R};
use acpi_base::object::Aml;
use acpi_base::record::{Field, record};
use acpi_base::sink::AmlSink;
use std::alloc::Global;

/// A type of addresses, with the tag of its descriptor (ACPI 6.5, 6.4.3.5).
pub trait Address: Copy {
    ghost TAG: { ℕ };

    ghost WIDTH: { ℕ };

    ghost LENGTH: { ℕ };

    ghost LAST: { ℕ };

    ghost number: { Self → ℕ };

    /// The descriptor's first byte.
    const TAG: u8;

    /// The value of the descriptor's length field: the number of bytes after it.
    const LENGTH: u16;

    /// The greatest address.
    const LAST: u64;

    fn number(self) -> u64
        ensures value { result ≡ number self }
        ensures within { result < LAST + 1 };

    /// A field of a descriptor.
    fn field(value: u64) -> Field<'static>
        requires { value < LAST + 1 }
        ensures { field_bytes result ≡ le WIDTH value };

    /// The bytes of the fields of a descriptor. Five of them are addresses.
    fn bytes(alloc: Global, fields: &[Field]) -> R<Vec<u8>>
        requires { length (fields_bytes fields.now) ≡ 6 + 5 * WIDTH }
        ensures ok { IfOk result (λ bytes. bytes.items ≡ fields_bytes fields.now) }
        ensures err { IfErr result (λ e. e ≡ Error.Memory) };

    /// Writes the fields of a descriptor. Five of them are addresses.
    fn write(fields: &[Field], sink: &mut dyn AmlSink) -> R<()>
        requires { length (fields_bytes fields.now) ≡ 6 + 5 * WIDTH }
        ensures ok { OnOk result (Took (meaning sink.old) (fields_bytes fields.now) (meaning sink.new)) }
        ensures err { IfErr result (λ e. Refused e (meaning sink.old) (fields_bytes fields.now) (meaning sink.new)) };

    ghost length_is: { LENGTH ≡ 3 + 5 * WIDTH };

    ghost last_is: { LAST + 1 ≡ 2 ^ (8 * WIDTH) };

    ghost narrow: { WIDTH ≤ 8 };
}

/// Addresses of a Word Address Space Descriptor.
impl Address for u16 {
    ghost TAG = { 0x88 };

    ghost WIDTH = { 2 };

    ghost LENGTH = { 13 };

    ghost LAST = { 0xffff };

    ghost number = { λ address. address };

    const TAG: u8 = 0x88;

    const LENGTH: u16 = 13;

    const LAST: u64 = 0xffff;

    ghost length_is = { refl };

    ghost last_is = { refl };

    ghost narrow = { Prim.omega arith };

    fn number(self) -> u64 {
        u64::from(self)
    }

    fn field(value: u64) -> Field<'static> {
        Field::Word(value as u16)
    }

    fn bytes(alloc: Global, fields: &[Field]) -> R<Vec<u8>> {
        Ok(Vec::from_slice(alloc, &record::<16>(fields))?)
    }

    fn write(fields: &[Field], sink: &mut dyn AmlSink) -> R<()> {
        sink.vec(&record::<16>(fields))
    }
}

/// Addresses of a DWord Address Space Descriptor.
impl Address for u32 {
    ghost TAG = { 0x87 };

    ghost WIDTH = { 4 };

    ghost LENGTH = { 23 };

    ghost LAST = { 0xffff_ffff };

    ghost number = { λ address. address };

    const TAG: u8 = 0x87;

    const LENGTH: u16 = 23;

    const LAST: u64 = 0xffff_ffff;

    ghost length_is = { refl };

    ghost last_is = { refl };

    ghost narrow = { Prim.omega arith };

    fn number(self) -> u64 {
        u64::from(self)
    }

    fn field(value: u64) -> Field<'static> {
        Field::DWord(value as u32)
    }

    fn bytes(alloc: Global, fields: &[Field]) -> R<Vec<u8>> {
        Ok(Vec::from_slice(alloc, &record::<26>(fields))?)
    }

    fn write(fields: &[Field], sink: &mut dyn AmlSink) -> R<()> {
        sink.vec(&record::<26>(fields))
    }
}

/// Addresses of a QWord Address Space Descriptor.
impl Address for u64 {
    ghost TAG = { 0x8a };

    ghost WIDTH = { 8 };

    ghost LENGTH = { 43 };

    ghost LAST = { 0xffff_ffff_ffff_ffff };

    ghost number = { λ address. address };

    const TAG: u8 = 0x8a;

    const LENGTH: u16 = 43;

    const LAST: u64 = 0xffff_ffff_ffff_ffff;

    ghost length_is = { refl };

    ghost last_is = { refl };

    ghost narrow = { Prim.omega arith };

    fn number(self) -> u64 {
        self
    }

    fn field(value: u64) -> Field<'static> {
        Field::QWord(value)
    }

    fn bytes(alloc: Global, fields: &[Field]) -> R<Vec<u8>> {
        Ok(Vec::from_slice(alloc, &record::<46>(fields))?)
    }

    fn write(fields: &[Field], sink: &mut dyn AmlSink) -> R<()> {
        sink.vec(&record::<46>(fields))
    }
}

/// How a range of memory may be cached (ACPI 6.5, 6.4.3.5.5, Memory Type).
#[derive(Copy, Clone, Debug, PartialEq)]
pub enum AddressSpaceCacheable {
    NotCacheable = 0,
    Cacheable = 1,
    WriteCombining = 2,
    PreFetchable = 3,
}

#[deprecated = "misspelled: use AddressSpaceCacheable"]
pub type AddressSpaceCachable = AddressSpaceCacheable;

/// An end of a range that is fixed, where one may move (ACPI 6.5, 6.4.3.5, General Flags).
#[derive(Copy, Clone, Debug, PartialEq)]
pub enum FixedEnd {
    Neither = 0x00,
    Min = 0x04,
    Max = 0x08,
}

/// A range that may move between its least and its greatest address.
#[derive(Copy, Clone)]
struct Movable<T> {
    fixed: FixedEnd,
    length: Option<T>,
    granularity: T,
}

/// A range of addresses of 16, 32 or 64 bits (ACPI 6.5, 6.4.3.5, Address Space Resource Descriptors). Both of its ends are fixed,
/// unless it is `movable` or `resizable`. Writing it returns `AddressRange` if its end is before its start, or if both ends are
/// fixed and its size doesn't fit its type. Only the range of all addresses has such a size.
#[derive(Drop)]
pub struct AddressSpace<T> {
    kind: u8,
    flags: u8,
    subtractive: bool,
    min: T,
    max: T,
    translation: Option<T>,
    movable: Option<Movable<T>>,
}

impl<T: Address> AddressSpace<T> {
    /// A range of memory, from its first address to its last. `translation` is added to an address to get the one on the other
    /// side of a bridge, or nothing if it is `None`.
    pub fn new_memory(
        cacheable: AddressSpaceCacheable,
        read_write: bool,
        min: T,
        max: T,
        translation: Option<T>,
    ) -> AddressSpace<T>
        ensures { result ≡ fixed_range 0 (2 * cacheable_number cacheable + bit read_write 1) min max translation }
    {
        let flags = 2 * (cacheable as u8) + bit(read_write, 1);
        fixed_range(0, flags, min, max, translation)
    }

    /// A range of ports, from its first to its last, all of which are decoded (ACPI 6.5, 6.4.3.5.5, I/O flags). `translation` is
    /// added to an address to get the one on the other side of a bridge, or nothing if it is `None`.
    pub fn new_io(min: T, max: T, translation: Option<T>) -> AddressSpace<T>
        ensures { result ≡ fixed_range 1 3 min max translation }
    {
        fixed_range(1, 3, min, max, translation)
    }

    /// A range of bus numbers, from its first to its last.
    pub fn new_bus_number(min: T, max: T) -> AddressSpace<T>
        ensures { result ≡ fixed_range 2 0 min max None }
    {
        fixed_range(2, 0, min, max, None)
    }

    /// The same range, which a bridge decodes if no other device does (ACPI 6.5, 6.4.3.5, Decode Type). The flag is bit 1 of the
    /// byte at offset 4 of the descriptor.
    pub fn subtractive(self) -> AddressSpace<T>
        ensures { result ≡ record self { subtractive = true } }
    {
        AddressSpace {
            subtractive: true,
            ..self
        }
    }

    /// A range of `length` addresses anywhere from `min` to `max`: neither end is fixed. By the standard `granularity + 1` is a
    /// power of two, and the first address and the length are multiples of it. The granularity is at offset 6 of the descriptor.
    pub fn movable(self, length: T, granularity: T) -> AddressSpace<T>
        ensures { result ≡ record self
            { movable = Some (record { fixed = FixedEnd.Neither; length = Some length; granularity = granularity }) } }
    {
        self.with(FixedEnd::Neither, Some(length), granularity)
    }

    /// A range of any length from `min` to `max`, of which one end is fixed or neither. The length is 0 in the descriptor. By the
    /// standard `granularity + 1` is a power of two, and the size is a multiple of it. The granularity is at offset 6.
    pub fn resizable(self, fixed: FixedEnd, granularity: T) -> AddressSpace<T>
        ensures { result ≡ record self { movable = Some (record { fixed = fixed; length = None; granularity = granularity }) } }
    {
        self.with(fixed, None, granularity)
    }

    fn with(self, fixed: FixedEnd, length: Option<T>, granularity: T) -> AddressSpace<T>
        ensures { result ≡ record self
            { movable = Some (record { fixed = fixed; length = length; granularity = granularity }) } }
    {
        AddressSpace {
            movable: Some(Movable {
                fixed,
                length,
                granularity,
            }),
            ..self
        }
    }
}

fn fixed_range<T: Address>(
    kind: u8,
    flags: u8,
    min: T,
    max: T,
    translation: Option<T>,
) -> AddressSpace<T>
    ensures { result ≡ fixed_range kind flags min max translation }
{
    AddressSpace {
        kind,
        flags,
        subtractive: false,
        min,
        max,
        translation,
        movable: None,
    }
}

// The number of an address, or 0.
fn or_zero<T: Address>(address: Option<T>) -> u64
    ensures value { result ≡ or_zero T.number address }
    ensures within { result < T.LAST + 1 }
{
    match address {
        Some(address) => address.number(),
        None => 0,
    }
}

impl<T: Address> AddressSpace<T> {
    // The value of the field Address Length.
    fn size(&self) -> R<u64>
        ensures ok { IfOk result
            (λ size. (is_range T.number T.WIDTH self.now ≡ true) × (size ≡ size_of T.number self.now)) }
        ensures err { IfErr result (λ e. (e ≡ Error.AddressRange) × ((space T.number T.TAG T.WIDTH self.now).end ≡ Some e)) }
    {
        let (min, max) = (self.min.number(), self.max.number());
        if max < min {
            return Err(Error::AddressRange);
        }
        match self.movable {
            Some(movable) => Ok(or_zero(movable.length)),
            None if max - min == T::LAST => Err(Error::AddressRange),
            None => Ok(max - min + 1),
        }
    }

    // Which ends are fixed, as General Flags, and the granularity.
    fn ends(&self) -> (u8, u64)
        ensures flags { result.0 ≡ fixed_flags T.number self.now.movable }
        ensures granularity { result.1 ≡ granularity_in T.number self.now.movable }
        ensures small { result.0 < 0x10 }
        ensures within { result.1 < T.LAST + 1 }
    {
        match self.movable {
            Some(movable) => (movable.fixed as u8, movable.granularity.number()),
            None => (0x0c, 0),
        }
    }

    // The fields of the range's descriptor.
    fn fields(&self, size: u64) -> [Field<'static>; 10]
        requires within { size < T.LAST + 1 }
        requires is { size ≡ size_of T.number self.now }
        ensures { fields_bytes result ≡ space_bytes T.number T.TAG T.WIDTH self.now }
    {
        self.fields_of(T::LENGTH, size)
    }

    // The same with this Length.
    fn fields_of(&self, length_of: u16, size: u64) -> [Field<'static>; 10]
        requires within { size < T.LAST + 1 }
        requires is { size ≡ size_of T.number self.now }
        ensures { fields_bytes result ≡ spaced T.number length_of T.TAG T.WIDTH self.now }
    {
        let (fixed, granularity) = self.ends();
        [
            Field::Byte(T::TAG),
            Field::Word(length_of),
            Field::Byte(self.kind),
            Field::Byte(bit(self.subtractive, 0x02) + fixed),
            Field::Byte(self.flags),
            T::field(granularity),
            T::field(self.min.number()),
            T::field(self.max.number()),
            T::field(or_zero(self.translation)),
            T::field(size),
        ]
    }
}

impl<T: Address> Aml for AddressSpace<T> {
    ghost object = { λ a. space T.number T.TAG T.WIDTH a };

    ghost ends_well = { λ a. space_ends_well T.number T.TAG T.WIDTH a };

    fn to_aml_bytes(&self, sink: &mut dyn AmlSink) -> R<()> {
        let size = self.size()?;
        T::write(&self.fields(size), sink)
    }
}

/// A range of addresses that another device provides (ACPI 6.5, 6.4.3.5, Address Space Resource Descriptors).
pub type AddressSpaceFrom = VariableDescriptor<AddressSpaceFromKind>;

/// The kind of `AddressSpaceFrom`.
pub struct AddressSpaceFromKind;

impl VariableDescriptor<AddressSpaceFromKind> {
    /// The offsets are those of the range's descriptor. The index of the range at its provider follows the addresses, and then
    /// the provider's name `source` and a zero. The error is that of the range, or `FieldWidth` if the length exceeds 65,535.
    pub fn new<T: Address>(
        alloc: Global,
        range: AddressSpace<T>,
        index: u8,
        source: &str,
    ) -> R<VariableDescriptor<AddressSpaceFromKind>>
        ensures { Builds result (space_from T.number T.TAG T.WIDTH range index source.now) }
    {
        let size = range.size()?;
        let more = 2 + source.len();
        if source.len() > 0xffff || usize::from(T::LENGTH) + more > 0xffff {
            return Err(Error::FieldWidth);
        }
        let head = T::bytes(alloc, &range.fields_of(T::LENGTH + more as u16, size))?;
        VariableDescriptor::of(alloc, &[&head, &[index], source.as_bytes(), &[0]])
    }
}
