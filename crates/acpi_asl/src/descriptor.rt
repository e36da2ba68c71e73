//! What the macros of resource descriptors are made of: words, offsets, arguments, and what is checked (ACPI 6.5, 6.4
//! and 19.2.8).

ghost use Rattle.std.specs.Prelude.{◌≡◌, map};
ghost use Rattle.acpi_asl.specs.Descriptor.{words};

use crate::word::REGION_SPACES;

/// The kinds of words that bits stand for.
#[derive(Clone, Copy)]
pub enum WordKind {
    Decode,
    Mode,
    Polarity,
    Sharing,
    DmaType,
    Master,
    Transfer,
    DmaWidth,
    Access,
    Usage,
    Decoding,
    Minimum,
    Maximum,
    Caching,
    Ranges,
    Memory,
    Translation,
    Density,
    Space,
    Levels,
    PinConfig,
    Restriction,
    Priority,
    Initiator,
    AddressingMode,
    DevicePolarity,
    WireMode,
    ClockPolarity,
    ClockPhase,
    DataBits,
    StopBits,
    Endianness,
    Parity,
    FlowControl,
    ClockMode,
    ClockScale,
}

/// Bits of the byte at an offset.
#[derive(Clone, Copy)]
pub struct Bits {
    pub offset: usize,
    /// The number of the lowest.
    pub shift: u8,
    /// How many there are: 1, 2 or 3, or 8 for all bits from the lowest up to bit 7.
    pub size: u8,
}

/// An offset in a descriptor.
#[derive(Clone, Copy)]
pub enum Offset {
    At(u8),
    /// The offset that the two bytes at an offset are.
    Stated(u8),
    /// After the numbers of four bytes from the byte at 5 on. The byte at 4 says how many there are.
    Entries,
    /// After the data of a serial bus and of its vendor, which begin at 12. The two bytes at 10 say how many there are.
    BusData,
    /// The end of the descriptor.
    End,
}

/// An argument of a macro.
#[derive(Clone, Copy)]
pub enum Part {
    Word(Bits, WordKind),
    /// The same, but from 0x80 on, where vendors define the numbers, the number that the bits are.
    WordOrNumber(Bits, WordKind),
    /// The number that bits are.
    Bits(Bits),
    /// The offset of a number, and how many bytes it has.
    Number(u8, u8),
    /// An argument that is left out.
    Blank,
    /// The descriptor's name, if the bytes in two ranges are zero: the offset of each, and how many there are.
    Tag(u8, u8, u8, u8),
    /// The characters from one offset to another, up to the first zero.
    Text(Offset, Offset),
    /// A vendor's data: the bytes from one offset to another, if there are any.
    Vendor(Offset, Offset),
    /// The index of a resource source, if the descriptor doesn't end at this offset.
    Index(Offset),
    /// The name of a resource source, which follows its index, if the descriptor doesn't end at this offset.
    Source(Offset),
}

/// What holds of each descriptor that a macro makes.
#[derive(Clone, Copy)]
pub enum Check {
    /// Bits are this number.
    Is(Bits, u8),
    /// Bits aren't zero.
    Nonzero(Bits),
    /// The descriptor ends with a vendor's data: the sum of the number in the two bytes at an offset, which says where the data
    /// begins, and of the number in the next two, which says how many bytes it has, is the size of the descriptor.
    Vendor(u8),
    /// The number in the two bytes at an offset isn't less than another.
    AtLeast(u8, u8),
    /// There are one or more numbers of two bytes from one offset to another.
    Pairs(Offset, Offset),
    /// From one offset to another there are ASCII characters, and then one zero as the last byte.
    Text(Offset, Offset),
    /// The descriptor ends at the offset, or an index of one byte is there, then ASCII characters, then one zero as the last
    /// byte.
    Source(Offset),
}

/// The list in braces.
#[derive(Clone, Copy)]
pub enum Braces {
    Absent,
    /// The bits that are set in the bytes at 1 and 2.
    Irqs,
    /// The bits that are set in the byte at 1.
    Channels,
    /// The numbers of four bytes from one offset to another.
    Dwords(Offset, Offset),
    /// The numbers of two bytes from one offset to another.
    Pairs(Offset, Offset),
    /// The bytes from an offset to the end.
    Bytes(Offset),
}

/// The words of a kind, each with the number that its bits are.
pub fn words(kind: WordKind) -> &'static [(u8, &'static str)]
    ensures { map (λ row. (row.0, row.1.now)) result.now ≡ words kind }
{
    match kind {
        WordKind::Decode => &[(0, "Decode10"), (1, "Decode16")],
        WordKind::Mode => &[(0, "Level"), (1, "Edge")],
        WordKind::Polarity => &[(0, "ActiveHigh"), (1, "ActiveLow")],
        WordKind::Sharing => &[
            (0, "Exclusive"),
            (1, "Shared"),
            (2, "ExclusiveAndWake"),
            (3, "SharedAndWake"),
        ],
        WordKind::DmaType => &[
            (0, "Compatibility"),
            (1, "TypeA"),
            (2, "TypeB"),
            (3, "TypeF"),
        ],
        WordKind::Master => &[(0, "NotBusMaster"), (1, "BusMaster")],
        WordKind::Transfer => &[(0, "Transfer8"), (1, "Transfer8_16"), (2, "Transfer16")],
        WordKind::DmaWidth => &[
            (0, "Width8bit"),
            (1, "Width16bit"),
            (2, "Width32bit"),
            (3, "Width64bit"),
            (4, "Width128bit"),
            (5, "Width256bit"),
        ],
        WordKind::Access => &[(0, "ReadOnly"), (1, "ReadWrite")],
        WordKind::Usage => &[(0, "ResourceProducer"), (1, "ResourceConsumer")],
        WordKind::Decoding => &[(0, "PosDecode"), (1, "SubDecode")],
        WordKind::Minimum => &[(0, "MinNotFixed"), (1, "MinFixed")],
        WordKind::Maximum => &[(0, "MaxNotFixed"), (1, "MaxFixed")],
        WordKind::Caching => &[
            (0, "NonCacheable"),
            (1, "Cacheable"),
            (2, "WriteCombining"),
            (3, "Prefetchable"),
        ],
        WordKind::Ranges => &[
            (1, "NonISAOnlyRanges"),
            (2, "ISAOnlyRanges"),
            (3, "EntireRange"),
        ],
        WordKind::Memory => &[
            (0, "AddressRangeMemory"),
            (1, "AddressRangeReserved"),
            (2, "AddressRangeACPI"),
            (3, "AddressRangeNVS"),
        ],
        WordKind::Translation => &[(0, "TypeStatic"), (1, "TypeTranslation")],
        WordKind::Density => &[(0, "DenseTranslation"), (1, "SparseTranslation")],
        WordKind::Space => &REGION_SPACES,
        WordKind::Levels => &[(0, "ActiveHigh"), (1, "ActiveLow"), (2, "ActiveBoth")],
        WordKind::PinConfig => &[
            (0, "PullDefault"),
            (1, "PullUp"),
            (2, "PullDown"),
            (3, "PullNone"),
        ],
        WordKind::Restriction => &[
            (0, "IoRestrictionNone"),
            (1, "IoRestrictionInputOnly"),
            (2, "IoRestrictionOutputOnly"),
            (3, "IoRestrictionNoneAndPreserve"),
        ],
        WordKind::Priority => &[(0, "0x00"), (1, "0x01"), (2, "0x02")],
        WordKind::Initiator => &[(0, "ControllerInitiated"), (1, "DeviceInitiated")],
        WordKind::AddressingMode => &[(0, "AddressingMode7Bit"), (1, "AddressingMode10Bit")],
        WordKind::DevicePolarity => &[(0, "PolarityLow"), (1, "PolarityHigh")],
        WordKind::WireMode => &[(0, "FourWireMode"), (1, "ThreeWireMode")],
        WordKind::ClockPolarity => &[(0, "ClockPolarityLow"), (1, "ClockPolarityHigh")],
        WordKind::ClockPhase => &[(0, "ClockPhaseFirst"), (1, "ClockPhaseSecond")],
        WordKind::DataBits => &[
            (0, "DataBitsFive"),
            (1, "DataBitsSix"),
            (2, "DataBitsSeven"),
            (3, "DataBitsEight"),
            (4, "DataBitsNine"),
        ],
        WordKind::StopBits => &[
            (0, "StopBitsZero"),
            (1, "StopBitsOne"),
            (2, "StopBitsOnePlusHalf"),
            (3, "StopBitsTwo"),
        ],
        WordKind::Endianness => &[(0, "LittleEndian"), (1, "BigEndian")],
        WordKind::Parity => &[
            (0, "ParityTypeNone"),
            (1, "ParityTypeEven"),
            (2, "ParityTypeOdd"),
            (3, "ParityTypeMark"),
            (4, "ParityTypeSpace"),
        ],
        WordKind::FlowControl => &[
            (0, "FlowControlNone"),
            (1, "FlowControlHardware"),
            (2, "FlowControlXON"),
        ],
        WordKind::ClockMode => &[(0, "Fixed"), (1, "Variable")],
        WordKind::ClockScale => &[(0, "Hz"), (1, "KHz"), (2, "MHz")],
    }
}
