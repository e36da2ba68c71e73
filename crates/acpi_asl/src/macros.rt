//! The macros of resource descriptors, as data: their arguments, what holds of each descriptor that they make, and the lists in
//! braces (ACPI 6.5, 6.4 and 19.2.8).

ghost use Rattle.std.specs.Prelude.{◌≡◌, ◌++◌, ℕ, List, false, codes, slice_index_or, MatchOption};
ghost use Rattle.acpi_asl.specs.Content.{all_hold};
ghost use Rattle.acpi_asl.specs.Descriptor.{facts, descriptors};

use crate::content::shifted;
use crate::descriptor::{Bits, Braces, Check, Offset, Part, WordKind};

/// The descriptors that have macros: those of ACPI 6.5, 6.4. `I2cBus2`, `SpiBus2` and `UartBus2` are the descriptors of revision
/// 2, which say whether the connection is shared.
#[derive(Clone, Copy)]
pub enum Descriptor {
    IrqNoFlags,
    Irq,
    Dma,
    StartDependentFnNoPri,
    StartDependentFn,
    EndDependentFn,
    Io,
    FixedIo,
    FixedDma,
    VendorShort,
    Memory24,
    Register,
    VendorLong,
    Memory32,
    Memory32Fixed,
    DwordMemory,
    DwordIo,
    DwordSpace,
    WordIo,
    WordBus,
    WordSpace,
    Interrupt,
    QwordMemory,
    QwordIo,
    QwordSpace,
    ExtendedMemory,
    ExtendedIo,
    ExtendedSpace,
    GpioInt,
    GpioIo,
    PinFunction,
    I2cBus2,
    I2cBus,
    SpiBus2,
    SpiBus,
    UartBus2,
    UartBus,
    Csi2Bus,
    PinConfig,
    PinGroup,
    PinGroupFunction,
    PinGroupConfig,
    ClockInput,
}

const DESCRIPTORS: [Descriptor; 43] = [
    Descriptor::IrqNoFlags,
    Descriptor::Irq,
    Descriptor::Dma,
    Descriptor::StartDependentFnNoPri,
    Descriptor::StartDependentFn,
    Descriptor::EndDependentFn,
    Descriptor::Io,
    Descriptor::FixedIo,
    Descriptor::FixedDma,
    Descriptor::VendorShort,
    Descriptor::Memory24,
    Descriptor::Register,
    Descriptor::VendorLong,
    Descriptor::Memory32,
    Descriptor::Memory32Fixed,
    Descriptor::DwordMemory,
    Descriptor::DwordIo,
    Descriptor::DwordSpace,
    Descriptor::WordIo,
    Descriptor::WordBus,
    Descriptor::WordSpace,
    Descriptor::Interrupt,
    Descriptor::QwordMemory,
    Descriptor::QwordIo,
    Descriptor::QwordSpace,
    Descriptor::ExtendedMemory,
    Descriptor::ExtendedIo,
    Descriptor::ExtendedSpace,
    Descriptor::GpioInt,
    Descriptor::GpioIo,
    Descriptor::PinFunction,
    Descriptor::I2cBus2,
    Descriptor::I2cBus,
    Descriptor::SpiBus2,
    Descriptor::SpiBus,
    Descriptor::UartBus2,
    Descriptor::UartBus,
    Descriptor::Csi2Bus,
    Descriptor::PinConfig,
    Descriptor::PinGroup,
    Descriptor::PinGroupFunction,
    Descriptor::PinGroupConfig,
    Descriptor::ClockInput,
];

// Bits of the byte at an offset: the lowest of them, and how many there are.
macro_rules! bits {
    ($offset:expr, $shift:literal, $size:literal) => {
        Bits {
            offset: $offset,
            shift: $shift,
            size: $size,
        }
    };
}

// The word of these bits.
macro_rules! word {
    ($offset:literal, $shift:literal, $size:literal, $kind:ident) => {
        Part::Word(bits!($offset, $shift, $size), WordKind::$kind)
    };
}

// The word of these bits, or their number if a vendor defines it.
macro_rules! word_or_number {
    ($offset:literal, $kind:ident) => {
        Part::WordOrNumber(bits!($offset, 0, 8), WordKind::$kind)
    };
}

// These bits are zero.
macro_rules! clear {
    ($offset:literal, $shift:literal, $size:literal) => {
        Check::Is(bits!($offset, $shift, $size), 0)
    };
}

// The byte at an offset is this number.
macro_rules! byte {
    ($offset:expr, $value:expr) => {
        Check::Is(bits!($offset, 0, 8), $value)
    };
}

// ---- address spaces: their general flags are at 4, and those of their type at 5

// The arguments: some, the five numbers of this width from an offset on, more, the name, and the last ones.
macro_rules! space {
    ([$($front:expr),*] $at:literal $width:literal [$($more:expr),*] [$($last:expr),*]) => {
        &[
            $($front,)*
            Part::Number($at, $width),
            Part::Number($at + $width, $width),
            Part::Number($at + 2 * $width, $width),
            Part::Number($at + 3 * $width, $width),
            Part::Number($at + 4 * $width, $width),
            $($more,)*
            Part::Tag($at, 3 * $width, $at + 4 * $width, $width),
            $($last,)*
        ]
    };
}

macro_rules! memory_parts {
    ($at:literal $width:literal [$($more:expr),*]) => {
        space!(
            [
                word!(4, 0, 1, Usage),
                word!(4, 1, 1, Decoding),
                word!(4, 2, 1, Minimum),
                word!(4, 3, 1, Maximum),
                word!(5, 1, 2, Caching),
                word!(5, 0, 1, Access)
            ]
            $at $width [$($more),*]
            [word!(5, 3, 2, Memory), word!(5, 5, 1, Translation)]
        )
    };
}

macro_rules! io_parts {
    ($at:literal $width:literal [$($more:expr),*]) => {
        space!(
            [
                word!(4, 0, 1, Usage),
                word!(4, 2, 1, Minimum),
                word!(4, 3, 1, Maximum),
                word!(4, 1, 1, Decoding),
                word!(5, 0, 2, Ranges)
            ]
            $at $width [$($more),*]
            [word!(5, 4, 1, Translation), word!(5, 5, 1, Density)]
        )
    };
}

macro_rules! bus_parts {
    ($at:literal $width:literal [$($more:expr),*]) => {
        space!(
            [
                word!(4, 0, 1, Usage),
                word!(4, 2, 1, Minimum),
                word!(4, 3, 1, Maximum),
                word!(4, 1, 1, Decoding)
            ]
            $at $width [$($more),*] []
        )
    };
}

// A space that a vendor defines, with its type.
macro_rules! space_parts {
    ($at:literal $width:literal [$($more:expr),*]) => {
        space!(
            [
                Part::Number(3, 1),
                word!(4, 0, 1, Usage),
                word!(4, 1, 1, Decoding),
                word!(4, 2, 1, Minimum),
                word!(4, 3, 1, Maximum),
                Part::Number(5, 1)
            ]
            $at $width [$($more),*] []
        )
    };
}

// What is checked of the flags of each type, before and after other checks.
macro_rules! memory_checks {
    ([$($front:expr),*] [$($last:expr),*]) => {
        &[$($front,)* byte!(3, 0), clear!(4, 4, 8), clear!(5, 6, 8), $($last,)*]
    };
}

macro_rules! io_checks {
    ([$($front:expr),*] [$($last:expr),*]) => {
        &[$($front,)* byte!(3, 1), clear!(4, 4, 8), clear!(5, 2, 2), clear!(5, 6, 8), $($last,)*]
    };
}

macro_rules! bus_checks {
    ([$($front:expr),*] [$($last:expr),*]) => {
        &[$($front,)* byte!(3, 2), clear!(4, 4, 8), byte!(5, 0), $($last,)*]
    };
}

macro_rules! space_checks {
    ([$($front:expr),*] [$($last:expr),*]) => {
        &[$($front,)* Check::Is(bits!(3, 6, 8), 3), clear!(4, 4, 8), $($last,)*]
    };
}

// ---- pins

// The pins begin after `n` bytes, and the controller's name and a vendor's data follow them. The two bytes at `table` are the
// offset of the pins, those at `name` that of the name, and those at `vendor` that of the vendor's data. The next two are the
// number of bytes of the vendor's data.
macro_rules! pins {
    ([$($front:expr),*] $n:literal, $table:literal, $name:literal, $vendor:literal) => {
        &[
            $($front,)*
            byte!($table, $n),
            byte!($table + 1, 0),
            Check::Pairs(Offset::At($n), Offset::Stated($name)),
            Check::Text(Offset::Stated($name), Offset::Stated($vendor)),
            Check::Vendor($vendor),
        ]
    };
}

// The names of a controller and of a group begin after `n` bytes. The two bytes at `name` are the offset of the controller's
// name, the next two that of the group's name, and the next four the offset and the length of a vendor's data.
macro_rules! group {
    ([$($front:expr),*] $n:literal, $name:literal) => {
        &[
            $($front,)*
            byte!($name, $n),
            byte!($name + 1, 0),
            Check::Text(Offset::At($n), Offset::Stated($name + 2)),
            Check::Text(Offset::Stated($name + 2), Offset::Stated($name + 4)),
            Check::Vendor($name + 4),
        ]
    };
}

// ---- connections to serial buses

// What is checked of a bus of this number, of a revision, whose own data has `n` bytes. A vendor's data may follow it. The two
// bytes at 10 are the number of bytes of both.
macro_rules! bus {
    ($revision:literal, $bus:literal, $n:literal, [$($own:expr),*]) => {
        &[
            byte!(0, 0x8e),
            byte!(3, $revision),
            byte!(5, $bus),
            byte!(8, 0),
            byte!(9, 1),
            Check::AtLeast(10, $n),
            Check::Text(Offset::BusData, Offset::End),
            $($own,)*
        ]
    };
}

// The arguments of a bus, and then the controller's name and index, the usage, the descriptor's name, which is left out, and the
// vendor's data.
macro_rules! bus_arguments {
    ($n:literal, [$($own:expr),*]) => {
        &[
            $($own,)*
            Part::Text(Offset::BusData, Offset::End),
            Part::Number(4, 1),
            word!(6, 1, 1, Usage),
            Part::Blank,
            Part::Vendor(Offset::At(12 + $n), Offset::BusData),
        ]
    };
}

// The same with the flag whether the connection is shared, which revision 2 has.
macro_rules! bus_arguments_2 {
    ($n:literal, [$($own:expr),*]) => {
        &[
            $($own,)*
            Part::Text(Offset::BusData, Offset::End),
            Part::Number(4, 1),
            word!(6, 1, 1, Usage),
            Part::Blank,
            word!(6, 2, 1, Sharing),
            Part::Vendor(Offset::At(12 + $n), Offset::BusData),
        ]
    };
}

macro_rules! i2c_parts {
    ($end:ident) => {
        $end!(
            6,
            [
                Part::Number(16, 2),
                word!(6, 0, 1, Initiator),
                Part::Number(12, 4),
                word!(7, 0, 1, AddressingMode)
            ]
        )
    };
}

macro_rules! spi_parts {
    ($end:ident) => {
        $end!(
            9,
            [
                Part::Number(19, 2),
                word!(7, 1, 1, DevicePolarity),
                word!(7, 0, 1, WireMode),
                Part::Number(16, 1),
                word!(6, 0, 1, Initiator),
                Part::Number(12, 4),
                word!(18, 0, 8, ClockPolarity),
                word!(17, 0, 8, ClockPhase)
            ]
        )
    };
}

macro_rules! uart_parts {
    ($end:ident) => {
        $end!(
            10,
            [
                Part::Number(12, 4),
                word!(7, 4, 3, DataBits),
                word!(7, 2, 2, StopBits),
                Part::Number(21, 1),
                word!(7, 7, 8, Endianness),
                word!(20, 0, 8, Parity),
                word!(7, 0, 2, FlowControl),
                Part::Number(16, 2),
                Part::Number(18, 2)
            ]
        )
    };
}

// ---- the descriptors

// A row for each descriptor: its macro, the macro's arguments, what is checked, and the list in braces.
macro_rules! descriptors {
    ($wanted:tt of $subject:expr) => {
        look_up! { $wanted $subject;
            IrqNoFlags { "IRQNoFlags", &[], &[byte!(0, 0x22)], Braces::Irqs }
            Irq {
                "IRQ",
                &[word!(3, 0, 1, Mode), word!(3, 3, 1, Polarity), word!(3, 4, 2, Sharing)],
                &[byte!(0, 0x23), clear!(3, 1, 2), clear!(3, 6, 8)],
                Braces::Irqs
            }
            Dma {
                "DMA",
                &[word!(2, 5, 2, DmaType), word!(2, 2, 1, Master), word!(2, 0, 2, Transfer)],
                &[byte!(0, 0x2a), clear!(2, 3, 2), clear!(2, 7, 8)],
                Braces::Channels
            }
            StartDependentFnNoPri { "StartDependentFnNoPri", &[], &[byte!(0, 0x30)], Braces::Absent }
            StartDependentFn {
                "StartDependentFn",
                &[word!(1, 0, 2, Priority), word!(1, 2, 2, Priority)],
                &[byte!(0, 0x31), clear!(1, 4, 8)],
                Braces::Absent
            }
            EndDependentFn { "EndDependentFn", &[], &[byte!(0, 0x38)], Braces::Absent }
            Io {
                "IO",
                &[
                    word!(1, 0, 1, Decode), Part::Number(2, 2), Part::Number(4, 2), Part::Number(6, 1),
                    Part::Number(7, 1), Part::Tag(2, 4, 7, 1),
                ],
                &[byte!(0, 0x47), clear!(1, 1, 8)],
                Braces::Absent
            }
            FixedIo { "FixedIO", &[Part::Number(1, 2), Part::Number(3, 1)], &[byte!(0, 0x4b)], Braces::Absent }
            FixedDma {
                "FixedDMA",
                &[Part::Number(1, 2), Part::Number(3, 2), word!(5, 0, 3, DmaWidth)],
                &[byte!(0, 0x55), clear!(5, 3, 8)],
                Braces::Absent
            }
            VendorShort { "VendorShort", &[], &[Check::Is(bits!(0, 3, 8), 0xe)], Braces::Bytes(Offset::At(1)) }
            Memory24 {
                "Memory24",
                &[
                    word!(3, 0, 1, Access), Part::Number(4, 2), Part::Number(6, 2), Part::Number(8, 2),
                    Part::Number(10, 2), Part::Tag(4, 4, 10, 2),
                ],
                &[byte!(0, 0x81), byte!(1, 9), byte!(2, 0), clear!(3, 1, 8)],
                Braces::Absent
            }
            Register {
                "Register",
                &[
                    word_or_number!(3, Space), Part::Number(4, 1), Part::Number(5, 1), Part::Number(7, 8),
                    Part::Number(6, 1),
                ],
                &[byte!(0, 0x82), byte!(1, 12), byte!(2, 0)],
                Braces::Absent
            }
            VendorLong { "VendorLong", &[], &[byte!(0, 0x84)], Braces::Bytes(Offset::At(3)) }
            Memory32 {
                "Memory32",
                &[
                    word!(3, 0, 1, Access), Part::Number(4, 4), Part::Number(8, 4), Part::Number(12, 4),
                    Part::Number(16, 4), Part::Tag(4, 8, 16, 4),
                ],
                &[byte!(0, 0x85), byte!(1, 17), byte!(2, 0), clear!(3, 1, 8)],
                Braces::Absent
            }
            Memory32Fixed {
                "Memory32Fixed",
                &[word!(3, 0, 1, Access), Part::Number(4, 4), Part::Number(8, 4)],
                &[byte!(0, 0x86), byte!(1, 9), byte!(2, 0), clear!(3, 1, 8)],
                Braces::Absent
            }
            DwordMemory {
                "DWordMemory",
                memory_parts!(6 4 [Part::Index(Offset::At(26)), Part::Source(Offset::At(26))]),
                memory_checks!([byte!(0, 0x87)] [Check::Source(Offset::At(26))]),
                Braces::Absent
            }
            DwordIo {
                "DWordIO",
                io_parts!(6 4 [Part::Index(Offset::At(26)), Part::Source(Offset::At(26))]),
                io_checks!([byte!(0, 0x87)] [Check::Source(Offset::At(26))]),
                Braces::Absent
            }
            DwordSpace {
                "DWordSpace",
                space_parts!(6 4 [Part::Index(Offset::At(26)), Part::Source(Offset::At(26))]),
                space_checks!([byte!(0, 0x87)] [Check::Source(Offset::At(26))]),
                Braces::Absent
            }
            WordIo {
                "WordIO",
                io_parts!(6 2 [Part::Index(Offset::At(16)), Part::Source(Offset::At(16))]),
                io_checks!([byte!(0, 0x88)] [Check::Source(Offset::At(16))]),
                Braces::Absent
            }
            WordBus {
                "WordBusNumber",
                bus_parts!(6 2 [Part::Index(Offset::At(16)), Part::Source(Offset::At(16))]),
                bus_checks!([byte!(0, 0x88)] [Check::Source(Offset::At(16))]),
                Braces::Absent
            }
            WordSpace {
                "WordSpace",
                space_parts!(6 2 [Part::Index(Offset::At(16)), Part::Source(Offset::At(16))]),
                space_checks!([byte!(0, 0x88)] [Check::Source(Offset::At(16))]),
                Braces::Absent
            }
            Interrupt {
                "Interrupt",
                &[
                    word!(3, 0, 1, Usage), word!(3, 1, 1, Mode), word!(3, 2, 1, Polarity), word!(3, 3, 2, Sharing),
                    Part::Index(Offset::Entries), Part::Source(Offset::Entries), Part::Blank,
                ],
                &[
                    byte!(0, 0x89), clear!(3, 5, 8), Check::Nonzero(bits!(4, 0, 8)),
                    Check::Source(Offset::Entries),
                ],
                Braces::Dwords(Offset::At(5), Offset::Entries)
            }
            QwordMemory {
                "QWordMemory",
                memory_parts!(6 8 [Part::Index(Offset::At(46)), Part::Source(Offset::At(46))]),
                memory_checks!([byte!(0, 0x8a)] [Check::Source(Offset::At(46))]),
                Braces::Absent
            }
            QwordIo {
                "QWordIO",
                io_parts!(6 8 [Part::Index(Offset::At(46)), Part::Source(Offset::At(46))]),
                io_checks!([byte!(0, 0x8a)] [Check::Source(Offset::At(46))]),
                Braces::Absent
            }
            QwordSpace {
                "QWordSpace",
                space_parts!(6 8 [Part::Index(Offset::At(46)), Part::Source(Offset::At(46))]),
                space_checks!([byte!(0, 0x8a)] [Check::Source(Offset::At(46))]),
                Braces::Absent
            }
            ExtendedMemory {
                "ExtendedMemory",
                memory_parts!(8 8 [Part::Number(48, 8)]),
                memory_checks!([byte!(0, 0x8b), byte!(1, 53), byte!(2, 0)] [byte!(6, 1), byte!(7, 0)]),
                Braces::Absent
            }
            ExtendedIo {
                "ExtendedIO",
                io_parts!(8 8 [Part::Number(48, 8)]),
                io_checks!([byte!(0, 0x8b), byte!(1, 53), byte!(2, 0)] [byte!(6, 1), byte!(7, 0)]),
                Braces::Absent
            }
            ExtendedSpace {
                "ExtendedSpace",
                space_parts!(8 8 [Part::Number(48, 8)]),
                space_checks!([byte!(0, 0x8b), byte!(1, 53), byte!(2, 0)] [byte!(6, 1), byte!(7, 0)]),
                Braces::Absent
            }
            GpioInt {
                "GpioInt",
                &[
                    word!(7, 0, 1, Mode), word!(7, 1, 2, Levels), word!(7, 3, 2, Sharing),
                    word_or_number!(9, PinConfig), Part::Number(12, 2),
                    Part::Text(Offset::Stated(17), Offset::Stated(19)), Part::Number(16, 1), word!(5, 0, 1, Usage),
                    Part::Blank, Part::Vendor(Offset::Stated(19), Offset::End),
                ],
                pins!(
                    [
                        byte!(0, 0x8c), byte!(3, 1), byte!(4, 0), clear!(5, 1, 8), byte!(6, 0), clear!(7, 5, 8),
                        byte!(8, 0), byte!(10, 0), byte!(11, 0)
                    ]
                    23, 14, 17, 19
                ),
                Braces::Pairs(Offset::At(23), Offset::Stated(17))
            }
            GpioIo {
                "GpioIo",
                &[
                    word!(7, 3, 2, Sharing), word_or_number!(9, PinConfig), Part::Number(12, 2), Part::Number(10, 2),
                    word!(7, 0, 2, Restriction), Part::Text(Offset::Stated(17), Offset::Stated(19)), Part::Number(16, 1),
                    word!(5, 0, 1, Usage), Part::Blank, Part::Vendor(Offset::Stated(19), Offset::End),
                ],
                pins!(
                    [
                        byte!(0, 0x8c), byte!(3, 1), byte!(4, 1), clear!(5, 1, 8), byte!(6, 0), clear!(7, 2, 1),
                        clear!(7, 5, 8), byte!(8, 0)
                    ]
                    23, 14, 17, 19
                ),
                Braces::Pairs(Offset::At(23), Offset::Stated(17))
            }
            PinFunction {
                "PinFunction",
                &[
                    word!(4, 0, 1, Sharing), word_or_number!(6, PinConfig), Part::Number(7, 2),
                    Part::Text(Offset::Stated(12), Offset::Stated(14)), Part::Number(11, 1),
                    Part::Blank, Part::Blank, Part::Vendor(Offset::Stated(14), Offset::End),
                ],
                pins!([byte!(0, 0x8d), byte!(3, 1), clear!(4, 1, 8), byte!(5, 0)] 18, 9, 12, 14),
                Braces::Pairs(Offset::At(18), Offset::Stated(12))
            }
            I2cBus2 {
                "I2cSerialBusV2",
                i2c_parts!(bus_arguments_2),
                bus!(2, 1, 6, [clear!(6, 3, 8), clear!(7, 1, 8)]),
                Braces::Absent
            }
            I2cBus {
                "I2cSerialBus",
                i2c_parts!(bus_arguments),
                bus!(1, 1, 6, [clear!(6, 2, 8), clear!(7, 1, 8)]),
                Braces::Absent
            }
            SpiBus2 {
                "SpiSerialBusV2",
                spi_parts!(bus_arguments_2),
                bus!(2, 2, 9, [clear!(6, 3, 8), clear!(7, 2, 8)]),
                Braces::Absent
            }
            SpiBus {
                "SpiSerialBus",
                spi_parts!(bus_arguments),
                bus!(1, 2, 9, [clear!(6, 2, 8), clear!(7, 2, 8)]),
                Braces::Absent
            }
            UartBus2 {
                "UartSerialBusV2", uart_parts!(bus_arguments_2), bus!(2, 3, 10, [clear!(6, 3, 8)]), Braces::Absent
            }
            UartBus {
                "UartSerialBus", uart_parts!(bus_arguments), bus!(1, 3, 10, [clear!(6, 2, 8)]), Braces::Absent
            }
            Csi2Bus {
                "Csi2Bus",
                bus_arguments!(
                    0,
                    [word!(6, 0, 1, Initiator), Part::Bits(bits!(7, 0, 2)), Part::Bits(bits!(7, 2, 8))]
                ),
                bus!(1, 4, 0, [clear!(6, 2, 8)]),
                Braces::Absent
            }
            PinConfig {
                "PinConfig",
                &[
                    word!(4, 0, 1, Sharing), Part::Number(6, 1), Part::Number(7, 4),
                    Part::Text(Offset::Stated(14), Offset::Stated(16)), Part::Number(13, 1),
                    word!(4, 1, 1, Usage), Part::Blank, Part::Vendor(Offset::Stated(16), Offset::End),
                ],
                pins!([byte!(0, 0x8f), byte!(3, 1), clear!(4, 2, 8), byte!(5, 0)] 20, 11, 14, 16),
                Braces::Pairs(Offset::At(20), Offset::Stated(14))
            }
            PinGroup {
                "PinGroup",
                &[
                    Part::Text(Offset::Stated(8), Offset::Stated(10)), word!(4, 0, 1, Usage),
                    Part::Blank, Part::Vendor(Offset::Stated(10), Offset::End),
                ],
                pins!([byte!(0, 0x90), byte!(3, 1), clear!(4, 1, 8), byte!(5, 0)] 14, 6, 8, 10),
                Braces::Pairs(Offset::At(14), Offset::Stated(8))
            }
            PinGroupFunction {
                "PinGroupFunction",
                &[
                    word!(4, 0, 1, Sharing), Part::Number(6, 2),
                    Part::Text(Offset::At(17), Offset::Stated(11)), Part::Number(8, 1),
                    Part::Text(Offset::Stated(11), Offset::Stated(13)), word!(4, 1, 1, Usage),
                    Part::Blank, Part::Vendor(Offset::Stated(13), Offset::End),
                ],
                group!([byte!(0, 0x91), byte!(3, 1), clear!(4, 2, 8), byte!(5, 0)] 17, 9),
                Braces::Absent
            }
            PinGroupConfig {
                "PinGroupConfig",
                &[
                    word!(4, 0, 1, Sharing), Part::Number(6, 1), Part::Number(7, 4),
                    Part::Text(Offset::At(20), Offset::Stated(14)), Part::Number(11, 1),
                    Part::Text(Offset::Stated(14), Offset::Stated(16)), word!(4, 1, 1, Usage),
                    Part::Blank, Part::Vendor(Offset::Stated(16), Offset::End),
                ],
                group!([byte!(0, 0x92), byte!(3, 1), clear!(4, 2, 8), byte!(5, 0)] 20, 12),
                Braces::Absent
            }
            ClockInput {
                "ClockInput",
                &[
                    Part::Number(8, 4), Part::Number(6, 2), word!(4, 1, 2, ClockScale), word!(4, 0, 1, ClockMode),
                    Part::Source(Offset::At(12)), Part::Index(Offset::At(12)),
                ],
                &[byte!(0, 0x93), byte!(3, 1), clear!(4, 3, 8), byte!(5, 0), Check::Source(Offset::At(12))],
                Braces::Absent
            }
        }
    };
}

// Selects a column of these rows.
macro_rules! look_up {
    (word $subject:expr; $($name:ident { $word:literal, $parts:expr, $checks:expr, $braces:expr })*) => {
        match $subject {
            $(Descriptor::$name => $word,)*
        }
    };
    (opening $subject:expr; $($name:ident { $word:literal, $parts:expr, $checks:expr, $braces:expr })*) => {
        match $subject {
            $(Descriptor::$name => concat!($word, " ("),)*
        }
    };
    (parts $subject:expr; $($name:ident { $word:literal, $parts:expr, $checks:expr, $braces:expr })*) => {
        match $subject {
            $(Descriptor::$name => $parts,)*
        }
    };
    (checks $subject:expr; $($name:ident { $word:literal, $parts:expr, $checks:expr, $braces:expr })*) => {
        match $subject {
            $(Descriptor::$name => $checks,)*
        }
    };
    ((checks left with $tag:ident) $subject:expr; $($name:ident { $word:literal, $parts:expr, $checks:expr, $braces:expr })*) => {
        match $subject {
            $(Descriptor::$name => left_with($checks, $tag),)*
        }
    };
    (braces $subject:expr; $($name:ident { $word:literal, $parts:expr, $checks:expr, $braces:expr })*) => {
        match $subject {
            $(Descriptor::$name => $braces,)*
        }
    };
}

/// All of them, in the order in which they are tried.
pub fn descriptors() -> &'static [Descriptor]
    ensures { result.now ≡ descriptors }
{
    &DESCRIPTORS
}

/// The macro of a descriptor.
pub fn macro_word(descriptor: Descriptor) -> &'static str
    ensures { result.now ≡ (facts descriptor).macro }
{
    descriptors!(word of descriptor)
}

/// The macro of a descriptor, and the parenthesis after it.
pub fn macro_opening(descriptor: Descriptor) -> &'static str
    ensures { result.now ≡ (facts descriptor).macro ++ codes " (" }
{
    descriptors!(opening of descriptor)
}

/// The arguments of its macro.
pub fn parts(descriptor: Descriptor) -> &'static [Part]
    ensures { result.now ≡ (facts descriptor).parts }
{
    descriptors!(parts of descriptor)
}

/// What holds of each descriptor that the macro makes.
pub fn checks(descriptor: Descriptor) -> &'static [Check]
    ensures { result.now ≡ (facts descriptor).checks }
{
    descriptors!(checks of descriptor)
}

// The checks that are left of items that begin with a byte, or none if the first fails.
#[inline(always)]
fn left_with(checks: &'static [Check], tag: u8) -> Option<&'static [Check]>
    ensures { (item : List ℕ) → slice_index_or item 0 0 ≡ tag → MatchOption result (all_hold item checks.now ≡ false)
        (λ rest. all_hold item checks.now ≡ all_hold item rest.now) }
{
    match checks {
        [Check::Is(bits, value), rest @ ..] if bits.offset == 0 && bits.size == 8 => {
            if shifted(tag, bits.shift) == *value {
                Some(rest)
            } else {
                None
            }
        }
        _ => Some(checks),
    }
}

/// What is left to be checked of an item that begins with a byte, or none if the macro makes no such item.
pub fn checks_left(descriptor: Descriptor, tag: u8) -> Option<&'static [Check]>
    ensures { (item : List ℕ) → slice_index_or item 0 0 ≡ tag
        → MatchOption result (all_hold item (facts descriptor).checks ≡ false) (λ rest.
        all_hold item (facts descriptor).checks ≡ all_hold item rest.now) }
{
    descriptors!((checks left with tag) of descriptor)
}

/// The list in braces after its macro.
pub fn tail(descriptor: Descriptor) -> Braces
    ensures { result ≡ (facts descriptor).tail }
{
    descriptors!(braces of descriptor)
}
