//! The functions of PCI.

use crate::row::Bits;

/// The number of a function: its bus in bits 15:8, its device in bits 7:3, its own number in bits 2:0.
pub const BDF: [Bits; 3] = [
    Bits::Number(0xff00, 0x0100, "Bus"),
    Bits::Number(0x00f8, 0x0008, "Device"),
    Bits::Number(0x0007, 0x0001, "Function"),
];
