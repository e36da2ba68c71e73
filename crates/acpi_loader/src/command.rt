//! The commands of a loader.

/// A file that a command names.
#[derive(Clone, Copy, Debug, PartialEq)]
pub enum File {
    /// `etc/acpi/tables`: all tables but the RSDP.
    Tables,
    /// `etc/acpi/rsdp`: the RSDP.
    Rsdp,
}

/// Where the memory for a file is taken from.
#[derive(Clone, Copy, Debug, PartialEq)]
pub enum Zone {
    /// Anywhere: 1 in the command.
    High,
    /// From the part of memory where an RSDP is looked for (ACPI 6.5, 5.2.5.1): 2 in the command.
    FSeg,
}

/// A command. Offsets and lengths count bytes.
#[derive(Clone, Copy, Debug, PartialEq)]
pub enum Command {
    /// Takes memory for a file, at a multiple of a power of two, and copies the file there.
    Allocate(File, u32, Zone),
    /// Adds the address of the second file to the eight bytes at this offset of the first.
    AddPointer(File, File, u32),
    /// Adds to the byte at the first offset of a file what makes the sum of bytes zero. They begin at the second offset, and the
    /// last number counts them.
    AddChecksum(File, u32, u32, u32),
}
