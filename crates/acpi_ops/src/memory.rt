//! Ranges of memory whose base may be chosen.

ghost use Rattle.std.specs.Prelude.{◌≡◌, ℕ, Bool};
ghost use Rattle.acpi_base.specs.Fields.{AreRowsOf};
ghost use Rattle.acpi_ops.specs.Memory.{memory_24_fields, memory_24_bytes, memory_32_fields, memory_32_bytes};

use crate::descriptor::{Descriptor, WRITE_BITS, bit};
use acpi_base::row::Row;

/// A range of memory below 16 MB (ACPI 6.5, 6.4.3.1, 24-Bit Memory Range Descriptor).
pub type Memory24 = Descriptor<Memory24Kind, 12>;

/// The kind of `Memory24`.
pub struct Memory24Kind;

impl Descriptor<Memory24Kind, 12> {
    /// A range of memory that is read-only, or may be written too. That flag is at offset 3 of the descriptor. The least and the
    /// greatest base are at 4 and 6, both in units of 256 bytes. The alignment of the base is at 8, in bytes, and 0 is 64 KB. The
    /// length is at 10, in units of 256 bytes.
    pub fn new(
        read_write: bool,
        min: u16,
        max: u16,
        alignment: u16,
        length: u16,
    ) -> Descriptor<Memory24Kind, 12>
        ensures { result ≡ memory_24_bytes read_write min max alignment length }
    {
        Descriptor::of(
            &MEMORY_24,
            &[
                0x81,
                9,
                u64::from(bit(read_write, 1)),
                u64::from(min),
                u64::from(max),
                u64::from(alignment),
                u64::from(length),
            ],
        )
    }
}

const MEMORY_24: [Row; 7] = [
    Row::Preset("24-Bit Memory Range Descriptor", 1, 0x81),
    Row::Preset("Length", 2, 9),
    Row::Flags("Information", 1, &WRITE_BITS),
    Row::Hex("Range Minimum Base Address", 2),
    Row::Hex("Range Maximum Base Address", 2),
    Row::Number("Base Alignment", 2),
    Row::Number("Range Length", 2),
];

/// The rows of the fields of a descriptor of a range of memory below 16 MB, in order.
pub fn memory_24_rows() -> &'static [Row]
    ensures { (read_write : Bool) (min max alignment size : ℕ)
        → AreRowsOf result.now (memory_24_fields read_write min max alignment size) }
{
    &MEMORY_24
}

/// A range of memory below 4 GB (ACPI 6.5, 6.4.3.3, 32-Bit Memory Range Descriptor).
pub type Memory32 = Descriptor<Memory32RangeKind, 20>;

/// The kind of `Memory32`.
pub struct Memory32RangeKind;

impl Descriptor<Memory32RangeKind, 20> {
    /// A range of memory that is read-only, or may be written too. That flag is at offset 3 of the descriptor. The least and the
    /// greatest base are at 4 and 8, the alignment of the base at 12, and the length at 16, all in bytes.
    pub fn new(
        read_write: bool,
        min: u32,
        max: u32,
        alignment: u32,
        length: u32,
    ) -> Descriptor<Memory32RangeKind, 20>
        ensures { result ≡ memory_32_bytes read_write min max alignment length }
    {
        Descriptor::of(
            &MEMORY_32,
            &[
                0x85,
                17,
                u64::from(bit(read_write, 1)),
                u64::from(min),
                u64::from(max),
                u64::from(alignment),
                u64::from(length),
            ],
        )
    }
}

const MEMORY_32: [Row; 7] = [
    Row::Preset("32-Bit Memory Range Descriptor", 1, 0x85),
    Row::Preset("Length", 2, 17),
    Row::Flags("Information", 1, &WRITE_BITS),
    Row::Hex("Range Minimum Base Address", 4),
    Row::Hex("Range Maximum Base Address", 4),
    Row::Number("Base Alignment", 4),
    Row::Number("Range Length", 4),
];

/// The rows of the fields of a descriptor of a range of memory below 4 GB, in order.
pub fn memory_32_rows() -> &'static [Row]
    ensures { (read_write : Bool) (min max alignment size : ℕ)
        → AreRowsOf result.now (memory_32_fields read_write min max alignment size) }
{
    &MEMORY_32
}
