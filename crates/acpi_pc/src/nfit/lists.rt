//! Structures that end with a list of numbers.

ghost use Rattle.std.specs.Prelude.{◌≡◌, ◌+◌};
ghost use Rattle.acpi_base.specs.Bytes.{le};
ghost use Rattle.acpi_base.specs.Fields.{AreRowsOf};
ghost use Rattle.acpi_base.specs.Object.{whole, whole_ends_well};
ghost use Rattle.acpi_core.specs.Entries.{with_entry};
ghost use Rattle.acpi_pc.specs.Grown.{Grows};
ghost use Rattle.acpi_pc.specs.NfitLists.{interleave, interleave_head_fields, interleave_head, interleave_bytes};
ghost use Rattle.acpi_pc.specs.NfitLists.{flush_hint, flush_head_fields, flush_head, flush_bytes};
ghost use Rattle.acpi_pc.specs.declared.nfit.lists.FlushHint.{FlushHint};
ghost use Rattle.acpi_pc.specs.declared.nfit.lists.Interleave.{Interleave};

use acpi_base::error::R;
use acpi_base::object::Aml;
use acpi_base::parts::write_parts;
use acpi_base::row::{Row, record_of_numbers};
use acpi_base::sink::AmlSink;
use acpi_core::entries::Entries;
use std::alloc::Global;

/// How the lines of a range are spread over interleaved modules: 16 bytes, and 4 for each line (ACPI 6.5, 5.2.26.4, Interleave
/// Structure).
#[derive(Drop)]
pub struct Interleave {
    index: u16,
    line_size: u32,
    lines: Entries<4, 16379>,
}

impl Interleave {
    /// The pattern with this index (offset 4; not 0), of lines of `line_size` bytes (offset 12). It has no lines.
    pub fn new(alloc: Global, index: u16, line_size: u32) -> Interleave
        ensures { result ≡ interleave index line_size }
    {
        Interleave {
            index,
            line_size,
            lines: Entries::new(alloc),
        }
    }

    /// The number of lines (offset 8): at most 16,379.
    pub fn line_count(&self) -> usize
        ensures { result ≡ self.now.lines.count }
    {
        self.lines.len()
    }

    /// Adds a line, by its offset in lines. The error is `FieldWidth` at line number 16,380. After an error the pattern is
    /// unchanged.
    pub fn add_line(&mut self, offset: u32) -> R<()>
        ensures { Grows result self.old (record self.old { lines = with_entry self.old.lines (le 4 offset) }) self.new
            (self.old.lines.count + 1) 16379 }
    {
        self.lines.push(offset.to_le_bytes())
    }

    // The bytes of the pattern before its lines.
    fn head(&self) -> [u8; 16]
        ensures { result ≡ interleave_head self.now }
    {
        record_of_numbers(
            &INTERLEAVE,
            &[
                2,
                16 + self.lines.as_slice().len() as u64,
                u64::from(self.index),
                0,
                self.lines.len() as u64,
                u64::from(self.line_size),
            ],
        )
    }
}

/// The rows of a pattern before its lines.
pub const INTERLEAVE: [Row; 6] = [
    Row::Preset("Type", 2, 2),
    Row::Number("Length", 2),
    Row::Number("Interleave Structure Index", 2),
    Row::Reserved(2),
    Row::Number("Number of Lines Described", 4),
    Row::Number("Line Size", 4),
];

/// The rows of the fields before a pattern's lines, in order.
pub fn interleave_rows() -> &'static [Row]
    ensures { (i : Interleave) → AreRowsOf result.now (interleave_head_fields i) }
{
    &INTERLEAVE
}

impl Aml for Interleave {
    ghost object = { λ i. whole (interleave_bytes i) };

    ghost ends_well = { λ i. whole_ends_well (interleave_bytes i) };

    fn to_aml_bytes(&self, sink: &mut dyn AmlSink) -> R<()> {
        write_parts(sink, &[&self.head(), self.lines.as_slice()])
    }
}

/// The addresses to which software writes so that what it stored reaches a module: 16 bytes, and 8 for each address (ACPI 6.5,
/// 5.2.26.8, Flush Hint Address Structure).
#[derive(Drop)]
pub struct FlushHint {
    handle: u32,
    addresses: Entries<8, 8189>,
}

impl FlushHint {
    /// The structure of the module with this handle (offset 4), without addresses.
    pub fn new(alloc: Global, handle: u32) -> FlushHint
        ensures { result ≡ flush_hint handle }
    {
        FlushHint {
            handle,
            addresses: Entries::new(alloc),
        }
    }

    /// The number of addresses (offset 8): at most 8,189.
    pub fn address_count(&self) -> usize
        ensures { result ≡ self.now.addresses.count }
    {
        self.addresses.len()
    }

    /// Adds a physical address. The error is `FieldWidth` at address number 8,190. After an error the structure is unchanged.
    pub fn add_address(&mut self, address: u64) -> R<()>
        ensures { Grows result self.old (record self.old { addresses = with_entry self.old.addresses (le 8 address) }) self.new
            (self.old.addresses.count + 1) 8189 }
    {
        self.addresses.push(address.to_le_bytes())
    }

    // The bytes of the structure before its addresses.
    fn head(&self) -> [u8; 16]
        ensures { result ≡ flush_head self.now }
    {
        record_of_numbers(
            &FLUSH_HINT,
            &[
                6,
                16 + self.addresses.as_slice().len() as u64,
                u64::from(self.handle),
                self.addresses.len() as u64,
                0,
            ],
        )
    }
}

/// The rows of a Flush Hint Address Structure before its addresses.
pub const FLUSH_HINT: [Row; 5] = [
    Row::Preset("Type", 2, 6),
    Row::Number("Length", 2),
    Row::Hex("NFIT Device Handle", 4),
    Row::Number("Number of Flush Hint Addresses", 2),
    Row::Reserved(6),
];

/// The rows of the fields before the addresses, in order.
pub fn flush_hint_rows() -> &'static [Row]
    ensures { (h : FlushHint) → AreRowsOf result.now (flush_head_fields h) }
{
    &FLUSH_HINT
}

impl Aml for FlushHint {
    ghost object = { λ h. whole (flush_bytes h) };

    ghost ends_well = { λ h. whole_ends_well (flush_bytes h) };

    fn to_aml_bytes(&self, sink: &mut dyn AmlSink) -> R<()> {
        write_parts(sink, &[&self.head(), self.addresses.as_slice()])
    }
}
