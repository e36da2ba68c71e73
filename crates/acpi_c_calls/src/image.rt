//! Checks of images, and their tables.

ghost use Rattle.std.specs.Prelude.{◌≡◌, map, IfOk, IfErr};
ghost use Rattle.acpi_layout.specs.Addresses.{memory_of};
ghost use Rattle.acpi_c_calls.specs.Image.{image_table, HasSomeTables, AreTablesOf, HasNoTables};
ghost use Rattle.acpi_c_calls.specs.Image.{IsImageOfTables, AreImageTables, IsImageRefusal};
ghost use Rattle.acpi_c_calls.specs.Refused.{by_memory};
ghost use Rattle.acpi_c_calls.specs.Results.{seen, IsOutcome, Checks, Gives};

use crate::give::{give, result_of};
use crate::refused::Refused;
use acpi_layout::check::check_memory as tables_of;
use acpi_layout::located::Located;
use acpi_layout::range::Range;
use std::alloc::Global;

/// A table of an image.
#[repr(C)]
#[derive(Clone, Copy, Debug, PartialEq, Drop)]
pub struct ImageTable {
    /// The physical address of its first byte.
    pub address: u64,
    /// The number of its bytes.
    pub length: u32,
    /// Its first four bytes: the signature (ACPI 6.5, 5.2.6), and `RSD ` of an RSDP.
    pub signature: [u8; 4],
}

// Checks that memory has tables.
fn checked(alloc: Global, ranges: &[Range<'_>], rsdp: u64) -> Result<(), Refused>
    ensures { IsOutcome (λ done. HasSomeTables (memory_of ranges.now) rsdp) (HasNoTables (memory_of ranges.now) rsdp) result }
{
    match tables_of(alloc, ranges, rsdp) {
        Ok(_) => Ok(()),
        Err(error) => Err(Refused::from(error)),
    }
}

/// Checks the tables in memory, as an operating system finds them (ACPI 6.5, 5.2.5 to 5.2.10). The RSDP is at the address `rsdp`.
/// Each table lies whole in one range, the first that holds its first byte. Returns 0, or the number of a fault, and `place` is
/// the address of the table where it is.
pub fn check_memory(alloc: Global, ranges: &[Range<'_>], rsdp: u64, place: &mut u64) -> u32
    ensures { Checks (HasSomeTables (memory_of ranges.now) rsdp) (HasNoTables (memory_of ranges.now) rsdp) result place.new }
{
    result_of(checked(alloc, ranges, rsdp), place)
}

/// Checks the tables of an image, as `check_memory` those in memory. The bytes begin at the physical address `base`.
pub fn check_image(alloc: Global, bytes: &[u8], base: u64, rsdp: u64, place: &mut u64) -> u32
    ensures { Checks (IsImageOfTables bytes.now base rsdp) (IsImageRefusal bytes.now base rsdp) result place.new }
{
    let range = Range {
        address: base,
        bytes,
    };
    check_memory(alloc, &[range], rsdp, place)
}

// Returns a table of an image.
fn image_table(table: &Located) -> ImageTable
    ensures { result ≡ image_table table.now }
{
    ImageTable {
        address: table.address,
        length: table.length,
        signature: table.signature,
    }
}

// Returns the tables of an image.
fn image_tables_of(alloc: Global, tables: &[Located]) -> Result<Vec<ImageTable>, Refused>
    ensures ok { IfOk result (λ found. found.items ≡ map image_table tables.now) }
    ensures err { IfErr result (λ refused. refused ≡ by_memory) }
{
    let mut found = Vec::with_capacity(alloc, tables.len())?;
    'tables: for table in tables {
        found.push(image_table(table))?;
    }
    Ok(found)
}

// Returns the tables in memory.
fn found(alloc: Global, ranges: &[Range<'_>], rsdp: u64) -> Result<Vec<ImageTable>, Refused>
    ensures { IsOutcome (AreTablesOf (memory_of ranges.now) rsdp) (HasNoTables (memory_of ranges.now) rsdp)
        (seen (λ found. found.items) result) }
{
    match tables_of(alloc, ranges, rsdp) {
        Ok(tables) => image_tables_of(alloc, &tables),
        Err(error) => Err(Refused::from(error)),
    }
}

/// Writes the tables in memory to `out`, in the order in which they are found: the RSDP, the XSDT, its entries in order, the FACS
/// if there is one, and the DSDT. They are checked as by `check_memory`. `size` is how many there are. Returns 0, or the number
/// of a fault, and `place` is the address of the table where it is. If `out` has space for fewer, the fault is `Buffer`, and
/// nothing is written to `out`. With any other fault `size` is 0.
pub fn memory_tables(
    alloc: Global,
    ranges: &[Range<'_>],
    rsdp: u64,
    out: &mut [ImageTable],
    size: &mut usize,
    place: &mut u64,
) -> u32
    ensures { Gives (AreTablesOf (memory_of ranges.now) rsdp) (HasNoTables (memory_of ranges.now) rsdp) out.old out.new result
        place.new size.new }
{
    give(found(alloc, ranges, rsdp), out, size, place)
}

/// Writes the tables of an image to `out`, as `memory_tables` those in memory. The bytes begin at the physical address `base`.
pub fn image_tables(
    alloc: Global,
    bytes: &[u8],
    base: u64,
    rsdp: u64,
    out: &mut [ImageTable],
    size: &mut usize,
    place: &mut u64,
) -> u32
    ensures { Gives (AreImageTables bytes.now base rsdp) (IsImageRefusal bytes.now base rsdp) out.old out.new result place.new
        size.new }
{
    let range = Range {
        address: base,
        bytes,
    };
    memory_tables(alloc, &[range], rsdp, out, size, place)
}
