//! Images of tables.

ghost use Rattle.std.specs.Prelude.{◌≡◌, length, map, IfOk, IfErr};
ghost use Rattle.acpi_c_calls.specs.Lay.{first_table, AreTables, AreNoTables, fault_of_lay, place_of_lay};
ghost use Rattle.acpi_c_calls.specs.Lay.{IsImageFor, IsLayRefusal};
ghost use Rattle.acpi_c_calls.specs.Results.{Gives};

use crate::fault::Fault;
use crate::give::{put, refuse};
use crate::refused::Refused;
use acpi_layout::files::lay_files;
use acpi_layout::lay_fault::LayFault;
use acpi_layout::layout::Image;
use acpi_read::bytes::dword_at;
use std::alloc::Global;

// The size of the table at the front of bytes, by its length at offset 4, if it is there as a whole.
pub(crate) fn first_table(bytes: &[u8]) -> Option<usize>
    ensures { result ≡ first_table bytes.now }
{
    if bytes.len() < 8 {
        return None;
    }
    let size = dword_at(bytes, 4) as usize;
    if size < 8 || size > bytes.len() {
        return None;
    }
    Some(size)
}

// Returns the tables that lie one after another, each as long as it says.
fn tables_in(alloc: Global, bytes: &[u8]) -> Result<Vec<Vec<u8>>, Refused>
    ensures ok { IfOk result (λ tables. AreTables bytes.now (map (λ table. table.items) tables.items)) }
    ensures err { IfErr result (AreNoTables bytes.now) }
{
    let mut tables = Vec::new(alloc);
    let mut rest = bytes;
    'tables: while !rest.is_empty() {
        let Some(size) = first_table(rest) else {
            return Err(Refused {
                fault: Fault::TableLength,
                place: tables.len() as u64,
            });
        };
        let (table, more) = rest.split_at(size);
        tables.push(Vec::from_slice(alloc, table)?)?;
        rest = more;
    }
    Ok(tables)
}

fn fault_of(error: LayFault) -> Fault
    ensures { result ≡ fault_of_lay error }
{
    match error {
        LayFault::Memory => Fault::Memory,
        LayFault::Base => Fault::LayBase,
        LayFault::Second(_) => Fault::LaySecond,
        LayFault::NoFadt => Fault::LayNoFadt,
        LayFault::NoDsdt => Fault::LayNoDsdt,
        LayFault::NoFacs => Fault::LayNoFacs,
        LayFault::ShortFadt => Fault::LayShortFadt,
        LayFault::NoSpace => Fault::LayNoSpace,
    }
}

fn place_of(error: LayFault) -> u64
    ensures { result ≡ place_of_lay error }
{
    match error {
        LayFault::Second(index) => index as u64,
        _ => 0,
    }
}

// Lays tables that lie one after another.
fn laid(alloc: Global, base: u64, bytes: &[u8]) -> Result<Image, Refused>
    ensures ok { IfOk result (λ image. IsImageFor bytes.now base image.rsdp image.bytes.items) }
    ensures err { IfErr result (IsLayRefusal bytes.now base 0) }
{
    let tables = tables_in(alloc, bytes)?;
    match lay_files(alloc, base, &tables) {
        Ok(image) => Ok(image),
        Err(error) => Err(Refused {
            fault: fault_of(error),
            place: place_of(error),
        }),
    }
}

/// Lays tables into one image for the physical address `base`, a multiple of 64. They lie one after another in `tables`, each as
/// long as the number at its offset 4 says (ACPI 6.5, 5.2.6), also a FACS. One is the DSDT, one the FADT, and one the FACS, which
/// may be missing on a hardware-reduced machine. The image gets a new XSDT and a new RSDP. It is written to `out`, `size` is
/// the number of its bytes, and `rsdp` the address of its RSDP.
///
/// Returns 0, or the number of a fault. With `TableLength` and `LaySecond` `place` is which table it is, counted from 0. If `out`
/// has space for fewer bytes, the fault is `Buffer`, and nothing is written to `out`. With any other fault `size` and `rsdp` are
/// 0.
pub fn lay(
    alloc: Global,
    tables: &[u8],
    base: u64,
    out: &mut [u8],
    size: &mut usize,
    rsdp: &mut u64,
    place: &mut u64,
) -> u32
    ensures { Gives (IsImageFor tables.now base rsdp.new) (IsLayRefusal tables.now base rsdp.new)
        out.old out.new result place.new size.new }
{
    match laid(alloc, base, tables) {
        Ok(image) => {
            *rsdp = image.rsdp;
            put(&image.bytes, out, size, place)
        }
        Err(refused) => {
            *rsdp = 0;
            refuse(refused, out, size, place)
        }
    }
}
