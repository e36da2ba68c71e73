//! Images read back.

ghost use Rattle.std.specs.Prelude.{◌≡◌, ◌≢◌, List, [], ◌∷◌, ◌++◌, IfOk, IfErr};
ghost use Rattle.acpi_layout.specs.declared.fault.ImageFault.TheVariants.{Memory};
ghost use Rattle.acpi_layout.specs.declared.located.Located.{Located};
ghost use Rattle.acpi_layout.specs.Addresses.{memory_of};
ghost use Rattle.acpi_layout.specs.Found.{if_found, HasTablesOf, HasTables, IsImageOf, IsImage};
ghost use Rattle.acpi_layout.specs.Fault.{HasFaultOf, HasFault, IsImageFaultOf, IsImageFault};

use crate::apart::are_apart;
use crate::fault::ImageFault;
use crate::found::{
    are_correct, control, dsdt, entries, is_correct, listing, only_fadt, pointer_to,
};
use crate::located::Located;
use crate::range::Range;
use crate::root::Root;
use std::alloc::Global;

// The tables in the order in which they are found.
fn in_order(
    alloc: Global,
    pointer: Located,
    listing: Located,
    entries: &[Located],
    facs: Option<Located>,
    dsdt: Located,
) -> Result<Vec<Located>, ImageFault>
    ensures ok { IfOk result (λ tables. tables.items
        ≡ pointer ∷ listing ∷ (entries.now ++ (if_found facs ++ (dsdt ∷ [])))) }
    ensures err { IfErr result (λ e. e ≡ Memory) }
{
    let mut tables = vec![in alloc; pointer, listing]?;
    tables.extend_from_slice(entries)?;
    if let Some(facs) = facs {
        tables.push(facs)?;
    }
    tables.push(dsdt)?;
    Ok(tables)
}

// Checks the tables in memory, which an XSDT or an RSDT lists.
fn check_memory_of(
    alloc: Global,
    root: Root,
    ranges: &[Range<'_>],
    rsdp: u64,
) -> Result<Vec<Located>, ImageFault>
    ensures ok { IfOk result (λ tables. HasTablesOf root (memory_of ranges.now) rsdp tables.items) }
    ensures err { IfErr result (λ e. e ≢ Memory → (tables : List Located)
        → ¬ HasTablesOf root (memory_of ranges.now) rsdp tables) }
    ensures fault { IfErr result (λ e. e ≢ Memory → HasFaultOf root (memory_of ranges.now) rsdp e) }
{
    let pointer = pointer_to(root, ranges, rsdp)?;
    let listing = listing(root, ranges, pointer)?;
    let entries = entries(alloc, root, ranges, listing)?;
    let fadt = only_fadt(root, listing.address, &entries)?;
    let facs = control(root, ranges, fadt)?;
    let dsdt = dsdt(root, ranges, fadt)?;
    let tables = in_order(alloc, pointer, listing, &entries, facs, dsdt)?;
    are_apart(alloc, &tables)?;
    is_correct(ranges, listing)?;
    are_correct(ranges, &entries)?;
    is_correct(ranges, dsdt)?;
    Ok(tables)
}

/// Checks the tables in memory, as an operating system finds them. The RSDP is at the address `rsdp`. The RSDP (ACPI 6.5,
/// 5.2.5.3) of revision 2 points to the XSDT (5.2.8), and its entries to the FADT and the others. X_FIRMWARE_CTRL of the FADT
/// (5.2.9) points to the FACS (5.2.10), and X_DSDT to the DSDT. Where such a field of 64 bits is 0, the field of 32 bits counts,
/// FIRMWARE_CTRL or DSDT. There is no FACS if both are 0 and the FADT's flag HW_REDUCED_ACPI is set. Each table is in one range
/// with its whole length, the first that holds its first byte. It sums to zero, except the FACS, which has no checksum. No two
/// overlap.
///
/// Firmware also has to put the RSDP at a multiple of 16 (5.2.5.1), and the FACS at a multiple of 64 (5.2.10). Both are accepted
/// at any address.
///
/// Returns the tables in the order in which they are found: the RSDP, the XSDT, its entries in order, the FACS if there is one,
/// and the DSDT. The RSDP's address of an RSDT is not read. The tables are sorted to find those that overlap, so n tables take
/// a time of n log n, and each is looked up in the ranges one after another. No byte of a table is copied.
pub fn check_memory(
    alloc: Global,
    ranges: &[Range<'_>],
    rsdp: u64,
) -> Result<Vec<Located>, ImageFault>
    ensures ok { IfOk result (λ tables. HasTables (memory_of ranges.now) rsdp tables.items) }
    ensures err { IfErr result (λ e. e ≢ Memory → (tables : List Located) → ¬ HasTables (memory_of ranges.now) rsdp tables) }
    ensures fault { IfErr result (λ e. e ≢ Memory → HasFault (memory_of ranges.now) rsdp e) }
{
    check_memory_of(alloc, Root::Xsdt, ranges, rsdp)
}

/// Checks the tables of an image, which an XSDT or an RSDT lists, as `check_memory` those of memory. The bytes begin at the
/// physical address `base`, and the RSDP is at the address `rsdp`. One of revision 0 or 1 has 20 bytes, and points to the RSDT.
/// The FADT that an RSDT lists has at least 116 bytes: where it ends before X_FIRMWARE_CTRL or X_DSDT, the field of 32 bits
/// counts.
pub fn check_image_of(
    alloc: Global,
    root: Root,
    bytes: &[u8],
    base: u64,
    rsdp: u64,
) -> Result<Vec<Located>, ImageFault>
    ensures ok { IfOk result (λ tables. IsImageOf root bytes.now base rsdp tables.items) }
    ensures err { IfErr result (λ e. e ≢ Memory → (tables : List Located) → ¬ IsImageOf root bytes.now base rsdp tables) }
    ensures fault { IfErr result (λ e. e ≢ Memory → IsImageFaultOf root bytes.now base rsdp e) }
{
    let range = Range {
        address: base,
        bytes,
    };
    check_memory_of(alloc, root, &[range], rsdp)
}

/// Checks the tables of an image, as `check_memory` those of memory. The bytes begin at the physical address `base`, and the RSDP
/// is at the address `rsdp`.
pub fn check_image(
    alloc: Global,
    bytes: &[u8],
    base: u64,
    rsdp: u64,
) -> Result<Vec<Located>, ImageFault>
    ensures ok { IfOk result (λ tables. IsImage bytes.now base rsdp tables.items) }
    ensures err { IfErr result (λ e. e ≢ Memory → (tables : List Located) → ¬ IsImage bytes.now base rsdp tables) }
    ensures fault { IfErr result (λ e. e ≢ Memory → IsImageFault bytes.now base rsdp e) }
{
    check_image_of(alloc, Root::Xsdt, bytes, base, rsdp)
}
