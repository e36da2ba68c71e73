//! The tables at addresses of 32 bits, with an RSDT.

ghost use Rattle.std.specs.Prelude.{◌≡◌, ◌≢◌, ◌%◌, ◌+◌, ◌*◌, ◌<◌, ◌≤◌, ◌^◌, [], ◌∷◌, length, map, None, Some, OnOk, IfOk};
ghost use Rattle.std.specs.Prelude.{IfErr};
ghost use Rattle.std.specs.Option.{option_map};
ghost use Rattle.acpi_base.specs.Object.{Object};
ghost use Rattle.acpi_fixed.specs.Facs.{facs_bytes};
ghost use Rattle.acpi_layout.specs.Image.{reduced};
ghost use Rattle.acpi_layout.specs.Rsdt.{low_laid, low_listing, with_rsdt, low_pointer, are_low, is_apart, place_fault};
ghost use Rattle.acpi_layout.specs.Rsdt.{LaysLow};

use crate::layout::place_control;
use crate::place::{begin, low_address, pad, place_all};
use crate::rsdt_fault::RsdtFault;
use acpi_base::buffer::append_value;
use acpi_base::error::{Error, R};
use acpi_base::object::Aml;
use acpi_base::oem::Oem;
use acpi_base::row::Record;
use acpi_base::sdt::Sdt;
use acpi_fixed::facs::FACS;
use acpi_fixed::fadt::{FADTBuilder, Flags};
use acpi_fixed::rsdp::Rsdp0;
use acpi_pc::rsdt::RSDT;
use std::alloc::Global;

/// The tables of a guest below 4 GiB, and the RSDP that leads to them.
#[derive(Drop)]
pub struct RsdtImage {
    /// All bytes of the tables, from the base on.
    pub bytes: Vec<u8>,
    /// The bytes of the RSDP (ACPI 6.5, 5.2.5.3), from its own address on.
    pub pointer: [u8; 20],
}

// The FACS at base, if there is one, the DSDT after it, and the FADT that points to both.
fn begin_low(
    base: u32,
    facs: Option<FACS>,
    sdt: &Sdt,
    fadt: FADTBuilder,
    bytes: &mut Vec<u8>,
    places: &mut Vec<u64>,
) -> R<()>
    requires new { (bytes.old.items ≡ []) × (places.old.items ≡ []) }
    ensures ok { OnOk result (record { bytes = bytes.new.items; places = places.new.items }
        ≡ low_laid base (option_map facs_bytes facs) sdt.now.bytes fadt []) }
    ensures err { IfErr result (λ e. e ≡ Error.Memory) }
{
    let control = place_control(base as u64, facs, bytes)?;
    let dsdt = low_address(base, bytes.len() as u64);
    append_value(sdt, bytes)?;
    begin(bytes, places)?;
    append_value(
        &fadt
            .firmware_ctrl_32(low_address(0, control))
            .dsdt_32(dsdt)
            .finalize(),
        bytes,
    )?;
    Ok(())
}

// An RSDT of the tables at these places.
fn list_low(alloc: Global, base: u32, oem: Oem, places: &[u64]) -> R<RSDT>
    ensures ok { IfOk result (λ rsdt. rsdt.table.table ≡ low_listing base oem places.now) }
    ensures fits { OnOk result (36 + 4 * length places.now < 2 ^ 32) }
    ensures err { IfErr result (λ e. e ≢ Error.Memory → (e ≡ Error.FieldWidth) × (2 ^ 32 ≤ 36 + 4 * length places.now)) }
{
    let mut table = RSDT::new(alloc, oem.id, oem.table_id, oem.revision);
    for place in places {
        table.add_entry(low_address(base, *place))?;
    }
    Ok(table)
}

// The RSDT behind the tables. Returns the RSDP.
fn finish_low(
    alloc: Global,
    base: u32,
    oem: Oem,
    bytes: &mut Vec<u8>,
    places: &[u64],
) -> R<[u8; 20]>
    ensures ok { OnOk result (bytes.new.items
        ≡ with_rsdt base oem (record { bytes = bytes.old.items; places = places.now })) }
    ensures pointer { IfOk result (λ pointer. pointer
        ≡ low_pointer base oem (record { bytes = bytes.old.items; places = places.now })) }
    ensures err { IfErr result (λ e. e ≢ Error.Memory → 2 ^ 32 ≤ 36 + 4 * length places.now) }
{
    let rsdt = list_low(alloc, base, oem, places)?;
    pad(bytes, 8)?;
    let rsdt_addr = low_address(base, bytes.len() as u64);
    append_value(&rsdt, bytes)?;
    Ok(Rsdp0::new(oem.id, rsdt_addr).bytes())
}

// Whether this many bytes from base on, and the RSDP, are below 4 GiB.
fn are_low(base: u32, rsdp: u32, size: usize) -> bool
    ensures { result ≡ are_low base rsdp size }
{
    size as u64 <= 0x1_0000_0000 - u64::from(base) && u64::from(rsdp) + 20 <= 0x1_0000_0000
}

// Whether the RSDP is apart from this many bytes from base on.
fn is_apart(base: u32, rsdp: u32, size: usize) -> bool
    requires low { base + size ≤ 2 ^ 32 }
    ensures { result ≡ is_apart base rsdp size }
{
    u64::from(rsdp) + 20 <= u64::from(base) || u64::from(base) + size as u64 <= u64::from(rsdp)
}

// The fault of the places of this many bytes and of the RSDP.
fn check_places(base: u32, rsdp: u32, size: usize) -> Result<(), RsdtFault>
    ensures ok { OnOk result (place_fault (are_low base rsdp size) (is_apart base rsdp size) ≡ None) }
    ensures err { IfErr result (λ e. place_fault (are_low base rsdp size) (is_apart base rsdp size) ≡ Some e) }
{
    if !are_low(base, rsdp, size) {
        return Err(RsdtFault::NotLow);
    }
    if !is_apart(base, rsdp, size) {
        return Err(RsdtFault::Overlap);
    }
    Ok(())
}

// Returns the fault of an error of writing the RSDT.
fn fault_of(error: Error) -> RsdtFault
    ensures { result ≢ RsdtFault.Table Error.Memory → (result ≡ RsdtFault.NotLow) × (error ≢ Error.Memory) }
{
    if error == Error::Memory {
        RsdtFault::Table(error)
    } else {
        RsdtFault::NotLow
    }
}

// Lays the tables of a guest, with a FACS or without one.
fn lay_low(
    base: u32,
    rsdp: u32,
    oem: Oem,
    facs: Option<FACS>,
    sdt: &Sdt,
    fadt: FADTBuilder,
    tables: Vec<&dyn Aml>,
) -> Result<RsdtImage, RsdtFault>
    ensures { LaysLow result base rsdp oem (option_map facs_bytes facs) sdt.now.bytes fadt
        (map (λ table. object table.now) tables.entry.items) }
{
    let alloc = *tables.allocator();
    let mut bytes = Vec::new(alloc);
    let mut places = Vec::new(alloc);
    begin_low(base, facs, sdt, fadt, &mut bytes, &mut places)?;
    place_all(&tables, &mut bytes, &mut places)?;
    let pointer = match finish_low(alloc, base, oem, &mut bytes, &places) {
        Ok(pointer) => pointer,
        Err(error) => return Err(fault_of(error)),
    };
    check_places(base, rsdp, bytes.len())?;
    Ok(RsdtImage { bytes, pointer })
}

/// Lays the tables of a guest for an operating system that reads an RSDT (ACPI 6.5, 5.2.7), or for firmware without addresses
/// of 64 bits. The image is for the physical address `base`, a multiple of 64, and has the FACS, the DSDT `sdt`, the FADT and the
/// tables as `lay` has them. The RSDT of the FADT and the tables, in order, is at the next multiple of 8, and is the last table.
/// The FADT has the addresses in its fields of 32 bits, FIRMWARE_CTRL and DSDT, and those of 64 bits are 0. The RSDP has
/// revision 0, and isn't in the image: its bytes are for the physical address `rsdp`, a multiple of 16. A guest without EFI
/// looks for it from 0xe0000 on (5.2.5.1).
///
/// The fault is that of the first table that has one. Otherwise it is `NotLow` if the address of a byte of the image or of the
/// RSDP isn't below 4 GiB. Otherwise it is `Overlap` if the RSDP overlaps the image.
pub fn lay_rsdt(
    base: u32,
    rsdp: u32,
    oem_id: [u8; 6],
    oem_table_id: [u8; 8],
    oem_revision: u32,
    sdt: &Sdt,
    facs: &FACS,
    fadt: FADTBuilder,
    tables: Vec<&dyn Aml>,
) -> Result<RsdtImage, RsdtFault>
    requires base { base % 64 ≡ 0 }
    requires rsdp { rsdp % 16 ≡ 0 }
    ensures { LaysLow result base rsdp (record { id = oem_id; table_id = oem_table_id; revision = oem_revision })
        (Some (facs_bytes facs.now)) sdt.now.bytes fadt (map (λ table. object table.now) tables.entry.items) }
{
    let oem = Oem {
        id: oem_id,
        table_id: oem_table_id,
        revision: oem_revision,
    };
    lay_low(base, rsdp, oem, Some(*facs), sdt, fadt, tables)
}

/// Lays the tables of a hardware-reduced machine, which needs no FACS (ACPI 6.5, 5.2.9), as `lay_rsdt` does. The image has no
/// FACS: the DSDT is at `base`. In the FADT the flag HW_REDUCED_ACPI is set, and FIRMWARE_CTRL is 0.
///
/// The faults are those of `lay_rsdt`.
pub fn lay_reduced_rsdt(
    base: u32,
    rsdp: u32,
    oem_id: [u8; 6],
    oem_table_id: [u8; 8],
    oem_revision: u32,
    sdt: &Sdt,
    fadt: FADTBuilder,
    tables: Vec<&dyn Aml>,
) -> Result<RsdtImage, RsdtFault>
    requires base { base % 64 ≡ 0 }
    requires rsdp { rsdp % 16 ≡ 0 }
    ensures { LaysLow result base rsdp (record { id = oem_id; table_id = oem_table_id; revision = oem_revision })
        None sdt.now.bytes (reduced fadt) (map (λ table. object table.now) tables.entry.items) }
{
    let oem = Oem {
        id: oem_id,
        table_id: oem_table_id,
        revision: oem_revision,
    };
    let fadt = fadt.flag(Flags::HwReducedAcpi);
    lay_low(base, rsdp, oem, None, sdt, fadt, tables)
}
