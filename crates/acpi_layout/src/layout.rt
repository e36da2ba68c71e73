//! The tables at their addresses.

ghost use Rattle.std.specs.Prelude.{◌≡◌, ◌≢◌, ℕ, ◌%◌, ◌+◌, ◌*◌, ◌<◌, ◌≤◌, ◌^◌, List, [], ◌∷◌, length, map, OnOk, IfOk};
ghost use Rattle.std.specs.Prelude.{IfErr, None, Some};
ghost use Rattle.std.specs.Option.{option_map};
ghost use Rattle.acpi_base.specs.Object.{Object};
ghost use Rattle.acpi_fixed.specs.Facs.{facs_bytes};
ghost use Rattle.acpi_layout.specs.Image.{control_bytes, control_address, reduced, tables_laid, listing, with_pointer};
ghost use Rattle.acpi_layout.specs.Found.{AreListed};
ghost use Rattle.acpi_layout.specs.Fault.{IsListFault};
ghost use Rattle.acpi_layout.specs.Lays.{Lays};

use crate::fault::ImageFault;
use crate::found::listed;
use crate::place::{address, begin, pad, place_all};
use crate::range::Range;
use acpi_base::buffer::append_value;
use acpi_base::error::{Error, R};
use acpi_base::object::Aml;
use acpi_base::oem::Oem;
use acpi_base::sdt::Sdt;
use acpi_fixed::facs::FACS;
use acpi_fixed::fadt::{FADTBuilder, Flags};
use acpi_fixed::rsdp::Rsdp;
use acpi_lists::xsdt::XSDT;
use std::alloc::Global;

/// The tables of a guest in its memory.
#[derive(Drop)]
pub struct Image {
    /// All bytes, from the base on.
    pub bytes: Vec<u8>,
    /// The physical address of the RSDP (ACPI 6.5, 5.2.5), from which the other tables are found.
    pub rsdp: u64,
}

impl Image {
    /// Returns the physical addresses that the XSDT of an image for `base` lists, in order: that of the FADT, and that of each
    /// table. They are read from the bytes of the RSDP and of the XSDT to which it points. The tables themselves aren't read.
    ///
    /// The error is a fault of the RSDP or of the XSDT, as `check_image` returns it, or `Memory`.
    pub fn addresses(&self, alloc: Global, base: u64) -> Result<Vec<u64>, ImageFault>
        ensures ok { IfOk result (λ addresses. AreListed base self.now.bytes.items self.now.rsdp addresses.items) }
        ensures err { IfErr result (λ e. e ≢ ImageFault.Memory → (addresses : List ℕ)
            → ¬ AreListed base self.now.bytes.items self.now.rsdp addresses) }
        ensures fault { IfErr result (λ e. e ≢ ImageFault.Memory → IsListFault self.now.bytes.items base self.now.rsdp e) }
    {
        let range = Range {
            address: base,
            bytes: &self.bytes,
        };
        listed(alloc, &[range], self.rsdp)
    }
}

// The FACS at base, if there is one. Returns its address, or 0.
pub(crate) fn place_control(base: u64, facs: Option<FACS>, bytes: &mut Vec<u8>) -> R<u64>
    requires { bytes.old.items ≡ [] }
    ensures address { IfOk result (λ address. address ≡ control_address base (option_map facs_bytes facs)) }
    ensures bytes { OnOk result (bytes.new.items ≡ control_bytes (option_map facs_bytes facs)) }
    ensures err { IfErr result (λ e. e ≡ Error.Memory) }
{
    match facs {
        Some(facs) => {
            append_value(&facs, bytes)?;
            Ok(base)
        }
        None => Ok(0),
    }
}

// The FACS at base, if there is one, the DSDT after it, and the FADT that points to both.
fn begin_image(
    base: u64,
    facs: Option<FACS>,
    sdt: &Sdt,
    fadt: FADTBuilder,
    bytes: &mut Vec<u8>,
    places: &mut Vec<u64>,
) -> R<()>
    requires new { (bytes.old.items ≡ []) × (places.old.items ≡ []) }
    ensures ok { OnOk result (record { bytes = bytes.new.items; places = places.new.items }
        ≡ tables_laid base (option_map facs_bytes facs) sdt.now.bytes fadt []) }
    ensures err { IfErr result (λ e. e ≡ Error.Memory) }
{
    let control = place_control(base, facs, bytes)?;
    let dsdt = address(base, bytes.len() as u64);
    append_value(sdt, bytes)?;
    begin(bytes, places)?;
    append_value(
        &fadt.firmware_ctrl_64(control).dsdt_64(dsdt).finalize(),
        bytes,
    )?;
    Ok(())
}

// An XSDT of the tables at these places.
fn list(alloc: Global, base: u64, oem: Oem, places: &[u64]) -> R<XSDT>
    ensures ok { IfOk result (λ xsdt. xsdt.table.table ≡ listing base oem places.now) }
    ensures fits { OnOk result (36 + 8 * length places.now < 2 ^ 32) }
    ensures err { IfErr result (λ e. e ≢ Error.Memory → (e ≡ Error.FieldWidth) × (2 ^ 32 ≤ 36 + 8 * length places.now)) }
{
    let mut table = XSDT::new(alloc, oem.id, oem.table_id, oem.revision);
    for place in places {
        table.add_entry(address(base, *place))?;
    }
    Ok(table)
}

// The XSDT and the RSDP behind the tables. Where the RSDP is.
pub(crate) fn finish(
    alloc: Global,
    base: u64,
    oem: Oem,
    bytes: &mut Vec<u8>,
    places: &[u64],
) -> R<u64>
    ensures ok { OnOk result (bytes.new.items
        ≡ (with_pointer base oem (record { bytes = bytes.old.items; places = places.now })).bytes) }
    ensures rsdp { IfOk result (λ rsdp. base + length bytes.new.items ≤ 2 ^ 64
        → rsdp ≡ (with_pointer base oem (record { bytes = bytes.old.items; places = places.now })).rsdp) }
    ensures some { OnOk result (1 ≤ length bytes.new.items) }
    ensures fits { OnOk result (36 + 8 * length places.now < 2 ^ 32) }
    ensures err { IfErr result (λ e. e ≢ Error.Memory → (e ≡ Error.FieldWidth) × (2 ^ 32 ≤ 36 + 8 * length places.now)) }
{
    let xsdt = list(alloc, base, oem, places)?;
    pad(bytes, 8)?;
    let xsdt_addr = address(base, bytes.len() as u64);
    append_value(&xsdt, bytes)?;
    pad(bytes, 16)?;
    let rsdp = address(base, bytes.len() as u64);
    append_value(&Rsdp::new(oem.id, xsdt_addr), bytes)?;
    Ok(rsdp)
}

// Lays the tables of a guest, with a FACS or without one.
fn lay_all(
    base: u64,
    oem: Oem,
    facs: Option<FACS>,
    sdt: &Sdt,
    fadt: FADTBuilder,
    tables: Vec<&dyn Aml>,
) -> R<Image>
    ensures { Lays result base oem (option_map facs_bytes facs) sdt.now.bytes fadt
        (map (λ table. object table.now) tables.entry.items) }
{
    let alloc = *tables.allocator();
    let mut bytes = Vec::new(alloc);
    let mut places = Vec::new(alloc);
    begin_image(base, facs, sdt, fadt, &mut bytes, &mut places)?;
    place_all(&tables, &mut bytes, &mut places)?;
    let rsdp = finish(alloc, base, oem, &mut bytes, &places)?;
    if bytes.len() as u64 - 1 > u64::MAX - base {
        return Err(Error::FieldWidth);
    }
    Ok(Image { bytes, rsdp })
}

/// Lays the tables of a guest into one image, which is for the physical address `base`, a multiple of 64. The FACS is there, the
/// DSDT `sdt` is after it, and then the FADT and the tables are at multiples of 8. An XSDT (ACPI 6.5, 5.2.8) of the FADT and the
/// tables, in order, is at the next multiple of 8, and the RSDP (5.2.5) at the next multiple of 16. Gaps are zero. The FADT has
/// the addresses in its fields of 64 bits.
///
/// The error is that of the first table that has one. Otherwise it is `FieldWidth` if the address of a byte would be more than
/// 2^64 - 1, or the XSDT's length would reach 2^32.
pub fn lay(
    base: u64,
    oem_id: [u8; 6],
    oem_table_id: [u8; 8],
    oem_revision: u32,
    sdt: &Sdt,
    facs: &FACS,
    fadt: FADTBuilder,
    tables: Vec<&dyn Aml>,
) -> R<Image>
    requires base { base % 64 ≡ 0 }
    ensures { Lays result base (record { id = oem_id; table_id = oem_table_id; revision = oem_revision })
        (Some (facs_bytes facs.now)) sdt.now.bytes fadt (map (λ table. object table.now) tables.entry.items) }
{
    let oem = Oem {
        id: oem_id,
        table_id: oem_table_id,
        revision: oem_revision,
    };
    lay_all(base, oem, Some(*facs), sdt, fadt, tables)
}

/// Lays the tables of a hardware-reduced machine, which needs no FACS (ACPI 6.5, 5.2.9), as `lay` does. The image has no FACS:
/// the DSDT is at `base`. In the FADT the flag HW_REDUCED_ACPI is set, and X_FIRMWARE_CTRL is 0.
///
/// The errors are those of `lay`.
pub fn lay_reduced(
    base: u64,
    oem_id: [u8; 6],
    oem_table_id: [u8; 8],
    oem_revision: u32,
    sdt: &Sdt,
    fadt: FADTBuilder,
    tables: Vec<&dyn Aml>,
) -> R<Image>
    requires base { base % 64 ≡ 0 }
    ensures { Lays result base (record { id = oem_id; table_id = oem_table_id; revision = oem_revision })
        None sdt.now.bytes (reduced fadt) (map (λ table. object table.now) tables.entry.items) }
{
    let oem = Oem {
        id: oem_id,
        table_id: oem_table_id,
        revision: oem_revision,
    };
    let fadt = fadt.flag(Flags::HwReducedAcpi);
    lay_all(base, oem, None, sdt, fadt, tables)
}
