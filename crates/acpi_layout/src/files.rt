//! The image of tables in files.

ghost use Rattle.std.specs.Prelude.{◌≡◌, ◌≢◌, ◌≤◌, ℕ, [], ◌∷◌, length, map, true, false};
ghost use Rattle.std.specs.Prelude.{IfOk, IfErr, OnOk};
ghost use Rattle.std.specs.Option.{option_map};
ghost use Rattle.acpi_layout.specs.Files.{named, is_other, others, if_some, pointing, oem_of, files_laid, files_image};
ghost use Rattle.acpi_layout.specs.Files.{IsLaid, IsSecond, IsLayFault};
ghost use Rattle.acpi_layout.specs.Image.{all_placed, control_bytes, control_address, has_place};

use crate::found::is_reduced;
use crate::lay_fault::LayFault;
use crate::layout::{Image, finish};
use crate::place::{address, begin};
use acpi_base::error::{Error, R};
use acpi_base::header::seal;
use acpi_base::oem::Oem;
use acpi_base::patch::write_at;
use acpi_read::bytes::dword_at;
use std::alloc::{AllocError, Global};

// Returns the only file that begins with a signature, or none.
fn only<'a>(signature: &[u8; 4], files: &'a [Vec<u8>]) -> Result<Option<&'a [u8]>, LayFault>
    ensures ok { IfOk result (λ found. named signature.now (map (λ file. file.items) files.now)
        ≡ if_some (option_map (λ file. file.now) found)) }
    ensures err { IfErr result (λ e. (i : ℕ) × (e ≡ LayFault.Second i)
        × IsSecond signature.now i (map (λ file. file.items) files.now)) }
{
    let mut found: Option<&[u8]> = None;
    'files: for (index, file) in files.iter().enumerate() {
        if file.starts_with(signature) {
            if found.is_some() {
                return Err(LayFault::Second(index));
            }
            found = Some(file.as_slice());
        }
    }
    Ok(found)
}

// Returns whether a file is a table that the XSDT lists besides the FADT.
fn is_other(file: &[u8]) -> bool
    ensures { result ≡ is_other file.now }
{
    !(file.starts_with(b"FACS")
        || file.starts_with(b"DSDT")
        || file.starts_with(b"FACP")
        || file.starts_with(b"RSD ")
        || file.starts_with(b"RSDT")
        || file.starts_with(b"XSDT"))
}

// Returns these tables, in order.
fn others<'a>(alloc: Global, files: &'a [Vec<u8>]) -> Result<Vec<&'a [u8]>, AllocError>
    ensures { IfOk result (λ tables. map (λ table. table.now) tables.items
        ≡ others (map (λ file. file.items) files.now)) }
{
    let mut tables: Vec<&[u8]> = Vec::new(alloc);
    'files: for file in files {
        if is_other(file) {
            tables.push(file.as_slice())?;
        }
    }
    Ok(tables)
}

// Returns the maker of a FADT.
fn oem_of(fadt: &[u8]) -> Oem
    requires { 36 ≤ length fadt.now }
    ensures { result ≡ oem_of fadt.now }
{
    let mut id = [0; 6];
    id.copy_from_slice(&fadt[10..16]);
    let mut table_id = [0; 8];
    table_id.copy_from_slice(&fadt[16..24]);
    Oem::new(id, table_id, dword_at(fadt, 24))
}

// Returns a FADT with the addresses of the FACS and of the DSDT.
fn pointing(alloc: Global, facs_at: u64, dsdt_at: u64, fadt: &[u8]) -> Result<Vec<u8>, AllocError>
    requires { 148 ≤ length fadt.now }
    ensures { IfOk result (λ bytes. bytes.items ≡ pointing facs_at dsdt_at fadt.now) }
{
    let mut bytes = Vec::from_slice(alloc, fadt)?;
    write_at(&mut bytes, 36, &[0; 8]);
    write_at(&mut bytes, 132, &facs_at.to_le_bytes());
    write_at(&mut bytes, 140, &dsdt_at.to_le_bytes());
    seal(&mut bytes);
    Ok(bytes)
}

// Adds the FACS at base, if there is one. Returns its address, or 0.
fn place_facs(base: u64, facs: Option<&[u8]>, bytes: &mut Vec<u8>) -> R<u64>
    requires { bytes.old.items ≡ [] }
    ensures address { IfOk result (λ address. address ≡ control_address base (option_map (λ facs. facs.now) facs.entry)) }
    ensures bytes { OnOk result (bytes.new.items ≡ control_bytes (option_map (λ facs. facs.now) facs.entry)) }
    ensures err { IfErr result (λ e. e ≡ Error.Memory) }
{
    match facs {
        Some(facs) => {
            bytes.extend_from_slice(facs)?;
            Ok(base)
        }
        None => Ok(0),
    }
}

// Adds a table at the next multiple of 8.
fn place_file(table: &[u8], bytes: &mut Vec<u8>, places: &mut Vec<u64>) -> R<()>
    ensures ok { OnOk result (record { bytes = bytes.new.items; places = places.new.items }
        ≡ all_placed (table.now ∷ []) (record { bytes = bytes.old.items; places = places.old.items })) }
    ensures err { IfErr result (λ e. e ≡ Error.Memory) }
{
    begin(bytes, places)?;
    bytes.extend_from_slice(table)?;
    Ok(())
}

// Adds tables at multiples of 8, one after another.
fn place_files(tables: &[&[u8]], bytes: &mut Vec<u8>, places: &mut Vec<u64>) -> R<()>
    ensures ok { OnOk result (record { bytes = bytes.new.items; places = places.new.items }
        ≡ all_placed (map (λ table. table.now) tables.now)
        (record { bytes = bytes.old.items; places = places.old.items })) }
    ensures err { IfErr result (λ e. e ≡ Error.Memory) }
{
    'tables: for table in tables {
        place_file(table, bytes, places)?;
    }
    Ok(())
}

// Adds the FACS at base, if there is one, the DSDT after it, and the FADT that points to both.
fn begin_files(
    base: u64,
    facs: Option<&[u8]>,
    dsdt: &[u8],
    fadt: &[u8],
    bytes: &mut Vec<u8>,
    places: &mut Vec<u64>,
) -> R<()>
    requires new { (bytes.old.items ≡ []) × (places.old.items ≡ []) }
    requires fadt { 148 ≤ length fadt.now }
    ensures ok { OnOk result (record { bytes = bytes.new.items; places = places.new.items }
        ≡ files_laid base (option_map (λ facs. facs.now) facs.entry) dsdt.now fadt.now []) }
    ensures err { IfErr result (λ e. e ≡ Error.Memory) }
{
    let facs_at = place_facs(base, facs, bytes)?;
    let dsdt_at = address(base, bytes.len() as u64);
    bytes.extend_from_slice(dsdt)?;
    let pointing = pointing(*bytes.allocator(), facs_at, dsdt_at, fadt)?;
    place_file(&pointing, bytes, places)
}

// Lays the FACS, the DSDT, the FADT and other tables.
fn lay_tables(
    alloc: Global,
    base: u64,
    facs: Option<&[u8]>,
    dsdt: &[u8],
    fadt: &[u8],
    tables: &[&[u8]],
) -> R<Image>
    requires { 148 ≤ length fadt.now }
    ensures bytes { IfOk result (λ image. image.bytes.items ≡ (files_image base (option_map (λ facs. facs.now) facs.entry)
        dsdt.now fadt.now (map (λ table. table.now) tables.now)).bytes) }
    ensures rsdp { IfOk result (λ image. image.rsdp ≡ (files_image base (option_map (λ facs. facs.now) facs.entry)
        dsdt.now fadt.now (map (λ table. table.now) tables.now)).rsdp) }
    ensures fits { OnOk result (has_place base (files_image base (option_map (λ facs. facs.now) facs.entry)
        dsdt.now fadt.now (map (λ table. table.now) tables.now)) (length (map (λ table. table.now) tables.now)) ≡ true) }
    ensures err { IfErr result (λ e. e ≢ Error.Memory
        → has_place base (files_image base (option_map (λ facs. facs.now) facs.entry)
        dsdt.now fadt.now (map (λ table. table.now) tables.now)) (length (map (λ table. table.now) tables.now)) ≡ false) }
{
    let mut bytes = Vec::new(alloc);
    let mut places = Vec::new(alloc);
    begin_files(base, facs, dsdt, fadt, &mut bytes, &mut places)?;
    place_files(tables, &mut bytes, &mut places)?;
    let rsdp = finish(alloc, base, oem_of(fadt), &mut bytes, &places)?;
    if bytes.len() as u64 - 1 > u64::MAX - base {
        return Err(Error::FieldWidth);
    }
    Ok(Image { bytes, rsdp })
}

// Returns the fault of an error of laying tables.
fn fault_of(error: Error) -> LayFault
    ensures { result ≢ LayFault.Memory → (result ≡ LayFault.NoSpace) × (error ≢ Error.Memory) }
{
    if error == Error::Memory {
        LayFault::Memory
    } else {
        LayFault::NoSpace
    }
}

/// Lays the tables in files into one image, which is for the physical address `base`, a multiple of 64, as `lay` does it. A file
/// is what its first four bytes say. One is the FADT (ACPI 6.5, 5.2.9), and one the DSDT. A FACS may be missing only if the FADT
/// has the flag HW_REDUCED_ACPI. The XSDT lists the FADT and all other files in order, but for those that are an RSDP, an RSDT or
/// an XSDT, since the image has its own.
///
/// The FADT has the addresses of the FACS and the DSDT in its fields of 64 bits, and zeros in those of 32 bits. Its checksum is
/// worked out. The XSDT and the RSDP have the FADT's OEM ID, and the XSDT its OEM Table ID and OEM Revision. No other byte of a
/// file is changed, and none is checked.
pub fn lay_files(alloc: Global, base: u64, files: &[Vec<u8>]) -> Result<Image, LayFault>
    ensures ok { IfOk result (IsLaid base (map (λ file. file.items) files.now)) }
    ensures err { IfErr result (λ e. e ≢ LayFault.Memory → IsLayFault base (map (λ file. file.items) files.now) e) }
{
    if base % 64 != 0 {
        return Err(LayFault::Base);
    }
    let facs = only(b"FACS", files)?;
    let Some(dsdt) = only(b"DSDT", files)? else {
        return Err(LayFault::NoDsdt);
    };
    let Some(fadt) = only(b"FACP", files)? else {
        return Err(LayFault::NoFadt);
    };
    if fadt.len() < 148 {
        return Err(LayFault::ShortFadt);
    }
    if facs.is_none() && !is_reduced(dword_at(fadt, 112)) {
        return Err(LayFault::NoFacs);
    }
    let tables = others(alloc, files)?;
    match lay_tables(alloc, base, facs, dsdt, fadt, &tables) {
        Ok(image) => Ok(image),
        Err(error) => Err(fault_of(error)),
    }
}
