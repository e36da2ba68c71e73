//! The three files for a loader.

ghost use Rattle.std.specs.Prelude.{◌≡◌, ◌+◌, ◌≤◌, length, take, drop, map, IfOk, IfErr};
ghost use Rattle.acpi_layout.specs.Files.{IsLaid};
ghost use Rattle.acpi_loader.specs.Loader.{unsummed_tables, unsummed_rsdp, IsSmallImage, IsLoader, IsLoaderFault};

use crate::fault::LoaderFault;
use crate::places::places_of;
use crate::script::script_of;
use acpi_base::patch::write_at;
use acpi_layout::files::lay_files;
use acpi_layout::lay_fault::LayFault;
use acpi_layout::layout::Image;
use std::alloc::{AllocError, Global};

/// The files that QEMU hands to firmware.
#[derive(Debug, Drop)]
pub struct Loader {
    /// `etc/acpi/tables`: all tables but the RSDP. Where an address belongs, it has an offset from its own first byte.
    pub tables: Vec<u8>,
    /// `etc/acpi/rsdp`: the RSDP, with such an offset of the XSDT.
    pub rsdp: Vec<u8>,
    /// `etc/table-loader`: the commands that make addresses of the offsets, and set the checksums.
    pub script: Vec<u8>,
}

// Returns the tables before the RSDP at an offset. The checksums of the FADT and of the XSDT at these offsets are 0.
fn tables_of(
    alloc: Global,
    bytes: &[u8],
    rsdp: usize,
    fadt: usize,
    xsdt: usize,
) -> Result<Vec<u8>, AllocError>
    requires rsdp { rsdp ≤ length bytes.now }
    requires fadt { fadt + 10 ≤ rsdp }
    requires xsdt { xsdt + 10 ≤ rsdp }
    ensures { IfOk result (λ file. file.items ≡ unsummed_tables fadt xsdt (take rsdp bytes.now)) }
{
    let mut file = Vec::from_slice(alloc, &bytes[..rsdp])?;
    write_at(&mut file, xsdt + 9, &[0]);
    write_at(&mut file, fadt + 9, &[0]);
    Ok(file)
}

// Returns the RSDP at an offset, which ends the bytes. Both checksums are 0.
fn rsdp_of(alloc: Global, bytes: &[u8], rsdp: usize) -> Result<Vec<u8>, AllocError>
    requires { rsdp + 36 ≤ length bytes.now }
    ensures { IfOk result (λ file. file.items ≡ unsummed_rsdp (drop rsdp bytes.now)) }
{
    let mut file = Vec::from_slice(alloc, &bytes[rsdp..])?;
    write_at(&mut file, 32, &[0]);
    write_at(&mut file, 8, &[0]);
    Ok(file)
}

// Returns the loader of files, which have this image for the address 0.
fn loader_for(alloc: Global, files: &[Vec<u8>], image: &Image) -> Result<Loader, AllocError>
    requires { IsSmallImage (map (λ file. file.items) files.now) image.now }
    ensures { IfOk result (IsLoader (map (λ file. file.items) files.now)) }
{
    let places = places_of(files, image);
    let bytes = image.bytes.as_slice();
    let at = image.rsdp as usize;
    let tables = tables_of(alloc, bytes, at, places.fadt as usize, places.xsdt as usize)?;
    let rsdp = rsdp_of(alloc, bytes, at)?;
    let script = script_of(alloc, &places)?;
    Ok(Loader {
        tables,
        rsdp,
        script,
    })
}

// Returns the loader of files, which have this image for the address 0, if it isn't too large.
fn loader_of_image(alloc: Global, files: &[Vec<u8>], image: &Image) -> Result<Loader, LoaderFault>
    requires { IsLaid 0 (map (λ file. file.items) files.now) image.now }
    ensures ok { IfOk result (IsLoader (map (λ file. file.items) files.now)) }
    ensures err { IfErr result (IsLoaderFault (map (λ file. file.items) files.now)) }
{
    if image.bytes.len() > u32::MAX as usize {
        return Err(LoaderFault::TooLarge);
    }
    match loader_for(alloc, files, image) {
        Ok(loader) => Ok(loader),
        Err(_) => Err(LoaderFault::NotLaid(LayFault::Memory)),
    }
}

/// Returns the files that QEMU hands to firmware, which takes memory for the tables and does the commands. The tables are those
/// of `lay_files` for the address 0, without their RSDP, which is a file of its own. The checksums of the FADT, of the XSDT and
/// of the RSDP are 0. A file is what its first four bytes say, as for `lay_files`.
///
/// The error is that of `lay_files` for the address 0, or `TooLarge`.
pub fn loader_of(alloc: Global, files: &[Vec<u8>]) -> Result<Loader, LoaderFault>
    ensures ok { IfOk result (IsLoader (map (λ file. file.items) files.now)) }
    ensures err { IfErr result (IsLoaderFault (map (λ file. file.items) files.now)) }
{
    match lay_files(alloc, 0, files) {
        Ok(image) => loader_of_image(alloc, files, &image),
        Err(fault) => Err(LoaderFault::NotLaid(fault)),
    }
}
