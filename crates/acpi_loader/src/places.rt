//! The offsets of the tables that hold addresses.

ghost use Rattle.std.specs.Prelude.{◌≡◌, ◌+◌, ◌<◌, ◌^◌, length, map};
ghost use Rattle.acpi_layout.specs.Files.{named};
ghost use Rattle.acpi_layout.specs.Image.{gap};
ghost use Rattle.acpi_loader.specs.Loader.{first_size, are_some, IsSmallImage, IsPlaced};

use acpi_layout::layout::Image;
use acpi_read::bytes::{dword_at, qword_at};

/// The tables that hold addresses. Offsets are counted from the first byte of the tables.
#[derive(Clone, Copy, Debug)]
pub struct Places {
    /// Whether the FADT points to a FACS.
    pub has_facs: bool,
    /// The offset of the FADT.
    pub fadt: u32,
    /// The number of its bytes.
    pub fadt_size: u32,
    /// The offset of the XSDT.
    pub xsdt: u32,
    /// The number of its entries.
    pub count: u32,
}

// Returns the number of bytes of the first file that begins with a signature, or 0.
fn size_of(signature: &[u8; 4], files: &[Vec<u8>]) -> usize
    ensures { result ≡ first_size (named signature.now (map (λ file. file.items) files.now)) }
{
    'files: for file in files {
        let bytes = file.as_slice();
        if bytes.starts_with(signature) {
            return bytes.len();
        }
    }
    0
}

// Returns whether a file begins with a signature.
fn has_file(signature: &[u8; 4], files: &[Vec<u8>]) -> bool
    ensures { result ≡ are_some (named signature.now (map (λ file. file.items) files.now)) }
{
    'files: for file in files {
        let bytes = file.as_slice();
        if bytes.starts_with(signature) {
            return true;
        }
    }
    false
}

// Returns the next multiple of 8.
fn next(size: usize) -> usize
    requires { size < 2 ^ 32 }
    ensures { result ≡ size + gap 8 size }
{
    size + (8 - size % 8) % 8
}

/// Returns the offsets of the tables that hold addresses, in the image of files for the address 0.
pub fn places_of(files: &[Vec<u8>], image: &Image) -> Places
    requires { IsSmallImage (map (λ file. file.items) files.now) image.now }
    ensures { IsPlaced (map (λ file. file.items) files.now) image.now result }
{
    let bytes = image.bytes.as_slice();
    let facs = size_of(b"FACS", files);
    let dsdt = size_of(b"DSDT", files);
    let fadt = size_of(b"FACP", files);
    let has_facs = has_file(b"FACS", files);
    let start = next(facs + dsdt);
    let xsdt = qword_at(bytes, image.rsdp as usize + 24) as usize;
    let size = dword_at(bytes, xsdt + 4);
    Places {
        has_facs,
        fadt: start as u32,
        fadt_size: fadt as u32,
        xsdt: xsdt as u32,
        count: (size - 36) / 8,
    }
}
