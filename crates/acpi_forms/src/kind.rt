//! What bytes are by their signature.

ghost use Rattle.std.specs.Prelude.{◌≡◌, take};
ghost use Rattle.acpi_forms.specs.Kind.{is_coherent, kind_of, title_of};

use acpi_base::walk::Place;
use acpi_make::file_kind::FileKind;
use acpi_text::note::all_print;
use acpi_text::part::number_at;

// Returns the first four bytes, or fewer if there are fewer.
fn first_four(bytes: &[u8]) -> &[u8]
    ensures { result.now ≡ take 4 bytes.now }
{
    if bytes.len() < 4 { bytes } else { &bytes[..4] }
}

// Returns whether bytes are a table of coherent devices, which has no signature.
fn is_coherent(bytes: &[u8]) -> bool
    ensures { result ≡ is_coherent bytes.now }
{
    let revision = number_at(Place::Byte(4), bytes);
    !all_print(first_four(bytes))
        && (revision == 1 || revision == 2)
        && number_at(Place::Word(6), bytes) == 0
        && number_at(Place::DWord(8), bytes) == 0
}

/// Returns what bytes are by their signature. Bytes without one may be a Coherent Device Attribute Table (CDAT 1.03): the first
/// four, its length, don't all print, the revision at offset 4 is 1 or 2, and the six reserved bytes from offset 6 on are zero.
pub fn kind_of(bytes: &[u8]) -> FileKind
    ensures { result ≡ kind_of bytes.now }
{
    if bytes.starts_with(b"RSD PTR ") {
        FileKind::Rsdp
    } else if bytes.starts_with(b"FACS") {
        FileKind::Facs
    } else if bytes.starts_with(b"S3PT") {
        FileKind::S3pt
    } else if is_coherent(bytes) {
        FileKind::Cdat
    } else {
        FileKind::Table
    }
}

/// Returns what bytes are called: their first four, which are the signature, or fewer if there are fewer. A Coherent Device
/// Attribute Table, which has none, is called `CDAT`.
pub fn title_of(bytes: &[u8]) -> &[u8]
    ensures { result.now ≡ title_of bytes.now }
{
    match kind_of(bytes) {
        FileKind::Cdat => b"CDAT",
        FileKind::Table | FileKind::Rsdp | FileKind::Facs | FileKind::S3pt => first_four(bytes),
    }
}
