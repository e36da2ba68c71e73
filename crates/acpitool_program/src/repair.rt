//! The length and the checksums that the bytes of a table should have.

ghost use Rattle.std.specs.Prelude.{◌≡◌, ◌+◌, ◌<◌, ◌≤◌, ◌^◌, length, Some, IfOk, MatchResult};
ghost use Rattle.acpi_forms.specs.Kind.{kind_of};
ghost use Rattle.acpitool_program.specs.Repair.{is_short_pointer, seals_as, least, with_length, with_sum, set_seal, set_seals};
ghost use Rattle.acpitool_program.specs.Repair.{is_signature_character, begins_characters, begins_signature, is_signed};
ghost use Rattle.acpitool_program.specs.Repair.{needs, need, unfit_of, unfit_as, why_unfit, repaired};
ghost use Rattle.acpitool_program.specs.Text.{IsKind};

use crate::another::{Another, another_of};
use acpi_base::patch::write_at;
use acpi_base::sum::Sum;
use acpi_forms::kind::kind_of;
use acpi_make::file_kind::FileKind;
use std::alloc::{AllocError, Global};
use std::fmt;

/// A field that depends on the other bytes of its table, at an offset.
#[derive(Clone, Copy)]
pub enum Seal {
    /// The number of all bytes, in four bytes.
    Length(u8),
    /// The byte that makes all bytes sum to zero modulo 256.
    Checksum(u8),
    /// The byte that makes the first 20 bytes do so.
    FrontChecksum(u8),
}

/// Why no length and no checksums make bytes a table. Its text is for a line after the name of the file.
#[derive(Clone, Copy)]
pub enum Unfit {
    /// They are no table.
    NoTable(Another),
    /// They are fewer than this.
    Short(usize),
    /// They are 2^32 or more, which no length can say.
    Long,
    /// They begin with no signature.
    NotSigned,
}

impl fmt::Display for Unfit {
    ghost output = { λ unfit. Some (why_unfit unfit) };

    fn fmt<W: fmt::Write>(&self, f: &mut fmt::Formatter<W>) -> fmt::Result {
        match *self {
            Unfit::NoTable(another) => write!(f, "{another}"),
            Unfit::Short(least) => write!(f, "fewer than {least} bytes"),
            Unfit::Long => write!(f, "4294967296 bytes or more"),
            Unfit::NotSigned => write!(f, "the first four bytes are no signature of a table"),
        }
    }
}

// Returns whether bytes are a pointer of revision 0 or 1, which has 20 bytes and no length (ACPI 6.5, 5.2.5.3).
fn is_short_pointer(bytes: &[u8]) -> bool
    ensures { result ≡ is_short_pointer bytes.now }
{
    bytes.len() == 20 && bytes[15] < 2
}

/// Returns the fields of bytes of a kind that depend on the other bytes, in the order in which they are set.
pub fn seals_as(kind: FileKind, bytes: &[u8]) -> &'static [Seal]
    ensures { result.now ≡ seals_as kind bytes.now }
{
    match kind {
        FileKind::Table => &[Seal::Length(4), Seal::Checksum(9)],
        FileKind::Rsdp if is_short_pointer(bytes) => &[Seal::FrontChecksum(8)],
        FileKind::Rsdp => &[Seal::Length(20), Seal::FrontChecksum(8), Seal::Checksum(32)],
        FileKind::Facs | FileKind::S3pt => &[Seal::Length(4)],
        FileKind::Cdat => &[Seal::Length(0), Seal::Checksum(5)],
    }
}

// Returns how many bytes of a kind there have to be.
fn least(kind: FileKind, bytes: &[u8]) -> usize
    ensures { result ≡ least kind bytes.now }
{
    match kind {
        FileKind::Table => 36,
        FileKind::Rsdp if is_short_pointer(bytes) => 20,
        FileKind::Rsdp => 36,
        FileKind::Facs => 64,
        FileKind::S3pt => 8,
        FileKind::Cdat => 16,
    }
}

// Returns whether a byte may stand in a signature: a capital letter, a digit or an underscore.
fn is_signature_character(byte: u8) -> bool
    ensures { result ≡ is_signature_character byte }
{
    byte.is_ascii_uppercase() || byte.is_ascii_digit() || byte == b'_'
}

// Returns whether bytes begin with four of these.
fn begins_characters(bytes: &[u8]) -> bool
    ensures { result ≡ begins_characters bytes.now }
{
    bytes.len() >= 4
        && is_signature_character(bytes[0])
        && is_signature_character(bytes[1])
        && is_signature_character(bytes[2])
        && is_signature_character(bytes[3])
}

// Returns whether bytes begin with a signature.
fn begins_signature(bytes: &[u8]) -> bool
    ensures { result ≡ begins_signature bytes.now }
{
    begins_characters(bytes) || bytes.starts_with(b"ASF!") || bytes.starts_with(b"iBFT")
}

// Returns whether bytes of a kind have a signature, or need none.
fn is_signed(kind: FileKind, bytes: &[u8]) -> bool
    ensures { result ≡ is_signed kind bytes.now }
{
    match kind {
        FileKind::Table => begins_signature(bytes),
        FileKind::Rsdp | FileKind::Facs | FileKind::S3pt | FileKind::Cdat => true,
    }
}

// Returns why no length and no checksums make bytes of a kind a table.
fn unfit_as(kind: FileKind, bytes: &[u8]) -> Option<Unfit>
    ensures { result ≡ unfit_as kind bytes.now }
{
    let least = least(kind, bytes);
    if bytes.len() < least {
        Some(Unfit::Short(least))
    } else if bytes.len() > 0xffff_ffff {
        Some(Unfit::Long)
    } else if !is_signed(kind, bytes) {
        Some(Unfit::NotSigned)
    } else {
        None
    }
}

// Returns why no length and no checksums make bytes a table.
fn unfit_of(bytes: &[u8]) -> Option<Unfit>
    ensures { result ≡ unfit_of bytes.now }
{
    match another_of(bytes) {
        Some(another) => Some(Unfit::NoTable(another)),
        None => unfit_as(kind_of(bytes), bytes),
    }
}

// Writes the number of bytes at an offset.
fn set_length(bytes: &mut [u8], at: usize)
    requires within { at + 4 ≤ length bytes.old }
    requires counted { length bytes.old < 2 ^ 32 }
    ensures { bytes.new ≡ with_length at bytes.old }
{
    let size = bytes.len() as u32;
    write_at(bytes, at, &size.to_le_bytes());
}

// Writes the byte at an offset that makes the first bytes sum to zero modulo 256.
fn set_sum(bytes: &mut [u8], at: usize, count: usize)
    requires within { at + 1 ≤ length bytes.old }
    requires some { count ≤ length bytes.old }
    ensures { bytes.new ≡ with_sum at count bytes.old }
{
    write_at(bytes, at, &[0]);
    let mut sum = Sum::new();
    sum.add(&bytes[..count]);
    write_at(bytes, at, &[sum.checksum()]);
}

// Sets a field.
fn set_seal(seal: Seal, bytes: &mut [u8])
    requires within { needs seal ≤ length bytes.old }
    requires counted { length bytes.old < 2 ^ 32 }
    ensures { bytes.new ≡ set_seal seal bytes.old }
{
    let count = bytes.len();
    match seal {
        Seal::Length(at) => set_length(bytes, usize::from(at)),
        Seal::Checksum(at) => set_sum(bytes, usize::from(at), count),
        Seal::FrontChecksum(at) => set_sum(bytes, usize::from(at), 20),
    }
}

// Sets fields in order.
fn set_seals(seals: &[Seal], bytes: &mut [u8])
    requires within { need seals.now ≤ length bytes.old }
    requires counted { length bytes.old < 2 ^ 32 }
    ensures { bytes.new ≡ set_seals seals.now bytes.old }
{
    'seals: for seal in seals {
        set_seal(*seal, bytes);
    }
}

// Sets the length and the checksums of bytes of a kind.
fn repair(kind: FileKind, bytes: &mut [u8])
    requires some { least kind bytes.old ≤ length bytes.old }
    requires counted { length bytes.old < 2 ^ 32 }
    ensures set { bytes.new ≡ set_seals (seals_as kind bytes.old) bytes.old }
    ensures is { IsKind kind bytes.new }
{
    let seals = seals_as(kind, bytes);
    set_seals(seals, bytes);
}

// Returns bytes of a kind with the right length and checksums.
fn repaired_as(alloc: Global, kind: FileKind, bytes: &[u8]) -> Result<Vec<u8>, AllocError>
    requires some { least kind bytes.now ≤ length bytes.now }
    requires counted { length bytes.now < 2 ^ 32 }
    ensures { IfOk result (λ new. (new.items ≡ set_seals (seals_as kind bytes.now) bytes.now) × IsKind kind new.items) }
{
    let mut new = Vec::from_slice(alloc, bytes)?;
    repair(kind, &mut new);
    Ok(new)
}

/// Returns bytes with the length and the checksums that make them what their signature says, or why these can't. All other bytes
/// stay as they are. The only error is that memory ran out.
pub fn repaired(alloc: Global, bytes: &[u8]) -> Result<Result<Vec<u8>, Unfit>, AllocError>
    ensures { IfOk result (λ made. MatchResult made
        (λ new. (new.items ≡ repaired bytes.now) × IsKind (kind_of bytes.now) new.items × (unfit_of bytes.now ≡ None))
        (λ why. unfit_of bytes.now ≡ Some why)) }
{
    match unfit_of(bytes) {
        Some(why) => Ok(Err(why)),
        None => Ok(Ok(repaired_as(alloc, kind_of(bytes), bytes)?)),
    }
}
