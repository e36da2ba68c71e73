//! Comparing tables with expected bytes, and checking that they sum to zero.

ghost use Rattle.std.specs.Prelude.{◌≡◌, ◌+◌, ◌*◌, ◌%◌, ◌^◌, ◌<◌, ◌≤◌, ◌++◌, All, IfOk, None, OnOk};
ghost use Rattle.std.specs.Prelude.{fold, length, map, sum};
ghost use Rattle.std.specs.List.{concat, flat_map, repeat};
ghost use Rattle.acpi_base.specs.Bytes.{complement, put};
ghost use Rattle.acpi_base.specs.Object.{Built};
ghost use Rattle.acpi_base.specs.Sdt.{sealed};
ghost use Rattle.acpi_base.specs.Table.{IsTrueTable, with_checksum};
ghost use Rattle.acpi_base.specs.Walk.{offsets_from};
ghost use Rattle.test_support.specs.Expected.{AreAt, ReadsBack, expected};

use crate::compare::{equal, same};
use crate::object::{writes, written};
use acpi_base::error::{Error, R};
use acpi_base::object::{Aml, u8sum};
use acpi_base::patch::write_at;
use acpi_read::pieces::Piece;
use acpi_read::table::Table;
use std::alloc::Global;
use std::test::Fail;

// Fails unless bytes have these at an offset.
fn have(bytes: &[u8], offset: usize, wanted: &[u8]) -> Result<(), Fail>
    ensures { OnOk result (AreAt offset wanted.now bytes.now) }
{
    let behind = bytes.get(offset..).unwrap_or(&[]);
    same(behind.get(..wanted.len()).unwrap_or(behind), wanted)
}

// Fails unless bytes have those of each row at its offset.
fn have_each(bytes: &[u8], rows: &[(usize, &[u8])]) -> Result<(), Fail>
    ensures { OnOk result (All (λ row. AreAt row.0 row.1.now bytes.now) rows.now) }
{
    for (offset, wanted) in rows {
        have(bytes, *offset, *wanted)?;
    }
    Ok(())
}

// Fails unless all bytes of a table sum to zero.
fn sums_to_zero(table: &dyn Aml) -> Result<(), Fail>
    ensures whole { OnOk result ((object table.now).end ≡ None) }
    ensures sums { OnOk result (sum (object table.now).front % 256 ≡ 0) }
{
    match u8sum(table)? {
        0 => Ok(()),
        sum => Err(Fail::new(format_args!("the sum is {sum}"))),
    }
}

/// Fails unless a table has these bytes at an offset, and all of its bytes sum to zero.
pub fn stands(alloc: Global, table: &dyn Aml, offset: usize, wanted: &[u8]) -> Result<(), Fail>
    ensures whole { OnOk result ((object table.now).end ≡ None) }
    ensures sums { OnOk result (sum (object table.now).front % 256 ≡ 0) }
    ensures at { OnOk result (AreAt offset wanted.now (object table.now).front) }
{
    have(&written(alloc, table)?, offset, wanted)?;
    sums_to_zero(table)
}

/// Fails unless a table has the bytes of each row at its offset, and all of its bytes sum to zero.
pub fn all_stand(alloc: Global, table: &dyn Aml, rows: &[(usize, &[u8])]) -> Result<(), Fail>
    ensures whole { OnOk result ((object table.now).end ≡ None) }
    ensures sums { OnOk result (sum (object table.now).front % 256 ≡ 0) }
    ensures at { OnOk result (All (λ row. AreAt row.0 row.1.now (object table.now).front) rows.now) }
{
    have_each(&written(alloc, table)?, rows)?;
    sums_to_zero(table)?;
    Ok(())
}

// The byte that makes the sum of these zero.
fn checksum_of(bytes: &[u8]) -> u8
    ensures { result ≡ complement (sum bytes.now) }
{
    let mut checksum = 0u8;
    for byte in bytes {
        checksum = checksum.wrapping_sub(*byte);
    }
    checksum
}

// Sets a table's checksum.
fn seal(table: &mut [u8])
    requires { 9 < length table.old }
    ensures { table.new ≡ with_checksum table.old }
{
    write_at(table, 9, &[0]);
    let checksum = checksum_of(table);
    write_at(table, 9, &[checksum]);
}

/// Sets a table's length and its checksum. It changes nothing if there are fewer than ten bytes.
pub fn mend(table: &mut [u8])
    ensures short { length table.old ≤ 9 → table.new ≡ table.old }
    ensures mended { 9 < length table.old → length table.old < 2 ^ 32 → table.new ≡ sealed table.old }
{
    let length = u32::try_from(table.len()).unwrap_or(0);
    if table.len() > 9 {
        write_at(table, 4, &length.to_le_bytes());
        seal(table);
    }
}

/// Lists of bytes, joined.
pub fn joined(alloc: Global, parts: &[&[u8]]) -> R<Vec<u8>>
    ensures { IfOk result (λ bytes. bytes.items ≡ flat_map (λ part. part.now) parts.now) }
{
    let mut bytes = Vec::new(alloc);
    for part in parts {
        bytes.extend_from_slice(*part)?;
    }
    Ok(bytes)
}

// The length of a table with these bytes after its header.
fn length_with(body: &[u8]) -> R<u32>
    ensures { IfOk result (λ size. size ≡ 36 + length body.now) }
{
    let Ok(size) = u32::try_from(body.len()) else {
        return Err(Error::FieldWidth);
    };
    match size.checked_add(36) {
        Some(size) => Ok(size),
        None => Err(Error::FieldWidth),
    }
}

/// A table of these parts after the standard header, with the right length and checksum. The error is `FieldWidth` if its length
/// doesn't fit 32 bits.
pub fn table(alloc: Global, signature: &[u8; 4], revision: u8, parts: &[&[u8]]) -> R<Vec<u8>>
    ensures { IfOk result (λ bytes.
        bytes.items ≡ expected signature.now revision (flat_map (λ part. part.now) parts.now)) }
{
    let body = joined(alloc, parts)?;
    let size = length_with(&body)?.to_le_bytes();
    let makers = b"FOOBARCAFEDEAD\xef\xbe\xad\xdeRVAT\0\0\0\x01";
    let mut bytes = joined(alloc, &[signature, &size, &[revision, 0], makers, &body])?;
    seal(&mut bytes);
    Ok(bytes)
}

// Writes a part over the bytes at an offset. It fails if they end before the part does.
fn put_part(bytes: &mut Vec<u8>, at: usize, part: &[u8]) -> Result<(), Fail>
    ensures over { OnOk result (bytes.new.items ≡ put at part.now bytes.old.items) }
    ensures length { OnOk result (length bytes.new.items ≡ length bytes.old.items) }
{
    if at > bytes.len() || part.len() > bytes.len() - at {
        return Err(Fail::new(format_args!("no room at {at}")));
    }
    write_at(bytes, at, part);
    Ok(())
}

// The bytes before, with these parts at their offsets and a new checksum.
fn with_parts(alloc: Global, before: &[u8], parts: &[(usize, &[u8])]) -> Result<Vec<u8>, Fail>
    ensures parts { IfOk result (λ bytes.
        bytes.items ≡ with_checksum (fold (λ bytes row. put row.0 row.1.now bytes) before.now parts.now)) }
    ensures length { IfOk result (λ bytes. length bytes.items ≡ length before.now) }
{
    let mut bytes = Vec::from_slice(alloc, before)?;
    for (at, part) in parts {
        put_part(&mut bytes, *at, *part)?;
    }
    if bytes.len() < 36 {
        return Err(Fail::new("no header"));
    }
    seal(&mut bytes);
    Ok(bytes)
}

/// Fails unless a table has the bytes before, with these parts at their offsets and a new checksum.
pub fn patched(
    alloc: Global,
    table: &dyn Aml,
    before: &[u8],
    parts: &[(usize, &[u8])],
) -> Result<(), Fail>
    ensures built { OnOk result (Built (object table.now)
        (with_checksum (fold (λ bytes row. put row.0 row.1.now bytes) before.now parts.now))) }
    ensures whole { OnOk result ((object table.now).end ≡ None) }
    ensures length { OnOk result (length (object table.now).front ≡ length before.now) }
{
    writes(alloc, table, &with_parts(alloc, before, parts)?)
}

// Copies of bytes, one after another.
fn copies(alloc: Global, bytes: &[u8], count: u32) -> R<Vec<u8>>
    ensures { IfOk result (λ all. all.items ≡ repeat count bytes.now) }
{
    Ok(bytes.repeat(alloc, count as usize)?)
}

// A table of fixed fields and of this many copies of a structure.
fn table_of_many(
    alloc: Global,
    signature: &[u8; 4],
    revision: u8,
    fixed: &[u8],
    structure: &[u8],
    count: u32,
) -> R<Vec<u8>>
    ensures { IfOk result (λ bytes.
        bytes.items ≡ expected signature.now revision (fixed.now ++ repeat count structure.now)) }
{
    let all = copies(alloc, structure, count)?;
    table(alloc, signature, revision, &[fixed, &all])
}

/// Fails unless a table of this many equal structures is its header, its fixed fields and these structures, with the right
/// checksum.
pub fn many(
    alloc: Global,
    aml: &dyn Aml,
    signature: &[u8; 4],
    revision: u8,
    fixed: &[u8],
    structure: &[u8],
    count: u32,
) -> Result<(), Fail>
    ensures { OnOk result
        (Built (object aml.now) (expected signature.now revision (fixed.now ++ repeat count structure.now))) }
{
    let wanted = table_of_many(alloc, signature, revision, fixed, structure, count)?;
    writes(alloc, aml, &wanted)
}

/// Fails unless a table has this many structures of this size from an offset on. `found` is the number of its bytes and that of
/// its structures.
pub fn is_sized(found: (usize, u32), start: usize, size: usize, wanted: u16) -> Result<(), Fail>
    ensures bytes { OnOk result (found.0 ≡ start + size * wanted) }
    ensures count { OnOk result (found.1 ≡ wanted) }
{
    let Some(all) = size.checked_mul(usize::from(wanted)) else {
        return Err(Fail::new("too many bytes"));
    };
    let Some(end) = start.checked_add(all) else {
        return Err(Fail::new("too many bytes"));
    };
    let (bytes, count) = found;
    equal(&bytes, &end)?;
    equal(&count, &u32::from(wanted))
}

// Fails unless each piece has this size.
fn are_sized(pieces: &[Piece<'_>], size: usize) -> Result<(), Fail>
    ensures { OnOk result (All (λ piece. length piece.bytes.now ≡ size) pieces.now) }
{
    for piece in pieces {
        equal(&piece.bytes.len(), &size)?;
    }
    Ok(())
}

// Fails unless pieces follow each other from an offset on.
fn are_placed(pieces: &[Piece<'_>], start: usize) -> Result<(), Fail>
    ensures { OnOk result
        (offsets_from start (map (λ piece. piece.bytes.now) pieces.now) ≡ map (λ piece. piece.offset) pieces.now) }
{
    let mut at = start;
    for piece in pieces {
        equal(&piece.offset, &at)?;
        let Some(next) = at.checked_add(piece.bytes.len()) else {
            return Err(Fail::new("too many bytes"));
        };
        at = next;
    }
    Ok(())
}

// The bytes of pieces, joined.
fn bytes_of_pieces(alloc: Global, pieces: &[Piece<'_>]) -> R<Vec<u8>>
    ensures { IfOk result (λ bytes. bytes.items ≡ concat (map (λ piece. piece.bytes.now) pieces.now)) }
{
    let mut bytes = Vec::new(alloc);
    for piece in pieces {
        bytes.extend_from_slice(piece.bytes)?;
    }
    Ok(bytes)
}

// Fails unless pieces have this size each, follow each other from an offset on, and are these bytes.
fn are_structures(
    alloc: Global,
    pieces: &[Piece<'_>],
    start: usize,
    size: usize,
    structures: &[u8],
) -> Result<(), Fail>
    ensures sized { OnOk result (All (λ piece. length piece.bytes.now ≡ size) pieces.now) }
    ensures placed { OnOk result
        (offsets_from start (map (λ piece. piece.bytes.now) pieces.now) ≡ map (λ piece. piece.offset) pieces.now) }
    ensures joined { OnOk result (concat (map (λ piece. piece.bytes.now) pieces.now) ≡ structures.now) }
{
    are_sized(pieces, size)?;
    are_placed(pieces, start)?;
    same(&bytes_of_pieces(alloc, pieces)?, structures)
}

// Fails unless bytes are a table that is read back into these structures.
fn bytes_read_back(
    alloc: Global,
    bytes: &[u8],
    start: usize,
    size: usize,
    structures: &[u8],
) -> Result<(), Fail>
    ensures correct { OnOk result (IsTrueTable bytes.now) }
    ensures read { OnOk result (ReadsBack start size structures.now bytes.now) }
{
    let table = Table::check(bytes)?;
    let pieces = table.structures(alloc)?;
    are_structures(alloc, &pieces, start, size, structures)?;
    Ok(())
}

/// Fails unless a table is read back into these structures, which have this size each and follow each other from an offset on.
pub fn reads_back(
    alloc: Global,
    table: &dyn Aml,
    start: usize,
    size: usize,
    structures: &[u8],
) -> Result<(), Fail>
    ensures correct { OnOk result (IsTrueTable (object table.now).front) }
    ensures read { OnOk result (ReadsBack start size structures.now (object table.now).front) }
{
    let bytes = written(alloc, table)?;
    bytes_read_back(alloc, &bytes, start, size, structures)
}
