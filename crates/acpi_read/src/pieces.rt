//! The structures of a table, found by their lengths.

ghost use Rattle.std.specs.Prelude.{◌≡◌, ℕ, ◌+◌, ◌≤◌, List, length, take, drop, map, Some, None, IfOk, IfErr};
ghost use Rattle.std.specs.List.{All};
ghost use Rattle.acpi_base.specs.Bytes.{field_at};
ghost use Rattle.acpi_base.specs.Walk.{end_of, rows_of, type_size, offsets_from, HasSizes, IsSound, Walks, ArePiecesOf};
ghost use Rattle.acpi_base.specs.declared.walk.Sizes.TheVariants.{ByType};
ghost use Rattle.acpi_base.specs.FurtherWalk.{begin_of, AreStructuresOf, FollowsBy, IsSoundFurther};
ghost use Rattle.acpi_read.specs.Pieces.{kind_in, kind_of, structure_kind_of, refusal_of, IsFront, IsFrontFault};
ghost use Rattle.acpi_read.specs.Pieces.{AreCut, IsCutFault};
ghost use Rattle.acpi_read.specs.Pieces.{offsets_of, structure_offsets_of, IsFaultBy, IsPieceFault, IsStructureFault};
ghost use Rattle.acpi_read.specs.Pieces.{NoWalk, NoneFollow};

use crate::table::Table;
use acpi_base::further_walk::{FurtherWalk, full_walk_of, further_walk_of, table_walk_of};
use acpi_base::walk::{Place, Sizes, Types, Walk, walk_of};
use acpi_term::read_error::ReadError;
use std::alloc::Global;

/// A structure of a table: its offset in the table, and its bytes, which are borrowed.
#[derive(Clone, Copy)]
pub struct Piece<'a> {
    pub offset: usize,
    pub bytes: &'a [u8],
}

impl<'a> Piece<'a> {
    /// The structure's type. It is `None` if the structures of this table have no types, as the entries of an XSDT, or if the
    /// bytes end before the type. The bytes that `Table::structures` returns contain the type.
    pub fn kind(&self, table: &Table) -> Option<usize>
        ensures { result ≡ kind_in (structure_kind_of table.now) self.entry.now.bytes.now }
    {
        match structure_kind_of(table) {
            Place::Nowhere => None,
            place if place.end() <= self.bytes.len() => Some(place.number(self.bytes)),
            _ => None,
        }
    }
}

// Why the type of a structure decides no length.
fn type_fault(rest: &[u8], kind: Place, types: Types, at: usize) -> ReadError
    requires { type_size kind (rows_of types) rest.now ≡ None }
    ensures { IsFrontFault (refusal_of result) (ByType kind types) at rest.now }
{
    if rest.len() >= kind.end() && types.find(kind.number(rest)).is_none() {
        ReadError::UnknownSource(at)
    } else {
        ReadError::Structure(at)
    }
}

// The length of the piece at the front of bytes, which stand at an offset of the table.
fn front_size(rest: &[u8], sizes: Sizes, at: usize) -> Result<usize, ReadError>
    ensures ok { IfOk result (λ n. IsFront sizes n rest.now) }
    ensures err { IfErr result (λ e. IsFrontFault (refusal_of e) sizes at rest.now) }
{
    let size = match sizes {
        Sizes::EachOf(size) => usize::from(size),
        Sizes::ToldAt(place) => {
            if rest.len() < place.end() {
                return Err(ReadError::Structure(at));
            }
            let size = place.number(rest);
            if size < place.end() {
                return Err(ReadError::Structure(at));
            }
            size
        }
        Sizes::ByType(kind, types) => match types.size(kind, rest) {
            Some(size) => size,
            None => return Err(type_fault(rest, kind, types, at)),
        },
    };
    if size > rest.len() {
        return Err(ReadError::Structure(at));
    }
    Ok(size)
}

fn piece_at(bytes: &[u8], at: usize, size: usize) -> Piece<'_>
    requires { at + size ≤ length bytes.now }
    ensures offset { result.offset ≡ at }
    ensures bytes { result.bytes.now ≡ take size (drop at bytes.now) }
{
    Piece {
        offset: at,
        bytes: &bytes[at..at + size],
    }
}

// Cuts the bytes from `start` on into pieces.
fn cut(alloc: Global, bytes: &[u8], start: usize, sizes: Sizes) -> Result<Vec<Piece<'_>>, ReadError>
    requires start { start ≤ length bytes.now }
    requires sizes { HasSizes sizes }
    ensures ok { IfOk result (λ v. AreCut sizes start bytes.now (map (λ p. p.bytes.now) v.items) (map (λ p. p.offset) v.items)) }
    ensures err { IfErr result (λ e. IsCutFault (refusal_of e) sizes start bytes.now) }
{
    let mut pieces = Vec::new(alloc);
    let mut at = start;
    while at < bytes.len() {
        let size = front_size(&bytes[at..], sizes, at)?;
        pieces.push(piece_at(bytes, at, size))?;
        at += size;
    }
    Ok(pieces)
}

// The pieces of a table that are found by a walk.
fn walked(alloc: Global, bytes: &[u8], walk: Walk) -> Result<Vec<Piece<'_>>, ReadError>
    requires sound { IsSound walk }
    ensures walk { IfOk result (λ v. Walks walk bytes.now (map (λ p. p.bytes.now) v.items)) }
    ensures offsets { IfOk result (λ v. map (λ p. p.offset) v.items ≡ offsets_from walk.start (map (λ p. p.bytes.now) v.items)) }
    ensures err { IfErr result (λ e. IsFaultBy (refusal_of e) (Some walk) bytes.now (NoWalk walk bytes.now)) }
{
    if bytes.len() < walk.start {
        return Err(ReadError::Structure(bytes.len()));
    }
    if !walk.first.tells(bytes, walk.start) {
        return Err(ReadError::Structure(walk.first.offset()));
    }
    let pieces = cut(alloc, bytes, walk.start, walk.sizes)?;
    if !walk.count.tells(bytes, pieces.len()) {
        return Err(ReadError::Count(walk.count.offset()));
    }
    Ok(pieces)
}

// The structures of a further table, from the offset that it contains.
fn followed(alloc: Global, bytes: &[u8], further: FurtherWalk) -> Result<Vec<Piece<'_>>, ReadError>
    requires sound { IsSoundFurther further }
    ensures walk { IfOk result (λ v. FollowsBy (Some further) bytes.now (map (λ p. p.bytes.now) v.items)) }
    ensures offsets { IfOk result (λ v. map (λ p. p.offset) v.items
        ≡ offsets_from (begin_of further.walk bytes.now) (map (λ p. p.bytes.now) v.items)) }
    ensures err { IfErr result (λ e. IsFaultBy (refusal_of e) (Some further.walk) bytes.now (NoneFollow further bytes.now)) }
{
    if further.has_none(bytes) {
        return Ok(Vec::new(alloc));
    }
    if bytes.len() < further.least {
        return Err(ReadError::Structure(bytes.len()));
    }
    let begin = further.begin(bytes);
    if begin < further.least {
        return Err(ReadError::Structure(further.walk.first.offset()));
    }
    walked(alloc, bytes, further.walk_from(begin))
}

impl<'a> Table<'a> {
    /// The structures of a table of the Rust crate, in order, each with its offset. The list is empty for every other table, and
    /// for those without structures. The errors, with their offsets:
    ///
    /// - UnknownSource: an error source has a type other than 6 to 10. The offset is that of the source.
    /// - Structure: a structure is shorter than its type and length, or passes the end of the table. The offset is that of the
    ///   structure.
    /// - Structure: the field with the offset of the first structure doesn't contain 56 (RHCT) or 48 (VIOT, RIMT). The offset is
    ///   that of this field.
    /// - Structure: the table ends before its structures begin. The offset is the table's length.
    /// - Count: the table's number of structures is wrong. The offset is that of this field.
    pub fn pieces(&self, alloc: Global) -> Result<Vec<Piece<'a>>, ReadError>
        ensures walk { IfOk result (λ v. ArePiecesOf self.now (map (λ p. p.bytes.now) v.items)) }
        ensures offsets { IfOk result (λ v. map (λ p. p.offset) v.items ≡ offsets_of self.now (map (λ p. p.bytes.now) v.items)) }
        ensures err { IfErr result (λ e. IsPieceFault e self.now) }
    {
        match walk_of(signature_number(self)) {
            None => Ok(Vec::new(alloc)),
            Some(walk) => walked(alloc, self.bytes(), walk),
        }
    }

    /// The structures of any table whose structures are known, in order, each with its offset: those of `pieces`, in a HEST every
    /// error source of the standard (types 0 to 2 and 6 to 11), and those of the tables with a further walk
    /// (`acpi_base::further_walk`). The list is empty for other tables. It is also empty for a table with a further walk that
    /// ends after its fixed fields and contains 0 as the offset of the first and, if it has the field, as the number of its
    /// structures. The errors are those of `pieces`, and:
    ///
    /// - UnknownSource: an error source has a type that isn't in the standard. The offset is that of the source.
    /// - Structure: the field with the offset of the first structure contains an offset within the fixed fields. The offset is
    ///   that of this field.
    pub fn structures(&self, alloc: Global) -> Result<Vec<Piece<'a>>, ReadError>
        ensures walk { IfOk result (λ v. AreStructuresOf self.now (map (λ p. p.bytes.now) v.items)) }
        ensures offsets { IfOk result (λ v. map (λ p. p.offset) v.items
            ≡ structure_offsets_of self.now (map (λ p. p.bytes.now) v.items)) }
        ensures err { IfErr result (λ e. IsStructureFault e self.now) }
    {
        let signature = signature_number(self);
        if let Some(walk) = full_walk_of(signature) {
            return walked(alloc, self.bytes(), walk);
        }
        match further_walk_of(signature) {
            None => Ok(Vec::new(alloc)),
            Some(further) => followed(alloc, self.bytes(), further),
        }
    }
}

/// The field of a structure that contains its type, for the pieces of a table.
pub fn kind_of(table: &Table) -> Place
    ensures kind { result ≡ kind_of table.now }
    ensures reached { (pieces : List (List ℕ)) → ArePiecesOf table.now pieces
        → All (λ piece. end_of result ≤ length piece) pieces }
{
    match walk_of(signature_number(table)) {
        Some(walk) => walk.kind,
        None => Place::Nowhere,
    }
}

// The field of a structure that contains its type, for the structures of any table.
fn structure_kind_of(table: &Table) -> Place
    ensures { result ≡ structure_kind_of table.now }
{
    match table_walk_of(signature_number(table)) {
        Some(walk) => walk.kind,
        None => Place::Nowhere,
    }
}

/// Returns a table's signature as a number, lowest byte first.
pub fn signature_number(table: &Table) -> u32
    ensures { result ≡ field_at 0 4 table.now }
{
    u32::from_le_bytes(table.signature())
}
