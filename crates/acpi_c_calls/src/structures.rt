//! The structures of a table.

ghost use Rattle.std.specs.Prelude.{◌≡◌, ◌++◌, IfOk, IfErr, OnOk, map};
ghost use Rattle.acpi_base.specs.Table.{IsTrueTable};
ghost use Rattle.acpi_read.specs.Pieces.{kind_in, structure_kind_of};
ghost use Rattle.acpi_c_calls.specs.Results.{seen, IsOutcome, Gives};
ghost use Rattle.acpi_c_calls.specs.Refused.{by_memory};
ghost use Rattle.acpi_c_calls.specs.Structures.{kind_or_none, structure, structures, AreStructures, IsStructuresRefusal};

use crate::give::give;
use crate::refused::Refused;
use acpi_read::pieces::Piece;
use acpi_read::table::Table;
use std::alloc::Global;

/// The type of a structure whose table has no types of structures.
pub const NO_KIND: usize = usize::MAX;

/// A structure of a table.
#[repr(C)]
#[derive(Clone, Copy, Debug, PartialEq, Drop)]
pub struct Structure {
    /// The offset in the table.
    pub offset: usize,
    /// The type, or `NO_KIND`.
    pub kind: usize,
    /// The number of its bytes.
    pub size: usize,
}

// Returns a type, or the number that stands for none.
fn kind_or_none(kind: Option<usize>) -> usize
    ensures { result ≡ kind_or_none kind }
{
    match kind {
        Some(kind) => kind,
        None => NO_KIND,
    }
}

// Returns a structure of a table.
fn structure_of(table: &Table, piece: &Piece<'_>) -> Structure
    ensures { result ≡ structure (structure_kind_of table.now) piece.entry.now.offset piece.entry.now.bytes.now }
{
    Structure {
        offset: piece.offset,
        kind: kind_or_none(piece.kind(table)),
        size: piece.bytes.len(),
    }
}

// Returns the structures of a table that has these pieces.
fn structures_of(
    alloc: Global,
    table: &Table,
    pieces: &[Piece<'_>],
) -> Result<Vec<Structure>, Refused>
    ensures ok { IfOk result (λ found. found.items
        ≡ structures (structure_kind_of table.now) (map (λ p. p.offset) pieces.now) (map (λ p. p.bytes.now) pieces.now)) }
    ensures err { IfErr result (λ refused. refused ≡ by_memory) }
{
    let mut found = Vec::with_capacity(alloc, pieces.len())?;
    'pieces: for piece in pieces {
        found.push(structure_of(table, piece))?;
    }
    Ok(found)
}

// Returns the structures of the table that bytes are.
fn found(alloc: Global, bytes: &[u8]) -> Result<Vec<Structure>, Refused>
    ensures { IsOutcome (AreStructures bytes.now) (IsStructuresRefusal bytes.now) (seen (λ found. found.items) result) }
{
    let table = Table::check(bytes)?;
    let pieces = table.structures(alloc)?;
    structures_of(alloc, &table, &pieces)
}

/// Writes the structures of a table to `out`, in order: the offset, the type and the size of each. `size` is how many there
/// are. Returns 0, or the number of a fault, whose offset is `place`. If `out` has space for fewer, the fault is `Buffer`, and
/// nothing is written to `out`. With any other fault `size` is 0.
pub fn table_structures(
    alloc: Global,
    bytes: &[u8],
    out: &mut [Structure],
    size: &mut usize,
    place: &mut u64,
) -> u32
    ensures { Gives (AreStructures bytes.now) (IsStructuresRefusal bytes.now) out.old out.new result place.new size.new }
{
    give(found(alloc, bytes), out, size, place)
}
