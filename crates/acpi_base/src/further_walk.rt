//! Walks of tables beyond those of the Rust crate.

ghost use Rattle.std.specs.Prelude.{◌≡◌, ◌↔◌, ◌≤◌, length, IsTrue, IfSome};
ghost use Rattle.acpi_base.specs.Walk.{IsSound};
ghost use Rattle.acpi_base.specs.FurtherWalk.{begin_of, full_walk_of, further_walk_of, table_walk_of, walk_from};
ghost use Rattle.acpi_base.specs.FurtherWalk.{HasNone, IsSoundFurther};

use crate::walk::Place::{self, Byte, DWord, Nowhere, Word};
use crate::walk::Sizes::{ByType, EachOf, ToldAt};
use crate::walk::{Types, Walk, find_row, walk_of};

/// How the structures of a further table are found. If the walk has a field for the offset of the first, they begin there.
#[derive(Clone, Copy, Debug)]
pub struct FurtherWalk {
    /// The walk of the newest revision.
    pub walk: Walk,
    /// The least offset of a structure: the size of the fixed part in the oldest revision. A GTDT of revision 2 has 96 bytes.
    pub least: usize,
}

// The walks of the further tables that have structures, by signature.
#[rattlefmt::skip]
const FURTHER_WALKS: [([u8; 4], FurtherWalk); 32] = [
    (*b"GTDT", FurtherWalk {
        walk: Walk { start: 104, sizes: ToldAt(Word(1)), kind: Byte(0), count: DWord(88), first: DWord(92) },
        least: 96,
    }),
    (*b"IORT", FurtherWalk {
        walk: Walk { start: 48, sizes: ToldAt(Word(1)), kind: Byte(0), count: DWord(36), first: DWord(40) },
        least: 48,
    }),
    (*b"DBG2", FurtherWalk {
        walk: Walk { start: 44, sizes: ToldAt(Word(1)), kind: Nowhere, count: DWord(40), first: DWord(36) },
        least: 44,
    }),
    (*b"RSDT", FurtherWalk {
        walk: Walk { start: 36, sizes: EachOf(4), kind: Nowhere, count: Nowhere, first: Nowhere },
        least: 36,
    }),
    (*b"FPDT", FurtherWalk {
        walk: Walk { start: 36, sizes: ToldAt(Byte(2)), kind: Word(0), count: Nowhere, first: Nowhere },
        least: 36,
    }),
    (*b"SLIC", FurtherWalk {
        walk: Walk { start: 36, sizes: ToldAt(DWord(4)), kind: DWord(0), count: Nowhere, first: Nowhere },
        least: 36,
    }),
    (*b"SVKL", FurtherWalk {
        walk: Walk { start: 40, sizes: EachOf(16), kind: Nowhere, count: DWord(36), first: Nowhere },
        least: 40,
    }),
    (*b"SDEV", FurtherWalk {
        walk: Walk { start: 36, sizes: ToldAt(Word(2)), kind: Byte(0), count: Nowhere, first: Nowhere },
        least: 36,
    }),
    (*b"PRMT", FurtherWalk {
        walk: Walk { start: 60, sizes: ToldAt(Word(2)), kind: Nowhere, count: DWord(56), first: DWord(52) },
        least: 60,
    }),
    (*b"ERST", FurtherWalk {
        walk: Walk { start: 48, sizes: EachOf(32), kind: Nowhere, count: DWord(44), first: Nowhere },
        least: 48,
    }),
    (*b"EINJ", FurtherWalk {
        walk: Walk { start: 48, sizes: EachOf(32), kind: Nowhere, count: DWord(44), first: Nowhere },
        least: 48,
    }),
    (*b"CPEP", FurtherWalk {
        walk: Walk { start: 44, sizes: ToldAt(Byte(1)), kind: Byte(0), count: Nowhere, first: Nowhere },
        least: 44,
    }),
    (*b"RAS2", FurtherWalk {
        walk: Walk { start: 40, sizes: EachOf(8), kind: Nowhere, count: Word(38), first: Nowhere },
        least: 40,
    }),
    (*b"AEST", FurtherWalk {
        walk: Walk { start: 36, sizes: ToldAt(Word(1)), kind: Byte(0), count: Nowhere, first: Nowhere },
        least: 36,
    }),
    (*b"PHAT", FurtherWalk {
        walk: Walk { start: 36, sizes: ToldAt(Word(2)), kind: Word(0), count: Nowhere, first: Nowhere },
        least: 36,
    }),
    (*b"PDTT", FurtherWalk {
        walk: Walk { start: 44, sizes: EachOf(2), kind: Nowhere, count: Byte(36), first: DWord(40) },
        least: 44,
    }),
    (*b"WDAT", FurtherWalk {
        walk: Walk { start: 68, sizes: EachOf(24), kind: Nowhere, count: DWord(64), first: Nowhere },
        least: 68,
    }),
    (*b"DMAR", FurtherWalk {
        walk: Walk { start: 48, sizes: ToldAt(Word(2)), kind: Word(0), count: Nowhere, first: Nowhere },
        least: 48,
    }),
    (*b"IVRS", FurtherWalk {
        walk: Walk { start: 48, sizes: ToldAt(Word(2)), kind: Byte(0), count: Nowhere, first: Nowhere },
        least: 48,
    }),
    (*b"NFIT", FurtherWalk {
        walk: Walk { start: 40, sizes: ToldAt(Word(2)), kind: Word(0), count: Nowhere, first: Nowhere },
        least: 40,
    }),
    (*b"PCCT", FurtherWalk {
        walk: Walk { start: 48, sizes: ToldAt(Byte(1)), kind: Byte(0), count: Nowhere, first: Nowhere },
        least: 48,
    }),
    (*b"LPIT", FurtherWalk {
        walk: Walk { start: 36, sizes: ToldAt(DWord(4)), kind: DWord(0), count: Nowhere, first: Nowhere },
        least: 36,
    }),
    (*b"MSCT", FurtherWalk {
        walk: Walk { start: 56, sizes: ToldAt(Byte(1)), kind: Nowhere, count: Nowhere, first: DWord(36) },
        least: 56,
    }),
    (*b"PMTT", FurtherWalk {
        walk: Walk { start: 40, sizes: ToldAt(Word(2)), kind: Byte(0), count: Nowhere, first: Nowhere },
        least: 40,
    }),
    (*b"MPAM", FurtherWalk {
        walk: Walk { start: 36, sizes: ToldAt(Word(0)), kind: Nowhere, count: Nowhere, first: Nowhere },
        least: 36,
    }),
    (*b"APMT", FurtherWalk {
        walk: Walk { start: 36, sizes: ToldAt(Word(0)), kind: Nowhere, count: Nowhere, first: Nowhere },
        least: 36,
    }),
    (*b"CSRT", FurtherWalk {
        walk: Walk { start: 36, sizes: ToldAt(DWord(0)), kind: Nowhere, count: Nowhere, first: Nowhere },
        least: 36,
    }),
    (*b"ASF!", FurtherWalk {
        walk: Walk { start: 36, sizes: ToldAt(Word(2)), kind: Byte(0), count: Nowhere, first: Nowhere },
        least: 36,
    }),
    (*b"ASPT", FurtherWalk {
        walk: Walk { start: 40, sizes: ToldAt(Word(2)), kind: Word(0), count: DWord(36), first: Nowhere },
        least: 40,
    }),
    (*b"IOVT", FurtherWalk {
        walk: Walk { start: 48, sizes: ToldAt(Word(2)), kind: Word(0), count: Word(36), first: Word(38) },
        least: 48,
    }),
    (*b"MRRM", FurtherWalk {
        walk: Walk { start: 64, sizes: ToldAt(Word(2)), kind: Word(0), count: Nowhere, first: Nowhere },
        least: 64,
    }),
    (*b"SWFT", FurtherWalk {
        walk: Walk { start: 36, sizes: ToldAt(DWord(8)), kind: Nowhere, count: Nowhere, first: Nowhere },
        least: 36,
    }),
];

// HEST with all error sources.
const FULL_HEST: Walk = Walk {
    start: 40,
    sizes: ByType(Word(0), Types::AllSources),
    kind: Word(0),
    count: DWord(36),
    first: Nowhere,
};

/// The walk of the tables of a signature, if they are tables of the Rust crate that have structures, with the structures that the
/// crate doesn't write. Only the HEST has such ones that its own walk doesn't find. The signature is a number, lowest byte first.
pub fn full_walk_of(signature: u32) -> Option<Walk>
    ensures walk { result ≡ full_walk_of signature }
    ensures sound { IfSome result IsSound }
{
    if signature == u32::from_le_bytes(*b"HEST") {
        Some(FULL_HEST)
    } else {
        walk_of(signature)
    }
}

/// The walk of the further tables of a signature, if they have structures. The signature is a number, lowest byte first.
pub fn further_walk_of(signature: u32) -> Option<FurtherWalk>
    ensures walk { result ≡ further_walk_of signature }
    ensures sound { IfSome result IsSoundFurther }
{
    find_row(signature, &FURTHER_WALKS)
}

/// The walk of the tables of a signature, of the Rust crate or further ones, if they have structures.
pub fn table_walk_of(signature: u32) -> Option<Walk>
    ensures { result ≡ table_walk_of signature }
{
    match full_walk_of(signature) {
        Some(walk) => Some(walk),
        None => match further_walk_of(signature) {
            Some(further) => Some(further.walk),
            None => None,
        },
    }
}

impl FurtherWalk {
    /// Where the structures of a table begin.
    pub fn begin(self, bytes: &[u8]) -> usize
        requires sound { IsSoundFurther self }
        requires reached { self.least ≤ length bytes.now }
        ensures { result ≡ begin_of self.walk bytes.now }
    {
        match self.walk.first {
            Place::Nowhere => self.walk.start,
            place => place.number(bytes),
        }
    }

    /// Whether these are the bytes of a table without structures that contains 0 as the offset of the first.
    pub fn has_none(self, bytes: &[u8]) -> bool
        requires { IsSoundFurther self }
        ensures { IsTrue result ↔ HasNone self bytes.now }
    {
        let size = bytes.len();
        self.walk.first.end() > 0
            && (size == self.least || size == self.walk.start)
            && self.walk.count.tells(bytes, 0)
            && self.walk.first.number(bytes) == 0
    }

    /// The walk from another start.
    pub fn walk_from(self, start: usize) -> Walk
        requires sound { IsSoundFurther self }
        requires later { self.least ≤ start }
        ensures walk { result ≡ walk_from start self.walk }
        ensures sound { IsSound result }
    {
        Walk { start, ..self.walk }
    }
}
