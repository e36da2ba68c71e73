//! Walks: how the structures of a table are found.

ghost use Rattle.std.specs.Prelude.{◌≡◌, ◌↔◌, ◌≤◌, length, IsTrue, IfSome, Some};
ghost use Rattle.acpi_base.specs.Walk.{find_size, has_type, rows_of, size_by, size_of, told_by, type_size};
ghost use Rattle.acpi_base.specs.Walk.{named, find_row, walk_of, number_in, place_offset, end_of};
ghost use Rattle.acpi_base.specs.Walk.{Tells, IsSound};

/// A field of one, two or four bytes at an offset, or no field.
#[derive(Clone, Copy, Debug)]
pub enum Place {
    Nowhere,
    Byte(u8),
    Word(u8),
    DWord(u8),
}

/// The length of the structures of a type, in bytes.
#[derive(Clone, Copy, Debug)]
pub enum TypeSize {
    /// The structures of the types from the first to the last have this length.
    Fixed(u8, u8, u8),
    /// The structures of this type have this length, and entries after it. Then come the offset of the byte that contains the
    /// number of entries, and the length of an entry.
    Counted(u8, u8, u8, u8),
}

/// The types of a table's structures, with their lengths.
#[derive(Clone, Copy, Debug)]
pub enum Types {
    /// The error sources of HEST that the Rust crate writes.
    Sources,
    /// The error sources of HEST in the standard.
    AllSources,
    /// The device entries of IVRS.
    DeviceEntries,
}

/// The length of a structure, in bytes.
#[derive(Clone, Copy, Debug)]
pub enum Sizes {
    /// Each structure has this length.
    EachOf(u8),
    /// A field of the structure contains its length.
    ToldAt(Place),
    /// The structure's type decides its length, as for the error sources of HEST. A field contains the type.
    ByType(Place, Types),
}

/// How the structures of a table are found.
#[derive(Clone, Copy, Debug)]
pub struct Walk {
    /// The offset of the first structure.
    pub start: usize,
    /// The length of each structure.
    pub sizes: Sizes,
    /// The field of a structure that contains its type.
    pub kind: Place,
    /// The field of the table that contains the number of structures.
    pub count: Place,
    /// The field of the table that contains the offset of the first structure.
    pub first: Place,
}

use Place::{Byte, DWord, Nowhere, Word};
use Sizes::{ByType, EachOf, ToldAt};
use TypeSize::{Counted, Fixed};

// PCI Express root ports, devices and bridges, generic hardware error sources and their version 2 (ACPI 6.5, 18.3.2).
const SOURCES: [TypeSize; 5] = [
    Fixed(6, 6, 48),
    Fixed(7, 7, 44),
    Fixed(8, 8, 56),
    Fixed(9, 9, 64),
    Fixed(10, 10, 92),
];

// Those, and IA-32 machine checks, corrected machine checks, non-maskable interrupts and deferred machine checks. A bank of
// registers has 28 bytes (ACPI 6.5, 18.3.2).
const ALL_SOURCES: [TypeSize; 9] = [
    Counted(0, 40, 32, 28),
    Counted(1, 48, 44, 28),
    Fixed(2, 2, 20),
    Fixed(6, 6, 48),
    Fixed(7, 7, 44),
    Fixed(8, 8, 56),
    Fixed(9, 9, 64),
    Fixed(10, 10, 92),
    Counted(11, 48, 44, 28),
];

// Entries of 4 and of 8 bytes, and the entry of a device with an ACPI hardware ID, which ends with a unique ID (AMD I/O
// Virtualization Technology Specification 3.07, 5.2.2).
const DEVICE_ENTRIES: [TypeSize; 3] = [Fixed(0, 63, 4), Fixed(64, 127, 8), Counted(240, 22, 21, 1)];

// The walks of the tables of the Rust crate that have structures, by signature.
#[rattlefmt::skip]
const WALKS: [([u8; 4], Walk); 12] = [
    (*b"XSDT", Walk { start: 36, sizes: EachOf(8), kind: Nowhere, count: Nowhere, first: Nowhere }),
    (*b"MCFG", Walk { start: 44, sizes: EachOf(16), kind: Nowhere, count: Nowhere, first: Nowhere }),
    (*b"APIC", Walk { start: 44, sizes: ToldAt(Byte(1)), kind: Byte(0), count: Nowhere, first: Nowhere }),
    (*b"HEST", Walk { start: 40, sizes: ByType(Word(0), Types::Sources), kind: Word(0), count: DWord(36), first: Nowhere }),
    (*b"SRAT", Walk { start: 48, sizes: ToldAt(Byte(1)), kind: Byte(0), count: Nowhere, first: Nowhere }),
    (*b"CEDT", Walk { start: 36, sizes: ToldAt(Word(2)), kind: Byte(0), count: Nowhere, first: Nowhere }),
    (*b"PPTT", Walk { start: 36, sizes: ToldAt(Byte(1)), kind: Byte(0), count: Nowhere, first: Nowhere }),
    (*b"RHCT", Walk { start: 56, sizes: ToldAt(Word(2)), kind: Word(0), count: DWord(48), first: DWord(52) }),
    (*b"VIOT", Walk { start: 48, sizes: ToldAt(Word(2)), kind: Byte(0), count: Word(36), first: Word(38) }),
    (*b"RIMT", Walk { start: 48, sizes: ToldAt(Word(2)), kind: Byte(0), count: DWord(36), first: DWord(40) }),
    (*b"RQSC", Walk { start: 40, sizes: ToldAt(Word(2)), kind: Byte(0), count: DWord(36), first: Nowhere }),
    (*b"HMAT", Walk { start: 40, sizes: ToldAt(DWord(4)), kind: Word(0), count: Nowhere, first: Nowhere }),
];

/// The walk of the tables of a signature, if they are tables of the Rust crate that have structures. The signature is a number,
/// lowest byte first.
pub fn walk_of(signature: u32) -> Option<Walk>
    ensures walk { result ≡ walk_of signature }
    ensures sound { IfSome result IsSound }
{
    find_row(signature, &WALKS)
}

// A signature as a number, lowest byte first.
fn number(signature: &[u8; 4]) -> u32
    ensures { result ≡ named signature.now }
{
    u32::from_le_bytes(*signature)
}

/// What is in the row of a signature.
pub(crate) fn find_row<W: Copy>(signature: u32, rows: &[([u8; 4], W)]) -> Option<W>
    ensures { result ≡ find_row signature rows.now }
{
    for row in rows {
        if signature == number(&row.0) {
            return Some(row.1);
        }
    }
    None
}

impl TypeSize {
    // Whether the structures of a type have this length.
    fn has(self, kind: usize) -> bool
        ensures { result ≡ has_type kind self }
    {
        match self {
            Fixed(first, last, _) => usize::from(first) <= kind && kind <= usize::from(last),
            Counted(own, _, _, _) => kind == usize::from(own),
        }
    }

    // The offset after the byte that contains the number of entries, or 0 if there is none.
    fn told(self) -> usize
        ensures { result ≡ told_by self }
    {
        match self {
            Fixed(_, _, _) => 0,
            Counted(_, _, at, _) => usize::from(at) + 1,
        }
    }

    // The length of the structure with which bytes begin.
    fn size(self, bytes: &[u8]) -> usize
        requires { told_by self ≤ length bytes.now }
        ensures { result ≡ size_of self bytes.now }
    {
        match self {
            Fixed(_, _, size) => usize::from(size),
            Counted(_, size, at, each) => {
                usize::from(size) + usize::from(each) * usize::from(bytes[usize::from(at)])
            }
        }
    }

    /// The length of the structure with which bytes begin, in bytes. It is `None` if the bytes don't contain the number of
    /// entries, and if the structure would end before this number or have fewer than `least` bytes.
    pub fn size_within(self, least: usize, bytes: &[u8]) -> Option<usize>
        ensures { result ≡ size_by least (Some self) bytes.now }
    {
        let told = self.told();
        if told > bytes.len() {
            return None;
        }
        let size = self.size(bytes);
        if size >= least && size >= told {
            Some(size)
        } else {
            None
        }
    }
}

// The row of a type.
fn find_size(kind: usize, rows: &[TypeSize]) -> Option<TypeSize>
    ensures { result ≡ find_size kind rows.now }
{
    for row in rows {
        if row.has(kind) {
            return Some(*row);
        }
    }
    None
}

impl Types {
    /// The length of the structures of a type, if the type is among these.
    pub fn find(self, kind: usize) -> Option<TypeSize>
        ensures { result ≡ find_size kind (rows_of self) }
    {
        match self {
            Types::Sources => find_size(kind, &SOURCES),
            Types::AllSources => find_size(kind, &ALL_SOURCES),
            Types::DeviceEntries => find_size(kind, &DEVICE_ENTRIES),
        }
    }

    /// The length of the structure with which bytes begin, in bytes. It is `None` if the bytes don't contain the type, if the
    /// type isn't among these, and if the structure would end before what says its length.
    pub fn size(self, kind: Place, bytes: &[u8]) -> Option<usize>
        ensures { result ≡ type_size kind (rows_of self) bytes.now }
    {
        if kind.end() > bytes.len() {
            return None;
        }
        match self.find(kind.number(bytes)) {
            Some(row) => row.size_within(kind.end(), bytes),
            None => None,
        }
    }
}

impl Place {
    /// The offset of the field's first byte, or 0 if there is no field.
    pub fn offset(self) -> usize
        ensures { result ≡ place_offset self }
    {
        match self {
            Place::Nowhere => 0,
            Place::Byte(at) | Place::Word(at) | Place::DWord(at) => usize::from(at),
        }
    }

    /// The offset after the field, or 0 if there is no field.
    pub fn end(self) -> usize
        ensures { result ≡ end_of self }
    {
        match self {
            Place::Nowhere => 0,
            Place::Byte(at) => usize::from(at) + 1,
            Place::Word(at) => usize::from(at) + 2,
            Place::DWord(at) => usize::from(at) + 4,
        }
    }

    /// The number in the field, lowest byte first, or 0 if there is no field.
    pub fn number(self, bytes: &[u8]) -> usize
        requires { end_of self ≤ length bytes.now }
        ensures { result ≡ number_in self bytes.now }
    {
        match self {
            Place::Nowhere => 0,
            Place::Byte(at) => usize::from(bytes[usize::from(at)]),
            Place::Word(at) => {
                let at = usize::from(at);
                usize::from(u16::from_le_bytes([bytes[at], bytes[at + 1]]))
            }
            Place::DWord(at) => {
                let at = usize::from(at);
                u32::from_le_bytes([
                    bytes[at],
                    bytes[at + 1],
                    bytes[at + 2],
                    bytes[at + 3],
                ]) as usize
            }
        }
    }

    /// Whether the field contains a number. It is true if there is no field.
    pub fn tells(self, bytes: &[u8], number: usize) -> bool
        requires { end_of self ≤ length bytes.now }
        ensures { IsTrue result ↔ Tells self bytes.now number }
    {
        match self {
            Place::Nowhere => true,
            place => place.number(bytes) == number,
        }
    }
}
