//! What rules on several fields of a table demand, as data.

use acpi_base::walk::Place;
use acpi_text::form::Count;

/// A field of a part of a table.
#[derive(Clone, Copy)]
pub struct Spot {
    /// The offset of the field from the first byte of the part.
    pub offset: u16,
    /// Its width in bytes.
    pub width: u16,
    /// Its name.
    pub name: &'static str,
}

/// Parts of a table.
#[derive(Clone, Copy)]
pub enum Of {
    /// The whole table.
    Whole,
    /// Each of its structures.
    Each,
    /// The structures of a type.
    Kind(usize),
    /// The entries of structures of a type: the type, the field that has the offset of the first entry, the least that this can
    /// be, how many there are, and how many bytes each has.
    Entries(usize, Place, u8, Count, u8),
}

/// Which parts of a table count.
#[derive(Clone, Copy)]
pub enum When {
    /// All.
    Always,
    /// Those in which the bits of a mask, in the number at a place, are a number.
    Is(Place, usize, usize),
    /// Those in which they aren't this number.
    Not(Place, usize, usize),
}

/// Some parts of a table.
#[derive(Clone, Copy)]
pub struct Among {
    /// The parts.
    pub of: Of,
    /// Which of them count.
    pub when: When,
}

/// What a rule demands of a field in each of some parts of a table.
#[derive(Clone, Copy)]
pub enum Demand {
    /// No two of the parts have the same bytes in the field.
    Differs,
    /// No two of the parts have the same bytes in the field and the same in this one.
    DiffersWith(Spot),
    /// No two of the parts of one structure of this type have the same bytes in the field.
    DiffersIn(usize),
    /// The numbers from the field to the second of these have none in common with those of another part that has the same bytes
    /// in the first.
    Apart(Spot, Spot),
    /// A range of addresses that begins at the field, and is as long as this one says, has none in common with that of another
    /// part.
    Disjoint(Spot),
    /// The field isn't greater than this one.
    AtMost(Spot),
    /// A range that begins at the field, and is as long as this one says, ends before 2^64.
    Addresses(Spot),
    /// Blocks of this size for the numbers from 0 to that of this one, of which the first begins at the field, end before 2^64.
    Blocks(Spot, u64),
    /// As many entries of this size as this one says, which begin at the offset that the field has, stand in the part.
    Inside(Spot, usize),
    /// As many entries as the field says stand between this offset and the part's end. The second number is an entry's size.
    Counts(usize, usize),
    /// The field has the number of this one, unless one of them is zero.
    Agrees(Spot),
    /// The field isn't zero, or this one isn't.
    Needed(Spot),
    /// The field is zero, or this one isn't.
    Needs(Spot),
    /// The field is from one number to another.
    Between(u64, u64),
    /// The field is a multiple of this number.
    Multiple(u64),
    /// The bits of this mask aren't all set in the field.
    NotAll(u64),
    /// The bits of this mask are all set in the field.
    All(u64),
    /// As many bytes as this one says, which begin at the offset that the field has, end with a zero.
    Terminated(Spot),
    /// As many bytes as the field says, which begin at this offset, end with a zero.
    TerminatedAt(usize),
    /// The field is the first byte of a string. One of the bytes from this offset to the one that the other field has is zero, or
    /// of those to the part's end if that one is zero.
    TerminatedBefore(usize, Spot),
    /// The field is zero, or the offset of a structure of one of these types.
    Points(&'static [usize]),
    /// The field is zero, or the number in this one of a structure of this type.
    Refers(usize, Spot),
    /// Parts of which each has the offset of the next one in the field come to an end.
    Ends,
    /// The field is the number of localities, whose distances begin at this one (ACPI 6.5, 5.2.17).
    Distances(Spot),
    /// The table has a part that is one of these. The text says what they are.
    Includes(&'static [Among], &'static str),
}

/// A rule on several fields of a table.
#[derive(Clone, Copy)]
pub struct Relation {
    /// The signature of the tables.
    pub table: &'static str,
    /// The parts of which the rule speaks.
    pub among: Among,
    /// The field of which it speaks in each of them. Parts without this field don't count.
    pub spot: Spot,
    /// What it demands of the field.
    pub demand: Demand,
    /// The section of ACPI 6.5 that has the rule, or the name of another standard.
    pub section: &'static str,
}
