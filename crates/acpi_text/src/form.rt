//! What tables and structures consist of, as data.

use acpi_base::row::Row;
use acpi_base::walk::{Place, Sizes};

/// How many entries a list has.
#[derive(Clone, Copy, Debug)]
pub enum Count {
    /// As many as the number in a field of the structure.
    Field(Place),
    /// As many as there are bytes for.
    Rest,
    /// One.
    Once,
}

/// Fields that a structure has if another field, or the size of a part of it, has this number, and a name over them.
#[derive(Clone, Copy, Debug)]
pub struct Choice {
    pub number: usize,
    pub name: &'static str,
    pub rows: &'static [Row],
}

/// A part of a structure. The parts of a structure stand one after another.
#[derive(Clone, Copy, Debug)]
pub enum Part {
    /// Fields, one after another.
    Fields(&'static [Row]),
    /// Those fields of a list from one index on, and before another.
    Between(&'static [Row], usize, usize),
    /// Fields under a name, as those of a structure within another.
    Group(&'static str, &'static [Row]),
    /// Entries that have the same fields, each under this name.
    Entries(&'static str, Count, &'static [Row]),
    /// Numbers of this width in bytes, a line for each.
    Numbers(&'static str, usize, Count),
    /// A matrix of numbers of this width in bytes, a line for each row. One field has the number of rows, the other that of
    /// columns.
    Matrix(&'static str, usize, Place, Place),
    /// Bytes in one line, as many as a field says.
    Bytes(&'static str, Place),
    /// Bytes up to the offset that a field has, counted from the beginning of the structure.
    Until(&'static str, Place),
    /// The choice whose number a field has. Where there is none, the rest of the structure has no names.
    Chosen(Place, &'static [Choice]),
    /// The choice whose number is how many bytes there are from the offset in the first field up to the offset in the second, or
    /// up to the end of the structure if the second isn't past the first. Where there is none, this part has no fields.
    BySize(Place, Place, &'static [Choice]),
}

/// Where the structures within another begin, counted from its beginning.
#[derive(Clone, Copy, Debug)]
pub enum Start {
    /// At this offset.
    At(usize),
    /// At the sum of this offset and the number in a field of the outer structure.
    After(usize, Place),
}

/// How long a structure within another is.
#[derive(Clone, Copy, Debug)]
pub enum InnerSize {
    /// As long as the structures of a walk.
    Walked(Sizes),
    /// This many bytes, and entries: the field that contains their number, and the length of one.
    Counted(usize, Place, usize),
    /// All bytes that are left.
    Rest,
}

/// A kind of structure within another: the number in its type field, the name over it, how long it is, and its parts.
/// Structures without a type have the number 0.
#[derive(Clone, Copy, Debug)]
pub struct InnerForm {
    pub number: usize,
    pub name: &'static str,
    pub size: InnerSize,
    pub parts: &'static [Part],
}

/// Structures within another, one after another: how many there are (a field is one of the outer structure), the field that
/// contains the type of each, and their kinds. The list ends before a structure of another kind.
#[derive(Clone, Copy, Debug)]
pub struct InnerList {
    pub count: Count,
    pub kind: Place,
    pub forms: &'static [InnerForm],
}

/// What a structure contains after its parts.
#[derive(Clone, Copy, Debug)]
pub enum Inner {
    Nothing,
    /// Lists of structures, one after another, and where the first list begins.
    Lists(Start, &'static [InnerList]),
}

/// A kind of structure: the number in its type field, its name in the standard, its parts, and what stands after them.
/// Structures without a type have the number 0.
#[derive(Clone, Copy, Debug)]
pub struct StructureForm {
    pub number: usize,
    pub name: &'static str,
    pub parts: &'static [Part],
    pub inner: &'static Inner,
}

/// A kind of table: its name in the standard, its parts before any structures, and the kinds of these. The kinds are two lists,
/// one after the other, since a list that is long is too much for one proof. A table without a walk has what its `inner` says
/// after its parts.
#[derive(Clone, Copy, Debug)]
pub struct TableForm {
    pub name: &'static str,
    pub parts: &'static [Part],
    pub structures: &'static [StructureForm],
    /// The kinds that come after those.
    pub further: &'static [StructureForm],
    pub inner: &'static Inner,
}
