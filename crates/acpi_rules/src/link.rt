//! What rules on several tables of a machine demand, as data.

use crate::demand::{Among, Spot};

/// A number in each of some parts of the tables of a signature.
#[derive(Clone, Copy)]
pub struct Column {
    /// The signature of the tables.
    pub table: &'static str,
    /// The parts.
    pub among: Among,
    /// The field that has the number, or its low bytes. Parts without this field don't count.
    pub low: Spot,
    /// The field that has its high bytes. Its width is 0 if there are none.
    pub high: Spot,
}

/// What a rule demands of a number.
#[derive(Clone, Copy)]
pub enum Wanted {
    /// It is a number of one of these columns, if the machine has a table with the signature of one of them.
    OneOf(&'static [Column]),
    /// It is below the greatest number of this column, if there is one.
    Below(Column),
    /// It is below the number of parts of this column, if the machine has such a table. Of several tables the one with most parts
    /// counts.
    Index(Column),
}

/// A rule on numbers of one table of a machine, and those of others.
#[derive(Clone, Copy)]
pub struct Link {
    /// The numbers of which the rule speaks.
    pub column: Column,
    /// What it demands of them.
    pub wanted: Wanted,
    /// The numbers that are allowed, or the one below which they are: the name of the field, and the signature of its table.
    pub other: &'static str,
    /// The section of ACPI 6.5 that has the rule, or the name of another standard.
    pub section: &'static str,
}
