//! Findings: rules that fields of a table break.

/// A rule.
#[derive(Clone, Copy, Debug, PartialEq)]
pub enum Rule {
    /// Reserved bytes are zero (ACPI 6.5, 5.2.1.1).
    ReservedBytes,
    /// Reserved bits are zero (ACPI 6.5, 5.2.1.1). The number has those that aren't.
    ReservedBits,
    /// A number isn't reserved (ACPI 6.5, 5.2.1.2). The number is the one that is.
    ReservedValue,
    /// A structure of a type that has one length has this length. The number is this length.
    StructureLength,
    /// A number is in a range. The number of the finding is the least that is allowed, and `most` the greatest. If bits have to
    /// be set, both are the field's number with these bits.
    Range,
    /// No two parts of a table, or of a structure, have the same number in a field, or the same numbers in two. The number is the
    /// offset of the first of them.
    Unique,
    /// No two parts of a table have a number in common in their ranges. The number is the offset of the first of them.
    Overlap,
    /// No two parts of a table have an address in common in ranges that have a length. The number is the offset of the first of
    /// them.
    Disjoint,
    /// A number isn't greater than that of another field. The number is the other field's.
    AtMost,
    /// A range of addresses ends before 2^64. The number is that of the field that says how long the range is.
    NoOverflow,
    /// As many bytes or entries as another field says, which begin at an offset, stand in a part of a table. The number is that
    /// of the other field, and the greatest number is how many bytes the part has.
    Inside,
    /// As many entries as a number says stand in a part of a table. The other number is how many bytes the part has.
    Count,
    /// Two fields have the same number, unless one is zero. The number is the other field's.
    Pair,
    /// One of two fields isn't zero.
    Required,
    /// A field is zero, or another isn't.
    Needs,
    /// A number is a multiple of another. The number is the other one.
    Multiple,
    /// Some bits aren't all set. The number has these bits.
    NotAll,
    /// A string ends with a zero.
    Terminated,
    /// A number is the offset of a structure of a type, or that of a field of one.
    Reference,
    /// Structures of which each names the next one come to an end.
    Cycle,
    /// A distance is 10 from a locality to itself, and otherwise not below 10. The numbers are as those of a range.
    Distance,
    /// A table has a part that it can't do without.
    Present,
    /// A number is one of another table of the machine.
    Defined,
    /// A number is below one of another table of the machine. The number is that one, and the greatest number is the field's own.
    Below,
    /// A machine has one table of a signature. The number is how many it has.
    Single,
    /// No two tables of a machine have the same bytes. The number is how many have those of this table.
    Copy,
}

/// A rule that a field of a table breaks.
#[derive(Clone, Copy, Debug)]
pub struct Finding<'a> {
    /// The rule.
    pub rule: Rule,
    /// The section of ACPI 6.5 that has the rule, or the name of another standard.
    pub section: &'static str,
    /// The offset of the field in the table.
    pub offset: usize,
    /// The field's name in the standard.
    pub name: &'static str,
    /// The field's bytes, which are borrowed.
    pub bytes: &'a [u8],
    /// The number of which the rule speaks, or 0 if it speaks of none.
    pub number: u64,
    /// For a range or a distance, the greatest number that is allowed. For `Inside` and `Count`, how many bytes the part has. For
    /// `Below`, the number in the field. For any other rule, 0.
    pub most: u64,
    /// The other field of which the rule speaks, or nothing if it speaks of one alone. A field of another table is followed by
    /// the signature. Of a part that isn't there, it says what it is.
    pub other: &'static str,
}
