//! Kinds of tables of structures.

ghost use Rattle.std.specs.Prelude.{ℕ, Bool};
ghost use Rattle.acpi_base.specs.declared.walk.Walk.{Walk};

/// A kind of table.
pub trait Kind {
    ghost use Rattle.acpi_base.specs.declared.walk.Walk.{Walk};

    /// The walk by which its structures are found.
    ghost walk: { Walk };

    /// Whether it is a kind of the Rust crate, whose structures `Table::pieces` finds. `Table::structures` finds those of all.
    ghost ported: { Bool };

    /// The limit of a table's length in bytes: the length is below it.
    ghost limit: { ℕ };

    /// Whether all of its structures are types of this library, which have the lengths that the walk expects.
    ghost closed: { Bool };
}
