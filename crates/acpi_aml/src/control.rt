//! Branches and loops.

ghost use Rattle.std.specs.Prelude.{◌∷◌, map};
ghost use Rattle.acpi_base.specs.Object.{Builds};
ghost use Rattle.acpi_term.specs.Tree.{def_if, def_while, def_else};
ghost use Rattle.acpi_term.specs.Row.{row};

use crate::written::Written;
use acpi_base::error::R;
use acpi_base::object::Aml;
use acpi_term::row::{framed, framed_before, with_room};

/// Statements that are run if a predicate is true (ACPI 6.5, 20.2.5.3, DefIfElse).
pub type If = Written<DefIfElse>;

pub struct DefIfElse;

impl If {
    /// The error is that of the predicate, that of the first child that fails, or `PkgLength` from 2^28 bytes on.
    pub fn new(predicate: &dyn Aml, children: Vec<&dyn Aml>) -> R<If>
        ensures { Builds result (row def_if (object predicate.now ∷ map (λ child. object child.now) children.entry.items)) }
    {
        let alloc = *children.allocator();
        let bytes = framed_before(alloc, &[0xa0], predicate, &children)?;
        Ok(Written::of(bytes))
    }
}

/// Statements that are run if the predicate of the `If` before is false (ACPI 6.5, 20.2.5.3, DefElse).
pub type Else = Written<DefElse>;

pub struct DefElse;

impl Else {
    /// The error is that of the first child that fails, or `PkgLength` from 2^28 bytes on.
    pub fn new(children: Vec<&dyn Aml>) -> R<Else>
        ensures { Builds result (row def_else (map (λ child. object child.now) children.entry.items)) }
    {
        let before = with_room(*children.allocator(), &[])?;
        let bytes = framed(&[0xa1], before, &children, &[])?;
        Ok(Written::of(bytes))
    }
}

/// Statements that are run as long as a predicate is true (ACPI 6.5, 20.2.5.3, DefWhile).
pub type While = Written<DefWhile>;

pub struct DefWhile;

impl While {
    /// The error is that of the predicate, that of the first child that fails, or `PkgLength` from 2^28 bytes on.
    pub fn new(predicate: &dyn Aml, children: Vec<&dyn Aml>) -> R<While>
        ensures { Builds result (row def_while (object predicate.now ∷ map (λ child. object child.now) children.entry.items)) }
    {
        let alloc = *children.allocator();
        let bytes = framed_before(alloc, &[0xa2], predicate, &children)?;
        Ok(Written::of(bytes))
    }
}
