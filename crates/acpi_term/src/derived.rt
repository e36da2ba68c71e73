//! Laws of what is derived: equality.

ghost use Rattle.acpi_base.specs.Derived.{IsEquality};

use crate::op::Op;
use crate::read_error::ReadError;

/// Two values are equal if and only if they are the same.
pub fn equal_values_are_the_same()
    ensures op { IsEquality ⟦<Op as PartialEq>⟧.eq }
    ensures read_error { IsEquality ⟦<ReadError as PartialEq>⟧.eq }
{}
