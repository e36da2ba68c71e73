//! Laws of what is derived: equality.

ghost use Rattle.acpi_base.specs.Derived.{IsEquality};

use crate::address_space::AddressSpaceCacheable;

/// Two values are equal if and only if they are the same.
pub fn equal_values_are_the_same()
    ensures { IsEquality ⟦<AddressSpaceCacheable as PartialEq>⟧.eq }
{}
