//! Laws of what is derived: equality.

ghost use Rattle.acpi_base.specs.Derived.{IsEquality};

use crate::hmat::{Associativity, CacheLevel, LocalityType, WritePolicy};

/// Two values are equal if and only if they are the same.
pub fn equal_values_are_the_same()
    ensures cache_level { IsEquality ⟦<CacheLevel as PartialEq>⟧.eq }
    ensures associativity { IsEquality ⟦<Associativity as PartialEq>⟧.eq }
    ensures write_policy { IsEquality ⟦<WritePolicy as PartialEq>⟧.eq }
    ensures locality_type { IsEquality ⟦<LocalityType as PartialEq>⟧.eq }
{}
