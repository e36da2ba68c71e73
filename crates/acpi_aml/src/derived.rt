//! Laws of what is derived: equality.

ghost use Rattle.acpi_base.specs.Derived.{IsEquality};

use crate::field::{FieldAccessType, FieldEntry, FieldLockRule, FieldUpdateRule};
use crate::region::OpRegionSpace;

/// Two values are equal if and only if they are the same.
pub fn equal_values_are_the_same()
    ensures field_access_type { IsEquality ⟦<FieldAccessType as PartialEq>⟧.eq }
    ensures field_lock_rule { IsEquality ⟦<FieldLockRule as PartialEq>⟧.eq }
    ensures field_update_rule { IsEquality ⟦<FieldUpdateRule as PartialEq>⟧.eq }
    ensures field_entry { IsEquality ⟦<FieldEntry as PartialEq>⟧.eq }
    ensures op_region_space { IsEquality ⟦<OpRegionSpace as PartialEq>⟧.eq }
{}
