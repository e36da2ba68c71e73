//! Laws of what is derived: equality, and defaults.

ghost use Rattle.acpi_base.specs.Derived.{IsDefault, IsEquality};
ghost use Rattle.acpi_nodes.specs.Pptt.{no_cache};

use crate::pptt::{AllocationType, CacheNodeBuilder, CacheType, WritePolicy};
use crate::rhct::VirtualAddressScheme;

/// Two values are equal if and only if they are the same.
pub fn equal_values_are_the_same()
    ensures allocation_type { IsEquality ⟦<AllocationType as PartialEq>⟧.eq }
    ensures cache_type { IsEquality ⟦<CacheType as PartialEq>⟧.eq }
    ensures write_policy { IsEquality ⟦<WritePolicy as PartialEq>⟧.eq }
    ensures virtual_address_scheme { IsEquality ⟦<VirtualAddressScheme as PartialEq>⟧.eq }
{}

/// The default of each type.
pub fn defaults_are_these()
    ensures cache_node_builder { IsDefault ⟦<CacheNodeBuilder as Default>⟧.is_default no_cache }
{}
