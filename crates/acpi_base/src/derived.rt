//! Laws of what is derived: equality, and defaults.

ghost use Rattle.acpi_base.specs.Derived.{IsDefault, IsEquality};
ghost use Rattle.acpi_base.specs.Gas.{no_register};

use crate::checksum::Checksum;
use crate::error::Error;
use crate::gas::{AccessSize, AddressSpace, GAS};

/// Two values are equal if and only if they are the same.
pub fn equal_values_are_the_same()
    ensures { IsEquality ⟦<Error as PartialEq>⟧.eq }
{}

/// The default of each type.
pub fn defaults_are_these()
    ensures address_space { IsDefault ⟦<AddressSpace as Default>⟧.is_default AddressSpace.SystemMemory }
    ensures access_size { IsDefault ⟦<AccessSize as Default>⟧.is_default AccessSize.Undefined }
    ensures register { IsDefault ⟦<GAS as Default>⟧.is_default no_register }
    ensures checksum { IsDefault ⟦<Checksum as Default>⟧.is_default 0 }
{}
