//! Laws of what is derived: equality, and defaults.

ghost use Rattle.acpi_base.specs.Derived.{IsDefault, IsEquality};
ghost use Rattle.acpi_fixed.specs.Fadt.{no_fields};

use crate::bgrt::Orientation;
use crate::fadt::{FADTBuilder, FadtRelease, Flags, PmProfile};
use crate::hpet::{EventTimerBlockId, PageProtection};
use crate::spcr::{BaudRate, FlowControl, InterfaceType, InterruptController, TerminalType};
use crate::tpm2::{PlatformClass, StartMethod};

/// Two values are equal if and only if they are the same.
pub fn equal_values_are_the_same()
    ensures flags { IsEquality ⟦<Flags as PartialEq>⟧.eq }
    ensures fadt_release { IsEquality ⟦<FadtRelease as PartialEq>⟧.eq }
    ensures pm_profile { IsEquality ⟦<PmProfile as PartialEq>⟧.eq }
    ensures platform_class { IsEquality ⟦<PlatformClass as PartialEq>⟧.eq }
    ensures start_method { IsEquality ⟦<StartMethod as PartialEq>⟧.eq }
    ensures interface_type { IsEquality ⟦<InterfaceType as PartialEq>⟧.eq }
    ensures interrupt_controller { IsEquality ⟦<InterruptController as PartialEq>⟧.eq }
    ensures baud_rate { IsEquality ⟦<BaudRate as PartialEq>⟧.eq }
    ensures flow_control { IsEquality ⟦<FlowControl as PartialEq>⟧.eq }
    ensures terminal_type { IsEquality ⟦<TerminalType as PartialEq>⟧.eq }
    ensures block_id { IsEquality ⟦<EventTimerBlockId as PartialEq>⟧.eq }
    ensures page_protection { IsEquality ⟦<PageProtection as PartialEq>⟧.eq }
    ensures orientation { IsEquality ⟦<Orientation as PartialEq>⟧.eq }
{}

/// The default of each type.
pub fn defaults_are_these()
    ensures platform_class { IsDefault ⟦<PlatformClass as Default>⟧.is_default PlatformClass.Client }
    ensures start_method { IsDefault ⟦<StartMethod as Default>⟧.is_default StartMethod.LegacyUse }
    ensures builder { IsDefault ⟦<FADTBuilder as Default>⟧.is_default no_fields }
{}
