//! Laws of what is derived: equality.

ghost use Rattle.acpi_base.specs.Derived.{IsEquality};

use crate::cedt::{
    CxlVersion, InterleaveArithmetic, InterleaveGranularity, InterleaveWays, ProtocolType,
    WindowRestrictions,
};
use crate::madt::{
    EnabledStatus, GicVersion, HartStatus, LocalInterruptController, Polarity, Trigger, TriggerMode,
};
use crate::srat::Handle;

/// Two values are equal if and only if they are the same.
pub fn equal_values_are_the_same()
    ensures cxl_version { IsEquality ⟦<CxlVersion as PartialEq>⟧.eq }
    ensures interleave_arithmetic { IsEquality ⟦<InterleaveArithmetic as PartialEq>⟧.eq }
    ensures interleave_granularity { IsEquality ⟦<InterleaveGranularity as PartialEq>⟧.eq }
    ensures interleave_ways { IsEquality ⟦<InterleaveWays as PartialEq>⟧.eq }
    ensures window_restrictions { IsEquality ⟦<WindowRestrictions as PartialEq>⟧.eq }
    ensures protocol_type { IsEquality ⟦<ProtocolType as PartialEq>⟧.eq }
    ensures local_interrupt_controller { IsEquality ⟦<LocalInterruptController as PartialEq>⟧.eq }
    ensures enabled_status { IsEquality ⟦<EnabledStatus as PartialEq>⟧.eq }
    ensures trigger { IsEquality ⟦<Trigger as PartialEq>⟧.eq }
    ensures gic_version { IsEquality ⟦<GicVersion as PartialEq>⟧.eq }
    ensures polarity { IsEquality ⟦<Polarity as PartialEq>⟧.eq }
    ensures trigger_mode { IsEquality ⟦<TriggerMode as PartialEq>⟧.eq }
    ensures hart_status { IsEquality ⟦<HartStatus as PartialEq>⟧.eq }
    ensures handle { IsEquality ⟦<Handle as PartialEq>⟧.eq }
{}
