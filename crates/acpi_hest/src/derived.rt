//! Laws of what is derived: equality, and defaults.

ghost use Rattle.acpi_base.specs.Derived.{IsDefault, IsEquality};

use crate::hest::{EnabledStatus, ErrorSeverity, FirmwareFirst, NotificationType};
use crate::rqsc::ControllerType;

/// Two values are equal if and only if they are the same.
pub fn equal_values_are_the_same()
    ensures firmware_first { IsEquality ⟦<FirmwareFirst as PartialEq>⟧.eq }
    ensures enabled_status { IsEquality ⟦<EnabledStatus as PartialEq>⟧.eq }
    ensures controller_type { IsEquality ⟦<ControllerType as PartialEq>⟧.eq }
{}

/// The default of each type.
pub fn defaults_are_these()
    ensures error_severity { IsDefault ⟦<ErrorSeverity as Default>⟧.is_default ErrorSeverity.None }
    ensures notification_type { IsDefault ⟦<NotificationType as Default>⟧.is_default NotificationType.Polled }
{}
