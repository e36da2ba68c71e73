//! The offsets of lists that a structure contains.

ghost use Rattle.std.specs.Prelude.{◌≡◌};
ghost use Rattle.acpi_arm.specs.Offsets.{offset_if};

/// The offset of a list of this many entries, or 0 if it is empty.
pub(crate) fn offset_if(count: usize, offset: u16) -> u16
    ensures { result ≡ offset_if count offset }
{
    if count == 0 { 0 } else { offset }
}
