//! The parts after the head of a descriptor: a table, a name with a zero, and the data of a vendor.

ghost use Rattle.std.specs.Prelude.{◌≡◌, ◌*◌, ◌≤◌, IfOk, IfErr};
ghost use Rattle.acpi_ops.specs.Parts.{parts_fit, pins_bytes};

use acpi_base::error::{Error, R};
use std::alloc::Global;

/// Whether the offset of the vendor's data and the length fit their fields, if the parts have these sizes.
pub(crate) fn parts_fit(head: usize, table: usize, name: usize, vendor: usize) -> bool
    requires { head ≤ 255 }
    ensures { result ≡ parts_fit head table name vendor }
{
    if table > 0xffff || name > 0xffff {
        return false;
    }
    let vendor_at = head + table + name + 1;
    vendor_at <= 0xffff && vendor <= 0x1_0002 - vendor_at
}

/// Whether they fit, if the table is this many pins.
pub(crate) fn pins_fit(head: usize, pins: usize, name: usize, vendor: usize) -> bool
    requires { head ≤ 255 }
    ensures { result ≡ parts_fit head (2 * pins) name vendor }
{
    pins <= 0xffff && parts_fit(head, 2 * pins, name, vendor)
}

/// The pins in order, two bytes each.
pub(crate) fn pins_bytes(alloc: Global, pins: &[u16]) -> R<Vec<u8>>
    ensures ok { IfOk result (λ bytes. bytes.items ≡ pins_bytes pins.now) }
    ensures err { IfErr result (λ e. e ≡ Error.Memory) }
{
    let mut bytes = Vec::new(alloc);
    'pins: for pin in pins {
        bytes.extend_from_slice(&pin.to_le_bytes())?;
    }
    Ok(bytes)
}
