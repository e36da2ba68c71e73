//! Scopes, devices and power resources.

ghost use Rattle.std.specs.Prelude.{map};
ghost use Rattle.acpi_base.specs.Object.{whole, Builds};
ghost use Rattle.acpi_term.specs.Made.{Makes};
ghost use Rattle.acpi_term.specs.Tree.{def_scope, def_device, def_power_res};
ghost use Rattle.acpi_term.specs.Row.{row, around, layout};

use crate::path::Path;
use crate::written::Written;
use acpi_base::error::R;
use acpi_base::object::Aml;
use acpi_term::row::{frame, framed};

/// A scope: objects below a name (ACPI 6.5, 20.2.5.1, DefScope).
pub type Scope = Written<DefScope>;

pub struct DefScope;

impl Scope {
    /// The children are borrowed for the call. The error is that of the first child that fails, or `PkgLength` from 2^28 bytes
    /// on.
    pub fn new(path: Path, children: Vec<&dyn Aml>) -> R<Scope>
        ensures { Builds result (row (def_scope path) (map (λ child. object child.now) children.entry.items)) }
    {
        let bytes = framed(&[0x10], path.bytes, &children, &[])?;
        Ok(Written::of(bytes))
    }

    /// The bytes of a scope, from the bytes of its children. The error is `PkgLength` from 2^28 bytes on.
    pub fn raw(path: Path, children: Vec<u8>) -> R<Vec<u8>>
        ensures { Makes result (around (layout (def_scope path) 0 0) (whole children.items)) }
    {
        let mut content = path.bytes;
        content.extend_from_slice(&children)?;
        frame(&[0x10], content)
    }
}

/// A device and its objects (ACPI 6.5, 20.2.5.2, DefDevice).
pub type Device = Written<DefDevice>;

pub struct DefDevice;

impl Device {
    /// The children are borrowed for the call. The error is that of the first child that fails, or `PkgLength` from 2^28 bytes
    /// on.
    pub fn new(path: Path, children: Vec<&dyn Aml>) -> R<Device>
        ensures { Builds result (row (def_device path) (map (λ child. object child.now) children.entry.items)) }
    {
        let bytes = framed(&[0x5b, 0x82], path.bytes, &children, &[])?;
        Ok(Written::of(bytes))
    }
}

/// A power resource (ACPI 6.5, 20.2.5.2, DefPowerRes).
pub type PowerResource = Written<DefPowerRes>;

pub struct DefPowerRes;

impl PowerResource {
    /// `level` is the deepest sleep level in which the resource has to stay on, and `order` its place in the order of power
    /// resources. The error is that of the first child that fails, or `PkgLength` from 2^28 bytes on.
    pub fn new(path: Path, level: u8, order: u16, children: Vec<&dyn Aml>) -> R<PowerResource>
        ensures { Builds result (row (def_power_res path level order) (map (λ child. object child.now) children.entry.items)) }
    {
        let mut before = path.bytes;
        let [low, high] = order.to_le_bytes();
        before.extend_from_slice(&[level, low, high])?;
        let bytes = framed(&[0x5b, 0x84], before, &children, &[])?;
        Ok(Written::of(bytes))
    }
}
