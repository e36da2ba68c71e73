//! The tables of an Arm machine, laid at their addresses.

ghost use Rattle.std.specs.Prelude.{◌≡◌, ◌%◌};

pub mod namespace;
pub mod platform;
pub mod virt;

use crate::arm::namespace::namespace_block;
use crate::arm::platform::{
    configuration_space, console, debug_ports, interrupt_controllers, no_fixed_hardware, remapping,
    timers,
};
use crate::oem::{OEM_ID, OEM_REVISION, OEM_TABLE_ID};
use acpi_build::error::BuildError;
use acpi_tables::Aml;
use acpi_tables::layout::{Image, lay_reduced};
use std::alloc::Global;

/// The image of the machine's tables, which has no FACS. It begins at a physical address that is a multiple of 64.
pub fn reduced_image(alloc: Global, base: u64) -> Result<Image, BuildError>
    requires unit { base % 64 ≡ 0 }
{
    let namespace = namespace_block(alloc)?;
    let controllers = interrupt_controllers(alloc)?;
    let timers = timers(alloc);
    let console = console(alloc)?;
    let ports = debug_ports(alloc)?;
    let spaces = configuration_space(alloc)?;
    let remapping = remapping(alloc)?;
    let tables: Vec<&dyn Aml> = vec![in alloc;
        &controllers as &dyn Aml,
        &timers,
        &console,
        &ports,
        &spaces,
        &remapping,
    ]?;
    Ok(lay_reduced(
        base,
        OEM_ID,
        OEM_TABLE_ID,
        OEM_REVISION,
        &namespace,
        no_fixed_hardware(),
        tables,
    )?)
}
