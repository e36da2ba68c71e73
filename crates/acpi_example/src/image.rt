//! All tables, laid at their addresses.

ghost use Rattle.std.specs.Prelude.{◌≡◌, ◌%◌, ◌+◌, ◌≤◌, ◌^◌};

use crate::domains::{attributes, distances};
use crate::hardware::{boot_errors, error_sources, fixed_hardware};
use crate::machine::{BYTES_FROM_BASE, PROCESSORS};
use crate::namespace::namespace_block;
use crate::oem::{OEM_ID, OEM_REVISION, OEM_TABLE_ID};
use crate::platform::{affinities, configuration_space, interrupt_controllers};
use crate::topology::topology;
use acpi_build::error::BuildError;
use acpi_tables::Aml;
use acpi_tables::facs::FACS;
use acpi_tables::layout::{Image, lay};
use std::alloc::Global;

/// The image of the machine's tables. It begins at a physical address that is a multiple of 64.
pub fn image(alloc: Global, base: u64) -> Result<Image, BuildError>
    requires unit { base % 64 ≡ 0 }
    requires room { base + BYTES_FROM_BASE ≤ 2 ^ 64 }
{
    let namespace = namespace_block(alloc)?;
    let controllers = interrupt_controllers(alloc)?;
    let spaces = configuration_space(alloc)?;
    let affinities = affinities(alloc)?;
    let distances = distances(alloc)?;
    let attributes = attributes(alloc)?;
    let topology = topology(alloc, PROCESSORS)?;
    let sources = error_sources(alloc, base)?;
    let boot_errors = boot_errors(base);
    let tables: Vec<&dyn Aml> = vec![in alloc;
        &controllers as &dyn Aml,
        &spaces,
        &affinities,
        &distances,
        &attributes,
        &topology,
        &sources,
        &boot_errors,
    ]?;
    Ok(lay(
        base,
        OEM_ID,
        OEM_TABLE_ID,
        OEM_REVISION,
        &namespace,
        &FACS::new(),
        fixed_hardware(),
        tables,
    )?)
}
