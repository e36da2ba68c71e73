//! Definition blocks.

ghost use Rattle.std.specs.Prelude.{◌≡◌, [], ◌∷◌, IfOk};
ghost use Rattle.acpi_base.specs.Sdt.{added};
ghost use Rattle.acpi_example.specs.Block.{empty_bytes};

use crate::oem::{OEM_ID, OEM_REVISION, OEM_TABLE_ID};
use acpi_build::block::Block;
use acpi_build::error::BuildError;
use acpi_tables::aml::{ONE, Package, ZERO};
use acpi_tables::sdt::{Sdt, append_object};
use acpi_tables::{Aml, R};
use std::alloc::Global;

// A definition block (ACPI 6.5, 5.2.11.1) without contents.
fn empty_block(alloc: Global) -> R<Sdt>
    ensures { IfOk result (λ table. table.bytes ≡ empty_bytes) }
{
    Sdt::new(alloc, *b"DSDT", 36, 2, OEM_ID, OEM_TABLE_ID, OEM_REVISION)
}

/// A definition block of these terms, or the first error in them.
pub fn definition_block(alloc: Global, block: Block) -> Result<Sdt, BuildError> {
    let terms = block.finish()?;
    let mut table = empty_block(alloc)?;
    table.append_slice(&terms)?;
    Ok(table)
}

// A package of 0 and 1.
fn contents(alloc: Global) -> R<Package>
    ensures { IfOk result (λ bytes. bytes ≡ 0x12 ∷ 4 ∷ 2 ∷ 0 ∷ 1 ∷ []) }
{
    Package::new(vec![in alloc; &ZERO as &dyn Aml, &ONE]?)
}

/// A definition block that holds a package of 0 and 1.
pub fn package_block(alloc: Global) -> R<Sdt>
    ensures { IfOk result (λ table. table.bytes ≡ added empty_bytes (0x12 ∷ 4 ∷ 2 ∷ 0 ∷ 1 ∷ [])) }
{
    let mut table = empty_block(alloc)?;
    append_object(&contents(alloc)?, &mut table)?;
    Ok(table)
}
