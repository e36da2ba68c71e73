//! The packages of processors, and their caches.

ghost use Rattle.std.specs.Prelude.{◌≡◌, ◌+◌, ◌*◌, length, IfOk, OnOk};

use crate::oem::{OEM_ID, OEM_REVISION, OEM_TABLE_ID};
use acpi_tables::R;
use acpi_tables::pptt::{
    AllocationType, CacheNodeBuilder, CacheType, PPTT, ProcessorHandle, ProcessorNode, WritePolicy,
};
use std::alloc::Global;

// A cache of these sets and ways, with lines of 64 bytes.
fn cache(id: u32, kind: CacheType, sets: u16, ways: u8) -> CacheNodeBuilder {
    CacheNodeBuilder::default()
        .size(64 * u32::from(sets) * u32::from(ways))
        .sets(u32::from(sets))
        .associativity(ways)
        .allocation_type(AllocationType::Both)
        .cache_type(kind)
        .write_policy(WritePolicy::Writeback)
        .line_size(64)
        .id(id)
}

// Adds a core. It has a cache for data, one for instructions, and one of the second level after both. The package's cache is
// found at the package's node, so it isn't the next level of the second one.
fn add_core(alloc: Global, table: &mut PPTT, package: &ProcessorHandle, number: u8) -> R<()>
    ensures { OnOk result (length table.new.table.table.structures ≡ length table.old.table.table.structures + 4) }
{
    let number = u32::from(number);
    let first_id = 2 + 4 * number;
    let l2 = table.add_cache(cache(first_id, CacheType::Unified, 2048, 8).to_node())?;
    let data = cache(first_id + 1, CacheType::Data, 64, 8).next_level(&l2);
    let data = table.add_cache(data.to_node())?;
    let instructions = cache(first_id + 2, CacheType::Instruction, 64, 8).next_level(&l2);
    let instructions = table.add_cache(instructions.to_node())?;
    let core = ProcessorNode::new(alloc, Some(package), number)
        .valid()
        .leaf()
        .add_cache(&data)?
        .add_cache(&instructions)?;
    table.add_processor(core)?;
    Ok(())
}

// Adds a package of one core, and its cache.
fn add_package(alloc: Global, table: &mut PPTT, number: u8) -> R<()>
    ensures { OnOk result (length table.new.table.table.structures ≡ length table.old.table.table.structures + 6) }
{
    let id = 1 + 4 * u32::from(number);
    let shared = table.add_cache(cache(id, CacheType::Unified, 8192, 16).to_node())?;
    let package = ProcessorNode::new(alloc, None, 0)
        .physical()
        .identical()
        .add_cache(&shared)?;
    let package = table.add_processor(package)?;
    add_core(alloc, table, &package, number)
}

/// Packages of one core each. Caches aren't shared between packages, so each package can be in another domain.
pub fn topology(alloc: Global, packages: u8) -> R<PPTT>
    ensures { IfOk result (λ pptt. length pptt.table.table.structures ≡ 6 * packages) }
{
    let mut table = PPTT::new(alloc, OEM_ID, OEM_TABLE_ID, OEM_REVISION);
    'packages: for number in 0..packages {
        add_package(alloc, &mut table, number)?;
    }
    Ok(table)
}
