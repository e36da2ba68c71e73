//! PPTT and its nodes.

use acpi_base::error::{Error, R};
use acpi_tables::pptt::{
    AllocationType, CacheHandle, CacheNode, CacheNodeBuilder, CacheType, PPTT, ProcessorHandle,
    ProcessorNode, WritePolicy,
};
use std::alloc::Global;
use std::test::Fail;
use test_support::table::many;
use test_support::{OEM, OEM_REVISION, OEM_TABLE, all, equal, makes, refuses, writes};

pub(crate) fn table(alloc: Global) -> PPTT {
    PPTT::new(alloc, OEM, OEM_TABLE, OEM_REVISION)
}

pub(crate) fn cache() -> CacheNodeBuilder {
    CacheNodeBuilder::default()
}

pub(crate) fn processor(alloc: Global) -> ProcessorNode {
    ProcessorNode::new(alloc, None, 0x0403_0201)
}

#[test]
fn a_table_without_nodes(rt: HostRuntime) -> Result<(), Fail> {
    writes(
        rt.alloc(),
        &table(rt.alloc()),
        b"PPTT\x24\0\0\0\x03\x45FOOBARCAFEDEAD\xef\xbe\xad\xdeRVAT\0\0\0\x01",
    )
}

fn add_cache(table: &mut PPTT) -> R<CacheHandle> {
    table.add_cache(cache().size(0x8000).line_size(64).to_node())
}

// A processor that refers to these caches.
pub(crate) fn with_caches(mut node: ProcessorNode, caches: &[CacheHandle]) -> R<ProcessorNode> {
    for cache in caches {
        node = node.add_cache(cache)?;
    }
    Ok(node)
}

fn add_cache_and_processor(alloc: Global, table: &mut PPTT) -> R<ProcessorHandle> {
    let cache = add_cache(table)?;
    let node = ProcessorNode::new(alloc, None, 5).valid();
    table.add_processor(with_caches(node, &[cache])?)
}

#[test]
fn a_table_of_a_cache_and_a_processor(rt: HostRuntime) -> Result<(), Fail> {
    let mut table = table(rt.alloc());
    add_cache_and_processor(rt.alloc(), &mut table)?;
    writes(
        rt.alloc(),
        &table,
        b"PPTT\x58\0\0\0\x03\xafFOOBARCAFEDEAD\xef\xbe\xad\xdeRVAT\0\0\0\x01\
            \x01\x1c\0\0\x41\0\0\0\0\0\0\0\0\x80\0\0\
            \0\0\0\0\0\0\x40\0\0\0\0\0\
            \0\x18\0\0\x02\0\0\0\0\0\0\0\x05\0\0\0\x01\0\0\0\x24\0\0\0",
    )
}

fn first_cache(alloc: Global) -> R<CacheHandle> {
    table(alloc).add_cache(cache().to_node())
}

fn resource_count(alloc: Global, caches: &[CacheHandle]) -> R<usize> {
    let node = with_caches(ProcessorNode::new(alloc, None, 5), caches)?;
    Ok(node.resource_count())
}

#[test]
fn caches_of_a_processor_are_counted(rt: HostRuntime) -> Result<(), Fail> {
    let cache = first_cache(rt.alloc())?;
    let copy = cache;
    equal(&resource_count(rt.alloc(), &[])?, &0)?;
    equal(&resource_count(rt.alloc(), &[cache, copy])?, &2)
}

fn offsets_are_told(alloc: Global, table: &mut PPTT) -> Result<(), Fail> {
    let cache = table.add_cache(cache().to_node())?;
    let copy = cache;
    let node = with_caches(ProcessorNode::new(alloc, None, 5), &[cache, copy])?;
    let processor = table.add_processor(node)?;
    let offsets = [cache.offset(), copy.offset(), processor.offset()];
    equal(&offsets, &[36, 36, 64])
}

#[test]
fn offsets_of_handles(rt: HostRuntime) -> Result<(), Fail> {
    offsets_are_told(rt.alloc(), &mut table(rt.alloc()))
}

// Adds a package with a shared cache.
fn add_package(alloc: Global, table: &mut PPTT, shared: CacheHandle) -> R<ProcessorHandle> {
    table.add_processor(with_caches(processor(alloc).physical(), &[shared])?)
}

// Adds a core with a private cache below a package.
fn add_core(
    alloc: Global,
    table: &mut PPTT,
    package: ProcessorHandle,
    shared: CacheHandle,
) -> R<ProcessorHandle> {
    let own = cache()
        .next_level(&shared)
        .cache_type(CacheType::Instruction);
    let own = table.add_cache(own.to_node())?;
    let core = ProcessorNode::new(alloc, Some(&package), 7).valid().leaf();
    table.add_processor(with_caches(core, &[own, shared])?)
}

// Adds a package, a core below it, and a thread below that.
fn add_thread(alloc: Global, table: &mut PPTT) -> R<ProcessorHandle> {
    let shared = table.add_cache(cache().id(1).to_node())?;
    let package = add_package(alloc, table, shared)?;
    let core = add_core(alloc, table, package, shared)?;
    table.add_processor(ProcessorNode::new(alloc, Some(&core), 8).thread())
}

#[test]
fn handles(rt: HostRuntime) -> Result<(), Fail> {
    let mut table = table(rt.alloc());
    add_thread(rt.alloc(), &mut table)?;
    let nodes = b"\x01\x1c\0\0\x80\0\0\0\0\0\0\0\0\0\0\0\0\0\0\0\0\0\0\0\x01\0\0\0\
\0\x18\0\0\x01\0\0\0\0\0\0\0\x01\x02\x03\x04\x01\0\0\0\x24\0\0\0\
\x01\x1c\0\0\x10\0\0\0\x24\0\0\0\0\0\0\0\0\0\0\0\0\x04\0\0\0\0\0\0\
\0\x1c\0\0\x0a\0\0\0\x40\0\0\0\x07\0\0\0\x02\0\0\0\x58\0\0\0\x24\0\0\0\
\0\x14\0\0\x04\0\0\0\x74\0\0\0\x08\0\0\0\0\0\0\0";
    many(rt.alloc(), &table, b"PPTT", 3, &[], nodes, 1)
}

// A call that sets a flag of a processor.
#[derive(Clone, Copy)]
enum Flag {
    Physical,
    Valid,
    Thread,
    Leaf,
    Identical,
}

fn with_flag(node: ProcessorNode, flag: Flag) -> ProcessorNode {
    match flag {
        Flag::Physical => node.physical(),
        Flag::Valid => node.valid(),
        Flag::Thread => node.thread(),
        Flag::Leaf => node.leaf(),
        Flag::Identical => node.identical(),
    }
}

// Fails unless a processor has this number at offset 4 after these calls.
fn flagged(alloc: Global, calls: &[Flag], number: u8) -> Result<(), Fail> {
    let mut made = processor(alloc);
    for flag in calls {
        made = with_flag(made, *flag);
    }
    let mut wanted = *b"\0\x14\0\0\0\0\0\0\0\0\0\0\x01\x02\x03\x04\0\0\0\0";
    wanted[4] = number;
    writes(alloc, &made, &wanted)
}

// Each flag alone, set twice, and after others.
const FLAGS: [(&[Flag], u8); 13] = [
    (&[], 0),
    (&[Flag::Physical], 1),
    (&[Flag::Valid], 2),
    (&[Flag::Thread], 4),
    (&[Flag::Leaf], 8),
    (&[Flag::Identical], 16),
    (
        &[
            Flag::Physical,
            Flag::Valid,
            Flag::Thread,
            Flag::Leaf,
            Flag::Identical,
            Flag::Leaf,
        ],
        31,
    ),
    (&[Flag::Physical, Flag::Physical], 1),
    (&[Flag::Valid, Flag::Valid], 2),
    (&[Flag::Thread, Flag::Thread], 4),
    (&[Flag::Identical, Flag::Identical], 16),
    (&[Flag::Leaf, Flag::Physical], 9),
    (
        &[
            Flag::Identical,
            Flag::Leaf,
            Flag::Thread,
            Flag::Valid,
            Flag::Physical,
        ],
        31,
    ),
];

#[test]
fn flags_of_processors(rt: HostRuntime) -> Result<(), Fail> {
    for (calls, number) in &FLAGS {
        flagged(rt.alloc(), *calls, *number)?;
    }
    Ok(())
}

// Fails unless a processor has these fields, and those that are set over them.
fn sets_fields(alloc: Global, made: &mut ProcessorNode) -> Result<(), Fail> {
    let fields = (made.flags, made.parent, made.acpi_processor_id);
    equal(&fields, &(2, 0, 0x0403_0201))?;
    made.flags = 0x1413_1211;
    made.parent = 0x2423_2221;
    made.acpi_processor_id = u32::MAX;
    writes(
        alloc,
        made,
        b"\0\x14\0\0\x11\x12\x13\x14\x21\x22\x23\x24\xff\xff\xff\xff\0\0\0\0",
    )
}

#[test]
fn fields_of_a_processor(rt: HostRuntime) -> Result<(), Fail> {
    sets_fields(rt.alloc(), &mut processor(rt.alloc()).valid())
}

fn with_most_caches(alloc: Global, cache: CacheHandle) -> R<ProcessorNode> {
    with_caches(ProcessorNode::new(alloc, None, 9), &[cache; 58])
}

fn most_caches() -> [u8; 252] {
    let mut bytes = [0; 252];
    bytes[..24].copy_from_slice(b"\0\xfc\0\0\0\0\0\0\0\0\0\0\x09\0\0\0\x3a\0\0\0\x24\0\0\0");
    for n in 0..58usize {
        bytes[20 + 4 * n] = 0x24;
    }
    bytes
}

// A processor with the most caches has these bytes, and one with more can't be made.
fn has_most_caches(alloc: Global, cache: CacheHandle) -> Result<(), Fail> {
    makes(alloc, with_most_caches(alloc, cache), &most_caches())?;
    let more = with_most_caches(alloc, cache)?.add_cache(&cache);
    refuses(more, Error::FieldWidth)
}

fn takes_most_caches(alloc: Global, table: &mut PPTT) -> Result<(), Fail> {
    let cache = table.add_cache(cache().to_node())?;
    has_most_caches(alloc, cache)?;
    table.add_processor(with_most_caches(alloc, cache)?)?;
    // the cache, and the processor before its 58 references
    let fixed = b"\x01\x1c\0\0\0\0\0\0\0\0\0\0\0\0\0\0\0\0\0\0\0\0\0\0\0\0\0\0\
\0\xfc\0\0\0\0\0\0\0\0\0\0\x09\0\0\0\x3a\0\0\0";
    many(alloc, table, b"PPTT", 3, fixed, b"\x24\0\0\0", 58)
}

#[test]
fn the_most_caches(rt: HostRuntime) -> Result<(), Fail> {
    takes_most_caches(rt.alloc(), &mut table(rt.alloc()))
}

#[test]
#[rattlefmt::skip]
fn fields_of_caches(rt: HostRuntime) -> Result<(), Fail> {
    equal(&CacheNode::len(), &28)?;
    let next = first_cache(rt.alloc())?;
    all(rt.alloc(), &[
        (&cache().to_node(),
            b"\x01\x1c\0\0\0\0\0\0\0\0\0\0\0\0\0\0\0\0\0\0\0\0\0\0\0\0\0\0"),
        (&cache().next_level(&next).to_node(),
            b"\x01\x1c\0\0\0\0\0\0\x24\0\0\0\0\0\0\0\0\0\0\0\0\0\0\0\0\0\0\0"),
        (&cache().size(0x0403_0201).to_node(),
            b"\x01\x1c\0\0\x01\0\0\0\0\0\0\0\x01\x02\x03\x04\0\0\0\0\0\0\0\0\0\0\0\0"),
        (&cache().sets(0x0403_0201).to_node(),
            b"\x01\x1c\0\0\x02\0\0\0\0\0\0\0\0\0\0\0\x01\x02\x03\x04\0\0\0\0\0\0\0\0"),
        (&cache().associativity(0x51).to_node(),
            b"\x01\x1c\0\0\x04\0\0\0\0\0\0\0\0\0\0\0\0\0\0\0\x51\0\0\0\0\0\0\0"),
        (&cache().line_size(0x0201).to_node(),
            b"\x01\x1c\0\0\x40\0\0\0\0\0\0\0\0\0\0\0\0\0\0\0\0\0\x01\x02\0\0\0\0"),
        (&cache().id(0x0403_0201).to_node(),
            b"\x01\x1c\0\0\x80\0\0\0\0\0\0\0\0\0\0\0\0\0\0\0\0\0\0\0\x01\x02\x03\x04"),
        (&cache().allocation_type(AllocationType::Read).to_node(),
            b"\x01\x1c\0\0\x08\0\0\0\0\0\0\0\0\0\0\0\0\0\0\0\0\0\0\0\0\0\0\0"),
        (&cache().allocation_type(AllocationType::Write).to_node(),
            b"\x01\x1c\0\0\x08\0\0\0\0\0\0\0\0\0\0\0\0\0\0\0\0\x01\0\0\0\0\0\0"),
        (&cache().allocation_type(AllocationType::Both).to_node(),
            b"\x01\x1c\0\0\x08\0\0\0\0\0\0\0\0\0\0\0\0\0\0\0\0\x02\0\0\0\0\0\0"),
        (&cache().cache_type(CacheType::Data).to_node(),
            b"\x01\x1c\0\0\x10\0\0\0\0\0\0\0\0\0\0\0\0\0\0\0\0\0\0\0\0\0\0\0"),
        (&cache().cache_type(CacheType::Instruction).to_node(),
            b"\x01\x1c\0\0\x10\0\0\0\0\0\0\0\0\0\0\0\0\0\0\0\0\x04\0\0\0\0\0\0"),
        (&cache().cache_type(CacheType::Unified).to_node(),
            b"\x01\x1c\0\0\x10\0\0\0\0\0\0\0\0\0\0\0\0\0\0\0\0\x08\0\0\0\0\0\0"),
        (&cache().write_policy(WritePolicy::Writeback).to_node(),
            b"\x01\x1c\0\0\x20\0\0\0\0\0\0\0\0\0\0\0\0\0\0\0\0\0\0\0\0\0\0\0"),
        (&cache().write_policy(WritePolicy::Writethrough).to_node(),
            b"\x01\x1c\0\0\x20\0\0\0\0\0\0\0\0\0\0\0\0\0\0\0\0\x10\0\0\0\0\0\0"),
        // each field
        (&cache().next_level(&next).size(0x0403_0201).sets(0x1413_1211).associativity(0x21).allocation_type(AllocationType::Both)
            .cache_type(CacheType::Unified).write_policy(WritePolicy::Writethrough).line_size(0x3231).id(0x4443_4241).to_node(),
            b"\x01\x1c\0\0\xff\0\0\0\x24\0\0\0\x01\x02\x03\x04\x11\x12\x13\x14\x21\x1a\x31\x32\x41\x42\x43\x44"),
        // the highest numbers, and one that is set again
        (&cache().size(u32::MAX).sets(u32::MAX).associativity(u8::MAX).line_size(u16::MAX).id(u32::MAX).size(7).to_node(),
            b"\x01\x1c\0\0\xc7\0\0\0\0\0\0\0\x07\0\0\0\xff\xff\xff\xff\xff\0\xff\xff\xff\xff\xff\xff"),
        // Each call joins its attributes to those that are set.
        (&cache().write_policy(WritePolicy::Writethrough).cache_type(CacheType::Instruction)
            .allocation_type(AllocationType::Write).allocation_type(AllocationType::Both).cache_type(CacheType::Data).to_node(),
            b"\x01\x1c\0\0\x38\0\0\0\0\0\0\0\0\0\0\0\0\0\0\0\0\x17\0\0\0\0\0\0"),
        // each field but the next level, set twice and after others
        (&cache().id(7).id(0x4443_4241).line_size(7).line_size(0x3231)
            .write_policy(WritePolicy::Writethrough).write_policy(WritePolicy::Writethrough)
            .cache_type(CacheType::Unified).cache_type(CacheType::Unified)
            .allocation_type(AllocationType::Both).allocation_type(AllocationType::Both)
            .associativity(7).associativity(0x21).sets(7).sets(0x1413_1211).size(7).size(0x0403_0201).to_node(),
            b"\x01\x1c\0\0\xff\0\0\0\0\0\0\0\x01\x02\x03\x04\x11\x12\x13\x14\x21\x1a\x31\x32\x41\x42\x43\x44"),
    ])
}
