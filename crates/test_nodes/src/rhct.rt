//! RHCT and its nodes.

use crate::rimt::name;
use crate::rimt_limits::behind;
use acpi_base::error::{Error, R};
use acpi_tables::rhct::{
    CmoHandle, CmoNode, HartInfoNode, IsaStringHandle, IsaStringNode, MmuNode, RHCT,
    VirtualAddressScheme,
};
use std::alloc::Global;
use std::test::Fail;
use test_support::table::many;
use test_support::{OEM, OEM_REVISION, OEM_TABLE, all, equal, refuses, writes};

fn table(alloc: Global) -> RHCT {
    RHCT::new(alloc, OEM, OEM_TABLE, OEM_REVISION, 0x0807_0605_0403_0201)
}

// Fails unless a table is the fixed fields with this number of nodes, and these nodes.
fn holds(alloc: Global, table: RHCT, number: u8, nodes: &[u8]) -> Result<(), Fail> {
    let mut fixed = *b"\0\0\0\0\x01\x02\x03\x04\x05\x06\x07\x08\0\0\0\0\x38\0\0\0";
    fixed[12] = number;
    many(alloc, &table, b"RHCT", 1, &fixed, nodes, 1)
}

#[test]
fn a_table_without_nodes(rt: HostRuntime) -> Result<(), Fail> {
    writes(
        rt.alloc(),
        &table(rt.alloc()),
        b"RHCT\x38\0\0\0\x01\xeeFOOBARCAFEDEAD\xef\xbe\xad\xdeRVAT\0\0\0\x01\
            \0\0\0\0\x01\x02\x03\x04\x05\x06\x07\x08\0\0\0\0\x38\0\0\0",
    )
}

// A hart of this number, this ISA string and these block sizes.
pub(crate) fn hart(
    alloc: Global,
    number: u32,
    string: &IsaStringHandle,
    blocks: &[CmoHandle],
) -> R<HartInfoNode> {
    let mut hart = HartInfoNode::new(alloc, number, string)?;
    for block in blocks {
        hart = hart.with_cmo(block)?;
    }
    Ok(hart)
}

fn add_hart(alloc: Global, table: &mut RHCT) -> R<()> {
    let string = table.add_isa_string("foobar")?;
    table.add_hart_info(hart(alloc, 3, &string, &[])?)
}

#[test]
fn a_table_of_a_string_and_a_hart(rt: HostRuntime) -> Result<(), Fail> {
    let mut table = table(rt.alloc());
    add_hart(rt.alloc(), &mut table)?;
    writes(
        rt.alloc(),
        &table,
        b"RHCT\x58\0\0\0\x01\xf0FOOBARCAFEDEAD\xef\xbe\xad\xdeRVAT\0\0\0\x01\
            \0\0\0\0\x01\x02\x03\x04\x05\x06\x07\x08\x02\0\0\0\x38\0\0\0\
            \0\0\x10\0\x01\0\x07\0foobar\0\0\
            \xff\xff\x10\0\x01\0\x01\0\x03\0\0\0\x38\0\0\0",
    )
}

// Adds a string of 14 bytes and block sizes, and returns their handles.
fn add_both(table: &mut RHCT) -> R<(IsaStringHandle, CmoHandle)> {
    let string = table.add_isa_string("rv64i")?;
    let blocks = table.add_cmo(CmoNode::new(6, 7, 8))?;
    Ok((string, blocks))
}

fn both(alloc: Global) -> R<(IsaStringHandle, CmoHandle)> {
    add_both(&mut table(alloc))
}

#[test]
fn offsets_of_handles_and_copies(rt: HostRuntime) -> Result<(), Fail> {
    let (string, blocks) = both(rt.alloc())?;
    let copy = blocks;
    equal(&(string.offset(), copy.offset()), &(56, 70))
}

fn offset_count(alloc: Global, string: &IsaStringHandle, blocks: &[CmoHandle]) -> R<usize> {
    let hart = hart(alloc, 3, string, blocks)?;
    Ok(hart.offset_count())
}

#[test]
fn offsets_of_a_hart_are_counted(rt: HostRuntime) -> Result<(), Fail> {
    let (string, blocks) = both(rt.alloc())?;
    let copy = blocks;
    equal(&offset_count(rt.alloc(), &string, &[])?, &1)?;
    equal(&offset_count(rt.alloc(), &string, &[copy, blocks])?, &3)
}

// Adds a scheme, a string and block sizes, and returns the handles of the last two.
fn add_others(table: &mut RHCT) -> R<(IsaStringHandle, CmoHandle)> {
    table.add_mmu_node(VirtualAddressScheme::Sv48)?;
    let string = table.add_isa_string("rv64")?;
    let blocks = table.add_cmo(CmoNode::new(9, 10, 11))?;
    Ok((string, blocks))
}

// Adds two harts, each with its own string and block sizes, and another scheme.
fn add_two_harts(alloc: Global, table: &mut RHCT) -> R<()> {
    let (first, blocks) = add_both(table)?;
    let (second, others) = add_others(table)?;
    table.add_hart_info(hart(alloc, 0x0403_0201, &second, &[others, blocks])?)?;
    table.add_hart_info(hart(alloc, u32::MAX, &first, &[blocks])?)?;
    table.add_mmu_node(VirtualAddressScheme::Sv39)
}

#[test]
fn handles(rt: HostRuntime) -> Result<(), Fail> {
    let mut table = table(rt.alloc());
    add_two_harts(rt.alloc(), &mut table)?;
    let nodes = b"\0\0\x0e\0\x01\0\x06\0rv64i\0\
\x01\0\x0a\0\x01\0\0\x06\x07\x08\
\x02\0\x08\0\x01\0\0\x01\
\0\0\x0e\0\x01\0\x05\0rv64\0\0\
\x01\0\x0a\0\x01\0\0\x09\x0a\x0b\
\xff\xff\x18\0\x01\0\x03\0\x01\x02\x03\x04\x58\0\0\0\x66\0\0\0\x46\0\0\0\
\xff\xff\x14\0\x01\0\x02\0\xff\xff\xff\xff\x38\0\0\0\x46\0\0\0\
\x02\0\x08\0\x01\0\0\0";
    holds(rt.alloc(), table, 8, nodes)
}

#[test]
fn isa_strings(rt: HostRuntime) -> Result<(), Fail> {
    let alloc = rt.alloc();
    let rows: [(&str, &[u8]); 4] = [
        ("", b"\0\0\x0a\0\x01\0\x01\0\0\0"),
        ("a", b"\0\0\x0a\0\x01\0\x02\0a\0"),
        (
            "rv64imafdc_zicbom",
            b"\0\0\x1a\0\x01\0\x12\0rv64imafdc_zicbom\0",
        ),
        (
            "rv64imafdc_zicboz_",
            b"\0\0\x1c\0\x01\0\x13\0rv64imafdc_zicboz_\0\0",
        ),
    ];
    for (text, wanted) in rows {
        writes(alloc, &IsaStringNode::new(text), wanted)?;
    }
    Ok(())
}

// With a text of 65,526 bytes the length would be 65,536. After that refusal the table takes the text without its last byte.
fn takes_longest(alloc: Global, table: &mut RHCT) -> Result<(), Fail> {
    let longer = name(alloc, 65_526)?;
    refuses(table.add_isa_string(&longer), Error::FieldWidth)?;
    table.add_isa_string(&name(alloc, 65_525)?)?;
    Ok(())
}

fn longest_node(alloc: Global) -> R<Vec<u8>> {
    let mut node = behind(alloc, b"\0\0\xfe\xff\x01\0\xf6\xff", b"n", 65_525)?;
    node.push(0)?;
    Ok(node)
}

#[test]
fn longest_isa_string(rt: HostRuntime) -> Result<(), Fail> {
    let mut table = table(rt.alloc());
    takes_longest(rt.alloc(), &mut table)?;
    holds(rt.alloc(), table, 1, &longest_node(rt.alloc())?)
}

#[test]
fn block_sizes_and_schemes(rt: HostRuntime) -> Result<(), Fail> {
    all(
        rt.alloc(),
        &[
            (&CmoNode::new(1, 2, 3), b"\x01\0\x0a\0\x01\0\0\x01\x02\x03"),
            (
                &CmoNode::new(255, 0, 254),
                b"\x01\0\x0a\0\x01\0\0\xff\0\xfe",
            ),
            (
                &MmuNode::new(VirtualAddressScheme::Sv39),
                b"\x02\0\x08\0\x01\0\0\0",
            ),
            (
                &MmuNode::new(VirtualAddressScheme::Sv48),
                b"\x02\0\x08\0\x01\0\0\x01",
            ),
            (
                &MmuNode::new(VirtualAddressScheme::Sv57),
                b"\x02\0\x08\0\x01\0\0\x02",
            ),
        ],
    )
}

// A hart of a string and of 16,379 block sizes, which are as many as it can have.
fn full_hart(alloc: Global, string: &IsaStringHandle, blocks: CmoHandle) -> R<HartInfoNode> {
    hart(alloc, 7, string, &vec![in alloc; blocks; 16379]?)
}

#[test]
fn too_many_offsets(rt: HostRuntime) -> Result<(), Fail> {
    let (string, blocks) = both(rt.alloc())?;
    let full = full_hart(rt.alloc(), &string, blocks)?;
    refuses(full.with_cmo(&blocks), Error::FieldWidth)
}

fn add_full_hart(alloc: Global, table: &mut RHCT) -> Result<(), Fail> {
    let string = table.add_isa_string("ab")?;
    let blocks = table.add_cmo(CmoNode::new(4, 5, 6))?;
    table.add_hart_info(full_hart(alloc, &string, blocks)?)?;
    equal(&table.len(), &(56 + 22 + 65532))
}

#[test]
fn most_offsets(rt: HostRuntime) -> Result<(), Fail> {
    let mut table = table(rt.alloc());
    add_full_hart(rt.alloc(), &mut table)?;
    // the fixed fields, the string, the block sizes, and the hart before its last 16,379 offsets
    let fixed = b"\0\0\0\0\x01\x02\x03\x04\x05\x06\x07\x08\x03\0\0\0\x38\0\0\0\
\0\0\x0c\0\x01\0\x03\0ab\0\0\
\x01\0\x0a\0\x01\0\0\x04\x05\x06\
\xff\xff\xfc\xff\x01\0\xfc\x3f\x07\0\0\0\x38\0\0\0";
    many(rt.alloc(), &table, b"RHCT", 1, fixed, b"\x44\0\0\0", 16379)
}
