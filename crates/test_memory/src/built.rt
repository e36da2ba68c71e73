//! Blocks and a table that are built call by call, each as its bytes.

use acpi_build::block::Block;
use acpi_build::error::BuildError;
use acpi_build::table::TableBuilder;
use acpi_tables::aml::{
    FieldAccessType, FieldElement, FieldEntry, FieldLockRule, FieldUpdateRule, IO, OpRegionSpace,
};
use acpi_tables::sdt::Sdt;
use acpi_tables::{Aml, Error, R};
use acpi_term::op::Op;
use std::alloc::Global;
use test_support::{OEM, OEM_REVISION, OEM_TABLE, bytes_of};

pub const BUILT: u8 = 7;

fn add_objects(block: &mut Block, child: &u32) {
    block.add(child);
    block.name("_UID", child);
    block.call("\\_SB_.X___", &[child]);
    block.operate(Op::Sleep, &[child]);
    block.returns(child);
    block.external("ABCD", 8, 1);
}

fn add_regions(block: &mut Block, child: &u32) {
    block.region("ABCD", OpRegionSpace::SystemIO, child, child);
    block.field(
        "ABCD",
        FieldAccessType::Byte,
        FieldLockRule::NoLock,
        FieldUpdateRule::Preserve,
        &[FieldEntry::Reserved(32), FieldEntry::Named(*b"READ", 64)],
    );
    block.mutex("ABCD", 1);
    block.acquire("ABCD", 0x0201);
    block.release("ABCD");
}

fn add_field_list(alloc: Global, block: &mut Block) -> R<()> {
    let elements = vec![in alloc; FieldElement::AccessAs(1, 2), FieldElement::Reserved(32)]?;
    block.field_list(
        "^ABCD",
        FieldAccessType::Byte,
        FieldLockRule::NoLock,
        FieldUpdateRule::Preserve,
        elements,
    );
    Ok(())
}

// Adds a child to what was opened, and ends it.
fn fill(block: &mut Block, child: &u32) {
    block.add(child);
    block.end();
}

fn add_named(block: &mut Block, child: &u32) {
    block.scope("_SB_");
    fill(block, child);
    block.device("ABCD");
    fill(block, child);
    block.thermal_zone("ABCD");
    fill(block, child);
    block.processor("ABCD", 1, 2, 3);
    fill(block, child);
    block.power_resource("ABCD", 1, 2);
    fill(block, child);
    block.method("ABCD", 7, true);
    fill(block, child);
    block.leveled_method("^ABCD", 7, true, 15);
    fill(block, child);
}

fn add_statements(block: &mut Block, child: &u32) {
    block.if_true(child);
    fill(block, child);
    block.otherwise();
    fill(block, child);
    block.while_true(child);
    fill(block, child);
}

fn add_lists(block: &mut Block, child: &u32) {
    block.package();
    fill(block, child);
    block.named_package("_PRT");
    fill(block, child);
    block.package_with_room(9);
    fill(block, child);
    block.named_package_with_room("^_PRT", 9);
    fill(block, child);
    block.resources("_CRS");
    block.add(&IO::new(1, 2, 3, 4));
    block.end();
}

fn table(alloc: Global, child: u32) -> R<Sdt> {
    let table = Sdt::new(alloc, *b"WAET", 36, 1, OEM, OEM_TABLE, OEM_REVISION);
    let mut builder = TableBuilder::new(table);
    builder.byte(1);
    builder.word(2);
    builder.dword(child);
    builder.qword(4);
    builder.bytes(b"0123456789");
    builder.finish()
}

// The bytes of a block, or its error. No other error than one of an object is expected.
fn finished(block: Block) -> R<Vec<u8>> {
    match block.finish() {
        Ok(bytes) => Ok(bytes),
        Err(BuildError::Object(error)) => Err(error),
        Err(_) => Err(Error::Index),
    }
}

/// Blocks of each call, and a table.
pub fn built(alloc: Global, child: &u32, which: u8) -> R<Vec<u8>> {
    let mut block = Block::new(alloc);
    match which {
        0 => add_objects(&mut block, child),
        1 => add_named(&mut block, child),
        2 => add_statements(&mut block, child),
        3 => add_lists(&mut block, child),
        4 => add_regions(&mut block, child),
        5 => add_field_list(alloc, &mut block)?,
        _ => return bytes_of(alloc, table(alloc, *child)),
    }
    finished(block)
}
