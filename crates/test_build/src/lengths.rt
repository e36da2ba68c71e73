//! PkgLengths of one to four bytes (ACPI 6.5, 20.2.4).

use crate::blocks::{bytes_of, fails};
use acpi_build::block::Block;
use acpi_build::error::BuildError;
use acpi_tables::Error;
use acpi_tables::aml::ZERO;
use std::alloc::Global;
use std::test::Fail;
use test_support::{equal, same};

// A scope with this many zeros after its name.
fn scope_of(alloc: Global, zeros: usize) -> Block {
    let mut block = Block::new(alloc);
    block.scope("_SB_");
    for _ in 0..zeros {
        block.add(&ZERO);
    }
    block.end();
    block
}

// The last content with a length of one byte, and the first ones with two and three.
#[test]
fn widths(rt: HostRuntime) -> Result<(), Fail> {
    let rows: [(usize, &[u8]); 4] = [
        (58, b"\x10\x3f_SB_"),
        (59, b"\x10\x41\x04_SB_"),
        (4089, b"\x10\x4f\xff_SB_"),
        (4090, b"\x10\x81\x00\x01_SB_"),
    ];
    for (zeros, wanted) in rows {
        let bytes = bytes_of(scope_of(rt.alloc(), zeros))?;
        equal(&bytes.len(), &(wanted.len() + zeros))?;
        same(bytes.get(..wanted.len()).unwrap_or(&[]), wanted)?;
    }
    Ok(())
}

// The same of a text of this many bytes.
fn scope_of_text(alloc: Global, size: usize) -> Result<Block, Fail> {
    let mut text = String::new(alloc);
    for _ in 0..size {
        text.push('A')?;
    }
    let mut block = Block::new(alloc);
    block.scope("_SB_");
    block.add(&text);
    block.end();
    Ok(block)
}

#[test]
fn long_contents(rt: HostRuntime) -> Result<(), Fail> {
    let rows: [(usize, &[u8]); 3] = [
        (0x10000, b"\x10\x89\x00\x10_SB_\x0d"),
        (0xffff6, b"\x10\x8f\xff\xff_SB_\x0d"),
        (0xffff7, b"\x10\xc1\x00\x00\x01_SB_\x0d"),
    ];
    for (size, wanted) in rows {
        let bytes = bytes_of(scope_of_text(rt.alloc(), size)?)?;
        same(bytes.get(..wanted.len()).unwrap_or(&[]), wanted)?;
    }
    Ok(())
}
