#![tactic(auto)]

use acpi_build::block::Block;
use acpi_build::eisa_id::EisaId;
use acpi_build::error::BuildError;
use acpi_tables::aml::{IO, Interrupt};
use acpi_tables::sdt::Sdt;
use std::alloc::Global;
use std::process::ExitCode;
use std::{fs, io};

fn definition_block(alloc: Global) -> Result<Sdt, BuildError> {
    let mut block = Block::new(alloc);
    block.device("\\_SB_.COM1");
    block.name("_HID", &EisaId("PNP0501"));
    block.resources("_CRS");
    block.add(&Interrupt::new(true, true, false, false, 4));
    block.add(&IO::new(0x3f8, 0x3f8, 0, 8));
    block.end();
    block.end();
    let mut table = Sdt::new(alloc, *b"DSDT", 36, 2, *b"FOOBAR", *b"CAFEDEAD", 1)?;
    table.append_slice(&block.finish()?)?;
    Ok(table)
}

fn main(rt: HostRuntime) -> io::Result<ExitCode> {
    let Ok(table) = definition_block(rt.alloc()) else {
        return Ok(ExitCode::from(1));
    };
    fs::write(&rt, "dsdt", table.as_slice())?;
    Ok(ExitCode::SUCCESS)
}
