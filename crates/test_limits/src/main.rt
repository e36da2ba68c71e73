//! Fills tables until they take no further structure. `test_limits NAME ..` takes the names of tables, `Sdt` and
//! `SystemLocality`, and prints a line for each: how many structures it took, and how many bytes it has. The length and the sum
//! are those in the table's bytes.
//!
//! All tables except VIOT end just below 2^32 bytes. A run takes up to 9 GiB of memory, and minutes.
//!
//! The exit status is 1 if a call returned an error other than that of the size, or the bytes aren't a correct table. It is 2 if
//! a name is unknown.
#![tactic(auto)]

mod arm;
mod fault;
mod filling;
mod lists;
mod matrices;
mod nodes;
mod sdt;

use crate::fault::Fault;
use crate::filling::{Full, fill};
use acpi_tables::cedt::CEDT;
use acpi_tables::dbg2::DBG2;
use acpi_tables::gtdt::GTDT;
use acpi_tables::hest::HEST;
use acpi_tables::hmat::HMAT;
use acpi_tables::iort::IORT;
use acpi_tables::madt::MADT;
use acpi_tables::mcfg::MCFG;
use acpi_tables::pptt::PPTT;
use acpi_tables::rhct::RHCT;
use acpi_tables::rimt::RIMT;
use acpi_tables::rqsc::RQSC;
use acpi_tables::sdt::Sdt;
use acpi_tables::srat::SRAT;
use acpi_tables::viot::VIOT;
use acpi_tables::xsdt::XSDT;
use std::alloc::Global;
use std::process::ExitCode;
use std::rt::Env;
use std::{env, io};

fn main(rt: HostRuntime) -> io::Result<ExitCode> {
    match run(&rt) {
        Ok(()) => Ok(ExitCode::SUCCESS),
        Err(fault) => {
            let status = fault.status();
            eprintln!(rt; "{fault}")?;
            Ok(ExitCode::from(status))
        }
    }
}

// Fills the table of each word, and prints a line for it.
fn run(rt: &(impl Env + Print + AllocGlobal)) -> Result<(), Fault> {
    for name in env::args(rt)?.skip(1) {
        let full = fill_named(rt.alloc(), name.as_str())?;
        println!(rt;
            "{}: {} {}, {} bytes",
            name, full.count, full.unit, full.bytes
        )?;
    }
    Ok(())
}

// Fills the table of a name.
fn fill_named(alloc: Global, name: &str) -> Result<Full, Fault> {
    match name {
        "XSDT" => fill::<XSDT>(alloc),
        "MCFG" => fill::<MCFG>(alloc),
        "MADT" => fill::<MADT>(alloc),
        "SRAT" => fill::<SRAT>(alloc),
        "CEDT" => fill::<CEDT>(alloc),
        "HEST" => fill::<HEST>(alloc),
        "RQSC" => fill::<RQSC>(alloc),
        "PPTT" => fill::<PPTT>(alloc),
        "RHCT" => fill::<RHCT>(alloc),
        "VIOT" => fill::<VIOT>(alloc),
        "RIMT" => fill::<RIMT>(alloc),
        "HMAT" => fill::<HMAT>(alloc),
        "GTDT" => fill::<GTDT>(alloc),
        "DBG2" => fill::<DBG2>(alloc),
        "IORT" => fill::<IORT>(alloc),
        "Sdt" => fill::<Sdt>(alloc),
        "SLIT" => matrices::slit(alloc),
        "SystemLocality" => matrices::system_locality(alloc),
        _ => Err(Fault::Name(String::from_str(alloc, name)?)),
    }
}
