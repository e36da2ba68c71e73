//! The workloads by name.

use crate::blocks::{block, bytecode};
use crate::fault::Fault;
use crate::growing::{Growing, grown};
use crate::matrices::{hmat, slit};
use crate::nodes::{harts, ranges};
use crate::reading::{read, remade, reported_devices, reported_numbers, reported_table, shown};
use acpi_tables::cedt::CEDT;
use acpi_tables::hest::HEST;
use acpi_tables::madt::MADT;
use acpi_tables::mcfg::MCFG;
use acpi_tables::pptt::PPTT;
use acpi_tables::rimt::RIMT;
use acpi_tables::rqsc::RQSC;
use acpi_tables::srat::SRAT;
use acpi_tables::xsdt::XSDT;
use acpi_tables::{Aml, R};
use std::alloc::Global;
use test_support::bytes_of;

// The number of bytes that an object writes.
fn size_of<T: Aml + Drop>(alloc: Global, made: R<T>) -> Result<usize, Fault> {
    Ok(bytes_of(alloc, made)?.len())
}

// The number of bytes of a table after this many calls.
fn table<T: Growing>(alloc: Global, calls: u32) -> Result<usize, Fault> {
    size_of::<T>(alloc, grown(alloc, calls))
}

// The number of bytes that the workload with this name makes.
fn sized(alloc: Global, name: &str, size: u32) -> Option<Result<usize, Fault>> {
    let made = match name {
        "xsdt" => table::<XSDT>(alloc, size),
        "mcfg" => table::<MCFG>(alloc, size),
        "madt" => table::<MADT>(alloc, size),
        "srat" => table::<SRAT>(alloc, size),
        "cedt" => table::<CEDT>(alloc, size),
        "hest" => table::<HEST>(alloc, size),
        "rqsc" => table::<RQSC>(alloc, size),
        "pptt" => table::<PPTT>(alloc, size),
        "rimt" => table::<RIMT>(alloc, size),
        "rhct" => size_of(alloc, harts(alloc, size)),
        "viot" => size_of(alloc, ranges(alloc, size)),
        "slit" => size_of(alloc, slit(alloc, size)),
        "hmat" => size_of(alloc, hmat(alloc, size)),
        "aml" => bytecode(alloc, size),
        "dsdt" => size_of(alloc, block(alloc, size)),
        "make" => remade(alloc, size),
        _ => return None,
    };
    Some(made)
}

// The number of bytes of the text that the workload with this name makes.
fn told(alloc: Global, name: &str, size: u32) -> Option<Result<usize, Fault>> {
    let made = match name {
        "report" => reported_devices(alloc, size),
        "table" => reported_table(alloc, size),
        "show" => shown(alloc, size),
        "flat" => reported_numbers(alloc, 0, size),
        "deep" => reported_numbers(alloc, 249, size),
        _ => return None,
    };
    Some(made)
}

/// Runs the workload with this name, and returns how much was made, and of what. It returns `None` if there is no such workload.
pub fn made(alloc: Global, name: &str, size: u32) -> Result<Option<(usize, &'static str)>, Fault> {
    if name == "terms" {
        return Ok(Some((read(alloc, size)?.len(), "terms")));
    }
    if let Some(made) = sized(alloc, name, size) {
        return Ok(Some((made?, "bytes")));
    }
    match told(alloc, name, size) {
        Some(made) => Ok(Some((made?, "bytes of text"))),
        None => Ok(None),
    }
}
