//! Makes every call that can grow a vector, and makes it again if it was refused memory. Then it prints how many bytes the calls
//! made, the sum of these bytes, and how many calls returned that memory ran out. The first two are the same for each growth that
//! is refused, if only one is. The third is then 1, or 0 if a list was only to give back room.
//!
//! These bytes are counted, in this order:
//!
//! - each type of `fill_lists`, `fill_others`, `fill_arm` and `fill_pc`, once for each of its `WAYS`: `empty`, after five calls
//!   of `grow` in this way. `grow` of MADT in way 1 adds one structure in all, since a MADT has one IMSIC at most;
//! - the error data entry with five objects of three bytes, and the three clones (`errors`);
//! - each object of `part`, `aml`, `descriptors`, `operators` and `built`, once;
//! - the image, twice; that without a FACS; that with an RSDT, with four zeros and the RSDP after it; that with an RSDT and
//!   without a FACS, and its RSDP; that of files, and the three files of a loader (`image`);
//! - the reports of three lists of terms, an XSDT's report of its header, its whole report, and its two entries, and
//!   the structure of a GTDT (`reading`).
//!
//! The first two numbers follow from the layouts in `docs/FORMATS.md` and `docs/AML.md`, and from the values in these modules.
//! For example, an XSDT of five entries 0x1234 has 36 + 5 * 8 = 76 bytes. Without the checksum their sum is 2524 for the header
//! and 5 * (0x34 + 0x12) = 350 for the entries. The checksum raises 2874 to the next multiple of 256, which is 3072. When a call
//! is added here, the bytes that it makes are computed in this way and added to these numbers of `stdout`.
#![tactic(auto)]

mod aml;
mod arm;
mod blocks;
mod built;
mod channels;
mod cxl;
mod descriptors;
mod errors;
mod fault;
mod image;
mod ivrs;
mod lists;
mod matrices;
mod nodes;
mod operators;
mod pc;
mod reading;
mod trial;

use crate::fault::Fault;
use crate::trial::Trial;
use acpi_tables::R;
use acpi_tables::aml::PackageBuilder;
use acpi_tables::cedt::{CEDT, XorInterleaveMath};
use acpi_tables::dbg2::DBG2;
use acpi_tables::dmar::DMAR;
use acpi_tables::erst::ERST;
use acpi_tables::fpdt::FPDT;
use acpi_tables::gtdt::{GTDT, GtBlock};
use acpi_tables::hest::HEST;
use acpi_tables::hmat::{HMAT, MemorySideCache};
use acpi_tables::iort::{
    IORT, ItsGroup, NamedComponent, ReservedMemory, RootComplex, Smmu, SmmuV3,
};
use acpi_tables::ivrs::IVRS;
use acpi_tables::madt::MADT;
use acpi_tables::mcfg::MCFG;
use acpi_tables::nfit::NFIT;
use acpi_tables::pcct::PCCT;
use acpi_tables::pptt::PPTT;
use acpi_tables::rhct::RHCT;
use acpi_tables::rimt::RIMT;
use acpi_tables::rqsc::{QoSController, RQSC};
use acpi_tables::rsdt::RSDT;
use acpi_tables::sdt::Sdt;
use acpi_tables::srat::SRAT;
use acpi_tables::viot::VIOT;
use acpi_tables::xsdt::XSDT;
use std::alloc::Global;
use test_support::bytes_of;

fn main(rt: HostRuntime) -> Result<(), Fault> {
    let mut trial = Trial::new(rt.alloc())?;
    fill_all(&mut trial, rt.alloc())?;
    make_all(&mut trial, rt.alloc())?;
    let tally = trial.tally;
    println!(rt;
        "{} bytes, sum {}, calls out of memory: {}",
        tally.length, tally.sum, tally.refusals
    )?;
    Ok(())
}

fn fill_all(trial: &mut Trial, alloc: Global) -> Result<(), Fault> {
    fill_lists(trial, alloc)?;
    fill_others(trial, alloc)?;
    fill_arm(trial, alloc)?;
    fill_pc(trial, alloc)
}

fn make_all(trial: &mut Trial, alloc: Global) -> Result<(), Fault> {
    errors::entry(trial, alloc)?;
    errors::clones(trial, alloc)?;
    make_objects(trial, alloc)?;
    image::images(trial, alloc)?;
    reading::bytecode(trial, alloc)?;
    reading::tables(trial, alloc)?;
    reading::further_table(trial, alloc)
}

fn fill_lists(trial: &mut Trial, alloc: Global) -> Result<(), Fault> {
    trial.fill::<XSDT>(alloc)?;
    trial.fill::<MCFG>(alloc)?;
    trial.fill::<MADT>(alloc)?;
    trial.fill::<SRAT>(alloc)?;
    trial.fill::<CEDT>(alloc)?;
    trial.fill::<XorInterleaveMath>(alloc)?;
    trial.fill::<HEST>(alloc)?;
    trial.fill::<RQSC>(alloc)?;
    trial.fill::<QoSController>(alloc)
}

fn fill_others(trial: &mut Trial, alloc: Global) -> Result<(), Fault> {
    trial.fill::<PPTT>(alloc)?;
    trial.fill::<RHCT>(alloc)?;
    trial.fill::<VIOT>(alloc)?;
    trial.fill::<RIMT>(alloc)?;
    trial.fill::<HMAT>(alloc)?;
    trial.fill::<MemorySideCache>(alloc)?;
    trial.fill::<Sdt>(alloc)?;
    trial.fill::<PackageBuilder>(alloc)
}

fn fill_arm(trial: &mut Trial, alloc: Global) -> Result<(), Fault> {
    trial.fill::<GtBlock>(alloc)?;
    trial.fill::<GTDT>(alloc)?;
    trial.fill::<DBG2>(alloc)?;
    trial.fill::<ItsGroup>(alloc)?;
    trial.fill::<NamedComponent>(alloc)?;
    trial.fill::<RootComplex>(alloc)?;
    trial.fill::<Smmu>(alloc)?;
    trial.fill::<SmmuV3>(alloc)?;
    trial.fill::<ReservedMemory>(alloc)?;
    trial.fill::<IORT>(alloc)
}

fn fill_pc(trial: &mut Trial, alloc: Global) -> Result<(), Fault> {
    trial.fill::<RSDT>(alloc)?;
    trial.fill::<FPDT>(alloc)?;
    trial.fill::<ERST>(alloc)?;
    trial.fill::<DMAR>(alloc)?;
    trial.fill::<NFIT>(alloc)?;
    trial.fill::<IVRS>(alloc)?;
    trial.fill::<PCCT>(alloc)
}

// Structures and tables that are made whole by one call.
fn part(alloc: Global, which: u8) -> R<Vec<u8>> {
    match which {
        0 => bytes_of(alloc, cxl::window(alloc)),
        1 => bytes_of(alloc, matrices::latencies(alloc)),
        _ => bytes_of(alloc, matrices::distances(alloc)),
    }
}

fn make_aml(trial: &mut Trial, alloc: Global, child: &u32) -> Result<(), Fault> {
    let (named, both) = (aml::NAMED, aml::NAMED_FRAMED);
    trial.all(child, named, |which: u8| aml::named(alloc, child, which))?;
    trial.all(
        child,
        both,
        |which: u8| aml::named_framed(alloc, child, which),
    )?;
    trial.all(
        child,
        aml::FRAMED,
        |which: u8| aml::framed(alloc, child, which),
    )?;
    trial.all(
        child,
        aml::STANDARD,
        |which: u8| aml::standard(alloc, child, which),
    )?;
    trial.all(child, aml::DATA, |which: u8| aml::data(alloc, child, which))
}

fn make_others(trial: &mut Trial, alloc: Global, child: &u32) -> Result<(), Fault> {
    let (descriptors, operators) = (descriptors::DESCRIPTORS, operators::OPERATORS);
    trial.all(
        child,
        descriptors,
        |which: u8| descriptors::descriptor(alloc, which),
    )?;
    trial.all(
        child,
        operators,
        |which: u8| operators::operator(alloc, child, which),
    )?;
    trial.all(
        child,
        built::BUILT,
        |which: u8| built::built(alloc, child, which),
    )
}

fn make_objects(trial: &mut Trial, alloc: Global) -> Result<(), Fault> {
    let child = 0x0102_0304u32;
    trial.all(&child, 3, |which: u8| part(alloc, which))?;
    make_aml(trial, alloc, &child)?;
    make_others(trial, alloc, &child)
}
