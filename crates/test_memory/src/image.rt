//! The images of a guest's tables, and the loader of files.

use crate::fault::Fault;
use crate::trial::{Grows, Trial};
use acpi_loader::loader_of;
use acpi_tables::facs::FACS;
use acpi_tables::fadt::FADTBuilder;
use acpi_tables::layout::{
    Image, Range, Root, RsdtImage, check_image, check_image_of, check_memory, lay, lay_files,
    lay_reduced, lay_reduced_rsdt, lay_rsdt,
};
use acpi_tables::mcfg::MCFG;
use acpi_tables::sdt::Sdt;
use acpi_tables::{Aml, R};
use std::alloc::Global;
use test_support::{OEM, OEM_REVISION, OEM_TABLE, written};

fn mcfg(alloc: Global) -> R<MCFG> {
    let mut table = MCFG::empty(alloc)?;
    table.grow(alloc, 0)?;
    Ok(table)
}

fn fadt() -> FADTBuilder {
    FADTBuilder::new(OEM, OEM_TABLE, OEM_REVISION)
}

fn image(alloc: Global, block: &Sdt, table: &MCFG) -> R<Image> {
    lay(
        0x1000,
        OEM,
        OEM_TABLE,
        OEM_REVISION,
        block,
        &FACS::new(),
        fadt(),
        vec![in alloc; table as &dyn Aml]?,
    )
}

fn reduced_image(alloc: Global, block: &Sdt, table: &MCFG) -> R<Image> {
    lay_reduced(
        0x1000,
        OEM,
        OEM_TABLE,
        OEM_REVISION,
        block,
        fadt(),
        vec![in alloc; table as &dyn Aml]?,
    )
}

fn low_image(alloc: Global, block: &Sdt, table: &MCFG) -> Result<RsdtImage, Fault> {
    let tables = vec![in alloc; table as &dyn Aml]?;
    Ok(lay_rsdt(
        0x1000,
        0x11f0,
        OEM,
        OEM_TABLE,
        OEM_REVISION,
        block,
        &FACS::new(),
        fadt(),
        tables,
    )?)
}

fn low_reduced_image(alloc: Global, block: &Sdt, table: &MCFG) -> Result<RsdtImage, Fault> {
    let tables = vec![in alloc; table as &dyn Aml]?;
    Ok(lay_reduced_rsdt(
        0x1000,
        0x11f0,
        OEM,
        OEM_TABLE,
        OEM_REVISION,
        block,
        fadt(),
        tables,
    )?)
}

// Makes the list of an image's tables in both ways, and that of the addresses in its XSDT.
fn lists(trial: &mut Trial, alloc: Global, lent: &dyn Aml, image: &Image) -> Result<(), Fault> {
    let bytes = image.bytes.as_slice();
    trial.make(lent, || Ok(check_image(alloc, bytes, 0x1000, image.rsdp)?))?;
    let range = Range {
        address: 0x1000,
        bytes,
    };
    trial.make(lent, || Ok(check_memory(alloc, &[range], image.rsdp)?))?;
    trial.make(lent, || Ok(image.addresses(alloc, 0x1000)?))?;
    Ok(())
}

// Makes an image and its lists.
fn whole(
    trial: &mut Trial,
    alloc: Global,
    lent: &dyn Aml,
    block: &Sdt,
    table: &MCFG,
) -> Result<(), Fault> {
    let image = trial.make(lent, || Ok(image(alloc, block, table)?))?;
    trial.count(&image.bytes);
    lists(trial, alloc, lent, &image)
}

// Makes an image without a FACS.
fn reduced(
    trial: &mut Trial,
    alloc: Global,
    lent: &dyn Aml,
    block: &Sdt,
    table: &MCFG,
) -> Result<(), Fault> {
    let image = trial.make(lent, || Ok(reduced_image(alloc, block, table)?))?;
    trial.count(&image.bytes);
    Ok(())
}

// The bytes of an image of 492 bytes at 0x1000, and the RSDP at 0x11f0.
fn with_pointer(alloc: Global, image: &RsdtImage) -> R<Vec<u8>> {
    let mut bytes = Vec::from_slice(alloc, &image.bytes)?;
    bytes.resize(496, 0)?;
    bytes.extend_from_slice(&image.pointer)?;
    Ok(bytes)
}

// Makes an image with an RSDT, and the list of its tables.
fn low(
    trial: &mut Trial,
    alloc: Global,
    lent: &dyn Aml,
    block: &Sdt,
    table: &MCFG,
) -> Result<(), Fault> {
    let image = trial.make(lent, || low_image(alloc, block, table))?;
    let bytes = trial.make(lent, || Ok(with_pointer(alloc, &image)?))?;
    trial.count(&bytes);
    let check = || Ok(check_image_of(alloc, Root::Rsdt, &bytes, 0x1000, 0x11f0)?);
    trial.make(lent, check)?;
    Ok(())
}

// Makes an image with an RSDT and without a FACS.
fn low_reduced(
    trial: &mut Trial,
    alloc: Global,
    lent: &dyn Aml,
    block: &Sdt,
    table: &MCFG,
) -> Result<(), Fault> {
    let image = trial.make(lent, || low_reduced_image(alloc, block, table))?;
    trial.count(&image.bytes);
    trial.count(&image.pointer);
    Ok(())
}

fn push_file(alloc: Global, object: &dyn Aml, files: &mut Vec<Vec<u8>>) -> R<()> {
    let file = written(alloc, object)?;
    files.push(file)?;
    Ok(())
}

// The files of a FACS, a definition block, a FADT and a table.
fn files_of(alloc: Global, block: &Sdt, table: &MCFG) -> R<Vec<Vec<u8>>> {
    let mut files = Vec::new(alloc);
    push_file(alloc, &FACS::new(), &mut files)?;
    push_file(alloc, block, &mut files)?;
    push_file(alloc, &fadt().finalize(), &mut files)?;
    push_file(alloc, table, &mut files)?;
    Ok(files)
}

// Makes the image of files, and their loader.
fn from_files(
    trial: &mut Trial,
    alloc: Global,
    lent: &dyn Aml,
    files: &[Vec<u8>],
) -> Result<(), Fault> {
    let image = trial.make(lent, || Ok(lay_files(alloc, 0x1000, files)?))?;
    trial.count(&image.bytes);
    let loader = trial.make(lent, || Ok(loader_of(alloc, files)?))?;
    for file in [&loader.tables, &loader.rsdp, &loader.script] {
        trial.count(file);
    }
    Ok(())
}

// Makes files, and what is made of them.
fn filed(trial: &mut Trial, alloc: Global, block: &Sdt, table: &MCFG) -> Result<(), Fault> {
    let files = trial.make(table, || Ok(files_of(alloc, block, table)?))?;
    from_files(trial, alloc, table, &files)
}

/// An image, which borrows the definition block and the tables, the list of its tables, and that of the addresses in its XSDT.
/// Images without a FACS, with an RSDT, and of files, and a loader.
pub fn images(trial: &mut Trial, alloc: Global) -> Result<(), Fault> {
    let block = trial.make(&0x1000u16, || Ok(Sdt::empty(alloc)?))?;
    let table = trial.make(&block, || Ok(mcfg(alloc)?))?;
    whole(trial, alloc, &block, &block, &table)?;
    whole(trial, alloc, &table, &block, &table)?;
    reduced(trial, alloc, &table, &block, &table)?;
    low(trial, alloc, &table, &block, &table)?;
    low_reduced(trial, alloc, &table, &block, &table)?;
    filed(trial, alloc, &block, &table)
}
