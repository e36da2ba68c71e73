//! Tables and terms that are read, and their reports.

use crate::fault::Fault;
use crate::trial::{Grows, Trial};
use acpi_tables::gtdt::GTDT;
use acpi_tables::read::{
    Arities, NameString, Table, Term, report_header, report_table, report_terms, terms, terms_of,
};
use acpi_tables::xsdt::XSDT;
use acpi_tables::{Aml, R};
use std::alloc::Global;
use test_support::written;

// A device with an id and its resources (ACPI 6.5, chapter 20).
const DEVICE: [u8; 50] = *b"\x5b\x82\x30\x2e_SB_COM1\x08_HID\x0c\x41\xd0\x05\x01\
\x08_CRS\x11\x16\x0a\x13\x89\x06\0\x03\x01\x04\0\0\0\x47\x01\xf8\x03\xf8\x03\0\x08\x79\0";

// A method that calls another one on a package with a text and on a number; fields; a name in a scope.
const REST: [u8; 47] =
    *b"\x14\x12_STA\0MTHD\x12\x06\x02\x01\x0d0\0\x01\x5b\x81\x0dPRST\x41\0\x20CPEN\x01\x10\x0c\\_SB_\x08_UID\0";

fn arities(alloc: Global) -> Result<Arities, Fault> {
    let name = NameString::new(alloc, "MTHD")?;
    Ok(Arities::new(vec![in alloc; (name, 2u8)]?)?)
}

// The terms of a borrowed object, and those of bytes.
fn terms_in(object: &dyn Aml, arities: &Arities) -> Result<Vec<Term>, Fault> {
    Ok(terms_of(object, arities)??)
}

fn count_report(trial: &mut Trial, alloc: Global, terms: &[Term]) -> Result<(), Fault> {
    let report = trial.make(&7u8, || Ok(report_terms(alloc, terms)?))?;
    trial.count(report.as_bytes());
    Ok(())
}

/// Terms and their reports.
pub fn bytecode(trial: &mut Trial, alloc: Global) -> Result<(), Fault> {
    let arities = trial.make(&7u8, || arities(alloc))?;
    for bytes in [DEVICE.as_slice(), REST.as_slice()] {
        let list = trial.make(&7u8, || Ok(terms(bytes, &arities)?))?;
        count_report(trial, alloc, &list)?;
    }
    let list = trial.make(&7u8, || terms_in(&7u8, &arities))?;
    count_report(trial, alloc, &list)
}

fn xsdt(alloc: Global) -> R<Vec<u8>> {
    let mut table = XSDT::empty(alloc)?;
    table.grow(alloc, 0)?;
    table.grow(alloc, 0)?;
    written(alloc, &table)
}

fn count_reports(trial: &mut Trial, alloc: Global, table: &Table<'_>) -> Result<(), Fault> {
    let report = trial.make(&7u8, || Ok(report_header(alloc, table)?))?;
    trial.count(report.as_bytes());
    let report = trial.make(&7u8, || Ok(report_table(alloc, table)?))?;
    trial.count(report.as_bytes());
    Ok(())
}

fn count_pieces(trial: &mut Trial, alloc: Global, table: &Table<'_>) -> Result<(), Fault> {
    for piece in &trial.make(&7u8, || Ok(table.pieces(alloc)?))? {
        trial.count(piece.bytes);
    }
    Ok(())
}

/// The structures of a table, and its reports.
pub fn tables(trial: &mut Trial, alloc: Global) -> Result<(), Fault> {
    let bytes = trial.make(&7u8, || Ok(xsdt(alloc)?))?;
    let table = Table::check(&bytes)?;
    count_reports(trial, alloc, &table)?;
    count_pieces(trial, alloc, &table)
}

// A table with one watchdog.
fn gtdt(alloc: Global) -> R<Vec<u8>> {
    let mut table = GTDT::empty(alloc)?;
    table.grow(alloc, 1)?;
    written(alloc, &table)
}

/// The structures of a table that `pieces` doesn't walk.
pub fn further_table(trial: &mut Trial, alloc: Global) -> Result<(), Fault> {
    let bytes = trial.make(&7u8, || Ok(gtdt(alloc)?))?;
    let table = Table::check(&bytes)?;
    for piece in &trial.make(&7u8, || Ok(table.structures(alloc)?))? {
        trial.count(piece.bytes);
    }
    Ok(())
}
