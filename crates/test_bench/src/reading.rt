//! Workloads that read.

ghost use Rattle.std.specs.Prelude.{◌≡◌, IfOk};
ghost use Rattle.acpi_term.specs.Tree.{number, end};
ghost use Rattle.acpi_term.specs.View.{view, views};
ghost use Rattle.test_bench.specs.Nesting.{numbers, inside};

use crate::blocks::devices as bytes_of_devices;
use crate::fault::Fault;
use crate::growing::grown;
use acpi_tables::R;
use acpi_tables::madt::MADT;
use acpi_tables::read::{Arities, Table, Term, report_table, report_terms, terms};
use acpi_tables::text::{make, show};
use std::alloc::Global;
use test_support::bytes_of;

/// The terms of this many devices, which call no method.
pub fn read(alloc: Global, devices: u32) -> Result<Vec<Term>, Fault> {
    let bytes = bytes_of_devices(alloc, devices)?;
    let arities = Arities::new(Vec::new(alloc))?;
    Ok(terms(&bytes, &arities)?)
}

// The number of bytes of the report of terms.
fn reported(alloc: Global, terms: &[Term]) -> Result<usize, Fault> {
    Ok(report_terms(alloc, terms)?.len())
}

/// The number of bytes of the report of this many devices.
pub fn reported_devices(alloc: Global, devices: u32) -> Result<usize, Fault> {
    reported(alloc, &read(alloc, devices)?)
}

/// The number of bytes of the report of this many numbers, inside this many frames.
pub fn reported_numbers(alloc: Global, frames: u8, count: u32) -> Result<usize, Fault> {
    reported(alloc, &nested(alloc, frames, count)?)
}

// The bytes of a MADT after this many calls.
fn controllers(alloc: Global, calls: u32) -> R<Vec<u8>> {
    bytes_of::<MADT>(alloc, grown(alloc, calls))
}

/// The number of bytes of the report of such a table.
pub fn reported_table(alloc: Global, calls: u32) -> Result<usize, Fault> {
    let bytes = controllers(alloc, calls)?;
    let table = Table::check(&bytes)?;
    Ok(report_table(alloc, &table)?.len())
}

// The text of such a table by its form.
fn text_of(alloc: Global, calls: u32) -> Result<String, Fault> {
    let bytes = controllers(alloc, calls)?;
    let table = Table::check(&bytes)?;
    Ok(show(alloc, &table)?)
}

/// The number of bytes of this text.
pub fn shown(alloc: Global, calls: u32) -> Result<usize, Fault> {
    Ok(text_of(alloc, calls)?.len())
}

/// The number of bytes of the table that this text is made into.
pub fn remade(alloc: Global, calls: u32) -> Result<usize, Fault> {
    let text = text_of(alloc, calls)?;
    Ok(make(alloc, text.as_bytes())?.bytes.len())
}

fn zero() -> Term
    ensures { view result ≡ (number 0, 0, end) }
{
    Term::Number { value: 0, width: 0 }
}

// This many numbers, inside this many frames.
fn nested(alloc: Global, frames: u8, count: u32) -> R<Vec<Term>>
    ensures { IfOk result (λ terms. views terms.items ≡ inside frames (numbers count)) }
{
    let mut terms = Vec::with_capacity(alloc, count as usize)?;
    'fill: for _filled in 0..count {
        terms.push(zero())?;
    }
    'wrap: for _wrapped in 0..frames {
        let mut around = Vec::with_capacity(alloc, 1)?;
        around.push(Term::Else {
            width: 4,
            body: terms,
        })?;
        terms = around;
    }
    Ok(terms)
}
