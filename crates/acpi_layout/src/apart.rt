//! Tables that don't overlap.

ghost use Rattle.std.specs.Prelude.{◌≡◌, ◌≢◌, ◌+◌, ◌*◌, ◌≤◌, IsTrue, OnOk, IfOk, IfErr, ◌↔◌};
ghost use Rattle.acpi_layout.specs.declared.fault.ImageFault.TheVariants.{Memory};
ghost use Rattle.acpi_layout.specs.Apart.{ByMiddle, middle, overlap_of};
ghost use Rattle.acpi_layout.specs.Found.{AreApart};
ghost use Rattle.acpi_layout.specs.Fault.{IsOverlap};

use crate::fault::ImageFault;
use crate::located::Located;
use std::alloc::{AllocError, Global};

// Whether the first table ends before the second begins.
fn ends_before(first: &Located, second: &Located) -> bool
    ensures { IsTrue result ↔ (first.now.address + first.now.length ≤ second.now.address) }
{
    first.address <= second.address && first.length as u64 <= second.address - first.address
}

// Twice the address of the middle of a table. Of two tables that don't overlap, the one with the lower middle ends before the
// other begins. Addresses alone don't say this of a table without bytes.
fn middle(table: &Located) -> u128
    ensures { result ≡ middle table.now }
{
    2 * u128::from(table.address) + u128::from(table.length)
}

// The tables with their places in the list, in the order of their middles.
fn by_middle(alloc: Global, tables: &[Located]) -> Result<Vec<(Located, usize)>, AllocError>
    ensures { IfOk result (λ all. ByMiddle tables.now all.items) }
{
    let mut all = Vec::with_capacity(alloc, tables.len())?;
    'tables: for i in 0..tables.len() {
        all.push((tables[i], i))?;
    }
    all.sort_unstable_by_key(|placed| middle(&placed.0));
    Ok(all)
}

// The fault of two tables that overlap. The one that stands first in the list is named first.
fn overlap(first: (Located, usize), second: (Located, usize)) -> ImageFault
    ensures { result ≡ overlap_of first second }
{
    if first.1 < second.1 {
        ImageFault::Overlap(first.0.address, second.0.address)
    } else {
        ImageFault::Overlap(second.0.address, first.0.address)
    }
}

// No two of these tables overlap. Only neighbours in the order of middles are compared: if each ends before the next begins, it
// ends before all that follow.
pub(crate) fn are_apart(alloc: Global, tables: &[Located]) -> Result<(), ImageFault>
    ensures ok { OnOk result (AreApart tables.now) }
    ensures err { IfErr result (λ e. e ≢ Memory → ¬ AreApart tables.now) }
    ensures fault { IfErr result (λ e. e ≢ Memory → IsOverlap tables.now e) }
{
    let all = by_middle(alloc, tables)?;
    'all: for i in 1..all.len() {
        let (first, second) = (all[i - 1], all[i]);
        if !ends_before(&first.0, &second.0) {
            return Err(overlap(first, second));
        }
    }
    Ok(())
}
