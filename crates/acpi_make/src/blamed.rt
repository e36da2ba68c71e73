//! Which number of a text is the cause, where its lines aren't those of the text that shows the table.

ghost use Rattle.std.specs.Prelude.{◌≡◌, Option, Result, IfOk};
ghost use Rattle.acpi_make.specs.Blamed.{first_untrue, another_own};
ghost use Rattle.acpi_make.specs.Blamed.{has_lines, cause, blamed};
ghost use Rattle.acpi_make.specs.Draft.{drafted, fault_in};
ghost use Rattle.acpi_make.specs.Fault as declared;
ghost use Rattle.acpi_make.specs.Fault.{fault_of};
ghost use Rattle.acpi_make.specs.Gives.{Gives};
ghost use Rattle.acpi_make.specs.Source.{source_of};

use crate::another::another_at;
use crate::compare::difference;
use crate::complete::length_own;
use crate::draft::{Draft, Mark, Source};
use crate::extent::Own;
use crate::fault::{Fault, MakeError};
use crate::file_kind::FileKind;
use crate::notes::is_untrue;
use crate::right::set_numbers;
use acpi_base::walk::Walk;
use std::alloc::{AllocError, Global};

// Returns the first number that isn't in its field, other than the length of all bytes.
fn first_untrue(length_at: usize, owns: &[Own], bytes: &[u8]) -> Option<Own>
    ensures { result ≡ first_untrue length_at owns.now bytes.now }
{
    'owns: for own in owns {
        if own.offset != length_at && is_untrue(own, bytes) {
            return Some(*own);
        }
    }
    None
}

// Returns the fault of the line of a number.
fn another_own(source: &Source, marks: &[Mark], own: Option<Own>) -> Option<Fault>
    ensures { fault_in result ≡ another_own (source_of source.now) marks.now own }
{
    match own {
        Some(own) => another_at(source, marks, own.offset, own.number),
        None => None,
    }
}

// Returns whether a text has the lines of the text that shows a table.
fn has_lines(outcome: Result<Option<Fault>, MakeError>) -> Result<bool, AllocError>
    ensures { (meant : Result (Option declared.Fault) declared.Fault) → Gives fault_in outcome meant
        → IfOk result (λ has. has ≡ has_lines meant) }
{
    match outcome {
        Ok(None) => Ok(true),
        Ok(Some(_)) => Ok(false),
        Err(MakeError::Fault(_)) => Ok(false),
        Err(MakeError::Memory) => Err(AllocError),
    }
}

// Returns a number that isn't right, if the text has the lines of the table with the right numbers, or else a line.
fn cause(has_lines: bool, number: Option<Fault>, wrong: Fault) -> Fault
    ensures { fault_of result ≡ cause has_lines (fault_in number) (fault_of wrong) }
{
    match number {
        Some(fault) if has_lines => fault,
        _ => wrong,
    }
}

/// Returns what is wrong with a text whose lines are others than those of the table of these bytes: a number that isn't right, if
/// the lines are those of the table with the right numbers.
pub fn blamed(
    alloc: Global,
    file_kind: FileKind,
    walk: Option<Walk>,
    source: &Source,
    draft: &Draft,
    owns: &[Own],
    bytes: &[u8],
    wrong: Option<Fault>,
) -> Result<Option<Fault>, AllocError>
    ensures { IfOk result (λ fault. fault_in fault
        ≡ blamed file_kind walk (source_of source.now) (drafted draft.now) owns.now bytes.now (fault_in wrong)) }
{
    let Some(wrong) = wrong else {
        return Ok(None);
    };
    let mut right = Vec::from_slice(alloc, bytes)?;
    set_numbers(owns, &mut right);
    let is_right = has_lines(difference(alloc, walk, source, draft, &right))?;
    let length_at = length_own(file_kind, 0).offset;
    let number = another_own(source, &draft.marks, first_untrue(length_at, owns, bytes));
    Ok(Some(cause(is_right, number, wrong)))
}
