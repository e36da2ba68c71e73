//! Tables from texts.

ghost use Rattle.std.specs.Prelude.{◌≡◌, ◌++◌, length, OnOk, Result};
ghost use Rattle.acpi_make.specs.Complete.{completed};
ghost use Rattle.acpi_make.specs.Draft.{drafted, fault_in};
ghost use Rattle.acpi_make.specs.Own.{none_own};
ghost use Rattle.acpi_make.specs.Fault as declared;
ghost use Rattle.acpi_make.specs.Gives.{Gives};
ghost use Rattle.acpi_make.specs.Made.{Table, type_place, sizes_own, numbers_own, finished, or_doubt, made, table_of};
ghost use Rattle.acpi_make.specs.Source.{source_of};

use crate::blamed::blamed;
use crate::compare::difference;
use crate::complete::{complete, length_own};
use crate::draft::{Draft, Source, draft_of};
use crate::extent::Own;
use crate::fault::{Fault, MakeError};
use crate::file_kind::FileKind;
use crate::item::Item;
use crate::notes::notes;
use crate::own::{push_none, push_references, push_table, push_walk};
use crate::short::short;
use acpi_base::walk::{Place, Walk};
use acpi_text::form::TableForm;
use std::alloc::{AllocError, Global};

/// A table that was made of a text.
#[derive(Debug, Drop)]
pub struct Made {
    /// Its bytes.
    pub bytes: Vec<u8>,
    /// Its own numbers that aren't in its bytes since the text states others, with the values that would be right.
    pub untrue: Vec<Own>,
}

/// Returns the place of a structure's type.
pub fn type_place(walk: Option<Walk>) -> Place
    ensures { result ≡ type_place walk }
{
    match walk {
        Some(walk) => walk.kind,
        None => Place::Nowhere,
    }
}

// Adds the length of a table, and what its walk says of its structures.
fn push_sizes(
    file_kind: FileKind,
    walk: Option<Walk>,
    draft: &Draft,
    owns: &mut Vec<Own>,
) -> Result<(), AllocError>
    ensures { OnOk result (owns.new.items ≡ owns.old.items ++ sizes_own file_kind walk (drafted draft.now)) }
{
    let total = draft.cells.len();
    owns.push(length_own(file_kind, total))?;
    push_walk(walk, &draft.marks, total, owns)
}

// Returns the offsets to which references refer, and then all numbers that a table has of itself.
fn numbers_own(
    alloc: Global,
    file_kind: FileKind,
    walk: Option<Walk>,
    source: &Source,
    draft: &Draft,
) -> Result<Vec<Own>, MakeError>
    ensures { Gives (λ owns. owns.items) result (numbers_own file_kind walk (source_of source.now) (drafted draft.now)) }
{
    let mut owns = Vec::new(alloc);
    push_references(source.text, &draft.marks, &mut owns)?;
    push_sizes(file_kind, walk, draft, &mut owns)?;
    push_table(source, &draft.cells, &draft.marks, &mut owns)?;
    Ok(owns)
}

// Returns the bytes of a table in the making, in which its own numbers were worked out.
fn complete_all(
    alloc: Global,
    file_kind: FileKind,
    walk: Option<Walk>,
    draft: &Draft,
    owns: &[Own],
) -> Result<Vec<u8>, MakeError>
    ensures { Gives (λ bytes. bytes.items) result (completed file_kind
        (owns.now ++ none_own walk (drafted draft.now).marks (length (drafted draft.now).cells)) (drafted draft.now).cells) }
{
    let mut all = owns.to_vec(alloc)?;
    push_none(walk, &draft.marks, draft.cells.len(), &mut all)?;
    complete(alloc, file_kind, &all, &draft.cells)
}

// Returns the table of a table in the making. Its text has the lines of the text that shows the table.
fn finish(
    alloc: Global,
    file_kind: FileKind,
    walk: Option<Walk>,
    source: &Source,
    draft: &Draft,
) -> Result<Made, MakeError>
    ensures { Gives table_of result (finished file_kind walk (source_of source.now) (drafted draft.now)) }
{
    let owns = numbers_own(alloc, file_kind, walk, source, draft)?;
    if let Some(fault) = short(file_kind, walk, source, draft) {
        return Err(MakeError::Fault(fault));
    }
    let bytes = complete_all(alloc, file_kind, walk, draft, &owns)?;
    let wrong = difference(alloc, walk, source, draft, &bytes)?;
    if let Some(fault) = blamed(alloc, file_kind, walk, source, draft, &owns, &bytes, wrong)? {
        return Err(MakeError::Fault(fault));
    }
    let untrue = notes(alloc, file_kind, &owns, &bytes)?;
    Ok(Made { bytes, untrue })
}

// Returns an outcome, in which what was in doubt before comes before other faults.
fn or_doubt(doubt: Option<Fault>, outcome: Result<Made, MakeError>) -> Result<Made, MakeError>
    ensures { (meant : Result Table declared.Fault) → Gives table_of outcome meant
        → Gives table_of result (or_doubt (fault_in doubt) meant) }
{
    match outcome {
        Err(MakeError::Fault(fault)) => match doubt {
            Some(doubt) => Err(MakeError::Fault(doubt)),
            None => Err(MakeError::Fault(fault)),
        },
        outcome => outcome,
    }
}

/// Returns the table that the parts of a text are made into, by the form and the walk of its signature. What the text leaves
/// out is worked out: the length, the checksum, the number of structures and the offset of the first, the length and the type
/// of each structure, the numbers of what they contain, and references. The error is that memory ran out, or what is wrong, and
/// where. A text whose lines aren't those of the text that shows the table is wrong.
pub fn make_of(
    alloc: Global,
    form: TableForm,
    walk: Option<Walk>,
    file_kind: FileKind,
    text: &[u8],
    items: &[Item],
) -> Result<Made, MakeError>
    ensures { Gives table_of result
        (made file_kind walk (record { form = form; kind = type_place walk; text = text.now }) items.now) }
{
    let source = Source {
        form,
        kind: type_place(walk),
        text,
    };
    let draft = draft_of(alloc, &source, items)?;
    or_doubt(
        draft.doubt(),
        finish(alloc, file_kind, walk, &source, &draft),
    )
}
