//! The numbers that a text states wrongly.

ghost use Rattle.std.specs.Prelude.{◌≡◌, IfOk, IfErr, map};
ghost use Rattle.acpi_c_calls.specs.Results.{seen, IsOutcome, Gives};
ghost use Rattle.acpi_c_calls.specs.Refused.{by_memory};
ghost use Rattle.acpi_c_calls.specs.Make.{IsMakeRefusal};
ghost use Rattle.acpi_c_calls.specs.Notes.{note, AreNotes};

use crate::give::give;
use crate::refused::Refused;
use acpi_forms::make::make as made_of;
use acpi_make::extent::Own;
use std::alloc::Global;

/// A number of a table that a text states wrongly, such as a length, a count or a checksum.
#[repr(C)]
#[derive(Clone, Copy, Debug, PartialEq, Drop)]
pub struct Note {
    /// The offset of its field in the table.
    pub offset: usize,
    /// The width of the field in bytes.
    pub width: usize,
    /// The number that would be right.
    pub value: usize,
}

fn note_of(own: &Own) -> Note
    ensures { result ≡ note own.now }
{
    Note {
        offset: own.offset,
        width: own.width,
        value: own.number,
    }
}

fn notes_of(alloc: Global, owns: &[Own]) -> Result<Vec<Note>, Refused>
    ensures ok { IfOk result (λ notes. notes.items ≡ map note owns.now) }
    ensures err { IfErr result (λ refused. refused ≡ by_memory) }
{
    let mut notes = Vec::with_capacity(alloc, owns.len())?;
    'owns: for own in owns {
        notes.push(note_of(own))?;
    }
    Ok(notes)
}

// Returns the numbers that a text states wrongly.
fn noted(alloc: Global, text: &[u8]) -> Result<Vec<Note>, Refused>
    ensures { IsOutcome (AreNotes text.now) (IsMakeRefusal text.now) (seen (λ notes. notes.items) result) }
{
    match made_of(alloc, text) {
        Ok(made) => notes_of(alloc, &made.untrue),
        Err(error) => Err(Refused::of_text(error, text)),
    }
}

/// Writes the numbers that a text states wrongly to `out`: the offset of each field, its width and the right number. `size` is
/// how many there are. The table that `make` makes of the text has the stated numbers. Returns 0, or the number of a fault,
/// whose line is `place`, counted from 1. If `out` has space for fewer, the fault is `Buffer`, and nothing is written to `out`.
/// With any other fault `size` is 0.
pub fn make_notes(
    alloc: Global,
    text: &[u8],
    out: &mut [Note],
    size: &mut usize,
    place: &mut u64,
) -> u32
    ensures { Gives (AreNotes text.now) (IsMakeRefusal text.now) out.old out.new result place.new size.new }
{
    give(noted(alloc, text), out, size, place)
}
