//! What is wrong with the bytes of a file, in words.

ghost use Rattle.std.specs.Prelude.{◌≡◌, ℕ, List, Some, ◌+◌, ◌<◌, ◌^◌, IfSome};
ghost use Rattle.acpi_term.specs.ReadError.{offset_of};
ghost use Rattle.acpitool_program.specs.Fault.{line_of, IsFaultOf, IsFaultIn, IsFaultAfter};
ghost use Rattle.acpitool_program.specs.Text.{IsTextFault};

use crate::another::another_of;
use acpi_forms::words::{words, words_by};
use acpi_make::file_kind::FileKind;
use acpi_term::read_error::ReadError;
use std::alloc::AllocError;
use std::fmt;

/// What is wrong with bytes. Its text is a line for standard error, without the name of the file.
#[derive(Clone, Copy)]
pub struct Fault {
    /// The offset of the fault from the first byte of the table, if it has one.
    pub place: Option<usize>,
    /// What is wrong.
    pub words: &'static str,
}

impl Fault {
    /// The fault of an error in bytes that are what their signature says.
    pub fn of(kind: FileKind, error: ReadError) -> Fault
        ensures { IsFaultOf kind error result }
    {
        Fault {
            place: error.offset(),
            words: words_by(kind, error),
        }
    }

    /// The fault of an error in the bytes of a file, which are what their signature says, or no table.
    pub fn in_file(kind: FileKind, error: ReadError, bytes: &[u8]) -> Fault
        ensures { IsFaultIn kind error bytes.now result }
    {
        match another_of(bytes) {
            Some(another) => Fault {
                place: None,
                words: another.words(),
            },
            None => Fault::of(kind, error),
        }
    }

    /// The fault of an error in terms that begin at offset `start` of a table.
    pub fn after(start: usize, error: ReadError) -> Fault
        requires { IfSome (offset_of error) (λ offset. start + offset < 2 ^ 64) }
        ensures { IsFaultAfter start error result }
    {
        let place = error.offset().map(|offset| start + offset);
        Fault {
            place,
            words: words(error),
        }
    }
}

/// Memory may run out with any bytes.
impl From<AllocError> for Fault {
    ghost from_gives = { λ _ fault. (bytes : List ℕ) → IsTextFault bytes fault };

    #[tactic(auto, using(crate::proofs::Texts::memory_is_fault))]
    fn from(_error: AllocError) -> Fault {
        Fault::of(FileKind::Table, ReadError::Memory)
    }
}

impl fmt::Display for Fault {
    ghost output = { λ fault. Some (line_of fault) };

    fn fmt<W: fmt::Write>(&self, f: &mut fmt::Formatter<W>) -> fmt::Result {
        let words = self.words;
        match self.place {
            Some(offset) => write!(f, "at {offset}: {words}"),
            None => write!(f, "{words}"),
        }
    }
}
