//! Why a run failed.

ghost use Rattle.std.specs.Prelude.{◌≡◌};

use acpi_tables::Error as TableError;
use acpi_tables::read::ReadError;
use acpi_tables::text::MakeError;
use std::alloc::{AllocError, AllocFailed};
use std::io;
use thiserror::Error;

/// Why a run failed. Its text is the line for standard error.
#[derive(Debug, Drop, Error)]
pub enum Fault {
    /// A word of the command line is wrong.
    #[error("unknown word {0:?}; usage: test_bench WORKLOAD=N ..")]
    Word(String),
    /// The arguments or the output.
    #[error("{0}")]
    System(#[from] io::Error),
    /// A table wasn't built.
    #[error("{0}")]
    Built(#[from] TableError),
    /// A table wasn't read.
    #[error("{0}")]
    Read(#[from] ReadError),
    /// A table wasn't made of a text.
    #[error("{0}")]
    Made(#[from] MakeError),
}

impl Fault {
    ghost use Rattle.test_bench.specs.Fault.{status_of};

    /// The program's exit status.
    pub fn status(&self) -> u8
        ensures { result ≡ status_of self.now }
    {
        match self {
            Fault::Word(_) => 2,
            _ => 1,
        }
    }
}

/// An error of memory for a word.
impl From<AllocError> for Fault {
    fn from(_error: AllocError) -> Fault {
        Fault::Built(TableError::Memory)
    }
}
