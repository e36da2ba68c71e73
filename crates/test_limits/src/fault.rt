//! Why a run failed.

use acpi_tables::Error as TableError;
use acpi_tables::read::ReadError;
use std::alloc::AllocError;
use std::io;
use thiserror::Error;

/// Why a run failed. Its text is the line for standard error.
#[derive(Debug, Drop, Error)]
pub enum Fault {
    /// A word of the command line isn't the name of a table.
    #[error("unknown name {0:?}; usage: test_limits NAME ..")]
    Name(String),
    /// The arguments or the output.
    #[error("{0}")]
    System(#[from] io::Error),
    /// A call returned an error other than that of the size.
    #[error("{0}")]
    Built(#[from] TableError),
    /// The bytes aren't a correct table.
    #[error("{0}")]
    Read(#[from] ReadError),
    /// The length field of a structure isn't its number of bytes.
    #[error("the length at offset 4 is wrong")]
    Length,
    /// A call that passes the limit succeeded.
    #[error("no call was refused")]
    Unlimited,
}

impl Fault {
    /// The program's exit status.
    pub fn status(&self) -> u8 {
        match self {
            Fault::Name(_) => 2,
            _ => 1,
        }
    }
}

/// An error of memory for a name.
impl From<AllocError> for Fault {
    fn from(_error: AllocError) -> Fault {
        Fault::Built(TableError::Memory)
    }
}
