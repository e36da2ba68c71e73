//! Why a run failed.

ghost use Rattle.std.specs.Prelude.{◌≡◌};

use acpi_build::error::BuildError;
use acpi_tables::Error as TableError;
use acpi_tables::layout::ImageFault;
use std::io;
use thiserror::Error;

/// Why a run failed. What it displays is the line for standard error.
#[derive(Debug, Drop, Error)]
pub enum Failure {
    /// The words aren't a folder and a base.
    #[error("usage: acpi_example [arm] FOLDER BASE")]
    Usage,
    /// The image and the pages of errors would pass the last address.
    #[error("BASE {0:#x}: the 0x111000 bytes from there on pass the last address")]
    Base(u64),
    /// The system refused the words, or took no output.
    #[error("{what}: {error}")]
    System {
        what: &'static str,
        error: io::Error,
    },
    /// The system knows no such folder.
    #[error("folder {path:?}: {error}")]
    Folder {
        path: String,
        error: io::Error,
    },
    /// A file wasn't written.
    #[error("{path}: {error}")]
    File {
        path: String,
        error: io::Error,
    },
    /// A table of this name wasn't made.
    #[error("{name}: {error}")]
    Table {
        name: &'static str,
        error: TableError,
    },
    /// A definition block of this name, or the image, wasn't built.
    #[error("{name}: {error}")]
    Block {
        name: &'static str,
        error: BuildError,
    },
    /// The image has a fault.
    #[error("image: {0}")]
    Image(ImageFault),
}

impl Failure {
    ghost use Rattle.acpi_example.specs.Failure.{status_of};

    /// The program's exit status.
    pub fn status(&self) -> u8
        ensures { result ≡ status_of self.now }
    {
        match self {
            Failure::Usage | Failure::Base(_) => 2,
            _ => 1,
        }
    }
}
