//! Why a run fails.

use acpi_loader::LoaderFault;
use acpi_tables::Error;
use acpi_tables::layout::{ImageFault, LayFault, RsdtFault};
use acpi_tables::read::ReadError;
use std::alloc::{AllocError, AllocFailed};
use std::io;

/// Why a run fails.
#[derive(Debug, Drop)]
pub enum Fault {
    /// Memory was refused a second time.
    Memory,
    /// A failed call changed the bytes of an argument, or of the object that it changes if it succeeds.
    Changed,
    /// A call returned another error.
    Built(Error),
    Read(ReadError),
    Image(ImageFault),
    Low(RsdtFault),
    Files(LayFault),
    Loader(LoaderFault),
    /// The output can't be written.
    Output(io::Error),
}

impl From<Error> for Fault {
    fn from(error: Error) -> Fault {
        match error {
            Error::Memory => Fault::Memory,
            other => Fault::Built(other),
        }
    }
}

impl From<ReadError> for Fault {
    fn from(error: ReadError) -> Fault {
        match error {
            ReadError::Memory => Fault::Memory,
            other => Fault::Read(other),
        }
    }
}

impl From<ImageFault> for Fault {
    fn from(error: ImageFault) -> Fault {
        match error {
            ImageFault::Memory => Fault::Memory,
            other => Fault::Image(other),
        }
    }
}

impl From<RsdtFault> for Fault {
    fn from(error: RsdtFault) -> Fault {
        match error {
            RsdtFault::Table(Error::Memory) => Fault::Memory,
            other => Fault::Low(other),
        }
    }
}

impl From<LayFault> for Fault {
    fn from(error: LayFault) -> Fault {
        match error {
            LayFault::Memory => Fault::Memory,
            other => Fault::Files(other),
        }
    }
}

impl From<LoaderFault> for Fault {
    fn from(error: LoaderFault) -> Fault {
        match error {
            LoaderFault::NotLaid(LayFault::Memory) => Fault::Memory,
            other => Fault::Loader(other),
        }
    }
}

impl From<AllocError> for Fault {
    fn from(_error: AllocError) -> Fault {
        Fault::Memory
    }
}

impl<T: Drop> From<AllocFailed<T>> for Fault {
    fn from(_error: AllocFailed<T>) -> Fault {
        Fault::Memory
    }
}

impl From<io::Error> for Fault {
    fn from(error: io::Error) -> Fault {
        Fault::Output(error)
    }
}
