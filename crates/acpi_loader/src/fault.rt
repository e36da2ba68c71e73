//! Why files have no loader.

ghost use Rattle.std.specs.Prelude.{Some};
ghost use Rattle.acpi_loader.specs.Fault.{text_of};

use acpi_layout::lay_fault::LayFault;
use std::fmt;

/// Why files have no loader.
#[derive(Clone, Copy, Debug, PartialEq)]
pub enum LoaderFault {
    /// The files aren't laid into an image.
    NotLaid(LayFault),
    /// The image has 2^32 bytes or more, so an offset may not fit a command.
    TooLarge,
}

/// The fault as text, for the user of a program.
impl fmt::Display for LoaderFault {
    ghost output = { λ fault. Some (text_of fault) };

    fn fmt<W: fmt::Write>(&self, f: &mut fmt::Formatter<W>) -> fmt::Result {
        match self {
            LoaderFault::NotLaid(fault) => write!(f, "{fault}"),
            LoaderFault::TooLarge => write!(f, "too large for a loader"),
        }
    }
}

impl std::error::Error for LoaderFault {}
