//! Paths of names.

ghost use Rattle.acpi_base.specs.Object.{Builds};
ghost use Rattle.acpi_term.specs.PathText.{path_of};
ghost use Rattle.acpi_aml.specs.NameText.{name_of};

use crate::name_text::name_bytes;
use crate::written::Written;
use acpi_base::error::R;
use acpi_term::path_text::path_bytes;
use std::alloc::Global;

/// A path of names (ACPI 6.5, 20.2.2, NameString).
pub type Path = Written<NameString>;

pub struct NameString;

impl Path {
    /// The path of a text: an optional `\`, and then parts with dots between them. The error is `NamePart` if a part isn't four
    /// bytes long; otherwise it is `PathParts` if there are more than 255 parts.
    #[inline(always)]
    pub fn new(alloc: Global, text: &str) -> R<Path>
        ensures { Builds result (path_of text.now) }
    {
        let bytes = path_bytes(alloc, text)?;
        Ok(Written::of(bytes))
    }

    /// Any name of the standard: an optional `\` or any number of `^`, and then parts with dots between them, or nothing after
    /// `\` or `^`. The errors are those of `new`.
    pub fn name_string(alloc: Global, text: &str) -> R<Path>
        ensures { Builds result (name_of text.now) }
    {
        let bytes = name_bytes(alloc, text)?;
        Ok(Written::of(bytes))
    }
}
