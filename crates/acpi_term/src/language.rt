//! Languages of AML.

ghost use Rattle.std.specs.Prelude.{◌≡◌};
ghost use Rattle.acpi_term.specs.Language.{has, is_standard};

/// Which AML is read.
#[derive(Clone, Copy, Debug, PartialEq, Eq)]
pub enum Language {
    /// The terms and names that `terms` reads: those that the Rust crate writes.
    Written,
    /// These and the others of the standard (ACPI 6.5, 20.2).
    Standard,
}

impl Language {
    /// Whether it has what another language has.
    pub fn has(self, other: Language) -> bool
        ensures { result ≡ has self other }
    {
        match other {
            Language::Written => true,
            Language::Standard => self.is_standard(),
        }
    }

    /// Whether it is the standard's.
    pub fn is_standard(self) -> bool
        ensures { result ≡ is_standard self }
    {
        matches!(self, Language::Standard)
    }
}
