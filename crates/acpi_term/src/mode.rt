//! The places in which a term can stand.

ghost use Rattle.std.specs.Prelude.{◌≡◌};
ghost use Rattle.acpi_term.specs.Spelling.{next, is_test, is_timeout};

use crate::language::Language;

/// The place of a term. It decides how many arguments follow a name, and whether a test of a Match or a timeout stands there.
#[derive(Clone, Copy, Debug, PartialEq, Eq)]
pub enum Mode {
    /// As a term or an operand: a name is followed by its arguments.
    Term,
    /// As an element of a package: a name stands alone.
    Element,
    /// As the number of elements of a VarPackage: a term that is followed by elements.
    Count,
    /// As the package that a Match searches: a term that is followed by two tests (ACPI 6.5, 20.2.5.4, DefMatch).
    Searched,
    /// As the first test of a Match: a MatchOpcode and its operand.
    FirstTest,
    /// As the second test of a Match, which is followed by a term.
    SecondTest,
    /// As the object of an Acquire, which is no name: a term that is followed by a timeout (ACPI 6.5, 20.2.5.4, DefAcquire).
    Acquired,
    /// As the object of a Release, which is no name.
    Released,
    /// As the timeout of an Acquire: two bytes.
    Timeout,
}

impl Mode {
    /// The place of the terms after it.
    pub fn next(self) -> Mode
        ensures { result ≡ next self }
    {
        match self {
            Mode::Term | Mode::SecondTest | Mode::Released | Mode::Timeout => Mode::Term,
            Mode::Acquired => Mode::Timeout,
            Mode::Searched => Mode::FirstTest,
            Mode::FirstTest => Mode::SecondTest,
            Mode::Element | Mode::Count => Mode::Element,
        }
    }

    /// Whether a test of a Match stands there in a language.
    pub fn is_test(self, language: Language) -> bool
        ensures { result ≡ is_test language self }
    {
        match language {
            Language::Written => false,
            Language::Standard => matches!(self, Mode::FirstTest | Mode::SecondTest),
        }
    }

    /// Whether the timeout of an Acquire stands there in a language.
    pub fn is_timeout(self, language: Language) -> bool
        ensures { result ≡ is_timeout language self }
    {
        match language {
            Language::Written => false,
            Language::Standard => matches!(self, Mode::Timeout),
        }
    }
}
