//! Checks of AML.

ghost use Rattle.std.specs.Prelude.{◌≡◌, ◌≢◌, ◌<◌, ◌++◌, ◌∷◌, [], length, map, string_bytes, IfOk, IfErr};
ghost use Rattle.acpi_c_calls.specs.Aml.{words, AreStated, AreNotStated, AreTerms, IsAmlRefusal};
ghost use Rattle.acpi_c_calls.specs.Aml.{SpellTerms, IsTermsRefusal};
ghost use Rattle.acpi_c_calls.specs.Results.{IsOutcome, Checks};
ghost use Rattle.acpi_c_calls.specs.Refused.{by_memory};

use crate::fault::Fault;
use crate::give::result_of;
use crate::refused::Refused;
use acpi_input::stated::{Unstated, arities};
use acpi_read::terms::standard_terms;
use acpi_term::name_string::Arities;
use std::alloc::{AllocError, Global};

// Returns the first word of a text, and the text after the space behind it.
fn first_word(text: &str) -> (&str, &str)
    requires { text.now ≢ [] }
    ensures words { words text.now ≡ result.0.now ∷ words result.1.now }
    ensures shorter { length result.1.now < length text.now }
{
    match text.split_once(' ') {
        Some((word, rest)) => (word, rest),
        None => (text, ""),
    }
}

// Adds the first word of a text, and returns the text after it.
fn push_word<'a>(alloc: Global, text: &'a str, all: &mut Vec<String>) -> Result<&'a str, AllocError>
    requires { text.now ≢ [] }
    ensures words { IfOk result (λ rest. map (λ word. string_bytes word) all.new.items ++ words rest.now
        ≡ map (λ word. string_bytes word) all.old.items ++ words text.now) }
    ensures shorter { IfOk result (λ rest. length rest.now < length text.now) }
{
    let (word, rest) = first_word(text);
    all.push(String::from_str(alloc, word)?)?;
    Ok(rest)
}

// Returns the words of a text.
fn words(alloc: Global, text: &str) -> Result<Vec<String>, AllocError>
    ensures { IfOk result (λ all. map (λ word. string_bytes word) all.items ≡ words text.now) }
{
    let mut all = Vec::new(alloc);
    let mut rest = text;
    'words: while !rest.is_empty() {
        rest = push_word(alloc, rest, &mut all)?;
    }
    Ok(all)
}

// Returns how many arguments names take by a text.
pub(crate) fn stated(alloc: Global, text: &[u8]) -> Result<Arities, Refused>
    ensures ok { IfOk result (AreStated text.now) }
    ensures err { IfErr result (AreNotStated text.now) }
{
    let Ok(text) = std::str::from_utf8(text) else {
        return Err(Refused::anywhere(Fault::Arities));
    };
    let words = words(alloc, text)?;
    match arities(alloc, &words) {
        Ok(arities) => Ok(arities),
        Err(Unstated::Word) => Err(Refused::anywhere(Fault::Arities)),
        Err(_) => Err(Refused::from(AllocError)),
    }
}

// Checks that bytes spell terms.
fn spelled(bytes: &[u8], arities: &Arities) -> Result<(), Refused>
    ensures { IsOutcome (λ done. SpellTerms arities.now bytes.now) (IsTermsRefusal arities.now bytes.now) result }
{
    match standard_terms(bytes, arities) {
        Ok(_) => Ok(()),
        Err(error) => Err(Refused::from(error)),
    }
}

// Checks that bytes spell terms, if names take the numbers of arguments of a text.
fn checked(alloc: Global, bytes: &[u8], text: &[u8]) -> Result<(), Refused>
    ensures { IsOutcome (λ done. AreTerms text.now bytes.now) (IsAmlRefusal text.now bytes.now) result }
{
    let arities = stated(alloc, text)?;
    spelled(bytes, &arities)
}

/// Checks that bytes spell terms of AML (ACPI 6.5, 20.2), in the language of the standard and without a table's header. AML
/// doesn't say how many arguments a call of a method has: `arities` is a text of words `NAME=N` with a space between two, and
/// any other name takes none. Returns 0, or the number of a fault, whose offset in `bytes` is `place`.
pub fn check_aml(alloc: Global, bytes: &[u8], arities: &[u8], place: &mut u64) -> u32
    ensures { Checks (AreTerms arities.now bytes.now) (IsAmlRefusal arities.now bytes.now) result place.new }
{
    result_of(checked(alloc, bytes, arities), place)
}
