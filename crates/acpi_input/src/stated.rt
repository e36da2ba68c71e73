//! Words that state how many arguments names take.

ghost use Rattle.std.specs.Prelude.{◌≡◌, ◌≢◌, Some, None, map, string_bytes, IfOk, IfErr};
ghost use Rattle.acpi_input.specs.Stated.{stated_by, stated, IsUnstatedWhere};
ghost use Rattle.acpi_input.specs.declared.stated.Unstated.TheVariants.{Memory};

use acpi_term::name_string::{Arities, NameString};
use acpi_term::read_error::ReadError;
use std::alloc::{AllocError, AllocFailed, Global};

/// Why words state no numbers of arguments.
#[derive(Clone, Copy, Debug)]
pub enum Unstated {
    /// A word isn't `NAME=N`, or a name is there twice.
    Word,
    /// Memory ran out.
    Memory,
}

impl From<AllocError> for Unstated {
    ghost from_gives = { λ _ unstated. unstated ≡ Memory };

    fn from(_error: AllocError) -> Unstated {
        Unstated::Memory
    }
}

impl<T: Drop> From<AllocFailed<T>> for Unstated {
    ghost from_gives = { λ _ unstated. unstated ≡ Memory };

    fn from(_error: AllocFailed<T>) -> Unstated {
        Unstated::Memory
    }
}

// Returns why words state nothing, where a name or a list of names can't be read.
fn unread(error: ReadError) -> Unstated
    ensures memory { error ≡ ReadError.Memory → result ≡ Unstated.Memory }
    ensures other { error ≢ ReadError.Memory → result ≡ Unstated.Word }
{
    match error {
        ReadError::Memory => Unstated::Memory,
        _ => Unstated::Word,
    }
}

/// Returns the name and the number in a word `NAME=N`. `NAME` is a name of AML as text, and `N` a digit from 0 to 7 (ACPI 6.5,
/// 20.2.2 and 20.2.5.2).
pub fn stated(alloc: Global, word: &str) -> Result<(NameString, u8), Unstated>
    ensures ok { IfOk result (λ entry. stated_by word.now ≡ Some entry) }
    ensures err { IfErr result (IsUnstatedWhere (stated_by word.now ≡ None)) }
{
    let Some((name, number)) = word.split_once('=') else {
        return Err(Unstated::Word);
    };
    let [digit @ b'0'..=b'7'] = number.as_bytes() else {
        return Err(Unstated::Word);
    };
    let name = NameString::new(alloc, name).map_err(unread)?;
    Ok((name, digit - b'0'))
}

/// Returns the numbers of arguments that words state, each as `NAME=N`.
pub fn arities(alloc: Global, words: &[String]) -> Result<Arities, Unstated>
    ensures ok { IfOk result (λ arities. stated (map (λ word. string_bytes word) words.now) ≡ Some arities) }
    ensures err { IfErr result (IsUnstatedWhere (stated (map (λ word. string_bytes word) words.now) ≡ None)) }
{
    let mut entries = Vec::new(alloc);
    for word in words {
        entries.push(stated(alloc, word.as_str())?)?;
    }
    Arities::new(entries).map_err(unread)
}
