//! Images among the words of a command: FILE@BASE.

ghost use Rattle.std.specs.Prelude.{ℕ, List, MatchOption, IfSome};
ghost use Rattle.acpitool_program.specs.Placed.{IsPlaced};

use crate::command::address_of;
use crate::files::is_there;
use std::rt::Files;

/// An image in a file.
#[derive(Clone, Copy)]
pub struct Placed<'a> {
    /// The name of the file. It isn't `-`: a word that begins with a dash and has more is an option.
    pub file: &'a str,
    /// The physical address of the first byte.
    pub base: u64,
}

// Returns the image of a word FILE@BASE.
fn image_of(word: &str) -> Option<Placed<'_>>
    ensures { MatchOption result ((file : List ℕ) (base : ℕ) → ¬ IsPlaced word.now file base)
        (λ image. IsPlaced word.now image.file.now image.base) }
{
    let Some((file, base)) = word.split_once('@') else {
        return None;
    };
    match address_of(base) {
        Some(base) => Some(Placed { file, base }),
        None => None,
    }
}

/// Returns the image of a word FILE@BASE: the name of a file before the first `@`, and the physical address in hexadecimal at
/// which the image begins. A word that is the path of a file or a folder is none.
pub fn image_in<'a, R: Files>(rt: &R, word: &'a str) -> Option<Placed<'a>>
    ensures { IfSome result (λ image. IsPlaced word.now image.file.now image.base) }
{
    if is_there(rt, word) {
        return None;
    }
    image_of(word)
}
