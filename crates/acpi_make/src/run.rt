//! Runs of characters that leave the reader of a text where it is.

ghost use Rattle.std.specs.Prelude.{◌≡◌, ◌≤◌, length};
ghost use Rattle.acpi_make.specs.Run.{is_plain, after_plain, MeansSame};

use crate::state::State;

// Returns whether a character of ASCII prints, and isn't this one.
#[inline(always)]
fn is_plain(end: u8, character: u8) -> bool
    ensures { result ≡ is_plain end character }
{
    (b' '..=b'~').contains(&character) && character != end
}

// Returns what stands after the plain characters that a text begins with.
#[inline(always)]
fn after_plain(end: u8, text: &[u8]) -> &[u8]
    ensures is { result.now ≡ after_plain end text.now }
    ensures within { length result.now ≤ length text.now }
{
    let mut rest = text;
    'characters: while let [character, more @ ..] = rest {
        if !is_plain(end, *character) {
            return rest;
        }
        rest = more;
    }
    rest
}

/// Returns what stands after a run of characters that leave the state as it is. It is the text itself in states that most
/// characters change.
/// A comment and a heading go on to the end of their line: 127 doesn't print, so no plain character ends them.
#[inline(always)]
pub fn after_run(state: State, text: &[u8]) -> &[u8]
    ensures same { MeansSame state text.now result.now }
    ensures within { length result.now ≤ length text.now }
{
    match state {
        State::Skipped => after_plain(127, text),
        State::Headed(_) => after_plain(127, text),
        State::Named(_) => after_plain(b':', text),
        State::Braced(_) => after_plain(b'}', text),
        _ => text,
    }
}
