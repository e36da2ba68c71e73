//! Paths as texts.

ghost use Rattle.std.specs.Prelude.{◌≡◌, ◌≢◌, ◌++◌, length, true, false, OnOk, IfOk, IfErr};
ghost use Rattle.std.specs.List.{concat};
ghost use Rattle.acpi_term.specs.Made.{Makes};
ghost use Rattle.acpi_term.specs.PathText.{root, unrooted, dotted, parts, are_fours, path_of};

use crate::row::{insert, with_room};
use acpi_base::error::{Error, R};
use std::alloc::Global;

/// The bytes of the path of a text (ACPI 6.5, 20.2.2): an optional `\`, and then parts of four bytes with dots between them. The
/// error is `NamePart` if a part isn't four bytes long; otherwise it is `PathParts` if there are more than 255 parts.
#[inline(always)]
pub fn path_bytes(alloc: Global, text: &str) -> R<Vec<u8>>
    ensures { Makes result (path_of text.now) }
{
    let (root, rest) = split_root(text.as_bytes());
    let mut bytes = with_room(alloc, root)?;
    let count = read_segments(rest, &mut bytes)?;
    let Ok(count) = u8::try_from(count) else {
        return Err(Error::PathParts);
    };
    match count {
        1 => {}
        2 => insert(&mut bytes, root.len(), &[0x2e], &[])?,
        _ => insert(&mut bytes, root.len(), &[0x2f], &[count])?,
    }
    Ok(bytes)
}

/// The root of a text, and the bytes after it.
#[inline(always)]
pub(crate) fn split_root(text: &[u8]) -> (&[u8], &[u8])
    ensures root { result.0.now ≡ root text.now }
    ensures rest { result.1.now ≡ unrooted text.now }
{
    let Some((b, rest)) = text.split_first() else {
        return (text, text);
    };
    if *b != 0x5c {
        return (&[], text);
    }
    (&[0x5c], rest)
}

fn dotted(a: u8, b: u8, c: u8, d: u8) -> bool
    ensures { result ≡ dotted a b c d }
{
    a == 0x2e || b == 0x2e || c == 0x2e || d == 0x2e
}

/// Adds the parts of four bytes between dots, and returns how many there are.
#[tactic(auto, using(crate::proofs::PathTexts::short, crate::proofs::PathTexts::dots, crate::proofs::PathTexts::last, crate::proofs::PathTexts::long, crate::proofs::PathTexts::step,))]
#[inline(always)]
fn read_segments(text: &[u8], segments: &mut Vec<u8>) -> R<usize>
    ensures added { OnOk result (segments.new.items ≡ segments.old.items ++ concat (parts text.now)) }
    ensures count { IfOk result (λ n. n ≡ length (parts text.now)) }
    ensures fours { OnOk result (are_fours (parts text.now) ≡ true) }
    ensures err { IfErr result (λ e. e ≢ Error.Memory → (e ≡ Error.NamePart) × (are_fours (parts text.now) ≡ false)) }
{
    let mut count = 0;
    let mut rest = text;
    while let [a, b, c, d, tail @ ..] = rest {
        if dotted(*a, *b, *c, *d) {
            return Err(Error::NamePart);
        }
        segments.extend_from_slice(&[*a, *b, *c, *d])?;
        count += 1;
        let Some((x, more)) = tail.split_first() else {
            return Ok(count);
        };
        if *x != 0x2e {
            return Err(Error::NamePart);
        }
        rest = more;
    }
    Err(Error::NamePart)
}
