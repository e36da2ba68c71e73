//! Names as texts.

ghost use Rattle.std.specs.Prelude.{◌≡◌, ◌≢◌, ◌++◌, length, true, false, OnOk, IfOk, IfErr};
ghost use Rattle.std.specs.List.{concat};
ghost use Rattle.acpi_term.specs.Made.{Makes};
ghost use Rattle.acpi_term.specs.Name.{without_parents};
ghost use Rattle.acpi_term.specs.PathText.{root, unrooted, dotted, parts, are_fours};
ghost use Rattle.acpi_aml.specs.NameText.{parents, prefix, unprefixed, segments_after, name_of};

use acpi_base::error::{Error, R};
use acpi_term::row::{insert, with_room};
use std::alloc::Global;

/// The bytes of the name of a text (ACPI 6.5, 20.2.2, NameString): an optional `\` or any number of `^`, and then parts of four
/// bytes with dots between them, or nothing after `\` or `^`. The error is `NamePart` if a part isn't four bytes long; otherwise
/// it is `PathParts` if there are more than 255 parts.
#[tactic(auto, unfolding(crate::specs::NameText::name_of))]
pub fn name_bytes(alloc: Global, text: &str) -> R<Vec<u8>>
    ensures { Makes result (name_of text.now) }
{
    let mut bytes = with_room(alloc, &[])?;
    let rest = read_prefix(text.as_bytes(), &mut bytes)?;
    if rest.is_empty() && !bytes.is_empty() {
        bytes.push(0x00)?;
        return Ok(bytes);
    }
    with_segments(bytes, rest)
}

// Adds the `\` or the `^` at the beginning of a text, and returns the bytes after it.
fn read_prefix<'a>(text: &'a [u8], bytes: &mut Vec<u8>) -> R<&'a [u8]>
    ensures added { OnOk result (bytes.new.items ≡ bytes.old.items ++ prefix text.now) }
    ensures rest { IfOk result (λ rest. rest.now ≡ unprefixed text.now) }
    ensures err { IfErr result (λ e. e ≡ Error.Memory) }
{
    match text {
        [0x5e, ..] => read_parents(text, bytes),
        [0x5c, rest @ ..] => {
            bytes.push(0x5c)?;
            Ok(rest)
        }
        _ => Ok(text),
    }
}

// Adds the `^` at the beginning of a text, and returns the bytes after them.
fn read_parents<'a>(text: &'a [u8], bytes: &mut Vec<u8>) -> R<&'a [u8]>
    ensures added { OnOk result (bytes.new.items ≡ bytes.old.items ++ parents text.now) }
    ensures rest { IfOk result (λ rest. rest.now ≡ without_parents text.now) }
    ensures err { IfErr result (λ e. e ≡ Error.Memory) }
{
    let mut rest = text;
    while let [0x5e, more @ ..] = rest {
        bytes.push(0x5e)?;
        rest = more;
    }
    Ok(rest)
}

// Adds the segments of a text to bytes before them.
fn with_segments(before: Vec<u8>, text: &[u8]) -> R<Vec<u8>>
    ensures { Makes result (segments_after before.items text.now) }
{
    let at = before.len();
    let mut bytes = before;
    let count = read_segments(text, &mut bytes)?;
    let Ok(count) = u8::try_from(count) else {
        return Err(Error::PathParts);
    };
    match count {
        1 => {}
        2 => insert(&mut bytes, at, &[0x2e], &[])?,
        _ => insert(&mut bytes, at, &[0x2f], &[count])?,
    }
    Ok(bytes)
}

fn dotted(a: u8, b: u8, c: u8, d: u8) -> bool
    ensures { result ≡ dotted a b c d }
{
    a == 0x2e || b == 0x2e || c == 0x2e || d == 0x2e
}

// Adds the parts of four bytes between dots, and returns how many there are.
#[tactic(auto, using(acpi_term::proofs::PathTexts::short, acpi_term::proofs::PathTexts::dots, acpi_term::proofs::PathTexts::last, acpi_term::proofs::PathTexts::long, acpi_term::proofs::PathTexts::step,))]
fn read_segments(text: &[u8], segments: &mut Vec<u8>) -> R<usize>
    ensures added { OnOk result (segments.new.items ≡ segments.old.items ++ concat (parts text.now)) }
    ensures count { IfOk result (λ n. n ≡ length (parts text.now)) }
    ensures fours { OnOk result (are_fours (parts text.now) ≡ true) }
    ensures err { IfErr result (λ e. e ≢ Error.Memory → (e ≡ Error.NamePart) × (are_fours (parts text.now) ≡ false)) }
{
    let mut count = 0;
    let mut rest = text;
    while let [a, b, c, d, tail @ ..] = rest {
        if dotted(*a, *b, *c, *d) {
            return Err(Error::NamePart);
        }
        segments.extend_from_slice(&[*a, *b, *c, *d])?;
        count += 1;
        let Some((x, more)) = tail.split_first() else {
            return Ok(count);
        };
        if *x != 0x2e {
            return Err(Error::NamePart);
        }
        rest = more;
    }
    Err(Error::NamePart)
}
