//! Paths of names (ACPI 6.5, 20.2.2, NameString).

ghost use Rattle.std.specs.Prelude.{◌≡◌, ◌<◌, ◌++◌, ◌∷◌, length, take, true, false, IfSome, IfNone, Some, None};
ghost use Rattle.std.specs.List.{concat};
ghost use Rattle.std.specs.Option.{option_map};
ghost use Rattle.acpi_term.specs.PathText.{root, unrooted, dotted, parts, are_fours, lead, path_of};
ghost use Rattle.acpi_c_calls.specs.Path.{following};
ghost use Rattle.acpi_c_calls.specs.Writer.{piece_of};

use crate::fault::Fault;
use crate::held::Held;

fn dotted(a: u8, b: u8, c: u8, d: u8) -> bool
    ensures { result ≡ dotted a b c d }
{
    a == 0x2e || b == 0x2e || c == 0x2e || d == 0x2e
}

// Returns the root of a text, and the bytes after it.
fn split_root(text: &[u8]) -> (&[u8], &[u8])
    ensures root { result.0.now ≡ root text.now }
    ensures rest { result.1.now ≡ unrooted text.now }
{
    let Some((b, rest)) = text.split_first() else {
        return (text, text);
    };
    if *b != 0x5c {
        return (&[], text);
    }
    (&[0x5c], rest)
}

// Returns the first part, if it has four bytes, and what follows the dot after it.
#[tactic(auto, using(acpi_term::proofs::PathTexts::short, acpi_term::proofs::PathTexts::dots, acpi_term::proofs::PathTexts::last, acpi_term::proofs::PathTexts::long, acpi_term::proofs::PathTexts::step,))]
fn first_part(text: &[u8]) -> Option<(&[u8], Option<&[u8]>)>
    ensures some { IfSome result (λ p. parts text.now ≡ p.0.now ∷ following (option_map (λ rest. rest.now) p.1)) }
    ensures four { IfSome result (λ p. length p.0.now ≡ 4) }
    ensures shorter { IfSome result (λ p. IfSome p.1 (λ rest. length rest.now < length text.now)) }
    ensures none { IfNone result (are_fours (parts text.now) ≡ false) }
{
    let [a, b, c, d, tail @ ..] = text else {
        return None;
    };
    if dotted(*a, *b, *c, *d) {
        return None;
    }
    let Some((x, more)) = tail.split_first() else {
        return Some((&text[..4], None));
    };
    if *x != 0x2e {
        return None;
    }
    Some((&text[..4], Some(more)))
}

// Returns how many parts there are, if each has four bytes.
fn count_parts(text: &[u8]) -> Option<usize>
    ensures some { IfSome result (λ count. (count ≡ length (parts text.now)) × (are_fours (parts text.now) ≡ true)) }
    ensures none { IfNone result (are_fours (parts text.now) ≡ false) }
{
    let mut count = 0;
    let mut rest = Some(text);
    'parts: while let Some(text) = rest {
        let (_, more) = first_part(text)?;
        count += 1;
        rest = more;
    }
    Some(count)
}

// Adds the parts, each of which has four bytes.
#[tactic(auto, using(crate::proofs::Paths::held_none))]
fn hold_parts(text: &[u8], held: &mut Held)
    requires { are_fours (parts text.now) ≡ true }
    ensures { take 1024 held.new ≡ take 1024 (held.old ++ concat (parts text.now)) }
{
    let mut rest = Some(text);
    'parts: while let Some(text) = rest {
        let Some((part, more)) = first_part(text) else {
            return;
        };
        held.add(part);
        rest = more;
    }
}

// Adds the bytes before this many parts.
fn hold_lead(count: u8, held: &mut Held)
    ensures { held.new ≡ take 1024 (held.old ++ lead count) }
{
    match count {
        1 => held.add(&[]),
        2 => held.add(&[0x2e]),
        _ => held.add(&[0x2f, count]),
    }
}

// Returns the bytes of the path of a text: an optional `\`, and then parts of four bytes with dots between them. The fault is
// `NamePart` if a part isn't four bytes long; otherwise it is `PathParts` if there are more than 255 parts.
#[tactic(auto, using(crate::proofs::Paths::path_held))]
pub(crate) fn hold_path(text: &[u8]) -> Result<Held, Fault>
    ensures { result ≡ piece_of (path_of text.now) }
{
    let (root, rest) = split_root(text);
    let Some(count) = count_parts(rest) else {
        return Err(Fault::NamePart);
    };
    let Ok(count) = u8::try_from(count) else {
        return Err(Fault::PathParts);
    };
    let mut held = Held::new();
    held.add(root);
    hold_lead(count, &mut held);
    hold_parts(rest, &mut held);
    let _few = held.bytes();
    Ok(held)
}
